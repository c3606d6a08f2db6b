use crate::parts::{UNUSED, denied, played, ran, stepped};
use bus::silent::SilentBus;
use buses::teletype::Teletype;
use console::machine::Machine;
use model::Item;
use queue::Queue;
use std::test::Fail;
use store::boards::CoreBoards;

/// A run stops for waiting, for a full trace, for its count; a full trace comes before the count.
#[test]
fn reasons(rt: HostRuntime) {
    let mut words = [0; 8];
    let mut slots = [UNUSED; 2];
    let mut trace = Queue::new(&mut slots);
    let mut m = Machine::make(CoreBoards::new(&mut words), SilentBus {});
    assert_eq!(rt; ran(m.run(9, &mut trace)), [1, 0]);
    assert_eq!(rt; denied(m.deposit(4, 0x2300)), 0);
    assert_eq!(rt; denied(m.set(Item::Status, 0)), 0);
    assert_eq!(rt; denied(m.set(Item::Location, 4)), 0);
    assert_eq!(rt; ran(m.run(1, &mut trace)), [1, 2]);
    assert_eq!(rt; ran(m.run(700, &mut trace)), [700, 2]);
    assert_eq!(rt; m.show(Item::Location).unwrap_or(0), 4);
    assert_eq!(rt; denied(m.set(Item::Location, 6)), 0);
    assert_eq!(rt; ran(m.run(1, &mut trace)), [1, 2]);
    assert_eq!(rt; ran(m.run(1, &mut trace)), [1, 1]);
    assert_eq!(rt; ran(m.run(1, &mut trace)), [9, 3]);
}

/// The sample tape: one step of AIS.
#[test]
fn sample(rt: HostRuntime) {
    let mut words = [0; 2048];
    let mut slots = [UNUSED; 1];
    let mut trace = Queue::new(&mut slots);
    let mut m = Machine::make(CoreBoards::new(&mut words), SilentBus {});
    assert_eq!(rt;
        played(m.play(
            b"A\x00\x0a\x00D\x26\x11L\x00\x0a\x00P\x00\x00\x00\x00G\x00\x00\x01",
            &mut trace
        )),
        [0, 5, 0]
    );
    assert_eq!(rt; m.show(Item::General(0, 1)).unwrap_or(0), 1);
    assert_eq!(rt; m.show(Item::Location).unwrap_or(0), 0xa02);
    assert_eq!(rt; m.show(Item::Status).unwrap_or(0), 2);
    assert!(rt; trace.is_empty());
}

/// A status, a halfword, and the number that a step answers at it, with the interrupt status of its record.
#[derive(Clone, Copy)]
struct Case {
    status: u32,
    word: u16,
    answer: u8,
    faults: u32,
}

/// A step with each answer but device: the record, and what set 0 keeps.
#[test]
fn answers(rt: HostRuntime) {
    let cases = [
        Case {
            status: 0x8000,
            word: 0x2611,
            answer: 1,
            faults: 0,
        },
        Case {
            status: 0x00f0,
            word: 0x2611,
            answer: 0,
            faults: 0,
        },
        Case {
            status: 0x00f3,
            word: 0x0000,
            answer: 2,
            faults: 0,
        },
        Case {
            status: 0x0100,
            word: 0x9512,
            answer: 2,
            faults: 0,
        },
        Case {
            status: 0x1000,
            word: 0x1d24,
            answer: 3,
            faults: 0,
        },
        Case {
            status: 0x0000,
            word: 0x1d24,
            answer: 0,
            faults: 0,
        },
        Case {
            status: 0x0400,
            word: 0x2611,
            answer: 4,
            faults: 0x10,
        },
        Case {
            status: 0x0010,
            word: 0xe130,
            answer: 5,
            faults: 0,
        },
    ];
    for case in cases {
        let mut words = [0; 2048];
        let mut slots = [UNUSED; 1];
        let mut trace = Queue::new(&mut slots);
        let mut m = Machine::make(CoreBoards::new(&mut words), SilentBus {});
        assert_eq!(rt; denied(m.deposit(0xa00, case.word)), 0);
        assert_eq!(rt; denied(m.set(Item::Location, 0xa00)), 0);
        assert_eq!(rt; denied(m.set(Item::Status, case.status)), 0);
        assert_eq!(rt; stepped(m.step(&mut trace)), case.answer);
        if let Some(record) = trace.get(0) {
            assert_eq!(rt; u8::from(record.cause), case.answer);
            assert_eq!(rt; [record.status, record.faults], [case.status, case.faults]);
            assert_eq!(rt; m.interrupt_status(), case.faults);
            assert_eq!(rt; m.show(Item::General(0, 14)).unwrap_or(1), case.status);
            assert_eq!(rt; m.show(Item::General(0, 15)).unwrap_or(1), record.location);
        } else {
            assert!(rt; case.answer < 2);
        }
    }
}

/// A teletype is told to request; the step after it takes the request, by the table at X'D0'.
#[test]
fn device(rt: HostRuntime) -> Result<(), Fail> {
    let mut words = [0; 2048];
    let mut bytes = [0; 1];
    let mut keyed = Queue::new(&mut bytes);
    assert!(rt; keyed.push(65).is_ok());
    let mut slots = [UNUSED; 1];
    let mut trace = Queue::new(&mut slots);
    let mut m = Machine::make(CoreBoards::new(&mut words), Teletype::new(keyed));
    assert_eq!(rt;
        played(m.play(
            b"A\x00\x00\xd4D\x0b\x01A\x00\x0a\x00D\x24\x12D\xc8\x20D\x00\x40D\x9e\x12L\x00\x0a\x00P\x00\x00\x40\xf0G\x00\x00\x09",
            &mut trace
        )),
        [0, 10, 0]
    );
    let record = trace.get(0).ok_or("no record")?;
    assert_eq!(rt; u8::from(record.cause), 6);
    assert_eq!(rt; [record.status, record.location], [0x40f0, 0xa08]);
    for (number, value) in [(0, 0x40f0), (1, 0xa08), (2, 2), (3, 0), (4, 0xb01)] {
        assert_eq!(rt; m.show(Item::General(0, number)).unwrap_or(1), value);
    }
    assert_eq!(rt; m.show(Item::Status).unwrap_or(0), 0x2800);
    assert_eq!(rt; m.show(Item::Location).unwrap_or(0), 0xb00);
    Ok(())
}
