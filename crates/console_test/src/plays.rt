use crate::parts::{UNUSED, denied, played};
use bus::silent::SilentBus;
use console::machine::Machine;
use model::Item;
use queue::Queue;
use std::test::Fail;
use store::boards::CoreBoards;
use stores::strip::LoaderStrip;

/// A tape, and what its play answers.
#[derive(Clone, Copy)]
struct Case<'a> {
    tape: &'a [u8],
    says: [usize; 3],
}

/// Tapes that end well, and one for each denial that a tape can reach but 9.
#[test]
fn ends(rt: HostRuntime) {
    let cases = [
        Case {
            tape: b"",
            says: [0, 0, 0],
        },
        Case {
            tape: b"A\xff\xff\xff",
            says: [0, 1, 0],
        },
        Case {
            tape: b"R\xf7\x01\x02\x03\x04S\x0f\x0f\xff\xff\xf0P\xff\xff\xff\xffL\x0f\xff\xfe",
            says: [0, 4, 0],
        },
        Case {
            tape: b"A\x00\x00\x01D\x00\x00",
            says: [1, 4, 0x44],
        },
        Case {
            tape: b"A\x10\x00\x00D\x00\x00",
            says: [1, 4, 0x44],
        },
        Case {
            tape: b"A\x00\x0f\xfeD\x00\x07D\x00\x08",
            says: [1, 7, 0x44],
        },
        Case {
            tape: b"A\x00\x00\x4eD\x00\x07D\x00\x08",
            says: [2, 7, 0x44],
        },
        Case {
            tape: b"R\x10\x00\x00\x00\x00",
            says: [3, 0, 0x52],
        },
        Case {
            tape: b"P\x00\x00\x00\x00R\xe5\x00\x00\x00\x00",
            says: [3, 5, 0x52],
        },
        Case {
            tape: b"S\x10\x00\x00\x00\x01",
            says: [3, 0, 0x53],
        },
        Case {
            tape: b"S\x0f\x00\x00\x00\x01",
            says: [4, 0, 0x53],
        },
        Case {
            tape: b"L\x10\x00\x00",
            says: [4, 0, 0x4c],
        },
        Case {
            tape: b"G\x00\x00\x00",
            says: [4, 0, 0x47],
        },
        Case {
            tape: b"G\x0f\x42\x41",
            says: [4, 0, 0x47],
        },
        Case {
            tape: b"a",
            says: [5, 0, 0x61],
        },
        Case {
            tape: b"L\x00\x00\x02\x00",
            says: [5, 4, 0],
        },
        Case {
            tape: b"P\x00\x00\x00\x00\xff",
            says: [5, 5, 0xff],
        },
    ];
    let mut words = [0; 2048];
    let mut slots = [UNUSED; 1];
    let mut trace = Queue::new(&mut slots);
    let mut m = Machine::make(
        LoaderStrip::new(CoreBoards::new(&mut words), [9; 24]),
        SilentBus {},
    );
    for case in cases {
        assert_eq!(rt; played(m.play(case.tape, &mut trace)), case.says);
    }
    assert!(rt; trace.is_empty());
}

/// Each letter with one byte of its operand missing is denial 6, before its operand is looked at.
#[test]
fn cut_short(rt: HostRuntime) {
    let cases: [&[u8]; 9] = [
        b"A\x00\x00",
        b"D\x00",
        b"R\x30\x00\x00\x00",
        b"S\x10\x00\x00\x00",
        b"P\x00\x00\x00",
        b"L\x00\x00",
        b"G\x00\x00",
        b"R",
        b"G",
    ];
    let mut words = [0; 8];
    let mut slots = [UNUSED; 0];
    let mut trace = Queue::new(&mut slots);
    let mut m = Machine::make(CoreBoards::new(&mut words), SilentBus {});
    for tape in cases {
        let letter = tape.first().copied().unwrap_or(0);
        assert_eq!(rt;
            played(m.play(tape, &mut trace)),
            [6, 0, usize::from(letter)]
        );
    }
    assert_eq!(rt; m.show(Item::Status).unwrap_or(0), 0x8000);
}

/// What stands before a fault stays, the command denied does nothing, and the tape's address begins at 0 again.
#[test]
fn what_stands_after(rt: HostRuntime) {
    let mut words = [0; 2048];
    let mut slots = [UNUSED; 1];
    let mut trace = Queue::new(&mut slots);
    let mut m = Machine::make(CoreBoards::new(&mut words), SilentBus {});
    assert_eq!(rt; denied(m.turn_key(2)), 0);
    assert_eq!(rt;
        played(m.play(
            b"A\x00\x0a\x00D\x12\x34D\x56\x78R\x05\x00\x00\x00\x07R\x15\x00\x00\x00\x08D\x00\x01",
            &mut trace
        )),
        [3, 16, 0x52]
    );
    assert_eq!(rt;
        played(m.play(b"D\xab\xcdP\x00\x00\x00\x05L\x00\x00\x03", &mut trace)),
        [4, 8, 0x4c]
    );
    assert_eq!(rt; m.key_position(), 2);
    assert_eq!(rt; denied(m.turn_key(1)), 0);
    assert_eq!(rt; m.examine(0).unwrap_or(0), 0xabcd);
    assert_eq!(rt; m.examine(0xa00).unwrap_or(0), 0x1234);
    assert_eq!(rt; m.examine(0xa02).unwrap_or(0), 0x5678);
    assert_eq!(rt; m.examine(0xa04).unwrap_or(1), 0);
    assert_eq!(rt; m.show(Item::General(0, 5)).unwrap_or(0), 7);
    assert_eq!(rt; m.show(Item::Status).unwrap_or(0), 5);
    assert_eq!(rt; m.show(Item::Location).unwrap_or(1), 0);
}

/// A run that fills the trace is obeyed; the next one is denied 9, and with the count 0 it is denied 4.
#[test]
fn full_trace(rt: HostRuntime) -> Result<(), Fail> {
    let mut words = [0; 64];
    let mut slots = [UNUSED; 1];
    let mut trace = Queue::new(&mut slots);
    let mut m = Machine::make(CoreBoards::new(&mut words), SilentBus {});
    assert_eq!(rt;
        played(m.play(
            b"P\x00\x00\x00\x05L\x00\x00\x04G\x00\x00\x09L\x00\x00\x06G\x00\x00\x01",
            &mut trace
        )),
        [9, 17, 0x47]
    );
    assert_eq!(rt; played(m.play(b"G\x00\x00\x00", &mut trace)), [4, 0, 0x47]);
    assert_eq!(rt; trace.len(), 1);
    let record = trace.get(0).ok_or("no record")?;
    assert_eq!(rt; u8::from(record.cause), 2);
    assert_eq!(rt; [record.status, record.location, record.faults], [5, 4, 0]);
    assert_eq!(rt; m.show(Item::Location).unwrap_or(0), 6);
    Ok(())
}
