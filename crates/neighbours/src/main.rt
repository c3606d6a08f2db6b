//! One protected program beside two different neighbours: on core boards with a silent bus, and on a byte image with a teletype.
#![tactic(auto)]

pub mod histories;
pub mod marks;
pub mod wording;

use crate::histories::history;
use crate::marks::{Marks, marks_of};
use crate::wording::word;
use bus::silent::SilentBus;
use buses::teletype::Teletype;
use comparison::agreement::agreed;
use comparison::calls::{Call, Continued};
use comparison::compare::compare;
use comparison::sides::{Answered, Side};
use model::{BLANK, Item};
use queue::Queue;
use std::io;
use store::boards::CoreBoards;
use stores::image::ByteImage;

/// The window and the PSW with which the program begins, protected.
const BEGINNING: [Call<'static>; 3] = [
    Call::Set(Item::Segment(0), 0x0000_1010),
    Call::Set(Item::Status, 0x0000_05f0),
    Call::Set(Item::Location, 0),
];

// The neighbours: other words beside the program, other registers of set 0, another interrupt.
const NEIGHBOUR: [Call<'static>; 1] = [Call::Deposit(0x2000, 0x1111)];

const OTHER_NEIGHBOUR: [Call<'static>; 4] = [
    Call::Deposit(0x2000, 0x9999),
    Call::Set(Item::General(0, 3), 7),
    Call::Deposit(0x98, 0x0000),
    Call::Step,
];

const LIST: [Continued; 9] = [Continued::Step; 9];

const OTHER_LIST: [Continued; 13] = [
    Continued::Step,
    Continued::Deposit(0x2002, 0x7777),
    Continued::Step,
    Continued::TurnKey(2),
    Continued::Deposit(0x1000, 0),
    Continued::Step,
    Continued::Show(Item::Status),
    Continued::Step,
    Continued::Step,
    Continued::Step,
    Continued::Step,
    Continued::Step,
    Continued::Step,
];

/// The same, but E is set in the segment, so that nothing is fetched from it.
const NO_EXECUTION: [Call<'static>; 3] = [
    Call::Set(Item::Segment(0), 0x0000_1090),
    Call::Set(Item::Status, 0x0000_05f0),
    Call::Set(Item::Location, 0),
];

/// Prints the answers of a side, each in a line.
fn print_answers(rt: &HostRuntime, store: &str, answered: &Answered) -> io::Result<()> {
    for answer in &answered.answers {
        println!(rt; "{store}: {}", word(*answer))?;
    }
    Ok(())
}

/// Prints what the neighbour left in a machine.
fn print_marks(rt: &HostRuntime, store: &str, marks: Marks) -> io::Result<()> {
    let [first, second] = marks.beside;
    let register = marks.register;
    println!(rt;
        "{store}: beside the program {first:04X} {second:04X}, register 3 of set 0 {register:08X}"
    )
}

/// Prints how far the answers of two sides agree, and which of them end with an interrupt.
fn print_agreement(rt: &HostRuntime, one: &Answered, other: &Answered) -> io::Result<()> {
    println!(rt;
        "agreed on {} answers; interrupts {} {}",
        agreed(&one.answers, &other.answers),
        one.interrupted(),
        other.interrupted()
    )
}

/// The program beside a neighbour on each of two machines that look alike to it.
fn print_alike(rt: &HostRuntime) -> io::Result<()> {
    let heap = rt.alloc();
    let mut words = vec![in heap; 0u16; 8_192]?;
    let mut bytes = vec![in heap; 0u8; 16_384]?;
    let mut slots = [BLANK; 4];
    let mut slots2 = [BLANK; 9];
    let mut keys = [0u8; 4];
    let past = history(heap, &NEIGHBOUR, &BEGINNING)?;
    let past2 = history(heap, &OTHER_NEIGHBOUR, &BEGINNING)?;
    let one = Side {
        store: CoreBoards::new(&mut words),
        bus: SilentBus {},
        past: &past,
        list: &LIST,
    };
    let other = Side {
        store: ByteImage::new(&mut bytes),
        bus: Teletype::new(Queue::new(&mut keys)),
        past: &past2,
        list: &OTHER_LIST,
    };
    let report = compare(heap, one, &mut slots, other, &mut slots2)?;
    let (one, other) = (report.one, report.other);
    print_answers(rt, "core boards", &one.answered)?;
    print_answers(rt, "byte image", &other.answered)?;
    print_agreement(rt, &one.answered, &other.answered)?;
    print_marks(rt, "core boards", marks_of(one.machine))?;
    print_marks(rt, "byte image", marks_of(other.machine))
}

/// The program on two machines that do not look alike to it: in the other its first fetch is refused.
fn print_unlike(rt: &HostRuntime) -> io::Result<()> {
    let heap = rt.alloc();
    let mut words = vec![in heap; 0u16; 8_192]?;
    let mut bytes = vec![in heap; 0u8; 16_384]?;
    let mut slots = [BLANK; 4];
    let mut slots2 = [BLANK; 4];
    let past = history(heap, &NEIGHBOUR, &BEGINNING)?;
    let past2 = history(heap, &NEIGHBOUR, &NO_EXECUTION)?;
    let one = Side {
        store: CoreBoards::new(&mut words),
        bus: SilentBus {},
        past: &past,
        list: &LIST,
    };
    let other = Side {
        store: ByteImage::new(&mut bytes),
        bus: SilentBus {},
        past: &past2,
        list: &LIST,
    };
    let report = compare(heap, one, &mut slots, other, &mut slots2)?;
    print!(rt; "beside a segment without execution: ")?;
    print_agreement(rt, &report.one.answered, &report.other.answered)
}

fn main(rt: HostRuntime) -> io::Result<()> {
    print_alike(&rt)?;
    print_unlike(&rt)
}
