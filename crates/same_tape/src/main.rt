//! Plays the tape on standard input over every kind of store, and prints what each answers and holds: the same, whatever the store.
#![tactic(auto)]

use bus::silent::SilentBus;
use console::machine::Machine;
use model::BLANK;
use outcome::read_back::words_digest;
use outcome::shown::shown_by;
use queue::Queue;
use std::io::{self, Read};
use store::boards::CoreBoards;
use store::meaning::Store;
use stores::image::ByteImage;
use stores::pair::BankPair;
use stores::strip::LoaderStrip;

/// Plays a tape over a store, and prints what came of it.
fn print_played<S: Store + Drop>(
    rt: &HostRuntime,
    name: &str,
    store: S,
    tape: &[u8],
) -> io::Result<()> {
    let mut slots = [BLANK; 8];
    let mut trace = Queue::new(&mut slots);
    let mut machine = Machine::make(store, SilentBus {});
    match machine.play(tape, &mut trace) {
        Ok(commands) => println!(rt; "{name}: {commands} commands")?,
        Err(fault) => println!(rt;
            "{name}: denial {} at {}",
            u8::from(fault.denial),
            fault.place
        )?,
    }
    let shown = shown_by(&mut machine);
    println!(rt;
        "  {:05X} {:08X} register 3 {:08X} words {:08X}",
        shown.location,
        shown.status,
        shown.lower[3],
        words_digest(&mut machine)
    )?;
    for entry in &trace {
        println!(rt;
            "  interrupt {} {:08X} {:05X} {:02X}",
            u8::from(entry.cause),
            entry.status,
            entry.location,
            entry.faults
        )?;
    }
    Ok(())
}

fn main(rt: HostRuntime) -> io::Result<()> {
    let heap = rt.alloc();
    // One read: what comes in a later piece is not played.
    let mut tape = vec![in heap; 0u8; 4_096]?;
    let length = rt.stdin().read(&mut tape)?;
    tape.truncate(length);
    let mut words = vec![in heap; 0u16; 8_192]?;
    print_played(&rt, "core boards", CoreBoards::new(&mut words), &tape)?;
    let mut bytes = vec![in heap; 0u8; 16_385]?;
    print_played(&rt, "byte image", ByteImage::new(&mut bytes), &tape)?;
    let mut half = vec![in heap; 0u16; 3_000]?;
    let mut rest = vec![in heap; 0u8; 10_384]?;
    print_played(
        &rt,
        "bank pair",
        BankPair::new(CoreBoards::new(&mut half), ByteImage::new(&mut rest)),
        &tape,
    )?;
    let mut under = vec![in heap; 0u16; 8_192]?;
    print_played(
        &rt,
        "strip over core boards",
        LoaderStrip::new(CoreBoards::new(&mut under), [0u16; 24]),
        &tape,
    )?;
    let mut image = vec![in heap; 0u8; 16_384]?;
    print_played(
        &rt,
        "strip over a byte image",
        LoaderStrip::new(ByteImage::new(&mut image), [0u16; 24]),
        &tape,
    )
}
