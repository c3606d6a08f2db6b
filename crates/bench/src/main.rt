//! Runs the loop of the benchmark for each line of standard input, a mode and a number of steps, and prints what it leaves.
#![tactic(auto)]

pub mod loops;

use crate::loops::{Mode, ready, run_on};
use bus::meaning::Bus;
use console::machine::Machine;
use model::{BLANK, Item};
use queue::Queue;
use std::io;
use store::meaning::Store;

/// What a line asks for; none if it is no such line.
fn request(line: &str) -> Option<(Mode, u32)> {
    let (mode, count) = line.split_once(' ')?;
    let mode = match mode {
        "protected" => Mode::Protected,
        "free" => Mode::Free,
        _ => return None,
    };
    Some((mode, count.parse().ok()?))
}

/// Prints the steps made, the PSW and the registers of set 15.
fn print_left<S: Store, B: Bus>(
    rt: &HostRuntime,
    machine: &mut Machine<S, B>,
    made: u32,
) -> io::Result<()> {
    let status = machine.show(Item::Status).unwrap_or(0);
    let location = machine.show(Item::Location).unwrap_or(0);
    print!(rt; "{made} steps, status {status:08X}, location {location:05X}, registers")?;
    for number in 0..16 {
        let value = machine.show(Item::General(15, number)).unwrap_or(0);
        print!(rt; " {value:08X}")?;
    }
    println!(rt; "")
}

/// Runs the loop on a new machine over the words, and prints what it leaves.
fn print_run(rt: &HostRuntime, words: &mut [u16], mode: Mode, count: u32) -> io::Result<()> {
    let mut slots = [BLANK; 4];
    let mut trace = Queue::new(&mut slots);
    let mut machine = ready(words, mode, &mut trace);
    match run_on(&mut machine, count, &mut trace) {
        Ok(made) => print_left(rt, &mut machine, made),
        Err(denial) => println!(rt; "Denial {}: {denial}", u8::from(denial)),
    }
}

fn main(rt: HostRuntime) -> io::Result<()> {
    let heap = rt.alloc();
    let mut words = vec![in heap; 0u16; 32_768]?;
    for line in rt.lines(heap) {
        words.fill(0);
        match request(&line?) {
            Some((mode, count)) => print_run(&rt, &mut words, mode, count)?,
            None => println!(rt; "A line is 'protected' or 'free' and a number of steps")?,
        }
    }
    Ok(())
}
