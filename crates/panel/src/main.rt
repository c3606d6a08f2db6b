//! Plays the tape on standard input, and prints for a person what it did: how it ended, the registers, the interrupts and the
//! store.
#![tactic(auto)]

use outcome::panel::page_of;
use session::session::TAPE_BYTES;
use std::io::{self, BufReader, Read, Write};

fn main(rt: HostRuntime) -> io::Result<()> {
    let heap = rt.alloc();
    // Each read asks for all that is left of the limit, since a packet that is longer than a read is cut. With a byte more of room the
    // vector need not grow to see the end.
    let mut input = Vec::with_capacity(heap, TAPE_BYTES + 1)?;
    let stdin = rt.stdin().take(TAPE_BYTES as u64);
    BufReader::with_capacity(heap, TAPE_BYTES, stdin)?.read_to_end(&mut input)?;
    rt.stdout().write_all(&page_of(heap, &input)?)
}
