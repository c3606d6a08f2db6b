//! Plays each trial on standard input on a new machine, and prints a line with everything that can be seen afterwards.
#![tactic(auto)]

use outcome::trials::{next_trial, trial_line};
use std::io::{self, Read, Write};

fn main(rt: HostRuntime) -> io::Result<()> {
    let heap = rt.alloc();
    let mut input = Vec::new(heap);
    rt.stdin().read_to_end(&mut input)?;
    let mut rest = input.as_slice();
    while let Some((trial, after)) = next_trial(rest) {
        rest = after;
        rt.stdout().write_all(&trial_line(heap, trial)?)?;
    }
    Ok(())
}
