ghost use Rattle.std.specs.Prelude.{◌≡◌, IfOk};
ghost use Rattle.model.specs.Answers.{on};
ghost use Rattle.console.specs.Keys.{number_of};
ghost use Rattle.session.specs.Lines.{line_of};
ghost use Rattle.session.specs.Sessions.{Played, InputLeaves};

use crate::line::psw_line;
use bus::meaning::Bus;
use bus::silent::SilentBus;
use console::machine::Machine;
use model::{BLANK, Item, Record};
use queue::Queue;
use std::alloc::{AllocError, Global};
use store::boards::CoreBoards;
use store::meaning::Store;

/// The bytes of an input that are its tape; those behind them are not played.
pub const TAPE_BYTES: usize = 65_536;

/// The halfwords of the store that an input is played over.
pub const STORE_HALFWORDS: usize = 32_768;

/// The records that the trace of an input has room for.
pub const TRACE_RECORDS: usize = 64;

/// The line that a tape leaves, and the words of the store as the tape leaves them.
#[derive(Drop)]
pub struct PlayedTape<'w> {
    pub line: [u8; 15],
    pub words: &'w mut [u16],
}

/// The line that shows the PSW of a machine whose key is ON. The machine stays as it is.
fn line_of<S: Store, B: Bus>(machine: &mut Machine<S, B>) -> [u8; 15]
    ensures shows { number_of machine.old.key.position ≡ on → result ≡ line_of machine.old.core.psw.location machine.old.core.psw.status }
    ensures same { machine.new ≡ machine.old }
{
    let location = machine.show(Item::Location).unwrap_or(0);
    let status = machine.show(Item::Status).unwrap_or(0);
    psw_line(location, status)
}

/// Plays a tape over core boards of the words, a silent bus and a trace of the slots, and makes the line that shows the PSW
/// afterwards, after a fault too. The words come back as the tape leaves them, without those past the limit of a store; the slots
/// hold the records of the trace, the oldest in the first, and behind them what they held.
pub fn play_to_line<'w>(tape: &[u8], words: &'w mut [u16], slots: &mut [Record]) -> PlayedTape<'w>
    ensures { Played tape.now words.old slots.old result.line result.words.now slots.new }
{
    let mut trace = Queue::new(slots);
    let mut machine = Machine::make(CoreBoards::new(words), SilentBus {});
    let _ = machine.play(tape, &mut trace);
    let line = line_of(&mut machine);
    let (boards, _bus) = machine.into_parts();
    PlayedTape {
        line,
        words: boards.into_words(),
    }
}

/// Plays the first 65,536 bytes of an input over 32,768 words, all 0, a silent bus and a trace of 64 records, and makes the line
/// that shows the PSW afterwards, after a fault too. The only error is want of memory for the words.
pub fn play_input(heap: Global, input: &[u8]) -> Result<[u8; 15], AllocError>
    ensures { IfOk result (InputLeaves input.now) }
{
    let tape = &input[..input.len().min(TAPE_BYTES)];
    let mut words = vec![in heap; 0u16; STORE_HALFWORDS]?;
    let mut slots = [BLANK; TRACE_RECORDS];
    Ok(play_to_line(tape, &mut words, &mut slots).line)
}
