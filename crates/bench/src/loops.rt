//! The loop, a machine that is ready for it, and runs without the console's limit.

ghost use Rattle.std.specs.Prelude.{◌≡◌, MatchResult, OnErr};
ghost use Rattle.queue.specs.Rows.{queued, capacity, SameSlots, Extended};
ghost use Rattle.store.specs.Boards.{core_boards};
ghost use Rattle.bus.specs.Devices.{silent};
ghost use Rattle.model.specs.Answers.{number};
ghost use Rattle.console.specs.View.{desk_of};
ghost use Rattle.bench.specs.Loops.{tape_of, Ready, RunsOn, NotStarted};

use bus::meaning::Bus;
use bus::silent::SilentBus;
use console::machine::Machine;
use model::{Denial, Reason, Record};
use queue::Queue;
use steps::run::MOST_STEPS;
use store::boards::CoreBoards;
use store::meaning::Store;

/// How the loop runs.
#[derive(Clone, Copy)]
pub enum Mode {
    /// With relocation and protection on.
    Protected,
    /// With both off.
    Free,
}

/// The tape that puts the loop in the store and makes a new machine ready for it.
#[tactic(auto, unfolding(crate::specs::Loops::tape_of))]
pub fn tape_of(mode: Mode) -> [u8; 43]
    ensures { result ≡ tape_of mode }
{
    let (index, status, location) = match mode {
        Mode::Protected => (0x00, 0x45, 0x00),
        Mode::Free => (0x10, 0x40, 0x10),
    };
    [
        b'A', 0x00, 0x10, 0x00, // real X'1000'
        b'D', 0x26, 0x11, // AIS 1,1
        b'D', 0x48, 0x23, // LH 2,X'100'(3)
        b'D', 0x01, 0x00, //
        b'D', 0x40, 0x13, // STH 1,X'100'(3)
        b'D', 0x01, 0x00, //
        b'D', 0x22, 0x85, // BFBS 8,5
        b'R', 0xf3, 0x00, 0x00, index, 0x40, //
        b'S', 0x00, 0x00, 0x10, 0x10, 0x10, //
        b'P', 0x00, 0x00, status, 0xf0, //
        b'L', 0x00, location, 0x00, //
    ]
}

/// Makes a new machine over the words and plays the tape of the mode on it. Words that reach past the program make it ready for the
/// loop; where they are fewer than 2,054, the tape stops at the first deposit for which there is no place.
pub fn ready<'a>(
    words: &'a mut [u16],
    mode: Mode,
    trace: &mut Queue<'_, Record>,
) -> Machine<CoreBoards<'a>, SilentBus>
    ensures ready { Ready mode words.old (capacity trace.old) (queued trace.old) (desk_of (λ s. core_boards s.words.now) (λ _. silent) result) (queued trace.new) }
    ensures same { SameSlots trace.old trace.new }
    ensures extended { Extended trace.old trace.new }
{
    let mut machine = Machine::make(CoreBoards::new(words), SilentBus {});
    let _ = machine.play(&tape_of(mode), trace);
    machine
}

/// Runs with a count of any size, by runs within the console's limit; answers the steps made. Where steps are asked for, a key at OFF
/// and then a full trace deny the first of them, and nothing changes; later ones are never denied.
pub fn run_on<S: Store, B: Bus>(
    machine: &mut Machine<S, B>,
    count: u32,
    trace: &mut Queue<'_, Record>,
) -> Result<u32, Denial>
    ensures runs { MatchResult result (λ n. RunsOn (capacity trace.old) count n (desk_of S.Store.meaning B.Bus.devices machine.old) (queued trace.old) (desk_of S.Store.meaning B.Bus.devices machine.new) (queued trace.new)) (λ d. NotStarted (capacity trace.old) count (desk_of S.Store.meaning B.Bus.devices machine.old) (queued trace.old) (number d)) }
    ensures denied { OnErr result (machine.new ≡ machine.old) }
    ensures denied_trace { OnErr result (trace.new ≡ trace.old) }
    ensures same { SameSlots trace.old trace.new }
    ensures extended { Extended trace.old trace.new }
{
    let mut made = 0;
    while made < count {
        let run = machine.run((count - made).min(MOST_STEPS), trace)?;
        made += run.steps;
        if run.reason != Reason::Counted {
            return Ok(made);
        }
    }
    Ok(made)
}
