ghost use Rattle.std.specs.Prelude.{◌≡◌, ◌-◌, ◌<◌, length, IfOk, OnErr};
ghost use Rattle.bus.specs.Touches.{Becomes};
ghost use Rattle.queue.specs.Rows.{queued, capacity, HasRoom, SameSlots, Extended};
ghost use Rattle.model.specs.Console.{or_else, room_denial};
ghost use Rattle.model.specs.Runs.{count_denial};
ghost use Rattle.instructions.specs.Instructions.{instruction};
ghost use Rattle.steps.specs.View.{refusal, Runs};

use crate::step::{check_room, step_with_room};
use bus::meaning::Bus;
use model::{Denial, Reason, Record, StepAnswer};
use processor::cpu::Core;
use queue::Queue;
use store::meaning::Store;

/// How a run went: the steps made, a waiting one included, and why it stopped.
#[derive(Clone, Copy, Debug, PartialEq, Eq)]
pub struct RunAnswer {
    pub steps: u32,
    pub reason: Reason,
}

/// The greatest count of a run.
pub const MOST_STEPS: u32 = 1_000_000;

/// Denies a count of 0 or over 1,000,000.
fn check_count(count: u32) -> Result<(), Denial>
    ensures { refusal result ≡ count_denial instruction count }
{
    if (1..=MOST_STEPS).contains(&count) {
        Ok(())
    } else {
        Err(Denial::OutOfRange)
    }
}

/// A run of a count that is not 0, where the trace has room.
#[tactic(auto, using(bus::proofs::Touches::becomes_then))]
fn run_with_room<S: Store, B: Bus>(
    m: &mut Core<S, B>,
    trace: &mut Queue<'_, Record>,
    count: u32,
) -> RunAnswer
    requires room { HasRoom trace.old }
    requires some { 0 < count }
    ensures does { Runs S.Store.meaning B.Bus.devices count result.steps result.reason m.old trace.old m.new trace.new }
    ensures touches { Becomes B.Bus.touched m.old.bus m.new.bus }
    ensures same { SameSlots trace.old trace.new }
    ensures extended { Extended trace.old trace.new }
{
    for steps in 1..=count {
        let answer = step_with_room(m, trace);
        if answer == StepAnswer::Waiting {
            return RunAnswer {
                steps,
                reason: Reason::Waited,
            };
        }
        if trace.is_full() {
            return RunAnswer {
                steps,
                reason: Reason::Filled,
            };
        }
    }
    RunAnswer {
        steps: count,
        reason: Reason::Counted,
    }
}

/// Steps until one waits, the trace is full or the count is reached. Denied for a count of 0 or over 1,000,000, and where the trace has
/// no room, and then neither the processor nor the trace changes.
#[tactic(auto, using(bus::proofs::Touches::becomes_same))]
pub fn run<S: Store, B: Bus>(
    m: &mut Core<S, B>,
    trace: &mut Queue<'_, Record>,
    count: u32,
) -> Result<RunAnswer, Denial>
    ensures refused { refusal result ≡ or_else (count_denial instruction count) (room_denial (capacity trace.old - length (queued trace.old))) }
    ensures does { IfOk result (λ a. Runs S.Store.meaning B.Bus.devices count a.steps a.reason m.old trace.old m.new trace.new) }
    ensures touches { Becomes B.Bus.touched m.old.bus m.new.bus }
    ensures denied { OnErr result (m.new ≡ m.old) }
    ensures denied_trace { OnErr result (trace.new ≡ trace.old) }
    ensures same { SameSlots trace.old trace.new }
    ensures extended { Extended trace.old trace.new }
{
    check_count(count)?;
    check_room(trace)?;
    Ok(run_with_room(m, trace, count))
}
