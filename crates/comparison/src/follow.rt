ghost use Rattle.bus.specs.Touches.{Becomes};
ghost use Rattle.queue.specs.Rows.{queued, capacity, SameSlots, Extended};
ghost use Rattle.console.specs.View.{desk_of};
ghost use Rattle.comparison.specs.Lists.{FollowedOne, Followed};

use crate::calls::Continued;
use crate::reserved::Reserved;
use crate::sides::Answered;
use bus::meaning::Bus;
use console::machine::Machine;
use model::{Record, StepAnswer};
use queue::Queue;
use store::meaning::Store;

// Arm by arm, not through a Call: the proof of one arm for all but the step did not close.
/// Makes a call that is asked; tells the answer of an accepted step.
#[tactic(auto, using(bus::proofs::Touches::becomes_same))]
fn follow_one<S: Store, B: Bus>(
    machine: &mut Machine<S, B>,
    asking: Continued,
    trace: &mut Queue<'_, Record>,
) -> Option<StepAnswer>
    ensures does { FollowedOne (capacity trace.old) asking (desk_of S.Store.meaning B.Bus.devices machine.old) (queued trace.old) result (desk_of S.Store.meaning B.Bus.devices machine.new) (queued trace.new) }
    ensures touches { Becomes B.Bus.touched machine.old.core.bus machine.new.core.bus }
    ensures same { SameSlots trace.old trace.new }
    ensures extended { Extended trace.old trace.new }
{
    match asking {
        Continued::TurnKey(position) => {
            let _ = machine.turn_key(position);
            None
        }
        Continued::Examine(address) => {
            let _ = machine.examine(address);
            None
        }
        Continued::Deposit(address, word) => {
            let _ = machine.deposit(address, word);
            None
        }
        Continued::Show(item) => {
            let _ = machine.show(item);
            None
        }
        Continued::Step => machine.step(trace).ok(),
    }
}

/// Makes all calls of a list; tells the answers of the accepted steps up to and including the first interrupt.
pub(crate) fn follow<S: Store, B: Bus>(
    machine: &mut Machine<S, B>,
    asked: Reserved<'_>,
    trace: &mut Queue<'_, Record>,
) -> Answered
    ensures does { Followed (capacity trace.old) asked.entry.list.now (desk_of S.Store.meaning B.Bus.devices machine.old) (queued trace.old) result.answers.items (desk_of S.Store.meaning B.Bus.devices machine.new) (queued trace.new) }
    ensures touches { Becomes B.Bus.touched machine.old.core.bus machine.new.core.bus }
    ensures same { SameSlots trace.old trace.new }
    ensures extended { Extended trace.old trace.new }
{
    let Reserved { list, answers } = asked;
    let mut answered = Answered { answers };
    for asking in list {
        match follow_one(machine, *asking, trace) {
            None => {}
            Some(_) if answered.interrupted() => {}
            Some(answer) => answered.answers.push_reserved(answer),
        }
    }
    answered
}
