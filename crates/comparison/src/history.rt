ghost use Rattle.bus.specs.Touches.{Becomes};
ghost use Rattle.queue.specs.Rows.{queued, capacity, SameSlots, Extended};
ghost use Rattle.console.specs.View.{desk_of};
ghost use Rattle.comparison.specs.Lists.{Performs, PerformsAll};

use crate::calls::Call;
use bus::meaning::Bus;
use console::machine::Machine;
use model::Record;
use queue::Queue;
use store::meaning::Store;

/// Makes a call of a history, whatever its answer.
#[tactic(auto, using(bus::proofs::Touches::becomes_same))]
fn perform<S: Store, B: Bus>(
    machine: &mut Machine<S, B>,
    call: Call<'_>,
    trace: &mut Queue<'_, Record>,
)
    ensures does { Performs (capacity trace.old) call.entry (desk_of S.Store.meaning B.Bus.devices machine.old) (queued trace.old) (desk_of S.Store.meaning B.Bus.devices machine.new) (queued trace.new) }
    ensures touches { Becomes B.Bus.touched machine.old.core.bus machine.new.core.bus }
    ensures same { SameSlots trace.old trace.new }
    ensures extended { Extended trace.old trace.new }
{
    match call {
        Call::TurnKey(position) => {
            let _ = machine.turn_key(position);
        }
        Call::Initialise => {
            let _ = machine.initialise();
        }
        Call::Examine(address) => {
            let _ = machine.examine(address);
        }
        Call::Deposit(address, word) => {
            let _ = machine.deposit(address, word);
        }
        Call::Set(item, value) => {
            let _ = machine.set(item, value);
        }
        Call::Show(item) => {
            let _ = machine.show(item);
        }
        Call::Step => {
            let _ = machine.step(trace);
        }
        Call::Run(count) => {
            let _ = machine.run(count, trace);
        }
        Call::Play(tape) => {
            let _ = machine.play(tape, trace);
        }
    }
}

/// Makes all calls of a history, one after the other.
pub(crate) fn perform_all<S: Store, B: Bus>(
    machine: &mut Machine<S, B>,
    calls: &[Call<'_>],
    trace: &mut Queue<'_, Record>,
)
    ensures does { PerformsAll (capacity trace.old) calls.now (desk_of S.Store.meaning B.Bus.devices machine.old) (queued trace.old) (desk_of S.Store.meaning B.Bus.devices machine.new) (queued trace.new) }
    ensures touches { Becomes B.Bus.touched machine.old.core.bus machine.new.core.bus }
    ensures same { SameSlots trace.old trace.new }
    ensures extended { Extended trace.old trace.new }
{
    for call in calls {
        perform(machine, *call, trace);
    }
}
