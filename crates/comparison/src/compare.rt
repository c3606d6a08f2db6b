ghost use Rattle.std.specs.Prelude.{◌≡◌, IfOk, OnErr};
ghost use Rattle.bus.specs.Touches.{Becomes};
ghost use Rattle.model.specs.Isolation.{Isolation};
ghost use Rattle.comparison.specs.Lists.{given, left, Gone, Compared};

use crate::follow::follow;
use crate::history::perform_all;
use crate::reserved::Reserved;
use crate::sides::{Finished, Side};
use bus::meaning::Bus;
use console::machine::Machine;
use model::Record;
use queue::Queue;
use std::alloc::{AllocError, Global};
use store::meaning::Store;

/// Two machines after their lists, each with what it answered.
#[derive(Drop)]
pub struct Comparison<S, B, U, D> {
    pub one: Finished<S, B>,
    pub other: Finished<U, D>,
}

// The slots beside each side: the borrow checker covers no call that passes on a struct with a `&mut [T]` that the caller gets back.
/// Makes a machine and performs its history and then its list, for whose answers memory is reserved.
fn go_through<S: Store + Drop, B: Bus + Drop>(
    side: Side<'_, S, B>,
    reserved: Reserved<'_>,
    slots: &mut [Record],
) -> Finished<S, B>
    ensures gone { reserved.entry.list.now ≡ side.entry.list.now → Gone (given S.Store.meaning B.Bus.devices side.entry slots.old) (left S.Store.meaning B.Bus.devices result slots.new) }
    ensures touches { Becomes B.Bus.touched side.entry.bus result.machine.core.bus }
{
    let mut trace = Queue::new(slots);
    let mut machine = Machine::make(side.store, side.bus);
    perform_all(&mut machine, side.past, &mut trace);
    let answered = follow(&mut machine, reserved, &mut trace);
    Finished { answered, machine }
}

/// Makes two machines, each over a store and a bus of its own and a trace of its own slots, performs a history on each, and then
/// a list of calls on each, and hands both back with what they answered. The slots of each then hold its trace, the oldest record
/// first, and behind it what they held; the bus of each becomes only what reads, writes and commands make of it.
/// Memory for the answers is reserved first: where there is none, no machine is made and no slot written.
/// Whatever the stores, buses, histories and lists: if the machines look alike to a protected program where the lists begin, any
/// first parts of the two lists that are allowed are isolated.
pub fn compare<S: Store + Drop, B: Bus + Drop, U: Store + Drop, D: Bus + Drop>(
    heap: Global,
    one: Side<'_, S, B>,
    slots: &mut [Record],
    other: Side<'_, U, D>,
    other_slots: &mut [Record],
) -> Result<Comparison<S, B, U, D>, AllocError>
    ensures law { Isolation }
    ensures runs { IfOk result (λ p. Compared (given S.Store.meaning B.Bus.devices one.entry slots.old) (given U.Store.meaning D.Bus.devices other.entry other_slots.old) (left S.Store.meaning B.Bus.devices p.one slots.new) (left U.Store.meaning D.Bus.devices p.other other_slots.new)) }
    ensures touches { IfOk result (λ p. Becomes B.Bus.touched one.entry.bus p.one.machine.core.bus) }
    ensures other_touches { IfOk result (λ p. Becomes D.Bus.touched other.entry.bus p.other.machine.core.bus) }
    ensures unwritten { OnErr result (slots.new ≡ slots.old) }
    ensures other_unwritten { OnErr result (other_slots.new ≡ other_slots.old) }
{
    let reserved = Reserved::new(heap, one.list)?;
    let other_reserved = Reserved::new(heap, other.list)?;
    Ok(Comparison {
        one: go_through(one, reserved, slots),
        other: go_through(other, other_reserved, other_slots),
    })
}
