ghost use Rattle.std.specs.Prelude.{◌≡◌, ◌-◌, [], ◌∷◌, ◌++◌, length, IfOk, OnErr};
ghost use Rattle.bus.specs.Touches.{Becomes};
ghost use Rattle.queue.specs.Rows.{queued, capacity, HasRoom, SameSlots, Extended};
ghost use Rattle.model.specs.Console.{room_denial};
ghost use Rattle.model.specs.Steps.{took, ended, cycle, proceeded};
ghost use Rattle.processor.specs.View.{state_of, out₀, Does};
ghost use Rattle.instructions.specs.Instructions.{instruction};
ghost use Rattle.steps.specs.View.{refusal, Ends, Steps};

use bus::meaning::Bus;
use instructions::execute::execute;
use model::{Cause, Denial, Record, StepAnswer, Trap};
use processor::cpu::Core;
use processor::interrupts::{ACCESS_VECTOR, ARITHMETIC_VECTOR, ILLEGAL_VECTOR};
use queue::Queue;
use registers::words::ProgramAddress;
use store::meaning::Store;

// SameSlots and Extended stand in each contract: the trace is passed to each call (a rule of the project), so no type can hold it and promise them once.
/// Adds the record of an interrupt to the trace.
fn note(trace: &mut Queue<'_, Record>, entry: Record) -> StepAnswer
    requires room { HasRoom trace.old }
    ensures answer { result ≡ StepAnswer.Interrupted entry.cause }
    ensures noted { queued trace.new ≡ queued trace.old ++ entry ∷ [] }
    ensures same { SameSlots trace.old trace.new }
    ensures extended { Extended trace.old trace.new }
{
    trace.push(entry).unwrap();
    StepAnswer::Interrupted(entry.cause)
}

/// What follows an instruction that stood at `own` and ended so.
fn finish<S: Store, B: Bus>(
    m: &mut Core<S, B>,
    trace: &mut Queue<'_, Record>,
    own: ProgramAddress,
    end: Result<(), Trap>,
) -> StepAnswer
    requires room { HasRoom trace.old }
    ensures does { Ends S.Store.meaning B.Bus.devices (ended own.at (out₀ end (state_of S.Store.meaning B.Bus.devices m.old))) trace.old result m.new trace.new }
    ensures quiet { m.new.bus ≡ m.old.bus }
    ensures same { SameSlots trace.old trace.new }
    ensures extended { Extended trace.old trace.new }
{
    let next = m.location();
    match end {
        Ok(()) if m.reports() => note(trace, m.interrupt(Cause::AccessFault, ACCESS_VECTOR, next)),
        Err(Trap::Illegal) => note(
            trace,
            m.interrupt(Cause::IllegalInstruction, ILLEGAL_VECTOR, own),
        ),
        Err(Trap::Arithmetic) if m.psw().arithmetic_on() => {
            note(
                trace,
                m.interrupt(Cause::ArithmeticFault, ARITHMETIC_VECTOR, next),
            )
        }
        Err(Trap::Refusal) => note(trace, m.interrupt(Cause::AccessFault, ACCESS_VECTOR, own)),
        Err(Trap::Supervisor(number, address)) => note(trace, m.supervise(number, address)),
        Ok(()) | Err(Trap::Arithmetic) => StepAnswer::Done,
    }
}

/// Fetches an instruction and does it.
#[tactic(auto, using(bus::proofs::Touches::becomes_same))]
fn fetch_and_execute<S: Store, B: Bus>(m: &mut Core<S, B>) -> Result<(), Trap>
    ensures does { Does S.Store.meaning B.Bus.devices (cycle instruction) m.old result m.new }
    ensures touches { Becomes B.Bus.touched m.old.bus m.new.bus }
{
    let first = m.fetch(m.location())?;
    execute(m, first)
}

/// A step in which no device is taken.
#[tactic(auto, using(bus::proofs::Touches::becomes_same))]
fn proceed<S: Store, B: Bus>(m: &mut Core<S, B>, trace: &mut Queue<'_, Record>) -> StepAnswer
    requires room { HasRoom trace.old }
    ensures does { Ends S.Store.meaning B.Bus.devices (proceeded instruction (B.Bus.devices m.new.bus) (state_of S.Store.meaning B.Bus.devices m.old)) trace.old result m.new trace.new }
    ensures touches { Becomes B.Bus.touched m.old.bus m.new.bus }
    ensures same { SameSlots trace.old trace.new }
    ensures extended { Extended trace.old trace.new }
{
    if m.psw().waits() {
        return StepAnswer::Waiting;
    }
    let own = m.location();
    m.begin();
    let end = fetch_and_execute(m);
    finish(m, trace, own, end)
}

/// A step, where the trace has room.
#[tactic(auto, using(bus::proofs::Touches::becomes_same))]
pub(crate) fn step_with_room<S: Store, B: Bus>(
    m: &mut Core<S, B>,
    trace: &mut Queue<'_, Record>,
) -> StepAnswer
    requires room { HasRoom trace.old }
    ensures does { Steps S.Store.meaning B.Bus.devices m.old trace.old result m.new trace.new }
    ensures touches { Becomes B.Bus.touched m.old.bus m.new.bus }
    ensures same { SameSlots trace.old trace.new }
    ensures extended { Extended trace.old trace.new }
{
    if m.psw().polls()
        && let Some(device) = m.requesting()
    {
        return note(trace, m.attend(device));
    }
    proceed(m, trace)
}

/// Denies a trace without room.
pub(crate) fn check_room(trace: &Queue<'_, Record>) -> Result<(), Denial>
    ensures { refusal result ≡ room_denial (capacity trace.now - length (queued trace.now)) }
{
    if trace.is_full() {
        Err(Denial::TraceFull)
    } else {
        Ok(())
    }
}

/// Makes one step, and adds a record to the trace if it takes an interrupt. Denied where the trace has no room, and then neither the
/// processor nor the trace changes.
#[tactic(auto, using(bus::proofs::Touches::becomes_same))]
pub fn step<S: Store, B: Bus>(
    m: &mut Core<S, B>,
    trace: &mut Queue<'_, Record>,
) -> Result<StepAnswer, Denial>
    ensures refused { refusal result ≡ room_denial (capacity trace.old - length (queued trace.old)) }
    ensures does { IfOk result (λ a. Steps S.Store.meaning B.Bus.devices m.old trace.old a m.new trace.new) }
    ensures touches { Becomes B.Bus.touched m.old.bus m.new.bus }
    ensures denied { OnErr result (m.new ≡ m.old) }
    ensures denied_trace { OnErr result (trace.new ≡ trace.old) }
    ensures same { SameSlots trace.old trace.new }
    ensures extended { Extended trace.old trace.new }
{
    check_room(trace)?;
    Ok(step_with_room(m, trace))
}
