ghost use Rattle.bus.specs.Touches.{Becomes};
ghost use Rattle.processor.specs.View.{Does, DoesQuietly};
ghost use Rattle.instructions.specs.Instructions.{with_half_tree, with_full_tree, lpsw_tree, svc_tree, memory_tree, addressed_tree, memory_body};

use bus::meaning::Bus;
use computing::products::{divide_full, multiply_full};
use decode::forms::{Parts, first_field, take_apart};
use decode::operations::{Form, Function, MemoryOp};
use devices::input::rd;
use devices::output::{Output, out};
use devices::sensing::ss;
use model::Trap;
use multiples::{Way, multiple};
use operands::addresses::{address, load_full, next, third};
use operands::branches::{branch_false, branch_true};
use operands::forms::Addressed;
use operands::functions::applied;
use processor::cpu::Core;
use registers::words::ProgramAddress;
use store::meaning::Store;
use transfers::bits::{BitChange, change_bit, tbt};
use transfers::loops::{bxh, bxle};
use transfers::moves::{clb, lb, lhl, st, stb, sth};
use transfers::updates::{ahm, am, ts};
use words::sums::extended;

/// Applies a function to a register and a halfword of the store.
// Not one function with `with_full`: they share `applied`, and differ in the load and in `extended`.
fn with_half<S: Store, B: Bus>(
    m: &mut Core<S, B>,
    function: Function,
    o: Addressed,
) -> Result<(), Trap>
    ensures { DoesQuietly S.Store.meaning B.Bus.devices (with_half_tree function o.r1 o.a.at o.next.at) m.old result m.new }
{
    let half = m.load(o.a.to_half())?;
    applied(m, function, o.r1, extended(half), o.next);
    Ok(())
}

/// Applies a function to a register and a fullword of the store.
fn with_full<S: Store, B: Bus>(
    m: &mut Core<S, B>,
    function: Function,
    o: Addressed,
) -> Result<(), Trap>
    ensures { DoesQuietly S.Store.meaning B.Bus.devices (with_full_tree function o.r1 o.a.at o.next.at) m.old result m.new }
{
    let y = load_full(m, o.a.to_full())?;
    applied(m, function, o.r1, y, o.next);
    Ok(())
}

/// Loads a PSW.
fn lpsw<S: Store, B: Bus>(m: &mut Core<S, B>, a: ProgramAddress) -> Result<(), Trap>
    ensures { DoesQuietly S.Store.meaning B.Bus.devices (lpsw_tree a.at) m.old result m.new }
{
    let status = load_full(m, a.to_psw())?;
    let location = load_full(m, a.to_psw().plus(4))?;
    m.set_status(status)?;
    m.jump(ProgramAddress::new(location));
    Ok(())
}

/// Calls the supervisor.
fn svc<S: Store, B: Bus>(m: &mut Core<S, B>, o: Addressed) -> Result<(), Trap>
    ensures { DoesQuietly S.Store.meaning B.Bus.devices (svc_tree o.r1 o.a.at o.next.at) m.old result m.new }
{
    m.jump(o.next);
    Err(Trap::Supervisor(o.r1, u32::from(o.a)))
}

/// An operation with an address.
#[tactic(auto, using(bus::proofs::Touches::becomes_same))]
pub fn memory<S: Store, B: Bus>(
    m: &mut Core<S, B>,
    operation: MemoryOp,
    o: Addressed,
) -> Result<(), Trap>
    ensures does { Does S.Store.meaning B.Bus.devices (memory_tree operation o.r1 o.a.at o.next.at) m.old result m.new }
    ensures touches { Becomes B.Bus.touched m.old.bus m.new.bus }
{
    // A match and no table of functions: the arms take different operands, and some answer nothing.
    match operation {
        MemoryOp::Sth => sth(m, o)?,
        MemoryOp::Bal => {
            m.set_reg(o.r1, u32::from(o.next));
            m.jump(o.a);
        }
        MemoryOp::Btc => branch_true(m, o.r1, o.a, o.next),
        MemoryOp::Bfc => branch_false(m, o.r1, o.a, o.next),
        MemoryOp::WithHalf(function) => with_half(m, function, o)?,
        MemoryOp::St => st(m, o)?,
        MemoryOp::WithFull(function) => with_full(m, function, o)?,
        MemoryOp::Lpsw => lpsw(m, o.a)?,
        MemoryOp::Svc => svc(m, o)?,
        MemoryOp::La => {
            m.set_reg(o.r1, u32::from(o.a));
            m.jump(o.next);
        }
        MemoryOp::Am => am(m, o)?,
        MemoryOp::M => multiply_full(m, o)?,
        MemoryOp::D => divide_full(m, o)?,
        MemoryOp::Ahm => ahm(m, o)?,
        MemoryOp::Lhl => lhl(m, o)?,
        MemoryOp::Tbt => tbt(m, o)?,
        MemoryOp::Sbt => change_bit(m, BitChange::Set, o)?,
        MemoryOp::Rbt => change_bit(m, BitChange::Clear, o)?,
        MemoryOp::Cbt => change_bit(m, BitChange::Complement, o)?,
        MemoryOp::Bxh => bxh(m, o),
        MemoryOp::Bxle => bxle(m, o),
        MemoryOp::Stm => multiple(m, Way::Store, o)?,
        MemoryOp::Lm => multiple(m, Way::Load, o)?,
        MemoryOp::Stb => stb(m, o)?,
        MemoryOp::Lb => lb(m, o)?,
        MemoryOp::Clb => clb(m, o)?,
        MemoryOp::Wd => out(m, Output::Data, o)?,
        MemoryOp::Rd => rd(m, o)?,
        MemoryOp::Ss => ss(m, o)?,
        MemoryOp::Oc => out(m, Output::Command, o)?,
        MemoryOp::Ts => ts(m, o)?,
    }
    Ok(())
}

/// Does an instruction with an address that was taken apart.
#[tactic(auto, using(bus::proofs::Touches::becomes_same), unfolding(crate::specs::Instructions::addressed_tree))]
fn addressed<S: Store, B: Bus>(
    m: &mut Core<S, B>,
    operation: MemoryOp,
    own: ProgramAddress,
    parts: Parts<'_>,
) -> Result<(), Trap>
    ensures does { Does S.Store.meaning B.Bus.devices (addressed_tree operation own.at parts.entry.first parts.entry.second parts.entry.third) m.old result m.new }
    ensures touches { Becomes B.Bus.touched m.old.bus m.new.bus }
{
    let o = Addressed {
        r1: first_field(parts.first),
        a: address(m, own, parts),
        next: next(own, parts.second),
    };
    memory(m, operation, o)
}

/// Fetches the rest of an instruction with an address, and does it.
#[tactic(auto, using(bus::proofs::Touches::becomes_same), unfolding(crate::specs::Instructions::memory_body))]
pub fn memory_body<S: Store, B: Bus>(
    m: &mut Core<S, B>,
    operation: MemoryOp,
    own: ProgramAddress,
    first: u16,
) -> Result<(), Trap>
    ensures does { Does S.Store.meaning B.Bus.devices (memory_body operation own.at first) m.old result m.new }
    ensures touches { Becomes B.Bus.touched m.old.bus m.new.bus }
{
    let second = m.fetch(own.plus(2))?;
    let third = third(m, own, second)?;
    // Taken apart by slice patterns: a rule of the project. The halfwords are there, so it is never refused.
    let words = [first, second, third];
    let parts = take_apart(Form::Indexed, &words).ok_or(Trap::Illegal)?;
    addressed(m, operation, own, parts)
}
