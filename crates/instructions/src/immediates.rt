ghost use Rattle.processor.specs.View.{DoesQuietly, SetsQuietly};
ghost use Rattle.instructions.specs.Instructions.{immediate_tree, immediate_body, long_body};

use bus::meaning::Bus;
use computing::turns::shift;
use decode::forms::{first_field, second_field, take_apart};
use decode::operations::{Form, Function, ImmediateOp};
use fields::parts::joined;
use model::Trap;
use operands::addresses::index;
use operands::functions::{applied, apply};
use processor::cpu::Core;
use registers::words::ProgramAddress;
use shifts::Shift;
use store::meaning::Store;
use words::sums::{extended, sum};

/// An operation with an operand of one halfword.
fn immediate<S: Store, B: Bus>(m: &mut Core<S, B>, operation: ImmediateOp, r1: u8, y: u32)
    ensures { SetsQuietly S.Store.meaning B.Bus.devices (immediate_tree operation r1 y) m.old m.new }
{
    // The operations are the instructions by name, and `decode` uses no crate: so a match, and none of them holds a Shift.
    match operation {
        ImmediateOp::WithImmediate(function) => apply(m, function, r1, y),
        ImmediateOp::Rrl => shift(m, Shift::RotateRight, r1, y),
        ImmediateOp::Rll => shift(m, Shift::RotateLeft, r1, y),
        ImmediateOp::Srl => shift(m, Shift::Right, r1, y),
        ImmediateOp::Sll => shift(m, Shift::Left, r1, y),
        ImmediateOp::Sra => shift(m, Shift::RightArithmetic, r1, y),
        ImmediateOp::Sla => shift(m, Shift::LeftArithmetic, r1, y),
    }
}

/// Fetches the operand of one halfword, and does the operation.
#[tactic(auto, unfolding(crate::specs::Instructions::immediate_body))]
pub fn immediate_body<S: Store, B: Bus>(
    m: &mut Core<S, B>,
    operation: ImmediateOp,
    own: ProgramAddress,
    first: u16,
) -> Result<(), Trap>
    ensures { DoesQuietly S.Store.meaning B.Bus.devices (immediate_body operation own.at first) m.old result m.new }
{
    let second = m.fetch(own.plus(2))?;
    // Taken apart by slice patterns, here and below: a rule of the project. The halfwords are there, so it is never refused.
    let words = [first, second];
    let parts = take_apart(Form::Pair, &words).ok_or(Trap::Illegal)?;
    let index = index(m, second_field(parts.first));
    let y = sum(extended(parts.second), index);
    immediate(m, operation, first_field(parts.first), y);
    m.jump(own.plus(4));
    Ok(())
}

/// Fetches the operand of two halfwords, and applies a function.
#[tactic(auto, unfolding(crate::specs::Instructions::long_body))]
pub fn long_body<S: Store, B: Bus>(
    m: &mut Core<S, B>,
    function: Function,
    own: ProgramAddress,
    first: u16,
) -> Result<(), Trap>
    ensures { DoesQuietly S.Store.meaning B.Bus.devices (long_body function own.at first) m.old result m.new }
{
    let second = m.fetch(own.plus(2))?;
    let third = m.fetch(own.plus(4))?;
    let words = [first, second, third];
    let parts = take_apart(Form::Triple, &words).ok_or(Trap::Illegal)?;
    let index = index(m, second_field(parts.first));
    let y = sum(joined(parts.second, parts.third), index);
    applied(m, function, first_field(parts.first), y, own.plus(6));
    Ok(())
}
