ghost use Rattle.processor.specs.View.{SetsQuietly};
ghost use Rattle.operands.specs.Operands.{result_tree, apply_tree, applied_tree};

use bus::meaning::Bus;
use decode::operations::Function;
use processor::cpu::Core;
use registers::words::ProgramAddress;
use store::meaning::Store;
use words::codes::marks;
use words::sums::{compare_code, compare_logical_code, difference, difference_code, sum, sum_code};

/// A result that goes to a register, with its marks.
pub fn result<S: Store, B: Bus>(m: &mut Core<S, B>, r1: u8, value: u32)
    ensures { SetsQuietly S.Store.meaning B.Bus.devices (result_tree r1 value) m.old m.new }
{
    m.set_reg(r1, value);
    m.set_code(marks(value).bits());
}

/// Applies a function of a family to a register and an operand.
#[inline(always)]
pub fn apply<S: Store, B: Bus>(m: &mut Core<S, B>, function: Function, r1: u8, y: u32)
    ensures { SetsQuietly S.Store.meaning B.Bus.devices (apply_tree function r1 y) m.old m.new }
{
    let x = m.reg(r1);
    // A match, no table of functions: some arms keep a result and some only its code.
    match function {
        Function::And => result(m, r1, x & y),
        Function::CompareLogical => m.set_code(compare_logical_code(x, y).bits()),
        Function::Or => result(m, r1, x | y),
        Function::ExclusiveOr => result(m, r1, x ^ y),
        Function::Load => result(m, r1, y),
        Function::Compare => m.set_code(compare_code(x, y).bits()),
        Function::Add => {
            m.set_reg(r1, sum(x, y));
            m.set_code(sum_code(x, y).bits());
        }
        Function::Subtract => {
            m.set_reg(r1, difference(x, y));
            m.set_code(difference_code(x, y).bits());
        }
        Function::Test => m.set_code(marks(x & y).bits()),
    }
}

/// Applies a function, and goes on.
pub fn applied<S: Store, B: Bus>(
    m: &mut Core<S, B>,
    function: Function,
    r1: u8,
    y: u32,
    next: ProgramAddress,
)
    ensures { SetsQuietly S.Store.meaning B.Bus.devices (applied_tree function r1 y next.at) m.old m.new }
{
    apply(m, function, r1, y);
    m.jump(next);
}
