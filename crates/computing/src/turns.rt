ghost use Rattle.processor.specs.View.{SetsQuietly};
ghost use Rattle.computing.specs.Computing.{shift_tree};

use bus::meaning::Bus;
use processor::cpu::Core;
use shifts::{Shift, Shifted};
use store::meaning::Store;

/// Shifts or rotates a register, and sets the condition code.
pub fn shift<S: Store, B: Bus>(m: &mut Core<S, B>, shift: Shift, r1: u8, count: u32)
    ensures { SetsQuietly S.Store.meaning B.Bus.devices (shift_tree shift r1 count) m.old m.new }
{
    let x = m.reg(r1);
    let Shifted { value, code } = shift.shifted(x, count);
    m.set_reg(r1, value);
    m.set_code(code.bits());
}
