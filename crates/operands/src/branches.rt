ghost use Rattle.processor.specs.View.{SetsQuietly};
ghost use Rattle.operands.specs.Operands.{branch_true, branch_false};

use bus::meaning::Bus;
use processor::cpu::Core;
use registers::words::ProgramAddress;
use store::meaning::Store;

/// Goes to the target if a bit of the mask is in the condition code, else on.
pub fn branch_true<S: Store, B: Bus>(
    m: &mut Core<S, B>,
    mask: u8,
    target: ProgramAddress,
    next: ProgramAddress,
)
    ensures { SetsQuietly S.Store.meaning B.Bus.devices (branch_true mask target.at next.at) m.old m.new }
{
    if m.code() & u32::from(mask) == 0 {
        m.jump(next)
    } else {
        m.jump(target)
    }
}

/// Goes to the target if no bit of the mask is in the condition code, else on.
pub fn branch_false<S: Store, B: Bus>(
    m: &mut Core<S, B>,
    mask: u8,
    target: ProgramAddress,
    next: ProgramAddress,
)
    ensures { SetsQuietly S.Store.meaning B.Bus.devices (branch_false mask target.at next.at) m.old m.new }
{
    branch_true(m, mask, next, target)
}
