ghost use Rattle.std.specs.Prelude.{◌≡◌, ◌≤◌, true, false, MatchOption, IfSome, IfOk};
ghost use Rattle.processor.specs.View.{SetsQuietly};
ghost use Rattle.devices.specs.Devices.{no_device, Names, end_tree};

use bus::meaning::Bus;
use fields::parts::device_number;
use model::Trap;
use processor::cpu::Core;
use registers::words::ProgramAddress;
use store::meaning::Store;

/// The device of a number, if one can have it.
#[tactic(auto, unfolding(crate::specs::Devices::no_device))]
fn numbered(n: u32) -> Option<u8>
    ensures { MatchOption result (no_device n ≡ true) (λ d. (no_device n ≡ false) × ((d ≡ n) × (1 ≤ d))) }
{
    u8::try_from(n).ok().filter(|d| *d != 0)
}

/// The device that a register names, if it answers.
#[tactic(auto, unfolding(crate::specs::Devices::device_tree))]
pub(crate) fn device<S: Store, B: Bus>(m: &Core<S, B>, r1: u8) -> Result<Option<u8>, Trap>
    ensures named { Names S.Store.meaning B.Bus.devices r1 m.now result }
    ensures first { IfOk result (λ d. IfSome d (λ n. 1 ≤ n)) }
{
    let Some(d) = numbered(device_number(m.reg(r1))) else {
        return Ok(None);
    };
    let there = m.answers(d)?;
    Ok(there.then_some(d))
}

/// Goes on with a condition code.
pub(crate) fn end<S: Store, B: Bus>(m: &mut Core<S, B>, code: u32, next: ProgramAddress)
    ensures { SetsQuietly S.Store.meaning B.Bus.devices (end_tree code next.at) m.old m.new }
{
    m.set_code(code);
    m.jump(next);
}

/// Goes on where the device does not answer.
// Each caller has its own `let .. else`. A closure for what is done with the device was tried: its contract must hold for every
// tree of effects, and each caller's proof names its tree again.
pub(crate) fn absent<S: Store, B: Bus>(m: &mut Core<S, B>, next: ProgramAddress)
    ensures { SetsQuietly S.Store.meaning B.Bus.devices (end_tree 4 next.at) m.old m.new }
{
    end(m, 4, next);
}
