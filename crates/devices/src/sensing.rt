ghost use Rattle.processor.specs.View.{DoesQuietly, GivesCalmly};
ghost use Rattle.devices.specs.Devices.{status_tree, ssr_tree, ss_tree};

use crate::named::{device, end};
use bus::meaning::Bus;
use model::{Access, Trap};
use operands::forms::{Addressed, Between};
use processor::cpu::Core;
use store::meaning::Store;

/// The status of the device that a register names; 4 if it does not answer.
#[tactic(auto, unfolding(crate::specs::Devices::status_tree))]
fn status<S: Store, B: Bus>(m: &Core<S, B>, r1: u8) -> Result<u8, Trap>
    ensures { GivesCalmly S.Store.meaning B.Bus.devices (status_tree r1) m.now result m.now }
{
    let Some(d) = device(m, r1)? else {
        return Ok(4);
    };
    m.sense(d)
}

/// Puts the status of a device into a register.
pub fn ssr<S: Store, B: Bus>(m: &mut Core<S, B>, o: Between) -> Result<(), Trap>
    ensures { DoesQuietly S.Store.meaning B.Bus.devices (ssr_tree o.r1 o.r2 o.next.at) m.old result m.new }
{
    let byte = status(m, o.r1)?;
    m.set_reg(o.r2, u32::from(byte));
    end(m, u32::from(byte) % 16, o.next);
    Ok(())
}

/// Stores the status of a device.
pub fn ss<S: Store, B: Bus>(m: &mut Core<S, B>, o: Addressed) -> Result<(), Trap>
    ensures { DoesQuietly S.Store.meaning B.Bus.devices (ss_tree o.r1 o.a.at o.next.at) m.old result m.new }
{
    m.check(Access::Write, o.a)?;
    let byte = status(m, o.r1)?;
    m.store_byte(o.a, byte)?;
    end(m, u32::from(byte) % 16, o.next);
    Ok(())
}
