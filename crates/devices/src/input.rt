ghost use Rattle.bus.specs.Touches.{Becomes};
ghost use Rattle.processor.specs.View.{Does};
ghost use Rattle.devices.specs.Devices.{rdr_tree, rd_tree};

use crate::named::{absent, device, end};
use bus::meaning::Bus;
use model::{Access, Trap};
use operands::forms::{Addressed, Between};
use processor::cpu::Core;
use store::meaning::Store;

/// Reads a device into a register.
#[tactic(auto, using(bus::proofs::Touches::becomes_same))]
pub fn rdr<S: Store, B: Bus>(m: &mut Core<S, B>, o: Between) -> Result<(), Trap>
    ensures does { Does S.Store.meaning B.Bus.devices (rdr_tree o.r1 o.r2 o.next.at) m.old result m.new }
    ensures touches { Becomes B.Bus.touched m.old.bus m.new.bus }
{
    let Some(d) = device(m, o.r1)? else {
        absent(m, o.next);
        return Ok(());
    };
    let byte = m.read_from(d)?;
    m.set_reg(o.r2, u32::from(byte));
    end(m, 0, o.next);
    Ok(())
}

/// Reads a device into a byte of the store.
#[tactic(auto, using(bus::proofs::Touches::becomes_same))]
pub fn rd<S: Store, B: Bus>(m: &mut Core<S, B>, o: Addressed) -> Result<(), Trap>
    ensures does { Does S.Store.meaning B.Bus.devices (rd_tree o.r1 o.a.at o.next.at) m.old result m.new }
    ensures touches { Becomes B.Bus.touched m.old.bus m.new.bus }
{
    m.check(Access::Write, o.a)?;
    let Some(d) = device(m, o.r1)? else {
        absent(m, o.next);
        return Ok(());
    };
    let byte = m.read_from(d)?;
    m.store_byte(o.a, byte)?;
    end(m, 0, o.next);
    Ok(())
}
