ghost use Rattle.bus.specs.Touches.{Becomes};
ghost use Rattle.processor.specs.View.{Does};
ghost use Rattle.devices.specs.Devices.{sent, register_out_tree, out_tree};

use crate::named::{absent, device, end};
use bus::meaning::Bus;
use fields::parts::low_byte;
use model::{Access, Trap};
use operands::addresses::load_byte;
use operands::forms::{Addressed, Between};
use processor::cpu::Core;
use store::meaning::Store;

// An enum, no closure: each contract names the tree of the output, and one over a closure would have to hold for any function.
/// What goes out to a device.
#[derive(Clone, Copy, Debug, PartialEq, Eq)]
pub enum Output {
    Data,
    Command,
}

/// Sends a byte to a device.
fn send<S: Store, B: Bus>(m: &mut Core<S, B>, output: Output, d: u8, byte: u8) -> Result<(), Trap>
    ensures does { Does S.Store.meaning B.Bus.devices (sent output d byte) m.old result m.new }
    ensures touches { Becomes B.Bus.touched m.old.bus m.new.bus }
{
    match output {
        Output::Data => m.write_to(d, byte),
        Output::Command => m.command_to(d, byte),
    }
}

/// Sends a device the low byte of a register.
#[tactic(auto, using(bus::proofs::Touches::becomes_same))]
pub fn register_out<S: Store, B: Bus>(
    m: &mut Core<S, B>,
    output: Output,
    o: Between,
) -> Result<(), Trap>
    ensures does { Does S.Store.meaning B.Bus.devices (register_out_tree output o.r1 o.r2 o.next.at) m.old result m.new }
    ensures touches { Becomes B.Bus.touched m.old.bus m.new.bus }
{
    let Some(d) = device(m, o.r1)? else {
        absent(m, o.next);
        return Ok(());
    };
    let value = m.reg(o.r2);
    send(m, output, d, low_byte(value))?;
    end(m, 0, o.next);
    Ok(())
}

/// Sends a device a byte of the store.
#[tactic(auto, using(bus::proofs::Touches::becomes_same))]
pub fn out<S: Store, B: Bus>(m: &mut Core<S, B>, output: Output, o: Addressed) -> Result<(), Trap>
    ensures does { Does S.Store.meaning B.Bus.devices (out_tree output o.r1 o.a.at o.next.at) m.old result m.new }
    ensures touches { Becomes B.Bus.touched m.old.bus m.new.bus }
{
    m.check(Access::Read, o.a)?;
    let Some(d) = device(m, o.r1)? else {
        absent(m, o.next);
        return Ok(());
    };
    let byte = load_byte(m, o.a)?;
    send(m, output, d, byte)?;
    end(m, 0, o.next);
    Ok(())
}
