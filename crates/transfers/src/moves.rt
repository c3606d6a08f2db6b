ghost use Rattle.processor.specs.View.{DoesQuietly};
ghost use Rattle.transfers.specs.Transfers.{sth_tree, st_tree, lhl_tree, lb_tree, stb_tree, clb_tree};

use bus::meaning::Bus;
use fields::parts::{low_byte, low_half};
use model::Trap;
use operands::addresses::{load_byte, store_full};
use operands::forms::Addressed;
use operands::functions::result;
use processor::cpu::Core;
use store::meaning::Store;
use words::sums::compare_logical_code;

/// Stores the low half of a register.
pub fn sth<S: Store, B: Bus>(m: &mut Core<S, B>, o: Addressed) -> Result<(), Trap>
    ensures { DoesQuietly S.Store.meaning B.Bus.devices (sth_tree o.r1 o.a.at o.next.at) m.old result m.new }
{
    let value = m.reg(o.r1);
    m.store(o.a.to_half(), low_half(value))?;
    m.jump(o.next);
    Ok(())
}

/// Stores a register.
pub fn st<S: Store, B: Bus>(m: &mut Core<S, B>, o: Addressed) -> Result<(), Trap>
    ensures { DoesQuietly S.Store.meaning B.Bus.devices (st_tree o.r1 o.a.at o.next.at) m.old result m.new }
{
    let value = m.reg(o.r1);
    store_full(m, o.a.to_full(), value)?;
    m.jump(o.next);
    Ok(())
}

/// Loads a halfword as a number from 0 on.
pub fn lhl<S: Store, B: Bus>(m: &mut Core<S, B>, o: Addressed) -> Result<(), Trap>
    ensures { DoesQuietly S.Store.meaning B.Bus.devices (lhl_tree o.r1 o.a.at o.next.at) m.old result m.new }
{
    let half = m.load(o.a.to_half())?;
    result(m, o.r1, u32::from(half));
    m.jump(o.next);
    Ok(())
}

/// Loads a byte.
pub fn lb<S: Store, B: Bus>(m: &mut Core<S, B>, o: Addressed) -> Result<(), Trap>
    ensures { DoesQuietly S.Store.meaning B.Bus.devices (lb_tree o.r1 o.a.at o.next.at) m.old result m.new }
{
    let byte = load_byte(m, o.a)?;
    m.set_reg(o.r1, u32::from(byte));
    m.jump(o.next);
    Ok(())
}

/// Stores the low byte of a register.
pub fn stb<S: Store, B: Bus>(m: &mut Core<S, B>, o: Addressed) -> Result<(), Trap>
    ensures { DoesQuietly S.Store.meaning B.Bus.devices (stb_tree o.r1 o.a.at o.next.at) m.old result m.new }
{
    let value = m.reg(o.r1);
    m.store_byte(o.a, low_byte(value))?;
    m.jump(o.next);
    Ok(())
}

/// Compares the low byte of a register with a byte of the store.
pub fn clb<S: Store, B: Bus>(m: &mut Core<S, B>, o: Addressed) -> Result<(), Trap>
    ensures { DoesQuietly S.Store.meaning B.Bus.devices (clb_tree o.r1 o.a.at o.next.at) m.old result m.new }
{
    let value = m.reg(o.r1);
    let byte = load_byte(m, o.a)?;
    m.set_code(compare_logical_code(u32::from(low_byte(value)), u32::from(byte)).bits());
    m.jump(o.next);
    Ok(())
}
