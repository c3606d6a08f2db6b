ghost use Rattle.processor.specs.View.{SetsQuietly};
ghost use Rattle.transfers.specs.Transfers.{exhr_tree, exbr_tree, lbr_tree, stbr_tree};

use bus::meaning::Bus;
use fields::parts::{bytes_exchanged, halves_exchanged, low_byte, with_low_byte, with_low_half};
use processor::cpu::Core;
use store::meaning::Store;

// r1 and r2, not Between: these do not jump.

/// Moves a register with its halves exchanged.
pub fn exhr<S: Store, B: Bus>(m: &mut Core<S, B>, r1: u8, r2: u8)
    ensures { SetsQuietly S.Store.meaning B.Bus.devices (exhr_tree r1 r2) m.old m.new }
{
    let value = m.reg(r2);
    m.set_reg(r1, halves_exchanged(value));
}

/// Moves the low half of a register with its bytes exchanged.
pub fn exbr<S: Store, B: Bus>(m: &mut Core<S, B>, r1: u8, r2: u8)
    ensures { SetsQuietly S.Store.meaning B.Bus.devices (exbr_tree r1 r2) m.old m.new }
{
    let x = m.reg(r1);
    let y = m.reg(r2);
    m.set_reg(r1, with_low_half(x, bytes_exchanged(y)));
}

/// Moves the low byte of the second register to the first, which has no other.
pub fn lbr<S: Store, B: Bus>(m: &mut Core<S, B>, r1: u8, r2: u8)
    ensures { SetsQuietly S.Store.meaning B.Bus.devices (lbr_tree r1 r2) m.old m.new }
{
    let value = m.reg(r2);
    m.set_reg(r1, u32::from(low_byte(value)));
}

/// Moves the low byte of the first register to the second, which keeps its others.
pub fn stbr<S: Store, B: Bus>(m: &mut Core<S, B>, r1: u8, r2: u8)
    ensures { SetsQuietly S.Store.meaning B.Bus.devices (stbr_tree r1 r2) m.old m.new }
{
    let x = m.reg(r1);
    let y = m.reg(r2);
    m.set_reg(r2, with_low_byte(y, low_byte(x)));
}
