ghost use Rattle.std.specs.Prelude.{◌≡◌};
ghost use Rattle.processor.specs.View.{DoesQuietly};
ghost use Rattle.transfers.specs.Transfers.{bit_place, changed, tbt_tree, change_bit_tree};

use crate::updates::written;
use bus::meaning::Bus;
use fields::bits::{bit_of, bit_offset, with_bit, with_bit_flipped, without_bit};
use model::Trap;
use operands::forms::Addressed;
use processor::cpu::Core;
use registers::words::ProgramAddress;
use store::meaning::Store;
use words::codes::{POSITIVE, flag};

// An enum, no closure: the contract names the tree of the change, and one over a closure would have to hold for any function.
/// What an instruction makes of a bit.
#[derive(Clone, Copy, Debug, PartialEq, Eq)]
pub enum BitChange {
    Set,
    Clear,
    Complement,
}

/// A halfword with a bit changed.
fn changed(change: BitChange, n: u32, half: u16) -> u16
    ensures { result ≡ changed change n half }
{
    match change {
        BitChange::Set => with_bit(n, half),
        BitChange::Clear => without_bit(n, half),
        BitChange::Complement => with_bit_flipped(n, half),
    }
}

/// The address of the halfword with a bit of a row of bits.
#[tactic(auto, unfolding(fields::specs::Bits::bit_offset, crate::specs::Transfers::bit_place))]
fn bit_place(a: ProgramAddress, n: u32) -> ProgramAddress
    ensures { result.at ≡ bit_place a.at n }
{
    ProgramAddress::new(u32::from(a) + bit_offset(n)).to_half()
}

/// Tests a bit.
pub fn tbt<S: Store, B: Bus>(m: &mut Core<S, B>, o: Addressed) -> Result<(), Trap>
    ensures { DoesQuietly S.Store.meaning B.Bus.devices (tbt_tree o.r1 o.a.at o.next.at) m.old result m.new }
{
    let n = m.reg(o.r1);
    let half = m.load(bit_place(o.a, n))?;
    m.set_code(flag(POSITIVE, bit_of(n, half)));
    m.jump(o.next);
    Ok(())
}

/// Changes a bit, and says what it was.
pub fn change_bit<S: Store, B: Bus>(
    m: &mut Core<S, B>,
    change: BitChange,
    o: Addressed,
) -> Result<(), Trap>
    ensures { DoesQuietly S.Store.meaning B.Bus.devices (change_bit_tree change o.r1 o.a.at o.next.at) m.old result m.new }
{
    let n = m.reg(o.r1);
    let place = bit_place(o.a, n);
    let half = m.load(place)?;
    let new = changed(change, n, half);
    written(m, place, new, flag(POSITIVE, bit_of(n, half)), o.next)
}
