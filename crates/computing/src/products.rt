ghost use Rattle.std.specs.Prelude.{◌≡◌, ◌≤◌};
ghost use Rattle.processor.specs.View.{DoesQuietly, SetsQuietly};
ghost use Rattle.computing.specs.Computing.{pair_of, multiply_tree, divide_tree, m_tree, d_tree};

use bus::meaning::Bus;
use model::Trap;
use operands::addresses::load_full;
use operands::forms::Addressed;
use processor::cpu::Core;
use registers::words::ProgramAddress;
use store::meaning::Store;
use words::products::{divided, product};

/// The first register of a pair, of which the other is the next.
#[tactic(auto, unfolding(crate::specs::Computing::pair_of))]
fn pair_of(r1: u8) -> u8
    ensures value { result ≡ pair_of r1 }
    ensures small { result ≤ 254 }
{
    r1 / 2 * 2
}

/// Multiplies the second register of a pair; the pair takes the product.
pub fn multiply<S: Store, B: Bus>(m: &mut Core<S, B>, r1: u8, y: u32)
    ensures { SetsQuietly S.Store.meaning B.Bus.devices (multiply_tree r1 y) m.old m.new }
{
    let first = pair_of(r1);
    let (high, low) = product(m.reg(first + 1), y);
    m.set_reg(first, high);
    m.set_reg(first + 1, low);
}

/// Divides a pair, and goes on; a division that has no result changes no register.
pub fn divide<S: Store, B: Bus>(
    m: &mut Core<S, B>,
    r1: u8,
    y: u32,
    next: ProgramAddress,
) -> Result<(), Trap>
    ensures { DoesQuietly S.Store.meaning B.Bus.devices (divide_tree r1 y next.at) m.old result m.new }
{
    let first = pair_of(r1);
    let high = m.reg(first);
    let low = m.reg(first + 1);
    m.jump(next);
    let (quotient, remainder) = divided(high, low, y).ok_or(Trap::Arithmetic)?;
    m.set_reg(first, remainder);
    m.set_reg(first + 1, quotient);
    Ok(())
}

/// Multiplies by a fullword of the store.
pub fn multiply_full<S: Store, B: Bus>(m: &mut Core<S, B>, o: Addressed) -> Result<(), Trap>
    ensures { DoesQuietly S.Store.meaning B.Bus.devices (m_tree o.r1 o.a.at o.next.at) m.old result m.new }
{
    let y = load_full(m, o.a.to_full())?;
    multiply(m, o.r1, y);
    m.jump(o.next);
    Ok(())
}

/// Divides by a fullword of the store.
pub fn divide_full<S: Store, B: Bus>(m: &mut Core<S, B>, o: Addressed) -> Result<(), Trap>
    ensures { DoesQuietly S.Store.meaning B.Bus.devices (d_tree o.r1 o.a.at o.next.at) m.old result m.new }
{
    let y = load_full(m, o.a.to_full())?;
    divide(m, o.r1, y, o.next)
}
