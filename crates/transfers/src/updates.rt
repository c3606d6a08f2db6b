ghost use Rattle.processor.specs.View.{DoesQuietly};
ghost use Rattle.transfers.specs.Transfers.{written_tree, am_tree, ahm_tree, ts_tree};

use bus::meaning::Bus;
use fields::bits::{bit_of, with_bit};
use fields::parts::low_half;
use model::Trap;
use operands::addresses::{load_full, store_full};
use operands::forms::Addressed;
use processor::cpu::Core;
use registers::words::ProgramAddress;
use store::meaning::Store;
use words::codes::{NEGATIVE, flag};
use words::sums::{extended, sum, sum_code};

/// Stores a halfword, and only then sets the condition code.
pub(crate) fn written<S: Store, B: Bus>(
    m: &mut Core<S, B>,
    a: ProgramAddress,
    half: u16,
    code: u32,
    next: ProgramAddress,
) -> Result<(), Trap>
    ensures { DoesQuietly S.Store.meaning B.Bus.devices (written_tree a.at half code next.at) m.old result m.new }
{
    m.store(a, half)?;
    m.set_code(code);
    m.jump(next);
    Ok(())
}

/// Adds a register to a fullword of the store.
pub fn am<S: Store, B: Bus>(m: &mut Core<S, B>, o: Addressed) -> Result<(), Trap>
    ensures { DoesQuietly S.Store.meaning B.Bus.devices (am_tree o.r1 o.a.at o.next.at) m.old result m.new }
{
    let x = m.reg(o.r1);
    let y = load_full(m, o.a.to_full())?;
    store_full(m, o.a.to_full(), sum(y, x))?;
    m.set_code(sum_code(y, x).bits());
    m.jump(o.next);
    Ok(())
}

/// Adds a register to a halfword of the store.
pub fn ahm<S: Store, B: Bus>(m: &mut Core<S, B>, o: Addressed) -> Result<(), Trap>
    ensures { DoesQuietly S.Store.meaning B.Bus.devices (ahm_tree o.r1 o.a.at o.next.at) m.old result m.new }
{
    let x = m.reg(o.r1);
    let half = m.load(o.a.to_half())?;
    let y = extended(half);
    written(
        m,
        o.a.to_half(),
        low_half(sum(y, x)),
        sum_code(y, x).bits(),
        o.next,
    )
}

/// Sets the first bit of a halfword, and says what it was.
pub fn ts<S: Store, B: Bus>(m: &mut Core<S, B>, o: Addressed) -> Result<(), Trap>
    ensures { DoesQuietly S.Store.meaning B.Bus.devices (ts_tree o.a.at o.next.at) m.old result m.new }
{
    let half = m.load(o.a.to_half())?;
    written(
        m,
        o.a.to_half(),
        with_bit(0, half),
        flag(NEGATIVE, bit_of(0, half)),
        o.next,
    )
}
