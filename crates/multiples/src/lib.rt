//! The registers from one on to register 15, and the fullwords from an address on.
#![tactic(auto)]

ghost use Rattle.std.specs.Prelude.{◌-◌};
ghost use Rattle.processor.specs.View.{DoesQuietly, DoesAlone};
ghost use Rattle.multiples.specs.Multiples.{moved, moves, multiple_tree};

use bus::meaning::Bus;
use model::Trap;
use operands::addresses::{load_full, store_full};
use operands::forms::Addressed;
use processor::cpu::Core;
use registers::words::ProgramAddress;
use store::meaning::Store;

// An enum, no closure: each contract names the tree of the way, and one over a closure would have to hold for any function.
/// Which way registers and fullwords move.
#[derive(Clone, Copy, Debug, PartialEq, Eq)]
pub enum Way {
    Load,
    Store,
}

/// Loads or stores a register.
fn moved<S: Store, B: Bus>(
    m: &mut Core<S, B>,
    way: Way,
    number: u8,
    a: ProgramAddress,
) -> Result<(), Trap>
    ensures { DoesAlone S.Store.meaning B.Bus.devices (moved way number a.at) m.old result m.new }
{
    match way {
        Way::Load => {
            let value = load_full(m, a)?;
            m.set_reg(number, value);
            Ok(())
        }
        Way::Store => {
            let value = m.reg(number);
            store_full(m, a, value)
        }
    }
}

/// Loads or stores the registers from one on to register 15.
fn moves<S: Store, B: Bus>(
    m: &mut Core<S, B>,
    way: Way,
    r1: u8,
    from: ProgramAddress,
) -> Result<(), Trap>
    ensures { DoesAlone S.Store.meaning B.Bus.devices (moves way (16 - r1) r1 from.at) m.old result m.new }
{
    for n in r1..16 {
        moved(m, way, n, from.plus(4 * u16::from(n - r1)))?;
    }
    Ok(())
}

/// Loads registers from successive fullwords, or stores them there.
pub fn multiple<S: Store, B: Bus>(m: &mut Core<S, B>, way: Way, o: Addressed) -> Result<(), Trap>
    ensures { DoesQuietly S.Store.meaning B.Bus.devices (multiple_tree way o.r1 o.a.at o.next.at) m.old result m.new }
{
    moves(m, way, o.r1, o.a.to_full())?;
    m.jump(o.next);
    Ok(())
}
