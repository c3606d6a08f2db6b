ghost use Rattle.std.specs.Prelude.{◌≡◌, false, IfOk};
ghost use Rattle.decode.specs.Forms.{is_long};
ghost use Rattle.processor.specs.View.{DoesAlone, GivesAlone, GivesQuietly, ShowsCalmly};
ghost use Rattle.operands.specs.Operands.{index_tree, third_tree, next_of, address_tree, following, load_byte, load_full, store_full};

use bus::meaning::Bus;
use decode::forms::{Parts, address_of, index_field, is_long, second_field};
use fields::parts::{byte_at, high_half, joined, low_half};
use model::Trap;
use processor::cpu::Core;
use registers::words::ProgramAddress;
use store::meaning::Store;

/// An index: a register, or 0 for register 0.
pub fn index<S: Store, B: Bus>(m: &Core<S, B>, number: u8) -> u32
    ensures { ShowsCalmly S.Store.meaning B.Bus.devices (index_tree number) m.now result }
{
    if number == 0 { 0 } else { m.reg(number) }
}

// 0 and no Option: the address is a rule over numbers, and the second halfword says whether the third counts.
/// The third halfword of an instruction, if its second says that there is one, else 0.
pub fn third<S: Store, B: Bus>(
    m: &mut Core<S, B>,
    own: ProgramAddress,
    second: u16,
) -> Result<u16, Trap>
    ensures does { GivesQuietly S.Store.meaning B.Bus.devices (third_tree own.at second) m.old result m.new }
    ensures absent { IfOk result (λ x. is_long second ≡ false → x ≡ 0) }
{
    if is_long(second) {
        m.fetch(own.plus(4))
    } else {
        Ok(0)
    }
}

/// The address of the instruction after one with a second halfword.
pub fn next(own: ProgramAddress, second: u16) -> ProgramAddress
    ensures { result.at ≡ next_of own.at second }
{
    if is_long(second) {
        own.plus(6)
    } else {
        own.plus(4)
    }
}

/// The address that an instruction gives.
#[tactic(auto, using(processor::proofs::Addresses::address_same), unfolding(crate::specs::Operands::address_tree))]
pub fn address<S: Store, B: Bus>(
    m: &Core<S, B>,
    own: ProgramAddress,
    parts: Parts<'_>,
) -> ProgramAddress
    ensures { ShowsCalmly S.Store.meaning B.Bus.devices (address_tree own.at parts.entry.first parts.entry.second parts.entry.third) m.now result.at }
{
    let first_index = index(m, second_field(parts.first));
    let second_index = index(
        m,
        if is_long(parts.second) {
            index_field(parts.second)
        } else {
            0
        },
    );
    ProgramAddress::new(address_of(
        u32::from(own),
        parts.second,
        parts.third,
        first_index,
        second_index,
    ))
}

/// The register so many after another; after 15 comes 0.
#[tactic(auto, unfolding(crate::specs::Operands::following))]
pub fn following(number: u8, by: u8) -> u8
    ensures { result ≡ following number by }
{
    (number % 16 + by % 16) % 16
}

/// Loads a byte: one read, of its halfword.
#[tactic(auto, unfolding(crate::specs::Operands::load_byte))]
pub fn load_byte<S: Store, B: Bus>(m: &mut Core<S, B>, a: ProgramAddress) -> Result<u8, Trap>
    ensures { GivesAlone S.Store.meaning B.Bus.devices (load_byte a.at) m.old result m.new }
{
    let half = m.load(a)?;
    Ok(byte_at(a.is_odd(), half))
}

/// Loads a fullword, the high half first.
#[tactic(auto, unfolding(crate::specs::Operands::load_full))]
pub fn load_full<S: Store, B: Bus>(m: &mut Core<S, B>, a: ProgramAddress) -> Result<u32, Trap>
    ensures { GivesAlone S.Store.meaning B.Bus.devices (load_full a.at) m.old result m.new }
{
    let high = m.load(a)?;
    let low = m.load(a.plus(2))?;
    Ok(joined(high, low))
}

/// Stores a fullword, the high half first.
#[tactic(auto, unfolding(crate::specs::Operands::store_full))]
pub fn store_full<S: Store, B: Bus>(
    m: &mut Core<S, B>,
    a: ProgramAddress,
    value: u32,
) -> Result<(), Trap>
    ensures { DoesAlone S.Store.meaning B.Bus.devices (store_full a.at value) m.old result m.new }
{
    m.store(a, high_half(value))?;
    m.store(a.plus(2), low_half(value))?;
    Ok(())
}
