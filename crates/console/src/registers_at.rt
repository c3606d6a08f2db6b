ghost use Rattle.std.specs.Prelude.{◌≡◌, IfOk, OnOk, OnErr};
ghost use Rattle.model.specs.Console.{or_else, item_denial, value_denial, item_of, with_item};
ghost use Rattle.processor.specs.View.{state_of, SameParts};
ghost use Rattle.steps.specs.View.{refusal};

use crate::store_at::is_strange;
use bus::meaning::Bus;
use model::{Denial, Item};
use processor::cpu::Core;
use registers::controller::used_bits;
use registers::words::ProgramAddress;
use store::meaning::Store;

/// Denies a register that is not there.
#[tactic(auto, unfolding(model::specs::Status::no_set))]
fn check_item(item: Item) -> Result<(), Denial>
    ensures { refusal result ≡ item_denial item }
{
    match item {
        Item::General(1..=14 | 16.., _) | Item::General(_, 16..) | Item::Segment(16..) => {
            Err(Denial::NoRegister)
        }
        _ => Ok(()),
    }
}

/// Denies a number that a register does not take.
fn check_value(item: Item, value: u32) -> Result<(), Denial>
    ensures { refusal result ≡ value_denial item value }
{
    match item {
        Item::Segment(_) if used_bits(value) != value => Err(Denial::OutOfRange),
        Item::Location if is_strange(value) => Err(Denial::OutOfRange),
        _ => Ok(()),
    }
}

/// The number in a register.
pub(crate) fn item_in<S: Store, B: Bus>(core: &Core<S, B>, item: Item) -> Result<u32, Denial>
    ensures refused { refusal result ≡ item_denial item }
    ensures found { IfOk result (λ v. v ≡ item_of item (state_of S.Store.meaning B.Bus.devices core.now)) }
{
    check_item(item)?;
    Ok(match item {
        Item::General(set, number) => core.general(set, number),
        Item::Segment(number) => core.segment(number),
        Item::Status => core.psw().status(),
        Item::Location => u32::from(core.psw().location()),
    })
}

/// Gives a register another number.
#[tactic(auto, using(crate::proofs::Locations::location_same))]
pub(crate) fn set_item<S: Store, B: Bus>(
    core: &mut Core<S, B>,
    item: Item,
    value: u32,
) -> Result<(), Denial>
    ensures refused { refusal result ≡ or_else (item_denial item) (value_denial item value) }
    ensures does { OnOk result (state_of S.Store.meaning B.Bus.devices core.new ≡ with_item item value (state_of S.Store.meaning B.Bus.devices core.old)) }
    ensures denied { OnErr result (core.new ≡ core.old) }
    ensures parts { SameParts core.old core.new }
{
    check_item(item)?;
    check_value(item, value)?;
    match item {
        Item::General(set, number) => core.set_general(set, number, value),
        Item::Segment(number) => core.set_segment(number, value),
        Item::Status => core.load_status(value),
        Item::Location => core.load_location(ProgramAddress::new(value)),
    }
    Ok(())
}
