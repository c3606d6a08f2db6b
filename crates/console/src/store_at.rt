ghost use Rattle.std.specs.Prelude.{◌≡◌, ◌/◌, ◌^◌, ◌<◌, IfOk, OnOk, OnErr};
ghost use Rattle.model.specs.Stores.{stored};
ghost use Rattle.model.specs.States.{with_store};
ghost use Rattle.model.specs.Console.{or_else, strange, place_denial, fixed_denial};
ghost use Rattle.processor.specs.View.{state_of};
ghost use Rattle.steps.specs.View.{refusal};

use bus::meaning::Bus;
use model::{Denial, Kind};
use processor::cpu::Core;
use store::meaning::Store;

/// Whether an address is odd or over X'FFFFF'.
#[tactic(auto, unfolding(model::specs::Console::strange))]
pub(crate) fn is_strange(address: u32) -> bool
    ensures { result ≡ strange address }
{
    address % 2 == 1 || address >= 0x10_0000
}

/// The fitted place at a real address.
pub(crate) fn place_at<S: Store, B: Bus>(core: &Core<S, B>, address: u32) -> Result<usize, Denial>
    ensures refused { refusal result ≡ place_denial address (S.Store.meaning core.now.store) }
    ensures found { IfOk result (λ p. p ≡ address / 2) }
{
    if is_strange(address) {
        return Err(Denial::NoPlace);
    }
    let place = (address / 2) as usize;
    match core.kind(place) {
        Kind::Writable | Kind::Fixed => Ok(place),
        Kind::Unfitted => Err(Denial::NoPlace),
    }
}

/// Writes a halfword at a real address, in the store.
#[tactic(auto, unfolding(model::specs::Console::strange))]
pub(crate) fn deposit_at<S: Store, B: Bus>(
    core: &mut Core<S, B>,
    address: u32,
    word: u16,
) -> Result<(), Denial>
    ensures refused { refusal result ≡ or_else (place_denial address (S.Store.meaning core.old.store)) (fixed_denial address (S.Store.meaning core.old.store)) }
    ensures does { OnOk result (state_of S.Store.meaning B.Bus.devices core.new ≡ with_store (stored (S.Store.meaning core.old.store) (address / 2) word) (state_of S.Store.meaning B.Bus.devices core.old)) }
    ensures denied { OnErr result (core.new ≡ core.old) }
    ensures bus { core.new.bus ≡ core.old.bus }
    ensures low { IfOk result (λ _. address < 2 ^ 20) }
{
    let place = place_at(core, address)?;
    if core.kind(place) == Kind::Fixed {
        return Err(Denial::FixedPlace);
    }
    core.deposit(place, word);
    Ok(())
}
