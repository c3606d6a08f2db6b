ghost use Rattle.std.specs.Prelude.{◌≡◌, ◌∷◌, [], slice_index};
ghost use Rattle.model.specs.Status.{slot};

use bus::meaning::Bus;
use console::machine::Machine;
use model::Item;
use store::meaning::Store;

/// What a neighbour leaves beside the program: register 3 of set 0, and the halfwords at real X'2000' and X'2002'.
#[derive(Clone, Copy)]
pub struct Marks {
    pub register: u32,
    pub beside: [u16; 2],
}

/// The marks in a machine, which is taken apart.
pub fn marks_of<S: Store + Drop, B: Bus + Drop>(mut machine: Machine<S, B>) -> Marks
    ensures register { result.register ≡ slice_index machine.core.registers.words (slot 0 3) }
    ensures beside { result.beside ≡ (S.Store.meaning machine.core.store).word 0x1000 ∷ (S.Store.meaning machine.core.store).word 0x1001 ∷ [] }
{
    let _ = machine.turn_key(1);
    let register = machine.show(Item::General(0, 3)).unwrap_or(0);
    let (store, _) = machine.into_parts();
    Marks {
        register,
        beside: [store.read(0x1000), store.read(0x1001)],
    }
}
