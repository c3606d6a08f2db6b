ghost use Rattle.std.specs.Prelude.{◌≡◌};
ghost use Rattle.model.specs.Answers.{on};
ghost use Rattle.console.specs.Keys.{number_of};
ghost use Rattle.console.specs.View.{desk_of};
ghost use Rattle.outcome.specs.ReadBack.{read_back, words_digest};

use bus::meaning::Bus;
use console::machine::Machine;
use store::meaning::Store;

/// The halfword that the console of a machine whose key is ON reads back at a real address, or X'FFFF' where it is denied. The machine
/// stays as it is.
fn read_back<S: Store, B: Bus>(machine: &mut Machine<S, B>, address: u32) -> u16
    ensures read { number_of machine.old.key.position ≡ on → result ≡ read_back (desk_of S.Store.meaning B.Bus.devices machine.old).core.store address }
    ensures same { machine.new ≡ machine.old }
{
    machine.examine(address).unwrap_or(0xffff)
}

/// A digest of the first 8,192 halfwords that the console of a machine whose key is ON reads back. The machine stays as it is.
pub fn words_digest<S: Store, B: Bus>(machine: &mut Machine<S, B>) -> u32
    ensures digest { number_of machine.old.key.position ≡ on → result ≡ words_digest (desk_of S.Store.meaning B.Bus.devices machine.old).core.store }
    ensures same { machine.new ≡ machine.old }
{
    let mut digest = 0u32;
    for place in 0..0x2000u32 {
        let word = read_back(machine, 2 * place);
        digest = digest.wrapping_mul(31).wrapping_add(u32::from(word));
    }
    digest
}
