ghost use Rattle.std.specs.Prelude.{◌≡◌, None};
ghost use Rattle.model.specs.Answers.{on};
ghost use Rattle.model.specs.Console.{item_denial, item_of};
ghost use Rattle.console.specs.Keys.{number_of};
ghost use Rattle.console.specs.View.{desk_of};
ghost use Rattle.outcome.specs.Shown.{register, sixteen, Shows};

use bus::meaning::Bus;
use console::machine::Machine;
use model::Item;
use store::meaning::Store;

/// What the console shows of a processor.
#[derive(Clone, Copy)]
pub struct Shown {
    pub location: u32,
    pub status: u32,
    /// Register set 0.
    pub lower: [u32; 16],
    /// Register set 15.
    pub upper: [u32; 16],
    pub segments: [u32; 16],
    pub interrupt_status: u32,
}

/// Sixteen registers of a processor, each with a number from 0 to 15.
#[derive(Clone, Copy)]
enum Bank {
    /// Register set 0.
    Lower,
    /// Register set 15.
    Upper,
    /// The segmentation registers.
    Segments,
}

/// The register of a bank that has a number.
fn register(bank: Bank, number: u8) -> Item
    ensures { result ≡ register bank number }
{
    match bank {
        Bank::Lower => Item::General(0, number),
        Bank::Upper => Item::General(15, number),
        Bank::Segments => Item::Segment(number),
    }
}

/// The number in a register that is there, of a machine whose key is ON. The machine stays as it is.
#[tactic(auto, using(session::proofs::Shows::shown_on))]
fn number_in<S: Store, B: Bus>(machine: &mut Machine<S, B>, item: Item) -> u32
    ensures found { number_of machine.old.key.position ≡ on → item_denial item ≡ None → result ≡ item_of item (desk_of S.Store.meaning B.Bus.devices machine.old).core }
    ensures same { machine.new ≡ machine.old }
{
    machine.show(item).unwrap_or(0)
}

/// The numbers in the registers of a bank, of a machine whose key is ON. The machine stays as it is.
fn sixteen<S: Store, B: Bus>(machine: &mut Machine<S, B>, bank: Bank) -> [u32; 16]
    ensures found { number_of machine.old.key.position ≡ on → result ≡ sixteen (register bank) (desk_of S.Store.meaning B.Bus.devices machine.old).core }
    ensures same { machine.new ≡ machine.old }
{
    let mut values = [0; 16];
    for number in 0..16u8 {
        values[usize::from(number)] = number_in(machine, register(bank, number));
    }
    values
}

/// All that the console shows of the processor of a machine whose key is ON. The machine stays as it is.
pub fn shown_by<S: Store, B: Bus>(machine: &mut Machine<S, B>) -> Shown
    ensures shows { number_of machine.old.key.position ≡ on → Shows result (desk_of S.Store.meaning B.Bus.devices machine.old).core }
    ensures interrupt_status { result.interrupt_status ≡ machine.old.core.controller.faults }
    ensures same { machine.new ≡ machine.old }
{
    Shown {
        location: number_in(machine, Item::Location),
        status: number_in(machine, Item::Status),
        lower: sixteen(machine, Bank::Lower),
        upper: sixteen(machine, Bank::Upper),
        segments: sixteen(machine, Bank::Segments),
        interrupt_status: machine.interrupt_status(),
    }
}
