ghost use Rattle.bus.specs.Touches.{Becomes};
ghost use Rattle.processor.specs.View.{Does};
ghost use Rattle.instructions.specs.Instructions.{body_of, instruction};

use crate::immediates::{immediate_body, long_body};
use crate::memory::memory_body;
use crate::registers_only::{register, short};
use bus::meaning::Bus;
use decode::codes::operation;
use decode::forms::{code_field, first_field, second_field};
use decode::operations::Operation;
use model::Trap;
use operands::forms::Between;
use processor::cpu::Core;
use registers::words::ProgramAddress;
use store::meaning::Store;

// `own` and `first` are no struct, here and in the bodies: each goes elsewhere, `own` to addresses, `first` to `take_apart`.
/// Does an operation, by its form.
#[tactic(auto, using(bus::proofs::Touches::becomes_same))]
fn body<S: Store, B: Bus>(
    m: &mut Core<S, B>,
    operation: Operation,
    own: ProgramAddress,
    first: u16,
) -> Result<(), Trap>
    ensures does { Does S.Store.meaning B.Bus.devices (body_of operation own.at first) m.old result m.new }
    ensures touches { Becomes B.Bus.touched m.old.bus m.new.bus }
{
    match operation {
        Operation::Register(o) => register(
            m,
            o,
            Between {
                r1: first_field(first),
                r2: second_field(first),
                next: own.plus(2),
            },
        ),
        Operation::Short(o) => {
            short(m, o, own, first_field(first), second_field(first));
            Ok(())
        }
        Operation::Memory(o) => memory_body(m, o, own, first),
        Operation::Immediate(o) => immediate_body(m, o, own, first),
        Operation::LongImmediate(f) => long_body(m, f, own, first),
        Operation::Illegal => Err(Trap::Illegal),
    }
}

/// Does the instruction that begins with a halfword.
#[tactic(auto, using(bus::proofs::Touches::becomes_same))]
pub fn execute<S: Store, B: Bus>(m: &mut Core<S, B>, first: u16) -> Result<(), Trap>
    ensures does { Does S.Store.meaning B.Bus.devices (instruction first) m.old result m.new }
    ensures touches { Becomes B.Bus.touched m.old.bus m.new.bus }
{
    let own = m.location();
    let operation = operation(code_field(first), m.psw().protected());
    body(m, operation, own, first)
}
