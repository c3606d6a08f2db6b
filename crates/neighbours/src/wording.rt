ghost use Rattle.std.specs.Prelude.{◌≡◌};
ghost use Rattle.neighbours.specs.Neighbours.{word_of};

use model::{Cause, StepAnswer};

// Not by Display: the words that a cause prints are longer, and what this program prints stays as it was.
/// An answer in a word.
pub fn word(answer: StepAnswer) -> &'static str
    ensures { result.now ≡ word_of answer }
{
    match answer {
        StepAnswer::Done => "done",
        StepAnswer::Waiting => "waiting",
        StepAnswer::Interrupted(Cause::IllegalInstruction) => "illegal",
        StepAnswer::Interrupted(Cause::ArithmeticFault) => "arithmetic",
        StepAnswer::Interrupted(Cause::AccessFault) => "access",
        StepAnswer::Interrupted(Cause::SupervisorCall) => "supervisor",
        StepAnswer::Interrupted(Cause::DeviceRequest) => "device",
    }
}
