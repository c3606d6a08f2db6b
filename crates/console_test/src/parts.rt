ghost use Rattle.std.specs.Prelude.{◌≡◌, ℕ, [], ◌∷◌, MatchResult};
ghost use Rattle.model.specs.Answers.{number, step_number, reason_number};
ghost use Rattle.console_test.specs.Numbers.{letter_number};

use model::{Cause, Denial, Record, StepAnswer};
use steps::run::RunAnswer;
use tape::orders::TapeFault;

/// What a slot of a trace holds before any record: not what `BLANK` has, so that a test would show a slot that is read unwritten.
pub(crate) const UNUSED: Record = Record {
    cause: Cause::DeviceRequest,
    status: 0,
    location: 0,
    faults: 0,
};

// Numbers, and not the answers themselves, here and below: they are what a caller of the console knows an answer by, and one that
// changes fails a test.
/// The number of a denial, and 0 for an answer.
pub(crate) fn denied<T: Drop>(answer: Result<T, Denial>) -> u8
    ensures { MatchResult answer (λ _. result ≡ 0) (λ denial. result ≡ number denial) }
{
    answer.err().map_or(0, u8::from)
}

/// The number of a step's answer, and 255 for a denial.
pub(crate) fn stepped(answer: Result<StepAnswer, Denial>) -> u8
    ensures { MatchResult answer (λ stepped. result ≡ step_number stepped) (λ _. result ≡ 255) }
{
    answer.map_or(255, u8::from)
}

/// The steps of a run and the number of its reason; for a denial its number, and 3.
pub(crate) fn ran(answer: Result<RunAnswer, Denial>) -> [u32; 2]
    ensures { MatchResult answer
        (λ run. result ≡ run.steps ∷ reason_number run.reason ∷ [])
        (λ denial. result ≡ number denial ∷ 3 ∷ []) }
{
    match answer {
        Ok(run) => [run.steps, u32::from(u8::from(run.reason))],
        Err(denial) => [u32::from(u8::from(denial)), 3],
    }
}

/// What a play answers: 0 and the number of commands obeyed; or the denial, the place and the letter, 256 for none.
pub(crate) fn played(answer: Result<usize, TapeFault>) -> [usize; 3]
    ensures { MatchResult answer
        (λ obeyed. result ≡ 0 ∷ obeyed ∷ 0 ∷ [])
        (λ fault. result ≡ number fault.denial ∷ fault.place ∷ letter_number fault.letter ∷ []) }
{
    match answer {
        Ok(obeyed) => [0, obeyed, 0],
        Err(fault) => [
            usize::from(u8::from(fault.denial)),
            fault.place,
            fault.letter.map_or(256, usize::from),
        ],
    }
}
