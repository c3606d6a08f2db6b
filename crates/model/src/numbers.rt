ghost use Rattle.std.specs.Prelude.{◌≡◌};
ghost use Rattle.model.specs.declared.Trap.TheVariants.{Refusal};
ghost use Rattle.model.specs.Answers.{number, cause_number, step_number, reason_number};
ghost use Rattle.model.specs.Controller.{fault_bit};

use crate::{Cause, Denial, Reason, StepAnswer, Trap, Violation};

/// The bit of the interrupt status that a violation sets.
impl From<Violation> for u8 {
    ghost from_gives = { λ violation n. n ≡ fault_bit violation };

    fn from(violation: Violation) -> u8 {
        match violation {
            Violation::Limit => 16,
            Violation::Absent => 8,
            Violation::NoExecute => 1,
            Violation::WriteProtected => 4,
        }
    }
}

/// A violation stops the instruction.
impl From<Violation> for Trap {
    ghost from_gives = { λ _ trap. trap ≡ Refusal };

    fn from(_violation: Violation) -> Trap {
        Trap::Refusal
    }
}

/// The number of a denial, 1 to 9.
impl From<Denial> for u8 {
    ghost from_gives = { λ denial n. n ≡ number denial };

    fn from(denial: Denial) -> u8 {
        match denial {
            Denial::NoPlace => 1,
            Denial::FixedPlace => 2,
            Denial::NoRegister => 3,
            Denial::OutOfRange => 4,
            Denial::UnknownLetter => 5,
            Denial::CutShort => 6,
            Denial::KeyOff => 7,
            Denial::KeyLocked => 8,
            Denial::TraceFull => 9,
        }
    }
}

/// The number of an interrupt's cause, 2 to 6.
impl From<Cause> for u8 {
    ghost from_gives = { λ cause n. n ≡ cause_number cause };

    fn from(cause: Cause) -> u8 {
        match cause {
            Cause::IllegalInstruction => 2,
            Cause::ArithmeticFault => 3,
            Cause::AccessFault => 4,
            Cause::SupervisorCall => 5,
            Cause::DeviceRequest => 6,
        }
    }
}

/// The number of a step's answer: 0 done, 1 waiting, or that of the cause.
impl From<StepAnswer> for u8 {
    ghost from_gives = { λ answer n. n ≡ step_number answer };

    fn from(answer: StepAnswer) -> u8 {
        match answer {
            StepAnswer::Done => 0,
            StepAnswer::Waiting => 1,
            StepAnswer::Interrupted(cause) => u8::from(cause),
        }
    }
}

/// The number of the reason for which a run stopped: 0 waiting, 1 full, 2 count.
impl From<Reason> for u8 {
    ghost from_gives = { λ reason n. n ≡ reason_number reason };

    fn from(reason: Reason) -> u8 {
        match reason {
            Reason::Waited => 0,
            Reason::Filled => 1,
            Reason::Counted => 2,
        }
    }
}
