ghost use Rattle.std.specs.Prelude.{◌≡◌, Some};
ghost use Rattle.model.specs.Words.{denial_words, cause_words};

use crate::{Cause, Denial};
use std::fmt;

impl Denial {
    /// The denial in words.
    pub fn words(self) -> &'static str
        ensures { result.now ≡ denial_words self }
    {
        match self {
            Denial::NoPlace => "no such place in the store",
            Denial::FixedPlace => "the place is fixed",
            Denial::NoRegister => "no such register",
            Denial::OutOfRange => "the number is out of range",
            Denial::UnknownLetter => "the letter is unknown",
            Denial::CutShort => "the operand is cut short",
            Denial::KeyOff => "the key is OFF",
            Denial::KeyLocked => "the key is at LOCK",
            Denial::TraceFull => "the trace is full",
        }
    }
}

impl fmt::Display for Denial {
    ghost output = { λ it. Some (denial_words it) };

    fn fmt<W: fmt::Write>(&self, f: &mut fmt::Formatter<W>) -> fmt::Result {
        f.write_str(self.words())
    }
}

impl Cause {
    /// The cause in words.
    pub fn words(self) -> &'static str
        ensures { result.now ≡ cause_words self }
    {
        match self {
            Cause::IllegalInstruction => "illegal instruction",
            Cause::ArithmeticFault => "arithmetic fault",
            Cause::AccessFault => "access fault",
            Cause::SupervisorCall => "supervisor call",
            Cause::DeviceRequest => "device request",
        }
    }
}

impl fmt::Display for Cause {
    ghost output = { λ it. Some (cause_words it) };

    fn fmt<W: fmt::Write>(&self, f: &mut fmt::Formatter<W>) -> fmt::Result {
        f.write_str(self.words())
    }
}
