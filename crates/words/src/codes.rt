//! The condition code.

ghost use Rattle.std.specs.Prelude.{◌≡◌, ◌+◌, ◌<◌};
ghost use Rattle.words.specs.Sums.{flag, marks, compared};

use std::cmp::Ordering;
use std::marker::Model;

/// C of the condition code: a carry, a borrow, the last bit shifted out.
pub const CARRY: u32 = 8;
/// V of the condition code: a signed result out of range.
pub const OVERFLOW: u32 = 4;
/// G of the condition code: a positive result.
pub const POSITIVE: u32 = 2;
/// L of the condition code: a negative result.
pub const NEGATIVE: u32 = 1;

/// A condition code: the sum of its flags C, V, G and L.
#[derive(Clone, Copy, Debug, PartialEq, Eq)]
pub struct ConditionCode {
    bits: u32,
}

impl Model for ConditionCode {
    ghost use Rattle.std.specs.Prelude.{ℕ, ◌<◌};

    ghost Value = { ℕ };

    ghost view = { λ c. c.bits };

    ghost invariant = { λ c. c.bits < 16 };

    ghost inverse = { λ n. record { bits = n } };
}

impl ConditionCode {
    /// The four bits, C the first.
    pub fn bits(self) -> u32
        ensures value { result ≡ self }
        ensures small { result < 16 }
    {
        self.bits
    }
}

/// A bit of the condition code: `weight` if `b` holds, else 0.
pub fn flag(weight: u32, b: bool) -> u32
    ensures { result ≡ flag weight b }
{
    if b { weight } else { 0 }
}

/// G of a positive result, L of a negative one, 0 of zero.
#[tactic(auto, unfolding(crate::specs::Sums::marks))]
pub fn marks(v: u32) -> ConditionCode
    ensures value { result ≡ marks v }
    ensures small { result < 4 }
{
    let bits = match v.cast_signed() {
        0 => 0,
        1.. => POSITIVE,
        _ => NEGATIVE,
    };
    ConditionCode { bits }
}

/// The condition code of a result: C, V, and the marks of the result.
pub fn coded(carry: bool, overflow: bool, value: u32) -> ConditionCode
    ensures { result ≡ flag 8 carry + flag 4 overflow + marks value }
{
    ConditionCode {
        bits: flag(CARRY, carry) + flag(OVERFLOW, overflow) + marks(value).bits(),
    }
}

/// The condition code of a comparison: C and L if less, G if greater, 0 if equal.
impl From<Ordering> for ConditionCode {
    ghost from_gives = { λ order code. code ≡ compared order };

    fn from(order: Ordering) -> Self {
        ConditionCode {
            bits: match order {
                Ordering::Less => CARRY + NEGATIVE,
                Ordering::Equal => 0,
                Ordering::Greater => POSITIVE,
            },
        }
    }
}
