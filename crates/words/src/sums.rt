//! Sums, differences, comparisons.

ghost use Rattle.std.specs.Prelude.{◌≡◌};
ghost use Rattle.words.specs.Sums.{sum, sum_code, difference, difference_code, compare_code, compare_logical_code, extended};

use crate::codes::{ConditionCode, coded};

/// The sum of two fullwords.
#[tactic(auto, unfolding(crate::specs::Sums::sum))]
pub fn sum(x: u32, y: u32) -> u32
    ensures { result ≡ sum x y }
{
    x.wrapping_add(y)
}

/// The condition code of a sum.
#[tactic(auto, unfolding(crate::specs::Sums::sum_code, crate::specs::Sums::sum))]
pub fn sum_code(x: u32, y: u32) -> ConditionCode
    ensures { result ≡ sum_code x y }
{
    let (value, carry) = x.overflowing_add(y);
    let (_, overflow) = x.cast_signed().overflowing_add(y.cast_signed());
    coded(carry, overflow, value)
}

/// The difference of two fullwords.
#[tactic(auto, unfolding(crate::specs::Sums::difference))]
pub fn difference(x: u32, y: u32) -> u32
    ensures { result ≡ difference x y }
{
    x.wrapping_sub(y)
}

/// The condition code of a difference.
#[tactic(auto, unfolding(crate::specs::Sums::difference_code, crate::specs::Sums::difference))]
pub fn difference_code(x: u32, y: u32) -> ConditionCode
    ensures { result ≡ difference_code x y }
{
    let (value, borrow) = x.overflowing_sub(y);
    let (_, overflow) = x.cast_signed().overflowing_sub(y.cast_signed());
    coded(borrow, overflow, value)
}

/// The condition code of a signed comparison.
#[tactic(auto, unfolding(crate::specs::Sums::compare_code))]
pub fn compare_code(x: u32, y: u32) -> ConditionCode
    ensures { result ≡ compare_code x y }
{
    x.cast_signed().cmp(&y.cast_signed()).into()
}

/// The condition code of a comparison as numbers from 0 on.
#[tactic(auto, unfolding(crate::specs::Sums::compare_logical_code))]
pub fn compare_logical_code(x: u32, y: u32) -> ConditionCode
    ensures { result ≡ compare_logical_code x y }
{
    x.cmp(&y).into()
}

/// The fullword that holds a halfword's signed number.
#[tactic(auto, unfolding(crate::specs::Sums::extended))]
pub fn extended(h: u16) -> u32
    ensures { result ≡ extended h }
{
    i32::from(h.cast_signed()).cast_unsigned()
}
