//! Shifts and rotates of a fullword, and the condition codes that they set. A count is taken modulo 32.
#![tactic(auto)]

ghost use Rattle.std.specs.Prelude.{◌≡◌, ◌+◌, ◌*◌, ◌%◌, ◌<◌, ◌≤◌};
ghost use Rattle.words.specs.Sums.{flag, marks};
ghost use Rattle.shifts.specs.Shifts.{out_right, out_left, shifted, shifted_code};
ghost use Rattle.shifts.specs.Laws.{RotatesBack, ShiftExample};

use words::codes::{ConditionCode, coded};

/// A shift or a rotate. Zeros come in at a shift, and copies of the sign at `RightArithmetic`; `LeftArithmetic` shifts
/// the bits below the sign, and the sign stays.
#[derive(Clone, Copy, Debug, PartialEq, Eq)]
pub enum Shift {
    Right,
    Left,
    RightArithmetic,
    LeftArithmetic,
    RotateRight,
    RotateLeft,
}

/// The bit of the sign.
const SIGN: u32 = 0x8000_0000;

/// What a shift leaves of a fullword, and the condition code that it sets.
#[derive(Clone, Copy, Debug, PartialEq, Eq)]
pub struct Shifted {
    pub value: u32,
    pub code: ConditionCode,
}

impl Shift {
    /// Shifts a fullword.
    #[tactic(auto, using(crate::proofs::Turns::left_by_parts, crate::proofs::Turns::right_by_parts), unfolding(crate::specs::Shifts::shift_right, crate::specs::Shifts::shift_left, crate::specs::Shifts::shift_right_arithmetic, crate::specs::Shifts::shift_left_arithmetic, crate::specs::Shifts::shift_right_code, crate::specs::Shifts::shift_left_code, crate::specs::Shifts::shift_right_arithmetic_code, crate::specs::Shifts::shift_left_arithmetic_code, crate::specs::Shifts::rotate_right_code, crate::specs::Shifts::rotate_left_code))]
    pub fn shifted(self, v: u32, count: u32) -> Shifted
        ensures value { result.value ≡ shifted self v (count % 32) }
        ensures code { result.code ≡ shifted_code self v (count % 32) }
    {
        let n = count % 32;
        match self {
            Shift::Right => carrying(v >> n, out_right(v, n)),
            Shift::Left => carrying(v << n, out_left(32, v, n)),
            Shift::RightArithmetic => {
                let value = (v.cast_signed() >> n).cast_unsigned();
                carrying(value, out_right(v, n))
            }
            Shift::LeftArithmetic => {
                let value = v / SIGN * SIGN + (v << n) % SIGN;
                carrying(value, out_left(31, v, n))
            }
            Shift::RotateRight => carrying(v.rotate_right(count), false),
            Shift::RotateLeft => carrying(v.rotate_left(count), false),
        }
    }
}

/// A result, and the condition code for the last bit out.
fn carrying(value: u32, out: bool) -> Shifted
    ensures value { result.value ≡ value }
    ensures code { result.code ≡ flag 8 out + marks value }
{
    Shifted {
        value,
        code: coded(out, false, value),
    }
}

/// The last bit out at the right of a shift by `n`.
#[tactic(auto, unfolding(crate::specs::Shifts::out_right))]
fn out_right(v: u32, n: u32) -> bool
    requires { n < 32 }
    ensures { flag 8 result ≡ 8 * out_right v n }
{
    n != 0 && (v >> (n - 1)) % 2 == 1
}

/// The last bit out at the left of the low `size` bits of a shift by `n`.
#[tactic(auto, unfolding(crate::specs::Shifts::out_left))]
fn out_left(size: u32, v: u32, n: u32) -> bool
    requires { (n ≤ size) × (size ≤ 32) }
    ensures { flag 8 result ≡ 8 * out_left size v n }
{
    n != 0 && (v >> (size - n)) % 2 == 1
}

/// A rotate and the rotate back give the number again.
#[tactic(auto, using(crate::proofs::Turns::rotates_back_lem))]
pub fn rotates_back()
    ensures { RotatesBack }
{}

/// A worked value of the shift to the left.
#[tactic(auto, unfolding(crate::specs::Shifts::shift_left, crate::specs::Shifts::shift_left_code, crate::specs::Shifts::out_left, words::specs::Sums::marks))]
pub fn shift_example()
    ensures { ShiftExample }
{}
