//! Single bits of a halfword, numbered from the left.

ghost use Rattle.std.specs.Prelude.{◌≡◌, cond};
ghost use Rattle.fields.specs.Bits.{bit_offset, bit_weight, bit_of, with_bit, without_bit, with_bit_flipped};
ghost use Rattle.fields.specs.Laws.{BitsWritten, BitsKept};

/// How many bytes after the first halfword of a row of bits bit `n` has its halfword.
#[tactic(auto, unfolding(crate::specs::Bits::bit_offset))]
pub fn bit_offset(n: u32) -> u32
    ensures { result ≡ bit_offset n }
{
    n / 16 * 2
}

/// The weight of bit `n` in its halfword.
#[tactic(auto, unfolding(crate::specs::Bits::bit_weight))]
fn bit_weight(n: u32) -> u16
    ensures { result ≡ bit_weight n }
{
    1 << (15 - n % 16)
}

/// Whether bit `n` in its halfword is 1.
#[tactic(auto, unfolding(crate::specs::Bits::bit_of, crate::specs::Bits::bit_weight))]
pub fn bit_of(n: u32, h: u16) -> bool
    ensures { cond result 1 0 ≡ bit_of n h }
{
    (h >> (15 - n % 16)) % 2 == 1
}

/// The halfword with bit `n` 1.
#[tactic(auto, using(crate::proofs::Places::set_is))]
pub fn with_bit(n: u32, h: u16) -> u16
    ensures { result ≡ with_bit n h }
{
    h | bit_weight(n)
}

/// The halfword with bit `n` 0.
#[tactic(auto, using(crate::proofs::Places::cleared_is))]
pub fn without_bit(n: u32, h: u16) -> u16
    ensures { result ≡ without_bit n h }
{
    h & !bit_weight(n)
}

/// The halfword with bit `n` complemented.
#[tactic(auto, using(crate::proofs::Places::flipped_is))]
pub fn with_bit_flipped(n: u32, h: u16) -> u16
    ensures { result ≡ with_bit_flipped n h }
{
    h ^ bit_weight(n)
}

/// A bit that was written is what was written.
#[tactic(auto, using(crate::proofs::Places::bits_written_lem))]
pub fn bits_written()
    ensures { BitsWritten }
{}

/// The other bits stay.
#[tactic(auto, using(crate::proofs::Places::bits_kept_lem))]
pub fn bits_kept()
    ensures { BitsKept }
{}
