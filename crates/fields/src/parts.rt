//! Halfwords and bytes.

ghost use Rattle.std.specs.Prelude.{◌≡◌, ◌^◌, ◌<◌};
ghost use Rattle.fields.specs.Parts.{high_half, low_half, joined, with_low_half, halves_exchanged, low_byte, with_low_byte, bytes_exchanged, byte_at, with_byte, device_number};
ghost use Rattle.fields.specs.Laws.{HalvesJoined};

/// The high halfword of a fullword.
#[tactic(auto, unfolding(crate::specs::Parts::high_half))]
pub fn high_half(v: u32) -> u16
    ensures { result ≡ high_half v }
{
    (v / 0x1_0000) as u16
}

/// The low halfword of a fullword.
#[tactic(auto, unfolding(crate::specs::Parts::low_half))]
pub fn low_half(v: u32) -> u16
    ensures { result ≡ low_half v }
{
    (v % 0x1_0000) as u16
}

/// The fullword of two halfwords.
#[tactic(auto, unfolding(crate::specs::Parts::joined))]
pub fn joined(high: u16, low: u16) -> u32
    ensures { result ≡ joined high low }
{
    u32::from(high) * 0x1_0000 + u32::from(low)
}

/// The fullword with another low halfword.
#[tactic(auto, unfolding(crate::specs::Parts::with_low_half))]
pub fn with_low_half(v: u32, h: u16) -> u32
    ensures { result ≡ with_low_half v h }
{
    v / 0x1_0000 * 0x1_0000 + u32::from(h)
}

/// The fullword with its halfwords exchanged.
#[tactic(auto, using(crate::proofs::Places::halves_turned))]
pub fn halves_exchanged(v: u32) -> u32
    ensures { result ≡ halves_exchanged v }
{
    v.rotate_left(16)
}

/// The low byte of a fullword.
#[tactic(auto, unfolding(crate::specs::Parts::low_byte))]
pub fn low_byte(v: u32) -> u8
    ensures { result ≡ low_byte v }
{
    (v % 0x100) as u8
}

/// The fullword with another low byte.
// Not one with `with_low_half`: a size as a parameter would have to be required to divide 2^32.
#[tactic(auto, unfolding(crate::specs::Parts::with_low_byte))]
pub fn with_low_byte(v: u32, b: u8) -> u32
    ensures { result ≡ with_low_byte v b }
{
    v / 0x100 * 0x100 + u32::from(b)
}

/// The low halfword of a fullword, with its bytes exchanged.
#[tactic(auto, unfolding(crate::specs::Parts::bytes_exchanged, crate::specs::Parts::low_half))]
pub fn bytes_exchanged(v: u32) -> u16
    ensures { result ≡ bytes_exchanged v }
{
    low_half(v).swap_bytes()
}

/// The byte of a halfword at an odd or an even address.
// A bool: it is the parity of an address, which its callers have from `is_odd`.
#[tactic(auto, unfolding(crate::specs::Parts::byte_at))]
pub fn byte_at(odd: bool, h: u16) -> u8
    ensures { result ≡ byte_at odd h }
{
    let [high, low] = h.to_be_bytes();
    if odd { low } else { high }
}

/// The halfword with another byte at an odd or an even address.
#[tactic(auto, unfolding(crate::specs::Parts::with_byte))]
pub fn with_byte(odd: bool, h: u16, b: u8) -> u16
    ensures { result ≡ with_byte odd h b }
{
    let [high, low] = h.to_be_bytes();
    u16::from_be_bytes(if odd { [high, b] } else { [b, low] })
}

/// The device that a register names.
#[tactic(auto, unfolding(crate::specs::Parts::device_number))]
pub fn device_number(v: u32) -> u32
    ensures value { result ≡ device_number v }
    ensures small { result < 2 ^ 10 }
{
    v % 0x400
}

/// Halves joined and exchanged give the fullword again.
#[tactic(auto, unfolding(crate::specs::Parts::joined, crate::specs::Parts::high_half, crate::specs::Parts::low_half, crate::specs::Parts::halves_exchanged))]
pub fn halves_join()
    ensures { HalvesJoined }
{}
