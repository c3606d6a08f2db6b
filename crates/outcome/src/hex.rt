ghost use Rattle.std.specs.Prelude.{◌≡◌, ◌/◌, ◌%◌, ◌^◌};
ghost use Rattle.session.specs.Lines.{hex_digit};
ghost use Rattle.outcome.specs.Texts.{Adds, hex};

use session::line::hex_digit;
use std::alloc::AllocError;

/// A number without its last hexadecimal digits, so many of them.
#[tactic(auto, using(crate::proofs::Sixteen::two_sixteen, crate::proofs::Sixteen::none_left))]
fn without_last(value: u64, places: u32) -> u64
    ensures { result ≡ value / 16 ^ places }
{
    if places < 16 {
        value >> (4 * places)
    } else {
        0
    }
}

/// The character of the hexadecimal digit at a place of a number, counted from its last; 0 in front of the number.
fn digit_at(value: u64, place: u32) -> u8
    ensures { result ≡ hex_digit (value / 16 ^ place % 16) }
{
    let digit = (without_last(value, place) % 16) as u8;
    hex_digit(digit)
}

/// Adds the last digits of a number, so many of them, in hexadecimal.
// Not by `{:0places$X}`, which writes all digits of a longer number.
#[tactic(auto, unfolding(crate::specs::Texts::hex))]
pub fn add_hex(text: &mut Vec<u8>, places: u32, value: u64) -> Result<(), AllocError>
    ensures { Adds result text.old.items text.new.items (hex places value) }
{
    for place in (0..places).rev() {
        text.push(digit_at(value, place))?;
    }
    Ok(())
}
