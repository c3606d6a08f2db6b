ghost use Rattle.std.specs.Prelude.{◌≡◌, ◌^◌, ◌<◌, ◌≤◌, length, drop, MatchResult, slice_index};
ghost use Rattle.model.specs.Tapes.{four as four_of};
ghost use Rattle.tape.specs.Commands.{number_of, Whole, Broken};

use crate::orders::Order;
use model::{Denial, Item};

/// A number, and the bytes behind it.
#[derive(Clone, Copy)]
struct Operand<'t> {
    value: u32,
    rest: &'t [u8],
}

/// The number of the first N bytes, high byte first.
fn take_operand<const N: usize>(bytes: &[u8]) -> Result<Operand<'_>, Denial>
    requires { N ≤ 4 }
    ensures { MatchResult result
        (λ o. (N ≤ length bytes.now) × (o.value ≡ number_of N bytes.now) × (o.value < 256 ^ N) × (o.rest.now ≡ drop N bytes.now))
        (λ d. (length bytes.now < N) × (d ≡ Denial.CutShort)) }
{
    let (first, rest) = bytes.split_first_chunk::<N>().ok_or(Denial::CutShort)?;
    let mut value = 0;
    for byte in first {
        value = value * 0x100 + u32::from(*byte);
    }
    Ok(Operand { value, rest })
}

/// The first byte, and the number of the four behind it.
fn take_numbered(bytes: &[u8]) -> Result<(u8, Operand<'_>), Denial>
    ensures { MatchResult result
        (λ o. (5 ≤ length bytes.now) × (o.0 ≡ slice_index bytes.now 0) × (o.1.value ≡ four_of 1 bytes.now) × (o.1.rest.now ≡ drop 5 bytes.now))
        (λ d. (length bytes.now < 5) × (d ≡ Denial.CutShort)) }
{
    let (number, behind) = bytes.split_first().ok_or(Denial::CutShort)?;
    Ok((*number, take_operand::<4>(behind)?))
}

/// A command read from a tape: its order, and the bytes behind it.
#[derive(Clone, Copy)]
pub struct Command<'t> {
    pub order: Order,
    pub rest: &'t [u8],
}

/// Reads the command of a letter from the bytes behind it: denied where the letter is none, and then where the bytes cut its operand
/// short.
#[tactic(auto, unfolding(model::specs::Tapes::command_of))]
pub fn read_command(letter: u8, bytes: &[u8]) -> Result<Command<'_>, Denial>
    ensures { MatchResult result (λ c. Whole letter bytes.now c.order c.rest.now) (λ d. Broken letter bytes.now d) }
{
    let (order, operand) = match char::from(letter) {
        'A' => {
            let address = take_operand::<3>(bytes)?;
            (Order::Point(address.value), address)
        }
        'D' => {
            let word = take_operand::<2>(bytes)?;
            (Order::Deposit(word.value as u16), word)
        }
        'R' => {
            let (number, operand) = take_numbered(bytes)?;
            let register = Item::General(number / 16, number % 16);
            (Order::Set(register, operand.value), operand)
        }
        'S' => {
            let (number, operand) = take_numbered(bytes)?;
            (Order::Set(Item::Segment(number), operand.value), operand)
        }
        'P' => {
            let status = take_operand::<4>(bytes)?;
            (Order::Set(Item::Status, status.value), status)
        }
        'L' => {
            let location = take_operand::<3>(bytes)?;
            (Order::Set(Item::Location, location.value), location)
        }
        'G' => {
            let count = take_operand::<3>(bytes)?;
            (Order::Go(count.value), count)
        }
        _ => return Err(Denial::UnknownLetter),
    };
    Ok(Command {
        order,
        rest: operand.rest,
    })
}
