ghost use Rattle.std.specs.Prelude.{◌≡◌, ◌^◌, ◌<◌, length, MatchOption};
ghost use Rattle.decode.specs.Forms.{form_of, code_field, first_field, second_field, is_long, index_field, size_of, size_at, Taken, signed15, address_of};
ghost use Rattle.decode.specs.Laws.{FormsHold, LengthsHold};

use crate::operations::{Form, Operation};

/// The form of an operation.
pub fn form_of(operation: Operation) -> Form
    ensures { result ≡ form_of operation }
{
    match operation {
        Operation::Register(_) | Operation::Short(_) | Operation::Illegal => Form::Single,
        Operation::Memory(_) => Form::Indexed,
        Operation::Immediate(_) => Form::Pair,
        Operation::LongImmediate(_) => Form::Triple,
    }
}

/// The operation code in a first halfword.
#[tactic(auto, unfolding(crate::specs::Forms::code_field))]
pub fn code_field(first: u16) -> u8
    ensures { result ≡ code_field first }
{
    let [code, _] = first.to_be_bytes();
    code
}

/// The field R1 of a first halfword.
// A u8 with its bound beside it, and so the two fields below: the registers and masks take any u8, and each call would
// take the number out of a type of its own at once.
#[tactic(auto, unfolding(crate::specs::Forms::first_field))]
pub fn first_field(first: u16) -> u8
    ensures value { result ≡ first_field first }
    ensures small { result < 16 }
{
    (first / 16 % 16) as u8
}

/// The field R2, N, X2 or FX2 of a first halfword.
#[tactic(auto, unfolding(crate::specs::Forms::second_field))]
pub fn second_field(first: u16) -> u8
    ensures value { result ≡ second_field first }
    ensures small { result < 16 }
{
    (first % 16) as u8
}

/// Whether a second halfword begins 01, so that a third follows (RX3).
#[tactic(auto, unfolding(crate::specs::Forms::is_long))]
pub fn is_long(second: u16) -> bool
    ensures { result ≡ is_long second }
{
    second / 0x4000 == 1
}

/// The second index field of RX3.
#[tactic(auto, unfolding(crate::specs::Forms::index_field))]
pub fn index_field(second: u16) -> u8
    ensures value { result ≡ index_field second }
    ensures small { result < 16 }
{
    (second / 256 % 16) as u8
}

/// How many halfwords an instruction takes, by its form and its second halfword.
pub fn size_of(form: Form, second: u16) -> usize
    ensures { result ≡ size_of form second }
{
    match form {
        Form::Single => 1,
        Form::Indexed => { if is_long(second) { 3 } else { 2 } }
        Form::Pair => 2,
        Form::Triple => 3,
    }
}

/// An instruction taken apart: its halfwords, 0 for those that it does not take, and the halfwords behind it.
#[derive(Clone, Copy)]
pub struct Parts<'a> {
    pub first: u16,
    pub second: u16,
    pub third: u16,
    pub rest: &'a [u16],
}

/// Takes the instruction at the front of a list of halfwords apart, by its form; none where the list is too short for it.
#[tactic(auto, using(std::proofs::lemmas::List::take_rest))]
pub fn take_apart<'a>(form: Form, words: &'a [u16]) -> Option<Parts<'a>>
    ensures { MatchOption result (length words.now < size_at form words.now) (λ p. Taken (size_at form words.now) words.now p.first p.second p.third p.rest.now) }
{
    let size = match words {
        [_, second, ..] => size_of(form, *second),
        _ => size_of(form, 0),
    };
    match (size, words) {
        (1, [first, rest @ ..]) => Some(Parts {
            first: *first,
            second: 0,
            third: 0,
            rest,
        }),
        (2, [first, second, rest @ ..]) => Some(Parts {
            first: *first,
            second: *second,
            third: 0,
            rest,
        }),
        (3, [first, second, third, rest @ ..]) => Some(Parts {
            first: *first,
            second: *second,
            third: *third,
            rest,
        }),
        _ => None,
    }
}

#[tactic(auto, unfolding(crate::specs::Forms::signed15))]
fn signed_15(v: u32) -> u32
    requires { v < 2 ^ 15 }
    ensures value { result ≡ signed15 v }
    ensures small { result < 2 ^ 20 }
{
    if v < 0x4000 { v } else { v + 0xf_8000 }
}

/// The address of an instruction, by its own address, its second and third halfwords, and the index registers.
#[tactic(auto, unfolding(crate::specs::Forms::address_of))]
pub fn address_of(own: u32, second: u16, third: u16, index: u32, second_index: u32) -> u32
    ensures value { result ≡ address_of own second third index second_index }
    ensures small { result < 2 ^ 20 }
{
    if second < 0x4000 {
        (u32::from(second) + index % 0x10_0000) % 0x10_0000
    } else if second < 0x8000 {
        (u32::from(second) % 256 * 0x1_0000
            + u32::from(third)
            + index % 0x10_0000
            + second_index % 0x10_0000)
            % 0x10_0000
    } else {
        (signed_15(u32::from(second) % 0x8000) + (own % 0x10_0000 + 4) + index % 0x10_0000)
            % 0x10_0000
    }
}

/// Every code has one form.
#[tactic(auto, unfolding(crate::specs::Codes::function_of, crate::specs::Codes::low, crate::specs::Codes::middle, crate::specs::Codes::upper, crate::specs::Codes::high))]
pub fn forms_hold()
    ensures { FormsHold }
{}

/// Every instruction has one length.
pub fn lengths_hold()
    ensures { LengthsHold }
{}
