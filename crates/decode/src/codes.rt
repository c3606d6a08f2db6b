ghost use Rattle.std.specs.Prelude.{◌≡◌};
ghost use Rattle.decode.specs.Codes.{function_of, is_privileged, low, middle, upper, high, permitted};
ghost use Rattle.decode.specs.Table.{TableHolds, CountsHold};

use crate::operations::{Function, ImmediateOp, MemoryOp, Operation, RegisterOp, ShortOp};

/// What the second digit of a code stands for, in the families.
#[tactic(auto, unfolding(crate::specs::Codes::function_of))]
fn function_of(digit: u8) -> Function
    ensures { result ≡ function_of digit }
{
    match digit {
        4 => Function::And,
        5 => Function::CompareLogical,
        6 => Function::Or,
        7 => Function::ExclusiveOr,
        8 => Function::Load,
        9 => Function::Compare,
        10 => Function::Add,
        11 => Function::Subtract,
        _ => Function::Test,
    }
}

/// Whether a code is privileged.
#[tactic(auto, unfolding(crate::specs::Codes::is_privileged))]
pub fn is_privileged(code: u8) -> bool
    ensures { result ≡ is_privileged code }
{
    matches!(
        code,
        0x18 | 0x95 | 0x9a | 0x9b | 0x9d | 0x9e | 0xc2 | 0xda | 0xdb | 0xdd | 0xde
    )
}

/// The codes X'00' to X'3F' outside the families.
#[tactic(auto, unfolding(crate::specs::Codes::low))]
fn low(code: u8) -> Operation
    ensures { result ≡ low code }
{
    match code {
        0x01 => Operation::Register(RegisterOp::Balr),
        0x02 => Operation::Register(RegisterOp::Btcr),
        0x03 => Operation::Register(RegisterOp::Bfcr),
        0x10 => Operation::Short(ShortOp::Srls),
        0x11 => Operation::Short(ShortOp::Slls),
        0x18 => Operation::Register(RegisterOp::Lpswr),
        0x1c => Operation::Register(RegisterOp::Mr),
        0x1d => Operation::Register(RegisterOp::Dr),
        0x20 => Operation::Short(ShortOp::Btbs),
        0x21 => Operation::Short(ShortOp::Btfs),
        0x22 => Operation::Short(ShortOp::Bfbs),
        0x23 => Operation::Short(ShortOp::Bffs),
        0x24 => Operation::Short(ShortOp::Lis),
        0x25 => Operation::Short(ShortOp::Lcs),
        0x26 => Operation::Short(ShortOp::Ais),
        0x27 => Operation::Short(ShortOp::Sis),
        0x34 => Operation::Register(RegisterOp::Exhr),
        _ => Operation::Illegal,
    }
}

/// The codes X'40' to X'7F' outside the families.
#[tactic(auto, unfolding(crate::specs::Codes::middle))]
fn middle(code: u8) -> Operation
    ensures { result ≡ middle code }
{
    match code {
        0x40 => Operation::Memory(MemoryOp::Sth),
        0x41 => Operation::Memory(MemoryOp::Bal),
        0x42 => Operation::Memory(MemoryOp::Btc),
        0x43 => Operation::Memory(MemoryOp::Bfc),
        0x50 => Operation::Memory(MemoryOp::St),
        0x51 => Operation::Memory(MemoryOp::Am),
        0x5c => Operation::Memory(MemoryOp::M),
        0x5d => Operation::Memory(MemoryOp::D),
        0x61 => Operation::Memory(MemoryOp::Ahm),
        0x73 => Operation::Memory(MemoryOp::Lhl),
        0x74 => Operation::Memory(MemoryOp::Tbt),
        0x75 => Operation::Memory(MemoryOp::Sbt),
        0x76 => Operation::Memory(MemoryOp::Rbt),
        0x77 => Operation::Memory(MemoryOp::Cbt),
        _ => Operation::Illegal,
    }
}

/// The codes X'80' to X'BF'.
#[tactic(auto, unfolding(crate::specs::Codes::upper))]
fn upper(code: u8) -> Operation
    ensures { result ≡ upper code }
{
    match code {
        0x92 => Operation::Register(RegisterOp::Stbr),
        0x93 => Operation::Register(RegisterOp::Lbr),
        0x94 => Operation::Register(RegisterOp::Exbr),
        0x95 => Operation::Register(RegisterOp::Epsr),
        0x9a => Operation::Register(RegisterOp::Wdr),
        0x9b => Operation::Register(RegisterOp::Rdr),
        0x9d => Operation::Register(RegisterOp::Ssr),
        0x9e => Operation::Register(RegisterOp::Ocr),
        _ => Operation::Illegal,
    }
}

/// The codes X'C0' to X'FF' outside the families.
#[tactic(auto, unfolding(crate::specs::Codes::high))]
fn high(code: u8) -> Operation
    ensures { result ≡ high code }
{
    match code {
        0xc0 => Operation::Memory(MemoryOp::Bxh),
        0xc1 => Operation::Memory(MemoryOp::Bxle),
        0xc2 => Operation::Memory(MemoryOp::Lpsw),
        0xd0 => Operation::Memory(MemoryOp::Stm),
        0xd1 => Operation::Memory(MemoryOp::Lm),
        0xd2 => Operation::Memory(MemoryOp::Stb),
        0xd3 => Operation::Memory(MemoryOp::Lb),
        0xd4 => Operation::Memory(MemoryOp::Clb),
        0xda => Operation::Memory(MemoryOp::Wd),
        0xdb => Operation::Memory(MemoryOp::Rd),
        0xdd => Operation::Memory(MemoryOp::Ss),
        0xde => Operation::Memory(MemoryOp::Oc),
        0xe0 => Operation::Memory(MemoryOp::Ts),
        0xe1 => Operation::Memory(MemoryOp::Svc),
        0xe6 => Operation::Memory(MemoryOp::La),
        0xea => Operation::Immediate(ImmediateOp::Rrl),
        0xeb => Operation::Immediate(ImmediateOp::Rll),
        0xec => Operation::Immediate(ImmediateOp::Srl),
        0xed => Operation::Immediate(ImmediateOp::Sll),
        0xee => Operation::Immediate(ImmediateOp::Sra),
        0xef => Operation::Immediate(ImmediateOp::Sla),
        _ => Operation::Illegal,
    }
}

/// What a code stands for; a privileged one is illegal under protection.
#[tactic(auto, unfolding(crate::specs::Codes::permitted))]
pub fn operation(code: u8, protected: bool) -> Operation
    ensures { result ≡ permitted protected code }
{
    match code {
        code if protected && is_privileged(code) => Operation::Illegal,
        0x04..=0x0b => Operation::Register(RegisterOp::WithRegister(function_of(code % 16))),
        0x44..=0x4b => Operation::Memory(MemoryOp::WithHalf(function_of(code % 16))),
        0x54..=0x5b => Operation::Memory(MemoryOp::WithFull(function_of(code % 16))),
        0xc3..=0xcb => Operation::Immediate(ImmediateOp::WithImmediate(function_of(code % 16))),
        0xf3..=0xfb => Operation::LongImmediate(function_of(code % 16)),
        0x00..=0x3f => low(code),
        0x40..=0x7f => middle(code),
        0x80..=0xbf => upper(code),
        _ => high(code),
    }
}

/// The rules of the codes give the whole table.
#[tactic(auto, unfolding(crate::specs::Codes::function_of, crate::specs::Codes::low, crate::specs::Codes::middle, crate::specs::Codes::upper, crate::specs::Codes::high, crate::specs::Codes::is_privileged))]
pub fn table_holds()
    ensures table { TableHolds }
    ensures counts { CountsHold }
{}
