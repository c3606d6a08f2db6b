/// What is done with a register and an operand, at every form that has it.
#[derive(Clone, Copy, Debug, PartialEq, Eq)]
pub enum Function {
    And,
    CompareLogical,
    Or,
    ExclusiveOr,
    Load,
    Compare,
    Add,
    Subtract,
    Test,
}

/// The operations between two registers (RR), by their mnemonics.
#[derive(Clone, Copy, Debug, PartialEq, Eq)]
pub enum RegisterOp {
    Balr,
    Btcr,
    Bfcr,
    WithRegister(Function),
    Lpswr,
    Mr,
    Dr,
    Exhr,
    Stbr,
    Lbr,
    Exbr,
    Epsr,
    Wdr,
    Rdr,
    Ssr,
    Ocr,
}

/// The operations with a number of four bits (SF), by their mnemonics.
#[derive(Clone, Copy, Debug, PartialEq, Eq)]
pub enum ShortOp {
    Srls,
    Slls,
    Btbs,
    Btfs,
    Bfbs,
    Bffs,
    Lis,
    Lcs,
    Ais,
    Sis,
}

/// The operations with an address (RX), by their mnemonics.
#[derive(Clone, Copy, Debug, PartialEq, Eq)]
pub enum MemoryOp {
    Sth,
    Bal,
    Btc,
    Bfc,
    WithHalf(Function),
    St,
    Am,
    WithFull(Function),
    M,
    D,
    Ahm,
    Lhl,
    Tbt,
    Sbt,
    Rbt,
    Cbt,
    Bxh,
    Bxle,
    Lpsw,
    Stm,
    Lm,
    Stb,
    Lb,
    Clb,
    Wd,
    Rd,
    Ss,
    Oc,
    Ts,
    Svc,
    La,
}

/// The operations with an operand of one halfword (RI1), by their mnemonics.
#[derive(Clone, Copy, Debug, PartialEq, Eq)]
pub enum ImmediateOp {
    WithImmediate(Function),
    Rrl,
    Rll,
    Srl,
    Sll,
    Sra,
    Sla,
}

/// What an operation code stands for.
#[derive(Clone, Copy, Debug, PartialEq, Eq)]
pub enum Operation {
    /// RR.
    Register(RegisterOp),
    /// SF.
    Short(ShortOp),
    /// RX.
    Memory(MemoryOp),
    /// RI1.
    Immediate(ImmediateOp),
    /// RI2.
    LongImmediate(Function),
    /// No instruction.
    // Not `None` of an Option: an illegal code has a form like the others.
    Illegal,
}

/// The form of an instruction.
#[derive(Clone, Copy, Debug, PartialEq, Eq)]
pub enum Form {
    /// One halfword: RR, SF, and what is illegal.
    Single,
    /// Two halfwords, or three where the second begins 01: RX.
    Indexed,
    /// Two halfwords: RI1.
    Pair,
    /// Three halfwords: RI2.
    Triple,
}
