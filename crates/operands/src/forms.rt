use registers::words::ProgramAddress;

/// What an instruction with an address works on: its register, its operand's address, and the next instruction's address.
#[derive(Clone, Copy)]
pub struct Addressed {
    pub r1: u8,
    pub a: ProgramAddress,
    pub next: ProgramAddress,
}

/// What an instruction between two registers works on: both of them, and the next instruction's address.
#[derive(Clone, Copy)]
pub struct Between {
    pub r1: u8,
    pub r2: u8,
    pub next: ProgramAddress,
}
