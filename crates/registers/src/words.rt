ghost use Rattle.std.specs.Prelude.{◌≡◌, ◌%◌, ◌^◌, ◌<◌};

/// A program status word. Its Location Counter is even and has 20 bits.
#[derive(Clone, Copy)]
pub struct Psw {
    pub(crate) status: u32,
    pub(crate) location: u32,
    ghost even: { location % 2 ≡ 0 },
    ghost small: { location < 2 ^ 20 },
}

/// An address as a program has it, of 20 bits.
#[derive(Clone, Copy)]
pub struct ProgramAddress {
    pub(crate) at: u32,
    ghost small: { at < 2 ^ 20 },
}

/// An address as the store has it, of 20 bits.
#[derive(Clone, Copy)]
pub struct RealAddress {
    pub(crate) at: u32,
    ghost small: { at < 2 ^ 20 },
}
