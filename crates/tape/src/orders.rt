use model::{Denial, Item};

/// A command of a tape.
#[derive(Clone, Copy, Debug, PartialEq, Eq)]
pub enum Order {
    /// Another address for the deposits to come.
    Point(u32),
    /// A deposit at that address.
    Deposit(u16),
    /// A register and its new number.
    Set(Item, u32),
    /// A run with a count.
    Go(u32),
}

/// Why a tape stopped: the denial, the byte place of the letter, and the letter; at OFF place 0 and no letter.
#[derive(Clone, Copy, Debug, PartialEq, Eq)]
pub struct TapeFault {
    pub denial: Denial,
    pub place: usize,
    pub letter: Option<u8>,
}
