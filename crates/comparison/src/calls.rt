use model::Item;

/// A call of a machine's history.
#[derive(Clone, Copy)]
pub enum Call<'t> {
    TurnKey(u8),
    Initialise,
    Examine(u32),
    Deposit(u32, u16),
    Set(Item, u32),
    Show(Item),
    Step,
    Run(u32),
    Play(&'t [u8]),
}

/// A call that leaves a protected program its own.
#[derive(Clone, Copy, Debug, PartialEq, Eq)]
pub enum Continued {
    TurnKey(u8),
    Examine(u32),
    Deposit(u32, u16),
    Show(Item),
    Step,
}
