ghost use Rattle.std.specs.Prelude.{◌≡◌, IfOk, ◌==◌};
ghost use Rattle.model.specs.Answers.{off, lock};
ghost use Rattle.model.specs.Console.{or_else, deny_if, position_denial};
ghost use Rattle.steps.specs.View.{refusal};
ghost use Rattle.console.specs.Keys.{number_of, Turns};

use model::Denial;

/// Where the key stands.
#[derive(Clone, Copy, Debug, PartialEq, Eq)]
pub enum Position {
    Off,
    On,
    Lock,
}

impl TryFrom<u8> for Position {
    type Error = Denial;

    ghost try_from_gives = { Turns };

    fn try_from(number: u8) -> Result<Position, Denial> {
        match number {
            0 => Ok(Position::Off),
            1 => Ok(Position::On),
            2 => Ok(Position::Lock),
            _ => Err(Denial::OutOfRange),
        }
    }
}

impl From<Position> for u8 {
    ghost from_gives = { λ p n. n ≡ number_of p };

    fn from(position: Position) -> u8 {
        match position {
            Position::Off => 0,
            Position::On => 1,
            Position::Lock => 2,
        }
    }
}

// A record of its own: play copies it out of the machine, and a guard holds it and puts it back.
/// The key, in its position.
#[derive(Clone, Copy)]
pub struct Key {
    position: Position,
}

impl Key {
    /// The key of a new machine.
    pub(crate) fn new() -> Key
        ensures { result.position ≡ Position.On }
    {
        Key {
            position: Position::On,
        }
    }

    /// Where the key is.
    pub(crate) fn position(self) -> Position
        ensures { result ≡ self.position }
    {
        self.position
    }

    /// The key at a position.
    pub(crate) fn at(position: u8) -> Result<Key, Denial>
        ensures refused { refusal result ≡ position_denial position }
        ensures turned { IfOk result (λ k. number_of k.position ≡ position) }
    {
        Ok(Key {
            position: Position::try_from(position)?,
        })
    }

    /// Denies what an OFF machine does not do.
    pub(crate) fn unless_off(self) -> Result<(), Denial>
        ensures { refusal result ≡ deny_if (number_of self.position == off) 7 }
    {
        match self.position {
            Position::Off => Err(Denial::KeyOff),
            Position::On | Position::Lock => Ok(()),
        }
    }

    /// Denies what only an ON machine does.
    pub(crate) fn unless_closed(self) -> Result<(), Denial>
        ensures { refusal result ≡ or_else (deny_if (number_of self.position == off) 7) (deny_if (number_of self.position == lock) 8) }
    {
        match self.position {
            Position::Off => Err(Denial::KeyOff),
            Position::On => Ok(()),
            Position::Lock => Err(Denial::KeyLocked),
        }
    }
}

/// Holds the key ON; when it is dropped, the key is back where it was.
pub(crate) struct KeyGuard<'a> {
    key: &'a mut Key,
    before: Position,
}

impl<'a> KeyGuard<'a> {
    /// Turns the key ON.
    pub(crate) fn turn_on(key: &'a mut Key) -> KeyGuard<'a>
        ensures before { result.before ≡ key.old.position }
        ensures on { result.key.now.position ≡ Position.On }
        ensures same { result.key.ghost_name ≡ key.entry.ghost_name }
    {
        let before = key.position;
        key.position = Position::On;
        KeyGuard { key, before }
    }
}

impl Drop for KeyGuard<'_> {
    fn drop(self)
        ensures { self.exit.0.now.position ≡ self.entry.before }
    {
        self.key.position = self.before;
        let KeyGuard { key: _, before: _ } = self;
    }
}
