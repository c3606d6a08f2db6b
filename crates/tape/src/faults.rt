ghost use Rattle.std.specs.Prelude.{◌≡◌, Some, None};

use crate::orders::TapeFault;
use model::Denial;

// A type of its own, and not a TapeFault at once: obeying a command answers it with `?`, and From adds that there is a letter.
/// A denial at the letter of a command.
#[derive(Clone, Copy, Debug, PartialEq, Eq)]
pub struct Located {
    pub denial: Denial,
    pub place: usize,
    pub letter: u8,
}

/// A denial before the first letter.
impl From<Denial> for TapeFault {
    ghost from_gives = { λ d r. r ≡ record { denial = d; place = 0; letter = None } };

    fn from(denial: Denial) -> TapeFault {
        TapeFault {
            denial,
            place: 0,
            letter: None,
        }
    }
}

/// The place and the letter are added; the denial is the one below.
impl From<Located> for TapeFault {
    ghost from_gives = { λ l r. r ≡ record { denial = l.denial; place = l.place; letter = Some l.letter } };

    fn from(located: Located) -> TapeFault {
        TapeFault {
            denial: located.denial,
            place: located.place,
            letter: Some(located.letter),
        }
    }
}
