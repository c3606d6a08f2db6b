//! Laws of core boards, each the contract of a function.

ghost use Rattle.store.specs.Laws.{BoardsWithin, BoardsToldApart};

/// Core boards mean what those of the halfwords within the limit mean.
pub fn boards_within()
    ensures { BoardsWithin }
{}

/// What core boards mean tells each of their halfwords.
pub fn boards_told_apart()
    ensures { BoardsToldApart }
{}
