//! Laws of the stores, each the contract of a function.

ghost use Rattle.stores.specs.Laws.{BanksJoined, ImagesWithin, ImagesToldApart};

/// Two banks of core boards mean what one board of the halfwords of both means.
pub fn banks_joined()
    ensures { BanksJoined }
{}

/// A byte image means what that of its whole halfwords within the limit means.
pub fn images_within()
    ensures { ImagesWithin }
{}

/// What a byte image means tells each of its bytes.
pub fn images_told_apart()
    ensures { ImagesToldApart }
{}
