ghost use Rattle.std.specs.Prelude.{◌≡◌};
ghost use Rattle.model.specs.Stores.{Store as Meaning, Sound, stored};

use model::Kind;

/// A store of halfwords. Its meaning is the kind of each place and what reading it gives; an implementation shows exactly this.
pub trait Store {
    ghost meaning: { Self → Meaning };

    /// How many places are fitted: they come first, and are no more than the limit.
    fn fitted(&self) -> usize
        ensures count { result ≡ (meaning self.now).fitted }
        ensures sound { Sound (meaning self.now) };

    /// What a place is.
    fn kind(&self, place: usize) -> Kind
        ensures { result ≡ (meaning self.now).kind place };

    /// The halfword at a place.
    fn read(&self, place: usize) -> u16
        ensures { result ≡ (meaning self.now).word place };

    /// Replaces the halfword at a place, if it is writable.
    fn write(&mut self, place: usize, word: u16)
        ensures { meaning self.new ≡ stored (meaning self.old) place word };
}
