ghost use Rattle.std.specs.Prelude.{◌≡◌};
ghost use Rattle.stores.specs.Layers.{behind, first_after, second_after};
ghost use Rattle.model.specs.Stores.{stored};

use model::Kind;
use store::boards::LIMIT;
use store::meaning::Store;

/// Two stores, the second behind the first.
#[derive(Drop)]
pub struct BankPair<S, T> {
    first: S,
    second: T,
}

impl<S, T> BankPair<S, T> {
    /// The second store behind the first, of which the places past the limit are not used.
    pub fn new(first: S, second: T) -> BankPair<S, T>
        ensures before { result.first ≡ first }
        ensures after { result.second ≡ second }
    {
        BankPair { first, second }
    }

    /// The two stores as they are now.
    pub fn into_parts(self) -> (S, T)
        ensures before { result.0 ≡ self.first }
        ensures after { result.1 ≡ self.second }
    {
        (self.first, self.second)
    }
}

// Which of the two a place is in is asked three times: an enum of the two would be matched in the same three arms each time.
impl<S: Store, T: Store> Store for BankPair<S, T> {
    ghost meaning = { λ s. behind (S.Store.meaning s.first) (T.Store.meaning s.second) };

    fn fitted(&self) -> usize {
        (self.first.fitted() + self.second.fitted()).min(LIMIT)
    }

    fn kind(&self, place: usize) -> Kind {
        let first = self.first.fitted();
        if place < first {
            self.first.kind(place)
        } else if place < LIMIT {
            self.second.kind(place - first)
        } else {
            Kind::Unfitted
        }
    }

    fn read(&self, place: usize) -> u16 {
        let first = self.first.fitted();
        if place < first {
            self.first.read(place)
        } else if place < LIMIT {
            self.second.read(place - first)
        } else {
            0
        }
    }

    /// Places of the second past the limit stay.
    fn write(&mut self, place: usize, word: u16)
        ensures written { ⟦<BankPair<S, T> as Store>⟧.meaning self.new ≡ stored (⟦<BankPair<S, T> as Store>⟧.meaning self.old) place word }
        ensures before { S.Store.meaning self.new.first ≡ first_after (S.Store.meaning self.old.first) place word }
        ensures after { T.Store.meaning self.new.second ≡ second_after (S.Store.meaning self.old.first) (T.Store.meaning self.old.second) place word }
    {
        let first = self.first.fitted();
        if place < first {
            self.first.write(place, word);
        } else if place < LIMIT {
            self.second.write(place - first, word);
        }
    }
}
