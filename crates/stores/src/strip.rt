ghost use Rattle.std.specs.Prelude.{◌≡◌, ◌-◌, cond, Some, None};
ghost use Rattle.stores.specs.Layers.{in_strip, stripped, under_after};
ghost use Rattle.model.specs.Stores.{stored};

use model::Kind;
use store::meaning::Store;

/// The first place of a loader strip, and the place after its last.
const START: usize = 40;

const END: usize = 64;

/// A store whose fitted places among 40 to 63 are a loader strip: fixed halfwords that hide those below.
#[derive(Drop)]
pub struct LoaderStrip<S> {
    below: S,
    strip: [u16; 24],
}

impl<S> LoaderStrip<S> {
    /// The store under a strip of the halfwords.
    pub fn new(below: S, strip: [u16; 24]) -> LoaderStrip<S>
        ensures over { result.below ≡ below }
        ensures holds { result.strip ≡ strip }
    {
        LoaderStrip { below, strip }
    }

    /// The store below as it is now.
    pub fn into_below(self) -> S
        ensures { result ≡ self.below }
    {
        self.below
    }
}

impl<S: Store> LoaderStrip<S> {
    /// Which halfword of the strip a place shows, if the strip covers it.
    fn slot(&self, place: usize) -> Option<usize>
        ensures { result ≡ cond (in_strip (S.Store.meaning self.now.below).fitted place) (Some (place - 40)) None }
    {
        if place < self.below.fitted() && (START..END).contains(&place) {
            Some(place - START)
        } else {
            None
        }
    }
}

impl<S: Store> Store for LoaderStrip<S> {
    ghost meaning = { λ s. stripped (S.Store.meaning s.below) s.strip };

    fn fitted(&self) -> usize {
        self.below.fitted()
    }

    fn kind(&self, place: usize) -> Kind {
        match self.slot(place) {
            Some(_) => Kind::Fixed,
            None => self.below.kind(place),
        }
    }

    fn read(&self, place: usize) -> u16 {
        match self.slot(place) {
            Some(slot) => self.strip[slot],
            None => self.below.read(place),
        }
    }

    /// The strip and what it hides stay.
    fn write(&mut self, place: usize, word: u16)
        ensures written { ⟦<LoaderStrip<S> as Store>⟧.meaning self.new ≡ stored (⟦<LoaderStrip<S> as Store>⟧.meaning self.old) place word }
        ensures under { S.Store.meaning self.new.below ≡ under_after (S.Store.meaning self.old.below) place word }
        ensures holds { self.new.strip ≡ self.old.strip }
    {
        if self.slot(place).is_none() {
            self.below.write(place, word);
        }
    }
}
