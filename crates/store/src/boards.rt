ghost use Rattle.std.specs.Prelude.{◌≡◌, ◌≤◌, length, min, take, nat_lt};
ghost use Rattle.store.specs.Boards.{core_boards, boards_after};
ghost use Rattle.model.specs.Stores.{stored, store_limit};

use crate::meaning::Store;
use model::Kind;

/// A store has at most this many places.
pub const LIMIT: usize = 524_288;

/// Core boards over lent halfwords, no more than a store has places.
#[derive(Drop)]
pub struct CoreBoards<'a> {
    words: &'a mut [u16],
    ghost within: { length words.now ≤ store_limit },
}

impl<'a> CoreBoards<'a> {
    /// Boards over the first 524,288 of the halfwords, or over all where they are fewer. Those past the limit are not lent on.
    pub fn new(words: &'a mut [u16]) -> CoreBoards<'a>
        ensures holds { result.words.now ≡ take store_limit words.old }
        ensures means { core_boards result.words.now ≡ core_boards words.old }
    {
        let count = words.len().min(LIMIT);
        CoreBoards {
            words: &mut words[..count],
        }
    }

    /// The halfwords as they are now, at most 524,288.
    pub fn into_words(self) -> &'a mut [u16]
        ensures holds { result.now ≡ self.entry.words.now }
        ensures within { length result.now ≤ store_limit }
    {
        self.words
    }

    /// Whether a place is fitted.
    fn holds(&self, place: usize) -> bool
        ensures { result ≡ nat_lt place (length self.now.words.now) }
    {
        place < self.words.len()
    }
}

impl Store for CoreBoards<'_> {
    ghost meaning = { λ s. core_boards s.words.now };

    fn fitted(&self) -> usize {
        self.words.len()
    }

    fn kind(&self, place: usize) -> Kind {
        if self.holds(place) {
            Kind::Writable
        } else {
            Kind::Unfitted
        }
    }

    fn read(&self, place: usize) -> u16 {
        if self.holds(place) {
            self.words[place]
        } else {
            0
        }
    }

    fn write(&mut self, place: usize, word: u16)
        ensures written { core_boards self.new.words.now ≡ stored (core_boards self.old.words.now) place word }
        ensures words { self.new.words.now ≡ boards_after self.old.words.now place word }
    {
        if self.holds(place) {
            self.words[place] = word;
        }
    }
}
