//! A queue over lent slots: first in, first out.
#![tactic(auto)]

ghost use Rattle.std.specs.Prelude.{◌≡◌, ◌+◌, ◌-◌, ◌%◌, ◌<◌, ◌≤◌, ◌↔◌, min, ◌⊎◌, [], ◌∷◌, ◌++◌, length, drop, MatchOption, IsOk, IfErr, OnOk, ◌==◌, nat_le, slice_index_or, slice_set};
ghost use Rattle.std.specs.Iterator.{YieldsFirstRef, item_count};
ghost use Rattle.queue.specs.Rows.{queued, capacity, first_slot, free_slot, unread, HasRoom, SameSlots, Extended};

// Lent slots with a count beside them, and no invariant: a rule of the project, since the memory is the caller's.
/// A queue over lent slots, the oldest item at `head`.
#[derive(Drop)]
pub struct Queue<'a, X> {
    slots: &'a mut [X],
    head: usize,
    count: usize,
}

/// The place in a ring of `size` slots that lies `index` places after `head`.
fn place(head: usize, index: usize, size: usize) -> usize
    requires { (head ≤ size) × (index < size) }
    ensures inside { result < size }
    ensures turned { (result ≡ head + index) ⊎ (result + size ≡ head + index) }
    ensures round { result ≡ (head + index) % size }
{
    let room = size - head;
    if index < room {
        head + index
    } else {
        index - room
    }
}

/// The item at a place.
fn item_at<X: Copy>(slots: &[X], at: usize) -> X
    requires { at < length slots.now }
    ensures { result ≡ slice_index_or slots.now at result }
{
    slots[at]
}

impl<'a, X: Copy> Queue<'a, X> {
    /// An empty queue over the slots, which keep what they hold. The first item will stand in slot 0.
    #[tactic(auto, unfolding(crate::specs::Rows::held))]
    pub fn new(slots: &'a mut [X]) -> Queue<'a, X>
        ensures empty { queued result ≡ [] }
        ensures room { capacity result ≡ length slots.old }
        ensures same { result.slots.ghost_name ≡ slots.entry.ghost_name }
        ensures slots { result.slots.now ≡ slots.old }
        ensures first { first_slot result ≡ 0 }
    {
        Queue {
            slots,
            head: 0,
            count: 0,
        }
    }

    /// How many items wait.
    #[tactic(auto, using(crate::proofs::Rings::held_length))]
    pub fn len(&self) -> usize
        ensures { result ≡ length (queued self.now) }
    {
        self.count.min(self.slots.len())
    }

    /// The place of the oldest item; where that is the number of slots, it stands at place 0.
    fn start(&self) -> usize
        ensures { result ≡ min self.now.head (capacity self.now) }
    {
        self.head.min(self.slots.len())
    }

    /// How many items can wait.
    pub fn capacity(&self) -> usize
        ensures { result ≡ capacity self.now }
    {
        self.slots.len()
    }

    /// Whether no item waits.
    pub fn is_empty(&self) -> bool
        ensures { result ≡ (length (queued self.now) == 0) }
    {
        self.len() == 0
    }

    /// Whether no more item fits.
    pub fn is_full(&self) -> bool
        ensures { result ≡ nat_le (capacity self.now) (length (queued self.now)) }
    {
        self.len() >= self.slots.len()
    }

    /// Adds an item behind the others, in the slot behind theirs; no other slot changes. A full queue stays as it is, and the item
    /// comes back.
    #[tactic(auto, using(crate::proofs::Rings::held_length))]
    pub fn push(&mut self, item: X) -> Result<(), X>
        ensures fits { IsOk result ↔ HasRoom self.old }
        ensures refused { IfErr result (λ x. (x ≡ item) × (self.new ≡ self.old)) }
        ensures pushed { OnOk result (queued self.new ≡ queued self.old ++ item ∷ []) }
        ensures same { SameSlots self.old self.new }
        ensures slots { OnOk result (self.new.slots.now ≡ slice_set self.old.slots.now (free_slot self.old) item) }
        ensures extended { Extended self.old self.new }
    {
        let n = self.len();
        if n >= self.slots.len() {
            return Err(item);
        }
        let i = self.start();
        let at = place(i, n, self.slots.len());
        self.slots[at] = item;
        self.head = i;
        self.count = n + 1;
        Ok(())
    }

    /// Takes the oldest item; its slot keeps a copy, and the slot that is filled next is the same. An empty queue stays as it is.
    #[tactic(auto, using(crate::proofs::Rings::held_length))]
    pub fn pop(&mut self) -> Option<X>
        ensures popped { MatchOption result ((queued self.old ≡ []) × (self.new ≡ self.old)) (λ x. queued self.old ≡ x ∷ queued self.new) }
        ensures same { SameSlots self.old self.new }
        ensures slots { self.new.slots.now ≡ self.old.slots.now }
        ensures free { free_slot self.new ≡ free_slot self.old }
    {
        let n = self.len();
        if n == 0 {
            return None;
        }
        let i = self.start();
        let at = place(i, 0, self.slots.len());
        let item = self.slots[at];
        self.head = at + 1;
        self.count = n - 1;
        Some(item)
    }

    /// The item that has `index` older ones before it.
    #[tactic(auto, using(crate::proofs::Rings::held_length))]
    pub fn get(&self, index: usize) -> Option<X>
        ensures { MatchOption result (length (queued self.now) ≤ index) (λ x. (index < length (queued self.now)) × (x ≡ slice_index_or (queued self.now) index x)) }
    {
        let n = self.len();
        if index >= n {
            return None;
        }
        let i = self.start();
        Some(item_at(self.slots, place(i, index, self.slots.len())))
    }

    /// The items, the oldest first.
    pub fn iter(&self) -> Iter<'_, X>
        ensures { unread result ≡ queued self.now }
    {
        let n = self.len();
        let (wrapped, straight) = self.slots.split_at(self.start());
        let k = n.min(straight.len());
        Iter {
            first: &straight[..k],
            second: &wrapped[..n - k],
        }
    }

    /// The oldest item.
    #[tactic(auto, using(crate::proofs::Rings::held_length))]
    pub fn front(&self) -> Option<X>
        ensures { MatchOption result (queued self.now ≡ []) (λ x. queued self.now ≡ x ∷ drop 1 (queued self.now)) }
    {
        self.get(0)
    }
}

impl<'b, 'a, X: Copy> IntoIterator for &'b Queue<'a, X> {
    type Item = &'b X;

    type IntoIter = Iter<'b, X>;

    ghost into_iter_gives = { λ q it. unread it ≡ queued q.now };

    fn into_iter(self) -> Iter<'b, X> {
        self.iter()
    }
}

// Not the library's `chain` of two slice iterators: what is still to come is one list, by which proofs of callers count.
/// The items of a queue that are still to come, the oldest first: those of one part of its slots, then those of another.
#[derive(Drop)]
pub struct Iter<'a, X> {
    first: &'a [X],
    second: &'a [X],
}

impl<'a, X> Iterator for Iter<'a, X> {
    type Item = &'a X;

    ghost next_gives = { YieldsFirstRef unread };

    ghost remaining = { item_count unread };

    fn next(&mut self) -> Option<&'a X> {
        if let Some((item, others)) = self.first.split_first() {
            self.first = others;
            return Some(item);
        }
        let (item, others) = self.second.split_first()?;
        self.second = others;
        Some(item)
    }
}
