ghost use Rattle.std.specs.Prelude.{◌≡◌, ◌<◌, get_or, replicate, set as replaced};
ghost use Rattle.model.specs.Status.{file_of, slot, register_count};
ghost use Rattle.registers.specs.Sets.{set_number};

/// A set of general registers.
#[derive(Clone, Copy, Debug, PartialEq, Eq)]
pub enum RegisterSet {
    First,
    Second,
}

impl RegisterSet {
    /// The set of a number: the first of 0, the second of any other.
    pub fn numbered(number: u8) -> RegisterSet
        ensures { set_number result ≡ file_of number }
    {
        if number == 0 {
            RegisterSet::First
        } else {
            RegisterSet::Second
        }
    }
}

/// The general registers: the sets, one behind the other.
#[derive(Clone, Copy)]
pub struct Registers {
    words: [u32; 32],
}

fn slot_of(set: RegisterSet, number: u8) -> usize
    ensures value { result ≡ slot (set_number set) number }
    ensures small { result < register_count }
{
    let start = match set {
        RegisterSet::First => 0,
        RegisterSet::Second => 16,
    };
    start + usize::from(number % 16)
}

impl Registers {
    /// All registers 0.
    pub fn new() -> Registers
        ensures { result.words ≡ replicate register_count 0 }
    {
        Registers { words: [0; 32] }
    }

    /// A register of a set of the file; register numbers wrap at 16.
    pub fn get(&self, set: RegisterSet, number: u8) -> u32
        ensures { result ≡ get_or self.now.words (slot (set_number set) number) 0 }
    {
        self.words[slot_of(set, number)]
    }

    /// Gives a register of a set of the file another number.
    pub fn put(&mut self, set: RegisterSet, number: u8, value: u32)
        ensures { self.new.words ≡ replaced self.old.words (slot (set_number set) number) value }
    {
        self.words[slot_of(set, number)] = value;
    }
}
