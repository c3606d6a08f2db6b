ghost use Rattle.std.specs.Prelude.{◌≡◌, true, length};
ghost use Rattle.queue.specs.Rows.{queued, SameSlots};
ghost use Rattle.bus.specs.Devices.{Reads, Writes, Commands};
ghost use Rattle.bus.specs.Usages.{unused, once_read};
ghost use Rattle.buses.specs.Devices.{oldest, rest, teletype};
ghost use Rattle.buses.specs.Touches.{TeletypeTouched};

use bus::meaning::Bus;
use bus::usage::Usage;
use queue::Queue;

/// The device number of the teletype.
const NUMBER: u8 = 2;

/// The status when no byte waits.
const EMPTY: u8 = 0x08;

/// The teletype, device 2: bytes wait until they are read.
#[derive(Drop)]
pub struct Teletype<'a> {
    waiting: Queue<'a, u8>,
    usage: Usage,
}

impl<'a> Teletype<'a> {
    /// A teletype for which the bytes wait.
    pub fn new(bytes: Queue<'a, u8>) -> Teletype<'a>
        ensures holds { result.waiting ≡ bytes.entry }
        ensures fresh { result.usage ≡ unused }
    {
        Teletype {
            waiting: bytes,
            usage: Usage::new(),
        }
    }

    /// The queue as it is now.
    pub fn into_queue(self) -> Queue<'a, u8>
        ensures { result ≡ self.entry.waiting }
    {
        self.waiting
    }

    /// How many bytes wait.
    pub fn waiting(&self) -> usize
        ensures { result ≡ length (queued self.now.waiting) }
    {
        self.waiting.len()
    }

    /// Takes the oldest byte, or gives 0; the read is counted.
    fn take(&mut self) -> u8
        ensures value { result ≡ oldest (queued self.old.waiting) }
        ensures taken { queued self.new.waiting ≡ rest (queued self.old.waiting) }
        ensures same { SameSlots self.old.waiting self.new.waiting }
        ensures slots { self.new.waiting.slots.now ≡ self.old.waiting.slots.now }
        ensures counted { self.new.usage ≡ once_read self.old.usage }
    {
        self.usage.read();
        self.waiting.pop().unwrap_or(0)
    }
}

impl Bus for Teletype<'_> {
    ghost devices = { λ t. teletype (queued t.waiting) t.usage };

    ghost touched = { TeletypeTouched };

    fn answers(&self, device: u8) -> bool {
        device == NUMBER
    }

    fn status(&self, device: u8) -> u8 {
        if device == NUMBER && self.waiting.is_empty() {
            EMPTY
        } else {
            0
        }
    }

    fn offer(&self, device: u8) -> u8 {
        if device != NUMBER {
            return 0;
        }
        self.waiting.front().unwrap_or(0)
    }

    fn requests(&self, device: u8) -> bool {
        device == NUMBER && !self.waiting.is_empty() && self.usage.command / 64 == 1
    }

    fn usage(&self, device: u8) -> Usage {
        if device == NUMBER {
            self.usage
        } else {
            Usage::new()
        }
    }

    fn requesting(&self) -> Option<u8> {
        self.requests(NUMBER).then_some(NUMBER)
    }

    /// The oldest byte is taken, and no other.
    fn read(&mut self, device: u8) -> u8
        requires { (teletype (queued self.old.waiting) self.old.usage device).answers ≡ true }
        ensures value { result ≡ (teletype (queued self.old.waiting) self.old.usage device).offer }
        ensures counted { Reads device (teletype (queued self.old.waiting) self.old.usage) (teletype (queued self.new.waiting) self.new.usage) }
        ensures taken { queued self.new.waiting ≡ rest (queued self.old.waiting) }
        ensures same { SameSlots self.old.waiting self.new.waiting }
        ensures slots { self.new.waiting.slots.now ≡ self.old.waiting.slots.now }
        ensures touches { TeletypeTouched self.old self.new }
    {
        self.take()
    }

    /// The bytes that wait stay.
    fn write(&mut self, device: u8, byte: u8)
        requires { (teletype (queued self.old.waiting) self.old.usage device).answers ≡ true }
        ensures counted { Writes device byte (teletype (queued self.old.waiting) self.old.usage) (teletype (queued self.new.waiting) self.new.usage) }
        ensures waits { self.new.waiting ≡ self.old.waiting }
        ensures touches { TeletypeTouched self.old self.new }
    {
        self.usage.write(byte);
    }

    /// The bytes that wait stay.
    fn command(&mut self, device: u8, byte: u8)
        requires { (teletype (queued self.old.waiting) self.old.usage device).answers ≡ true }
        ensures counted { Commands device byte (teletype (queued self.old.waiting) self.old.usage) (teletype (queued self.new.waiting) self.new.usage) }
        ensures waits { self.new.waiting ≡ self.old.waiting }
        ensures touches { TeletypeTouched self.old self.new }
    {
        self.usage.command(byte);
    }
}
