ghost use Rattle.std.specs.Prelude.{◌≡◌, Bool, ℕ, ◌+◌, ◌*◌, ◌/◌, ◌%◌, ◌^◌, ◌<◌, length, get_or, set as replaced, replicate};
ghost use Rattle.std.specs.Int.Bits.{bit_or};
ghost use Rattle.model.specs.Controller.{limit_of, relocation_of, no_execute_of, write_mode_of, present_of, used, chosen, block, real, on_write, verdict, faults_noted, is_controller, is_segment, segment_at, is_faults, clears_faults, half_of, with_half, controller_half, segments_after, faults_after_read};

use crate::words::{ProgramAddress, RealAddress};
use fields::parts::{high_half, joined, low_half, with_low_half};
use model::{Access, Grant, Violation};

/// The access controller: 16 segmentation registers and the interrupt status register.
#[derive(Clone, Copy)]
pub struct Controller {
    segments: [u32; 16],
    faults: u32,
}

/// A segmentation register.
#[derive(Clone, Copy)]
struct Segment {
    word: u32,
}

impl Segment {
    fn limit(self) -> u32
        ensures { result ≡ limit_of self.word }
    {
        self.word / 0x10_0000 % 256
    }

    fn relocation(self) -> u32
        ensures value { result ≡ relocation_of self.word }
        ensures small { result < 4096 }
    {
        self.word / 256 % 4096
    }

    fn no_execute(self) -> bool
        ensures { result ≡ no_execute_of self.word }
    {
        self.word / 128 % 2 == 1
    }

    fn present(self) -> bool
        ensures { result ≡ present_of self.word }
    {
        self.word / 16 % 2 == 1
    }

    /// What the bits W say of a write.
    fn on_write(self) -> Result<Grant, Violation>
        ensures { result ≡ on_write (write_mode_of self.word) }
    {
        match self.word / 32 % 4 {
            0b00 => Ok(Grant::Plain),
            0b10 => Ok(Grant::Reported),
            _ => Err(Violation::WriteProtected),
        }
    }
}

/// A word with the bits that a segmentation register does not have at zero.
pub fn used_bits(word: u32) -> u32
    ensures { result ≡ used word }
{
    word / 16 % 0x100_0000 * 16
}

fn block_of(a: ProgramAddress) -> u32
    ensures value { result ≡ block a.at }
    ensures small { result < 256 }
{
    a.at / 256 % 256
}

impl RealAddress {
    /// Whether it is one of the controller's own addresses, X'300' to X'3FF'.
    pub fn is_controller(self) -> bool
        ensures { result ≡ is_controller self.at }
    {
        self.at / 256 == 3
    }

    /// Whether it is that of a segmentation register.
    fn is_segment(self) -> bool
        ensures { result ≡ is_segment self.at }
    {
        self.at % 256 < 0x40
    }

    /// Whether it is that of the interrupt status.
    fn is_faults(self) -> bool
        ensures { result ≡ is_faults self.at }
    {
        self.at % 256 / 4 == 0x10
    }

    /// Whether a read at it clears the interrupt status.
    fn clears_faults(self) -> bool
        ensures { result ≡ clears_faults self.at }
    {
        self.at % 256 / 2 == 0x21
    }

    /// The half of a register at it.
    fn half_of(self, word: u32) -> u16
        ensures { result ≡ half_of self.at word }
    {
        if self.at / 2 % 2 == 0 {
            high_half(word)
        } else {
            low_half(word)
        }
    }

    /// A register with another half at it.
    fn with_half(self, half: u16, word: u32) -> u32
        ensures { result ≡ with_half self.at half word }
    {
        if self.at / 2 % 2 == 0 {
            joined(half, low_half(word))
        } else {
            with_low_half(word, half)
        }
    }
}

impl Controller {
    /// All registers 0.
    pub fn new() -> Controller
        ensures segments { result.segments ≡ replicate 16 0 }
        ensures faults { result.faults ≡ 0 }
    {
        Controller {
            segments: [0; 16],
            faults: 0,
        }
    }

    /// A segmentation register; numbers wrap at 16.
    pub fn segment(&self, number: u8) -> u32
        ensures { result ≡ get_or self.now.segments (number % 16) 0 }
    {
        self.segments[usize::from(number % 16)]
    }

    /// Gives a segmentation register another word; numbers wrap at 16.
    pub fn put_segment(&mut self, number: u8, word: u32)
        ensures segments { self.new.segments ≡ replaced self.old.segments (number % 16) word }
        ensures faults { self.new.faults ≡ self.old.faults }
    {
        self.segments[usize::from(number % 16)] = word;
    }

    /// The interrupt status.
    pub fn faults(&self) -> u32
        ensures { result ≡ self.now.faults }
    {
        self.faults
    }

    /// Sets a bit of the interrupt status.
    pub fn note(&mut self, bit: u8)
        ensures segments { self.new.segments ≡ self.old.segments }
        ensures faults { self.new.faults ≡ bit_or self.old.faults bit }
    {
        self.faults |= u32::from(bit);
    }

    #[inline(always)]
    fn chosen(&self, a: ProgramAddress) -> Segment
        ensures { result.word ≡ chosen self.now.segments a.at }
    {
        Segment {
            word: self.segments[(a.at / 0x1_0000 % 16) as usize],
        }
    }

    /// What the first check that fails says of an access, relocation on.
    #[inline(always)]
    pub fn verdict(&self, access: Access, a: ProgramAddress) -> Result<Grant, Violation>
        ensures { result ≡ verdict access self.now.segments a.at }
    {
        let segment = self.chosen(a);
        if block_of(a) > segment.limit() {
            return Err(Violation::Limit);
        }
        if !segment.present() {
            return Err(Violation::Absent);
        }
        match access {
            Access::Fetch if segment.no_execute() => Err(Violation::NoExecute),
            Access::Fetch | Access::Read => Ok(Grant::Plain),
            Access::Write => segment.on_write(),
        }
    }

    /// The same, and a violation sets its bit of the interrupt status.
    #[inline(always)]
    pub fn judge(&mut self, access: Access, a: ProgramAddress) -> Result<Grant, Violation>
        ensures verdict { result ≡ verdict access self.old.segments a.at }
        ensures segments { self.new.segments ≡ self.old.segments }
        ensures faults { self.new.faults ≡ faults_noted result self.old.faults }
    {
        let verdict = self.verdict(access, a);
        if let Err(violation) = verdict {
            self.note(u8::from(violation));
        }
        verdict
    }

    /// The real address that a program address reaches, relocation on.
    #[inline(always)]
    pub fn real(&self, a: ProgramAddress) -> RealAddress
        ensures { result.at ≡ real self.now.segments a.at }
    {
        RealAddress {
            at: (self.chosen(a).relocation() + block_of(a)) % 4096 * 256 + a.at % 256,
        }
    }

    /// The half of a register that the controller shows at one of its own addresses.
    pub fn half(&self, r: RealAddress) -> u16
        ensures { result ≡ controller_half self.now.segments self.now.faults r.at }
    {
        if r.is_segment() {
            r.half_of(self.segments[(r.at / 4 % 16) as usize])
        } else if r.is_faults() {
            r.half_of(self.faults)
        } else {
            0
        }
    }

    /// Reads at one of the controller's own addresses; at X'342' this clears the interrupt status.
    #[cold]
    pub fn read(&mut self, r: RealAddress) -> u16
        ensures value { result ≡ controller_half self.old.segments self.old.faults r.at }
        ensures segments { self.new.segments ≡ self.old.segments }
        ensures faults { self.new.faults ≡ faults_after_read self.old.faults r.at }
    {
        let half = self.half(r);
        if r.clears_faults() {
            self.faults = 0;
        }
        half
    }

    /// Writes a half at one of the controller's own addresses; only segmentation registers change.
    #[cold]
    pub fn write(&mut self, r: RealAddress, half: u16)
        ensures segments { self.new.segments ≡ segments_after self.old.segments r.at half }
        ensures faults { self.new.faults ≡ self.old.faults }
    {
        if r.is_segment() {
            let n = (r.at / 4 % 16) as usize;
            self.segments[n] = used_bits(r.with_half(half, self.segments[n]));
        }
    }
}
