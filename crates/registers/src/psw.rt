ghost use Rattle.std.specs.Prelude.{◌≡◌, ◌+◌, ◌-◌, ◌/◌, ◌%◌, ◌^◌, ◌<◌};
ghost use Rattle.model.specs.Status.{bit, waits, polls, arithmetic_on, relocated, protected, code_of, recoded, selected, counter, address, to_half, to_full, to_psw};
ghost use Rattle.registers.specs.Parity.{is_odd};
ghost use Rattle.registers.specs.Sets.{set_number};

use crate::file::RegisterSet;
use crate::words::{ProgramAddress, Psw, RealAddress};

impl Psw {
    /// A PSW with all bits of a status, and the low 20 bits of a counter, the last cleared.
    pub fn new(status: u32, location: u32) -> Psw
        ensures status { result.status ≡ status }
        ensures location { result.location ≡ counter location }
    {
        Psw {
            status,
            location: location % 0x10_0000 / 2 * 2,
        }
    }

    /// The status.
    pub fn status(self) -> u32
        ensures { result ≡ self.status }
    {
        self.status
    }

    /// The Location Counter.
    pub fn location(self) -> ProgramAddress
        ensures { result.at ≡ self.location }
    {
        ProgramAddress { at: self.location }
    }

    /// The same status at another address, whose last bit is cleared.
    pub fn at(self, location: ProgramAddress) -> Psw
        ensures status { result.status ≡ self.status }
        ensures location { result.location ≡ counter location.at }
    {
        Psw {
            status: self.status,
            location: location.at / 2 * 2,
        }
    }

    /// The same Location Counter with another status.
    pub fn with_status(self, status: u32) -> Psw
        ensures status { result.status ≡ status }
        ensures location { result.location ≡ self.location }
    {
        Psw {
            status,
            location: self.location,
        }
    }

    /// The condition code.
    pub fn code(self) -> u32
        ensures { result ≡ code_of self.status }
    {
        self.status % 16
    }

    /// The status with the low four bits of a number as its condition code.
    pub fn recoded(self, code: u32) -> u32
        ensures { result ≡ recoded self.status code }
    {
        self.status / 16 * 16 + code % 16
    }

    /// A bit, numbered from the left.
    fn bit(self, number: u32) -> bool
        requires { number < 32 }
        ensures { result ≡ bit number self.status }
    {
        (self.status >> (31 - number)) % 2 == 1
    }

    /// Bit 16: the processor waits.
    pub fn waits(self) -> bool
        ensures { result ≡ waits self.status }
    {
        self.bit(16)
    }

    /// Bit 17: device requests are taken.
    pub fn polls(self) -> bool
        ensures { result ≡ polls self.status }
    {
        self.bit(17)
    }

    /// Bit 19: arithmetic faults interrupt.
    pub fn arithmetic_on(self) -> bool
        ensures { result ≡ arithmetic_on self.status }
    {
        self.bit(19)
    }

    /// Bit 21: addresses go through the segmentation registers.
    pub fn relocated(self) -> bool
        ensures { result ≡ relocated self.status }
    {
        self.bit(21)
    }

    /// Bit 23: privileged codes are illegal.
    pub fn protected(self) -> bool
        ensures { result ≡ protected self.status }
    {
        self.bit(23)
    }

    /// Which set of the register file is selected.
    pub fn selected(self) -> RegisterSet
        ensures { set_number result ≡ selected self.status }
    {
        RegisterSet::numbered((self.status / 16 % 16) as u8)
    }
}

impl ProgramAddress {
    /// The low 20 bits of a number.
    pub fn new(n: u32) -> ProgramAddress
        ensures { result.at ≡ address n }
    {
        ProgramAddress { at: n % 0x10_0000 }
    }

    /// The address a few bytes on, in 20 bits.
    pub fn plus(self, bytes: u16) -> ProgramAddress
        ensures { result.at ≡ address (self.at + bytes) }
    {
        ProgramAddress::new(self.at + u32::from(bytes))
    }

    /// Whether it is that of a low byte.
    pub fn is_odd(self) -> bool
        ensures { result ≡ is_odd self.at }
    {
        self.at % 2 == 1
    }

    /// The multiple of a size at it or below.
    fn down_to(self, size: u32) -> ProgramAddress
        requires { 0 < size }
        ensures { result.at + self.at % size ≡ self.at }
    {
        ProgramAddress {
            at: self.at - self.at % size,
        }
    }

    /// The address of the halfword that holds it.
    pub fn to_half(self) -> ProgramAddress
        ensures { result.at ≡ to_half self.at }
    {
        self.down_to(2)
    }

    /// The address of the fullword that holds it.
    pub fn to_full(self) -> ProgramAddress
        ensures { result.at ≡ to_full self.at }
    {
        self.down_to(4)
    }

    /// The address of the PSW that holds it.
    pub fn to_psw(self) -> ProgramAddress
        ensures { result.at ≡ to_psw self.at }
    {
        self.down_to(8)
    }

    /// The address a few bytes back, in 20 bits.
    pub fn minus(self, bytes: u16) -> ProgramAddress
        ensures { result.at ≡ address (self.at + (2 ^ 20 - bytes)) }
    {
        ProgramAddress::new(self.at + (0x10_0000 - u32::from(bytes)))
    }

    /// The real address with relocation off: both are equal.
    pub fn unrelocated(self) -> RealAddress
        ensures { result.at ≡ self.at }
    {
        RealAddress { at: self.at }
    }
}

/// The address as a number.
impl From<ProgramAddress> for u32 {
    ghost from_gives = { λ a n. (n ≡ a.at) × (n < 2 ^ 20) };

    fn from(address: ProgramAddress) -> u32 {
        address.at
    }
}

impl RealAddress {
    /// The place of the store that holds it.
    pub fn place(self) -> usize
        ensures { result ≡ self.at / 2 }
    {
        (self.at / 2) as usize
    }
}
