ghost use Rattle.std.specs.Prelude.{◌≡◌};
ghost use Rattle.bus.specs.Devices.{silent};

use crate::meaning::Bus;
use crate::usage::Usage;

/// A bus on which no device answers.
#[derive(Drop)]
pub struct SilentBus {}

impl Bus for SilentBus {
    ghost devices = { λ _. silent };

    ghost touched = { λ old new. new ≡ old };

    fn answers(&self, _device: u8) -> bool {
        false
    }

    fn status(&self, _device: u8) -> u8 {
        0
    }

    fn offer(&self, _device: u8) -> u8 {
        0
    }

    fn requests(&self, _device: u8) -> bool {
        false
    }

    fn usage(&self, _device: u8) -> Usage {
        Usage::new()
    }

    fn requesting(&self) -> Option<u8> {
        None
    }

    /// There is nothing to read.
    fn read(&mut self, _device: u8) -> u8
        ensures value { result ≡ 0 }
        ensures same { self.new ≡ self.old }
    {
        0
    }

    /// The byte goes nowhere.
    fn write(&mut self, _device: u8, _byte: u8)
        ensures same { self.new ≡ self.old }
    {}

    /// The command goes nowhere.
    fn command(&mut self, _device: u8, _byte: u8)
        ensures same { self.new ≡ self.old }
    {}
}
