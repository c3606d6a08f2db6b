ghost use Rattle.std.specs.Prelude.{◌≡◌, ◌≤◌, true};
ghost use Rattle.bus.specs.Devices.{Reads, Writes, Commands};
ghost use Rattle.bus.specs.Usages.{usage_in};
ghost use Rattle.model.specs.Buses.{Bus as Meaning, lowest};
ghost use Rattle.model.specs.Requests.{NoneBelow};

use crate::usage::Usage;

/// The devices of a machine. The meaning of a bus is that of each device, 1 to 255; an implementation shows exactly this: whether a device
/// answers, its status, its offer, whether it requests, and how it was used. Questions change nothing.
/// Only a device that answers is read, written or commanded.
pub trait Bus {
    ghost devices: { Self → Meaning };

    /// What the first bus may become by one read, write or command.
    ghost touched: { Self → Self → Type 0 };

    /// Whether a device answers.
    fn answers(&self, device: u8) -> bool
        ensures { result ≡ (devices self.now device).answers };

    /// The status of a device.
    fn status(&self, device: u8) -> u8
        ensures { result ≡ (devices self.now device).status };

    /// The byte that a device offers.
    fn offer(&self, device: u8) -> u8
        ensures { result ≡ (devices self.now device).offer };

    /// Whether a device requests an interrupt.
    fn requests(&self, device: u8) -> bool
        ensures { result ≡ (devices self.now device).requests };

    /// How a device was used: its latest data and command, and its counts.
    fn usage(&self, device: u8) -> Usage
        ensures { result ≡ usage_in (devices self.now device) };

    /// The lowest device that requests an interrupt, or none.
    fn requesting(&self) -> Option<u8>
        ensures { result ≡ lowest (devices self.now) }
    {
        self.requesting_from(1)
    }

    /// The lowest device that requests an interrupt, or none, where no device before `start` does.
    fn requesting_from(&self, start: u8) -> Option<u8>
        requires { (1 ≤ start) × NoneBelow (devices self.now) start }
        ensures { result ≡ lowest (devices self.now) }
    {
        // Not `find`, tried: the library has a lemma on what it answers for `a..b`, and the proof for a range with its end did not close.
        for device in start..=255 {
            if self.requests(device) {
                return Some(device);
            }
        }
        None
    }

    /// Reads the byte that a device offers.
    fn read(&mut self, device: u8) -> u8
        requires { (devices self.old device).answers ≡ true }
        ensures value { result ≡ (devices self.old device).offer }
        ensures counted { Reads device (devices self.old) (devices self.new) }
        ensures touches { touched self.old self.new };

    /// Writes a byte to a device.
    fn write(&mut self, device: u8, byte: u8)
        requires { (devices self.old device).answers ≡ true }
        ensures counted { Writes device byte (devices self.old) (devices self.new) }
        ensures touches { touched self.old self.new };

    /// Gives a device a command.
    fn command(&mut self, device: u8, byte: u8)
        requires { (devices self.old device).answers ≡ true }
        ensures counted { Commands device byte (devices self.old) (devices self.new) }
        ensures touches { touched self.old self.new };
}
