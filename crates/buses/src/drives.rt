ghost use Rattle.std.specs.Prelude.{◌≡◌, ◌-◌, ◌/◌, true, replicate};
ghost use Rattle.std.specs.Bool.{then_some};
ghost use Rattle.buses.specs.Devices.{new_drive, drive_read, drive_written, drive_commanded, is_drive, drive_bus, position_of, drive_changed};
ghost use Rattle.buses.specs.Touches.{DrivesTouched};
ghost use Rattle.bus.specs.Devices.{Reads, Writes, Commands};

use bus::meaning::Bus;
use bus::usage::Usage;

/// The device number of the first drive, and the number of drives.
const FIRST: u8 = 16;

const COUNT: usize = 8;

/// A drive: two bytes written set its position, the high one first.
#[derive(Clone, Copy)]
pub struct Drive {
    usage: Usage,
    position: u16,
    high: Option<u8>,
}

impl Drive {
    /// A drive at position 0.
    pub fn new() -> Drive
        ensures { result ≡ new_drive }
    {
        Drive {
            usage: Usage::new(),
            position: 0,
            high: None,
        }
    }

    fn offer(&self) -> u8
        ensures { result ≡ self.now.position / 256 }
    {
        let [high, _] = self.position.to_be_bytes();
        high
    }

    fn read(&mut self)
        ensures { self.new ≡ drive_read self.old }
    {
        self.usage.read();
    }

    fn write(&mut self, byte: u8)
        ensures { self.new ≡ drive_written byte self.old }
    {
        self.usage.write(byte);
        match self.high.take() {
            None => self.high = Some(byte),
            Some(high) => self.position = u16::from_be_bytes([high, byte]),
        }
    }

    fn command(&mut self, byte: u8)
        ensures { self.new ≡ drive_commanded byte self.old }
    {
        self.usage.command(byte);
    }
}

/// Which of the drives a device is, if it is one.
fn place(device: u8) -> Option<usize>
    ensures { result ≡ then_some (is_drive device) (device - 16) }
{
    let place = usize::from(device.checked_sub(FIRST)?);
    (place < COUNT).then_some(place)
}

/// The eight drives, devices 16 to 23.
#[derive(Drop)]
pub struct Drives {
    drives: [Drive; COUNT],
}

impl Drives {
    /// Eight drives at position 0.
    pub fn new() -> Drives
        ensures { result.drives ≡ replicate 8 new_drive }
    {
        Drives {
            drives: [Drive::new(); COUNT],
        }
    }

    /// The position of a drive, if the device is one.
    pub fn position(&self, device: u8) -> Option<u16>
        ensures { result ≡ position_of self.now.drives device }
    {
        place(device).map(|at| self.drives[at].position)
    }
}

impl Bus for Drives {
    ghost devices = { λ d. drive_bus d.drives };

    ghost touched = { DrivesTouched };

    fn answers(&self, device: u8) -> bool {
        place(device).is_some()
    }

    fn status(&self, _device: u8) -> u8 {
        0
    }

    fn offer(&self, device: u8) -> u8 {
        place(device).map_or(0, |at| self.drives[at].offer())
    }

    fn requests(&self, _device: u8) -> bool {
        false
    }

    fn usage(&self, device: u8) -> Usage {
        place(device).map_or(Usage::new(), |at| self.drives[at].usage)
    }

    fn requesting(&self) -> Option<u8> {
        None
    }

    /// A pair half sent stays.
    fn read(&mut self, device: u8) -> u8
        requires { (drive_bus self.old.drives device).answers ≡ true }
        ensures value { result ≡ (drive_bus self.old.drives device).offer }
        ensures counted { Reads device (drive_bus self.old.drives) (drive_bus self.new.drives) }
        ensures drives { self.new.drives ≡ drive_changed drive_read self.old.drives device }
        ensures touches { DrivesTouched self.old self.new }
    {
        let Some(at) = place(device) else { return 0 };
        self.drives[at].read();
        self.drives[at].offer()
    }

    /// Two bytes set the position, the high one first.
    fn write(&mut self, device: u8, byte: u8)
        requires { (drive_bus self.old.drives device).answers ≡ true }
        ensures counted { Writes device byte (drive_bus self.old.drives) (drive_bus self.new.drives) }
        ensures drives { self.new.drives ≡ drive_changed (drive_written byte) self.old.drives device }
        ensures touches { DrivesTouched self.old self.new }
    {
        if let Some(at) = place(device) {
            self.drives[at].write(byte);
        }
    }

    /// A pair half sent stays.
    fn command(&mut self, device: u8, byte: u8)
        requires { (drive_bus self.old.drives device).answers ≡ true }
        ensures counted { Commands device byte (drive_bus self.old.drives) (drive_bus self.new.drives) }
        ensures drives { self.new.drives ≡ drive_changed (drive_commanded byte) self.old.drives device }
        ensures touches { DrivesTouched self.old self.new }
    {
        if let Some(at) = place(device) {
            self.drives[at].command(byte);
        }
    }
}
