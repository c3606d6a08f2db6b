ghost use Rattle.std.specs.Prelude.{◌≡◌};
ghost use Rattle.bus.specs.Usages.{unused, once_read, once_written, once_commanded};

/// The use of a device: its latest data and command, and how often it was read, written and commanded, modulo 2^32.
#[derive(Clone, Copy, Debug, PartialEq, Eq)]
pub struct Usage {
    pub latest: u8,
    pub command: u8,
    pub reads: u32,
    pub writes: u32,
    pub commands: u32,
}

impl Usage {
    /// No use yet.
    pub fn new() -> Usage
        ensures { result ≡ unused }
    {
        Usage {
            latest: 0,
            command: 0,
            reads: 0,
            writes: 0,
            commands: 0,
        }
    }

    /// One more read.
    pub fn read(&mut self)
        ensures { self.new ≡ once_read self.old }
    {
        self.reads = self.reads.wrapping_add(1);
    }

    /// One more write, of the byte.
    pub fn write(&mut self, byte: u8)
        ensures { self.new ≡ once_written byte self.old }
    {
        self.latest = byte;
        self.writes = self.writes.wrapping_add(1);
    }

    /// One more command, the byte.
    pub fn command(&mut self, byte: u8)
        ensures { self.new ≡ once_commanded byte self.old }
    {
        self.command = byte;
        self.commands = self.commands.wrapping_add(1);
    }
}
