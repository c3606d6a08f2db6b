ghost use Rattle.model.specs.Effects.{privileged, get_status, set_status, answers, sense, read_from, write_to, command_to};
ghost use Rattle.bus.specs.Touches.{Becomes};
ghost use Rattle.processor.specs.View.{Does, Gives, Tells, DoesQuietly};

use crate::cpu::Core;
use bus::meaning::Bus;
use model::Trap;
use store::meaning::Store;

impl<S: Store, B: Bus> Core<S, B> {
    /// Stops a privileged instruction under protection.
    pub fn privileged(&self) -> Result<(), Trap>
        ensures { Does S.Store.meaning B.Bus.devices privileged self.now result self.now }
    {
        let refused = self.psw.protected();
        if refused { Err(Trap::Illegal) } else { Ok(()) }
    }

    /// The status.
    pub fn status(&self) -> Result<u32, Trap>
        ensures { Gives S.Store.meaning B.Bus.devices get_status self.now result self.now }
    {
        self.privileged()?;
        Ok(self.psw.status())
    }

    /// Loads a status.
    pub fn set_status(&mut self, status: u32) -> Result<(), Trap>
        ensures { DoesQuietly S.Store.meaning B.Bus.devices (set_status status) self.old result self.new }
    {
        self.privileged()?;
        self.psw = self.psw.with_status(status);
        Ok(())
    }

    /// Whether a device answers.
    pub fn answers(&self, device: u8) -> Result<bool, Trap>
        ensures { Tells S.Store.meaning B.Bus.devices (answers device) self.now result self.now }
    {
        self.privileged()?;
        Ok(self.bus.answers(device))
    }

    /// The status of a device.
    pub fn sense(&self, device: u8) -> Result<u8, Trap>
        ensures { Gives S.Store.meaning B.Bus.devices (sense device) self.now result self.now }
    {
        self.privileged()?;
        Ok(self.bus.status(device))
    }

    /// Reads a device, if it answers.
    #[tactic(auto, using(bus::proofs::Touches::becomes_same, bus::proofs::Touches::touched_once))]
    pub fn read_from(&mut self, device: u8) -> Result<u8, Trap>
        ensures does { Gives S.Store.meaning B.Bus.devices (read_from device) self.old result self.new }
        ensures touches { Becomes B.Bus.touched self.old.bus self.new.bus }
    {
        self.privileged()?;
        if !self.bus.answers(device) {
            return Ok(0);
        }
        Ok(self.bus.read(device))
    }

    // write_to and command_to stay two: the model has an effect for each, and each is proved against its own.
    /// Writes a byte to a device, if it answers.
    #[tactic(auto, using(bus::proofs::Touches::becomes_same, bus::proofs::Touches::touched_once))]
    pub fn write_to(&mut self, device: u8, byte: u8) -> Result<(), Trap>
        ensures does { Does S.Store.meaning B.Bus.devices (write_to device byte) self.old result self.new }
        ensures touches { Becomes B.Bus.touched self.old.bus self.new.bus }
    {
        self.privileged()?;
        if self.bus.answers(device) {
            self.bus.write(device, byte);
        }
        Ok(())
    }

    /// Gives a device a command, if it answers.
    #[tactic(auto, using(bus::proofs::Touches::becomes_same, bus::proofs::Touches::touched_once))]
    pub fn command_to(&mut self, device: u8, byte: u8) -> Result<(), Trap>
        ensures does { Does S.Store.meaning B.Bus.devices (command_to device byte) self.old result self.new }
        ensures touches { Becomes B.Bus.touched self.old.bus self.new.bus }
    {
        self.privileged()?;
        if self.bus.answers(device) {
            self.bus.command(device, byte);
        }
        Ok(())
    }
}
