ghost use Rattle.std.specs.Prelude.{◌≡◌};
ghost use Rattle.model.specs.Status.{address};
ghost use Rattle.registers.specs.Parity.{is_odd};
ghost use Rattle.model.specs.Effects.{went, and_then, translated, checked, reaches_controller, read_at, written_at, fetch, load, store as storing, check};
ghost use Rattle.processor.specs.View.{state_of, out_real, Leads, DoesQuietly, GivesQuietly};
ghost use Rattle.processor.specs.Writes.{put, put_byte};

use crate::cpu::Core;
use bus::meaning::Bus;
use fields::parts::with_byte;
use model::{Access, Grant, Trap};
use registers::words::{ProgramAddress, RealAddress};
use store::meaning::Store;

impl<S: Store, B: Bus> Core<S, B> {
    /// The real address of an access, once the controller has let it through.
    #[tactic(auto, using(crate::proofs::Addresses::address_same))]
    #[inline(always)]
    fn translate(&mut self, access: Access, a: ProgramAddress) -> Result<RealAddress, Trap>
        ensures { Leads S.Store.meaning B.Bus.devices (translated access (address a.at)) self.old (out_real result) self.new }
    {
        if !self.psw.relocated() {
            return Ok(a.unrelocated());
        }
        if let Grant::Reported = self.controller.judge(access, a)? {
            self.controller.note(2);
            self.pending = true;
        }
        Ok(self.controller.real(a))
    }

    /// Makes the checks of an access, and no access.
    #[tactic(auto, using(crate::proofs::Addresses::address_same))]
    pub fn check(&mut self, access: Access, a: ProgramAddress) -> Result<(), Trap>
        ensures { DoesQuietly S.Store.meaning B.Bus.devices (check access a.at) self.old result self.new }
    {
        if self.psw.relocated() {
            self.controller.judge(access, a)?;
        }
        Ok(())
    }

    #[inline(always)]
    fn reaches_controller(&self, r: RealAddress) -> bool
        ensures { result ≡ reaches_controller r.at (state_of S.Store.meaning B.Bus.devices self.now) }
    {
        !self.psw.relocated() && r.is_controller()
    }

    /// Reads at a real address, as a program does.
    #[inline(always)]
    fn read_at(&mut self, r: RealAddress) -> u16
        ensures { Leads S.Store.meaning B.Bus.devices (read_at r.at) self.old (went result) self.new }
    {
        if self.reaches_controller(r) {
            return self.controller.read(r);
        }
        self.store.read(r.place())
    }

    /// Writes at a real address, as a program does.
    #[tactic(auto, unfolding(crate::specs::Writes::put))]
    #[inline(always)]
    fn write_at(&mut self, r: RealAddress, half: u16)
        ensures { Leads S.Store.meaning B.Bus.devices (written_at r.at (put half)) self.old (λ s. s) self.new }
    {
        if self.reaches_controller(r) {
            self.controller.write(r, half);
        } else {
            self.store.write(r.place(), half);
        }
    }

    /// Replaces one byte of the halfword at a real address.
    #[tactic(auto, unfolding(crate::specs::Writes::put, crate::specs::Writes::put_byte))]
    fn write_byte_at(&mut self, r: RealAddress, odd: bool, byte: u8)
        ensures { Leads S.Store.meaning B.Bus.devices (written_at r.at (put_byte odd byte)) self.old (λ s. s) self.new }
    {
        let old = if self.reaches_controller(r) {
            self.controller.half(r)
        } else {
            self.store.read(r.place())
        };
        self.write_at(r, with_byte(odd, old, byte));
    }

    /// Fetches a halfword of an instruction.
    #[inline(always)]
    pub fn fetch(&mut self, a: ProgramAddress) -> Result<u16, Trap>
        ensures { GivesQuietly S.Store.meaning B.Bus.devices (fetch a.at) self.old result self.new }
    {
        let r = self.translate(Access::Fetch, a)?;
        Ok(self.read_at(r))
    }

    /// Loads a halfword.
    #[inline(always)]
    pub fn load(&mut self, a: ProgramAddress) -> Result<u16, Trap>
        ensures { GivesQuietly S.Store.meaning B.Bus.devices (load a.at) self.old result self.new }
    {
        let r = self.translate(Access::Read, a)?;
        Ok(self.read_at(r))
    }

    /// Stores a halfword.
    #[inline(always)]
    pub fn store(&mut self, a: ProgramAddress, half: u16) -> Result<(), Trap>
        ensures { DoesQuietly S.Store.meaning B.Bus.devices (storing a.at (put half)) self.old result self.new }
    {
        let r = self.translate(Access::Write, a)?;
        self.write_at(r, half);
        Ok(())
    }

    /// Stores a byte, in one write.
    pub fn store_byte(&mut self, a: ProgramAddress, byte: u8) -> Result<(), Trap>
        ensures { DoesQuietly S.Store.meaning B.Bus.devices (storing a.at (put_byte (is_odd a.at) byte)) self.old result self.new }
    {
        let odd = a.is_odd();
        let r = self.translate(Access::Write, a)?;
        self.write_byte_at(r, odd, byte);
        Ok(())
    }
}
