ghost use Rattle.std.specs.Prelude.{◌≡◌, ◌+◌, ◌<◌};
ghost use Rattle.model.specs.Buses.{lowest};
ghost use Rattle.model.specs.Stores.{half_at, full_at};
ghost use Rattle.model.specs.States.{with_registers};
ghost use Rattle.model.specs.Steps.{into_zero, took, recorded, interrupted, supervised, requested};
ghost use Rattle.processor.specs.View.{state_of, Leads, Becomes};

use crate::cpu::Core;
use bus::meaning::Bus;
use fields::parts::joined;
use model::{Cause, Record};
use registers::file::RegisterSet;
use registers::words::{ProgramAddress, Psw};
use store::meaning::Store;

/// Where the new PSW after an illegal instruction lies in the store.
pub const ILLEGAL_VECTOR: u16 = 0x30;

/// Where that after an arithmetic fault lies.
pub const ARITHMETIC_VECTOR: u16 = 0x48;

/// Where that after a refused or reported access lies.
pub const ACCESS_VECTOR: u16 = 0x90;

/// Where the new status of a supervisor call lies.
const SUPERVISOR_STATUS: usize = 0x98;

/// Where the first of the 16 new locations of a supervisor call lies.
const SUPERVISOR_LOCATIONS: usize = 0x9c;

/// Where the entry of device 0 lies; the others follow it.
const DEVICE_ENTRIES: usize = 0xd0;

/// The status while a device is attended to.
const ATTENDING: u32 = 0x2800;

impl<S: Store, B: Bus> Core<S, B> {
    /// The halfword of the store at a real address.
    fn half_at(&self, address: usize) -> u16
        ensures { result ≡ half_at (S.Store.meaning self.now.store) address }
    {
        self.store.read(address / 2)
    }

    /// The fullword of the store at a real address.
    #[tactic(auto, unfolding(model::specs::Stores::full_at, fields::specs::Parts::joined))]
    fn full_at(&self, address: usize) -> u32
        ensures { result ≡ full_at (S.Store.meaning self.now.store) address }
    {
        let high = self.store.read(address / 2);
        let low = self.store.read(address / 2 + 1);
        joined(high, low)
    }

    /// The record of an interrupt that saves an address.
    fn record(&self, cause: Cause, own: ProgramAddress) -> Record
        ensures { result ≡ recorded cause own.at (state_of S.Store.meaning B.Bus.devices self.now) }
    {
        Record {
            cause,
            status: self.psw.status(),
            location: u32::from(own),
            faults: self.controller.faults(),
        }
    }

    /// Saves the status and an address in two registers of the first set.
    fn save(&mut self, first: u8, own: ProgramAddress)
        requires { first < 255 }
        ensures saved { Becomes S.Store.meaning B.Bus.devices (with_registers (into_zero (first + 1) own.at (into_zero first self.old.psw.status self.old.registers.words))) self.old self.new }
        ensures quiet { self.new.bus ≡ self.old.bus }
    {
        self.registers
            .put(RegisterSet::First, first, self.psw.status());
        self.registers
            .put(RegisterSet::First, first + 1, u32::from(own));
    }

    // Cause and vector apart: any cause through any PSW is promised, and a type of the three pairs would ask more of callers.
    /// Saves the status and an address, and loads the PSW at a real address.
    pub fn interrupt(&mut self, cause: Cause, vector: u16, own: ProgramAddress) -> Record
        ensures { Leads S.Store.meaning B.Bus.devices (interrupted cause vector own.at) self.old (took result) self.new }
    {
        let record = self.record(cause, own);
        self.save(14, own);
        let vector = usize::from(vector);
        self.psw = Psw::new(self.full_at(vector), self.full_at(vector + 4));
        record
    }

    /// Takes a supervisor call.
    pub fn supervise(&mut self, number: u8, address: u32) -> Record
        ensures { Leads S.Store.meaning B.Bus.devices (supervised number address) self.old (took result) self.new }
    {
        let next = self.psw.location();
        let record = self.record(Cause::SupervisorCall, next);
        self.registers.put(RegisterSet::First, 13, address);
        self.save(14, next);
        self.psw = Psw::new(
            self.full_at(SUPERVISOR_STATUS),
            u32::from(self.half_at(SUPERVISOR_LOCATIONS + 2 * usize::from(number))),
        );
        record
    }

    /// Takes the request of a device.
    pub fn attend(&mut self, device: u8) -> Record
        ensures { Leads S.Store.meaning B.Bus.devices (requested device) self.old (took result) self.new }
    {
        let own = self.psw.location();
        let record = self.record(Cause::DeviceRequest, own);
        let entry = self.half_at(DEVICE_ENTRIES + 2 * usize::from(device));
        self.save(0, own);
        self.registers.put(RegisterSet::First, 2, u32::from(device));
        self.registers
            .put(RegisterSet::First, 3, u32::from(self.bus.status(device)));
        self.registers.put(RegisterSet::First, 4, u32::from(entry));
        self.psw = Psw::new(ATTENDING, u32::from(entry));
        record
    }

    /// The lowest device that requests an interrupt, or none.
    pub fn requesting(&self) -> Option<u8>
        ensures { result ≡ lowest (B.Bus.devices self.now.bus) }
    {
        self.bus.requesting()
    }
}
