ghost use Rattle.std.specs.Prelude.{◌≡◌, ◌%◌, set as replaced, slice_index};
ghost use Rattle.model.specs.Stores.{stored};
ghost use Rattle.model.specs.States.{with_status, with_location, with_registers, with_segments, with_store};
ghost use Rattle.model.specs.Status.{file_of, slot, counter};
ghost use Rattle.model.specs.Console.{fresh};
ghost use Rattle.processor.specs.View.{state_of, Becomes, SameParts};

use crate::cpu::{Core, at_start};
use bus::meaning::Bus;
use model::Kind;
use registers::file::RegisterSet;
use registers::words::ProgramAddress;
use store::meaning::Store;

impl<S: Store, B: Bus> Core<S, B> {
    /// Puts the processor at its start again; the store and the bus stay.
    pub fn reset(&mut self)
        ensures state { state_of S.Store.meaning B.Bus.devices self.new ≡ fresh (S.Store.meaning self.old.store) (B.Bus.devices self.old.bus) }
        ensures parts { SameParts self.old self.new }
    {
        (self.psw, self.registers, self.controller) = at_start();
        self.pending = false;
    }

    /// What a place of the store is.
    pub fn kind(&self, place: usize) -> Kind
        ensures { result ≡ (S.Store.meaning self.now.store).kind place }
    {
        self.store.kind(place)
    }

    /// The halfword at a place of the store.
    pub fn word(&self, place: usize) -> u16
        ensures { result ≡ (S.Store.meaning self.now.store).word place }
    {
        self.store.read(place)
    }

    /// Writes a halfword to a place of the store.
    pub fn deposit(&mut self, place: usize, word: u16)
        ensures state { Becomes S.Store.meaning B.Bus.devices (with_store (stored (S.Store.meaning self.old.store) place word)) self.old self.new }
        ensures bus { self.new.bus ≡ self.old.bus }
    {
        self.store.write(place, word);
    }

    // u8, not RegisterSet, here and below: each promises something of any number, and a narrower type would ask more of callers.
    /// A register of a set.
    pub fn general(&self, set: u8, number: u8) -> u32
        ensures { result ≡ slice_index self.now.registers.words (slot (file_of set) number) }
    {
        self.registers.get(RegisterSet::numbered(set), number)
    }

    /// Gives a register of a set another number.
    pub fn set_general(&mut self, set: u8, number: u8, value: u32)
        ensures state { Becomes S.Store.meaning B.Bus.devices (with_registers (replaced self.old.registers.words (slot (file_of set) number) value)) self.old self.new }
        ensures parts { SameParts self.old self.new }
    {
        self.registers
            .put(RegisterSet::numbered(set), number, value);
    }

    /// A segmentation register; numbers wrap at 16.
    pub fn segment(&self, number: u8) -> u32
        ensures { result ≡ slice_index self.now.controller.segments (number % 16) }
    {
        self.controller.segment(number)
    }

    /// Gives a segmentation register another word; numbers wrap at 16.
    pub fn set_segment(&mut self, number: u8, word: u32)
        ensures state { Becomes S.Store.meaning B.Bus.devices (with_segments (replaced self.old.controller.segments (number % 16) word)) self.old self.new }
        ensures parts { SameParts self.old self.new }
    {
        self.controller.put_segment(number, word);
    }

    /// The bus.
    pub fn bus(&self) -> &B
        ensures { result.now ≡ self.now.bus }
    {
        &self.bus
    }

    /// The interrupt status.
    pub fn faults(&self) -> u32
        ensures { result ≡ self.now.controller.faults }
    {
        self.controller.faults()
    }

    /// Loads a status.
    pub fn load_status(&mut self, status: u32)
        ensures state { Becomes S.Store.meaning B.Bus.devices (with_status status) self.old self.new }
        ensures parts { SameParts self.old self.new }
    {
        self.psw = self.psw.with_status(status);
    }

    /// Loads a Location Counter.
    pub fn load_location(&mut self, location: ProgramAddress)
        ensures state { Becomes S.Store.meaning B.Bus.devices (with_location (counter location.at)) self.old self.new }
        ensures parts { SameParts self.old self.new }
    {
        self.psw = self.psw.at(location);
    }
}
