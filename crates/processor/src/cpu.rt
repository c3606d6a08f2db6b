ghost use Rattle.std.specs.Prelude.{◌≡◌, false, replicate};
ghost use Rattle.model.specs.Effects.{reg, set_reg, get_code, set_code, get_location, jump};
ghost use Rattle.model.specs.States.{with_pending};
ghost use Rattle.model.specs.Console.{fresh};
ghost use Rattle.processor.specs.View.{state_of, SetsQuietly, Shows, Becomes};

use bus::meaning::Bus;
use registers::controller::Controller;
use registers::file::Registers;
use registers::words::{ProgramAddress, Psw};
use store::meaning::Store;

/// The status of a processor that waits.
const WAITING: u32 = 0x8000;

// No Model: a view would forget the store's and the bus's own values, of which contracts say that a denied call leaves them.
/// The processor with its store and its bus. `pending` says that the instruction in progress has made a write that is
/// reported when it has ended.
#[derive(Drop)]
pub struct Core<S, B> {
    pub(crate) psw: Psw,
    pub(crate) registers: Registers,
    pub(crate) controller: Controller,
    pub(crate) pending: bool,
    pub(crate) store: S,
    pub(crate) bus: B,
}

/// What a processor has at its start: it waits, and all else is 0.
#[tactic(auto, unfolding(model::specs::Status::counter))]
pub(crate) fn at_start() -> (Psw, Registers, Controller)
    ensures psw { (result.0.status ≡ 0x8000) × (result.0.location ≡ 0) }
    ensures registers { result.1.words ≡ replicate 32 0 }
    ensures controller { (result.2.segments ≡ replicate 16 0) × (result.2.faults ≡ 0) }
{
    (Psw::new(WAITING, 0), Registers::new(), Controller::new())
}

impl<S: Store, B: Bus> Core<S, B> {
    /// A processor at its start, over the store and the bus as they are.
    pub fn new(store: S, bus: B) -> Core<S, B>
        ensures state { state_of S.Store.meaning B.Bus.devices result ≡ fresh (S.Store.meaning store) (B.Bus.devices bus) }
        ensures store { result.store ≡ store }
        ensures bus { result.bus ≡ bus }
    {
        let (psw, registers, controller) = at_start();
        Core {
            psw,
            registers,
            controller,
            pending: false,
            store,
            bus,
        }
    }

    /// Takes the processor apart: its store and its bus, as they are.
    pub fn into_parts(self) -> (S, B)
        ensures store { result.0 ≡ self.store }
        ensures bus { result.1 ≡ self.bus }
    {
        (self.store, self.bus)
    }

    /// A register of the selected set; register numbers wrap at 16.
    pub fn reg(&self, number: u8) -> u32
        ensures { Shows S.Store.meaning B.Bus.devices (reg number) self.now result }
    {
        self.registers.get(self.psw.selected(), number)
    }

    /// Gives a register of the selected set another number.
    pub fn set_reg(&mut self, number: u8, value: u32)
        ensures { SetsQuietly S.Store.meaning B.Bus.devices (set_reg number value) self.old self.new }
    {
        self.registers.put(self.psw.selected(), number, value);
    }

    /// The condition code.
    pub fn code(&self) -> u32
        ensures { Shows S.Store.meaning B.Bus.devices get_code self.now result }
    {
        self.psw.code()
    }

    // A u32, and no ConditionCode: the status of a device and loaded numbers come here too, and the low four bits count.
    /// Sets the condition code to the low four bits of a number.
    pub fn set_code(&mut self, code: u32)
        ensures { SetsQuietly S.Store.meaning B.Bus.devices (set_code code) self.old self.new }
    {
        let status = self.psw.recoded(code);
        self.psw = self.psw.with_status(status);
    }

    /// The Location Counter.
    pub fn location(&self) -> ProgramAddress
        ensures { Shows S.Store.meaning B.Bus.devices get_location self.now result.at }
    {
        self.psw.location()
    }

    /// Goes to an address, whose last bit is cleared.
    pub fn jump(&mut self, to: ProgramAddress)
        ensures { SetsQuietly S.Store.meaning B.Bus.devices (jump to.at) self.old self.new }
    {
        self.psw = self.psw.at(to);
    }

    /// The PSW.
    pub fn psw(&self) -> Psw
        ensures { result ≡ self.now.psw }
    {
        self.psw
    }

    /// Begins an instruction: nothing is to be reported yet.
    pub fn begin(&mut self)
        ensures state { Becomes S.Store.meaning B.Bus.devices (with_pending false) self.old self.new }
        ensures quiet { self.new.bus ≡ self.old.bus }
    {
        self.pending = false;
    }

    /// Whether the instruction has made a write that is to be reported.
    pub fn reports(&self) -> bool
        ensures { result ≡ self.now.pending }
    {
        self.pending
    }
}
