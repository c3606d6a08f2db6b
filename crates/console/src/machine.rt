ghost use Rattle.std.specs.Prelude.{◌≡◌, OnErr};
ghost use Rattle.bus.specs.Touches.{Becomes};
ghost use Rattle.queue.specs.Rows.{SameSlots, Extended};
ghost use Rattle.model.specs.Answers.{off};
ghost use Rattle.model.specs.Console.{made as made_desk, turn_key, initialise, examine, deposit, set_item, show_item};
ghost use Rattle.model.specs.Runs.{StepsSplit};
ghost use Rattle.processor.specs.View.{SameParts};
ghost use Rattle.instructions.specs.Instructions.{instruction};
ghost use Rattle.console.specs.Keys.{number_of};
ghost use Rattle.console.specs.Tape.{Plays};
ghost use Rattle.console.specs.View.{desk_of, done_by, shown_by, stepped_by, ran_by, Says, Steps, Runs};

use crate::key::Key;
use crate::registers_at::{item_in, set_item};
use crate::store_at::{deposit_at, place_at};
use crate::tapes::play_on;
use bus::meaning::Bus;
use model::{Denial, Item, Record, StepAnswer};
use processor::cpu::Core;
use queue::Queue;
use steps::run::{RunAnswer, run};
use steps::step::step;
use store::meaning::Store;
use tape::orders::TapeFault;

// No Model: a view would forget the store's and the bus's own values, of which contracts say that a denied call leaves them.
/// A machine with its key, its processor, its store and its bus. Only the calls below change it.
#[derive(Drop)]
pub struct Machine<S, B> {
    key: Key,
    core: Core<S, B>,
}

impl<S: Store, B: Bus> Machine<S, B> {
    /// Makes a machine over a store and a bus, which stay as they are, its key ON.
    pub fn make(store: S, bus: B) -> Machine<S, B>
        ensures desk { desk_of S.Store.meaning B.Bus.devices result ≡ made_desk (S.Store.meaning store) (B.Bus.devices bus) }
        ensures store { result.core.store ≡ store }
        ensures bus { result.core.bus ≡ bus }
    {
        Machine {
            key: Key::new(),
            core: Core::new(store, bus),
        }
    }

    /// Takes the machine apart: its store and its bus, as they are.
    pub fn into_parts(self) -> (S, B)
        ensures store { result.0 ≡ self.core.store }
        ensures bus { result.1 ≡ self.core.bus }
    {
        self.core.into_parts()
    }

    // u8, not Position: any number may be given, and one that is no position is denied.
    /// Turns the key: 0 OFF, 1 ON, 2 LOCK; the processor, its store and its bus stay. Another number is denied, and then the key stays.
    pub fn turn_key(&mut self, position: u8) -> Result<(), Denial>
        ensures says { Says S.Store.meaning B.Bus.devices (turn_key position) self.old (done_by result) self.new }
        ensures denied { OnErr result (self.new ≡ self.old) }
        ensures core { self.new.core ≡ self.old.core }
    {
        self.key = Key::at(position)?;
        Ok(())
    }

    /// Puts the processor at its start again; the store and the bus stay. Denied at OFF, and then nothing changes.
    pub fn initialise(&mut self) -> Result<(), Denial>
        ensures says { Says S.Store.meaning B.Bus.devices initialise self.old (done_by result) self.new }
        ensures denied { OnErr result (self.new ≡ self.old) }
        ensures parts { SameParts self.old.core self.new.core }
    {
        self.key.unless_off()?;
        self.core.reset();
        Ok(())
    }

    /// The halfword at a real address, in the store; nothing changes. Denied at OFF and LOCK, and where the address is odd, over
    /// X'FFFFF' or of an unfitted place.
    pub fn examine(&mut self, address: u32) -> Result<u16, Denial>
        ensures says { Says S.Store.meaning B.Bus.devices (examine address) self.old (shown_by result) self.new }
        ensures same { self.new ≡ self.old }
    {
        self.key.unless_closed()?;
        let place = place_at(&self.core, address)?;
        Ok(self.core.word(place))
    }

    /// Writes a halfword at a real address, in the store; the bus stays. Denied where examine is, and at a fixed place, and then
    /// nothing changes.
    pub fn deposit(&mut self, address: u32, word: u16) -> Result<(), Denial>
        ensures says { Says S.Store.meaning B.Bus.devices (deposit address word) self.old (done_by result) self.new }
        ensures denied { OnErr result (self.new ≡ self.old) }
        ensures bus { self.new.core.bus ≡ self.old.core.bus }
    {
        self.key.unless_closed()?;
        deposit_at(&mut self.core, address, word)
    }

    /// Gives a register another number; the store and the bus stay. Denied at OFF and LOCK, where there is no such register, and where
    /// it does not take the number, and then nothing changes.
    pub fn set(&mut self, item: Item, value: u32) -> Result<(), Denial>
        ensures says { Says S.Store.meaning B.Bus.devices (set_item item value) self.old (done_by result) self.new }
        ensures denied { OnErr result (self.new ≡ self.old) }
        ensures parts { SameParts self.old.core self.new.core }
    {
        self.key.unless_closed()?;
        set_item(&mut self.core, item, value)
    }

    /// The number in a register; nothing changes. Denied at OFF and LOCK, and where there is no such register.
    pub fn show(&mut self, item: Item) -> Result<u32, Denial>
        ensures says { Says S.Store.meaning B.Bus.devices (show_item item) self.old (shown_by result) self.new }
        ensures same { self.new ≡ self.old }
    {
        self.key.unless_closed()?;
        item_in(&self.core, item)
    }

    /// Makes one step; an interrupt adds a record to the trace, and the bus becomes only what reads, writes and commands make of it.
    /// Denied at OFF, and where the trace has no room, and then neither the machine nor the trace changes.
    #[tactic(auto, using(bus::proofs::Touches::becomes_same))]
    pub fn step(&mut self, trace: &mut Queue<'_, Record>) -> Result<StepAnswer, Denial>
        ensures says { Steps S.Store.meaning B.Bus.devices self.old trace.old (stepped_by result) self.new trace.new }
        ensures denied { OnErr result (self.new ≡ self.old) }
        ensures denied_trace { OnErr result (trace.new ≡ trace.old) }
        ensures touches { Becomes B.Bus.touched self.old.core.bus self.new.core.bus }
        ensures same { SameSlots trace.old trace.new }
        ensures extended { Extended trace.old trace.new }
    {
        self.key.unless_off()?;
        step(&mut self.core, trace)
    }

    /// Steps until one waits, the trace is full or the count is reached; the bus becomes only what reads, writes and commands make of it.
    /// Denied at OFF, for a count of 0 or over 1,000,000, and where the trace has no room, and then neither the machine nor the trace
    /// changes.
    #[tactic(auto, using(bus::proofs::Touches::becomes_same))]
    pub fn run(&mut self, count: u32, trace: &mut Queue<'_, Record>) -> Result<RunAnswer, Denial>
        ensures says { Runs S.Store.meaning B.Bus.devices count self.old trace.old (ran_by result) self.new trace.new }
        ensures splits { StepsSplit instruction }
        ensures denied { OnErr result (self.new ≡ self.old) }
        ensures denied_trace { OnErr result (trace.new ≡ trace.old) }
        ensures touches { Becomes B.Bus.touched self.old.core.bus self.new.core.bus }
        ensures same { SameSlots trace.old trace.new }
        ensures extended { Extended trace.old trace.new }
    {
        self.key.unless_off()?;
        let answer = run(&mut self.core, trace, count)?;
        Ok(answer)
    }

    /// Plays a tape with the key ON; answers the number of commands obeyed. The key is back where it was, however the tape ends, and what
    /// the commands before a fault did stands. The bus becomes only what reads, writes and commands make of it. At OFF nothing is played,
    /// and neither the machine nor the trace changes.
    #[tactic(auto, using(bus::proofs::Touches::becomes_same))]
    pub fn play(&mut self, tape: &[u8], trace: &mut Queue<'_, Record>) -> Result<usize, TapeFault>
        ensures says { Plays S.Store.meaning B.Bus.devices tape.now self.old trace.old result self.new trace.new }
        ensures key { self.new.key ≡ self.old.key }
        ensures denied_at_off { number_of self.old.key.position ≡ off → (self.new ≡ self.old) × (trace.new ≡ trace.old) }
        ensures touches { Becomes B.Bus.touched self.old.core.bus self.new.core.bus }
        ensures same { SameSlots trace.old trace.new }
        ensures extended { Extended trace.old trace.new }
    {
        self.key.unless_off()?;
        let mut key = self.key;
        let answer = play_on(&mut key, &mut self.core, tape, trace);
        self.key = key;
        answer
    }

    /// The interrupt status register: a question, at any key position, that changes nothing.
    pub fn interrupt_status(&self) -> u32
        ensures { result ≡ self.now.core.controller.faults }
    {
        self.core.faults()
    }

    /// The bus, so that what its devices show and count can be looked at: a question, at any key position, that changes nothing.
    pub fn bus(&self) -> &B
        ensures { result.now ≡ self.now.core.bus }
    {
        self.core.bus()
    }

    // u8, not Position: the number is what was promised, and callers print it.
    /// The position of the key: a question that changes nothing.
    pub fn key_position(&self) -> u8
        ensures { result ≡ number_of self.now.key.position }
    {
        u8::from(self.key.position())
    }
}
