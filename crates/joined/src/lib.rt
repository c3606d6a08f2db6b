//! Two buses joined as one.
#![tactic(auto)]

ghost use Rattle.std.specs.Prelude.{◌≡◌, true, false};
ghost use Rattle.joined.specs.Parts.{joined, lower_of, OneTouched};
ghost use Rattle.bus.specs.Devices.{Reads, Writes, Commands};

use bus::meaning::Bus;
use bus::usage::Usage;

// `new` and `into_parts` are as in BankPair: the parts are buses here and stores there, and no other method is shared.
/// Two buses as one: a device that answers on the first is the first's in everything, any other is the second's.
#[derive(Drop)]
pub struct JoinedBus<A, B> {
    first: A,
    second: B,
}

impl<A, B> JoinedBus<A, B> {
    /// The two buses as one.
    pub fn new(first: A, second: B) -> JoinedBus<A, B>
        ensures before { result.first ≡ first }
        ensures after { result.second ≡ second }
    {
        JoinedBus { first, second }
    }

    /// The first bus.
    pub fn first(&self) -> &A
        ensures { result.now ≡ self.now.first }
    {
        &self.first
    }

    /// The second bus.
    pub fn second(&self) -> &B
        ensures { result.now ≡ self.now.second }
    {
        &self.second
    }

    /// The two buses as they are now.
    pub fn into_parts(self) -> (A, B)
        ensures before { result.0 ≡ self.first }
        ensures after { result.1 ≡ self.second }
    {
        (self.first, self.second)
    }
}

/// The lower of two device numbers, where there is one.
fn lower(first: Option<u8>, second: Option<u8>) -> Option<u8>
    ensures { result ≡ lower_of first second }
{
    match (first, second) {
        (Some(a), Some(b)) => Some(a.min(b)),
        (Some(a), None) => Some(a),
        (None, b) => b,
    }
}

// Each method asks which bus has the device: one that handed out a `&dyn Bus` for either is refused (a rule of the gate).
impl<A: Bus, B: Bus> Bus for JoinedBus<A, B> {
    ghost devices = { λ j. joined (A.Bus.devices j.first) (B.Bus.devices j.second) };

    ghost touched = { λ j k. OneTouched A.Bus.touched B.Bus.touched j.first k.first j.second k.second };

    fn answers(&self, device: u8) -> bool {
        self.first.answers(device) || self.second.answers(device)
    }

    fn status(&self, device: u8) -> u8 {
        if self.first.answers(device) {
            self.first.status(device)
        } else {
            self.second.status(device)
        }
    }

    fn offer(&self, device: u8) -> u8 {
        if self.first.answers(device) {
            self.first.offer(device)
        } else {
            self.second.offer(device)
        }
    }

    fn requests(&self, device: u8) -> bool {
        if self.first.answers(device) {
            self.first.requests(device)
        } else {
            self.second.requests(device)
        }
    }

    fn usage(&self, device: u8) -> Usage {
        if self.first.answers(device) {
            self.first.usage(device)
        } else {
            self.second.usage(device)
        }
    }

    fn requesting(&self) -> Option<u8> {
        let start = lower(self.first.requesting(), self.second.requesting())?;
        self.requesting_from(start)
    }

    /// The bus that does not have the device stays as it is, and so do the other devices of the bus that has it.
    fn read(&mut self, device: u8) -> u8
        requires { (⟦<JoinedBus<A, B> as Bus>⟧.devices self.old device).answers ≡ true }
        ensures value { result ≡ (⟦<JoinedBus<A, B> as Bus>⟧.devices self.old device).offer }
        ensures counted { Reads device (⟦<JoinedBus<A, B> as Bus>⟧.devices self.old) (⟦<JoinedBus<A, B> as Bus>⟧.devices self.new) }
        ensures before { (A.Bus.devices self.old.first device).answers ≡ false → self.new.first ≡ self.old.first }
        ensures after { (A.Bus.devices self.old.first device).answers ≡ true → self.new.second ≡ self.old.second }
        ensures first { (A.Bus.devices self.old.first device).answers ≡ true → Reads device (A.Bus.devices self.old.first) (A.Bus.devices self.new.first) }
        ensures second { (A.Bus.devices self.old.first device).answers ≡ false → Reads device (B.Bus.devices self.old.second) (B.Bus.devices self.new.second) }
        ensures touches { OneTouched A.Bus.touched B.Bus.touched self.old.first self.new.first self.old.second self.new.second }
    {
        if self.first.answers(device) {
            self.first.read(device)
        } else {
            self.second.read(device)
        }
    }

    /// The bus that does not have the device stays as it is, and so do the other devices of the bus that has it.
    fn write(&mut self, device: u8, byte: u8)
        requires { (⟦<JoinedBus<A, B> as Bus>⟧.devices self.old device).answers ≡ true }
        ensures counted { Writes device byte (⟦<JoinedBus<A, B> as Bus>⟧.devices self.old) (⟦<JoinedBus<A, B> as Bus>⟧.devices self.new) }
        ensures before { (A.Bus.devices self.old.first device).answers ≡ false → self.new.first ≡ self.old.first }
        ensures after { (A.Bus.devices self.old.first device).answers ≡ true → self.new.second ≡ self.old.second }
        ensures first { (A.Bus.devices self.old.first device).answers ≡ true → Writes device byte (A.Bus.devices self.old.first) (A.Bus.devices self.new.first) }
        ensures second { (A.Bus.devices self.old.first device).answers ≡ false → Writes device byte (B.Bus.devices self.old.second) (B.Bus.devices self.new.second) }
        ensures touches { OneTouched A.Bus.touched B.Bus.touched self.old.first self.new.first self.old.second self.new.second }
    {
        if self.first.answers(device) {
            self.first.write(device, byte);
        } else {
            self.second.write(device, byte);
        }
    }

    /// The bus that does not have the device stays as it is, and so do the other devices of the bus that has it.
    fn command(&mut self, device: u8, byte: u8)
        requires { (⟦<JoinedBus<A, B> as Bus>⟧.devices self.old device).answers ≡ true }
        ensures counted { Commands device byte (⟦<JoinedBus<A, B> as Bus>⟧.devices self.old) (⟦<JoinedBus<A, B> as Bus>⟧.devices self.new) }
        ensures before { (A.Bus.devices self.old.first device).answers ≡ false → self.new.first ≡ self.old.first }
        ensures after { (A.Bus.devices self.old.first device).answers ≡ true → self.new.second ≡ self.old.second }
        ensures first { (A.Bus.devices self.old.first device).answers ≡ true → Commands device byte (A.Bus.devices self.old.first) (A.Bus.devices self.new.first) }
        ensures second { (A.Bus.devices self.old.first device).answers ≡ false → Commands device byte (B.Bus.devices self.old.second) (B.Bus.devices self.new.second) }
        ensures touches { OneTouched A.Bus.touched B.Bus.touched self.old.first self.new.first self.old.second self.new.second }
    {
        if self.first.answers(device) {
            self.first.command(device, byte);
        } else {
            self.second.command(device, byte);
        }
    }
}
