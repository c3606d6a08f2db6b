ghost use Rattle.std.specs.Prelude.{◌≡◌};
ghost use Rattle.bus.specs.Touches.{Becomes};
ghost use Rattle.queue.specs.Rows.{queued, capacity, SameSlots, Extended};
ghost use Rattle.outcome.specs.Peripherals.{shown_of};
ghost use Rattle.outcome.specs.Outcomes.{PlaysOn, PlaysTo, PlaysOver, left_by};

use crate::peripherals::{Devices, devices_of};
use crate::shown::{Shown, shown_by};
use bus::meaning::Bus;
use bus::silent::SilentBus;
use buses::drives::Drives;
use buses::teletype::Teletype;
use console::machine::Machine;
use joined::JoinedBus;
use model::Record;
use queue::Queue;
use store::boards::CoreBoards;
use tape::orders::TapeFault;

/// What a tape leaves: how it ended, what the console then shows, and the words of the store.
#[derive(Drop)]
pub struct Outcome<'w> {
    pub ending: Result<usize, TapeFault>,
    pub shown: Shown,
    pub words: &'w mut [u16],
}

/// What a tape leaves over a teletype and drives: what these show, and the queue of the bytes that wait, come with it.
#[derive(Drop)]
pub struct DevicesOutcome<'w, 'k> {
    pub outcome: Outcome<'w>,
    pub devices: Devices,
    pub keys: Queue<'k, u8>,
}

/// Plays a tape on a new machine with core boards of the words and a bus. The bus comes back as the tape leaves it: reads, writes and
/// commands made it so.
fn play_over<'w, B: Bus>(
    bus: B,
    tape: &[u8],
    words: &'w mut [u16],
    trace: &mut Queue<'_, Record>,
) -> (Outcome<'w>, B)
    ensures plays { PlaysOn (B.Bus.devices bus) (capacity trace.old) tape.now words.old (queued trace.old) (left_by result.0 trace.new) (B.Bus.devices result.1) }
    ensures touches { Becomes B.Bus.touched bus result.1 }
    ensures extended { Extended trace.old trace.new }
    ensures same { SameSlots trace.old trace.new }
{
    let mut machine = Machine::make(CoreBoards::new(words), bus);
    let ending = machine.play(tape, trace);
    let shown = shown_by(&mut machine);
    let (boards, bus) = machine.into_parts();
    let words = boards.into_words();
    (
        Outcome {
            ending,
            shown,
            words,
        },
        bus,
    )
}

/// Plays a tape on a new machine with core boards of the words and a silent bus, and shows what the console shows afterwards, after
/// a fault too. The words come back as the tape leaves them, without those past the limit of a store; the records that it adds to the
/// trace stand in the free slots, and the slots behind them hold what they held.
pub fn play_new<'w>(tape: &[u8], words: &'w mut [u16], trace: &mut Queue<'_, Record>) -> Outcome<'w>
    ensures plays { PlaysTo tape.now words.old trace.old result trace.new }
    ensures extended { Extended trace.old trace.new }
    ensures same { SameSlots trace.old trace.new }
{
    let (outcome, _bus) = play_over(SilentBus {}, tape, words, trace);
    outcome
}

/// An outcome, with what the devices show and the queue of the teletype.
fn with_devices<'w, 'k>(
    outcome: Outcome<'w>,
    bus: JoinedBus<Teletype<'k>, Drives>,
) -> DevicesOutcome<'w, 'k>
    ensures outcome { result.outcome ≡ outcome.entry }
    ensures devices { result.devices ≡ shown_of (queued bus.entry.first.waiting) bus.entry.first.usage bus.entry.second.drives }
    ensures keys { result.keys ≡ bus.entry.first.waiting }
{
    let devices = devices_of(&bus);
    let (teletype, _drives) = bus.into_parts();
    DevicesOutcome {
        outcome,
        devices,
        keys: teletype.into_queue(),
    }
}

/// The same on a machine with a teletype, for which the keys wait, and the eight drives; what these two show afterwards comes with it,
/// and so does the queue: the oldest keys are gone, one for each read of the teletype, and the others wait; its slots hold what they held.
/// A drive stands at the position that the last whole pair of bytes written to it says, or at 0, and its latest data is the last byte
/// written, or 0. Reads and writes are counted modulo 2^32.
pub fn play_devices<'w, 'k>(
    tape: &[u8],
    words: &'w mut [u16],
    keys: Queue<'k, u8>,
    trace: &mut Queue<'_, Record>,
) -> DevicesOutcome<'w, 'k>
    ensures plays { PlaysOver tape.now words.old keys.entry trace.old result trace.new }
    ensures extended { Extended trace.old trace.new }
    ensures same { SameSlots trace.old trace.new }
{
    let bus = JoinedBus::new(Teletype::new(keys), Drives::new());
    let (outcome, bus) = play_over(bus, tape, words, trace);
    with_devices(outcome, bus)
}
