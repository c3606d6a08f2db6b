ghost use Rattle.std.specs.Prelude.{◌≡◌, ◌≤◌, length, IfOk, MatchResult};
ghost use Rattle.bus.specs.Touches.{Becomes};
ghost use Rattle.queue.specs.Rows.{SameSlots, Extended};
ghost use Rattle.tape.specs.Commands.{next_of};
ghost use Rattle.console.specs.Tape.{Obeyed, Played, Advances, StopsAt};

use crate::key::{Key, KeyGuard};
use crate::registers_at::set_item;
use crate::store_at::deposit_at;
use bus::meaning::Bus;
use model::{Denial, Record};
use processor::cpu::Core;
use queue::Queue;
use steps::run::run;
use store::meaning::Store;
use tape::commands::read_command;
use tape::faults::Located;
use tape::orders::{Order, TapeFault};

/// Obeys one command, and answers the address of the next deposit, which is at `address` before. With the key ON no call is denied
/// for the key.
#[tactic(auto, using(bus::proofs::Touches::becomes_same))]
fn obey<S: Store, B: Bus>(
    core: &mut Core<S, B>,
    order: Order,
    address: u32,
    trace: &mut Queue<'_, Record>,
) -> Result<u32, Denial>
    ensures does { Obeyed S.Store.meaning B.Bus.devices address order core.old trace.old result core.new trace.new }
    ensures next { IfOk result (λ n. n ≡ next_of address order) }
    ensures touches { Becomes B.Bus.touched core.old.bus core.new.bus }
    ensures same { SameSlots trace.old trace.new }
    ensures extended { Extended trace.old trace.new }
{
    match order {
        Order::Point(next) => Ok(next),
        Order::Deposit(word) => {
            deposit_at(core, address, word)?;
            Ok(address + 2)
        }
        Order::Set(item, value) => {
            set_item(core, item, value)?;
            Ok(address)
        }
        Order::Go(count) => {
            run(core, trace, count)?;
            Ok(address)
        }
    }
}

/// The rest of a tape: the address of the next deposit, and the bytes that are still to be read.
#[derive(Clone, Copy)]
struct Rest<'t> {
    address: u32,
    bytes: &'t [u8],
}

/// Reads the command at a letter and obeys it.
#[tactic(auto, using(bus::proofs::Touches::becomes_same))]
fn obey_next<'t, S: Store, B: Bus>(
    core: &mut Core<S, B>,
    letter: u8,
    bytes: &'t [u8],
    address: u32,
    trace: &mut Queue<'_, Record>,
) -> Result<Rest<'t>, Denial>
    ensures does { MatchResult result
        (λ r. Advances S.Store.meaning B.Bus.devices letter bytes.now address core.old trace.old r.bytes.now r.address core.new trace.new)
        (λ d. StopsAt S.Store.meaning B.Bus.devices letter bytes.now address core.old trace.old d core.new trace.new) }
    ensures shorter { IfOk result (λ r. length r.bytes.now ≤ length bytes.now) }
    ensures touches { Becomes B.Bus.touched core.old.bus core.new.bus }
    ensures same { SameSlots trace.old trace.new }
    ensures extended { Extended trace.old trace.new }
{
    let command = read_command(letter, bytes)?;
    let address = obey(core, command.order, address, trace)?;
    Ok(Rest {
        address,
        bytes: command.rest,
    })
}

// while let and a count, no iterator: a slice pattern takes the letter (a rule of the project), and a command takes as many bytes as its operand has.
/// Obeys the commands of a tape, up to the first that is denied.
#[tactic(auto, using(bus::proofs::Touches::becomes_then))]
fn obey_all<S: Store, B: Bus>(
    core: &mut Core<S, B>,
    tape: &[u8],
    trace: &mut Queue<'_, Record>,
) -> Result<usize, TapeFault>
    ensures played { Played S.Store.meaning B.Bus.devices tape.now core.old trace.old result core.new trace.new }
    ensures touches { Becomes B.Bus.touched core.old.bus core.new.bus }
    ensures same { SameSlots trace.old trace.new }
    ensures extended { Extended trace.old trace.new }
{
    let mut rest = tape;
    let mut address = 0;
    let mut obeyed = 0;
    while let [letter, bytes @ ..] = rest {
        let place = tape.len() - rest.len();
        let letter = *letter;
        let next = obey_next(core, letter, bytes, address, trace).map_err(|denial| Located {
            denial,
            place,
            letter,
        })?;
        address = next.address;
        obeyed += 1;
        rest = next.bytes;
    }
    Ok(obeyed)
}

/// Plays a tape with the key ON; when the guard is dropped, the key is back where it was.
#[tactic(auto, using(bus::proofs::Touches::becomes_same))]
pub(crate) fn play_on<S: Store, B: Bus>(
    key: &mut Key,
    core: &mut Core<S, B>,
    tape: &[u8],
    trace: &mut Queue<'_, Record>,
) -> Result<usize, TapeFault>
    ensures back { key.new ≡ key.old }
    ensures played { Played S.Store.meaning B.Bus.devices tape.now core.old trace.old result core.new trace.new }
    ensures touches { Becomes B.Bus.touched core.old.bus core.new.bus }
    ensures same { SameSlots trace.old trace.new }
    ensures extended { Extended trace.old trace.new }
{
    let _guard = KeyGuard::turn_on(key);
    obey_all(core, tape, trace)
}
