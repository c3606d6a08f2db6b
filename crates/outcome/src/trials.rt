ghost use Rattle.std.specs.Prelude.{◌≡◌, ◌<◌, length, take, IfOk, IfSome, MatchOption};
ghost use Rattle.queue.specs.Rows.{queued};
ghost use Rattle.outcome.specs.Trials.{BeginsWithBytes, HasNoBytes, BeginsWithTrial, HasNoTrial, LineOf, SilentLine, DevicesLine, trial_of};

use crate::digest::store_digest;
use crate::line::{add_device_line, add_line};
use crate::played::{play_devices, play_new};
use model::BLANK;
use queue::Queue;
use session::session::{STORE_HALFWORDS, TRACE_RECORDS};
use std::alloc::{AllocError, Global};

/// The keys that wait for a teletype at most.
const KEY_LIMIT: usize = 64;

/// A tape to be played.
#[derive(Clone, Copy)]
pub enum Trial<'a> {
    /// Over a silent bus.
    Silent { tape: &'a [u8] },
    /// Over a teletype, for which the keys wait, and the drives.
    OverDevices { keys: &'a [u8], tape: &'a [u8] },
}

/// The bytes at the front of an input that stand behind their length, 4 bytes, the more significant first, and what comes after them;
/// none if the input is at its end, or cut short.
fn next_bytes(input: &[u8]) -> Option<(&[u8], &[u8])>
    ensures { MatchOption result (HasNoBytes input.now) (λ p. BeginsWithBytes input.now p.0.now p.1.now) }
{
    let (length, rest) = input.split_first_chunk::<4>()?;
    rest.split_at_checked(u32::from_be_bytes(*length) as usize)
}

/// The trial at the front of an input, and what comes after it. A trial is the letter `S` and a tape, or `D`, keys and a tape; the keys
/// and the tape stand each behind their length, 4 bytes, the more significant first. None if the input begins with no whole trial.
pub fn next_trial(input: &[u8]) -> Option<(Trial<'_>, &[u8])>
    ensures read { MatchOption result (HasNoTrial input.now) (λ p. BeginsWithTrial input.now (trial_of p.0) p.1.now) }
    ensures shorter { IfSome result (λ p. length p.1.now < length input.now) }
{
    let (letter, rest) = input.split_first()?;
    match *letter {
        b'S' => {
            let (tape, rest) = next_bytes(rest)?;
            Some((Trial::Silent { tape }, rest))
        }
        b'D' => {
            let (keys, rest) = next_bytes(rest)?;
            let (tape, rest) = next_bytes(rest)?;
            Some((Trial::OverDevices { keys, tape }, rest))
        }
        _ => None,
    }
}

/// A queue over the slots with the keys in it, as many as fit.
fn queue_of<'a>(slots: &'a mut [u8], keys: &[u8]) -> Queue<'a, u8>
    ensures { queued result ≡ take (length slots.old) keys.now }
{
    let mut queue = Queue::new(slots);
    for key in keys {
        let _ = queue.push(*key);
    }
    queue
}

/// The line that a tape leaves over a silent bus.
fn silent_line(heap: Global, tape: &[u8]) -> Result<Vec<u8>, AllocError>
    ensures { IfOk result (λ line. SilentLine tape.now line.items) }
{
    let mut line = Vec::new(heap);
    let mut words = vec![in heap; 0u16; STORE_HALFWORDS]?;
    let mut slots = [BLANK; TRACE_RECORDS];
    let mut trace = Queue::new(&mut slots);
    let outcome = play_new(tape, &mut words, &mut trace);
    let digest = store_digest(outcome.words);
    add_line(&mut line, outcome.ending, &outcome.shown, &trace, digest)?;
    Ok(line)
}

/// The line that a tape leaves over a teletype, for which the keys wait, and the drives.
fn devices_line(heap: Global, keys: &[u8], tape: &[u8]) -> Result<Vec<u8>, AllocError>
    ensures { IfOk result (λ line. DevicesLine keys.now tape.now line.items) }
{
    let mut line = Vec::new(heap);
    let mut words = vec![in heap; 0u16; STORE_HALFWORDS]?;
    let mut slots = [BLANK; TRACE_RECORDS];
    let mut trace = Queue::new(&mut slots);
    let mut key_slots = [0; KEY_LIMIT];
    let waiting = queue_of(&mut key_slots, keys);
    let played = play_devices(tape, &mut words, waiting, &mut trace);
    let outcome = played.outcome;
    let digest = store_digest(outcome.words);
    add_device_line(
        &mut line,
        outcome.ending,
        &outcome.shown,
        &trace,
        digest,
        &played.devices,
    )?;
    Ok(line)
}

/// The line that a trial leaves. Its machine is new: core boards of 32,768 words, all 0, and a trace of 64 records; of the keys the
/// first 64 wait. The line counts the keys that no read of the teletype took, and has each drive where the bytes written to it moved it.
/// The only error is want of memory.
pub fn trial_line(heap: Global, trial: Trial<'_>) -> Result<Vec<u8>, AllocError>
    ensures { IfOk result (λ line. LineOf (trial_of trial.entry) line.items) }
{
    match trial {
        Trial::Silent { tape } => silent_line(heap, tape),
        Trial::OverDevices { keys, tape } => devices_line(heap, keys, tape),
    }
}
