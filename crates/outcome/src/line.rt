ghost use Rattle.std.specs.Prelude.{[], ◌∷◌};
ghost use Rattle.queue.specs.Rows.{queued};
ghost use Rattle.outcome.specs.Texts.{Adds, hex, ending_text, registers_text, record_text, trace_text, shown_text, fields_text, line_text};
ghost use Rattle.outcome.specs.PeripheralTexts.{device_line_text};

use crate::hex::add_hex;
use crate::peripherals::{Devices, add_devices};
use crate::shown::Shown;
use model::Record;
use queue::Queue;
use std::alloc::AllocError;
use tape::orders::TapeFault;

/// Adds how a tape ended: `C` and the commands obeyed, or `F` and the denial, the place and the letter.
pub fn add_ending(text: &mut Vec<u8>, ending: Result<usize, TapeFault>) -> Result<(), AllocError>
    ensures { Adds result text.old.items text.new.items (ending_text ending) }
{
    match ending {
        Ok(obeyed) => {
            text.push(b'C')?;
            add_hex(text, 5, obeyed as u64)?;
        }
        Err(fault) => {
            text.push(b'F')?;
            add_hex(text, 1, u64::from(u8::from(fault.denial)))?;
            add_hex(text, 5, fault.place as u64)?;
            add_hex(text, 2, u64::from(fault.letter.unwrap_or(0)))?;
        }
    }
    Ok(())
}

/// Adds registers, 8 digits for each.
pub fn add_registers(text: &mut Vec<u8>, registers: &[u32]) -> Result<(), AllocError>
    ensures { Adds result text.old.items text.new.items (registers_text registers.now) }
{
    for register in registers {
        add_hex(text, 8, u64::from(*register))?;
    }
    Ok(())
}

/// Adds a record of the trace: the cause in 1 digit, the status in 8, the Location Counter in 5, the interrupt status in 2.
fn add_record(text: &mut Vec<u8>, item: Record) -> Result<(), AllocError>
    ensures { Adds result text.old.items text.new.items (record_text item) }
{
    add_hex(text, 1, u64::from(u8::from(item.cause)))?;
    add_hex(text, 8, u64::from(item.status))?;
    add_hex(text, 5, u64::from(item.location))?;
    add_hex(text, 2, u64::from(item.faults))
}

/// Adds the number of records in 2 digits, then each record, the oldest first.
pub fn add_trace(text: &mut Vec<u8>, trace: &Queue<'_, Record>) -> Result<(), AllocError>
    ensures { Adds result text.old.items text.new.items (trace_text (queued trace.now)) }
{
    add_hex(text, 2, trace.len() as u64)?;
    for item in trace {
        add_record(text, *item)?;
    }
    Ok(())
}

/// Adds a space and a number.
fn add_field(text: &mut Vec<u8>, places: u32, value: u64) -> Result<(), AllocError>
    ensures { Adds result text.old.items text.new.items (32 ∷ hex places value) }
{
    text.push(b' ')?;
    add_hex(text, places, value)
}

/// Adds a space and registers.
fn add_set(text: &mut Vec<u8>, registers: &[u32]) -> Result<(), AllocError>
    ensures { Adds result text.old.items text.new.items (32 ∷ registers_text registers.now) }
{
    text.push(b' ')?;
    add_registers(text, registers)
}

/// Adds the fields of a processor: the Location Counter, the status, both register sets, the segmentation registers and the
/// interrupt status, a space before each.
fn add_shown(text: &mut Vec<u8>, shown: &Shown) -> Result<(), AllocError>
    ensures { Adds result text.old.items text.new.items (shown_text shown.now) }
{
    add_field(text, 5, u64::from(shown.location))?;
    add_field(text, 8, u64::from(shown.status))?;
    add_set(text, &shown.lower)?;
    add_set(text, &shown.upper)?;
    add_set(text, &shown.segments)?;
    add_field(text, 2, u64::from(shown.interrupt_status))
}

/// Adds the fields of an outcome: how the tape ended, the fields of the processor, the trace and the digest of the store.
fn add_fields(
    text: &mut Vec<u8>,
    ending: Result<usize, TapeFault>,
    shown: &Shown,
    trace: &Queue<'_, Record>,
    digest: u64,
) -> Result<(), AllocError>
    ensures { Adds result text.old.items text.new.items (fields_text ending shown.now (queued trace.now) digest) }
{
    add_ending(text, ending)?;
    add_shown(text, shown)?;
    text.push(b' ')?;
    add_trace(text, trace)?;
    add_field(text, 16, digest)
}

/// Adds a newline.
fn end_line(text: &mut Vec<u8>) -> Result<(), AllocError>
    ensures { Adds result text.old.items text.new.items (10 ∷ []) }
{
    text.push(b'\n')?;
    Ok(())
}

/// Adds the line of an outcome: its fields and a newline.
pub fn add_line(
    text: &mut Vec<u8>,
    ending: Result<usize, TapeFault>,
    shown: &Shown,
    trace: &Queue<'_, Record>,
    digest: u64,
) -> Result<(), AllocError>
    ensures { Adds result text.old.items text.new.items (line_text ending shown.now (queued trace.now) digest) }
{
    add_fields(text, ending, shown, trace, digest)?;
    end_line(text)
}

/// Adds the line of an outcome over devices: its fields, what the devices show, and a newline.
pub fn add_device_line(
    text: &mut Vec<u8>,
    ending: Result<usize, TapeFault>,
    shown: &Shown,
    trace: &Queue<'_, Record>,
    digest: u64,
    devices: &Devices,
) -> Result<(), AllocError>
    ensures { Adds result text.old.items text.new.items (device_line_text ending shown.now (queued trace.now) digest devices.now) }
{
    add_fields(text, ending, shown, trace, digest)?;
    add_devices(text, devices)?;
    end_line(text)
}
