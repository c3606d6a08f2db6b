ghost use Rattle.std.specs.Prelude.{◌≡◌, ◌++◌, ◌∷◌};
ghost use Rattle.queue.specs.Rows.{queued};
ghost use Rattle.outcome.specs.Peripherals.{drive_of, all_drives, shown_of};
ghost use Rattle.outcome.specs.PeripheralTexts.{usage_text, drive_text, drives_text, devices_text};
ghost use Rattle.outcome.specs.Texts.{Adds};

use crate::hex::add_hex;
use bus::meaning::Bus;
use bus::usage::Usage;
use buses::drives::Drives;
use buses::teletype::Teletype;
use joined::JoinedBus;
use std::alloc::AllocError;

/// The device number of the teletype, and that of the first drive.
const TELETYPE: u8 = 2;

const FIRST: u8 = 16;

/// The use of a drive, and its position.
#[derive(Clone, Copy)]
pub struct DriveShown {
    pub usage: Usage,
    pub position: u16,
}

/// What a teletype and the eight drives show: how each was used, how many bytes wait, the positions.
#[derive(Clone, Copy)]
pub struct Devices {
    pub teletype: Usage,
    pub waiting: usize,
    pub drives: [DriveShown; 8],
}

/// The use and the position of a drive by its device number; a drive that was not used, if there is none.
fn drive_of(drives: &Drives, device: u8) -> DriveShown
    ensures { result ≡ drive_of drives.now.drives device }
{
    DriveShown {
        usage: drives.usage(device),
        position: drives.position(device).unwrap_or(0),
    }
}

/// The uses and the positions of the eight drives.
fn all_drives(drives: &Drives) -> [DriveShown; 8]
    ensures { result ≡ all_drives drives.now.drives }
{
    let mut shown = [drive_of(drives, FIRST); 8];
    for number in 0..8u8 {
        shown[usize::from(number)] = drive_of(drives, FIRST + number);
    }
    shown
}

/// What a teletype and the drives show, joined as one bus.
pub fn devices_of(bus: &JoinedBus<Teletype<'_>, Drives>) -> Devices
    ensures { result ≡ shown_of (queued bus.now.first.waiting) bus.now.first.usage bus.now.second.drives }
{
    let teletype = bus.first();
    Devices {
        teletype: teletype.usage(TELETYPE),
        waiting: teletype.waiting(),
        drives: all_drives(bus.second()),
    }
}

/// Adds the use of a device: the latest data and command in 2 digits each, the reads, writes and commands in 8 each.
fn add_usage(text: &mut Vec<u8>, usage: Usage) -> Result<(), AllocError>
    ensures { Adds result text.old.items text.new.items (usage_text usage) }
{
    add_hex(text, 2, u64::from(usage.latest))?;
    add_hex(text, 2, u64::from(usage.command))?;
    add_hex(text, 8, u64::from(usage.reads))?;
    add_hex(text, 8, u64::from(usage.writes))?;
    add_hex(text, 8, u64::from(usage.commands))
}

/// Adds the use of a drive, and its position in 4 digits.
fn add_drive(text: &mut Vec<u8>, drive: DriveShown) -> Result<(), AllocError>
    ensures { Adds result text.old.items text.new.items (drive_text drive) }
{
    add_usage(text, drive.usage)?;
    add_hex(text, 4, u64::from(drive.position))
}

/// Adds what drives show, one after the other.
fn add_drives(text: &mut Vec<u8>, drives: &[DriveShown]) -> Result<(), AllocError>
    ensures { Adds result text.old.items text.new.items (drives_text drives.now) }
{
    for drive in drives {
        add_drive(text, *drive)?;
    }
    Ok(())
}

/// Adds a space, the use of the teletype and the number of bytes that wait, in 4 digits, and a space and what the drives show.
pub fn add_devices(text: &mut Vec<u8>, devices: &Devices) -> Result<(), AllocError>
    ensures { Adds result text.old.items text.new.items (devices_text devices.now) }
{
    text.push(b' ')?;
    add_usage(text, devices.teletype)?;
    add_hex(text, 4, devices.waiting as u64)?;
    text.push(b' ')?;
    add_drives(text, &devices.drives)
}
