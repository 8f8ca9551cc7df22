//! The chip file of a run: it is held, loaded and saved.
ghost use Rattle.std.specs.Prelude.{◌≡◌, IfOk, ◌≤◌, true, Ok, length};
ghost use Rattle.avr_io.specs.Fault.{CountsNeverFall};
ghost use Rattle.avr_tool.specs.Holding.{LocksAndLoads};
ghost use Rattle.ghosts.specs.Preserves.{Preserves};
ghost use Rattle.avr_part.specs.State.{fresh_state};
ghost use Rattle.avr_io.specs.StageRuns.{OnlyAtStart, RunsStage};
ghost use Rattle.avr_io.specs.Stage.{result_stage};
ghost use Rattle.avr_tool.specs.Loading.{AtOpened, chip_or_line, chip_stage};
ghost use Rattle.avr_part.specs.ChipFile.{chip_file};
ghost use Rattle.avr_tool.specs.Saving.{SavesChip, SavesAfterRun};

use crate::messages::{in_use_message, length_message};
use avr_io::{
    ChipDesk, Desk, FileFault, file_message, memory_message, not_written_message, read_file,
    refuse, too_long_message,
};
use avr_part::{Chip, Part, PartFault};
use std::alloc::Global;

/// Locks this file, so that no other run can use it, and loads the chip of this part from it, as [`load_chip`] does.
/// The lock lasts until [`crate::save_chip`] or [`ChipDesk::release`].
///
/// # Errors
///
/// The status 1 if another run has locked the file, or if [`load_chip`] refuses it. It is also 1 if the file could
/// not be saved later, because its folder is missing or read-only. The line of the reason was printed, as far as the
/// desk takes it, and the file isn't locked.
pub fn hold_chip<D: ChipDesk>(
    alloc: Global,
    part: &Part,
    file: &str,
    desk: &mut D,
) -> Result<Chip, u8>
    ensures loads { LocksAndLoads part.now file.now (D.view desk.old) (D.view desk.new) result }
    ensures part { IfOk result (λ c. c.part ≡ part.now) }
    ensures follows { CountsNeverFall (D.view desk.old) (D.view desk.new) }
    ensures stays { Preserves D.started_as desk.old desk.new }
{
    match desk.hold(file) {
        Ok(true) => {}
        Ok(false) => return Err(refuse(desk, &in_use_message(file))),
        Err(_) => return Err(refuse(desk, &not_written_message(file))),
    }
    match load_chip(alloc, part, file, desk) {
        Ok(chip) => Ok(chip),
        Err(status) => {
            desk.release();
            Err(status)
        }
    }
}

/// The most bytes of a chip file, whatever the part.
const LARGEST_CHIP_FILE: usize = 4_194_304;

/// Creates a fresh chip, or reports that allocation failed.
fn fresh_chip<D: Desk>(alloc: Global, part: &Part, desk: &mut D) -> Result<Chip, u8>
    ensures goes { RunsStage (OnlyAtStart true) (result_stage (Ok (fresh_state part.now))) (D.view desk.old)
        (D.view desk.new) result }
    ensures part { IfOk result (λ c. c.part ≡ part.now) }
    ensures stays { Preserves D.started_as desk.old desk.new }
{
    match Chip::fresh(alloc, part.copied()) {
        Ok(chip) => Ok(chip),
        Err(_) => Err(refuse(desk, &memory_message())),
    }
}

/// Creates the chip in the bytes of a file, or reports why they hold none.
fn chip_of<D: Desk>(
    alloc: Global,
    part: &Part,
    file: &str,
    bytes: &[u8],
    desk: &mut D,
) -> Result<Chip, u8>
    requires { length bytes.now ≤ LARGEST_CHIP_FILE }
    ensures goes { RunsStage (OnlyAtStart true) (result_stage (chip_or_line part.now file.now bytes.now))
        (D.view desk.old) (D.view desk.new) result }
    ensures part { IfOk result (λ c. c.part ≡ part.now) }
    ensures stays { Preserves D.started_as desk.old desk.new }
{
    match Chip::from_bytes(alloc, part.copied(), bytes) {
        Ok(chip) => Ok(chip),
        Err(PartFault::BadChipFile(_)) => {
            let found = bytes.len() as u32;
            Err(refuse(desk, &length_message(file, found, part.chip_file_size())))
        }
        // the only other fault is that allocation failed
        Err(_) => Err(refuse(desk, &memory_message())),
    }
}

/// Loads the chip of this part from its file, or a fresh chip if the file doesn't exist.
///
/// The file is read to its end, or until more than 4,194,304 bytes have come. The chip loaded has empty buffers.
///
/// # Errors
///
/// The status 1 if the file can't be opened or can't be read to its end, or if allocation fails. It is also 1 if the
/// file has any length but the part's: flash, EEPROM and 4 bytes, 33,796 for `m328p`. The line of the reason was
/// printed, as far as the desk takes it.
pub fn load_chip<D: Desk>(alloc: Global, part: &Part, file: &str, desk: &mut D) -> Result<Chip, u8>
    ensures goes { RunsStage AtOpened (chip_stage part.now file.now) (D.view desk.old) (D.view desk.new) result }
    ensures part { IfOk result (λ c. c.part ≡ part.now) }
    ensures stays { Preserves D.started_as desk.old desk.new }
{
    let contents = match read_file(alloc, desk, file, LARGEST_CHIP_FILE) {
        Ok(contents) => contents,
        Err(fault) => {
            return match fault {
                FileFault::Absent => fresh_chip(alloc, part, desk),
                _ => Err(refuse(desk, &file_message(file, fault))),
            };
        }
    };
    if !contents.ended {
        return Err(refuse(desk, &too_long_message(file, LARGEST_CHIP_FILE as u32)));
    }
    chip_of(alloc, part, file, contents.bytes.as_slice(), desk)
}

/// Saves a chip: replaces the file by the chip's memories, whole, as [`crate::load_chip`] reads them. The file is
/// then unlocked.
///
/// # Errors
///
/// The status 1 if the file can't be replaced or allocation fails. The line of the reason was printed, as far as the
/// desk takes it. The file is as it was, unless the desk replaced it before it failed.
pub fn save_chip<D: ChipDesk>(chip: &Chip, file: &str, desk: &mut D) -> Result<(), u8>
    ensures saves { SavesChip (D.view desk.old) (D.view desk.new) file.now (chip_file chip.now) result }
    ensures follows { CountsNeverFall (D.view desk.old) (D.view desk.new) }
    ensures stays { Preserves D.started_as desk.old desk.new }
{
    let bytes = match chip.to_bytes() {
        Ok(bytes) => bytes,
        Err(_) => {
            desk.release();
            return Err(refuse(desk, &memory_message()));
        }
    };
    match desk.replace(file, bytes.as_slice()) {
        Ok(()) => Ok(()),
        Err(_) => {
            desk.release();
            Err(refuse(desk, &not_written_message(file)))
        }
    }
}

/// Saves a chip, and returns this status, or 1 if the chip can't be saved.
pub(crate) fn save_after<D: ChipDesk>(chip: &Chip, file: &str, desk: &mut D, status: u8) -> u8
    ensures saved { SavesAfterRun status (D.view desk.old) (D.view desk.new) file.now (chip_file chip.now) result }
    ensures follows { CountsNeverFall (D.view desk.old) (D.view desk.new) }
    ensures stays { Preserves D.started_as desk.old desk.new }
{
    match save_chip(chip, file, desk) {
        Ok(()) => status,
        Err(_) => 1,
    }
}
