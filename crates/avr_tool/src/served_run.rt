ghost use Rattle.std.specs.Prelude.{◌≡◌, ◌≤◌, [], None, IfErr, false};
ghost use Rattle.avr_io.specs.Fault.{CountsNeverFall};
ghost use Rattle.avr_io.specs.StageRuns.{OnlyAtStart, RunsStage};
ghost use Rattle.avr_plan.specs.Planning.{LacksPart};
ghost use Rattle.avr_tool.specs.ServedRun.{ChecksPart, settings_part};
ghost use Rattle.avr_tool.specs.ServedRun.{RunsServedFor, ServesChip, ServesPart};
ghost use Rattle.avr_tool.specs.Ports.{HasChip, chip_file_of};
ghost use Rattle.avr_session.specs.Runs.{devices};
ghost use Rattle.ghosts.specs.Preserves.{Preserves};

use crate::chip_files::{hold_chip, save_after};
use crate::ending::{report_end, status_of_served};
use crate::ports::chip_file;
use crate::serving_link::serve_link;
use avr_io::{ChipDesk, Desk};
use avr_part::{Chip, Part};
use avr_plan::{Settings, chosen_part, given_parts};
use std::alloc::Global;
use stk_emu::Emulator;
use stk_host::Link;

/// The reads that [`serve`] allows.
pub const READS: u32 = 16_777_216;

/// Finds the part of the settings: in their part file, if there is one, then in the built-in parts.
fn find_part<D: Desk>(alloc: Global, settings: &Settings, desk: &mut D) -> Result<Part, u8>
    ensures goes { RunsStage (OnlyAtStart false) (settings_part settings.now) (D.view desk.old) (D.view desk.new)
        result }
    ensures bare { settings.now.parts ≡ None
        → IfErr result (λ status. LacksPart settings.now.part [] (D.view desk.old) (D.view desk.new)) }
    ensures stays { Preserves D.started_as desk.old desk.new }
{
    let parts = match given_parts(alloc, desk, &settings.parts) {
        Ok(parts) => parts,
        Err(_) => return Err(1),
    };
    chosen_part(desk, &parts, settings.part.as_str())
}

/// Returns the part of the settings after checking that a chip of it can be loaded from the chip file of their port,
/// which must have one. A server calls this before a client connects; the chip itself is loaded later.
///
/// # Errors
///
/// The status 1 if the part file, the part's name or the chip file is refused, or if another run has locked the chip
/// file. It is also 1 if the chip file could not be saved later, or if the desk or allocation fails. The line of the
/// reason was printed, as far as the desk takes it.
pub fn check_part<D: ChipDesk>(alloc: Global, settings: &Settings, desk: &mut D) -> Result<Part, u8>
    requires port { HasChip settings.now.port }
    ensures checks_out { ChecksPart settings.now (chip_file_of settings.now.port) (D.view desk.old) (D.view desk.new)
        result }
    ensures stays { Preserves D.started_as desk.old desk.new }
{
    let part = match find_part(alloc, settings, desk) {
        Ok(part) => part,
        Err(status) => return Err(status),
    };
    let _chip = match hold_chip(alloc, &part, chip_file(&settings.port), desk) {
        Ok(checked) => checked,
        Err(status) => return Err(status),
    };
    desk.release();
    Ok(part)
}

/// Serves a chip over a link in at most `turns` reads, reports how that ended, and saves the chip to this file.
///
/// A fresh programmer with this chip replies to what is received; all replies are sent before the next read. If the
/// link ends, no line is printed; any other ending prints its line. In each case the chip is saved as the frames
/// received have left it.
///
/// Returns the status: 0 if the link ended and the chip was saved, otherwise 1.
pub fn serve_chip<D: ChipDesk, L: Link>(
    alloc: Global,
    chip: Chip,
    file: &str,
    desk: &mut D,
    link: &mut L,
    turns: u32,
) -> u8
    ensures serves { ServesChip chip file.now turns (devices (L.view link.old) (D.view desk.old))
        (devices (L.view link.new) (D.view desk.new)) result }
    ensures follows { CountsNeverFall (D.view desk.old) (D.view desk.new) }
    ensures counted { (L.view link.old).failures ≤ (L.view link.new).failures }
    ensures comes { Preserves L.started_as link.old link.new }
    ensures stays { Preserves D.started_as desk.old desk.new }
{
    let mut emulator = Emulator::new(chip);
    let served = serve_link(&mut emulator, link, turns);
    report_end(served, desk);
    save_after(emulator.chip(), file, desk, status_of_served(served))
}

/// Serves the chip of this part over a link as [`serve_chip`] does. The chip is loaded from this file, or fresh if
/// the file doesn't exist. The file is locked until the chip is saved.
///
/// If the chip file is refused, the status is 1. Nothing is received or sent, and no file is written.
pub fn serve_part<D: ChipDesk, L: Link>(
    alloc: Global,
    part: &Part,
    file: &str,
    desk: &mut D,
    link: &mut L,
    turns: u32,
) -> u8
    ensures runs { ServesPart part.now file.now turns
        (devices (L.view link.old) (D.view desk.old)) (devices (L.view link.new) (D.view desk.new)) result }
    ensures follows { CountsNeverFall (D.view desk.old) (D.view desk.new) }
    ensures counted { (L.view link.old).failures ≤ (L.view link.new).failures }
    ensures comes { Preserves L.started_as link.old link.new }
    ensures stays { Preserves D.started_as desk.old desk.new }
{
    match hold_chip(alloc, part, file, desk) {
        Ok(chip) => serve_chip(alloc, chip, file, desk, link, turns),
        Err(status) => status,
    }
}

/// Serves the emulated programmer of the settings' part over a link, in at most `turns` reads. It does what
/// [`serve_part`] does, with the chip file of the settings' port. The port must have one.
///
/// If the part is refused, the status is 1. Nothing is received or sent, and no file is written.
///
/// ```text
/// let mut settings = Settings::for_link(alloc, "m328p")?;
/// let [port, chip] = [Text::new(alloc, "5000")?, Text::new(alloc, "chip.bin")?];
/// settings.port = Port::Served { port, chip };
/// let mut desk = MemDesk::empty(alloc);
/// let mut caller = TapeLink::new(alloc, vec![in alloc; Item::Silence; 5]?, 281);
/// assert_eq!(rt; serve_for(alloc, &settings, &mut desk, &mut caller, 3), 1);
/// assert!(rt; desk.messages() == b"avrstk: error: too many reads\n".as_slice());
/// ```
pub fn serve_for<D: ChipDesk, L: Link>(
    alloc: Global,
    settings: &Settings,
    desk: &mut D,
    link: &mut L,
    turns: u32,
) -> u8
    requires port { HasChip settings.now.port }
    ensures runs { RunsServedFor settings.now (chip_file_of settings.now.port) turns
        (devices (L.view link.old) (D.view desk.old)) (devices (L.view link.new) (D.view desk.new)) result }
    ensures follows { CountsNeverFall (D.view desk.old) (D.view desk.new) }
    ensures counted { (L.view link.old).failures ≤ (L.view link.new).failures }
    ensures comes { Preserves L.started_as link.old link.new }
    ensures stays { Preserves D.started_as desk.old desk.new }
{
    match find_part(alloc, settings, desk) {
        Ok(part) => serve_part(alloc, &part, chip_file(&settings.port), desk, link, turns),
        Err(status) => status,
    }
}

/// Serves as [`serve_for`] does, in at most 16,777,216 reads.
///
/// ```text
/// let mut settings = Settings::for_link(alloc, "m328p")?;
/// let [port, chip] = [Text::new(alloc, "5000")?, Text::new(alloc, "chip.bin")?];
/// settings.port = Port::Served { port, chip };
/// let mut desk = MemDesk::empty(alloc);
/// let sign_on = b"\x1B\x01\x00\x01\x0E\x01\x14";
/// let mut caller = StreamLink::new(sign_on.as_slice(), Vec::new(alloc));
/// assert_eq!(rt; serve(alloc, &settings, &mut desk, &mut caller), 0);
/// let (_, reply) = caller.into_inner();
/// assert!(rt; reply.as_slice() == b"\x1B\x01\x00\x0B\x0E\x01\x00\x08STK500_2\x02".as_slice());
/// ```
pub fn serve<D: ChipDesk, L: Link>(
    alloc: Global,
    settings: &Settings,
    desk: &mut D,
    link: &mut L,
) -> u8
    requires port { HasChip settings.now.port }
    ensures runs { RunsServedFor settings.now (chip_file_of settings.now.port) READS
        (devices (L.view link.old) (D.view desk.old)) (devices (L.view link.new) (D.view desk.new)) result }
    ensures follows { CountsNeverFall (D.view desk.old) (D.view desk.new) }
    ensures counted { (L.view link.old).failures ≤ (L.view link.new).failures }
    ensures comes { Preserves L.started_as link.old link.new }
    ensures stays { Preserves D.started_as desk.old desk.new }
{
    serve_for(alloc, settings, desk, link, READS)
}
