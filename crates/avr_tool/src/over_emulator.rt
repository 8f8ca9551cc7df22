ghost use Rattle.std.specs.Prelude.{◌≡◌, IfOk};
ghost use Rattle.std.specs.List.{list_any};
ghost use Rattle.avr_io.specs.Fault.{CountsNeverFall};
ghost use Rattle.avr_tool.specs.OverFaultyLink.{SessionOverWire};
ghost use Rattle.avr_session.specs.Run.{RunsSession};
ghost use Rattle.avr_session.specs.Runs.{devices};
ghost use Rattle.stk_emu.specs.Wired.{ComesOf, IsFresh, wired_link};
ghost use Rattle.ghosts.specs.Preserves.{Preserves};
ghost use Rattle.stk_host.specs.Transcript.{sent};
ghost use Rattle.avr_part.specs.ChipFile.{chip_file};
ghost use Rattle.avr_tool.specs.Emulated.{IsSavedIfSent, ChecksRead, ChecksReads, RunsEmulator, TakesChip, reads_into};
ghost use Rattle.avr_plan.specs.declared.settings.Port.{Port};
ghost use Rattle.avr_tool.specs.Ports.{chip_file_of};

use crate::chip_files::{hold_chip, save_after};
use crate::ports::chip_file as file_of;
use avr_io::{ChipDesk, Desk, not_created_message, refuse};
use avr_part::Chip;
use avr_plan::{Plan, Settings, Task, plan};
use avr_session::drive;
use std::alloc::Global;
use stk_emu::{Fates, Recorder, Wired};

/// Runs the session of a plan over a wire to the emulated programmer, as [`avr_session::drive`] does over any link.
/// Returns the status: 0 if there was no fault, otherwise 1.
///
/// The wire must be new: nothing sent or received yet. The chip may be of another part than the plan's.
pub fn drive_wired<D: Desk, R: Recorder>(
    alloc: Global,
    plan: &Plan,
    desk: &mut D,
    wire: &mut Wired<R>,
) -> u8
    requires fresh { IsFresh wire.old }
    // It is a run of the session: what is sent, output and returned.
    ensures runs { RunsSession plan.now (devices (wired_link wire.old) (D.view desk.old))
        (devices (wired_link wire.new) (D.view desk.new)) result }
    // The counts of the desk's failures never fall.
    ensures follows { CountsNeverFall (D.view desk.old) (D.view desk.new) }
    ensures comes { Preserves ComesOf wire.old wire.new }
    // This holds if the chip is of the plan's part, whatever the wire loses, delays and corrupts. Proof:
    // `over_any_line` (WirePlays).
    ensures line { wire.old.wire.programmer.chip.part ≡ plan.now.part
        → SessionOverWire plan.now wire.old wire.new (D.view desk.old) (D.view desk.new) result }
    ensures stays { Preserves D.started_as desk.old desk.new }
{
    // two laws that the proof cites
    plan.is_sound();
    wire.chip().is_sound();
    drive(alloc, plan, desk, wire)
}

/// Returns whether the task reads a memory into the file of this name.
fn reads_into(task: &Task, file: &str) -> bool
    ensures { result ≡ reads_into file.now task.now }
{
    matches!(task, Task::Read { file: into, .. } if into.as_str() == file)
}

/// Returns whether one of the tasks does.
fn any_reads_into(tasks: &[Task], file: &str) -> bool
    ensures { result ≡ list_any (reads_into file.now) tasks.now }
{
    tasks.iter().any(|task| reads_into(task, file))
}

/// Checks that a memory read into this file is read neither into the held file nor into one that the desk makes beside
/// it. Otherwise the held file is unlocked.
fn check_read<D: ChipDesk>(into: &str, desk: &mut D) -> Result<(), u8>
    ensures checks { ChecksRead into.now (D.view desk.old) (D.view desk.new) result }
    ensures stays { Preserves D.started_as desk.old desk.new }
{
    match desk.check_name(into) {
        Ok(()) => Ok(()),
        Err(_) => {
            desk.release();
            Err(refuse(desk, &not_created_message(into)))
        }
    }
}

/// Does the same for each task that reads a memory.
fn check_reads<D: ChipDesk>(tasks: &[Task], desk: &mut D) -> Result<(), u8>
    ensures checks { ChecksReads tasks.now (D.view desk.old) (D.view desk.new) result }
    ensures stays { Preserves D.started_as desk.old desk.new }
{
    for task in tasks {
        if let Task::Read { file, .. } = task {
            check_read(file.as_str(), desk)?;
        }
    }
    Ok(())
}

/// Locks the chip file of a plan and loads its chip. Refuses a plan that reads a memory into this file, or into one that
/// the desk makes beside it: what was read would be lost when the chip is saved.
fn take_chip<D: ChipDesk>(alloc: Global, plan: &Plan, file: &str, desk: &mut D) -> Result<Chip, u8>
    ensures takes { TakesChip plan.now file.now (D.view desk.old) (D.view desk.new) result }
    ensures part { IfOk result (λ c. c.part ≡ plan.now.part) }
    ensures stays { Preserves D.started_as desk.old desk.new }
{
    if any_reads_into(plan.tasks(), file) {
        return Err(refuse(desk, &not_created_message(file)));
    }
    let chip = hold_chip(alloc, plan.part(), file, desk)?;
    check_reads(plan.tasks(), desk)?;
    Ok(chip)
}

/// Saves the chip of a wire if anything was sent over it, unlocks its file, and returns the run's status.
fn save_if_sent<D: ChipDesk, R: Recorder>(
    wire: &Wired<R>,
    file: &str,
    desk: &mut D,
    status: u8,
) -> u8
    ensures saved { IsSavedIfSent (sent wire.now.transcript) (D.view desk.old) (D.view desk.new) file.now
        (chip_file wire.now.wire.programmer.chip) status result }
    ensures follows { CountsNeverFall (D.view desk.old) (D.view desk.new) }
    ensures stays { Preserves D.started_as desk.old desk.new }
{
    if wire.sent_nothing() {
        desk.release();
        return status;
    }
    save_after(wire.chip(), file, desk, status)
}

/// Makes the plan of a run, and runs it over an emulated programmer. The port of the settings must be
/// [`Port::Emulated`](avr_plan::Port::Emulated). The chip is loaded from its file, or fresh if the file doesn't exist,
/// and saved to it if a frame was sent. The file is locked from loading to saving: another run is refused.
///
/// Returns the status: 0 if there was no fault, otherwise 1. Every fault has its line, and a refusal is reported
/// before any frame is sent.
///
/// ```text
/// let mut settings = Settings::for_link(alloc, "m328p")?;
/// settings.port = Port::Emulated(Text::new(alloc, "chip.bin")?);
/// let mut desk = MemDesk::empty(alloc);
/// assert_eq!(rt; run_emu(alloc, &settings, &mut desk), 0);
/// assert!(rt; desk.file("chip.bin").map(|file| file.len()) == Some(33_796));
/// ```
pub fn run_emu<D: ChipDesk>(alloc: Global, settings: &Settings, desk: &mut D) -> u8
    requires port { settings.now.port ≡ Port.Emulated (chip_file_of settings.now.port) }
    // Proof: `runs_over_emulator` (Emulating), from the `line` of `drive_wired`.
    ensures runs { RunsEmulator settings.now (chip_file_of settings.now.port) (D.view desk.old) (D.view desk.new)
        result }
    ensures stays { Preserves D.started_as desk.old desk.new }
{
    let plan = match plan(alloc, settings, desk) {
        Ok(plan) => plan,
        Err(status) => return status,
    };
    let file = file_of(&settings.port);
    let chip = match take_chip(alloc, &plan, file, desk) {
        Ok(chip) => chip,
        Err(status) => return status,
    };
    // two laws that the proof cites
    plan.is_sound();
    chip.is_sound();
    let mut wire = Wired::unlogged(alloc, chip, Fates::none(alloc));
    let status = drive_wired(alloc, &plan, desk, &mut wire);
    save_if_sent(&wire, file, desk, status)
}
