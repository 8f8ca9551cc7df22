ghost use Rattle.std.specs.Prelude.{◌⊎◌};
ghost use Rattle.avr_io.specs.Fault.{CountsNeverFall};
ghost use Rattle.avr_session.specs.Run.{RunsBetween};
ghost use Rattle.avr_session.specs.Runs.{devices};
ghost use Rattle.avr_tool.specs.Headline.{IsRun, IsStopped, RunsWired};
ghost use Rattle.stk_emu.specs.Wired.{IsFresh};
ghost use Rattle.ghosts.specs.Preserves.{Preserves};

use crate::over_emulator::drive_wired;
use avr_io::Desk;
use avr_plan::{Settings, plan};
use avr_session::drive;
use std::alloc::Global;
use stk_emu::{Recorder, Wired};
use stk_host::Link;

/// Makes the plan of a run, runs its session over a link, and reports it at the desk. Returns the status: 0 if there
/// was no fault, otherwise 1. A refusal is reported before any frame is sent or file created.
///
/// ```text
/// let settings = Settings::for_link(alloc, "m328p")?;
/// let mut desk = MemDesk::empty(alloc);
/// let chip = Chip::fresh(alloc, Parts::none().find("m328p")?)?;
/// let mut wire = Wired::with_fates(alloc, chip, Fates::none(alloc));
/// assert_eq!(rt; run(alloc, &settings, &mut desk, &mut wire), 0);
/// let printed = b"avrstk: device signature = 1E 95 0F\navrstk: done\n";
/// assert!(rt; desk.messages() == printed.as_slice());
/// ```
///
/// A desk in memory has all that was output, a tape all that was sent:
///
/// ```text
/// let settings = Settings::for_link(alloc, "m328p")?;
/// let mut desk = MemDesk::empty(alloc);
/// let mut tape = TapeLink::new(alloc, Vec::new(alloc), 281);
/// assert_eq!(rt; run(alloc, &settings, &mut desk, &mut tape), 1);
/// assert!(rt; tape.sent() == b"\x1B\x01\x00\x01\x0E\x01\x14".as_slice());
/// assert!(rt; desk.messages() == b"avrstk: error: link ended\n".as_slice());
/// ```
pub fn run<D: Desk, L: Link>(alloc: Global, settings: &Settings, desk: &mut D, link: &mut L) -> u8
    ensures runs { IsRun settings.now (devices (L.view link.old) (D.view desk.old))
        (devices (L.view link.new) (D.view desk.new)) result
        ⊎ IsStopped settings.now (devices (L.view link.old) (D.view desk.old))
        (devices (L.view link.new) (D.view desk.new)) result }
    // The plan and its session, with the desk between them.
    ensures between { RunsBetween D.view D.started_as settings.now (L.view link.old) (L.view link.new)
        desk.old desk.new result }
    ensures follows { CountsNeverFall (D.view desk.old) (D.view desk.new) }
    ensures comes { Preserves L.started_as link.old link.new }
    ensures stays { Preserves D.started_as desk.old desk.new }
{
    match plan(alloc, settings, desk) {
        Ok(plan) => drive(alloc, &plan, desk, link),
        Err(status) => status,
    }
}

/// Runs what the settings ask for over a wire to the emulated programmer, as [`run`] does over a link, whatever the
/// wire loses, delays and corrupts.
///
/// The wire must be new: nothing sent or received yet. The promises about the chip hold if it is of the plan's part;
/// it may be of another part.
///
/// ```text
/// let settings = Settings::for_link(alloc, "m328p")?;
/// let mut desk = MemDesk::empty(alloc);
/// let chip = Chip::fresh(alloc, Parts::none().find("m328p")?)?;
/// let mut fates = Fates::none(alloc);
/// fates.push(Fate::LostCommand)?;
/// let mut wire = Wired::with_fates(alloc, chip, fates);
/// assert_eq!(rt; run_wired(alloc, &settings, &mut desk, &mut wire), 0);
/// assert_eq!(rt; wire.failures(), 0);
/// ```
pub fn run_wired<D: Desk, R: Recorder>(
    alloc: Global,
    settings: &Settings,
    desk: &mut D,
    wire: &mut Wired<R>,
) -> u8
    requires fresh { IsFresh wire.old }
    ensures runs { RunsWired settings.now wire.old wire.new (D.view desk.old) (D.view desk.new) result }
    ensures stays { Preserves D.started_as desk.old desk.new }
{
    let plan = match plan(alloc, settings, desk) {
        Ok(plan) => plan,
        Err(status) => return status,
    };
    drive_wired(alloc, &plan, desk, wire)
}
