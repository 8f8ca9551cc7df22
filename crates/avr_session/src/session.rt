//! A session: its actions, each an operation of the host and its report, and the run from its start to its end. If an
//! action ends in a fault, the fault's line is the last one reported.
ghost use Rattle.std.specs.Prelude.{◌≡◌, None, Err, ◌∷◌, ◌≤◌, [], length, All};
ghost use Rattle.avr_io.specs.Fault.{CountsNeverFall};
ghost use Rattle.avr_session.specs.Standing.{NoFault, Faulty};
ghost use Rattle.avr_session.specs.Actions.{actions, OpenSession, WriteImage, CompareImage, SaveMemory, writes_flash, is_erase_due, erase_actions, write_actions, task_actions, tasks_actions};
ghost use Rattle.avr_session.specs.Held.{Does, IsReady, RunsSessionPart};
ghost use Rattle.avr_session.specs.Outcomes.{ComesTo, EndsWithFaultLine};
ghost use Rattle.avr_session.specs.Performing.{EndsSession, PlaysSession};
ghost use Rattle.avr_session.specs.Runs.{devices, start};
ghost use Rattle.ghosts.specs.Preserves.{Preserves};
ghost use Rattle.avr_session.specs.Run.{RunsSession};
ghost use Rattle.std.specs.List.{list_any};
ghost use Rattle.avr_part.specs.Part.{size_of};
ghost use Rattle.avr_plan.specs.Plan.{IsFitted};

use crate::ending::{End, Outcome, conclude, outcome_of};
use crate::reports::{Done, report_bytes, report_image, report_opening, report_step, warn};
use crate::saving::{Target, report_read};
use avr_image::Image;
use avr_io::{Desk, Piece};
use avr_part::Mem;
use avr_plan::{Plan, Switches, Task};
use std::alloc::Global;
use stk_host::{Host, HostFault, Link};

fn writes_flash(task: &Task) -> bool
    ensures { result ≡ writes_flash task.now }
{
    matches!(task, Task::Write(Mem::Flash, _))
}

fn any_writes_flash(tasks: &[Task]) -> bool
    ensures { result ≡ list_any writes_flash tasks.now }
{
    tasks.iter().any(|task| writes_flash(task))
}

/// Returns whether an erase is asked for, or due because flash is written.
pub(crate) fn is_erase_due(switches: Switches, tasks: &[Task]) -> bool
    ensures { result ≡ is_erase_due switches tasks.now }
{
    switches.erase || (any_writes_flash(tasks) && !switches.keep_flash)
}

/// A session: its plan, its host, and the devices that it works on.
#[derive(Drop)]
pub(crate) struct Session<'a, D, L> {
    pub(crate) alloc: Global,
    pub(crate) plan: &'a Plan,
    pub(crate) host: Host,
    pub(crate) desk: &'a mut D,
    pub(crate) link: &'a mut L,
}

impl<'a, D: Desk, L: Link> Session<'a, D, L> {
    pub(crate) fn new(
        alloc: Global,
        plan: &'a Plan,
        desk: &'a mut D,
        link: &'a mut L,
    ) -> Session<'a, D, L>
        ensures plan { result.plan.now ≡ plan.now }
        ensures host { result.host ≡ record { part = plan.now.part; progress = start; broken = None } }
        ensures desk { (result.desk.now ≡ desk.old) × (result.desk.ghost_name ≡ desk.entry.ghost_name) }
        ensures link { (result.link.now ≡ link.old) × (result.link.ghost_name ≡ link.entry.ghost_name) }
    {
        Session {
            alloc,
            plan,
            host: Host::new(plan.part().copied()),
            desk,
            link,
        }
    }

    /// Opens the session, and reports how that ended.
    pub(crate) fn open(&mut self) -> Result<(), End>
        requires { IsReady self.old }
        ensures { Does L.Link D.Desk (OpenSession ∷ []) self.old self.new result }
    {
        let switches = self.plan.switches();
        let opened = self.host.open(self.link, switches.force);
        let reported = report_opening(self.desk, self.plan, &opened);
        conclude(&opened, reported)
    }

    /// Erases the chip if an erase is due; a dry run skips it.
    pub(crate) fn erase_if_due(&mut self) -> Result<(), End>
        requires { self.old.host.broken ≡ None }
        ensures { Does L.Link D.Desk (erase_actions self.old.plan.now.switches self.old.plan.now.tasks)
            self.old self.new result }
    {
        let switches = self.plan.switches();
        if switches.dry {
            if switches.erase {
                let pieces = [Piece::Text("chip not erased because of -n")];
                let warned = warn(self.desk, switches.quiet, &pieces);
                return conclude(&Ok(()), warned);
            }
            return Ok(());
        }
        if is_erase_due(switches, self.plan.tasks()) {
            let erased = self.host.erase(self.link);
            let reported = report_step(self.desk, self.plan, "chip erased", &erased);
            return conclude(&erased, reported);
        }
        Ok(())
    }

    /// Compares a memory with an image, and reports how that ended.
    fn verify(&mut self, mem: Mem, image: &Image) -> Result<(), End>
        requires ready { IsReady self.old }
        requires fits { length image.now ≤ size_of mem self.old.plan.now.part }
        ensures { Does L.Link D.Desk (CompareImage mem image.now ∷ []) self.old self.new result }
    {
        let verified = self.host.verify(self.alloc, self.link, mem, image);
        let reported = report_image(self.desk, self.plan, Done::Verified, mem, image, &verified);
        conclude(&verified, reported)
    }

    /// Writes an image, and reports how that ended.
    fn write(&mut self, mem: Mem, image: &Image) -> Result<(), End>
        requires ready { IsReady self.old }
        requires fits { length image.now ≤ size_of mem self.old.plan.now.part }
        ensures { Does L.Link D.Desk (WriteImage mem image.now ∷ []) self.old self.new result }
    {
        let written = self.host.write(self.link, mem, image);
        let reported = report_image(self.desk, self.plan, Done::Written, mem, image, &written);
        conclude(&written, reported)
    }

    /// Writes an image, and reads it back unless verifying is off; a dry run skips both.
    fn write_and_verify(&mut self, mem: Mem, image: &Image) -> Result<(), End>
        requires ready { IsReady self.old }
        requires fits { length image.now ≤ size_of mem self.old.plan.now.part }
        ensures { Does L.Link D.Desk (write_actions self.old.plan.now.switches mem image.now) self.old self.new result }
    {
        if self.plan.switches().dry {
            let quiet = self.plan.switches().quiet;
            let emitted = report_bytes(self.desk, quiet, mem, image.len(), Done::NotWritten);
            return conclude(&Ok(()), emitted);
        }
        self.write(mem, image)?;
        if self.plan.switches().no_verify {
            return Ok(());
        }
        self.verify(mem, image)
    }

    /// Reads a memory, saves it, and reports how that ended.
    fn read(&mut self, mem: Mem, target: Target<'_>) -> Result<(), End>
        requires { IsReady self.old }
        ensures { Does L.Link D.Desk (SaveMemory mem target.entry.format target.entry.file.now ∷ [])
            self.old self.new result }
    {
        let mut bytes = Vec::new(self.alloc);
        let outcome = self.host.read(self.link, mem, &mut bytes);
        let reported = report_read(
            self.desk,
            self.plan,
            mem,
            target,
            bytes.as_slice(),
            &outcome,
        );
        conclude(&outcome, reported)
    }

    /// Does one task, up to the first fault.
    fn perform(&mut self, task: &Task) -> Result<(), End>
        requires ready { IsReady self.old }
        requires fits { IsFitted self.old.plan.now.part task.now }
        ensures { Does L.Link D.Desk (task_actions self.old.plan.now.switches task.now) self.old self.new result }
    {
        match task {
            Task::Write(mem, image) => self.write_and_verify(*mem, image),
            Task::Verify(mem, image) => self.verify(*mem, image),
            Task::Read {
                memory,
                format,
                file,
            } => {
                let target = Target {
                    file: file.as_str(),
                    format: *format,
                };
                self.read(*memory, target)
            }
        }
    }

    /// Does tasks in order, up to the first fault.
    pub(crate) fn perform_all(&mut self, tasks: &[Task]) -> Result<(), End>
        requires ready { IsReady self.old }
        requires fits { All (IsFitted self.old.plan.now.part) tasks.now }
        ensures { Does L.Link D.Desk (tasks_actions self.old.plan.now.switches tasks.now) self.old self.new result }
    {
        for task in tasks {
            self.perform(task)?;
        }
        Ok(())
    }

    /// Does all actions of the plan, up to the first fault.
    fn work(&mut self) -> Result<(), End>
        requires { IsReady self.old }
        ensures { Does L.Link D.Desk (actions self.old.plan.now) self.old self.new result }
    {
        self.open()?;
        self.erase_if_due()?;
        self.plan.is_sound();
        self.perform_all(self.plan.tasks())
    }

    /// Closes a session without a fault.
    fn close(&mut self) -> Result<(), End>
        requires { self.old.host.broken ≡ None }
        ensures { RunsSessionPart L.Link D.Desk (EndsSession self.old.plan.now NoFault) self.old self.new result }
    {
        let closed = self.host.close(self.link);
        let reported = report_step(self.desk, self.plan, "done", &closed);
        conclude(&closed, reported)
    }

    /// Leaves programming mode after this fault was reported; a second fault is not reported.
    fn leave(&mut self, fault: HostFault) -> End
        requires serves { self.old.host.broken ≡ None }
        requires notice { EndsWithFaultLine self.old.plan.now.part (D.view self.old.desk.now) (Outcome.Faulty fault) }
        ensures { RunsSessionPart L.Link D.Desk (EndsSession self.old.plan.now Faulty) self.old self.new (Err result) }
    {
        let closed = self.host.close(self.link);
        match conclude(&closed, Ok(())) {
            Ok(()) => End::Over(fault),
            Err(End::Faulty(_)) => End::Over(fault),
            Err(End::Over(_)) => End::Over(fault),
            Err(End::Stopped) => End::Stopped,
        }
    }

    /// Runs the session to its end: also after a fault it leaves programming mode, if the link can be used.
    fn play(&mut self) -> Result<(), End>
        requires { IsReady self.old }
        ensures { RunsSessionPart L.Link D.Desk (PlaysSession self.old.plan.now) self.old self.new result }
    {
        match self.work() {
            Ok(()) => self.close(),
            Err(End::Faulty(fault)) => Err(self.leave(fault)),
            Err(End::Over(fault)) => Err(End::Over(fault)),
            Err(End::Stopped) => Err(End::Stopped),
        }
    }
}

/// Runs the session of a plan over a link, reports it at the desk, saves the memories read, and returns the outcome.
///
/// The outcome is `Done` only if no call of a device failed. If the link or the desk fails, or if allocation fails
/// before a read or a comparison, its line is printed. The line is whole unless the desk fails, and nothing more is
/// sent or reported.
///
/// After the line of a fault no second fault is reported, so the fault returned is that of the last line. To learn
/// which device stopped a session, watch both with `WatchedLink` and `WatchedDesk`.
///
/// ```text
/// let mut desk = MemDesk::empty(alloc);
/// let settings = Settings::for_link(alloc, "m328p")?;
/// let Ok(plan) = plan(alloc, &settings, &mut desk) else {
///     panic!(rt; "the part is built in");
/// };
/// let mut silent = TapeLink::new(alloc, vec![in alloc; Item::Silence; 8]?, 281);
/// let outcome = drive_outcome(alloc, &plan, &mut desk, &mut silent);
/// assert_eq!(rt; (outcome, outcome.status()), (Outcome::Faulty(HostFault::NoAnswer), 1));
/// assert!(rt; desk.messages() == b"avrstk: error: no answer\n".as_slice());
/// ```
pub fn drive_outcome<D: Desk, L: Link>(
    alloc: Global,
    plan: &Plan,
    desk: &mut D,
    link: &mut L,
) -> Outcome
    ensures comes_to { ComesTo plan.now (devices (L.view link.old) (D.view desk.old))
        (devices (L.view link.new) (D.view desk.new)) result }
    ensures follows { CountsNeverFall (D.view desk.old) (D.view desk.new) }
    ensures comes { Preserves L.started_as link.old link.new }
    ensures stays { Preserves D.started_as desk.old desk.new }
{
    let mut session = Session::new(alloc, plan, desk, link);
    outcome_of(session.play())
}

/// Runs the session of a plan as [`drive_outcome`] does, and returns the status: 0 if there was no fault, otherwise
/// 1.
///
/// ```text
/// let settings = Settings::for_link(alloc, "m328p")?;
/// let mut desk = MemDesk::empty(alloc);
/// let Ok(plan) = plan(alloc, &settings, &mut desk) else {
///     panic!(rt; "the part is built in");
/// };
/// let mut ended = TapeLink::new(alloc, Vec::new(alloc), 281);
/// assert_eq!(rt; drive(alloc, &plan, &mut desk, &mut ended), 1);
/// assert!(rt; desk.messages() == b"avrstk: error: link ended\n".as_slice());
/// ```
pub fn drive<D: Desk, L: Link>(alloc: Global, plan: &Plan, desk: &mut D, link: &mut L) -> u8
    ensures runs { RunsSession plan.now (devices (L.view link.old) (D.view desk.old))
        (devices (L.view link.new) (D.view desk.new)) result }
    ensures follows { CountsNeverFall (D.view desk.old) (D.view desk.new) }
    ensures comes { Preserves L.started_as link.old link.new }
    ensures stays { Preserves D.started_as desk.old desk.new }
{
    drive_outcome(alloc, plan, desk, link).status()
}
