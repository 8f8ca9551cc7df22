ghost use Rattle.std.specs.Prelude.{◌≡◌, ◌≤◌, length, IfOk, OnErr, true, false, [], None, Some, is_ok, if◌then◌else◌};
ghost use Rattle.std.specs.IoError.{error_kind};
ghost use Rattle.ghosts.specs.Failures.{OneFailureCounted};
ghost use Rattle.ghosts.specs.Preserves.{Preserves};
ghost use Rattle.avr_desk.specs.Calls.{after_call};
ghost use Rattle.avr_io.specs.Fault.{CountsFailure, IsCall};
ghost use Rattle.avr_io.specs.Named.{is_dash};
ghost use Rattle.avr_desk.specs.Journal.{ReleasesHeld, CrashLeavesNoMore, IsUncounted};
ghost use Rattle.avr_io.specs.Record.{HasOpen, after_open, after_create, after_hold, after_read, Replaces, released, is_to_read, is_to_write, nothing_kept, with_tried};
ghost use Rattle.avr_desk.specs.Shown.{IsTrueSince, Leaves, Shown, RecordsTruly, with_log_of, with_open_of, system_desk_view, writes_to_output, writes_to_output_after_open};
ghost use Rattle.avr_desk.specs.OpenFile.{OpenFileGives, OpenFileGivesNothing, IsClosed};
ghost use Rattle.avr_io.specs.Stream.{IsWrite};
ghost use Rattle.avr_io.specs.declared.desk.DeskFault.TheVariants.{Failed};
ghost use Rattle.avr_io.specs.declared.stream.Stream.TheVariants.{File, Output, Messages};
ghost use Rattle.avr_desk.specs.declared.system.OpenFile.TheVariants.{Nothing};

use crate::file_system::FileSystem;
use crate::journal::{Call, Journal};
use crate::replacement::replace_named;
use avr_io::{ChipDesk, Desk, DeskFault, Stream, is_dash};
use ghosts::Outlet;
use ghosts::retry::{flush, read_some, write_some};
use std::io::{ErrorKind, Read, Write};
use std::marker::Model;
use std::{fmt, io, mem};

/// What is open; `-` is the input or the output.
#[derive(Drop)]
enum OpenFile<F, I> {
    Nothing,
    Input(I),
    ToRead(F),
    ToWrite(F),
    Output,
}

/// The desk of a program: a system's files and standard input, and two writers for output and messages. Its record is
/// for proofs alone and takes no memory.
///
/// `-` is standard input to `open`, and the output to `create`. Files are written unbuffered, and each call flushes the
/// writers, so nothing is left unwritten at the end. A failed flush is a failure. A call that a signal interrupted is
/// retried.
///
/// To replace a file, the desk locks NAME.avrstk-lock and writes NAME.avrstk-new, which is renamed once it is on the
/// disk.
#[derive(Drop)]
pub struct SystemDesk<R: FileSystem + Drop, O: Write + Drop, E: Write + Drop> {
    system: R,
    output: O,
    messages: E,
    opened: OpenFile<R::File, R::Input>,
    replacement: Option<R::Hold>,
    failures: u64,
    message_failures: u64,
    last_error: Option<ErrorKind>,
    journal: Journal,
}

impl<R: FileSystem + Drop, O: Write + Drop, E: Write + Drop> Model for SystemDesk<R, O, E> {
    ghost use Rattle.avr_desk.specs.Shown.{Shown};
    ghost use Rattle.avr_desk.specs.OpenFile.{IsOpenAsRecorded};

    ghost Value = { Shown R R.File R.Hold R.Input O E };

    ghost view = { λ desk. record {
      system = desk.system;
      output = desk.output;
      messages = desk.messages;
      failures = desk.failures;
      message_failures = desk.message_failures;
      last_error = desk.last_error;
      opened = desk.opened;
      hold = desk.replacement;
      kept = desk.journal.kept;
    } };

    ghost invariant = { λ desk. IsOpenAsRecorded desk.opened desk.journal.kept.current };
}

/// Reads once from what is open.
fn read_opened<F: Read, I: Read>(opened: &mut OpenFile<F, I>, buf: &mut [u8]) -> io::Result<usize>
    ensures bound { IfOk result (λ n. n ≤ length buf.new) }
    ensures ok { IfOk result (λ n. OpenFileGives F.Read I.Read opened.old opened.new buf.new n) }
    ensures err { OnErr result (OpenFileGivesNothing F.Read I.Read opened.old opened.new) }
{
    match opened {
        OpenFile::Input(input) => read_some(input, buf),
        OpenFile::ToRead(file) => read_some(file, buf),
        _ => Err(io::Error::from(ErrorKind::NotFound)),
    }
}

/// Replaces the open file, and notes the call that did so. A written file is closed.
fn open_next<R: FileSystem>(
    system: &mut R,
    opened: &mut OpenFile<R::File, R::Input>,
    journal: &mut Journal,
    next: (OpenFile<R::File, R::Input>, Call<'_>),
)
    ensures opened { opened.new ≡ next.entry.0 }
    ensures noted { journal.new.kept ≡ after_call next.entry.1 journal.old.kept }
    ensures closed { IsClosed R.closed opened.old }
    ensures stays { IsUncounted R.has_done R.left system.old system.new }
{
    if let OpenFile::ToWrite(file) = mem::replace(opened, next.0) {
        system.close_file(file);
    }
    *journal = journal.then(&next.1);
}

/// Unlocks the held file, if there is one.
fn release_held<R: FileSystem>(system: &mut R, held: &mut Option<R::Hold>)
    ensures none { held.new ≡ None }
    ensures left { ReleasesHeld R.has_done held.old system.old system.new }
    ensures keeps { CrashLeavesNoMore R.left system.old system.new }
{
    if let Some(hold) = held.take() {
        system.leave_held(hold);
    }
}

/// Writes once and flushes. The record has the bytes written even if the flush fails.
fn write_through<W: Outlet>(
    to: &mut W,
    stream: Stream,
    bytes: &[u8],
    journal: &mut Journal,
) -> io::Result<usize>
    ensures bound { IfOk result (λ n. n ≤ length bytes.now) }
    ensures some { IfOk result (λ n. n ≡ 0 → bytes.now ≡ []) }
    ensures taken { RecordsTruly stream bytes.now (W.contents to.old) (W.contents to.new) (W.is_flushed to.new)
        journal.old.kept journal.new.kept result }
{
    let count = write_some(to, bytes)?;
    *journal = journal.then(&Call::Sent(stream, bytes, count));
    flush(to)?;
    Ok(count)
}

/// Counts a failure, keeps its error kind, and returns its fault.
fn fail(failures: &mut u64, last: &mut Option<ErrorKind>, error: io::Error) -> DeskFault
    ensures fault { result ≡ Failed }
    ensures rises { failures.old ≤ failures.new }
    ensures counts { OneFailureCounted failures.old failures.new }
    ensures kind { last.new ≡ Some (error_kind error) }
{
    *failures = failures.saturating_add(1);
    *last = Some(error.kind());
    DeskFault::Failed
}

impl<R: FileSystem + Drop, O: Write + Drop, E: Write + Drop> SystemDesk<R, O, E> {
    /// Creates a desk with nothing open.
    pub fn new(system: R, output: O, messages: E) -> SystemDesk<R, O, E>
        ensures { result ≡ record {
          system = system;
          output = output;
          messages = messages;
          failures = 0;
          message_failures = 0;
          last_error = None;
          opened = Nothing;
          hold = None;
          kept = nothing_kept;
        } }
    {
        SystemDesk {
            system,
            output,
            messages,
            opened: OpenFile::Nothing,
            replacement: None,
            failures: 0,
            message_failures: 0,
            last_error: None,
            journal: Journal::new(),
        }
    }

    /// Returns the error kind of the last failed call, such as `StorageFull`, or `None` if no call has failed. It is
    /// `WriteZero` if a writer took no byte, and `NotFound` if no file was open to read or write. Later successes don't
    /// change it, nor does opening a file that doesn't exist, which is no failure.
    pub fn last_error(&self) -> Option<ErrorKind>
        ensures { result ≡ self.now.last_error }
    {
        self.last_error
    }
}

impl<R: FileSystem + Drop, O: Outlet + Drop, E: Outlet + Drop> Desk for SystemDesk<R, O, E> {
    ghost view = { system_desk_view };

    ghost Start = { Shown R R.File R.Hold R.Input O E };

    ghost started_as = { IsTrueSince R.FileSystem R.File.Read R.File.Write R.Input.Read O.Write E.Write };

    fn open(&mut self, name: &str) -> Result<(), DeskFault>
        ensures kept { self.new.kept ≡ after_open name.now result self.old.kept }
        ensures counts { CountsFailure File (system_desk_view self.old) (system_desk_view self.new) result }
        ensures quiet { Leaves (record (with_open_of self.old self.new) { system = self.new.system })
            (writes_to_output_after_open result (writes_to_output self.old)) self.old self.new result }
        ensures stays { Preserves ⟦<Self as Desk>⟧.started_as self.old self.new }
    {
        let call = Call::Opened(name.as_bytes());
        if is_dash(name) {
            let next = (OpenFile::Input(self.system.input()), call);
            open_next(&mut self.system, &mut self.opened, &mut self.journal, next);
            return Ok(());
        }
        match self.system.open_named(name, self.replacement.as_ref()) {
            Ok(file) => {
                let next = (OpenFile::ToRead(file), call);
                open_next(&mut self.system, &mut self.opened, &mut self.journal, next);
                Ok(())
            }
            Err(error) if error.kind() == ErrorKind::NotFound => {
                let next = (OpenFile::Nothing, Call::Absent(name.as_bytes()));
                open_next(&mut self.system, &mut self.opened, &mut self.journal, next);
                Err(DeskFault::NotFound)
            }
            Err(error) => Err(fail(&mut self.failures, &mut self.last_error, error)),
        }
    }

    fn create(&mut self, name: &str) -> Result<(), DeskFault>
        ensures kept { self.new.kept ≡ after_create name.now result self.old.kept }
        ensures call { IsCall system_desk_view ⟦<Self as Desk>⟧.started_as
            (CountsFailure File) self.old self.new result }
        ensures quiet { Leaves (record (with_open_of self.old self.new) { system = self.new.system })
            (if is_ok result then is_dash name.now else writes_to_output self.old) self.old self.new result }
    {
        let call = Call::Created(name.as_bytes());
        if is_dash(name) {
            let next = (OpenFile::Output, call);
            open_next(&mut self.system, &mut self.opened, &mut self.journal, next);
            return Ok(());
        }
        match self.system.create_named(name, self.replacement.as_ref()) {
            Ok(file) => {
                let next = (OpenFile::ToWrite(file), call);
                open_next(&mut self.system, &mut self.opened, &mut self.journal, next);
                Ok(())
            }
            Err(error) => Err(fail(&mut self.failures, &mut self.last_error, error)),
        }
    }

    fn read(&mut self, buf: &mut [u8]) -> Result<usize, DeskFault>
        ensures bound { IfOk result (λ n. n ≤ length buf.new) }
        ensures kept { self.new.kept ≡ after_read buf.new result self.old.kept }
        ensures has_file { HasOpen is_to_read (system_desk_view self.old) result }
        ensures call { IsCall system_desk_view ⟦<Self as Desk>⟧.started_as
            (CountsFailure File) self.old self.new result }
        ensures quiet { Leaves (with_open_of self.old self.new) (writes_to_output self.old) self.old self.new result }
    {
        match read_opened(&mut self.opened, buf) {
            Ok(count) => {
                self.journal = self.journal.then(&Call::Read(&*buf, count));
                Ok(count)
            }
            Err(error) => Err(fail(&mut self.failures, &mut self.last_error, error)),
        }
    }

    fn write(&mut self, bytes: &[u8]) -> Result<usize, DeskFault>
        ensures write { IsWrite system_desk_view ⟦<Self as Desk>⟧.started_as File bytes.now self.old self.new result }
        ensures has_file { HasOpen is_to_write (system_desk_view self.old) result }
        ensures truly { writes_to_output self.old ≡ true → RecordsTruly File bytes.now (O.contents self.old.output)
            (O.contents self.new.output) (O.is_flushed self.new.output) self.old.kept self.new.kept result }
        ensures elsewhere { writes_to_output self.old ≡ false → self.new.output ≡ self.old.output }
        ensures quiet { Leaves (record (with_open_of self.old self.new) { output = self.new.output })
            (writes_to_output self.old) self.old self.new result }
    {
        match &mut self.opened {
            OpenFile::ToWrite(file) => match write_some(file, bytes) {
                Ok(count) => {
                    self.journal = self.journal.then(&Call::Sent(Stream::File, bytes, count));
                    Ok(count)
                }
                Err(error) => Err(fail(&mut self.failures, &mut self.last_error, error)),
            },
            OpenFile::Output => match write_through(
                &mut self.output,
                Stream::File,
                bytes,
                &mut self.journal,
            ) {
                Ok(count) => Ok(count),
                Err(error) => Err(fail(&mut self.failures, &mut self.last_error, error)),
            },
            _ => {
                let error = io::Error::from(ErrorKind::NotFound);
                Err(fail(&mut self.failures, &mut self.last_error, error))
            }
        }
    }

    fn out(&mut self, bytes: &[u8]) -> Result<usize, DeskFault>
        ensures write { IsWrite system_desk_view ⟦<Self as Desk>⟧.started_as Output bytes.now self.old self.new result }
        ensures truly { RecordsTruly Output bytes.now (O.contents self.old.output) (O.contents self.new.output)
            (O.is_flushed self.new.output) self.old.kept self.new.kept result }
        ensures quiet { Leaves (record (with_log_of self.old self.new) { output = self.new.output })
            (writes_to_output self.old) self.old self.new result }
    {
        match write_through(&mut self.output, Stream::Output, bytes, &mut self.journal) {
            Ok(count) => Ok(count),
            Err(error) => Err(fail(&mut self.failures, &mut self.last_error, error)),
        }
    }

    fn err(&mut self, bytes: &[u8]) -> Result<usize, DeskFault>
        ensures write { IsWrite system_desk_view ⟦<Self as Desk>⟧.started_as Messages bytes.now
            self.old self.new result }
        ensures truly { RecordsTruly Messages bytes.now (E.contents self.old.messages) (E.contents self.new.messages)
            (E.is_flushed self.new.messages) self.old.kept self.new.kept result }
        ensures quiet { Leaves (record (with_log_of self.old self.new)
            { messages = self.new.messages; message_failures = self.new.message_failures })
            (writes_to_output self.old) self.old self.new result }
    {
        let journal = &mut self.journal;
        match write_through(&mut self.messages, Stream::Messages, bytes, journal) {
            Ok(count) => Ok(count),
            Err(error) => {
                self.message_failures = self.message_failures.saturating_add(1);
                Err(fail(&mut self.failures, &mut self.last_error, error))
            }
        }
    }
}

impl<R: FileSystem + Drop, O: Outlet + Drop, E: Outlet + Drop> ChipDesk for SystemDesk<R, O, E> {
    fn hold(&mut self, name: &str) -> Result<bool, DeskFault>
        ensures kept { self.new.kept ≡ after_hold name.now result self.old.kept }
        ensures call { IsCall system_desk_view ⟦<Self as Desk>⟧.started_as
            (CountsFailure File) self.old self.new result }
        ensures quiet { Leaves (record (with_log_of self.old self.new)
            { system = self.new.system; hold = self.new.hold }) (writes_to_output self.old) self.old self.new result }
    {
        match self.system.hold_named(name) {
            Ok(Some(hold)) => {
                release_held(&mut self.system, &mut self.replacement);
                self.replacement = Some(hold);
                self.journal = self.journal.then(&Call::Held(name.as_bytes()));
                Ok(true)
            }
            Ok(None) => {
                self.journal = self.journal.then(&Call::Denied(name.as_bytes()));
                Ok(false)
            }
            Err(error) => Err(fail(&mut self.failures, &mut self.last_error, error)),
        }
    }

    fn release(&mut self)
        ensures released { system_desk_view self.new ≡ released (system_desk_view self.old) }
        ensures quiet { self.new ≡ record self.old { system = self.new.system; hold = None; kept = self.new.kept } }
        ensures stays { Preserves ⟦<Self as Desk>⟧.started_as self.old self.new }
    {
        release_held(&mut self.system, &mut self.replacement);
        self.journal = self.journal.then(&Call::Released);
    }

    fn check_name(&mut self, name: &str) -> Result<(), DeskFault>
        ensures kept { self.new.kept ≡ self.old.kept }
        ensures call { IsCall system_desk_view ⟦<Self as Desk>⟧.started_as
            (CountsFailure File) self.old self.new result }
        ensures quiet { Leaves (record (with_log_of self.old self.new) { system = self.new.system })
            (writes_to_output self.old) self.old self.new result }
    {
        if is_dash(name) {
            return Ok(());
        }
        match self.system.check_named(name, self.replacement.as_ref()) {
            Err(error) if error.kind() == ErrorKind::ResourceBusy => {
                Err(fail(&mut self.failures, &mut self.last_error, error))
            }
            _ => Ok(()),
        }
    }

    fn replace(&mut self, name: &str, bytes: &[u8]) -> Result<(), DeskFault>
        ensures kept { Replaces name.now bytes.now result (system_desk_view self.old) (system_desk_view self.new) }
        ensures tried { OnErr result (self.new.kept ≡ with_tried name.now bytes.now self.old.kept) }
        ensures call { IsCall system_desk_view ⟦<Self as Desk>⟧.started_as
            (CountsFailure File) self.old self.new result }
        ensures quiet { Leaves (record (with_open_of self.old self.new)
            { system = self.new.system; hold = self.new.hold })
            (if is_ok result then false else writes_to_output self.old) self.old self.new result }
    {
        match replace_named(&mut self.system, &mut self.replacement, name, bytes) {
            Ok(()) => {
                release_held(&mut self.system, &mut self.replacement);
                let next = (OpenFile::Nothing, Call::Replaced(name.as_bytes(), bytes));
                open_next(&mut self.system, &mut self.opened, &mut self.journal, next);
                Ok(())
            }
            Err(error) => {
                self.journal = self.journal.then(&Call::Tried(name.as_bytes(), bytes));
                Err(fail(&mut self.failures, &mut self.last_error, error))
            }
        }
    }
}

/// Shows the counts of failures and the last error, but neither the writers nor the open file.
impl<R: FileSystem + Drop, O: Write + Drop, E: Write + Drop> fmt::Debug for SystemDesk<R, O, E> {
    fn fmt<F: fmt::Write>(&self, f: &mut fmt::Formatter<F>) -> fmt::Result {
        f.debug_struct("SystemDesk")
            .field("failures", &self.failures)
            .field("message_failures", &self.message_failures)
            .field("last_error", &self.last_error)
            .finish_non_exhaustive()
    }
}
