ghost use Rattle.std.specs.Prelude.{◌≡◌, ◌≤◌, length, IfOk};
ghost use Rattle.avr_io.specs.Record.{ChangesRecord, after_open, after_create, after_hold, after_read, Replaces, released, HasOpen, is_to_read, is_to_write};
ghost use Rattle.avr_io.specs.Fault.{CountsFailure, IsCall};
ghost use Rattle.avr_io.specs.Stream.{IsWrite};
ghost use Rattle.avr_io.specs.declared.stream.Stream.TheVariants.{File, Output, Messages};
ghost use Rattle.avr_desk.specs.Watching.{ReportedDeskCall, Opened, Created, Held, Released, Checked, Replaced, Read, Wrote, reported_desk_call};
ghost use Rattle.ghosts.specs.Preserves.{Preserves};

use avr_io::{ChipDesk, Desk, DeskFault, Stream};
use std::fmt;

/// A finished call of a desk: its arguments and its result.
#[derive(Clone, Copy)]
pub enum DeskCall<'a> {
    /// The file of this name was opened for reading.
    Opened(&'a str, Result<(), DeskFault>),
    /// The file of this name was created.
    Created(&'a str, Result<(), DeskFault>),
    /// The file of this name was locked; `false` if it was locked already.
    Held(&'a str, Result<bool, DeskFault>),
    /// The held file was released, if there was one.
    Released,
    /// A file of this name may be created, or not.
    Checked(&'a str, Result<(), DeskFault>),
    /// The file of this name was replaced with these bytes.
    Replaced(&'a str, &'a [u8], Result<(), DeskFault>),
    /// The returned number of bytes of the open file was read into the start of this buffer.
    Read(&'a [u8], Result<usize, DeskFault>),
    /// The returned number of these bytes was written to the stream.
    Wrote(Stream, &'a [u8], Result<usize, DeskFault>),
}

/// Shows the call's name.
impl fmt::Debug for DeskCall<'_> {
    fn fmt<F: fmt::Write>(&self, f: &mut fmt::Formatter<F>) -> fmt::Result {
        f.write_str(match self {
            DeskCall::Opened(..) => "Opened",
            DeskCall::Created(..) => "Created",
            DeskCall::Held(..) => "Held",
            DeskCall::Released => "Released",
            DeskCall::Checked(..) => "Checked",
            DeskCall::Replaced(..) => "Replaced",
            DeskCall::Read(..) => "Read",
            DeskCall::Wrote(..) => "Wrote",
        })
    }
}

/// Receives the calls of a desk, for example to show a run's progress. A watcher can't change the desk or a result.
///
/// Proofs about a watcher's state use `after`; without proofs set it to `λ call old new. Unit {0}`.
pub trait WatchDesk {
    /// A watcher in the state `old` that receives this call gets the state `new`.
    ghost after: { ReportedDeskCall → Self → Self → Type 0 };

    /// Receives a finished call.
    fn on_call(&mut self, call: &DeskCall<'_>)
        ensures { after (reported_desk_call call.now) self.old self.new };
}

/// A desk and its watcher, which receives each call once, after the desk has returned. The results and the state in
/// contracts are those of the inner desk.
///
/// ```text
/// #[derive(Drop)]
/// struct Sizes { printed: usize }
/// impl WatchDesk for Sizes {
///     ghost after = { λ call old new. Unit {0} };
///     fn on_call(&mut self, call: &DeskCall<'_>) {
///         if let DeskCall::Wrote(Stream::Output, _, Ok(count)) = call {
///             self.printed = self.printed.saturating_add(*count);
///         }
///     }
/// }
/// let mut desk = WatchedDesk { desk: MemDesk::empty(alloc), watcher: Sizes { printed: 0 } };
/// write_all(&mut desk, Stream::Output, b"abc")?;
/// assert_eq!(rt; desk.watcher.printed, 3);
/// ```
#[derive(Debug, Drop)]
pub struct WatchedDesk<D, W> {
    pub desk: D,
    pub watcher: W,
}

impl<D: Desk, W: WatchDesk> Desk for WatchedDesk<D, W> {
    ghost view = { λ d. D.view d.desk };

    ghost Start = { D.Start };

    ghost started_as = { λ start d. D.started_as start d.desk };

    fn open(&mut self, name: &str) -> Result<(), DeskFault>
        ensures kept { ChangesRecord (after_open name.now result) (D.view self.old.desk) (D.view self.new.desk) }
        ensures counts { CountsFailure File (D.view self.old.desk) (D.view self.new.desk) result }
        ensures stays { Preserves D.started_as self.old.desk self.new.desk }
        ensures notice { W.after (Opened name.now result) self.old.watcher self.new.watcher }
    {
        let outcome = self.desk.open(name);
        self.watcher.on_call(&DeskCall::Opened(name, outcome));
        outcome
    }

    fn create(&mut self, name: &str) -> Result<(), DeskFault>
        ensures kept { ChangesRecord (after_create name.now result) (D.view self.old.desk) (D.view self.new.desk) }
        ensures call { IsCall D.view D.started_as (CountsFailure File) self.old.desk self.new.desk result }
        ensures notice { W.after (Created name.now result) self.old.watcher self.new.watcher }
    {
        let outcome = self.desk.create(name);
        self.watcher.on_call(&DeskCall::Created(name, outcome));
        outcome
    }

    fn read(&mut self, buf: &mut [u8]) -> Result<usize, DeskFault>
        ensures bound { IfOk result (λ n. n ≤ length buf.new) }
        ensures kept { ChangesRecord (after_read buf.new result) (D.view self.old.desk) (D.view self.new.desk) }
        ensures has_file { HasOpen is_to_read (D.view self.old.desk) result }
        ensures call { IsCall D.view D.started_as (CountsFailure File) self.old.desk self.new.desk result }
        ensures notice { W.after (Read buf.new result) self.old.watcher self.new.watcher }
    {
        let outcome = self.desk.read(buf);
        self.watcher.on_call(&DeskCall::Read(buf, outcome));
        outcome
    }

    fn write(&mut self, bytes: &[u8]) -> Result<usize, DeskFault>
        ensures write { IsWrite D.view D.started_as File bytes.now self.old.desk self.new.desk result }
        ensures has_file { HasOpen is_to_write (D.view self.old.desk) result }
        ensures notice { W.after (Wrote File bytes.now result) self.old.watcher self.new.watcher }
    {
        let outcome = self.desk.write(bytes);
        self.watcher
            .on_call(&DeskCall::Wrote(Stream::File, bytes, outcome));
        outcome
    }

    fn out(&mut self, bytes: &[u8]) -> Result<usize, DeskFault>
        ensures write { IsWrite D.view D.started_as Output bytes.now self.old.desk self.new.desk result }
        ensures notice { W.after (Wrote Output bytes.now result) self.old.watcher self.new.watcher }
    {
        let outcome = self.desk.out(bytes);
        self.watcher
            .on_call(&DeskCall::Wrote(Stream::Output, bytes, outcome));
        outcome
    }

    fn err(&mut self, bytes: &[u8]) -> Result<usize, DeskFault>
        ensures write { IsWrite D.view D.started_as Messages bytes.now self.old.desk self.new.desk result }
        ensures notice { W.after (Wrote Messages bytes.now result) self.old.watcher self.new.watcher }
    {
        let outcome = self.desk.err(bytes);
        self.watcher
            .on_call(&DeskCall::Wrote(Stream::Messages, bytes, outcome));
        outcome
    }
}

impl<D: ChipDesk, W: WatchDesk> ChipDesk for WatchedDesk<D, W> {
    fn hold(&mut self, name: &str) -> Result<bool, DeskFault>
        ensures kept { ChangesRecord (after_hold name.now result) (D.view self.old.desk) (D.view self.new.desk) }
        ensures call { IsCall D.view D.started_as (CountsFailure File) self.old.desk self.new.desk result }
        ensures notice { W.after (Held name.now result) self.old.watcher self.new.watcher }
    {
        let outcome = self.desk.hold(name);
        self.watcher.on_call(&DeskCall::Held(name, outcome));
        outcome
    }

    fn release(&mut self)
        ensures released { D.view self.new.desk ≡ released (D.view self.old.desk) }
        ensures stays { Preserves D.started_as self.old.desk self.new.desk }
        ensures notice { W.after Released self.old.watcher self.new.watcher }
    {
        self.desk.release();
        self.watcher.on_call(&DeskCall::Released);
    }

    fn check_name(&mut self, name: &str) -> Result<(), DeskFault>
        ensures kept { ChangesRecord (λ kept. kept) (D.view self.old.desk) (D.view self.new.desk) }
        ensures call { IsCall D.view D.started_as (CountsFailure File) self.old.desk self.new.desk result }
        ensures notice { W.after (Checked name.now result) self.old.watcher self.new.watcher }
    {
        let outcome = self.desk.check_name(name);
        self.watcher.on_call(&DeskCall::Checked(name, outcome));
        outcome
    }

    fn replace(&mut self, name: &str, bytes: &[u8]) -> Result<(), DeskFault>
        ensures kept { Replaces name.now bytes.now result (D.view self.old.desk) (D.view self.new.desk) }
        ensures call { IsCall D.view D.started_as (CountsFailure File) self.old.desk self.new.desk result }
        ensures notice { W.after (Replaced name.now bytes.now result) self.old.watcher self.new.watcher }
    {
        let outcome = self.desk.replace(name, bytes);
        self.watcher
            .on_call(&DeskCall::Replaced(name, bytes, outcome));
        outcome
    }
}
