//! Runs with a chip file at a desk that can neither lock a file nor replace it whole.
ghost use Rattle.std.specs.Prelude.{◌≡◌, ◌+◌, ◌&&◌, not, false, OnOk, OnErr};
ghost use Rattle.ghosts.specs.Failures.{counted};
ghost use Rattle.avr_io.specs.Fault.{CountsFailure, IsCall};
ghost use Rattle.avr_io.specs.Record.{ChangesRecord, Replaces, after_write};
ghost use Rattle.avr_io.specs.Stream.{SendsPart};
ghost use Rattle.avr_io.specs.declared.stream.Stream.TheVariants.{File};
ghost use Rattle.avr_tool.specs.Noted.{nothing_noted};
ghost use Rattle.avr_tool.specs.Unlocked.{WritesInPlace, open_after, unlocked};

use crate::noted::{Note, Notes};
use avr_io::{ChipDesk, Desk, DeskFault, Stream, write_all};
use std::marker::Model;

/// Makes a [`ChipDesk`] of a [`Desk`], so that a desk of one's own needs only six calls for runs with a chip file, too.
/// Two promises of a [`ChipDesk`] are lost:
///
/// - Nothing is locked, and [`ChipDesk::hold`] always returns true. If two runs use a chip file at once, one of them
///   may overwrite what the other saved.
/// - [`ChipDesk::replace`] creates the file and writes it. If a write fails or the process ends meanwhile, the file
///   has only a prefix of the new bytes, and the old bytes are lost.
///
/// After a replacement that created the file and then failed, opening, creating, reading, writing and replacing a file
/// fail. A file that `inner` had open counts as closed.
///
/// ```text
/// let mut settings = Settings::for_link(alloc, "m328p")?;
/// settings.port = Port::Emulated(Text::new(alloc, "chip.bin")?);
/// let mut desk = Unlocked::new(MemDesk::empty(alloc));
/// assert_eq!(rt; run_emu(alloc, &settings, &mut desk), 0);
/// assert!(rt; desk.inner().file("chip.bin").map(|file| file.len()) == Some(33_796));
/// ```
#[derive(Drop)]
pub struct Unlocked<D> {
    inner: D,
    is_open: bool,
    is_broken: bool,
    notes: Notes,
    refused: u64,
}

impl<D> Model for Unlocked<D> {
    ghost use Rattle.avr_tool.specs.Unlocked.{UnlockedState};

    ghost Value = { UnlockedState D };

    ghost view = { λ u. record
        { inner = u.inner; is_open = u.is_open; is_broken = u.is_broken; noted = u.notes.noted; refused = u.refused } };
}

impl<D> Unlocked<D> {
    ghost use Rattle.avr_tool.specs.Notes.{after_note};

    /// Creates a desk that passes its calls on to `inner`.
    pub fn new(inner: D) -> Unlocked<D>
        ensures { result ≡ record
            { inner = inner; is_open = false; is_broken = false; noted = nothing_noted; refused = 0 } }
    {
        Unlocked {
            inner,
            is_open: false,
            is_broken: false,
            notes: Notes::new(),
            refused: 0,
        }
    }

    /// Borrows the inner desk.
    pub fn inner(&self) -> &D
        ensures { result.now ≡ self.now.inner }
    {
        &self.inner
    }

    /// Returns the inner desk.
    pub fn into_inner(self) -> D
        ensures { result ≡ self.inner }
    {
        let Unlocked { inner, .. } = self;
        inner
    }

    /// Returns whether a file is open.
    fn has_file(&self) -> bool
        ensures { result ≡ (self.now.is_open && not self.now.is_broken) }
    {
        self.is_open && !self.is_broken
    }

    /// Counts a call that fails here, and returns its fault.
    fn refuse(&mut self) -> DeskFault
        ensures fault { result ≡ DeskFault.Failed }
        ensures counted { self.new ≡ record self.old { refused = counted (self.old.refused + 1) } }
    {
        self.refused = self.refused.saturating_add(1);
        DeskFault::Failed
    }

    /// Notes a call.
    fn note(&mut self, note: &Note<'_>)
        ensures { self.new ≡ record self.old { noted = after_note note.now self.old.noted } }
    {
        self.notes = self.notes.then(note);
    }
}

/// Returns whether a file is open after this result of opening one.
fn open_after(is_open: bool, opened: Result<(), DeskFault>) -> bool
    ensures { result ≡ open_after is_open opened }
{
    match opened {
        Ok(()) => true,
        Err(DeskFault::NotFound) => false,
        Err(DeskFault::Failed) => is_open,
    }
}

/// Writes to the file just created, and waits until it is on the disk.
fn write_whole<D: Desk>(desk: &mut D, bytes: &[u8]) -> Result<(), DeskFault>
    ensures all { OnOk result (ChangesRecord (after_write bytes.now) (D.view desk.old) (D.view desk.new)) }
    ensures part { OnErr result (SendsPart File (D.view desk.old) (D.view desk.new) bytes.now) }
    ensures call { IsCall D.view D.started_as (CountsFailure File) desk.old desk.new result }
{
    write_all(desk, Stream::File, bytes)?;
    desk.write(&[])?;
    Ok(())
}

impl<D: Desk> Desk for Unlocked<D> {
    ghost view = { unlocked D.view };

    ghost Start = { D.Start };

    ghost started_as = { λ start u. D.started_as start u.inner };

    fn open(&mut self, name: &str) -> Result<(), DeskFault> {
        if self.is_broken {
            return Err(self.refuse());
        }
        let opened = self.inner.open(name);
        self.is_open = open_after(self.is_open, opened);
        opened
    }

    fn create(&mut self, name: &str) -> Result<(), DeskFault> {
        if self.is_broken {
            return Err(self.refuse());
        }
        self.inner.create(name)?;
        self.is_open = true;
        Ok(())
    }

    fn read(&mut self, buf: &mut [u8]) -> Result<usize, DeskFault> {
        if self.has_file() {
            return self.inner.read(buf);
        }
        Err(self.refuse())
    }

    fn write(&mut self, bytes: &[u8]) -> Result<usize, DeskFault> {
        if self.has_file() {
            return self.inner.write(bytes);
        }
        Err(self.refuse())
    }

    fn out(&mut self, bytes: &[u8]) -> Result<usize, DeskFault> {
        self.inner.out(bytes)
    }

    fn err(&mut self, bytes: &[u8]) -> Result<usize, DeskFault> {
        self.inner.err(bytes)
    }
}

impl<D: Desk> ChipDesk for Unlocked<D> {
    fn hold(&mut self, name: &str) -> Result<bool, DeskFault> {
        self.note(&Note::Held(name.as_bytes()));
        Ok(true)
    }

    fn release(&mut self) {
        self.note(&Note::Released);
    }

    fn replace(&mut self, name: &str, bytes: &[u8]) -> Result<(), DeskFault>
        ensures kept { Replaces name.now bytes.now result (unlocked D.view self.old) (unlocked D.view self.new) }
        ensures call { IsCall (unlocked D.view) (λ start u. D.started_as start u.inner) (CountsFailure File)
            self.old self.new result }
        ensures writes { WritesInPlace name.now bytes.now (D.view self.old.inner) (D.view self.new.inner) result }
    {
        if self.is_broken {
            return Err(self.refuse());
        }
        self.inner.create(name)?;
        match write_whole(&mut self.inner, bytes) {
            Ok(()) => {
                self.is_open = false;
                self.note(&Note::Replaced(name.as_bytes(), bytes));
                Ok(())
            }
            Err(fault) => {
                self.is_broken = true;
                self.note(&Note::Tried(name.as_bytes(), bytes));
                Err(fault)
            }
        }
    }
}
