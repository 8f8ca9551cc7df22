//! A desk: files, standard output and messages.
ghost use Rattle.std.specs.Prelude.{◌≡◌, ◌≤◌, length, IfOk};
ghost use Rattle.ghosts.specs.Preserves.{Preserves};
ghost use Rattle.avr_io.specs.Record.{DeskState, ChangesRecord, after_open, after_create, after_hold, after_read, Replaces, released};
ghost use Rattle.avr_io.specs.Record.{HasOpen, is_to_read, is_to_write};
ghost use Rattle.avr_io.specs.Fault.{CountsFailure, IsCall};
ghost use Rattle.avr_io.specs.Stream.{IsWrite};
ghost use Rattle.avr_io.specs.declared.stream.Stream.TheVariants.{File, Output, Messages};

use thiserror::Error;

/// Why a call of a desk failed.
#[derive(Clone, Copy, Debug, PartialEq, Eq, Error)]
pub enum DeskFault {
    /// No file has this name.
    #[error("no such file")]
    NotFound = 1,
    /// The device failed, or allocation for what a desk keeps did.
    #[error("the device failed")]
    Failed = 2,
}

impl DeskFault {
    ghost use Rattle.avr_io.specs.Fault.{desk_fault_number, IsCall};

    /// Returns the fault's number, which never changes.
    pub fn number(&self) -> u8
        ensures { result ≡ desk_fault_number self.now }
    {
        *self as u8
    }
}

/// Files, standard output and messages: all that a run needs beside its link. In contracts `kept` of a desk's `view`
/// is the record of what it did. Runs that load and save a chip need a [`ChipDesk`].
///
/// Each failed call raises `failures`, up to 2^64 - 1. Only a failed write to the messages raises `message_failures`
/// too. After a failed write a prefix of its bytes may have been written, because the flush comes after them.
pub trait Desk {
    ghost view: { Self → DeskState };

    /// What a desk begins with, if later results depend on it. For a desk in memory: its input and its files.
    ghost Start: { Type 0 };

    /// States that the desk began with this value. No call changes that.
    ghost started_as: { Start → Self → Type 0 };

    /// Opens a file for reading; `-` is standard input.
    ///
    /// # Errors
    ///
    /// `NotFound` if no file has this name; `Failed` if the device fails.
    fn open(&mut self, name: &str) -> Result<(), DeskFault>
        ensures kept { ChangesRecord (after_open name.now result) (view self.old) (view self.new) }
        ensures counts { CountsFailure File (view self.old) (view self.new) result }
        ensures stays { Preserves started_as self.old self.new };

    /// Creates a file, or empties an existing one; `-` is standard output. The record has the bytes written to it as
    /// those of a file `-`, apart from those of [`Desk::out`].
    ///
    /// # Errors
    ///
    /// `Failed` if the device fails.
    fn create(&mut self, name: &str) -> Result<(), DeskFault>
        ensures kept { ChangesRecord (after_create name.now result) (view self.old) (view self.new) }
        ensures call { IsCall view started_as (CountsFailure File) self.old self.new result };

    /// Reads the open file into the start of `buf`, and returns the number of bytes. 0 means its end, unless `buf` is
    /// empty.
    ///
    /// # Errors
    ///
    /// `Failed` if the device fails, or no file is open to read.
    fn read(&mut self, buf: &mut [u8]) -> Result<usize, DeskFault>
        ensures bound { IfOk result (λ n. n ≤ length buf.new) }
        ensures kept { ChangesRecord (after_read buf.new result) (view self.old) (view self.new) }
        ensures has_file { HasOpen is_to_read (view self.old) result }
        ensures call { IsCall view started_as (CountsFailure File) self.old self.new result };

    /// Writes to the created file, and returns the number of bytes written. An empty write waits until all is on the
    /// disk, if the file system can sync it.
    ///
    /// # Errors
    ///
    /// `Failed` if the device fails, or no created file is open.
    fn write(&mut self, bytes: &[u8]) -> Result<usize, DeskFault>
        ensures write { IsWrite view started_as File bytes.now self.old self.new result }
        ensures has_file { HasOpen is_to_write (view self.old) result };

    /// Writes to standard output.
    ///
    /// # Errors
    ///
    /// `Failed` if the device fails.
    fn out(&mut self, bytes: &[u8]) -> Result<usize, DeskFault>
        ensures write { IsWrite view started_as Output bytes.now self.old self.new result };

    /// Writes to the messages.
    ///
    /// # Errors
    ///
    /// `Failed` if the device fails.
    fn err(&mut self, bytes: &[u8]) -> Result<usize, DeskFault>
        ensures write { IsWrite view started_as Messages bytes.now self.old self.new result };
}

/// A desk that also locks a file and replaces it as a whole, for chip files. It holds at most one file.
pub trait ChipDesk: Desk {
    /// Locks a file for this desk alone, until it is replaced or released, or another one is held. The file need not
    /// exist. Returns false if a desk holds it already.
    ///
    /// # Errors
    ///
    /// `Failed` if the device fails, or shows that the file can't be replaced later.
    fn hold(&mut self, name: &str) -> Result<bool, DeskFault>
        ensures kept { ChangesRecord (after_hold name.now result) (Self.view self.old) (Self.view self.new) }
        ensures call { IsCall Self.view Self.started_as (CountsFailure File) self.old self.new result };

    /// Unlocks the held file, if there is one.
    fn release(&mut self)
        ensures released { Self.view self.new ≡ released (Self.view self.old) }
        ensures stays { Preserves Self.started_as self.old self.new };

    /// Checks that a file created by another name than the held one's would be another file than that, and than those
    /// that the desk makes beside it. Creates nothing. A desk without links and files of its own needs no such call.
    ///
    /// # Errors
    ///
    /// `Failed` if it would be one of these.
    fn check_name(&mut self, _name: &str) -> Result<(), DeskFault>
        ensures kept { ChangesRecord (λ kept. kept) (Self.view self.old) (Self.view self.new) }
        ensures call { IsCall Self.view Self.started_as (CountsFailure File) self.old self.new result }
    {
        Ok(())
    }

    /// Replaces a file as a whole, or creates it. A file that isn't held is locked meanwhile. Afterwards nothing is
    /// held.
    ///
    /// # Errors
    ///
    /// `Failed` if the device fails. The file is then either unchanged or replaced.
    fn replace(&mut self, name: &str, bytes: &[u8]) -> Result<(), DeskFault>
        ensures kept { Replaces name.now bytes.now result (Self.view self.old) (Self.view self.new) }
        ensures call { IsCall Self.view Self.started_as (CountsFailure File) self.old self.new result };
}
