//! The files of a system by their names, as a program's desk uses them.
ghost use Rattle.std.specs.Prelude.{◌≡◌, ◌∷◌, [], IfOk, MatchResult, Option, Some, true};
ghost use Rattle.std.specs.IoError.{error_kind};
ghost use Rattle.std.specs.declared.io.Error.{Error};
ghost use Rattle.std.specs.Option.{option_copied, option_len};
ghost use Rattle.avr_desk.specs.Journal.{AddsCalls, Counts, ChangesCalls, SystemCalls, Gives, CrashMayAlsoLeave, CrashLeavesNoMore, Opens, IsUncounted, TakesHold, with_calls, with_one_more_held, made};
ghost use Rattle.avr_io.specs.Record.{Bytes};
ghost use Rattle.ghosts.specs.Preserves.{Preserves};

use std::io;
use std::io::{ErrorKind, Read, Write};

/// Opens, creates and replaces a system's files by their names, and gives standard input. Only these calls ensure what
/// the ghost members state. So a desk records of a name only what the system returned for it, and its record has every
/// call that the system did.
///
/// Each [`crate::Folder`] is a `FileSystem`, and so is a reference to a runtime with the system's files and input.
/// Only tests show that a runtime's single calls do as asked.
pub trait FileSystem {
    /// An opened or created file.
    type File: Read + Write + Drop;

    /// A reader of standard input.
    type Input: Read + Drop;

    /// The lock on a file that is to be replaced.
    type Hold: Drop;

    /// All calls that succeeded since the system was new.
    ghost has_done: { SystemCalls → Self → Type 0 };

    /// The reader is standard input as the system gives it.
    ghost is_input: { Self.Input → Type 0 };

    /// The file was created by this name, or opened by it. If this run held the file of the name, that is the one that
    /// was there when it was locked.
    ghost is_of: { Self.File → Bytes → Type 0 };

    /// The file was closed in this state.
    ghost closed: { Self.File → Type 0 };

    /// No file had this name. If this run held the file of the name, there was none when it was locked either.
    ghost lacks: { Bytes → Type 0 };

    /// The lock is on the file of this name.
    ghost holds: { Self.Hold → Bytes → Type 0 };

    /// Another process held the file of this name.
    ghost denies: { Bytes → Type 0 };

    /// A call that was to hold the file of this name failed with this error.
    ghost fails: { Bytes → Error → Type 0 };

    /// The file of this name was replaced with these bytes. From some moment on each crash leaves them, until the run
    /// replaces the file again.
    ghost replaced: { Bytes → Bytes → Type 0 };

    /// While this run held the file of this name, a crash until now might have left a file of these bytes, or none.
    /// Writes in place don't count: where another file is mounted, or through a file created before it was held.
    ghost left: { Self → Bytes → Option Bytes → Type 0 };

    /// When the run locked the file of this name, it had these bytes, or there was none.
    ghost began: { Bytes → Option Bytes → Type 0 };

    /// Returns a reader of standard input.
    fn input(&mut self) -> Self::Input
        ensures begins { is_input result }
        ensures keeps { CrashLeavesNoMore left self.old self.new }
        ensures gives { ChangesCalls has_done (with_calls (Gives ∷ [])) self.old self.new };

    /// Opens a file for reading. `hold` is what this run holds.
    ///
    /// # Errors
    ///
    /// The system's error, `NotFound` if there is no such file, and `ResourceBusy` if the file is held and another one
    /// has its name by now, or none.
    fn open_named(&mut self, name: &str, hold: Option<&Self::Hold>) -> io::Result<Self::File>
        ensures named { Counts has_done (option_len (option_copied hold.entry)) self.old
            → MatchResult result (λ file. is_of file name.now)
            (λ error. error_kind error ≡ ErrorKind.NotFound → lacks name.now) }
        ensures opens { AddsCalls has_done (Opens name.now ∷ []) self.old self.new result }
        ensures keeps { CrashLeavesNoMore left self.old self.new };

    /// Creates a file, or empties an existing one, but never the held one. `hold` is what this run holds.
    ///
    /// # Errors
    ///
    /// The system's error, `ResourceBusy` if the file is held.
    fn create_named(&mut self, name: &str, hold: Option<&Self::Hold>) -> io::Result<Self::File>
        ensures named { IfOk result (λ file. is_of file name.now) }
        ensures creates { AddsCalls has_done (made name.now) self.old self.new result }
        ensures keeps { Counts has_done (option_len (option_copied hold.entry)) self.old
            → CrashLeavesNoMore left self.old self.new };

    /// Fails with `ResourceBusy` if a file created by this name would be the held one, or one that a run makes beside it.
    /// `hold` is what this run holds.
    fn check_named(&mut self, name: &str, hold: Option<&Self::Hold>) -> io::Result<()>
        ensures stays { IsUncounted has_done left self.old self.new };

    /// Closes a file that was written.
    fn close_file(&mut self, file: Self::File)
        ensures closes { closed file }
        ensures stays { IsUncounted has_done left self.old self.new };

    /// Locks the file of this name, to replace it later. Returns `None` if another process has locked it.
    ///
    /// # Errors
    ///
    /// The system's error.
    fn hold_named(&mut self, name: &str) -> io::Result<Option<Self::Hold>>
        ensures locks { TakesHold has_done (λ hold. holds hold name.now) (denies name.now) (fails name.now)
            self.old self.new result }
        ensures leaves { CrashMayAlsoLeave left name.now (began name.now) self.old self.new };

    /// Returns whether `hold` is the lock on the file of this name.
    fn is_held(&self, hold: &Self::Hold, name: &str) -> bool
        ensures held { result ≡ true → holds hold.now name.now }
        ensures only { holds hold.now name.now → result ≡ true };

    /// Replaces the held file with `bytes`, all of them or none.
    ///
    /// # Errors
    ///
    /// The system's error. The file may still have been replaced.
    fn put_held(&mut self, hold: &mut Self::Hold, bytes: &[u8]) -> io::Result<()>
        ensures put { MatchResult result
            (λ done. (name : Bytes) → holds hold.old name
            → replaced name bytes.now × ChangesCalls has_done (with_calls (made name)) self.old self.new)
            (λ error. Preserves has_done self.old self.new) }
        ensures stays { (name : Bytes) → holds hold.old name → holds hold.new name }
        ensures leaves { (name : Bytes) → holds hold.old name
            → CrashMayAlsoLeave left name (λ found. found ≡ Some bytes.now) self.old self.new };

    /// Unlocks a held file.
    fn leave_held(&mut self, hold: Self::Hold)
        ensures leaves { (done : SystemCalls) → has_done (with_one_more_held done) self.old → has_done done self.new }
        ensures keeps { CrashLeavesNoMore left self.old self.new };
}
