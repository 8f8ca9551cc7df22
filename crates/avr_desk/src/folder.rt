ghost use Rattle.std.specs.Prelude.{◌≡◌, ◌⊎◌, ◌++◌, ◌∷◌, [], true, false, IfErr, IfOk, MatchOption, MatchResult, None, OnOk, Option, Some};
ghost use Rattle.std.specs.IoError.{error_kind};
ghost use Rattle.std.specs.declared.io.Error.{Error};
ghost use Rattle.avr_desk.specs.Journal.{AddsCalls, Counts, ChangesCalls, SystemCalls, Gives, CrashMayAlsoLeave, CrashLeavesNoMore, Opens, IsUncounted, TakesHold, with_calls, with_one_more_held, made};
ghost use Rattle.avr_io.specs.Record.{Bytes};
ghost use Rattle.ghosts.specs.Preserves.{Preserves};

use std::io;
use std::io::{ErrorKind, Read, Write};

/// The steps on files that a system makes, each by one call or a few. [`crate::FileSystem`]'s implementation over any `Folder` is proved. Only
/// tests show that the calls of a real system do as asked.
///
/// A clause covers the call and what other processes did since the last one. It assumes that they leave a locked file
/// alone, and the new file beside it.
pub trait Folder {
    /// An opened or created file.
    type File: Read + Write + Drop;

    /// A reader of standard input.
    type Input: Read + Drop;

    /// Where a name leads: the paths of the file, of its lock file and of a new file.
    type Place: Drop;

    /// The folder of a place, opened to sync its names.
    type Parent: Drop;

    /// An opened lock file.
    type LockFile: Drop;

    /// A locked lock file. Others can lock it once this is dropped.
    type Lock: Drop;

    /// A place with its locked lock file, which still had its name after the lock, so that other runs find it.
    type Held: Drop;

    /// Which file was at a place. No file is kept open: some systems hide an open file when another one gets its name.
    type Seen: Drop;

    /// A new file beside a place, still open.
    type New: Drop;

    /// A new file that got the name of its place, still open.
    type Placed: Drop;

    /// All calls that succeeded since the system was new. A file counts as held from [`Folder::confirm`] to
    /// [`Folder::unlock`].
    ghost has_done: { SystemCalls → Self → Type 0 };

    /// While this run held the file of this name, a crash until now might have left a file of these bytes, or none. A
    /// place where another file is mounted doesn't count.
    ghost left: { Self → Bytes → Option Bytes → Type 0 };

    /// When the run locked the file of this name, it had these bytes, or there was none.
    ghost began: { Bytes → Option Bytes → Type 0 };

    /// From some moment on each crash leaves these bytes under this name, until the run replaces them again.
    ghost lasts: { Bytes → Bytes → Type 0 };

    /// There is a file of these bytes under this name.
    ghost finds: { Self → Bytes → Bytes → Type 0 };

    /// There is a file of these bytes under this name, and the sync of its folder has reported no error. Some systems
    /// report only when a file is synced that the folder can't be.
    ghost finds_synced: { Self → Bytes → Bytes → Type 0 };

    /// The new file beside the place of this name isn't needed, because the new bytes are at the place.
    ghost is_spare: { Self → Bytes → Type 0 };

    /// This was found at the held place.
    ghost saw: { Self.Held → Option Self.Seen → Type 0 };

    /// What was seen at the place is still there, a file or none, and the new file still has its first name.
    ghost finds_seen_and_new: { Self → Option Self.Seen → Self.New → Type 0 };

    /// The name doesn't lead to a file that this run holds, or makes beside it.
    ghost leads_to_no_held_file: { Self → Bytes → Type 0 };

    /// This run holds no file by this name.
    ghost is_free: { Self → Bytes → Type 0 };

    /// The name by which the place was found.
    ghost name_of: { Self.Place → Bytes };

    /// The name of the held file.
    ghost held_name: { Self.Held → Bytes };

    /// Another file is mounted at the place of this name.
    ghost is_mounted: { Bytes → Type 0 };

    /// Another process held the file of this name.
    ghost denies: { Bytes → Type 0 };

    /// A call that was to hold the file of this name failed with this error.
    ghost fails: { Bytes → Error → Type 0 };

    /// The new file has these bytes.
    ghost has: { Self.New → Bytes → Type 0 };

    /// The new file has these bytes after each crash.
    ghost keeps: { Self.New → Bytes → Type 0 };

    /// The reader is standard input as the system gives it.
    ghost is_input: { Self.Input → Type 0 };

    /// The file was created by this name, or opened by it. If this run held the file of the name, that is the one that
    /// was there when it was locked.
    ghost is_of: { Self.File → Bytes → Type 0 };

    /// The file was closed in this state.
    ghost closed: { Self.File → Type 0 };

    /// No file had this name. If this run held the file of the name, there was none when it was locked either.
    ghost lacks: { Bytes → Type 0 };

    /// Returns a reader of standard input.
    fn input(&mut self) -> Self::Input
        ensures begins { is_input result }
        ensures keeps { CrashLeavesNoMore left self.old self.new }
        ensures gives { ChangesCalls has_done (with_calls (Gives ∷ [])) self.old self.new };

    /// Opens a file for reading. Fails if its name is one that a run gives to files beside a chip.
    fn open(&mut self, name: &str) -> io::Result<Self::File>
        ensures named { Counts has_done 0 self.old ⊎ is_free self.old name.now
            → MatchResult result (λ file. is_of file name.now)
            (λ error. error_kind error ≡ ErrorKind.NotFound → lacks name.now) }
        ensures opens { AddsCalls has_done (Opens name.now ∷ []) self.old self.new result }
        ensures keeps { CrashLeavesNoMore left self.old self.new };

    /// Creates a file, or empties an existing one.
    fn create(&mut self, name: &str) -> io::Result<Self::File>
        ensures named { IfOk result (λ file. is_of file name.now) }
        ensures creates { AddsCalls has_done (made name.now) self.old self.new result }
        ensures alone { Counts has_done 0 self.old → CrashLeavesNoMore left self.old self.new }
        ensures keeps { leads_to_no_held_file self.old name.now → CrashLeavesNoMore left self.old self.new };

    /// Closes a file that was written.
    fn close(&mut self, file: Self::File)
        ensures closes { closed file }
        ensures stays { IsUncounted has_done left self.old self.new };

    /// Finds where a name leads.
    fn find(&mut self, name: &str) -> io::Result<Self::Place>
        ensures named { MatchResult result (λ place. name_of place ≡ name.now) (fails name.now) }
        ensures stays { IsUncounted has_done left self.old self.new };

    /// Opens the folder of a place. A folder that may not be read counts as opened.
    fn open_parent(&mut self, place: &Self::Place) -> io::Result<Self::Parent>
        ensures fails { IfErr result (fails (name_of place.now)) }
        ensures stays { IsUncounted has_done left self.old self.new };

    /// Opens the lock file of a place, or creates it. Returns `None` if another run just removed it.
    fn open_lock(&mut self, place: &Self::Place) -> io::Result<Option<Self::LockFile>>
        ensures denied { MatchResult result
            (λ file. MatchOption file (denies (name_of place.now)) (λ file. Unit {0})) (fails (name_of place.now)) }
        ensures stays { IsUncounted has_done left self.old self.new };

    /// Locks the lock file. Returns `None` if another process has locked it.
    fn lock(&mut self, place: &Self::Place, file: Self::LockFile) -> io::Result<Option<Self::Lock>>
        ensures denied { MatchResult result
            (λ lock. MatchOption lock (denies (name_of place.now)) (λ lock. Unit {0})) (fails (name_of place.now)) }
        ensures stays { IsUncounted has_done left self.old self.new };

    /// Holds the place if the lock file still has its name. Returns `None` if another run removed it since it was
    /// opened.
    fn confirm(&mut self, place: Self::Place, lock: Self::Lock) -> io::Result<Option<Self::Held>>
        ensures holds { TakesHold has_done (λ held. held_name held ≡ name_of place) (denies (name_of place))
            (fails (name_of place)) self.old self.new result }
        ensures leaves { CrashMayAlsoLeave left (name_of place) (began (name_of place)) self.old self.new };

    /// Returns whether the held file has this name.
    fn is_named(&self, held: &Self::Held, name: &str) -> bool
        ensures same { result ≡ true → held_name held.now ≡ name.now }
        ensures only { held_name held.now ≡ name.now → result ≡ true }
        ensures other { result ≡ false → Counts has_done 1 self.now → is_free self.now name.now };

    /// Returns which file is at a place, if any. Fails if the file may not be written.
    fn see(&mut self, held: &Self::Held) -> io::Result<Option<Self::Seen>>
        ensures saw { MatchResult result (λ seen. ∥ saw held.now seen ∥₁) (fails (held_name held.now)) }
        ensures stays { IsUncounted has_done left self.old self.new };

    /// Opens the file at a place for reading. Fails if it isn't the one that was seen. `NotFound` means that none was
    /// seen and none is there.
    fn open_seen(&mut self, held: &Self::Held, seen: &Option<Self::Seen>) -> io::Result<Self::File>
        requires { ∥ saw held.now seen.now ∥₁ }
        ensures named { MatchResult result (λ file. is_of file (held_name held.now))
            (λ error. error_kind error ≡ ErrorKind.NotFound → lacks (held_name held.now)) }
        ensures opens { AddsCalls has_done (Opens (held_name held.now) ∷ []) self.old self.new result }
        ensures keeps { CrashLeavesNoMore left self.old self.new };

    /// Fails with `ResourceBusy` if a name leads to the held place, to the file that was seen there, to the lock file, or
    /// to where the new file is made.
    fn check_not_held(
        &mut self,
        name: &str,
        held: &Self::Held,
        seen: &Option<Self::Seen>,
    ) -> io::Result<()>
        requires { ∥ saw held.now seen.now ∥₁ }
        ensures apart { OnOk result (Counts has_done 1 self.new → leads_to_no_held_file self.new name.now) }
        ensures stays { IsUncounted has_done left self.old self.new };

    /// Creates an empty new file with the owner and the permissions of the file that was seen. Before that it removes
    /// the one that an ended run has left.
    fn make(&mut self, held: &Self::Held, seen: &Option<Self::Seen>) -> io::Result<Self::New>
        requires { ∥ saw held.now seen.now ∥₁ }
        ensures empty { IfOk result (λ file. has file []) }
        ensures stays { IsUncounted has_done left self.old self.new };

    /// Appends to the new file.
    fn write(&mut self, file: &mut Self::New, bytes: &[u8]) -> io::Result<()>
        ensures written { OnOk result ((before : Bytes) → has file.old before → has file.new (before ++ bytes.now)) }
        ensures stays { IsUncounted has_done left self.old self.new };

    /// Waits until the new file is on the disk.
    fn sync(&mut self, file: &mut Self::New) -> io::Result<()>
        ensures synced { OnOk result ((bytes : Bytes) → has file.old bytes → keeps file.new bytes) }
        ensures stays { IsUncounted has_done left self.old self.new };

    /// Fails with `AlreadyExists` unless what was seen is still at the place, and the new file still has its name.
    fn check_unchanged(
        &mut self,
        held: &Self::Held,
        seen: &Option<Self::Seen>,
        file: &Self::New,
    ) -> io::Result<()>
        requires { ∥ saw held.now seen.now ∥₁ }
        ensures found { OnOk result (finds_seen_and_new self.new seen.now file.now) }
        ensures stays { IsUncounted has_done left self.old self.new };

    /// Removes a new file that has got no place.
    fn discard(&mut self, held: &Self::Held, file: Self::New)
        ensures stays { IsUncounted has_done left self.old self.new };

    /// Gives the place to the new file, only if nothing is there. The new file may keep its first name too. After an
    /// error it stays.
    fn place_new(&mut self, held: &Self::Held, file: Self::New) -> io::Result<Self::Placed>
        requires { finds_seen_and_new self.old None file }
        ensures only { IfOk result (λ placed. lacks (held_name held.now)) }
        ensures whole { (bytes : Bytes) → keeps file bytes
            → CrashMayAlsoLeave left (held_name held.now) (λ found. found ≡ Some bytes) self.old self.new }
        ensures placed { IfOk result (λ placed. (bytes : Bytes) → keeps file bytes
            → finds self.new (held_name held.now) bytes) }
        ensures stays { Preserves has_done self.old self.new };

    /// Renames the new file over the one that was seen. After an error it stays.
    fn rename(
        &mut self,
        held: &Self::Held,
        seen: &Self::Seen,
        file: Self::New,
    ) -> io::Result<Self::Placed>
        requires { finds_seen_and_new self.old (Some seen.now) file }
        ensures whole { (bytes : Bytes) → keeps file bytes
            → CrashMayAlsoLeave left (held_name held.now) (λ found. found ≡ Some bytes) self.old self.new }
        ensures placed { IfOk result (λ placed. (bytes : Bytes) → keeps file bytes
            → finds self.new (held_name held.now) bytes) }
        ensures busy { IfErr result (λ e. error_kind e ≡ ErrorKind.ResourceBusy → is_mounted (held_name held.now)) }
        ensures stays { Preserves has_done self.old self.new };

    /// Waits until the names in the folder are on the disk. A folder that may not be read, or can't be synced, counts
    /// as synced.
    fn sync_name(&mut self, held: &Self::Held, parent: &Self::Parent) -> io::Result<()>
        ensures synced { OnOk result ((bytes : Bytes) → finds self.old (held_name held.now) bytes
            → finds_synced self.new (held_name held.now) bytes) }
        ensures stays { IsUncounted has_done left self.old self.new };

    /// Syncs the placed file once more, and closes it. So an error of the disk that the sync of its folder didn't
    /// report is reported.
    fn sync_placed(&mut self, held: &Self::Held, placed: Self::Placed) -> io::Result<()>
        ensures lasts { MatchResult result
            (λ done. (bytes : Bytes) → finds_synced self.old (held_name held.now) bytes
            → lasts (held_name held.now) bytes
            × ChangesCalls has_done (with_calls (made (held_name held.now))) self.old self.new)
            (λ error. Preserves has_done self.old self.new) }
        ensures spare { OnOk result (is_spare self.new (held_name held.now)) }
        ensures keeps { CrashLeavesNoMore left self.old self.new };

    /// Overwrites the file in place and waits until it is on the disk. A crash before that may leave any part.
    fn write_over(&mut self, held: &Self::Held, bytes: &[u8]) -> io::Result<()>
        requires { is_mounted (held_name held.now) }
        ensures lasts { OnOk result (lasts (held_name held.now) bytes.now) }
        ensures writes { AddsCalls has_done (made (held_name held.now)) self.old self.new result }
        ensures spare { OnOk result (is_spare self.new (held_name held.now)) }
        ensures keeps { CrashLeavesNoMore left self.old self.new };

    /// Removes the new file's first name, if it is still there. This must not remove the only copy of the new bytes.
    fn remove_new(&mut self, held: &Self::Held)
        requires { is_spare self.old (held_name held.now) }
        ensures stays { IsUncounted has_done left self.old self.new };

    /// Removes the lock file and unlocks it.
    fn unlock(&mut self, held: Self::Held)
        ensures leaves { (done : SystemCalls) → has_done (with_one_more_held done) self.old → has_done done self.new }
        ensures keeps { CrashLeavesNoMore left self.old self.new };
}
