//! Files by their names, over the single calls of a system. One run at a time replaces a file, as a whole or not at
//! all.
//!
//! The run locks NAME.avrstk-lock; the system unlocks it if the run is killed. The new bytes go to NAME.avrstk-new,
//! which only the lock holder touches. Once they are on the disk, that file is renamed to NAME. If there was no file to
//! replace, it gets NAME as a second name, which never takes the place of another file.
ghost use Rattle.std.specs.Prelude.{◌≡◌, ◌⊎◌, [], IfOk, MatchResult, OnOk, Option, Some};
ghost use Rattle.avr_desk.specs.Handles.{IsHeldBy};
ghost use Rattle.avr_desk.specs.Journal.{ChangesCalls, CrashLeavesNoMore, CrashMayAlsoLeave, IsUncounted, with_calls, made};
ghost use Rattle.avr_io.specs.Record.{Bytes};
ghost use Rattle.ghosts.specs.Preserves.{Preserves};

use crate::file_system::FileSystem;
use crate::folder::Folder;
use std::io;
use std::io::ErrorKind;

/// The lock on a file that is to be replaced, and what was at its place.
#[derive(Drop)]
pub struct Replacement<F: Folder> {
    held: F::Held,
    seen: Option<F::Seen>,
    parent: F::Parent,
    ghost saw: { ∥ F.saw held seen ∥₁ },
}

impl<F: Folder> Replacement<F> {
    /// Writes `bytes` to a new file, and waits until they are on the disk. Fails if the place has changed since it was
    /// locked.
    fn fill(&self, folder: &mut F, file: &mut F::New, bytes: &[u8]) -> io::Result<()>
        requires { F.has file.old [] }
        ensures ready { OnOk result (F.keeps file.new bytes.now
            × F.finds_seen_and_new folder.new self.now.seen file.new) }
        ensures stays { IsUncounted F.has_done F.left folder.old folder.new }
    {
        folder.write(file, bytes)?;
        folder.sync(file)?;
        folder.check_unchanged(&self.held, &self.seen, file)
    }

    /// Makes a new file with `bytes`, on the disk. Fails if the place has changed since it was locked.
    fn make_ready(&self, folder: &mut F, bytes: &[u8]) -> io::Result<F::New>
        ensures ready { IfOk result (λ it. F.keeps it bytes.now × F.finds_seen_and_new folder.new self.now.seen it) }
        ensures stays { IsUncounted F.has_done F.left folder.old folder.new }
    {
        let mut file = folder.make(&self.held, &self.seen)?;
        if let Err(error) = self.fill(folder, &mut file, bytes) {
            folder.discard(&self.held, file);
            return Err(error);
        }
        Ok(file)
    }

    /// Waits until the new name of a file is on the disk.
    fn settle(&self, folder: &mut F, placed: F::Placed) -> io::Result<()>
        ensures lasts { MatchResult result
            (λ done. (bytes : Bytes) → F.finds folder.old (F.held_name self.now.held) bytes
            → F.lasts (F.held_name self.now.held) bytes
            × ChangesCalls F.has_done (with_calls (made (F.held_name self.now.held))) folder.old folder.new)
            (λ error. Preserves F.has_done folder.old folder.new) }
        ensures spare { OnOk result (F.is_spare folder.new (F.held_name self.now.held)) }
        ensures keeps { CrashLeavesNoMore F.left folder.old folder.new }
    {
        folder.sync_name(&self.held, &self.parent)?;
        // The last call, because some file systems report a failure of the disk only here.
        folder.sync_placed(&self.held, placed)
    }

    /// Removes the new file if the call that needed it last succeeded. Returns that call's result.
    fn remove_after(&self, done: io::Result<()>, folder: &mut F) -> io::Result<()>
        requires { OnOk done (F.is_spare folder.old (F.held_name self.now.held)) }
        ensures same { result ≡ done }
        ensures stays { IsUncounted F.has_done F.left folder.old folder.new }
    {
        done?;
        folder.remove_new(&self.held);
        Ok(())
    }
}

impl<F: Folder> FileSystem for F {
    type File = F::File;

    type Input = F::Input;

    type Hold = Replacement<F>;

    ghost has_done = { F.has_done };

    ghost is_input = { F.is_input };

    ghost is_of = { F.is_of };

    ghost closed = { F.closed };

    ghost lacks = { F.lacks };

    ghost holds = { λ hold name. F.held_name hold.held ≡ name };

    ghost denies = { F.denies };

    ghost fails = { F.fails };

    ghost replaced = { F.lasts };

    ghost left = { F.left };

    ghost began = { F.began };

    fn input(&mut self) -> F::Input {
        Folder::input(self)
    }

    fn open_named(&mut self, name: &str, hold: Option<&Replacement<F>>) -> io::Result<F::File> {
        // Two arms make the same call, because the prover is slow if one arm is for both.
        match hold {
            None => self.open(name),
            Some(hold) if self.is_named(&hold.held, name) => {
                self.open_seen(&hold.held, &hold.seen)
            }
            Some(_) => self.open(name),
        }
    }

    fn create_named(&mut self, name: &str, hold: Option<&Replacement<F>>) -> io::Result<F::File> {
        let Some(hold) = hold else {
            return self.create(name);
        };
        self.check_not_held(name, &hold.held, &hold.seen)?;
        self.create(name)
    }

    fn check_named(&mut self, name: &str, hold: Option<&Replacement<F>>) -> io::Result<()> {
        match hold {
            Some(hold) => self.check_not_held(name, &hold.held, &hold.seen),
            None => Ok(()),
        }
    }

    fn close_file(&mut self, file: F::File) {
        self.close(file);
    }

    fn hold_named(&mut self, name: &str) -> io::Result<Option<Replacement<F>>> {
        let place = self.find(name)?;
        let parent = self.open_parent(&place)?;
        let Some(file) = self.open_lock(&place)? else {
            return Ok(None);
        };
        let Some(lock) = self.lock(&place, file)? else {
            return Ok(None);
        };
        let Some(held) = self.confirm(place, lock)? else {
            return Ok(None);
        };
        match self.see(&held) {
            Ok(seen) => Ok(Some(Replacement { held, seen, parent })),
            Err(error) => {
                self.unlock(held);
                Err(error)
            }
        }
    }

    fn is_held(&self, hold: &Replacement<F>, name: &str) -> bool {
        self.is_named(&hold.held, name)
    }

    fn put_held(&mut self, hold: &mut Replacement<F>, bytes: &[u8]) -> io::Result<()> {
        let file = hold.make_ready(self, bytes)?;
        let Some(seen) = &hold.seen else {
            let placed = self.place_new(&hold.held, file)?;
            return hold.remove_after(hold.settle(self, placed), self);
        };
        match self.rename(&hold.held, seen, file) {
            Ok(placed) => hold.settle(self, placed),
            // A mounted file can't be renamed over, so it is written in place.
            Err(error) if error.kind() == ErrorKind::ResourceBusy => {
                hold.remove_after(self.write_over(&hold.held, bytes), self)
            }
            // The new file stays, so that one of the two is always there.
            Err(error) => Err(error),
        }
    }

    fn leave_held(&mut self, hold: Replacement<F>) {
        self.unlock(hold.held);
    }
}

/// Replaces the file of this name with `bytes`. If `held` isn't its lock, the file is locked meanwhile.
pub(crate) fn replace_named<R: FileSystem>(
    system: &mut R,
    held: &mut Option<R::Hold>,
    name: &str,
    bytes: &[u8],
) -> io::Result<()>
    ensures put { MatchResult result
        (λ done. R.replaced name.now bytes.now
        × ChangesCalls R.has_done (with_calls (made name.now)) system.old system.new)
        (λ error. Preserves R.has_done system.old system.new) }
    ensures stays { (name : Option Bytes) → IsHeldBy R.FileSystem held.old name → IsHeldBy R.FileSystem held.new name }
    ensures leaves { CrashMayAlsoLeave R.left name.now (λ f. R.began name.now f ⊎ (f ≡ Some bytes.now)) system.old
        system.new }
{
    if let Some(hold) = held {
        if system.is_held(hold, name) {
            return system.put_held(hold, bytes);
        }
    }
    let Some(mut own) = system.hold_named(name)? else {
        return Err(io::Error::from(ErrorKind::WouldBlock));
    };
    let put = system.put_held(&mut own, bytes);
    system.leave_held(own);
    put
}
