ghost use Rattle.std.specs.Prelude.{⊤, string_bytes};

use crate::folder::Folder;
use crate::looks::{
    Attempt, Identity, Look, first_mode, forgiving, given, is_forgiven, is_same_file, is_unchanged,
    leads, locked, opened, permissions_after, unless,
};
use std::alloc::Global;
use std::fs::{File, Metadata, OpenOptions, Permissions};
use std::io::{ErrorKind, Read, Write};
use std::os::unix::fs::{MetadataExt, OpenOptionsExt, PermissionsExt, fchown};
use std::path::Path;
use std::rt::Files;
use std::{fs, io};

/// What the paths of lock file and new file have after the chip's.
const LOCK: &str = ".avrstk-lock";

const NEW: &str = ".avrstk-new";

/// A file. An empty write waits until it is on the disk, if the file system can sync it. A read that finds the end
/// closes it, so that it isn't open when another file gets its name.
#[derive(Drop)]
pub struct Synced(Option<File>);

impl Write for Synced {
    fn write(&mut self, bytes: &[u8]) -> io::Result<usize> {
        match &mut self.0 {
            Some(file) if bytes.is_empty() => {
                forgiving(Attempt::Sync, file.sync_all()).and(Ok(0))
            }
            Some(file) => file.write(bytes),
            None => Err(io::Error::from(ErrorKind::NotFound)),
        }
    }

    fn flush(&mut self) -> io::Result<()> {
        Ok(())
    }
}

impl Read for Synced {
    fn read(&mut self, buf: &mut [u8]) -> io::Result<usize> {
        let Some(file) = &mut self.0 else {
            return Ok(0);
        };
        let read = file.read(buf);
        if matches!(read, Ok(0)) && !buf.is_empty() {
            self.0 = None;
        }
        read
    }
}

/// A name, and the paths of the file that it leads to, of its lock file and of a new one.
#[derive(Drop)]
pub struct Place {
    name: String,
    path: String,
    lock: String,
    new: String,
}

/// A place with its lock file, open and locked.
#[derive(Drop)]
pub struct Held {
    place: Place,
    lock: File,
}

fn identity(file: &Metadata) -> Identity {
    let seconds = file.mtime().cast_unsigned().wrapping_mul(1_000_000_000);
    Identity {
        device: file.dev(),
        number: file.ino(),
        length: file.size(),
        written: seconds.wrapping_add(file.mtime_nsec().cast_unsigned()),
    }
}

fn own_identity(file: &File) -> io::Result<Identity> {
    Ok(identity(&file.metadata()?))
}

fn identity_of(found: &Option<Metadata>) -> Look {
    found.as_ref().map(identity)
}

/// Returns which file was found, if any.
fn identified(found: io::Result<Metadata>) -> io::Result<Look> {
    Ok(identity_of(&unless(ErrorKind::NotFound, found)?))
}

/// Returns the path of the file that a name leads to, so that a link stays. Fails if a link leads nowhere.
fn target<R: Files>(rt: &R, alloc: Global, name: &str) -> io::Result<String> {
    if is_link(rt.symlink_metadata(name))? {
        return Ok(rt.canonicalize(alloc, name)?.into_string());
    }
    Ok(String::from_str(alloc, name)?)
}

/// Returns the folder of a path.
fn folder_of(path: &str) -> &str {
    match Path::new(path).parent() {
        Some(folder) if !folder.as_str().is_empty() => folder.as_str(),
        _ => ".",
    }
}

/// Returns whether two paths have the same file name in the same folder.
fn is_one_place<R: Files>(rt: &R, one: &str, other: &str) -> io::Result<bool> {
    if Path::new(one).file_name() != Path::new(other).file_name() {
        return Ok(false);
    }
    let folder = rt.metadata(folder_of(one))?;
    let other = rt.metadata(folder_of(other))?;
    Ok(is_same_file(Some(identity(&folder)), Some(identity(&other))))
}

/// Returns what was found, if anything. Fails if it is no regular file.
fn regular(found: io::Result<Metadata>) -> io::Result<Option<Metadata>> {
    match unless(ErrorKind::NotFound, found) {
        Ok(Some(there)) if !there.is_file() => Err(io::Error::from(ErrorKind::InvalidInput)),
        found => found,
    }
}

/// Returns an opened file. Fails if it is no regular file.
fn only_regular(file: File) -> io::Result<File> {
    regular(file.metadata())?;
    Ok(file)
}

/// Opens a regular file to read and write. Unlike opening it to read, this doesn't wait at a pipe that got its name
/// meanwhile.
fn open_both_ways<R: Files<File = File>>(rt: &R, path: &str) -> io::Result<File> {
    only_regular(OpenOptions::new().read(true).write(true).open(rt, path)?)
}

/// Opens the regular file at `path`, if there is one. Links are not followed.
fn open_regular<R: Files<File = File>>(rt: &R, path: &str) -> io::Result<Option<File>> {
    if regular(rt.symlink_metadata(path))?.is_none() {
        return Ok(None);
    }
    match unless(ErrorKind::NotFound, open_both_ways(rt, path)) {
        // what another user left may be read only
        Err(error) if error.kind() == ErrorKind::PermissionDenied => {
            Ok(Some(only_regular(fs::open(rt, path)?)?))
        }
        opened => opened,
    }
}

/// Returns whether a link was found.
fn is_link(found: io::Result<Metadata>) -> io::Result<bool> {
    let found = unless(ErrorKind::NotFound, found)?;
    Ok(matches!(found, Some(there) if there.is_symlink()))
}

/// Returns whether the file at `path` is this open file. Links are not followed.
fn is_at<R: Files>(rt: &R, file: &File, path: &str) -> io::Result<bool> {
    let own = own_identity(file)?;
    Ok(is_same_file(Some(own), identified(rt.symlink_metadata(path))?))
}

/// Fails if a name leads to the lock file of a place, or to the path of its new file. An empty file is put there for a
/// moment, because a link may lead there though there is none.
fn check_apart<R: Files<File = File>>(rt: &R, name: &str, place: &Place) -> io::Result<()> {
    let new = place.new.as_str();
    let made = unless(ErrorKind::AlreadyExists, File::create_new(rt, new))?;
    let (there, beside) = (rt.metadata(name), rt.symlink_metadata(new));
    if made.is_some() {
        rt.remove_file(new)?;
    }
    let (there, beside) = (identified(there)?, identified(beside)?);
    let lock = identified(rt.symlink_metadata(place.lock.as_str()))?;
    if there.is_some() && (is_same_file(there, beside) || is_same_file(there, lock)) {
        return Err(io::Error::from(ErrorKind::ResourceBusy));
    }
    Ok(())
}

/// Gives a new file the old one's group, owner and permissions, as far as the system allows.
fn copy_owner_and_mode(new: &File, old: &Metadata) -> io::Result<()> {
    let own = new.metadata()?;
    let (group, owner) = (given(own.gid(), old.gid()), given(own.uid(), old.uid()));
    forgiving(Attempt::SetOwner, fchown(new, None, group))?;
    forgiving(Attempt::SetOwner, fchown(new, owner, None))?;
    let is_of_group = new.metadata()?.gid() == old.gid();
    new.set_permissions(Permissions::from_mode(permissions_after(old.mode(), is_of_group)))
}

impl<'a, R: Files<File = File> + Input + Alloc<A = Global>> Folder for &'a R {
    type File = Synced;

    type Input = R::Reader;

    type Place = Place;

    type Parent = Option<File>;

    type LockFile = File;

    type Lock = File;

    type Held = Held;

    type Seen = Metadata;

    type New = File;

    type Placed = File;

    ghost has_done = { λ done system. ⊤ };

    ghost left = { λ system name found. ⊥ };

    ghost began = { λ name found. ⊤ };

    ghost lasts = { λ name bytes. ⊤ };

    ghost finds = { λ system name bytes. ⊤ };

    ghost finds_synced = { λ system name bytes. ⊤ };

    ghost is_spare = { λ system name. ⊤ };

    ghost saw = { λ held seen. ⊤ };

    ghost finds_seen_and_new = { λ system seen file. ⊤ };

    ghost leads_to_no_held_file = { λ system name. ⊤ };

    ghost is_free = { λ system name. ⊤ };

    ghost name_of = { λ place. string_bytes place.name };

    ghost held_name = { λ held. string_bytes held.place.name };

    ghost is_mounted = { λ name. ⊤ };

    ghost denies = { λ name. ⊤ };

    ghost fails = { λ name error. ⊤ };

    ghost has = { λ file bytes. ⊤ };

    ghost keeps = { λ file bytes. ⊤ };

    ghost is_input = { λ input. ⊤ };

    ghost is_of = { λ file name. ⊤ };

    ghost closed = { λ file. ⊤ };

    ghost lacks = { λ name. ⊤ };

    fn input(&mut self) -> R::Reader {
        self.reader()
    }

    fn open(&mut self, name: &str) -> io::Result<Synced> {
        // Runs make these files beside a chip, and remove them.
        let target = target(*self, self.alloc(), name);
        let path = target.as_ref().map_or(name, |path| path.as_str());
        if path.ends_with(LOCK) || path.ends_with(NEW) {
            return Err(io::Error::from(ErrorKind::ResourceBusy));
        }
        Ok(Synced(Some(fs::open(*self, name)?)))
    }

    fn create(&mut self, name: &str) -> io::Result<Synced> {
        Ok(Synced(Some(fs::create(*self, name)?)))
    }

    fn close(&mut self, file: Synced) {
        drop(file);
    }

    fn find(&mut self, name: &str) -> io::Result<Place> {
        let alloc = self.alloc();
        let path = target(*self, alloc, name)?;
        Ok(Place {
            name: String::from_str(alloc, name)?,
            lock: [path.as_str(), LOCK].concat(alloc)?,
            new: [path.as_str(), NEW].concat(alloc)?,
            path,
        })
    }

    fn open_parent(&mut self, place: &Place) -> io::Result<Option<File>> {
        let folder = folder_of(place.path.as_str());
        unless(ErrorKind::PermissionDenied, fs::open(*self, folder))
    }

    fn open_lock(&mut self, place: &Place) -> io::Result<Option<File>> {
        let path = place.lock.as_str();
        match unless(ErrorKind::AlreadyExists, File::create_new(*self, path)) {
            Ok(None) => open_regular(*self, path),
            made => made,
        }
    }

    fn lock(&mut self, _place: &Place, file: File) -> io::Result<Option<File>> {
        let tried = file.try_lock();
        locked(file, tried)
    }

    fn confirm(&mut self, place: Place, lock: File) -> io::Result<Option<Held>> {
        let is_own = is_at(*self, &lock, place.lock.as_str())?;
        Ok(is_own.then_some(Held { place, lock }))
    }

    fn is_named(&self, held: &Held, name: &str) -> bool {
        held.place.name.as_str() == name
    }

    fn see(&mut self, held: &Held) -> io::Result<Option<Metadata>> {
        let (files, path) = (*self, held.place.path.as_str());
        if regular(files.metadata(path))?.is_none() {
            return Ok(None);
        }
        Ok(Some(open_both_ways(files, path)?.metadata()?))
    }

    fn open_seen(&mut self, held: &Held, seen: &Option<Metadata>) -> io::Result<Synced> {
        let path = held.place.path.as_str();
        let file = unless(ErrorKind::NotFound, open_both_ways(*self, path))?;
        let there = file.as_ref().map(own_identity);
        Ok(Synced(Some(opened(identity_of(seen), file, there)?)))
    }

    fn check_not_held(
        &mut self,
        name: &str,
        held: &Held,
        seen: &Option<Metadata>,
    ) -> io::Result<()> {
        let rt = *self;
        let there = identified(rt.metadata(name))?;
        let is_link = is_link(rt.symlink_metadata(name))?;
        let is_place = is_one_place(rt, name, held.place.path.as_str())?;
        if leads(identity_of(seen), there, is_link, is_place) {
            return Err(io::Error::from(ErrorKind::ResourceBusy));
        }
        check_apart(rt, name, &held.place)
    }

    fn make(&mut self, held: &Held, seen: &Option<Metadata>) -> io::Result<File> {
        let path = held.place.new.as_str();
        let _ = self.remove_file(path);
        let file = OpenOptions::new()
            .write(true)
            .create_new(true)
            .mode(first_mode(seen.is_some()))
            .open(*self, path)?;
        if let Some(old) = seen {
            if let Err(error) = copy_owner_and_mode(&file, old) {
                self.discard(held, file);
                return Err(error);
            }
        }
        Ok(file)
    }

    fn write(&mut self, file: &mut File, bytes: &[u8]) -> io::Result<()> {
        file.write_all(bytes)
    }

    fn sync(&mut self, file: &mut File) -> io::Result<()> {
        file.sync_all()
    }

    fn check_unchanged(
        &mut self,
        held: &Held,
        seen: &Option<Metadata>,
        file: &File,
    ) -> io::Result<()> {
        let (first, path) = (held.place.new.as_str(), held.place.path.as_str());
        let is_own = is_at(*self, file, first)?;
        // Renaming a file to its own name changes nothing, but waits for what others have begun in the folder. So the
        // last look, right before the new file gets the name, sees what they did.
        fs::rename(*self, first, first)?;
        if is_own && is_unchanged(identity_of(seen), identified(self.symlink_metadata(path))?) {
            return Ok(());
        }
        Err(io::Error::from(ErrorKind::AlreadyExists))
    }

    fn discard(&mut self, held: &Held, file: File) {
        let _ = self.remove_file(held.place.new.as_str());
        drop(file);
    }

    fn place_new(&mut self, held: &Held, file: File) -> io::Result<File> {
        let (new, path) = (held.place.new.as_str(), held.place.path.as_str());
        // If the file system has no hard links, only the look before keeps another file from being replaced.
        match self.hard_link(new, path) {
            Err(error) if is_forgiven(Attempt::Link, error.kind()) => fs::rename(*self, new, path)?,
            linked => linked?,
        }
        Ok(file)
    }

    fn rename(&mut self, held: &Held, _seen: &Metadata, file: File) -> io::Result<File> {
        fs::rename(*self, held.place.new.as_str(), held.place.path.as_str())?;
        Ok(file)
    }

    fn sync_name(&mut self, _held: &Held, parent: &Option<File>) -> io::Result<()> {
        match parent {
            Some(folder) => forgiving(Attempt::Sync, folder.sync_all()),
            None => Ok(()),
        }
    }

    fn sync_placed(&mut self, _held: &Held, placed: File) -> io::Result<()> {
        placed.sync_all()
    }

    fn write_over(&mut self, held: &Held, bytes: &[u8]) -> io::Result<()> {
        let mut file = fs::create(*self, held.place.path.as_str())?;
        file.write_all(bytes)?;
        file.sync_all()
    }

    fn remove_new(&mut self, held: &Held) {
        let _ = self.remove_file(held.place.new.as_str());
    }

    fn unlock(&mut self, held: Held) {
        let _ = self.remove_file(held.place.lock.as_str());
        drop(held);
    }
}
