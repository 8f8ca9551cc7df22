//! What follows from the results of system calls. Nothing here makes a call.
ghost use Rattle.std.specs.Prelude.{◌≡◌, ◌==◌, ◌&&◌, ◌%◌, ◌*◌, bit_and, bit_or, if◌then◌else◌, IfOk, IfErr, OnOk, MatchOption, MatchResult, None, Ok, Err, Option, Some, true, false};
ghost use Rattle.std.specs.IoError.{error_kind};
ghost use Rattle.std.specs.Option.{is_none};
ghost use Rattle.avr_desk.specs.Looks.{is_forgiven, is_same_file, is_unchanged, leads, locked};

use std::fs::TryLockError;
use std::io;
use std::io::ErrorKind;
use std::io::ErrorKind::{InvalidInput, PermissionDenied, TooManyLinks, Unsupported};

/// Which file it is, as long as the file exists. Its length and the time of the last write, in nanoseconds, tell
/// whether somebody has written to it.
#[derive(Clone, Copy, PartialEq)]
pub(crate) struct Identity {
    pub(crate) device: u64,
    pub(crate) number: u64,
    pub(crate) length: u64,
    pub(crate) written: u64,
}

/// What a look at a name found: which file, or none.
pub(crate) type Look = Option<Identity>;

/// A call that not every file system can do, or that not every user may do. Some of its errors count as success:
/// docs/DECISIONS lists them.
#[derive(Clone, Copy)]
pub(crate) enum Attempt {
    Sync,
    Link,
    SetOwner,
}

/// Returns whether two looks found the same file, or none.
pub(crate) fn is_same_file(one: Look, other: Look) -> bool
    ensures { result ≡ is_same_file one other }
{
    match (one, other) {
        (Some(one), Some(other)) => one.device == other.device && one.number == other.number,
        (None, None) => true,
        _ => false,
    }
}

/// Returns whether two looks found the same file, which nobody has written to in between, or none.
pub(crate) fn is_unchanged(one: Look, other: Look) -> bool
    ensures { result ≡ is_unchanged one other }
{
    one == other
}

/// Returns `None` in place of an error of this kind.
pub(crate) fn unless<T>(kind: ErrorKind, given: io::Result<T>) -> io::Result<Option<T>>
    ensures { MatchResult given (λ it. result ≡ Ok (Some it)) (λ error.
        (error_kind error ≡ kind → result ≡ Ok None) × ((error_kind error ≡ kind → ⊥) → result ≡ Err error)) }
{
    match given {
        Ok(it) => Ok(Some(it)),
        Err(error) if error.kind() == kind => Ok(None),
        Err(error) => Err(error),
    }
}

/// Returns the locked file, or `None` if another process has locked it.
pub(crate) fn locked<T: Drop>(file: T, tried: Result<(), TryLockError>) -> io::Result<Option<T>>
    ensures { result ≡ locked file tried }
{
    match tried {
        Ok(()) => Ok(Some(file)),
        Err(TryLockError::WouldBlock) => Ok(None),
        Err(TryLockError::Error(error)) => Err(error),
    }
}

/// Returns the opened file if it is the one that was seen, unchanged. The error is `NotFound` only if two looks found none,
/// because an error about an open file doesn't mean that the file is absent.
pub(crate) fn opened<T: Drop>(
    seen: Look,
    file: Option<T>,
    there: Option<io::Result<Identity>>,
) -> io::Result<T>
    ensures same { OnOk result (MatchOption there ⊥ (λ it. IfOk it (λ own. is_unchanged seen (Some own) ≡ true))) }
    ensures absent { IfErr result (λ e. error_kind e ≡ ErrorKind.NotFound → is_none seen && is_none file ≡ true) }
{
    match (file, there) {
        (Some(file), Some(Ok(own))) if is_unchanged(seen, Some(own)) => Ok(file),
        (None, _) if seen.is_none() => Err(io::Error::from(ErrorKind::NotFound)),
        _ => Err(io::Error::from(ErrorKind::ResourceBusy)),
    }
}

/// Returns whether this error of a call counts as success.
pub(crate) fn is_forgiven(call: Attempt, kind: ErrorKind) -> bool
    ensures { result ≡ is_forgiven call kind }
{
    match call {
        // pipes, terminals, and folders of some file systems
        Attempt::Sync => matches!(kind, InvalidInput),
        // file systems without hard links
        Attempt::Link => matches!(kind, PermissionDenied | TooManyLinks | Unsupported),
        // a user who may not, an owner that the container doesn't have, and file systems without owners
        Attempt::SetOwner => matches!(kind, PermissionDenied | InvalidInput | Unsupported),
    }
}

/// Returns the result of a call, or success in place of an error that counts so.
pub(crate) fn forgiving(call: Attempt, given: io::Result<()>) -> io::Result<()>
    ensures { MatchResult given (λ done. result ≡ given)
        (λ error. result ≡ (if is_forgiven call (error_kind error) then Ok tt else given)) }
{
    match given {
        Err(error) if is_forgiven(call, error.kind()) => Ok(()),
        given => given,
    }
}

/// Returns whether a file created by a name may be the held one: the name is that of the held place, or leads to the
/// file seen there. Or it is a link that leads nowhere while the place is empty.
pub(crate) fn leads(seen: Look, there: Look, is_link: bool, is_place: bool) -> bool
    ensures { result ≡ leads seen there is_link is_place }
{
    match there {
        Some(_) => is_place || is_same_file(seen, there),
        None => is_place || (is_link && seen.is_none()),
    }
}

/// Returns the mode that a new file is created with. If it replaces a file, only its owner may open it until it has the
/// old permissions. Otherwise the umask restricts it as usual.
pub(crate) fn first_mode(is_replacing: bool) -> u32
    ensures { result ≡ (if is_replacing then 0o600 else 0o666) }
{
    if is_replacing { 0o600 } else { 0o666 }
}

/// Returns the owner or group to set on a new file: the old file's, if it differs.
pub(crate) fn given(own: u32, old: u32) -> Option<u32>
    ensures { result ≡ (if own == old then None else Some old) }
{
    if own == old { None } else { Some(old) }
}

/// Returns the permissions of a new file from the old file's mode, without setuid and setgid. If the group differs, it
/// gets only those of the old group's rights that everyone had.
pub(crate) fn permissions_after(mode: u32, is_of_group: bool) -> u32
    ensures { result ≡ (if is_of_group then bit_and mode 0o777
        else bit_or (bit_and mode 0o707) (bit_and mode (mode % 8 * 8))) }
{
    if is_of_group {
        mode & 0o777
    } else {
        mode & 0o707 | (mode & (mode % 8 * 8))
    }
}
