ghost use Rattle.std.specs.Prelude.{◌≡◌, IfOk};
ghost use Rattle.avr_io.specs.Files.{file_fault_number, CountsReadResult, EndsOrExceedsLimit, ReadsFile};
ghost use Rattle.ghosts.specs.Preserves.{Preserves};

use crate::bytes::Bytes;
use crate::desk::{Desk, DeskFault};
use std::alloc::Global;
use thiserror::Error;

const PIECE: usize = 4096;

/// Why a file was not read.
#[derive(Clone, Copy, Debug, PartialEq, Eq, Error)]
pub enum FileFault {
    /// The desk has no such file.
    #[error("cannot be opened")]
    Absent = 1,
    /// The desk failed to open the file.
    #[error("cannot be opened")]
    NotOpened = 2,
    /// The desk failed to read the file.
    #[error("cannot be read")]
    NotRead = 3,
    /// Allocation for the bytes failed.
    #[error("out of memory")]
    Memory = 4,
}

impl FileFault {
    /// Returns the fault's number, which never changes.
    pub fn number(&self) -> u8
        ensures { result ≡ file_fault_number self.now }
    {
        *self as u8
    }
}

/// The bytes read of a file.
#[derive(Debug, Drop)]
pub struct Contents {
    pub bytes: Bytes,
    /// Whether the end was seen; if not, there are more bytes than the limit.
    pub ended: bool,
}

/// Reads a file to its end, or until more than `limit` bytes came, in pieces of at most 4,096.
///
/// # Errors
///
/// `Absent` if there is no such file; `NotOpened` or `NotRead` if the desk fails; `Memory` if allocation fails. Bytes
/// read before the fault are dropped.
///
/// ```text
/// let mut desk = MemDesk::empty(alloc);
/// desk.put("a.hex", b":00000001FF\n")?;
/// let read = read_file(alloc, &mut desk, "a.hex", 65_536)?;
/// assert!(rt; read.ended && read.bytes.as_slice() == b":00000001FF\n".as_slice());
/// let absent = read_file(alloc, &mut desk, "b.hex", 65_536);
/// assert!(rt; absent.err() == Some(FileFault::Absent));
/// ```
pub fn read_file<D: Desk>(
    alloc: Global,
    desk: &mut D,
    name: &str,
    limit: usize,
) -> Result<Contents, FileFault>
    ensures kept { ReadsFile name.now (D.view desk.old) (D.view desk.new) result }
    ensures whole { IfOk result (EndsOrExceedsLimit limit) }
    ensures counts { CountsReadResult (D.view desk.old) (D.view desk.new) result }
    ensures stays { Preserves D.started_as desk.old desk.new }
{
    match desk.open(name) {
        Ok(()) => {}
        Err(DeskFault::NotFound) => return Err(FileFault::Absent),
        Err(DeskFault::Failed) => return Err(FileFault::NotOpened),
    }
    let mut bytes = Bytes::new(alloc);
    let mut piece = [0u8; PIECE];
    'pieces: while bytes.len() <= limit {
        let Ok(count) = desk.read(&mut piece) else {
            return Err(FileFault::NotRead);
        };
        if count == 0 {
            return Ok(Contents { bytes, ended: true });
        }
        if bytes.extend(&piece[..count]).is_err() {
            return Err(FileFault::Memory);
        }
    }
    Ok(Contents {
        bytes,
        ended: false,
    })
}
