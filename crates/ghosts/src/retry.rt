//! Readers and writers of which a contract can promise more, and calls that are retried if a signal interrupts them.
ghost use Rattle.std.specs.Prelude.{◌≡◌, ◌≢◌, ◌<◌, ◌≤◌, [], length, take, IfOk, IfErr, OnErr, OnOk, ⊤};
ghost use Rattle.std.specs.Io.KnownBytes.{Keeps, Appends, Consumes, IsAtEnd, ReadConsumes};
ghost use Rattle.std.specs.IoError.{error_kind};
ghost use Rattle.std.specs.Io.{ReadsAtMost};

use std::io;
use std::io::{ErrorKind, Read, Write};

/// A reader of which a contract can promise that it timed out: only a failed `read_in` yields `has_timed_out`.
///
/// Every reader is an `Inlet`. Which faults of the system's own readers are timeouts is only tested.
pub trait Inlet: Read {
    /// The last read timed out or would have blocked.
    ghost has_timed_out: { Self → Type 0 };

    /// Reads as [`Read::read`] does.
    ///
    /// # Errors
    ///
    /// The reader's own error.
    fn read_in(&mut self, buf: &mut [u8]) -> io::Result<usize>
        ensures bound { ReadsAtMost result buf.new }
        ensures bytes { ReadConsumes (Self.remaining self.old) (Self.remaining self.new) result buf.new }
        ensures blocked { IfErr result (λ error. error_kind error ≡ ErrorKind.WouldBlock → has_timed_out self.new) }
        ensures timed { IfErr result (λ error. error_kind error ≡ ErrorKind.TimedOut → has_timed_out self.new) };
}

impl<R: Read> Inlet for R {
    ghost has_timed_out = { λ reader. ⊤ };

    fn read_in(&mut self, buf: &mut [u8]) -> io::Result<usize> {
        self.read(buf)
    }
}

/// A writer of which a contract can promise that it was flushed. Only `flush_out` yields `is_flushed`, so a call that
/// promises it has flushed and written nothing since.
///
/// Every writer is an `Outlet`. What a flush of the system's own writers does is only tested.
pub trait Outlet: Write {
    /// Nothing was written since the last flush.
    ghost is_flushed: { Self → Type 0 };

    /// Flushes the writer.
    ///
    /// # Errors
    ///
    /// The writer's own error.
    fn flush_out(&mut self) -> io::Result<()>
        ensures bytes { Keeps (Self.contents self.old) (Self.contents self.new) }
        ensures out { OnOk result (is_flushed self.new) };
}

impl<W: Write> Outlet for W {
    ghost is_flushed = { λ writer. ⊤ };

    fn flush_out(&mut self) -> io::Result<()> {
        self.flush()
    }
}

/// Reads once, and retries a read that a signal interrupted. 0 means the end, unless `buffer` is empty.
///
/// # Errors
///
/// The reader's error, which is never `Interrupted`; `Other` after 2^64 - 1 interruptions.
pub fn read_some<R: Inlet>(reader: &mut R, buffer: &mut [u8]) -> io::Result<usize>
    ensures bound { IfOk result (λ n. n ≤ length buffer.new) }
    ensures ok { IfOk result (λ n. Consumes (R.remaining reader.old) (R.remaining reader.new) (take n buffer.new)) }
    ensures end { IfOk result (λ n. n ≡ 0 → 0 < length buffer.new → IsAtEnd (R.remaining reader.new)) }
    ensures err { OnErr result (Keeps (R.remaining reader.old) (R.remaining reader.new)) }
    ensures again { IfErr result (λ error. error_kind error ≢ ErrorKind.Interrupted) }
    ensures blocked { IfErr result (λ error. error_kind error ≡ ErrorKind.WouldBlock → R.has_timed_out reader.new) }
    ensures timed { IfErr result (λ error. error_kind error ≡ ErrorKind.TimedOut → R.has_timed_out reader.new) }
{
    for _ in 0..u64::MAX {
        match reader.read_in(buffer) {
            Err(error) if error.kind() == ErrorKind::Interrupted => {}
            result => return result,
        }
    }
    Err(io::Error::other("interrupted too often"))
}

/// Writes once, at least one byte of `bytes` unless it is empty, and retries a write that a signal interrupted.
///
/// # Errors
///
/// The writer's error, which is never `Interrupted`; `WriteZero` if the writer takes no byte; `Other` after 2^64 - 1
/// interruptions.
pub fn write_some<W: Write>(writer: &mut W, bytes: &[u8]) -> io::Result<usize>
    ensures bound { IfOk result (λ n. n ≤ length bytes.now) }
    ensures some { IfOk result (λ n. n ≡ 0 → bytes.now ≡ []) }
    ensures ok { IfOk result (λ n. Appends (W.contents writer.old) (W.contents writer.new) (take n bytes.now)) }
    ensures err { OnErr result (Keeps (W.contents writer.old) (W.contents writer.new)) }
    ensures again { IfErr result (λ error. error_kind error ≢ ErrorKind.Interrupted) }
{
    for _ in 0..u64::MAX {
        match writer.write(bytes) {
            Err(error) if error.kind() == ErrorKind::Interrupted => {}
            Ok(0) if !bytes.is_empty() => return Err(io::Error::from(ErrorKind::WriteZero)),
            result => return result,
        }
    }
    Err(io::Error::other("interrupted too often"))
}

/// Flushes once, and retries a flush that a signal interrupted.
///
/// # Errors
///
/// The writer's error, which is never `Interrupted`; `Other` after 2^64 - 1 interruptions.
pub fn flush<W: Outlet>(writer: &mut W) -> io::Result<()>
    ensures bytes { Keeps (W.contents writer.old) (W.contents writer.new) }
    ensures out { OnOk result (W.is_flushed writer.new) }
    ensures again { IfErr result (λ error. error_kind error ≢ ErrorKind.Interrupted) }
{
    for _ in 0..u64::MAX {
        match writer.flush_out() {
            Err(error) if error.kind() == ErrorKind::Interrupted => {}
            result => return result,
        }
    }
    Err(io::Error::other("interrupted too often"))
}
