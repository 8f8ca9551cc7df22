ghost use Rattle.std.specs.Prelude.{◌≡◌, ◌<◌, ◌≤◌, ◌∷◌, ◌++◌, [], length, take, None, Some, IsSome, IfOk, IfErr, OnErr, OnOk};
ghost use Rattle.std.specs.IoError.{error_kind};
ghost use Rattle.std.specs.Io.KnownBytes.{Keeps, Appends};
ghost use Rattle.ghosts.specs.Preserves.{Preserves};
ghost use Rattle.stk_host.specs.Transcript.{Sent, Sends, Receives, FitsBuffer};
ghost use Rattle.stk_host.specs.declared.link.Heard.TheVariants.{Silence};
ghost use Rattle.stk_host.specs.Links.{StreamState, TranscriptIsTrueSince, stream_state, TakesKnownBytes, ReceivesKnownBytes, IsListeningFailure};

use crate::history::{History, Piece};
use crate::link::{Heard, Link, LinkFault};
use ghosts::retry::{flush, read_some, write_some};
use ghosts::{Inlet, Outlet};
use std::io::{ErrorKind, Read, Write};
use std::marker::Model;
use std::{fmt, io};

/// A link over a reader and a writer, such as standard input and output or the two sides of a socket.
///
/// A read that times out or would block is a timeout, and a read of 0 bytes is the end. An interrupted call is
/// retried. Any other error of a read, write or flush is a failure, and so is a write of 0 bytes. Each piece sent is
/// flushed. The transcript is kept for proofs alone, and takes no memory. If a flush fails, the bytes that the writer
/// took before are in it, too.
///
/// ```text
/// let mut link = StreamLink::new(b"".as_slice(), Vec::new(alloc));
/// let part = Parts::none().find("m328p")?;
/// assert_eq!(rt; Host::new(part).open(&mut link, false), Err(HostFault::LinkEnded));
/// let (_, sent) = link.into_inner();
/// // SIGN_ON went out, as the first frame
/// assert!(rt; sent.as_slice() == b"\x1B\x01\x00\x01\x0E\x01\x14".as_slice());
/// ```
#[derive(Drop)]
pub struct StreamLink<R, W> {
    reader: R,
    writer: W,
    failures: u64,
    last_error: Option<ErrorKind>,
    history: History,
}

impl<R, W> Model for StreamLink<R, W> {
    ghost use Rattle.stk_host.specs.Links.{StreamState};

    ghost Value = { StreamState R W };

    ghost view = { λ link. record {
      reader = link.reader;
      writer = link.writer;
      failures = link.failures;
      last_error = link.last_error;
      transcript = link.history.items;
    } };
}

/// Writes a prefix of the bytes, at least one unless they are empty, and flushes. If the flush fails, the history has
/// the bytes that were taken.
#[tactic(auto, using(crate::proofs::Transcripts::Streams::takes_known, crate::proofs::Transcripts::Streams::takes_nothing))]
fn put_bytes<W: Outlet>(writer: &mut W, bytes: &[u8], history: &mut History) -> io::Result<usize>
    ensures within { IfOk result (λ n. n ≤ length bytes.now) }
    ensures some { IfOk result (λ n. 0 < length bytes.now → 0 < n) }
    ensures ok { IfOk result (λ n. Appends (W.contents writer.old) (W.contents writer.new) (take n bytes.now)) }
    ensures sent { IfOk result (λ n. history.new.items ≡ history.old.items ++ Sent (take n bytes.now) ∷ []) }
    ensures taken { OnErr result (TakesKnownBytes bytes.now history.old.items history.new.items
        (W.contents writer.old) (W.contents writer.new)) }
    ensures out { OnOk result (W.is_flushed writer.new) }
{
    let count = write_some(writer, bytes)?;
    match flush(writer) {
        Ok(()) => {
            *history = history.then(&Piece::Sent(bytes, count));
            Ok(count)
        }
        Err(error) => {
            *history = history.then(&Piece::Taken(bytes, count));
            Err(error)
        }
    }
}

/// Reads once. If the read times out or would block, a timeout is received.
fn receive_bytes<R: Inlet>(reader: &mut R, buffer: &mut [u8]) -> io::Result<Heard>
    requires { 0 < length buffer.old }
    ensures within { IfOk result (λ heard. FitsBuffer heard (length buffer.new)) }
    ensures ok { IfOk result (λ heard. ReceivesKnownBytes heard buffer.new (R.remaining reader.old)
        (R.remaining reader.new)) }
    ensures err { OnErr result (Keeps (R.remaining reader.old) (R.remaining reader.new)) }
    ensures silent { IfOk result (λ heard. heard ≡ Silence → R.has_timed_out reader.new) }
    ensures fault { IfErr result (λ error. IsListeningFailure (Some (error_kind error))) }
{
    match read_some(reader, buffer) {
        Ok(0) => Ok(Heard::End),
        Ok(count) => Ok(Heard::Bytes(count)),
        Err(error) => match error.kind() {
            ErrorKind::WouldBlock | ErrorKind::TimedOut => Ok(Heard::Silence),
            _ => Err(error),
        },
    }
}

impl<R, W> StreamLink<R, W> {
    /// Creates a link that receives from the reader and sends to the writer.
    ///
    /// ```text
    /// let mut link = StreamLink::new(b"\x1B".as_slice(), Vec::new(alloc));
    /// let mut buffer = [0; 281];
    /// assert!(rt; link.recv(&mut buffer)? == Heard::Bytes(1));
    /// assert!(rt; link.recv(&mut buffer)? == Heard::End);
    /// ```
    pub fn new(reader: R, writer: W) -> Self
        ensures { result ≡ record
            { reader = reader; writer = writer; failures = 0; last_error = None; transcript = [] } }
    {
        StreamLink {
            reader,
            writer,
            failures: 0,
            last_error: None,
            history: History::new(),
        }
    }

    /// Returns how many calls have failed so far.
    ///
    /// ```text
    /// let link = StreamLink::new(b"".as_slice(), Vec::<u8>::new(alloc));
    /// assert_eq!(rt; link.failures(), 0);
    /// ```
    pub fn failures(&self) -> u64
        ensures { result ≡ self.now.failures }
    {
        self.failures
    }

    /// Returns the error kind of the last call that failed: that of the reader, of the writer or of its flush.
    /// `BrokenPipe` means that the other side has closed, and `WriteZero` that the writer took no byte.
    ///
    /// Returns `None` while no call has failed. A call that succeeds leaves the kind. Timeouts and the end are no
    /// failures.
    ///
    /// ```text
    /// let mut room = [0; 1];
    /// let mut link = StreamLink::new(b"".as_slice(), &mut room[..]);
    /// link.send(b"\x1B")?;
    /// assert_eq!(rt; link.last_error(), None);
    /// assert!(rt; link.send(b"\x1B") == Err(LinkFault::Failed));
    /// assert_eq!(rt; link.last_error(), Some(std::io::ErrorKind::WriteZero));
    /// ```
    pub fn last_error(&self) -> Option<ErrorKind>
        ensures { result ≡ self.now.last_error }
    {
        self.last_error
    }

    /// Returns the reader and the writer, as the calls so far have left them.
    ///
    /// ```text
    /// let mut link = StreamLink::new(b"".as_slice(), Vec::new(alloc));
    /// link.send(b"\x1B")?;
    /// let (_, sent) = link.into_inner();
    /// assert!(rt; sent.as_slice() == b"\x1B".as_slice());
    /// ```
    pub fn into_inner(self) -> (R, W)
        ensures reader { result.0 ≡ self.reader }
        ensures writer { result.1 ≡ self.writer }
    {
        let StreamLink { reader, writer, .. } = self;
        (reader, writer)
    }
}

impl<R: Inlet + Drop, W: Outlet + Drop> Link for StreamLink<R, W> {
    ghost view = { stream_state };

    ghost Start = { StreamState R W };

    ghost started_as = { TranscriptIsTrueSince R.remaining R.has_timed_out W.contents };

    fn send(&mut self, bytes: &[u8]) -> Result<usize, LinkFault>
        ensures sends { Sends bytes.now (stream_state self.old) (stream_state self.new) result }
        ensures comes { Preserves (TranscriptIsTrueSince R.remaining R.has_timed_out W.contents) self.old self.new }
        // The writer took the bytes reported as sent, or on failure exactly those of the transcript's last piece.
        ensures written { IfOk result (λ n. Appends (W.contents self.old.writer) (W.contents self.new.writer)
            (take n bytes.now)) }
        ensures broken { OnErr result (TakesKnownBytes bytes.now self.old.transcript self.new.transcript
            (W.contents self.old.writer) (W.contents self.new.writer)) }
        // Bytes reported as sent were flushed.
        ensures out { OnOk result (W.is_flushed self.new.writer) }
        ensures reader { self.new.reader ≡ self.old.reader }
        ensures sound { OnOk result (self.new.failures ≡ self.old.failures) }
        // A failure records an error kind, and a success leaves the last one.
        ensures fault { OnErr result (IsSome self.new.last_error) }
        ensures leaves { OnOk result (self.new.last_error ≡ self.old.last_error) }
    {
        match put_bytes(&mut self.writer, bytes, &mut self.history) {
            Ok(count) => Ok(count),
            Err(error) => {
                self.failures = self.failures.saturating_add(1);
                self.last_error = Some(error.kind());
                Err(LinkFault::Failed)
            }
        }
    }

    fn recv(&mut self, buffer: &mut [u8]) -> Result<Heard, LinkFault>
        requires { 0 < length buffer.old }
        ensures receives { Receives buffer.new (stream_state self.old) (stream_state self.new) result }
        ensures comes { Preserves (TranscriptIsTrueSince R.remaining R.has_timed_out W.contents) self.old self.new }
        // The bytes received are the reader's next ones. None is lost, and the end comes only after the last.
        ensures read { IfOk result (λ heard. ReceivesKnownBytes heard buffer.new (R.remaining self.old.reader)
            (R.remaining self.new.reader)) }
        // A timeout comes only if a read timed out or would block.
        ensures silent { IfOk result (λ heard. heard ≡ Silence → R.has_timed_out self.new.reader) }
        ensures kept { OnErr result (Keeps (R.remaining self.old.reader) (R.remaining self.new.reader)) }
        ensures writer { self.new.writer ≡ self.old.writer }
        // The error kind of a failure is no timeout.
        ensures fault { OnErr result (IsListeningFailure self.new.last_error) }
        ensures leaves { OnOk result (self.new.last_error ≡ self.old.last_error) }
    {
        match receive_bytes(&mut self.reader, buffer) {
            Ok(heard) => {
                self.history = self.history.then(&Piece::Received(&heard, buffer));
                Ok(heard)
            }
            Err(error) => {
                self.failures = self.failures.saturating_add(1);
                self.last_error = Some(error.kind());
                Err(LinkFault::Failed)
            }
        }
    }
}

/// Shows the failures and the last error kind, but neither the reader nor the writer.
impl<R, W> fmt::Debug for StreamLink<R, W> {
    fn fmt<F: fmt::Write>(&self, f: &mut fmt::Formatter<F>) -> fmt::Result {
        f.debug_struct("StreamLink")
            .field("failures", &self.failures)
            .field("last_error", &self.last_error)
            .finish_non_exhaustive()
    }
}
