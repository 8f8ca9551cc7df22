ghost use Rattle.std.specs.Prelude.{◌≡◌, ◌<◌, length};
ghost use Rattle.ghosts.specs.Preserves.{Preserves};
ghost use Rattle.stk_host.specs.Transcript.{LinkState, Sends, Receives};
ghost use Rattle.stk_host.specs.Reach.{SendsAll};

use thiserror::Error;

/// Why a link failed.
///
/// ```text
/// let tape = TapeLink::new(alloc, Vec::new(alloc), 281);
/// let mut link = FailingLink::new(tape, 1, 281);
/// assert_eq!(rt; link.send(b"\x1B"), Err(LinkFault::Failed));
/// ```
#[derive(Clone, Copy, Debug, Drop, PartialEq, Eq, Error)]
pub enum LinkFault {
    /// The device failed, or memory for what a link keeps could not be allocated. The link has counted the failure.
    #[error("the link failed")]
    Failed,
}

impl LinkFault {
    /// Returns the fault's number, which never changes.
    ///
    /// ```text
    /// assert_eq!(rt; LinkFault::Failed.number(), 1);
    /// ```
    pub fn number(&self) -> u8
        ensures { result ≡ 1 }
    {
        match self {
            LinkFault::Failed => 1,
        }
    }
}

/// What one call of [`Link::recv`] received.
///
/// ```text
/// let mut tape = Vec::new(alloc);
/// tape.push(Item::Byte(0x1B))?;
/// tape.push(Item::Silence)?;
/// let mut link = TapeLink::new(alloc, tape, 281);
/// let mut buffer = [0; 281];
/// assert_eq!(rt; link.recv(&mut buffer), Ok(Heard::Bytes(1)));
/// assert_eq!(rt; link.recv(&mut buffer), Ok(Heard::Silence));
/// assert_eq!(rt; link.recv(&mut buffer), Ok(Heard::End));
/// ```
#[derive(Clone, Copy, Debug, PartialEq, Eq)]
pub enum Heard {
    /// This many bytes, from 1 to the buffer's length, at the buffer's start.
    Bytes(usize),
    /// A timeout: nothing arrived for as long as the link waits.
    Silence,
    /// The link has ended.
    End,
}

/// An item of a tape: a byte, or an event between bytes.
///
/// ```text
/// let mut tape = Vec::new(alloc);
/// for byte in b"\x1B\x01\x00\x02\x0E\x11\x00\x07" {
///     tape.push(Item::Byte(*byte))?;
/// }
/// tape.push(Item::Silence)?;
/// let link = TapeLink::new(alloc, tape, 281);
/// assert!(rt; link.sent().is_empty());
/// ```
#[derive(Clone, Copy, Debug, PartialEq, Eq)]
pub enum Item {
    /// A byte.
    Byte(u8),
    /// A timeout: nothing arrived for as long as the link waits.
    Silence,
    /// The link has ended.
    End,
}

/// A link to a programmer: a device that takes bytes, and gives bytes, timeouts and an end.
///
/// Contracts see two things: the transcript, which lists the pieces sent and received in order, and the count of
/// failures, which stops at 2^64 - 1. A piece that a failed send took is marked as such. A call returns a fault only if
/// the link has failed. A call that succeeds doesn't count a failure, unless `send` took none of at least one byte.
///
/// To connect your own device, write an `impl Link`: `examples/library/a_link_of_ones_own.rs` is a complete one.
pub trait Link {
    /// The transcript and the count of failures. A link may keep the transcript for proofs alone.
    ghost view: { Self → LinkState };

    /// The state a link may start from, if that state determines what the link does later: for a wire, its programmer
    /// and its fates.
    ghost Start: { Type 0 };

    /// This link started from this state. Every call keeps this true.
    ghost started_as: { Start → Self → Type 0 };

    /// Sends a prefix of the bytes, and returns how many.
    ///
    /// It returns 0 for a nonempty slice only if the link has failed. After a fault, the last piece of the transcript
    /// is what the link took before it failed: nothing, or a prefix of the bytes, perhaps all.
    ///
    /// # Errors
    ///
    /// [`LinkFault::Failed`] if the link has failed.
    fn send(&mut self, bytes: &[u8]) -> Result<usize, LinkFault>
        ensures sends { Sends bytes.now (view self.old) (view self.new) result }
        ensures comes { Preserves started_as self.old self.new };

    /// Receives at least one byte and at most as many as the buffer holds, or a timeout, or the end.
    ///
    /// The buffer must not be empty. How long the call waits before [`Heard::Silence`] is the link's choice; one
    /// second is usual. A host sends a frame again after each timeout, at most four times in all. Over a link without
    /// timeouts it waits for a lost reply forever.
    ///
    /// # Errors
    ///
    /// [`LinkFault::Failed`] if the link has failed. Nothing was received.
    fn recv(&mut self, buffer: &mut [u8]) -> Result<Heard, LinkFault>
        requires { 0 < length buffer.old }
        ensures receives { Receives buffer.new (view self.old) (view self.new) result }
        ensures comes { Preserves started_as self.old self.new };
}

/// Sends all of the bytes, in as many calls of [`Link::send`] as the link needs. Nothing is sent twice.
///
/// # Errors
///
/// [`LinkFault::Failed`] if the link fails or takes no byte. A part of the bytes may have been sent; all only if the
/// send that failed took the last of them.
///
/// ```text
/// let mut link = TapeLink::new(alloc, Vec::new(alloc), 2);
/// send_all(&mut link, b"\x1B\x01\x00\x01\x0E\x01\x14")?;
/// assert_eq!(rt; link.sent().len(), 7);
/// ```
pub fn send_all<L: Link>(link: &mut L, bytes: &[u8]) -> Result<(), LinkFault>
    ensures sends { SendsAll bytes.now (L.view link.old) (L.view link.new) result }
    ensures comes { Preserves L.started_as link.old link.new }
{
    let mut done = 0;
    while done < bytes.len() {
        let count = link.send(&bytes[done..])?;
        if count == 0 {
            return Err(LinkFault::Failed);
        }
        done += count;
    }
    Ok(())
}
