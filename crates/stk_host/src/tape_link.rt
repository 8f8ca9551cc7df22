ghost use Rattle.std.specs.Prelude.{◌≡◌, ◌<◌, ◌≤◌, [], ℕ, List, length, take, drop, min, slice_get, Some, IfOk, OnOk, OnErr};
ghost use Rattle.stk_host.specs.Tape.{leading_bytes};
ghost use Rattle.stk_host.specs.Transcript.{Sends, Receives, FitsBuffer, items_of};
ghost use Rattle.stk_host.specs.Transcript as transcript;
ghost use Rattle.stk_host.specs.Links.{ConsumesTape, TapeState, tape_state, next_piece, byte_of};
ghost use Rattle.ghosts.specs.Preserves.{Preserves};

use crate::link::{Heard, Item, Link, LinkFault};
use crate::log::Log;
use std::alloc::Global;
use std::fmt;
use std::marker::Model;

/// A link that gives the items of a tape in order, and keeps the transcript.
///
/// `send` takes at most `cut` bytes, and `recv` gives at most `cut`. A timeout or an end comes alone. After the last
/// item every `recv` gives an end. The link fails only if allocation for the transcript fails.
///
/// ```text
/// let mut link = TapeLink::new(alloc, vec![in alloc; Item::Silence; 1]?, 281);
/// link.send(b"\x1B")?;
/// let mut buffer = [0; 281];
/// assert_eq!(rt; link.recv(&mut buffer), Ok(Heard::Silence));
/// assert!(rt; link.sent() == b"\x1B".as_slice());
/// ```
#[derive(Drop)]
pub struct TapeLink {
    items: Vec<Item>,
    at: usize,
    cut: usize,
    log: Log,
    failures: u64,
}

impl Model for TapeLink {
    ghost use Rattle.stk_host.specs.Links.{TapeState};
    ghost use Rattle.std.specs.Prelude.{◌<◌, ◌≤◌, drop, length};

    ghost Value = { TapeState };

    ghost view = { λ link. record {
      left = drop link.at link.items.items;
      cut = link.cut;
      transcript = link.log.transcript;
      failures = link.failures;
    } };

    ghost invariant = { λ link. (0 < link.cut) × (link.at ≤ length link.items.items) };
}

/// Returns the byte at a place of the tape, if there is one.
fn byte_at(tape: &[Item], place: usize) -> Option<u8>
    ensures { result ≡ byte_of (slice_get tape.now place) }
{
    match tape.get(place) {
        Some(Item::Byte(byte)) => Some(*byte),
        Some(Item::Silence | Item::End) | None => None,
    }
}

/// Copies the bytes at the front of a tape, as many as the buffer holds, and returns how many.
fn copy_bytes(tape: &[Item], buffer: &mut [u8]) -> usize
    ensures within { result ≤ length buffer.new }
    ensures bytes { take result buffer.new ≡ take (length buffer.new) (leading_bytes tape.now) }
{
    let mut count = 0;
    while count < buffer.len() {
        let Some(byte) = byte_at(tape, count) else {
            return count;
        };
        buffer[count] = byte;
        count += 1;
    }
    count
}

/// Receives the next piece of a tape. Its bytes are put at the start of the buffer.
fn give_piece(tape: &[Item], buffer: &mut [u8]) -> Heard
    requires { 0 < length buffer.old }
    ensures within { FitsBuffer result (length buffer.new) }
    ensures piece { items_of result buffer.new ≡ next_piece (length buffer.new) tape.now }
{
    match tape.first() {
        Some(Item::Byte(_)) => Heard::Bytes(copy_bytes(tape, buffer)),
        Some(Item::Silence) => Heard::Silence,
        Some(Item::End) | None => Heard::End,
    }
}

/// Returns how many items of the tape were received.
fn item_count(heard: Heard) -> usize
    ensures { (buffer : List ℕ) → FitsBuffer heard (length buffer) → result ≡ length (items_of heard buffer) }
{
    match heard {
        Heard::Bytes(count) => count,
        Heard::Silence | Heard::End => 1,
    }
}

impl TapeLink {
    /// Creates a link over these items, in pieces of at most `cut` bytes. `cut` must be at least 1.
    ///
    /// ```text
    /// let mut tape = Vec::new(alloc);
    /// tape.push(Item::Byte(0x1B))?;
    /// let mut link = TapeLink::new(alloc, tape, 281);
    /// let mut buffer = [0; 281];
    /// assert!(rt; link.recv(&mut buffer)? == Heard::Bytes(1));
    /// assert!(rt; link.recv(&mut buffer)? == Heard::End);
    /// ```
    pub fn new(alloc: Global, items: Vec<Item>, cut: usize) -> Self
        requires { 0 < cut }
        ensures { result ≡ record { left = items.items; cut = cut; transcript = []; failures = 0 } }
    {
        TapeLink {
            items,
            at: 0,
            cut,
            log: Log::new(alloc),
            failures: 0,
        }
    }

    /// Returns all bytes sent, in order.
    ///
    /// ```text
    /// let mut link = TapeLink::new(alloc, Vec::new(alloc), 281);
    /// link.send(b"\x1B")?;
    /// assert!(rt; link.sent() == b"\x1B".as_slice());
    /// ```
    pub fn sent(&self) -> &[u8]
        ensures { result.now ≡ transcript.sent self.now.transcript }
    {
        self.log.sent()
    }
}

impl Link for TapeLink {
    ghost view = { tape_state };

    ghost Start = { TapeState };

    ghost started_as = { ConsumesTape };

    #[tactic(auto, using(crate::proofs::Tapes::TapeLinks::sent_of_tape, crate::proofs::Tapes::TapeLinks::same_of_tape, crate::proofs::Transcripts::Sending::takes_none))]
    fn send(&mut self, bytes: &[u8]) -> Result<usize, LinkFault>
        ensures sends { Sends bytes.now (tape_state self.old) (tape_state self.new) result }
        ensures sound { OnOk result (self.new.failures ≡ self.old.failures) }
        ensures count { IfOk result (λ n. n ≡ min self.old.cut (length bytes.now)) }
        ensures left { self.new.left ≡ self.old.left }
        ensures cut { self.new.cut ≡ self.old.cut }
        ensures same { OnErr result (self.new ≡ record self.old { failures = self.new.failures }) }
        ensures comes { Preserves ConsumesTape self.old self.new }
    {
        let count = self.cut.min(bytes.len());
        let Ok(()) = self.log.reserve(count) else {
            self.failures = self.failures.saturating_add(1);
            return Err(LinkFault::Failed);
        };
        self.log.add_sent(&bytes[..count]);
        Ok(count)
    }

    fn recv(&mut self, buffer: &mut [u8]) -> Result<Heard, LinkFault>
        requires { 0 < length buffer.old }
        ensures receives { Receives buffer.new (tape_state self.old) (tape_state self.new) result }
        ensures piece { IfOk result (λ heard. items_of heard buffer.new
            ≡ next_piece (min self.old.cut (length buffer.new)) self.old.left) }
        ensures left { IfOk result (λ heard. self.new.left ≡ drop (length (items_of heard buffer.new)) self.old.left) }
        ensures kept { OnErr result (self.new.left ≡ self.old.left) }
        ensures cut { self.new.cut ≡ self.old.cut }
        ensures comes { Preserves ConsumesTape self.old self.new }
    {
        let most = self.cut.min(buffer.len());
        let heard = give_piece(&self.items[self.at..], &mut buffer[..most]);
        let Ok(()) = self.log.add_received(heard, buffer) else {
            self.failures = self.failures.saturating_add(1);
            return Err(LinkFault::Failed);
        };
        // The ends after the last item are not on the tape.
        let next = self.at.saturating_add(item_count(heard));
        self.at = next.min(self.items.len());
        Ok(heard)
    }
}

impl fmt::Debug for TapeLink {
    fn fmt<W: fmt::Write>(&self, f: &mut fmt::Formatter<W>) -> fmt::Result {
        f.debug_struct("TapeLink")
            .field("items", &self.items)
            .field("at", &self.at)
            .field("cut", &self.cut)
            .field("failures", &self.failures)
            .finish_non_exhaustive()
    }
}
