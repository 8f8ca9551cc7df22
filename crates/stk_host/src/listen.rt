//! Waits for a reply, and keeps the bytes received and not yet read.
ghost use Rattle.std.specs.Prelude.{◌≡◌, ◌<◌, ◌≤◌, ◌↔◌, IsTrue, IfOk, OnErr, length, take, drop, [], true, false, None};
ghost use Rattle.ghosts.specs.Preserves.{Preserves};
ghost use Rattle.stk_host.specs.Calls.{ReceivesPiece, reading_of};
ghost use Rattle.stk_host.specs.Reach.{ReceivesReply, ReceivesNoReply};
ghost use Rattle.stk_host.specs.Transcript.{Grows, LinkCounts};
ghost use Rattle.stk_frame.specs.declared.protocol.TheConstants.{LARGEST_FRAME};
ghost use Rattle.stk_frame.specs.Reader.{frames_of_event, EventMatchesHeld, HoldsFrame};
ghost use Rattle.stk_host.specs.Tape.{is_reply, first_reply};

use crate::link::{Heard, Link, LinkFault};
use std::marker::Model;
use stk_frame::{Event, FrameReader, LARGEST_FRAME};

/// The bytes received and not yet read.
#[derive(Drop)]
pub(crate) struct Unread {
    piece: [u8; LARGEST_FRAME],
    start: usize,
    end: usize,
}

impl Model for Unread {
    ghost use Rattle.std.specs.Prelude.{List, ℕ, ◌≤◌, slice_range};
    ghost use Rattle.stk_frame.specs.declared.protocol.TheConstants.{LARGEST_FRAME};

    ghost Value = { List ℕ };

    ghost view = { λ unread. slice_range unread.piece unread.start unread.end };

    ghost invariant = { λ unread. (unread.start ≤ unread.end) × (unread.end ≤ LARGEST_FRAME) };
}

impl Unread {
    pub(crate) fn new() -> Self
        ensures { result ≡ [] }
    {
        Unread {
            piece: [0; LARGEST_FRAME],
            start: 0,
            end: 0,
        }
    }

    pub(crate) fn is_empty(&self) -> bool
        ensures { IsTrue result ↔ (length self.now ≡ 0) }
    {
        self.start == self.end
    }

    /// Returns the first `most` bytes, or all if there are fewer.
    pub(crate) fn prefix(&self, most: usize) -> &[u8]
        ensures { result.now ≡ take most self.now }
    {
        let size = most.min(self.end - self.start);
        &self.piece[self.start..self.start + size]
    }

    /// Marks the next `count` bytes as read.
    pub(crate) fn consume(&mut self, count: usize)
        requires { count ≤ length self.old }
        ensures left { self.new ≡ drop count self.old }
        ensures fits { length self.new ≤ LARGEST_FRAME }
    {
        self.start += count;
    }

    /// Receives the next piece, of at most `most` bytes. Only that piece is unread then.
    pub(crate) fn receive_piece<L: Link>(
        &mut self,
        link: &mut L,
        most: usize,
    ) -> Result<Heard, LinkFault>
        requires { 0 < most }
        ensures within { length self.new ≤ most }
        ensures fits { length self.new ≤ LARGEST_FRAME }
        ensures ok { IfOk result (λ heard. ReceivesPiece heard self.new (L.view link.old) (L.view link.new)) }
        ensures err { OnErr result (Grows (L.view link.old).transcript [] (L.view link.new).transcript) }
        ensures counts { LinkCounts (L.view link.old) (L.view link.new) result }
        ensures comes { Preserves L.started_as link.old link.new }
    {
        self.start = 0;
        self.end = 0;
        let room = most.min(self.piece.len());
        let heard = link.recv(&mut self.piece[..room])?;
        if let Heard::Bytes(count) = heard {
            self.end = count;
        }
        Ok(heard)
    }
}

/// The most bytes read for one reply. The message of [`crate::HostFault::Babble`] names this number.
const MOST_BYTES_PER_REPLY: usize = 4096;

#[derive(Clone, Copy)]
pub(crate) enum Reading {
    /// The reader holds the reply.
    Replied,
    Silent,
    Ended,
    Babbled,
}

/// Returns whether the reader holds the reply to the frame numbered `seq`.
fn is_reply(reader: &FrameReader, event: Event, seq: u8) -> bool
    requires { EventMatchesHeld event reader.now }
    ensures yes { result ≡ true → (event ≡ Event.Frame) × HoldsFrame reader.now × (is_reply seq reader.now ≡ true) }
    ensures no { result ≡ false → first_reply seq (frames_of_event event reader.now) ≡ None }
{
    match event {
        Event::Frame => reader.seq() == seq,
        Event::More | Event::Spoiled => false,
    }
}

/// Waits for the reply to the frame numbered `seq`. First it drops any part of a frame that the reader holds. It reads
/// at most 4,096 bytes, the unread ones included.
pub(crate) fn listen<L: Link>(
    reader: &mut FrameReader,
    unread: &mut Unread,
    link: &mut L,
    seq: u8,
) -> Result<Reading, LinkFault>
    requires { length unread.old ≤ LARGEST_FRAME }
    ensures ok { IfOk result (λ reading. ReceivesReply seq unread.old (L.view link.old) (L.view link.new)
        (reading_of reading reader.new) unread.new) }
    ensures holds { IfOk result (λ reading. reading ≡ Reading.Replied → HoldsFrame reader.new) }
    ensures err { OnErr result (ReceivesNoReply seq unread.old (L.view link.old) (L.view link.new)) }
    ensures counts { LinkCounts (L.view link.old) (L.view link.new) result }
    ensures fits { length unread.new ≤ LARGEST_FRAME }
    ensures comes { Preserves L.started_as link.old link.new }
{
    reader.reset();
    let mut count = 0;
    while count < MOST_BYTES_PER_REPLY {
        if unread.is_empty() {
            match unread.receive_piece(link, MOST_BYTES_PER_REPLY - count)? {
                Heard::Bytes(_) => {}
                Heard::Silence => return Ok(Reading::Silent),
                Heard::End => return Ok(Reading::Ended),
            }
        }
        let (used, event) = reader.feed(unread.prefix(MOST_BYTES_PER_REPLY - count));
        unread.consume(used);
        count += used;
        if is_reply(reader, event, seq) {
            return Ok(Reading::Replied);
        }
    }
    Ok(Reading::Babbled)
}
