ghost use Rattle.std.specs.Prelude.{◌≡◌, [], ◌<◌, ◌≤◌, length, take, Some, None, if◌then◌else◌};
ghost use Rattle.stk_frame.specs.Cut.{piece_size, is_header, body_size, seq_of, body_of};
ghost use Rattle.stk_frame.specs.Reader.{Fed, HoldsFrame, frames_of_event, EventMatchesHeld};

use crate::encode::xor_of;
use crate::protocol::{HEADER_SIZE, LARGEST_BODY, LARGEST_FRAME, MESSAGE_START, TOKEN};
use arrayvec::ArrayVec;
use byteorder::{BigEndian, ByteOrder};
use memchr::memchr;
use std::marker::Model;

/// What came of bytes that were fed to a reader.
///
/// ```text
/// let mut reader = FrameReader::new();
/// assert!(rt; reader.feed(&[0x1B, 0x01]) == (2, Event::More));
/// assert!(rt; reader.feed(&[0x00, 0x01, 0x0E, 0x01, 0x00]) == (5, Event::Spoiled));
/// ```
#[derive(Clone, Copy, Debug, PartialEq, Eq)]
pub enum Event {
    /// The whole piece was used, and no frame has ended.
    More,
    /// A good frame ended with the last byte used.
    Frame,
    /// A frame with a wrong XOR ended with the last byte used.
    Spoiled,
}

/// Cuts bytes into frames, whatever pieces they come in.
///
/// Bytes before a start byte `1B` are skipped. It and the next four bytes are the header, which is skipped whole if its
/// size is 0 or above 275, or its token isn't `0E`. Else header, body and XOR byte are a frame.
///
/// The reader holds the part of a frame that has come, or the frame that has just ended. Contracts see it as these
/// bytes.
///
/// ```text
/// let mut reader = FrameReader::new();
/// assert!(rt; reader.feed(&[0xFF, 0x1B, 0x01, 0x00]) == (4, Event::More));
/// assert!(rt; reader.feed(&[0x01, 0x0E, 0x01, 0x14, 0x1B]) == (4, Event::Frame));
/// assert_eq!(rt; reader.seq(), 1);
/// assert!(rt; reader.body() == [0x01].as_slice());
/// ```
#[derive(Debug, Drop)]
pub struct FrameReader {
    held: ArrayVec<u8, LARGEST_FRAME>,
}

impl Model for FrameReader {
    ghost use Rattle.std.specs.Prelude.{List, ℕ, ◌≤◌, length};
    ghost use Rattle.stk_frame.specs.Cut.{piece_size};

    ghost Value = { List ℕ };

    ghost view = { λ reader. reader.held.items };

    // It holds less than a whole piece, or one whole frame.
    ghost invariant = { λ reader. length reader.held.items ≤ piece_size reader.held.items };
}

/// Returns the size of the body, if the header is one of a frame.
fn size_in(high: u8, low: u8, token: u8) -> Option<usize>
    ensures { result ≡ (if is_header high low token then Some (body_size high low) else None) }
{
    let size = BigEndian::read_u16(&[high, low]) as usize;
    if 1 <= size && size <= LARGEST_BODY && token == TOKEN {
        Some(size)
    } else {
        None
    }
}

/// Returns the size of the piece that these bytes begin, as far as they show it.
fn size_of_piece(bytes: &[u8]) -> usize
    ensures size { result ≡ piece_size bytes.now }
    ensures bound { result ≤ LARGEST_FRAME }
{
    match bytes {
        [MESSAGE_START, _, high, low, token, ..] => match size_in(*high, *low, *token) {
            Some(size) => HEADER_SIZE + size + 1,
            None => HEADER_SIZE,
        },
        [MESSAGE_START, ..] => HEADER_SIZE,
        _ => 1,
    }
}

impl FrameReader {
    /// Creates a reader that holds nothing.
    ///
    /// ```text
    /// let reader = FrameReader::new();
    /// assert!(rt; reader.body().is_empty());
    /// ```
    pub fn new() -> Self
        ensures { result ≡ [] }
    {
        FrameReader {
            held: ArrayVec::new(),
        }
    }

    /// Drops a part of a frame.
    ///
    /// ```text
    /// let mut reader = FrameReader::new();
    /// reader.feed(&[0x1B, 0x01, 0x00]);
    /// reader.reset();
    /// assert!(rt; reader.feed(&[0x01, 0x0E, 0x01, 0x14]) == (4, Event::More));
    /// ```
    pub fn reset(&mut self)
        ensures { self.new ≡ [] }
    {
        self.held.clear();
    }

    /// Returns the sequence number of the frame that has just ended, good or spoiled. A frame must have ended in the
    /// last call of `feed`.
    ///
    /// ```text
    /// let mut reader = FrameReader::new();
    /// reader.feed(&[0x1B, 0x2A, 0x00, 0x01, 0x0E, 0x01, 0x3F]);
    /// assert_eq!(rt; reader.seq(), 0x2A);
    /// ```
    pub fn seq(&self) -> u8
        requires { HoldsFrame self.now }
        ensures { result ≡ seq_of self.now }
    {
        self.held[1]
    }

    /// Returns the body of the frame that has just ended, good or spoiled.
    ///
    /// ```text
    /// let mut reader = FrameReader::new();
    /// reader.feed(&[0x1B, 0x01, 0x00, 0x01, 0x0E, 0x01, 0x14]);
    /// assert!(rt; reader.body() == [0x01].as_slice());
    /// ```
    pub fn body(&self) -> &[u8]
        ensures body { result.now ≡ body_of self.now }
        ensures fits { length result.now ≤ LARGEST_BODY }
    {
        let bytes = self.held.as_slice();
        if bytes.len() <= HEADER_SIZE {
            return &[];
        }
        &bytes[HEADER_SIZE..bytes.len() - 1]
    }

    /// Takes bytes up to the end of at most one piece: noise before a start byte, or what the header or the frame
    /// lacks.
    fn take_span(&mut self, bytes: &[u8]) -> (usize, Event)
        requires { 0 < length bytes.now }
        ensures within { result.0 ≤ length bytes.now }
        ensures progress { 0 < result.0 }
        ensures fed { Fed self.old (take result.0 bytes.now) self.new (frames_of_event result.1 self.new) }
        ensures is_reported { EventMatchesHeld result.1 self.new }
    {
        // A frame that had ended was kept until now.
        if size_of_piece(self.held.as_slice()) == self.held.len() {
            self.held.clear();
        }
        if self.held.is_empty() {
            let noise = memchr(MESSAGE_START, bytes).unwrap_or(bytes.len());
            if noise > 0 {
                return (noise, Event::More);
            }
        }
        let missing = size_of_piece(self.held.as_slice()) - self.held.len();
        let taken = missing.min(bytes.len());
        let _ = self.held.try_extend_from_slice(&bytes[..taken]);
        if self.held.len() < size_of_piece(self.held.as_slice()) {
            return (taken, Event::More);
        }
        // Noise or a bad header is dropped.
        if self.held.len() <= HEADER_SIZE {
            self.held.clear();
            return (taken, Event::More);
        }
        if xor_of(self.held.as_slice()) != 0 {
            return (taken, Event::Spoiled);
        }
        (taken, Event::Frame)
    }

    /// Takes bytes up to the end of the first frame that ends in the piece, or all of them. Returns how many bytes it
    /// used, and what ended. A frame that has ended, good or spoiled, is kept until the next call.
    ///
    /// ```text
    /// let mut reader = FrameReader::new();
    /// let spoiled = [0x1B, 0x01, 0x00, 0x01, 0x0E, 0x01, 0x15];
    /// assert!(rt; reader.feed(&spoiled) == (7, Event::Spoiled));
    /// ```
    #[tactic(auto, using(crate::proofs::FedReaders::within_span, crate::proofs::FedReaders::fed_span))]
    pub fn feed(&mut self, piece: &[u8]) -> (usize, Event)
        ensures within { result.0 ≤ length piece.now }
        ensures all { result.1 ≡ Event.More → result.0 ≡ length piece.now }
        ensures progress { 0 < length piece.now → 0 < result.0 }
        ensures fed { Fed self.old (take result.0 piece.now) self.new (frames_of_event result.1 self.new) }
        ensures is_reported { EventMatchesHeld result.1 self.new }
    {
        let mut used = 0;
        while used < piece.len() {
            let (taken, event) = self.take_span(&piece[used..]);
            used += taken;
            match event {
                Event::More => {}
                event => return (used, event),
            }
        }
        (used, Event::More)
    }
}
