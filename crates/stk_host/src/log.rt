ghost use Rattle.std.specs.Prelude.{◌≡◌, ◌<◌, ◌≤◌, ◌++◌, ◌∷◌, [], length, take, OnOk, OnErr};
ghost use Rattle.stk_host.specs.Tape.{bytes_on_tape};
ghost use Rattle.stk_host.specs.Log.{received_byte_count};
ghost use Rattle.stk_host.specs.Transcript as transcript;
ghost use Rattle.stk_host.specs.Transcript.{FitsBuffer};

use crate::link::Heard;
use std::alloc::{AllocError, Global};
use std::marker::Model;

/// A piece that passed, without its bytes.
#[derive(Clone, Copy)]
enum Mark {
    Sent(usize),
    Heard(Heard),
}

/// Returns the bytes received, which are at the start of the buffer.
fn received(heard: Heard, buffer: &[u8]) -> &[u8]
    requires { FitsBuffer heard (length buffer.now) }
    ensures { result.now ≡ take (received_byte_count heard) buffer.now }
{
    match heard {
        Heard::Bytes(count) => &buffer[..count],
        Heard::Silence | Heard::End => &[],
    }
}

/// The transcript of a link: all pieces sent and received, in order.
///
/// Contracts see the list of pieces, and the room that [`Log::reserve`] has made.
#[derive(Drop)]
pub struct Log {
    marks: Vec<Mark>,
    out: Vec<u8>,
    back: Vec<u8>,
}

impl Model for Log {
    ghost use Rattle.stk_host.specs.Links.{LogState};

    ghost Value = { LogState };

    ghost use Rattle.std.specs.Prelude.{◌≡◌, ◌-◌, length, vec_len, vec_capacity};
    ghost use Rattle.stk_host.specs.Log.{transcript_of, sent_count, received_count};

    ghost view = { λ log. record {
      transcript = transcript_of log.marks.items log.out.items log.back.items;
      piece_room = vec_capacity log.marks - vec_len log.marks;
      byte_room = vec_capacity log.out - vec_len log.out;
    } };

    // The marks count exactly the bytes that are stored.
    ghost invariant = { λ log. (sent_count log.marks.items ≡ length log.out.items)
        × (received_count log.marks.items ≡ length log.back.items) };
}

impl Log {
    /// Creates an empty transcript.
    pub fn new(alloc: Global) -> Self
        ensures { result.transcript ≡ [] }
    {
        Log {
            marks: Vec::new(alloc),
            out: Vec::new(alloc),
            back: Vec::new(alloc),
        }
    }

    /// Returns all bytes sent, in order.
    pub fn sent(&self) -> &[u8]
        ensures { result.now ≡ transcript.sent self.now.transcript }
    {
        self.out.as_slice()
    }

    /// Returns all bytes received, in order.
    pub fn heard(&self) -> &[u8]
        ensures { result.now ≡ bytes_on_tape (transcript.heard self.now.transcript) }
    {
        self.back.as_slice()
    }

    /// Makes room for one more piece of at most `count` bytes sent. The transcript stays the same.
    pub fn reserve(&mut self, count: usize) -> Result<(), AllocError>
        ensures transcript { self.new.transcript ≡ self.old.transcript }
        ensures piece { OnOk result (0 < self.new.piece_room) }
        ensures bytes { OnOk result (count ≤ self.new.byte_room) }
    {
        self.marks.reserve(1)?;
        self.out.reserve(count)?;
        Ok(())
    }

    /// Adds these bytes as sent. [`Log::reserve`] must have made room for them.
    pub fn add_sent(&mut self, bytes: &[u8])
        requires piece { 0 < self.old.piece_room }
        requires bytes { length bytes.now ≤ self.old.byte_room }
        ensures { self.new.transcript ≡ self.old.transcript ++ transcript.Sent bytes.now ∷ [] }
    {
        let _there_is_room = self.out.extend_from_slice(bytes);
        self.marks.push_reserved(Mark::Sent(bytes.len()));
    }

    /// Adds what was received; its bytes are at the start of the buffer. If allocation fails, nothing is added.
    pub fn add_received(&mut self, heard: Heard, buffer: &[u8]) -> Result<(), AllocError>
        requires { FitsBuffer heard (length buffer.now) }
        ensures ok { OnOk result (self.new.transcript ≡ self.old.transcript ++ transcript.Got
            (transcript.items_of heard buffer.now) ∷ []) }
        ensures err { OnErr result (self.new.transcript ≡ self.old.transcript) }
    {
        self.marks.reserve(1)?;
        self.back.extend_from_slice(received(heard, buffer))?;
        self.marks.push_reserved(Mark::Heard(heard));
        Ok(())
    }
}
