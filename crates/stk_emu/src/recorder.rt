//! The transcript of a wire: whole, or without its bytes.
ghost use Rattle.std.specs.Prelude.{◌≡◌, ◌==◌, ◌≤◌, ◌<◌, ◌++◌, ◌∷◌, [], ℕ, length, OnOk, OnErr};
ghost use Rattle.stk_host.specs.Transcript as piece;
ghost use Rattle.stk_host.specs.Transcript.{Transcript, FitsBuffer, sent};

use std::alloc::AllocError;
use std::marker::Model;
use stk_host::{Heard, History, Log, Piece};

/// Keeps the transcript of a wire: a [`Log`] whole, [`Unlogged`] nothing of it that takes memory.
pub trait Recorder: Drop {
    ghost transcript: { Self → Transcript };

    // There is room for one more piece of this many bytes sent.
    ghost HasRoom: { Self → ℕ → Type 0 };

    /// Returns whether no byte was sent.
    fn sent_nothing(&self) -> bool
        ensures { result ≡ (length (sent (transcript self.now)) == 0) };

    /// Makes room for one more piece of at most `count` bytes sent. The transcript never changes.
    fn reserve(&mut self, count: usize) -> Result<(), AllocError>
        ensures transcript { transcript self.new ≡ transcript self.old }
        ensures room { OnOk result ((n : ℕ) → n ≤ count → HasRoom self.new n) };

    /// Records these bytes as sent.
    fn add_sent(&mut self, bytes: &[u8])
        requires { HasRoom self.old (length bytes.now) }
        ensures { transcript self.new ≡ transcript self.old ++ piece.Sent bytes.now ∷ [] };

    /// Records what was received; its bytes are at the start of the buffer. If allocation fails, nothing changes.
    fn add_received(&mut self, heard: Heard, buffer: &[u8]) -> Result<(), AllocError>
        requires { FitsBuffer heard (length buffer.now) }
        ensures ok { OnOk result (transcript self.new ≡ transcript self.old ++ piece.Got
            (piece.items_of heard buffer.now) ∷ []) }
        ensures err { OnErr result (transcript self.new ≡ transcript self.old) };
}

impl Recorder for Log {
    ghost use Rattle.stk_host.specs.Links.{LogState};

    ghost transcript = { λ log. log.transcript };

    ghost HasRoom = { λ log n. (0 < log.piece_room) × (n ≤ log.byte_room) };

    fn sent_nothing(&self) -> bool {
        self.sent().is_empty()
    }

    fn reserve(&mut self, count: usize) -> Result<(), AllocError> {
        Log::reserve(self, count)
    }

    fn add_sent(&mut self, bytes: &[u8]) {
        Log::add_sent(self, bytes);
    }

    fn add_received(&mut self, heard: Heard, buffer: &[u8]) -> Result<(), AllocError> {
        Log::add_received(self, heard, buffer)
    }
}

/// Keeps no byte of a transcript, only whether any was sent. It allocates nothing.
#[derive(Drop)]
pub struct Unlogged {
    unsent: bool,
    history: History,
}

impl Model for Unlogged {
    ghost use Rattle.stk_host.specs.Transcript.{Transcript, sent};
    ghost use Rattle.std.specs.Prelude.{◌≡◌, ◌==◌, length};

    ghost Value = { Transcript };

    ghost view = { λ log. log.history.items };

    ghost invariant = { λ log. log.unsent ≡ (length (sent log.history.items) == 0) };
}

impl Unlogged {
    /// Creates an empty transcript.
    pub(crate) fn new() -> Self
        ensures { result ≡ [] }
    {
        Unlogged {
            unsent: true,
            history: History::new(),
        }
    }
}

impl Recorder for Unlogged {
    ghost transcript = { λ log. log };

    ghost HasRoom = { λ log n. Unit {0} };

    fn sent_nothing(&self) -> bool {
        self.unsent
    }

    fn reserve(&mut self, _count: usize) -> Result<(), AllocError> {
        Ok(())
    }

    fn add_sent(&mut self, bytes: &[u8]) {
        self.unsent = self.unsent && bytes.is_empty();
        self.history = self.history.then(&Piece::Sent(bytes, bytes.len()));
    }

    fn add_received(&mut self, heard: Heard, buffer: &[u8]) -> Result<(), AllocError> {
        self.history = self.history.then(&Piece::Received(&heard, buffer));
        Ok(())
    }
}
