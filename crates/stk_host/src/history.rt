//! The transcript of a link, for proofs alone. It takes no memory, and its methods do nothing at run time.
ghost use Rattle.std.specs.Prelude.{◌≡◌, [], ◌∷◌, ◌++◌};
ghost use Rattle.std.specs.Borrow.{ftrue};
ghost use Rattle.stk_host.specs.Transcript.{Transcript};

use crate::link::Heard;
use std::marker::Model;

/// What passed at one call of a link.
#[derive(Clone, Copy, Drop)]
pub enum Piece<'a> {
    /// This many of the bytes were sent.
    Sent(&'a [u8], usize),
    /// A send that failed had taken this many of the bytes.
    Taken(&'a [u8], usize),
    /// This was received. Its bytes are at the start of the buffer.
    Received(&'a Heard, &'a [u8]),
}

/// All pieces sent and received, in order, for a link that keeps none of their bytes. Only clauses read it, as `items`.
#[derive(Drop)]
pub struct History {
    pub ghost items: { Transcript },
}

impl Model for History {
    ghost also_owns = { λ _. ftrue };
}

impl History {
    ghost use Rattle.stk_host.specs.Transcript.{passed};

    /// Creates an empty transcript.
    pub fn new() -> History
        ensures { result.items ≡ [] }
    {
        History {}
    }

    /// Returns the transcript with this piece added.
    #[inline(always)]
    pub fn then(&self, piece: &Piece<'_>) -> History
        ensures { result.items ≡ self.now.items ++ passed piece.now ∷ [] }
    {
        History {}
    }
}
