//! A desk's record for proofs alone. It takes no memory, and its methods do nothing at run time.
ghost use Rattle.std.specs.Prelude.{◌≡◌};
ghost use Rattle.std.specs.Borrow.{ftrue};
ghost use Rattle.avr_io.specs.Record.{Record, nothing_kept};

use avr_io::Stream;
use std::marker::Model;

/// What one call of a desk did.
#[derive(Clone, Copy, Drop)]
pub(crate) enum Call<'a> {
    Opened(&'a [u8]),
    Absent(&'a [u8]),
    Created(&'a [u8]),
    Held(&'a [u8]),
    /// The file was held already.
    Denied(&'a [u8]),
    Released,
    /// The file was replaced with these bytes.
    Replaced(&'a [u8], &'a [u8]),
    /// Replacing the file with these bytes failed.
    Tried(&'a [u8], &'a [u8]),
    /// The number of bytes read into the start of the buffer.
    Read(&'a [u8], usize),
    /// The number of bytes written to the stream.
    Sent(Stream, &'a [u8], usize),
}

/// The record of a desk.
#[derive(Debug, Drop)]
pub(crate) struct Journal {
    pub ghost kept: { Record },
}

impl Model for Journal {
    ghost also_owns = { λ _. ftrue };
}

impl Journal {
    ghost use Rattle.avr_desk.specs.Calls.{after_call};

    /// Creates an empty record.
    pub(crate) fn new() -> Journal
        ensures { result.kept ≡ nothing_kept }
    {
        Journal {}
    }

    /// Returns the record after one more call.
    #[inline(always)]
    pub(crate) fn then(&self, call: &Call<'_>) -> Journal
        ensures { result.kept ≡ after_call call.now self.now.kept }
    {
        Journal {}
    }
}
