//! What a desk of six calls can't record. It takes no memory, and its methods do nothing at run time.
ghost use Rattle.std.specs.Prelude.{◌≡◌};
ghost use Rattle.std.specs.Borrow.{ftrue};
ghost use Rattle.avr_tool.specs.Noted.{Noted, nothing_noted};

use std::marker::Model;

/// What one call did.
#[derive(Clone, Copy, Drop)]
pub(crate) enum Note<'a> {
    Held(&'a [u8]),
    Released,
    /// The file was replaced with these bytes.
    Replaced(&'a [u8], &'a [u8]),
    /// Replacing the file with these bytes failed.
    Tried(&'a [u8], &'a [u8]),
}

/// The held file, the replacements that created their file, also failed ones, and how many releases were asked for.
#[derive(Debug, Drop)]
pub(crate) struct Notes {
    pub ghost noted: { Noted },
}

impl Model for Notes {
    ghost also_owns = { λ _. ftrue };
}

impl Notes {
    ghost use Rattle.avr_tool.specs.Notes.{after_note};

    /// Creates notes of nothing.
    pub(crate) fn new() -> Notes
        ensures { result.noted ≡ nothing_noted }
    {
        Notes {}
    }

    /// Returns the notes after one more call.
    #[inline(always)]
    pub(crate) fn then(&self, note: &Note<'_>) -> Notes
        ensures { result.noted ≡ after_note note.now self.now.noted }
    {
        Notes {}
    }
}
