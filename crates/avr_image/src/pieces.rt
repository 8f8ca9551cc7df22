//! Writers that hand out their text piece by piece.

ghost use Rattle.std.specs.Prelude.{◌≡◌, ◌<◌, ◌↔◌, ◌++◌, ℕ, List, [], length, IfOk, IsTrue, OnOk};
ghost use Rattle.std.specs.Io.KnownBytes.{Appends};

use arrayvec::ArrayVec;
use std::alloc::{AllocError, Global};
use std::io::{self, Write};

/// A text written in pieces of at most 80 bytes. Its writer allocates nothing.
///
/// ```text
/// let mut writer = ListWriter::new(Base::Dec, &[18, 255]);
/// let mut piece = ArrayVec::new();
/// assert!(rt; writer.next_piece(&mut piece));
/// assert_eq!(rt; piece.as_slice(), b"18,255\n".as_slice());
/// assert!(rt; !writer.next_piece(&mut piece));
/// ```
pub trait Pieces {
    // The text that is not written yet.
    ghost rest: { Self → List ℕ };

    // What else holds of each piece, such as that it is one line.
    ghost IsPiece: { List ℕ → Type 0 };

    /// Puts the next piece into `out` and returns true, or empties `out` and returns false if no text is left.
    fn next_piece(&mut self, out: &mut ArrayVec<u8, 80>) -> bool
        ensures joined { rest self.old ≡ out.new.items ++ rest self.new }
        ensures some { IsTrue result ↔ (0 < length out.new.items) }
        ensures ends { IsTrue result ↔ (0 < length (rest self.old)) }
        ensures piece { IsTrue result → IsPiece out.new.items };

    /// Collects the text that is not written yet.
    ///
    /// # Errors
    ///
    /// `AllocError` if allocation fails.
    ///
    /// ```text
    /// let text = ListWriter::new(Base::Hex, &[18, 255]).to_vec(alloc)?;
    /// assert_eq!(rt; text.as_slice(), b"0x12,0xff\n".as_slice());
    /// ```
    #[tactic(auto, using(crate::proofs::Texts::Pieces::joins))]
    final fn to_vec(&mut self, alloc: Global) -> Result<Vec<u8>, AllocError>
        ensures text { IfOk result (λ text. text.items ≡ rest self.old) }
        ensures over { OnOk result (rest self.new ≡ []) }
    {
        let mut text = Vec::new(alloc);
        let mut piece = ArrayVec::new();
        'pieces: while self.next_piece(&mut piece) {
            text.extend_from_slice(piece.as_slice())?;
        }
        Ok(text)
    }

    /// Writes the text that is not written yet, without allocating.
    ///
    /// # Errors
    ///
    /// The writer's error; a part of the text may have been written.
    ///
    /// ```text
    /// let mut out = Vec::new(alloc);
    /// ListWriter::new(Base::Dec, &[18, 255]).write_to(&mut out)?;
    /// assert_eq!(rt; out.as_slice(), b"18,255\n".as_slice());
    /// ```
    #[tactic(auto, using(crate::proofs::Texts::Pieces::writes))]
    final fn write_to<W: Write>(&mut self, out: &mut W) -> io::Result<()>
        ensures written { OnOk result (Appends (W.contents out.old) (W.contents out.new) (rest self.old)) }
        ensures over { OnOk result (rest self.new ≡ []) }
    {
        let mut piece = ArrayVec::new();
        'pieces: while self.next_piece(&mut piece) {
            out.write_all(piece.as_slice())?;
        }
        Ok(())
    }
}
