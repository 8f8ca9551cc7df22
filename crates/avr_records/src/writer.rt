//! The writer of a memory's record file, line by line or in one call.

ghost use Rattle.std.specs.Prelude.{◌≡◌, length, Ok};
ghost use Rattle.avr_records.specs.Reading.{image_in_text};
ghost use Rattle.avr_records.specs.Sparse.{image_text};

use crate::cursor::Cursor;
use crate::kind::{Ending, Kind};
use crate::sparse::Sparse;
use arrayvec::ArrayVec;
use avr_image::Pieces;
use std::fmt;
use std::marker::Model;

/// Writes the record file of an `Image`, a `Run` of bytes, or any other `Sparse`. Each piece is a line. Contracts see
/// the text that is not written yet.
///
/// ```text
/// let mut image = Image::new(alloc, 8)?;
/// image.put_slice(1, &[1, 2])?;
/// image.put(5, 0xFF)?;
/// let text = Writer::new(Kind::Ihex, &image).to_vec(alloc)?;
/// assert_eq!(rt; text.as_slice(), b":020001000102FA\n:01000500FFFB\n:00000001FF\n".as_slice());
/// let text = Writer::new(Kind::Srec, &image).to_vec(alloc)?;
/// assert_eq!(rt; text.as_slice(), b"S10500010102F6\nS1040005FFF7\nS9030000FC\n".as_slice());
/// ```
#[derive(Drop)]
pub struct Writer<'a, M: Sparse> {
    memory: &'a M,
    cursor: Cursor,
}

impl<'a, M: Sparse> Model for Writer<'a, M> {
    ghost use Rattle.std.specs.Prelude.{ℕ, List};
    ghost use Rattle.avr_records.specs.Writing.{text_left};

    ghost Value = { List ℕ };

    ghost view = { λ w. text_left w.cursor (M.held w.memory.now) };
}

impl<'a, M: Sparse> Writer<'a, M> {
    /// Creates a writer of a memory's file. It borrows the memory and doesn't allocate.
    ///
    /// ```text
    /// let mut piece = ArrayVec::new();
    /// let run = Run::new(0x20000, &[0x55]);
    /// let mut writer = Writer::new(Kind::Ihex, &run);
    /// assert!(rt; writer.next_piece(&mut piece));
    /// assert_eq!(rt; piece.as_slice(), b":020000040002F8\n".as_slice());
    /// ```
    pub fn new(kind: Kind, memory: &'a M) -> Writer<'a, M>
        ensures text { result ≡ image_text kind (M.held memory.now) }
        ensures reads_back { image_in_text kind result (length (M.held memory.now))
            ≡ Ok (M.held memory.now, Ending.Ended) }
    {
        Writer {
            memory,
            cursor: Cursor::new(kind, memory),
        }
    }
}

impl<M: Sparse> Pieces for Writer<'_, M> {
    ghost use Rattle.avr_records.specs.Text.{IsLine};

    ghost rest = { λ w. w };

    ghost IsPiece = { IsLine };

    fn next_piece(&mut self, out: &mut ArrayVec<u8, 80>) -> bool {
        self.cursor.next_line(self.memory, out)
    }
}

impl<M: Sparse> fmt::Debug for Writer<'_, M> {
    fn fmt<W: fmt::Write>(&self, f: &mut fmt::Formatter<W>) -> fmt::Result {
        f.debug_struct("Writer")
            .field("kind", &self.cursor.kind)
            .field("addr", &self.cursor.addr)
            .field("ended", &self.cursor.ended)
            .finish_non_exhaustive()
    }
}
