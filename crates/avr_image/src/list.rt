ghost use Rattle.std.specs.Prelude.{◌≡◌, ◌+◌, ◌<◌, ◌↔◌, ◌++◌, ℕ, List, [], length, IsTrue};
ghost use Rattle.avr_image.specs.Lists.{list_text};

use crate::digits::push_number;
use crate::pieces::Pieces;
use arrayvec::ArrayVec;
use std::fmt;
use std::marker::Model;

/// How the numbers of a list are written.
///
/// ```text
/// let mut piece = ArrayVec::new();
/// ListWriter::new(Base::Oct, &[7, 8]).next_piece(&mut piece);
/// assert_eq!(rt; piece.as_slice(), b"7,010\n".as_slice());
/// ```
#[derive(Clone, Copy, Debug, PartialEq, Eq)]
pub enum Base {
    /// Decimal digits.
    Dec,
    /// `0x` and lower-case hexadecimal digits.
    Hex,
    /// Octal digits, after a `0` from 8 on.
    Oct,
    /// `0b` and binary digits.
    Bin,
}

/// The most characters of a number with its comma or line end.
const LONGEST: usize = 11;

/// Writes bytes as numbers on one line, joined by commas, in pieces of at most 80 bytes. Contracts see the text that is
/// not written yet.
///
/// ```text
/// let mut text = Vec::new(alloc);
/// let mut writer = ListWriter::new(Base::Hex, &[0x12, 0xFF]);
/// let mut piece = ArrayVec::new();
/// while writer.next_piece(&mut piece) {
///     text.extend_from_slice(piece.as_slice())?;
/// }
/// assert_eq!(rt; text.as_slice(), b"0x12,0xff\n".as_slice());
/// ```
#[derive(Drop)]
pub struct ListWriter<'a> {
    base: Base,
    rest: &'a [u8],
    ended: bool,
}

impl<'a> Model for ListWriter<'a> {
    ghost use Rattle.std.specs.Prelude.{ℕ, List};
    ghost use Rattle.avr_image.specs.Lists.{list_rest};

    ghost Value = { List ℕ };

    ghost view = { λ w. list_rest w.ended w.base w.rest.now };
}

impl<'a> ListWriter<'a> {
    /// Creates a writer of `bytes`, which it borrows. It allocates nothing.
    ///
    /// ```text
    /// let mut piece = ArrayVec::new();
    /// let mut writer = ListWriter::new(Base::Dec, &[]);
    /// assert!(rt; writer.next_piece(&mut piece));
    /// assert_eq!(rt; piece.as_slice(), b"\n".as_slice());
    /// ```
    pub fn new(base: Base, bytes: &'a [u8]) -> ListWriter<'a>
        ensures { result ≡ list_text base bytes.now }
    {
        ListWriter {
            base,
            rest: bytes,
            ended: false,
        }
    }

    /// Puts the next piece into `out` and returns true, or empties `out` and returns false if no text is left.
    pub fn next_piece(&mut self, out: &mut ArrayVec<u8, 80>) -> bool
        ensures joined { self.old ≡ out.new.items ++ self.new }
        ensures some { IsTrue result ↔ (0 < length out.new.items) }
        ensures ends { IsTrue result ↔ (0 < length self.old) }
    {
        Pieces::next_piece(self, out)
    }
}

impl Pieces for ListWriter<'_> {
    ghost rest = { λ w. w };

    // Any part of a list may be a piece.
    ghost IsPiece = { λ _. Unit {0} };

    fn next_piece(&mut self, out: &mut ArrayVec<u8, 80>) -> bool {
        out.clear();
        while !self.ended && out.len() + LONGEST <= out.capacity() {
            // the next number with its comma or line end, or the line end of an empty list
            match self.rest {
                [] => {
                    self.ended = true;
                    out.push(b'\n');
                }
                [byte] => {
                    push_number(self.base, *byte, out);
                    self.ended = true;
                    out.push(b'\n');
                }
                [byte, more @ ..] => {
                    push_number(self.base, *byte, out);
                    self.rest = more;
                    out.push(b',');
                }
            }
        }
        !out.is_empty()
    }
}

impl fmt::Debug for ListWriter<'_> {
    fn fmt<W: fmt::Write>(&self, f: &mut fmt::Formatter<W>) -> fmt::Result {
        f.debug_struct("ListWriter")
            .field("base", &self.base)
            .field("left", &self.rest.len())
            .field("ended", &self.ended)
            .finish_non_exhaustive()
    }
}
