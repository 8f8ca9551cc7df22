//! Writers of consecutive bytes, one for each kind of file.

ghost use Rattle.std.specs.Prelude.{◌≡◌, ◌+◌, ◌^◌, ◌<◌, ◌≤◌, ◌↔◌, ◌++◌, length, IsTrue};
ghost use Rattle.avr_records.specs.Sparse.{image_text, run_at};
ghost use Rattle.avr_records.specs.Text.{IsLine};

use crate::cursor::Cursor;
use crate::kind::Kind;
use crate::run::Run;
use arrayvec::ArrayVec;
use avr_image::Pieces;
use std::marker::Model;

/// Writes consecutive bytes as Intel HEX, line by line, as a `Writer` of a `Run`. Contracts see the text that isn't
/// written yet.
///
/// ```text
/// let text = IhexWriter::new(0xFFFE, &[1, 2, 3]).to_vec(alloc)?;
/// assert_eq!(rt; text.as_slice(), b":02FFFE000102FE\n:020000040001F9\n:0100000003FC\n:00000001FF\n".as_slice());
/// ```
#[derive(Drop)]
pub struct IhexWriter<'a> {
    run: Run<'a>,
    cursor: Cursor,
}

impl<'a> Model for IhexWriter<'a> {
    ghost use Rattle.std.specs.Prelude.{ℕ, List};
    ghost use Rattle.avr_records.specs.Writing.{text_left};

    ghost Value = { List ℕ };

    ghost view = { λ w. text_left w.cursor w.run };
}

impl<'a> IhexWriter<'a> {
    /// Creates a writer of bytes whose first one is at the byte address `base`. It borrows them and doesn't allocate.
    ///
    /// ```text
    /// let mut piece = ArrayVec::new();
    /// assert!(rt; IhexWriter::new(0, &[]).next_piece(&mut piece));
    /// assert_eq!(rt; piece.as_slice(), b":00000001FF\n".as_slice());
    /// ```
    pub fn new(base: u32, bytes: &'a [u8]) -> IhexWriter<'a>
        requires { base + length bytes.now ≤ 2 ^ 32 }
        ensures { result ≡ image_text Kind.Ihex (run_at base bytes.now) }
    {
        let run = Run::new(base, bytes);
        let cursor = Cursor::new(Kind::Ihex, &run);
        IhexWriter { run, cursor }
    }

    /// Puts the next line into `out` and returns true, or empties `out` and returns false if no text is left.
    pub fn next_piece(&mut self, out: &mut ArrayVec<u8, 80>) -> bool
        ensures joined { self.old ≡ out.new.items ++ self.new }
        ensures some { IsTrue result ↔ (0 < length out.new.items) }
        ensures ends { IsTrue result ↔ (0 < length self.old) }
        ensures line { IsTrue result → IsLine out.new.items }
    {
        self.cursor.next_line(&self.run, out)
    }
}

impl Pieces for IhexWriter<'_> {
    ghost rest = { λ w. w };

    ghost IsPiece = { IsLine };

    fn next_piece(&mut self, out: &mut ArrayVec<u8, 80>) -> bool {
        IhexWriter::next_piece(self, out)
    }
}

/// Writes consecutive bytes as S-records, line by line, as a `Writer` of a `Run`. Contracts see the text that is not
/// written yet.
///
/// ```text
/// let text = SrecWriter::new(0x10000, &[0xAA]).to_vec(alloc)?;
/// assert_eq!(rt; text.as_slice(), b"S205010000AA4F\nS804000000FB\n".as_slice());
/// ```
#[derive(Drop)]
pub struct SrecWriter<'a> {
    run: Run<'a>,
    cursor: Cursor,
}

impl<'a> Model for SrecWriter<'a> {
    ghost use Rattle.std.specs.Prelude.{ℕ, List};
    ghost use Rattle.avr_records.specs.Writing.{text_left};

    ghost Value = { List ℕ };

    ghost view = { λ w. text_left w.cursor w.run };
}

impl<'a> SrecWriter<'a> {
    /// Creates a writer of bytes whose first one is at the byte address `base`. It borrows them and doesn't allocate.
    ///
    /// ```text
    /// let mut piece = ArrayVec::new();
    /// assert!(rt; SrecWriter::new(0, &[]).next_piece(&mut piece));
    /// assert_eq!(rt; piece.as_slice(), b"S9030000FC\n".as_slice());
    /// ```
    pub fn new(base: u32, bytes: &'a [u8]) -> SrecWriter<'a>
        requires { base + length bytes.now ≤ 2 ^ 32 }
        ensures { result ≡ image_text Kind.Srec (run_at base bytes.now) }
    {
        let run = Run::new(base, bytes);
        let cursor = Cursor::new(Kind::Srec, &run);
        SrecWriter { run, cursor }
    }

    /// Puts the next line into `out` and returns true, or empties `out` and returns false if no text is left.
    pub fn next_piece(&mut self, out: &mut ArrayVec<u8, 80>) -> bool
        ensures joined { self.old ≡ out.new.items ++ self.new }
        ensures some { IsTrue result ↔ (0 < length out.new.items) }
        ensures ends { IsTrue result ↔ (0 < length self.old) }
        ensures line { IsTrue result → IsLine out.new.items }
    {
        self.cursor.next_line(&self.run, out)
    }
}

impl Pieces for SrecWriter<'_> {
    ghost rest = { λ w. w };

    ghost IsPiece = { IsLine };

    fn next_piece(&mut self, out: &mut ArrayVec<u8, 80>) -> bool {
        SrecWriter::next_piece(self, out)
    }
}
