//! Reads the lines of a text that comes in pieces, and keeps the beginning of an unfinished line.
ghost use Rattle.std.specs.Prelude.{◌≡◌, ◌<◌, [], Some, MatchOption, ◌+◌, ◌≤◌, ◌^◌, ◌++◌, ℕ, List, false, ◌∷◌, length, OnOk, IfErr, IfOk};
ghost use Rattle.avr_records.specs.Closed.{ended_lines_fault};
ghost use Rattle.avr_records.specs.Lines.{lines};
ghost use Rattle.avr_records.specs.Progress.{image_size};
ghost use Rattle.avr_records.specs.Reader.{kept_of_line, ReadsLines};
ghost use Rattle.avr_records.specs.Reading.{image_in_text};
ghost use Rattle.avr_records.specs.Steps.{ending_of, InRange, IsLineFault, TakesLine};

use crate::bytes::{ROOM, first};
use crate::fault::RecordFault;
use crate::kind::{Ending, Kind};
use crate::line::{LONGEST, split_line};
use crate::progress::Progress;
use arrayvec::ArrayVec;
use avr_image::Image;

/// How many bytes of an unfinished line are kept. One byte more than the longest line may have, which shows that a line
/// is too long.
const KEPT: usize = LONGEST + 1;

/// Appends to the kept beginning of a line, as far as there is room.
#[tactic(auto, using(crate::proofs::Readers::Fed::piece_read))]
fn extend(part: &mut ArrayVec<u8, KEPT>, more: &[u8])
    ensures kept { part.new.items ≡ kept_of_line (part.old.items ++ more.now) }
    ensures count { length part.new.items ≤ length part.old.items + length more.now }
{
    let _ = part.try_extend_from_slice(first(part.remaining_capacity(), more));
}

/// What is known of the lines that have ended, and the beginning of the next one.
#[derive(Drop)]
pub struct LineReader {
    pub(crate) kind: Kind,
    pub(crate) progress: Progress,
    pub(crate) part: ArrayVec<u8, KEPT>,
    /// The decoded bytes of a line. The buffer is made once, so that no line has to clear it.
    pub(crate) room: [u8; ROOM],
}

#[tactic(auto, using(crate::proofs::Readers::Fed::lines_read))]
impl LineReader {
    /// Reads a line, of which `rest` are the last bytes. If no earlier bytes are kept, the line isn't copied.
    #[inline(always)]
    fn end_line(&mut self, rest: &[u8]) -> Result<(), RecordFault>
        requires range { InRange self.old.kind self.old.progress.extent }
        requires few { self.old.progress.extent.lines + 1 < 2 ^ 32 }
        ensures is { TakesLine self.old.kind self.old.progress (self.old.part.items ++ rest.now)
            self.new.progress result }
        ensures part { OnOk result (self.new.part.items ≡ []) }
        ensures kind { self.new.kind ≡ self.old.kind }
    {
        if self.part.is_empty() {
            return self.progress.take_line(self.kind, rest, &mut self.room);
        }
        extend(&mut self.part, rest);
        let taken = self
            .progress
            .take_line(self.kind, &self.part, &mut self.room);
        self.part.clear();
        taken
    }

    /// Splits the next line that ends with LF from `rest`. After an end record it returns `None`, because no line
    /// counts.
    fn next_line<'a>(&self, rest: &'a [u8]) -> Option<(&'a [u8], &'a [u8])>
        ensures { MatchOption result (self.now.progress.extent.ended ≡ false → lines rest.now ≡ rest.now ∷ [])
            (λ parts. (lines parts.0.now ≡ parts.0.now ∷ []) × (rest.now ≡ parts.0.now ++ 10 ∷ parts.1.now)) }
    {
        if !self.progress.extent.ended {
            split_line(rest)
        } else {
            None
        }
    }

    /// Reads the lines that end in the next piece of the text, and keeps the beginning of the next one.
    pub(crate) fn feed(&mut self, piece: &[u8]) -> Result<(), RecordFault>
        requires range { InRange self.old.kind self.old.progress.extent }
        requires few { self.old.progress.extent.lines + length piece.now < 2 ^ 32 }
        ensures reads { OnOk result ((text : List ℕ)
            → ReadsLines self.old.kind self.old.progress self.old.part.items text
            → ReadsLines self.old.kind self.new.progress self.new.part.items (text ++ piece.now)) }
        ensures fault { IfErr result (λ fault. (text : List ℕ) → ReadsLines self.old.kind
            self.old.progress self.old.part.items text → ended_lines_fault self.old.kind (text ++ piece.now)
            (image_size self.old.progress) ≡ Some fault) }
        ensures kind { self.new.kind ≡ self.old.kind }
        ensures size { length self.new.progress.image ≡ length self.old.progress.image }
        ensures range { OnOk result (InRange self.old.kind self.new.progress.extent) }
        ensures count { OnOk result (self.new.progress.extent.lines + length self.new.part.items
            ≤ self.old.progress.extent.lines + length self.old.part.items + length piece.now) }
        ensures line { IfErr result IsLineFault }
    {
        let mut rest = piece;
        while let Some((line, more)) = self.next_line(rest) {
            self.end_line(line)?;
            rest = more;
        }
        if self.progress.extent.ended {
            return Ok(());
        }
        extend(&mut self.part, rest);
        Ok(())
    }

    /// Reads the last line and returns the image and ending of the whole text.
    pub(crate) fn finish(mut self) -> Result<(Image, Ending), RecordFault>
        requires range { InRange self.kind self.progress.extent }
        requires few { self.progress.extent.lines + length self.part.items < 2 ^ 32 }
        ensures whole { (text : List ℕ) → ReadsLines self.kind self.progress self.part.items text
            → result ≡ image_in_text self.kind text (image_size self.progress) }
        ensures size { IfOk result (λ read. length read.0 ≡ length self.progress.image) }
        ensures line { IfErr result IsLineFault }
    {
        if self.part.is_empty() {
            return Ok(self.read());
        }
        self.end_line(&[])?;
        Ok(self.read())
    }

    /// Returns the image and the ending of the lines read.
    fn read(self) -> (Image, Ending)
        ensures { result ≡ (self.progress.image, ending_of self.progress.extent) }
    {
        let ending = if self.progress.extent.ended {
            Ending::Ended
        } else {
            Ending::NoEnd
        };
        (self.progress.image, ending)
    }
}
