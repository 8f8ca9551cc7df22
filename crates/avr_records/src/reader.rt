//! The reader of record files: in pieces, or a whole file in one call.
ghost use Rattle.std.specs.Prelude.{◌≡◌, ◌≢◌, ◌+◌, ◌<◌, ◌≤◌, ◌^◌, ◌++◌, ℕ, List, true, Ok, Err, length, MatchResult, IfOk, OnOk, OnErr, ◌⊎◌};
ghost use Rattle.avr_records.specs.Closed.{ended_lines_fault};
ghost use Rattle.avr_records.specs.Reader.{ReaderState, MayHaveRead, IsNewReader, memory_size};
ghost use Rattle.avr_records.specs.Reading.{image_in_text, ok_unless};

use crate::bytes::ROOM;
use crate::fault::RecordFault;
use crate::kind::{Ending, Kind};
use crate::line_reader::LineReader;
use crate::progress::{Extent, Progress};
use arrayvec::ArrayVec;
use avr_image::Image;
use std::alloc::Global;
use std::fmt;
use std::marker::Model;

/// Reads a record file of one kind into an image, from pieces of any length.
///
/// A reader keeps the image and at most 601 bytes of a line. Contracts speak of the texts that it may have been fed
/// (`MayHaveRead`), so the results don't depend on the pieces. Start addresses and headers (S0) are checked as records,
/// then dropped.
///
/// ```text
/// let mut reader = RecordReader::new(alloc, Kind::Ihex, 32_768)?;
/// reader.feed(b":04000000010203")?;
/// reader.feed(b"04F2\n:00000001FF\n")?;
/// let (image, ending) = reader.finish()?;
/// assert_eq!(rt; image.get(3), Some(0x04));
/// assert_eq!(rt; ending, Ending::Ended);
/// ```
#[derive(Drop)]
pub struct RecordReader {
    lines: LineReader,
    fed: u32,
    failed: bool,
}

impl Model for RecordReader {
    ghost use Rattle.std.specs.Prelude.{◌≡◌, ◌+◌, ◌≤◌, length, false};
    ghost use Rattle.avr_records.specs.Reader.{ReaderState};

    ghost Value = { ReaderState };

    ghost use Rattle.avr_records.specs.Steps.{InRange};

    ghost view = { λ r. record {
      kind = r.lines.kind;
      progress = r.lines.progress;
      part = r.lines.part.items;
      fed = r.fed;
      failed = r.failed;
    } };

    ghost invariant = { λ r. r.failed ≡ false → InRange r.lines.kind r.lines.progress.extent
        × (r.lines.progress.extent.lines + length r.lines.part.items ≤ r.fed) };
}

impl RecordReader {
    /// Creates a reader for a memory of `size` bytes. No later call allocates.
    ///
    /// # Errors
    ///
    /// `Memory` if allocation fails. No other call of the reader returns it.
    ///
    /// ```text
    /// let reader = RecordReader::new(alloc, Kind::Srec, 32_768)?;
    /// let (image, ending) = reader.finish()?;
    /// assert_eq!(rt; image.size(), 32_768);
    /// assert_eq!(rt; ending, Ending::NoEnd);
    /// ```
    pub fn new(alloc: Global, kind: Kind, size: u32) -> Result<RecordReader, RecordFault>
        ensures { MatchResult result (IsNewReader kind size) (λ fault. fault ≡ RecordFault.Memory) }
    {
        let Ok(image) = Image::new(alloc, size) else {
            return Err(RecordFault::Memory);
        };
        let progress = Progress {
            extent: Extent::new(),
            image,
        };
        let lines = LineReader {
            kind,
            progress,
            part: ArrayVec::new(),
            room: [0; ROOM],
        };
        Ok(RecordReader {
            lines,
            fed: 0,
            failed: false,
        })
    }

    /// Returns how many bytes the reader was fed, without those of a `feed` that failed.
    ///
    /// ```text
    /// let mut reader = RecordReader::new(alloc, Kind::Ihex, 4)?;
    /// reader.feed(b":00000001FF")?;
    /// assert_eq!(rt; reader.fed(), 11);
    /// ```
    pub fn fed(&self) -> u32
        ensures { result ≡ self.now.fed }
    {
        self.fed
    }

    /// Reads the next piece of the file. All pieces together must have fewer than 2 to the power 32 bytes.
    ///
    /// # Errors
    ///
    /// The first fault among the lines that end in this piece: `BadMark`, `BadDigit`, `BadLength`, `BadSum`,
    /// `BadType`, `BadCount`, `LineTooLong` or `OutOfRange`. `Failed` after any fault.
    ///
    /// ```text
    /// let mut reader = RecordReader::new(alloc, Kind::Ihex, 4)?;
    /// reader.feed(b":0400000001020304F3")?;
    /// assert_eq!(rt; reader.feed(b"\n"), Err(RecordFault::BadSum(1)));
    /// assert_eq!(rt; reader.finish().err(), Some(RecordFault::Failed));
    /// ```
    #[tactic(auto, using(std::proofs::lemmas::Bool::Decides::nat_tests, crate::proofs::Readers::Fed::no_fault_so_far))]
    pub fn feed(&mut self, piece: &[u8]) -> Result<(), RecordFault>
        requires { self.old.fed + length piece.now < 2 ^ 32 }
        ensures of_text { (text : List ℕ) → MayHaveRead self.old text → result
            ≡ ok_unless (ended_lines_fault self.old.kind (text ++ piece.now) (memory_size self.old)) tt }
        ensures stands { OnOk result ((text : List ℕ) → MayHaveRead self.old text
            → MayHaveRead self.new (text ++ piece.now)) }
        ensures fed { OnOk result (self.new.fed ≡ self.old.fed + length piece.now) }
        ensures fault { OnErr result ((self.new.failed ≡ true) × (self.new.fed ≡ self.old.fed)) }
        ensures kind { self.new.kind ≡ self.old.kind }
        ensures size { memory_size self.new ≡ memory_size self.old }
        ensures failed { self.old.failed ≡ true → result ≡ Err RecordFault.Failed }
        ensures memory { result ≢ Err RecordFault.Memory }
    {
        if self.failed {
            return Err(RecordFault::Failed);
        }
        match self.lines.feed(piece) {
            Ok(()) => {
                self.fed += piece.len() as u32;
                Ok(())
            }
            Err(fault) => {
                self.failed = true;
                Err(fault)
            }
        }
    }

    /// Returns the image of the whole file, and whether it has an end record.
    ///
    /// # Errors
    ///
    /// The fault of a last line without a line end. `Failed` after any fault.
    ///
    /// ```text
    /// let mut reader = RecordReader::new(alloc, Kind::Ihex, 4)?;
    /// reader.feed(b":0400000001020304F3")?;
    /// assert_eq!(rt; reader.finish().err(), Some(RecordFault::BadSum(1)));
    /// ```
    pub fn finish(self) -> Result<(Image, Ending), RecordFault>
        ensures of_text { (text : List ℕ) → MayHaveRead self text → result
            ≡ image_in_text self.kind text (memory_size self) }
        ensures size { IfOk result (λ read. length read.0 ≡ memory_size self) }
        ensures failed { self.failed ≡ true → result ≡ Err RecordFault.Failed }
        ensures memory { result ≢ Err RecordFault.Memory }
    {
        let RecordReader { lines, failed, .. } = self;
        if failed {
            return Err(RecordFault::Failed);
        }
        lines.finish()
    }
}

/// Reads a whole record file for a memory of `size` bytes: Intel HEX (Intel's "Hexadecimal Object File Format
/// Specification") or Motorola S-records. Returns the image, and whether the file has an end record. Start addresses
/// and headers (S0) are dropped.
///
/// # Errors
///
/// The first fault of the file, as [`RecordReader::feed`] returns it. `Memory` if allocation fails. `TooLong` if the
/// file has 2 to the power 32 bytes or more.
///
/// ```text
/// let (image, ending) = read_records(alloc, Kind::Ihex, 4, b":0400000001020304F2\n:00000001FF\n")?;
/// assert_eq!(rt; image.len(), 4);
/// assert_eq!(rt; ending, Ending::Ended);
/// ```
pub fn read_records(
    alloc: Global,
    kind: Kind,
    size: u32,
    text: &[u8],
) -> Result<(Image, Ending), RecordFault>
    ensures value { length text.now < 2 ^ 32 → (result ≡ image_in_text kind text.now size)
        ⊎ (result ≡ Err RecordFault.Memory) }
    ensures long { 2 ^ 32 ≤ length text.now → result ≡ Err RecordFault.TooLong }
    ensures size { IfOk result (λ read. length read.0 ≡ size) }
{
    if text.len() > u32::MAX as usize {
        return Err(RecordFault::TooLong);
    }
    let mut reader = RecordReader::new(alloc, kind, size)?;
    reader.feed(text)?;
    reader.finish()
}

impl fmt::Debug for RecordReader {
    fn fmt<W: fmt::Write>(&self, f: &mut fmt::Formatter<W>) -> fmt::Result {
        f.debug_struct("RecordReader")
            .field("kind", &self.lines.kind)
            .field("fed", &self.fed)
            .field("failed", &self.failed)
            .finish_non_exhaustive()
    }
}
