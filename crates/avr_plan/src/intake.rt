//! Makes an image from the bytes of a file as they come, or returns why they are no image.
ghost use Rattle.std.specs.Prelude.{◌≡◌, ◌+◌, ◌<◌, ◌≤◌, ◌^◌, ◌++◌, ℕ, [], length, MatchResult};
ghost use Rattle.avr_io.specs.Record.{Bytes};
ghost use Rattle.avr_records.specs.declared.kind.Found.{Found as AnyFound};
ghost use Rattle.avr_plan.specs.ImageFile.{image_of_file, fault_of_long_file};
ghost use Rattle.avr_plan.specs.Intake.{WasFed, record_bytes_fed, found_as, in_long_file};

use avr_image::{Image, ImageFault, RawReader};
use avr_io::FileFault;
use avr_records::{Ending, Found, Kind, RecordFault, RecordReader};
use std::alloc::Global;
use thiserror::Error;

/// Why the bytes of a file are no image of a memory.
#[derive(Clone, Copy, Debug, Drop, PartialEq, Eq, Error)]
pub enum BadFile {
    /// The first line of a record file with a fault; lines count from 1.
    #[error("{0}")]
    Record(RecordFault),
    /// Raw bytes go past the end of the memory. The address is the first one outside.
    #[error("{0}")]
    Raw(ImageFault),
    /// The file is an executable in the ELF format.
    #[error("ELF is not read")]
    Elf,
    /// The file has more than 4,194,304 bytes.
    #[error("longer than 4194304 bytes")]
    TooLong,
}

/// The state after the bytes of a file so far: a reader, or the first fault.
#[derive(Drop)]
pub(crate) enum Intake {
    Records(RecordReader),
    Raw(RawReader),
    Faulty(BadFile),
}

fn record_intake(alloc: Global, kind: Kind, size: u32) -> Result<Intake, FileFault>
    ensures { MatchResult result (λ intake. WasFed (found_as kind) size intake [] × (record_bytes_fed intake ≡ 0))
        (λ fault. fault ≡ FileFault.Memory) }
{
    match RecordReader::new(alloc, kind, size) {
        Ok(reader) => Ok(Intake::Records(reader)),
        Err(_) => Err(FileFault::Memory),
    }
}

/// Returns the fault of a file that is too long and has `fault` in its first bytes.
fn in_long_file(fault: BadFile) -> BadFile
    ensures { result ≡ in_long_file fault }
{
    match fault {
        BadFile::Record(_) => fault,
        _ => BadFile::TooLong,
    }
}

impl Intake {
    pub(crate) fn new(alloc: Global, found: Found, size: u32) -> Result<Intake, FileFault>
        ensures { MatchResult result (λ intake. WasFed found size intake [] × (record_bytes_fed intake ≡ 0))
            (λ fault. fault ≡ FileFault.Memory) }
    {
        match found {
            Found::Ihex => record_intake(alloc, Kind::Ihex, size),
            Found::Srec => record_intake(alloc, Kind::Srec, size),
            Found::Elf => Ok(Intake::Faulty(BadFile::Elf)),
            Found::Raw => match RawReader::new(alloc, size) {
                Ok(reader) => Ok(Intake::Raw(reader)),
                Err(_) => Err(FileFault::Memory),
            },
        }
    }

    /// Feeds the next bytes of the file. After a fault, more bytes change nothing.
    pub(crate) fn fed(self, piece: &[u8]) -> Intake
        requires { record_bytes_fed self + length piece.now < 2 ^ 32 }
        ensures feeds { (found : AnyFound) (size : ℕ) (text : Bytes) → WasFed found size self text
            → WasFed found size result (text ++ piece.now) }
        ensures count { record_bytes_fed result ≤ record_bytes_fed self + length piece.now }
    {
        match self {
            Intake::Records(mut reader) => match reader.feed(piece) {
                Ok(()) => Intake::Records(reader),
                Err(fault) => Intake::Faulty(BadFile::Record(fault)),
            },
            Intake::Raw(mut reader) => match reader.feed(piece) {
                Ok(()) => Intake::Raw(reader),
                Err(fault) => Intake::Faulty(BadFile::Raw(fault)),
            },
            Intake::Faulty(fault) => Intake::Faulty(fault),
        }
    }

    pub(crate) fn finish(self) -> Result<(Image, Ending), BadFile>
        ensures { (found : AnyFound) (size : ℕ) (text : Bytes) → WasFed found size self text
            → result ≡ image_of_file found text size }
    {
        match self {
            Intake::Records(reader) => reader.finish().map_err(BadFile::Record),
            Intake::Raw(reader) => match reader.finish() {
                Ok(image) => Ok((image, Ending::Ended)),
                Err(fault) => Err(BadFile::Raw(fault)),
            },
            Intake::Faulty(fault) => Err(fault),
        }
    }

    /// Returns the fault of a longer file that begins with the bytes fed.
    pub(crate) fn exceeded(self) -> BadFile
        ensures { (found : AnyFound) (size : ℕ) (text : Bytes) → WasFed found size self text
            → result ≡ fault_of_long_file found text size }
    {
        match self {
            Intake::Records(_) => BadFile::TooLong,
            Intake::Raw(_) => BadFile::TooLong,
            Intake::Faulty(fault) => in_long_file(fault),
        }
    }
}
