//! The faults of record files, with numbers that never change.

ghost use Rattle.std.specs.Prelude.{◌≡◌};
ghost use Rattle.avr_records.specs.Fault.{fault_address, fault_number, fault_line_number};
ghost use Rattle.avr_records.specs.Reading.{in_line};

use std::fmt;
use thiserror::Error;

/// Why a record file can't be read. The first number is the 1-based line.
///
/// ```text
/// let mut reader = RecordReader::new(alloc, Kind::Ihex, 32_768)?;
/// let fault = reader.feed(b":020000040001F9\n:0100000055AA\n").err();
/// assert_eq!(rt; fault, Some(RecordFault::OutOfRange(2, 0x10000)));
/// ```
#[derive(Clone, Copy, Drop, PartialEq, Eq, Error)]
pub enum RecordFault {
    /// The line doesn't begin with `:`, or with `S` and a decimal digit.
    #[error("line {0}: no record mark")]
    BadMark(u32),
    /// After the mark there is something other than hexadecimal digits.
    #[error("line {0}: bad digit")]
    BadDigit(u32),
    /// The number of digits is odd, or the record's own size or its type requires another number of bytes.
    #[error("line {0}: bad length")]
    BadLength(u32),
    /// The checksum doesn't match the record's other bytes.
    #[error("line {0}: bad checksum")]
    BadSum(u32),
    /// No record has this type.
    #[error("line {0}: bad record type")]
    BadType(u32),
    /// This byte address, the record's first such one, is outside the memory.
    #[error("line {0}: address {1:08X} out of range")]
    OutOfRange(u32, u32),
    /// The line is longer than 600 bytes.
    #[error("line {0}: line too long")]
    LineTooLong(u32),
    /// The record's count differs from the number of data records before it.
    #[error("line {0}: bad record count")]
    BadCount(u32),
    /// An earlier call of this reader failed.
    #[error("the reader met a fault before")]
    Failed,
    /// Allocation failed.
    #[error("out of memory")]
    Memory,
    /// The file has 2 to the power 32 bytes or more. Only `read_records` and `needed_size` report it.
    #[error("the file is too long")]
    TooLong,
}

impl RecordFault {
    /// Returns the fault's number, which never changes.
    ///
    /// ```text
    /// assert_eq!(rt; RecordFault::BadSum(2).number(), 4);
    /// ```
    pub fn number(&self) -> u8
        ensures { result ≡ fault_number self.now }
    {
        match self {
            RecordFault::BadMark(_) => 1,
            RecordFault::BadDigit(_) => 2,
            RecordFault::BadLength(_) => 3,
            RecordFault::BadSum(_) => 4,
            RecordFault::BadType(_) => 5,
            RecordFault::OutOfRange(_, _) => 6,
            RecordFault::LineTooLong(_) => 7,
            RecordFault::BadCount(_) => 8,
            RecordFault::Failed => 9,
            RecordFault::Memory => 10,
            RecordFault::TooLong => 11,
        }
    }

    /// Returns the 1-based line at fault, or `None` for `Failed`, `Memory` and `TooLong`.
    ///
    /// ```text
    /// assert_eq!(rt; RecordFault::BadSum(2).line(), Some(2));
    /// assert_eq!(rt; RecordFault::Failed.line(), None);
    /// ```
    pub fn line(&self) -> Option<u32>
        ensures { result ≡ fault_line_number self.now }
    {
        match self {
            RecordFault::BadMark(line)
            | RecordFault::BadDigit(line)
            | RecordFault::BadLength(line)
            | RecordFault::BadSum(line)
            | RecordFault::BadType(line)
            | RecordFault::OutOfRange(line, _)
            | RecordFault::LineTooLong(line)
            | RecordFault::BadCount(line) => Some(*line),
            RecordFault::Failed | RecordFault::Memory | RecordFault::TooLong => None,
        }
    }

    /// Returns the byte address outside the memory for `OutOfRange`, else `None`.
    ///
    /// ```text
    /// assert_eq!(rt; RecordFault::OutOfRange(2, 0x10000).address(), Some(0x10000));
    /// assert_eq!(rt; RecordFault::BadSum(2).address(), None);
    /// ```
    pub fn address(&self) -> Option<u32>
        ensures { result ≡ fault_address self.now }
    {
        match self {
            RecordFault::OutOfRange(_, addr) => Some(*addr),
            _ => None,
        }
    }
}

/// The fault of a line whose number isn't known yet.
#[derive(Clone, Copy, Drop)]
pub enum LineFault {
    Mark,
    Digit,
    Length,
    Sum,
    Unknown,
    /// The first address outside the memory.
    Range(u32),
    TooLong,
    Count,
}

impl LineFault {
    pub(crate) fn in_line(self, line: u32) -> RecordFault
        ensures { result ≡ in_line line self }
    {
        match self {
            LineFault::Mark => RecordFault::BadMark(line),
            LineFault::Digit => RecordFault::BadDigit(line),
            LineFault::Length => RecordFault::BadLength(line),
            LineFault::Sum => RecordFault::BadSum(line),
            LineFault::Unknown => RecordFault::BadType(line),
            LineFault::Range(addr) => RecordFault::OutOfRange(line, addr),
            LineFault::TooLong => RecordFault::LineTooLong(line),
            LineFault::Count => RecordFault::BadCount(line),
        }
    }
}

impl fmt::Debug for RecordFault {
    fn fmt<W: fmt::Write>(&self, f: &mut fmt::Formatter<W>) -> fmt::Result {
        fmt::Display::fmt(self, f)
    }
}
