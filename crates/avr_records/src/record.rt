ghost use Rattle.std.specs.Prelude.{◌≡◌, ◌≤◌, length};
ghost use Rattle.avr_records.specs.Judging.{record_of};
ghost use Rattle.avr_records.specs.Line.{line_record};
ghost use Rattle.avr_records.specs.Reading.{in_line};
ghost use Rattle.std.specs.Result.{result_map_both};

use crate::bytes::ROOM;
use crate::fault::RecordFault;
use crate::kind::Kind;
use crate::line::record_in;
use arrayvec::ArrayVec;
use std::fmt;
use std::marker::Model;

/// The fields of a record. The data bytes are borrowed.
#[derive(Clone, Copy)]
pub struct LineRecord<'a> {
    pub(crate) record_type: u8,
    pub(crate) address: u32,
    pub(crate) bytes: &'a [u8],
}

/// A record with a right checksum: its type, its address field and its data bytes, which it owns.
///
/// ```text
/// let record = read_record(Kind::Srec, b"S107000001020304EE")?;
/// assert_eq!(rt; record.record_type(), 1);
/// assert_eq!(rt; record.address(), 0);
/// assert_eq!(rt; record.bytes(), [1, 2, 3, 4].as_slice());
/// ```
#[derive(Drop)]
pub struct Record {
    record_type: u8,
    address: u32,
    bytes: ArrayVec<u8, 255>,
}

impl Model for Record {
    ghost use Rattle.avr_records.specs.Record.{RecordFields as Fields};

    ghost Value = { Fields };

    ghost view = { λ r. record { type = r.record_type; address = r.address; bytes = r.bytes.items } };
}

impl Record {
    fn copied(found: LineRecord<'_>) -> Record
        requires { length found.bytes.now ≤ 255 }
        ensures { result ≡ record_of found.entry }
    {
        let mut bytes = ArrayVec::new();
        let _ = bytes.try_extend_from_slice(found.bytes);
        Record {
            record_type: found.record_type,
            address: found.address,
            bytes,
        }
    }

    /// Returns the number of the record's type.
    ///
    /// In Intel HEX: 0 data, 1 end of the file, 2 extended segment address, 3 start segment address, 4 extended
    /// linear address, 5 start linear address. In S-records it is the digit after the `S`: 0 header, 1 to 3 data, 5
    /// and 6 a count of data records, 7 to 9 end of the file.
    ///
    /// ```text
    /// let record = read_record(Kind::Ihex, b":00000001FF")?;
    /// assert_eq!(rt; record.record_type(), 1);
    /// ```
    pub fn record_type(&self) -> u8
        ensures { result ≡ self.now.type }
    {
        self.record_type
    }

    /// Returns the address field. In Intel HEX it is an offset of 16 bits. In S-records it is an address: for the types
    /// 7 to 9 the start address. For the types 5 and 6 it is the count.
    ///
    /// ```text
    /// let record = read_record(Kind::Srec, b"S5030001FB")?;
    /// assert_eq!(rt; record.address(), 1);
    /// ```
    pub fn address(&self) -> u32
        ensures { result ≡ self.now.address }
    {
        self.address
    }

    /// Returns the data bytes, at most 255. For the types 2 and 4 of Intel HEX they are the upper part of the
    /// addresses after the record, high byte first.
    ///
    /// ```text
    /// let record = read_record(Kind::Ihex, b":020000040001F9")?;
    /// assert_eq!(rt; record.bytes(), [0x00, 0x01].as_slice());
    /// ```
    pub fn bytes(&self) -> &[u8]
        ensures { result.now ≡ self.now.bytes }
    {
        self.bytes.as_slice()
    }
}

impl fmt::Debug for Record {
    fn fmt<W: fmt::Write>(&self, f: &mut fmt::Formatter<W>) -> fmt::Result {
        f.debug_struct("Record")
            .field("record_type", &self.record_type)
            .field("address", &self.address)
            .field("bytes", &self.bytes())
            .finish()
    }
}

/// Reads one line of a file of this kind, without the line's end: a record of Intel's "Hexadecimal Object File Format
/// Specification", or a Motorola S-record. Blanks at the end are ignored. It allocates nothing.
///
/// # Errors
///
/// `BadMark`, `BadDigit`, `BadLength`, `BadSum`, `BadType` or `LineTooLong`, with 1 as the line. An empty line is
/// `BadMark`, although a file may have empty lines.
///
/// ```text
/// let record = read_record(Kind::Ihex, b":0400100001020304E2\r")?;
/// assert_eq!(rt; (record.record_type(), record.address()), (0, 0x10));
/// assert_eq!(rt; record.bytes(), [1, 2, 3, 4].as_slice());
/// let fault = read_record(Kind::Srec, b"S107000001020304EF").err();
/// assert_eq!(rt; fault, Some(RecordFault::BadSum(1)));
/// ```
pub fn read_record(kind: Kind, line: &[u8]) -> Result<Record, RecordFault>
    ensures { result ≡ result_map_both (λ found. found) (in_line 1) (line_record kind line.now) }
{
    let mut room = [0; ROOM];
    record_in(kind, line, &mut room)
        .map(Record::copied)
        .map_err(|fault| fault.in_line(1))
}
