ghost use Rattle.std.specs.Prelude.{◌≡◌};
ghost use Rattle.avr_records.specs.Detect.{record_kind};

/// A kind of record file.
///
/// ```text
/// let mut reader = RecordReader::new(alloc, Kind::Srec, 4)?;
/// reader.feed(b"S107000001020304EE\nS9030000FC\n")?;
/// let (image, ending) = reader.finish()?;
/// assert_eq!(rt; image.len(), 4);
/// assert_eq!(rt; ending, Ending::Ended);
/// ```
#[derive(Clone, Copy, Debug, PartialEq, Eq)]
pub enum Kind {
    /// Intel HEX.
    Ihex,
    /// Motorola S-records.
    Srec,
}

/// Whether a record file had its end record. Without one the file may have been cut short after a line.
///
/// ```text
/// let mut reader = RecordReader::new(alloc, Kind::Ihex, 4)?;
/// reader.feed(b":0400000001020304F2\n")?;
/// let (image, ending) = reader.finish()?;
/// assert_eq!(rt; image.len(), 4);
/// assert_eq!(rt; ending, Ending::NoEnd);
/// ```
#[derive(Clone, Copy, Debug, Drop, PartialEq, Eq)]
pub enum Ending {
    /// The file has an end record. Nothing after it was read.
    Ended,
    /// The file has no end record.
    NoEnd,
}

/// The format that a file's first bytes show.
///
/// ```text
/// assert_eq!(rt; detect(b"S107000001020304EE\n"), Found::Srec);
/// ```
#[derive(Clone, Copy, Debug, PartialEq, Eq)]
pub enum Found {
    /// Intel HEX.
    Ihex,
    /// Motorola S-records.
    Srec,
    /// An executable in the ELF format.
    Elf,
    /// Raw bytes.
    Raw,
}

impl Found {
    /// Returns the kind of record file; `None` for ELF and raw bytes.
    ///
    /// ```text
    /// assert_eq!(rt; detect(b"S107000001020304EE\n").kind(), Some(Kind::Srec));
    /// assert_eq!(rt; detect(b"\x7FELF").kind(), None);
    /// ```
    pub fn kind(self) -> Option<Kind>
        ensures { result ≡ record_kind self }
    {
        match self {
            Found::Ihex => Some(Kind::Ihex),
            Found::Srec => Some(Kind::Srec),
            Found::Elf | Found::Raw => None,
        }
    }
}

/// How many addresses an offset of 16 bits reaches: those with the same upper 16 bits, or the bytes of a segment.
pub(crate) const SEGMENT: u32 = 65_536;

/// The base to which data records add their offsets.
#[derive(Clone, Copy)]
pub enum AddressBase {
    /// The upper 16 bits of the address.
    Linear(u16),
    /// The number of a paragraph of 16 bytes. Offsets wrap within the 65,536 bytes from there.
    Segment(u16),
}
