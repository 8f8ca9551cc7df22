//! A part and its memories.
ghost use Rattle.std.specs.Prelude.{◌≡◌, ◌<◌, Some};
ghost use Rattle.avr_part.specs.Mem.{name_of, is_writable, memory_named};

use arrayvec::ArrayString;
use std::fmt;
use std::marker::Model;

/// A memory of a part, as AVRDUDE's `-U` names it.
///
/// ```text
/// assert_eq!(rt; Mem::named("lfuse"), Some(Mem::Lfuse));
/// ```
#[derive(Clone, Copy, Debug, PartialEq, Eq)]
pub enum Mem {
    Flash,
    Eeprom,
    Lfuse,
    Hfuse,
    Efuse,
    Lock,
    Signature,
    Calibration,
}

impl Mem {
    /// Every memory once.
    ///
    /// ```text
    /// assert_eq!(rt; Mem::ALL.len(), 8);
    /// assert_eq!(rt; Mem::ALL[1], Mem::Eeprom);
    /// ```
    pub const ALL: [Mem; 8] = [
        Mem::Flash,
        Mem::Eeprom,
        Mem::Lfuse,
        Mem::Hfuse,
        Mem::Efuse,
        Mem::Lock,
        Mem::Signature,
        Mem::Calibration,
    ];

    /// Returns the memory's name in lower case.
    ///
    /// ```text
    /// assert_eq!(rt; Mem::Hfuse.name(), "hfuse");
    /// ```
    pub fn name(self) -> &'static str
        ensures { result.now ≡ name_of self }
    {
        match self {
            Mem::Flash => "flash",
            Mem::Eeprom => "eeprom",
            Mem::Lfuse => "lfuse",
            Mem::Hfuse => "hfuse",
            Mem::Efuse => "efuse",
            Mem::Lock => "lock",
            Mem::Signature => "signature",
            Mem::Calibration => "calibration",
        }
    }

    /// Returns the memory of this name, spelled exactly as by [`Mem::name`].
    ///
    /// ```text
    /// assert_eq!(rt; Mem::named("eeprom"), Some(Mem::Eeprom));
    /// assert_eq!(rt; Mem::named("EEPROM"), None);
    /// ```
    pub fn named(name: &str) -> Option<Mem>
        ensures { result ≡ memory_named name.now }
    {
        Mem::ALL.iter().copied().find(|mem| mem.name() == name)
    }

    /// Returns whether serial programming can write the memory: all but the signature and the calibration.
    ///
    /// ```text
    /// assert!(rt; Mem::Lock.writable() && !Mem::Signature.writable());
    /// ```
    pub fn writable(self) -> bool
        ensures { result ≡ is_writable self }
    {
        !matches!(self, Mem::Signature | Mem::Calibration)
    }
}

impl fmt::Display for Mem {
    ghost output = { λ mem. Some (name_of mem) };

    fn fmt<W: fmt::Write>(&self, f: &mut fmt::Formatter<W>) -> fmt::Result {
        f.write_str(self.name())
    }
}

/// What is known of a part. Sizes and pages are in bytes.
///
/// Every part has an id of 1 to 31 ASCII letters, digits, `_` and `-`. Pages are powers of two up to 256, and a flash
/// page holds whole words. A memory is whole pages: flash up to 262,144 bytes, EEPROM up to 4,096.
///
/// ```text
/// let part = Parts::none().find("m328p")?;
/// assert_eq!(rt; part.size_of(Mem::Flash), 32_768);
/// ```
#[derive(Debug, Drop)]
pub struct Part {
    pub(crate) id: ArrayString<31>,
    pub(crate) signature: [u8; 3],
    pub(crate) flash_size: u32,
    pub(crate) flash_page: u32,
    pub(crate) eeprom_size: u32,
    pub(crate) eeprom_page: u32,
    pub(crate) eesave_bit: u32,
}

impl Model for Part {
    ghost use Rattle.avr_part.specs.Part.{Part as PartData, IsPart};

    ghost Value = { PartData };

    ghost view = { λ p. record {
      id = p.id.bytes;
      signature = p.signature;
      flash_size = p.flash_size;
      flash_page = p.flash_page;
      eeprom_size = p.eeprom_size;
      eeprom_page = p.eeprom_page;
      eesave_bit = p.eesave_bit;
    } };

    ghost invariant = { λ p. IsPart (record {
      id = p.id.bytes;
      signature = p.signature;
      flash_size = p.flash_size;
      flash_page = p.flash_page;
      eeprom_size = p.eeprom_size;
      eeprom_page = p.eeprom_page;
      eesave_bit = p.eesave_bit;
    }) };
}

impl Part {
    ghost use Rattle.avr_part.specs.Part.{size_of, page_of, IsPart};

    /// Returns the id: 1 to 31 ASCII letters, digits, `_` and `-`.
    ///
    /// ```text
    /// assert_eq!(rt; Parts::none().find("t85")?.id(), "t85");
    /// ```
    pub fn id(&self) -> &str
        ensures { result.now ≡ self.now.id }
    {
        self.id.as_str()
    }

    /// Returns the signature, byte 0 first.
    ///
    /// ```text
    /// assert_eq!(rt; Parts::none().find("t85")?.signature(), [0x1E, 0x93, 0x0B]);
    /// ```
    pub fn signature(&self) -> [u8; 3]
        ensures { result ≡ self.now.signature }
    {
        self.signature
    }

    /// Returns the size of a memory in bytes.
    ///
    /// ```text
    /// let part = Parts::none().find("m2560")?;
    /// assert_eq!(rt; part.size_of(Mem::Eeprom), 4096);
    /// assert_eq!(rt; part.size_of(Mem::Signature), 3);
    /// ```
    pub fn size_of(&self, mem: Mem) -> u32
        ensures value { result ≡ size_of mem self.now }
        ensures is_part { IsPart self.now }
    {
        match mem {
            Mem::Flash => self.flash_size,
            Mem::Eeprom => self.eeprom_size,
            Mem::Signature => 3,
            _ => 1,
        }
    }

    /// Returns how many bytes are written at once: a page of flash or EEPROM, else one byte.
    ///
    /// ```text
    /// let part = Parts::none().find("m2560")?;
    /// assert_eq!(rt; part.page_of(Mem::Flash), 256);
    /// assert_eq!(rt; part.page_of(Mem::Lock), 1);
    /// ```
    pub fn page_of(&self, mem: Mem) -> u32
        ensures value { result ≡ page_of mem self.now }
        ensures is_part { IsPart self.now }
    {
        match mem {
            Mem::Flash => self.flash_page,
            Mem::Eeprom => self.eeprom_page,
            _ => 1,
        }
    }

    /// Returns the number of the EESAVE bit in the high fuse, 0 to 7. If that bit is 0, a chip erase keeps the
    /// EEPROM.
    ///
    /// ```text
    /// assert_eq!(rt; Parts::none().find("m328p")?.eesave_bit(), 3);
    /// ```
    pub fn eesave_bit(&self) -> u32
        ensures value { result ≡ self.now.eesave_bit }
        ensures small { result < 8 }
    {
        self.eesave_bit
    }

    /// Copies the part without allocating.
    ///
    /// ```text
    /// let part = Parts::none().find("m328p")?;
    /// let chip = Chip::fresh(alloc, part.copied())?;
    /// assert_eq!(rt; chip.part().id(), part.id());
    /// ```
    pub fn copied(&self) -> Part
        ensures value { result ≡ self.now }
        ensures is_part { IsPart result }
    {
        Part {
            id: self.id,
            signature: self.signature,
            flash_size: self.flash_size,
            flash_page: self.flash_page,
            eeprom_size: self.eeprom_size,
            eeprom_page: self.eeprom_page,
            eesave_bit: self.eesave_bit,
        }
    }
}
