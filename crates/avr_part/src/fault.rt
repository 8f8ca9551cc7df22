//! Why there is no such part or chip.
ghost use Rattle.std.specs.Prelude.{◌≡◌, Some};
ghost use Rattle.avr_part.specs.Fault.{field_name, part_fault_number};

use std::fmt;
use thiserror::Error;

/// The field of a part file that is at fault.
///
/// ```text
/// assert_eq!(rt; Field::Id.name(), "id");
/// ```
#[derive(Clone, Copy, Debug, PartialEq, Eq)]
pub enum Field {
    /// The table of parts, or a member that is no table.
    Parts,
    /// The key of a part's table, which is the part's id.
    Id,
    Signature,
    FlashSize,
    FlashPage,
    EepromSize,
    EepromPage,
    EesaveBit,
}

impl Field {
    /// Returns the key as the part file spells it; `id` for the key of a part's table.
    ///
    /// ```text
    /// assert_eq!(rt; Field::FlashSize.name(), "flash_size");
    /// ```
    pub fn name(self) -> &'static str
        ensures { result.now ≡ field_name self }
    {
        match self {
            Field::Parts => "parts",
            Field::Id => "id",
            Field::Signature => "signature",
            Field::FlashSize => "flash_size",
            Field::FlashPage => "flash_page",
            Field::EepromSize => "eeprom_size",
            Field::EepromPage => "eeprom_page",
            Field::EesaveBit => "eesave_bit",
        }
    }
}

impl fmt::Display for Field {
    ghost output = { λ field. Some (field_name field) };

    fn fmt<W: fmt::Write>(&self, f: &mut fmt::Formatter<W>) -> fmt::Result {
        f.write_str(self.name())
    }
}

/// Why a part or a chip couldn't be made or found.
///
/// ```text
/// assert_eq!(rt; Parts::none().find("m9").err(), Some(PartFault::NoSuchPart));
/// ```
#[derive(Clone, Copy, PartialEq, Eq, Error)]
pub enum PartFault {
    /// The part file is not TOML, or not UTF-8.
    #[error("not TOML")]
    NotToml,
    /// The part file lacks this field.
    #[error("{0} is missing")]
    Missing(Field),
    /// The field has a value that no part has.
    #[error("{0} has a bad value")]
    BadValue(Field),
    /// A size is no multiple of its page.
    #[error("sizes do not fit")]
    BadSizes,
    /// Neither the part file nor the built-in list has a part of this id.
    #[error("no part of this id")]
    NoSuchPart,
    /// The chip file has this many bytes, not the part's number.
    #[error("{0} bytes, another number expected")]
    BadChipFile(usize),
    /// Allocation failed.
    #[error("out of memory")]
    Memory,
}

impl PartFault {
    /// Returns the fault's number, which never changes.
    ///
    /// ```text
    /// assert_eq!(rt; PartFault::Missing(Field::Signature).number(), 2);
    /// ```
    pub fn number(&self) -> u8
        ensures { result ≡ part_fault_number self.now }
    {
        match self {
            PartFault::NotToml => 1,
            PartFault::Missing(_) => 2,
            PartFault::BadValue(_) => 3,
            PartFault::BadSizes => 4,
            PartFault::NoSuchPart => 5,
            PartFault::BadChipFile(_) => 6,
            PartFault::Memory => 7,
        }
    }
}

impl fmt::Debug for PartFault {
    fn fmt<W: fmt::Write>(&self, f: &mut fmt::Formatter<W>) -> fmt::Result {
        fmt::Display::fmt(self, f)
    }
}
