//! The numbers that C uses for formats.
ghost use Rattle.std.specs.Prelude.{◌≡◌};
ghost use Rattle.avr_records_c.specs.Numbers.{
  found_number as spec_found_number,
  kind_numbered as spec_kind_numbered,
  kind_to_read as spec_kind_to_read,
};

use crate::outcome::{MISFIT, NO_RECORDS, Outcome};
use avr_records::{Found, Kind};

pub(crate) fn found_number(found: Found) -> u8
    ensures { result ≡ spec_found_number found }
{
    match found {
        Found::Raw => 0,
        Found::Ihex => 1,
        Found::Srec => 2,
        Found::Elf => 3,
    }
}

pub(crate) fn kind_numbered(number: u8) -> Option<Kind>
    ensures { result ≡ spec_kind_numbered number }
{
    match number {
        1 => Some(Kind::Ihex),
        2 => Some(Kind::Srec),
        _ => None,
    }
}

/// Returns the kind of record file for a format's number, or the outcome of reading any other format.
pub(crate) fn kind_to_read(number: u8) -> Result<Kind, Outcome>
    ensures { result ≡ spec_kind_to_read number }
{
    match number {
        0 => Err(Outcome::unread(NO_RECORDS)),
        1 => Ok(Kind::Ihex),
        2 => Ok(Kind::Srec),
        3 => Err(Outcome::unread(NO_RECORDS)),
        _ => Err(Outcome::unread(MISFIT)),
    }
}
