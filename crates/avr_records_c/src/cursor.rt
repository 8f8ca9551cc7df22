//! The position in a file that is written, as numbers that C keeps.
ghost use Rattle.std.specs.Prelude.{◌≡◌, ◌^◌, min, IfSome};
ghost use Rattle.avr_records_c.specs.Cursor.{cursor_of as spec_cursor_of};
ghost use Rattle.avr_records_c.specs.Cursor.{position_of as spec_position_of, size_in_force as spec_size_of};

use crate::memory::Memory;
use avr_records::{AddressSize, Cursor as Position, Kind};

/// How far a file is written. At its beginning all numbers are 0.
#[repr(C)]
#[derive(Clone, Copy, Debug, PartialEq, Eq)]
pub struct Cursor {
    /// All bytes below this address are in lines that were put completely.
    pub addr: u32,
    /// How many bytes of the next line were put.
    pub gone: u32,
    /// Intel HEX: the upper 16 bits of the address now in force.
    pub upper: u16,
    /// S-records: how many bytes each address has, from 2 to 4, or 0 at the beginning.
    pub address_size: u8,
    /// 1 if the end record was put, else 0.
    pub ended: u8,
}

/// Returns the size of an S-record's address by a cursor's number. For Intel HEX any number will do.
fn size_in_force(kind: Kind, size: u8, memory: &Memory<'_>) -> Option<AddressSize>
    ensures { result ≡ spec_size_of kind size memory.now }
{
    match kind {
        Kind::Ihex => Some(AddressSize::Two),
        Kind::Srec => match size {
            0 => Some(Position::new(kind, memory).address_size),
            2 => Some(AddressSize::Two),
            3 => Some(AddressSize::Three),
            4 => Some(AddressSize::Four),
            _ => None,
        },
    }
}

/// Returns the position of a cursor, or `None` if no call leaves such a cursor.
pub(crate) fn position_of(kind: Kind, cursor: &Cursor, memory: &Memory<'_>) -> Option<Position>
    ensures value { result ≡ spec_position_of kind cursor.now memory.now }
    ensures kind { IfSome result (λ lines. lines.kind ≡ kind) }
{
    let ended = match cursor.ended {
        0 => false,
        1 => true,
        _ => return None,
    };
    let address_size = size_in_force(kind, cursor.address_size, memory)?;
    Some(Position {
        kind,
        addr: u64::from(cursor.addr),
        upper: cursor.upper,
        address_size,
        ended,
    })
}

/// Returns the cursor for `lines`, with `gone` bytes of the next line put.
pub(crate) fn cursor_of(lines: &Position, gone: u32) -> Cursor
    ensures { result ≡ spec_cursor_of lines.now gone }
{
    let (upper, address_size) = match lines.kind {
        Kind::Ihex => (lines.upper, 0),
        Kind::Srec => (0, lines.address_size.bytes() as u8),
    };
    Cursor {
        addr: lines.addr.min(u64::from(u32::MAX)) as u32,
        gone,
        upper,
        address_size,
        ended: u8::from(lines.ended),
    }
}
