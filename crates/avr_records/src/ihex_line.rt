//! Writes lines of Intel HEX, by Intel's "Hexadecimal Object File Format Specification" (revision A, 1988).
//!
//! Rows have at most 32 bytes and never cross a multiple of 65,536. When the upper 16 bits of the address change, an
//! extended linear address record is written first. No start address is written. Digits are upper case, and each line
//! ends with LF.
ghost use Rattle.std.specs.Prelude.{◌≤◌, length};
ghost use Rattle.avr_records.specs.Text.{IsThisLine, ihex_record as spec_record, two_bytes};

use crate::bytes::low_sum_of;
use crate::ihex::EXTENDED_LINEAR_ADDRESS;
use crate::written_line::{Fields, append, put_line};
use arrayvec::ArrayVec;

/// Writes a record. `kind` is the number of its type in Intel's specification.
pub(crate) fn put_record(kind: u8, offset: u16, row: &[u8], out: &mut ArrayVec<u8, 80>)
    requires { length row.now ≤ 32 }
    ensures { IsThisLine out.new.items (spec_record kind offset row.now) }
{
    let mut fields = Fields::new();
    fields.push(row.len() as u8);
    append(&mut fields, &offset.to_be_bytes());
    fields.push(kind);
    append(&mut fields, row);
    let sum = low_sum_of(fields.as_slice());
    fields.push(sum.wrapping_neg());
    put_line(b":", fields.as_slice(), out);
}

/// Writes the record that sets the upper 16 bits of the addresses after it.
pub(crate) fn put_upper(upper: u16, out: &mut ArrayVec<u8, 80>)
    ensures { IsThisLine out.new.items (spec_record 4 0 (two_bytes upper)) }
{
    put_record(EXTENDED_LINEAR_ADDRESS, 0, &upper.to_be_bytes(), out);
}
