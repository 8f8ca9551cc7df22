//! Writes lines of S-records, by Motorola's "M68000 Family Programmer's Reference Manual" (appendix C).
//!
//! Rows have at most 32 bytes. They are in S1, S2 or S3, whichever is the shortest that holds the last address. The end
//! is S9, S8 or S7 with start address 0. No header is written. Digits are upper case, and each line ends with LF.
ghost use Rattle.std.specs.Prelude.{◌≤◌, ◌++◌, length};
ghost use Rattle.avr_records.specs.Text.{IsThisLine, srec_record as spec_record, width_of, low_bytes};

use crate::address_size::AddressSize;
use crate::bytes::low_sum_of;
use crate::written_line::{Fields, append, put_line};
use arrayvec::ArrayVec;

/// Writes a record. `kind` is the digit of its type.
#[tactic(auto, using(crate::proofs::Writers::Pieces::length_low_bytes))]
pub(crate) fn put_record(
    kind: u8,
    size: AddressSize,
    addr: u32,
    row: &[u8],
    out: &mut ArrayVec<u8, 80>,
)
    requires digit { kind ≤ 9 }
    requires few { length row.now ≤ 32 }
    ensures { IsThisLine out.new.items (spec_record kind (low_bytes (width_of size) addr ++ row.now)) }
{
    let mut fields = Fields::new();
    fields.push((size.bytes() + row.len()) as u8 + 1);
    append(&mut fields, &addr.to_be_bytes()[4 - size.bytes()..]);
    append(&mut fields, row);
    let sum = low_sum_of(fields.as_slice());
    fields.push(u8::MAX - sum);
    put_line(&[b'S', b'0' + kind], fields.as_slice(), out);
}
