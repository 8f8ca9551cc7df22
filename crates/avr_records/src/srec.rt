ghost use Rattle.std.specs.Prelude.{◌≤◌, length};
ghost use Rattle.avr_records.specs.Judging.{ReturnsRecord};
ghost use Rattle.avr_records.specs.Srec.{srec_from_fields, typed_srec, record_with_address as spec_addressed, without_data as spec_without_data};
ghost use Rattle.avr_records.specs.Text.{width_of};

use crate::address_size::AddressSize;
use crate::bytes::{low_sum_of, number_of};
use crate::fault::LineFault;
use crate::kind::Kind;
use crate::record::LineRecord;

/// Reads an address of this size, and the data after it.
fn addressed(record_type: u8, size: AddressSize, bytes: &[u8]) -> Result<LineRecord<'_>, LineFault>
    requires { length bytes.now ≤ 255 }
    ensures { ReturnsRecord Kind.Srec (spec_addressed record_type (width_of size) bytes.now) result }
{
    let n = size.bytes();
    if n <= bytes.len() {
        Ok(LineRecord {
            record_type,
            address: number_of(&bytes[..n]),
            bytes: &bytes[n..],
        })
    } else {
        Err(LineFault::Length)
    }
}

/// Reads an address of this size that nothing follows.
fn without_data(
    record_type: u8,
    size: AddressSize,
    bytes: &[u8],
) -> Result<LineRecord<'_>, LineFault>
    requires { length bytes.now ≤ 255 }
    ensures { ReturnsRecord Kind.Srec (spec_without_data record_type (width_of size) bytes.now) result }
{
    if bytes.len() == size.bytes() {
        addressed(record_type, size, bytes)
    } else {
        Err(LineFault::Length)
    }
}

/// Reads the bytes between count and checksum, by the digit of the type.
fn srec_typed(digit: u8, bytes: &[u8]) -> Result<LineRecord<'_>, LineFault>
    requires { length bytes.now ≤ 255 }
    ensures { ReturnsRecord Kind.Srec (typed_srec digit bytes.now) result }
{
    match digit {
        b'0' => addressed(0, AddressSize::Two, bytes),
        b'1' => addressed(1, AddressSize::Two, bytes),
        b'2' => addressed(2, AddressSize::Three, bytes),
        b'3' => addressed(3, AddressSize::Four, bytes),
        b'5' => without_data(5, AddressSize::Two, bytes),
        b'6' => without_data(6, AddressSize::Three, bytes),
        b'7' => without_data(7, AddressSize::Four, bytes),
        b'8' => without_data(8, AddressSize::Three, bytes),
        b'9' => without_data(9, AddressSize::Two, bytes),
        _ => Err(LineFault::Unknown),
    }
}

/// Reads the record from a line's bytes. It checks count and checksum.
pub(crate) fn srec_fields(digit: u8, bytes: &[u8]) -> Result<LineRecord<'_>, LineFault>
    ensures { ReturnsRecord Kind.Srec (srec_from_fields digit bytes.now) result }
{
    let [count, more @ ..] = bytes else {
        return Err(LineFault::Length);
    };
    let low_sum = low_sum_of(bytes);
    let count = *count as usize;
    if count == 0 || more.len() != count {
        return Err(LineFault::Length);
    }
    if low_sum != 255 {
        return Err(LineFault::Sum);
    }
    srec_typed(digit, &more[..count - 1])
}
