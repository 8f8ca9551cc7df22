ghost use Rattle.std.specs.Prelude.{◌≡◌};
ghost use Rattle.avr_records_c.specs.Reading.{checked_read_kind as spec_checked_read_kind, Reads};

use crate::bitmap::{is_bitmap_of, put_bitmap};
use crate::numbers::kind_to_read;
use crate::outcome::{MISFIT, Outcome};
use avr_records::{Kind, read_records};
use std::alloc::Global;

/// Returns the kind of file if the arguments fit one another, else the outcome.
fn checked_read_kind(kind: u8, text: usize, size: usize, present: usize) -> Result<Kind, Outcome>
    ensures { result ≡ spec_checked_read_kind kind text size present }
{
    if text <= u32::MAX as usize && is_bitmap_of(present, size) {
        kind_to_read(kind)
    } else {
        Err(Outcome::unread(MISFIT))
    }
}

/// Reads a whole record file, of kind 1 for Intel HEX or 2 for S-records, into a memory and its bitmap. Gaps get FF.
/// The bitmap has an octet for each eight bytes and one for those that are left. Start addresses and headers (S0) are
/// dropped.
///
/// After a fault the bytes and the bitmap are unchanged. Faults up to 10 have the numbers of `RecordFault`. The others:
/// - 11 if the arguments don't fit one another: an unknown format, a bitmap of another length, or a file or memory of
///   2 to the power 32 bytes or more.
/// - 12 if the arguments fit, but the format has no records: raw bytes (kind 0) or ELF (kind 3).
#[unsafe(no_mangle)]
pub extern "C" fn avr_records_read(
    alloc: Global,
    kind: u8,
    text: &[u8],
    bytes: &mut [u8],
    present: &mut [u8],
) -> Outcome
    ensures { Reads kind text.now bytes.old present.old (record
        { outcome = result; bytes = bytes.new; present = present.new }) }
{
    let kind = match checked_read_kind(kind, text.len(), bytes.len(), present.len()) {
        Ok(kind) => kind,
        Err(outcome) => return outcome,
    };
    match read_records(alloc, kind, bytes.len() as u32, text) {
        Ok((image, ending)) => {
            image.fill(0, bytes);
            put_bitmap(&image, present);
            Outcome::done(ending)
        }
        Err(fault) => Outcome::refused(fault),
    }
}
