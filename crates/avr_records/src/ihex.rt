ghost use Rattle.std.specs.Prelude.{Ok};
ghost use Rattle.avr_records.specs.Ihex.{ihex_from_fields};
ghost use Rattle.avr_records.specs.Judging.{record_of, ReturnsRecord, FitsFields};
ghost use Rattle.avr_records.specs.Record.{with_size as spec_with_size};

use crate::bytes::low_sum_of;
use crate::fault::LineFault;
use crate::kind::Kind;
use crate::record::LineRecord;

// The types of records, by their names in Intel's specification.
pub(crate) const DATA: u8 = 0;

pub(crate) const END_OF_FILE: u8 = 1;

pub(crate) const EXTENDED_SEGMENT_ADDRESS: u8 = 2;

const START_SEGMENT_ADDRESS: u8 = 3;

pub(crate) const EXTENDED_LINEAR_ADDRESS: u8 = 4;

const START_LINEAR_ADDRESS: u8 = 5;

/// Returns the record, if it has `n` data bytes.
fn with_size(n: usize, good: LineRecord<'_>) -> Result<LineRecord<'_>, LineFault>
    requires { FitsFields Kind.Ihex good }
    ensures { ReturnsRecord Kind.Ihex (spec_with_size n good.entry.bytes.now (Ok (record_of good.entry))) result }
{
    if good.bytes.len() == n {
        Ok(good)
    } else {
        Err(LineFault::Length)
    }
}

/// Reads the record from a line's bytes. Each type but that of data requires its own size.
pub(crate) fn ihex_fields(bytes: &[u8]) -> Result<LineRecord<'_>, LineFault>
    ensures { ReturnsRecord Kind.Ihex (ihex_from_fields bytes.now) result }
{
    let [size, high, low, record_type, more @ ..] = bytes else {
        return Err(LineFault::Length);
    };
    let low_sum = low_sum_of(bytes);
    let size = *size as usize;
    if more.len() != size + 1 {
        return Err(LineFault::Length);
    }
    if low_sum != 0 {
        return Err(LineFault::Sum);
    }
    let good = LineRecord {
        record_type: *record_type,
        address: u32::from_be_bytes([0, 0, *high, *low]),
        bytes: &more[..size],
    };
    match *record_type {
        DATA => Ok(good),
        END_OF_FILE => with_size(0, good),
        EXTENDED_SEGMENT_ADDRESS | EXTENDED_LINEAR_ADDRESS => with_size(2, good),
        START_SEGMENT_ADDRESS | START_LINEAR_ADDRESS => with_size(4, good),
        _ => Err(LineFault::Unknown),
    }
}
