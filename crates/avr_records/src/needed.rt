ghost use Rattle.std.specs.Prelude.{◌≡◌, ◌<◌, ◌≤◌, ◌^◌, ℕ, List, length, Option, Ok, Err};
ghost use Rattle.avr_records.specs.Needed.{largest_memory, size_needed_in_text};
ghost use Rattle.avr_records.specs.Reading.{image_in_text};
ghost use Rattle.avr_records.specs.declared.kind.Ending.{Ending};

use crate::bytes::ROOM;
use crate::fault::RecordFault;
use crate::kind::Kind;
use crate::line::split_line;
use crate::progress::Extent;

/// Returns the size in bytes of the smallest memory that a record file can be read into. It is one more than the
/// file's highest byte address, or 0 for a file without bytes. The call allocates nothing, so a size can be checked
/// before its image is allocated.
///
/// # Errors
///
/// Those of `read_records` for the largest memory, which has 2 to the power 32 - 1 bytes. A byte at FFFFFFFF or above
/// is `OutOfRange` with the address FFFFFFFF. `TooLong` if the file has 2 to the power 32 bytes or more. It never
/// returns `Failed` or `Memory`.
///
/// ```text
/// let size = needed_size(Kind::Ihex, b":020000040800F2\n:020010000102EB\n:00000001FF\n");
/// assert_eq!(rt; size, Ok(0x0800_0012));
/// ```
#[tactic(auto, using(crate::proofs::Readers::Extents::lines_walked))]
pub fn needed_size(kind: Kind, text: &[u8]) -> Result<u32, RecordFault>
    ensures size { length text.now < 2 ^ 32 → result ≡ size_needed_in_text kind text.now }
    ensures long { 2 ^ 32 ≤ length text.now → result ≡ Err RecordFault.TooLong }
{
    if text.len() > u32::MAX as usize {
        return Err(RecordFault::TooLong);
    }
    let mut room = [0; ROOM];
    let mut extent = Extent::new();
    let mut rest = text;
    while let Some((line, more)) = split_line(rest) {
        extent.take_line(u32::MAX, kind, line, &mut room)?;
        if extent.ended {
            return Ok(extent.end);
        }
        rest = more;
    }
    if rest.is_empty() {
        return Ok(extent.end);
    }
    extent.take_line(u32::MAX, kind, rest, &mut room)?;
    Ok(extent.end)
}

/// A file is read without a fault exactly if the memory has at least the needed size.
#[tactic(auto, using(crate::proofs::Readers::NeededSize::least))]
pub fn a_needed_size_is_the_least()
    ensures enough { (kind : Kind) (text : List ℕ) (needed size : ℕ)
        → size_needed_in_text kind text ≡ Ok needed → needed ≤ size
        → (read : List (Option ℕ) × Ending) × (image_in_text kind text size ≡ Ok read) }
    ensures least { (kind : Kind) (text : List ℕ) (size : ℕ) (read : List (Option ℕ) × Ending) → size ≤ largest_memory
        → image_in_text kind text size ≡ Ok read
        → (needed : ℕ) × (size_needed_in_text kind text ≡ Ok needed) × (needed ≤ size) }
{}
