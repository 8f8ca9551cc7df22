//! The bytes of a record: decoded from hexadecimal digits, summed, and read as numbers.
ghost use Rattle.std.specs.Prelude.{◌≡◌, ◌≤◌, ◌*◌, ◌%◌, length, take, Ok, Err, MatchResult, sum};
ghost use Rattle.std.specs.List.{list_all};
ghost use Rattle.hex.specs.Hex.{is_hex_digit};
ghost use Rattle.avr_records.specs.Record.{bytes_of_digits, number};
ghost use Rattle.avr_records.specs.Judging.{low_sum};

use crate::fault::LineFault;
use crate::line::LONGEST;

/// The most decoded bytes of a line.
pub(crate) const ROOM: usize = LONGEST / 2;

/// Returns the first `count` bytes, or all if there are fewer.
pub(crate) fn first(count: usize, text: &[u8]) -> &[u8]
    ensures { result.now ≡ take count text.now }
{
    &text[..count.min(text.len())]
}

pub(crate) fn are_digits(text: &[u8]) -> bool
    ensures { result ≡ list_all is_hex_digit text.now }
{
    text.iter().all(|c| c.is_ascii_hexdigit())
}

/// Decodes digits into `room`, two digits a byte. If a digit is bad and their number is odd, the fault is the bad
/// digit.
pub(crate) fn decode_digits<'b>(
    digits: &[u8],
    room: &'b mut [u8; ROOM],
) -> Result<&'b [u8], LineFault>
    requires { length digits.now ≤ 2 * ROOM }
    ensures { MatchResult result (λ found. bytes_of_digits digits.now ≡ Ok found.now)
        (λ fault. bytes_of_digits digits.now ≡ Err fault) }
{
    if digits.len() % 2 == 1 {
        return if are_digits(digits) {
            Err(LineFault::Length)
        } else {
            Err(LineFault::Digit)
        };
    }
    let out = &mut room[..digits.len() / 2];
    match hex::decode_to_slice(digits, out) {
        Ok(()) => Ok(out),
        Err(_) => Err(LineFault::Digit),
    }
}

/// Returns the low byte of the sum.
#[tactic(auto, using(crate::proofs::Texts::Sums::low_sum_is))]
pub(crate) fn low_sum_of(bytes: &[u8]) -> u8
    ensures { result ≡ sum bytes.now % 256 }
{
    wrapped_sum(bytes)
}

fn wrapped_sum(bytes: &[u8]) -> u8
    ensures { result ≡ low_sum bytes.now }
{
    bytes
        .iter()
        .fold(0, |total: u8, byte| total.wrapping_add(*byte))
}

/// Returns the number of two to four bytes, high byte first.
pub(crate) fn number_of(bytes: &[u8]) -> u32
    requires least { 2 ≤ length bytes.now }
    requires most { length bytes.now ≤ 4 }
    ensures { result ≡ number bytes.now }
{
    match bytes {
        [a, b] => u32::from_be_bytes([0, 0, *a, *b]),
        [a, b, c] => u32::from_be_bytes([0, *a, *b, *c]),
        [a, b, c, d] => u32::from_be_bytes([*a, *b, *c, *d]),
        _ => 0,
    }
}
