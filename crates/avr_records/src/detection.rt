ghost use Rattle.std.specs.Prelude.{◌≡◌, Some, take, find, not, true, false, MatchOption};
ghost use Rattle.std.specs.List.{list_all};
ghost use Rattle.std.specs.Str.{bytes_eq};
ghost use Rattle.avr_records.specs.Lines.{is_blank, lines};
ghost use Rattle.avr_records.specs.Detect.{format_of_file, format_of_line, has_digits as spec_has_digits, elf_mark};

use crate::bytes::{are_digits, first};
use crate::kind::Found;
use crate::line::{is_blank_byte, split_line};

/// How many of a file's first bytes `detect` looks at. Further bytes never change its result.
///
/// ```text
/// assert_eq!(rt; FIRST_BYTES, 1024);
/// ```
pub const FIRST_BYTES: usize = 1024;

fn is_elf(prefix: &[u8]) -> bool
    ensures { result ≡ bytes_eq (take 4 prefix.now) elf_mark }
{
    prefix.starts_with(b"\x7fELF")
}

#[tactic(auto, using(crate::proofs::Readers::FirstBytes::detected))]
fn has_digits(n: usize, text: &[u8]) -> bool
    ensures { result ≡ spec_has_digits n text.now }
{
    n <= text.len() && are_digits(&text[..n])
}

/// Returns the format that a line shows.
fn shown_by(line: &[u8]) -> Found
    ensures { result ≡ format_of_line (Some line.now) }
{
    match line {
        [b':', more @ ..] if has_digits(10, more) => Found::Ihex,
        [b'S', kind, more @ ..] if kind.is_ascii_digit() && has_digits(8, more) => Found::Srec,
        _ => Found::Raw,
    }
}

fn is_blank_line(line: &[u8]) -> bool
    ensures { result ≡ list_all is_blank line.now }
{
    line.iter().all(|c| is_blank_byte(*c))
}

/// Returns the format that a line shows, unless it is blank.
fn shown_unless_blank(line: &[u8]) -> Option<Found>
    ensures { MatchOption result (list_all is_blank line.now ≡ true)
        (λ found. (list_all is_blank line.now ≡ false) × (found ≡ format_of_line (Some line.now))) }
{
    if is_blank_line(line) {
        None
    } else {
        Some(shown_by(line))
    }
}

/// Returns the format that the first line that isn't blank shows.
#[tactic(auto, using(crate::proofs::Readers::FirstBytes::detected))]
fn first_shown(prefix: &[u8]) -> Found
    ensures { result ≡ format_of_line (find (λ line. not (list_all is_blank line)) (lines prefix.now)) }
{
    let mut rest = prefix;
    while let Some((line, more)) = split_line(rest) {
        if let Some(found) = shown_unless_blank(line) {
            return found;
        }
        rest = more;
    }
    shown_unless_blank(rest).unwrap_or(Found::Raw)
}

/// Detects the format of a file from its first 1,024 bytes. An ELF file begins with its magic number. A record file
/// shows its kind in the first line that isn't blank. Anything else is raw bytes.
///
/// ```text
/// assert_eq!(rt; detect(b"\r\n:0400000001020304F2\r\n"), Found::Ihex);
/// assert_eq!(rt; detect(b"S107000001020304EE\n"), Found::Srec);
/// assert_eq!(rt; detect(&[0x0C, 0x94, 0x34, 0x00]), Found::Raw);
/// ```
pub fn detect(prefix: &[u8]) -> Found
    ensures { result ≡ format_of_file prefix.now }
{
    if is_elf(prefix) {
        return Found::Elf;
    }
    first_shown(first(FIRST_BYTES, prefix))
}
