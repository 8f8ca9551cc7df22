//! Lines of a record file: where one ends, and what each means alone.
ghost use Rattle.std.specs.Prelude.{◌≡◌, ◌∷◌, ◌++◌, [], MatchOption, ◌≤◌, length, Ok, Err, MatchResult};
ghost use Rattle.avr_records.specs.Lines.{lines, trimmed_line, is_blank};
ghost use Rattle.avr_records.specs.Line.{trimmed_line_record, line_record};
ghost use Rattle.avr_records.specs.Reading.{line_result};
ghost use Rattle.avr_records.specs.Judging.{record_of, meaning_of, FitsKind, FitsFields, ReturnsRecord};
ghost use Rattle.avr_records.specs.Meaning.{means};

use crate::bytes::{ROOM, decode_digits};
use crate::fault::LineFault;
use crate::ihex::{
    DATA, END_OF_FILE, EXTENDED_LINEAR_ADDRESS, EXTENDED_SEGMENT_ADDRESS, ihex_fields,
};
use crate::kind::{AddressBase, Kind};
use crate::record::LineRecord;
use crate::srec::srec_fields;
use memchr::memchr;

/// Splits the text at its first line end, if there is one.
#[tactic(auto, using(crate::proofs::Texts::LineEnds::line_ends))]
#[inline(always)]
pub(crate) fn split_line(text: &[u8]) -> Option<(&[u8], &[u8])>
    ensures { MatchOption result (lines text.now ≡ text.now ∷ [])
        (λ parts. (lines parts.0.now ≡ parts.0.now ∷ []) × (text.now ≡ parts.0.now ++ 10 ∷ parts.1.now)) }
{
    match memchr(b'\n', text) {
        Some(at) => Some((&text[..at], &text[at + 1..])),
        None => None,
    }
}

/// The most bytes of a line without its end.
pub(crate) const LONGEST: usize = 600;

/// What a line means for its file.
#[derive(Clone, Copy)]
pub enum Line<'a> {
    /// Nothing: an empty line, a header or a start address.
    Nothing,
    Data(u32, &'a [u8]),
    Rebase(AddressBase),
    /// How many data records came before.
    Counted(u32),
    End,
}

/// Returns whether the byte is a space, a tab or CR.
pub(crate) fn is_blank_byte(c: u8) -> bool
    ensures { result ≡ is_blank c }
{
    c == b' ' || c == b'\t' || c == b'\r'
}

/// Returns the line without the blanks at its end.
fn trim(line: &[u8]) -> &[u8]
    ensures value { result.now ≡ trimmed_line line.now }
    ensures bound { length result.now ≤ length line.now }
{
    let mut n = line.len();
    while n > 0 && is_blank_byte(line[n - 1]) {
        n -= 1;
    }
    &line[..n]
}

fn ihex_record<'b>(line: &[u8], room: &'b mut [u8; ROOM]) -> Result<LineRecord<'b>, LineFault>
    requires { length line.now ≤ LONGEST }
    ensures { ReturnsRecord Kind.Ihex (trimmed_line_record Kind.Ihex line.now) result }
{
    match line {
        [b':', digits @ ..] => ihex_fields(decode_digits(digits, room)?),
        _ => Err(LineFault::Mark),
    }
}

fn srec_record<'b>(line: &[u8], room: &'b mut [u8; ROOM]) -> Result<LineRecord<'b>, LineFault>
    requires { length line.now ≤ LONGEST }
    ensures { ReturnsRecord Kind.Srec (trimmed_line_record Kind.Srec line.now) result }
{
    match line {
        [b'S', digit, digits @ ..] if digit.is_ascii_digit() => {
            srec_fields(*digit, decode_digits(digits, room)?)
        }
        _ => Err(LineFault::Mark),
    }
}

/// Reads the record of a line. Its bytes are decoded into `room`.
pub(crate) fn record_in<'b>(
    kind: Kind,
    line: &[u8],
    room: &'b mut [u8; ROOM],
) -> Result<LineRecord<'b>, LineFault>
    ensures { ReturnsRecord kind (line_record kind line.now) result }
{
    if line.len() > LONGEST {
        return Err(LineFault::TooLong);
    }
    let line = trim(line);
    match kind {
        Kind::Ihex => ihex_record(line, room),
        Kind::Srec => srec_record(line, room),
    }
}

/// Returns what a line means. The bytes of a data record are decoded into `room`.
pub(crate) fn line_meaning<'b>(
    kind: Kind,
    line: &[u8],
    room: &'b mut [u8; ROOM],
) -> Result<Line<'b>, LineFault>
    ensures { MatchResult result (λ found. (line_result kind line.now ≡ Ok (meaning_of found))
        × FitsKind kind found) (λ fault. line_result kind line.now ≡ Err fault) }
{
    if line.len() > LONGEST {
        return Err(LineFault::TooLong);
    }
    let line = trim(line);
    if line.is_empty() {
        return Ok(Line::Nothing);
    }
    // Each kind has its own call, so that the type of a data line is tested once.
    match kind {
        Kind::Ihex => Ok(ihex_meaning(ihex_record(line, room)?)),
        Kind::Srec => Ok(srec_meaning(srec_record(line, room)?)),
    }
}

/// Returns what a record of Intel HEX means, by its type.
fn ihex_meaning(found: LineRecord<'_>) -> Line<'_>
    requires { FitsFields Kind.Ihex found }
    ensures means { meaning_of result ≡ means Kind.Ihex (record_of found.entry) }
    ensures fits { FitsKind Kind.Ihex result }
{
    match (found.record_type, found.bytes) {
        (DATA, bytes) => Line::Data(found.address, bytes),
        (END_OF_FILE, _) => Line::End,
        (EXTENDED_SEGMENT_ADDRESS, [high, low]) => {
            Line::Rebase(AddressBase::Segment(u16::from_be_bytes([*high, *low])))
        }
        (EXTENDED_LINEAR_ADDRESS, [high, low]) => {
            Line::Rebase(AddressBase::Linear(u16::from_be_bytes([*high, *low])))
        }
        _ => Line::Nothing,
    }
}

/// Returns what an S-record means, by its type.
fn srec_meaning(found: LineRecord<'_>) -> Line<'_>
    requires { FitsFields Kind.Srec found }
    ensures means { meaning_of result ≡ means Kind.Srec (record_of found.entry) }
    ensures fits { FitsKind Kind.Srec result }
{
    match found.record_type {
        0 => Line::Nothing,
        1..=3 => Line::Data(found.address, found.bytes),
        4..=6 => Line::Counted(found.address),
        _ => Line::End,
    }
}
