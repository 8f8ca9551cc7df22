ghost use Rattle.std.specs.Prelude.{◌≡◌, ◌∷◌, [], codes};
ghost use Rattle.avr_part.specs.Fault.{field_name};
ghost use Rattle.avr_plan.specs.Lines.{bad_file_pieces, image_pieces, in_line_pieces, no_part_pieces, part_file_pieces, range_pieces, read_only_pieces, record_pieces, value_pieces, values_pieces};

use crate::image_file::{LARGEST_IMAGE_FILE, ReadFault};
use crate::intake::BadFile;
use avr_image::ImageFault;
use avr_io::{Message, Piece, file_message, memory_message, too_long_message};
use avr_part::{Field, Mem, PartFault};
use avr_records::RecordFault;

fn field_message<'a>(file: &'a str, field: Field, wrong: &'a str) -> Message<'a>
    ensures { result ≡ file.now ∷ codes ": " ∷ field_name field ∷ wrong.now ∷ [] }
{
    Message::new(&[
        Piece::Text(file),
        Piece::Text(": "),
        Piece::Text(field.name()),
        Piece::Text(wrong),
    ])
}

pub(crate) fn part_file_message<'a>(file: &'a str, fault: PartFault) -> Message<'a>
    ensures { result ≡ part_file_pieces file.now fault }
{
    match fault {
        PartFault::NotToml => Message::about(file, ": not TOML"),
        PartFault::Missing(field) => field_message(file, field, " is missing"),
        PartFault::BadValue(field) => field_message(file, field, " has a bad value"),
        PartFault::BadSizes => Message::about(file, ": sizes do not fit"),
        // A part file has no other fault, except that allocation failed.
        _ => memory_message(),
    }
}

pub(crate) fn no_part_message<'a>(id: &'a str) -> Message<'a>
    ensures { result ≡ no_part_pieces id.now }
{
    Message::about("no part ", id)
}

fn in_line_message<'a>(file: &'a str, line: u32, wrong: &'a str) -> Message<'a>
    ensures { result ≡ in_line_pieces file.now line wrong.now }
{
    Message::new(&[
        Piece::Text(file),
        Piece::Text(": line "),
        Piece::Number(line),
        Piece::Text(wrong),
    ])
}

fn record_message<'a>(file: &'a str, fault: RecordFault) -> Message<'a>
    ensures { result ≡ record_pieces file.now fault }
{
    match fault {
        RecordFault::BadMark(line) => in_line_message(file, line, ": no record mark"),
        RecordFault::BadDigit(line) => in_line_message(file, line, ": bad digit"),
        RecordFault::BadLength(line) => in_line_message(file, line, ": bad length"),
        RecordFault::BadSum(line) => in_line_message(file, line, ": bad checksum"),
        RecordFault::BadType(line) => in_line_message(file, line, ": bad record type"),
        RecordFault::OutOfRange(line, address) => Message::new(&[
            Piece::Text(file),
            Piece::Text(": line "),
            Piece::Number(line),
            Piece::Text(": address "),
            Piece::Address(address),
            Piece::Text(" out of range"),
        ]),
        RecordFault::LineTooLong(line) => in_line_message(file, line, ": line too long"),
        RecordFault::BadCount(line) => in_line_message(file, line, ": bad record count"),
        // A file that is read in pieces has none of these, unless allocation fails.
        RecordFault::Failed | RecordFault::Memory | RecordFault::TooLong => memory_message(),
    }
}

fn range_message<'a>(name: &'a str, address: u32) -> Message<'a>
    ensures { result ≡ range_pieces name.now address }
{
    Message::new(&[
        Piece::Text(name),
        Piece::Text(": address "),
        Piece::Address(address),
        Piece::Text(" out of range"),
    ])
}

fn bad_file_message<'a>(file: &'a str, fault: BadFile) -> Message<'a>
    ensures { result ≡ bad_file_pieces file.now fault }
{
    match fault {
        BadFile::Record(fault) => record_message(file, fault),
        BadFile::Raw(ImageFault::OutOfRange(address)) => range_message(file, address),
        // A raw file has no other fault, except that allocation failed.
        BadFile::Raw(_) => memory_message(),
        BadFile::Elf => Message::about(file, ": ELF is not read"),
        BadFile::TooLong => too_long_message(file, LARGEST_IMAGE_FILE as u32),
    }
}

pub(crate) fn image_message<'a>(file: &'a str, fault: ReadFault) -> Message<'a>
    ensures { result ≡ image_pieces file.now fault }
{
    match fault {
        ReadFault::File(fault) => file_message(file, fault),
        ReadFault::Image(fault) => bad_file_message(file, fault),
    }
}

fn value_message<'a>(memory: Mem, place: u32, wrong: &'a str) -> Message<'a>
    ensures { result ≡ value_pieces memory place wrong.now }
{
    Message::new(&[
        Piece::Text(memory.name()),
        Piece::Text(": value "),
        Piece::Number(place),
        Piece::Text(wrong),
    ])
}

pub(crate) fn values_message(memory: Mem, fault: ImageFault) -> Message<'static>
    ensures { result ≡ values_pieces memory fault }
{
    match fault {
        ImageFault::OutOfRange(address) => range_message(memory.name(), address),
        ImageFault::BadNumber(place) => value_message(memory, place, ": not a number"),
        ImageFault::TooLarge(place) => value_message(memory, place, ": above 255"),
        // Values have none of these, unless allocation fails.
        ImageFault::Failed | ImageFault::Memory | ImageFault::OtherSize => memory_message(),
    }
}

/// Returns the message for a memory that can't be written, such as `signature is read-only`.
pub fn read_only_message<'a>(memory: Mem) -> Message<'a>
    ensures { result ≡ read_only_pieces memory }
{
    Message::new(&[Piece::Text(memory.name()), Piece::Text(" is read-only")])
}
