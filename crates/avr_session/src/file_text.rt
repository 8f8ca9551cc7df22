ghost use Rattle.std.specs.Prelude.{◌≡◌, ◌≤◌, ◌^◌, length};
ghost use Rattle.avr_session.specs.FileText.{file_text, trimmed};
ghost use Rattle.avr_session.specs.Saving.{SendsText};

use arrayvec::ArrayVec;
use avr_image::{Base, ListWriter, Pieces};
use avr_io::{Desk, DeskFault, Stream, write_all};
use avr_plan::Format;
use avr_records::{Kind, Run, Writer};

/// Writes all pieces of a text, collected into larger writes. After a fault a prefix of it was written.
fn write_pieces<D: Desk, P: Pieces + Drop>(
    desk: &mut D,
    stream: Stream,
    text: P,
) -> Result<(), DeskFault>
    ensures { SendsText D.Desk stream (P.rest text) desk.old desk.new result }
{
    let mut text = text;
    let mut piece = ArrayVec::new();
    let mut waiting: ArrayVec<u8, 4_096> = ArrayVec::new();
    'pieces: while text.next_piece(&mut piece) {
        if piece.len() > waiting.remaining_capacity() {
            write_all(desk, stream, waiting.as_slice())?;
            waiting.clear();
        }
        let _ = waiting.try_extend_from_slice(piece.as_slice());
    }
    let rest = waiting.as_slice();
    write_all(desk, stream, rest)
}

/// Writes bytes as the text of a format. Raw bytes are written as they are, and so are formats of input files alone.
#[tactic(auto, unfolding(crate::specs::FileText::file_text))]
pub(crate) fn write_text<D: Desk>(
    desk: &mut D,
    stream: Stream,
    format: Format,
    bytes: &[u8],
) -> Result<(), DeskFault>
    requires { length bytes.now ≤ 2 ^ 32 }
    ensures { SendsText D.Desk stream (file_text format bytes.now) desk.old desk.new result }
{
    let run = Run::new(0, bytes);
    match format {
        Format::Ihex => write_pieces(desk, stream, Writer::new(Kind::Ihex, &run)),
        Format::Srec => write_pieces(desk, stream, Writer::new(Kind::Srec, &run)),
        Format::Decimal => write_pieces(desk, stream, ListWriter::new(Base::Dec, bytes)),
        Format::Hexadecimal => write_pieces(desk, stream, ListWriter::new(Base::Hex, bytes)),
        Format::Octal => write_pieces(desk, stream, ListWriter::new(Base::Oct, bytes)),
        Format::Binary => write_pieces(desk, stream, ListWriter::new(Base::Bin, bytes)),
        Format::Raw | Format::Auto | Format::Immediate => write_all(desk, stream, bytes),
    }
}

/// Drops the trailing FF of flash bytes, but keeps one if the length would be odd.
pub(crate) fn trimmed(bytes: &[u8]) -> &[u8]
    ensures { result.now ≡ trimmed bytes.now }
{
    let mut used = bytes.len();
    'blanks: while used > 0 && bytes[used - 1] == 0xFF {
        used -= 1;
    }
    let kept = used.div_ceil(2) * 2;
    &bytes[..kept.min(bytes.len())]
}
