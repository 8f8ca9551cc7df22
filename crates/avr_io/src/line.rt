ghost use Rattle.std.specs.Prelude.{◌≡◌, ◌<◌, ◌*◌, length, OnErr, IfOk, map};
ghost use Rattle.avr_io.specs.Fault.{CountsFailure, IsCall};
ghost use Rattle.avr_io.specs.Lines.{digits, spaced_digits, text_of, line, information, warning, error};
ghost use Rattle.avr_io.specs.OutputEvents.{IsPrinted};

use crate::desk::{Desk, DeskFault};
use crate::stream::{Stream, write_all};
use arrayvec::{ArrayVec, CapacityError};
use byteorder::{BigEndian, ByteOrder};
use itoa::Buffer;

/// The longest line, with its LF, that is written in one call: a pipe takes that many bytes as one piece.
const AT_ONCE: usize = 4096;

type Gathered = ArrayVec<u8, AT_ONCE>;

/// A piece of a message line.
#[derive(Clone, Copy, Debug)]
pub enum Piece<'a> {
    /// A text as it is; nothing is escaped.
    Text(&'a str),
    /// A byte as two upper-case hexadecimal digits, as `0F`.
    Byte(u8),
    /// The three bytes of a signature, with blanks between them, as `1E 95 0F`.
    Signature([u8; 3]),
    /// A byte address as eight upper-case hexadecimal digits, as `00010000`.
    Address(u32),
    /// A decimal number, as `4194304`.
    Number(u32),
}

/// Returns each byte as two upper-case hexadecimal digits.
#[tactic(auto, unfolding(crate::specs::Lines::digits))]
fn digits<const N: usize>(bytes: &[u8]) -> [u8; N]
    requires { N ≡ 2 * length bytes.now }
    ensures { result ≡ digits bytes.now }
{
    let mut digits = [0; N];
    let _ = hex::encode_to_slice(bytes, &mut digits);
    digits.make_ascii_uppercase();
    digits
}

/// Returns three bytes as digits, with blanks between them.
fn spaced(signature: [u8; 3]) -> [u8; 8]
    ensures { result ≡ spaced_digits signature }
{
    let [first, second, third] = signature;
    let [a, b] = digits::<2>(&[first]);
    let [c, d] = digits::<2>(&[second]);
    let [e, f] = digits::<2>(&[third]);
    [a, b, b' ', c, d, b' ', e, f]
}

/// Returns the text of a piece. What isn't a text itself is written to `hex` or `decimal`.
fn text<'a>(piece: &'a Piece<'_>, hex: &'a mut [u8; 8], decimal: &'a mut Buffer) -> &'a [u8]
    ensures { result.now ≡ text_of piece.now }
{
    match piece {
        Piece::Text(text) => text.as_bytes(),
        Piece::Byte(byte) => {
            hex[..2].copy_from_slice(&digits::<2>(&[*byte]));
            &hex[..2]
        }
        Piece::Signature(bytes) => {
            *hex = spaced(*bytes);
            hex.as_slice()
        }
        Piece::Address(address) => {
            let mut bytes = [0; 4];
            BigEndian::write_u32(&mut bytes, *address);
            *hex = digits(&bytes);
            hex.as_slice()
        }
        Piece::Number(number) => decimal.format(*number).as_bytes(),
    }
}

/// Returns the whole line, or an error if it is longer than one write.
fn gathered(mark: &str, pieces: &[Piece<'_>]) -> Result<Gathered, CapacityError>
    ensures whole { IfOk result (λ it. it.items ≡ line mark.now (map text_of pieces.now)) }
    ensures long { OnErr result (AT_ONCE < length (line mark.now (map text_of pieces.now))) }
{
    let mut line = ArrayVec::new();
    line.try_extend_from_slice(mark.as_bytes())?;
    for piece in pieces {
        line.try_extend_from_slice(text(piece, &mut [0; 8], &mut Buffer::new()))?;
    }
    line.try_extend_from_slice(b"\n")?;
    Ok(line)
}

/// Prints a line in one write, so that other programs' lines don't come in between. A longer line is written in pieces.
fn print_line<D: Desk>(desk: &mut D, mark: &str, pieces: &[Piece<'_>]) -> Result<(), DeskFault>
    ensures printed { IsPrinted (D.view desk.old) (D.view desk.new) (line mark.now (map text_of pieces.now)) result }
    ensures call { IsCall D.view D.started_as (CountsFailure Stream.Messages) desk.old desk.new result }
{
    if let Ok(line) = gathered(mark, pieces) {
        return write_all(desk, Stream::Messages, line.as_slice());
    }
    write_all(desk, Stream::Messages, mark.as_bytes())?;
    for piece in pieces {
        let (hex, decimal) = (&mut [0; 8], &mut Buffer::new());
        write_all(desk, Stream::Messages, text(piece, hex, decimal))?;
    }
    write_all(desk, Stream::Messages, b"\n")
}

/// Prints a line of information to the desk's messages: `avrstk: `, the pieces and LF.
///
/// # Errors
///
/// `Failed` if the desk fails; a prefix of the line was then printed.
///
/// ```text
/// let mut desk = MemDesk::empty(alloc);
/// let signature = Piece::Signature([0x1E, 0x95, 0x0F]);
/// print_information(&mut desk, &[Piece::Text("device signature = "), signature])?;
/// assert!(rt; desk.messages() == b"avrstk: device signature = 1E 95 0F\n".as_slice());
/// ```
pub fn print_information<D: Desk>(desk: &mut D, pieces: &[Piece<'_>]) -> Result<(), DeskFault>
    ensures printed { IsPrinted (D.view desk.old) (D.view desk.new) (information (map text_of pieces.now)) result }
    ensures call { IsCall D.view D.started_as (CountsFailure Stream.Messages) desk.old desk.new result }
{
    print_line(desk, "avrstk: ", pieces)
}

/// Prints a warning after `avrstk: warning: `, as [`print_information`] prints a line.
///
/// # Errors
///
/// Those of [`print_information`].
///
/// ```text
/// let mut desk = MemDesk::empty(alloc);
/// print_warning(&mut desk, &[Piece::Text("a.hex"), Piece::Text(": no end record")])?;
/// assert!(rt; desk.messages() == b"avrstk: warning: a.hex: no end record\n".as_slice());
/// ```
pub fn print_warning<D: Desk>(desk: &mut D, pieces: &[Piece<'_>]) -> Result<(), DeskFault>
    ensures printed { IsPrinted (D.view desk.old) (D.view desk.new) (warning (map text_of pieces.now)) result }
    ensures call { IsCall D.view D.started_as (CountsFailure Stream.Messages) desk.old desk.new result }
{
    print_line(desk, "avrstk: warning: ", pieces)
}

/// Prints an error after `avrstk: error: `, as [`print_information`] prints a line.
///
/// # Errors
///
/// Those of [`print_information`].
///
/// ```text
/// let mut desk = MemDesk::empty(alloc);
/// let pieces = [Piece::Text("command "), Piece::Byte(0x10), Piece::Text(": bad answer")];
/// print_error(&mut desk, &pieces)?;
/// assert!(rt; desk.messages() == b"avrstk: error: command 10: bad answer\n".as_slice());
/// ```
pub fn print_error<D: Desk>(desk: &mut D, pieces: &[Piece<'_>]) -> Result<(), DeskFault>
    ensures printed { IsPrinted (D.view desk.old) (D.view desk.new) (error (map text_of pieces.now)) result }
    ensures call { IsCall D.view D.started_as (CountsFailure Stream.Messages) desk.old desk.new result }
{
    print_line(desk, "avrstk: error: ", pieces)
}
