ghost use Rattle.std.specs.Prelude.{◌≡◌, ◌≤◌, ◌∷◌, [], length, map};
ghost use Rattle.avr_io.specs.Lines.{text_of, error, file_pieces, memory_pieces, not_created_pieces, not_written_pieces, too_long_pieces};
ghost use Rattle.avr_io.specs.OutputEvents.{ReportsLine};
ghost use Rattle.avr_io.specs.declared.message.TheConstants.{MOST_PIECES};
ghost use Rattle.ghosts.specs.Preserves.{Preserves};

use crate::desk::Desk;
use crate::files::FileFault;
use crate::line::{Piece, print_error};
use std::marker::Model;

const MOST_PIECES: usize = 8;

/// The text of an error line, in at most eight pieces. In contracts it is the list of their texts.
#[derive(Debug, Drop)]
pub struct Message<'a> {
    pieces: [Piece<'a>; MOST_PIECES],
    count: usize,
}

impl<'a> Model for Message<'a> {
    ghost use Rattle.std.specs.Prelude.{◌≤◌, ℕ, List, map, take};
    ghost use Rattle.avr_io.specs.Lines.{text_of};
    ghost use Rattle.avr_io.specs.declared.message.TheConstants.{MOST_PIECES};

    ghost Value = { List (List ℕ) };

    ghost view = { λ m. map text_of (take m.count m.pieces) };

    ghost invariant = { λ m. m.count ≤ MOST_PIECES };
}

impl<'a> Message<'a> {
    /// Creates a message of these pieces, at most eight.
    ///
    /// ```text
    /// let mut desk = MemDesk::empty(alloc);
    /// let message = Message::new(&[Piece::Text("command "), Piece::Byte(0x10), Piece::Text(": bad answer")]);
    /// assert_eq!(rt; refuse(&mut desk, &message), 1);
    /// assert!(rt; desk.messages() == b"avrstk: error: command 10: bad answer\n".as_slice());
    /// ```
    pub fn new(pieces: &[Piece<'a>]) -> Message<'a>
        requires { length pieces.now ≤ MOST_PIECES }
        ensures { result ≡ map text_of pieces.now }
    {
        let (mut all, count) = ([Piece::Text(""); MOST_PIECES], pieces.len());
        all[..count].copy_from_slice(pieces);
        Message { pieces: all, count }
    }

    /// Creates a message of one text.
    pub fn text(text: &'a str) -> Message<'a>
        ensures { result ≡ text.now ∷ [] }
    {
        Message::new(&[Piece::Text(text)])
    }

    /// Creates a message of a name, such as a file or a memory, and a text about it.
    pub fn about(name: &'a str, text: &'a str) -> Message<'a>
        ensures { result ≡ name.now ∷ text.now ∷ [] }
    {
        Message::new(&[Piece::Text(name), Piece::Text(text)])
    }

    /// Returns the pieces, at most eight.
    pub fn pieces(&self) -> &[Piece<'a>]
        ensures { map text_of result.now ≡ self.now }
    {
        &self.pieces[..self.count]
    }
}

/// Prints the message as an error line, as far as the desk takes it. Returns the status of a refusal, 1.
pub fn refuse<D: Desk>(desk: &mut D, message: &Message<'_>) -> u8
    ensures status { result ≡ 1 }
    ensures notice { ReportsLine (D.view desk.old) (D.view desk.new) (error message.now) }
    ensures stays { Preserves D.started_as desk.old desk.new }
{
    let _ = print_error(desk, message.pieces());
    1
}

/// Returns the message that allocation failed: `out of memory`.
pub fn memory_message<'a>() -> Message<'a>
    ensures { result ≡ memory_pieces }
{
    Message::text("out of memory")
}

/// Returns the message why a file was not read: `FILE: cannot be opened`, also if it doesn't exist; `FILE: cannot be
/// read`; or `out of memory`.
pub fn file_message<'a>(file: &'a str, fault: FileFault) -> Message<'a>
    ensures { result ≡ file_pieces file.now fault }
{
    match fault {
        FileFault::Absent | FileFault::NotOpened => Message::about(file, ": cannot be opened"),
        FileFault::NotRead => Message::about(file, ": cannot be read"),
        FileFault::Memory => memory_message(),
    }
}

/// Returns the message for a file of more than `limit` bytes: `FILE: longer than 65536 bytes`.
pub fn too_long_message<'a>(file: &'a str, limit: u32) -> Message<'a>
    ensures { result ≡ too_long_pieces file.now limit }
{
    Message::new(&[
        Piece::Text(file),
        Piece::Text(": longer than "),
        Piece::Number(limit),
        Piece::Text(" bytes"),
    ])
}

/// Returns the message for a file that couldn't be created: `FILE: cannot be created`.
pub fn not_created_message<'a>(file: &'a str) -> Message<'a>
    ensures { result ≡ not_created_pieces file.now }
{
    Message::about(file, ": cannot be created")
}

/// Returns the message for a created file that couldn't be written to its end: `FILE: cannot be written`.
pub fn not_written_message<'a>(file: &'a str) -> Message<'a>
    ensures { result ≡ not_written_pieces file.now }
{
    Message::about(file, ": cannot be written")
}
