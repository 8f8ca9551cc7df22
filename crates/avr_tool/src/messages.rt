//! Messages about ports and chip files. Those about any file are in avr_io.
ghost use Rattle.std.specs.Prelude.{◌≡◌};
ghost use Rattle.avr_tool.specs.Lines.{in_use_pieces, length_pieces, unopened_pieces};

use avr_io::{Message, Piece};

/// Reports a port that cannot be opened. It was given as `scheme` and `name`: `net:` and `HOST:PORT`, or nothing and
/// a number.
pub(crate) fn unopened_message<'a>(scheme: &'a str, name: &'a str) -> Message<'a>
    ensures { result ≡ unopened_pieces scheme.now name.now }
{
    Message::new(&[
        Piece::Text("port "),
        Piece::Text(scheme),
        Piece::Text(name),
        Piece::Text(" cannot be opened"),
    ])
}

/// Reports a file that another run has locked: `FILE: in use by another run`.
pub(crate) fn in_use_message<'a>(file: &'a str) -> Message<'a>
    ensures { result ≡ in_use_pieces file.now }
{
    Message::about(file, ": in use by another run")
}

/// Reports a file of the wrong length: `FILE: 100 bytes, 33796 expected`.
pub(crate) fn length_message<'a>(file: &'a str, found: u32, expected: u32) -> Message<'a>
    ensures { result ≡ length_pieces file.now found expected }
{
    Message::new(&[
        Piece::Text(file),
        Piece::Text(": "),
        Piece::Number(found),
        Piece::Text(" bytes, "),
        Piece::Number(expected),
        Piece::Text(" expected"),
    ])
}
