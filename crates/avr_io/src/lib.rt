//! What a run reads and writes besides its link: files, standard input and output, messages.
//!
//! A desk's record has what it was asked and what it gave. So a caller's contract can state what was opened, created,
//! printed and reported, over any desk.
//!
//! `read_file(alloc, &mut desk, "a.hex", 65_536)?` reads a file whole. `write_all(&mut desk, Stream::Messages,
//! b"done\n")?` writes bytes to a stream. `print_error(&mut desk, &[Piece::Text("command "), Piece::Byte(0x10),
//! Piece::Text(": bad answer")])?` prints the line `avrstk: error: command 10: bad answer`.
#![tactic(auto)]

mod bytes;
mod desk;
mod record;

// calls over any desk
mod files;
mod line;
mod message;
mod stream;

pub use bytes::Bytes;
pub use desk::{ChipDesk, Desk, DeskFault};
pub use files::{Contents, FileFault, read_file};
pub use line::{Piece, print_error, print_information, print_warning};
pub use message::{
    Message, file_message, memory_message, not_created_message, not_written_message, refuse,
    too_long_message,
};
pub use record::{FileUse, Open, Opening, Reading, Writing, is_dash, newest, newest_created};
pub use stream::{Stream, write_all};
