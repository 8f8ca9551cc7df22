//! Desks: of a system's files and streams, in memory, one that fails at its nth call, and one that is watched.
//!
//! A desk is what a run reads and writes besides its link. Its trait, its record and the calls over any desk are those of
//! avr_io, which have their names here, too.
#![tactic(auto)]

mod failing;
mod file_system;
mod folder;
mod journal;
mod laws;
mod looks;
mod mem_desk;
mod replacement;
mod runtime;
mod system;
mod watched;

pub use avr_io::{
    Bytes, ChipDesk, Contents, Desk, DeskFault, FileFault, FileUse, Message, Open, Opening, Piece,
    Reading, Stream, Writing, file_message, is_dash, memory_message, not_created_message,
    not_written_message, print_error, print_information, print_warning, read_file, refuse,
    too_long_message, write_all,
};
pub use failing::FailingDesk;
pub use file_system::FileSystem;
pub use folder::Folder;
pub use laws::{what_a_desk_in_memory_gives_is_true, what_a_desk_of_a_program_keeps_is_true};
pub use mem_desk::MemDesk;
pub use system::SystemDesk;
pub use watched::{DeskCall, WatchDesk, WatchedDesk};
