//! Record files for C: Intel HEX and S-records, read into the caller's memory and written from it.
//!
//! Each function is that of avr_records over the caller's memory. There are no handles and no global state, and a call
//! frees all that it allocates. `include/avr_records.h` declares the functions and the duties of their callers.
#![tactic(auto)]

mod bitmap;
mod cursor;
mod detecting;
mod fault_text;
mod laws;
mod memory;
mod numbers;
mod outcome;
mod piece;
mod reading;
mod version;
mod writing;

pub use cursor::Cursor;
pub use detecting::avr_records_detect;
pub use fault_text::avr_records_fault_text;
pub use laws::{a_bitmap_marks_what_is_there, pieces_join, what_is_written_reads_back};
pub use outcome::Outcome;
pub use piece::Piece;
pub use reading::avr_records_read;
pub use version::avr_records_version;
pub use writing::{avr_records_length, avr_records_write};
