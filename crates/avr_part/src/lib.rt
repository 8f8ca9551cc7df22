//! AVR parts: their data, the part file, and the chip behind its serial programming pins.
//!
//! Sizes and instructions are those of the parts' data sheets (ATmega328P: "Memory Programming", table "Serial
//! Programming Instruction Set"); docs/PART.md has them all.
//!
//! ```text
//! let mut chip = Chip::fresh(alloc, Parts::none().find("m328p")?)?;
//! assert_eq!(rt; chip.spi([0x30, 0, 1, 0]), [0, 0x30, 0, 0x95]); // signature byte 1
//! ```
#![tactic(auto)]

mod part;
mod parts;
// the part file
mod check;
mod fault;
mod file_fault;
mod lines;
mod part_file;
// the chip: its instructions, memories and file
mod chip;
mod chip_file;
mod instruction;
pub mod laws;
mod memory;

pub use chip::Chip;
pub use fault::{Field, PartFault};
pub use file_fault::PartFileFault;
pub use instruction::{Fuse, Half, Instruction};
pub use part::{Mem, Part};
pub use part_file::{parse_part_file, parse_parts};
pub use parts::{PartIter, Parts};
