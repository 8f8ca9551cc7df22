//! Images of a part's memories, and the plain files and texts that hold them.
//!
//! The formats are those of AVRDUDE's `-U`: raw files (`r`), immediate values (`m`), and lists of numbers (`d`, `h`,
//! `o`, `b`).
//!
//! An image is the list of its optional bytes, one for each byte address. `parse_immediate(alloc, "0x12, 0b101", 4)`
//! is the image that holds 0x12 at address 0 and 0x05 at address 1.
#![tactic(auto)]

mod bits;
mod digits;
mod fault;
mod image;
mod laws;
mod list;
mod pieces;
mod raw;
mod runs;
mod values;

pub use fault::ImageFault;
pub use image::Image;
pub use laws::{
    a_list_reads_back, a_part_of_all_bytes_is_filled, a_run_is_the_bytes_before_a_gap,
    a_span_is_by_address, an_image_is_its_runs, bytes_are_held_below_the_size,
    bytes_fit_below_the_size, bytes_from_zero_are_a_span, equal_images_are_one,
    filled_is_by_address, first_from_is_the_next_held, images_are_equal_by_address,
    laying_is_laying_over, laying_over_groups, over_is_by_address, parts_are_laid_over,
    run_end_is_the_longest_run, runs_begin_at_the_next_byte,
};
pub use list::{Base, ListWriter};
pub use pieces::Pieces;
pub use raw::RawReader;
pub use runs::Runs;
pub use values::parse_immediate;
