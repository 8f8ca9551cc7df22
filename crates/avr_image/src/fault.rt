//! The faults of images, with numbers that never change.

ghost use Rattle.std.specs.Prelude.{◌≡◌};
ghost use Rattle.avr_image.specs.Fault.{image_fault_number};

use std::fmt;
use thiserror::Error;

/// Why a call didn't make or change an image.
///
/// ```text
/// let fault = parse_immediate(alloc, "1,256", 4).err();
/// assert_eq!(rt; fault, Some(ImageFault::TooLarge(2)));
/// ```
#[derive(Clone, Copy, Drop, PartialEq, Eq, Error)]
pub enum ImageFault {
    /// This byte address is outside the memory. For a raw file that is too long, it is the memory's size.
    #[error("address {0:08X} out of range")]
    OutOfRange(u32),
    /// The value at this 1-based place is no number.
    #[error("value {0}: not a number")]
    BadNumber(u32),
    /// The value at this 1-based place is above 255.
    #[error("value {0}: above 255")]
    TooLarge(u32),
    /// An earlier call of this reader failed.
    #[error("the reader has failed before")]
    Failed,
    /// Allocation failed.
    #[error("out of memory")]
    Memory,
    /// The other image has another size.
    #[error("the images are of different sizes")]
    OtherSize,
}

impl ImageFault {
    /// Returns the fault's number, which never changes.
    ///
    /// ```text
    /// assert_eq!(rt; ImageFault::OutOfRange(64).number(), 1);
    /// ```
    pub fn number(&self) -> u8
        ensures { result ≡ image_fault_number self.now }
    {
        match self {
            ImageFault::OutOfRange(_) => 1,
            ImageFault::BadNumber(_) => 2,
            ImageFault::TooLarge(_) => 3,
            ImageFault::Failed => 4,
            ImageFault::Memory => 5,
            ImageFault::OtherSize => 6,
        }
    }
}

impl fmt::Debug for ImageFault {
    fn fmt<W: fmt::Write>(&self, f: &mut fmt::Formatter<W>) -> fmt::Result {
        fmt::Display::fmt(self, f)
    }
}
