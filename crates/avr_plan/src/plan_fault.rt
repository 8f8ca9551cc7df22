ghost use Rattle.std.specs.Prelude.{◌≡◌};

use crate::image_file::ReadFault;
use avr_image::ImageFault;
use avr_io::FileFault;
use avr_part::PartFault;
use thiserror::Error;

/// Why the part file gave no parts. Its text is the reason alone, without the file's name.
#[derive(Clone, Copy, Debug, PartialEq, Eq, Error)]
pub enum PartsFault {
    /// The file was not read to its end.
    #[error("{0}")]
    File(FileFault),
    /// The file has more than 65,536 bytes.
    #[error("longer than 65536 bytes")]
    TooLong,
    /// The file was read and isn't a part file.
    #[error("{0}")]
    Parts(PartFault),
}

/// Why an update is refused. Its text is the reason alone, without the names of memory and file.
#[derive(Clone, Copy, Debug, PartialEq, Eq, Error)]
pub enum TaskFault {
    /// The memory can't be written.
    #[error("the memory is read-only")]
    ReadOnly,
    /// The values on the command line are no image of the memory.
    #[error("{0}")]
    Values(ImageFault),
    /// The file gave no image.
    #[error("{0}")]
    File(ReadFault),
    /// Allocation failed.
    #[error("out of memory")]
    Memory,
    /// The warning about a missing end record couldn't be printed.
    #[error("a warning could not be printed")]
    Unwarned,
}

/// Why there is no plan. The fault's line was printed last, as far as the desk took it.
#[derive(Clone, Copy, Debug, PartialEq, Eq, Error)]
pub enum PlanFault {
    /// The part file gave no parts.
    #[error("part file: {0}")]
    PartFile(PartsFault),
    /// No part has the id in the settings.
    #[error("no part of this id")]
    NoPart,
    /// The update with this number, counted from 0, is refused.
    #[error("update {0}: {1}")]
    Update(usize, TaskFault),
}
