ghost use Rattle.std.specs.Prelude.{◌≡◌, false};
ghost use Rattle.avr_records_c.specs.Numbers.{outcome_of_end, outcome_of_fault};

use avr_records::{Ending, RecordFault};

/// The fault of arguments that don't fit one another.
pub const MISFIT: u8 = 11;

/// The fault of a format without records.
pub const NO_RECORDS: u8 = 12;

/// The result of a read. It succeeded if the fault is 0.
#[repr(C)]
#[derive(Clone, Copy, Debug, PartialEq, Eq)]
pub struct Outcome {
    /// The 1-based line at fault, or 0.
    pub line: u32,
    /// The line's first byte address outside the memory, if that is the fault; else 0.
    pub address: u32,
    /// 0, or the number of the fault.
    pub fault: u8,
    /// Whether the file has an end record.
    pub ended: bool,
}

impl Outcome {
    pub(crate) fn done(ending: Ending) -> Outcome
        ensures { result ≡ outcome_of_end ending }
    {
        Outcome {
            line: 0,
            address: 0,
            fault: 0,
            ended: ending == Ending::Ended,
        }
    }

    pub(crate) fn refused(fault: RecordFault) -> Outcome
        ensures { result ≡ outcome_of_fault fault }
    {
        Outcome {
            line: fault.line().unwrap_or(0),
            address: fault.address().unwrap_or(0),
            fault: fault.number(),
            ended: false,
        }
    }

    pub(crate) fn unread(fault: u8) -> Outcome
        ensures { result ≡ record { line = 0; address = 0; fault = fault; ended = false } }
    {
        Outcome {
            line: 0,
            address: 0,
            fault,
            ended: false,
        }
    }
}
