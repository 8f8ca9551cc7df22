//! Faults of a part file, with their part and line.
ghost use Rattle.std.specs.Prelude.{◌≡◌, Some, option_map};
ghost use Rattle.avr_part.specs.Part.{id_of};
ghost use Rattle.avr_part.specs.PartFile.{of_file, not_toml_at};

use crate::check::id_of;
use crate::fault::PartFault;
use arrayvec::ArrayString;
use std::error::Error;
use std::fmt;
use std::marker::Model;

/// A fault, with the id of the part at fault if it has one.
#[derive(Drop)]
pub(crate) struct NamedFault {
    part: Option<ArrayString<31>>,
    fault: PartFault,
}

impl Model for NamedFault {
    ghost use Rattle.std.specs.Prelude.{option_map};
    ghost use Rattle.avr_part.specs.PartFile.{NamedFault};

    ghost Value = { NamedFault };

    ghost view = { λ f. record { part = option_map (λ id. id.bytes) f.part; fault = f.fault } };
}

impl NamedFault {
    pub(crate) fn of_file(fault: PartFault) -> NamedFault
        ensures { result ≡ of_file fault }
    {
        NamedFault { part: None, fault }
    }

    pub(crate) fn of_part(key: &str, fault: PartFault) -> NamedFault
        ensures { result ≡ record { part = id_of key.now; fault = fault } }
    {
        NamedFault {
            part: id_of(key),
            fault,
        }
    }
}

/// Why a part file is refused, with the id of the part at fault and the line at which the text stops being TOML.
///
/// ```text
/// let refused = parse_part_file(alloc, b"[parts.x1]");
/// if let Err(fault) = &refused {
///     assert_eq!(rt; fault.part(), Some("x1"));
///     assert_eq!(rt; fault.fault(), PartFault::Missing(Field::Signature));
/// }
/// ```
#[derive(Drop)]
pub struct PartFileFault {
    why: NamedFault,
    line: Option<usize>,
}

impl Model for PartFileFault {
    ghost use Rattle.avr_part.specs.PartFile.{FaultWithLine};

    ghost Value = { FaultWithLine };

    ghost view = { λ f. record { why = f.why; line = f.line } };
}

impl PartFileFault {
    pub(crate) fn not_toml_at(line: usize) -> PartFileFault
        ensures { result ≡ not_toml_at line }
    {
        PartFileFault {
            why: NamedFault::of_file(PartFault::NotToml),
            line: Some(line),
        }
    }

    pub(crate) fn without_line(why: NamedFault) -> PartFileFault
        ensures { result ≡ record { why = why; line = None } }
    {
        PartFileFault { why, line: None }
    }

    /// Returns the id of the part at fault. It is `None` if the file is not TOML, if `parts` is missing or no table, if
    /// the key of the part is no id, or if allocation failed.
    ///
    /// ```text
    /// if let Err(fault) = parse_part_file(alloc, b"parts = 3") {
    ///     assert_eq!(rt; fault.part(), None);
    /// }
    /// ```
    pub fn part(&self) -> Option<&str>
        ensures { option_map (λ id. id.now) result ≡ self.now.why.part }
    {
        match &self.why.part {
            Some(id) => Some(id.as_str()),
            None => None,
        }
    }

    /// Returns why the file is refused.
    ///
    /// ```text
    /// if let Err(fault) = parse_part_file(alloc, b"parts = 3") {
    ///     assert_eq!(rt; fault.fault(), PartFault::BadValue(Field::Parts));
    /// }
    /// ```
    pub fn fault(&self) -> PartFault
        ensures { result ≡ self.now.why.fault }
    {
        self.why.fault
    }

    /// Returns the 1-based line at which the text stops being TOML, or `None` for every other fault. It is the line
    /// of the first byte that is not UTF-8, else of the first byte that `toml` refuses.
    ///
    /// If something is missing, as at the end of the text, it is the line of that place. For a duplicate key it is the
    /// line of the second one.
    ///
    /// ```text
    /// if let Err(fault) = parse_part_file(alloc, b"a = 1\na = 2\n") {
    ///     assert_eq!(rt; fault.line(), Some(2));
    /// }
    /// ```
    pub fn line(&self) -> Option<usize>
        ensures { result ≡ self.now.line }
    {
        self.line
    }
}

/// Writes the fault's text, after `part ID: ` if a part is at fault.
impl fmt::Display for PartFileFault {
    fn fmt<W: fmt::Write>(&self, f: &mut fmt::Formatter<W>) -> fmt::Result {
        if let Some(id) = self.part() {
            write!(f, "part {}: ", id)?;
        }
        write!(f, "{}", self.fault())
    }
}

impl fmt::Debug for PartFileFault {
    fn fmt<W: fmt::Write>(&self, f: &mut fmt::Formatter<W>) -> fmt::Result {
        fmt::Display::fmt(self, f)
    }
}

impl Error for PartFileFault {}
