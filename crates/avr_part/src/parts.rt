//! The parts of a file and the built-in ones.
ghost use Rattle.std.specs.Prelude.{◌≡◌, ◌++◌, [], IfOk, ◌≤◌, length, slice_get};
ghost use Rattle.std.specs.Iterator.{YieldsFirst, item_count};
ghost use Rattle.avr_part.specs.BuiltIn.{built_in_parts, part_of_id};
ghost use Rattle.avr_part.specs.Part.{IsPart};

use crate::fault::PartFault;
use crate::part::Part;
use arrayvec::ArrayString;
use std::marker::Model;

/// The parts of a part file, if there is one, in the byte order of their ids; then the built-in parts.
///
/// ```text
/// let part = Parts::none().find("m328p")?;
/// assert_eq!(rt; part.id(), "m328p");
/// ```
#[derive(Debug, Drop)]
pub struct Parts {
    file: Option<Vec<Part>>,
}

impl Model for Parts {
    ghost use Rattle.std.specs.Prelude.{List, []};
    ghost use Rattle.avr_part.specs.Part.{Part};
    ghost use Rattle.std.specs.Option.{option_map_or};

    ghost Value = { List Part };

    ghost view = { λ p. option_map_or (λ parts. parts.items) p.file [] };
}

impl Parts {
    /// Creates a list without a part file: the built-in parts alone.
    ///
    /// ```text
    /// assert_eq!(rt; Parts::none().iter().count(), 3);
    /// ```
    pub fn none() -> Parts
        ensures { result ≡ [] }
    {
        Parts { file: None }
    }

    pub(crate) fn of_file(parts: Vec<Part>) -> Parts
        ensures { result ≡ parts.items }
    {
        Parts { file: Some(parts) }
    }

    fn in_file(&self) -> &[Part]
        ensures { result.now ≡ self.now }
    {
        match &self.file {
            Some(parts) => parts.as_slice(),
            None => &[],
        }
    }

    /// Iterates over the file's parts, then all built-in ones, also those whose id a part of the file has.
    ///
    /// ```text
    /// let parts = Parts::none();
    /// let mut left = parts.iter();
    /// assert_eq!(rt; left.next().map(|part| part.signature()), Some([0x1E, 0x95, 0x0F]));
    /// ```
    pub fn iter(&self) -> PartIter<'_>
        ensures { result ≡ self.now ++ built_in_parts }
    {
        PartIter {
            file: self.in_file(),
            passed: 0,
        }
    }

    /// Returns the part of this id: the file's, else the built-in one. It allocates nothing.
    ///
    /// # Errors
    ///
    /// [`PartFault::NoSuchPart`] if no part has this id.
    ///
    /// ```text
    /// assert_eq!(rt; Parts::none().find("t85")?.size_of(Mem::Flash), 8192);
    /// assert_eq!(rt; Parts::none().find("m9").err(), Some(PartFault::NoSuchPart));
    /// ```
    pub fn find(&self, id: &str) -> Result<Part, PartFault>
        ensures value { result ≡ part_of_id id.now self.now }
        ensures is_part { IfOk result IsPart }
    {
        self.iter()
            .find(|part| part.id() == id)
            .ok_or(PartFault::NoSuchPart)
    }
}

/// Iterates over parts. In contracts its value is the list of parts left.
///
/// ```text
/// assert_eq!(rt; Parts::none().iter().count(), 3);
/// ```
#[derive(Debug, Drop)]
pub struct PartIter<'a> {
    file: &'a [Part],
    /// How many built-in parts were returned.
    passed: usize,
}

impl<'a> Model for PartIter<'a> {
    ghost use Rattle.std.specs.Prelude.{List, ◌++◌, drop};
    ghost use Rattle.avr_part.specs.Part.{Part};
    ghost use Rattle.avr_part.specs.BuiltIn.{built_in_parts};

    ghost Value = { List Part };

    ghost view = { λ i. i.file.now ++ drop i.passed built_in_parts };
}

impl<'a> Iterator for PartIter<'a> {
    type Item = Part;

    ghost next_gives = { YieldsFirst (λ left. left) };

    ghost remaining = { item_count (λ left. left) };

    fn next(&mut self) -> Option<Part> {
        if let Some((part, more)) = self.file.split_first() {
            self.file = more;
            return Some(part.copied());
        }
        let part = built_in_at(self.passed)?;
        self.passed += 1;
        Some(part)
    }
}

fn id_from(id: &str) -> ArrayString<31>
    requires { length id.now ≤ 31 }
    ensures { result.bytes ≡ id.now }
{
    let mut text = ArrayString::new();
    text.push_str(id);
    text
}

/// Returns the built-in part at this place, counted from 0.
pub fn built_in_at(place: usize) -> Option<Part>
    ensures { result ≡ slice_get built_in_parts place }
{
    match place {
        0 => Some(Part {
            id: id_from("m328p"),
            signature: [0x1E, 0x95, 0x0F],
            flash_size: 32_768,
            flash_page: 128,
            eeprom_size: 1024,
            eeprom_page: 4,
            eesave_bit: 3,
        }),
        1 => Some(Part {
            id: id_from("t85"),
            signature: [0x1E, 0x93, 0x0B],
            flash_size: 8192,
            flash_page: 64,
            eeprom_size: 512,
            eeprom_page: 4,
            eesave_bit: 3,
        }),
        2 => Some(Part {
            id: id_from("m2560"),
            signature: [0x1E, 0x98, 0x01],
            flash_size: 262_144,
            flash_page: 256,
            eeprom_size: 4096,
            eeprom_page: 8,
            eesave_bit: 3,
        }),
        _ => None,
    }
}
