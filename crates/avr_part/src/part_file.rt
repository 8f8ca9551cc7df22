ghost use Rattle.std.specs.Prelude.{◌≡◌, ◌≢◌, false, Err, Some, None, IfErr};
ghost use Rattle.std.specs.Result.{result_map_both};
ghost use Rattle.std.specs.Str.{is_utf8};
ghost use Rattle.std.specs.Str.Lossy.{utf8_valid_len};
ghost use Rattle.toml.specs.View.{table_view};
ghost use Rattle.toml.specs.Parse.{parse_document};
ghost use Rattle.avr_part.specs.PartFile.{ReadsUnlessOutOfMemory, listed_items, parts_in, document_parts, parts_of, GivesPartUnlessOutOfMemory, unnamed, ReadsDocument, IsPlaced, line_at, not_toml_at};

use crate::check::{at_key, check_member};
use crate::fault::{Field, PartFault};
use crate::file_fault::{NamedFault, PartFileFault};
use crate::lines::line_at;
use crate::part::Part;
use crate::parts::Parts;
use std::alloc::Global;
use std::str;
use toml::Table;

/// Reads all parts of the table, up to the first fault.
fn check_members(alloc: Global, table: &Table) -> Result<Vec<Part>, NamedFault>
    ensures reads { ReadsUnlessOutOfMemory (parts_in (table_view table.now)) (listed_items result) }
    ensures toml { IfErr result (λ e. e.fault ≢ PartFault.NotToml) }
{
    let mut parts = Vec::new(alloc);
    for (key, value) in table {
        let part = check_member(key.as_str(), value)?;
        parts
            .push(part)
            .map_err(|_| NamedFault::of_file(PartFault::Memory))?;
    }
    Ok(parts)
}

/// Finds the table of parts, and reads it.
fn check_document(alloc: Global, document: &Table) -> Result<Vec<Part>, NamedFault>
    ensures reads { ReadsUnlessOutOfMemory (document_parts (table_view document.now)) (listed_items result) }
    ensures toml { IfErr result (λ e. e.fault ≢ PartFault.NotToml) }
{
    let missing = NamedFault::of_file(PartFault::Missing(Field::Parts));
    let value = at_key(document, "parts").ok_or(missing)?;
    let bad_value = NamedFault::of_file(PartFault::BadValue(Field::Parts));
    let table = value.as_table().ok_or(bad_value)?;
    check_members(alloc, table)
}

/// Parses a text as TOML; a fault other than `Memory` has the line at which the text stops being TOML.
#[tactic(auto, using(crate::proofs::LineCounts::line_within))]
fn read_document(alloc: Global, text: &str) -> Result<Table, PartFileFault>
    ensures reads { ReadsDocument (parse_document text.now) result }
    ensures line { IfErr result (IsPlaced text.now) }
{
    match toml::table_from_str(alloc, text) {
        Ok(document) => Ok(document),
        Err(error) => Err(match error.span() {
            Some(span) => PartFileFault::not_toml_at(line_at(text.as_bytes(), span.start)),
            None => PartFileFault::without_line(NamedFault::of_file(PartFault::Memory)),
        }),
    }
}

/// Reads a part file: a TOML text with a table `parts`, each of whose members is a table named by the part's id.
/// Other keys are ignored.
///
/// # Errors
///
/// The first fault, with the id of its part. Parts are read in the byte order of their ids, and a part's fields in the
/// order of [`Field`].
/// - [`PartFault::NotToml`]: the text is not UTF-8, or `toml` refuses it; only this fault has a line.
/// - [`PartFault::Missing`]: a field or the table `parts` is missing.
/// - [`PartFault::BadValue`]: a field's value has another kind or is out of range, or `parts` or a member of it is no
///   table. It is also the fault of an id that isn't 1 to 31 letters, digits, `_` and `-`.
/// - [`PartFault::BadSizes`]: a size is no multiple of its page.
/// - [`PartFault::Memory`]: allocation failed.
///
/// ```text
/// let text = "[parts.x1]\nsignature = \"1E950F\"\nflash_size = 32768\nflash_page = 128\n\
///     eeprom_size = 1024\neeprom_page = 4\neesave_bit = 3\n";
/// let parts = parse_part_file(alloc, text.as_bytes())?;
/// assert_eq!(rt; parts.find("x1")?.signature(), [0x1E, 0x95, 0x0F]);
/// ```
#[tactic(auto, using(crate::proofs::CheckedParts::checks_text))]
pub fn parse_part_file(alloc: Global, text: &[u8]) -> Result<Parts, PartFileFault>
    ensures reads { ReadsUnlessOutOfMemory (parts_of text.now)
        (result_map_both (λ parts. parts) (λ fault. fault.why) result) }
    ensures line { IfErr result (IsPlaced text.now) }
    ensures no_text { is_utf8 text.now ≡ false → result ≡ Err
        (not_toml_at (line_at text.now (utf8_valid_len text.now))) }
{
    let text = match str::from_utf8(text) {
        Ok(text) => text,
        Err(error) => {
            let line = line_at(text, error.valid_up_to());
            return Err(PartFileFault::not_toml_at(line));
        }
    };
    let document = read_document(alloc, text)?;
    let parts = check_document(alloc, &document).map_err(PartFileFault::without_line)?;
    Ok(Parts::of_file(parts))
}

/// Reads a part file, as [`parse_part_file`] does.
///
/// # Errors
///
/// The fault of [`parse_part_file`], without part and line.
///
/// ```text
/// assert_eq!(rt; parse_parts(alloc, b"").err(), Some(PartFault::Missing(Field::Parts)));
/// ```
pub fn parse_parts(alloc: Global, text: &[u8]) -> Result<Parts, PartFault>
    ensures { GivesPartUnlessOutOfMemory (unnamed (parts_of text.now)) result }
{
    match parse_part_file(alloc, text) {
        Ok(parts) => Ok(parts),
        Err(refused) => Err(refused.fault()),
    }
}
