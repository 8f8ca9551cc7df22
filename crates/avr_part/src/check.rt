//! Checks one part of a part file.
ghost use Rattle.std.specs.Prelude.{◌≡◌, ◌≢◌, ◌≤◌, ◌<◌, ◌%◌, codes, option_map, IfErr, IfSome, MatchResult, true};
ghost use Rattle.std.specs.List.{list_all};
ghost use Rattle.toml.specs.View.{table_view, view};
ghost use Rattle.toml.specs.Data.{get_member};
ghost use Rattle.avr_part.specs.declared.fault.PartFault.TheVariants.{NotToml};
ghost use Rattle.avr_part.specs.Part.{is_id_byte, is_id, id_of};
ghost use Rattle.avr_part.specs.PartFile.{number_field, page_field, signature_field, part_of, in_part};

use crate::fault::{Field, PartFault};
use crate::file_fault::NamedFault;
use crate::part::Part;
use arrayvec::ArrayString;
use hex::FromHex;
use toml::{Table, Value};

fn is_id_byte(byte: u8) -> bool
    ensures { result ≡ is_id_byte byte }
{
    byte.is_ascii_alphanumeric() || byte == b'_' || byte == b'-'
}

fn has_id_bytes(text: &[u8]) -> bool
    ensures { result ≡ list_all is_id_byte text.now }
{
    text.iter().all(|byte| is_id_byte(*byte))
}

/// Returns the key as an id, if it is one.
pub(crate) fn id_of(key: &str) -> Option<ArrayString<31>>
    ensures value { option_map (λ t. t.bytes) result ≡ id_of key.now }
    ensures is_id { IfSome result (λ t. is_id t.bytes ≡ true) }
{
    if key.is_empty() || key.len() > 31 || !has_id_bytes(key.as_bytes()) {
        return None;
    }
    let mut id = ArrayString::new();
    id.push_str(key);
    Some(id)
}

pub(crate) fn at_key<'a>(table: &'a Table, key: &str) -> Option<&'a Value>
    ensures { option_map (λ v. view v.now) result ≡ get_member key.now (table_view table.now) }
{
    table.get(key)
}

/// Reads a field that is a number from `least` to `most`.
fn number(table: &Table, key: &str, field: Field, least: u32, most: u32) -> Result<u32, PartFault>
    ensures value { result ≡ number_field field least most (get_member key.now (table_view table.now)) }
    ensures fits { MatchResult result (λ n. (least ≤ n) × (n ≤ most)) (λ fault. fault ≢ NotToml) }
{
    let value = at_key(table, key).ok_or(PartFault::Missing(field))?;
    let number = value.as_integer().ok_or(PartFault::BadValue(field))?;
    match u32::try_from(number) {
        Ok(number) if least <= number && number <= most => Ok(number),
        _ => Err(PartFault::BadValue(field)),
    }
}

/// Reads a field that is a page: a power of two from `least` to 256.
#[tactic(auto, using(crate::proofs::Powers::power_divides, crate::proofs::Powers::power_is_even))]
fn page(table: &Table, key: &str, field: Field, least: u32) -> Result<u32, PartFault>
    ensures value { result ≡ page_field field least (get_member key.now (table_view table.now)) }
    ensures fits { MatchResult result (λ n. (least ≤ n) × (256 % n ≡ 0) × (2 ≤ n → n % 2 ≡ 0)) (λ e. e ≢ NotToml) }
{
    let number = number(table, key, field, least, 256)?;
    if number.is_power_of_two() {
        Ok(number)
    } else {
        Err(PartFault::BadValue(field))
    }
}

/// Reads the signature: three bytes in hexadecimal digits.
fn signature(table: &Table) -> Result<[u8; 3], PartFault>
    ensures value { result ≡ signature_field (get_member (codes "signature") (table_view table.now)) }
    ensures toml { IfErr result (λ fault. fault ≢ NotToml) }
{
    let value = at_key(table, "signature").ok_or(PartFault::Missing(Field::Signature))?;
    let text = value.as_str().ok_or(PartFault::BadValue(Field::Signature))?;
    <[u8; 3] as FromHex>::from_hex(text).map_err(|_| PartFault::BadValue(Field::Signature))
}

/// Reads a part: its id, then its fields in the order of [`Field`].
fn check_part(key: &str, value: &Value) -> Result<Part, PartFault>
    ensures value { result ≡ part_of key.now (view value.now) }
    ensures toml { IfErr result (λ fault. fault ≢ NotToml) }
{
    let table = value.as_table().ok_or(PartFault::BadValue(Field::Parts))?;
    let id = id_of(key).ok_or(PartFault::BadValue(Field::Id))?;
    let signature = signature(table)?;
    let flash_size = number(table, "flash_size", Field::FlashSize, 2, 262_144)?;
    let flash_page = page(table, "flash_page", Field::FlashPage, 2)?;
    let eeprom_size = number(table, "eeprom_size", Field::EepromSize, 1, 4096)?;
    let eeprom_page = page(table, "eeprom_page", Field::EepromPage, 1)?;
    let eesave_bit = number(table, "eesave_bit", Field::EesaveBit, 0, 7)?;
    if flash_size % flash_page != 0 || eeprom_size % eeprom_page != 0 {
        return Err(PartFault::BadSizes);
    }
    Ok(Part {
        id,
        signature,
        flash_size,
        flash_page,
        eeprom_size,
        eeprom_page,
        eesave_bit,
    })
}

/// Reads a member of the table of parts; a fault carries the part's id.
pub(crate) fn check_member(key: &str, value: &Value) -> Result<Part, NamedFault>
    ensures value { result ≡ in_part key.now (part_of key.now (view value.now)) }
    ensures toml { IfErr result (λ fault. fault.fault ≢ NotToml) }
{
    match check_part(key, value) {
        Ok(part) => Ok(part),
        Err(fault) => Err(NamedFault::of_part(key, fault)),
    }
}
