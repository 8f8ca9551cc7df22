//! Reads the port of `-P` or of `--serve`: what the frames go over.
ghost use Rattle.std.specs.Prelude.{◌≡◌, ◌⊎◌, Some, None, option_map};
ghost use Rattle.std.specs.List.{list_all};
ghost use Rattle.std.specs.Char.{is_ascii_digit};
ghost use Rattle.avr_plan.specs.Port.{port_number, is_address, port_of, port_of_option, port_to_serve};
ghost use Rattle.avr_plan.specs.Settings.{GivesUnlessOutOfMemory, ReportsAnyway};

use crate::settings::{Port, SettingsFault};
use crate::text::{after_prefix, owned, split_last};
use std::alloc::Global;

fn has_only_digits(text: &[u8]) -> bool
    ensures { result ≡ list_all is_ascii_digit text.now }
{
    text.iter().all(|byte| byte.is_ascii_digit())
}

/// Reads a port number: only decimal digits, with a value from 1 to 65535. Leading zeros are allowed.
///
/// ```text
/// assert!(rt; port_number("5000") == Some(5000) && port_number("00080") == Some(80));
/// assert!(rt; port_number("0").is_none() && port_number("65536").is_none());
/// assert!(rt; port_number("+80").is_none() && port_number("").is_none());
/// ```
pub fn port_number(text: &str) -> Option<u16>
    ensures { result ≡ port_number text.now }
{
    if !has_only_digits(text.as_bytes()) {
        return None;
    }
    match text.parse::<u16>() {
        Ok(number) if number > 0 => Some(number),
        _ => None,
    }
}

/// Returns whether the text is a host, a colon and a port number.
fn is_address(text: &str) -> bool
    ensures { result ≡ is_address text.now }
{
    match split_last(text) {
        Some((host, port)) => !host.is_empty() && port_number(port).is_some(),
        None => false,
    }
}

/// Returns the fault of a text that names no port.
fn bad_port(alloc: Global, text: &str) -> SettingsFault
    ensures { (result ≡ SettingsFault.BadPort (Some text.now)) ⊎ (result ≡ SettingsFault.Memory) }
{
    match owned(alloc, text) {
        Ok(text) => SettingsFault::BadPort(Some(text)),
        Err(fault) => fault,
    }
}

/// Reads the text of `-P`.
fn port_of(alloc: Global, text: &str) -> Result<Port, SettingsFault>
    ensures { GivesUnlessOutOfMemory (port_of text.now) result }
{
    if text == "stdio:" {
        return Ok(Port::Stdio);
    }
    if let Some(file) = after_prefix(text, "emu:") {
        if file.is_empty() {
            return Err(bad_port(alloc, text));
        }
        return Ok(Port::Emulated(owned(alloc, file)?));
    }
    match after_prefix(text, "net:") {
        Some(address) if is_address(address) => Ok(Port::Network(owned(alloc, address)?)),
        _ => Err(bad_port(alloc, text)),
    }
}

pub(crate) fn port_given(alloc: Global, text: Option<&str>) -> Result<Port, SettingsFault>
    ensures gives { GivesUnlessOutOfMemory (port_of_option (option_map (λ s. s.now) text.entry)) result }
    ensures is_reported { ReportsAnyway (port_of_option (option_map (λ s. s.now) text.entry)) result }
{
    match text {
        Some(text) => port_of(alloc, text),
        None => Err(SettingsFault::BadPort(None)),
    }
}

/// Reads the port of `--serve` and the file of `--chip`. A bad number is reported before a missing file.
pub(crate) fn served(alloc: Global, at: &str, chip: Option<&str>) -> Result<Port, SettingsFault>
    ensures gives { GivesUnlessOutOfMemory (port_to_serve at.now (port_number at.now)
        (option_map (λ s. s.now) chip.entry)) result }
    ensures is_reported { ReportsAnyway (port_to_serve at.now (port_number at.now) (option_map (λ s. s.now) chip.entry))
        result }
{
    if port_number(at).is_none() {
        return Err(bad_port(alloc, at));
    }
    let chip = chip.ok_or(SettingsFault::NoChip)?;
    let port = owned(alloc, at)?;
    let chip = owned(alloc, chip)?;
    Ok(Port::Served { port, chip })
}
