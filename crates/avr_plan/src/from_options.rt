//! Makes settings from the options of the command line.
ghost use Rattle.std.specs.Prelude.{◌≡◌, Ok, option_map, map, IsOk, [], unwrap_or, count_by, false};
ghost use Rattle.std.specs.Result.{result_map_both};
ghost use Rattle.clap.specs.Words.{found_of, rows_of, first_of, all_of};
ghost use Rattle.avr_plan.specs.Command.{entries_of};
ghost use Rattle.avr_plan.specs.Settings.{GivesUnlessOutOfMemory, ReportsAnyway, settings_of, KeepsTexts, checked_programmer, updates_of, run_settings, serve_settings, is_on, switches_of, checked_streams};
ghost use Rattle.avr_plan.specs.Update.{update_of};
ghost use Rattle.std.specs.Option.{option_map_or};
ghost use Rattle.std.specs.List.{list_any};
ghost use Rattle.avr_io.specs.Named.{is_dash};
ghost use Rattle.avr_plan.specs.Standard.{uses_standard, uses_input, is_port_taken};

use crate::ports::{port_given, served};
use crate::settings::{Port, Settings, SettingsFault, Switches};
use crate::text::{Text, owned, owned_option};
use crate::update::{Format, Op, Update, UpdateFault, Updates, parse_update};
use avr_io::is_dash;
use clap::ArgMatches;
use std::alloc::Global;

/// Returns the last value given.
pub(crate) fn text_of<'a>(matches: &ArgMatches<'a>, id: &str) -> Option<&'a str>
    ensures { option_map (λ s. s.now) result ≡ first_of id.now (rows_of (found_of matches.now)) }
{
    matches.get_str(id)
}

/// Returns all values given.
pub(crate) fn texts_of<'m, 'a>(matches: &'m ArgMatches<'a>, id: &str) -> Option<&'m [&'a str]>
    ensures { option_map (λ t. map (λ s. s.now) t.now) result ≡ all_of id.now (rows_of (found_of matches.now)) }
{
    matches.get_strs(id)
}

fn is_on(matches: &ArgMatches<'_>, id: &str) -> bool
    ensures { result ≡ is_on id.now (rows_of (found_of matches.now)) }
{
    match text_of(matches, id) {
        Some(text) => text == "true",
        None => false,
    }
}

pub(crate) fn switches_of(matches: &ArgMatches<'_>) -> Switches
    ensures { result ≡ switches_of (rows_of (found_of matches.now)) }
{
    Switches {
        erase: is_on(matches, "erase"),
        keep_flash: is_on(matches, "keep-flash"),
        no_verify: is_on(matches, "no-verify"),
        dry: is_on(matches, "dry"),
        force: is_on(matches, "force"),
        all: is_on(matches, "all"),
        quiet: matches.get_count("quiet"),
    }
}

const MOST_UPDATES: usize = 16;

fn check_programmer(alloc: Global, given: Option<&str>) -> Result<(), SettingsFault>
    ensures gives { GivesUnlessOutOfMemory (checked_programmer (option_map (λ s. s.now) given.entry)) result }
    ensures passes { IsOk (checked_programmer (option_map (λ s. s.now) given.entry)) → IsOk result }
{
    let Some(name) = given else {
        return Ok(());
    };
    if name == "stk500v2" {
        return Ok(());
    }
    Err(SettingsFault::BadProgrammer(owned(alloc, name)?))
}

/// Reads an update; a fault carries its 1-based number.
fn update_at(alloc: Global, number: u8, text: &str) -> Result<Update, SettingsFault>
    ensures { GivesUnlessOutOfMemory (result_map_both (λ update. update) (SettingsFault.BadUpdate number)
        (update_of text.now)) result }
{
    match parse_update(alloc, text) {
        Ok(update) => Ok(update),
        Err(UpdateFault::Memory) => Err(SettingsFault::Memory),
        Err(fault) => Err(SettingsFault::BadUpdate(number, fault)),
    }
}

/// Reads the updates, at most 16, up to the first fault.
fn updates_given(alloc: Global, texts: Option<&[&str]>) -> Result<Updates, SettingsFault>
    ensures { GivesUnlessOutOfMemory (updates_of (unwrap_or (option_map (λ t. map (λ s. s.now) t.now) texts.entry) []))
        result }
{
    let mut updates = Updates::new(alloc);
    let Some(texts) = texts else {
        return Ok(updates);
    };
    if texts.len() > MOST_UPDATES {
        return Err(SettingsFault::TooMany);
    }
    for (i, text) in texts.iter().enumerate() {
        let update = update_at(alloc, i as u8 + 1, text)?;
        updates.push(update).map_err(|_| SettingsFault::Memory)?;
    }
    Ok(updates)
}

/// Checks the standard streams, and then copies the part's id and the name of the part file. The caller's port and
/// updates are only lent: proving an early exit is slow where they are dropped.
fn kept_texts(
    alloc: Global,
    part: &str,
    port: &Port,
    updates: &[Update],
    matches: &ArgMatches<'_>,
) -> Result<(Text, Option<Text>), SettingsFault>
    ensures { KeepsTexts part.now port.now updates.now (entries_of (rows_of (found_of matches.now))) result }
{
    let parts = text_of(matches, "parts");
    check_streams(port, updates, parts, text_of(matches, "chip"))?;
    Ok((owned(alloc, part)?, owned_option(alloc, parts)?))
}

/// Reads the settings of a run.
fn run_settings(
    alloc: Global,
    part: &str,
    matches: &ArgMatches<'_>,
) -> Result<Settings, SettingsFault>
    ensures gives { GivesUnlessOutOfMemory
        (run_settings part.now (entries_of (rows_of (found_of matches.now)))) result }
    ensures is_reported { ReportsAnyway (run_settings part.now (entries_of (rows_of (found_of matches.now)))) result }
{
    check_programmer(alloc, text_of(matches, "programmer"))?;
    let port = port_given(alloc, text_of(matches, "port"))?;
    let updates = updates_given(alloc, texts_of(matches, "update"))?;
    let (part, parts) = kept_texts(alloc, part, &port, updates.as_slice(), matches)?;
    Ok(Settings {
        part,
        port,
        parts,
        updates,
        switches: switches_of(matches),
    })
}

/// Reads the settings of a service at the port `at`.
fn serve_settings(
    alloc: Global,
    part: &str,
    at: &str,
    given: &ArgMatches<'_>,
) -> Result<Settings, SettingsFault>
    ensures gives { GivesUnlessOutOfMemory (serve_settings part.now at.now (entries_of (rows_of (found_of given.now))))
        result }
    ensures is_reported { ReportsAnyway (serve_settings part.now at.now (entries_of (rows_of (found_of given.now))))
        result }
{
    let port = served(alloc, at, text_of(given, "chip"))?;
    let (part, parts) = kept_texts(alloc, part, &port, &[], given)?;
    Ok(Settings {
        part,
        port,
        parts,
        updates: Updates::new(alloc),
        switches: Switches::none(),
    })
}

/// Reads the settings that the command line asks for. With `--serve`, only `-p`, `--parts` and `--chip` count.
///
/// # Errors
///
/// The first fault in the order of [`SettingsFault`]. `Memory` if allocation fails, unless the first fault is that no
/// part, port or chip file is given.
///
/// ```text
/// let mut words = Vec::new(alloc);
/// for word in ["avrstk", "-p", "m328p", "-P", "emu:chip.bin", "-U", "a.hex"] {
///     words.push(String::from_str(alloc, word)?)?;
/// }
/// let settings = read_settings(alloc, &read_words(alloc, words.as_slice())?)?;
/// assert!(rt; settings.part.as_str() == "m328p");
/// assert!(rt; matches!(&settings.port, Port::Emulated(file) if file.as_str() == "chip.bin"));
/// assert_eq!(rt; settings.updates.as_slice().len(), 1);
/// ```
pub fn read_settings(alloc: Global, matches: &ArgMatches<'_>) -> Result<Settings, SettingsFault>
    ensures gives { GivesUnlessOutOfMemory (settings_of (entries_of (rows_of (found_of matches.now)))) result }
    ensures is_reported { ReportsAnyway (settings_of (entries_of (rows_of (found_of matches.now)))) result }
{
    let part = text_of(matches, "part").ok_or(SettingsFault::NoPart)?;
    match text_of(matches, "serve") {
        Some(port) => serve_settings(alloc, part, port, matches),
        None => run_settings(alloc, part, matches),
    }
}

fn is_given_dash(file: Option<&str>) -> bool
    ensures { result ≡ option_map_or is_dash (option_map (λ s. s.now) file.entry) false }
{
    match file {
        Some(name) => is_dash(name),
        None => false,
    }
}

/// Returns whether the update's file is a standard stream; values are no file.
fn uses_standard(update: &Update) -> bool
    ensures { result ≡ uses_standard update.now }
{
    is_dash(update.file.as_str()) && !matches!(update.format, Format::Immediate)
}

/// Returns whether the update reads standard input.
fn uses_input(update: &Update) -> bool
    ensures { result ≡ uses_input update.now }
{
    uses_standard(update) && !matches!(update.op, Op::Read)
}

fn any_standard(updates: &[Update]) -> bool
    ensures { result ≡ list_any uses_standard updates.now }
{
    updates.iter().any(|update| uses_standard(update))
}

/// Returns how many updates read standard input.
fn inputs(updates: &[Update]) -> usize
    ensures { result ≡ count_by uses_input updates.now }
{
    updates.iter().filter(|update| uses_input(update)).count()
}

/// Returns whether both the frames and the updates use the standard streams, or the chip file is one.
fn is_port_taken(port: &Port, updates: &[Update]) -> bool
    ensures { result ≡ is_port_taken port.now updates.now }
{
    match port {
        Port::Stdio => any_standard(updates),
        Port::Emulated(file) => is_dash(file.as_str()),
        Port::Network(_) => false,
        Port::Served { chip, .. } => is_dash(chip.as_str()),
    }
}

/// Returns `StandardTaken` if a standard stream is asked for twice, or in place of the file of `--parts` or `--chip`,
/// even if that file is not used.
pub(crate) fn check_streams(
    port: &Port,
    updates: &[Update],
    parts: Option<&str>,
    chip: Option<&str>,
) -> Result<(), SettingsFault>
    ensures { result ≡ checked_streams port.now updates.now (option_map (λ s. s.now) parts.entry)
        (option_map (λ s. s.now) chip.entry) }
{
    let is_taken = is_given_dash(parts)
        || is_given_dash(chip)
        || is_port_taken(port, updates)
        || inputs(updates) >= 2;
    if is_taken {
        Err(SettingsFault::StandardTaken)
    } else {
        Ok(())
    }
}
