//! A text that owns its bytes, copies of the texts that settings own, and texts split at a colon or after a prefix.
ghost use Rattle.std.specs.Prelude.{◌≡◌, ℕ, List, IfOk, string_bytes, option_map, Ok};
ghost use Rattle.avr_plan.specs.Split.{after_prefix, split_first, split_last};
ghost use Rattle.avr_plan.specs.Settings.{GivesUnlessOutOfMemory};

use crate::settings::SettingsFault;
use std::alloc::{AllocError, Global};
use std::marker::Model;

/// A text that owns its bytes. In contracts its value is the list of its bytes.
///
/// ```text
/// let text = Text::new(alloc, "chip.bin")?;
/// assert!(rt; text.as_str() == "chip.bin");
/// ```
#[derive(Debug, Drop)]
pub struct Text {
    text: String,
}

impl Model for Text {
    ghost use Rattle.std.specs.Prelude.{ℕ, List, string_bytes};

    ghost Value = { List ℕ };

    ghost view = { λ t. string_bytes t.text };
}

impl Text {
    /// Copies a text to memory of its own.
    ///
    /// # Errors
    ///
    /// `AllocError` if allocation fails.
    pub fn new(alloc: Global, text: &str) -> Result<Text, AllocError>
        ensures { IfOk result (λ t. t ≡ text.now) }
    {
        Ok(Text {
            text: String::from_str(alloc, text)?,
        })
    }

    /// Returns the text, without copying it.
    pub fn as_str(&self) -> &str
        ensures { result.now ≡ self.now }
    {
        self.text.as_str()
    }
}

pub(crate) fn after_prefix<'a>(text: &'a str, prefix: &str) -> Option<&'a str>
    ensures { option_map (λ s. s.now) result ≡ after_prefix prefix.now text.now }
{
    text.strip_prefix(prefix)
}

pub(crate) fn split_first(text: &str) -> Option<(&str, &str)>
    ensures { option_map (λ s. (s.0.now, s.1.now)) result ≡ split_first text.now }
{
    text.split_once(':')
}

pub(crate) fn split_last(text: &str) -> Option<(&str, &str)>
    ensures { option_map (λ s. (s.0.now, s.1.now)) result ≡ split_last text.now }
{
    text.rsplit_once(':')
}

pub(crate) fn owned(alloc: Global, text: &str) -> Result<Text, SettingsFault>
    ensures { GivesUnlessOutOfMemory (Ok text.now) result }
{
    Text::new(alloc, text).map_err(|_| SettingsFault::Memory)
}

pub(crate) fn owned_option(alloc: Global, text: Option<&str>) -> Result<Option<Text>, SettingsFault>
    ensures { GivesUnlessOutOfMemory (Ok (option_map (λ s. s.now) text.entry)) result }
{
    match text {
        Some(text) => Ok(Some(owned(alloc, text)?)),
        None => Ok(None),
    }
}
