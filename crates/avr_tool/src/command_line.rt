//! The words of a command line, and what they ask for.
ghost use Rattle.std.specs.Prelude.{ℕ, ⊤, IfOk, List, OnErr, map, string_bytes, ◌≡◌};
ghost use Rattle.avr_tool.specs.Asked.{GivesSettings, not_asked_number};
ghost use Rattle.ghosts.specs.Preserves.{Preserves};

use avr_io::Desk;
use avr_plan::{Settings, read_settings, read_words};
use avr_session::refuse;
use std::alloc::Global;
use std::env::Env;
use std::{env, io};
use thiserror::Error;

/// Reads the command line of a process. Only this call produces what the ghost members state, so a program can run no
/// words but those it was given.
///
/// A runtime with the system's environment is a `CommandLine`. That it reads the words of the process is tested, not
/// proved.
pub trait CommandLine {
    /// These are its words, the program's name first.
    ghost is_words: { List (List ℕ) → Type 0 };

    /// Its words could not be read.
    ghost unread: { Type 0 };

    /// Returns its words.
    ///
    /// # Errors
    ///
    /// The system's error, or `InvalidData` for a word that isn't UTF-8.
    fn words(&self, alloc: Global) -> io::Result<Vec<String>>
        ensures given { IfOk result (λ words. is_words (map string_bytes words.items)) }
        ensures missed { OnErr result unread };
}

impl<E: Env + Alloc<A = Global>> CommandLine for E {
    ghost is_words = { λ words. ⊤ };

    ghost unread = { ⊤ };

    fn words(&self, alloc: Global) -> io::Result<Vec<String>> {
        Ok(env::args(self)?.collect(alloc)?)
    }
}

/// Why a command line asks for no run.
///
/// ```text
/// let mut words = Vec::new(alloc);
/// for word in ["avrstk", "-P", "emu:chip.bin"] {
///     words.push(String::from_str(alloc, word)?)?;
/// }
/// let mut desk = MemDesk::empty(alloc);
/// // without `-p` the words ask for no run; the line is printed
/// assert!(rt; matches!(asked(alloc, words.as_slice(), &mut desk), Err(NotAsked::Refused(1))));
/// assert_eq!(rt; NotAsked::Refused(1).number(), 2);
/// ```
#[derive(Debug, Drop, Error)]
pub enum NotAsked {
    /// `clap` refuses the command line, this asks for help or the version, or an allocation fails in `clap`. This is
    /// clap's own error with its text, which is not printed yet.
    #[error(transparent)]
    Words(clap::Error),
    /// The settings have a fault, whose line was printed as far as the desk takes it. The status is 1.
    #[error("the command line asks for no run: status {0}")]
    Refused(u8),
}

impl NotAsked {
    /// Returns the fault's number, which never changes.
    pub fn number(&self) -> u8
        ensures { result ≡ not_asked_number self.now }
    {
        match self {
            NotAsked::Words(_) => 1,
            NotAsked::Refused(_) => 2,
        }
    }
}

/// Reads settings from a command line, whose first element is the program's name.
///
/// # Errors
///
/// [`NotAsked::Words`] with the error of `clap`, which isn't printed. [`NotAsked::Refused`] if the settings have a
/// fault or allocation fails, after the line was printed.
///
/// ```text
/// let mut words = Vec::new(alloc);
/// for word in ["avrstk", "-p", "nobody", "-P", "emu:chip.bin", "-U", "flash:r:-"] {
///     words.push(String::from_str(alloc, word)?)?;
/// }
/// let mut desk = MemDesk::empty(alloc);
/// let Ok(settings) = asked(alloc, words.as_slice(), &mut desk) else {
///     panic!(rt; "the words are taken");
/// };
/// // whether there is such a part is checked when a run is planned
/// assert!(rt; settings.part.as_str() == "nobody");
/// assert!(rt; settings.updates.as_slice().len() == 1);
/// ```
pub fn asked<D: Desk>(alloc: Global, words: &[String], desk: &mut D) -> Result<Settings, NotAsked>
    ensures asks { GivesSettings (map string_bytes words.now) (D.view desk.old) (D.view desk.new) result }
    ensures stays { Preserves D.started_as desk.old desk.new }
{
    let matches = match read_words(alloc, words) {
        Ok(matches) => matches,
        Err(error) => return Err(NotAsked::Words(error)),
    };
    match read_settings(alloc, &matches) {
        Ok(settings) => Ok(settings),
        Err(fault) => Err(NotAsked::Refused(refuse(&fault, desk))),
    }
}
