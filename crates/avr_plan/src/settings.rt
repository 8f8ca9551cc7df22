//! The settings of a run, and why a command line has none.
ghost use Rattle.std.specs.Prelude.{◌≡◌, [], None, IfOk};
ghost use Rattle.avr_plan.specs.Settings.{switches_of};

use crate::text::Text;
use crate::update::{UpdateFault, Updates};
use std::alloc::{AllocError, Global};
use std::fmt;
use thiserror::Error;

/// What the frames go over.
#[derive(Debug, Drop)]
pub enum Port {
    /// `stdio:`, standard input and output.
    Stdio,
    /// `emu:CHIPFILE`, the emulator over this chip file, whose name isn't empty.
    Emulated(Text),
    /// `net:HOST:PORT`, a socket: `HOST:PORT` as given. The host before the last colon isn't empty; after it comes a
    /// [`port_number`](crate::port_number).
    Network(Text),
    /// `--serve PORT` with `--chip FILE`: the emulator over this chip file serves at this port of 127.0.0.1. The
    /// digits as given are a [`port_number`](crate::port_number).
    Served { port: Text, chip: Text },
}

/// The switches and the one counted option. With `--serve` all are off.
#[derive(Clone, Copy, Debug, PartialEq, Eq)]
pub struct Switches {
    /// `-e`: the chip is erased.
    pub erase: bool,
    /// `-D`: a write to flash doesn't erase the chip.
    pub keep_flash: bool,
    /// `-V`: what was written isn't read back.
    pub no_verify: bool,
    /// `-n`: nothing is written or erased.
    pub dry: bool,
    /// `-F`: a signature other than the part's is no fault.
    pub force: bool,
    /// `-A`: trailing FF of a flash read are kept.
    pub all: bool,
    /// `-q`, how often it is given, up to 255. Once suppresses information lines, twice or more warnings too.
    pub quiet: u8,
}

impl Switches {
    /// Returns all switches off, and `-q` not given.
    pub fn none() -> Switches
        ensures { result ≡ switches_of [] }
    {
        Switches {
            erase: false,
            keep_flash: false,
            no_verify: false,
            dry: false,
            force: false,
            all: false,
            quiet: 0,
        }
    }
}

/// What a run was asked to do.
#[derive(Debug, Drop)]
pub struct Settings {
    /// The part's id, such as `m328p`, not looked up yet.
    pub part: Text,
    /// Where the programmer is, or where one is to serve.
    pub port: Port,
    /// The file of `--parts`.
    pub parts: Option<Text>,
    /// Each `-U` in the order given, at most 16; with `--serve` none.
    pub updates: Updates,
    /// The switches, and how often `-q` was given.
    pub switches: Switches,
}

impl Settings {
    /// Creates the settings of a run over a caller's own link. It opens a session with the part of this id, compares
    /// its signature, and does nothing else; set the fields for more.
    ///
    /// The port is [`Port::Stdio`], but no run over a caller's link uses it. So a file `-` is the desk's standard
    /// input or output, although [`read_settings`](crate::read_settings) refuses it with that port, which the frames
    /// take.
    ///
    /// # Errors
    ///
    /// `AllocError` if allocation fails.
    ///
    /// ```text
    /// let mut settings = Settings::for_link(alloc, "m328p")?;
    /// settings.updates.push(parse_update(alloc, "flash:w:a.hex")?)?;
    /// settings.switches.erase = true;
    /// ```
    pub fn for_link(alloc: Global, part: &str) -> Result<Settings, AllocError>
        ensures { IfOk result (λ s. s
            ≡ record { part = part.now; port = Port.Stdio; parts = None; updates = []; switches = switches_of [] }) }
    {
        Ok(Settings {
            part: Text::new(alloc, part)?,
            port: Port::Stdio,
            parts: None,
            updates: Updates::new(alloc),
            switches: Switches::none(),
        })
    }
}

/// Why a command line is refused: the first fault in this order. If allocation fails, it may be `Memory` in place of a
/// fault that holds a text, or that comes after a text was copied.
#[derive(Drop, Error)]
pub enum SettingsFault {
    /// No `-p`.
    #[error("no part given (-p)")]
    NoPart,
    /// `-c` with this name, not `stk500v2`.
    #[error("programmer {} is not known", .0.as_str())]
    BadProgrammer(Text),
    /// `-P` with this text, which names no port, or `--serve` with this text, which is no port number; `None` if
    /// neither option is given.
    #[error("no port given, or one that is not known")]
    BadPort(Option<Text>),
    /// `--serve` without `--chip`.
    #[error("no chip file given (--chip)")]
    NoChip,
    /// More than 16 updates.
    #[error("more than 16 updates")]
    TooMany,
    /// The update with this 1-based number is bad.
    #[error("update {0}: {1}")]
    BadUpdate(u8, UpdateFault),
    /// A standard stream is asked for twice, or in place of a file.
    #[error("standard streams are taken")]
    StandardTaken,
    /// Allocation failed.
    #[error("out of memory")]
    Memory,
}

impl fmt::Debug for SettingsFault {
    fn fmt<W: fmt::Write>(&self, f: &mut fmt::Formatter<W>) -> fmt::Result {
        fmt::Display::fmt(self, f)
    }
}
