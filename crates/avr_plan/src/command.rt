//! The options of the command line, and how `clap` reads them.
ghost use Rattle.std.specs.Prelude.{◌≡◌, IfOk, IfErr, true, fold, map, string_bytes};
ghost use Rattle.clap.specs.Words.{app_of, with_rule, rows_of, found_of, matches_of, takes, kind_of, fault_of, FailsBy};
ghost use Rattle.avr_plan.specs.Command.{IsOption, avrstk, option_rule};

use clap::error::ErrorKind;
use clap::{Arg, ArgAction, ArgMatches, Command, Error, value_parser};
use std::alloc::{AllocError, Global};

const ABOUT: &str = "Programs AVR parts through an STK500v2 programmer";

const AFTER: &str = "\
UPDATE is MEMORY:OP:FILE or MEMORY:OP:FILE:FORMAT. A FILE alone is flash:w:FILE:a.
  MEMORY  flash, eeprom, lfuse, hfuse, efuse, lock, signature or calibration
  OP      w writes the file, v compares the memory with it, r reads the memory into it
  FILE    a name; - is standard input or output; with the format m the values themselves
  FORMAT  for w and v: a looks at the file's first bytes, and is the default; i Intel HEX,
          s S-records, r raw bytes, m values, as 0xE2 or 1,2,3
          for r: r raw bytes, the default; i, s; d, h, o, b numbers in that base
Name the format if you know it: with a, a text that doesn't begin with a record is taken
for raw bytes.

Examples:
  avrstk -p m328p -P net:localhost:5000 -U flash:w:blink.hex:i
  avrstk -p m328p -P emu:chip.bin -U lfuse:w:0xE2:m -U lfuse:r:-:h
  avrstk -p m328p --serve 5000 --chip chip.bin

From AVRDUDE: for a serial device (-P /dev/ttyACM0) use avrstk-serial with the same options.
There is no -C (no configuration file), no -B (the programmer has its own clock) and no -t
(use -U). Long part names (atmega328p) and more parts need --parts parts/classic.toml in a
clone, --parts /usr/share/avrstk/classic.toml from the package. With install.sh the file is
in PREFIX/share/avrstk. Values in place of a file need the format m. The manual is man
avrstk if installed, and docs/USAGE.md in a clone. This is avrstk 0.9.0.";

/// How the values of an option are read.
#[derive(Clone, Copy)]
enum Values {
    /// The last one counts.
    Last,
    /// All are collected.
    All,
    /// The last one counts, a number below 2 to the power 32.
    Number,
}

/// What an option takes: its letter, if it has one, and what help calls its value.
enum OptionKind {
    Value(char, &'static str, Values),
    /// No value: it sets a switch, or counts how often it is given.
    Flag(char, ArgAction),
    /// A value, after the option's id in place of a letter.
    LongValue(&'static str),
}

/// An option as the command line has it.
struct CommandOption {
    id: &'static str,
    kind: OptionKind,
    help: &'static str,
}

static OPTIONS: [CommandOption; 16] = [
    CommandOption {
        id: "part",
        kind: OptionKind::Value('p', "ID", Values::Last),
        help: "The part: m328p, t85, m2560, or one of a part file; needed",
    },
    CommandOption {
        id: "programmer",
        kind: OptionKind::Value('c', "NAME", Values::Last),
        help: "The programmer: stk500v2, the default",
    },
    CommandOption {
        id: "port",
        kind: OptionKind::Value('P', "PORT", Values::Last),
        help: "Where the programmer is: stdio:, emu:CHIPFILE or net:HOST:PORT",
    },
    CommandOption {
        id: "update",
        kind: OptionKind::Value('U', "UPDATE", Values::All),
        help: "Write, compare or read a memory; up to 16 times",
    },
    CommandOption {
        id: "erase",
        kind: OptionKind::Flag('e', ArgAction::SetTrue),
        help: "Erase the chip",
    },
    CommandOption {
        id: "keep-flash",
        kind: OptionKind::Flag('D', ArgAction::SetTrue),
        help: "Don't erase the chip for a write of flash",
    },
    CommandOption {
        id: "no-verify",
        kind: OptionKind::Flag('V', ArgAction::SetTrue),
        help: "Don't read back what was written",
    },
    CommandOption {
        id: "dry",
        kind: OptionKind::Flag('n', ArgAction::SetTrue),
        help: "Write and erase nothing on the chip",
    },
    CommandOption {
        id: "force",
        kind: OptionKind::Flag('F', ArgAction::SetTrue),
        help: "Go on despite a wrong signature",
    },
    CommandOption {
        id: "all",
        kind: OptionKind::Flag('A', ArgAction::SetTrue),
        help: "Keep trailing FF of what is read from flash",
    },
    CommandOption {
        id: "quiet",
        kind: OptionKind::Flag('q', ArgAction::Count),
        help: "Suppress information lines; twice: warnings too",
    },
    CommandOption {
        id: "baud",
        kind: OptionKind::Value('b', "N", Values::Number),
        help: "The speed of a serial line; no effect",
    },
    CommandOption {
        id: "verbose",
        kind: OptionKind::Flag('v', ArgAction::Count),
        help: "Accepted for compatibility; no effect",
    },
    CommandOption {
        id: "parts",
        kind: OptionKind::LongValue("FILE"),
        help: "A file of parts in TOML, before the built-in ones",
    },
    CommandOption {
        id: "serve",
        kind: OptionKind::LongValue("PORT"),
        help: "Be an emulated programmer at this port of 127.0.0.1",
    },
    CommandOption {
        id: "chip",
        kind: OptionKind::LongValue("FILE"),
        help: "The chip file of --serve",
    },
];

/// Makes `clap`'s form of an option.
fn option_arg(alloc: Global, option: &CommandOption) -> Arg<'static>
    ensures { IsOption result (option_rule option.now) }
{
    let arg = Arg::new(alloc, option.id).help(option.help);
    match option.kind {
        OptionKind::Value(short, name, values) => {
            let arg = arg.short(short).value_name(name);
            match values {
                Values::Last => arg,
                Values::All => arg.action(ArgAction::Append),
                Values::Number => arg.value_parser(value_parser!(u32)),
            }
        }
        OptionKind::Flag(short, action) => arg.short(short).action(action),
        OptionKind::LongValue(name) => arg.long(option.id).value_name(name),
    }
}

/// Adds options, in their order. Only this function has the early exit: proving one is slow while a command is alive.
fn with_options<'a>(
    alloc: Global,
    mut command: Command<'a>,
    options: &[CommandOption],
) -> Result<Command<'a>, AllocError>
    ensures { IfOk result (λ c. app_of c ≡ fold with_rule (app_of command.entry) (map option_rule options.now)) }
{
    for option in options {
        command = command.arg(option_arg(alloc, option))?;
    }
    Ok(command)
}

/// Creates the command with all its options, for its help. If an option is given again, its last value counts.
///
/// # Errors
///
/// `clap`'s out-of-memory error if allocation fails.
///
/// ```text
/// let mut command = make_command(alloc)?;
/// let help = command.render_help()?;
/// assert!(rt; help.as_str().contains("Usage: avrstk [OPTIONS]"));
/// ```
pub fn make_command<'a>(alloc: Global) -> Result<Command<'a>, Error>
    ensures app { IfOk result (λ c. app_of c ≡ avrstk) }
    ensures memory { IfErr result (λ e. kind_of e ≡ ErrorKind.OutOfMemory) }
{
    let command = Command::new(alloc, "avrstk")
        .about(ABOUT)
        .after_help(AFTER)
        .args_override_self(true);
    Ok(with_options(alloc, command, OPTIONS.as_slice())?)
}

/// Reads the arguments of a command line, the program's name first, as options of AVRDUDE's manual. The result
/// depends on the arguments alone, unless allocation fails.
///
/// # Errors
///
/// `clap`'s own error if the arguments are refused or ask for help. Its `print` chooses standard output or error.
///
/// ```text
/// let mut words = Vec::new(alloc);
/// for word in ["avrstk", "-p", "m328p", "-P", "emu:chip.bin", "-U", "a.hex"] {
///     words.push(String::from_str(alloc, word)?)?;
/// }
/// let matches = read_words(alloc, words.as_slice())?;
/// assert!(rt; matches.get_str("part") == Some("m328p"));
/// ```
pub fn read_words<'a>(alloc: Global, words: &'a [String]) -> Result<ArgMatches<'a>, Error>
    ensures rows { IfOk result (λ m. rows_of (found_of m) ≡ matches_of avrstk (map string_bytes words.entry.now)) }
    ensures taken { IfErr result (λ e. takes avrstk (map string_bytes words.entry.now) ≡ true
        → kind_of e ≡ ErrorKind.OutOfMemory) }
    ensures refused { FailsBy (fault_of avrstk (map string_bytes words.entry.now)) result }
{
    make_command(alloc)?.try_get_matches_from(words)
}
