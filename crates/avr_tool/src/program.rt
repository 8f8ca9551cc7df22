//! The program: from a command line to a status.
ghost use Rattle.std.specs.Prelude.{◌≡◌, map, string_bytes};
ghost use Rattle.clap.specs.Words.{kind_of};
ghost use Rattle.avr_tool.specs.Program.{ActsAtPort, RunsProgram, ActsOnCommandLine, StartsProgram, usage_status, usage_stream};
ghost use Rattle.avr_desk.specs.Shown.{IsTrueSince as IsTrueDesk, RecordsAll, system_desk_view};
ghost use Rattle.avr_session.specs.Runs.{devices};
ghost use Rattle.avr_tool.specs.Sockets.{peers_of};
ghost use Rattle.stk_host.specs.Links.{TranscriptIsTrueSince, stream_state};
ghost use Rattle.ghosts.specs.Preserves.{Preserves};

use crate::command_line::{CommandLine, NotAsked, asked};
use crate::network::Network;
use crate::over_emulator::run_emu;
use crate::over_net::run_net;
use crate::running::run;
use crate::serving::serve_net;
use crate::texts::{print_text, refuse_text};
use avr_desk::{FileSystem, SystemDesk};
use avr_io::{ChipDesk, DeskFault, Stream};
use avr_plan::{Port, Settings, SettingsFault};
use avr_session::refuse;
use clap::Error;
use clap::error::ErrorKind;
use ghosts::{Inlet, Outlet};
use std::alloc::Global;
use std::io::Write;
use stk_host::StreamLink;

/// Runs over the port of the settings, or serves the emulator: `stdio:` is the link, `emu:` the emulator, `net:` a
/// connection.
fn run_port<N: Network, D: ChipDesk, R: Inlet + Drop, W: Write + Drop>(
    network: N,
    alloc: Global,
    settings: &Settings,
    desk: &mut D,
    link: &mut StreamLink<R, W>,
) -> u8
    ensures runs { ActsAtPort (peers_of N.Network N.Listener.Callers N.Stream.Read N.Stream.has_timed_out N.Stream.Write
        N.Stream.closed) settings.now.port
        settings.now (devices (stream_state link.old) (D.view desk.old))
        (devices (stream_state link.new) (D.view desk.new)) result }
    ensures is_reported { TranscriptIsTrueSince R.remaining R.has_timed_out W.contents link.old link.new }
    ensures stays { Preserves D.started_as desk.old desk.new }
{
    match &settings.port {
        Port::Stdio => {
            network.leave();
            run(alloc, settings, desk, link)
        }
        Port::Emulated(_) => {
            network.leave();
            run_emu(alloc, settings, desk)
        }
        Port::Network(_) => run_net(network, alloc, settings, desk),
        Port::Served { .. } => serve_net(network, alloc, settings, desk),
    }
}

/// Runs what a command line asks for. Its first element is the program's name, and `link` is the port `stdio:`.
///
/// Returns the status: 0 if there was no fault, otherwise 1. A fault of the settings has its line, and so has a
/// failed allocation.
///
/// # Errors
///
/// The error of `clap`, not printed yet, if it refuses the command line, or if this asks for help or the version.
/// Nothing was done.
///
/// ```text
/// let mut words = Vec::new(alloc);
/// for word in ["avrstk", "-p", "m328p", "-P", "emu:chip.bin", "-q"] {
///     words.push(String::from_str(alloc, word)?)?;
/// }
/// let mut desk = MemDesk::empty(alloc);
/// let mut streams = StreamLink::new(b"".as_slice(), Vec::new(alloc));
/// assert_eq!(rt; run_words(&rt, alloc, words.as_slice(), &mut desk, &mut streams)?, 0);
/// assert!(rt; desk.messages().is_empty());
/// ```
pub fn run_words<N: Network, D: ChipDesk, R: Inlet + Drop, W: Write + Drop>(
    network: N,
    alloc: Global,
    words: &[String],
    desk: &mut D,
    link: &mut StreamLink<R, W>,
) -> Result<u8, Error>
    ensures runs { ActsOnCommandLine (peers_of N.Network N.Listener.Callers N.Stream.Read
        N.Stream.has_timed_out N.Stream.Write N.Stream.closed)
        (map string_bytes words.now) (devices (stream_state link.old) (D.view desk.old))
        (devices (stream_state link.new) (D.view desk.new)) result }
    ensures is_reported { TranscriptIsTrueSince R.remaining R.has_timed_out W.contents link.old link.new }
    ensures stays { Preserves D.started_as desk.old desk.new }
{
    match asked(alloc, words, desk) {
        Ok(settings) => Ok(run_port(network, alloc, &settings, desk, link)),
        Err(NotAsked::Refused(status)) => {
            network.leave();
            Ok(status)
        }
        Err(NotAsked::Words(error)) => {
            network.leave();
            if error.kind() == ErrorKind::OutOfMemory {
                return Ok(refuse(&SettingsFault::Memory, desk));
            }
            Err(error)
        }
    }
}

/// Returns the status for an error of `clap`: 0 if it is help or the version and was printed, otherwise 1.
fn status_of_usage(error: &Error, printed: Result<usize, DeskFault>) -> u8
    ensures { result ≡ usage_status (kind_of error.now) printed }
{
    match (error.kind(), printed) {
        (ErrorKind::DisplayHelp | ErrorKind::DisplayVersion, Ok(count)) if count > 0 => 0,
        _ => 1,
    }
}

/// Returns the stream for the text of an error of `clap`: output for help and the version, otherwise messages.
fn stream_of_usage(error: &Error) -> Stream
    ensures { result ≡ usage_stream (kind_of error.now) }
{
    match error.kind() {
        ErrorKind::DisplayHelp | ErrorKind::DisplayVersion => Stream::Output,
        _ => Stream::Messages,
    }
}

/// Runs what a command line asks for as [`run_words`] does, and prints an error of `clap`.
///
/// Returns the status of the run. For an error of `clap` it is 0 if help or the version was printed, otherwise 1.
///
/// ```text
/// let mut words = Vec::new(alloc);
/// for word in ["avrstk", "-p", "m328p", "-P", "emu:chip.bin", "-q"] {
///     words.push(String::from_str(alloc, word)?)?;
/// }
/// let mut desk = MemDesk::empty(alloc);
/// let mut streams = StreamLink::new(b"".as_slice(), Vec::new(alloc));
/// assert_eq!(rt; run_program(&rt, alloc, words.as_slice(), &mut desk, &mut streams), 0);
/// ```
pub fn run_program<N: Network, D: ChipDesk, R: Inlet + Drop, W: Write + Drop>(
    network: N,
    alloc: Global,
    words: &[String],
    desk: &mut D,
    link: &mut StreamLink<R, W>,
) -> u8
    ensures runs { RunsProgram (peers_of N.Network N.Listener.Callers N.Stream.Read
        N.Stream.has_timed_out N.Stream.Write N.Stream.closed)
        (map string_bytes words.now) (devices (stream_state link.old) (D.view desk.old))
        (devices (stream_state link.new) (D.view desk.new)) result }
    ensures is_reported { TranscriptIsTrueSince R.remaining R.has_timed_out W.contents link.old link.new }
    ensures stays { Preserves D.started_as desk.old desk.new }
{
    match run_words(network, alloc, words, desk, link) {
        Ok(status) => status,
        Err(error) => {
            let printed = print_text(desk, stream_of_usage(&error), &error);
            status_of_usage(&error, printed)
        }
    }
}

/// Reads the command line of a process, and runs what it asks for at a program's desk, as [`run_program`] does.
///
/// Returns the status of the run. If the command line can't be read, the error is reported, and the status is 1.
pub fn run_command_line<
    C: CommandLine,
    N: Network,
    S: FileSystem + Drop,
    O: Outlet + Drop,
    M: Outlet + Drop,
    R: Inlet + Drop,
    W: Write + Drop,
>(
    line: &C,
    network: N,
    alloc: Global,
    desk: &mut SystemDesk<S, O, M>,
    link: &mut StreamLink<R, W>,
) -> u8
    ensures starts { StartsProgram C.CommandLine (peers_of N.Network N.Listener.Callers N.Stream.Read
        N.Stream.has_timed_out N.Stream.Write N.Stream.closed)
        (devices (stream_state link.old) (system_desk_view desk.old))
        (devices (stream_state link.new) (system_desk_view desk.new)) result }
    ensures is_reported { TranscriptIsTrueSince R.remaining R.has_timed_out W.contents link.old link.new }
    ensures shows { IsTrueDesk S.FileSystem S.File.Read S.File.Write S.Input.Read O.Write M.Write desk.old
        desk.new }
    ensures all { RecordsAll S.FileSystem S.File.Read S.File.Write S.Input.Read desk.old desk.new }
{
    match line.words(alloc) {
        Ok(words) => run_program(network, alloc, words.as_slice(), desk, link),
        Err(error) => {
            network.leave();
            refuse_text(desk, &error)
        }
    }
}
