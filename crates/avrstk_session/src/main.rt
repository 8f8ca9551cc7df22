//! Serves an emulated programmer with an emulated part to one client, over standard input and output.
//!
//! With `--serve` it takes avrstk's options `-p`, `--parts` and `-P emu:CHIPFILE`. With `--check` it only checks that
//! this part and chip file can be served, and writes nothing. With `--outline` it takes all of avrstk's options and
//! reads the files that they name, for callers that draw progress. It prints how many frames the session sends, and
//! which pages of flash it writes.
#![tactic(auto)]

ghost use Rattle.std.specs.Prelude.{◌≡◌, map, string_bytes};
ghost use Rattle.clap.specs.Words.{kind_of};
ghost use Rattle.avr_desk.specs.Shown.{IsTrueSince, RecordsAll, system_desk_view};
ghost use Rattle.avr_session.specs.Runs.{devices};
ghost use Rattle.avrstk_session.specs.Outline.{Outlines, PrintsOutline, outline_text};
ghost use Rattle.avr_tool.specs.Ports.{HasChip, chip_file_of};
ghost use Rattle.avrstk_session.specs.Session.{ChecksOnly, ServesMode, ServesWords, StartsSession, ReportsUsage, usage_pieces};
ghost use Rattle.ghosts.specs.Preserves.{Preserves};

mod mode;
mod outline;

use avr_desk::{FileSystem, SystemDesk};
use avr_io::{ChipDesk, Desk, Message, Stream, memory_message, refuse, write_all};
use avr_plan::{Plan, Port, Settings, plan};
use avr_tool::{CommandLine, NotAsked, asked, check_part, serve};
use clap::Error;
use clap::error::ErrorKind;
use ghosts::{Inlet, Outlet};
use mode::{Mode, mode_and_words};
use outline::outline_text;
use std::alloc::Global;
use std::fs::File;
use std::process::ExitCode;
use std::{fs, io};
use stk_host::{Link, StreamLink};

fn main(rt: HostRuntime) -> ExitCode {
    let _taken = take_closed_streams(&rt);
    ExitCode::from(start(&rt, &rt, rt.stdin(), rt.stdout(), rt.stdout(), rt.stderr()))
}

/// Opens a folder in place of each closed standard stream, and keeps it open while the program runs. Otherwise the chip
/// file would take that place, and replies would go there. A folder can be neither read nor written.
fn take_closed_streams(rt: &HostRuntime) -> [io::Result<File>; 3] {
    [fs::open(rt, "/"), fs::open(rt, "/"), fs::open(rt, "/")]
}

/// Checks that the part and the chip file of these settings can be served, and returns the status.
fn check_chip<D: ChipDesk>(alloc: Global, settings: &Settings, desk: &mut D) -> u8
    requires { HasChip settings.now.port }
    ensures checks_out { ChecksOnly settings.now (chip_file_of settings.now.port) (D.view desk.old) (D.view desk.new)
        result }
    ensures stays { Preserves D.started_as desk.old desk.new }
{
    match check_part(alloc, settings, desk) {
        Ok(_) => 0,
        Err(status) => status,
    }
}

fn usage_message<'a>() -> Message<'a>
    ensures { result ≡ usage_pieces }
{
    Message::text(
        "usage: avrstk_session --serve|--check -p PART [--parts FILE] -P emu:CHIPFILE, or --outline AVRSTK'S OPTIONS",
    )
}

/// Prints the outline of a session, and returns the status.
fn print_outline<D: Desk>(alloc: Global, plan: &Plan, desk: &mut D) -> u8
    ensures prints { PrintsOutline (outline_text plan.now) (D.view desk.old) (D.view desk.new) result }
    ensures stays { Preserves D.started_as desk.old desk.new }
{
    let Ok(text) = outline_text(alloc, plan) else {
        return refuse(desk, &memory_message());
    };
    match write_all(desk, Stream::Output, text.as_slice()) {
        Ok(()) => 0,
        Err(_) => 1,
    }
}

/// Reads the files that the settings name, and prints the outline of their session. No file is created.
fn outline_session<D: Desk>(alloc: Global, settings: &Settings, desk: &mut D) -> u8
    ensures outlines { Outlines settings.now (D.view desk.old) (D.view desk.new) result }
    ensures stays { Preserves D.started_as desk.old desk.new }
{
    match plan(alloc, settings, desk) {
        Ok(plan) => print_outline(alloc, &plan, desk),
        Err(status) => status,
    }
}

/// Does what the mode says with these settings. It refuses to serve or check another port than an emulated chip's.
fn serve_mode<D: ChipDesk, L: Link>(
    alloc: Global,
    mode: Option<Mode>,
    settings: &Settings,
    desk: &mut D,
    link: &mut L,
) -> u8
    ensures serves { ServesMode mode settings.now.port settings.now (devices (L.view link.old) (D.view desk.old))
        (devices (L.view link.new) (D.view desk.new)) result }
    ensures comes { Preserves L.started_as link.old link.new }
    ensures stays { Preserves D.started_as desk.old desk.new }
{
    match (mode, &settings.port) {
        (Some(Mode::Serve), Port::Emulated(_)) => serve(alloc, settings, desk, link),
        (Some(Mode::Check), Port::Emulated(_)) => check_chip(alloc, settings, desk),
        (Some(Mode::Outline), _) => outline_session(alloc, settings, desk),
        _ => refuse(desk, &usage_message()),
    }
}

/// Reports an error of `clap`, and returns the status: 0 for help, otherwise 1.
fn report_usage<D: Desk>(error: &Error, desk: &mut D) -> u8
    ensures is_reported { ReportsUsage (kind_of error.now) (D.view desk.old) (D.view desk.new) result }
    ensures stays { Preserves D.started_as desk.old desk.new }
{
    match error.kind() {
        ErrorKind::DisplayHelp => {
            refuse(desk, &usage_message());
            0
        }
        ErrorKind::OutOfMemory => refuse(desk, &memory_message()),
        _ => refuse(desk, &usage_message()),
    }
}

/// Serves what a command line asks for. Its first element is the program's name.
fn serve_words<D: ChipDesk, L: Link>(
    alloc: Global,
    words: &[String],
    desk: &mut D,
    link: &mut L,
) -> u8
    ensures serves { ServesWords (map string_bytes words.now) (devices (L.view link.old) (D.view desk.old))
        (devices (L.view link.new) (D.view desk.new)) result }
    ensures comes { Preserves L.started_as link.old link.new }
    ensures stays { Preserves D.started_as desk.old desk.new }
{
    let (mode, words) = mode_and_words(words);
    match asked(alloc, words, desk) {
        Ok(settings) => serve_mode(alloc, mode, &settings, desk, link),
        Err(NotAsked::Refused(status)) => status,
        Err(NotAsked::Words(error)) => report_usage(&error, desk),
    }
}

/// Serves what the command line asks for, to the client behind `input` and `replies`.
// Not part of `main`: the borrow checker refuses a desk over the runtime's own system, but accepts one over any system.
fn start<
    E: CommandLine + Alloc<A = Global>,
    S: FileSystem + Drop,
    R: Inlet + Drop,
    W: Outlet + Drop,
    O: Outlet + Drop,
    M: Outlet + Drop,
>(rt: &E, system: S, input: R, replies: W, output: O, messages: M) -> u8 {
    let mut desk = SystemDesk::new(system, output, messages);
    let mut link = StreamLink::new(input, replies);
    run(rt, rt.alloc(), &mut desk, &mut link)
}

/// Serves what the command line of the process asks for, as [`serve_words`] does.
fn run<C: CommandLine, S: FileSystem + Drop, O: Outlet + Drop, M: Outlet + Drop, L: Link>(
    line: &C,
    alloc: Global,
    desk: &mut SystemDesk<S, O, M>,
    link: &mut L,
) -> u8
    ensures starts { StartsSession C.CommandLine (devices (L.view link.old) (system_desk_view desk.old))
        (devices (L.view link.new) (system_desk_view desk.new)) result }
    ensures comes { Preserves L.started_as link.old link.new }
    ensures shows { IsTrueSince S.FileSystem S.File.Read S.File.Write S.Input.Read O.Write M.Write desk.old
        desk.new }
    ensures all { RecordsAll S.FileSystem S.File.Read S.File.Write S.Input.Read desk.old desk.new }
{
    match line.words(alloc) {
        Ok(words) => serve_words(alloc, words.as_slice(), desk, link),
        Err(_) => refuse(desk, &usage_message()),
    }
}
