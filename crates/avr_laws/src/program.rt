//! The promise of the program: what its contract and the laws of runs state together.
ghost use Rattle.std.specs.Prelude.{◌≡◌, []};
ghost use Rattle.avr_desk.specs.Shown.{IsNewDesk};
ghost use Rattle.avr_laws.specs.BegunByPort.{BeginsCommandLine, IsBegun, IsBegunByAny, IsSparedByAny};
ghost use Rattle.avr_laws.specs.Kept.{IsKept};
ghost use Rattle.avr_laws.specs.KeptByAny.{IsKeptByAny};
ghost use Rattle.avr_laws.specs.KeptByPort.{KeepsCommandLine};
ghost use Rattle.avr_laws.specs.Recorded.{RecordsFiles, RecordsOutput};
ghost use Rattle.avr_tool.specs.Sockets.{IsOverAddress};
ghost use Rattle.stk_host.specs.Links.{TranscriptIsTrueSince};

use super::any_programmer::AnyProgrammer;
use avr_desk::{FileSystem, SystemDesk};
use avr_tool::{CommandLine, Network, run_command_line};
use ghosts::{Inlet, Outlet};
use std::alloc::Global;
use std::io::Write;
use stk_host::StreamLink;

/// Runs a command line as [`avr_tool::run_command_line`] does, over a link on which nothing has passed. States what its
/// status 0 means, over any files, any network and any streams: the plan that the command line and the opened files ask
/// for was kept. The record has the openings of these files, then over the emulator that of the chip file, and no
/// others. It holds for any programmer that keeps the rows of the table. Only the clause `files` asks for a new desk.
// Proof: `words_kept` (KeptByPort/EachPort), by `promised_by_any` (Table/Kept) over a link, and `file_kept`
// (KeptByPort/InFile) over the emulator.
pub fn a_program_with_status_0_kept_its_plan<
    T: AnyProgrammer,
    C: CommandLine,
    N: Network,
    S: FileSystem + Drop,
    O: Outlet + Drop,
    M: Outlet + Drop,
    R: Inlet + Drop,
    W: Write + Drop,
>(
    line: &C,
    network: N,
    alloc: Global,
    desk: &mut SystemDesk<S, O, M>,
    link: &mut StreamLink<R, W>,
) -> u8
    ensures plan { result ≡ 0 → link.old.transcript ≡ []
        → KeepsCommandLine (IsKeptByAny T.part T.device T.view T.IsIn T.IsReady T.becomes) C.is_words
        (IsOverAddress N.Network N.Stream.Read N.Stream.has_timed_out N.Stream.Write N.Stream.closed)
        link.new.transcript desk.old.kept desk.new.kept }
    // A new desk's record of files, and the link's transcript, are what these gave and took.
    ensures files { IsNewDesk S.FileSystem desk.old
        → RecordsFiles S.FileSystem S.File.Read S.File.Write S.Input.Read desk.new }
    // The messages took what the record has of them. So did standard output, if no created file is the output, too.
    ensures shows { RecordsOutput O.Write M.Write desk.old desk.new }
    ensures streams { TranscriptIsTrueSince R.remaining R.has_timed_out W.contents link.old link.new }
{
    run_command_line(line, network, alloc, desk, link)
}

/// Runs a command line as [`a_program_with_status_0_kept_its_plan`] does. States what its status 0 means if the
/// programmer and the chip are the emulated ones: the same, for any plan and any state of the lock and the fuses.
// Proof: `words_kept` (KeptByPort/EachPort), by `promised` (Outcomes/Kept).
pub fn a_program_with_status_0_kept_its_plan_on_an_emulated_chip<
    C: CommandLine,
    N: Network,
    S: FileSystem + Drop,
    O: Outlet + Drop,
    M: Outlet + Drop,
    R: Inlet + Drop,
    W: Write + Drop,
>(
    line: &C,
    network: N,
    alloc: Global,
    desk: &mut SystemDesk<S, O, M>,
    link: &mut StreamLink<R, W>,
) -> u8
    ensures plan { result ≡ 0 → link.old.transcript ≡ []
        → KeepsCommandLine IsKept C.is_words
        (IsOverAddress N.Network N.Stream.Read N.Stream.has_timed_out N.Stream.Write N.Stream.closed)
        link.new.transcript desk.old.kept desk.new.kept }
{
    run_command_line(line, network, alloc, desk, link)
}

/// Runs a command line as [`a_program_with_status_0_kept_its_plan`] does. States what its run made of a chip behind a
/// link, whatever its status: the first write operations of the plan that the command line and the opened files ask
/// for, in order, and nothing else. They may be none of the plan's write operations, or all. It holds for any
/// programmer that keeps the rows of the table.
///
/// The premises are those of status 0. Without `-F` the chip also has the signature of the plan's part. A chip of
/// another signature is then left as it was, whatever its geometry is; here the plan's part meets `IsPart`, too.
///
/// At a port other than `stdio:` nothing passes over `link`. At a port that isn't of the network, `network` is left
/// unused.
// Proof: `words_begun` (Outcomes/Begun), by `begun_by_any` and `spared_by_any` (Table/AnyStatus).
pub fn whatever_the_status_first_write_operations_were_made<
    T: AnyProgrammer,
    C: CommandLine,
    N: Network,
    S: FileSystem + Drop,
    O: Outlet + Drop,
    M: Outlet + Drop,
    R: Inlet + Drop,
    W: Write + Drop,
>(
    line: &C,
    network: N,
    alloc: Global,
    desk: &mut SystemDesk<S, O, M>,
    link: &mut StreamLink<R, W>,
) -> u8
    ensures begun { link.old.transcript ≡ []
        → BeginsCommandLine (IsBegunByAny T.part T.device T.view T.IsIn T.IsReady T.becomes) C.is_words
        (IsOverAddress N.Network N.Stream.Read N.Stream.has_timed_out N.Stream.Write N.Stream.closed)
        N.Network.unused link.new.transcript desk.old.kept desk.new.kept }
    // Without -F a chip of another signature is left as it was.
    ensures spares { link.old.transcript ≡ []
        → BeginsCommandLine (IsSparedByAny T.part T.device T.view T.IsIn T.IsReady T.becomes) C.is_words
        (IsOverAddress N.Network N.Stream.Read N.Stream.has_timed_out N.Stream.Write N.Stream.closed)
        N.Network.unused link.new.transcript desk.old.kept desk.new.kept }
{
    run_command_line(line, network, alloc, desk, link)
}

/// Runs a command line as [`whatever_the_status_first_write_operations_were_made`] does. States the same of the
/// emulated programmer and chip, for any plan and any state of the lock and the fuses. The chip has the plan's part.
// Proof: `words_begun` (Outcomes/Begun), by `emulated_begun`.
pub fn whatever_the_status_first_write_operations_were_made_on_an_emulated_chip<
    C: CommandLine,
    N: Network,
    S: FileSystem + Drop,
    O: Outlet + Drop,
    M: Outlet + Drop,
    R: Inlet + Drop,
    W: Write + Drop,
>(
    line: &C,
    network: N,
    alloc: Global,
    desk: &mut SystemDesk<S, O, M>,
    link: &mut StreamLink<R, W>,
) -> u8
    ensures begun { link.old.transcript ≡ []
        → BeginsCommandLine IsBegun C.is_words
        (IsOverAddress N.Network N.Stream.Read N.Stream.has_timed_out N.Stream.Write N.Stream.closed)
        N.Network.unused link.new.transcript desk.old.kept desk.new.kept }
{
    run_command_line(line, network, alloc, desk, link)
}
