//! Laws of runs and services that are killed.

ghost use Rattle.avr_plan.specs.Port.{port_number};
ghost use Rattle.avr_plan.specs.declared.settings.Settings.{Settings};
ghost use Rattle.avr_io.specs.Record.{Bytes};
ghost use Rattle.avr_desk.specs.Shown.{IsNewDesk, RecordsAll, system_desk_view};
ghost use Rattle.avr_laws.specs.Killed.{LeavesOldOrNew, chip_file_of_run, chip_file_of_server};
ghost use Rattle.avr_session.specs.Runs.{devices};
ghost use Rattle.avr_tool.specs.Emulated.{RunsEmulator};
ghost use Rattle.avr_tool.specs.ServedNet.{ServesNet};
ghost use Rattle.avr_laws.specs.Killed.{chip_file_of_service};
ghost use Rattle.avr_tool.specs.ServedRun.{RunsServedFor};
ghost use Rattle.avr_tool.specs.Sockets.{peers_of};
ghost use Rattle.std.specs.Prelude.{ℕ};
ghost use Rattle.stk_host.specs.Transcript.{LinkState};

use avr_desk::{FileSystem, SystemDesk};
use avr_tool::Network;
use std::io::Write;

/// States that a crash of a run over the emulator or a server, begun with a new desk, leaves the old or the new chip
/// file, unless it is written in place. Whenever it is killed or the machine stops, the file is as it was when
/// it was locked, or it holds the chip as the run or the server has left it.
// Proof: `run_killed` and `server_killed` (ChipFile/KilledRuns), from what avr_desk's `RecordsAll` says of a crash.
pub fn a_crash_leaves_the_old_chip_or_the_new_one<
    R: FileSystem + Drop,
    O: Write + Drop,
    E: Write + Drop,
>(before: &SystemDesk<R, O, E>, after: &SystemDesk<R, O, E>)
    ensures run { IsNewDesk R.FileSystem before.now
        → RecordsAll R.FileSystem R.File.Read R.File.Write R.Input.Read before.now after.now
        → (settings : Settings) (file : Bytes) (status : ℕ)
        → (r : RunsEmulator settings file (system_desk_view before.now) (system_desk_view after.now) status)
        → LeavesOldOrNew R.FileSystem after.now.system file
        (chip_file_of_run settings file (system_desk_view before.now) (system_desk_view after.now) status r) }
    ensures server { IsNewDesk R.FileSystem before.now
        → RecordsAll R.FileSystem R.File.Read R.File.Write R.Input.Read before.now after.now
        → (settings : Settings) (file : Bytes) (most_reads : ℕ) (old new : LinkState) (status : ℕ)
        → (s : RunsServedFor settings file most_reads (devices old (system_desk_view before.now))
        (devices new (system_desk_view after.now)) status)
        → LeavesOldOrNew R.FileSystem after.now.system file (chip_file_of_server settings file most_reads
        (devices old (system_desk_view before.now)) (devices new (system_desk_view after.now)) status s) }
{}

/// States that a crash of a service at a port, begun with a new desk, leaves the old or the new chip file, unless it is
/// written in place. It is what [`a_crash_leaves_the_old_chip_or_the_new_one`] states of a server over a link.
// Proof: `service_killed` (ChipFile/Killed).
pub fn a_crash_leaves_the_old_chip_or_the_served_one<
    N: Network,
    R: FileSystem + Drop,
    O: Write + Drop,
    E: Write + Drop,
>(before: &SystemDesk<R, O, E>, after: &SystemDesk<R, O, E>)
    ensures { let peers = peers_of N.Network N.Listener.Callers N.Stream.Read N.Stream.has_timed_out N.Stream.Write
        N.Stream.closed in
        IsNewDesk R.FileSystem before.now
        → RecordsAll R.FileSystem R.File.Read R.File.Write R.Input.Read before.now after.now
        → (settings : Settings) (port file : Bytes) (status : ℕ)
        → (s : ServesNet peers.unused (peers.at_port (port_number port)) settings port file
        (system_desk_view before.now) (system_desk_view after.now) status)
        → LeavesOldOrNew R.FileSystem after.now.system file (chip_file_of_service peers.unused
        (peers.at_port (port_number port)) settings port file (system_desk_view before.now) (system_desk_view after.now)
        status s) }
{}
