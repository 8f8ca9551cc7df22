//! What status 0 means if only reading can be believed, as over a bootloader.

ghost use Rattle.std.specs.Prelude.{◌≡◌, [], ◌∷◌, Some};
ghost use Rattle.std.specs.List.{concat};
ghost use Rattle.avr_laws.specs.AnyTape.{ReceivedSentFrames, after_sent_frames};
ghost use Rattle.avr_laws.specs.Kept.{NoneForged};
ghost use Rattle.avr_laws.specs.KeptByPort.{KeepsCommandLine};
ghost use Rattle.avr_laws.specs.Reader.{IsReader, LastIsThere};
ghost use Rattle.avr_laws.specs.Sheet.{IsVouched};
ghost use Rattle.avr_laws.specs.Table.{IsProgrammer};
ghost use Rattle.avr_laws.specs.WorkedBootloader.{FitsBoot, IsRead, boot_before, boot_executions, boot_frames, boot_plan, boot_replies, bootloader};
ghost use Rattle.avr_laws.specs.WorkedLoss.{loss_part};
ghost use Rattle.avr_part.specs.declared.part.Mem.{Mem};
ghost use Rattle.avr_session.specs.Session.{session};
ghost use Rattle.avr_tool.specs.Sockets.{IsOverAddress};
ghost use Rattle.stk_emu.specs.Device.{Device};
ghost use Rattle.stk_emu.specs.Effect.{Memories};
ghost use Rattle.stk_host.specs.Dialog.{frames_in, played};

use avr_desk::{FileSystem, SystemDesk};
use avr_tool::{CommandLine, Network, run_command_line};
use ghosts::{Inlet, Outlet};
use std::alloc::Global;
use std::io::Write;
use stk_host::StreamLink;

/// A device of which only reading can be believed: what it replies and does, the memories of its chip, its states, and
/// the memories that it reads truly.
pub trait AnyReader {
    ghost State: { Type 0 };

    ghost device: { Device State };

    ghost view: { State → Memories };

    ghost IsIn: { State → Type 0 };

    ghost Reads: { Mem → Type 0 };
}

/// Runs a command line as [`avr_tool::run_command_line`] does, over a link on which nothing has passed. States what its
/// status 0 means over any device that reads truly, whatever that does when it writes: each image that was compared
/// after the plan's last write is in its memory, if the device reads this memory and those read later truly.
// Proof: `words_kept` (KeptByPort/EachPort), by `promised_last` (Readers/LastImages).
pub fn a_program_with_status_0_left_what_it_compared_last<
    T: AnyReader,
    C: CommandLine,
    N: Network,
    S: FileSystem + Drop,
    O: Outlet + Drop,
    M: Outlet + Drop,
    R: Inlet + Drop,
    W: Write + Drop,
>(
    line: &C,
    network: N,
    alloc: Global,
    desk: &mut SystemDesk<S, O, M>,
    link: &mut StreamLink<R, W>,
) -> u8
    ensures images { result ≡ 0 → link.old.transcript ≡ []
        → KeepsCommandLine (λ plan passed old now. LastIsThere T.device T.view T.IsIn T.Reads plan passed) C.is_words
        (IsOverAddress N.Network N.Stream.Read N.Stream.has_timed_out N.Stream.Write N.Stream.closed)
        link.new.transcript desk.old.kept desk.new.kept }
{
    run_command_line(line, network, alloc, desk, link)
}

/// States that a bootloader that erases elsewhere reads truly, though it doesn't keep the table. All premises hold
/// together in a worked run over it, which ended with status 0. The run wrote two images. The second one is there, and
/// writing its page erased the first one's.
// Proof: the lemmas of Rows/Bootloader, and `counter_refused` (Rows/PageCounter).
pub fn a_run_over_a_bootloader_meets_all_premises()
    ensures reads { IsReader loss_part (bootloader loss_part) (λ b. b.memories) (FitsBoot loss_part) IsRead }
    ensures unlike { IsProgrammer loss_part (bootloader loss_part) (λ b. b.memories) (FitsBoot loss_part) (FitsBoot loss_part)
        (IsVouched (λ mem byte. byte) loss_part) → ⊥ }
    ensures ends { (played (session boot_plan) 1 boot_replies).outcome ≡ Some (0, 15, []) }
    ensures sends { frames_in (played (session boot_plan) 1 boot_replies).events ≡ boot_frames }
    ensures starts { FitsBoot loss_part boot_before }
    ensures came { ReceivedSentFrames (concat boot_frames) [] boot_frames boot_executions }
    ensures forged { NoneForged (bootloader loss_part) boot_frames boot_replies boot_before boot_executions [] }
    ensures left { (after_sent_frames (bootloader loss_part) boot_frames boot_executions boot_before).memories.flash
        ≡ 0xFF ∷ 0xFF ∷ 0xFF ∷ 0xFF ∷ 0x56 ∷ 0x78 ∷ 0xFF ∷ 0xFF ∷ [] }
{}
