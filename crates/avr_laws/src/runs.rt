//! What status 0 means. Laws of few bad frames, of a further run, and of worked outcomes.

ghost use Rattle.std.specs.Prelude.{◌≡◌, ◌<◌, ◌*◌, true, false, List, [], ◌∷◌, All, Some, flat_map, map, sum_by, ℕ};
ghost use Rattle.avr_plan.specs.declared.settings.Settings.{Settings};
ghost use Rattle.avr_io.specs.Record.{DeskState, ChangesRecord, Record, all_openings};
ghost use Rattle.avr_laws.specs.Again.{AgreesOnTwoChips, ItemsKeepEeprom};
ghost use Rattle.avr_tool.specs.OverFaultyLink.{SessionOverWire, memories, events_over};
ghost use Rattle.avr_laws.specs.AnyLink.{OverAnyWire, WholeSessionOverExchanges};
ghost use Rattle.avr_session.specs.PlanSteps.{run_steps};
ghost use Rattle.avr_tool.specs.ExpectedRun.{expected_run};
ghost use Rattle.avr_tool.specs.Items.{items, asked_items, has_erase};
ghost use Rattle.avr_tool.specs.Outcome.{IsExpectedRun};
ghost use Rattle.avr_tool.specs.Written.{IsWritten, written_to};
ghost use Rattle.avr_io.specs.OutputEvents.{OutputEvent, after_events};
ghost use Rattle.avr_part.specs.Part.{IsPart};
ghost use Rattle.avr_part.specs.Sound.{IsSoundChip};
ghost use Rattle.avr_part.specs.State.{ChipState as Chip};
ghost use Rattle.avr_plan.specs.Plan.{Plan, IsFitted};
ghost use Rattle.avr_session.specs.Runs.{AllocationFailed, devices, cause_line};
ghost use Rattle.avr_session.specs.Session.{session};
ghost use Rattle.avr_session.specs.Stopping.{IsSound, EndWithLine, keeping, link_state};
ghost use Rattle.avr_tool.specs.Headline.{IsRun};
ghost use Rattle.avr_laws.specs.BegunByPort.{IsBegunByAny};
ghost use Rattle.avr_laws.specs.KeptByAny.{IsKeptByAny};
ghost use Rattle.avr_laws.specs.KeptByPort.{KeepsPlan};
ghost use Rattle.avr_laws.specs.Sheet.{IsVouched, SuitsPlan};
ghost use Rattle.avr_laws.specs.Table.{IsProgrammer};
ghost use Rattle.avr_laws.specs.Worked.{worked_frames, fuse_plan, worked_lines, forged_replies, worked_replies, worked_settings};
ghost use Rattle.avr_laws.specs.WorkedLoss.{image_read, loss_executions, loss_frames, loss_part, loss_plan, loss_programmer, loss_replies, loss_updates, old_chip, old_file, received_first, received_later};
ghost use Rattle.avr_laws.specs.ChipFound.{IsChipInFile};
ghost use Rattle.stk_emu.specs.Device.{device};
ghost use Rattle.stk_emu.specs.Effect.{memories_of, erase_keeps_eeprom, effects, memory_in};
ghost use Rattle.avr_laws.specs.FewBadFrames.{AtMostThreeBadOfSeven};
ghost use Rattle.avr_laws.specs.AskedPlan.{AreTasksOf, WasOpened};
ghost use Rattle.avr_laws.specs.Kept.{HasGeometryOf, IsKept, NoneForged, on_part};
ghost use Rattle.stk_emu.specs.Programmer.{Programmer, fresh_programmer};
ghost use Rattle.stk_host.specs.Play.{IsBytePrefixOf};
ghost use Rattle.stk_emu.specs.StepData.{HoldsImage};
ghost use Rattle.avr_part.specs.declared.part.Mem.{Mem};
ghost use Rattle.stk_emu.specs.Settled.{FitsPart};
ghost use Rattle.stk_emu.specs.Wire.{exchanges_of_fates};
ghost use Rattle.stk_emu.specs.Wired.{WiredState, wired_link};
ghost use Rattle.stk_frame.specs.Commands.{body};
ghost use Rattle.stk_frame.specs.Cut.{body_of, frames};
ghost use Rattle.stk_emu.specs.Exchange.{Execution, Exchange};
ghost use Rattle.avr_laws.specs.AnyTape.{ReceivedSentFrames, after_sent_frames};
ghost use Rattle.avr_laws.specs.NoForgedFrame.{ForgesNoFrame};
ghost use Rattle.stk_host.specs.Dialog.{Event, played, bytes_sent, frames_in, outputs};
ghost use Rattle.stk_host.specs.Transcript.{Transcript, heard, sent};

use super::any_programmer::AnyProgrammer;
use avr_io::Desk;
use avr_plan::Settings;
use avr_tool::run;
use std::alloc::Global;
use stk_host::Link;

/// Runs what the settings ask for over a new link, as [`avr_tool::run`] does, and states what status 0 means then. The
/// settings and the files that were opened ask for a plan, and the chip holds what that plan makes of it.
///
/// The programmer keeps the rows of the table that the chip's data sheet vouches for, and the plan asks for no other
/// row. It may be in any state. It received any bytes whose good frames are some of those sent, also after it restarted,
/// and no reply was forged. Then the memories of its chip are what the plan's writes make of them, and all that the plan
/// compares agreed. If the run was verified, each memory holds its images. Elsewhere it holds what it held before, or
/// the FF of an erase. Each file that a memory was read into got the text of what the chip held then.
///
/// The chip has the sizes and pages of the plan's part, and EESAVE at the same bit of the high fuse. Its id and
/// signature may be others: the plan that was kept is the one for the chip's own part. Without `-F` status 0 means that
/// the chip has the signature of the plan's part.
// Proof: `promised_by_any` (Table/Kept): the rows are the steps of a host (`real_of`, Table/RealOf), and
// the plan takes rows that are vouched for (`plan_works`, Table/ByTasks). Another id and signature are by
// `session_alike` (Outcomes/OtherPart), none without `-F` by `own_signature` (Outcomes/OwnSignature). The memories are
// `session_leaves` (OverFaultyLink/Outcomes), the images `run_written` (Memories/VerifiedRuns), the files
// `expected_writes` (Outcomes/Saved), the plan and what was opened `run_keeps` (Outcomes/Openings).
pub fn status_0_means_the_images<T: AnyProgrammer, D: Desk, L: Link>(
    alloc: Global,
    settings: &Settings,
    desk: &mut D,
    link: &mut L,
) -> u8
    ensures promise { result ≡ 0 → (L.view link.old).transcript ≡ []
        → KeepsPlan settings.now (D.view desk.old).kept (D.view desk.new).kept [] (λ plan.
        IsKeptByAny T.part T.device T.view T.IsIn T.IsReady T.becomes plan (L.view link.new).transcript
        (D.view desk.old).kept (D.view desk.new).kept) }
{
    run(alloc, settings, desk, link)
}

/// Runs what the settings ask for as [`status_0_means_the_images`] does. States what status 0 means if the programmer
/// and the chip are the emulated ones: the same, for any plan and any state of the lock and the fuses.
// Proof: `promised` (Outcomes/Kept), by `emulated` (avr_tool's Emulated).
pub fn status_0_means_the_images_on_an_emulated_chip<D: Desk, L: Link>(
    alloc: Global,
    settings: &Settings,
    desk: &mut D,
    link: &mut L,
) -> u8
    ensures promise { result ≡ 0 → (L.view link.old).transcript ≡ []
        → KeepsPlan settings.now (D.view desk.old).kept (D.view desk.new).kept [] (λ plan.
        IsKept plan (L.view link.new).transcript (D.view desk.old).kept (D.view desk.new).kept) }
{
    run(alloc, settings, desk, link)
}

/// States that all premises of status 0 on an emulated chip hold together in a worked run over a bad link, which ended
/// with status 0. The link brought a reply late, damaged a command and lost another one, and the programmer restarted.
/// The image is what a file holds, and the chip that of a chip file.
// Proof: the lemmas of Rows/Loss.
pub fn a_run_over_a_bad_link_meets_all_premises()
    ensures image { AreTasksOf WasOpened loss_part loss_updates loss_plan.tasks (all_openings image_read) }
    ensures ends { (played (session loss_plan) 1 loss_replies).outcome ≡ Some (0, 17, []) }
    ensures sends { frames_in (played (session loss_plan) 1 loss_replies).events ≡ loss_frames }
    ensures chip { IsChipInFile loss_part (Some old_file) old_chip × IsSoundChip old_chip
        × HasGeometryOf loss_part old_chip.part }
    ensures came { ReceivedSentFrames received_first (received_later ∷ []) loss_frames loss_executions }
    ensures forged { NoneForged device loss_frames loss_replies loss_programmer loss_executions [] }
    ensures left { (after_sent_frames device loss_frames loss_executions loss_programmer).chip.flash
        ≡ 0x12 ∷ 0x34 ∷ 0xFF ∷ 0xFF ∷ 0xFF ∷ 0xFF ∷ 0xFF ∷ 0xFF ∷ [] }
{}

/// States that at any programmer that keeps the rows a broken-off run and the same run with status 0 leave what one
/// run leaves, except for one fuse case. No frame is forged. The first may have ended with any status, been killed, or
/// lost its link. The programmer may then be in any state, as long as its chip holds what the first run left. Each time
/// the plan needs only rows that are vouched for.
///
/// `IsBegunByAny` is what law `whatever_the_status_first_write_operations_were_made` states of the first run, and
/// `IsKeptByAny` what [`status_0_means_the_images`] states of the second. The chip has the sizes and pages of the
/// plan's part, and EESAVE at the same bit of the high fuse. Its id and signature may be others.
///
/// If the plan erases and the chip keeps EEPROM at an erase, each byte that it writes to the high fuse must keep it
/// too. If the second run was verified, each memory holds its images.
// Proof: `as_one_by_any` (Outcomes/TwoRuns), by `done_again` (SecondRun/Status).
pub fn an_ended_run_and_one_with_status_0_are_as_one<T: AnyProgrammer>()
    ensures { (plan : Plan) (first second : Transcript) (old now : Record) (p q : T.State)
        → IsBegunByAny T.part T.device T.view T.IsIn T.IsReady T.becomes plan first
        → IsKeptByAny T.part T.device T.view T.IsIn T.IsReady T.becomes plan second old now
        → All (IsFitted plan.part) plan.tasks → IsPart T.part → HasGeometryOf plan.part T.part
        → IsProgrammer T.part T.device T.view T.IsIn T.IsReady (IsVouched T.becomes T.part)
        → (has_erase (items plan) ≡ true → erase_keeps_eeprom T.part (T.view p) ≡ true
        → ItemsKeepEeprom T.part (items plan))
        → (executions : List Execution) → T.IsIn p → FitsPart T.part (T.view p)
        → SuitsPlan T.becomes (on_part T.part plan) (T.view p)
        → NoneForged T.device (frames (sent first)) (heard first) p executions []
        → (others : List Execution) → T.IsIn q
        → T.view q ≡ T.view (after_sent_frames T.device (frames (sent first)) executions p) → FitsPart T.part (T.view q)
        → SuitsPlan T.becomes (on_part T.part plan) (T.view q)
        → NoneForged T.device (frames (sent second)) (heard second) q others []
        → (T.view (after_sent_frames T.device (frames (sent second)) others q) ≡ effects T.part (items plan) (T.view p))
        × (plan.switches.no_verify ≡ false → (mem : Mem) → HoldsImage (written_to T.part mem (asked_items plan))
        (memory_in T.part mem (T.view (after_sent_frames T.device (frames (sent second)) others q)))) }
{}

/// States that at the emulated programmer all of [`an_ended_run_and_one_with_status_0_are_as_one`] holds, for any plan
/// and any state of the lock and the fuses. The first run sent any prefix of its bytes.
// Proof: `emulated_as_one` (Outcomes/TwoRuns), by `done_again` (SecondRun/Status) and, for another signature,
// `session_alike` (Outcomes/OtherPart).
pub fn an_ended_run_and_one_with_status_0_are_as_one_on_an_emulated_chip()
    ensures { (plan : Plan) (first second : Transcript) (old now : Record) (p q : Programmer)
        → All (IsFitted plan.part) plan.tasks → IsSoundChip p.chip → HasGeometryOf plan.part p.chip.part
        → (has_erase (items plan) ≡ true → erase_keeps_eeprom p.chip.part (memories_of p.chip) ≡ true
        → ItemsKeepEeprom p.chip.part (items plan))
        → (executions : List Execution)
        → IsBytePrefixOf (sent first) (bytes_sent (played (session plan) 1 (heard first)).events)
        → ForgesNoFrame device (session plan) 1 (heard first) p executions []
        → (others : List Execution) → IsSoundChip q.chip → q.chip.part ≡ p.chip.part
        → memories_of q.chip ≡ memories_of (after_sent_frames device (frames (sent first)) executions p).chip
        → IsKept plan second old now
        → NoneForged device (frames (sent second)) (heard second) q others []
        → (memories_of (after_sent_frames device (frames (sent second)) others q).chip
        ≡ effects p.chip.part (items plan) (memories_of p.chip))
        × (plan.switches.no_verify ≡ false → (mem : Mem) → HoldsImage (written_to p.chip.part mem (asked_items plan))
        (memory_in p.chip.part mem
        (memories_of (after_sent_frames device (frames (sent second)) others q).chip))) }
{}

/// States that no session over the emulated link has status 0 with wrong memories or output, changes a chip without a
/// frame, or sends too many frames. Wrong are memories that the plan's writes don't leave, and output other than over a
/// perfect link. Too many are more than four frames for each command, by any weight.
// Proof: `not_all_written`, `output_otherwise`, `touched_in_silence` and `too_much` (Outcomes/Refused).
pub fn a_wrong_outcome_is_refused()
    ensures memories { (plan : Plan) (w v : WiredState) (d e : DeskState)
        → (memories v ≡ effects plan.part (items plan) (memories w) → ⊥) → SessionOverWire plan w v d e 0 → ⊥ }
    ensures outputs { (plan : Plan) (w v : WiredState) (d e : DeskState)
        → (ChangesRecord (after_events (expected_run plan (memories w)).output_events) d e → ⊥)
        → SessionOverWire plan w v d e 0 → ⊥ }
    ensures silence { (plan : Plan) (w v : WiredState) (d e : DeskState) (status : ℕ)
        → frames (sent v.transcript) ≡ [] → (memories v ≡ memories w → ⊥) → SessionOverWire plan w v d e status → ⊥ }
    ensures frames { (plan : Plan) (w v : WiredState) (d e : DeskState) (status : ℕ) (weight : List ℕ → ℕ)
        → 4 * sum_by weight (flat_map (map body) (run_steps plan)) < sum_by weight
        (map body_of (frames (sent v.transcript)))
        → SessionOverWire plan w v d e status → ⊥ }
{}

/// States that a session over the emulated link does what it does over a perfect one, if few frames go wrong and no
/// device or allocation fails. At most three of any seven consecutive frames go wrong, and a reset counts as four. Of
/// allocations it is enough that the messages don't end with the out-of-memory line.
///
/// If such a plan erases and verifies, and its comparisons agree on a chip of 00 and on one of FF, its status is 0. The
/// chip then holds its images, whatever it held before.
pub fn a_sound_run_is_its_expected_run()
    ensures expected_run { (plan : Plan) (w v : WiredState) (d e : Record) (a b : ℕ × ℕ) (status : ℕ)
        → AtMostThreeBadOfSeven (exchanges_of_fates w.wire.fates) → IsSound (devices (wired_link w) (keeping d a))
        (devices (wired_link v) (keeping e b))
        → (EndWithLine (cause_line AllocationFailed) e.messages → ⊥)
        → OverAnyWire plan w v (keeping d a) (keeping e b) status
        → IsExpectedRun plan (memories w) (memories v) (outputs (events_over plan v)) status
        × ChangesRecord (after_events (outputs (events_over plan v))) (keeping d a) (keeping e b) }
    ensures images { (plan : Plan) (w v : WiredState) (d e : Record) (a b : ℕ × ℕ) (status : ℕ)
        → AtMostThreeBadOfSeven (exchanges_of_fates w.wire.fates) → IsSound (devices (wired_link w) (keeping d a))
        (devices (wired_link v) (keeping e b))
        → (EndWithLine (cause_line AllocationFailed) e.messages → ⊥)
        → plan.switches.no_verify ≡ false → has_erase (items plan) ≡ true → AgreesOnTwoChips plan
        → OverAnyWire plan w v (keeping d a) (keeping e b) status
        → (status ≡ 0) × IsWritten plan.part (asked_items plan) (memories w) (memories v) }
{}

/// States that no run of `-p m328p` with the replies of the worked example has status 1, other frames or other lines,
/// unless it stops.
// Proof: `another_status`, `another_frame` and `another_line` (Outcomes/Refused).
pub fn a_worked_run_has_one_outcome()
    ensures status { (transcript : Transcript) (a b : ℕ) (d e : DeskState)
        → heard transcript ≡ worked_replies → IsRun worked_settings (devices (link_state [] a) d)
        (devices (link_state transcript b) e) 1
        → ⊥ }
    ensures frames { (transcript : Transcript) (a b : ℕ) (d e : DeskState) (status : ℕ)
        → heard transcript ≡ worked_replies → (sent transcript ≡ worked_frames → ⊥)
        → IsRun worked_settings (devices (link_state [] a) d) (devices (link_state transcript b) e) status → ⊥ }
    ensures lines { (transcript : Transcript) (a b : ℕ) (d e : DeskState) (status : ℕ)
        → heard transcript ≡ worked_replies → (ChangesRecord (after_events worked_lines) d e → ⊥)
        → IsRun worked_settings (devices (link_state [] a) d) (devices (link_state transcript b) e) status → ⊥ }
{}

/// States that one forged frame can end a comparison of a fuse with status 0 although the chip's fuse differs. Over a
/// tape with one, comparing the low fuse with E2 ends with status 0 whatever the chip has. For a chip with another fuse
/// the promise fails. A link that forges no frame can't give this tape.
// Proof: `forged_run_succeeds` and `promise_void` (Lines/MadeFrame), and `over_bytes` (AnyLink).
pub fn a_forged_frame_voids_the_promise()
    ensures ends { (played (session fuse_plan) 1 forged_replies).outcome ≡ Some (0, 8, []) }
    ensures void { (p q : Programmer) (exchanges : List Exchange) (bytes : List ℕ) (events : List (Event OutputEvent))
        → (p.chip.lfuse ≡ 0xE2 → ⊥) → WholeSessionOverExchanges fuse_plan p q exchanges bytes events 0 → ⊥ }
    ensures made { (s : Chip) (got : List ℕ) (later : List (List ℕ)) (executions : List Execution)
        → IsSoundChip s → s.part ≡ fuse_plan.part → (s.lfuse ≡ 0xE2 → ⊥)
        → ReceivedSentFrames got later (frames (bytes_sent (played (session fuse_plan) 1 forged_replies).events))
        executions
        → ForgesNoFrame device (session fuse_plan) 1 forged_replies (fresh_programmer s) executions [] → ⊥ }
{}
