//! Laws of what a run leaves in a chip, reports and sends, over any link.
#![tactic(auto)]

ghost use Rattle.std.specs.Prelude.{◌≡◌, ◌*◌, ◌++◌, ℕ, List, [], All, Some, take};
ghost use Rattle.avr_plan.specs.declared.settings.Settings.{Settings};
ghost use Rattle.avr_io.specs.Record.{Bytes, DeskState};
ghost use Rattle.avr_io.specs.OutputEvents.{OutputEvent, IsPartOfEvent};
ghost use Rattle.avr_part.specs.Part.{IsPart};
ghost use Rattle.avr_plan.specs.Plan.{Plan, IsFitted};
ghost use Rattle.avr_session.specs.Actions.{actions};
ghost use Rattle.avr_session.specs.Runs.{Devices, devices};
ghost use Rattle.avr_session.specs.Session.{session};
ghost use Rattle.avr_session.specs.Stopping.{RanToStatus};
ghost use Rattle.stk_emu.specs.DialogOverExchanges.{state_after, outputs_after};
ghost use Rattle.stk_emu.specs.Device.{device};
ghost use Rattle.stk_emu.specs.Effect.{Memories, effects, memories_of};
ghost use Rattle.stk_emu.specs.Programmer.{Programmer, fresh_programmer};
ghost use Rattle.stk_emu.specs.Settled.{HasMemories, FitsPart};
ghost use Rattle.avr_tool.specs.Tallies.{Tallies};
ghost use Rattle.stk_emu.specs.Wired.{WiredState, ComesOf, IsFresh, wired_link};
ghost use Rattle.avr_tool.specs.Emulated.{RunsOverEmulator, new_wire};
ghost use Rattle.ghosts.specs.Preserves.{Preserves};
ghost use Rattle.stk_emu.specs.Exchange.{Exchange, Execution};
ghost use Rattle.avr_laws.specs.AnyTape.{ReceivedSentFrames, after_received_bytes, after_sent_frames, exchanges_on_tape};
ghost use Rattle.avr_tool.specs.Authentic.{RepliesAreAuthentic};
ghost use Rattle.avr_laws.specs.NoForgedFrame.{ForgesNoFrame};
ghost use Rattle.avr_part.specs.Sound.{IsSoundChip};
ghost use Rattle.avr_session.specs.Run.{RunsSession, StopsSession};
ghost use Rattle.stk_frame.specs.Cut.{frames};
ghost use Rattle.stk_host.specs.Play.{IsBytePrefixOf};
ghost use Rattle.stk_host.specs.Transcript.{sent, heard};
ghost use Rattle.stk_emu.specs.Wire.{exchanges_of_fates};
ghost use Rattle.stk_host.specs.Tape.{Tape};
ghost use Rattle.stk_host.specs.Dialog.{Done, Event, played, bytes_sent};
ghost use Rattle.stk_host.specs.Bound.{SendsAtMost, commands_in};
ghost use Rattle.avr_laws.specs.AnyLink.{EndsAsExpected, OverAnyWire, ReportsOverExchanges, WholeSessionOverExchanges, ReportsWereTrue};
ghost use Rattle.avr_session.specs.PlanSteps.{run_steps};
ghost use Rattle.avr_tool.specs.ExpectedRun.{expected_run};
ghost use Rattle.avr_tool.specs.ExpectedOutput.{FirstActionsOutput, IsExpectedOutput};
ghost use Rattle.avr_tool.specs.Completed.{operations_completed};
ghost use Rattle.avr_laws.specs.TrueReports.{ReportsTrue, IsTrueReport};
ghost use Rattle.avr_tool.specs.Outcome.{write_operations};
ghost use Rattle.avr_laws.specs.Sheet.{IsVouched, SuitsPlan};
ghost use Rattle.avr_laws.specs.Table.{IsProgrammer};

use super::any_programmer::AnyProgrammer;

/// States that at each moment the memories are what the plan's first write operations make, in order, over any link
/// that forges no frame. These are the completed ones, and perhaps one more. The programmer is the emulated one.
// Proof: avr_tool's `session_makes` (OverFaultyLink/WriteOperationOrder), by `makes_items`
// (OverFaultyLink/WriteOperations).
pub fn a_run_does_its_write_operations_in_order()
    ensures { (plan : Plan) (m : Memories) (p : Programmer) (exchanges : List Exchange)
        → IsPart plan.part → All (IsFitted plan.part) plan.tasks → FitsPart plan.part m → HasMemories plan.part m p
        → Tallies device (session plan) (operations_completed plan) (λ j q. memories_of q.chip
        ≡ effects plan.part (take j (write_operations plan)) m) p exchanges }
{}

/// States that a session sends at most four times as many frames as the steps of its plan have commands. This holds
/// whatever the link does, and also if the session breaks off.
pub fn a_run_sends_at_most_four_times_its_commands()
    ensures { (plan : Plan) → SendsAtMost IsPartOfEvent (4 * commands_in (run_steps plan)) (session plan) }
{}

/// States that each report of a run is true of the chip at that moment, whatever the status, at any programmer that
/// keeps the rows, if its chip has the plan's part. So each line about the chip can be trusted, also if the run failed
/// later. What was reported as written has been done to the chip, and what was verified is in it. What was read and
/// saved is what the chip has, and a reported difference exists. The line of a failed step and `done` say nothing of
/// the chip.
///
/// It holds along any exchanges, as over a link that forges no frame. The plan needs only rows that are vouched for.
// Proof: `reports_by_any` (Table/AnyStatus), by `session_reports` (Reports/Truth).
pub fn what_a_run_reports_is_true<T: AnyProgrammer>()
    ensures { (plan : Plan) (k : ℕ) (p : T.State) (exchanges : List Exchange)
        → IsPart T.part → T.part ≡ plan.part → All (IsFitted plan.part) plan.tasks
        → IsProgrammer T.part T.device T.view T.IsIn T.IsReady (IsVouched T.becomes T.part) → T.IsIn p
        → FitsPart T.part (T.view p) → SuitsPlan T.becomes plan (T.view p)
        → ReportsTrue T.device (λ q event. IsTrueReport plan (T.view p) (T.view q) event) k (session plan) p
        exchanges }
{}

/// States that at the emulated programmer all of [`what_a_run_reports_is_true`] holds, for any plan and any state of
/// the lock and the fuses.
pub fn what_a_run_reports_is_true_on_an_emulated_chip()
    ensures { (plan : Plan) (m : Memories) (k : ℕ) (p : Programmer) (exchanges : List Exchange)
        → IsPart plan.part → All (IsFitted plan.part) plan.tasks → FitsPart plan.part m → HasMemories plan.part m p
        → ReportsTrue device (λ q event. IsTrueReport plan m (memories_of q.chip) event) k (session plan) p
        exchanges }
{}

/// States that each report of a session over the emulated link, unless it was cut short, was true of the chip at that
/// moment. Only the last report of a session that stopped can be cut short.
pub fn what_was_reported_was_true()
    ensures played { (plan : Plan) (w v : WiredState) (d e : DeskState) (status : ℕ)
        → w.transcript ≡ [] → OverAnyWire plan w v d e status
        → (whole : RanToStatus (session plan) (devices (wired_link w) d) (devices (wired_link v) e) status)
        → ReportsWereTrue plan (fresh_programmer w.wire.programmer.chip) (exchanges_of_fates w.wire.fates)
        whole.1.events }
    ensures stopped { (plan : Plan) (w v : WiredState) (d e : DeskState) (status : ℕ)
        → w.transcript ≡ [] → OverAnyWire plan w v d e status
        → (stopped : StopsSession plan (devices (wired_link w) d) (devices (wired_link v) e))
        → ReportsWereTrue plan (fresh_programmer w.wire.programmer.chip) (exchanges_of_fates w.wire.fates)
        stopped.breaks.prefix.whole }
{}

/// States that a session outputs what it would output over a perfect link, up to a fault, if the link forges no frame.
/// At each moment its output so far is that of the expected run, or of its first actions, each of which ended. After
/// these at most the line of a failed step follows.
///
/// With a status the output is all of the expected run, with its status, or the output up to a failed step, with status
/// 1. The output of first actions is a prefix of the expected run's.
pub fn a_session_outputs_its_expected_run_up_to_a_fault()
    ensures moment { (plan : Plan) (m : Memories) (k : ℕ) (p : Programmer) (exchanges : List Exchange)
        → IsPart plan.part → All (IsFitted plan.part) plan.tasks → FitsPart plan.part m → HasMemories plan.part m p
        → IsExpectedOutput plan m (outputs_after device k (session plan) p exchanges) }
    ensures end { (plan : Plan) (m : Memories) (k status : ℕ) (p : Programmer) (exchanges : List Exchange)
        → IsPart plan.part → All (IsFitted plan.part) plan.tasks → FitsPart plan.part m → HasMemories plan.part m p
        → (state_after device k (session plan) p exchanges).dialog ≡ Done status
        → EndsAsExpected plan m (outputs_after device k (session plan) p exchanges) status }
    ensures prefix { (plan : Plan) (m : Memories) (output_events : List OutputEvent)
        → FirstActionsOutput plan.part plan.switches (actions plan) m output_events
        → (later : List OutputEvent) × ((expected_run plan m).output_events ≡ output_events ++ later) }
{}

/// States that a session over a new emulated link makes true reports and, up to a fault, those of a session over a
/// perfect link. The chip is of the plan's part, and the frames have any lawful fates. The premises are what avr_tool's
/// `drive_wired` and `run_emu` state of a call.
// Proof: `over_any_wire` and `emulated_wire` (AnyWire), by `ends_and_reports_over_exchanges` (ReportsOverExchanges).
pub fn a_session_over_a_wire_can_be_believed()
    ensures wire { (plan : Plan) (w v : WiredState) (d e : DeskState) (status : ℕ)
        → IsFresh w → Preserves ComesOf w v
        → IsSoundChip w.wire.programmer.chip → w.wire.programmer.chip.part ≡ plan.part
        → All (IsFitted plan.part) plan.tasks
        → RunsSession plan (devices (wired_link w) d) (devices (wired_link v) e) status
        → OverAnyWire plan w v d e status }
    ensures emulator { (settings : Settings) (file : Bytes) (old now : DeskState) (status : ℕ)
        → (r : RunsOverEmulator settings file old now status)
        → OverAnyWire r.plan (new_wire r.chip []) r.after r.loaded_desk r.played_desk r.session_status }
{}

/// States that a session over a link that forges no frame makes the plan's first write operations and true reports,
/// whatever state the emulated programmer is in. The link may lose, spoil, cut, delay and hold anything, and repeat
/// replies. Each command has an exchange: what was read in reply, and whether the programmer executed it or restarted.
/// All that the session does follows from its exchanges.
///
/// `bytes` states this in bytes. The programmer may have got any bytes whose good frames are some of those sent, in
/// order, each at most once: a frame that arrives twice is forged. On the tape that came back each good frame that the
/// host cuts is the reply to one of the last 256 frames sent, or a refusal.
///
/// `end` holds however a session ends, so that any prefix of its bytes was sent. The memories are those of its first
/// write operations. Its output is the expected run's, up to the line of a failed step.
// Proof: `over_any_line`, `over_bytes` and `over_any_end` (AnyLink), by `ends_and_reports_over_exchanges`
// (ReportsOverExchanges).
pub fn a_session_over_any_link()
    ensures exchanges { (plan : Plan) (p : Programmer) (executions : List Execution) (bytes : List ℕ)
        (tape left : Tape) (events : List (Event OutputEvent)) (status next : ℕ)
        → IsSoundChip p.chip → p.chip.part ≡ plan.part → All (IsFitted plan.part) plan.tasks
        → RepliesAreAuthentic device (session plan) 1 tape p executions
        → played (session plan) 1 tape ≡ record { events = events; outcome = Some (status, next, left) }
        → bytes_sent events ≡ bytes
        → WholeSessionOverExchanges plan p (after_sent_frames device (frames bytes) executions p)
        (exchanges_on_tape (session plan) 1 tape executions) bytes events status }
    ensures bytes { (plan : Plan) (p : Programmer) (got bytes : List ℕ) (later : List (List ℕ))
        (executions : List Execution)
        (tape left : Tape) (events : List (Event OutputEvent)) (status next : ℕ)
        → IsSoundChip p.chip → p.chip.part ≡ plan.part → All (IsFitted plan.part) plan.tasks
        → ReceivedSentFrames got later (frames bytes) executions → ForgesNoFrame device (session plan) 1 tape p
        executions []
        → played (session plan) 1 tape ≡ record { events = events; outcome = Some (status, next, left) }
        → bytes_sent events ≡ bytes
        → WholeSessionOverExchanges plan p (after_received_bytes device got later p)
        (exchanges_on_tape (session plan) 1 tape executions) bytes events status }
    ensures end { (plan : Plan) (p : Programmer) (executions : List Execution) (bytes : List ℕ) (tape : Tape)
        → IsSoundChip p.chip → p.chip.part ≡ plan.part → All (IsFitted plan.part) plan.tasks
        → RepliesAreAuthentic device (session plan) 1 tape p executions
        → IsBytePrefixOf bytes (bytes_sent (played (session plan) 1 tape).events)
        → ReportsOverExchanges plan p (after_sent_frames device (frames bytes) executions p)
        (exchanges_on_tape (session plan) 1 tape executions) bytes (played (session plan) 1 tape).events }
{}

/// States that a session over a new link that forges no frame makes some first ones of the plan's write operations, and
/// no others, also if it breaks off. These are the ones completed by what was received, and at most one more. The programmer is the emulated
/// one. The session's output is the expected run's, up to the line of a failed step. This holds also if the link fails.
// Proof: `over_any_run` (AnyLink); its write operations are avr_tool's `session_makes`
// (OverFaultyLink/WriteOperationOrder).
pub fn whatever_becomes_of_a_session_its_first_write_operations_were_done()
    ensures { (plan : Plan) (p : Programmer) (got : List ℕ) (later : List (List ℕ)) (executions : List Execution)
        (old new : Devices) (status : ℕ)
        → IsSoundChip p.chip → p.chip.part ≡ plan.part → All (IsFitted plan.part) plan.tasks
        → old.link.transcript ≡ [] → RunsSession plan old new status
        → ReceivedSentFrames got later (frames (sent new.link.transcript)) executions
        → ForgesNoFrame device (session plan) 1 (heard new.link.transcript) p executions []
        → ReportsOverExchanges plan p (after_received_bytes device got later p)
        (exchanges_on_tape (session plan) 1 (heard new.link.transcript) executions) (sent new.link.transcript)
        (played (session plan) 1 (heard new.link.transcript)).events }
{}
