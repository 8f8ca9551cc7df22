//! Laws of runs; no code. Those that no contract here needs are in avr_laws.

ghost use Rattle.std.specs.Prelude.{◌≡◌, ◌⊎◌, ℕ, All};
ghost use Rattle.avr_plan.specs.declared.settings.Settings.{Settings as AnySettings};
ghost use Rattle.avr_io.specs.Fault.{CountsNeverFall};
ghost use Rattle.avr_io.specs.StageRuns.{StageCompleted};
ghost use Rattle.avr_io.specs.Record.{DeskState};
ghost use Rattle.avr_io.specs.Stage.{Produced};
ghost use Rattle.avr_part.specs.Sound.{IsSoundChip};
ghost use Rattle.avr_plan.specs.Plan.{Plan, IsFitted};
ghost use Rattle.avr_plan.specs.Planning.{planned};
ghost use Rattle.avr_session.specs.Run.{RunsSession, RunsSettings, StopsSession};
ghost use Rattle.avr_session.specs.Runs.{Devices, devices};
ghost use Rattle.avr_tool.specs.OverFaultyLink.{SessionOverWire};
ghost use Rattle.avr_tool.specs.Headline.{IsRun, IsStopped, IsPrefixOfRun};
ghost use Rattle.ghosts.specs.Preserves.{Preserves};
ghost use Rattle.stk_emu.specs.Wired.{WiredState, ComesOf, IsFresh, wired_link};
ghost use Rattle.stk_host.specs.Transcript.{heard};

/// States that what a run does is one function, `run`, of its settings, files and replies, unless it stopped. The same
/// holds of the session of a plan that was made, over the same openings. The counts of the desk's failures never fall.
// Proof: `is_run` and `session_is_run` (Runs/Joined).
pub fn a_run_is_one_function()
    ensures run { (s : AnySettings) (x : Devices) (between : DeskState) (y : Devices) (status : ℕ)
        → RunsSettings s x between y status → IsRun s x y status ⊎ IsStopped s x y status }
    ensures session { (s : AnySettings) (plan : Plan) (x : Devices) (between : DeskState) (y : Devices) (status : ℕ)
        (made : StageCompleted (planned s) x.desk between (Produced plan)) → RunsSession plan (devices x.link between) y
        status
        → CountsNeverFall between y.desk × (((r : IsRun s x y status) × (r.openings ≡ made.passed))
        ⊎ (StopsSession plan (devices x.link between) y × (status ≡ 1))) }
{}

/// States that a run that stopped, in planning or in its session, did a prefix of the whole run. Its reason fits the
/// place: the line or the file that failed was the next one. `one`: whole runs over the same openings and replies have
/// the same status.
// Proof: `stop_prefix` and `one_status` (Runs/Joined).
pub fn a_stop_is_a_prefix()
    ensures prefix { (s : AnySettings) (x y : Devices) (status : ℕ) → IsStopped s x y status → IsPrefixOfRun s x y }
    ensures one { (s : AnySettings) (h i j k : Devices) (m n : ℕ) (x : IsRun s h i m) (y : IsRun s j k n)
        → x.openings ≡ y.openings → heard x.during ≡ heard y.during → m ≡ n }
{}

/// States that over a wire (the emulated link) a session makes the plan's first write operations, and with status 0 all
/// of them. The chip is of the plan's part, the wire is new with any lawful fates, and the session ends in any way.
// Proof: `over_any_line` (WirePlays), by `over_exchanges` and `ends_over_exchanges` (OverExchanges).
pub fn a_session_over_a_wire()
    ensures { (plan : Plan) (before now : WiredState) (desk desk_now : DeskState) (status : ℕ)
        → IsFresh before → Preserves ComesOf before now
        → IsSoundChip before.wire.programmer.chip → before.wire.programmer.chip.part ≡ plan.part
        → All (IsFitted plan.part) plan.tasks
        → RunsSession plan (devices (wired_link before) desk) (devices (wired_link now) desk_now) status
        → SessionOverWire plan before now desk desk_now status }
{}
