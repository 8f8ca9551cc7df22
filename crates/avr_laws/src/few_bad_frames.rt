//! Laws of a run over a link on which few frames go wrong.
#![tactic(auto)]

ghost use Rattle.std.specs.Prelude.{◌≡◌, ◌≤◌, ◌*◌, ℕ, List, All};
ghost use Rattle.avr_part.specs.Part.{IsPart};
ghost use Rattle.avr_plan.specs.Plan.{Plan, IsFitted};
ghost use Rattle.avr_session.specs.Session.{session};
ghost use Rattle.stk_host.specs.Bound.{commands_in};
ghost use Rattle.stk_host.specs.Dialog.{Done};
ghost use Rattle.stk_emu.specs.DialogOverExchanges.{state_after, outputs_after};
ghost use Rattle.stk_emu.specs.Device.{device};
ghost use Rattle.stk_emu.specs.Effect.{Memories, memories_of};
ghost use Rattle.avr_laws.specs.FewBadFrames.{AtMostThreeBadOfSeven};
ghost use Rattle.stk_emu.specs.Programmer.{Programmer};
ghost use Rattle.stk_emu.specs.Settled.{HasMemories, FitsPart};
ghost use Rattle.stk_emu.specs.Exchange.{Exchange};
ghost use Rattle.avr_session.specs.PlanSteps.{run_steps};
ghost use Rattle.avr_tool.specs.ExpectedRun.{expected_run};

/// States that over a link that forges no frame a session does what it would do over a perfect link, if at most three
/// of any seven consecutive frames go wrong. A restart of the programmer counts as four, and so does the end of the
/// link. The session ends after at most four frames for each command, with the expected run's output, status and
/// memories.
pub fn a_run_with_few_bad_frames_is_its_expected_run()
    ensures done { (plan : Plan) (m : Memories) (k : ℕ) (p : Programmer) (exchanges : List Exchange)
        → IsPart plan.part → All (IsFitted plan.part) plan.tasks → FitsPart plan.part m → HasMemories plan.part m p
        → AtMostThreeBadOfSeven exchanges
        → 4 * commands_in (run_steps plan) ≤ k → (state_after device k (session plan) p exchanges).dialog
        ≡ Done (expected_run plan m).status }
    ensures status { (plan : Plan) (m : Memories) (k status : ℕ) (p : Programmer) (exchanges : List Exchange)
        → IsPart plan.part → All (IsFitted plan.part) plan.tasks → FitsPart plan.part m → HasMemories plan.part m p
        → AtMostThreeBadOfSeven exchanges
        → (state_after device k (session plan) p exchanges).dialog ≡ Done status → status
        ≡ (expected_run plan m).status }
    ensures memories { (plan : Plan) (m : Memories) (k status : ℕ) (p : Programmer) (exchanges : List Exchange)
        → IsPart plan.part → All (IsFitted plan.part) plan.tasks → FitsPart plan.part m → HasMemories plan.part m p
        → AtMostThreeBadOfSeven exchanges
        → (state_after device k (session plan) p exchanges).dialog ≡ Done status
        → memories_of (state_after device k (session plan) p exchanges).programmer.chip
        ≡ (expected_run plan m).memories }
    ensures emits { (plan : Plan) (m : Memories) (k status : ℕ) (p : Programmer) (exchanges : List Exchange)
        → IsPart plan.part → All (IsFitted plan.part) plan.tasks → FitsPart plan.part m → HasMemories plan.part m p
        → AtMostThreeBadOfSeven exchanges
        → (state_after device k (session plan) p exchanges).dialog ≡ Done status
        → outputs_after device k (session plan) p exchanges ≡ (expected_run plan m).output_events }
{}
