ghost use Rattle.std.specs.Prelude.{◌≡◌, ℕ, false};
ghost use Rattle.avr_io.specs.Record.{Record};
ghost use Rattle.stk_host.specs.Transcript.{LinkState};
ghost use Rattle.avr_plan.specs.Plan.{Plan};
ghost use Rattle.avr_session.specs.Actions.{plan_allocates};
ghost use Rattle.avr_session.specs.Runs.{AllocationFailed, Devices, devices, cause_line};
ghost use Rattle.avr_session.specs.Run.{RunsSession};
ghost use Rattle.avr_session.specs.Session.{session};
ghost use Rattle.avr_session.specs.Stopping.{IsSound, EndWithLine, RanToStatus, keeping};

/// States that a session in which no device failed ran whole, if no out-of-memory line ends its messages or its plan
/// never allocates.
#[tactic(auto, using(crate::proofs::Runs::SoundDevices::sound_run, crate::proofs::Runs::SoundDevices::exact_run))]
pub fn a_sound_run_is_played()
    ensures played { (plan : Plan) (o p : LinkState) (before after : Record) (a b : ℕ × ℕ)
        (status : ℕ)
        → IsSound (devices o (keeping before a)) (devices p (keeping after b))
        → (EndWithLine (cause_line AllocationFailed) after.messages → ⊥)
        → RunsSession plan (devices o (keeping before a)) (devices p (keeping after b)) status
        → RanToStatus (session plan) (devices o (keeping before a)) (devices p (keeping after b)) status }
    ensures exact { (plan : Plan) (old new : Devices) (status : ℕ) → IsSound old new → plan_allocates plan ≡ false
        → RunsSession plan old new status → RanToStatus (session plan) old new status }
{}
