//! Laws of links that lose, delay and damage frames.
#![tactic(auto)]

ghost use Rattle.std.specs.Prelude.{◌≡◌, true, ℕ, List, [], Bool, All};
ghost use Rattle.avr_plan.specs.declared.settings.Settings.{Settings};
ghost use Rattle.avr_io.specs.Stage.{Produced};
ghost use Rattle.avr_part.specs.Sound.{IsSoundChip};
ghost use Rattle.avr_plan.specs.Plan.{Plan};
ghost use Rattle.avr_plan.specs.Planning.{planned};
ghost use Rattle.avr_session.specs.Runs.{Devices};
ghost use Rattle.avr_session.specs.Session.{session};
ghost use Rattle.stk_frame.specs.Cut.{IsPiece, frames, is_good};
ghost use Rattle.stk_host.specs.Dialog.{Dialog};
ghost use Rattle.stk_host.specs.Transcript.{heard, sent};
ghost use Rattle.stk_emu.specs.Device.{device, after_frames};
ghost use Rattle.stk_emu.specs.Effect.{memories_of};
ghost use Rattle.stk_emu.specs.Programmer.{Programmer};
ghost use Rattle.stk_emu.specs.Exchange.{Execution};
ghost use Rattle.avr_tool.specs.Headline.{IsRun};
ghost use Rattle.avr_laws.specs.AnyTape.{ReceivedSentFrames, executions_by_arrival};
ghost use Rattle.avr_laws.specs.Damaged.{Arrived, Arrival, BringsReplies, tape_of_arrivals};
ghost use Rattle.avr_laws.specs.Kept.{HasGeometryOf, KeepsOnPart};
ghost use Rattle.avr_laws.specs.NoForgedFrame.{ForgesNoFrame};

/// States that a link to the emulated programmer forges no frame, under conditions, if it only loses or delays whole
/// frames and changes at most one byte of each. That byte isn't of the start, the size or the token, so the XOR is
/// wrong.
///
/// `programmer`: the good frames that arrive are those that arrived whole. `host`: at each command what comes are
/// replies to the last 256 frames sent and refusals, damaged or not, of fewer than 4,096 bytes up to the awaited reply.
// Proof: `arrived_came` and `brings_no_frame` (Lines/Damaged).
pub fn a_link_that_damages_one_byte_forges_no_frame<E, R>()
    ensures programmer { (sent : List (List ℕ)) (through : List Bool) (got : List ℕ) → All IsPiece sent
        → All (λ piece. is_good piece ≡ true) sent → Arrived sent through got
        → ReceivedSentFrames got [] sent (executions_by_arrival through) }
    ensures host { (d : Dialog E R) (n : ℕ) (come : List Arrival) (p : Programmer) (executions : List Execution)
        → BringsReplies device d n come p executions [] → ForgesNoFrame device d n (tape_of_arrivals come) p executions
        [] }
{}

/// States that with status 0 an emulated chip is as the plan makes it, under conditions, if the link only loses or
/// delays frames and changes at most one byte of each. If the run was verified, it holds the images. Of the frames
/// sent, in order, each arrived whole, damaged or not at all. The replies came as in
/// [`a_link_that_damages_one_byte_forges_no_frame`].
///
/// The chip has the sizes and pages of the plan's part, and EESAVE at the same bit of the high fuse. Its id and
/// signature may be others: the plan that was kept is the one for the chip's own part. Without `-F` status 0 means that
/// the chip has the signature of the plan's part.
// Proof: `over_damage` (Outcomes/OverDamage), by `kept` (Outcomes/Kept): such a link meets its condition.
pub fn over_a_link_that_damages_one_byte_status_0_means_the_images()
    ensures { (s : Settings) (plan : Plan) (before now : Devices) (r : IsRun s before now 0)
        → (planned s r.openings).stage_outcome ≡ Produced plan → before.link.transcript ≡ []
        → (p : Programmer) (got : List ℕ) (through : List Bool) (come : List Arrival)
        → IsSoundChip p.chip → HasGeometryOf plan.part p.chip.part
        → Arrived (frames (sent now.link.transcript)) through got → heard now.link.transcript ≡ tape_of_arrivals come
        → BringsReplies device (session plan) 1 come p (executions_by_arrival through) []
        → KeepsOnPart p.chip.part plan (memories_of p.chip)
        (memories_of (after_frames device (frames got) p).chip) before.desk.kept now.desk.kept }
{}
