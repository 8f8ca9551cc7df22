//! Laws of running the same run again, and of plans that succeed whatever the chip held.
#![tactic(auto)]

ghost use Rattle.std.specs.Prelude.{◌≡◌, ℕ, true, take, All};
ghost use Rattle.avr_part.specs.Part.{IsPart};
ghost use Rattle.avr_plan.specs.Plan.{Plan, IsFitted};
ghost use Rattle.stk_emu.specs.Effect.{Memories, erase_keeps_eeprom, effects};
ghost use Rattle.stk_emu.specs.Settled.{FitsPart};
ghost use Rattle.avr_laws.specs.Again.{ItemsKeepEeprom, AgreesOnTwoChips, RunRepairs};
ghost use Rattle.avr_tool.specs.ComparisonsAgree.{ComparisonsAgree};
ghost use Rattle.avr_tool.specs.ExpectedRun.{expected_run};
ghost use Rattle.avr_tool.specs.Items.{items, has_erase};
ghost use Rattle.avr_tool.specs.Outcome.{write_operations, HasFirstOperations, IsDone};

/// States that a plan's first write operations and then the whole plan leave the same memories as the plan alone,
/// unless the plan switches EESAVE off. So if the plan erases and the chip keeps EEPROM at an erase, each byte that the
/// plan writes to the high fuse must keep it too.
pub fn a_second_run_repairs_the_first()
    ensures { (plan : Plan) (k : ℕ) (m : Memories) → IsPart plan.part → All (IsFitted plan.part) plan.tasks
        → FitsPart plan.part m
        → (has_erase (items plan) ≡ true → erase_keeps_eeprom plan.part m ≡ true
        → ItemsKeepEeprom plan.part (items plan))
        → effects plan.part (items plan) (effects plan.part (take k (write_operations plan)) m)
        ≡ effects plan.part (items plan) m }
{}

/// States that the comparisons of a plan that erases agree on every chip, if they agree on one full of 00 and on one
/// full of FF. The plan's run over a perfect link then has status 0, whatever the chip held. `needed`: comparisons that
/// agree on every chip agree on these two.
pub fn what_agrees_on_two_chips_agrees_on_all()
    ensures agrees { (plan : Plan) (m : Memories) → FitsPart plan.part m
        → has_erase (items plan) ≡ true → AgreesOnTwoChips plan → ComparisonsAgree plan m }
    ensures status { (plan : Plan) (m : Memories) → FitsPart plan.part m
        → has_erase (items plan) ≡ true → AgreesOnTwoChips plan
        → (expected_run plan m).status ≡ 0 }
    ensures needed { (plan : Plan) → ((m : Memories) → FitsPart plan.part m → ComparisonsAgree plan m)
        → AgreesOnTwoChips plan }
{}

/// States that after a broken-off run the same run over a perfect link ends with status 0 and repairs the chip, under
/// conditions on plan and fuse. It leaves what one run would have left. The plan erases, and its comparisons agree on a
/// chip full of 00 and on one full of FF. A write to the high fuse is as in [`a_second_run_repairs_the_first`]. `done`:
/// every second run with status 0 leaves what one run would have left, also if the plan doesn't erase.
pub fn the_same_run_again_repairs()
    ensures touched { (plan : Plan) (before after : Memories) → IsPart plan.part → All (IsFitted plan.part) plan.tasks
        → FitsPart plan.part before
        → has_erase (items plan) ≡ true → AgreesOnTwoChips plan
        → (erase_keeps_eeprom plan.part before ≡ true → ItemsKeepEeprom plan.part (items plan))
        → HasFirstOperations plan before after → RunRepairs plan before after }
    ensures write_operations { (plan : Plan) (k : ℕ) (m : Memories) → IsPart plan.part
        → All (IsFitted plan.part) plan.tasks
        → FitsPart plan.part m
        → has_erase (items plan) ≡ true → AgreesOnTwoChips plan
        → (erase_keeps_eeprom plan.part m ≡ true → ItemsKeepEeprom plan.part (items plan))
        → RunRepairs plan m (effects plan.part (take k (write_operations plan)) m) }
    ensures done { (plan : Plan) (before left after : Memories) → IsPart plan.part → All (IsFitted plan.part) plan.tasks
        → FitsPart plan.part before
        → (has_erase (items plan) ≡ true → erase_keeps_eeprom plan.part before ≡ true
        → ItemsKeepEeprom plan.part (items plan))
        → HasFirstOperations plan before left → IsDone plan left after → after ≡ effects plan.part (items plan) before }
{}
