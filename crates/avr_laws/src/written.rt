//! Laws of what a plan writes, and what the memories hold after a verified run, address by address.
#![tactic(auto)]

ghost use Rattle.std.specs.Prelude.{◌≡◌, ◌↔◌, ◌<◌, ◌++◌, ◌∷◌, [], ℕ, false, List, All, length, map, slice_index};
ghost use Rattle.avr_plan.specs.declared.settings.Switches.{Switches};
ghost use Rattle.avr_image.specs.Image.{HoldsBytes};
ghost use Rattle.avr_part.specs.Part.{Part, IsPart};
ghost use Rattle.avr_part.specs.declared.part.Mem.{Mem};
ghost use Rattle.avr_part.specs.declared.part.Mem.TheVariants.{Flash};
ghost use Rattle.avr_plan.specs.Plan.{Plan, IsFitted};
ghost use Rattle.avr_plan.specs.declared.planned.Task.{Task};
ghost use Rattle.stk_emu.specs.Effect.{Image, Item, Write, Memories, effects, memory_in};
ghost use Rattle.stk_emu.specs.StepData.{HoldsImage};
ghost use Rattle.stk_emu.specs.Settled.{FitsPart};
ghost use Rattle.avr_tool.specs.ComparisonsAgree.{ComparisonsAgree};
ghost use Rattle.avr_tool.specs.ExpectedRun.{expected_run};
ghost use Rattle.avr_tool.specs.Items.{asked_items, items};
ghost use Rattle.avr_tool.specs.Outcome.{write_operations, HasFirstOperations, IsDone};
ghost use Rattle.avr_tool.specs.Written.{IsWritten, written_to};
ghost use Rattle.avr_laws.specs.WrittenBytes.{IsMadeByImages, WriteTakesEffect};

/// States that a plan erases if an erase is due, and then writes the images of its tasks in order; a dry run does
/// neither.
pub fn a_plan_writes_what_its_tasks_write()
    ensures { (plan : Plan) → items plan ≡ asked_items plan }
{}

/// States that a run over a perfect link has status 0 exactly if its comparisons find no difference. Then it has done
/// all that its plan writes.
pub fn an_expected_run_succeeds_if_it_agrees()
    ensures status { (plan : Plan) (m : Memories) → (expected_run plan m).status ≡ 0 ↔ ComparisonsAgree plan m }
    ensures memories { (plan : Plan) (m : Memories) → ComparisonsAgree plan m
        → (expected_run plan m).memories ≡ effects plan.part (items plan) m }
{}

/// States that after a verified run with status 0 each memory holds the images written to it, later over earlier.
/// Nothing else changed except what an erase erased. A further run that compares memories with these images succeeds
/// over a good link.
// Proof: avr_tool's `run_written` and `shown_succeeds` (Memories/VerifiedRuns).
pub fn a_verified_run_leaves_its_images()
    ensures images { (plan : Plan) (before after : Memories)
        → IsPart plan.part → All (IsFitted plan.part) plan.tasks → FitsPart plan.part before
        → plan.switches.no_verify ≡ false → IsDone plan before after
        → IsWritten plan.part (asked_items plan) before after }
    ensures again { (plan : Plan) (before after : Memories) (s : Switches) (mems : List Mem)
        → IsPart plan.part → All (IsFitted plan.part) plan.tasks → FitsPart plan.part before
        → plan.switches.no_verify ≡ false → IsDone plan before after → s.erase ≡ false
        → (expected_run (record {
          part = plan.part;
          tasks = map (λ mem. Task.Verify mem (written_to plan.part mem (asked_items plan)))
              mems;
          switches = s;
        }) after).status ≡ 0 }
{}

/// States that a byte of flash is the byte before, or an erase's FF, AND the bytes of none or more images written
/// there. This holds whatever was done. After a run that did its whole plan these are the plan's images; after any
/// other run they are those of its write operations.
pub fn a_byte_of_flash_is_made_by_images()
    ensures items { (part : Part) (items : List Item) (m : Memories) (addr : ℕ) → addr < length m.flash
        → IsMadeByImages items addr (slice_index m.flash addr) (slice_index (effects part items m).flash addr) }
    ensures done { (plan : Plan) (before after : Memories) (addr : ℕ) → addr < length before.flash
        → IsDone plan before after
        → IsMadeByImages (items plan) addr (slice_index before.flash addr) (slice_index after.flash addr) }
    ensures touched { (plan : Plan) (before after : Memories) (addr : ℕ) → addr < length before.flash
        → HasFirstOperations plan before after
        → IsMadeByImages (write_operations plan) addr (slice_index before.flash addr)
        (slice_index after.flash addr) }
{}

/// States that an image reported as written is in its memory, under conditions on the chip's lock, and on what the plan
/// erased and wrote before.
/// EEPROM and fuses: the chip was not locked. Flash: moreover, the same plan erased it before, and wrote no other image
/// at the same addresses. The lock: the plan did the same for it. Otherwise `written` means only that each command got
/// the status OK.
// Proof: `there` (Memories/WrittenThere).
pub fn what_is_written_is_there()
    ensures { (part : Part) (before now : Memories) (mem : Mem) (image : Image) (first : List Item)
        → HoldsBytes image → now ≡ effects part (first ++ Write mem image ∷ []) before
        → WriteTakesEffect mem image first (effects part first before) → HoldsImage image (memory_in part mem now) }
{}
