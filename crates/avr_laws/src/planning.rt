//! Laws of planning, over the definitions alone.
ghost use Rattle.std.specs.Prelude.{◌≡◌, ◌++◌, ◌↔◌, ℕ, length, List, [], All, Option, Some, None, Ok, Err, codes};
ghost use Rattle.avr_plan.specs.declared.settings.Settings.{Settings};
ghost use Rattle.ghosts.specs.Failures.{NoFailureCounted};
ghost use Rattle.avr_io.specs.Record.{Record, showing, Bytes};
ghost use Rattle.avr_io.specs.declared.record.Opening.{Opening};
ghost use Rattle.avr_io.specs.Lines.{memory_line};
ghost use Rattle.avr_desk.specs.Memory.{Stock, content_of_name};
ghost use Rattle.avr_laws.specs.AskedPlan.{FileHolds, IsAsked};
ghost use Rattle.avr_laws.specs.AskedSettings.{AsksFor};
ghost use Rattle.avr_laws.specs.ChipFound.{IsChipInFile};
ghost use Rattle.avr_laws.specs.HeldImage.{HoldsImageAs, HoldsValues};
ghost use Rattle.avr_laws.specs.HeldParts.{HoldsParts};
ghost use Rattle.avr_laws.specs.Kept.{PlanAgrees};
ghost use Rattle.avr_laws.specs.FilesRead.{AreTrueOpenings, lines_in, planned_from_files};
ghost use Rattle.avr_laws.specs.OnlyReading.{OnlyReadsAndPrints};
ghost use Rattle.avr_plan.specs.Command.{avrstk, settings_from_arguments};
ghost use Rattle.avr_plan.specs.Planning.{planned};
ghost use Rattle.clap.specs.Words.{first_of, matches_of};
ghost use Rattle.avr_plan.specs.AllocationPoints.{AtAllocatingUpdate};
ghost use Rattle.avr_io.specs.StageRuns.{RunsStage, StageRefused};
ghost use Rattle.avr_io.specs.Stage.{Produced, NotReadToEnd, all_events_of};
ghost use Rattle.avr_plan.specs.Plan.{Plan, IsFitted};
ghost use Rattle.avr_plan.specs.ImageFile.{image_of_file};
ghost use Rattle.avr_image.specs.Values.{image_of_values};
ghost use Rattle.avr_part.specs.ChipFile.{chip_file_size, state_from_file};
ghost use Rattle.avr_part.specs.Part.{Part};
ghost use Rattle.avr_part.specs.PartFile.{parts_of};
ghost use Rattle.avr_part.specs.State.{ChipState};
ghost use Rattle.avr_records.specs.declared.kind.Ending.{Ending};
ghost use Rattle.avr_records.specs.declared.kind.Found.{Found};
ghost use Rattle.avr_tool.specs.ComparisonsAgree.{ComparisonsAgree};
ghost use Rattle.stk_emu.specs.Effect.{Memories};

/// States that planning only opens files for reading and prints lines, whatever the files give. Nothing is created,
/// written or output. By its type a stage has no link, so it sends nothing.
pub fn a_plan_only_reads_and_warns()
    ensures { (s : Settings) (openings : List Opening) → OnlyReadsAndPrints (all_events_of (planned s openings)) }
{}

/// States that if planning makes no plan and no file or stream failed, it reports the reason, or that memory ran out.
/// The reason is the refusal of `planned`, with its line. In the other case the messages end with the out-of-memory
/// line.
pub fn a_sound_plan_is_refused_aloud()
    ensures { (s : Settings) (before after : Record) (k l m n status : ℕ) → NoFailureCounted k l
        → ((prefix : Bytes) → after.messages ≡ prefix ++ memory_line → ⊥)
        → RunsStage (AtAllocatingUpdate s) (planned s) (showing before k m) (showing after l n) (Err status)
        → StageRefused (planned s) (showing before k m) (showing after l n) }
{}

/// States that planning gives the same result as over the whole files, if each opening gave what its file held, to the
/// end or past its limit. The printed lines are the same, too.
pub fn a_plan_is_of_whole_files()
    ensures { (s : Settings) (stock : Stock) (openings : List Opening)
        → AreTrueOpenings stock (planned s openings).output_events
        → ((planned s openings).stage_outcome ≡ NotReadToEnd → ⊥)
        → ((planned_from_files s stock).stage_outcome ≡ (planned s openings).stage_outcome)
        × (lines_in (all_events_of (planned_from_files s stock)) ≡ lines_in (all_events_of (planned s openings))) }
{}

/// States that each image of a plan has the size of its memory, and each memory that the plan writes can be written.
pub fn a_plan_fits_its_part()
    ensures { (s : Settings) (openings : List Opening) (plan : Plan)
        → (planned s openings).stage_outcome ≡ Produced plan → All (IsFitted plan.part) plan.tasks }
{}

/// States that a plan has the part, the tasks and the switches that settings and files ask for, if reading gave what
/// the files held.
pub fn a_plan_is_the_one_asked_for()
    ensures { (s : Settings) (stock : Stock) (openings : List Opening) (plan : Plan)
        → AreTrueOpenings stock (planned s openings).output_events → (planned s openings).stage_outcome ≡ Produced plan
        → IsAsked s (FileHolds (content_of_name stock [])) [] plan }
{}

/// States that the promise's own definitions agree with what runs do: about settings without `--serve`, values, image
/// files, part files, chip files and comparisons.
pub fn what_is_promised_is_what_runs_do()
    ensures settings { (words : List Bytes) (settings : Settings) → AsksFor (matches_of avrstk words) settings
        ↔ ((Ok settings ≡ settings_from_arguments words)
        × (first_of (codes "serve") (matches_of avrstk words) ≡ None)) }
    ensures values { (text : Bytes) (size : ℕ) (image : List (Option ℕ)) → HoldsValues text size image
        ↔ (image_of_values text size ≡ Ok image) }
    ensures images { (kind : Found) (text : Bytes) (size : ℕ) (image : List (Option ℕ))
        → HoldsImageAs kind text size image
        ↔ ((ending : Ending) × (image_of_file kind text size ≡ Ok (image, ending))) }
    ensures parts { (text : Bytes) (parts : List Part) → HoldsParts text parts ↔ (parts_of text ≡ Ok parts) }
    ensures chips { (part : Part) (bytes : Bytes) (chip : ChipState) → IsChipInFile part (Some bytes) chip
        ↔ ((length bytes ≡ chip_file_size part) × (chip ≡ state_from_file part bytes)) }
    ensures comparisons { (plan : Plan) (m : Memories) → PlanAgrees plan m ↔ ComparisonsAgree plan m }
{}
