//! Laws of runs over the emulator and its chip file.

ghost use Rattle.std.specs.Prelude.{◌≡◌, ℕ, false, [], Some};
ghost use Rattle.avr_plan.specs.declared.settings.Settings.{Settings};
ghost use Rattle.avr_desk.specs.Memory.{MemDeskState, Stock, memory_state, content_of_name};
ghost use Rattle.avr_io.specs.Named.{is_dash};
ghost use Rattle.avr_desk.specs.Truth.{HoldsTrue};
ghost use Rattle.avr_io.specs.Record.{Bytes, nothing_kept};
ghost use Rattle.avr_tool.specs.OverFaultyLink.{memories};
ghost use Rattle.avr_tool.specs.Emulated.{RunsOverEmulator};
ghost use Rattle.avr_laws.specs.ChipFound.{IsChipInFile, contents_held};
ghost use Rattle.avr_laws.specs.Promise.{Promised};
ghost use Rattle.avr_part.specs.ChipFile.{chip_file};

/// States that a run over the emulator begins with the chip in its file, or a fresh one if that doesn't exist, with
/// files in memory. The file is read as it was before the run, and has the part's length. With status 0 the run leaves
/// its chip there, unless the file's name is `-`, which is standard input.
// Proof: `chip_found` (ChipFile/Found) and `chip_left` (ChipFile/Left).
pub fn a_run_finds_and_leaves_the_chip_of_its_file()
    ensures finds { (settings : Settings) (file : Bytes) (stock : Stock) (old new : MemDeskState) (status : ℕ)
        → HoldsTrue stock new → (r : RunsOverEmulator settings file (memory_state old) (memory_state new) status)
        → IsChipInFile r.plan.part (contents_held stock old.kept file) r.chip }
    ensures leaves { (settings : Settings) (file : Bytes) (stock : Stock) (old new : MemDeskState) (status : ℕ)
        → is_dash file ≡ false → status ≡ 0
        → (r : RunsOverEmulator settings file (memory_state old) (memory_state new) status)
        → contents_held stock new.kept file ≡ Some (chip_file r.after.wire.programmer.chip) }
{}

/// States that after a run over the emulator with status 0 the chip file (not `-`) holds what the plan makes of its
/// chip, with files in memory and a new desk. The settings and files ask for the plan. The file held a chip of the
/// plan's part, or didn't exist, and then the chip was fresh. If the run was verified, the images are in its memories.
/// No other file has changed, except those that the plan reads into.
// Proof: `promised` (ChipFile/Promised). The plan is `plan_asked` (Plans/AskedPlan), the memories are
// avr_tool's `ends_over_exchanges` (OverExchanges), the other files are `stood_saved` (ChipFile/Others).
pub fn the_chip_file_holds_the_images()
    ensures { (settings : Settings) (file : Bytes) (stock : Stock) (old new : MemDeskState)
        → is_dash file ≡ false → old.kept ≡ nothing_kept → HoldsTrue stock new
        → RunsOverEmulator settings file (memory_state old) (memory_state new) 0
        → Promised settings file (content_of_name stock []) (contents_held stock new.kept) }
{}
