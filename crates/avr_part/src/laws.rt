//! Laws of the memories and the chip, over their definitions alone.
ghost use Rattle.std.specs.Prelude.{◌≡◌, ℕ, List, [], ◌∷◌, length, Some, Ok, true, ◌≢◌};
ghost use Rattle.avr_part.specs.declared.instruction.Fuse.{Fuse};
ghost use Rattle.avr_part.specs.declared.part.Mem.{Mem};
ghost use Rattle.avr_part.specs.Mem.{name_of, memory_named};
ghost use Rattle.avr_part.specs.declared.instruction.Instruction.{Instruction};
ghost use Rattle.avr_part.specs.State.{ChipState, with_empty_buffers, with_erased, with_flash_page, with_eeprom_page, with_fuse, with_lock, is_locked, after_instruction, spi_of};
ghost use Rattle.avr_part.specs.Part.{Part};
ghost use Rattle.avr_part.specs.Sound.{IsSoundChip};
ghost use Rattle.avr_part.specs.ChipFile.{chip_file, chip_file_size, chip_from_file, state_from_file};
ghost use Rattle.avr_part.specs.Laws.{KeepsMemories};

/// A memory is found by its own name and by no other text.
#[tactic(auto, using(crate::proofs::MemoryNames::found_by_name, crate::proofs::MemoryNames::name_of_found))]
pub fn a_memory_is_found_by_its_name()
    ensures own { (m : Mem) → memory_named (name_of m) ≡ Some m }
    ensures only { (text : List ℕ) (m : Mem) → memory_named text ≡ Some m → text ≡ name_of m }
{}

/// A second chip erase in a row changes nothing more.
#[tactic(auto, using(crate::proofs::Twice::erased_twice))]
pub fn erased_twice_is_erased_once()
    ensures { (s : ChipState) → with_erased (with_erased s) ≡ with_erased s }
{}

/// Writing a flash page again from the same buffer changes nothing more, also if the chip is locked.
#[tactic(auto, using(crate::proofs::Twice::flash_page_twice))]
pub fn flash_page_twice_is_once()
    ensures { (word : ℕ) (s : ChipState)
        → with_flash_page word (record (with_flash_page word s) { flash_buffer = s.flash_buffer })
        ≡ with_flash_page word s }
{}

/// Writing an EEPROM page again from the same buffer changes nothing more, also if the chip is locked.
#[tactic(auto, using(crate::proofs::Twice::eeprom_page_twice))]
pub fn eeprom_page_twice_is_once()
    ensures { (address : ℕ) (s : ChipState)
        → with_eeprom_page address (record (with_eeprom_page address s) { eeprom_buffer = s.eeprom_buffer })
        ≡ with_eeprom_page address s }
{}

/// Writing a fuse again with the same byte changes nothing more, also if the chip is locked.
#[tactic(auto, using(crate::proofs::Twice::fuse_twice))]
pub fn fuse_twice_is_once()
    ensures { (f : Fuse) (byte : ℕ) (s : ChipState) → with_fuse f byte (with_fuse f byte s) ≡ with_fuse f byte s }
{}

/// Writing the lock again with the same byte changes nothing more.
#[tactic(auto, using(crate::proofs::Twice::lock_twice))]
pub fn lock_twice_is_once()
    ensures { (byte : ℕ) (s : ChipState) → with_lock byte (with_lock byte s) ≡ with_lock byte s }
{}

/// The instruction Programming Enable empties both page buffers and sets the extended address to 0.
pub fn enabling_empties_the_buffers()
    ensures { (c d : ℕ) (s : ChipState) → (spi_of (0xAC ∷ 0x53 ∷ c ∷ d ∷ []) s).1 ≡ with_empty_buffers s }
{}

/// While lock bit 0 is programmed, only a chip erase changes flash, EEPROM or a fuse.
pub fn a_locked_chip_keeps_its_memories()
    ensures { (i : Instruction) (s : ChipState)
        → is_locked s ≡ true → i ≢ Instruction.Erase → KeepsMemories s (after_instruction i s) }
{}

/// A written chip file reads back as the chip's memories, with empty buffers. A file of the part's length, read and
/// written again, is the same file.
#[tactic(auto, using(crate::proofs::ChipFiles::read_again, crate::proofs::ChipFiles::written_again))]
pub fn a_chip_file_is_read_again()
    ensures written { (p : Part) (bytes : List ℕ)
        → length bytes ≡ chip_file_size p → chip_file (state_from_file p bytes) ≡ bytes }
    ensures read { (s : ChipState)
        → IsSoundChip s → chip_from_file s.part (chip_file s) ≡ Ok (with_empty_buffers s) }
{}
