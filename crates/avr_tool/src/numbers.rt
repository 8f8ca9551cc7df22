//! The numbers of files, frames and runs, in one law.

ghost use Rattle.std.specs.Prelude.{◌≡◌, ◌≤◌, ◌==◌, ◌&&◌, ◌∷◌, ◌+◌, ◌/◌, ◌%◌, [], List, ℕ, filter, length, nat_le, nat_lt, not, Err, if◌then◌else◌};
ghost use Rattle.avr_plan.specs.Settings.{updates_from, updates_of};
ghost use Rattle.avr_plan.specs.declared.settings.SettingsFault.TheVariants.{TooMany};
ghost use Rattle.avr_plan.specs.declared.update.Format.{Format as AnyFormat};
ghost use Rattle.avr_io.specs.Lines.{too_long_line};
ghost use Rattle.avr_tool.specs.Loading.{chip_or_line, checked_chip};
ghost use Rattle.avr_tool.specs.declared.served_run.TheConstants.{READS};
ghost use Rattle.avr_part.specs.Part.{Part as PartData};
ghost use Rattle.avr_part.specs.PartFile.{parts_of};
ghost use Rattle.avr_plan.specs.ImageFile.{image_within};
ghost use Rattle.avr_plan.specs.Lines.{bad_file_pieces, part_file_pieces};
ghost use Rattle.avr_plan.specs.Planning.{checked_image, checked_parts, or_line};
ghost use Rattle.avr_records.specs.Record.{longest};
ghost use Rattle.stk_emu.specs.Lawful.{IsLawful};
ghost use Rattle.stk_emu.specs.Programmer.{Programmer, block_response, flash_reads, if_programming, read_flash, with_address_moved};
ghost use Rattle.stk_frame.specs.Cut.{cut, is_good};
ghost use Rattle.stk_frame.specs.declared.command.ReadBlock.{ReadBlock};
ghost use Rattle.stk_frame.specs.declared.protocol.TheConstants.{MESSAGE_START, TOKEN, LARGEST_BODY, LARGEST_FRAME, EXTENDED_ADDRESS};
ghost use Rattle.stk_frame.specs.declared.protocol.TheConstants.{CMD_SIGN_ON, CMD_SET_PARAMETER, CMD_GET_PARAMETER, CMD_LOAD_ADDRESS, CMD_ENTER_PROGMODE_ISP, CMD_LEAVE_PROGMODE_ISP, CMD_CHIP_ERASE_ISP, CMD_PROGRAM_FLASH_ISP, CMD_READ_FLASH_ISP, CMD_PROGRAM_EEPROM_ISP, CMD_READ_EEPROM_ISP, CMD_PROGRAM_FUSE_ISP, CMD_READ_FUSE_ISP, CMD_PROGRAM_LOCK_ISP, CMD_READ_LOCK_ISP, CMD_READ_SIGNATURE_ISP, CMD_READ_OSCCAL_ISP, CMD_SPI_MULTI};
ghost use Rattle.stk_frame.specs.declared.protocol.TheConstants.{STATUS_CMD_OK, STATUS_CMD_TOUT, STATUS_RDY_BSY_TOUT, STATUS_SET_PARAM_MISSING, STATUS_CMD_FAILED, STATUS_CKSUM_ERROR, STATUS_CMD_UNKNOWN, ANSWER_CKSUM_ERROR};
ghost use Rattle.stk_host.specs.Places.{flash_address};
ghost use Rattle.stk_host.specs.Tape.{reply_byte_limit};

/// States the limits of files, frames and runs, and the bytes of commands and statuses (AVR068).
pub fn the_numbers_are()
    ensures line { longest ≡ 600 }
    ensures image_file { (file : List ℕ) (format : AnyFormat) (size : ℕ) (bytes : List ℕ)
        → checked_image file format size bytes
        ≡ or_line (bad_file_pieces file) (image_within 4194304 format bytes size) }
    ensures part_file { (file bytes : List ℕ) → checked_parts file bytes ≡
        (if nat_le (length bytes) 65536 then or_line (λ bad. part_file_pieces file bad.fault) (parts_of bytes)
        else Err (too_long_line file 65536)) }
    ensures chip_file { (part : PartData) (file bytes : List ℕ) → checked_chip part file bytes ≡
        (if nat_le (length bytes) 4194304 then chip_or_line part file bytes else Err (too_long_line file 4194304)) }
    ensures updates { (texts : List (List ℕ)) → updates_of texts ≡
        (if nat_lt 16 (length texts) then Err TooMany else updates_from 1 texts) }
    ensures body { LARGEST_BODY ≡ 275 }
    ensures frame { LARGEST_FRAME ≡ 281 }
    ensures begins { MESSAGE_START ∷ TOKEN ∷ [] ≡ 0x1B ∷ 0x0E ∷ [] }
    ensures received { reply_byte_limit ≡ 4096 }
    ensures narrow { (part : PartData) (start : ℕ) → flash_address part start ≡
        (if nat_lt 131072 part.flash_size then start / 2 + EXTENDED_ADDRESS else start / 2) }
    ensures extended { EXTENDED_ADDRESS ≡ 2147483648 }
    ensures reads { READS ≡ 16777216 }
    // The limits of `block` and `noise` are private constants of stk_emu, so their definitions are unfolded here.
    ensures block { (f : ReadBlock) (p : Programmer) → read_flash f p ≡
        if_programming 0x14 p (not (f.count == 0) && f.count % 2 == 0 && nat_le f.count 272)
        (block_response 0x14 (flash_reads p.wide f.cmd1 p.address 0 f.count p.chip)
        (with_address_moved (f.count / 2) p)) }
    ensures noise { (noise : List ℕ) → IsLawful noise → length noise ≤ 2048 }
    ensures all_noise { (noise : List ℕ) → length noise ≤ 2048 → filter is_good (cut noise) ≡ [] → IsLawful noise }
    ensures commands { CMD_SIGN_ON ∷ CMD_SET_PARAMETER ∷ CMD_GET_PARAMETER ∷ CMD_LOAD_ADDRESS ∷ []
        ≡ 0x01 ∷ 0x02 ∷ 0x03 ∷ 0x06 ∷ [] }
    ensures modes { CMD_ENTER_PROGMODE_ISP ∷ CMD_LEAVE_PROGMODE_ISP ∷ CMD_CHIP_ERASE_ISP ∷ CMD_SPI_MULTI ∷ []
        ≡ 0x10 ∷ 0x11 ∷ 0x12 ∷ 0x1D ∷ [] }
    ensures blocks { CMD_PROGRAM_FLASH_ISP ∷ CMD_READ_FLASH_ISP ∷ CMD_PROGRAM_EEPROM_ISP ∷ CMD_READ_EEPROM_ISP ∷ []
        ≡ 0x13 ∷ 0x14 ∷ 0x15 ∷ 0x16 ∷ [] }
    ensures fuses { CMD_PROGRAM_FUSE_ISP ∷ CMD_READ_FUSE_ISP ∷ CMD_PROGRAM_LOCK_ISP ∷ CMD_READ_LOCK_ISP ∷ []
        ≡ 0x17 ∷ 0x18 ∷ 0x19 ∷ 0x1A ∷ [] }
    ensures signature { CMD_READ_SIGNATURE_ISP ∷ CMD_READ_OSCCAL_ISP ∷ [] ≡ 0x1B ∷ 0x1C ∷ [] }
    ensures statuses { STATUS_CMD_OK ∷ STATUS_CMD_TOUT ∷ STATUS_RDY_BSY_TOUT ∷ STATUS_SET_PARAM_MISSING
        ∷ STATUS_CMD_FAILED ∷ STATUS_CKSUM_ERROR ∷ STATUS_CMD_UNKNOWN ∷ []
        ≡ 0x00 ∷ 0x80 ∷ 0x81 ∷ 0x82 ∷ 0xC0 ∷ 0xC1 ∷ 0xC9 ∷ [] }
    ensures refusal { ANSWER_CKSUM_ERROR ≡ 0xB0 }
{}
