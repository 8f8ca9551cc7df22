//! Blocks of EEPROM.

ghost use Rattle.std.specs.Prelude.{false, ◌≡◌, ◌<◌, ◌≤◌, ◌+◌, ◌++◌, length};
ghost use Rattle.stk_frame.specs.declared.protocol.TheConstants.{EXTENDED_ADDRESS, LARGEST_BODY};
ghost use Rattle.stk_emu.specs.Programmer.{after_instructions, eeprom_loads, page_writes, eeprom_reads};

use crate::programmer::Body;
use crate::spi::{at_address, byte_at};
use avr_part::Chip;

/// Sends an instruction for each byte of a block, which loads the page buffer or writes the byte.
pub(crate) fn load_bytes(chip: &mut Chip, command: u8, address: u32, bytes: &[u8])
    requires address { address < EXTENDED_ADDRESS }
    requires count { length bytes.now < 65536 }
    ensures { chip.new ≡ after_instructions (eeprom_loads command address 0 bytes.now) chip.old }
{
    for (i, byte) in bytes.iter().enumerate() {
        let at = byte_at(address, i as u16);
        chip.spi(at_address(command, at, *byte));
    }
}

/// Writes the page, if that is asked for.
pub(crate) fn write_page(chip: &mut Chip, command: u8, address: u32, is_asked: bool)
    ensures { chip.new ≡ after_instructions (page_writes false command address is_asked) chip.old }
{
    if is_asked {
        chip.spi(at_address(command, address, 0));
    }
}

/// Reads `count` bytes and appends them to `out`.
pub(crate) fn read(chip: &mut Chip, command: u8, address: u32, count: u16, out: &mut Body)
    requires address { address < EXTENDED_ADDRESS }
    requires room { length out.old.items + count ≤ LARGEST_BODY }
    ensures bytes { out.new.items ≡ out.old.items ++ (eeprom_reads command address 0 count chip.old).0 }
    ensures chip { chip.new ≡ (eeprom_reads command address 0 count chip.old).1 }
{
    for place in 0..count {
        let at = byte_at(address, place);
        let bytes = chip.spi(at_address(command, at, 0));
        out.push(bytes[3]);
    }
}
