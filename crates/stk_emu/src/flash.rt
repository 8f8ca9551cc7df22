//! Blocks of flash.

ghost use Rattle.std.specs.Prelude.{◌≡◌, ◌<◌, ◌≤◌, ◌+◌, ◌++◌, length};
ghost use Rattle.stk_frame.specs.declared.protocol.TheConstants.{EXTENDED_ADDRESS, LARGEST_BODY};
ghost use Rattle.stk_emu.specs.Programmer.{after_instructions, flash_loads, page_writes, flash_reads};

use crate::programmer::Body;
use crate::spi::{at_address, extend, for_half, word_at};
use avr_part::Chip;

/// The instructions that the chip runs for a whole block at once: load a byte of the page buffer, and read a byte of
/// flash.
const LOAD: u8 = 0x40;

const READ: u8 = 0x20;

/// A block's address, the instruction for its bytes or for its page, and whether the extended address is sent, too.
#[derive(Clone, Copy)]
pub(crate) struct Block {
    pub(crate) wide: bool,
    pub(crate) command: u8,
    pub(crate) address: u32,
}

/// Loads the bytes of a page: all at once if the chip can, else byte by byte.
pub(crate) fn load_page(chip: &mut Chip, block: Block, bytes: &[u8])
    requires address { block.address < EXTENDED_ADDRESS }
    requires count { length bytes.now < 65536 }
    ensures { chip.new ≡ after_instructions
        (flash_loads block.wide block.command block.address 0 bytes.now) chip.old }
{
    if block.command == LOAD && !bytes.is_empty() {
        if chip.load_block((block.address % 256) as u8, bytes) {
            let last = word_at(block.address, (bytes.len() - 1) as u16);
            return extend(chip, block.wide, last);
        }
    }
    for (i, byte) in bytes.iter().enumerate() {
        let place = i as u16;
        let word = word_at(block.address, place);
        extend(chip, block.wide, word);
        chip.spi(at_address(for_half(block.command, place), word, *byte));
    }
}

/// Writes the page, if that is asked for.
pub(crate) fn write_page(chip: &mut Chip, block: Block, is_asked: bool)
    ensures { chip.new ≡ after_instructions (page_writes block.wide block.command block.address is_asked) chip.old }
{
    if is_asked {
        extend(chip, block.wide, block.address);
        chip.spi(at_address(block.command, block.address, 0));
    }
}

/// Reads `count` bytes and appends them to `out`: all at once if the chip can, else byte by byte.
pub(crate) fn read(chip: &mut Chip, block: Block, count: u16, out: &mut Body)
    requires address { block.address < EXTENDED_ADDRESS }
    requires room { length out.old.items + count ≤ LARGEST_BODY }
    ensures bytes { out.new.items ≡ out.old.items
        ++ (flash_reads block.wide block.command block.address 0 count chip.old).0 }
    ensures chip { chip.new ≡ (flash_reads block.wide block.command block.address 0 count chip.old).1 }
{
    if block.command == READ && count != 0 {
        // The loop below, if it comes to that, sends the extended address again.
        extend(chip, block.wide, block.address);
        if let Some(bytes) = chip.flash_block((block.address % 65_536) as u16, count) {
            let _ = out.try_extend_from_slice(bytes);
            return;
        }
    }
    for place in 0..count {
        let word = word_at(block.address, place);
        extend(chip, block.wide, word);
        let bytes = chip.spi(at_address(for_half(block.command, place), word, 0));
        out.push(bytes[3]);
    }
}
