//! Serial programming instructions for an address.

ghost use Rattle.std.specs.Prelude.{◌≡◌, ◌<◌};
ghost use Rattle.stk_frame.specs.declared.protocol.TheConstants.{EXTENDED_ADDRESS};
ghost use Rattle.stk_emu.specs.Programmer.{at_address, word_at, byte_address, for_half, extension, after_instructions};

use avr_part::Chip;
use stk_frame::protocol::EXTENDED_ADDRESS;

/// Returns an instruction that carries bits 15 to 0 of an address.
pub(crate) fn at_address(command: u8, address: u32, byte: u8) -> [u8; 4]
    ensures { result ≡ at_address command address byte }
{
    let high = (address / 256 % 256) as u8;
    let low = (address % 256) as u8;
    [command, high, low, byte]
}

/// Returns the instruction for a byte of a word: bit 3 is set for the high one.
pub(crate) fn for_half(command: u8, place: u16) -> u8
    ensures { result ≡ for_half command place }
{
    if place % 2 == 0 { command } else { command | 8 }
}

/// Returns the address of the word that holds the byte at `place`.
pub(crate) fn word_at(address: u32, place: u16) -> u32
    requires { address < EXTENDED_ADDRESS }
    ensures { result ≡ word_at address place }
{
    (address + u32::from(place / 2)) % EXTENDED_ADDRESS
}

/// Returns the address of the byte at `place`.
pub(crate) fn byte_at(address: u32, place: u16) -> u32
    requires { address < EXTENDED_ADDRESS }
    ensures { result ≡ byte_address address place }
{
    (address + u32::from(place)) % EXTENDED_ADDRESS
}

/// Sends bits 23 to 16 of an address if the extended address is used.
pub(crate) fn extend(chip: &mut Chip, wide: bool, address: u32)
    ensures { chip.new ≡ after_instructions (extension wide address) chip.old }
{
    if wide {
        let byte = (address / 65536 % 256) as u8;
        chip.spi([0x4D, 0, byte, 0]);
    }
}
