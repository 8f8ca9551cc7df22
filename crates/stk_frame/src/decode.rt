//! Reads commands from their bodies. Fields that several commands share have a function of their own.
ghost use Rattle.std.specs.Prelude.{◌∷◌, ◌≡◌, ◌↔◌, Some, IfSome};
ghost use Rattle.stk_frame.specs.Commands.{body};
ghost use Rattle.stk_frame.specs.Decoding.{FieldsFit, command_of, enter_progmode_of, program_block_of, read_block_of, instruction, read_byte_of};
ghost use Rattle.stk_frame.specs.declared.protocol.TheConstants.{CMD_CHIP_ERASE_ISP, CMD_LEAVE_PROGMODE_ISP, CMD_LOAD_ADDRESS, CMD_SET_PARAMETER, CMD_SPI_MULTI};

use crate::command::{Command, Data, EnterProgmode, ProgramBlock, ReadBlock, ReadByte};
use crate::protocol::{
    CMD_CHIP_ERASE_ISP, CMD_ENTER_PROGMODE_ISP, CMD_GET_PARAMETER, CMD_LEAVE_PROGMODE_ISP,
    CMD_LOAD_ADDRESS, CMD_PROGRAM_EEPROM_ISP, CMD_PROGRAM_FLASH_ISP, CMD_PROGRAM_FUSE_ISP,
    CMD_PROGRAM_LOCK_ISP, CMD_READ_EEPROM_ISP, CMD_READ_FLASH_ISP, CMD_READ_FUSE_ISP,
    CMD_READ_LOCK_ISP, CMD_READ_OSCCAL_ISP, CMD_READ_SIGNATURE_ISP, CMD_SET_PARAMETER, CMD_SIGN_ON,
    CMD_SPI_MULTI,
};
use byteorder::{BigEndian, ByteOrder};

fn set_parameter(fields: &[u8]) -> Option<Command<'_>>
    ensures { result ≡ command_of (CMD_SET_PARAMETER ∷ fields.now) }
{
    match fields {
        [number, value] => Some(Command::SetParameter {
            number: *number,
            value: *value,
        }),
        _ => None,
    }
}

fn load_address(fields: &[u8]) -> Option<Command<'_>>
    ensures { result ≡ command_of (CMD_LOAD_ADDRESS ∷ fields.now) }
{
    match fields {
        [a, b, c, d] => Some(Command::LoadAddress {
            address: BigEndian::read_u32(&[*a, *b, *c, *d]),
        }),
        _ => None,
    }
}

fn enter_progmode(fields: &[u8]) -> Option<Command<'_>>
    ensures { result ≡ enter_progmode_of fields.now }
{
    match fields {
        [
            timeout,
            stab_delay,
            command_delay,
            synch_loops,
            byte_delay,
            poll_value,
            poll_index,
            a,
            b,
            c,
            d,
        ] => Some(Command::EnterProgmode(EnterProgmode {
            timeout: *timeout,
            stab_delay: *stab_delay,
            command_delay: *command_delay,
            synch_loops: *synch_loops,
            byte_delay: *byte_delay,
            poll_value: *poll_value,
            poll_index: *poll_index,
            instruction: [*a, *b, *c, *d],
        })),
        _ => None,
    }
}

fn leave_progmode(fields: &[u8]) -> Option<Command<'_>>
    ensures { result ≡ command_of (CMD_LEAVE_PROGMODE_ISP ∷ fields.now) }
{
    match fields {
        [pre_delay, post_delay] => Some(Command::LeaveProgmode {
            pre_delay: *pre_delay,
            post_delay: *post_delay,
        }),
        _ => None,
    }
}

fn chip_erase(fields: &[u8]) -> Option<Command<'_>>
    ensures { result ≡ command_of (CMD_CHIP_ERASE_ISP ∷ fields.now) }
{
    match fields {
        [erase_delay, poll_method, a, b, c, d] => Some(Command::ChipErase {
            erase_delay: *erase_delay,
            poll_method: *poll_method,
            instruction: [*a, *b, *c, *d],
        }),
        _ => None,
    }
}

fn program_block(fields: &[u8]) -> Option<ProgramBlock<'_>>
    ensures { result ≡ program_block_of fields.now }
{
    match fields {
        [
            count_high,
            count_low,
            mode,
            delay,
            cmd1,
            cmd2,
            cmd3,
            poll1,
            poll2,
            bytes @ ..,
        ] => Some(ProgramBlock {
            count: BigEndian::read_u16(&[*count_high, *count_low]),
            mode: *mode,
            delay: *delay,
            cmd1: *cmd1,
            cmd2: *cmd2,
            cmd3: *cmd3,
            poll1: *poll1,
            poll2: *poll2,
            bytes: Data::new(bytes),
        }),
        _ => None,
    }
}

fn read_block(fields: &[u8]) -> Option<ReadBlock>
    ensures { result ≡ read_block_of fields.now }
{
    match fields {
        [high, low, cmd1] => Some(ReadBlock {
            count: BigEndian::read_u16(&[*high, *low]),
            cmd1: *cmd1,
        }),
        _ => None,
    }
}

fn instruction(fields: &[u8]) -> Option<[u8; 4]>
    ensures { result ≡ instruction fields.now }
{
    match fields {
        [a, b, c, d] => Some([*a, *b, *c, *d]),
        _ => None,
    }
}

fn read_byte(fields: &[u8]) -> Option<ReadByte>
    ensures { result ≡ read_byte_of fields.now }
{
    match fields {
        [return_address, a, b, c, d] => Some(ReadByte {
            return_address: *return_address,
            instruction: [*a, *b, *c, *d],
        }),
        _ => None,
    }
}

fn spi_multi(fields: &[u8]) -> Option<Command<'_>>
    ensures { result ≡ command_of (CMD_SPI_MULTI ∷ fields.now) }
{
    match fields {
        [send_count, receive_count, receive_start, bytes @ ..] => Some(Command::SpiMulti {
            send_count: *send_count,
            receive_count: *receive_count,
            receive_start: *receive_start,
            bytes: Data::new(bytes),
        }),
        _ => None,
    }
}

/// Reads the fields of the command with this byte.
fn with_fields(code: u8, fields: &[u8]) -> Option<Command<'_>>
    ensures { result ≡ command_of (code ∷ fields.now) }
{
    match code {
        CMD_SIGN_ON => match fields {
            [] => Some(Command::SignOn),
            _ => None,
        },
        CMD_SET_PARAMETER => set_parameter(fields),
        CMD_GET_PARAMETER => match fields {
            [number] => Some(Command::GetParameter { number: *number }),
            _ => None,
        },
        CMD_LOAD_ADDRESS => load_address(fields),
        CMD_ENTER_PROGMODE_ISP => enter_progmode(fields),
        CMD_LEAVE_PROGMODE_ISP => leave_progmode(fields),
        CMD_CHIP_ERASE_ISP => chip_erase(fields),
        CMD_PROGRAM_FLASH_ISP => Some(Command::ProgramFlash(program_block(fields)?)),
        CMD_READ_FLASH_ISP => Some(Command::ReadFlash(read_block(fields)?)),
        CMD_PROGRAM_EEPROM_ISP => Some(Command::ProgramEeprom(program_block(fields)?)),
        CMD_READ_EEPROM_ISP => Some(Command::ReadEeprom(read_block(fields)?)),
        CMD_PROGRAM_FUSE_ISP => Some(Command::ProgramFuse {
            instruction: instruction(fields)?,
        }),
        CMD_READ_FUSE_ISP => Some(Command::ReadFuse(read_byte(fields)?)),
        CMD_PROGRAM_LOCK_ISP => Some(Command::ProgramLock {
            instruction: instruction(fields)?,
        }),
        CMD_READ_LOCK_ISP => Some(Command::ReadLock(read_byte(fields)?)),
        CMD_READ_SIGNATURE_ISP => Some(Command::ReadSignature(read_byte(fields)?)),
        CMD_READ_OSCCAL_ISP => Some(Command::ReadOsccal(read_byte(fields)?)),
        CMD_SPI_MULTI => spi_multi(fields),
        _ => None,
    }
}

impl<'a> Command<'a> {
    /// Reads a command from its body. Returns `None` if the bytes are no command's.
    ///
    /// ```text
    /// let Some(Command::LoadAddress { address }) = Command::read(&[0x06, 0x80, 0x00, 0x01, 0x00]) else {
    ///     return Ok(());
    /// };
    /// assert_eq!(rt; address, 0x8000_0100);
    /// assert!(rt; Command::read(&[0x04]).is_none());
    /// ```
    pub fn read(bytes: &'a [u8]) -> Option<Command<'a>>
        ensures value { result ≡ command_of bytes.now }
        ensures body { (command : Command) → FieldsFit command → (result ≡ Some command) ↔ (body command ≡ bytes.now) }
        ensures fits { IfSome result FieldsFit }
    {
        match bytes {
            [] => None,
            [code, fields @ ..] => with_fields(*code, fields),
        }
    }
}
