//! Executes each command of the protocol.

ghost use Rattle.std.specs.Prelude.{◌≡◌, ◌<◌, ◌≤◌, ◌∷◌, [], ◌+◌, ◌%◌, length, false, true};
ghost use Rattle.stk_frame.specs.declared.protocol.TheConstants.{EXTENDED_ADDRESS, LARGEST_BODY, STATUS_CMD_FAILED};
ghost use Rattle.stk_frame.specs.declared.command.Command.{Command};
ghost use Rattle.stk_emu.specs.Programmer.{fresh_programmer, restarted_programmer, enter_progmode, program_byte, read_byte, program_flash, program_eeprom, is_paged, is_written, read_flash, read_eeprom, spi_multi, execute_command, is_known, execute};

use crate::flash::Block;
use crate::{eeprom, flash};
use arrayvec::ArrayVec;
use avr_part::Chip;
use std::marker::Model;
use stk_frame::protocol::{
    CMD_CHIP_ERASE_ISP, CMD_ENTER_PROGMODE_ISP, CMD_GET_PARAMETER, CMD_LEAVE_PROGMODE_ISP,
    CMD_LOAD_ADDRESS, CMD_PROGRAM_EEPROM_ISP, CMD_PROGRAM_FLASH_ISP, CMD_PROGRAM_FUSE_ISP,
    CMD_PROGRAM_LOCK_ISP, CMD_READ_EEPROM_ISP, CMD_READ_FLASH_ISP, CMD_READ_FUSE_ISP,
    CMD_READ_LOCK_ISP, CMD_READ_OSCCAL_ISP, CMD_READ_SIGNATURE_ISP, CMD_SET_PARAMETER, CMD_SIGN_ON,
    CMD_SPI_MULTI, EXTENDED_ADDRESS, LARGEST_BODY, STATUS_CMD_FAILED, STATUS_CMD_OK,
    STATUS_CMD_UNKNOWN,
};
use stk_frame::{Command, EnterProgmode, ProgramBlock, ReadBlock, ReadByte};

pub(crate) type Body = ArrayVec<u8, LARGEST_BODY>;

/// The most bytes of a block read: the reply's body has the command byte and two statuses around them.
const LARGEST_READ: u16 = (LARGEST_BODY - 3) as u16;

/// The instruction that empties the part's page buffers.
const PROGRAMMING_ENABLE: [u8; 4] = [0xAC, 0x53, 0x00, 0x00];

/// The bits of a block's mode for page mode, and for writing the page.
const MODE_PAGE: u8 = 0x01;

const MODE_WRITE: u8 = 0x80;

/// The emulated programmer, with the chip at its pins.
#[derive(Drop)]
pub(crate) struct Programmer {
    is_programming: bool,
    address: u32,
    /// Whether the extended address is sent before instructions for flash.
    has_extended_address: bool,
    parameters: [u8; 256],
    chip: Chip,
}

impl Model for Programmer {
    ghost use Rattle.std.specs.Prelude.{◌<◌};
    ghost use Rattle.stk_emu.specs.Programmer.{Programmer as State};
    ghost use Rattle.stk_frame.specs.declared.protocol.TheConstants.{EXTENDED_ADDRESS};

    ghost Value = { State };

    ghost view = { λ p. record {
      mode = p.is_programming;
      address = p.address;
      wide = p.has_extended_address;
      parameters = p.parameters;
      chip = p.chip;
    } };

    ghost invariant = { λ p. p.address < EXTENDED_ADDRESS };
}

/// Makes these bytes the body of the reply.
fn reply_with(out: &mut Body, bytes: &[u8])
    requires { length bytes.now ≤ LARGEST_BODY }
    ensures { out.new.items ≡ bytes.now }
{
    out.clear();
    let _ = out.try_extend_from_slice(bytes);
}

/// Replies that the command failed.
fn fail(out: &mut Body, code: u8)
    ensures { out.new.items ≡ code ∷ STATUS_CMD_FAILED ∷ [] }
{
    reply_with(out, &[code, STATUS_CMD_FAILED]);
}

/// Returns whether a command has this byte.
fn is_known(code: u8) -> bool
    ensures { result ≡ is_known code }
{
    matches!(code, CMD_SIGN_ON..=CMD_GET_PARAMETER | CMD_LOAD_ADDRESS | CMD_ENTER_PROGMODE_ISP..=CMD_SPI_MULTI)
}

fn is_paged(fields: &ProgramBlock<'_>) -> bool
    ensures { result ≡ is_paged fields.now }
{
    fields.mode & MODE_PAGE != 0
}

fn is_written(fields: &ProgramBlock<'_>) -> bool
    ensures { result ≡ is_written fields.now }
{
    fields.mode & MODE_WRITE != 0
}

impl Programmer {
    /// Creates a programmer with this chip, out of programming mode.
    pub fn new(chip: Chip) -> Programmer
        ensures { result ≡ fresh_programmer chip }
    {
        Programmer {
            is_programming: false,
            address: 0,
            has_extended_address: false,
            parameters: [0; 256],
            chip,
        }
    }

    pub fn chip(&self) -> &Chip
        ensures { result.now ≡ self.now.chip }
    {
        &self.chip
    }

    pub fn into_chip(self) -> Chip
        ensures { result ≡ self.chip }
    {
        let Programmer { chip, .. } = self;
        chip
    }

    /// Keeps the memories of the part and loses all else, the page buffers too.
    pub fn restart(&mut self)
        ensures { self.new ≡ restarted_programmer self.old }
    {
        self.is_programming = false;
        self.address = 0;
        self.has_extended_address = false;
        self.parameters = [0; 256];
        self.chip.spi(PROGRAMMING_ENABLE);
    }

    fn set_parameter(&mut self, number: u8, value: u8, out: &mut Body)
        ensures { (out.new.items, self.new) ≡ execute_command (Command.SetParameter number value) self.old }
    {
        self.parameters[usize::from(number)] = value;
        reply_with(out, &[CMD_SET_PARAMETER, STATUS_CMD_OK]);
    }

    fn get_parameter(&self, number: u8, out: &mut Body)
        ensures { (out.new.items, self.now) ≡ execute_command (Command.GetParameter number) self.now }
    {
        reply_with(
            out,
            &[
                CMD_GET_PARAMETER,
                STATUS_CMD_OK,
                self.parameters[usize::from(number)],
            ],
        );
    }

    fn load_address(&mut self, address: u32, out: &mut Body)
        ensures { (out.new.items, self.new) ≡ execute_command (Command.LoadAddress address) self.old }
    {
        self.address = address % EXTENDED_ADDRESS;
        self.has_extended_address = EXTENDED_ADDRESS <= address;
        reply_with(out, &[CMD_LOAD_ADDRESS, STATUS_CMD_OK]);
    }

    fn enter_progmode(&mut self, fields: &EnterProgmode, out: &mut Body)
        ensures { (out.new.items, self.new) ≡ enter_progmode fields.now self.old }
    {
        self.is_programming = false;
        if fields.poll_index > 4 {
            return fail(out, CMD_ENTER_PROGMODE_ISP);
        }
        let bytes = self.chip.spi(fields.instruction);
        let index = fields.poll_index;
        // Poll index 0 polls nothing.
        let is_polled = index == 0 || bytes[usize::from(index) - 1] == fields.poll_value;
        if !is_polled {
            return fail(out, CMD_ENTER_PROGMODE_ISP);
        }
        self.is_programming = true;
        reply_with(out, &[CMD_ENTER_PROGMODE_ISP, STATUS_CMD_OK]);
    }

    /// Leaves programming mode. The delays that the command asks for do nothing.
    fn leave_progmode(&mut self, out: &mut Body)
        ensures { (out.new.items, self.new) ≡ execute_command (Command.LeaveProgmode 0 0) self.old }
    {
        self.is_programming = false;
        reply_with(out, &[CMD_LEAVE_PROGMODE_ISP, STATUS_CMD_OK]);
    }

    /// Executes the erase instruction. The command's delay and poll method do nothing.
    fn chip_erase(&mut self, instruction: [u8; 4], out: &mut Body)
        ensures { (out.new.items, self.new) ≡ execute_command (Command.ChipErase 0 0 instruction) self.old }
    {
        if !self.is_programming {
            return fail(out, CMD_CHIP_ERASE_ISP);
        }
        self.chip.spi(instruction);
        reply_with(out, &[CMD_CHIP_ERASE_ISP, STATUS_CMD_OK]);
    }

    fn program_byte(&mut self, code: u8, instruction: [u8; 4], out: &mut Body)
        ensures { (out.new.items, self.new) ≡ program_byte code instruction self.old }
    {
        if !self.is_programming {
            return fail(out, code);
        }
        self.chip.spi(instruction);
        reply_with(out, &[code, STATUS_CMD_OK, STATUS_CMD_OK]);
    }

    fn read_byte(&mut self, code: u8, fields: &ReadByte, out: &mut Body)
        ensures { (out.new.items, self.new) ≡ read_byte code fields.now self.old }
    {
        let place = fields.return_address;
        if !self.is_programming || place < 1 || place > 4 {
            return fail(out, code);
        }
        let bytes = self.chip.spi(fields.instruction);
        reply_with(
            out,
            &[
                code,
                STATUS_CMD_OK,
                bytes[usize::from(place) - 1],
                STATUS_CMD_OK,
            ],
        );
    }

    /// Moves the address past a block.
    fn advance_address(&mut self, count: u16)
        ensures { self.new ≡ record self.old { address = (self.old.address + count) % EXTENDED_ADDRESS } }
    {
        self.address = (self.address + u32::from(count)) % EXTENDED_ADDRESS;
    }

    /// Returns the block at the current address, with this instruction.
    fn block(&self, command: u8) -> Block
        ensures { result ≡ record { wide = self.now.wide; command = command; address = self.now.address } }
    {
        Block {
            wide: self.has_extended_address,
            command,
            address: self.address,
        }
    }

    fn program_flash(&mut self, fields: &ProgramBlock<'_>, out: &mut Body)
        ensures { (out.new.items, self.new) ≡ program_flash fields.now self.old }
    {
        let count = fields.count;
        let bytes = fields.bytes.bytes();
        if !self.is_programming
            || count == 0
            || count % 2 != 0
            || usize::from(count) != bytes.len()
            || !is_paged(fields)
        {
            return fail(out, CMD_PROGRAM_FLASH_ISP);
        }
        let block = self.block(fields.cmd1);
        flash::load_page(&mut self.chip, block, bytes);
        let page = self.block(fields.cmd2);
        flash::write_page(&mut self.chip, page, is_written(fields));
        self.advance_address(count / 2);
        reply_with(out, &[CMD_PROGRAM_FLASH_ISP, STATUS_CMD_OK]);
    }

    fn program_eeprom(&mut self, fields: &ProgramBlock<'_>, out: &mut Body)
        ensures { (out.new.items, self.new) ≡ program_eeprom fields.now self.old }
    {
        let count = fields.count;
        let bytes = fields.bytes.bytes();
        if !self.is_programming || count == 0 || usize::from(count) != bytes.len() {
            return fail(out, CMD_PROGRAM_EEPROM_ISP);
        }
        let address = self.address;
        eeprom::load_bytes(&mut self.chip, fields.cmd1, address, bytes);
        eeprom::write_page(
            &mut self.chip,
            fields.cmd2,
            address,
            is_paged(fields) && is_written(fields),
        );
        self.advance_address(count);
        reply_with(out, &[CMD_PROGRAM_EEPROM_ISP, STATUS_CMD_OK]);
    }

    fn read_flash(&mut self, fields: &ReadBlock, out: &mut Body)
        ensures { (out.new.items, self.new) ≡ read_flash fields.now self.old }
    {
        let count = fields.count;
        if !self.is_programming || count == 0 || count % 2 != 0 || count > LARGEST_READ {
            return fail(out, CMD_READ_FLASH_ISP);
        }
        reply_with(out, &[CMD_READ_FLASH_ISP, STATUS_CMD_OK]);
        let block = self.block(fields.cmd1);
        flash::read(&mut self.chip, block, count, out);
        out.push(STATUS_CMD_OK);
        self.advance_address(count / 2);
    }

    fn read_eeprom(&mut self, fields: &ReadBlock, out: &mut Body)
        ensures { (out.new.items, self.new) ≡ read_eeprom fields.now self.old }
    {
        let count = fields.count;
        if !self.is_programming || count == 0 || count > LARGEST_READ {
            return fail(out, CMD_READ_EEPROM_ISP);
        }
        reply_with(out, &[CMD_READ_EEPROM_ISP, STATUS_CMD_OK]);
        eeprom::read(&mut self.chip, fields.cmd1, self.address, count, out);
        out.push(STATUS_CMD_OK);
        self.advance_address(count);
    }

    fn spi_multi(&mut self, send: u8, receive: u8, start: u8, bytes: &[u8], out: &mut Body)
        ensures { (out.new.items, self.new) ≡ spi_multi send receive start bytes.now self.old }
    {
        let end = usize::from(start) + usize::from(receive);
        if !self.is_programming || send != 4 || end > 4 {
            return fail(out, CMD_SPI_MULTI);
        }
        let [a, b, c, d] = bytes else {
            return fail(out, CMD_SPI_MULTI);
        };
        let received = self.chip.spi([*a, *b, *c, *d]);
        reply_with(out, &[CMD_SPI_MULTI, STATUS_CMD_OK]);
        let _ = out.try_extend_from_slice(&received[usize::from(start)..end]);
        out.push(STATUS_CMD_OK);
    }

    fn execute_command(&mut self, command: &Command<'_>, out: &mut Body)
        ensures { (out.new.items, self.new) ≡ execute_command command.now self.old }
    {
        match command {
            Command::SignOn => reply_with(out, b"\x01\x00\x08STK500_2"),
            Command::SetParameter { number, value } => self.set_parameter(*number, *value, out),
            Command::GetParameter { number } => self.get_parameter(*number, out),
            Command::LoadAddress { address } => self.load_address(*address, out),
            Command::EnterProgmode(fields) => self.enter_progmode(fields, out),
            Command::LeaveProgmode { .. } => self.leave_progmode(out),
            Command::ChipErase { instruction, .. } => self.chip_erase(*instruction, out),
            Command::ProgramFlash(fields) => self.program_flash(fields, out),
            Command::ReadFlash(fields) => self.read_flash(fields, out),
            Command::ProgramEeprom(fields) => self.program_eeprom(fields, out),
            Command::ReadEeprom(fields) => self.read_eeprom(fields, out),
            Command::ProgramFuse { instruction } => self.program_byte(
                CMD_PROGRAM_FUSE_ISP,
                *instruction,
                out,
            ),
            Command::ReadFuse(fields) => self.read_byte(CMD_READ_FUSE_ISP, fields, out),
            Command::ProgramLock { instruction } => self.program_byte(
                CMD_PROGRAM_LOCK_ISP,
                *instruction,
                out,
            ),
            Command::ReadLock(fields) => self.read_byte(CMD_READ_LOCK_ISP, fields, out),
            Command::ReadSignature(fields) => self.read_byte(CMD_READ_SIGNATURE_ISP, fields, out),
            Command::ReadOsccal(fields) => self.read_byte(CMD_READ_OSCCAL_ISP, fields, out),
            Command::SpiMulti {
                send_count,
                receive_count,
                receive_start,
                bytes,
            } => {
                self.spi_multi(
                    *send_count,
                    *receive_count,
                    *receive_start,
                    bytes.bytes(),
                    out,
                )
            }
        }
    }

    /// Executes the command with this body, and makes `out` the body of the reply.
    pub fn execute(&mut self, body: &[u8], out: &mut Body)
        ensures { (out.new.items, self.new) ≡ execute body.now self.old }
    {
        match Command::read(body) {
            Some(command) => self.execute_command(&command, out),
            None => {
                let code = body.first().copied().unwrap_or(0);
                let status = if is_known(code) {
                    STATUS_CMD_FAILED
                } else {
                    STATUS_CMD_UNKNOWN
                };
                reply_with(out, &[code, status]);
            }
        }
    }
}
