//! The commands of the protocol, and those that a host makes.
ghost use Rattle.std.specs.Prelude.{◌≡◌, ◌≤◌, ◌∷◌, [], ◌++◌, length};
ghost use Rattle.stk_frame.specs.Commands.{code, body};
ghost use Rattle.byteorder.specs.Endian.{big_bytes};
ghost use Rattle.stk_frame.specs.HostCommands.{enter, leave, erase, page_mode_block, program_page, read_flash_block, program_eeprom_block, read_eeprom_block, write_address, read_instruction, program_fuse, read_fuse, program_lock, read_lock, read_signature, read_calibration};

use crate::protocol::{
    CMD_CHIP_ERASE_ISP, CMD_ENTER_PROGMODE_ISP, CMD_GET_PARAMETER, CMD_LEAVE_PROGMODE_ISP,
    CMD_LOAD_ADDRESS, CMD_PROGRAM_EEPROM_ISP, CMD_PROGRAM_FLASH_ISP, CMD_PROGRAM_FUSE_ISP,
    CMD_PROGRAM_LOCK_ISP, CMD_READ_EEPROM_ISP, CMD_READ_FLASH_ISP, CMD_READ_FUSE_ISP,
    CMD_READ_LOCK_ISP, CMD_READ_OSCCAL_ISP, CMD_READ_SIGNATURE_ISP, CMD_SET_PARAMETER, CMD_SIGN_ON,
    CMD_SPI_MULTI, LARGEST_BLOCK,
};
use std::fmt;
use std::marker::Model;

/// Bytes that a command borrows. Contracts see them as their list.
///
/// ```text
/// let lent = [0xE2, 0xD9];
/// assert!(rt; Data::new(&lent).bytes() == lent.as_slice());
/// ```
#[derive(Debug, Drop)]
pub struct Data<'a> {
    bytes: &'a [u8],
}

impl<'a> Model for Data<'a> {
    ghost use Rattle.std.specs.Prelude.{List, ℕ};

    ghost Value = { List ℕ };

    ghost view = { λ lent. lent.bytes.now };
}

impl<'a> Data<'a> {
    /// Borrows these bytes.
    ///
    /// ```text
    /// let data = Data::new(&[0xAC, 0x53]);
    /// assert!(rt; data.bytes() == [0xAC, 0x53].as_slice());
    /// ```
    pub fn new(bytes: &'a [u8]) -> Data<'a>
        ensures { result ≡ bytes.now }
    {
        Data { bytes }
    }

    /// Returns the borrowed bytes.
    ///
    /// ```text
    /// assert!(rt; Data::new(b"AVR").bytes() == b"AVR".as_slice());
    /// ```
    pub fn bytes(&self) -> &'a [u8]
        ensures { result.now ≡ self.now }
    {
        self.bytes
    }
}

/// The fields of ENTER_PROGMODE_ISP. Times are in milliseconds.
///
/// ```text
/// let Command::EnterProgmode(fields) = Command::enter() else {
///     panic!(rt; "it is that command");
/// };
/// assert_eq!(rt; (fields.poll_value, fields.poll_index), (0x53, 3));
/// assert_eq!(rt; fields.instruction, [0xAC, 0x53, 0x00, 0x00]);
/// ```
#[derive(Clone, Copy, Debug, PartialEq, Eq)]
pub struct EnterProgmode {
    pub timeout: u8,
    pub stab_delay: u8,
    pub command_delay: u8,
    /// How often the instruction is tried.
    pub synch_loops: u8,
    pub byte_delay: u8,
    /// The byte that a part in sync returns; `53` for an AVR.
    pub poll_value: u8,
    /// Which of the four bytes out is compared with `poll_value`, from 1; 0 for no test.
    pub poll_index: u8,
    /// The serial programming instruction that is sent.
    pub instruction: [u8; 4],
}

/// The fields of a command that programs a block of flash or EEPROM.
///
/// ```text
/// let Command::ProgramFlash(block) = Command::program_page(&[0x0C, 0x94]) else {
///     panic!(rt; "it is that command");
/// };
/// assert_eq!(rt; (block.count, block.mode), (2, 0xC1));
/// assert!(rt; block.bytes.bytes() == [0x0C, 0x94].as_slice());
/// ```
#[derive(Debug, Drop)]
pub struct ProgramBlock<'a> {
    /// The block's size in bytes, as the field says, however many bytes follow.
    pub count: u16,
    /// Bit 0: page mode. Bit 6: polling of RDY/BSY for a page. Bit 7: the page is written.
    pub mode: u8,
    /// In milliseconds.
    pub delay: u8,
    /// The first byte of the instruction that loads or writes a byte.
    pub cmd1: u8,
    /// The first byte of the instruction that writes the page.
    pub cmd2: u8,
    /// The first byte of the instruction that reads a byte.
    pub cmd3: u8,
    /// Values that are polled if the mode asks for it.
    pub poll1: u8,
    pub poll2: u8,
    /// The bytes to program.
    pub bytes: Data<'a>,
}

/// The fields of a command that reads a block of flash or EEPROM.
///
/// ```text
/// let command = Command::ReadFlash(ReadBlock { count: 128, cmd1: 0x20 });
/// assert_eq!(rt; command.shape(), Shape::Closed(128));
/// ```
#[derive(Clone, Copy, Debug, PartialEq, Eq)]
pub struct ReadBlock {
    /// How many bytes are read.
    pub count: u16,
    /// The first byte of the instruction that reads a byte.
    pub cmd1: u8,
}

/// The fields of a command that reads one byte by an instruction.
///
/// ```text
/// let fields = ReadByte { return_address: 4, instruction: [0x50, 0x00, 0x00, 0x00] };
/// let mut body = ArrayVec::new();
/// Command::ReadFuse(fields).body(&mut body);
/// assert!(rt; body.as_slice() == [0x18, 0x04, 0x50, 0x00, 0x00, 0x00].as_slice());
/// ```
#[derive(Clone, Copy, Debug, PartialEq, Eq)]
pub struct ReadByte {
    /// Which of the four bytes out is the result, from 1.
    pub return_address: u8,
    pub instruction: [u8; 4],
}

/// A command of the programmer, in the order of the commands' bytes.
///
/// An `instruction` is one of the part's own serial programming instructions, of four bytes.
///
/// ```text
/// assert!(rt; matches!(Command::read(&[0x01]), Some(Command::SignOn)));
/// assert!(rt; matches!(Command::read(&[0x06, 0x80, 0x00, 0x10, 0x00]),
///     Some(Command::LoadAddress { address: 0x8000_1000 })));
/// assert!(rt; Command::read(&[0x05]).is_none());
/// ```
#[derive(Drop)]
pub enum Command<'a> {
    /// Asks for the programmer's name.
    SignOn,
    SetParameter {
        number: u8,
        value: u8,
    },
    GetParameter {
        number: u8,
    },
    /// The address of the next block that is read or programmed: in words for flash, in bytes for EEPROM. Bit 31 asks
    /// for the part's extended address.
    LoadAddress {
        address: u32,
    },
    EnterProgmode(EnterProgmode),
    /// The delays are in milliseconds.
    LeaveProgmode {
        pre_delay: u8,
        post_delay: u8,
    },
    /// The delay is in milliseconds. Method 0 waits that long; method 1 polls RDY/BSY.
    ChipErase {
        erase_delay: u8,
        poll_method: u8,
        instruction: [u8; 4],
    },
    ProgramFlash(ProgramBlock<'a>),
    ReadFlash(ReadBlock),
    ProgramEeprom(ProgramBlock<'a>),
    ReadEeprom(ReadBlock),
    ProgramFuse {
        instruction: [u8; 4],
    },
    ReadFuse(ReadByte),
    ProgramLock {
        instruction: [u8; 4],
    },
    ReadLock(ReadByte),
    ReadSignature(ReadByte),
    ReadOsccal(ReadByte),
    /// Sends the bytes as they are, and returns `receive_count` of the bytes out, from the 0-based place
    /// `receive_start` on.
    SpiMulti {
        send_count: u8,
        receive_count: u8,
        receive_start: u8,
        bytes: Data<'a>,
    },
}

impl Command<'_> {
    /// Returns the command's byte.
    ///
    /// ```text
    /// assert_eq!(rt; Command::SignOn.code(), 0x01);
    /// ```
    pub fn code(&self) -> u8
        ensures { result ≡ code self.now }
    {
        match self {
            Command::SignOn => CMD_SIGN_ON,
            Command::SetParameter { .. } => CMD_SET_PARAMETER,
            Command::GetParameter { .. } => CMD_GET_PARAMETER,
            Command::LoadAddress { .. } => CMD_LOAD_ADDRESS,
            Command::EnterProgmode(_) => CMD_ENTER_PROGMODE_ISP,
            Command::LeaveProgmode { .. } => CMD_LEAVE_PROGMODE_ISP,
            Command::ChipErase { .. } => CMD_CHIP_ERASE_ISP,
            Command::ProgramFlash(_) => CMD_PROGRAM_FLASH_ISP,
            Command::ReadFlash(_) => CMD_READ_FLASH_ISP,
            Command::ProgramEeprom(_) => CMD_PROGRAM_EEPROM_ISP,
            Command::ReadEeprom(_) => CMD_READ_EEPROM_ISP,
            Command::ProgramFuse { .. } => CMD_PROGRAM_FUSE_ISP,
            Command::ReadFuse(_) => CMD_READ_FUSE_ISP,
            Command::ProgramLock { .. } => CMD_PROGRAM_LOCK_ISP,
            Command::ReadLock(_) => CMD_READ_LOCK_ISP,
            Command::ReadSignature(_) => CMD_READ_SIGNATURE_ISP,
            Command::ReadOsccal(_) => CMD_READ_OSCCAL_ISP,
            Command::SpiMulti { .. } => CMD_SPI_MULTI,
        }
    }
}

/// Shows the command's byte.
impl fmt::Debug for Command<'_> {
    fn fmt<W: fmt::Write>(&self, f: &mut fmt::Formatter<W>) -> fmt::Result {
        f.debug_struct("Command")
            .field("code", &self.code())
            .finish_non_exhaustive()
    }
}

/// One of the three fuse bytes.
#[derive(Clone, Copy, Debug, PartialEq, Eq)]
pub enum Fuse {
    Low,
    High,
    Extended,
}

/// Returns a block in page mode: it is written at its end, and RDY/BSY is polled.
fn page_mode_block<'a>(cmd1: u8, cmd2: u8, cmd3: u8, bytes: &'a [u8]) -> ProgramBlock<'a>
    requires { length bytes.now ≤ LARGEST_BLOCK }
    ensures { result ≡ page_mode_block cmd1 cmd2 cmd3 bytes.now }
{
    ProgramBlock {
        count: bytes.len() as u16,
        mode: 0xC1,
        delay: 0x0A,
        cmd1,
        cmd2,
        cmd3,
        poll1: 0xFF,
        poll2: 0xFF,
        bytes: Data::new(bytes),
    }
}

impl<'a> Command<'a> {
    /// Enters programming mode, and tests that the part is in sync.
    ///
    /// ```text
    /// let mut body = ArrayVec::new();
    /// Command::enter().body(&mut body);
    /// let due = [0x10, 0xC8, 0x64, 0x19, 0x20, 0x00, 0x53, 0x03, 0xAC, 0x53, 0x00, 0x00];
    /// assert!(rt; body.as_slice() == due.as_slice());
    /// ```
    pub fn enter() -> Command<'a>
        ensures value { result ≡ enter }
        ensures bytes { body result ≡ CMD_ENTER_PROGMODE_ISP ∷ 0xC8 ∷ 0x64 ∷ 0x19 ∷ 0x20 ∷ 0x00 ∷ 0x53 ∷ 0x03 ∷ 0xAC
            ∷ 0x53 ∷ 0x00 ∷ 0x00 ∷ [] }
    {
        Command::EnterProgmode(EnterProgmode {
            timeout: 0xC8,
            stab_delay: 0x64,
            command_delay: 0x19,
            synch_loops: 0x20,
            byte_delay: 0x00,
            poll_value: 0x53,
            poll_index: 0x03,
            instruction: [0xAC, 0x53, 0x00, 0x00],
        })
    }

    /// Leaves programming mode.
    ///
    /// ```text
    /// let mut body = ArrayVec::new();
    /// Command::leave().body(&mut body);
    /// assert!(rt; body.as_slice() == [0x11, 0x01, 0x01].as_slice());
    /// ```
    pub fn leave() -> Command<'a>
        ensures value { result ≡ leave }
        ensures bytes { body result ≡ CMD_LEAVE_PROGMODE_ISP ∷ 0x01 ∷ 0x01 ∷ [] }
    {
        Command::LeaveProgmode {
            pre_delay: 0x01,
            post_delay: 0x01,
        }
    }

    /// Erases the chip.
    ///
    /// ```text
    /// let mut body = ArrayVec::new();
    /// Command::erase().body(&mut body);
    /// assert!(rt; body.as_slice() == [0x12, 0x09, 0x00, 0xAC, 0x80, 0x00, 0x00].as_slice());
    /// ```
    pub fn erase() -> Command<'a>
        ensures value { result ≡ erase }
        ensures bytes { body result ≡ CMD_CHIP_ERASE_ISP ∷ 0x09 ∷ 0x00 ∷ 0xAC ∷ 0x80 ∷ 0x00 ∷ 0x00 ∷ [] }
    {
        Command::ChipErase {
            erase_delay: 0x09,
            poll_method: 0x00,
            instruction: [0xAC, 0x80, 0x00, 0x00],
        }
    }

    /// Programs a page of flash with `bytes`, at most 265, at the loaded address.
    ///
    /// ```text
    /// let mut body = ArrayVec::new();
    /// Command::program_page(&[0x0C, 0x94]).body(&mut body);
    /// let due = [0x13, 0x00, 0x02, 0xC1, 0x0A, 0x40, 0x4C, 0x20, 0xFF, 0xFF, 0x0C, 0x94];
    /// assert!(rt; body.as_slice() == due.as_slice());
    /// ```
    pub fn program_page(bytes: &'a [u8]) -> Command<'a>
        requires { length bytes.now ≤ LARGEST_BLOCK }
        ensures value { result ≡ program_page bytes.now }
        ensures bytes { body result ≡ CMD_PROGRAM_FLASH_ISP ∷ (big_bytes 2 (length bytes.now) ++ 0xC1 ∷ 0x0A
            ∷ 0x40 ∷ 0x4C ∷ 0x20 ∷ 0xFF ∷ 0xFF ∷ bytes.now) }
    {
        Command::ProgramFlash(page_mode_block(0x40, 0x4C, 0x20, bytes))
    }

    /// Reads `count` bytes of flash from the loaded address on.
    ///
    /// ```text
    /// let mut body = ArrayVec::new();
    /// Command::read_flash(256).body(&mut body);
    /// assert!(rt; body.as_slice() == [0x14, 0x01, 0x00, 0x20].as_slice());
    /// ```
    pub fn read_flash(count: u16) -> Command<'a>
        ensures value { result ≡ read_flash_block count }
        ensures bytes { body result ≡ CMD_READ_FLASH_ISP ∷ (big_bytes 2 count ++ 0x20 ∷ []) }
    {
        Command::ReadFlash(ReadBlock { count, cmd1: 0x20 })
    }

    /// Programs `bytes`, at most 265, into consecutive bytes of EEPROM from the loaded address on.
    ///
    /// ```text
    /// let mut body = ArrayVec::new();
    /// Command::program_eeprom(&[0x2A]).body(&mut body);
    /// let due = [0x15, 0x00, 0x01, 0xC1, 0x0A, 0xC1, 0xC2, 0xA0, 0xFF, 0xFF, 0x2A];
    /// assert!(rt; body.as_slice() == due.as_slice());
    /// ```
    pub fn program_eeprom(bytes: &'a [u8]) -> Command<'a>
        requires { length bytes.now ≤ LARGEST_BLOCK }
        ensures value { result ≡ program_eeprom_block bytes.now }
        ensures bytes { body result ≡ CMD_PROGRAM_EEPROM_ISP ∷ (big_bytes 2 (length bytes.now) ++ 0xC1 ∷ 0x0A
            ∷ 0xC1 ∷ 0xC2 ∷ 0xA0 ∷ 0xFF ∷ 0xFF ∷ bytes.now) }
    {
        Command::ProgramEeprom(page_mode_block(0xC1, 0xC2, 0xA0, bytes))
    }

    /// Reads `count` bytes of EEPROM from the loaded address on.
    ///
    /// ```text
    /// let mut body = ArrayVec::new();
    /// Command::read_eeprom(4).body(&mut body);
    /// assert!(rt; body.as_slice() == [0x16, 0x00, 0x04, 0xA0].as_slice());
    /// ```
    pub fn read_eeprom(count: u16) -> Command<'a>
        ensures value { result ≡ read_eeprom_block count }
        ensures bytes { body result ≡ CMD_READ_EEPROM_ISP ∷ (big_bytes 2 count ++ 0xA0 ∷ []) }
    {
        Command::ReadEeprom(ReadBlock { count, cmd1: 0xA0 })
    }

    /// Writes a fuse byte.
    ///
    /// ```text
    /// let mut body = ArrayVec::new();
    /// Command::program_fuse(Fuse::Low, 0xE2).body(&mut body);
    /// assert!(rt; body.as_slice() == [0x17, 0xAC, 0xA0, 0x00, 0xE2].as_slice());
    /// ```
    pub fn program_fuse(fuse: Fuse, value: u8) -> Command<'a>
        ensures value { result ≡ program_fuse fuse value }
        ensures bytes { body result ≡ CMD_PROGRAM_FUSE_ISP ∷ 0xAC ∷ write_address fuse ∷ 0x00 ∷ value ∷ [] }
    {
        let place = match fuse {
            Fuse::Low => 0xA0,
            Fuse::High => 0xA8,
            Fuse::Extended => 0xA4,
        };
        Command::ProgramFuse {
            instruction: [0xAC, place, 0x00, value],
        }
    }

    /// Reads a fuse byte.
    ///
    /// ```text
    /// let mut body = ArrayVec::new();
    /// Command::read_fuse(Fuse::Low).body(&mut body);
    /// assert!(rt; body.as_slice() == [0x18, 0x04, 0x50, 0x00, 0x00, 0x00].as_slice());
    /// ```
    pub fn read_fuse(fuse: Fuse) -> Command<'a>
        ensures value { result ≡ read_fuse fuse }
        ensures bytes { body result ≡ CMD_READ_FUSE_ISP ∷ 0x04 ∷ read_instruction fuse }
    {
        let instruction = match fuse {
            Fuse::Low => [0x50, 0x00, 0x00, 0x00],
            Fuse::High => [0x58, 0x08, 0x00, 0x00],
            Fuse::Extended => [0x50, 0x08, 0x00, 0x00],
        };
        Command::ReadFuse(ReadByte {
            return_address: 4,
            instruction,
        })
    }

    /// Writes the lock byte.
    ///
    /// ```text
    /// let mut body = ArrayVec::new();
    /// Command::program_lock(0xFC).body(&mut body);
    /// assert!(rt; body.as_slice() == [0x19, 0xAC, 0xE0, 0x00, 0xFC].as_slice());
    /// ```
    pub fn program_lock(value: u8) -> Command<'a>
        ensures value { result ≡ program_lock value }
        ensures bytes { body result ≡ CMD_PROGRAM_LOCK_ISP ∷ 0xAC ∷ 0xE0 ∷ 0x00 ∷ value ∷ [] }
    {
        Command::ProgramLock {
            instruction: [0xAC, 0xE0, 0x00, value],
        }
    }

    /// Reads the lock byte.
    ///
    /// ```text
    /// let mut body = ArrayVec::new();
    /// Command::read_lock().body(&mut body);
    /// assert!(rt; body.as_slice() == [0x1A, 0x04, 0x58, 0x00, 0x00, 0x00].as_slice());
    /// ```
    pub fn read_lock() -> Command<'a>
        ensures value { result ≡ read_lock }
        ensures bytes { body result ≡ CMD_READ_LOCK_ISP ∷ 0x04 ∷ 0x58 ∷ 0x00 ∷ 0x00 ∷ 0x00 ∷ [] }
    {
        Command::ReadLock(ReadByte {
            return_address: 4,
            instruction: [0x58, 0x00, 0x00, 0x00],
        })
    }

    /// Reads the signature's byte at `place`, 0 to 2.
    ///
    /// ```text
    /// let mut body = ArrayVec::new();
    /// Command::read_signature(1).body(&mut body);
    /// assert!(rt; body.as_slice() == [0x1B, 0x04, 0x30, 0x00, 0x01, 0x00].as_slice());
    /// ```
    pub fn read_signature(place: u8) -> Command<'a>
        ensures value { result ≡ read_signature place }
        ensures bytes { body result ≡ CMD_READ_SIGNATURE_ISP ∷ 0x04 ∷ 0x30 ∷ 0x00 ∷ place ∷ 0x00 ∷ [] }
    {
        Command::ReadSignature(ReadByte {
            return_address: 4,
            instruction: [0x30, 0x00, place, 0x00],
        })
    }

    /// Reads the calibration byte.
    ///
    /// ```text
    /// let mut body = ArrayVec::new();
    /// Command::read_calibration().body(&mut body);
    /// assert!(rt; body.as_slice() == [0x1C, 0x04, 0x38, 0x00, 0x00, 0x00].as_slice());
    /// ```
    pub fn read_calibration() -> Command<'a>
        ensures value { result ≡ read_calibration }
        ensures bytes { body result ≡ CMD_READ_OSCCAL_ISP ∷ 0x04 ∷ 0x38 ∷ 0x00 ∷ 0x00 ∷ 0x00 ∷ [] }
    {
        Command::ReadOsccal(ReadByte {
            return_address: 4,
            instruction: [0x38, 0x00, 0x00, 0x00],
        })
    }
}
