//! The numbers of the protocol, by their names in AVR068, and the sizes of frames.
//!
//! `CMD_..` is the first byte of a command's body and of its reply, `STATUS_..` the second byte of a reply.
ghost use Rattle.std.specs.Prelude.{◌≡◌, option_map};
ghost use Rattle.stk_frame.specs.Names.{command_names, name_in, status_names};

/// The first byte of a frame.
pub const MESSAGE_START: u8 = 0x1B;

/// The last byte of a frame's header.
pub const TOKEN: u8 = 0x0E;

/// The most bytes of a body.
pub const LARGEST_BODY: usize = 275;

/// The bytes of a frame before its body.
pub(crate) const HEADER_SIZE: usize = 5;

/// The most bytes of a frame: header, body, and the byte that makes the XOR of all 0.
pub const LARGEST_FRAME: usize = HEADER_SIZE + LARGEST_BODY + 1;

/// The most bytes of a block to program: ten others come before them in the body.
pub const LARGEST_BLOCK: usize = LARGEST_BODY - 10;

/// Added to a loaded address: asks for the part's extended address.
pub const EXTENDED_ADDRESS: u32 = 1 << 31;

pub const CMD_SIGN_ON: u8 = 0x01;

pub const CMD_SET_PARAMETER: u8 = 0x02;

pub const CMD_GET_PARAMETER: u8 = 0x03;

pub const CMD_LOAD_ADDRESS: u8 = 0x06;

pub const CMD_ENTER_PROGMODE_ISP: u8 = 0x10;

pub const CMD_LEAVE_PROGMODE_ISP: u8 = 0x11;

pub const CMD_CHIP_ERASE_ISP: u8 = 0x12;

pub const CMD_PROGRAM_FLASH_ISP: u8 = 0x13;

pub const CMD_READ_FLASH_ISP: u8 = 0x14;

pub const CMD_PROGRAM_EEPROM_ISP: u8 = 0x15;

pub const CMD_READ_EEPROM_ISP: u8 = 0x16;

pub const CMD_PROGRAM_FUSE_ISP: u8 = 0x17;

pub const CMD_READ_FUSE_ISP: u8 = 0x18;

pub const CMD_PROGRAM_LOCK_ISP: u8 = 0x19;

pub const CMD_READ_LOCK_ISP: u8 = 0x1A;

pub const CMD_READ_SIGNATURE_ISP: u8 = 0x1B;

pub const CMD_READ_OSCCAL_ISP: u8 = 0x1C;

pub const CMD_SPI_MULTI: u8 = 0x1D;

/// The command was done.
pub const STATUS_CMD_OK: u8 = 0x00;

/// A warning: the command took too long.
pub const STATUS_CMD_TOUT: u8 = 0x80;

/// A warning: the part was busy for too long.
pub const STATUS_RDY_BSY_TOUT: u8 = 0x81;

/// A warning: the part's parameters were not set before the command.
pub const STATUS_SET_PARAM_MISSING: u8 = 0x82;

/// The command was not done.
pub const STATUS_CMD_FAILED: u8 = 0xC0;

/// A bad frame was received; follows `ANSWER_CKSUM_ERROR`.
pub const STATUS_CKSUM_ERROR: u8 = 0xC1;

/// The command is unknown.
pub const STATUS_CMD_UNKNOWN: u8 = 0xC9;

/// Comes in place of the command's byte if a bad frame was received.
pub const ANSWER_CKSUM_ERROR: u8 = 0xB0;

/// Returns AVR068's name of a command's byte, for messages and logs; `None` for a byte that is no command of serial
/// programming.
///
/// ```text
/// assert_eq!(rt; command_name(0x12), Some("CMD_CHIP_ERASE_ISP"));
/// assert_eq!(rt; command_name(0x00), None);
/// ```
pub fn command_name(byte: u8) -> Option<&'static str>
    ensures { option_map (λ name. name.now) result ≡ name_in command_names byte }
{
    match byte {
        CMD_SIGN_ON => Some("CMD_SIGN_ON"),
        CMD_SET_PARAMETER => Some("CMD_SET_PARAMETER"),
        CMD_GET_PARAMETER => Some("CMD_GET_PARAMETER"),
        CMD_LOAD_ADDRESS => Some("CMD_LOAD_ADDRESS"),
        CMD_ENTER_PROGMODE_ISP => Some("CMD_ENTER_PROGMODE_ISP"),
        CMD_LEAVE_PROGMODE_ISP => Some("CMD_LEAVE_PROGMODE_ISP"),
        CMD_CHIP_ERASE_ISP => Some("CMD_CHIP_ERASE_ISP"),
        CMD_PROGRAM_FLASH_ISP => Some("CMD_PROGRAM_FLASH_ISP"),
        CMD_READ_FLASH_ISP => Some("CMD_READ_FLASH_ISP"),
        CMD_PROGRAM_EEPROM_ISP => Some("CMD_PROGRAM_EEPROM_ISP"),
        CMD_READ_EEPROM_ISP => Some("CMD_READ_EEPROM_ISP"),
        CMD_PROGRAM_FUSE_ISP => Some("CMD_PROGRAM_FUSE_ISP"),
        CMD_READ_FUSE_ISP => Some("CMD_READ_FUSE_ISP"),
        CMD_PROGRAM_LOCK_ISP => Some("CMD_PROGRAM_LOCK_ISP"),
        CMD_READ_LOCK_ISP => Some("CMD_READ_LOCK_ISP"),
        CMD_READ_SIGNATURE_ISP => Some("CMD_READ_SIGNATURE_ISP"),
        CMD_READ_OSCCAL_ISP => Some("CMD_READ_OSCCAL_ISP"),
        CMD_SPI_MULTI => Some("CMD_SPI_MULTI"),
        _ => None,
    }
}

/// Returns AVR068's name of a status, warnings included; `None` for any other byte.
///
/// ```text
/// assert_eq!(rt; status_name(0xC0), Some("STATUS_CMD_FAILED"));
/// assert_eq!(rt; status_name(0xFF), None);
/// ```
pub fn status_name(byte: u8) -> Option<&'static str>
    ensures { option_map (λ name. name.now) result ≡ name_in status_names byte }
{
    match byte {
        STATUS_CMD_OK => Some("STATUS_CMD_OK"),
        STATUS_CMD_TOUT => Some("STATUS_CMD_TOUT"),
        STATUS_RDY_BSY_TOUT => Some("STATUS_RDY_BSY_TOUT"),
        STATUS_SET_PARAM_MISSING => Some("STATUS_SET_PARAM_MISSING"),
        STATUS_CMD_FAILED => Some("STATUS_CMD_FAILED"),
        STATUS_CKSUM_ERROR => Some("STATUS_CKSUM_ERROR"),
        STATUS_CMD_UNKNOWN => Some("STATUS_CMD_UNKNOWN"),
        _ => None,
    }
}
