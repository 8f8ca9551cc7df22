ghost use Rattle.std.specs.Prelude.{◌≡◌, ◌≤◌, length, MatchResult, IfOk, Ok, Err};
ghost use Rattle.stk_frame.specs.Commands.{judge, shape, data_in_shape, FitsShape};
ghost use Rattle.stk_frame.specs.Faults.{frame_fault_number};

use crate::command::Command;
use crate::protocol::{ANSWER_CKSUM_ERROR, STATUS_CKSUM_ERROR, STATUS_CMD_OK};
use thiserror::Error;

/// Why the body isn't a good reply to the command.
///
/// ```text
/// let spoiled = Answer::read(&Command::SignOn, &[0xB0, 0xC1]);
/// assert!(rt; spoiled.err() == Some(FrameFault::CheckSum));
/// let refused = Answer::read(&Command::erase(), &[0x12, 0xC0]);
/// assert!(rt; refused.err() == Some(FrameFault::Status(0xC0)));
/// let other = Answer::read(&Command::erase(), &[0x11, 0x00]);
/// assert!(rt; other.err() == Some(FrameFault::WrongCommand));
/// ```
#[derive(Clone, Copy, Debug, PartialEq, Eq, Error)]
pub enum FrameFault {
    /// The reply has another length than this command's, or is the command's byte alone.
    #[error("an answer of another length")]
    WrongLength,
    /// The first byte is not the command's.
    #[error("an answer to another command")]
    WrongCommand,
    /// The programmer received a bad frame: the reply `B0 C1`.
    #[error("a frame that came spoiled")]
    CheckSum,
    /// The first or the last status is this byte, not 00.
    #[error("status {0:02X}")]
    Status(u8),
}

impl FrameFault {
    /// Returns the fault's number, which never changes.
    ///
    /// ```text
    /// assert_eq!(rt; FrameFault::CheckSum.number(), 3);
    /// ```
    pub fn number(&self) -> u8
        ensures { result ≡ frame_fault_number self.now }
    {
        match self {
            FrameFault::WrongLength => 1,
            FrameFault::WrongCommand => 2,
            FrameFault::CheckSum => 3,
            FrameFault::Status(_) => 4,
        }
    }
}

/// A good reply.
///
/// ```text
/// let answer = Answer::read(&Command::GetParameter { number: 0x90 }, &[0x03, 0x00, 0x0F])?;
/// assert!(rt; answer.data == [0x0F].as_slice());
/// ```
#[derive(Clone, Copy, Debug)]
pub struct Answer<'a> {
    /// The bytes between the first and the last status, or after the only one. For SIGN_ON they are the name.
    pub data: &'a [u8],
}

/// What follows the first status of a reply.
///
/// ```text
/// assert!(rt; Shape::Name.data_in(b"\x08STK500_2")? == b"STK500_2".as_slice());
/// assert!(rt; Shape::Bytes(1).data_in(&[0x0F])? == [0x0F].as_slice());
/// assert!(rt; Shape::Closed(2).data_in(&[0x1E, 0x95, 0x00])? == [0x1E, 0x95].as_slice());
/// ```
#[derive(Clone, Copy, Debug, PartialEq, Eq)]
pub enum Shape {
    /// A length, and a name of that many bytes.
    Name,
    /// This many bytes.
    Bytes(u16),
    /// This many bytes, and a last status.
    Closed(u16),
}

impl Command<'_> {
    /// Returns what follows the first status of a reply to this command.
    ///
    /// ```text
    /// assert_eq!(rt; Command::SignOn.shape(), Shape::Name);
    /// assert_eq!(rt; Command::read_flash(256).shape(), Shape::Closed(256));
    /// ```
    pub fn shape(&self) -> Shape
        ensures { result ≡ shape self.now }
    {
        match self {
            Command::SignOn => Shape::Name,
            Command::GetParameter { .. } => Shape::Bytes(1),
            Command::ReadFlash(block) | Command::ReadEeprom(block) => Shape::Closed(block.count),
            Command::ProgramFuse { .. } | Command::ProgramLock { .. } => Shape::Closed(0),
            Command::ReadFuse(_)
            | Command::ReadLock(_)
            | Command::ReadSignature(_)
            | Command::ReadOsccal(_) => Shape::Closed(1),
            Command::SpiMulti { receive_count, .. } => Shape::Closed(u16::from(*receive_count)),
            _ => Shape::Bytes(0),
        }
    }
}

impl Shape {
    /// Returns the data in what follows the first status.
    ///
    /// # Errors
    ///
    /// `WrongLength` if it has another length; `Status` if the last status isn't 00.
    ///
    /// ```text
    /// assert!(rt; Shape::Closed(1).data_in(&[0x62, 0x00])? == [0x62].as_slice());
    /// assert!(rt; Shape::Closed(1).data_in(&[0x62, 0xC0]).err() == Some(FrameFault::Status(0xC0)));
    /// ```
    pub fn data_in<'a>(&self, more: &'a [u8]) -> Result<&'a [u8], FrameFault>
        ensures verdict { MatchResult result (λ found. data_in_shape self.now more.now ≡ Ok found.now)
            (λ fault. data_in_shape self.now more.now ≡ Err fault) }
        ensures fits { IfOk result (λ found. length found.now ≤ length more.now) }
        ensures sized { IfOk result (λ found. FitsShape self.now found.now) }
    {
        match self {
            Shape::Name => match more {
                [size, name @ ..] if name.len() == *size as usize => Ok(name),
                _ => Err(FrameFault::WrongLength),
            },
            Shape::Bytes(size) => if more.len() == *size as usize {
                Ok(more)
            } else {
                Err(FrameFault::WrongLength)
            },
            Shape::Closed(size) => {
                let size = *size as usize;
                if more.len() != size + 1 {
                    return Err(FrameFault::WrongLength);
                }
                if more[size] != STATUS_CMD_OK {
                    return Err(FrameFault::Status(more[size]));
                }
                Ok(&more[..size])
            }
        }
    }
}

impl<'a> Answer<'a> {
    /// Reads the body of a reply to this command (AVR068, "Commands").
    ///
    /// # Errors
    ///
    /// The first of these, in this order:
    /// - `CheckSum`: the body is exactly `B0 C1`.
    /// - `WrongCommand`: the first byte is missing or not the command's.
    /// - `WrongLength`: there is one byte alone.
    /// - `Status`: the second byte isn't 00.
    /// - `WrongLength`: the length isn't the command's.
    /// - `Status`: the last status, if the command has one, isn't 00.
    ///
    /// ```text
    /// let answer = Answer::read(&Command::SignOn, b"\x01\x00\x08STK500_2")?;
    /// assert!(rt; answer.data == b"STK500_2".as_slice());
    /// let refusal = Answer::read(&Command::erase(), &[0xB0, 0xC1]);
    /// assert!(rt; refusal.err() == Some(FrameFault::CheckSum));
    /// ```
    pub fn read(command: &Command<'_>, body: &'a [u8]) -> Result<Answer<'a>, FrameFault>
        ensures verdict { MatchResult result (λ answer. judge command.now body.now ≡ Ok answer.data.now)
            (λ fault. judge command.now body.now ≡ Err fault) }
        ensures fits { IfOk result (λ answer. length answer.data.now ≤ length body.now) }
        ensures sized { IfOk result (λ answer. FitsShape (shape command.now) answer.data.now) }
    {
        match body {
            [] => Err(FrameFault::WrongCommand),
            [first] => if *first == command.code() {
                Err(FrameFault::WrongLength)
            } else {
                Err(FrameFault::WrongCommand)
            },
            [first, status, more @ ..] => {
                if *first == ANSWER_CKSUM_ERROR
                    && *status == STATUS_CKSUM_ERROR
                    && more.is_empty()
                {
                    return Err(FrameFault::CheckSum);
                }
                if *first != command.code() {
                    return Err(FrameFault::WrongCommand);
                }
                if *status != STATUS_CMD_OK {
                    return Err(FrameFault::Status(*status));
                }
                let data = command.shape().data_in(more)?;
                Ok(Answer { data })
            }
        }
    }
}
