ghost use Rattle.std.specs.Prelude.{◌≡◌, option_map};
ghost use Rattle.stk_host.specs.Calls.{command_named, host_fault_number, status_named};
ghost use Rattle.stk_host.specs.Operations.{host_fault};

use avr_part::Mem;
use std::fmt;
use thiserror::Error;

/// Why a step failed, if the link didn't. [`crate::Host`] reports it as the [`HostFault`] of the same name. It is
/// public because definitions that other crates' contracts cite use it.
#[derive(Clone, Copy, Debug, Drop, PartialEq, Eq)]
pub enum StepFault {
    /// The last attempt got no reply.
    NoAnswer,
    /// The link has ended.
    LinkEnded,
    /// The last attempt got 4,096 bytes without a reply.
    Babble,
    /// The programmer refused this command with this status.
    Refused(u8, u8),
    /// The reply to this command doesn't fit it.
    BadAnswer(u8),
}

impl StepFault {
    /// Returns the [`HostFault`] of the same name.
    pub(crate) fn reported(self) -> HostFault
        ensures { result ≡ host_fault self }
    {
        match self {
            StepFault::NoAnswer => HostFault::NoAnswer,
            StepFault::LinkEnded => HostFault::LinkEnded,
            StepFault::Babble => HostFault::Babble,
            StepFault::Refused(command, status) => HostFault::Refused(command, status),
            StepFault::BadAnswer(command) => HostFault::BadAnswer(command),
        }
    }
}

/// Why a call of a host failed.
///
/// ```text
/// let fault = HostFault::Differs(Mem::Eeprom, 0x10, 0x55, 0xFF);
/// assert_eq!(rt; (fault.number(), fault.command_name()), (8, None));
/// // a link over which nobody replies
/// let part = Parts::none().find("m328p")?;
/// let mut silent = TapeLink::new(alloc, vec![in alloc; Item::Silence; 8]?, 281);
/// assert_eq!(rt; Host::new(part).open(&mut silent, false), Err(HostFault::NoAnswer));
/// ```
#[derive(Clone, Copy, Drop, PartialEq, Eq, Error)]
pub enum HostFault {
    /// The last of four attempts got no reply.
    #[error("no answer")]
    NoAnswer,
    /// The link has ended.
    #[error("link ended")]
    LinkEnded,
    /// The link failed while sending a frame. All earlier frames were sent, and of this one a part or nothing. All of
    /// it was sent only if the send that failed took its end.
    #[error("link cannot be written")]
    SendFailed,
    /// The last of four attempts got 4,096 bytes without a reply.
    #[error("no answer in 4096 bytes")]
    Babble,
    /// The programmer refused this command with this status (AVR068, "Status constants").
    #[error("command {0:02X} refused with status {1:02X}")]
    Refused(u8, u8),
    /// The reply to this command doesn't fit it.
    #[error("command {0:02X}: bad answer")]
    BadAnswer(u8),
    /// The signature read from the part, which isn't the wanted one.
    #[error("signature is {:02X} {:02X} {:02X}", .0[0], .0[1], .0[2])]
    WrongSignature([u8; 3]),
    /// The memory, the lowest byte address at which it differs from the image, the image's byte, and the memory's.
    #[error("{}: address {:08X}: {:02X} expected, {:02X} found", .0.name(), .1, .2, .3)]
    Differs(Mem, u32, u8, u8),
    /// The memory can't be written: it is the signature or the calibration.
    #[error("{} is read-only", .0.name())]
    ReadOnly(Mem),
    /// Allocation failed.
    #[error("out of memory")]
    Memory,
    /// The link failed while receiving, after a whole frame was sent.
    #[error("link cannot be read")]
    RecvFailed,
}

impl HostFault {
    /// Returns the fault's number, which never changes.
    ///
    /// ```text
    /// assert_eq!(rt; HostFault::ReadOnly(Mem::Signature).number(), 9);
    /// ```
    pub fn number(&self) -> u8
        ensures { result ≡ host_fault_number self.now }
    {
        match self {
            HostFault::NoAnswer => 1,
            HostFault::LinkEnded => 2,
            HostFault::SendFailed => 3,
            HostFault::Babble => 4,
            HostFault::Refused(..) => 5,
            HostFault::BadAnswer(_) => 6,
            HostFault::WrongSignature(_) => 7,
            HostFault::Differs(..) => 8,
            HostFault::ReadOnly(_) => 9,
            HostFault::Memory => 10,
            HostFault::RecvFailed => 11,
        }
    }

    /// Returns AVR068's name of the command that was refused or got a bad reply. Returns `None` for any other fault,
    /// and if the command byte has no name.
    ///
    /// ```text
    /// let refused = HostFault::Refused(0x12, 0xC0);
    /// assert_eq!(rt; refused.command_name(), Some("CMD_CHIP_ERASE_ISP"));
    /// assert_eq!(rt; HostFault::NoAnswer.command_name(), None);
    /// ```
    pub fn command_name(&self) -> Option<&'static str>
        ensures { option_map (λ name. name.now) result ≡ command_named self.now }
    {
        match self {
            HostFault::Refused(command, _) | HostFault::BadAnswer(command) => {
                stk_frame::command_name(*command)
            }
            _ => None,
        }
    }

    /// Returns AVR068's name of the status of [`HostFault::Refused`]. Returns `None` for any other fault, and if the
    /// status byte has no name.
    ///
    /// ```text
    /// let refused = HostFault::Refused(0x12, 0xC0);
    /// assert_eq!(rt; refused.status_name(), Some("STATUS_CMD_FAILED"));
    /// assert_eq!(rt; HostFault::BadAnswer(0x12).status_name(), None);
    /// ```
    pub fn status_name(&self) -> Option<&'static str>
        ensures { option_map (λ name. name.now) result ≡ status_named self.now }
    {
        match self {
            HostFault::Refused(_, status) => stk_frame::status_name(*status),
            _ => None,
        }
    }
}

impl fmt::Debug for HostFault {
    fn fmt<W: fmt::Write>(&self, f: &mut fmt::Formatter<W>) -> fmt::Result {
        fmt::Display::fmt(self, f)
    }
}
