//! Faults injected into frames and replies.
ghost use Rattle.std.specs.Prelude.{◌↔◌, IsTrue, true, false};
ghost use Rattle.stk_emu.specs.Lawful.{IsLawful};

use stk_frame::{Event, FrameReader};

/// What happens to one whole frame on its way to the programmer, and to the reply on its way back.
///
/// ```text
/// let part = Parts::none().find("t85")?;
/// let mut fates = Fates::none(alloc);
/// fates.push(Fate::LateAnswer)?;
/// fates.push(Fate::Reset)?;
/// let mut wire = Wired::with_fates(alloc, Chip::fresh(alloc, part.copied())?, fates);
/// // the first SIGN_ON times out, and its late reply is skipped; at the second the programmer restarts
/// assert!(rt; Host::new(part).open(&mut wire, false).is_ok());
/// ```
#[derive(Debug, Drop, PartialEq, Eq)]
pub enum Fate {
    /// The frame is executed, and the reply arrives.
    Good,
    /// The frame is not executed, and a timeout follows.
    LostCommand,
    /// The frame is executed, and a timeout follows.
    LostAnswer,
    /// The frame is executed, and a timeout follows. The reply arrives before what the next frame brings.
    LateAnswer,
    /// The frame is executed, and a timeout follows. The reply waits behind those that wait already. All of them
    /// arrive before what the first later frame of another fate brings. Three can wait; a fourth one drops the first.
    HeldAnswer,
    /// The frame is not executed, and the programmer restarts: its memories stay, and programming mode, address,
    /// parameters and page buffers are lost. A timeout follows.
    Reset,
    /// The frame is not executed. The reply reports a wrong XOR, with the frame's sequence number.
    CommandRefused,
    /// The frame is executed. This noise arrives in place of the reply, and then a timeout.
    AnswerSpoiled(Vec<u8>),
}

/// The most bytes of noise.
pub(crate) const LARGEST_NOISE: usize = 2048;

/// Returns whether noise can't be taken for a reply: it has at most 2,048 bytes and, cut from the left, no good
/// frame.
///
/// [`crate::Fates::push`] refuses any other noise, so every [`crate::Fate::AnswerSpoiled`] of a [`crate::Wired`] has
/// lawful noise.
///
/// ```text
/// assert!(rt; noise_is_lawful(b"\xFF\x1B\x01"));
/// assert!(rt; !noise_is_lawful(b"\x1B\x01\x00\x02\x0E\x01\x00\x17"));
/// ```
pub fn noise_is_lawful(noise: &[u8]) -> bool
    ensures { IsTrue result ↔ IsLawful noise.now }
{
    if noise.len() > LARGEST_NOISE {
        return false;
    }
    let mut reader = FrameReader::new();
    let mut at = 0;
    while at < noise.len() {
        let (used, event) = reader.feed(&noise[at..]);
        match event {
            Event::Frame => return false,
            _ => at += used,
        }
    }
    true
}
