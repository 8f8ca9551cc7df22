//! A programmer that receives frames and sends replies.

ghost use Rattle.std.specs.Prelude.{◌≡◌, ◌<◌, ◌≤◌, ◌++◌, [], ℕ, ◌+◌, List, length, take, OnOk, OnErr};
ghost use Rattle.stk_frame.specs.Frame.{frame};
ghost use Rattle.stk_frame.specs.Cut.{is_good, seq_of};
ghost use Rattle.stk_frame.specs.Reader.{HoldsFrame, EventMatchesHeld, frames_of_event};
ghost use Rattle.stk_emu.specs.Programmer.{Programmer as ProgrammerState, fresh_programmer};
ghost use Rattle.stk_emu.specs.Device.{device, refusal, reply_frame, after_frame, replies, after_frames};
ghost use Rattle.stk_emu.specs.Emulator.{RepliesToFrame, AppendsReplies, AppendsRepliesToPrefix, WasFedText, emulate};

use crate::programmer::{Body, Programmer};
use arrayvec::ArrayVec;
use avr_part::Chip;
use std::alloc::AllocError;
use std::fmt;
use std::marker::Model;
use stk_frame::protocol::{ANSWER_CKSUM_ERROR, STATUS_CKSUM_ERROR};
use stk_frame::{Event, FrameReader, LARGEST_FRAME, put_frame};

/// The body that reports a wrong XOR.
const REFUSAL: [u8; 2] = [ANSWER_CKSUM_ERROR, STATUS_CKSUM_ERROR];

pub(crate) type Frame = ArrayVec<u8, LARGEST_FRAME>;

/// Makes `out` the refusal of the frame in the reader.
pub(crate) fn refuse(reader: &FrameReader, out: &mut Frame)
    requires { HoldsFrame reader.now }
    ensures { out.new.items ≡ frame (seq_of reader.now) refusal }
{
    put_frame(reader.seq(), &REFUSAL, out);
}

/// Makes `out` the reply to the frame in the reader, which is executed if it is good, and refused otherwise.
pub(crate) fn reply(reader: &FrameReader, good: bool, programmer: &mut Programmer, out: &mut Frame)
    requires holds { HoldsFrame reader.now }
    requires is_reported { is_good reader.now ≡ good }
    ensures reply { out.new.items ≡ reply_frame device reader.now programmer.old }
    ensures after { programmer.new ≡ after_frame device reader.now programmer.old }
{
    if !good {
        return refuse(reader, out);
    }
    let mut body = Body::new();
    programmer.execute(reader.body(), &mut body);
    put_frame(reader.seq(), body.as_slice(), out);
}

/// Makes `out` the reply to the frame that the event reports, or empty if it reports none.
fn reply_to_event(reader: &FrameReader, event: Event, programmer: &mut Programmer, out: &mut Frame)
    requires { EventMatchesHeld event reader.now }
    ensures replies { out.new.items ≡ replies device (frames_of_event event reader.now) programmer.old }
    ensures after { programmer.new ≡ after_frames device (frames_of_event event reader.now) programmer.old }
{
    match event {
        Event::More => out.clear(),
        Event::Frame => reply(reader, true, programmer, out),
        Event::Spoiled => reply(reader, false, programmer, out),
    }
}

/// A programmer with its part: takes the bytes of a link and replies to each frame.
///
/// It executes a good frame, and replies to a frame with a wrong XOR with the body `B0 C1`. A reply has the sequence
/// number of its frame, whatever the numbers before. It stores at most one frame.
///
/// ```text
/// let chip = Chip::fresh(alloc, Parts::none().find("t85")?)?;
/// let mut emulator = Emulator::new(chip);
/// let mut reply = ArrayVec::new();
/// let used = emulator.feed(b"\x1B\x01\x00\x01\x0E\x01\x14", &mut reply);
/// assert_eq!(rt; used, 7);
/// assert!(rt; reply.as_slice() == b"\x1B\x01\x00\x0B\x0E\x01\x00\x08STK500_2\x02".as_slice());
/// ```
#[derive(Drop)]
pub struct Emulator {
    reader: FrameReader,
    programmer: Programmer,
}

impl Model for Emulator {
    ghost use Rattle.stk_emu.specs.Emulator.{EmulatorState};

    ghost Value = { EmulatorState };

    ghost view = { λ emulator. record { held = emulator.reader; programmer = emulator.programmer } };
}

impl Emulator {
    /// Creates a programmer with this chip, out of programming mode.
    ///
    /// ```text
    /// let chip = Chip::fresh(alloc, Parts::none().find("t85")?)?;
    /// let emulator = Emulator::new(chip);
    /// assert!(rt; emulator.chip().byte(Mem::Flash, 0) == Some(0xFF));
    /// ```
    pub fn new(chip: Chip) -> Emulator
        ensures held { result.held ≡ [] }
        ensures programmer { result.programmer ≡ fresh_programmer chip }
        ensures begins { WasFedText (fresh_programmer chip) [] result }
    {
        Emulator {
            reader: FrameReader::new(),
            programmer: Programmer::new(chip),
        }
    }

    /// Returns the chip as the frames so far have left it.
    ///
    /// ```text
    /// let chip = Chip::fresh(alloc, Parts::none().find("t85")?)?;
    /// assert!(rt; Emulator::new(chip).chip().byte(Mem::Signature, 0) == Some(0x1E));
    /// ```
    pub fn chip(&self) -> &Chip
        ensures { result.now ≡ self.now.programmer.chip }
    {
        self.programmer.chip()
    }

    /// Returns the chip as the frames so far have left it.
    ///
    /// ```text
    /// let chip = Chip::fresh(alloc, Parts::none().find("t85")?)?;
    /// let chip = Emulator::new(chip).into_chip();
    /// assert!(rt; chip.byte(Mem::Flash, 0) == Some(0xFF));
    /// ```
    pub fn into_chip(self) -> Chip
        ensures { result ≡ self.programmer.chip }
    {
        let Emulator { programmer, .. } = self;
        programmer.into_chip()
    }

    /// Uses bytes up to the end of the first frame, and returns how many; `out` becomes that frame's reply. If no
    /// frame ends, it uses all bytes and leaves `out` empty.
    ///
    /// ```text
    /// let chip = Chip::fresh(alloc, Parts::none().find("t85")?)?;
    /// let mut emulator = Emulator::new(chip);
    /// let mut reply = ArrayVec::new();
    /// let spoiled = b"\x1B\x01\x00\x01\x0E\x01\x15";
    /// assert_eq!(rt; emulator.feed(spoiled, &mut reply), 7);
    /// assert!(rt; reply.as_slice() == b"\x1B\x01\x00\x02\x0E\xB0\xC1\x67".as_slice());
    /// ```
    pub fn feed(&mut self, piece: &[u8], out: &mut ArrayVec<u8, LARGEST_FRAME>) -> usize
        ensures within { result ≤ length piece.now }
        ensures all { out.new.items ≡ [] → result ≡ length piece.now }
        ensures progress { 0 < length piece.now → 0 < result }
        ensures one { RepliesToFrame self.old (take result piece.now) self.new out.new.items }
        // However the text was cut into pieces, the replies are those to the whole text.
        ensures fed { (p : ProgrammerState) (text : List ℕ) → WasFedText p text self.old
            → WasFedText p (text ++ take result piece.now) self.new }
        ensures emulated { (p : ProgrammerState) (text : List ℕ) → WasFedText p text self.old
            → emulate p (text ++ take result piece.now) ≡ emulate p text ++ out.new.items }
    {
        let (used, event) = self.reader.feed(piece);
        reply_to_event(&self.reader, event, &mut self.programmer, out);
        used
    }

    /// Uses all of these bytes, and appends the replies to their frames to `replies`, in order.
    ///
    /// # Errors
    ///
    /// `AllocError` if allocation fails. A proper prefix of the bytes was used, and all replies to that prefix were
    /// appended, none of them in part.
    ///
    /// ```text
    /// let chip = Chip::fresh(alloc, Parts::none().find("t85")?)?;
    /// let mut emulator = Emulator::new(chip);
    /// let mut replies = Vec::new(alloc);
    /// let spoiled = b"\x1B\x01\x00\x01\x0E\x01\x15\x1B\x02\x00\x01\x0E\x01\x16";
    /// emulator.reply_to_all(spoiled, &mut replies)?;
    /// let refused = b"\x1B\x01\x00\x02\x0E\xB0\xC1\x67\x1B\x02\x00\x02\x0E\xB0\xC1\x64";
    /// assert!(rt; replies.as_slice() == refused.as_slice());
    /// ```
    pub fn reply_to_all(&mut self, bytes: &[u8], replies: &mut Vec<u8>) -> Result<(), AllocError>
        ensures appends { OnOk result (AppendsReplies self.old bytes.now self.new
            replies.old.items replies.new.items) }
        ensures prefix { OnErr result (AppendsRepliesToPrefix self.old bytes.now self.new
            replies.old.items replies.new.items) }
        ensures fed { (p : ProgrammerState) (text : List ℕ) → WasFedText p text self.old
            → OnOk result (WasFedText p (text ++ bytes.now) self.new) }
        ensures all { (p : ProgrammerState) (text : List ℕ) → WasFedText p text self.old
            → replies.old.items ≡ emulate p text → OnOk result (replies.new.items ≡ emulate p (text ++ bytes.now)) }
    {
        let mut used = 0;
        while used < bytes.len() {
            replies.reserve(LARGEST_FRAME)?;
            let mut reply = Frame::new();
            used += self.feed(&bytes[used..], &mut reply);
            let _there_is_room = replies.extend_from_slice(reply.as_slice());
        }
        Ok(())
    }
}

impl fmt::Debug for Emulator {
    fn fmt<W: fmt::Write>(&self, f: &mut fmt::Formatter<W>) -> fmt::Result {
        f.debug_struct("Emulator")
            .field("part", &self.chip().part().id())
            .finish_non_exhaustive()
    }
}
