//! Passes frames over the wire, each with its fate.
ghost use Rattle.std.specs.Prelude.{◌≡◌, ◌++◌};
ghost use Rattle.stk_frame.specs.Frame.{frame};
ghost use Rattle.stk_frame.specs.Cut.{is_good, seq_of};
ghost use Rattle.stk_frame.specs.Reader.{HoldsFrame, EventMatchesHeld, frames_of_event};
ghost use Rattle.stk_host.specs.Tape.{on_tape};
ghost use Rattle.stk_emu.specs.Programmer.{fresh_programmer, restarted_programmer};
ghost use Rattle.stk_emu.specs.Device.{device, refusal, reply_frame, after_frame};
ghost use Rattle.stk_emu.specs.Waiting.{HasRoom};
ghost use Rattle.stk_emu.specs.Wire.{AreLawful, IsLawfulFate, fresh_wire, tape_of, wire_after_frames, released_replies, late_after, exchange_of_fate, brought_by_fate};
ghost use Rattle.stk_emu.specs.Exchange.{after_exchange};

use crate::arrival::{Arrivals, Late};
use crate::emulator::{Frame, refuse, reply};
use crate::fate::Fate;
use crate::programmer::Programmer;
use avr_part::Chip;
use std::marker::Model;
use stk_frame::{Event, FrameReader};

/// A wire: the programmer at its end, the fates of its frames, and the late replies.
#[derive(Drop)]
pub(crate) struct Wire {
    programmer: Programmer,
    fates: Vec<Fate>,
    next: usize,
    late: Late,
}

impl Model for Wire {
    ghost use Rattle.std.specs.Prelude.{drop};
    ghost use Rattle.stk_emu.specs.Programmer.{Programmer as State};
    ghost use Rattle.stk_emu.specs.Wire.{Wire, AreLawful};

    ghost Value = { Wire State };

    ghost view = { λ wire. record {
      programmer = wire.programmer;
      fates = drop wire.next wire.fates.items;
      late = wire.late;
    } };

    ghost invariant = { λ wire. AreLawful wire.fates.items };
}

/// Passes the frame in the reader with this fate, and appends what arrives for it to `out`, late replies first.
fn pass_with(
    fate: &Fate,
    programmer: &mut Programmer,
    late: &mut Late,
    reader: &FrameReader,
    good: bool,
    out: &mut Arrivals,
)
    requires room { HasRoom out.old }
    requires lawful { IsLawfulFate fate.now }
    requires holds { HoldsFrame reader.now }
    requires is_reported { is_good reader.now ≡ good }
    ensures tape { out.new.tape ≡ out.old.tape ++ (on_tape (released_replies fate.now late.old)
        ++ brought_by_fate fate.now (reply_frame device reader.now programmer.old)
        (frame (seq_of reader.now) refusal)) }
    ensures programmer { programmer.new ≡ after_exchange (exchange_of_fate fate.now) (after_frame device reader.now
        programmer.old)
        programmer.old restarted_programmer }
    ensures late { late.new ≡ late_after fate.now (reply_frame device reader.now programmer.old) late.old }
{
    let mut frame = Frame::new();
    late.release_replies(fate, out);
    match fate {
        Fate::Good => {
            reply(reader, good, programmer, &mut frame);
            out.put(frame.as_slice());
        }
        Fate::LostCommand => out.put_timeout(),
        Fate::LostAnswer => {
            reply(reader, good, programmer, &mut frame);
            out.put_timeout();
        }
        Fate::LateAnswer | Fate::HeldAnswer => {
            reply(reader, good, programmer, &mut frame);
            late.hold(frame);
            out.put_timeout();
        }
        Fate::Reset => {
            programmer.restart();
            out.put_timeout();
        }
        Fate::CommandRefused => {
            refuse(reader, &mut frame);
            out.put(frame.as_slice());
        }
        Fate::AnswerSpoiled(noise) => {
            reply(reader, good, programmer, &mut frame);
            out.put(noise.as_slice());
            out.put_timeout();
        }
    }
}

impl Wire {
    /// Creates a wire to a programmer with this chip. Frames beyond these fates pass unharmed.
    pub fn new(chip: Chip, fates: Vec<Fate>) -> Wire
        requires { AreLawful fates.items }
        ensures { result ≡ fresh_wire (fresh_programmer chip) fates.items }
    {
        Wire {
            programmer: Programmer::new(chip),
            fates,
            next: 0,
            late: Late::new(),
        }
    }

    pub fn chip(&self) -> &Chip
        ensures { result.now ≡ self.now.programmer.chip }
    {
        self.programmer.chip()
    }

    pub fn into_chip(self) -> Chip
        ensures { result ≡ self.programmer.chip }
    {
        let Wire { programmer, .. } = self;
        programmer.into_chip()
    }

    /// Passes the frame that the event reports, if it reports one.
    pub fn pass_frame(&mut self, reader: &FrameReader, event: Event, out: &mut Arrivals)
        requires room { HasRoom out.old }
        requires is_reported { EventMatchesHeld event reader.now }
        ensures tape { out.new.tape ≡ out.old.tape ++ tape_of device (frames_of_event event reader.now) self.old }
        ensures wire { self.new ≡ wire_after_frames device (frames_of_event event reader.now) self.old }
    {
        let good = match event {
            Event::More => return,
            Event::Frame => true,
            Event::Spoiled => false,
        };
        let programmer = &mut self.programmer;
        match self.fates.get(self.next) {
            Some(fate) => {
                pass_with(fate, programmer, &mut self.late, reader, good, out);
                self.next += 1;
            }
            None => pass_with(&Fate::Good, programmer, &mut self.late, reader, good, out),
        }
    }
}
