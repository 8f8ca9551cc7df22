//! What waits to be received, and the late replies.
ghost use Rattle.std.specs.Prelude.{◌≡◌, ◌+◌, ◌*◌, ◌<◌, ◌≤◌, ◌++◌, [], ◌∷◌, length, take, drop, max, if◌then◌else◌, OnOk};
ghost use Rattle.stk_frame.specs.declared.protocol.TheConstants.{LARGEST_FRAME};
ghost use Rattle.stk_host.specs.declared.link.Item.TheVariants.{Silence};
ghost use Rattle.stk_host.specs.Tape.{on_tape, leading_bytes};
ghost use Rattle.stk_emu.specs.Waiting.{HasNoLeadingByte, HasRoom};
ghost use Rattle.stk_emu.specs.Lawful.{no_late_replies, with_late_reply};
ghost use Rattle.stk_emu.specs.Wire.{released_replies, holds_replies};

use crate::emulator::Frame;
use crate::fate::{Fate, LARGEST_NOISE};
use std::alloc::{AllocError, Global};
use std::collections::VecDeque;
use std::marker::Model;
use std::mem;
use stk_frame::LARGEST_FRAME;

/// The most bytes that one frame can bring: three late replies and noise.
const ROOM: usize = 3 * LARGEST_FRAME + LARGEST_NOISE;

/// What waits to be received: bytes, and a timeout before the byte at each place in `timeouts`.
#[derive(Drop)]
pub(crate) struct Arrivals {
    bytes: Vec<u8>,
    /// The bytes before this place were received.
    at: usize,
    timeouts: VecDeque<usize>,
}

impl Model for Arrivals {
    ghost use Rattle.std.specs.Prelude.{◌≤◌, ◌-◌, length, vec_len, vec_capacity};
    ghost use Rattle.std.specs.VecDeque.{deque_len, deque_capacity};
    ghost use Rattle.stk_emu.specs.Waiting.{Waiting, AreWithin, tape_in};

    ghost Value = { Waiting };

    ghost view = { λ arrivals. record {
      tape = tape_in arrivals.at arrivals.bytes.items arrivals.timeouts.items;
      byte_room = vec_capacity arrivals.bytes - vec_len arrivals.bytes;
      timeout_room = deque_capacity arrivals.timeouts - deque_len arrivals.timeouts;
    } };

    ghost invariant = { λ arrivals. (arrivals.at ≤ length arrivals.bytes.items)
        × AreWithin arrivals.at arrivals.timeouts.items (length arrivals.bytes.items) };
}

impl Arrivals {
    pub fn new(alloc: Global) -> Arrivals
        ensures { result.tape ≡ [] }
    {
        Arrivals {
            bytes: Vec::new(alloc),
            at: 0,
            timeouts: VecDeque::new(alloc),
        }
    }

    /// Reuses the memory of received bytes if nothing waits.
    fn rewind(&mut self)
        ensures { self.new.tape ≡ self.old.tape }
    {
        if self.at == self.bytes.len() && self.timeouts.is_empty() {
            self.bytes.clear();
            self.at = 0;
        }
    }

    /// Makes room for the most that one frame can bring.
    pub fn reserve(&mut self) -> Result<(), AllocError>
        ensures tape { self.new.tape ≡ self.old.tape }
        ensures room { OnOk result (HasRoom self.new) }
    {
        self.rewind();
        self.bytes.reserve(ROOM)?;
        self.timeouts.reserve(1)?;
        Ok(())
    }

    /// Appends bytes that arrive. There has to be room.
    pub fn put(&mut self, bytes: &[u8])
        requires { length bytes.now ≤ self.old.byte_room }
        ensures tape { self.new.tape ≡ self.old.tape ++ on_tape bytes.now }
        ensures byte_room { self.old.byte_room ≤ self.new.byte_room + length bytes.now }
        ensures timeout_room { self.new.timeout_room ≡ self.old.timeout_room }
    {
        let _there_is_room = self.bytes.extend_from_slice(bytes);
    }

    /// Appends a timeout. There has to be room.
    pub fn put_timeout(&mut self)
        requires { 0 < self.old.timeout_room }
        ensures { self.new.tape ≡ self.old.tape ++ Silence ∷ [] }
    {
        self.timeouts.push_back_reserved(self.bytes.len());
    }

    /// Returns the bytes that wait before the first timeout.
    fn leading(&self) -> &[u8]
        ensures bytes { result.now ≡ leading_bytes self.now.tape }
        ensures silent { result.now ≡ [] → HasNoLeadingByte self.now.tape }
    {
        let bytes = &self.bytes[self.at..];
        match self.timeouts.front() {
            Some(place) => &bytes[..*place - self.at],
            None => bytes,
        }
    }

    /// Copies these bytes into the buffer as far as they fit, and returns how many.
    pub fn copy_to(&self, buffer: &mut [u8]) -> usize
        ensures within { result ≤ length buffer.new }
        ensures taken { on_tape (take result buffer.new) ≡ take result self.now.tape }
        ensures inside { result ≤ length (leading_bytes self.now.tape) }
        ensures some { 0 < length buffer.old → result ≡ 0 → HasNoLeadingByte self.now.tape }
    {
        let leading = self.leading();
        let count = leading.len().min(buffer.len());
        buffer[..count].copy_from_slice(&leading[..count]);
        count
    }

    /// Drops `count` leading bytes, or the leading timeout if `count` is 0.
    pub fn drop_next(&mut self, count: usize)
        requires inside { count ≤ length (leading_bytes self.old.tape) }
        requires silent { count ≡ 0 → HasNoLeadingByte self.old.tape }
        ensures { self.new.tape ≡ drop (max 1 count) self.old.tape }
    {
        if count == 0 {
            self.timeouts.pop_front();
        } else {
            self.at += count;
        }
    }
}

/// The last three late replies, in order; an absent one is empty.
#[derive(Drop)]
pub(crate) struct Late {
    first: Frame,
    second: Frame,
    third: Frame,
}

impl Model for Late {
    ghost use Rattle.stk_emu.specs.Lawful.{Late as Waiting};

    ghost Value = { Waiting };

    ghost view = { λ late. record {
      first = late.first.items;
      second = late.second.items;
      third = late.third.items;
    } };
}

impl Late {
    pub fn new() -> Late
        ensures { result ≡ no_late_replies }
    {
        Late {
            first: Frame::new(),
            second: Frame::new(),
            third: Frame::new(),
        }
    }

    /// Adds a reply; a fourth one drops the first.
    pub fn hold(&mut self, reply: Frame)
        ensures { self.new ≡ with_late_reply self.old reply.items }
    {
        let third = mem::replace(&mut self.third, reply);
        self.first = mem::replace(&mut self.second, third);
    }

    /// Moves the late replies to `out`, unless this fate of a frame keeps them waiting.
    pub fn release_replies(&mut self, fate: &Fate, out: &mut Arrivals)
        requires { HasRoom out.old }
        ensures tape { out.new.tape ≡ out.old.tape ++ on_tape (released_replies fate.now self.old) }
        ensures bytes { out.old.byte_room ≤ out.new.byte_room + 3 * LARGEST_FRAME }
        ensures timeouts { out.new.timeout_room ≡ out.old.timeout_room }
        ensures late { self.new ≡ (if holds_replies fate.now then self.old else no_late_replies) }
    {
        if matches!(fate, Fate::HeldAnswer) {
            return;
        }
        out.put(self.first.as_slice());
        out.put(self.second.as_slice());
        out.put(self.third.as_slice());
        self.first.clear();
        self.second.clear();
        self.third.clear();
    }
}
