//! An emulated programmer as a link, with injected faults.

ghost use Rattle.std.specs.Prelude.{◌≡◌, ◌==◌, ◌+◌, ◌<◌, ◌≤◌, [], length, take, drop, IfOk, OnOk, OnErr};
ghost use Rattle.stk_host.specs.Tape.{bytes_on_tape};
ghost use Rattle.stk_host.specs.Transcript as transcript;
ghost use Rattle.ghosts.specs.Failures.{counted};
ghost use Rattle.ghosts.specs.Preserves.{Preserves};
ghost use Rattle.stk_host.specs.Transcript.{Sends, Receives, items_of};
ghost use Rattle.stk_emu.specs.Programmer.{fresh_programmer};
ghost use Rattle.stk_emu.specs.Wire.{AreLawful, fresh_wire};
ghost use Rattle.stk_emu.specs.Wired.{Start, wired_link, ComesOf, IsFresh, PassesBytes, IsReceivedNext, after_receiving};

use crate::arrival::Arrivals;
use crate::fate::Fate;
use crate::fates::Fates;
use crate::recorder::{Recorder, Unlogged};
use crate::wire::Wire;
use avr_part::Chip;
use std::alloc::{AllocError, Global};
use std::fmt;
use std::marker::Model;
use stk_frame::FrameReader;
use stk_host::{Heard, Link, LinkFault, Log};

/// A link to an emulated programmer over a faulty wire: the nth whole frame sent has the nth fate, and after the list
/// all are [`Fate::Good`].
///
/// What a frame brings waits until it is received; if nothing waits, a timeout is received. If allocation fails, the
/// link counts a failure, and nothing else changes. It keeps the transcript, unless it is [`Wired::unlogged`].
///
/// ```text
/// let part = Parts::none().find("t85")?;
/// let chip = Chip::fresh(alloc, part.copied())?;
/// let mut wire = Wired::new(alloc, chip, Vec::new(alloc));
/// let mut host = Host::new(part);
/// host.open(&mut wire, false)?;
/// host.close(&mut wire)?;
/// assert_eq!(rt; wire.failures(), 0);
/// ```
#[derive(Drop)]
pub struct Wired<R: Recorder = Log> {
    reader: FrameReader,
    wire: Wire,
    waits: Arrivals,
    log: R,
    failures: u64,
}

impl<R: Recorder> Model for Wired<R> {
    ghost use Rattle.stk_emu.specs.Wired.{WiredState};

    ghost Value = { WiredState };

    ghost view = { λ wired. record {
      held = wired.reader;
      wire = wired.wire;
      waits = wired.waits.tape;
      transcript = R.transcript wired.log;
      failures = wired.failures;
    } };
}

impl Wired {
    /// Creates a wire to a programmer with this chip, out of programming mode. All noise in the fates has to be lawful:
    /// [`crate::noise_is_lawful`] tests it, and a [`Fates`] has no other ([`Wired::with_fates`]).
    ///
    /// ```text
    /// let part = Parts::none().find("t85")?;
    /// let chip = Chip::fresh(alloc, part.copied())?;
    /// let mut fates = Vec::new(alloc);
    /// fates.push(Fate::LostCommand)?;
    /// let mut wire = Wired::new(alloc, chip, fates);
    /// Host::new(part).open(&mut wire, false)?;
    /// ```
    pub fn new(alloc: Global, chip: Chip, fates: Vec<Fate>) -> Wired
        requires { AreLawful fates.items }
        ensures held { result.held ≡ [] }
        ensures wire { result.wire ≡ fresh_wire (fresh_programmer chip) fates.items }
        ensures waits { result.waits ≡ [] }
        ensures transcript { result.transcript ≡ [] }
        ensures sound { result.failures ≡ 0 }
        ensures fresh { IsFresh result }
    {
        Wired {
            reader: FrameReader::new(),
            wire: Wire::new(chip, fates),
            waits: Arrivals::new(alloc),
            log: Log::new(alloc),
            failures: 0,
        }
    }

    /// Creates a wire as [`Wired::new`] does, with fates that were checked when they were added.
    pub fn with_fates(alloc: Global, chip: Chip, fates: Fates) -> Wired
        ensures held { result.held ≡ [] }
        ensures wire { result.wire ≡ fresh_wire (fresh_programmer chip) fates }
        ensures waits { result.waits ≡ [] }
        ensures transcript { result.transcript ≡ [] }
        ensures sound { result.failures ≡ 0 }
        ensures fresh { IsFresh result }
    {
        Wired::new(alloc, chip, fates.into_all())
    }

    /// Returns the bytes sent.
    ///
    /// ```text
    /// let chip = Chip::fresh(alloc, Parts::none().find("t85")?)?;
    /// let mut wire = Wired::new(alloc, chip, Vec::new(alloc));
    /// wire.send(b"\x1B")?;
    /// assert!(rt; wire.sent() == b"\x1B".as_slice());
    /// ```
    pub fn sent(&self) -> &[u8]
        ensures { result.now ≡ transcript.sent self.now.transcript }
    {
        self.log.sent()
    }

    /// Returns the bytes received, without the timeouts.
    ///
    /// ```text
    /// let chip = Chip::fresh(alloc, Parts::none().find("t85")?)?;
    /// let mut wire = Wired::new(alloc, chip, Vec::new(alloc));
    /// wire.send(b"\x1B\x01\x00\x01\x0E\x01\x15")?;
    /// wire.recv(&mut [0; 3])?;
    /// assert!(rt; wire.heard() == b"\x1B\x01\x00".as_slice());
    /// ```
    pub fn heard(&self) -> &[u8]
        ensures { result.now ≡ bytes_on_tape (transcript.heard self.now.transcript) }
    {
        self.log.heard()
    }
}

impl Wired<Unlogged> {
    /// Creates a wire as [`Wired::with_fates`] does, which keeps nothing of what passes: it can't be asked for the
    /// bytes sent and received.
    ///
    /// ```text
    /// let chip = Chip::fresh(alloc, Parts::none().find("t85")?)?;
    /// let mut wire = Wired::unlogged(alloc, chip, Fates::none(alloc));
    /// wire.send(b"\x1B")?;
    /// assert!(rt; !wire.sent_nothing());
    /// ```
    pub fn unlogged(alloc: Global, chip: Chip, fates: Fates) -> Wired<Unlogged>
        ensures held { result.held ≡ [] }
        ensures wire { result.wire ≡ fresh_wire (fresh_programmer chip) fates }
        ensures waits { result.waits ≡ [] }
        ensures transcript { result.transcript ≡ [] }
        ensures sound { result.failures ≡ 0 }
        ensures fresh { IsFresh result }
    {
        Wired {
            reader: FrameReader::new(),
            wire: Wire::new(chip, fates.into_all()),
            waits: Arrivals::new(alloc),
            log: Unlogged::new(),
            failures: 0,
        }
    }
}

impl<R: Recorder> Wired<R> {
    /// Returns whether no byte was sent.
    ///
    /// ```text
    /// let chip = Chip::fresh(alloc, Parts::none().find("t85")?)?;
    /// let wire = Wired::new(alloc, chip, Vec::new(alloc));
    /// assert!(rt; wire.sent_nothing());
    /// ```
    pub fn sent_nothing(&self) -> bool
        ensures { result ≡ (length (transcript.sent self.now.transcript) == 0) }
    {
        self.log.sent_nothing()
    }

    /// Returns the chip as all whole frames sent have left it.
    ///
    /// ```text
    /// let chip = Chip::fresh(alloc, Parts::none().find("t85")?)?;
    /// let wire = Wired::new(alloc, chip, Vec::new(alloc));
    /// assert!(rt; wire.chip().byte(Mem::Flash, 0) == Some(0xFF));
    /// ```
    pub fn chip(&self) -> &Chip
        ensures { result.now ≡ self.now.wire.programmer.chip }
    {
        self.wire.chip()
    }

    /// Returns the chip as all whole frames sent have left it.
    ///
    /// ```text
    /// let chip = Chip::fresh(alloc, Parts::none().find("t85")?)?;
    /// let wire = Wired::new(alloc, chip, Vec::new(alloc));
    /// let chip = wire.into_chip();
    /// assert!(rt; chip.byte(Mem::Flash, 0) == Some(0xFF));
    /// ```
    pub fn into_chip(self) -> Chip
        ensures { result ≡ self.wire.programmer.chip }
    {
        let Wired { wire, .. } = self;
        wire.into_chip()
    }

    /// Returns how many calls have failed so far.
    ///
    /// ```text
    /// let chip = Chip::fresh(alloc, Parts::none().find("t85")?)?;
    /// let wire = Wired::new(alloc, chip, Vec::new(alloc));
    /// assert_eq!(rt; wire.failures(), 0);
    /// ```
    pub fn failures(&self) -> u64
        ensures { result ≡ self.now.failures }
    {
        self.failures
    }

    /// Counts a failure, and returns its fault.
    fn fail(&mut self) -> LinkFault
        ensures fails { self.new ≡ record self.old { failures = counted (self.old.failures + 1) } }
        ensures counted { self.old.failures ≤ self.new.failures }
    {
        self.failures = self.failures.saturating_add(1);
        LinkFault::Failed
    }
}

impl<R: Recorder> Link for Wired<R> {
    ghost view = { wired_link };

    ghost Start = { Start };

    ghost started_as = { ComesOf };

    fn send(&mut self, bytes: &[u8]) -> Result<usize, LinkFault>
        ensures sends { Sends bytes.now (wired_link self.old) (wired_link self.new) result }
        ensures sound { OnOk result (self.new.failures ≡ self.old.failures) }
        // What the frames bring waits behind what waited.
        ensures passes { IfOk result (λ n. PassesBytes self.old self.new (take n bytes.now)) }
        ensures same { OnErr result (self.new ≡ record self.old { failures = self.new.failures }) }
        ensures comes { Preserves ComesOf self.old self.new }
    {
        let Ok(()) = self.waits.reserve() else {
            return Err(self.fail());
        };
        let Ok(()) = self.log.reserve(bytes.len()) else {
            return Err(self.fail());
        };
        let (used, event) = self.reader.feed(bytes);
        self.wire.pass_frame(&self.reader, event, &mut self.waits);
        self.log.add_sent(&bytes[..used]);
        Ok(used)
    }

    fn recv(&mut self, buffer: &mut [u8]) -> Result<Heard, LinkFault>
        requires { 0 < length buffer.old }
        ensures receives { Receives buffer.new (wired_link self.old) (wired_link self.new) result }
        // What waited first is received; if nothing waited, a timeout.
        ensures received { IfOk result (λ heard. self.new ≡ after_receiving (items_of heard buffer.new) self.old) }
        ensures next { IfOk result (λ heard. IsReceivedNext (items_of heard buffer.new) self.old.waits) }
        ensures same { OnErr result (self.new ≡ record self.old { failures = self.new.failures }) }
        ensures comes { Preserves ComesOf self.old self.new }
    {
        let count = self.waits.copy_to(buffer);
        let heard = if count == 0 {
            Heard::Silence
        } else {
            Heard::Bytes(count)
        };
        let Ok(()) = self.log.add_received(heard, &buffer[..count]) else {
            return Err(self.fail());
        };
        self.waits.drop_next(count);
        Ok(heard)
    }
}

impl<R: Recorder> fmt::Debug for Wired<R> {
    fn fmt<W: fmt::Write>(&self, f: &mut fmt::Formatter<W>) -> fmt::Result {
        f.debug_struct("Wired")
            .field("part", &self.chip().part().id())
            .field("failures", &self.failures)
            .finish_non_exhaustive()
    }
}
