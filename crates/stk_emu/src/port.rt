//! A port for clients that use `Read` and `Write`.
ghost use Rattle.std.specs.Prelude.{◌≡◌, ◌+◌, ◌<◌, ◌≤◌, ◌++◌, [], ℕ, List, length, take, Some, None, IsOk, IsErr, IfOk, IfErr, OnErr};
ghost use Rattle.std.specs.VecDeque.{deque_len, deque_capacity};
ghost use Rattle.std.specs.IoError.{error_kind};
ghost use Rattle.std.specs.Io.{ReadsAtMost, WritesAtMost};
ghost use Rattle.std.specs.Io.KnownBytes.{Keeps, ReadConsumes, WriteAppends};
ghost use Rattle.stk_emu.specs.Programmer.{Programmer as ProgrammerState};
ghost use Rattle.stk_emu.specs.Emulator.{AppendsReplies};
ghost use Rattle.stk_emu.specs.Port.{IsPortAfter};

use crate::emulator::{Emulator, Frame};
use avr_part::Chip;
use std::alloc::Global;
use std::collections::VecDeque;
use std::io;
use std::io::{ErrorKind, Read, Write};
use std::marker::Model;
use stk_frame::LARGEST_FRAME;

/// A port to an emulated programmer: a client writes frames with `Write` and reads the replies with `Read`.
///
/// A write takes bytes up to the end of the first frame, so `write_all` writes a whole text. If no reply waits, a
/// read fails with `ErrorKind::WouldBlock`, as a serial port does after its timeout. A read never reports the end. A
/// flush does nothing.
///
/// ```text
/// let chip = Chip::fresh(alloc, Parts::none().find("t85")?)?;
/// let mut port = EmulatedPort::new(alloc, Emulator::new(chip));
/// port.write_all(b"\x1B\x01\x00\x01\x0E\x01\x15")?;
/// let mut reply = [0; 281];
/// assert_eq!(rt; port.read(&mut reply)?, 8);
/// assert!(rt; &reply[..8] == b"\x1B\x01\x00\x02\x0E\xB0\xC1\x67".as_slice());
/// ```
#[derive(Debug, Drop)]
pub struct EmulatedPort {
    emulator: Emulator,
    waits: VecDeque<u8>,
}

impl Model for EmulatedPort {
    ghost use Rattle.stk_emu.specs.Port.{PortState};

    ghost Value = { PortState };

    ghost view = { λ port. record { machine = port.emulator; waits = port.waits.items } };
}

/// Appends a reply to those that wait. There has to be room.
fn append(waits: &mut VecDeque<u8>, bytes: &[u8])
    requires { deque_len waits.old + length bytes.now ≤ deque_capacity waits.old }
    ensures { waits.new.items ≡ waits.old.items ++ bytes.now }
{
    for byte in bytes {
        let _there_is_room = waits.push_back(*byte);
    }
}

impl EmulatedPort {
    /// Creates a port to this emulator; no reply waits.
    ///
    /// ```text
    /// let chip = Chip::fresh(alloc, Parts::none().find("t85")?)?;
    /// let port = EmulatedPort::new(alloc, Emulator::new(chip));
    /// assert!(rt; port.chip().byte(Mem::Flash, 0) == Some(0xFF));
    /// ```
    pub fn new(alloc: Global, emulator: Emulator) -> EmulatedPort
        ensures machine { result.machine ≡ emulator }
        ensures waits { result.waits ≡ [] }
    {
        EmulatedPort {
            emulator,
            waits: VecDeque::new(alloc),
        }
    }

    /// Returns the chip after the whole frames written so far.
    ///
    /// ```text
    /// let chip = Chip::fresh(alloc, Parts::none().find("t85")?)?;
    /// let port = EmulatedPort::new(alloc, Emulator::new(chip));
    /// assert!(rt; port.chip().byte(Mem::Signature, 0) == Some(0x1E));
    /// ```
    pub fn chip(&self) -> &Chip
        ensures { result.now ≡ self.now.machine.programmer.chip }
    {
        self.emulator.chip()
    }

    /// Returns the emulator after all that was written. Replies not yet read are lost.
    ///
    /// ```text
    /// let chip = Chip::fresh(alloc, Parts::none().find("t85")?)?;
    /// let emulator = EmulatedPort::new(alloc, Emulator::new(chip)).into_emulator();
    /// assert!(rt; emulator.chip().byte(Mem::Flash, 0) == Some(0xFF));
    /// ```
    pub fn into_emulator(self) -> Emulator
        ensures { result ≡ self.machine }
    {
        let EmulatedPort { emulator, .. } = self;
        emulator
    }
}

impl Read for EmulatedPort {
    ghost remaining = { λ port. Some port.waits };

    fn read(&mut self, buf: &mut [u8]) -> io::Result<usize>
        ensures bound { ReadsAtMost result buf.new }
        ensures bytes { ReadConsumes (Some self.old.waits) (Some self.new.waits) result buf.new }
        ensures machine { self.new.machine ≡ self.old.machine }
        // A read fails only with `WouldBlock`, and only if no reply waits.
        ensures dry { self.old.waits ≡ [] → IsErr result }
        ensures blocks { OnErr result (self.old.waits ≡ []) }
        ensures kind { IfErr result (λ e. error_kind e ≡ ErrorKind.WouldBlock) }
        ensures some { IfOk result (λ n. 0 < length buf.new → 0 < n) }
        ensures passed { (p : ProgrammerState) (written given : List ℕ) → IsPortAfter p written given self.old
            → IfOk result (λ n. IsPortAfter p written (given ++ take n buf.new) self.new) }
    {
        if self.waits.is_empty() {
            return Err(ErrorKind::WouldBlock.into());
        }
        self.waits.read(buf)
    }
}

impl Write for EmulatedPort {
    fn write(&mut self, buf: &[u8]) -> io::Result<usize>
        ensures bound { WritesAtMost result buf.now }
        ensures bytes { WriteAppends None None result buf.now }
        ensures some { IfOk result (λ n. 0 < length buf.now → 0 < n) }
        ensures replies { IfOk result (λ n. AppendsReplies self.old.machine (take n buf.now) self.new.machine
            self.old.waits self.new.waits) }
        ensures passed { (p : ProgrammerState) (written given : List ℕ) → IsPortAfter p written given self.old
            → IfOk result (λ n. IsPortAfter p (written ++ take n buf.now) given self.new) }
        ensures kind { IfErr result (λ e. error_kind e ≡ ErrorKind.OutOfMemory) }
        ensures same { OnErr result (self.new ≡ self.old) }
    {
        self.waits.reserve(LARGEST_FRAME)?;
        let mut reply = Frame::new();
        let used = self.emulator.feed(buf, &mut reply);
        append(&mut self.waits, reply.as_slice());
        Ok(used)
    }

    fn flush(&mut self) -> io::Result<()>
        ensures bytes { Keeps None None }
        ensures ok { IsOk result }
        ensures unchanged { self.new ≡ self.old }
    {
        Ok(())
    }
}
