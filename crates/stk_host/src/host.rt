//! The host: operations over a link, and the fault after which nothing more is sent.
ghost use Rattle.std.specs.Prelude.{◌≡◌, ◌<◌, ◌≤◌, ◌^◌, ℕ, List, [], length, Some, None, Ok, Err, IfOk, OnOk, OnErr, MatchOption, true, false, ◌∷◌, if◌then◌else◌, is_ok};
ghost use Rattle.std.specs.Result.{result_and};
ghost use Rattle.avr_part.specs.Mem.{is_writable};
ghost use Rattle.avr_part.specs.Part.{size_of};
ghost use Rattle.stk_host.specs.declared.fault.HostFault.{HostFault};
ghost use Rattle.stk_host.specs.declared.fault.HostFault.TheVariants as fault;
ghost use Rattle.ghosts.specs.Preserves.{Preserves};
ghost use Rattle.stk_host.specs.Operations.{opening, closing, erasing, writing, reading, comparison, verifying, handshake};
ghost use Rattle.stk_host.specs.State.{lasting_fault};
ghost use Rattle.stk_host.specs.Calls.{Calls, opening_result, Converses, EndsSteps};
ghost use Rattle.stk_frame.specs.HostCommands.{leave, read_signature};
ghost use Rattle.stk_host.specs.Steps.{step};

use crate::comparing::compare;
use crate::conversation::{Conversation, play_step};
use crate::fault::HostFault;
use crate::link::Link;
use crate::reading::read_memory;
use crate::writing::write_memory;
use avr_image::Image;
use avr_part::{Mem, Part};
use std::alloc::Global;
use std::fmt;
use std::marker::Model;
use stk_frame::Command;

/// The host's side of the STK500v2 protocol: asks a programmer, over any link, to work on a part.
///
/// Each command (AVR068, "Commands") is tried at most four times. A host keeps one conversation: sequence numbers run
/// on from call to call, and the next call reads the bytes received and not yet read. [`HostFault::LinkEnded`],
/// [`HostFault::SendFailed`] and [`HostFault::RecvFailed`] are lasting: every later call returns the same fault, and
/// nothing is sent or received. After any other fault the host can be used.
///
/// ```text
/// let part = Parts::none().find("m328p")?;
/// let mut image = Image::new(alloc, part.size_of(Mem::Flash))?;
/// image.put_slice(0, &[0x0C, 0x94, 0x34, 0x00])?;
/// let chip = Chip::fresh(alloc, part.copied())?;
/// let mut wire = Wired::with_fates(alloc, chip, Fates::none(alloc));
/// let mut host = Host::new(part);
/// let signature = host.open(&mut wire, false)?;
/// host.erase(&mut wire)?;
/// host.write(&mut wire, Mem::Flash, &image)?;
/// host.verify(alloc, &mut wire, Mem::Flash, &image)?;
/// host.close(&mut wire)?;
/// assert!(rt; signature == [0x1E, 0x95, 0x0F]);
/// assert!(rt; wire.chip().byte(Mem::Flash, 1) == Some(0x94));
/// ```
#[derive(Drop)]
pub struct Host {
    part: Part,
    conversation: Conversation,
    broken: Option<HostFault>,
}

impl Model for Host {
    ghost use Rattle.stk_host.specs.State.{HostState};

    ghost Value = { HostState };

    ghost view = { λ host. record {
      part = host.part;
      progress = host.conversation.progress;
      broken = host.broken;
    } };

    ghost use Rattle.std.specs.Prelude.{◌≤◌, length};
    ghost use Rattle.stk_frame.specs.declared.protocol.TheConstants.{LARGEST_FRAME};

    ghost invariant = { λ host. length host.conversation.progress.unread ≤ LARGEST_FRAME };
}

/// Returns the signature found, if it is the wanted one or any is accepted.
fn check_signature(
    wanted: [u8; 3],
    force: bool,
    begun: Result<[u8; 3], HostFault>,
) -> Result<[u8; 3], HostFault>
    ensures { result ≡ opening_result wanted force begun }
{
    let found = begun?;
    if force || found == wanted {
        Ok(found)
    } else {
        Err(HostFault::WrongSignature(found))
    }
}

/// Empties the vector after a fault.
fn clear_on_fault(outcome: &Result<(), HostFault>, out: &mut Vec<u8>)
    ensures { out.new.items ≡ (if is_ok outcome.now then out.old.items else []) }
{
    if outcome.is_err() {
        out.clear();
    }
}

/// Compares the bytes of a memory with an image, if they were read.
fn compare_if_read(
    taken: Result<(), HostFault>,
    mem: Mem,
    image: &Image,
    found: &[u8],
) -> Result<(), HostFault>
    requires { OnOk taken (length image.now ≤ length found.now) }
    ensures { result ≡ result_and taken (comparison mem image.now found.now) }
{
    taken?;
    compare(mem, image, found)
}

/// Returns the fault, if every later call has to return it, too.
fn lasting<T>(outcome: &Result<T, HostFault>) -> Option<HostFault>
    ensures { result ≡ lasting_fault outcome.now }
{
    match outcome {
        Err(HostFault::LinkEnded) => Some(HostFault::LinkEnded),
        Err(HostFault::SendFailed) => Some(HostFault::SendFailed),
        Err(HostFault::RecvFailed) => Some(HostFault::RecvFailed),
        _ => None,
    }
}

impl Host {
    /// Returns the lasting fault as an error, if there is one.
    fn check(&self) -> Result<(), HostFault>
        ensures { MatchOption self.now.broken (result ≡ Ok tt) (λ fault. result ≡ Err fault) }
    {
        match self.broken {
            Some(fault) => Err(fault),
            None => Ok(()),
        }
    }

    /// Creates a host for `part`. Nothing is sent yet.
    ///
    /// ```text
    /// let part = Parts::none().find("m328p")?;
    /// let host = Host::new(part);
    /// ```
    pub fn new(part: Part) -> Self
        ensures { result ≡ record { part = part; progress = record { next = 1; unread = [] }; broken = None } }
    {
        Host {
            part,
            conversation: Conversation::new(),
            broken: None,
        }
    }

    /// Opens a session: signs on, enters programming mode, and returns the signature read from the part, byte 0
    /// first.
    ///
    /// # Errors
    ///
    /// `WrongSignature` if the signature isn't the part's and `force` is false. Programming mode is then on: call
    /// [`Host::close`], or the chip stays in reset. It may be on after any other fault, too.
    ///
    /// `NoAnswer`, `Babble`, `Refused` or `BadAnswer` if a command fails. `SendFailed`, `RecvFailed` or `LinkEnded`
    /// if the link fails or ends, and in every later call.
    ///
    /// ```text
    /// let part = Parts::none().find("m328p")?;
    /// let chip = Chip::fresh(alloc, part.copied())?;
    /// let mut wire = Wired::with_fates(alloc, chip, Fates::none(alloc));
    /// let signature = Host::new(part).open(&mut wire, false)?;
    /// assert!(rt; signature == [0x1E, 0x95, 0x0F]);
    /// ```
    pub fn open<L: Link>(&mut self, link: &mut L, force: bool) -> Result<[u8; 3], HostFault>
        ensures calls { Calls false (opening self.old.part.signature force) self.old self.new
            (L.view link.old) (L.view link.new) result }
        ensures ok { IfOk result (λ found. force ≡ false → found ≡ self.old.part.signature) }
        ensures wrong { (found : List ℕ) → self.old.broken ≡ None → result ≡ Err (fault.WrongSignature found)
            → (force ≡ false) × ((found ≡ self.old.part.signature) → ⊥) }
        ensures again { (fault : HostFault) → self.old.broken ≡ Some fault
            → (result ≡ Err fault) × (link.new ≡ link.old) }
        ensures comes { Preserves L.started_as link.old link.new }
    {
        self.check()?;
        let begun = begin(&mut self.conversation, link);
        let outcome = check_signature(self.part.signature(), force, begun);
        self.broken = lasting(&outcome);
        outcome
    }

    /// Erases the chip: flash and lock, and EEPROM unless the part's EESAVE fuse preserves it.
    ///
    /// # Errors
    ///
    /// `NoAnswer`, `Babble`, `Refused` or `BadAnswer` if the command fails. `SendFailed`, `RecvFailed` or `LinkEnded`
    /// if the link fails or ends, and in every later call. After a fault the chip may have been erased.
    ///
    /// ```text
    /// let part = Parts::none().find("m328p")?;
    /// let replies = b"\x1B\x01\x00\x02\x0E\x12\x00\x04";
    /// let mut link = StreamLink::new(replies.as_slice(), Vec::new(alloc));
    /// Host::new(part).erase(&mut link)?;
    /// ```
    pub fn erase<L: Link>(&mut self, link: &mut L) -> Result<(), HostFault>
        ensures calls { Calls false erasing self.old self.new (L.view link.old) (L.view link.new) result }
        ensures again { (fault : HostFault) → self.old.broken ≡ Some fault
            → (result ≡ Err fault) × (link.new ≡ link.old) }
        ensures comes { Preserves L.started_as link.old link.new }
    {
        self.check()?;
        let outcome = play_step(&mut self.conversation, link, &None, &Command::erase());
        self.broken = lasting(&outcome);
        outcome
    }

    /// Writes an image to a memory. Flash is written in whole pages, with FF in the image's gaps; of any other memory
    /// only the image's bytes are written. Addresses rise.
    ///
    /// `image` must not be larger than the memory.
    ///
    /// # Errors
    ///
    /// `ReadOnly` if the memory can't be written; nothing is sent. `NoAnswer`, `Babble`, `Refused` or `BadAnswer` if
    /// a command fails. `SendFailed`, `RecvFailed` or `LinkEnded` if the link fails or ends, and in every later call.
    ///
    /// After a fault, the programmer has confirmed all pages before the failed one, which may be written, too. In
    /// EEPROM these are runs of bytes within a page.
    ///
    /// ```text
    /// let part = Parts::none().find("m328p")?;
    /// let image = parse_immediate(alloc, "0xE2", part.size_of(Mem::Lfuse))?;
    /// let replies = b"\x1B\x01\x00\x03\x0E\x17\x00\x00\x00";
    /// let mut link = StreamLink::new(replies.as_slice(), Vec::new(alloc));
    /// Host::new(part).write(&mut link, Mem::Lfuse, &image)?;
    /// ```
    pub fn write<L: Link>(&mut self, link: &mut L, mem: Mem, image: &Image) -> Result<(), HostFault>
        requires { length image.now ≤ size_of mem self.old.part }
        ensures calls { Calls false (writing self.old.part mem image.now) self.old self.new
            (L.view link.old) (L.view link.new) result }
        ensures read_only { self.old.broken ≡ None → is_writable mem ≡ false
            → (result ≡ Err (fault.ReadOnly mem)) × (link.new ≡ link.old) }
        ensures again { (fault : HostFault) → self.old.broken ≡ Some fault
            → (result ≡ Err fault) × (link.new ≡ link.old) }
        ensures comes { Preserves L.started_as link.old link.new }
    {
        self.check()?;
        if !mem.writable() {
            return Err(HostFault::ReadOnly(mem));
        }
        let outcome = write_memory(&mut self.conversation, link, &self.part, mem, image);
        self.broken = lasting(&outcome);
        outcome
    }

    /// Reads a whole memory into the vector, which is emptied first.
    ///
    /// # Errors
    ///
    /// `Memory` if allocation fails; nothing is sent. `NoAnswer`, `Babble`, `Refused` or `BadAnswer` if a command
    /// fails. `SendFailed`, `RecvFailed` or `LinkEnded` if the link fails or ends, and in every later call. After any
    /// fault the vector is empty.
    ///
    /// ```text
    /// let part = Parts::none().find("m328p")?;
    /// let replies = b"\x1B\x01\x00\x04\x0E\x18\x00\x62\x00\x6A";
    /// let mut link = StreamLink::new(replies.as_slice(), Vec::new(alloc));
    /// let mut bytes = Vec::new(alloc);
    /// Host::new(part).read(&mut link, Mem::Lfuse, &mut bytes)?;
    /// assert!(rt; bytes.as_slice() == [0x62].as_slice());
    /// ```
    pub fn read<L: Link>(
        &mut self,
        link: &mut L,
        mem: Mem,
        out: &mut Vec<u8>,
    ) -> Result<(), HostFault>
        // If allocation fails, nothing is sent or received.
        ensures calls { Calls true (reading self.old.part mem) self.old self.new (L.view link.old) (L.view link.new)
            (result_and result (Ok out.new.items)) }
        ensures empty { OnErr result (out.new.items ≡ []) }
        ensures sized { OnOk result (length out.new.items ≡ size_of mem self.old.part) }
        ensures short { length out.new.items < 2 ^ 32 }
        ensures again { (fault : HostFault) → self.old.broken ≡ Some fault
            → (result ≡ Err fault) × (link.new ≡ link.old) }
        ensures comes { Preserves L.started_as link.old link.new }
    {
        out.clear();
        self.check()?;
        if out.reserve(self.part.size_of(mem) as usize).is_err() {
            return Err(HostFault::Memory);
        }
        let outcome = read_memory(&mut self.conversation, link, &self.part, mem, out);
        clear_on_fault(&outcome, out);
        self.broken = lasting(&outcome);
        outcome
    }

    /// Reads a whole memory and compares it with an image, at the addresses that the image holds. `image` must not be
    /// larger than the memory.
    ///
    /// # Errors
    ///
    /// `Differs` at the lowest address that differs. `Memory` if allocation fails; nothing is sent. `NoAnswer`,
    /// `Babble`, `Refused` or `BadAnswer` if a command fails. `SendFailed`, `RecvFailed` or `LinkEnded` if the link
    /// fails or ends, and in every later call.
    ///
    /// ```text
    /// let part = Parts::none().find("m328p")?;
    /// let image = parse_immediate(alloc, "0xE2", part.size_of(Mem::Lfuse))?;
    /// let replies = b"\x1B\x01\x00\x04\x0E\x18\x00\x62\x00\x6A";
    /// let mut link = StreamLink::new(replies.as_slice(), Vec::new(alloc));
    /// let verified = Host::new(part).verify(alloc, &mut link, Mem::Lfuse, &image);
    /// let differs = HostFault::Differs(Mem::Lfuse, 0, 0xE2, 0x62);
    /// assert!(rt; verified == Err(differs));
    /// ```
    pub fn verify<L: Link>(
        &mut self,
        alloc: Global,
        link: &mut L,
        mem: Mem,
        image: &Image,
    ) -> Result<(), HostFault>
        requires { length image.now ≤ size_of mem self.old.part }
        // If allocation fails, nothing is sent or received.
        ensures calls { Calls true (verifying self.old.part mem image.now) self.old self.new
            (L.view link.old) (L.view link.new) result }
        ensures again { (fault : HostFault) → self.old.broken ≡ Some fault
            → (result ≡ Err fault) × (link.new ≡ link.old) }
        ensures comes { Preserves L.started_as link.old link.new }
    {
        self.check()?;
        let mut found = Vec::new(alloc);
        if found.reserve(self.part.size_of(mem) as usize).is_err() {
            return Err(HostFault::Memory);
        }
        let taken = read_memory(&mut self.conversation, link, &self.part, mem, &mut found);
        let outcome = compare_if_read(taken, mem, image, found.as_slice());
        self.broken = lasting(&outcome);
        outcome
    }

    /// Closes the session: leaves programming mode.
    ///
    /// # Errors
    ///
    /// `NoAnswer`, `Babble`, `Refused` or `BadAnswer` if the command fails. `SendFailed`, `RecvFailed` or `LinkEnded`
    /// if the link fails or ends, and in every later call. After a fault the chip may still be in programming mode.
    ///
    /// ```text
    /// let part = Parts::none().find("m328p")?;
    /// let replies = b"\x1B\x01\x00\x02\x0E\x11\x00\x07";
    /// let mut link = StreamLink::new(replies.as_slice(), Vec::new(alloc));
    /// Host::new(part).close(&mut link)?;
    /// ```
    pub fn close<L: Link>(&mut self, link: &mut L) -> Result<(), HostFault>
        ensures calls { Calls false closing self.old self.new (L.view link.old) (L.view link.new) result }
        ensures again { (fault : HostFault) → self.old.broken ≡ Some fault
            → (result ≡ Err fault) × (link.new ≡ link.old) }
        ensures comes { Preserves L.started_as link.old link.new }
    {
        self.check()?;
        let outcome = end(&mut self.conversation, link);
        self.broken = lasting(&outcome);
        outcome
    }
}

impl fmt::Debug for Host {
    fn fmt<W: fmt::Write>(&self, f: &mut fmt::Formatter<W>) -> fmt::Result {
        f.debug_struct("Host")
            .field("part", &self.part.id())
            .field("broken", &self.broken)
            .finish_non_exhaustive()
    }
}

/// Reads one byte of the signature.
fn signature_byte<L: Link>(
    talk: &mut Conversation,
    link: &mut L,
    place: u8,
) -> Result<u8, HostFault>
    ensures { Converses L.Link (EndsSteps (step (read_signature place ∷ [])) (λ byte. byte ∷ []))
        talk.old talk.new link.old link.new result }
{
    let command = Command::read_signature(place);
    talk.step(link, &None, &command)?;
    Ok(talk.data_read(&command)[0])
}

/// Signs on, enters programming mode and reads the signature, byte 0 first.
pub(crate) fn begin<L: Link>(talk: &mut Conversation, link: &mut L) -> Result<[u8; 3], HostFault>
    ensures { Converses L.Link (EndsSteps handshake (λ found. found)) talk.old talk.new link.old link.new result }
{
    talk.step(link, &None, &Command::SignOn)?;
    talk.step(link, &None, &Command::enter())?;
    let first = signature_byte(talk, link, 0)?;
    let second = signature_byte(talk, link, 1)?;
    let third = signature_byte(talk, link, 2)?;
    Ok([first, second, third])
}

/// Leaves programming mode.
pub(crate) fn end<L: Link>(talk: &mut Conversation, link: &mut L) -> Result<(), HostFault>
    ensures { Converses L.Link (EndsSteps (step (leave ∷ [])) (λ done. [])) talk.old talk.new link.old link.new result }
{
    talk.step(link, &None, &Command::leave())
}
