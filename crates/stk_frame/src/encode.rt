//! Frames and the bodies of commands, as they are sent.
ghost use Rattle.std.specs.Prelude.{◌≡◌, ◌+◌, ◌<◌, ◌≤◌, ◌++◌, length, ◌∷◌, [], drop};
ghost use Rattle.byteorder.specs.Endian.{big_bytes};
ghost use Rattle.stk_frame.specs.Frame.{frame, xor_all};
ghost use Rattle.stk_frame.specs.Commands.{body, fields, program_block_fields};

use crate::command::{Command, EnterProgmode, ProgramBlock};
use crate::protocol::{HEADER_SIZE, LARGEST_BODY, LARGEST_FRAME, MESSAGE_START, TOKEN};
use arrayvec::ArrayVec;
use byteorder::{BigEndian, ByteOrder};

/// Returns the XOR of all bytes.
// It isn't inlined, because in a comparison with 0 the compiler would not vectorize the fold.
#[inline(never)]
pub(crate) fn xor_of(bytes: &[u8]) -> u8
    ensures { result ≡ xor_all bytes.now }
{
    bytes.iter().fold(0, |xor, byte| xor ^ *byte)
}

/// Puts five zeros in place of the header.
pub(crate) fn begin(out: &mut ArrayVec<u8, LARGEST_FRAME>)
    ensures { out.new.items ≡ 0 ∷ 0 ∷ 0 ∷ 0 ∷ 0 ∷ [] }
{
    out.clear();
    let _ = out.try_extend_from_slice(&[0; HEADER_SIZE]);
}

/// Ends a frame that has its body: writes the header into the first five bytes, and appends the checksum.
pub(crate) fn end(seq: u8, out: &mut ArrayVec<u8, LARGEST_FRAME>)
    requires header { HEADER_SIZE ≤ length out.old.items }
    requires room { length out.old.items < LARGEST_FRAME }
    ensures { out.new.items ≡ frame seq (drop HEADER_SIZE out.old.items) }
{
    let bytes = out.as_mut_slice();
    let size = (bytes.len() - HEADER_SIZE) as u16;
    bytes[0] = MESSAGE_START;
    bytes[1] = seq;
    BigEndian::write_u16(&mut bytes[2..4], size);
    bytes[4] = TOKEN;
    let xor = xor_of(out.as_slice());
    out.push(xor);
}

/// Puts the frame that carries `body` with the sequence number `seq` into `out`. The body must have 1 to 275 bytes.
///
/// A frame (AVR068, "Message format") is the start byte `1B`, the number, the body's size, high byte first, the token
/// `0E`, and the body. The last byte makes the XOR of all bytes 0.
///
/// ```text
/// let mut out = ArrayVec::new();
/// put_frame(1, &[0x01], &mut out);
/// assert!(rt; out.as_slice() == [0x1B, 0x01, 0x00, 0x01, 0x0E, 0x01, 0x14].as_slice());
/// ```
pub fn put_frame(seq: u8, body: &[u8], out: &mut ArrayVec<u8, LARGEST_FRAME>)
    requires some { 0 < length body.now }
    requires fits { length body.now ≤ LARGEST_BODY }
    ensures { out.new.items ≡ frame seq body.now }
{
    begin(out);
    let _ = out.try_extend_from_slice(body);
    end(seq, out);
}

fn put<const CAP: usize>(out: &mut ArrayVec<u8, CAP>, bytes: &[u8])
    requires { length out.old.items + length bytes.now ≤ CAP }
    ensures { out.new.items ≡ out.old.items ++ bytes.now }
{
    let _ = out.try_extend_from_slice(bytes);
}

fn put_both<const CAP: usize>(out: &mut ArrayVec<u8, CAP>, front: &[u8], back: &[u8])
    requires { length out.old.items + length (front.now ++ back.now) ≤ CAP }
    ensures { out.new.items ≡ out.old.items ++ (front.now ++ back.now) }
{
    put(out, front);
    put(out, back);
}

/// Appends a count of two bytes, and what follows it.
fn put_count<const CAP: usize>(out: &mut ArrayVec<u8, CAP>, count: u16, back: &[u8])
    requires { length out.old.items + 2 + length back.now ≤ CAP }
    ensures { out.new.items ≡ out.old.items ++ (big_bytes 2 count ++ back.now) }
{
    let mut front = [0; 2];
    BigEndian::write_u16(&mut front, count);
    put_both(out, &front, back);
}

fn put_u32<const CAP: usize>(out: &mut ArrayVec<u8, CAP>, number: u32)
    requires { length out.old.items + 4 ≤ CAP }
    ensures { out.new.items ≡ out.old.items ++ big_bytes 4 number }
{
    let mut bytes = [0; 4];
    BigEndian::write_u32(&mut bytes, number);
    put(out, &bytes);
}

fn put_program_block<const CAP: usize>(out: &mut ArrayVec<u8, CAP>, block: &ProgramBlock<'_>)
    requires { length out.old.items + length (program_block_fields block.now) ≤ CAP }
    ensures { out.new.items ≡ out.old.items ++ program_block_fields block.now }
{
    put_count(
        out,
        block.count,
        &[
            block.mode,
            block.delay,
            block.cmd1,
            block.cmd2,
            block.cmd3,
            block.poll1,
            block.poll2,
        ],
    );
    put(out, block.bytes.bytes());
}

fn put_enter_progmode<const CAP: usize>(out: &mut ArrayVec<u8, CAP>, enter: &EnterProgmode)
    requires { length out.old.items + length (fields (Command.EnterProgmode enter.now)) ≤ CAP }
    ensures { out.new.items ≡ out.old.items ++ fields (Command.EnterProgmode enter.now) }
{
    put(
        out,
        &[
            enter.timeout,
            enter.stab_delay,
            enter.command_delay,
            enter.synch_loops,
            enter.byte_delay,
            enter.poll_value,
            enter.poll_index,
        ],
    );
    put(out, &enter.instruction);
}

impl Command<'_> {
    /// Puts the frame that carries the command with the sequence number `seq` into `out`. Bytes that the command
    /// borrows are copied only there. The command's body must have at most 275 bytes.
    ///
    /// ```text
    /// let mut out = ArrayVec::new();
    /// Command::SignOn.put_frame(1, &mut out);
    /// assert!(rt; out.as_slice() == [0x1B, 0x01, 0x00, 0x01, 0x0E, 0x01, 0x14].as_slice());
    /// ```
    pub fn put_frame(&self, seq: u8, out: &mut ArrayVec<u8, LARGEST_FRAME>)
        requires { length (body self.now) ≤ LARGEST_BODY }
        ensures { out.new.items ≡ frame seq (body self.now) }
    {
        begin(out);
        put(out, &[self.code()]);
        self.put_fields(out);
        end(seq, out);
    }

    /// Puts the command's body into `out`: its byte, then its fields in the order of AVR068, "Commands". Counts and
    /// addresses have their highest byte first. The body must have at most 275 bytes.
    ///
    /// ```text
    /// let mut body = ArrayVec::new();
    /// Command::leave().body(&mut body);
    /// assert!(rt; body.as_slice() == [0x11, 0x01, 0x01].as_slice());
    /// ```
    pub fn body(&self, out: &mut ArrayVec<u8, LARGEST_BODY>)
        requires { length (body self.now) ≤ LARGEST_BODY }
        ensures body { out.new.items ≡ body self.now }
        ensures some { 0 < length out.new.items }
    {
        out.clear();
        put(out, &[self.code()]);
        self.put_fields(out);
    }

    /// Appends the command's fields.
    fn put_fields<const CAP: usize>(&self, out: &mut ArrayVec<u8, CAP>)
        requires { length out.old.items + length (fields self.now) ≤ CAP }
        ensures { out.new.items ≡ out.old.items ++ fields self.now }
    {
        match self {
            Command::SignOn => {}
            Command::SetParameter { number, value } => put(out, &[*number, *value]),
            Command::GetParameter { number } => put(out, &[*number]),
            Command::LoadAddress { address } => put_u32(out, *address),
            Command::EnterProgmode(enter) => put_enter_progmode(out, enter),
            Command::LeaveProgmode {
                pre_delay,
                post_delay,
            } => put(out, &[*pre_delay, *post_delay]),
            Command::ChipErase {
                erase_delay,
                poll_method,
                instruction,
            } => put_both(out, &[*erase_delay, *poll_method], instruction),
            Command::ProgramFlash(block) | Command::ProgramEeprom(block) => put_program_block(
                out, block,
            ),
            Command::ReadFlash(block) | Command::ReadEeprom(block) => put_count(
                out,
                block.count,
                &[block.cmd1],
            ),
            Command::ProgramFuse { instruction } | Command::ProgramLock { instruction } => put(
                out,
                instruction,
            ),
            Command::ReadFuse(read)
            | Command::ReadLock(read)
            | Command::ReadSignature(read)
            | Command::ReadOsccal(read) => put_both(out, &[read.return_address], &read.instruction),
            Command::SpiMulti {
                send_count,
                receive_count,
                receive_start,
                bytes,
            } => put_both(
                out,
                &[*send_count, *receive_count, *receive_start],
                bytes.bytes(),
            ),
        }
    }
}
