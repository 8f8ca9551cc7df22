ghost use Rattle.std.specs.Prelude.{◌≡◌, ◌+◌, ◌-◌, ◌<◌, ◌≤◌, ◌^◌, ◌++◌, length, take, drop, min};
ghost use Rattle.avr_records.specs.Writing.{text_left};
ghost use Rattle.avr_records_c.specs.Writing.{checked_write_kind as spec_checked_write_kind, ReturnsLength, PutsPrefix, Writes};

use crate::bitmap::is_bitmap_of;
use crate::cursor::{Cursor, cursor_of, position_of};
use crate::memory::Memory;
use crate::numbers::kind_numbered;
use crate::outcome::MISFIT;
use crate::piece::Piece;
use arrayvec::ArrayVec;
use avr_records::{Cursor as Position, Kind};

/// Returns the kind of file, if the arguments fit one another.
fn checked_write_kind(kind: u8, size: usize, present: usize) -> Option<Kind>
    ensures { result ≡ spec_checked_write_kind kind size present }
{
    if is_bitmap_of(present, size) {
        kind_numbered(kind)
    } else {
        None
    }
}

/// Puts as much as fits of a line, without its first `gone` bytes, at `put` in the room. Returns the number of bytes.
fn put_part(line: &[u8], gone: usize, room: &mut [u8], put: usize) -> usize
    requires { put ≤ length room.old }
    ensures count { result ≡ min (length room.old - put) (length (drop gone line.now)) }
    ensures room { room.new ≡ take put room.old ++ (take result (drop gone line.now) ++ drop (put + result) room.old) }
{
    let from = gone.min(line.len());
    let count = (room.len() - put).min(line.len() - from);
    room[put..put + count].copy_from_slice(&line[from..from + count]);
    count
}

/// Puts as much as fits of the rest of a file into the room. Returns the number of bytes.
fn put_rest(lines: &mut Position, gone: &mut u32, memory: &Memory<'_>, room: &mut [u8]) -> usize
    ensures put { PutsPrefix (drop gone.old (text_left lines.old memory.now))
        (drop gone.new (text_left lines.new memory.now))
        room.old result room.new }
    ensures kind { lines.new.kind ≡ lines.old.kind }
{
    let mut line = ArrayVec::new();
    let mut put = 0;
    'lines: while put < room.len() {
        let mut next = *lines;
        if !next.next_line(memory, &mut line) {
            return put;
        }
        let count = put_part(line.as_slice(), *gone as usize, room, put);
        put += count;
        if *gone as usize + count < line.len() {
            // The room is full.
            *gone += count as u32;
            return put;
        }
        *gone -= (line.len() - count) as u32;
        *lines = next;
    }
    put
}

/// Returns how many bytes of the file are left.
fn count_rest(lines: Position, memory: &Memory<'_>) -> usize
    requires { length (text_left lines memory.now) < 2 ^ 64 }
    ensures { result ≡ length (text_left lines memory.now) }
{
    let mut left = lines;
    let mut line = ArrayVec::new();
    let mut count = 0;
    'lines: while left.next_line(memory, &mut line) {
        count += line.len();
    }
    count
}

/// Returns the length in bytes of a memory's record file, so that the caller can allocate a room for all of it.
/// Arguments and fault are those of `avr_records_write`. With a fault the length is 0. It allocates nothing.
#[tactic(auto, using(crate::proofs::Lengths::countable))]
#[unsafe(no_mangle)]
pub extern "C" fn avr_records_length(kind: u8, bytes: &[u8], present: &[u8]) -> Piece
    ensures { ReturnsLength kind bytes.now present.now result }
{
    let Some(kind) = checked_write_kind(kind, bytes.len(), present.len()) else {
        return Piece::none(MISFIT);
    };
    let memory = Memory::new(present, bytes);
    Piece {
        length: count_rest(Position::new(kind, &memory), &memory),
        fault: 0,
    }
}

/// Puts the next bytes of a memory's record file into the caller's room, as many as fit. A piece shorter than the
/// room is the last one. The cursor keeps the position in the file, and all its numbers are 0 at the beginning. The
/// file has no header. Its start address, which only S-records have, is 0. It allocates nothing.
///
/// The kind is 1 for Intel HEX or 2 for S-records. The bitmap, as in `avr_records_read`, marks the bytes that belong
/// to the file. The fault is 11 if the arguments don't fit one another, or no call leaves such a cursor. Room and
/// cursor are then unchanged. A cursor of another memory or kind isn't detected: its numbers are used as they are.
#[tactic(auto, using(crate::proofs::Cursors::left_kept))]
#[unsafe(no_mangle)]
pub extern "C" fn avr_records_write(
    kind: u8,
    bytes: &[u8],
    present: &[u8],
    cursor: &mut Cursor,
    room: &mut [u8],
) -> Piece
    ensures { Writes kind bytes.now present.now cursor.old room.old (record
        { piece = result; cursor = cursor.new; room = room.new }) }
{
    let Some(kind) = checked_write_kind(kind, bytes.len(), present.len()) else {
        return Piece::none(MISFIT);
    };
    let memory = Memory::new(present, bytes);
    let Some(mut lines) = position_of(kind, cursor, &memory) else {
        return Piece::none(MISFIT);
    };
    let mut gone = cursor.gone;
    let length = put_rest(&mut lines, &mut gone, &memory, room);
    *cursor = cursor_of(&lines, gone);
    Piece { length, fault: 0 }
}
