ghost use Rattle.std.specs.Prelude.{◌≡◌, ◌+◌, ◌^◌, ◌<◌, ◌≤◌, length, drop, min};
ghost use Rattle.avr_image.specs.Image.{first_from};
ghost use Rattle.avr_image.specs.Runs.{leading_run};
ghost use Rattle.avr_records.specs.Sparse.{IsMemory};
ghost use Rattle.avr_records_c.specs.Bitmap.{image_of, octets_of, HasBitmap};

use crate::bitmap::is_marked;
use avr_records::Sparse;
use std::marker::Model;

/// A memory as C passes it: its bytes, and the bitmap that marks the present ones.
#[derive(Drop)]
pub(crate) struct Memory<'a> {
    present: &'a [u8],
    bytes: &'a [u8],
}

impl<'a> Model for Memory<'a> {
    ghost use Rattle.std.specs.Prelude.{ℕ, List, Option};
    ghost use Rattle.avr_records_c.specs.Bitmap.{image_of, HasBitmap};

    ghost Value = { List (Option ℕ) };

    ghost view = { λ m. image_of m.present.now m.bytes.now };

    ghost invariant = { λ m. HasBitmap m.present.now m.bytes.now };
}

impl<'a> Memory<'a> {
    pub(crate) fn new(present: &'a [u8], bytes: &'a [u8]) -> Memory<'a>
        requires { HasBitmap present.now bytes.now }
        ensures image { result ≡ image_of present.now bytes.now }
        ensures short { length result < 2 ^ 32 }
    {
        Memory { present, bytes }
    }
}

/// Returns the least address from `addr` on that holds a byte.
#[tactic(auto, using(crate::proofs::Walks::next_found))]
fn next_there(present: &[u8], bytes: &[u8], addr: usize) -> Option<usize>
    requires { HasBitmap present.now bytes.now }
    ensures next { result ≡ first_from (image_of present.now bytes.now) addr }
    ensures memory { IsMemory (image_of present.now bytes.now) }
{
    let mut at = addr;
    'gap: while at < bytes.len() {
        if is_marked(present, at) {
            return Some(at);
        }
        // An octet that is 0 is skipped in one step.
        if at % 8 == 0 && present[at / 8] == 0 {
            at += 8;
            continue;
        }
        at += 1;
    }
    None
}

/// Returns the address after the row that begins at `addr` and has at most `most` bytes.
#[tactic(auto, using(crate::proofs::Walks::run_ends))]
fn row_end(present: &[u8], bytes: &[u8], addr: usize, most: usize) -> usize
    requires octets { length present.now ≡ octets_of (length bytes.now) }
    requires inside { addr ≤ length bytes.now }
    ensures { result ≡ addr + min most (length (leading_run (drop addr (image_of present.now bytes.now)))) }
{
    let stop = addr + most.min(bytes.len() - addr);
    let mut end = addr;
    'row: while end < stop && is_marked(present, end) {
        end += 1;
    }
    end
}

#[tactic(auto, using(crate::proofs::Walks::row_found))]
impl Sparse for Memory<'_> {
    ghost held = { λ memory. memory };

    fn next_held(&self, addr: u64) -> Option<u32> {
        match next_there(self.present, self.bytes, addr as usize) {
            Some(place) => Some(place as u32),
            None => None,
        }
    }

    fn row_at(&self, addr: u32, most: usize) -> &[u8] {
        let addr = addr as usize;
        if addr >= self.bytes.len() {
            return &[];
        }
        let end = row_end(self.present, self.bytes, addr, most);
        &self.bytes[addr..end]
    }
}
