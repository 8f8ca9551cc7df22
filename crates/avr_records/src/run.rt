//! A memory of consecutive bytes, for the writers of record files.

ghost use Rattle.std.specs.Prelude.{◌≡◌, ◌+◌, ◌^◌, ◌≤◌, length};
ghost use Rattle.avr_image.specs.Image.{first_from};
ghost use Rattle.avr_records.specs.Sparse.{IsMemory, run_at};

use crate::sparse::Sparse;
use std::marker::Model;

/// Consecutive bytes of a memory, from a byte address on. Contracts see the memory, which ends with the last of them.
///
/// ```text
/// let run = Run::new(0x10000, &[0xAA]);
/// let text = Writer::new(Kind::Srec, &run).to_vec(alloc)?;
/// assert_eq!(rt; text.as_slice(), b"S205010000AA4F\nS804000000FB\n".as_slice());
/// ```
#[derive(Debug, Drop)]
pub struct Run<'a> {
    base: u32,
    bytes: &'a [u8],
}

impl<'a> Model for Run<'a> {
    ghost use Rattle.std.specs.Prelude.{ℕ, List, Option, ◌+◌, ◌^◌, ◌≤◌, length};
    ghost use Rattle.avr_records.specs.Sparse.{run_at};

    ghost Value = { List (Option ℕ) };

    ghost view = { λ run. run_at run.base run.bytes.now };

    ghost invariant = { λ run. run.base + length run.bytes.now ≤ 2 ^ 32 };
}

impl<'a> Run<'a> {
    /// Creates a run whose first byte is at the byte address `base`. It borrows the bytes. Their addresses have to be
    /// below 2 to the power 32.
    ///
    /// ```text
    /// assert_eq!(rt; Run::new(8, &[0x12, 0x34]).next_held(0), Some(8));
    /// ```
    pub fn new(base: u32, bytes: &'a [u8]) -> Run<'a>
        requires { base + length bytes.now ≤ 2 ^ 32 }
        ensures { result ≡ run_at base bytes.now }
    {
        Run { base, bytes }
    }
}

/// Returns the least address from `addr` on that holds a byte.
#[tactic(auto, using(crate::proofs::Writers::RunWalk::run_next))]
fn next_in(base: u32, bytes: &[u8], addr: u64) -> Option<u32>
    requires { base + length bytes.now ≤ 2 ^ 32 }
    ensures next { result ≡ first_from (run_at base bytes.now) addr }
    ensures memory { IsMemory (run_at base bytes.now) }
{
    let skipped = addr.saturating_sub(u64::from(base));
    if skipped < bytes.len() as u64 {
        Some(base + skipped as u32)
    } else {
        None
    }
}

#[tactic(auto, using(crate::proofs::Writers::RunWalk::run_row))]
impl Sparse for Run<'_> {
    ghost held = { λ run. run };

    fn next_held(&self, addr: u64) -> Option<u32> {
        next_in(self.base, self.bytes, addr)
    }

    fn row_at(&self, addr: u32, most: usize) -> &[u8] {
        if addr < self.base {
            return &[];
        }
        let skipped = (addr - self.base) as usize;
        let rest = &self.bytes[skipped.min(self.bytes.len())..];
        &rest[..most.min(rest.len())]
    }
}
