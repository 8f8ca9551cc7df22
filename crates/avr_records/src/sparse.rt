//! What a writer of record files asks of a memory.

ghost use Rattle.std.specs.Prelude.{◌≡◌, ◌+◌, ◌≤◌, ℕ, List, Option, length, take, drop, min};
ghost use Rattle.avr_image.specs.Image.{first_from};
ghost use Rattle.avr_image.specs.Runs.{leading_run};
ghost use Rattle.avr_records.specs.Sparse.{IsMemory};

use avr_image::Image;

/// A memory with gaps, of which a `Writer` or a `Cursor` writes the record file: an `Image`, a `Run`, or a caller's
/// own type.
///
/// ```text
/// let mut image = Image::new(alloc, 64)?;
/// image.put_slice(8, &[0x12, 0x34])?;
/// assert_eq!(rt; image.next_held(0), Some(8));
/// assert_eq!(rt; image.row_at(8, 32).len(), 2);
/// ```
pub trait Sparse {
    /// The memory: for each address an optional byte.
    ghost held: { Self → List (Option ℕ) };

    /// Returns the least byte address from `addr` on that holds a byte.
    fn next_held(&self, addr: u64) -> Option<u32>
        ensures next { result ≡ first_from (held self.now) addr }

        // The list alone doesn't show that its values are bytes, nor that there are at most 2 to the power 32.
        ensures memory { IsMemory (held self.now) };

    /// Returns the bytes from the byte address `addr` on up to the next gap, but at most `most`.
    fn row_at(&self, addr: u32, most: usize) -> &[u8]
        ensures row { result.now ≡ take most (leading_run (drop addr (held self.now))) }
        ensures few { length result.now ≤ most };
}

/// Returns the address after the row that begins at `place` and has at most `most` bytes.
#[tactic(auto, using(crate::proofs::Writers::SparseWalk::rows_read))]
fn row_end(image: &Image, place: u32, most: usize) -> u32
    ensures { result ≡ place + min most (length (leading_run (drop place image.now))) }
{
    let room = most.min(image.size().saturating_sub(place) as usize) as u32;
    image.run_from(place, place + room)
}

#[tactic(auto, using(crate::proofs::Writers::SparseWalk::rows_read))]
impl Sparse for Image {
    ghost held = { λ image. image };

    fn next_held(&self, addr: u64) -> Option<u32> {
        self.is_sound();
        match u32::try_from(addr) {
            Ok(addr) => self.first_from(addr),
            Err(_) => None,
        }
    }

    fn row_at(&self, addr: u32, most: usize) -> &[u8] {
        if addr >= self.size() {
            return &[];
        }
        let end = row_end(self, addr, most);
        &self.as_slice()[addr as usize..end as usize]
    }
}
