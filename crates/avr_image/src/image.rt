//! Images of memories: for each byte address a byte or a gap.

ghost use Rattle.std.specs.Prelude.{◌≡◌, ◌==◌, ◌+◌, ◌^◌, ◌<◌, ◌≤◌, ℕ, List, length, max, nat_lt, Ok, Err, OnOk, OnErr, MatchOption, MatchResult, None, false, slice_index, slice_index_or, slice_set, if◌then◌else◌};
ghost use Rattle.std.specs.Cmp.{nat_eq_equiv, partial_equiv_from_equiv};
ghost use Rattle.std.specs.Cmp.Lexicographic.{lists_equiv, options_equiv};
ghost use Rattle.avr_image.specs.Image.{empty, is_same, byte_at, with_byte, byte_count, filled_bytes, first_from, holds_any, run_end, fits, with_pairs, over, IsImage};
ghost use Rattle.avr_image.specs.Runs.{runs};
ghost use Rattle.avr_image.specs.Walk.{IsLastHeld};
ghost use Rattle.std.specs.List.{enumerate_from};
ghost use Rattle.avr_image.specs.Dense.{with_span};
ghost use Rattle.avr_image.specs.Overlap.{IsFirstOverlap, hold_both};

use crate::bits::{first_place, is_set, mark, mark_span, unmark};
use crate::fault::ImageFault;
use crate::runs::Runs;
use std::alloc::{AllocError, Global};
use std::fmt;
use std::marker::Model;

/// The bytes of a memory, with gaps. Contracts see a list of optional bytes, one for each byte address.
///
/// ```text
/// let mut image = Image::new(alloc, 32_768)?;
/// image.put(0, 0x0C)?;
/// assert_eq!(rt; image.get(0), Some(0x0C));
/// assert_eq!(rt; image.get(1), None);
/// ```
#[derive(Drop)]
pub struct Image {
    bytes: Vec<u8>,
    words: Vec<u64>,
}

impl Model for Image {
    ghost use Rattle.std.specs.Prelude.{ℕ, List, Option};
    ghost use Rattle.avr_image.specs.Dense.{dense_image, IsSoundStorage};

    ghost Value = { List (Option ℕ) };

    ghost view = { λ i. dense_image i.words.items i.bytes.items };

    ghost invariant = { λ i. IsSoundStorage i.words.items i.bytes.items };
}

/// Copies the bytes from `start` on. After their end `out` gets FF.
fn copy_padded(bytes: &[u8], start: usize, out: &mut [u8])
    ensures len { length out.new ≡ length out.old }
    ensures copied { (i : ℕ) → i < length out.old → slice_index out.new i ≡ slice_index_or bytes.now (start + i) 255 }
{
    let from = start.min(bytes.len());
    let count = out.len().min(bytes.len() - from);
    let (copied, blank) = out.split_at_mut(count);
    copied.copy_from_slice(&bytes[from..from + count]);
    blank.fill(255);
}

fn paste(bytes: &mut Vec<u8>, start: usize, span: &[u8])
    requires { start + length span.now ≤ length bytes.old.items }
    ensures { bytes.new.items ≡ with_span start span.now bytes.old.items }
{
    let end = start + span.len();
    bytes[start..end].copy_from_slice(span);
}

#[tactic(auto, using(crate::proofs::Stored::stored))]
impl Image {
    /// Creates an empty image of a memory of `size` bytes. No other call on it allocates, except `try_clone`.
    ///
    /// # Errors
    ///
    /// `Memory` if allocation fails.
    ///
    /// ```text
    /// let image = Image::new(alloc, 32_768)?;
    /// assert_eq!(rt; image.len(), 0);
    /// ```
    pub fn new(alloc: Global, size: u32) -> Result<Image, ImageFault>
        ensures { MatchResult result (λ image. image ≡ empty size) (λ fault. fault ≡ ImageFault.Memory) }
    {
        let size = size as usize;
        let Ok(bytes) = vec![in alloc; 255; size] else {
            return Err(ImageFault::Memory);
        };
        let Ok(words) = vec![in alloc; 0; size / 64 + 1] else {
            return Err(ImageFault::Memory);
        };
        Ok(Image { bytes, words })
    }

    /// Copies the image into memory of its own.
    ///
    /// # Errors
    ///
    /// `Memory` if allocation fails.
    ///
    /// ```text
    /// let mut image = Image::new(alloc, 64)?;
    /// image.put(8, 0x12)?;
    /// let copy = image.try_clone(alloc)?;
    /// image.put(8, 0x34)?;
    /// assert_eq!(rt; copy.get(8), Some(0x12));
    /// ```
    #[tactic(auto, using(crate::proofs::Places::Laid::empty_over))]
    pub fn try_clone(&self, alloc: Global) -> Result<Image, ImageFault>
        ensures { MatchResult result (λ copy. copy ≡ self.now) (λ fault. fault ≡ ImageFault.Memory) }
    {
        let mut copy = Image::new(alloc, self.size())?;
        copy.lay_over(self)?;
        Ok(copy)
    }

    /// Returns the memory's size in bytes.
    ///
    /// ```text
    /// let image = Image::new(alloc, 32_768)?;
    /// assert_eq!(rt; image.size(), 32_768);
    /// ```
    #[tactic(auto, using(crate::proofs::Fields::Shown::length_shown))]
    pub fn size(&self) -> u32
        ensures { result ≡ length self.now }
    {
        self.bytes.len() as u32
    }

    /// Returns how many addresses hold a byte. It looks at the runs, not at their bytes.
    ///
    /// ```text
    /// let mut image = Image::new(alloc, 64)?;
    /// image.put_slice(8, &[0x12, 0x34])?;
    /// assert_eq!(rt; image.len(), 2);
    /// ```
    pub fn len(&self) -> u32
        ensures { result ≡ byte_count self.now }
    {
        let mut gaps = self.size();
        for (_, bytes) in self.runs() {
            gaps -= bytes.len() as u32;
        }
        self.size() - gaps
    }

    /// Returns whether no address holds a byte.
    ///
    /// ```text
    /// let mut image = Image::new(alloc, 64)?;
    /// assert!(rt; image.is_empty());
    /// image.put(8, 0xFF)?;
    /// assert!(rt; !image.is_empty());
    /// ```
    pub fn is_empty(&self) -> bool
        ensures { result ≡ (byte_count self.now == 0) }
    {
        self.first_from(0).is_none()
    }

    /// Returns the bytes of all addresses, FF in gaps. They are borrowed from the image.
    ///
    /// ```text
    /// let mut image = Image::new(alloc, 4)?;
    /// image.put(1, 0x12)?;
    /// assert_eq!(rt; image.as_slice(), [0xFF, 0x12, 0xFF, 0xFF].as_slice());
    /// ```
    pub fn as_slice(&self) -> &[u8]
        ensures filled { result.now ≡ filled_bytes self.now 0 (length self.now) }
    {
        self.bytes.as_slice()
    }

    /// A law, and no code: the values are bytes, and fewer than 2 to the power 32. The list alone doesn't show that.
    pub fn is_sound(&self)
        ensures { IsImage self.now }
    {
        let _inside = &self.bytes;
    }

    /// Iterates over the longest runs of bytes without a gap, by rising address.
    ///
    /// ```text
    /// let mut image = Image::new(alloc, 64)?;
    /// image.put_slice(8, &[0x12, 0x34])?;
    /// for (addr, bytes) in image.runs() {
    ///     assert_eq!(rt; (addr, bytes.len()), (8, 2));
    /// }
    /// ```
    pub fn runs(&self) -> Runs<'_>
        ensures { result ≡ runs 0 self.now }
    {
        Runs {
            image: self,
            addr: 0,
        }
    }

    /// Returns the byte at a byte address; `None` in a gap or outside the memory.
    ///
    /// ```text
    /// let mut image = Image::new(alloc, 64)?;
    /// image.put(8, 0x12)?;
    /// assert_eq!(rt; image.get(8), Some(0x12));
    /// assert_eq!(rt; image.get(64), None);
    /// ```
    pub fn get(&self, addr: u32) -> Option<u8>
        ensures { result ≡ byte_at self.now addr }
    {
        let at = addr as usize;
        if at < self.bytes.len() && is_set(self.words.as_slice(), at) {
            Some(self.bytes[at])
        } else {
            None
        }
    }

    /// Puts a byte at a byte address. It replaces one that is there.
    ///
    /// # Errors
    ///
    /// `OutOfRange` with the address if it is outside the memory; the image is then unchanged.
    ///
    /// ```text
    /// let mut image = Image::new(alloc, 64)?;
    /// image.put(8, 0x12)?;
    /// image.put(8, 0x11)?;
    /// assert_eq!(rt; image.get(8), Some(0x11));
    /// assert_eq!(rt; image.put(64, 0x12), Err(ImageFault::OutOfRange(64)));
    /// ```
    pub fn put(&mut self, addr: u32, byte: u8) -> Result<(), ImageFault>
        ensures verdict { result ≡ (if nat_lt addr (length self.old) then Ok tt else Err (ImageFault.OutOfRange addr)) }
        ensures laid { OnOk result (self.new ≡ with_byte self.old addr byte) }
        ensures same { OnErr result (self.new ≡ self.old) }
        ensures size { length self.new ≡ length self.old }
    {
        let at = addr as usize;
        if at >= self.bytes.len() {
            return Err(ImageFault::OutOfRange(addr));
        }
        self.bytes[at] = byte;
        mark(&mut self.words, at);
        Ok(())
    }

    /// Removes the byte at a byte address and returns it; `None` if the address holds none.
    ///
    /// ```text
    /// let mut image = Image::new(alloc, 64)?;
    /// image.put(8, 0x12)?;
    /// assert_eq!(rt; image.remove(8), Some(0x12));
    /// assert_eq!(rt; image.remove(8), None);
    /// ```
    pub fn remove(&mut self, addr: u32) -> Option<u8>
        ensures taken { result ≡ byte_at self.old addr }
        ensures removed { self.new ≡ slice_set self.old addr None }
        ensures size { length self.new ≡ length self.old }
    {
        let byte = self.get(addr);
        let place = addr as usize;
        if place >= self.bytes.len() {
            return byte;
        }
        self.bytes[place] = 255;
        unmark(&mut self.words, place);
        byte
    }

    /// Puts bytes at the byte addresses from `addr` on and returns the address after them. An empty slice is accepted
    /// at every address, also outside the memory.
    ///
    /// # Errors
    ///
    /// `OutOfRange` with the first address outside the memory; the image is then unchanged.
    ///
    /// ```text
    /// let mut image = Image::new(alloc, 64)?;
    /// assert_eq!(rt; image.put_slice(62, &[0x12, 0x34]), Ok(64));
    /// assert_eq!(rt; image.put_slice(63, &[0x56, 0x78]), Err(ImageFault::OutOfRange(64)));
    /// assert_eq!(rt; image.get(63), Some(0x34));
    /// ```
    pub fn put_slice(&mut self, addr: u32, bytes: &[u8]) -> Result<u32, ImageFault>
        ensures verdict { result ≡ (if fits addr bytes.now (length self.old) then Ok (addr + length bytes.now)
            else Err (ImageFault.OutOfRange (max addr (length self.old)))) }
        ensures laid { OnOk result (self.new ≡ with_pairs self.old (enumerate_from addr bytes.now)) }
        ensures same { OnErr result (self.new ≡ self.old) }
        ensures size { length self.new ≡ length self.old }
    {
        if bytes.is_empty() {
            return Ok(addr);
        }
        let start = addr as usize;
        let size = self.bytes.len();
        if bytes.len() > size.saturating_sub(start) {
            return Err(ImageFault::OutOfRange(addr.max(size as u32)));
        }
        let end = start + bytes.len();
        paste(&mut self.bytes, start, bytes);
        mark_span(&mut self.words, start, end);
        Ok(end as u32)
    }

    /// Puts the bytes of another image over those of this one.
    ///
    /// # Errors
    ///
    /// `OtherSize` if the sizes differ; the image is then unchanged.
    ///
    /// ```text
    /// let mut image = Image::new(alloc, 4)?;
    /// image.put_slice(0, &[1, 2])?;
    /// let mut patch = Image::new(alloc, 4)?;
    /// patch.put_slice(1, &[3, 4])?;
    /// image.lay_over(&patch)?;
    /// assert_eq!(rt; image.as_slice(), [1, 3, 4, 0xFF].as_slice());
    /// assert_eq!(rt; image.lay_over(&Image::new(alloc, 8)?), Err(ImageFault::OtherSize));
    /// ```
    pub fn lay_over(&mut self, other: &Image) -> Result<(), ImageFault>
        ensures verdict { result ≡ (if length other.now == length self.old then Ok tt else Err ImageFault.OtherSize) }
        ensures laid { OnOk result (self.new ≡ over self.old other.now) }
        ensures same { OnErr result (self.new ≡ self.old) }
        ensures size { length self.new ≡ length self.old }
    {
        if other.size() != self.size() {
            return Err(ImageFault::OtherSize);
        }
        for (addr, bytes) in other.runs() {
            // Each run fits because both images have one size.
            let _ = self.put_slice(addr, bytes);
        }
        Ok(())
    }

    /// Returns the least byte address at which both images hold a byte. Their sizes may differ.
    ///
    /// ```text
    /// let mut image = Image::new(alloc, 64)?;
    /// image.put_slice(8, &[1, 2])?;
    /// let mut other = Image::new(alloc, 64)?;
    /// assert_eq!(rt; image.first_overlap(&other), None);
    /// other.put_slice(9, &[3, 4])?;
    /// assert_eq!(rt; image.first_overlap(&other), Some(9));
    /// ```
    pub fn first_overlap(&self, other: &Image) -> Option<u32>
        ensures { MatchOption result ((addr : ℕ) → hold_both self.now other.now addr ≡ false)
            (IsFirstOverlap self.now other.now) }
    {
        for addr in 0..self.size() {
            if self.get(addr).is_some() && other.get(addr).is_some() {
                return Some(addr);
            }
        }
        None
    }

    /// Returns the least byte address from `addr` on that holds a byte.
    ///
    /// ```text
    /// let mut image = Image::new(alloc, 64)?;
    /// image.put_slice(8, &[0x12, 0x34])?;
    /// assert_eq!(rt; image.first_from(0), Some(8));
    /// assert_eq!(rt; image.first_from(10), None);
    /// ```
    pub fn first_from(&self, addr: u32) -> Option<u32>
        ensures { result ≡ first_from self.now addr }
    {
        let size = self.bytes.len();
        let from = size.min(addr as usize);
        let place = first_place(self.words.as_slice(), true, from, size);
        if place < size {
            Some(place as u32)
        } else {
            None
        }
    }

    /// Returns whether one of `count` byte addresses from `start` on holds a byte. Some may be outside the memory.
    ///
    /// ```text
    /// let mut image = Image::new(alloc, 64)?;
    /// image.put_slice(8, &[0x12, 0x34])?;
    /// assert!(rt; image.holds_any(0, 9));
    /// assert!(rt; !image.holds_any(10, 100));
    /// ```
    pub fn holds_any(&self, start: u32, count: u32) -> bool
        ensures { result ≡ holds_any self.now start count }
    {
        let size = self.bytes.len();
        let from = size.min(start as usize);
        let end = from + (size - from).min(count as usize);
        first_place(self.words.as_slice(), true, from, end) < end
    }

    /// Returns the highest byte address that holds a byte.
    ///
    /// ```text
    /// let mut image = Image::new(alloc, 64)?;
    /// assert_eq!(rt; image.last_held(), None);
    /// image.put_slice(8, &[0x12, 0x34])?;
    /// assert_eq!(rt; image.last_held(), Some(9));
    /// ```
    pub fn last_held(&self) -> Option<u32>
        ensures { MatchOption result ((addr : ℕ) → byte_at self.now addr ≡ None) (IsLastHeld self.now) }
    {
        let mut end = self.size();
        while end > 0 {
            if self.get(end - 1).is_some() {
                return Some(end - 1);
            }
            end -= 1;
        }
        None
    }

    /// Returns the address after the run of bytes that begins at `addr`, at most `end`. Without a byte at `addr` it
    /// returns `addr`. `addr` must be at most `end`. Both may be outside the memory.
    ///
    /// ```text
    /// let mut image = Image::new(alloc, 64)?;
    /// image.put_slice(8, &[0x12, 0x34])?;
    /// assert_eq!(rt; image.run_from(8, 64), 10);
    /// assert_eq!(rt; image.run_from(8, 9), 9);
    /// ```
    pub fn run_from(&self, addr: u32, end: u32) -> u32
        requires { addr ≤ end }
        ensures { result ≡ run_end self.now addr end }
    {
        let size = self.bytes.len();
        if addr as usize >= size {
            return addr;
        }
        first_place(
            self.words.as_slice(),
            false,
            addr as usize,
            size.min(end as usize),
        ) as u32
    }

    /// Fills `out` with the bytes from the byte address `start` on, FF in gaps and outside the memory. `start` plus
    /// the length of `out` must be at most 2 to the power 32.
    ///
    /// ```text
    /// let mut image = Image::new(alloc, 64)?;
    /// image.put(8, 0x12)?;
    /// let mut page = [0; 4];
    /// image.fill(6, &mut page);
    /// assert_eq!(rt; page, [0xFF, 0xFF, 0x12, 0xFF]);
    /// ```
    pub fn fill(&self, start: u32, out: &mut [u8])
        requires { start + length out.old ≤ 2 ^ 32 }
        ensures { out.new ≡ filled_bytes self.now start (length out.old) }
    {
        copy_padded(self.bytes.as_slice(), start as usize, out);
    }
}

/// Images are equal if they have the same size, bytes and gaps.
///
/// ```text
/// let mut image = Image::new(alloc, 64)?;
/// assert!(rt; image == Image::new(alloc, 64)?);
/// image.put(8, 0xFF)?;
/// assert!(rt; image != Image::new(alloc, 64)?);
/// ```
impl PartialEq for Image {
    ghost eq = { is_same };

    ghost laws = { partial_equiv_from_equiv (lists_equiv (options_equiv nat_eq_equiv)) };

    fn eq(&self, other: &Image) -> bool {
        let size = self.size();
        if size != other.size() {
            return false;
        }
        for addr in 0..size {
            if self.get(addr) != other.get(addr) {
                return false;
            }
        }
        true
    }
}

impl Eq for Image {
    ghost laws = { lists_equiv (options_equiv nat_eq_equiv) };
}

impl fmt::Debug for Image {
    fn fmt<W: fmt::Write>(&self, f: &mut fmt::Formatter<W>) -> fmt::Result {
        f.debug_struct("Image")
            .field("size", &self.size())
            .field("len", &self.len())
            .finish_non_exhaustive()
    }
}
