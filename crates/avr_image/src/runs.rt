//! An iterator over the runs of an image.

ghost use Rattle.std.specs.Iterator.{YieldsFirstBy, item_count};

use crate::image::Image;
use std::fmt;
use std::marker::Model;

/// Iterates over the longest runs of bytes without a gap, by rising address. Each item is a byte address and the
/// borrowed bytes from there on. Contracts see the list of runs left.
///
/// ```text
/// let mut image = Image::new(alloc, 64)?;
/// image.put_slice(8, &[0x12, 0x34])?;
/// image.put(20, 0x56)?;
/// let mut runs = image.runs();
/// assert_eq!(rt; runs.next(), Some((8, [0x12, 0x34].as_slice())));
/// assert_eq!(rt; runs.next(), Some((20, [0x56].as_slice())));
/// assert_eq!(rt; runs.next(), None);
/// ```
#[derive(Drop)]
pub struct Runs<'a> {
    pub(crate) image: &'a Image,
    /// All runs below this address were returned.
    pub(crate) addr: u32,
}

impl<'a> Model for Runs<'a> {
    ghost use Rattle.std.specs.Prelude.{ℕ, List, drop};

    ghost Value = { List (ℕ × List ℕ) };

    ghost use Rattle.avr_image.specs.Runs.{runs};

    ghost view = { λ r. runs r.addr (drop r.addr r.image.now) };
}

#[tactic(auto, using(crate::proofs::Walks::Runs::stepped))]
impl<'a> Iterator for Runs<'a> {
    type Item = (u32, &'a [u8]);

    ghost next_gives = { YieldsFirstBy (λ run. (run.0, run.1.now)) (λ left. left) };

    ghost remaining = { item_count (λ left. left) };

    fn next(&mut self) -> Option<(u32, &'a [u8])> {
        let image = self.image;
        let Some(addr) = image.first_from(self.addr) else {
            return None;
        };
        let end = image.run_from(addr, image.size());
        self.addr = end;
        Some((addr, &image.as_slice()[addr as usize..end as usize]))
    }
}

impl fmt::Debug for Runs<'_> {
    fn fmt<W: fmt::Write>(&self, f: &mut fmt::Formatter<W>) -> fmt::Result {
        f.debug_struct("Runs")
            .field("addr", &self.addr)
            .finish_non_exhaustive()
    }
}
