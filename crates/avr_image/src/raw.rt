//! Raw files: their bytes as they are, from address 0 on.

ghost use Rattle.std.specs.Prelude.{◌≡◌, ◌≢◌, ◌++◌, ℕ, List, [], length, true, Ok, Err, IfOk, OnOk, OnErr, MatchResult};

use crate::fault::ImageFault;
use crate::image::Image;
use std::alloc::Global;
use std::fmt;
use std::marker::Model;

/// Reads a raw file in pieces of any size, into an image. A reader has failed once a piece went past the memory.
///
/// ```text
/// let mut reader = RawReader::new(alloc, 32_768)?;
/// reader.feed(&[0x0C, 0x94])?;
/// reader.feed(&[0x34])?;
/// let image = reader.finish()?;
/// assert_eq!(rt; image.len(), 3);
/// assert_eq!(rt; image.get(2), Some(0x34));
/// ```
#[derive(Drop)]
pub struct RawReader {
    image: Image,
    fed: u32,
    failed: bool,
}

impl Model for RawReader {
    ghost use Rattle.avr_image.specs.Raw.{RawReaderState};

    ghost Value = { RawReaderState };

    ghost view = { λ r. record { image = r.image; fed = r.fed; failed = r.failed } };
}

impl RawReader {
    ghost use Rattle.std.specs.Result.{result_and};
    ghost use Rattle.avr_image.specs.Raw.{raw, HoldsText};

    /// Creates a reader for a memory of `size` bytes. No later call allocates.
    ///
    /// # Errors
    ///
    /// `Memory` if allocation fails.
    ///
    /// ```text
    /// let reader = RawReader::new(alloc, 64)?;
    /// assert_eq!(rt; reader.finish()?.size(), 64);
    /// ```
    pub fn new(alloc: Global, size: u32) -> Result<RawReader, ImageFault>
        ensures { MatchResult result (λ reader. HoldsText reader [] × (length reader.image ≡ size))
            (λ fault. fault ≡ ImageFault.Memory) }
    {
        let image = Image::new(alloc, size)?;
        Ok(RawReader {
            image,
            fed: 0,
            failed: false,
        })
    }

    /// Reads the next bytes of the file.
    ///
    /// # Errors
    ///
    /// `OutOfRange` with the memory's size if they go past the memory; `Failed` after any fault.
    ///
    /// ```text
    /// let mut reader = RawReader::new(alloc, 2)?;
    /// assert_eq!(rt; reader.feed(&[0x0C, 0x94, 0x34]), Err(ImageFault::OutOfRange(2)));
    /// assert_eq!(rt; reader.feed(&[]), Err(ImageFault::Failed));
    /// ```
    #[tactic(auto, using(std::proofs::lemmas::Bool::Decides::nat_tests, crate::proofs::Texts::RawBytes::stands_fed))]
    pub fn feed(&mut self, piece: &[u8]) -> Result<(), ImageFault>
        ensures of_text { (text : List ℕ) → HoldsText self.old text → result
            ≡ result_and (raw (text ++ piece.now) (length self.old.image)) (Ok tt) }
        ensures stands { OnOk result ((text : List ℕ) → HoldsText self.old text
            → HoldsText self.new (text ++ piece.now)) }
        ensures size { length self.new.image ≡ length self.old.image }

        // A failed reader stays failed.
        ensures fails { OnErr result (self.new.failed ≡ true) }
        ensures failed { self.old.failed ≡ true → result ≡ Err ImageFault.Failed }
        ensures memory { result ≢ Err ImageFault.Memory }
    {
        if self.failed {
            return Err(ImageFault::Failed);
        }
        match self.image.put_slice(self.fed, piece) {
            Ok(end) => {
                self.fed = end;
                Ok(())
            }
            Err(fault) => {
                self.failed = true;
                Err(fault)
            }
        }
    }

    /// Returns the image of the whole file, its first byte at address 0.
    ///
    /// # Errors
    ///
    /// `Failed` after a fault.
    ///
    /// ```text
    /// let mut reader = RawReader::new(alloc, 64)?;
    /// reader.feed(&[0x0C, 0x94])?;
    /// let image = reader.finish()?;
    /// assert_eq!(rt; image.get(1), Some(0x94));
    /// assert_eq!(rt; image.get(2), None);
    /// ```
    pub fn finish(self) -> Result<Image, ImageFault>
        ensures of_text { (text : List ℕ) → HoldsText self text → result ≡ raw text (length self.image) }
        ensures size { IfOk result (λ image. length image ≡ length self.image) }
        ensures failed { self.failed ≡ true → result ≡ Err ImageFault.Failed }
        ensures memory { result ≢ Err ImageFault.Memory }
    {
        let RawReader {
            image,
            fed: _,
            failed,
        } = self;
        if failed {
            Err(ImageFault::Failed)
        } else {
            Ok(image)
        }
    }
}

impl fmt::Debug for RawReader {
    fn fmt<W: fmt::Write>(&self, f: &mut fmt::Formatter<W>) -> fmt::Result {
        f.debug_struct("RawReader")
            .field("fed", &self.fed)
            .field("failed", &self.failed)
            .finish_non_exhaustive()
    }
}
