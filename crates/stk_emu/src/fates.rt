//! A list of fates, which are checked when they are added.
ghost use Rattle.std.specs.Prelude.{◌≡◌, ◌++◌, ◌∷◌, ◌↔◌, [], length, IsTrue, Err, OnOk, OnErr};
ghost use Rattle.stk_emu.specs.Wire.{AreLawful, IsLawfulFate};
ghost use Rattle.stk_emu.specs.Fates.{fates_fault_number};

use crate::fate::{Fate, noise_is_lawful};
use std::alloc::Global;
use std::marker::Model;
use thiserror::Error;

/// Why a fate was not added.
///
/// ```text
/// let reply = b"\x1B\x01\x00\x02\x0E\x01\x00\x17";
/// let noise = Fate::AnswerSpoiled(Vec::from_slice(alloc, reply)?);
/// assert_eq!(rt; Fates::none(alloc).push(noise), Err(FatesFault::UnlawfulNoise));
/// ```
#[derive(Clone, Copy, Debug, Drop, PartialEq, Eq, Error)]
pub enum FatesFault {
    /// The noise is longer than 2,048 bytes or has a good frame ([`noise_is_lawful`]).
    #[error("noise is not lawful")]
    UnlawfulNoise = 1,
    /// Allocation failed.
    #[error("out of memory")]
    Memory = 2,
}

impl FatesFault {
    /// Returns the fault's number, which never changes.
    ///
    /// ```text
    /// assert_eq!(rt; FatesFault::UnlawfulNoise.number(), 1);
    /// ```
    pub fn number(&self) -> u8
        ensures { result ≡ fates_fault_number self.now }
    {
        *self as u8
    }
}

/// The fates of the first frames sent over a [`crate::Wired`], in order.
///
/// All noise in them is lawful, because `push` checks it.
///
/// ```text
/// let mut fates = Fates::none(alloc);
/// fates.push(Fate::LostCommand)?;
/// fates.push(Fate::LostAnswer)?;
/// assert_eq!(rt; fates.len(), 2);
/// ```
#[derive(Debug, Drop)]
pub struct Fates {
    all: Vec<Fate>,
}

impl Model for Fates {
    ghost use Rattle.std.specs.Prelude.{List};
    ghost use Rattle.stk_emu.specs.declared.fate.Fate.{Fate};
    ghost use Rattle.stk_emu.specs.Wire.{AreLawful};

    ghost Value = { List Fate };

    ghost view = { λ fates. fates.all.items };

    ghost invariant = { λ fates. AreLawful fates.all.items };
}

fn is_lawful(fate: &Fate) -> bool
    ensures { IsTrue result ↔ IsLawfulFate fate.now }
{
    match fate {
        Fate::AnswerSpoiled(noise) => noise_is_lawful(noise.as_slice()),
        _ => true,
    }
}

impl Fates {
    /// Creates an empty list: every frame is executed, and its reply arrives.
    ///
    /// ```text
    /// let fates = Fates::none(alloc);
    /// assert!(rt; fates.is_empty());
    /// ```
    pub fn none(alloc: Global) -> Fates
        ensures { result ≡ [] }
    {
        Fates {
            all: Vec::new(alloc),
        }
    }

    /// Adds the fate of the next frame that has none. After a fault nothing has changed.
    ///
    /// # Errors
    ///
    /// [`FatesFault::UnlawfulNoise`] if the fate's noise is not lawful ([`crate::noise_is_lawful`]).
    /// [`FatesFault::Memory`] if allocation fails.
    ///
    /// ```text
    /// let mut fates = Fates::none(alloc);
    /// fates.push(Fate::LostCommand)?;
    /// fates.push(Fate::AnswerSpoiled(Vec::from_slice(alloc, b"\xFF\x1B")?))?;
    /// let reply = b"\x1B\x01\x00\x02\x0E\x01\x00\x17";
    /// let spoiled = Fate::AnswerSpoiled(Vec::from_slice(alloc, reply)?);
    /// assert_eq!(rt; fates.push(spoiled), Err(FatesFault::UnlawfulNoise));
    /// assert_eq!(rt; fates.len(), 2);
    /// ```
    pub fn push(&mut self, fate: Fate) -> Result<(), FatesFault>
        ensures pushed { OnOk result (self.new ≡ self.old ++ fate ∷ []) }
        ensures lawful { OnOk result (IsLawfulFate fate) }
        ensures unlawful { result ≡ Err FatesFault.UnlawfulNoise → IsLawfulFate fate → ⊥ }
        ensures memory { result ≡ Err FatesFault.Memory → IsLawfulFate fate }
        ensures same { OnErr result (self.new ≡ self.old) }
    {
        if !is_lawful(&fate) {
            return Err(FatesFault::UnlawfulNoise);
        }
        match self.all.push(fate) {
            Ok(()) => Ok(()),
            Err(_) => Err(FatesFault::Memory),
        }
    }

    /// Returns how many frames have a fate.
    ///
    /// ```text
    /// let mut fates = Fates::none(alloc);
    /// fates.push(Fate::Reset)?;
    /// assert_eq!(rt; fates.len(), 1);
    /// ```
    pub fn len(&self) -> usize
        ensures { result ≡ length self.now }
    {
        self.all.len()
    }

    /// Returns whether no frame has a fate.
    ///
    /// ```text
    /// assert!(rt; Fates::none(alloc).is_empty());
    /// ```
    pub fn is_empty(&self) -> bool
        ensures { IsTrue result ↔ (self.now ≡ []) }
    {
        self.all.is_empty()
    }

    pub(crate) fn into_all(self) -> Vec<Fate>
        ensures all { result.items ≡ self }
        ensures lawful { AreLawful result.items }
    {
        let Fates { all } = self;
        all
    }
}
