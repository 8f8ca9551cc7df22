ghost use Rattle.std.specs.Prelude.{◌≡◌, ◌++◌, ℕ, List, [], IfOk, length, is_ok, if◌then◌else◌};

use std::alloc::{AllocError, Global};
use std::marker::Model;

/// An owned list of bytes. Contracts see it as that list.
#[derive(Debug, Drop)]
pub struct Bytes {
    items: Vec<u8>,
}

impl Model for Bytes {
    ghost Value = { List ℕ };

    ghost view = { λ b. b.items.items };
}

impl Bytes {
    /// Creates an empty list. Nothing is allocated.
    pub fn new(alloc: Global) -> Bytes
        ensures { result ≡ [] }
    {
        let items = Vec::new(alloc);
        Bytes { items }
    }

    /// Copies `bytes` into a new list.
    ///
    /// # Errors
    ///
    /// `AllocError` if allocation fails.
    ///
    /// ```text
    /// let mut bytes = Bytes::copied(alloc, b"AVR")?;
    /// bytes.extend(b" ISP")?;
    /// assert!(rt; bytes.as_slice() == b"AVR ISP".as_slice());
    /// ```
    pub fn copied(alloc: Global, bytes: &[u8]) -> Result<Bytes, AllocError>
        ensures { IfOk result (λ b. b ≡ bytes.now) }
    {
        let mut items = Vec::new(alloc);
        items.extend_from_slice(bytes)?;
        Ok(Bytes { items })
    }

    /// Borrows the bytes.
    pub fn as_slice(&self) -> &[u8]
        ensures { result.now ≡ self.now }
    {
        self.items.as_slice()
    }

    /// Returns the number of bytes.
    pub fn len(&self) -> usize
        ensures { result ≡ length self.now }
    {
        self.items.len()
    }

    /// Appends `bytes`.
    ///
    /// # Errors
    ///
    /// `AllocError` if allocation fails; nothing changes.
    pub fn extend(&mut self, bytes: &[u8]) -> Result<(), AllocError>
        ensures { self.new ≡ (if is_ok result then self.old ++ bytes.now else self.old) }
    {
        self.items.extend_from_slice(bytes)
    }
}
