//! The bytes of a memory, and a page buffer whose bytes are loaded one by one.
ghost use Rattle.std.specs.Prelude.{◌≡◌, ◌<◌, ℕ, List, Option, Some, None, IfOk, length, replicate, slice_set, ◌+◌, ◌≤◌};
ghost use Rattle.avr_part.specs.Memory.{AreLoads, AreBytes, Becomes, nothing_loaded, map_indexed_from, byte_and_page, overlaid_byte, blank, with_bytes_at};

use std::alloc::{AllocError, Global};
use std::marker::Model;

/// The EEPROM page buffer: for each place the byte that was loaded there, if any.
#[derive(Drop)]
pub struct Loads {
    bytes: Vec<Option<u8>>,
}

impl Model for Loads {
    ghost use Rattle.std.specs.Prelude.{ℕ, List, Option};
    ghost use Rattle.avr_part.specs.Memory.{AreLoads};

    ghost Value = { List (Option ℕ) };

    ghost view = { λ l. l.bytes.items };

    ghost invariant = { λ l. AreLoads l.bytes.items };
}

impl Loads {
    pub fn new(alloc: Global, page: usize) -> Result<Loads, AllocError>
        ensures { IfOk result (Becomes AreLoads (replicate page None) page) }
    {
        Ok(Loads {
            bytes: vec![in alloc; None; page]?,
        })
    }

    pub fn load(&mut self, place: usize, byte: u8)
        requires { place < length self.old }
        ensures { Becomes AreLoads (slice_set self.old place (Some byte)) (length self.old) self.new }
    {
        self.bytes[place] = Some(byte);
    }

    pub fn clear(&mut self)
        ensures { Becomes AreLoads (nothing_loaded self.old) (length self.old) self.new }
    {
        self.bytes.as_mut_slice().fill(None);
    }
}

/// ANDs each byte of the page into the bytes from `start` on.
// It takes a slice, because a loop over a vector loads its pointer anew for each byte.
fn and_bytes(bytes: &mut [u8], start: usize, page: &[u8])
    requires { start + length page.now ≤ length bytes.old }
    ensures { Becomes AreBytes (map_indexed_from 0 (byte_and_page start page.now) bytes.old) (length bytes.old)
        bytes.new }
{
    for (i, byte) in page.iter().enumerate() {
        bytes[start + i] &= *byte;
    }
}

/// The bytes of flash or EEPROM, or of the flash page buffer.
#[derive(Drop)]
pub struct Memory {
    bytes: Vec<u8>,
}

impl Model for Memory {
    ghost use Rattle.std.specs.Prelude.{ℕ, List};
    ghost use Rattle.avr_part.specs.Memory.{AreBytes};

    ghost Value = { List ℕ };

    ghost view = { λ m. m.bytes.items };

    ghost invariant = { λ m. AreBytes m.bytes.items };
}

impl Memory {
    pub fn new(alloc: Global, size: usize) -> Result<Memory, AllocError>
        ensures { IfOk result (Becomes AreBytes (replicate size 255) size) }
    {
        Ok(Memory {
            bytes: vec![in alloc; 255; size]?,
        })
    }

    pub fn from_slice(alloc: Global, bytes: &[u8]) -> Result<Memory, AllocError>
        ensures { IfOk result (Becomes AreBytes bytes.now (length bytes.now)) }
    {
        Ok(Memory {
            bytes: Vec::from_slice(alloc, bytes)?,
        })
    }

    pub fn as_slice(&self) -> &[u8]
        ensures { result.now ≡ self.now }
    {
        self.bytes.as_slice()
    }

    pub fn set(&mut self, at: usize, byte: u8)
        requires { at < length self.old }
        ensures { Becomes AreBytes (slice_set self.old at byte) (length self.old) self.new }
    {
        self.bytes[at] = byte;
    }

    pub fn paste(&mut self, start: usize, bytes: &[u8])
        requires { start + length bytes.now ≤ length self.old }
        ensures { Becomes AreBytes (with_bytes_at start bytes.now self.old) (length self.old) self.new }
    {
        self.bytes[start..start + bytes.len()].copy_from_slice(bytes);
    }

    pub fn and_page(&mut self, start: usize, page: &[u8])
        requires { start + length page.now ≤ length self.old }
        ensures { Becomes AreBytes (map_indexed_from 0 (byte_and_page start page.now) self.old) (length self.old)
            self.new }
    {
        and_bytes(self.bytes.as_mut_slice(), start, page);
    }

    /// Overwrites the bytes from `start` on with the loaded ones.
    pub fn overlay_page(&mut self, start: usize, loads: &Loads)
        requires { start + length loads.now ≤ length self.old }
        ensures { Becomes AreBytes (map_indexed_from 0 (overlaid_byte start loads.now) self.old) (length self.old)
            self.new }
    {
        for place in 0..loads.bytes.len() {
            if let Some(byte) = loads.bytes[place] {
                self.bytes[start + place] = byte;
            }
        }
    }

    pub fn erase(&mut self)
        ensures { Becomes AreBytes (blank self.old) (length self.old) self.new }
    {
        self.bytes.as_mut_slice().fill(255);
    }
}
