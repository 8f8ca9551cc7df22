ghost use Rattle.std.specs.Prelude.{◌≡◌, ◌+◌, IfOk, IfErr, length, Ok};
ghost use Rattle.avr_part.specs.ChipFile.{chip_file, chip_file_size, chip_from_file, state_from_file};
ghost use Rattle.avr_part.specs.PartFile.{GivesPartUnlessOutOfMemory};

use crate::chip::Chip;
use crate::fault::PartFault;
use crate::memory::Memory;
use crate::part::{Mem, Part};
use std::alloc::{AllocError, Global};

impl Part {
    /// Returns the size of this part's chip file in bytes: its flash and EEPROM, three fuses and the lock.
    ///
    /// ```text
    /// assert_eq!(rt; Parts::none().find("m328p")?.chip_file_size(), 33_796);
    /// ```
    pub fn chip_file_size(&self) -> u32
        ensures { result ≡ chip_file_size self.now }
    {
        self.size_of(Mem::Flash) + self.size_of(Mem::Eeprom) + 4
    }
}

fn read_chip(alloc: Global, part: Part, bytes: &[u8]) -> Result<Chip, AllocError>
    requires { length bytes.now ≡ chip_file_size part }
    ensures { IfOk result (λ c. c ≡ state_from_file part bytes.now) }
{
    let flash_size = part.size_of(Mem::Flash) as usize;
    let eeprom_size = part.size_of(Mem::Eeprom) as usize;
    let fuses = flash_size + eeprom_size;
    let (flash, rest) = bytes.split_at(flash_size);
    let flash = Memory::from_slice(alloc, flash)?;
    let eeprom = Memory::from_slice(alloc, &rest[..eeprom_size])?;
    let mut chip = Chip::holding(alloc, part, flash, eeprom)?;
    chip.lfuse = bytes[fuses];
    chip.hfuse = bytes[fuses + 1];
    chip.efuse = bytes[fuses + 2];
    chip.lock = bytes[fuses + 3];
    Ok(chip)
}

fn write_chip(chip: &Chip) -> Result<Vec<u8>, AllocError>
    ensures { IfOk result (λ v. v.items ≡ chip_file chip.now) }
{
    let mut bytes = Vec::with_capacity(chip.alloc, chip.part.chip_file_size() as usize)?;
    bytes.extend_from_slice(chip.flash.as_slice())?;
    bytes.extend_from_slice(chip.eeprom.as_slice())?;
    bytes.extend_from_slice(&[chip.lfuse, chip.hfuse, chip.efuse, chip.lock])?;
    Ok(bytes)
}

impl Chip {
    /// Creates a chip of this part from a chip file, with empty buffers. The file is flash, EEPROM, low, high and
    /// extended fuse and lock, without a gap.
    ///
    /// # Errors
    ///
    /// [`PartFault::BadChipFile`] if its length is not the part's; [`PartFault::Memory`] if allocation fails.
    ///
    /// ```text
    /// let chip = Chip::from_bytes(alloc, Parts::none().find("t85")?, &[0; 100]);
    /// assert_eq!(rt; chip.err(), Some(PartFault::BadChipFile(100)));
    /// ```
    pub fn from_bytes(alloc: Global, part: Part, bytes: &[u8]) -> Result<Chip, PartFault>
        ensures { GivesPartUnlessOutOfMemory (chip_from_file part bytes.now) result }
    {
        if bytes.len() != part.chip_file_size() as usize {
            return Err(PartFault::BadChipFile(bytes.len()));
        }
        read_chip(alloc, part, bytes).map_err(|_| PartFault::Memory)
    }

    /// Returns the chip's memories as the bytes of a chip file.
    ///
    /// # Errors
    ///
    /// [`PartFault::Memory`] if allocation fails.
    ///
    /// ```text
    /// let chip = Chip::fresh(alloc, Parts::none().find("t85")?)?;
    /// assert_eq!(rt; chip.to_bytes()?.len(), 8192 + 512 + 4);
    /// ```
    pub fn to_bytes(&self) -> Result<Vec<u8>, PartFault>
        ensures bytes { IfOk result (λ v. v.items ≡ chip_file self.now) }
        ensures memory { IfErr result (λ e. e ≡ PartFault.Memory) }
    {
        write_chip(self).map_err(|_| PartFault::Memory)
    }
}
