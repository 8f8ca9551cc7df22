//! The chip, which executes serial programming instructions.
ghost use Rattle.std.specs.Prelude.{◌≡◌, ℕ, ◌+◌, ◌*◌, ◌%◌, ◌<◌, ◌≤◌, IfOk, slice_get, Ok, length, ◌/◌};
ghost use Rattle.std.specs.Option.{option_copied};

use crate::fault::PartFault;
use crate::instruction::{Fuse, Half, Instruction};
use crate::memory::{Loads, Memory};
use crate::part::{Mem, Part};
use std::alloc::{AllocError, Global};
use std::marker::Model;
use std::{fmt, slice};

/// The lowest lock bit, by its name in the data sheets; programmed if 0.
const LB1: u8 = 0x01;

/// A chip of some part: its memories, page buffers and extended address.
///
/// ```text
/// let mut chip = Chip::fresh(alloc, Parts::none().find("m328p")?)?;
/// chip.spi([0xAC, 0xA0, 0, 0x62]);
/// assert_eq!(rt; chip.memory(Mem::Lfuse), [0x62].as_slice());
/// ```
#[derive(Drop)]
pub struct Chip {
    pub(crate) alloc: Global,
    pub(crate) part: Part,
    pub(crate) flash: Memory,
    pub(crate) eeprom: Memory,
    pub(crate) lfuse: u8,
    pub(crate) hfuse: u8,
    pub(crate) efuse: u8,
    pub(crate) lock: u8,
    pub(crate) flash_buffer: Memory,
    pub(crate) eeprom_buffer: Loads,
    pub(crate) extended: u8,
}

impl Model for Chip {
    ghost use Rattle.avr_part.specs.State.{ChipState};

    ghost Value = { ChipState };

    ghost use Rattle.avr_part.specs.Chip.{state_of};
    ghost use Rattle.avr_part.specs.Sound.{IsSoundChip};

    ghost view = { state_of };

    ghost invariant = { λ c. IsSoundChip (state_of c) };
}

impl Chip {
    ghost use Rattle.avr_part.specs.State.{fresh_state, with_empty_buffers, with_erased, with_flash_page, with_eeprom_page, with_fuse, word_address, eeprom_address, signature_byte, output_byte, after_instruction, spi_of, is_locked, memory_of};
    ghost use Rattle.avr_part.specs.declared.instruction.Instruction.{Instruction};
    ghost use Rattle.avr_part.specs.Block.{load_block, is_in_page, flash_block, is_in_flash};
    ghost use Rattle.avr_part.specs.Sound.{IsSoundChip};
    ghost use Rattle.avr_part.specs.PartFile.{GivesPartUnlessOutOfMemory};

    /// Creates a chip of this part whose memories are all FF.
    ///
    /// # Errors
    ///
    /// [`PartFault::Memory`] if allocation fails.
    ///
    /// ```text
    /// let chip = Chip::fresh(alloc, Parts::none().find("t85")?)?;
    /// assert_eq!(rt; chip.byte(Mem::Eeprom, 511), Some(0xFF));
    /// ```
    pub fn fresh(alloc: Global, part: Part) -> Result<Chip, PartFault>
        ensures { GivesPartUnlessOutOfMemory (Ok (fresh_state part)) result }
    {
        Chip::make(alloc, part).map_err(|_| PartFault::Memory)
    }

    /// Creates a chip whose memories are all FF.
    fn make(alloc: Global, part: Part) -> Result<Chip, AllocError>
        ensures { IfOk result (λ c. c ≡ fresh_state part) }
    {
        let flash = Memory::new(alloc, part.size_of(Mem::Flash) as usize)?;
        let eeprom = Memory::new(alloc, part.size_of(Mem::Eeprom) as usize)?;
        Chip::holding(alloc, part, flash, eeprom)
    }

    /// Creates a chip with these memories; fuses and lock are FF.
    pub(crate) fn holding(
        alloc: Global,
        part: Part,
        flash: Memory,
        eeprom: Memory,
    ) -> Result<Chip, AllocError>
        requires flash { length flash ≡ part.flash_size }
        requires eeprom { length eeprom ≡ part.eeprom_size }
        ensures { IfOk result (λ c. c ≡ record (fresh_state part) { flash = flash; eeprom = eeprom }) }
    {
        let flash_buffer = Memory::new(alloc, part.page_of(Mem::Flash) as usize)?;
        let eeprom_buffer = Loads::new(alloc, part.page_of(Mem::Eeprom) as usize)?;
        Ok(Chip {
            alloc,
            part,
            flash,
            eeprom,
            lfuse: 255,
            hfuse: 255,
            efuse: 255,
            lock: 255,
            flash_buffer,
            eeprom_buffer,
            extended: 0,
        })
    }

    /// Returns the chip's part.
    ///
    /// ```text
    /// let chip = Chip::fresh(alloc, Parts::none().find("t85")?)?;
    /// assert_eq!(rt; chip.part().id(), "t85");
    /// ```
    pub fn part(&self) -> &Part
        ensures { result.now ≡ self.now.part }
    {
        &self.part
    }

    /// Law: the memories and buffers have the part's sizes and hold bytes. The call does nothing.
    pub fn is_sound(&self)
        ensures { IsSoundChip self.now }
    {
        let _inside = &self.part;
    }

    fn flash_page(&self) -> usize
        ensures value { result ≡ self.now.part.flash_page }
        ensures some { 2 ≤ result }
    {
        self.part.page_of(Mem::Flash) as usize
    }

    fn eeprom_page(&self) -> usize
        ensures { result ≡ self.now.part.eeprom_page }
    {
        self.part.page_of(Mem::Eeprom) as usize
    }

    /// Empties both buffers and sets the extended address to 0.
    #[inline(never)]
    fn enable(&mut self)
        ensures { self.new ≡ with_empty_buffers self.old }
    {
        self.flash_buffer.erase();
        self.eeprom_buffer.clear();
        self.extended = 0;
    }

    /// Erases flash and lock, and EEPROM unless the EESAVE bit is 0.
    #[inline(never)]
    fn erase(&mut self)
        ensures { self.new ≡ with_erased self.old }
    {
        let keeps = (self.hfuse >> self.part.eesave_bit()) & 1 == 0;
        self.flash.erase();
        self.lock = 255;
        if !keeps {
            self.eeprom.erase();
        }
    }

    /// Returns the place of a word's low byte in the flash buffer.
    fn buffer_place(&self, word: u8) -> usize
        ensures value { result ≡ word % (self.now.part.flash_page / 2) * 2 }
        ensures inside { result + 1 < self.now.part.flash_page }
    {
        usize::from(word) % (self.flash_page() / 2) * 2
    }

    /// Loads a byte into the flash buffer.
    fn load(&mut self, half: Half, word: u8, byte: u8)
        ensures { self.new ≡ after_instruction (Instruction.LoadFlash half word byte) self.old }
    {
        let place = self.buffer_place(word);
        match half {
            Half::Low => self.flash_buffer.set(place, byte),
            Half::High => self.flash_buffer.set(place + 1, byte),
        }
    }

    /// Returns the address of a word's low byte.
    fn word_address(&self, word: u16) -> usize
        ensures value { result ≡ word_address self.now word }
        ensures inside { result + 1 < self.now.part.flash_size }
    {
        let words = self.part.size_of(Mem::Flash) as usize / 2;
        (usize::from(self.extended) * 65536 + usize::from(word)) % words * 2
    }

    /// Returns the address in EEPROM; it wraps at the size.
    fn eeprom_address(&self, address: u16) -> usize
        ensures value { result ≡ eeprom_address self.now address }
        ensures inside { result < self.now.part.eeprom_size }
    {
        usize::from(address) % self.part.size_of(Mem::Eeprom) as usize
    }

    /// Returns whether LB1 is programmed. Then only a chip erase changes flash and EEPROM, and nothing
    /// changes the fuses.
    fn is_locked(&self) -> bool
        ensures { result ≡ is_locked self.now }
    {
        self.lock & LB1 == 0
    }

    /// ANDs the flash buffer into the page that holds the word, unless the chip is locked. Then empties the buffer.
    #[inline(never)]
    fn write_flash_page(&mut self, word: u16)
        ensures { self.new ≡ with_flash_page word self.old }
    {
        if !self.is_locked() {
            let page = self.flash_page();
            let start = self.word_address(word) / page * page;
            self.flash.and_page(start, self.flash_buffer.as_slice());
        }
        self.flash_buffer.erase();
    }

    fn read_flash(&self, half: Half, word: u16) -> u8
        ensures { result ≡ output_byte (Instruction.ReadFlash half word) 0 self.now }
    {
        let at = self.word_address(word);
        match half {
            Half::Low => self.flash.as_slice()[at],
            Half::High => self.flash.as_slice()[at + 1],
        }
    }

    fn write_eeprom(&mut self, address: u16, byte: u8)
        ensures { self.new ≡ after_instruction (Instruction.WriteEeprom address byte) self.old }
    {
        if !self.is_locked() {
            let at = self.eeprom_address(address);
            self.eeprom.set(at, byte);
        }
    }

    fn load_eeprom(&mut self, place: u8, byte: u8)
        ensures { self.new ≡ after_instruction (Instruction.LoadEeprom place byte) self.old }
    {
        let place = usize::from(place) % self.eeprom_page();
        self.eeprom_buffer.load(place, byte);
    }

    /// Writes the loaded bytes to the page that holds the address, unless the chip is locked. Then empties the buffer.
    #[inline(never)]
    fn write_eeprom_page(&mut self, address: u16)
        ensures { self.new ≡ with_eeprom_page address self.old }
    {
        if !self.is_locked() {
            let page = self.eeprom_page();
            let start = self.eeprom_address(address) / page * page;
            self.eeprom.overlay_page(start, &self.eeprom_buffer);
        }
        self.eeprom_buffer.clear();
    }

    fn write_fuse(&mut self, fuse: Fuse, byte: u8)
        ensures { self.new ≡ with_fuse fuse byte self.old }
    {
        if self.is_locked() {
            return;
        }
        match fuse {
            Fuse::Low => self.lfuse = byte,
            Fuse::High => self.hfuse = byte,
            Fuse::Extended => self.efuse = byte,
        }
    }

    fn read_fuse(&self, fuse: Fuse) -> u8
        ensures { (third : ℕ) → result ≡ output_byte (Instruction.ReadFuse fuse) third self.now }
    {
        match fuse {
            Fuse::Low => self.lfuse,
            Fuse::High => self.hfuse,
            Fuse::Extended => self.efuse,
        }
    }

    fn read_signature(&self, place: u8) -> u8
        ensures { result ≡ signature_byte place self.now }
    {
        let signature = self.part.signature();
        match place % 4 {
            0 => signature[0],
            1 => signature[1],
            2 => signature[2],
            _ => 255,
        }
    }

    /// Returns the byte that an instruction reads, or `third` if it reads none.
    #[inline(always)]
    fn output_byte(&self, instruction: Instruction, third: u8) -> u8
        ensures { result ≡ output_byte instruction third self.now }
    {
        match instruction {
            Instruction::ReadFlash { half, word } => self.read_flash(half, word),
            Instruction::ReadEeprom { address } => {
                let at = self.eeprom_address(address);
                self.eeprom.as_slice()[at]
            }
            Instruction::ReadFuse { fuse } => self.read_fuse(fuse),
            Instruction::ReadLock => self.lock,
            Instruction::ReadSignature { place } => self.read_signature(place),
            Instruction::ReadCalibration => 255,
            Instruction::Poll => 0,
            _ => third,
        }
    }

    /// Does what the instruction does to the chip.
    #[inline(always)]
    fn execute(&mut self, instruction: Instruction)
        ensures { self.new ≡ after_instruction instruction self.old }
    {
        match instruction {
            Instruction::Enable => self.enable(),
            Instruction::Erase => self.erase(),
            Instruction::LoadFlash { half, word, byte } => self.load(half, word, byte),
            Instruction::WriteFlashPage { word } => self.write_flash_page(word),
            Instruction::WriteEeprom { address, byte } => self.write_eeprom(address, byte),
            Instruction::LoadEeprom { place, byte } => self.load_eeprom(place, byte),
            Instruction::WriteEepromPage { address } => self.write_eeprom_page(address),
            Instruction::WriteFuse { fuse, byte } => self.write_fuse(fuse, byte),
            Instruction::WriteLock { byte } => self.lock &= byte,
            Instruction::Extend { byte } => self.extended = byte,
            _ => {}
        }
    }

    /// Executes one instruction (ATmega328P data sheet, table "Serial Programming Instruction Set"). Returns 00, the
    /// first two bytes, and the byte that it reads, or the third byte if it reads none. Bytes that are no instruction
    /// change nothing. Only the last byte returned is a data sheet's; the other three are this project's choice.
    ///
    /// It allocates nothing. A chip erase takes time in proportion to the memories, a page write or programming enable
    /// in proportion to the page buffers, and all else constant time.
    ///
    /// ```text
    /// let mut chip = Chip::fresh(alloc, Parts::none().find("m328p")?)?;
    /// assert_eq!(rt; chip.spi([0x30, 0, 1, 0]), [0, 0x30, 0, 0x95]); // signature byte 1
    /// ```
    #[inline(always)]
    pub fn spi(&mut self, bytes: [u8; 4]) -> [u8; 4]
        ensures { (result, self.new) ≡ spi_of bytes self.old }
    {
        let instruction = Instruction::of(bytes);
        let output = self.output_byte(instruction, bytes[2]);
        self.execute(instruction);
        [0, bytes[0], bytes[1], output]
    }

    /// Loads bytes into the page buffer from a word on, low byte first, as instructions 40 and 48 would. `word` counts
    /// from the page's start, modulo the words of a page. Returns false and changes nothing if the block reaches over
    /// the page's end.
    ///
    /// ```text
    /// let mut chip = Chip::fresh(alloc, Parts::none().find("m328p")?)?;
    /// assert!(rt; chip.load_block(0, &[0x0C, 0x94]));
    /// chip.spi([0x4C, 0, 0, 0]);
    /// assert_eq!(rt; chip.byte(Mem::Flash, 1), Some(0x94));
    /// assert!(rt; !chip.load_block(63, &[0; 3]));
    /// ```
    pub fn load_block(&mut self, word: u8, bytes: &[u8]) -> bool
        ensures { (result, self.new) ≡ load_block word bytes.now self.old }
    {
        let place = self.buffer_place(word);
        let is_in_page = bytes.len() <= self.flash_page() - place;
        if is_in_page {
            self.flash_buffer.paste(place, bytes);
        }
        is_in_page
    }

    /// Returns `count` bytes from a word on as instructions 20 and 28 read them, low byte first. `word` counts in the
    /// 128 kB of the extended address that instruction 4D has set, modulo the words of flash. Returns `None` if the
    /// block reaches over the end of flash or of these 128 kB.
    ///
    /// ```text
    /// let chip = Chip::fresh(alloc, Parts::none().find("t85")?)?;
    /// assert_eq!(rt; chip.flash_block(4094, 4), Some([0xFF; 4].as_slice()));
    /// assert_eq!(rt; chip.flash_block(4094, 5), None);
    /// ```
    pub fn flash_block(&self, word: u16, count: u16) -> Option<&[u8]>
        ensures { option_copied result ≡ flash_block word count self.now }
    {
        let start = self.word_address(word);
        let count = usize::from(count);
        let is_in_flash = usize::from(word) * 2 + count <= 131_072
            && count <= self.part.size_of(Mem::Flash) as usize - start;
        if is_in_flash {
            Some(&self.flash.as_slice()[start..start + count])
        } else {
            None
        }
    }

    /// Returns the bytes of a memory, address 0 first.
    ///
    /// ```text
    /// let chip = Chip::fresh(alloc, Parts::none().find("m328p")?)?;
    /// assert_eq!(rt; chip.memory(Mem::Signature), [0x1E, 0x95, 0x0F].as_slice());
    /// assert_eq!(rt; chip.memory(Mem::Flash).len(), 32_768);
    /// ```
    pub fn memory(&self, mem: Mem) -> &[u8]
        ensures { result.now ≡ memory_of mem self.now }
    {
        match mem {
            Mem::Flash => self.flash.as_slice(),
            Mem::Eeprom => self.eeprom.as_slice(),
            Mem::Lfuse => slice::from_ref(&self.lfuse),
            Mem::Hfuse => slice::from_ref(&self.hfuse),
            Mem::Efuse => slice::from_ref(&self.efuse),
            Mem::Lock => slice::from_ref(&self.lock),
            Mem::Signature => &self.part.signature,
            Mem::Calibration => &[255],
        }
    }

    /// Returns the byte of a memory at an address, or `None` after its end.
    ///
    /// ```text
    /// let chip = Chip::fresh(alloc, Parts::none().find("m328p")?)?;
    /// assert_eq!(rt; chip.byte(Mem::Signature, 0), Some(0x1E));
    /// assert_eq!(rt; chip.byte(Mem::Signature, 3), None);
    /// ```
    pub fn byte(&self, mem: Mem, addr: u32) -> Option<u8>
        ensures { result ≡ slice_get (memory_of mem self.now) addr }
    {
        self.memory(mem).get(addr as usize).copied()
    }
}

impl fmt::Debug for Chip {
    fn fmt<W: fmt::Write>(&self, f: &mut fmt::Formatter<W>) -> fmt::Result {
        f.debug_struct("Chip")
            .field("part", &self.part.id())
            .finish_non_exhaustive()
    }
}
