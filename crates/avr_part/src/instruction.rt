//! The serial programming instructions.
ghost use Rattle.std.specs.Prelude.{◌≡◌, ◌∷◌, []};
ghost use Rattle.avr_part.specs.Instruction.{instruction_of};

use std::fmt;

/// One of the two bytes of a flash word.
///
/// ```text
/// let read = Instruction::of([0x28, 0x01, 0x02, 0]);
/// assert_eq!(rt; read, Instruction::ReadFlash { half: Half::High, word: 0x0102 });
/// ```
#[derive(Clone, Copy, Debug, PartialEq, Eq)]
pub enum Half {
    /// The byte at the word's even address.
    Low,
    /// The byte after it.
    High,
}

/// One of the three fuse bytes.
///
/// ```text
/// let write = Instruction::of([0xAC, 0xA8, 0, 0xD9]);
/// assert_eq!(rt; write, Instruction::WriteFuse { fuse: Fuse::High, byte: 0xD9 });
/// ```
#[derive(Clone, Copy, Debug, PartialEq, Eq)]
pub enum Fuse {
    Low,
    High,
    Extended,
}

/// An instruction of four bytes (ATmega328P data sheet, table "Serial Programming Instruction Set").
///
/// A `word`, `address` or `place` is as in the bytes; how it wraps depends on the part.
///
/// ```text
/// assert_eq!(rt; Instruction::of([0xAC, 0x53, 0, 0]), Instruction::Enable);
/// ```
#[derive(Clone, Copy, PartialEq, Eq)]
pub enum Instruction {
    /// AC 53: programming enable.
    Enable,
    /// AC 80: chip erase.
    Erase,
    /// 40 and 48: load a byte of the flash page buffer.
    LoadFlash { half: Half, word: u8, byte: u8 },
    /// 4C: write the flash page that holds the word.
    WriteFlashPage { word: u16 },
    /// 20 and 28: read a byte of flash.
    ReadFlash { half: Half, word: u16 },
    /// A0: read a byte of EEPROM.
    ReadEeprom { address: u16 },
    /// C0: write a byte of EEPROM.
    WriteEeprom { address: u16, byte: u8 },
    /// C1: load a byte of the EEPROM page buffer.
    LoadEeprom { place: u8, byte: u8 },
    /// C2: write the EEPROM page that holds the address.
    WriteEepromPage { address: u16 },
    /// AC A0, AC A8 and AC A4: write a fuse.
    WriteFuse { fuse: Fuse, byte: u8 },
    /// AC E0: write the lock.
    WriteLock { byte: u8 },
    /// 50 00, 58 08 and 50 08: read a fuse.
    ReadFuse { fuse: Fuse },
    /// 58 00: read the lock.
    ReadLock,
    /// 30: read a signature byte.
    ReadSignature { place: u8 },
    /// 38: read the calibration byte.
    ReadCalibration,
    /// F0: ask whether the chip is busy.
    Poll,
    /// 4D: load the extended address.
    Extend { byte: u8 },
    /// All other bytes.
    Nothing,
}

impl Instruction {
    /// Decodes four bytes.
    ///
    /// ```text
    /// assert_eq!(rt; Instruction::of([0xA0, 0x01, 0x02, 0]), Instruction::ReadEeprom { address: 0x0102 });
    /// assert_eq!(rt; Instruction::of([0xFF; 4]), Instruction::Nothing);
    /// ```
    #[inline(always)]
    pub fn of(bytes: [u8; 4]) -> Instruction
        ensures { result ≡ instruction_of bytes }
    {
        let [first, second, third, last] = bytes;
        match (first, second) {
            (0xAC, _) => decode_write(second, last),
            (0x40, _) => Instruction::LoadFlash {
                half: Half::Low,
                word: third,
                byte: last,
            },
            (0x48, _) => Instruction::LoadFlash {
                half: Half::High,
                word: third,
                byte: last,
            },
            (0x4C, _) => Instruction::WriteFlashPage {
                word: u16::from_be_bytes([second, third]),
            },
            (0x20, _) => Instruction::ReadFlash {
                half: Half::Low,
                word: u16::from_be_bytes([second, third]),
            },
            (0x28, _) => Instruction::ReadFlash {
                half: Half::High,
                word: u16::from_be_bytes([second, third]),
            },
            (0xA0, _) => Instruction::ReadEeprom {
                address: u16::from_be_bytes([second, third]),
            },
            (0xC0, _) => Instruction::WriteEeprom {
                address: u16::from_be_bytes([second, third]),
                byte: last,
            },
            (0xC1, _) => Instruction::LoadEeprom {
                place: third,
                byte: last,
            },
            (0xC2, _) => Instruction::WriteEepromPage {
                address: u16::from_be_bytes([second, third]),
            },
            (0x50, 0x00) => Instruction::ReadFuse { fuse: Fuse::Low },
            (0x58, 0x08) => Instruction::ReadFuse { fuse: Fuse::High },
            (0x50, 0x08) => Instruction::ReadFuse {
                fuse: Fuse::Extended,
            },
            (0x58, 0x00) => Instruction::ReadLock,
            (0x30, _) => Instruction::ReadSignature { place: third },
            (0x38, _) => Instruction::ReadCalibration,
            (0xF0, _) => Instruction::Poll,
            (0x4D, _) => Instruction::Extend { byte: third },
            _ => Instruction::Nothing,
        }
    }
}

impl Instruction {
    fn name(&self) -> &'static str {
        match self {
            Instruction::Enable => "Enable",
            Instruction::Erase => "Erase",
            Instruction::LoadFlash { .. } => "LoadFlash",
            Instruction::WriteFlashPage { .. } => "WriteFlashPage",
            Instruction::ReadFlash { .. } => "ReadFlash",
            Instruction::ReadEeprom { .. } => "ReadEeprom",
            Instruction::WriteEeprom { .. } => "WriteEeprom",
            Instruction::LoadEeprom { .. } => "LoadEeprom",
            Instruction::WriteEepromPage { .. } => "WriteEepromPage",
            Instruction::WriteFuse { .. } => "WriteFuse",
            Instruction::WriteLock { .. } => "WriteLock",
            Instruction::ReadFuse { .. } => "ReadFuse",
            Instruction::ReadLock => "ReadLock",
            Instruction::ReadSignature { .. } => "ReadSignature",
            Instruction::ReadCalibration => "ReadCalibration",
            Instruction::Poll => "Poll",
            Instruction::Extend { .. } => "Extend",
            Instruction::Nothing => "Nothing",
        }
    }
}

/// Shows the variant's name, without its fields.
impl fmt::Debug for Instruction {
    fn fmt<W: fmt::Write>(&self, f: &mut fmt::Formatter<W>) -> fmt::Result {
        f.write_str(self.name())
    }
}

/// Decodes an instruction that begins with AC.
fn decode_write(second: u8, last: u8) -> Instruction
    ensures { result ≡ instruction_of (0xAC ∷ second ∷ 0 ∷ last ∷ []) }
{
    match second {
        0x53 => Instruction::Enable,
        0x80 => Instruction::Erase,
        0xA0 => Instruction::WriteFuse {
            fuse: Fuse::Low,
            byte: last,
        },
        0xA8 => Instruction::WriteFuse {
            fuse: Fuse::High,
            byte: last,
        },
        0xA4 => Instruction::WriteFuse {
            fuse: Fuse::Extended,
            byte: last,
        },
        0xE0 => Instruction::WriteLock { byte: last },
        _ => Instruction::Nothing,
    }
}
