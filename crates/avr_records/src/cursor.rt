//! The lines of a memory's record file, one after the other.

ghost use Rattle.std.specs.Prelude.{◌≡◌, ◌<◌, ◌≤◌, ◌↔◌, ◌++◌, [], false, length, IsTrue};
ghost use Rattle.avr_records.specs.Text.{IsLine, IsThisLine, address_size};
ghost use Rattle.avr_records.specs.Sparse.{IsMemory, file_rows, last_held, new_upper as spec_new_upper, row_size as spec_row_size, row_text};
ghost use Rattle.avr_records.specs.Writing.{text_left};

use crate::address_size::AddressSize;
use crate::ihex::{DATA, END_OF_FILE};
use crate::kind::{Kind, SEGMENT};
use crate::sparse::Sparse;
use crate::written_line::ROW_SIZE;
use crate::{ihex_line, srec_line};
use arrayvec::ArrayVec;

/// Returns the last address that holds a byte, or 0.
#[tactic(auto, using(crate::proofs::Writers::SparseWalk::last_found))]
fn last_held_of<M: Sparse>(memory: &M) -> u64
    ensures last { result ≡ last_held 0 0 (M.held memory.now) }
    ensures memory { IsMemory (M.held memory.now) }
{
    let mut last = 0;
    let mut addr = 0;
    'rows: while let Some(place) = memory.next_held(addr) {
        addr = place as u64 + memory.row_at(place, ROW_SIZE).len() as u64;
        last = addr.saturating_sub(1);
    }
    last
}

/// How far a record file of a memory is written. A cursor holds plain numbers: a caller may store it and go on later.
/// Rows have at most 32 bytes and cross no gap. Rows of Intel HEX cross no multiple of 65,536 either.
///
/// ```text
/// let mut image = Image::new(alloc, 8)?;
/// image.put_slice(1, &[1, 2])?;
/// let mut cursor = Cursor::new(Kind::Ihex, &image);
/// let mut line = ArrayVec::new();
/// assert!(rt; cursor.next_line(&image, &mut line));
/// assert_eq!(rt; line.as_slice(), b":020001000102FA\n".as_slice());
/// assert_eq!(rt; cursor.addr, 3);
/// ```
#[derive(Clone, Copy, Debug, PartialEq, Eq)]
pub struct Cursor {
    /// The kind of file.
    pub kind: Kind,
    /// All bytes below this address were written.
    pub addr: u64,
    /// Intel HEX: the upper 16 bits of the address now in force.
    pub upper: u16,
    /// S-records: how many bytes each address has.
    pub address_size: AddressSize,
    /// Whether the end record was written.
    pub ended: bool,
}

impl Cursor {
    /// Creates the cursor at the start of a memory's file. Addresses of S-records get as few bytes as the memory's last
    /// byte allows.
    ///
    /// ```text
    /// let mut image = Image::new(alloc, 0x10001)?;
    /// image.put(0x10000, 0xAA)?;
    /// assert_eq!(rt; Cursor::new(Kind::Srec, &image).address_size, AddressSize::Three);
    /// ```
    pub fn new<M: Sparse>(kind: Kind, memory: &M) -> Cursor
        ensures start { result ≡ record {
          kind = kind;
          addr = 0;
          upper = 0;
          address_size = address_size (last_held 0 0 (M.held memory.now));
          ended = false;
        } }
        ensures memory { IsMemory (M.held memory.now) }
    {
        Cursor {
            kind,
            addr: 0,
            upper: 0,
            address_size: AddressSize::holding(last_held_of(memory)),
            ended: false,
        }
    }

    /// Puts the next line of the file into `out` and returns true. After the end record it empties `out` and returns
    /// false. The memory must stay the same between the calls: else the lines belong to no single state of it.
    ///
    /// ```text
    /// let mut image = Image::new(alloc, 0x20001)?;
    /// image.put(0x20000, 0x55)?;
    /// let mut cursor = Cursor::new(Kind::Ihex, &image);
    /// let mut line = ArrayVec::new();
    /// assert!(rt; cursor.next_line(&image, &mut line));
    /// assert_eq!(rt; line.as_slice(), b":020000040002F8\n".as_slice());
    /// ```
    #[tactic(auto, using(crate::proofs::Writers::SparseWalk::lines_written))]
    pub fn next_line<M: Sparse>(&mut self, memory: &M, out: &mut ArrayVec<u8, 80>) -> bool
        ensures joined { text_left self.old (M.held memory.now) ≡ out.new.items
            ++ text_left self.new (M.held memory.now) }
        ensures some { IsTrue result ↔ (0 < length out.new.items) }
        ensures ends { IsTrue result ↔ (0 < length (text_left self.old (M.held memory.now))) }
        ensures line { IsTrue result → IsLine out.new.items }
        ensures kind { self.new.kind ≡ self.old.kind }
        ensures size { self.new.address_size ≡ self.old.address_size }
    {
        if self.ended {
            out.clear();
            return false;
        }
        let Some(place) = memory.next_held(self.addr) else {
            self.put_end(out);
            self.ended = true;
            return true;
        };
        if let Some(upper) = self.new_upper(place) {
            ihex_line::put_upper(upper, out);
            self.upper = upper;
            return true;
        }
        let row = memory.row_at(place, self.row_size(place));
        self.put_row(place, row, out);
        self.addr = place as u64 + row.len() as u64;
        true
    }

    /// Puts the end record.
    fn put_end(&self, out: &mut ArrayVec<u8, 80>)
        ensures { IsThisLine out.new.items (file_rows self.now.kind self.now.upper self.now.address_size []) }
    {
        let size = self.address_size;
        match self.kind {
            Kind::Ihex => ihex_line::put_record(END_OF_FILE, 0, &[], out),
            Kind::Srec => srec_line::put_record(11 - size.bytes() as u8, size, 0, &[], out),
        }
    }

    /// Returns the upper 16 bits of an address if a record has to set them.
    fn new_upper(&self, addr: u32) -> Option<u16>
        ensures { result ≡ spec_new_upper self.now.kind self.now.upper addr }
    {
        let upper = (addr / SEGMENT) as u16;
        match self.kind {
            Kind::Ihex if upper != self.upper => Some(upper),
            _ => None,
        }
    }

    /// Returns the most bytes of a row at this address.
    fn row_size(&self, addr: u32) -> usize
        ensures size { result ≡ spec_row_size self.now.kind addr }
        ensures most { result ≤ 32 }
    {
        match self.kind {
            Kind::Ihex => ROW_SIZE.min((SEGMENT - addr % SEGMENT) as usize),
            Kind::Srec => ROW_SIZE,
        }
    }

    /// Puts the data record of a row.
    fn put_row(&self, addr: u32, row: &[u8], out: &mut ArrayVec<u8, 80>)
        requires { length row.now ≤ 32 }
        ensures { IsThisLine out.new.items (row_text self.now.kind self.now.address_size addr row.now) }
    {
        let size = self.address_size;
        match self.kind {
            Kind::Ihex => ihex_line::put_record(DATA, (addr % SEGMENT) as u16, row, out),
            Kind::Srec => srec_line::put_record(size.bytes() as u8 - 1, size, addr, row, out),
        }
    }
}
