//! Updates: what `-U` asks for, and how its text is read.
ghost use Rattle.std.specs.Prelude.{◌≡◌, ◌∷◌, ◌++◌, [], Some, None, is_ok, if◌then◌else◌, ◌==◌, find};
ghost use Rattle.avr_plan.specs.Update.{letter_of, formats_of, format_of, op_named, file_and_letter, GivesUpdateUnlessOutOfMemory, update_of, update_after, update_by, update_with_op};

use crate::text::{Text, split_first};
use avr_part::Mem;
use std::alloc::{AllocError, Global};
use std::marker::Model;
use thiserror::Error;

/// What is done with a memory.
#[derive(Clone, Copy, Debug, PartialEq, Eq)]
pub enum Op {
    /// `r`: the memory is read into the file.
    Read,
    /// `w`: the file is written to the memory.
    Write,
    /// `v`: the memory is compared with the file.
    Verify,
}

/// The format of a file, as AVRDUDE's `-U` names it by a letter.
#[derive(Clone, Copy, Debug, PartialEq, Eq)]
pub enum Format {
    /// `a`: the format that the first bytes show. Only for input files.
    Auto,
    /// `i`: Intel HEX.
    Ihex,
    /// `s`: Motorola S-records.
    Srec,
    /// `r`: raw bytes.
    Raw,
    /// `m`: values in place of the file's name. Only for writes and comparisons.
    Immediate,
    /// `d`: a list of decimal numbers. Only for output files, like the three below.
    Decimal,
    /// `h`: a list of hexadecimal numbers.
    Hexadecimal,
    /// `o`: a list of octal numbers.
    Octal,
    /// `b`: a list of binary numbers.
    Binary,
}

/// The formats of output files, which a memory is read into.
static MADE: [Format; 7] = [
    Format::Ihex,
    Format::Srec,
    Format::Raw,
    Format::Decimal,
    Format::Hexadecimal,
    Format::Octal,
    Format::Binary,
];

/// The formats of input files, which are written or compared.
static READ: [Format; 5] = [
    Format::Ihex,
    Format::Srec,
    Format::Raw,
    Format::Immediate,
    Format::Auto,
];

impl Op {
    pub(crate) fn formats(self) -> &'static [Format]
        ensures { result.now ≡ formats_of self }
    {
        match self {
            Op::Read => MADE.as_slice(),
            Op::Write | Op::Verify => READ.as_slice(),
        }
    }

    pub(crate) fn default_format(self) -> Format
        ensures { Some result ≡ format_of self None }
    {
        match self {
            Op::Read => Format::Raw,
            Op::Write | Op::Verify => Format::Auto,
        }
    }
}

impl Format {
    pub(crate) fn letter(self) -> u8
        ensures { result ≡ letter_of self }
    {
        match self {
            Format::Auto => b'a',
            Format::Ihex => b'i',
            Format::Srec => b's',
            Format::Raw => b'r',
            Format::Immediate => b'm',
            Format::Decimal => b'd',
            Format::Hexadecimal => b'h',
            Format::Octal => b'o',
            Format::Binary => b'b',
        }
    }
}

/// One `-U` of the command line: what is done with one memory.
#[derive(Debug, Drop)]
pub struct Update {
    /// The memory that is read, written or compared.
    pub memory: Mem,
    /// Whether it is read, written or compared.
    pub op: Op,
    /// The format of the file, one of the operation's own.
    pub format: Format,
    /// The file's name, which isn't empty; `-` for standard input or output; with [`Format::Immediate`] the values.
    pub file: Text,
}

/// Why a text is no update.
#[derive(Clone, Copy, Debug, PartialEq, Eq, Error)]
pub enum UpdateFault {
    /// No memory has the name before the first colon.
    #[error("no such memory")]
    BadMemory = 1,
    /// The operation is missing, or not `r`, `w` or `v`.
    #[error("no such operation")]
    BadOp = 2,
    /// The letter names no format of this operation.
    #[error("no such format here")]
    BadFormat = 3,
    /// The file's name is empty or missing.
    #[error("no file named")]
    NoFile = 4,
    /// Allocation failed.
    #[error("out of memory")]
    Memory = 5,
}

/// The updates, in the order given. In contracts its value is their list.
///
/// ```text
/// let mut updates = Updates::new(alloc);
/// updates.push(parse_update(alloc, "flash:w:a.hex")?)?;
/// assert_eq!(rt; updates.as_slice().len(), 1);
/// ```
#[derive(Debug, Drop)]
pub struct Updates {
    items: Vec<Update>,
}

impl Model for Updates {
    ghost use Rattle.std.specs.Prelude.{List};
    ghost use Rattle.avr_plan.specs.declared.update.Update.{Update};

    ghost Value = { List Update };

    ghost view = { λ u. u.items.items };
}

impl Updates {
    /// Creates an empty list. It allocates nothing yet.
    pub fn new(alloc: Global) -> Updates
        ensures { result ≡ [] }
    {
        Updates {
            items: Vec::new(alloc),
        }
    }

    /// Appends an update.
    ///
    /// # Errors
    ///
    /// `AllocError` if allocation fails; the list is then unchanged.
    pub fn push(&mut self, update: Update) -> Result<(), AllocError>
        ensures { self.new ≡ (if is_ok result then self.old ++ update ∷ [] else self.old) }
    {
        self.items.push(update)?;
        Ok(())
    }

    /// Returns the updates, in the order given.
    pub fn as_slice(&self) -> &[Update]
        ensures { result.now ≡ self.now }
    {
        self.items.as_slice()
    }
}

fn op_named(name: &str) -> Option<Op>
    ensures { result ≡ op_named name.now }
{
    match name {
        "r" => Some(Op::Read),
        "w" => Some(Op::Write),
        "v" => Some(Op::Verify),
        _ => None,
    }
}

fn format_named(formats: &[Format], letter: u8) -> Option<Format>
    ensures { result ≡ find (λ format. letter_of format == letter) formats.now }
{
    formats
        .iter()
        .copied()
        .find(|format| format.letter() == letter)
}

fn format_of(op: Op, letter: Option<u8>) -> Option<Format>
    ensures { result ≡ format_of op letter }
{
    match letter {
        Some(letter) => format_named(op.formats(), letter),
        None => Some(op.default_format()),
    }
}

/// Splits off the format's letter, if the last byte but one is a colon.
fn file_and_letter(rest: &str) -> (&str, Option<u8>)
    ensures { (result.0.now, result.1) ≡ file_and_letter rest.now }
{
    let bytes = rest.as_bytes();
    let count = bytes.len();
    if count >= 2 && bytes[count - 2] == b':' {
        (&rest[..count - 2], Some(bytes[count - 1]))
    } else {
        (rest, None)
    }
}

fn update_by(
    alloc: Global,
    memory: Mem,
    op: Op,
    file: &str,
    letter: Option<u8>,
) -> Result<Update, UpdateFault>
    ensures { GivesUpdateUnlessOutOfMemory (update_by memory op (file.now, letter)) result }
{
    if file.is_empty() {
        return Err(UpdateFault::NoFile);
    }
    let format = format_of(op, letter).ok_or(UpdateFault::BadFormat)?;
    let file = Text::new(alloc, file).map_err(|_| UpdateFault::Memory)?;
    Ok(Update {
        memory,
        op,
        format,
        file,
    })
}

fn update_with_op(alloc: Global, memory: Mem, op: &str, rest: &str) -> Result<Update, UpdateFault>
    ensures { GivesUpdateUnlessOutOfMemory (update_with_op memory op.now rest.now) result }
{
    let op = op_named(op).ok_or(UpdateFault::BadOp)?;
    let (file, letter) = file_and_letter(rest);
    update_by(alloc, memory, op, file, letter)
}

/// Reads what follows a memory's colon.
fn update_after(alloc: Global, memory: Mem, after: &str) -> Result<Update, UpdateFault>
    ensures { GivesUpdateUnlessOutOfMemory (update_after memory after.now) result }
{
    match split_first(after) {
        Some((op, rest)) => update_with_op(alloc, memory, op, rest),
        None => update_with_op(alloc, memory, after, ""),
    }
}

/// Reads the text of AVRDUDE's option `-U`: `MEMORY:OP:FILE`, `MEMORY:OP:FILE:FORMAT`, or a file alone, which is
/// written to flash. Colons beyond these belong to the file.
///
/// # Errors
///
/// The first of `BadMemory`, `BadOp`, `NoFile` and `BadFormat` that applies. `Memory` if allocation fails and none of
/// them does.
///
/// ```text
/// let update = parse_update(alloc, "lfuse:w:0xE2:m")?;
/// assert!(rt; update.memory == Mem::Lfuse && update.op == Op::Write);
/// assert!(rt; update.format == Format::Immediate && update.file.as_str() == "0xE2");
/// assert!(rt; matches!(parse_update(alloc, "boot:w:a.hex"), Err(UpdateFault::BadMemory)));
/// ```
pub fn parse_update(alloc: Global, text: &str) -> Result<Update, UpdateFault>
    ensures { GivesUpdateUnlessOutOfMemory (update_of text.now) result }
{
    let Some((name, after)) = split_first(text) else {
        return update_by(alloc, Mem::Flash, Op::Write, text, None);
    };
    let memory = Mem::named(name).ok_or(UpdateFault::BadMemory)?;
    update_after(alloc, memory, after)
}
