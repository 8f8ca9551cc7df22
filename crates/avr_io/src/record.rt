ghost use Rattle.std.specs.Prelude.{◌≡◌, IfOk, is_ok, true, if◌then◌else◌};
ghost use Rattle.std.specs.Option.{option_copied};
ghost use Rattle.avr_io.specs.Named.{is_dash, newest};
ghost use Rattle.avr_io.specs.Record.{files_among};

use crate::bytes::Bytes;
use std::alloc::{AllocError, Global};

/// A file opened for reading, and the bytes read so far.
#[derive(Debug, Drop)]
pub struct Reading {
    pub name: Bytes,
    pub bytes: Bytes,
    /// Whether the end was seen.
    pub ended: bool,
}

/// A created file, and the bytes written so far.
#[derive(Debug, Drop)]
pub struct Writing {
    pub name: Bytes,
    pub bytes: Bytes,
}

/// The result of opening a file.
#[derive(Debug, Drop)]
pub enum Opening {
    /// No file has this name.
    Absent(Bytes),
    Found(Reading),
}

/// A finished use of a file.
#[derive(Debug, Drop)]
pub enum FileUse {
    /// The file was opened for reading.
    Opened(Opening),
    /// The file was created or replaced.
    Created(Writing),
}

/// The open file.
#[derive(Debug, Drop)]
pub enum Open {
    Closed,
    ToRead(Reading),
    ToWrite(Writing),
}

impl Open {
    ghost use Rattle.avr_io.specs.Named.{bytes_given};
    ghost use Rattle.avr_io.specs.Record.{is_to_write, noted, written_on};

    /// Returns what a file that is open to read has given so far.
    pub fn given(&self) -> &[u8]
        ensures { result.now ≡ bytes_given self.now }
    {
        match self {
            Open::ToRead(reading) => reading.bytes.as_slice(),
            _ => &[],
        }
    }

    /// Notes bytes that the open file gave, and whether its end was seen.
    pub fn read_on(&mut self, bytes: &[u8], ends: bool) -> Result<(), AllocError>
        ensures { self.new ≡ (if is_ok result then noted bytes.now ends self.old else self.old) }
    {
        if let Open::ToRead(reading) = self {
            reading.bytes.extend(bytes)?;
            reading.ended = reading.ended || ends;
        }
        Ok(())
    }

    /// Notes written bytes. Returns whether the file is open to write and memory was allocated.
    pub fn write_on(&mut self, bytes: &[u8]) -> bool
        ensures kept { self.new ≡ (if result then written_on bytes.now self.old else self.old) }
        ensures has_file { result ≡ true → is_to_write self.old ≡ true }
    {
        match self {
            Open::ToWrite(writing) => writing.bytes.extend(bytes).is_ok(),
            Open::Closed | Open::ToRead(_) => false,
        }
    }
}

impl Writing {
    ghost use Rattle.avr_io.specs.Named.{or_older};

    /// Copies a name and bytes into a new file.
    pub fn copied(alloc: Global, name: &str, bytes: &[u8]) -> Result<Writing, AllocError>
        ensures { IfOk result (λ file. file ≡ record { name = name.now; bytes = bytes.now }) }
    {
        let name = Bytes::copied(alloc, name.as_bytes())?;
        let bytes = Bytes::copied(alloc, bytes)?;
        Ok(Writing { name, bytes })
    }

    /// Returns this file's bytes if it has the name, else `older`.
    pub fn or_older<'a>(&'a self, older: Option<&'a [u8]>, name: &[u8]) -> Option<&'a [u8]>
        ensures { option_copied result ≡ or_older name.now (option_copied older.entry) self.now }
    {
        if self.name.as_slice() == name {
            Some(self.bytes.as_slice())
        } else {
            older
        }
    }
}

/// Returns whether a name means standard input or output, and no file: the name `-`.
pub fn is_dash(name: &str) -> bool
    ensures { result ≡ is_dash name.now }
{
    name == "-"
}

/// Returns the bytes of the last file of this name, else `older`.
pub fn newest<'a>(older: Option<&'a [u8]>, files: &'a [Writing], name: &[u8]) -> Option<&'a [u8]>
    ensures { option_copied result ≡ newest name.now (option_copied older.entry) files.now }
{
    let mut found = older;
    for file in files {
        found = file.or_older(found, name);
    }
    found
}

/// Returns the bytes of the last such file created among these uses, else `older`.
pub fn newest_created<'a>(
    older: Option<&'a [u8]>,
    uses: &'a [FileUse],
    name: &[u8],
) -> Option<&'a [u8]>
    ensures { option_copied result ≡ newest name.now (option_copied older.entry) (files_among uses.now) }
{
    let mut found = older;
    for used in uses {
        if let FileUse::Created(file) = used {
            found = file.or_older(found, name);
        }
    }
    found
}
