ghost use Rattle.std.specs.Prelude.{◌≡◌, ◌≤◌, ◌+◌, ◌++◌, ◌∷◌, ◌==◌, ◌&&◌, [], min, take, drop, length, Some, None, IfOk, OnOk, OnErr, is_ok, not, true, if◌then◌else◌};
ghost use Rattle.std.specs.Option.{option_copied, option_to_list};
ghost use Rattle.std.specs.Vec.{vec_len, vec_capacity};
ghost use Rattle.avr_io.specs.Record.{use_of};

use crate::journal::{Call, Journal};
use avr_io::{
    Bytes, ChipDesk, Desk, DeskFault, FileUse, Open, Opening, Reading, Stream, Writing, is_dash,
    newest, newest_created,
};
use std::alloc::{AllocError, Global};
use std::marker::Model;
use std::mem;

/// A desk that holds files, input, output and messages in memory. Its methods show all that was done over it. `-` is
/// standard input to `open`, and standard output to `create`.
///
/// If allocation fails within a call, the call fails and is counted; nothing else changes. The journal has what only
/// proofs use: all replacements, and how many releases were asked for.
#[derive(Debug, Drop)]
pub struct MemDesk {
    alloc: Global,
    input: Bytes,
    stored: Vec<Writing>,
    opened: Bytes,
    uses: Vec<FileUse>,
    current: Open,
    held: Option<Bytes>,
    denied: Vec<Bytes>,
    output: Bytes,
    messages: Bytes,
    journal: Journal,
    failures: u64,
    message_failures: u64,
}

impl Model for MemDesk {
    ghost use Rattle.avr_desk.specs.Memory.{MemDeskState};

    ghost Value = { MemDeskState };

    ghost view = { λ d. record {
      kept = record {
        uses = d.uses.items;
        current = d.current;
        held = d.held;
        denied = d.denied.items;
        tried = d.journal.kept.tried;
        releases = d.journal.kept.releases;
        output = d.output;
        messages = d.messages;
      };
      failures = d.failures;
      message_failures = d.message_failures;
      input = d.input;
      stored = d.stored.items;
      opened = d.opened;
    } };
}

/// Copies bytes from `at` on to the start of `buf`, and returns how many.
fn copy_next(bytes: &[u8], at: usize, buf: &mut [u8]) -> usize
    ensures count { result ≡ min (length buf.new) (length (drop at bytes.now)) }
    ensures gives { take result buf.new ≡ take result (drop at bytes.now) }
{
    let rest = bytes.get(at..).unwrap_or(&[]);
    let count = rest.len().min(buf.len());
    buf[..count].copy_from_slice(&rest[..count]);
    count
}

/// Returns whether a read of `count` bytes into `room` found the end.
fn is_end(count: usize, room: usize) -> bool
    ensures { result ≡ (count == 0 && not (room == 0)) }
{
    count == 0 && room > 0
}

/// Opens `next`. The uses, which have room for both, get the file that was open, and then `last`.
fn open_next(uses: &mut Vec<FileUse>, current: &mut Open, next: Open, last: Option<FileUse>)
    requires { vec_len uses.old + 2 ≤ vec_capacity uses.old }
    ensures opened { current.new ≡ next }
    ensures closed { uses.new.items ≡ (uses.old.items ++ use_of current.old) ++ option_to_list last }
{
    match mem::replace(current, next) {
        Open::Closed => {}
        Open::ToRead(reading) => uses.push_reserved(FileUse::Opened(Opening::Found(reading))),
        Open::ToWrite(writing) => uses.push_reserved(FileUse::Created(writing)),
    }
    if let Some(last) = last {
        uses.push_reserved(last);
    }
}

impl MemDesk {
    ghost use Rattle.ghosts.specs.Failures.{OneFailureCounted};
    ghost use Rattle.avr_desk.specs.Memory.{contents, fresh_desk};
    ghost use Rattle.avr_io.specs.Named.{holds, newest};
    ghost use Rattle.avr_io.specs.Record.{all_files};

    /// Creates a desk without files. Each opening of `-` reads `input` from its start.
    pub fn new(alloc: Global, input: Bytes) -> MemDesk
        ensures { result ≡ fresh_desk input }
    {
        MemDesk {
            alloc,
            input,
            stored: Vec::new(alloc),
            opened: Bytes::new(alloc),
            uses: Vec::new(alloc),
            current: Open::Closed,
            held: None,
            denied: Vec::new(alloc),
            output: Bytes::new(alloc),
            messages: Bytes::new(alloc),
            journal: Journal::new(),
            failures: 0,
            message_failures: 0,
        }
    }

    /// Creates a desk without files, with an empty standard input.
    ///
    /// ```text
    /// let mut desk = MemDesk::empty(alloc);
    /// desk.put("a.hex", b":00000001FF\n")?;
    /// assert!(rt; desk.file("a.hex") == Some(b":00000001FF\n".as_slice()));
    /// ```
    pub fn empty(alloc: Global) -> MemDesk
        ensures { result ≡ fresh_desk [] }
    {
        MemDesk::new(alloc, Bytes::new(alloc))
    }

    /// Puts a file on the desk. A later file of the same name, put or created, replaces it.
    ///
    /// # Errors
    ///
    /// `AllocError` if allocation fails; the desk is then unchanged.
    pub fn put(&mut self, name: &str, bytes: &[u8]) -> Result<(), AllocError>
        ensures { self.new ≡ (if is_ok result then record self.old
            { stored = self.old.stored ++ record { name = name.now; bytes = bytes.now } ∷ [] } else self.old) }
    {
        let file = Writing::copied(self.alloc, name, bytes)?;
        self.stored.push(file)?;
        Ok(())
    }

    /// Returns the bytes of a file: those written since it was last created, else those last put. If `-` was created,
    /// its bytes are those written to standard output since then, except by `out`.
    pub fn file(&self, name: &str) -> Option<&[u8]>
        ensures { option_copied result ≡ newest name.now None (self.now.stored ++ all_files self.now.kept) }
    {
        let name = name.as_bytes();
        let stored = newest(None, self.stored.as_slice(), name);
        let found = newest_created(stored, self.uses.as_slice(), name);
        match &self.current {
            Open::ToWrite(file) => file.or_older(found, name),
            _ => found,
        }
    }

    /// Returns all bytes that `out` wrote to standard output. `file("-")` returns those written to a created `-`.
    pub fn output(&self) -> &[u8]
        ensures { result.now ≡ self.now.kept.output }
    {
        self.output.as_slice()
    }

    /// Returns all bytes written to the messages.
    pub fn messages(&self) -> &[u8]
        ensures { result.now ≡ self.now.kept.messages }
    {
        self.messages.as_slice()
    }

    /// Returns the finished openings and created files in order, without the open file.
    pub fn uses(&self) -> &[FileUse]
        ensures { result.now ≡ self.now.kept.uses }
    {
        self.uses.as_slice()
    }

    /// Returns the bytes that a name means; `-` is standard input.
    fn contents(&self, name: &str) -> Option<&[u8]>
        ensures { option_copied result ≡ contents name.now self.now }
    {
        if is_dash(name) {
            Some(self.input.as_slice())
        } else {
            self.file(name)
        }
    }

    fn holds(&self, name: &str) -> bool
        ensures { result ≡ holds name.now self.now.kept }
    {
        matches!(&self.held, Some(held) if held.as_slice() == name.as_bytes())
    }

    /// Counts a failure, and returns its fault.
    fn fail(&mut self) -> DeskFault
        ensures fault { result ≡ DeskFault.Failed }
        ensures same { self.new ≡ record self.old { failures = self.new.failures } }
        ensures rises { self.old.failures ≤ self.new.failures }
        ensures counts { OneFailureCounted self.old.failures self.new.failures }
    {
        self.failures = self.failures.saturating_add(1);
        DeskFault::Failed
    }
}

#[tactic(auto, using(crate::proofs::Desks::InMemory::same_true))]
impl Desk for MemDesk {
    ghost use Rattle.avr_io.specs.Record.{after_open, after_create, after_read, after_write, after_out, after_err, bytes_taken, is_to_read, is_to_write};
    ghost use Rattle.avr_io.specs.Fault.{CountsFailure, WriteCounts, IsCall};
    ghost use Rattle.avr_desk.specs.Memory.{contents, updated, memory_state, Stock, unread_bytes};
    ghost use Rattle.avr_desk.specs.Truth.{HoldsTrue};
    ghost use Rattle.ghosts.specs.Preserves.{Preserves};
    ghost use Rattle.avr_io.specs.declared.stream.Stream.TheVariants.{File, Output, Messages};

    ghost view = { memory_state };

    ghost Start = { Stock };

    ghost started_as = { HoldsTrue };

    fn open(&mut self, name: &str) -> Result<(), DeskFault>
        ensures kept { self.new ≡ record (updated (after_open name.now result self.old.kept) self.old self.new)
            { opened = self.new.opened } }
        ensures found { OnOk result (contents name.now self.old ≡ Some self.new.opened) }
        ensures absent { result ≡ Err DeskFault.NotFound → contents name.now self.old ≡ None }
        ensures leaves { OnErr result (self.new.opened ≡ self.old.opened) }
        ensures counts { CountsFailure File (memory_state self.old) (memory_state self.new) result }
        ensures stays { Preserves HoldsTrue self.old self.new }
    {
        if self.uses.reserve(2).is_err() {
            return Err(self.fail());
        }
        let Ok(kept_name) = Bytes::copied(self.alloc, name.as_bytes()) else {
            return Err(self.fail());
        };
        let Some(bytes) = self.contents(name) else {
            let absent = Some(FileUse::Opened(Opening::Absent(kept_name)));
            open_next(&mut self.uses, &mut self.current, Open::Closed, absent);
            return Err(DeskFault::NotFound);
        };
        let Ok(opened) = Bytes::copied(self.alloc, bytes) else {
            return Err(self.fail());
        };
        let next = Open::ToRead(Reading {
            name: kept_name,
            bytes: Bytes::new(self.alloc),
            ended: false,
        });
        open_next(&mut self.uses, &mut self.current, next, None);
        self.opened = opened;
        Ok(())
    }

    fn create(&mut self, name: &str) -> Result<(), DeskFault>
        ensures kept { self.new ≡ updated (after_create name.now result self.old.kept) self.old self.new }
        ensures call { IsCall memory_state HoldsTrue (CountsFailure File) self.old self.new result }
    {
        if self.uses.reserve(2).is_err() {
            return Err(self.fail());
        }
        let Ok(file) = Writing::copied(self.alloc, name, &[]) else {
            return Err(self.fail());
        };
        open_next(&mut self.uses, &mut self.current, Open::ToWrite(file), None);
        Ok(())
    }

    fn read(&mut self, buf: &mut [u8]) -> Result<usize, DeskFault>
        ensures count { IfOk result (λ n. n ≡ min (length buf.old) (length (unread_bytes self.old))) }
        ensures gives { IfOk result (λ n. take n buf.new ≡ take n (unread_bytes self.old)) }
        ensures kept { self.new ≡ updated (after_read buf.new result self.old.kept) self.old self.new }
        ensures has_file { OnOk result (is_to_read self.old.kept.current ≡ true) }
        ensures call { IsCall memory_state HoldsTrue (CountsFailure File) self.old self.new result }
    {
        if !matches!(self.current, Open::ToRead(_)) {
            return Err(self.fail());
        }
        let count = copy_next(self.opened.as_slice(), self.current.given().len(), buf);
        let ends = is_end(count, buf.len());
        if self.current.read_on(&buf[..count], ends).is_err() {
            return Err(self.fail());
        }
        Ok(count)
    }

    #[tactic(auto, using(crate::proofs::Desks::InMemory::same_true, crate::proofs::Desks::InMemory::written_true))]
    fn write(&mut self, bytes: &[u8]) -> Result<usize, DeskFault>
        ensures all { IfOk result (λ n. n ≡ length bytes.now) }
        ensures kept { self.new ≡ updated (after_write (bytes_taken bytes.now result) self.old.kept) self.old self.new }
        ensures has_file { OnOk result (is_to_write self.old.kept.current ≡ true) }
        ensures call { IsCall memory_state HoldsTrue (WriteCounts File bytes.now) self.old self.new result }
    {
        if !self.current.write_on(bytes) {
            return Err(self.fail());
        }
        Ok(bytes.len())
    }

    fn out(&mut self, bytes: &[u8]) -> Result<usize, DeskFault>
        ensures all { IfOk result (λ n. n ≡ length bytes.now) }
        ensures kept { self.new ≡ updated (after_out (bytes_taken bytes.now result) self.old.kept) self.old self.new }
        ensures call { IsCall memory_state HoldsTrue (WriteCounts Output bytes.now) self.old self.new result }
    {
        if self.output.extend(bytes).is_err() {
            return Err(self.fail());
        }
        Ok(bytes.len())
    }

    fn err(&mut self, bytes: &[u8]) -> Result<usize, DeskFault>
        ensures all { IfOk result (λ n. n ≡ length bytes.now) }
        ensures kept { self.new ≡ record (updated (after_err (bytes_taken bytes.now result) self.old.kept) self.old
            self.new) { message_failures = self.new.message_failures } }
        ensures call { IsCall memory_state HoldsTrue (WriteCounts Messages bytes.now) self.old self.new result }
    {
        if self.messages.extend(bytes).is_err() {
            self.message_failures = self.message_failures.saturating_add(1);
            return Err(self.fail());
        }
        Ok(bytes.len())
    }
}

#[tactic(auto, using(crate::proofs::Desks::InMemory::same_true))]
impl ChipDesk for MemDesk {
    ghost use Rattle.avr_io.specs.Record.{Replaces, after_hold, with_none_held, with_replaced};
    ghost use Rattle.avr_io.specs.Fault.{CountsFailure, IsCall};
    ghost use Rattle.avr_desk.specs.Memory.{updated, memory_state};
    ghost use Rattle.avr_io.specs.Named.{holds};
    ghost use Rattle.avr_desk.specs.Truth.{HoldsTrue};
    ghost use Rattle.ghosts.specs.Preserves.{Preserves};
    ghost use Rattle.avr_io.specs.declared.stream.Stream.TheVariants.{File};

    fn hold(&mut self, name: &str) -> Result<bool, DeskFault>
        ensures free { IfOk result (λ b. b ≡ not (holds name.now self.old.kept)) }
        ensures kept { self.new ≡ updated (after_hold name.now result self.old.kept) self.old self.new }
        ensures call { IsCall memory_state HoldsTrue (CountsFailure File) self.old self.new result }
    {
        let Ok(own_name) = Bytes::copied(self.alloc, name.as_bytes()) else {
            return Err(self.fail());
        };
        if !self.holds(name) {
            self.held = Some(own_name);
            return Ok(true);
        }
        if self.denied.push(own_name).is_err() {
            return Err(self.fail());
        }
        Ok(false)
    }

    fn release(&mut self)
        ensures kept { self.new ≡ record self.old { kept = with_none_held self.old.kept } }
        ensures stays { Preserves HoldsTrue self.old self.new }
    {
        self.held = None;
        self.journal = self.journal.then(&Call::Released);
    }

    fn replace(&mut self, name: &str, bytes: &[u8]) -> Result<(), DeskFault>
        ensures kept { self.new ≡ updated
            (if is_ok result then with_replaced name.now bytes.now self.old.kept else self.old.kept) self.old self.new }
        ensures replaces { Replaces name.now bytes.now result (memory_state self.old) (memory_state self.new) }
        ensures call { IsCall memory_state HoldsTrue (CountsFailure File) self.old self.new result }
    {
        if self.uses.reserve(2).is_err() {
            return Err(self.fail());
        }
        let Ok(file) = Writing::copied(self.alloc, name, bytes) else {
            return Err(self.fail());
        };
        let replaced = Some(FileUse::Created(file));
        open_next(&mut self.uses, &mut self.current, Open::Closed, replaced);
        self.held = None;
        self.journal = self.journal.then(&Call::Tried(name.as_bytes(), bytes));
        Ok(())
    }
}
