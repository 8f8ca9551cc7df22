//! Laws of desks: their records are true.
ghost use Rattle.std.specs.Prelude.{◌≡◌, [], Option, None};
ghost use Rattle.ghosts.specs.Preserves.{Preserves};
ghost use Rattle.avr_desk.specs.Handles.{IsTrueRecord};
ghost use Rattle.avr_desk.specs.Journal.{no_calls};
ghost use Rattle.avr_desk.specs.Memory.{MemDeskState, Stock, stock_of};
ghost use Rattle.avr_io.specs.Record.{Bytes, all_uses, nothing_kept};
ghost use Rattle.avr_desk.specs.Shown.{IsTrueSince, RecordsAll};
ghost use Rattle.avr_desk.specs.Truth.{OpeningsAreTrue, HoldsTrue};
ghost use Rattle.avr_desk.specs.declared.system.OpenFile.TheVariants.{Nothing};

use crate::file_system::FileSystem;
use crate::mem_desk::MemDesk;
use crate::system::SystemDesk;
use std::io::Write;

/// Whatever was done with a desk in memory, each recorded opening gave a prefix of the newest file of its name. It gave
/// all if the end was seen, and nothing if there was no file. Only files made before the opening count.
///
/// Every call over a [`crate::Desk`] promises the precondition, and so does all code made of such calls.
pub fn what_a_desk_in_memory_gives_is_true(before: &MemDesk, after: &MemDesk)
    requires { Preserves HoldsTrue before.now after.now }
    ensures begins { (fresh : MemDeskState) → fresh.kept ≡ nothing_kept → HoldsTrue (stock_of fresh) fresh }
    ensures gives { (stock : Stock) → HoldsTrue stock before.now → OpeningsAreTrue stock [] (all_uses after.now.kept) }
{}

/// Whatever was done with a program's desk, its record is true. A writer's known bytes grew by what was sent to the
/// messages, or to the output while no file is the output too. The record of files and standard input is what the
/// system returned for the names asked, and the system did nothing else.
pub fn what_a_desk_of_a_program_keeps_is_true<
    R: FileSystem + Drop,
    O: Write + Drop,
    E: Write + Drop,
>(before: &SystemDesk<R, O, E>, after: &SystemDesk<R, O, E>)
    requires { Preserves (IsTrueSince R.FileSystem R.File.Read R.File.Write R.Input.Read O.Write E.Write)
        before.now after.now }
    ensures since { IsTrueSince R.FileSystem R.File.Read R.File.Write R.Input.Read O.Write E.Write
        before.now after.now }
    ensures begins { (fresh : R) → R.has_done no_calls fresh
        → ((name : Bytes) (found : Option Bytes) → R.left fresh name found → ⊥)
        → IsTrueRecord R.FileSystem R.File.Read R.File.Write R.Input.Read fresh Nothing None nothing_kept }
    ensures all { RecordsAll R.FileSystem R.File.Read R.File.Write R.Input.Read before.now after.now }
{}
