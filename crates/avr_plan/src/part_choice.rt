//! Reads and checks the part file, and looks up the part.
ghost use Rattle.std.specs.Prelude.{◌≡◌, false, [], None, Ok, IfErr};
ghost use Rattle.avr_plan.specs.PlanFaults.{ReportsPartsFault, with_status};
ghost use Rattle.avr_plan.specs.Planning.{LacksPart, parts_stage, part_stage};
ghost use Rattle.avr_io.specs.StageRuns.{OnlyAtStart, RunsStage};
ghost use Rattle.ghosts.specs.Preserves.{Preserves};

use crate::messages::{no_part_message, part_file_message};
use crate::plan_fault::PartsFault;
use crate::text::Text;
use avr_io::{Desk, file_message, read_file, refuse, too_long_message};
use avr_part::{Part, Parts, parse_part_file};
use std::alloc::Global;

/// The most bytes of a part file.
const LARGEST_PART_FILE: usize = 65_536;

/// Returns the parts of the part file, or an empty list if no file is given.
///
/// # Errors
///
/// A fault if the file can't be read, has more than 65,536 bytes or isn't a part file, or if allocation fails. Its line
/// was printed, as far as the desk takes it.
pub fn given_parts<D: Desk>(
    alloc: Global,
    desk: &mut D,
    file: &Option<Text>,
) -> Result<Parts, PartsFault>
    ensures goes { RunsStage (OnlyAtStart false) (parts_stage file.now) (D.view desk.old) (D.view desk.new)
        (with_status result) }
    ensures notice { IfErr result (λ fault. ReportsPartsFault file.now (D.view desk.old) (D.view desk.new) fault) }
    ensures none { file.now ≡ None → (result ≡ Ok []) × (D.view desk.new ≡ D.view desk.old) }
    ensures stays { Preserves D.started_as desk.old desk.new }
{
    let Some(file) = file else {
        return Ok(Parts::none());
    };
    let file = file.as_str();
    let contents = match read_file(alloc, desk, file, LARGEST_PART_FILE) {
        Ok(contents) => contents,
        Err(fault) => {
            refuse(desk, &file_message(file, fault));
            return Err(PartsFault::File(fault));
        }
    };
    if !contents.ended {
        refuse(desk, &too_long_message(file, LARGEST_PART_FILE as u32));
        return Err(PartsFault::TooLong);
    }
    match parse_part_file(alloc, contents.bytes.as_slice()) {
        Ok(parts) => Ok(parts),
        Err(refused) => {
            let fault = refused.fault();
            refuse(desk, &part_file_message(file, fault));
            Err(PartsFault::Parts(fault))
        }
    }
}

/// Returns the part with this id. `parts` come before the built-in ones.
///
/// # Errors
///
/// The status 1 if no part has this id. The line `avrstk: error: no part ID` was printed, as far as the desk takes it.
///
/// ```text
/// let mut desk = MemDesk::empty(alloc);
/// let parts = given_parts(alloc, &mut desk, &None)?;
/// assert!(rt; chosen_part(&mut desk, &parts, "m328p").is_ok());
/// assert!(rt; matches!(chosen_part(&mut desk, &parts, "nobody"), Err(1)));
/// assert!(rt; desk.messages() == b"avrstk: error: no part nobody\n".as_slice());
/// ```
pub fn chosen_part<D: Desk>(desk: &mut D, parts: &Parts, id: &str) -> Result<Part, u8>
    ensures goes { RunsStage (OnlyAtStart false) (part_stage id.now parts.now) (D.view desk.old) (D.view desk.new)
        result }
    ensures refused { IfErr result (λ status. LacksPart id.now parts.now (D.view desk.old) (D.view desk.new)) }
    ensures stays { Preserves D.started_as desk.old desk.new }
{
    match parts.find(id) {
        Ok(part) => Ok(part),
        Err(_) => Err(refuse(desk, &no_part_message(id))),
    }
}
