ghost use Rattle.std.specs.Prelude.{◌≡◌, ◌∷◌, [], map};
ghost use Rattle.avr_io.specs.Lines.{text_of};
ghost use Rattle.avr_io.specs.OutputEvents.{PrintsLine};
ghost use Rattle.avr_image.specs.Image.{byte_count};
ghost use Rattle.avr_session.specs.Lines.{informs, warns, fault_line};
ghost use Rattle.avr_session.specs.Reporting.{Prints};
ghost use Rattle.avr_session.specs.Session.{done_text, fault_line_or, bytes_output, signature_output, warns_of_signature, opening_output};

use crate::messages::{fault_message, other_signature_message};
use avr_image::Image;
use avr_io::{Desk, DeskFault, Piece, print_error, print_information, print_warning};
use avr_part::{Mem, Part};
use avr_plan::Plan;
use stk_host::HostFault;

/// What was done with the bytes of a memory.
#[derive(Clone, Copy)]
pub(crate) enum Done {
    Written,
    NotWritten,
    Verified,
    Read,
}

impl Done {
    fn text(self) -> &'static str
        ensures { result.now ≡ done_text self }
    {
        match self {
            Done::Written => " bytes written",
            Done::NotWritten => " bytes not written",
            Done::Verified => " bytes verified",
            Done::Read => " bytes read",
        }
    }
}

/// Prints a line of information, unless `quiet` is 1 or more.
#[tactic(auto, using(crate::proofs::ActionByAction::Reports::lines_printed))]
pub(crate) fn inform<D: Desk>(
    desk: &mut D,
    quiet: u8,
    pieces: &[Piece<'_>],
) -> Result<(), DeskFault>
    ensures { Prints D.Desk (informs quiet (map text_of pieces.now)) desk.old desk.new result }
{
    if quiet > 0 {
        return Ok(());
    }
    print_information(desk, pieces)
}

/// Prints a warning, unless `quiet` is 2 or more.
#[tactic(auto, using(crate::proofs::ActionByAction::Reports::lines_printed))]
pub(crate) fn warn<D: Desk>(desk: &mut D, quiet: u8, pieces: &[Piece<'_>]) -> Result<(), DeskFault>
    ensures { Prints D.Desk (warns quiet (map text_of pieces.now)) desk.old desk.new result }
{
    if quiet > 1 {
        return Ok(());
    }
    print_warning(desk, pieces)
}

pub(crate) fn report_bytes<D: Desk>(
    desk: &mut D,
    quiet: u8,
    mem: Mem,
    count: u32,
    done: Done,
) -> Result<(), DeskFault>
    ensures { Prints D.Desk (bytes_output quiet mem count (done_text done)) desk.old desk.new result }
{
    let pieces = [
        Piece::Text(mem.name()),
        Piece::Text(": "),
        Piece::Number(count),
        Piece::Text(done.text()),
    ];
    inform(desk, quiet, &pieces)
}

#[tactic(auto, unfolding(crate::specs::Lines::fault_line))]
pub(crate) fn report_fault<D: Desk>(
    desk: &mut D,
    part: &Part,
    fault: HostFault,
) -> Result<(), DeskFault>
    ensures { Prints D.Desk (PrintsLine (fault_line part.now fault) ∷ []) desk.old desk.new result }
{
    let message = fault_message(part, fault);
    print_error(desk, message.pieces())
}

fn report_found<D: Desk>(desk: &mut D, quiet: u8, found: [u8; 3]) -> Result<(), DeskFault>
    ensures { Prints D.Desk (signature_output quiet found) desk.old desk.new result }
{
    let pieces = [Piece::Text("device signature = "), Piece::Signature(found)];
    inform(desk, quiet, &pieces)
}

/// Warns if the signature isn't the part's.
fn warn_of_signature<D: Desk>(
    desk: &mut D,
    quiet: u8,
    part: &Part,
    found: [u8; 3],
) -> Result<(), DeskFault>
    ensures { Prints D.Desk (warns_of_signature quiet part.now found) desk.old desk.new result }
{
    if found == part.signature() {
        Ok(())
    } else {
        let message = other_signature_message(part, found);
        warn(desk, quiet, message.pieces())
    }
}

/// Prints the signature, with a warning or the error if it isn't the part's, or the fault of opening.
pub(crate) fn report_opening<D: Desk>(
    desk: &mut D,
    plan: &Plan,
    opened: &Result<[u8; 3], HostFault>,
) -> Result<(), DeskFault>
    ensures { Prints D.Desk (opening_output plan.now.switches.quiet plan.now.part opened.now) desk.old desk.new result }
{
    let quiet = plan.switches().quiet;
    match opened {
        Ok(found) => {
            report_found(desk, quiet, *found)?;
            warn_of_signature(desk, quiet, plan.part(), *found)
        }
        Err(HostFault::WrongSignature(found)) => {
            report_found(desk, quiet, *found)?;
            report_fault(desk, plan.part(), HostFault::WrongSignature(*found))
        }
        Err(fault) => report_fault(desk, plan.part(), *fault),
    }
}

/// Reports that a step was done, or why it failed.
pub(crate) fn report_step<D: Desk>(
    desk: &mut D,
    plan: &Plan,
    done: &str,
    outcome: &Result<(), HostFault>,
) -> Result<(), DeskFault>
    ensures { Prints D.Desk (fault_line_or plan.now.part (λ _. informs plan.now.switches.quiet (done.now ∷ []))
        outcome.now) desk.old desk.new result }
{
    match outcome {
        Ok(()) => inform(desk, plan.switches().quiet, &[Piece::Text(done)]),
        Err(fault) => report_fault(desk, plan.part(), *fault),
    }
}

/// Reports what was done with an image, or why it failed.
pub(crate) fn report_image<D: Desk>(
    desk: &mut D,
    plan: &Plan,
    done: Done,
    mem: Mem,
    image: &Image,
    outcome: &Result<(), HostFault>,
) -> Result<(), DeskFault>
    ensures { Prints D.Desk (fault_line_or plan.now.part (λ _. bytes_output plan.now.switches.quiet mem
        (byte_count image.now)
        (done_text done)) outcome.now) desk.old desk.new result }
{
    match outcome {
        Ok(()) => report_bytes(desk, plan.switches().quiet, mem, image.len(), done),
        Err(fault) => report_fault(desk, plan.part(), *fault),
    }
}
