ghost use Rattle.std.specs.Prelude.{◌≡◌, ◌≤◌, ◌<◌, ◌^◌, length, Ok};
ghost use Rattle.avr_io.specs.Fault.{CountsNeverFall};
ghost use Rattle.avr_session.specs.FileText.{file_text};
ghost use Rattle.avr_session.specs.Reporting.{Outputs, ReadStops};
ghost use Rattle.avr_session.specs.Saving.{SaveStops, SendsText, WritesAll};
ghost use Rattle.avr_session.specs.Session.{saving_output, bytes_to_save, read_output, fault_line_or};
ghost use Rattle.std.specs.Result.{result_and};
ghost use Rattle.ghosts.specs.Preserves.{Preserves};

use crate::file_text::{trimmed, write_text};
use crate::reports::{Done, report_bytes, report_fault};
use avr_io::{Desk, DeskFault, Stream, is_dash, not_created_message, not_written_message, refuse};
use avr_part::Mem;
use avr_plan::{Format, Plan};
use stk_host::HostFault;

/// The name of a file, or `-` for standard output, and the format.
#[derive(Clone, Copy)]
pub(crate) struct Target<'a> {
    pub(crate) file: &'a str,
    pub(crate) format: Format,
}

/// Writes these bytes as text in a format, and waits until a file is on the disk. After a fault a prefix of the text
/// was written, perhaps all of it.
fn write_whole<D: Desk>(
    desk: &mut D,
    stream: Stream,
    format: Format,
    bytes: &[u8],
) -> Result<(), DeskFault>
    requires { length bytes.now ≤ 2 ^ 32 }
    ensures { SendsText D.Desk stream (file_text format bytes.now) desk.old desk.new result }
{
    write_text(desk, stream, format, bytes)?;
    if let Stream::File = stream {
        // an empty write waits until the file is on the disk
        desk.write(&[])?;
    }
    Ok(())
}

/// Writes to the file just created, or to standard output, and reports a failure.
fn write_file<D: Desk>(
    desk: &mut D,
    stream: Stream,
    target: Target<'_>,
    bytes: &[u8],
) -> Result<(), DeskFault>
    requires short { length bytes.now ≤ 2 ^ 32 }
    requires written { stream ≡ Stream.Messages → ⊥ }
    ensures writes { WritesAll stream target.entry.file.now (D.view desk.old) (D.view desk.new)
        (file_text target.entry.format bytes.now) result }
    ensures follows { CountsNeverFall (D.view desk.old) (D.view desk.new) }
    ensures stays { Preserves D.started_as desk.old desk.new }
{
    match write_whole(desk, stream, target.format, bytes) {
        Ok(()) => Ok(()),
        Err(fault) => {
            refuse(desk, &not_written_message(target.file));
            Err(fault)
        }
    }
}

/// Writes bytes to a new file, or to standard output. Reports a failure.
pub(crate) fn save<D: Desk>(desk: &mut D, target: Target<'_>, bytes: &[u8]) -> Result<(), DeskFault>
    requires { length bytes.now ≤ 2 ^ 32 }
    ensures { Outputs D.Desk (SaveStops target.entry.file.now)
        (saving_output target.entry.file.now (file_text target.entry.format bytes.now)) desk.old desk.new result }
{
    if is_dash(target.file) {
        return write_file(desk, Stream::Output, target, bytes);
    }
    match desk.create(target.file) {
        Ok(()) => write_file(desk, Stream::File, target, bytes),
        Err(fault) => {
            refuse(desk, &not_created_message(target.file));
            Err(fault)
        }
    }
}

/// Drops the trailing FF of flash, unless `all` is set.
fn bytes_to_save(mem: Mem, all: bool, bytes: &[u8]) -> &[u8]
    ensures { result.now ≡ bytes_to_save mem all bytes.now }
{
    match (mem, all) {
        (Mem::Flash, false) => trimmed(bytes),
        _ => bytes,
    }
}

/// Saves the bytes read and reports them, or reports why they weren't read.
pub(crate) fn report_read<D: Desk>(
    desk: &mut D,
    plan: &Plan,
    mem: Mem,
    target: Target<'_>,
    bytes: &[u8],
    outcome: &Result<(), HostFault>,
) -> Result<(), DeskFault>
    requires { length bytes.now < 2 ^ 32 }
    ensures { Outputs D.Desk (ReadStops outcome.now) (fault_line_or plan.now.part (read_output plan.now.switches mem
        target.entry.format target.entry.file.now) (result_and outcome.now (Ok bytes.now))) desk.old desk.new result }
{
    match outcome {
        Ok(()) => {
            let switches = plan.switches();
            let kept = bytes_to_save(mem, switches.all, bytes);
            save(desk, target, kept)?;
            report_bytes(desk, switches.quiet, mem, kept.len() as u32, Done::Read)
        }
        Err(fault) => report_fault(desk, plan.part(), *fault),
    }
}
