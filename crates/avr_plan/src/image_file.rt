//! The image of an update: of a file in one of the formats, or of values.
ghost use Rattle.std.specs.Prelude.{◌≡◌, ◌+◌, ◌<◌, ◌^◌, ℕ, IfErr, OnOk, length, false, IfOk, vec_len, vec_capacity};
ghost use Rattle.avr_io.specs.Fault.{CountsNeverFall, HasSameCounts};
ghost use Rattle.avr_io.specs.Record.{DeskState, Bytes};
ghost use Rattle.avr_records.specs.declared.kind.Found.{Found as AnyFound};
ghost use Rattle.avr_plan.specs.ImageFile.{kind_of, image_of_file};
ghost use Rattle.avr_io.specs.Files.{CountsFileFault, FileBreaks};
ghost use Rattle.avr_plan.specs.ImageReading.{BreaksReading, CountsReadFault, FirstBytesAreRead, MatchRead, ReadsImage, ReadsRest};
ghost use Rattle.avr_plan.specs.Intake.{WasFed, record_bytes_fed};
ghost use Rattle.ghosts.specs.Preserves.{Preserves};
ghost use Rattle.avr_part.specs.Part.{size_of};
ghost use Rattle.avr_plan.specs.declared.update.Update.{Update as AnyUpdate};
ghost use Rattle.avr_plan.specs.PlanFaults.{ReportsTaskFault, with_status};
ghost use Rattle.avr_plan.specs.Planning.{is_warned, warning_events, file_image_stage, update_image as update_image_stage};
ghost use Rattle.avr_plan.specs.AllocationPoints.{has_immediate_values};
ghost use Rattle.avr_io.specs.StageRuns.{OnlyAtStart, RunsStage};
ghost use Rattle.avr_io.specs.Stage.{output_stage};

use crate::intake::{BadFile, Intake};
use crate::messages::{image_message, values_message};
use crate::plan_fault::TaskFault;
use crate::planned::Task;
use crate::settings::Switches;
use crate::update::{Format, Update};
use arrayvec::ArrayVec;
use avr_image::{Image, parse_immediate};
use avr_io::{Desk, DeskFault, FileFault, Piece, memory_message, print_warning, refuse};
use avr_part::Part;
use avr_records::{Ending, FIRST_BYTES, Found, detect};
use std::alloc::Global;
use thiserror::Error;

/// The most bytes of an image file.
pub(crate) const LARGEST_IMAGE_FILE: usize = 4_194_304;

/// The most bytes read at a time.
const PIECE: usize = 4096 - FIRST_BYTES;

/// Why a file gave no image. Its text is the reason alone, without the file's name.
#[derive(Clone, Copy, Debug, PartialEq, Eq, Error)]
pub enum ReadFault {
    /// The file was not read to its end.
    #[error("{0}")]
    File(FileFault),
    /// The file was read and is no image.
    #[error("{0}")]
    Image(BadFile),
}

/// The first bytes of a file: the whole file, or enough to show its format.
#[derive(Drop)]
pub(crate) struct FirstBytes {
    pub bytes: ArrayVec<u8, FIRST_BYTES>,
    pub ended: bool,
}

/// Returns the kind of a file. Formats other than Intel HEX, S-record and raw are detected from the first bytes.
fn file_kind(format: Format, prefix: &[u8]) -> Found
    ensures { result ≡ kind_of format prefix.now }
{
    match format {
        Format::Ihex => Found::Ihex,
        Format::Srec => Found::Srec,
        Format::Raw => Found::Raw,
        _ => detect(prefix),
    }
}

/// Reads the open file's first 1,024 bytes, or all if there are fewer.
fn read_first_bytes<D: Desk>(desk: &mut D) -> Result<FirstBytes, FileFault>
    ensures kept { FirstBytesAreRead (D.view desk.old) (D.view desk.new) result }
    ensures follows { CountsNeverFall (D.view desk.old) (D.view desk.new) }
    ensures counted { IfErr result (CountsFileFault (D.view desk.old) (D.view desk.new)) }
    ensures sound { OnOk result (HasSameCounts (D.view desk.old) (D.view desk.new)) }
    ensures stays { Preserves D.started_as desk.old desk.new }
{
    let mut bytes: ArrayVec<u8, FIRST_BYTES> = ArrayVec::new();
    let mut piece = [0u8; FIRST_BYTES];
    'prefix: while !bytes.is_full() {
        let room = bytes.remaining_capacity();
        let Ok(given) = desk.read(&mut piece[..room]) else {
            return Err(FileFault::NotRead);
        };
        if given == 0 {
            return Ok(FirstBytes { bytes, ended: true });
        }
        let _ = bytes.try_extend_from_slice(&piece[..given]);
    }
    Ok(FirstBytes {
        bytes,
        ended: false,
    })
}

fn finish(intake: Intake) -> Result<(Image, Ending), ReadFault>
    ensures given { (found : AnyFound) (size : ℕ) (text : Bytes) → WasFed found size intake text
        → MatchRead (λ given. given ≡ image_of_file found text size) (λ fault. ⊥) result }
    ensures counted { IfErr result (λ fault. (old new : DeskState) → HasSameCounts old new
        → CountsReadFault old new fault) }
{
    match intake.finish() {
        Ok(good) => Ok(good),
        Err(bad) => Err(ReadFault::Image(bad)),
    }
}

/// Reads the rest of the open file, at most `left` bytes, and checks the whole.
fn read_rest<D: Desk>(
    desk: &mut D,
    mut intake: Intake,
    mut left: usize,
) -> Result<(Image, Ending), ReadFault>
    requires { record_bytes_fed intake + left < 2 ^ 31 }
    ensures read { (limit : ℕ) (found : AnyFound) (size : ℕ) (before : Bytes) → WasFed found size intake before
        → length before + left ≡ limit → MatchRead (ReadsRest limit found size before (D.view desk.old)
        (D.view desk.new)) (BreaksReading (D.view desk.old) (D.view desk.new)) result }
    ensures follows { CountsNeverFall (D.view desk.old) (D.view desk.new) }
    ensures counted { IfErr result (CountsReadFault (D.view desk.old) (D.view desk.new)) }
    ensures sound { OnOk result (HasSameCounts (D.view desk.old) (D.view desk.new)) }
    ensures stays { Preserves D.started_as desk.old desk.new }
{
    let mut piece = [0u8; PIECE];
    'pieces: loop {
        let Ok(count) = desk.read(&mut piece) else {
            return Err(ReadFault::File(FileFault::NotRead));
        };
        if count == 0 {
            return finish(intake);
        }
        if count > left {
            return Err(ReadFault::Image(intake.fed(&piece[..left]).exceeded()));
        }
        intake = intake.fed(&piece[..count]);
        left -= count;
    }
}

/// Reads an image file for a memory of `size` bytes. The file is opened and read to its end, or until more than
/// 4,194,304 bytes have come, and checked only then. It is read in pieces of at most 3,072 bytes.
///
/// The name `-` is standard input. For a `format` other than Intel HEX, S-record and raw, the first 1,024 bytes show
/// which of these the file is, or that it is ELF. The image has exactly `size` places.
///
/// # Errors
///
/// `ReadFault::File` if the file doesn't exist, can't be opened or can't be read to its end, or if allocation fails.
/// Otherwise `ReadFault::Image` with the first fault of the file. In a file past the limit only the lines that end
/// within the limit are checked; if none has a fault, it is `BadFile::TooLong`.
///
/// ```text
/// let mut desk = MemDesk::empty(alloc);
/// desk.put("app.hex", b":04000000010203")?;
/// let read = read_image(alloc, &mut desk, "app.hex", Format::Auto, 32_768);
/// assert!(rt; matches!(read, Err(ReadFault::Image(_)))); // the line is cut
/// desk.put("app.hex", b":0400000001020304F2\n")?;
/// let (image, ending) = read_image(alloc, &mut desk, "app.hex", Format::Auto, 32_768)?;
/// assert_eq!(rt; (image.len(), image.size(), ending), (4, 32_768, Ending::NoEnd));
/// ```
pub fn read_image<D: Desk>(
    alloc: Global,
    desk: &mut D,
    name: &str,
    format: Format,
    size: u32,
) -> Result<(Image, Ending), ReadFault>
    ensures read { MatchRead (ReadsImage LARGEST_IMAGE_FILE format size name.now (D.view desk.old) (D.view desk.new))
        (FileBreaks name.now (D.view desk.old) (D.view desk.new)) result }
    ensures follows { CountsNeverFall (D.view desk.old) (D.view desk.new) }
    ensures counted { IfErr result (CountsReadFault (D.view desk.old) (D.view desk.new)) }
    ensures sound { OnOk result (HasSameCounts (D.view desk.old) (D.view desk.new)) }
    ensures stays { Preserves D.started_as desk.old desk.new }
{
    match desk.open(name) {
        Ok(()) => {}
        Err(DeskFault::NotFound) => return Err(ReadFault::File(FileFault::Absent)),
        Err(DeskFault::Failed) => return Err(ReadFault::File(FileFault::NotOpened)),
    }
    let prefix = match read_first_bytes(desk) {
        Ok(prefix) => prefix,
        Err(fault) => return Err(ReadFault::File(fault)),
    };
    let bytes = prefix.bytes.as_slice();
    let intake = match Intake::new(alloc, file_kind(format, bytes), size) {
        Ok(intake) => intake.fed(bytes),
        Err(fault) => return Err(ReadFault::File(fault)),
    };
    if prefix.ended {
        return finish(intake);
    }
    read_rest(desk, intake, LARGEST_IMAGE_FILE - bytes.len())
}

/// Returns whether a warning about this ending is due.
fn is_warned(switches: Switches, ending: Ending) -> bool
    ensures { result ≡ is_warned switches ending }
{
    match ending {
        Ending::Ended => false,
        Ending::NoEnd => switches.quiet < 2,
    }
}

/// Warns about a missing end record, unless warnings are off.
fn warn_of_ending<D: Desk>(
    desk: &mut D,
    switches: Switches,
    file: &str,
    ending: Ending,
) -> Result<(), TaskFault>
    ensures goes { RunsStage (OnlyAtStart false) (output_stage (warning_events switches file.now ending))
        (D.view desk.old) (D.view desk.new) (with_status result) }
    ensures notice { (update : AnyUpdate) → IfErr result (ReportsTaskFault update (D.view desk.old) (D.view desk.new)) }
    ensures stays { Preserves D.started_as desk.old desk.new }
{
    let warns = is_warned(switches, ending);
    if !warns {
        return Ok(());
    }
    match print_warning(desk, &[Piece::Text(file), Piece::Text(": no end record")]) {
        Ok(()) => Ok(()),
        Err(_) => Err(TaskFault::Unwarned),
    }
}

/// Reads the image in a file and makes room for its task, and then warns about a missing end record.
fn file_image<D: Desk>(
    alloc: Global,
    desk: &mut D,
    tasks: &mut Vec<Task>,
    switches: Switches,
    file: &str,
    format: Format,
    size: u32,
) -> Result<Image, TaskFault>
    ensures goes { RunsStage (OnlyAtStart false) (file_image_stage switches file.now format size)
        (D.view desk.old) (D.view desk.new) (with_status result) }
    ensures notice { (update : AnyUpdate) → update.file ≡ file.now
        → IfErr result (ReportsTaskFault update (D.view desk.old) (D.view desk.new)) }
    ensures sized { IfOk result (λ image. length image ≡ size) }
    ensures same { tasks.new.items ≡ tasks.old.items }
    ensures room { OnOk result (vec_len tasks.new < vec_capacity tasks.new) }
    ensures stays { Preserves D.started_as desk.old desk.new }
{
    match read_image(alloc, desk, file, format, size) {
        Ok((image, ending)) => {
            if tasks.reserve(1).is_err() {
                refuse(desk, &memory_message());
                return Err(TaskFault::Memory);
            }
            match warn_of_ending(desk, switches, file, ending) {
                Ok(()) => Ok(image),
                Err(fault) => Err(fault),
            }
        }
        Err(fault) => {
            refuse(desk, &image_message(file, fault));
            Err(TaskFault::File(fault))
        }
    }
}

/// Reads the image of an update, and makes room for its task in `tasks`. For values, allocation fails before anything
/// is printed; for a file, while it is read.
pub(crate) fn update_image<D: Desk>(
    alloc: Global,
    desk: &mut D,
    tasks: &mut Vec<Task>,
    switches: Switches,
    part: &Part,
    update: &Update,
) -> Result<Image, TaskFault>
    ensures goes { RunsStage (OnlyAtStart (has_immediate_values update.now.format))
        (update_image_stage switches part.now update.now) (D.view desk.old) (D.view desk.new) (with_status result) }
    ensures notice { IfErr result (ReportsTaskFault update.now (D.view desk.old) (D.view desk.new)) }
    ensures sized { IfOk result (λ image. length image ≡ size_of update.now.memory part.now) }
    ensures same { tasks.new.items ≡ tasks.old.items }
    ensures room { OnOk result (vec_len tasks.new < vec_capacity tasks.new) }
    ensures stays { Preserves D.started_as desk.old desk.new }
{
    let size = part.size_of(update.memory);
    let text = update.file.as_str();
    let Format::Immediate = update.format else {
        return file_image(alloc, desk, tasks, switches, text, update.format, size);
    };
    if tasks.reserve(1).is_err() {
        refuse(desk, &memory_message());
        return Err(TaskFault::Memory);
    }
    match parse_immediate(alloc, text, size) {
        Ok(image) => Ok(image),
        Err(fault) => {
            refuse(desk, &values_message(update.memory, fault));
            Err(TaskFault::Values(fault))
        }
    }
}
