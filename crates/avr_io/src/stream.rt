ghost use Rattle.std.specs.Prelude.{OnOk, OnErr};
ghost use Rattle.avr_io.specs.Fault.{CountsFailure, IsCall};
ghost use Rattle.avr_io.specs.Record.{ChangesRecord};
ghost use Rattle.avr_io.specs.Stream.{IsWrite, SendsPart, after_sent};

use crate::desk::{Desk, DeskFault};

/// Where bytes are written.
#[derive(Clone, Copy, Debug, PartialEq, Eq)]
pub enum Stream {
    /// The created file that is open.
    File,
    /// Standard output.
    Output,
    /// The messages, standard error.
    Messages,
}

fn write_some<D: Desk>(desk: &mut D, stream: Stream, bytes: &[u8]) -> Result<usize, DeskFault>
    ensures write { IsWrite D.view D.started_as stream bytes.now desk.old desk.new result }
{
    match stream {
        Stream::File => desk.write(bytes),
        Stream::Output => desk.out(bytes),
        Stream::Messages => desk.err(bytes),
    }
}

/// Writes all bytes to a stream, in as many calls of the desk as it needs: none for an empty slice.
///
/// # Errors
///
/// `Failed` if the desk fails or takes no byte, and for [`Stream::File`] if no created file is open. A prefix of the
/// bytes was then written.
///
/// ```text
/// let mut desk = MemDesk::empty(alloc);
/// write_all(&mut desk, Stream::Output, b"0xe2\n")?;
/// assert!(rt; desk.output() == b"0xe2\n".as_slice());
/// assert!(rt; write_all(&mut desk, Stream::File, b"0xe2\n").is_err());
/// ```
pub fn write_all<D: Desk>(desk: &mut D, stream: Stream, bytes: &[u8]) -> Result<(), DeskFault>
    ensures all { OnOk result (ChangesRecord (after_sent stream bytes.now) (D.view desk.old) (D.view desk.new)) }
    ensures part { OnErr result (SendsPart stream (D.view desk.old) (D.view desk.new) bytes.now) }
    ensures call { IsCall D.view D.started_as (CountsFailure stream) desk.old desk.new result }
{
    let mut at = 0;
    while at < bytes.len() {
        let count = write_some(desk, stream, &bytes[at..])?;
        if count == 0 {
            return Err(DeskFault::Failed);
        }
        at += count;
    }
    Ok(())
}
