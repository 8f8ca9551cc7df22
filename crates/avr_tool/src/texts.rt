//! Prints texts of `clap` and of the system, which no clause knows, at a desk. So these calls can print nowhere else.
ghost use Rattle.std.specs.Prelude.{◌≡◌, ℕ, List};
ghost use Rattle.avr_tool.specs.Texts.{AnyPart, PrintsText, ReportsText};
ghost use Rattle.ghosts.specs.Preserves.{Preserves};

use arrayvec::ArrayVec;
use avr_io::{Desk, DeskFault, Stream, write_all};
use std::fmt;
use std::fmt::{Display, Write};

/// The most bytes of a text held at a time.
const ROOM: usize = 512;

/// The most parts of a text: more than a machine holds.
const PARTS: u64 = 1 << 54;

/// Keeps the bytes of a text after the first `skip`, as far as there is room. It accepts the whole text.
#[derive(Drop)]
struct Window {
    skip: usize,
    bytes: ArrayVec<u8, ROOM>,
}

impl Write for Window {
    fn write_str(&mut self, text: &str) -> fmt::Result {
        for byte in text.as_bytes() {
            if self.skip > 0 {
                self.skip -= 1;
            } else {
                let _ = self.bytes.try_push(*byte);
            }
        }
        Ok(())
    }
}

/// A text that gives its parts in order, of which a contract can promise that they are printed.
///
/// Each value with `Display` has one. Which bytes it gives is only tested: `Display` states no text for an error of
/// `clap` or of the system.
pub(crate) trait Parted {
    /// After this many bytes, the text goes on with these; at its end these are none.
    ghost has_part: { Self → ℕ → List ℕ → Type 0 };

    /// Returns some bytes of the text after the first `skip`, or none at its end.
    fn part_of(&self, skip: usize) -> ArrayVec<u8, ROOM>
        ensures part { has_part self.now skip result.items };
}

impl<T: Display> Parted for T {
    ghost has_part = { λ text. AnyPart };

    fn part_of(&self, skip: usize) -> ArrayVec<u8, ROOM> {
        let mut window = Window {
            skip,
            bytes: ArrayVec::new(),
        };
        let _ = window.write(self);
        let Window { bytes, .. } = window;
        bytes
    }
}

#[tactic(auto, using(crate::proofs::Printed::printed_none))]
/// Prints a text without allocating, and returns the number of its bytes.
pub(crate) fn print_text<D: Desk, T: Parted>(
    desk: &mut D,
    stream: Stream,
    text: &T,
) -> Result<usize, DeskFault>
    ensures prints { PrintsText (T.has_part text.now) stream (D.view desk.old) (D.view desk.new) result }
    ensures stays { Preserves D.started_as desk.old desk.new }
{
    let mut at = 0usize;
    for _round in 0..PARTS {
        let part = text.part_of(at);
        if part.is_empty() {
            return Ok(at);
        }
        write_all(desk, stream, part.as_slice())?;
        at += part.len();
    }
    Ok(at)
}

/// Prints a text after `avrstk: error: `, and LF, up to the first failure.
fn report<D: Desk, T: Parted>(desk: &mut D, error: &T) -> Result<(), DeskFault>
    ensures reports { ReportsText (T.has_part error.now) (D.view desk.old) (D.view desk.new) }
    ensures stays { Preserves D.started_as desk.old desk.new }
{
    write_all(desk, Stream::Messages, b"avrstk: error: ")?;
    print_text(desk, Stream::Messages, error)?;
    write_all(desk, Stream::Messages, b"\n")
}

/// Reports an error that isn't this program's own as `avrstk: error: ` and its text, and returns the status 1.
pub fn refuse_text<D: Desk, T: Display>(desk: &mut D, error: &T) -> u8
    ensures reports { ReportsText AnyPart (D.view desk.old) (D.view desk.new) }
    ensures stays { Preserves D.started_as desk.old desk.new }
    ensures status { result ≡ 1 }
{
    let _ = report(desk, error);
    1
}
