//! What is known after some lines of a record file: how far their bytes reach, what the next line depends on, and the
//! image of their bytes.
ghost use Rattle.std.specs.Prelude.{◌<◌, ◌+◌, ◌^◌, ◌≡◌, Ok, Err, MatchResult, OnOk, ◌≤◌, ◌*◌, length, [], None};
ghost use Rattle.avr_records.specs.Steps.{InRange, TakesLine, next_extent, no_lines};
ghost use Rattle.avr_records.specs.Laying.{spans_places, IsEndOrOutOfRange, StartsInRange};
ghost use Rattle.avr_records.specs.Reading.{bytes_under_base, line_result, first_outside, places};
ghost use Rattle.std.specs.List.{enumerate_from};
ghost use Rattle.avr_image.specs.Image.{with_pairs};

use crate::bytes::ROOM;
use crate::fault::RecordFault;
use crate::kind::{AddressBase, Kind, SEGMENT};
use crate::line::{Line, line_meaning};
use avr_image::Image;

#[derive(Drop)]
pub struct Progress {
    pub(crate) extent: Extent,
    pub(crate) image: Image,
}

impl Progress {
    /// Reads the next line, unless an end record came before. Its bytes are decoded into `room` and put from there into
    /// the image. It isn't inlined, so that the work of a line is in the program once.
    #[inline(never)]
    pub(crate) fn take_line(
        &mut self,
        kind: Kind,
        line: &[u8],
        room: &mut [u8; ROOM],
    ) -> Result<(), RecordFault>
        requires range { InRange kind self.old.extent }
        requires few { self.old.extent.lines + 1 < 2 ^ 32 }
        ensures { TakesLine kind self.old line.now self.new result }
    {
        if self.extent.ended {
            return Ok(());
        }
        match self.extent.take_line(self.image.size(), kind, line, room) {
            Ok(spans) => {
                spans.lay(&mut self.image);
                Ok(())
            }
            Err(fault) => Err(fault),
        }
    }
}

#[derive(Clone, Copy)]
pub struct Extent {
    /// The base of the addresses of data records.
    pub(crate) base: AddressBase,
    pub(crate) data_records: u32,
    pub(crate) lines: u32,
    /// The address after the highest byte.
    pub(crate) end: u32,
    /// Whether the last line was an end record. No line after it counts.
    pub(crate) ended: bool,
}

impl Extent {
    pub(crate) fn new() -> Extent
        ensures { result ≡ no_lines }
    {
        Extent {
            base: AddressBase::Linear(0),
            data_records: 0,
            lines: 0,
            end: 0,
            ended: false,
        }
    }

    /// Reads the next line, decoded into `room`, and returns its bytes with their addresses. An address is out of range
    /// if it isn't below `limit`.
    #[tactic(auto, using(crate::proofs::Texts::Places::near))]
    #[inline(always)]
    pub(crate) fn take_line<'b>(
        &mut self,
        limit: u32,
        kind: Kind,
        line: &[u8],
        room: &'b mut [u8; ROOM],
    ) -> Result<Spans<'b>, RecordFault>
        requires range { InRange kind self.old }
        requires few { self.old.lines + 1 < 2 ^ 32 }
        ensures step { MatchResult result
            (λ spans. (next_extent limit self.old (line_result kind line.now) ≡ Ok self.new)
            × (spans_places spans ≡ bytes_under_base self.old.base (line_result kind line.now)))
            (λ fault. next_extent limit self.old (line_result kind line.now) ≡ Err fault) }
        ensures range { OnOk result (InRange kind self.new) }
        ensures lines { self.new.lines ≡ self.old.lines + 1 }
    {
        self.lines += 1;
        match line_meaning(kind, line, room) {
            Ok(Line::Nothing) => Ok(Spans::none()),
            Ok(Line::Data(offset, bytes)) => {
                let spans = Spans::of_record(self.base, offset, bytes);
                self.end = spans
                    .end(limit, self.end)
                    .map_err(|addr| RecordFault::OutOfRange(self.lines, addr))?;
                self.data_records += 1;
                Ok(spans)
            }
            Ok(Line::Rebase(base)) => {
                self.base = base;
                Ok(Spans::none())
            }
            Ok(Line::Counted(n)) if n != self.data_records => {
                Err(RecordFault::BadCount(self.lines))
            }
            Ok(Line::Counted(_)) => Ok(Spans::none()),
            Ok(Line::End) => {
                self.ended = true;
                Ok(Spans::none())
            }
            Err(fault) => Err(fault.in_line(self.lines)),
        }
    }
}

/// Returns the end of all bytes once these are added, or their first address that isn't below `limit`.
fn span_end(limit: u32, end: u32, addr: u32, bytes: &[u8]) -> Result<u32, u32>
    ensures { IsEndOrOutOfRange limit end (enumerate_from addr bytes.now) result }
{
    if bytes.is_empty() {
        Ok(end)
    } else if bytes.len() <= limit.saturating_sub(addr) as usize {
        Ok(end.max(addr + bytes.len() as u32))
    } else {
        Err(addr.max(limit))
    }
}

/// The bytes of a data record: those from `addr` on, and those past the end of a segment, which wrap to its `start`.
#[derive(Clone, Copy)]
pub struct Spans<'a> {
    addr: u32,
    bytes: &'a [u8],
    start: u32,
    wrapped: &'a [u8],
}

impl<'a> Spans<'a> {
    /// Returns bytes that don't wrap, from `addr` on.
    fn one(addr: u32, bytes: &'a [u8]) -> Spans<'a>
        ensures { spans_places result ≡ enumerate_from addr bytes.now }
    {
        Spans {
            addr,
            bytes,
            start: 0,
            wrapped: &[],
        }
    }

    pub(crate) fn none() -> Spans<'a>
        ensures { spans_places result ≡ [] }
    {
        Spans::one(0, &[])
    }

    /// Returns the bytes of a data record with this offset, under this base.
    #[tactic(auto, using(crate::proofs::Texts::Places::spans_of_record))]
    pub(crate) fn of_record(base: AddressBase, offset: u32, bytes: &'a [u8]) -> Spans<'a>
        requires short { length bytes.now ≤ 255 }
        requires near { StartsInRange base offset }
        ensures { spans_places result ≡ places base offset bytes.now }
    {
        match base {
            AddressBase::Linear(upper) => Spans::one(upper as u32 * SEGMENT + offset, bytes),
            AddressBase::Segment(paragraph) => {
                let start = paragraph as u32 * 16;
                let offset = offset % SEGMENT;
                let room = (SEGMENT - offset) as usize;
                if bytes.len() <= room {
                    return Spans::one(start + offset, bytes);
                }
                Spans {
                    addr: start + offset,
                    bytes: &bytes[..room],
                    start,
                    wrapped: &bytes[room..],
                }
            }
        }
    }

    /// Returns the end of all bytes once these are added, or their first address that isn't below `limit`.
    #[tactic(auto, using(crate::proofs::Texts::Places::spans_end))]
    pub(crate) fn end(self, limit: u32, end: u32) -> Result<u32, u32>
        ensures { IsEndOrOutOfRange limit end (spans_places self.entry) result }
    {
        match span_end(limit, end, self.addr, self.bytes) {
            Ok(end) => span_end(limit, end, self.start, self.wrapped),
            Err(addr) => Err(addr),
        }
    }

    /// Puts the bytes into an image. All their addresses have to be inside.
    #[tactic(auto, using(crate::proofs::Texts::Places::spans_laid))]
    #[inline(always)]
    pub(crate) fn lay(self, image: &mut Image)
        requires { first_outside (length image.old) (spans_places self) ≡ None }
        ensures laid { image.new ≡ with_pairs image.old (spans_places self.entry) }
        ensures size { length image.new ≡ length image.old }
    {
        let _ = image.put_slice(self.addr, self.bytes);
        let _ = image.put_slice(self.start, self.wrapped);
    }
}
