//! Laws of operations and links, without code.
ghost use Rattle.std.specs.Prelude.{ℕ, Bool, List, Option};
ghost use Rattle.avr_part.specs.declared.part.Mem.{Mem};
ghost use Rattle.avr_part.specs.Part.{Part};
ghost use Rattle.stk_frame.specs.declared.command.Command.{Command};
ghost use Rattle.stk_host.specs.Steps.{play};
ghost use Rattle.stk_host.specs.WriteSteps.{write_steps};
ghost use Rattle.stk_host.specs.ReadSteps.{read_steps};
ghost use Rattle.stk_host.specs.Operations.{opening, erasing, writing, reading, verifying, closing};
ghost use Rattle.stk_host.specs.Bound.{IsBoundedBy, opening_steps, erasing_steps, closing_steps};
ghost use Rattle.stk_host.specs.Links.{ConsumesTape, TranscriptIsTrueSince};
ghost use Rattle.ghosts.specs.Preserves.{Preserves};

use crate::stream_link::StreamLink;
use crate::tape_link::TapeLink;
use ghosts::Inlet;
use std::io::Write;

/// States that a call of a [`crate::Host`] sends at most four times as many frames as its steps have commands. This
/// holds for every programmer, however its replies arrive, and also if the link fails.
pub fn a_call_sends_at_most_four_times_its_commands()
    ensures plays { (steps : List (List Command)) (before : List ℕ) → IsBoundedBy steps (play steps before) }
    ensures opens { (signature : List ℕ) (force : Bool) → IsBoundedBy opening_steps (opening signature force) }
    ensures erases { IsBoundedBy erasing_steps erasing }
    ensures writes { (part : Part) (mem : Mem) (image : List (Option ℕ))
        → IsBoundedBy (write_steps part mem image) (writing part mem image) }
    ensures reads { (part : Part) (mem : Mem) → IsBoundedBy (read_steps part mem) (reading part mem) }
    ensures verifies { (part : Part) (mem : Mem) (image : List (Option ℕ))
        → IsBoundedBy (read_steps part mem) (verifying part mem image) }
    ensures closes { IsBoundedBy closing_steps closing }
{}

/// States that the transcript of a stream link is true: it has what the reader gave and the writer took. This holds
/// whatever was done with the link. The bytes received since `before` are those that the reader gave. Each timeout
/// received was one of the reader, after the same bytes. The bytes sent are those that the writer took, also in a send
/// that failed.
///
/// Each call over a [`crate::Link`] ensures the required fact, and so does all code made of such calls.
pub fn a_record_of_streams_is_true<R: Inlet, W: Write>(
    before: &StreamLink<R, W>,
    after: &StreamLink<R, W>,
)
    requires { Preserves (TranscriptIsTrueSince R.remaining R.has_timed_out W.contents) before.now after.now }
    ensures { TranscriptIsTrueSince R.remaining R.has_timed_out W.contents before.now after.now }
{}

/// States that a tape link gives its own items in order, and after the last one only ends, whatever was done with it.
/// The items received, followed by those left, are the items it had.
///
/// Each call over a [`crate::Link`] ensures the required fact, and so does all code made of such calls.
pub fn a_tape_gives_its_own_items(before: &TapeLink, after: &TapeLink)
    requires { Preserves ConsumesTape before.now after.now }
    ensures { ConsumesTape before.now after.now }
{}
