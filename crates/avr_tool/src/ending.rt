ghost use Rattle.std.specs.Prelude.{◌≡◌, MatchOption, is_some, if◌then◌else◌};
ghost use Rattle.avr_io.specs.Fault.{CountsNeverFall};
ghost use Rattle.avr_io.specs.Lines.{error};
ghost use Rattle.avr_io.specs.OutputEvents.{ReportsLine};
ghost use Rattle.avr_tool.specs.ServedRun.{end_pieces};
ghost use Rattle.ghosts.specs.Preserves.{Preserves};

use crate::serving_link::Served;
use avr_io::{Desk, Message, refuse};
use avr_session::{unreceived_message, unsent_message};

/// Returns the message for how serving ended; the end of the link has none.
fn end_message(served: Served) -> Option<Message<'static>>
    ensures { result ≡ end_pieces served }
{
    match served {
        Served::Ended => None,
        Served::RecvFailed => Some(unreceived_message()),
        Served::SendFailed => Some(unsent_message()),
        Served::TooManyReads => Some(Message::text("too many reads")),
    }
}

/// Reports how serving ended, unless the link ended.
pub(crate) fn report_end<D: Desk>(served: Served, desk: &mut D)
    ensures notice { MatchOption (end_pieces served) (D.view desk.new ≡ D.view desk.old)
        (λ pieces. ReportsLine (D.view desk.old) (D.view desk.new) (error pieces)) }
    ensures follows { CountsNeverFall (D.view desk.old) (D.view desk.new) }
    ensures stays { Preserves D.started_as desk.old desk.new }
{
    if let Some(message) = end_message(served) {
        refuse(desk, &message);
    }
}

/// Returns the status for how serving ended: 0 if the link ended, otherwise 1.
pub(crate) fn status_of_served(served: Served) -> u8
    ensures { result ≡ (if is_some (end_pieces served) then 1 else 0) }
{
    match served {
        Served::Ended => 0,
        Served::RecvFailed | Served::SendFailed | Served::TooManyReads => 1,
    }
}
