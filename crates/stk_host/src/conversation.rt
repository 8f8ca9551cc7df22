//! Commands and their replies, attempts, and steps.
ghost use Rattle.std.specs.Prelude.{◌≡◌, ◌<◌, ◌≤◌, ◌∷◌, [], length, OnOk, IfSome, ◌+◌, vec_capacity};
ghost use Rattle.stk_frame.specs.Commands.{shape, FitsShape};
ghost use Rattle.stk_host.specs.Steps.{exchange, attempt, step, commands_by, reply_from_reading};
ghost use Rattle.stk_host.specs.State.{data_held};
ghost use Rattle.stk_host.specs.Calls.{reading_of, reply_of, EndsSteps, Converses, ReturnsReply, FitsFrame, BringsNoData, CompletesSteps, CompletesStepsWithData, IsSizedStep, data_count};

use crate::fault::{HostFault, StepFault};
use crate::link::{Link, send_all};
use crate::listen::{Reading, Unread, listen};
use arrayvec::ArrayVec;
use std::marker::Model;
use stk_frame::protocol::STATUS_CKSUM_ERROR;
use stk_frame::{Answer, Command, FrameFault, FrameReader};

/// How often the commands of a step are tried.
const ATTEMPTS: u8 = 4;

/// What follows from the reply to a command.
#[derive(Clone, Copy, Drop)]
pub(crate) enum Reply {
    Data,
    /// The commands may be sent again.
    Again(StepFault),
    /// The step ends.
    Stop(StepFault),
}

/// What goes on from frame to frame: the frame reader, the unread bytes, and the next sequence number.
#[derive(Drop)]
pub(crate) struct Conversation {
    reader: FrameReader,
    unread: Unread,
    next: u8,
}

impl Model for Conversation {
    ghost use Rattle.stk_host.specs.State.{ConversationState};

    ghost Value = { ConversationState };

    ghost view = { λ conversation. record {
      progress = record { next = conversation.next; unread = conversation.unread };
      held = conversation.reader;
    } };

    ghost use Rattle.std.specs.Prelude.{◌≤◌, length};
    ghost use Rattle.stk_frame.specs.declared.protocol.TheConstants.{LARGEST_FRAME};

    ghost invariant = { λ conversation. length conversation.unread ≤ LARGEST_FRAME };
}

/// Returns what follows from how listening for a reply ended.
fn reply_to(reader: &FrameReader, reading: Reading, command: &Command<'_>) -> Reply
    ensures reply { reply_of result (data_held command.now reader.now)
        ≡ reply_from_reading command.now (reading_of reading reader.now) }
    ensures sized { result ≡ Reply.Data → FitsShape (shape command.now) (data_held command.now reader.now) }
{
    match reading {
        Reading::Replied => match Answer::read(command, reader.body()) {
            Ok(_) => Reply::Data,
            Err(FrameFault::CheckSum) => {
                Reply::Again(StepFault::Refused(command.code(), STATUS_CKSUM_ERROR))
            }
            Err(FrameFault::Status(status)) => {
                Reply::Stop(StepFault::Refused(command.code(), status))
            }
            Err(FrameFault::WrongCommand | FrameFault::WrongLength) => {
                Reply::Stop(StepFault::BadAnswer(command.code()))
            }
        },
        Reading::Silent => Reply::Again(StepFault::NoAnswer),
        Reading::Ended => Reply::Stop(StepFault::LinkEnded),
        Reading::Babbled => Reply::Again(StepFault::Babble),
    }
}

impl Conversation {
    pub(crate) fn new() -> Self
        ensures { result.progress ≡ record { next = 1; unread = [] } }
    {
        Conversation {
            reader: FrameReader::new(),
            unread: Unread::new(),
            next: 1,
        }
    }

    /// Returns the data of the last reply, or no bytes if it isn't a good reply to `command`.
    pub(crate) fn data_read(&self, command: &Command<'_>) -> &[u8]
        ensures { result.now ≡ data_held command.now self.now.held }
    {
        match Answer::read(command, self.reader.body()) {
            Ok(answer) => answer.data,
            Err(_) => &[],
        }
    }

    /// Sends a command once, and waits for its reply.
    fn exchange<L: Link>(&mut self, link: &mut L, command: &Command<'_>) -> Result<Reply, HostFault>
        requires { FitsFrame command.now }
        ensures { ReturnsReply L.Link (exchange command.now) command.now self.old self.new link.old link.new result }
    {
        let seq = self.next;
        let mut frame = ArrayVec::new();
        command.put_frame(seq, &mut frame);
        let Ok(()) = send_all(link, frame.as_slice()) else {
            return Err(HostFault::SendFailed);
        };
        let Ok(reading) = listen(&mut self.reader, &mut self.unread, link, seq) else {
            return Err(HostFault::RecvFailed);
        };
        self.next = seq.wrapping_add(1);
        Ok(reply_to(&self.reader, reading, command))
    }

    /// Sends the commands in order, up to the first whose reply isn't good.
    fn attempt<L: Link>(
        &mut self,
        link: &mut L,
        first: &Option<Command<'_>>,
        last: &Command<'_>,
    ) -> Result<Reply, HostFault>
        requires quiet { IfSome first.now BringsNoData }
        requires fits { FitsFrame last.now }
        ensures { ReturnsReply L.Link (attempt (commands_by first.now last.now) []) last.now
            self.old self.new link.old link.new result }
    {
        match first {
            None => self.exchange(link, last),
            Some(command) => match self.exchange(link, command)? {
                Reply::Data => self.exchange(link, last),
                short => Ok(short),
            },
        }
    }

    /// Runs a step: at most four attempts at the commands. Only the last command's reply brings data, which
    /// `data_read` then lends.
    pub(crate) fn step<L: Link>(
        &mut self,
        link: &mut L,
        first: &Option<Command<'_>>,
        last: &Command<'_>,
    ) -> Result<(), HostFault>
        requires quiet { IfSome first.now BringsNoData }
        requires fits { FitsFrame last.now }
        ensures asks { Converses L.Link
            (EndsSteps (step (commands_by first.now last.now)) (λ done. data_held last.now self.new.held))
            self.old self.new link.old link.new result }
        ensures sized { OnOk result (FitsShape (shape last.now) (data_held last.now self.new.held)) }
    {
        // Each attempt that doesn't return replaces this fault.
        let mut fault = StepFault::NoAnswer;
        for _tried in 0..ATTEMPTS {
            match self.attempt(link, first, last)? {
                Reply::Data => return Ok(()),
                Reply::Stop(stop) => return Err(stop.reported()),
                Reply::Again(again) => fault = again,
            }
        }
        Err(fault.reported())
    }
}

/// Runs a step that brings no data.
pub(crate) fn play_step<L: Link>(
    talk: &mut Conversation,
    link: &mut L,
    first: &Option<Command<'_>>,
    last: &Command<'_>,
) -> Result<(), HostFault>
    requires sized { IsSizedStep first.now last.now }
    requires none { data_count (shape last.now) ≡ 0 }
    ensures { Converses L.Link (CompletesSteps (commands_by first.now last.now ∷ [])) talk.old talk.new link.old
        link.new result }
{
    talk.step(link, first, last)
}

/// Runs a step and appends its data to a vector that has room for them.
pub(crate) fn read_step<L: Link>(
    talk: &mut Conversation,
    link: &mut L,
    first: &Option<Command<'_>>,
    last: &Command<'_>,
    out: &mut Vec<u8>,
) -> Result<(), HostFault>
    requires sized { IsSizedStep first.now last.now }
    requires room { length out.old.items + data_count (shape last.now) ≤ vec_capacity out.old }
    ensures asks { Converses L.Link (CompletesStepsWithData (commands_by first.now last.now ∷ []) out.old.items
        out.new.items)
        talk.old talk.new link.old link.new result }
    ensures size { OnOk result (length out.new.items ≡ length out.old.items + data_count (shape last.now)) }
    ensures room { vec_capacity out.old ≤ vec_capacity out.new }
{
    talk.step(link, first, last)?;
    let _there_is_room = out.extend_from_slice(talk.data_read(last));
    Ok(())
}
