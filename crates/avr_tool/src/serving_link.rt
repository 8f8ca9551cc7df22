ghost use Rattle.std.specs.Prelude.{◌≤◌, OnOk, OnErr};
ghost use Rattle.ghosts.specs.Preserves.{Preserves};
ghost use Rattle.stk_host.specs.Transcript.{LinkCounts};
ghost use Rattle.avr_tool.specs.Serving.{Serves, FailsBy};
ghost use Rattle.avr_tool.specs.Replying.{SendsAllReplies, SendsPartOfReplies};

use arrayvec::ArrayVec;
use stk_emu::Emulator;
use stk_frame::LARGEST_FRAME;
use stk_host::{Heard, Link, LinkFault, send_all};

/// How serving a link ended.
#[derive(Clone, Copy, Debug, PartialEq, Eq)]
pub enum Served {
    /// The link ended, and all replies were sent.
    Ended,
    /// The link failed at receiving, after all replies were sent.
    RecvFailed,
    /// The link failed at sending a reply, or took none of its bytes.
    SendFailed,
    /// All allowed reads were used without an end; all replies were sent.
    TooManyReads,
}

/// Feeds a piece to the emulator, and sends each reply before it feeds more.
fn reply_to_piece<L: Link>(
    emulator: &mut Emulator,
    link: &mut L,
    piece: &[u8],
) -> Result<(), LinkFault>
    ensures ok { OnOk result (SendsAllReplies emulator.old piece.now (L.view link.old) (L.view link.new) emulator.new) }
    ensures err { OnErr result (SendsPartOfReplies emulator.old piece.now (L.view link.old) (L.view link.new)
        emulator.new) }
    ensures counts { LinkCounts (L.view link.old) (L.view link.new) result }
    ensures comes { Preserves L.started_as link.old link.new }
{
    let mut reply = ArrayVec::new();
    let mut used = 0;
    while used < piece.len() {
        used += emulator.feed(&piece[used..], &mut reply);
        send_all(link, reply.as_slice())?;
    }
    Ok(())
}

/// Serves a link in at most `turns` reads: feeds what is received to the emulator, and sends all replies before the
/// next read.
///
/// A timeout counts as a read. The bytes of the last read still get their replies.
#[tactic(auto, using(crate::proofs::ReadByRead::read_replied, crate::proofs::ReadByRead::read_broken))]
pub fn serve_link<L: Link>(emulator: &mut Emulator, link: &mut L, turns: u32) -> Served
    ensures serves { Serves emulator.old turns result (L.view link.old) (L.view link.new) emulator.new }
    ensures counted { (L.view link.old).failures ≤ (L.view link.new).failures }
    ensures failed { FailsBy result (L.view link.old) (L.view link.new) }
    ensures comes { Preserves L.started_as link.old link.new }
{
    let mut buffer = [0; LARGEST_FRAME];
    for reads_done in 0..turns {
        match link.recv(&mut buffer) {
            Ok(Heard::Bytes(count)) => {
                let Ok(()) = reply_to_piece(emulator, link, &buffer[..count]) else {
                    return Served::SendFailed;
                };
            }
            Ok(Heard::Silence) => {}
            Ok(Heard::End) => return Served::Ended,
            Err(_) => return Served::RecvFailed,
        }
    }
    Served::TooManyReads
}
