//! The messages of faults: those of the host, and those of the settings.
ghost use Rattle.std.specs.Prelude.{◌≡◌};
ghost use Rattle.avr_io.specs.OutputEvents.{ReportsLine};
ghost use Rattle.avr_part.specs.Part as part;
ghost use Rattle.avr_session.specs.Lines.{fault_pieces, other_signature, unreceived_pieces, unsent_pieces};
ghost use Rattle.avr_session.specs.Refusal.{in_update_pieces, refusal_line, refusal_pieces, unknown_pieces, update_pieces};
ghost use Rattle.ghosts.specs.Preserves.{Preserves};

use avr_io::{Desk, Message, Piece, memory_message};
use avr_part::{Mem, Part};
use avr_plan::{SettingsFault, UpdateFault, read_only_message};
use stk_host::HostFault;

fn refused_message<'a>(command: u8, status: u8) -> Message<'a>
    ensures { (part : part.Part) → result ≡ fault_pieces part (HostFault.Refused command status) }
{
    Message::new(&[
        Piece::Text("command "),
        Piece::Byte(command),
        Piece::Text(" refused with status "),
        Piece::Byte(status),
    ])
}

fn bad_reply_message<'a>(command: u8) -> Message<'a>
    ensures { (part : part.Part) → result ≡ fault_pieces part (HostFault.BadAnswer command) }
{
    Message::new(&[
        Piece::Text("command "),
        Piece::Byte(command),
        Piece::Text(": bad answer"),
    ])
}

pub(crate) fn other_signature_message<'a>(part: &'a Part, found: [u8; 3]) -> Message<'a>
    ensures { result ≡ other_signature part.now found }
{
    Message::new(&[
        Piece::Text("signature is "),
        Piece::Signature(found),
        Piece::Text(", "),
        Piece::Text(part.id()),
        Piece::Text(" has "),
        Piece::Signature(part.signature()),
    ])
}

fn differs_message<'a>(mem: Mem, address: u32, want: u8, found: u8) -> Message<'a>
    ensures { (part : part.Part) → result ≡ fault_pieces part (HostFault.Differs mem address want found) }
{
    Message::new(&[
        Piece::Text(mem.name()),
        Piece::Text(": address "),
        Piece::Address(address),
        Piece::Text(": "),
        Piece::Byte(want),
        Piece::Text(" expected, "),
        Piece::Byte(found),
        Piece::Text(" found"),
    ])
}

/// Returns the message for a link that failed at sending: `link cannot be written`.
pub fn unsent_message<'a>() -> Message<'a>
    ensures { result ≡ unsent_pieces }
{
    Message::text("link cannot be written")
}

/// Returns the message for a link that failed at receiving: `link cannot be read`.
pub fn unreceived_message<'a>() -> Message<'a>
    ensures { result ≡ unreceived_pieces }
{
    Message::text("link cannot be read")
}

pub(crate) fn fault_message<'a>(part: &'a Part, fault: HostFault) -> Message<'a>
    ensures { result ≡ fault_pieces part.now fault }
{
    match fault {
        HostFault::NoAnswer => Message::text("no answer"),
        HostFault::LinkEnded => Message::text("link ended"),
        HostFault::SendFailed => unsent_message(),
        HostFault::Babble => Message::text("no answer in 4096 bytes"),
        HostFault::Refused(command, status) => refused_message(command, status),
        HostFault::BadAnswer(command) => bad_reply_message(command),
        HostFault::WrongSignature(found) => other_signature_message(part, found),
        HostFault::Differs(mem, addr, want, found) => differs_message(mem, addr, want, found),
        HostFault::ReadOnly(mem) => read_only_message(mem),
        HostFault::Memory => memory_message(),
        HostFault::RecvFailed => unreceived_message(),
    }
}

fn in_update_message<'a>(number: u8, wrong: &'a str) -> Message<'a>
    ensures { result ≡ in_update_pieces number wrong.now }
{
    Message::new(&[
        Piece::Text("update "),
        Piece::Number(u32::from(number)),
        Piece::Text(wrong),
    ])
}

fn update_message<'a>(number: u8, fault: UpdateFault) -> Message<'a>
    ensures { result ≡ update_pieces number fault }
{
    match fault {
        UpdateFault::BadMemory => in_update_message(number, ": no such memory"),
        UpdateFault::BadOp => in_update_message(number, ": no such operation"),
        UpdateFault::BadFormat => in_update_message(number, ": no such format here"),
        UpdateFault::NoFile => in_update_message(number, ": no file named"),
        UpdateFault::Memory => memory_message(),
    }
}

fn unknown_message<'a>(what: &'a str, name: &'a str) -> Message<'a>
    ensures { result ≡ unknown_pieces what.now name.now }
{
    Message::new(&[
        Piece::Text(what),
        Piece::Text(name),
        Piece::Text(" is not known"),
    ])
}

fn settings_message<'a>(fault: &'a SettingsFault) -> Message<'a>
    ensures { result ≡ refusal_pieces fault.now }
{
    match fault {
        SettingsFault::NoPart => Message::text("no part given (-p)"),
        SettingsFault::BadProgrammer(name) => unknown_message("programmer ", name.as_str()),
        SettingsFault::BadPort(None) => Message::text("no port given (-P)"),
        SettingsFault::BadPort(Some(port)) => unknown_message("port ", port.as_str()),
        SettingsFault::NoChip => Message::text("no chip file given (--chip)"),
        SettingsFault::TooMany => Message::text("more than 16 updates"),
        SettingsFault::BadUpdate(number, fault) => update_message(*number, *fault),
        SettingsFault::StandardTaken => Message::text("standard streams are taken"),
        SettingsFault::Memory => memory_message(),
    }
}

/// Prints the line of a fault of the settings on the desk's messages, and returns the status 1.
///
/// If the desk fails, only a prefix of the line is printed.
#[tactic(auto, unfolding(crate::specs::Refusal::refusal_line))]
pub fn refuse<D: Desk>(fault: &SettingsFault, desk: &mut D) -> u8
    ensures status { result ≡ 1 }
    ensures notice { ReportsLine (D.view desk.old) (D.view desk.new) (refusal_line fault.now) }
    ensures stays { Preserves D.started_as desk.old desk.new }
{
    avr_io::refuse(desk, &settings_message(fault))
}
