ghost use Rattle.std.specs.Prelude.{◌≡◌, ◌<◌, ◌≤◌, [], length, OnOk, vec_capacity};
ghost use Rattle.stk_host.specs.ReadSteps.{read_count, load_command_at, read_command_at, read_steps};
ghost use Rattle.stk_host.specs.Calls.{Converses, RunsSteps};
ghost use Rattle.avr_part.specs.Part as parts;

use crate::conversation::{Conversation, read_step};
use crate::fault::HostFault;
use crate::link::Link;
use crate::writing::load_flash;
use avr_part::{Mem, Part};
use stk_frame::{Command, Fuse};

/// The most bytes that one command reads.
const BLOCK: u32 = 256;

/// Returns how many steps read a memory.
fn read_count(part: &Part, mem: Mem) -> u32
    ensures value { result ≡ read_count part.now mem }
    ensures few { result ≤ 1024 }
{
    let unit = match mem {
        Mem::Flash | Mem::Eeprom => BLOCK,
        _ => 1,
    };
    part.size_of(mem).div_ceil(unit)
}

/// Returns the command that loads the address of block `number`, if the memory is read in blocks.
fn load_command_at<'a>(part: &Part, mem: Mem, number: u32) -> Option<Command<'a>>
    requires { number < 1024 }
    ensures { result ≡ load_command_at part.now mem number }
{
    match mem {
        Mem::Flash => Some(load_flash(part, number * BLOCK)),
        Mem::Eeprom => Some(Command::LoadAddress {
            address: number * BLOCK,
        }),
        _ => None,
    }
}

/// Returns the command that reads the bytes of step `number`.
fn read_command_at<'a>(part: &Part, mem: Mem, number: u32) -> Command<'a>
    requires few { number < 1024 }
    requires within { number < read_count part.now mem }
    ensures { result ≡ read_command_at part.now mem number }
{
    let left = part.size_of(mem).saturating_sub(number * BLOCK);
    match mem {
        Mem::Flash => Command::read_flash(BLOCK.min(left) as u16),
        Mem::Eeprom => Command::read_eeprom(BLOCK.min(left) as u16),
        Mem::Lfuse => Command::read_fuse(Fuse::Low),
        Mem::Hfuse => Command::read_fuse(Fuse::High),
        Mem::Efuse => Command::read_fuse(Fuse::Extended),
        Mem::Lock => Command::read_lock(),
        Mem::Signature => Command::read_signature(number as u8),
        Mem::Calibration => Command::read_calibration(),
    }
}

/// Reads a whole memory into an empty vector that has room for it.
pub(crate) fn read_memory<L: Link>(
    talk: &mut Conversation,
    link: &mut L,
    part: &Part,
    mem: Mem,
    out: &mut Vec<u8>,
) -> Result<(), HostFault>
    requires empty { out.old.items ≡ [] }
    requires room { parts.size_of mem part.now ≤ vec_capacity out.old }
    ensures is { Converses L.Link (RunsSteps (read_steps part.now mem) out.new.items) talk.old talk.new link.old
        link.new result }
    ensures size { OnOk result (length out.new.items ≡ parts.size_of mem part.now) }
{
    for number in 0..read_count(part, mem) {
        let first = load_command_at(part, mem, number);
        let last = read_command_at(part, mem, number);
        read_step(talk, link, &first, &last, out)?;
    }
    Ok(())
}
