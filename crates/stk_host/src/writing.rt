ghost use Rattle.std.specs.Prelude.{◌≡◌, ◌≤◌, ◌∷◌, [], ◌<◌, ◌-◌, ◌^◌};
ghost use Rattle.stk_frame.specs.HostCommands.{program_eeprom_block, program_fuse};
ghost use Rattle.stk_host.specs.Calls.{Converses, CompletesSteps, RunsSteps};
ghost use Rattle.avr_image.specs.Image.{filled_bytes};
ghost use Rattle.stk_host.specs.WriteSteps.{page_step, begins_run, byte_steps, place_steps, place_count, write_steps};
ghost use Rattle.stk_host.specs.Places.{each_from, load_flash};
ghost use Rattle.stk_host.specs.Places as places;

use crate::conversation::{Conversation, play_step};
use crate::fault::HostFault;
use crate::link::Link;
use avr_image::Image;
use avr_part::{Mem, Part};
use stk_frame::protocol::EXTENDED_ADDRESS;
use stk_frame::{Command, Fuse};

/// Returns how many places a memory has: the pages of flash, or the bytes of EEPROM.
fn place_count(part: &Part, mem: Mem) -> u32
    ensures { result ≡ place_count part.now mem }
{
    match mem {
        Mem::Flash => part.size_of(Mem::Flash) / part.page_of(Mem::Flash),
        _ => part.size_of(Mem::Eeprom),
    }
}

/// The most bytes of a page.
const LARGEST_PAGE: usize = 256;

fn flash_page(part: &Part) -> usize
    ensures value { result ≡ part.now.flash_page }
    ensures most { result ≤ 256 }
{
    part.page_of(Mem::Flash) as usize
}

/// Programs the page of flash that begins at `start`, with FF in the image's gaps.
fn program_page<L: Link>(
    talk: &mut Conversation,
    link: &mut L,
    part: &Part,
    image: &Image,
    start: u32,
) -> Result<(), HostFault>
    requires { start < 2 ^ 20 }
    ensures { Converses L.Link (CompletesSteps (page_step part.now image.now start ∷ []))
        talk.old talk.new link.old link.new result }
{
    let size = flash_page(part);
    let mut page = [0; LARGEST_PAGE];
    image.fill(start, &mut page[..size]);
    let load = load_flash(part, start);
    let program = Command::program_page(&page[..size]);
    play_step(talk, link, &Some(load), &program)
}

/// Programs the image's bytes from `start` to `end`, which are in one page of EEPROM.
fn program_run<L: Link>(
    talk: &mut Conversation,
    link: &mut L,
    image: &Image,
    start: u32,
    end: u32,
) -> Result<(), HostFault>
    requires order { start ≤ end }
    requires fits { end - start ≤ 256 }
    ensures { Converses L.Link (CompletesSteps ((places.load_eeprom start ∷ program_eeprom_block
        (filled_bytes image.now start (end - start)) ∷ []) ∷ [])) talk.old talk.new link.old link.new result }
{
    let size = (end - start) as usize;
    let mut run = [0; LARGEST_PAGE];
    image.fill(start, &mut run[..size]);
    let load = Command::LoadAddress { address: start };
    let program = Command::program_eeprom(&run[..size]);
    play_step(talk, link, &Some(load), &program)
}

/// Returns whether a run begins here: at a byte after a gap, or at the first byte of a page.
fn begins_run(page: u32, image: &Image, addr: u32) -> bool
    requires { 0 < page }
    ensures { result ≡ begins_run page image.now addr }
{
    image.get(addr).is_some() && (addr % page == 0 || image.get(addr - 1).is_none())
}

/// Programs page `place` of flash, if the image has a byte in it, or the run of EEPROM that begins at address `place`,
/// if one does.
fn write_place<L: Link>(
    talk: &mut Conversation,
    link: &mut L,
    part: &Part,
    mem: Mem,
    image: &Image,
    place: u32,
) -> Result<(), HostFault>
    requires { place < place_count part.now mem }
    ensures { Converses L.Link (CompletesSteps (place_steps part.now mem image.now place))
        talk.old talk.new link.old link.new result }
{
    match mem {
        Mem::Flash => {
            let size = part.page_of(Mem::Flash);
            if !image.holds_any(place * size, size) {
                return Ok(());
            }
            program_page(talk, link, part, image, place * size)
        }
        _ => {
            let size = part.page_of(Mem::Eeprom);
            if !begins_run(size, image, place) {
                return Ok(());
            }
            let end = image.run_from(place, place - place % size + size);
            program_run(talk, link, image, place, end)
        }
    }
}

/// Programs each page of flash that has a byte of the image, or each longest run of its bytes in a page of EEPROM.
fn write_places<L: Link>(
    talk: &mut Conversation,
    link: &mut L,
    part: &Part,
    mem: Mem,
    image: &Image,
) -> Result<(), HostFault>
    ensures { Converses L.Link (RunsSteps (each_from (place_steps part.now mem image.now) 0 (place_count part.now mem))
        [])
        talk.old talk.new link.old link.new result }
{
    for place in 0..place_count(part, mem) {
        write_place(talk, link, part, mem, image, place)?;
    }
    Ok(())
}

/// Writes a fuse, if the image has its byte.
fn write_fuse<L: Link>(
    talk: &mut Conversation,
    link: &mut L,
    fuse: Fuse,
    byte: Option<u8>,
) -> Result<(), HostFault>
    ensures { Converses L.Link (RunsSteps (byte_steps (program_fuse fuse) byte) []) talk.old talk.new link.old link.new
        result }
{
    match byte {
        Some(value) => play_step(talk, link, &None, &Command::program_fuse(fuse, value)),
        None => Ok(()),
    }
}

/// Writes the image to a memory that can be written, and nothing to any other.
pub(crate) fn write_memory<L: Link>(
    talk: &mut Conversation,
    link: &mut L,
    part: &Part,
    mem: Mem,
    image: &Image,
) -> Result<(), HostFault>
    ensures { Converses L.Link (RunsSteps (write_steps part.now mem image.now) []) talk.old talk.new link.old link.new
        result }
{
    match mem {
        Mem::Flash | Mem::Eeprom => write_places(talk, link, part, mem, image),
        Mem::Lfuse => write_fuse(talk, link, Fuse::Low, image.get(0)),
        Mem::Hfuse => write_fuse(talk, link, Fuse::High, image.get(0)),
        Mem::Efuse => write_fuse(talk, link, Fuse::Extended, image.get(0)),
        Mem::Lock => match image.get(0) {
            Some(value) => play_step(talk, link, &None, &Command::program_lock(value)),
            None => Ok(()),
        },
        Mem::Signature | Mem::Calibration => Ok(()),
    }
}

/// The bytes of flash that 16-bit word addresses reach.
const NARROW_FLASH: u32 = 131_072;

/// Returns the command that loads the word address of a byte of flash.
pub(crate) fn load_flash<'a>(part: &Part, start: u32) -> Command<'a>
    requires { start < 2 ^ 20 }
    ensures { result ≡ load_flash part.now start }
{
    let words = start / 2;
    let address = if part.size_of(Mem::Flash) > NARROW_FLASH {
        words + EXTENDED_ADDRESS
    } else {
        words
    };
    Command::LoadAddress { address }
}
