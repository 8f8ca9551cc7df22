//! Counts the frames of a plan, so that a caller can show a session's progress.
ghost use Rattle.std.specs.Prelude.{◌≡◌, ◌≤◌, ◌^◌, ◌-◌, min};
ghost use Rattle.avr_session.specs.Actions.{task_actions};
ghost use Rattle.avr_session.specs.PlanSteps.{actions_steps, run_steps};
ghost use Rattle.stk_host.specs.Bound.{commands_in};
ghost use Rattle.stk_host.specs.ReadSteps.{read_steps};
ghost use Rattle.stk_host.specs.WriteSteps.{write_steps};

use crate::session::is_erase_due;
use avr_image::Image;
use avr_part::{Mem, Part};
use avr_plan::{Plan, Switches, Task};

/// Signing on, entering programming mode, and three bytes of the signature.
const OPENING: u64 = 5;

/// Leaving programming mode.
const CLOSING: u64 = 1;

/// The bytes that one command reads.
const BLOCK: u32 = 256;

/// Returns how many frames read a memory.
#[tactic(auto, using(crate::proofs::FrameCounts::places_counted))]
fn read_frames(part: &Part, mem: Mem) -> u64
    ensures value { result ≡ commands_in (read_steps part.now mem) }
    ensures few { result ≤ 2 ^ 20 }
{
    match mem {
        Mem::Flash => u64::from(part.size_of(Mem::Flash).div_ceil(BLOCK)) * 2,
        Mem::Eeprom => u64::from(part.size_of(Mem::Eeprom).div_ceil(BLOCK)) * 2,
        Mem::Signature => 3,
        Mem::Lfuse | Mem::Hfuse | Mem::Efuse | Mem::Lock | Mem::Calibration => 1,
    }
}

/// Counts two frames for each page in which the image holds a byte.
#[tactic(auto, using(crate::proofs::FrameCounts::places_counted))]
fn flash_frames(part: &Part, image: &Image) -> u64
    ensures value { result ≡ commands_in (write_steps part.now Mem.Flash image.now) }
    ensures few { result ≤ 2 ^ 20 }
{
    let size = part.page_of(Mem::Flash);
    let pages = part.size_of(Mem::Flash) / size;
    let mut count = 0;
    for page in 0..pages {
        if image.holds_any(page * size, size) {
            count += 2;
        }
    }
    count
}

/// Counts two frames for each run of bytes within a page.
#[tactic(auto, using(crate::proofs::FrameCounts::places_counted))]
fn eeprom_frames(part: &Part, image: &Image) -> u64
    ensures value { result ≡ commands_in (write_steps part.now Mem.Eeprom image.now) }
    ensures few { result ≤ 2 ^ 20 }
{
    let size = part.page_of(Mem::Eeprom);
    let mut count = 0;
    for addr in 0..part.size_of(Mem::Eeprom) {
        let begins = image.get(addr).is_some()
            && (addr % size == 0 || image.get(addr - 1).is_none());
        if begins {
            count += 2;
        }
    }
    count
}

/// Returns how many frames write an image to a memory.
fn write_frames(part: &Part, mem: Mem, image: &Image) -> u64
    ensures value { result ≡ commands_in (write_steps part.now mem image.now) }
    ensures few { result ≤ 2 ^ 20 }
{
    match mem {
        Mem::Flash => flash_frames(part, image),
        Mem::Eeprom => eeprom_frames(part, image),
        Mem::Lfuse | Mem::Hfuse | Mem::Efuse | Mem::Lock => u64::from(image.get(0).is_some()),
        Mem::Signature | Mem::Calibration => 0,
    }
}

/// Returns how many frames a task takes.
#[tactic(auto, using(crate::proofs::FrameCounts::places_counted))]
fn task_frames(switches: Switches, part: &Part, task: &Task) -> u64
    ensures { result ≡ commands_in (actions_steps part.now (task_actions switches task.now)) }
{
    match task {
        Task::Write(_, _) if switches.dry => 0,
        Task::Write(mem, image) if switches.no_verify => write_frames(part, *mem, image),
        Task::Write(mem, image) => write_frames(part, *mem, image) + read_frames(part, *mem),
        Task::Verify(mem, _) | Task::Read { memory: mem, .. } => read_frames(part, *mem),
    }
}

/// Returns how many frames a session of `plan` sends over a link that loses nothing, or `u64::MAX` if they are more.
///
/// A session sends fewer frames if a fault ends it, such as a byte that differs. Over a link that loses frames it
/// sends at most four times as many. To draw progress, count the frames sent with a [`stk_host::WatchedLink`].
///
/// ```text
/// let settings = Settings::for_link(alloc, "m328p")?;
/// let Ok(plan) = plan(alloc, &settings, &mut MemDesk::empty(alloc)) else {
///     panic!(rt; "the part is built in");
/// };
/// // to sign on, to enter programming mode, three bytes of the signature, to leave
/// assert_eq!(rt; frame_count(&plan), 6);
/// ```
#[tactic(auto, using(crate::proofs::FrameCounts::tasks_counted))]
pub fn frame_count(plan: &Plan) -> u64
    ensures { result ≡ min (2 ^ 64 - 1) (commands_in (run_steps plan.now)) }
{
    let switches = plan.switches();
    let tasks = plan.tasks();
    let erases = !switches.dry && is_erase_due(switches, tasks);
    let mut count = OPENING + CLOSING + u64::from(erases);
    for task in tasks {
        count = count.saturating_add(task_frames(switches, plan.part(), task));
    }
    count
}
