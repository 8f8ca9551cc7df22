ghost use Rattle.std.specs.Prelude.{◌≡◌, ◌<◌, ◌++◌, ◌/◌, IfOk, OnOk};
ghost use Rattle.avrstk_session.specs.Outline.{number_line, page_text, pages_text, task_text, outline_text};

use avr_image::Image;
use avr_part::{Mem, Part};
use avr_plan::{Plan, Task};
use avr_session::frame_count;
use itoa::Buffer;
use std::alloc::{AllocError, Global};

fn push_number(text: &mut Vec<u8>, number: u64, end: u8) -> Result<(), AllocError>
    ensures { OnOk result (text.new.items ≡ text.old.items ++ number_line number end) }
{
    text.extend_from_slice(Buffer::new().format(number).as_bytes())?;
    Ok(text.push(end)?)
}

/// Appends the line of a page of flash, if the image holds a byte in it.
fn push_page(text: &mut Vec<u8>, part: &Part, image: &Image, page: u32) -> Result<(), AllocError>
    requires { page < part.now.flash_size / part.now.flash_page }
    ensures { OnOk result (text.new.items ≡ text.old.items ++ page_text part.now image.now page) }
{
    let size = part.page_of(Mem::Flash);
    if !image.holds_any(page * size, size) {
        return Ok(());
    }
    text.extend_from_slice(b"flash ")?;
    push_number(text, u64::from(page * size), b' ')?;
    push_number(text, u64::from(size), b'\n')
}

fn push_pages(text: &mut Vec<u8>, part: &Part, image: &Image) -> Result<(), AllocError>
    ensures { OnOk result (text.new.items ≡ text.old.items
        ++ pages_text part.now image.now 0 (part.now.flash_size / part.now.flash_page)) }
{
    let pages = part.size_of(Mem::Flash) / part.page_of(Mem::Flash);
    for page in 0..pages {
        push_page(text, part, image, page)?;
    }
    Ok(())
}

fn push_task(text: &mut Vec<u8>, part: &Part, task: &Task) -> Result<(), AllocError>
    ensures { OnOk result (text.new.items ≡ text.old.items ++ task_text part.now task.now) }
{
    match task {
        Task::Write(Mem::Flash, image) => push_pages(text, part, image),
        _ => Ok(()),
    }
}

/// Returns the text of the outline: `frames N`, and `flash ADDRESS SIZE` for each page of flash that a task writes.
pub(crate) fn outline_text(alloc: Global, plan: &Plan) -> Result<Vec<u8>, AllocError>
    ensures { IfOk result (λ text. text.items ≡ outline_text plan.now) }
{
    let mut text = Vec::from_slice(alloc, b"frames ")?;
    push_number(&mut text, frame_count(plan), b'\n')?;
    let tasks = plan.tasks();
    for task in tasks {
        push_task(&mut text, plan.part(), task)?;
    }
    Ok(text)
}
