ghost use Rattle.std.specs.Prelude.{◌≡◌, ◌<◌, [], None, All, IfOk, IfErr, IsOk, OnOk, vec_len, vec_capacity};
ghost use Rattle.avr_plan.specs.Plan.{IsFitted};
ghost use Rattle.avr_plan.specs.PlanFaults.{ReportsPlanFault, ReportsTaskFault, ReportsTasksFault, with_status};
ghost use Rattle.avr_plan.specs.Planning.{LacksPart, task_stage, tasks_stage, planned};
ghost use Rattle.avr_plan.specs.declared.planned.Task.{Task as AnyTask};
ghost use Rattle.avr_plan.specs.AllocationPoints.{AtAllocatingUpdate, AtAllocatingTask, op_allocates};
ghost use Rattle.avr_io.specs.StageRuns.{OnlyAtStart, RunsStage};
ghost use Rattle.ghosts.specs.Preserves.{Preserves};

use crate::image_file::update_image;
use crate::messages::read_only_message;
use crate::part_choice::{chosen_part, given_parts};
use crate::plan_fault::{PlanFault, TaskFault};
use crate::planned::{Plan, Task, Tasks};
use crate::settings::{Settings, Switches};
use crate::text::Text;
use crate::update::{Op, Update};
use avr_io::{Desk, memory_message, refuse};
use avr_part::Part;
use std::alloc::{AllocError, Global};

/// Returns the task of an update that reads, and makes room for it in `tasks`.
fn read_task(alloc: Global, tasks: &mut Vec<Task>, update: &Update) -> Result<Task, AllocError>
    ensures made { IfOk result (λ task. task ≡ AnyTask.Read update.now.memory update.now.format update.now.file) }
    ensures same { tasks.new.items ≡ tasks.old.items }
    ensures room { OnOk result (vec_len tasks.new < vec_capacity tasks.new) }
{
    tasks.reserve(1)?;
    Ok(Task::Read {
        memory: update.memory,
        format: update.format,
        file: Text::new(alloc, update.file.as_str())?,
    })
}

/// Returns the task of an update, and makes room for it in `tasks`.
fn update_task<D: Desk>(
    alloc: Global,
    desk: &mut D,
    tasks: &mut Vec<Task>,
    switches: Switches,
    part: &Part,
    update: &Update,
) -> Result<Task, TaskFault>
    ensures goes { RunsStage (OnlyAtStart (op_allocates update.now update.now.op)) (task_stage switches part.now
        update.now) (D.view desk.old) (D.view desk.new) (with_status result) }
    ensures notice { IfErr result (ReportsTaskFault update.now (D.view desk.old) (D.view desk.new)) }
    ensures fitted { IfOk result (IsFitted part.now) }
    ensures same { tasks.new.items ≡ tasks.old.items }
    ensures room { OnOk result (vec_len tasks.new < vec_capacity tasks.new) }
    ensures stays { Preserves D.started_as desk.old desk.new }
{
    match update.op {
        Op::Write => {
            if !update.memory.writable() {
                refuse(desk, &read_only_message(update.memory));
                return Err(TaskFault::ReadOnly);
            }
            match update_image(alloc, desk, tasks, switches, part, update) {
                Ok(image) => Ok(Task::Write(update.memory, image)),
                Err(fault) => Err(fault),
            }
        }
        Op::Verify => match update_image(alloc, desk, tasks, switches, part, update) {
            Ok(image) => Ok(Task::Verify(update.memory, image)),
            Err(fault) => Err(fault),
        },
        Op::Read => match read_task(alloc, tasks, update) {
            Ok(task) => Ok(task),
            Err(_) => {
                refuse(desk, &memory_message());
                Err(TaskFault::Memory)
            }
        },
    }
}

/// Makes the tasks of all updates, in order.
fn update_tasks<D: Desk>(
    alloc: Global,
    desk: &mut D,
    switches: Switches,
    part: &Part,
    updates: &[Update],
) -> Result<Tasks, PlanFault>
    ensures goes { RunsStage (AtAllocatingTask switches part.now [] updates.now)
        (tasks_stage switches part.now [] updates.now) (D.view desk.old) (D.view desk.new) (with_status result) }
    ensures notice { IfErr result (ReportsTasksFault updates.now (D.view desk.old) (D.view desk.new)) }
    ensures fitted { IfOk result (All (IsFitted part.now)) }
    // Without updates nothing is allocated.
    ensures none { updates.now ≡ [] → IsOk result }
    ensures stays { Preserves D.started_as desk.old desk.new }
{
    let mut tasks = Vec::new(alloc);
    for update in updates {
        let task = match update_task(alloc, desk, &mut tasks, switches, part, update) {
            Ok(task) => task,
            Err(fault) => return Err(PlanFault::Update(tasks.as_slice().len(), fault)),
        };
        tasks.push_reserved(task);
    }
    Ok(Tasks::of(tasks))
}

/// Makes the plan of a run as [`plan`] does, and returns the fault in place of a status.
///
/// # Errors
///
/// The first fault. Its line was printed, as far as the desk takes it. `PartFile` if the part file gives no parts;
/// `NoPart` if no part has the id; `Update` with the number of an update, from 0, and its [`TaskFault`].
///
/// ```text
/// let mut settings = Settings::for_link(alloc, "m328p")?;
/// settings.updates.push(parse_update(alloc, "flash:w:a.hex")?)?;
/// let mut desk = MemDesk::empty(alloc);
/// let planned = plan_or_fault(alloc, &settings, &mut desk);
/// let absent = ReadFault::File(FileFault::Absent);
/// assert!(rt; planned.err() == Some(PlanFault::Update(0, TaskFault::File(absent))));
/// desk.put("a.hex", b":0400000001020304F2\n:00000001FF\n")?;
/// let Ok(plan) = plan_or_fault(alloc, &settings, &mut desk) else {
///     panic!(rt; "the file is there now");
/// };
/// assert_eq!(rt; plan.tasks().len(), 1);
/// ```
pub fn plan_or_fault<D: Desk>(
    alloc: Global,
    settings: &Settings,
    desk: &mut D,
) -> Result<Plan, PlanFault>
    ensures goes { RunsStage (AtAllocatingUpdate settings.now) (planned settings.now) (D.view desk.old)
        (D.view desk.new) (with_status result) }
    ensures notice { IfErr result (ReportsPlanFault settings.now (D.view desk.old) (D.view desk.new)) }
    // Without a part file and updates nothing is read: the only fault is an unknown part.
    ensures bare { settings.now.parts ≡ None → settings.now.updates ≡ []
        → IfErr result (λ fault. LacksPart settings.now.part [] (D.view desk.old) (D.view desk.new)) }
    ensures stays { Preserves D.started_as desk.old desk.new }
{
    let parts = match given_parts(alloc, desk, &settings.parts) {
        Ok(parts) => parts,
        Err(fault) => return Err(PlanFault::PartFile(fault)),
    };
    let part = match chosen_part(desk, &parts, settings.part.as_str()) {
        Ok(part) => part,
        Err(_) => return Err(PlanFault::NoPart),
    };
    let switches = settings.switches;
    let tasks = match update_tasks(alloc, desk, switches, &part, settings.updates.as_slice()) {
        Ok(tasks) => tasks,
        Err(fault) => return Err(fault),
    };
    Ok(Plan::new(part, tasks, switches))
}

/// Makes the plan of a run: reads the part file, finds the part, and then reads the file of each update in order. Warns
/// about a missing end record, unless warnings are off.
///
/// Each file is opened anew, read to its end or past its limit, and then checked. No file is created.
///
/// # Errors
///
/// The status 1 if the settings can't be met, the desk fails or allocation fails. The line about it was printed, as far
/// as the desk takes it, and nothing more was opened. Allocation happens while a file is read, and at the start of an
/// update that has values or reads a memory.
pub fn plan<D: Desk>(alloc: Global, settings: &Settings, desk: &mut D) -> Result<Plan, u8>
    ensures goes { RunsStage (AtAllocatingUpdate settings.now) (planned settings.now) (D.view desk.old)
        (D.view desk.new) result }
    // Without a part file and updates nothing is read: the only fault is an unknown part.
    ensures bare { settings.now.parts ≡ None → settings.now.updates ≡ []
        → IfErr result (λ status. LacksPart settings.now.part [] (D.view desk.old) (D.view desk.new)) }
    ensures stays { Preserves D.started_as desk.old desk.new }
{
    match plan_or_fault(alloc, settings, desk) {
        Ok(plan) => Ok(plan),
        Err(_) => Err(1),
    }
}
