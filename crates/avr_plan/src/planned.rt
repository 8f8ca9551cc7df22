ghost use Rattle.std.specs.Prelude.{◌≡◌, All};
ghost use Rattle.avr_plan.specs.Plan.{IsFitted};

use crate::settings::Switches;
use crate::text::Text;
use crate::update::Format;
use avr_image::Image;
use avr_part::{Mem, Part};
use std::marker::Model;

/// What a run does with one memory. An image has a place for each byte of the memory, and some places may be gaps.
#[derive(Debug, Drop)]
pub enum Task {
    /// Writes the bytes of the image to the memory.
    Write(Mem, Image),
    /// Compares the memory with the bytes of the image.
    Verify(Mem, Image),
    /// Reads the memory and writes it to a file, which is created only then.
    Read {
        memory: Mem,
        format: Format,
        /// The file's name as given; `-` is standard output.
        file: Text,
    },
}

#[derive(Debug, Drop)]
pub(crate) struct Tasks {
    items: Vec<Task>,
}

impl Model for Tasks {
    ghost use Rattle.std.specs.Prelude.{List};
    ghost use Rattle.avr_plan.specs.declared.planned.Task.{Task};

    ghost Value = { List Task };

    ghost view = { λ t. t.items.items };
}

impl Tasks {
    pub(crate) fn of(items: Vec<Task>) -> Tasks
        ensures { result ≡ items.items }
    {
        Tasks { items }
    }

    pub(crate) fn as_slice(&self) -> &[Task]
        ensures { result.now ≡ self.now }
    {
        self.items.as_slice()
    }
}

/// The work of a run: a part, tasks in order, and switches. All that it needs was read and checked.
#[derive(Debug, Drop)]
pub struct Plan {
    part: Part,
    tasks: Tasks,
    switches: Switches,
}

impl Model for Plan {
    ghost use Rattle.std.specs.Prelude.{All};
    ghost use Rattle.avr_plan.specs.Plan.{Plan as Planned, IsFitted};

    ghost Value = { Planned };

    ghost view = { λ plan. record { part = plan.part; tasks = plan.tasks; switches = plan.switches } };

    ghost invariant = { λ plan. All (IsFitted plan.part) plan.tasks };
}

impl Plan {
    pub(crate) fn new(part: Part, tasks: Tasks, switches: Switches) -> Plan
        requires { All (IsFitted part) tasks }
        ensures { result ≡ record { part = part; tasks = tasks; switches = switches } }
    {
        Plan {
            part,
            tasks,
            switches,
        }
    }

    /// Returns the part that the run works on.
    pub fn part(&self) -> &Part
        ensures { result.now ≡ self.now.part }
    {
        &self.part
    }

    /// Returns the tasks in the order of the updates. Each image has the size of its memory.
    pub fn tasks(&self) -> &[Task]
        ensures value { result.now ≡ self.now.tasks }
    {
        self.tasks.as_slice()
    }

    /// A law, without code: each image has the size of its memory, and each memory to write is writable.
    pub fn is_sound(&self)
        ensures { All (IsFitted self.now.part) self.now.tasks }
    {
        let _inside = &self.tasks;
    }

    /// Returns the options that are on or off.
    pub fn switches(&self) -> Switches
        ensures { result ≡ self.now.switches }
    {
        self.switches
    }
}
