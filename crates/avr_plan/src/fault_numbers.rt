//! The numbers of faults, which never change. So a program may rely on them.
ghost use Rattle.std.specs.Prelude.{◌≡◌};
ghost use Rattle.avr_plan.specs.Faults.{update_fault_number, settings_fault_number, bad_file_number, read_fault_number, parts_fault_number, task_fault_number, plan_fault_number};

use crate::image_file::ReadFault;
use crate::intake::BadFile;
use crate::plan_fault::{PartsFault, PlanFault, TaskFault};
use crate::settings::SettingsFault;
use crate::update::UpdateFault;

impl UpdateFault {
    /// Returns the fault's number, which never changes.
    ///
    /// ```text
    /// assert_eq!(rt; UpdateFault::NoFile.number(), 4);
    /// ```
    pub fn number(&self) -> u8
        ensures { result ≡ update_fault_number self.now }
    {
        *self as u8
    }
}

impl SettingsFault {
    /// Returns the fault's number, which never changes. It is not the order in which faults are reported.
    ///
    /// ```text
    /// assert_eq!(rt; SettingsFault::NoPart.number(), 1);
    /// assert_eq!(rt; SettingsFault::NoChip.number(), 8);
    /// ```
    pub fn number(&self) -> u8
        ensures { result ≡ settings_fault_number self.now }
    {
        match self {
            SettingsFault::NoPart => 1,
            SettingsFault::BadProgrammer(_) => 2,
            SettingsFault::BadPort(_) => 3,
            SettingsFault::TooMany => 4,
            SettingsFault::BadUpdate(_, _) => 5,
            SettingsFault::StandardTaken => 6,
            SettingsFault::Memory => 7,
            SettingsFault::NoChip => 8,
        }
    }
}

impl BadFile {
    /// Returns the fault's number, which never changes.
    pub fn number(&self) -> u8
        ensures { result ≡ bad_file_number self.now }
    {
        match self {
            BadFile::Record(_) => 1,
            BadFile::Raw(_) => 2,
            BadFile::Elf => 3,
            BadFile::TooLong => 4,
        }
    }
}

impl ReadFault {
    /// Returns the fault's number, which never changes.
    pub fn number(&self) -> u8
        ensures { result ≡ read_fault_number self.now }
    {
        match self {
            ReadFault::File(_) => 1,
            ReadFault::Image(_) => 2,
        }
    }
}

impl PartsFault {
    /// Returns the fault's number, which never changes.
    pub fn number(&self) -> u8
        ensures { result ≡ parts_fault_number self.now }
    {
        match self {
            PartsFault::File(_) => 1,
            PartsFault::TooLong => 2,
            PartsFault::Parts(_) => 3,
        }
    }
}

impl TaskFault {
    /// Returns the fault's number, which never changes.
    pub fn number(&self) -> u8
        ensures { result ≡ task_fault_number self.now }
    {
        match self {
            TaskFault::ReadOnly => 1,
            TaskFault::Values(_) => 2,
            TaskFault::File(_) => 3,
            TaskFault::Memory => 4,
            TaskFault::Unwarned => 5,
        }
    }
}

impl PlanFault {
    /// Returns the fault's number, which never changes.
    pub fn number(&self) -> u8
        ensures { result ≡ plan_fault_number self.now }
    {
        match self {
            PlanFault::PartFile(_) => 1,
            PlanFault::NoPart => 2,
            PlanFault::Update(..) => 3,
        }
    }
}
