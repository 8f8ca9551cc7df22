//! What a run is to do: settings, from the arguments of the command line, and the plan that they make with files.
//!
//! Options and their meaning are those of the AVRDUDE manual, as far as `avrstk` has them. `clap` splits the
//! arguments into options. What the options ask for is a function of their texts, which names the first fault.
//! `let matches = read_words(alloc, &words)?;` and then `read_settings(alloc, &matches)` makes settings.
//!
//! `plan` reads and checks all that the settings ask for, before any frame is sent or file created. A part is looked up
//! in the part file, then in the built-in parts. The file of each update becomes an image of its memory. A plan is a
//! function of what the openings of files give.
//!
//! ```text
//! let mut desk = MemDesk::empty(alloc);
//! let settings = Settings::for_link(alloc, "nobody")?;
//! let planned = plan(alloc, &settings, &mut desk);
//! assert!(rt; planned.err() == Some(1)); // the status, after the line of the refusal
//! assert!(rt; desk.messages() == b"avrstk: error: no part nobody\n".as_slice());
//! ```
#![tactic(auto)]

// the command line: its options, and the settings that they make
mod command;
mod from_options;
mod laws;
mod ports;
mod settings;
mod text;
mod update;
// the plan
mod fault_numbers;
mod image_file;
mod intake;
mod messages;
mod part_choice;
mod plan_fault;
mod planned;
mod planning;

// the command line: its options, and the settings that they make
pub use command::{make_command, read_words};
pub use from_options::read_settings;
pub use laws::{a_written_update_is_read, an_address_is_cut_at_its_last_colon};
pub use ports::port_number;
pub use settings::{Port, Settings, SettingsFault, Switches};
pub use text::Text;
pub use update::{Format, Op, Update, UpdateFault, Updates, parse_update};
// the plan
pub use image_file::{ReadFault, read_image};
pub use intake::BadFile;
pub use messages::read_only_message;
pub use part_choice::{chosen_part, given_parts};
pub use plan_fault::{PartsFault, PlanFault, TaskFault};
pub use planned::{Plan, Task};
pub use planning::{plan, plan_or_fault};
