//! The front door: what AVRDUDE does with `-c stk500v2`, as far as `avrstk` has it, in one crate.
//!
//! A command line becomes settings, the settings a plan, and the plan a run over a link. A run returns a status: 0 if
//! there was no fault, otherwise 1. The crates below do most of it; this one gathers their calls and adds the
//! network. A socket is a reader and a writer, so it is used through a [`stk_host::StreamLink`].
//!
//! A program's `main` calls [`run_command_line`], which does all of it with two writers, a reader and the command line.
//! Step by step:
//!
//! ```text
//! let mut words = Vec::new(alloc);
//! for word in ["avrstk", "-p", "m328p", "-P", "emu:chip.bin"] {
//!     words.push(String::from_str(alloc, word)?)?;
//! }
//! let mut desk = MemDesk::empty(alloc);
//! let mut link = StreamLink::new(b"".as_slice(), Vec::new(alloc));
//! let settings = read_settings(alloc, &read_words(alloc, words.as_slice())?)?;
//! let status = match &settings.port {
//!     Port::Stdio => run(alloc, &settings, &mut desk, &mut link),
//!     Port::Emulated(_) => run_emu(alloc, &settings, &mut desk),
//!     Port::Network(_) => run_net(&rt, alloc, &settings, &mut desk),
//!     Port::Served { .. } => serve_net(&rt, alloc, &settings, &mut desk),
//! };
//! assert_eq!(rt; status, 0);
//! ```
#![tactic(auto)]

mod chip_files;
mod messages;
// a desk of six calls for runs with a chip file
mod noted;
mod unlocked;
// the emulated programmer with its chip file: a run over it, and serving it
mod ending;
mod over_emulator;
mod served_run;
mod serving_link;
// the network
mod network;
mod over_net;
mod ports;
mod serving;
// from a command line to a status
mod command_line;
mod program;
mod texts;
// the runs of the headline
mod running;
// laws
mod laws;
mod numbers;

// from a command line to settings
pub use avr_plan::{
    Format, Op, Port, Settings, SettingsFault, Switches, Text, Update, UpdateFault, Updates,
    make_command, parse_update, port_number, read_settings, read_settings as settings, read_words,
};
pub use avr_session::refuse;
pub use command_line::{CommandLine, NotAsked, asked};
pub use laws::{a_run_is_one_function, a_session_over_a_wire, a_stop_is_a_prefix};
// what a run reads and writes besides its link
pub use avr_desk::{
    DeskCall, FailingDesk, FileSystem, MemDesk, SystemDesk, WatchDesk, WatchedDesk,
};
pub use avr_io::{
    Bytes, ChipDesk, Desk, DeskFault, FileUse, Opening, Piece, Reading, Stream, Writing,
    print_error, print_information, print_warning, write_all,
};
// from settings to a status, over any link
pub use avr_plan::{PartsFault, Plan, PlanFault, Task, TaskFault, plan, plan_or_fault};
pub use avr_session::{Outcome, drive, drive_outcome, frame_count};
pub use ghosts::{Inlet, Outlet};
pub use network::{Callers, Network, Side};
pub use numbers::the_numbers_are;
pub use over_emulator::{drive_wired, run_emu};
pub use over_net::run_net;
pub use ports::{accept, listen};
pub use program::{run_command_line, run_program, run_words};
pub use running::{run, run_wired};
pub use served_run::{READS, check_part, serve, serve_chip, serve_for, serve_part};
pub use serving::{serve_net, serve_on};
pub use texts::refuse_text;
// the emulated programmer and the chip file
pub use chip_files::{hold_chip, load_chip, save_chip};
pub use serving_link::{Served, serve_link};
pub use unlocked::Unlocked;
// parts, their chips and the contents of their memories
pub use avr_image::Image;
pub use avr_part::{Chip, Mem, Part, PartFault, Parts};
pub use stk_emu::{Fate, Fates, FatesFault, Wired, noise_is_lawful};
pub use stk_host::{
    FailingLink, Heard, HostFault, Item, Link, LinkCall, LinkFault, StreamLink, TapeLink,
    WatchLink, WatchedLink,
};
