//! The host's side of the STK500 protocol, version 2 (Atmel AVR068), as AVRDUDE speaks it with `-c stk500v2`.
//!
//! An operation is a dialog: commands, and what follows from their replies. A call of [`Host`] runs its dialog over
//! the tape of all items received. It sends exactly the dialog's frames, however the link cuts the bytes.
//!
//! ```text
//! let part = Parts::none().find("m328p")?;
//! let fuse = parse_immediate(alloc, "0xE2", part.size_of(Mem::Lfuse))?;
//! // an emulated programmer with its part; a `StreamLink` is over a reader and a writer
//! let mut link = Wired::with_fates(alloc, Chip::fresh(alloc, part.copied())?, Fates::none(alloc));
//! let mut host = Host::new(part);
//! let signature = host.open(&mut link, false)?;
//! host.write(&mut link, Mem::Lfuse, &fuse)?;
//! host.close(&mut link)?;
//! assert!(rt; link.chip().memory(Mem::Lfuse) == [0xE2].as_slice());
//! ```
#![tactic(auto)]

// links
mod failing_link;
mod history;
mod link;
mod log;
mod stream_link;
mod tape_link;
mod watched_link;
// replies, attempts and steps
mod conversation;
mod fault;
mod listen;
// operations
mod comparing;
mod host;
mod laws;
mod reading;
mod writing;

pub use failing_link::FailingLink;
pub use fault::{HostFault, StepFault};
pub use history::{History, Piece};
pub use host::Host;
pub use laws::{
    a_call_sends_at_most_four_times_its_commands, a_record_of_streams_is_true,
    a_tape_gives_its_own_items,
};
pub use link::{Heard, Item, Link, LinkFault, send_all};
pub use log::Log;
pub use stream_link::StreamLink;
pub use tape_link::TapeLink;
pub use watched_link::{LinkCall, WatchLink, WatchedLink};
