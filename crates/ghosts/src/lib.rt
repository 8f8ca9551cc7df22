//! What desks and links share: failure counts, how a device relates to its initial state, and retried calls.
//!
//! A device's record is kept for proofs only. Its struct has no field at run time, so it takes no byte. The few
//! functions that make such a struct are proved step by step, from the lemmas kept here.
#![tactic(auto)]

pub mod retry;

pub use retry::{Inlet, Outlet};
