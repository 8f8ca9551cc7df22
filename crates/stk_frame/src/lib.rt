//! Frames, commands and replies of the STK500 protocol, version 2, by Atmel's application note AVR068 ("Message
//! format" and "Commands").
//!
//! A `command` has a body (`encode`), which goes into a `frame`. A `reader` cuts bytes into frames, the same ones
//! whatever pieces the bytes come in. A body is read as a command (`decode`) or as an `answer` to one.
//!
//! `put_frame(1, &[0x01], &mut out)` puts the frame `1B 01 00 01 0E 01 14` into `out`. A `FrameReader` that is fed
//! these bytes returns a frame with `seq()` 1 and `body()` `[0x01]`.
#![tactic(auto)]

mod answer;
mod command;
mod cutting;
mod decode;
mod encode;
pub mod protocol;
mod reader;

pub use answer::{Answer, FrameFault, Shape};
pub use command::{Command, Data, EnterProgmode, Fuse, ProgramBlock, ReadBlock, ReadByte};
pub use cutting::cutting_is_the_only_one;
pub use encode::put_frame;
pub use protocol::{LARGEST_BODY, LARGEST_FRAME, command_name, status_name};
pub use reader::{Event, FrameReader};
