//! What xdpvm_filter does: runs a program whose maps may be filled on a frame stream, and counts;
//! or writes frames again in another form.
#![tactic(auto)]

mod conversions;
mod copying;
mod delivering;
mod executing;
mod files;
mod filling;
mod finishing;
mod frame_kinds;
mod opening;
mod ready;
mod sending;

pub use commands::{TaskOutcome, buffered, is_pipe, is_unwatched, piped};
pub use executing::{execute, execute_given};
