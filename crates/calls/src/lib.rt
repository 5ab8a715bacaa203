//! The calls from C and Rust, as functions that C does not see; `xdpvm_c` exports them.
//!
//! They verify an image and test a proof table (`judging`, `rechecks`), run a program once on a
//! packet or over a stream (`running`, `tracing`, `streaming`), say what an image has and change
//! between text and image (`describing`, `assembling`, `disassembling`), and keep a program open
//! (`sessions`): open and close it (`opening`), run it (`session_runs`, `session_streams`), and
//! change, fill and list its maps (`map_calls`, `filling`, `listing`).
//!
//! Each call tests its arguments, and returns a status of `statuses`. What a status means is in the
//! clauses, whose definitions are in `specs`. Structs that cross are `#[repr(C)]`.
#![tactic(auto)]

pub mod assembling;
pub mod buffers;
pub mod clocks;
pub mod describing;
pub mod disassembling;
pub mod filling;
pub mod judging;
pub mod listing;
mod loose;
pub mod map_calls;
pub mod naming;
pub mod numbers;
pub mod opening;
pub mod rechecks;
pub mod running;
pub mod session_runs;
pub mod session_streams;
mod sessions;
pub mod statuses;
pub mod streaming;
pub mod tracing;

pub use sessions::Session;
