//! The machine for accepted programs: every run exits.
#![tactic(auto)]

pub mod following;
pub mod machines;

pub use following::words_follow_states;
pub use machines::{Exit, Machine};
pub use maps::MapError as VmError;
