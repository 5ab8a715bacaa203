//! Abstract states: what is known of a run when it reaches an instruction.
#![tactic(auto)]

pub mod calls;
pub mod facts;
pub mod helpers;
pub mod identities;
pub mod live_frames;
pub mod number_stores;
pub mod slots;
pub mod stacks;
pub mod states;

pub use facts::Fact;
pub use live_frames::{frame_bytes, stack_place};
pub use slots::StackSlot;
pub use stacks::{FRAME_SLOTS, StackState};
pub use states::{AbstractFrame, MAX_CALLERS, State};
