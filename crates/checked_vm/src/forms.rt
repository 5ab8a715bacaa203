//! What each form of instruction does, once its registers are set.

pub mod arithmetic;
pub mod atomics;
pub mod calls;
pub mod helper_calls;
pub mod jumps;
pub mod memory;
