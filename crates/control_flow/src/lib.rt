//! The control flow of programs: the successors of slots, the functions that slots belong to, and
//! what is live at each slot.
//!
//! `specs/Graph.antt` has the graph, `specs/Functions.antt` the functions, `specs/Liveness.antt`
//! what is live, `specs/TestedNumbers.antt` which numbers matter, and `specs/Flows.antt` which
//! programs are good.
#![tactic(auto)]

mod accesses;
mod deciding;
mod endings;
pub mod errors;
pub mod flows;
mod functions;
mod homes;
pub mod kept_numbers;
mod liveness;
mod loops;
mod marks;
pub mod masks;
mod nodes;
mod number_passes;
mod reachability;
mod searches;
pub mod slot_masks;
mod sources;
mod stack_accesses;
mod targets;
mod wanted;

pub use errors::FlowError;
pub use flows::Flow;
pub use kept_numbers::KeptNumbers;
pub use masks::RegisterMask;
pub use slot_masks::SlotMask;
