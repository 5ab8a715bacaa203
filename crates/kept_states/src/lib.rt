//! How the states are kept that the search of `explorer` has stored and those that wait, as parts.
//!
//! Parts that two states have alike are shared; of a state that waits, what it changed is kept in
//! place of a copy. `specs/Groups.antt` and `specs/Pending.antt` say which state what is kept is.
#![tactic(auto)]

mod around;
mod blanks;
mod callers;
mod changes;
mod changing;
mod constants;
mod differences;
mod earlier_numbers;
mod earlier_parts;
mod groups;
mod held_places;
mod kept;
mod kept_frames;
mod latest;
mod of_two;
mod others;
mod part_changes;
mod pending;
mod proved_bytes;
mod shared_parts;
mod signed_limits;

pub use callers::{Callers, keep_callers};
pub use groups::FEW;
pub use kept::{Kept, PLACES};
pub use others::{Other, Others};
pub use pending::PendingStates;
pub use proved_bytes::has_proved;
