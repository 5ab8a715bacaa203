//! The verifier: it looks for a bound on the steps of every run of a program.
//!
//! It explores abstract states from the start, depth first and the fall-through first. Where paths
//! may meet, states are stored, and a path ends at a state that a finished one covers.
//! `specs/Search.antt` says what a search knows.
#![tactic(auto)]

mod arrivals;
mod current;
pub mod listened;
mod listening;
mod long_searches;
mod look_ups;
mod moves;
mod retracing;
mod search;
mod state_trees;
mod steps;
mod stored_forms;
mod stored_states;
mod trail;
pub mod verified;

pub use bounds::Verified;
pub use kept_states::Kept;
pub use listened::{Searched, own_words, search_with, verify_with};
pub use listening::{Listener, Nobody};
pub use moves::Halt;
pub use retracing::retrace;
pub use stored_states::StoredState;
pub use trail::Courses;
pub use verified::verify;
pub use walks::Refusal;
