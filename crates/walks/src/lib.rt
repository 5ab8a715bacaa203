//! Walks through abstract states, and why a program is refused.
//!
//! `specs/Walks.antt` defines walks, `Counts` the numbers of states and how many instructions are
//! explored, `Refused` what each refusal says of a program, and `Explained` what an explanation of
//! it says. The laws in `proofs/` hold for any search that refuses so: plain, determined and
//! guarded programs are refused only when memory runs out, or where an exit of version 2 is not
//! shown to answer with an action.
#![tactic(auto)]

mod explained;
pub mod forgetting;
mod numbers;
pub mod refusals;

pub use explained::{Explanation, Jump, MOST_JUMPS, SearchLimit};
pub use forgetting::{forget, forget_all, forget_beside, kept_slots, may_forget_all};
pub use refusals::Refusal;
