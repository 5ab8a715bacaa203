//! What listens to the search of `explorer`: the explanation of a refusal, and a limit on how many
//! instructions are explored; and a verdict with the path to a refusal.
#![tactic(auto)]

pub mod explaining;
pub mod limited;
pub mod rejections;
pub mod turns;

pub use explaining::explain;
pub use limited::{NoBound, verify_within};
pub use rejections::{Rejected, SearchPath, Unverified, verify_followed};
