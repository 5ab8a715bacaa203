//! Limits of numbers and of their low halves, read without and with a sign, and the results of
//! instructions on them.
#![tactic(auto)]

mod arithmetic;
mod divisions;
mod extensions;
mod halves;
mod joint;
pub mod low;
mod low_relations;
mod operations;
pub mod range;
mod relations;
mod shifts;
mod sums;
pub mod wide;

pub use low::Low;
pub use range::Range;
pub use wide::Wide;
