//! Sets of numbers that share known bits, and the results of instructions on them.
#![tactic(auto)]

mod arithmetic;
pub mod bits;
mod limits;
mod logical;
mod products;
mod relations;
pub mod shifts;
mod sums;

pub use bits::Bits;
pub use shifts::spliced;
