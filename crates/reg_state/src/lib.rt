//! What is known of the value of a register or of a stack slot.
#![tactic(auto)]

mod bits_domain;
pub mod comparisons;
pub mod domains;
pub mod kinds;
mod low_bits;
mod parts;
mod range_domain;
pub mod scalars;
pub mod splices;

pub use comparisons::refine;
pub use domains::Domain;
pub use kinds::Kind;
pub use scalars::Scalar;
