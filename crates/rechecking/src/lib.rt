//! Proof tables tested, with no trust in who made them.
//!
//! A table says of abstract states how many more steps a run makes from them at most, and which
//! other states of the table cover their successors. If the tests pass, every run of the program
//! meets no trap, and exits within the number of the table's first entry.
#![tactic(auto)]

pub mod changes;
pub mod entries;
pub mod errors;
pub mod rechecks;
pub mod untouched;

pub use errors::TableError;
pub use rechecks::recheck;
