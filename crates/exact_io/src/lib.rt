//! Reads and writes that say exactly what was read and written, also where they fail, a buffered
//! writer, and files that keep what they had until they are written to.
//!
//! std's `write_all` and `read_exact` do not say what was moved before a failure, and try again
//! where a call was interrupted. Here an error of any kind is the failure, nothing is tried again,
//! and it is known what was moved before it.
#![tactic(auto)]

mod buffering;
pub mod failing;
mod reading;
mod replacing;
mod writing;

pub use buffering::PromptWriter;
pub use reading::{Filled, fill};
pub use replacing::{Replaced, open_appended, open_replaced};
pub use writing::write_bytes;
