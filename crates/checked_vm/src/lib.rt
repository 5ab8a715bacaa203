//! A machine with tagged values: it runs any program, and stops at the first step that is not
//! defined, with the trap.
//!
//! `checked` is the machine that callers see. Under it are whole runs (`runs`), single steps with
//! the tests before them (`steps`), one function for each form of instruction (`forms`), what these
//! read and write in memory (`reads`, `memory`), and the machine's registers and call frames
//! (`core_state`). `values`, `comparisons`, `cells` and `places` compute without a machine. Each
//! function returns what the definition of its name in `isa_model` says; `negated`, `sign_extended`
//! and `reordered` return what that says of a value's number.
#![tactic(auto)]

mod cells;
pub mod checked;
mod comparisons;
mod core_state;
mod forms;
mod memory;
mod places;
mod reads;
mod runs;
mod steps;
pub mod stops;
mod values;
pub mod watching;

pub use checked::Checked;
pub use core_state::Core;
pub use maps::MapError as VmError;
pub use places::index_at;
pub use stops::RunEnd;
pub use watching::{Unwatched, Watcher};
