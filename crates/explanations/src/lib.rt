//! What is known where a program or a table is refused, as text.
#![tactic(auto)]

mod cases;
mod differences;
mod entries;
mod flows;
mod fronts;
mod kinds;
mod lines;
mod loops;
mod mismatches;
mod numbers;
mod pointers;
mod slots;
mod states;
mod turns;
mod unset;
mod values;

pub use entries::{EntryReason, entry_reason};
pub use flows::flow_line;
pub use kinds::kind_words;
pub use slots::slot_line;
pub use states::lines_of;
pub use values::value_lines;
