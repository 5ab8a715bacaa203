//! What commands do with bytes, readers, writers and files: the files that are read and written,
//! what standard output and standard error get, and how a task ends. The programs choose among
//! them.
#![tactic(auto)]

mod buffering;
mod endings;
mod files;
mod fronts;
mod images;
mod outcomes;
mod outputs;
mod reading;
mod rechecks;
mod same;
mod screens;
mod searches;
mod streams;
mod tables;
mod texts;
mod verdicts;
mod watching;

pub use buffering::{buffered, piped};
pub use endings::Ending;
pub use files::{begin_frames, open_frames, run_verified, trace, verify_file};
pub use fronts::Watched;
pub use images::{assemble_file, disassemble_file, load_image};
pub use outcomes::TaskOutcome;
pub use outputs::{create_output, create_table, keep_apart, open_standard_output};
pub use tables::{load_shown, recheck_file, run_shown};
pub use verdicts::{bound_line, judge, say_line, say_made};
pub use watching::{is_pipe, is_unwatched};
