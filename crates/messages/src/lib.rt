//! What is said of a refused text, image, program or proof table, of runs without an action, of a
//! frame stream's fault, and of a file that failed: for the command line a line on standard output,
//! and a message on standard error, a refusal's with its position and a hint; for a caller's buffer
//! the same as one message.
#![tactic(auto)]

mod causes;
mod entries;
mod faults;
mod forms;
mod invalid;
mod lines;
mod names;
mod reasons;
mod rejections;
mod stopped;
mod table_texts;
mod texts;
mod whole_texts;

pub use causes::{Conflict, STANDARD_OUTPUT, say_conflict, say_failed_write, say_unread};
pub use entries::entry_of;
pub use faults::say_fault;
pub use forms::{FileForm, file_form_of};
pub use invalid::lines_of_invalid;
pub use lines::{image_line, maps_line, table_line, text_line, verdict_line};
pub use reasons::reason;
pub use rejections::Rejection;
pub use stopped::lines_of_stops;
pub use table_texts::table_text;
pub use texts::write_texts;
pub use whole_texts::{image_text, program_text, source_text};
