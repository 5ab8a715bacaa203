//! The arguments on the command line, what they ask for, and what the program can be asked to do.
#![tactic(auto)]

mod asked;
mod command_line;
mod filter_asked;
mod filter_commands;
mod filter_line;
mod filter_tasks;
mod given;
mod shown;
mod survey_asked;
mod survey_line;
mod survey_reading;
mod survey_run_line;
mod survey_run_reading;
mod tasks;

pub use asked::read_words;
pub use filter_asked::read_filter_words;
pub use filter_tasks::{
    ConvertTask, FilterTask, FilterWordsError, FramesKind, Judging, OperatorTask,
};
pub use given::given_words;
pub use shown::shown_lines;
pub use survey_asked::{Format, LogPart, RunAsked, Survey, SurveyAsked};
pub use survey_reading::read_survey_words;
pub use tasks::{AssemblyPaths, NOT_UNICODE, RunPaths, StepLimit, TablePaths, Task, WordsError};
