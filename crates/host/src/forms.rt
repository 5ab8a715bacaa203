//! What the lines of a report depend on besides the runs.

use isa_model::Version;

/// The limit of steps of a run, and the versions of the program and of the stream.
#[derive(Clone, Copy)]
pub struct ReportForm {
    pub limit: u32,
    pub program: Version,
    pub stream: Version,
}
