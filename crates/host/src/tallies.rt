//! The tally of a run over a stream.

use isa_model::Fault;

/// Says what a report's last line shows.
#[derive(Clone, Copy, PartialEq, Eq, Debug)]
pub struct Tally {
    /// Says how many packet frames were found; those that were not run count too.
    pub frames: u32,
    /// The fault that ended the stream, and the offset in bytes of the record in which it was
    /// found; `None` at the stream's end.
    pub fault: Option<(Fault, u64)>,
}
