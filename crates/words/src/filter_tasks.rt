//! What xdpvm_filter is asked to do, and why its arguments ask for nothing.

use super::tasks::{RunPaths, StepLimit};
use std::alloc::AllocError;

/// Says what is done with a program before it runs.
#[derive(Clone, Copy)]
pub enum Judging<'a> {
    /// It is verified.
    Verified,
    /// The proof table at the path is tested.
    Shown(&'a str),
    /// Nothing; every access is tested while it runs, with this limit of steps.
    Checked(StepLimit),
}

/// A run of a program on a frame stream.
#[derive(Clone, Copy)]
pub struct FilterTask<'a> {
    /// The image, the frames, and the frames out. `-` is standard input and standard output.
    pub paths: RunPaths<'a>,
    pub judging: Judging<'a>,
    /// The text that fills the maps before the first frame.
    pub maps: Option<&'a str>,
    /// Gets what the maps hold after the last frame.
    pub maps_out: Option<&'a str>,
    /// Gets the report.
    pub report: Option<&'a str>,
}

/// Says what frames become that are written again.
#[derive(Clone, Copy)]
pub enum FramesKind {
    Pcap,
    Pcapng,
    /// A frame stream of version 1.
    Stream,
    /// A frame stream of version 2, with reasons.
    Reasoned,
    Text,
}

/// Frames that are written again, and nothing else is done with them.
#[derive(Clone, Copy)]
pub struct ConvertTask<'a> {
    /// A frame stream or a capture. `-` is standard input.
    pub frames: &'a str,
    /// Gets the frames. `-` is standard output.
    pub out: &'a str,
    /// What they become, if the name of the output is not asked.
    pub kind: Option<FramesKind>,
    /// Whether a frame stream that they become has reasons.
    pub has_reasons: bool,
    /// The interface that all of them came in by; else each of them says it.
    pub interface: Option<u32>,
    /// The queue that all of them came in by; else each of them says it.
    pub queue: Option<u32>,
}

/// Says what xdpvm_filter is asked to do.
#[derive(Clone, Copy)]
pub enum OperatorTask<'a> {
    /// Run a program on a frame stream.
    Filter(FilterTask<'a>),
    /// Write frames again.
    Convert(ConvertTask<'a>),
}

/// Says why the arguments ask for nothing.
#[derive(Drop)]
pub enum FilterWordsError {
    /// They ask for the help or the version, which this is, in whole lines.
    Shown(String),
    /// They are invalid. With the message, in whole lines.
    Wrong(String),
    Memory,
}

impl From<AllocError> for FilterWordsError {
    ghost use Rattle.std.specs.Prelude.{◌≡◌};
    ghost use Rattle.words.specs.declared.filter_tasks.FilterWordsError.TheVariants.{Memory};

    ghost from_gives = { λ _ e. e ≡ Memory };

    fn from(_error: AllocError) -> FilterWordsError {
        FilterWordsError::Memory
    }
}
