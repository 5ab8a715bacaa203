//! What xdpvm_survey can be asked for: a survey, or a log, a listing or a graph of one image, or
//! what its runs on packet frames did.

use super::tasks::StepLimit;
use survey_rows::Column;

/// Says how rows are written.
#[derive(Clone, Copy, PartialEq, Eq, Debug, Drop)]
pub enum Format {
    Table,
    Csv,
    Json,
}

/// A survey of images.
#[derive(Drop)]
pub struct Survey<'a> {
    /// Images, and folders of them.
    pub paths: Vec<&'a str>,
    pub format: Format,
    pub sort: Option<Column>,
    pub only_refused: bool,
    pub has_header: bool,
    /// The CSV of an earlier survey, to compare with.
    pub earlier: Option<&'a str>,
    /// The folder for the proof tables of accepted images.
    pub tables: Option<&'a str>,
    /// Says how many bytes a table may have that is written.
    pub most: Option<u64>,
}

/// Says which part of a log is printed.
#[derive(Clone, Copy, Drop)]
pub struct LogPart {
    /// The slot whose states are printed, if not those at all slots.
    pub slot: Option<usize>,
    /// Says how many states are printed at most.
    pub states: u64,
}

/// An image that is run on a frame stream, with all checks.
#[derive(Clone, Copy, Drop)]
pub struct RunAsked<'a> {
    pub image: &'a str,
    pub frames: &'a str,
    /// The text that fills the maps before the first frame.
    pub maps: Option<&'a str>,
    pub limit: StepLimit,
}

/// Says what is asked for.
#[derive(Drop)]
pub enum SurveyAsked<'a> {
    Survey(Survey<'a>),
    /// The instructions that the search explores of an image, or a part of them.
    Log(&'a str, LogPart),
    /// A page on what the search explores of an image.
    Page(&'a str),
    /// The listing of an image.
    Listing(&'a str),
    /// The graph of an image's basic blocks.
    Graph(&'a str),
    /// How often each instruction is run over the frames of a stream.
    Hits(RunAsked<'a>, Format),
    /// The run of the frame of this number, step by step; as JSON, or as text.
    Steps(RunAsked<'a>, u32, bool),
}
