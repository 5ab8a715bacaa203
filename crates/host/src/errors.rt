//! Errors: why a run over a stream stopped before its last line.

ghost use Rattle.std.specs.Prelude.{◌≡◌, Some};
ghost use Rattle.host.specs.Messages.{code_of, sentence_of};

use std::error::Error;
use std::fmt;

/// Says why a run over a stream stopped before its last line.
#[derive(Clone, Copy, PartialEq, Eq, Debug)]
pub enum HostError {
    /// Out of memory, before any byte was written.
    Memory,
    /// The report's writer returned an error, or took none of the bytes.
    Report,
    /// The frames out's writer returned an error, or took none of the bytes.
    Frames,
}

impl HostError {
    /// Its code in docs/REFUSALS.md, such as `H1`.
    pub fn code(self) -> &'static str
        ensures { result.now ≡ code_of self }
    {
        match self {
            HostError::Memory => "H1",
            HostError::Report => "H2",
            HostError::Frames => "H3",
        }
    }

    /// Returns what is wrong, in a sentence.
    pub fn sentence(self) -> &'static str
        ensures { result.now ≡ sentence_of self }
    {
        match self {
            HostError::Memory => "out of memory",
            HostError::Report => "the report cannot be written",
            HostError::Frames => "the frames out cannot be written",
        }
    }
}

/// Writes the sentence.
impl fmt::Display for HostError {
    ghost output = { λ error. Some (sentence_of error) };

    fn fmt<W: fmt::Write>(&self, f: &mut fmt::Formatter<W>) -> fmt::Result {
        f.write_str(self.sentence())
    }
}

impl Error for HostError {}
