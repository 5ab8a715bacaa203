//! Why a table was not written.

ghost use Rattle.std.specs.Prelude.{◌≡◌, Some};
ghost use Rattle.table_entries.specs.Messages.{code_of, sentence_of};

use std::error::Error;
use std::fmt;
use std::io::ErrorKind;

/// Says why a table was not written, or only in part.
#[derive(Clone, Copy, PartialEq, Eq, Debug)]
pub enum WriteTableError {
    /// Memory ran out.
    Memory,
    /// The verifier refuses the program, or finds a state that no table can spell. It does not
    /// refuse a program that it accepted before.
    Explored,
    /// The writer returned an error of this kind, or it took none of the bytes that it was given:
    /// `ErrorKind::WriteZero`.
    Writer(ErrorKind),
}

impl WriteTableError {
    /// Its code in docs/REFUSALS.md, such as `P11`.
    pub fn code(self) -> &'static str
        ensures { result.now ≡ code_of self }
    {
        match self {
            WriteTableError::Memory => "P9",
            WriteTableError::Explored => "P10",
            WriteTableError::Writer(_) => "P11",
        }
    }

    /// Returns what is wrong, in a sentence.
    pub fn sentence(self) -> &'static str
        ensures { result.now ≡ sentence_of self }
    {
        match self {
            WriteTableError::Memory => "out of memory",
            WriteTableError::Explored => "the program cannot be explored again",
            WriteTableError::Writer(_) => "the table cannot be written",
        }
    }
}

/// Writes the sentence.
impl fmt::Display for WriteTableError {
    ghost output = { λ error. Some (sentence_of error) };

    fn fmt<W: fmt::Write>(&self, f: &mut fmt::Formatter<W>) -> fmt::Result {
        f.write_str(self.sentence())
    }
}

impl Error for WriteTableError {}
