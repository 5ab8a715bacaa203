//! Why a text is no program.

ghost use Rattle.std.specs.Prelude.{◌≡◌, Some};
ghost use Rattle.assembler.specs.Messages.{code_of, sentence_of};

use std::error::Error;
use std::fmt;

/// Says what is wrong with a text.
#[derive(Clone, Copy, PartialEq, Eq, Debug)]
pub enum AsmErrorKind {
    /// A byte that begins no token.
    UnknownByte,
    /// No form fits the statement.
    NoForm,
    /// A number out of range.
    OutOfRange,
    /// A name that is defined already.
    DefinedTwice,
    /// A name that is not defined.
    NotDefined,
    /// A name too far away for the jump.
    TooFar,
    /// A map line after an instruction, a 17th one, or one out of the limits of map rows.
    MapLine,
    /// An index that no map line has.
    NoMap,
    /// A pointer into the value of a map that is not an array of one key.
    NotOneValue,
    /// An offset that is not below the size of the map's values.
    PastValue,
    /// A version line that is not the first statement.
    LateVersion,
    /// Out of memory.
    Memory,
    /// No instruction, or more than 4,096 slots.
    SlotCount,
}

impl AsmErrorKind {
    /// Its code in docs/REFUSALS.md, such as `A1`.
    pub fn code(self) -> &'static str
        ensures { result.now ≡ code_of self }
    {
        match self {
            AsmErrorKind::UnknownByte => "A1",
            AsmErrorKind::NoForm => "A2",
            AsmErrorKind::OutOfRange => "A3",
            AsmErrorKind::DefinedTwice => "A4",
            AsmErrorKind::NotDefined => "A5",
            AsmErrorKind::TooFar => "A6",
            AsmErrorKind::MapLine | AsmErrorKind::NoMap => "A7",
            AsmErrorKind::NotOneValue | AsmErrorKind::PastValue => "A10",
            AsmErrorKind::LateVersion => "A11",
            AsmErrorKind::Memory => "A8",
            AsmErrorKind::SlotCount => "A9",
        }
    }

    /// Returns what is wrong, in a sentence.
    pub fn sentence(self) -> &'static str
        ensures { result.now ≡ sentence_of self }
    {
        match self {
            AsmErrorKind::UnknownByte => "the byte begins no token",
            AsmErrorKind::NoForm => "no form fits the statement",
            AsmErrorKind::OutOfRange => "the number is out of range",
            AsmErrorKind::DefinedTwice => "the name is defined already",
            AsmErrorKind::NotDefined => "the name is not defined",
            AsmErrorKind::TooFar => "the name is too far away for the jump",
            AsmErrorKind::MapLine => {
                "the map line comes after an instruction, is the 17th or is out of the limits"
            }
            AsmErrorKind::NoMap => "no map line has this index",
            AsmErrorKind::NotOneValue => "the map is not an array of one entry",
            AsmErrorKind::PastValue => "the offset is not below the size of the map's values",
            AsmErrorKind::LateVersion => "the version line is not the first statement",
            AsmErrorKind::Memory => "out of memory",
            AsmErrorKind::SlotCount => "the text has no instruction, or more than 4096 slots",
        }
    }
}

/// Writes the sentence.
impl fmt::Display for AsmErrorKind {
    ghost output = { λ error. Some (sentence_of error) };

    fn fmt<W: fmt::Write>(&self, f: &mut fmt::Formatter<W>) -> fmt::Result {
        f.write_str(self.sentence())
    }
}

impl Error for AsmErrorKind {}

/// Says why a text is no program, and where: lines and columns count from 1, columns in bytes.
#[derive(Clone, Copy, PartialEq, Eq, Debug)]
pub struct AsmError {
    pub kind: AsmErrorKind,
    pub line: usize,
    pub column: usize,
}

/// Writes the sentence, and the line and the column after it.
impl fmt::Display for AsmError {
    ghost use Rattle.std.specs.Prelude.{◌++◌, codes, decimal};

    ghost output = { λ error. Some (sentence_of error.kind
        ++ codes ", line " ++ decimal error.line ++ codes " column " ++ decimal error.column) };

    fn fmt<W: fmt::Write>(&self, f: &mut fmt::Formatter<W>) -> fmt::Result {
        let kind = self.kind;
        let line = self.line;
        let column = self.column;
        write!(f, "{kind}, line {line} column {column}")
    }
}

impl Error for AsmError {}
