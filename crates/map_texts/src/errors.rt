//! Why a text does not fill maps.

ghost use Rattle.std.specs.Prelude.{◌≡◌, Some};
ghost use Rattle.map_texts.specs.Messages.{code_of, hint_of, sentence_of};

use std::error::Error;
use std::fmt;

/// Says what is wrong with a text.
#[derive(Clone, Copy, PartialEq, Eq, Debug)]
pub enum MapTextErrorKind {
    /// No line of a map's key and value, and none that is passed over.
    NoForm,
    /// No map has the index.
    NoMap,
    /// A key of another size than the map's keys.
    KeySize,
    /// A value of another size than the map's values.
    ValueSize,
    /// The hash map is full, or the index is past the array's end.
    NoRoom,
    /// More bytes than a line for any map of the image needs.
    LongLine,
    /// The source returned an error.
    ReadFailed,
}

impl MapTextErrorKind {
    /// Its code in docs/REFUSALS.md, such as `M1`.
    pub fn code(self) -> &'static str
        ensures { result.now ≡ code_of self }
    {
        match self {
            MapTextErrorKind::NoForm => "M1",
            MapTextErrorKind::NoMap => "M2",
            MapTextErrorKind::KeySize => "M3",
            MapTextErrorKind::ValueSize => "M4",
            MapTextErrorKind::NoRoom => "M5",
            MapTextErrorKind::LongLine => "M6",
            MapTextErrorKind::ReadFailed => "M7",
        }
    }

    /// Returns what is wrong, in a sentence.
    pub fn sentence(self) -> &'static str
        ensures { result.now ≡ sentence_of self }
    {
        match self {
            MapTextErrorKind::NoForm => "the line does not have the form map <index> <key> <value>",
            MapTextErrorKind::NoMap => "no map has this index",
            MapTextErrorKind::KeySize => "the key has another size than the map's keys",
            MapTextErrorKind::ValueSize => "the value has another size than the map's values",
            MapTextErrorKind::NoRoom =>
                "the hash map is full, or the index is past the array's end",
            MapTextErrorKind::LongLine => "the line is longer than any line of this image's maps",
            MapTextErrorKind::ReadFailed => "the text cannot be read",
        }
    }

    /// The hint, in a line without its line feed; empty if the text cannot be read.
    pub fn hint(self) -> &'static str
        ensures { result.now ≡ hint_of self }
    {
        match self {
            MapTextErrorKind::NoForm => {
                "one space between fields, two hexadecimal digits for each byte; # begins a comment"
            }
            MapTextErrorKind::NoMap => "maps are counted from 0, in the order of the image",
            MapTextErrorKind::KeySize => "write all bytes of the key, zeros too",
            MapTextErrorKind::ValueSize => "write all bytes of the value, zeros too",
            MapTextErrorKind::NoRoom => "take fewer keys, or give the map more entries",
            MapTextErrorKind::LongLine => "look for a line feed that is missing",
            MapTextErrorKind::ReadFailed => "",
        }
    }
}

/// Writes the sentence.
impl fmt::Display for MapTextErrorKind {
    ghost output = { λ error. Some (sentence_of error) };

    fn fmt<W: fmt::Write>(&self, f: &mut fmt::Formatter<W>) -> fmt::Result {
        f.write_str(self.sentence())
    }
}

impl Error for MapTextErrorKind {}

/// Says why a text does not fill maps, and where: lines and columns count from 1, columns in bytes.
#[derive(Clone, Copy, PartialEq, Eq, Debug)]
pub struct MapTextError {
    pub kind: MapTextErrorKind,
    pub line: usize,
    pub column: usize,
}

impl MapTextError {
    /// The error of this kind, in the line with this number, at the column.
    pub fn at(kind: MapTextErrorKind, line: usize, column: usize) -> Self
        ensures { result ≡ record { kind = kind; line = line; column = column } }
    {
        MapTextError { kind, line, column }
    }
}

/// Writes the sentence, and the line and the column after it.
impl fmt::Display for MapTextError {
    ghost use Rattle.std.specs.Prelude.{◌++◌, codes, decimal};

    ghost output = { λ error. Some (sentence_of error.kind
        ++ codes ", line " ++ decimal error.line ++ codes " column " ++ decimal error.column) };

    fn fmt<W: fmt::Write>(&self, f: &mut fmt::Formatter<W>) -> fmt::Result {
        let kind = self.kind;
        let line = self.line;
        let column = self.column;
        write!(f, "{kind}, line {line} column {column}")
    }
}

impl Error for MapTextError {}
