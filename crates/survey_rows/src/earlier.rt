//! An earlier survey, read row by row from its CSV.

use crate::columns::Column;
use csv::{ByteRecord, Error, Reader, ReaderBuilder};
use std::alloc::{AllocError, Global};
use std::io;
use std::io::{ErrorKind, Read};

/// More bytes than a row of a survey has, of which the longest field is a path.
const PAST_ANY_ROW: usize = 1 << 20;

/// Says why a survey cannot be compared with an earlier one.
#[derive(Clone, Copy, Drop)]
pub enum EarlierError {
    /// It is not CSV, or has no column `file`.
    NoSurvey,
    /// It cannot be read.
    Unread(ErrorKind),
    Memory,
}

impl From<AllocError> for EarlierError {
    ghost use Rattle.std.specs.Prelude.{◌≡◌};
    ghost use Rattle.survey_rows.specs.declared.earlier.EarlierError.TheVariants.{Memory};

    ghost from_gives = { λ _ e. e ≡ Memory };

    fn from(_error: AllocError) -> EarlierError {
        EarlierError::Memory
    }
}

/// A source of rows. A row that is longer than any of a survey is no data: its read fails.
#[derive(Drop)]
struct RowSource<S> {
    source: S,
    /// Says how many bytes came after the last end of a line.
    length: usize,
}

/// Returns how many bytes come after the last end of a line, if `length` of them came before these.
fn length_after(length: usize, bytes: &[u8]) -> usize {
    match bytes
        .iter()
        .rposition(|byte| matches!(*byte, b'\n' | b'\r'))
    {
        Some(at) => bytes.len() - at,
        None => length.saturating_add(bytes.len()),
    }
}

impl<S: Read> Read for RowSource<S> {
    fn read(&mut self, buffer: &mut [u8]) -> io::Result<usize> {
        let count = self.source.read(buffer)?;
        self.length = length_after(self.length, &buffer[..count]);
        if self.length > PAST_ANY_ROW {
            return Err(io::Error::from(ErrorKind::InvalidData));
        }
        Ok(count)
    }
}

fn error_of(error: &Error) -> EarlierError {
    let kind = match error.kind() {
        csv::ErrorKind::OutOfMemory => ErrorKind::OutOfMemory,
        csv::ErrorKind::Io(error) => error.kind(),
        _ => ErrorKind::InvalidData,
    };
    match kind {
        ErrorKind::OutOfMemory => EarlierError::Memory,
        ErrorKind::InvalidData => EarlierError::NoSurvey,
        kind => EarlierError::Unread(kind),
    }
}

/// The next row, if there is one.
fn next_of<S: Read>(
    alloc: Global,
    reader: &mut Reader<RowSource<S>>,
) -> Result<Option<ByteRecord>, EarlierError> {
    let mut row = ByteRecord::new(alloc);
    match reader.read_byte_record(&mut row) {
        Ok(true) => Ok(Some(row)),
        Ok(false) => Ok(None),
        Err(error) => Err(error_of(&error)),
    }
}

/// The index of a column among names.
fn index_of(names: &ByteRecord, column: Column) -> Option<usize> {
    for index in 0..names.len() {
        if let Some(name) = names.get(index) {
            if name == column.name().as_bytes() {
                return Some(index);
            }
        }
    }
    None
}

/// An earlier survey: the names of its columns, and what is left to read of it.
#[derive(Drop)]
pub struct Earlier<S> {
    reader: Reader<RowSource<S>>,
    names: ByteRecord,
}

impl<S: Read + Drop> Earlier<S> {
    /// The survey that a source begins with. The names of its columns are read.
    pub fn begin(alloc: Global, source: S) -> Result<Self, EarlierError> {
        let mut reader = ReaderBuilder::new()
            .has_headers(false)
            .from_reader(alloc, RowSource { source, length: 0 });
        let Some(names) = next_of(alloc, &mut reader)? else {
            return Err(EarlierError::NoSurvey);
        };
        if index_of(&names, Column::File).is_none() {
            return Err(EarlierError::NoSurvey);
        }
        Ok(Earlier { reader, names })
    }

    /// The next row, if there is one.
    pub fn next(&mut self, alloc: Global) -> Result<Option<ByteRecord>, EarlierError> {
        next_of(alloc, &mut self.reader)
    }

    /// The field of a row in a column.
    pub fn field<'a>(&self, row: &'a ByteRecord, column: Column) -> Option<&'a [u8]> {
        row.get(index_of(&self.names, column)?)
    }

    /// The file of a row.
    pub fn file<'a>(&self, row: &'a ByteRecord) -> &'a [u8] {
        self.field(row, Column::File).unwrap_or(b"")
    }
}
