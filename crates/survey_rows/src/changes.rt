//! The differences from an earlier survey.

use crate::cells::{ColumnHead, RowCell, cell_text};
use crate::columns::{COLUMNS, Column};
use crate::earlier::{Earlier, EarlierError};
use crate::matching::{Match, Matching};
use crate::rows::Row;
use csv::ByteRecord;
use std::alloc::{AllocError, Global};
use std::io::Read;

const HEADS: [ColumnHead; 5] = [
    ColumnHead {
        name: "file",
        is_left: true,
        width: 0,
    },
    ColumnHead {
        name: "column",
        is_left: true,
        width: 0,
    },
    ColumnHead {
        name: "old",
        is_left: false,
        width: 0,
    },
    ColumnHead {
        name: "new",
        is_left: false,
        width: 0,
    },
    ColumnHead {
        name: "difference",
        is_left: false,
        width: 0,
    },
];

/// A field as a text, which is empty where the field is not UTF-8.
fn text_of(alloc: Global, field: &[u8]) -> Result<String, AllocError> {
    String::from_str(alloc, std::str::from_utf8(field).unwrap_or(""))
}

/// A field as a cell.
fn cell_of(alloc: Global, field: &str) -> Result<RowCell, AllocError> {
    if let Ok(number) = field.parse::<u64>() {
        return Ok(RowCell::Number(number));
    }
    match field {
        "" => Ok(RowCell::Nothing),
        text => Ok(RowCell::Text(String::from_str(alloc, text)?)),
    }
}

/// By how much a number changed, with its sign.
fn difference(alloc: Global, old: &RowCell, new: &RowCell) -> Result<RowCell, AllocError> {
    match (old, new) {
        (RowCell::Number(old), RowCell::Number(new)) => {
            let (old, new) = (*old, *new);
            let sign = if new < old { "-" } else { "+" };
            let by = new.abs_diff(old);
            Ok(RowCell::Text(format!(in alloc; "{sign}{by}")?))
        }
        _ => Ok(RowCell::Nothing),
    }
}

/// A text as a cell.
fn text_cell(alloc: Global, text: &str) -> Result<RowCell, AllocError> {
    Ok(RowCell::Text(String::from_str(alloc, text)?))
}

/// A row that says what changed.
fn change_row(
    alloc: Global,
    file: &str,
    column: Column,
    old: RowCell,
    new: RowCell,
) -> Result<Vec<RowCell>, AllocError> {
    let by = difference(alloc, &old, &new)?;
    let file = text_cell(alloc, file)?;
    let column = text_cell(alloc, column.name())?;
    Ok(vec![in alloc; file, column, old, new, by]?)
}

/// A cell that changed.
#[derive(Drop)]
struct Change {
    column: Column,
    /// Says what the earlier survey has there.
    old: String,
}

/// Says what is known of a row of the earlier survey.
#[derive(Drop)]
struct OldRow {
    file: String,
    verdict: String,
}

/// A row of the earlier survey for an image that was surveyed.
#[derive(Drop)]
struct Found {
    /// Says whether it has the same path, and not only the same name in another folder.
    is_same_path: bool,
    row: OldRow,
    changes: Vec<Change>,
}

/// The differences from an earlier survey.
#[derive(Drop)]
pub struct Changes<'a> {
    surveyed: &'a [Row],
    matching: Matching<'a>,
    /// Says what the earlier survey has of each image that was surveyed, at the first row of its
    /// path.
    found: Vec<Option<Found>>,
    /// The images that are gone.
    gone: Vec<OldRow>,
}

/// The text of a row in a column.
fn row_text(alloc: Global, row: &Row, column: Column) -> Result<String, AllocError> {
    cell_text(alloc, &row.cell(alloc, column)?)
}

/// Returns what changed for an image, in all columns but its file and the times.
fn changes_of<S: Read + Drop>(
    alloc: Global,
    earlier: &Earlier<S>,
    old_row: &ByteRecord,
    row: &Row,
) -> Result<Vec<Change>, AllocError> {
    let mut changes = Vec::new(alloc);
    for column in COLUMNS {
        if column == Column::File || column.is_time() {
            continue;
        }
        if let Some(old) = earlier.field(old_row, column) {
            if row_text(alloc, row, column)?.as_bytes() != old {
                let old = text_of(alloc, old)?;
                changes.push(Change { column, old })?;
            }
        }
    }
    Ok(changes)
}

/// The file and the verdict of a row of the earlier survey.
fn old_row_of<S: Read + Drop>(
    alloc: Global,
    earlier: &Earlier<S>,
    row: &ByteRecord,
) -> Result<OldRow, AllocError> {
    let file = text_of(alloc, earlier.file(row))?;
    let verdict = text_of(alloc, earlier.field(row, Column::Verdict).unwrap_or(b""))?;
    Ok(OldRow { file, verdict })
}

/// No row yet of each of this many files.
fn none_yet(alloc: Global, count: usize) -> Result<Vec<Option<Found>>, AllocError> {
    let mut found = Vec::with_capacity(alloc, count)?;
    for _ in 0..count {
        found.push(None)?;
    }
    Ok(found)
}

impl<'a> Changes<'a> {
    /// Of a survey, with no row yet of the earlier one.
    fn none(alloc: Global, surveyed: &'a [Row]) -> Result<Self, AllocError> {
        Ok(Changes {
            surveyed,
            matching: Matching::of(alloc, surveyed)?,
            found: none_yet(alloc, surveyed.len())?,
            gone: Vec::new(alloc),
        })
    }

    /// Keeps a row of the earlier survey for an image: the first one with its path, or, if there is
    /// none, the first one with its name. One that is not kept, and has another path, is gone.
    fn keep(&mut self, index: usize, new: Found) -> Result<(), AllocError> {
        let Some(place) = self.found.get_mut(index) else {
            return Ok(());
        };
        match place.take() {
            None => *place = Some(new),
            Some(kept) if new.is_same_path && !kept.is_same_path => {
                *place = Some(new);
                self.gone.push(kept.row)?;
            }
            Some(kept) => {
                *place = Some(kept);
                if !new.is_same_path {
                    self.gone.push(new.row)?;
                }
            }
        }
        Ok(())
    }

    /// Takes a row of the earlier survey.
    fn take_row<S: Read + Drop>(
        &mut self,
        alloc: Global,
        earlier: &Earlier<S>,
        matched: Option<Match>,
        old_row: &ByteRecord,
    ) -> Result<(), AllocError> {
        let row = old_row_of(alloc, earlier, old_row)?;
        let surveyed = self.surveyed;
        let Some(
            Match {
                index,
                is_same_path,
            },
        ) = matched
        else {
            self.gone.push(row)?;
            return Ok(());
        };
        if let Some(new) = surveyed.get(index) {
            let changes = changes_of(alloc, earlier, old_row, new)?;
            self.keep(
                index,
                Found {
                    is_same_path,
                    row,
                    changes,
                },
            )?;
        }
        Ok(())
    }

    /// Takes all rows that are left of the earlier survey.
    fn take_rows<S: Read + Drop>(
        &mut self,
        alloc: Global,
        earlier: &mut Earlier<S>,
    ) -> Result<(), EarlierError> {
        for _ in 0..u64::MAX {
            let Some(row) = earlier.next(alloc)? else {
                break;
            };
            let matched = self.matching.find(earlier.file(&row));
            self.take_row(alloc, earlier, matched, &row)?;
        }
        Ok(())
    }

    /// Returns how many images there are, surveyed or gone.
    pub fn len(&self) -> usize {
        self.surveyed.len().saturating_add(self.gone.len())
    }

    /// Adds the rows of a surveyed image: one for each cell that changed, or one if it is new.
    fn add_surveyed(
        &self,
        alloc: Global,
        index: usize,
        row: &Row,
        rows: &mut Vec<Vec<RowCell>>,
    ) -> Result<(), AllocError> {
        let file = row.file.as_str();
        let first = self.matching.first_of(file).unwrap_or(index);
        let Some(Some(found)) = self.found.get(first) else {
            let verdict = row.cell(alloc, Column::Verdict)?;
            rows.push(change_row(alloc, file, Column::Verdict, RowCell::Nothing, verdict)?)?;
            return Ok(());
        };
        for change in &found.changes {
            let old = cell_of(alloc, change.old.as_str())?;
            let new = row.cell(alloc, change.column)?;
            rows.push(change_row(alloc, file, change.column, old, new)?)?;
        }
        Ok(())
    }

    /// Adds the row of an image that is gone.
    fn add_gone(
        &self,
        alloc: Global,
        index: usize,
        rows: &mut Vec<Vec<RowCell>>,
    ) -> Result<(), AllocError> {
        if let Some(row) = self.gone.get(index) {
            let verdict = cell_of(alloc, row.verdict.as_str())?;
            let file = row.file.as_str();
            rows.push(change_row(alloc, file, Column::Verdict, verdict, RowCell::Nothing)?)?;
        }
        Ok(())
    }

    /// The rows of some images: a row for each cell that changed, for each image that is new, and
    /// for each one that is gone.
    pub fn rows(
        &self,
        alloc: Global,
        from: usize,
        to: usize,
    ) -> Result<Vec<Vec<RowCell>>, AllocError> {
        let mut rows = Vec::new(alloc);
        for index in from..to {
            match self.surveyed.get(index) {
                Some(row) => self.add_surveyed(alloc, index, row, &mut rows)?,
                None => {
                    let gone = index.saturating_sub(self.surveyed.len());
                    self.add_gone(alloc, gone, &mut rows)?;
                }
            }
        }
        Ok(rows)
    }
}

/// The heads of the rows that say what changed.
pub fn change_heads(alloc: Global) -> Result<Vec<ColumnHead>, AllocError> {
    Vec::from_slice(alloc, &HEADS)
}

/// The differences from an earlier survey, which is read from its CSV. Times are not compared.
///
/// A row of it is that of the surveyed image with the same path, and else of the one image of a
/// folder that has the same name, whatever the folder is called. Of each row the path, the verdict
/// and what changed are kept, and no row that is longer than 1 MiB is read to its end.
pub fn changes_since<'a, S: Read + Drop>(
    alloc: Global,
    source: S,
    surveyed: &'a [Row],
) -> Result<Changes<'a>, EarlierError> {
    let mut earlier = Earlier::begin(alloc, source)?;
    let mut changes = Changes::none(alloc, surveyed)?;
    changes.take_rows(alloc, &mut earlier)?;
    Ok(changes)
}
