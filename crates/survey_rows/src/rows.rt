//! The rows of a survey.

ghost use Rattle.std.specs.Prelude.{◌≡◌, false, length, IfOk, IsPermutation};

use crate::cells::{ColumnHead, Grid, RowCell};
use crate::columns::Column;
use std::alloc::{AllocError, Global};

/// Says how an image was judged.
#[derive(Clone, Copy, Drop)]
pub enum Judgement {
    Accepted,
    /// With the code of the refusal.
    Refused(&'static str),
    /// Its file or folder cannot be read, or only in part.
    Unreadable,
    /// Memory ran out before there was a verdict, or the proof table that is wanted.
    NoMemory,
}

impl Judgement {
    /// The text that says it in a row.
    pub fn name(self) -> &'static str {
        match self {
            Judgement::Accepted => "ok",
            Judgement::Refused(code) => code,
            Judgement::Unreadable => "unreadable",
            Judgement::NoMemory => "memory",
        }
    }

    /// Returns whether the image is refused.
    pub fn is_refused(self) -> bool {
        matches!(self, Judgement::Refused(_))
    }
}

/// Says what was counted and measured of an image, and the slot at which it is refused.
#[derive(Clone, Copy, Default, Drop)]
pub struct Counts {
    pub slot: Option<u64>,
    pub slots: Option<u64>,
    pub maps: Option<u64>,
    pub bound: Option<u64>,
    pub explored: Option<u64>,
    pub stored: Option<u64>,
    pub deepest: Option<u64>,
    pub stored_bytes: Option<u64>,
    pub microseconds: Option<u64>,
    pub table_bytes: Option<u64>,
    pub prove_microseconds: Option<u64>,
    pub recheck_microseconds: Option<u64>,
}

/// An image with its verdict, or a folder that cannot be read, or only in part.
#[derive(Drop)]
pub struct Row {
    pub file: String,
    /// Says whether the image was found in a folder that was given, and not given itself.
    pub is_in_folder: bool,
    pub verdict: Judgement,
    pub counts: Counts,
}

impl Counts {
    /// The number in a column, if there is one; a time in microseconds.
    pub fn number(&self, column: Column) -> Option<u64> {
        match column {
            Column::File | Column::Verdict => None,
            Column::Slot => self.slot,
            Column::Slots => self.slots,
            Column::Maps => self.maps,
            Column::Bound => self.bound,
            Column::Explored => self.explored,
            Column::Stored => self.stored,
            Column::Deepest => self.deepest,
            Column::StoredBytes => self.stored_bytes,
            Column::Milliseconds => self.microseconds,
            Column::TableBytes => self.table_bytes,
            Column::ProveMilliseconds => self.prove_microseconds,
            Column::RecheckMilliseconds => self.recheck_microseconds,
        }
    }
}

impl Row {
    /// The cell in a column.
    pub fn cell(&self, alloc: Global, column: Column) -> Result<RowCell, AllocError> {
        match column {
            Column::File => Ok(RowCell::Text(String::from_str(alloc, self.file.as_str())?)),
            Column::Verdict => Ok(RowCell::Text(String::from_str(alloc, self.verdict.name())?)),
            _ => match self.counts.number(column) {
                Some(number) if column.is_time() => Ok(RowCell::Thousandths(number)),
                Some(number) => Ok(RowCell::Number(number)),
                None => Ok(RowCell::Nothing),
            },
        }
    }

    fn cells(&self, alloc: Global, columns: &[Column]) -> Result<Vec<RowCell>, AllocError> {
        let mut cells = Vec::new(alloc);
        for column in columns {
            cells.push(self.cell(alloc, *column)?)?;
        }
        Ok(cells)
    }
}

/// The heads of columns, with room for file paths of this number of characters.
fn heads_of(
    alloc: Global,
    columns: &[Column],
    longest: usize,
) -> Result<Vec<ColumnHead>, AllocError> {
    let mut heads = Vec::new(alloc);
    for column in columns {
        let width = match *column {
            Column::File => longest,
            other => other.width(),
        };
        heads.push(ColumnHead {
            name: column.name(),
            is_left: matches!(*column, Column::File | Column::Verdict),
            width,
        })?;
    }
    Ok(heads)
}

/// Says how rows are chosen and laid out.
#[derive(Drop)]
pub struct RowLayout {
    pub columns: Vec<Column>,
    /// Says how many characters the longest path of a file has, but at least as many as the name of
    /// its column.
    pub longest: usize,
    pub only_refused: bool,
}

/// The rows that are chosen: all, or those of refused images.
pub fn grid_of(alloc: Global, rows: &[Row], layout: &RowLayout) -> Result<Grid, AllocError>
    ensures all { IfOk result (λ grid. layout.now.only_refused ≡ false
        → length grid.rows.items ≡ length rows.now) }
{
    let columns = layout.columns.as_slice();
    let heads = heads_of(alloc, columns, layout.longest)?;
    let mut chosen = Vec::new(alloc);
    for row in rows {
        if !layout.only_refused || row.verdict.is_refused() {
            chosen.push(row.cells(alloc, columns)?)?;
        }
    }
    Ok(Grid {
        heads,
        rows: chosen,
    })
}

/// Sorts rows by a column: texts from the first to the last, numbers from the greatest to the
/// least, and rows without a number at the end. Rows that are equal there keep their order.
pub fn sort(rows: &mut Vec<Row>, column: Column) -> Result<(), AllocError>
    ensures all { IsPermutation rows.old.items rows.new.items }
{
    match column {
        Column::File => rows.sort_by(|one, other| one.file.as_str().cmp(other.file.as_str())),
        Column::Verdict => {
            rows.sort_by(|one, other| one.verdict.name().cmp(other.verdict.name()))
        }
        _ => rows.sort_by(|one, other| other.counts.number(column).cmp(&one.counts.number(column))),
    }
}
