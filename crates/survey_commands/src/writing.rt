//! Writing the rows of a survey.

use crate::failures::SurveyError;
use crate::folders::NamedPath;
use exact_io::write_bytes;
use std::alloc::{AllocError, Global};
use std::fs;
use std::io::Write;
use std::rt::Files;
use survey_rows::{
    COLUMNS, Changes, Column, ColumnHead, EarlierError, Grid, Row, RowCell, RowLayout,
    change_heads, changes_since, csv_text, grid_of, grid_text, json_text, shown, shown_width, sort,
    widen_heads,
};
use words::{Format, Survey};

/// Of how many images differences are written at a time.
const PART: usize = 1024;

/// Says what is asked for, and how rows are laid out for it.
#[derive(Drop)]
pub struct Sheet<'a> {
    pub survey: &'a Survey<'a>,
    pub layout: RowLayout,
}

impl Sheet<'_> {
    /// Returns whether a row has to wait for the others, since rows are sorted or compared.
    pub fn has_to_wait(&self) -> bool {
        self.survey.sort.is_some() || self.survey.earlier.is_some()
    }
}

/// The columns of a survey.
fn columns_of(alloc: Global, survey: &Survey<'_>) -> Result<Vec<Column>, AllocError> {
    let has_tables = survey.tables.is_some();
    let mut columns = Vec::with_capacity(alloc, COLUMNS.len())?;
    for column in COLUMNS {
        if has_tables || !column.is_of_proof_tables() {
            columns.push(column)?;
        }
    }
    Ok(columns)
}

/// Returns how many characters the longest path of a file has, but at least as many as the name of
/// its column.
fn longest_of(named: &[NamedPath]) -> usize {
    let mut longest = Column::File.width();
    for named_path in named {
        longest = longest.max(shown_width(named_path.path.as_str()));
    }
    longest
}

/// Returns how the rows of these images are laid out.
pub fn sheet_of<'a>(
    alloc: Global,
    survey: &'a Survey<'a>,
    named: &[NamedPath],
) -> Result<Sheet<'a>, AllocError> {
    let columns = columns_of(alloc, survey)?;
    Ok(Sheet {
        survey,
        layout: RowLayout {
            columns,
            longest: longest_of(named),
            only_refused: survey.only_refused,
        },
    })
}

/// The text of a grid.
fn text_of(
    alloc: Global,
    format: Format,
    has_header: bool,
    grid: &Grid,
) -> Result<Vec<u8>, AllocError> {
    match format {
        Format::Csv => csv_text(alloc, grid, has_header),
        Format::Table => Ok(grid_text(alloc, grid, has_header)?.into_bytes()),
        Format::Json => Ok(json_text(alloc, grid)?.into_bytes()),
    }
}

fn write_grid<W: Write>(
    alloc: Global,
    sheet: &Sheet<'_>,
    has_header: bool,
    grid: &Grid,
    out: &mut W,
) -> Result<(), SurveyError> {
    let text = text_of(alloc, sheet.survey.format, has_header, grid)?;
    match write_bytes(out, text.as_slice()) {
        Ok(()) => Ok(()),
        Err(error) => Err(SurveyError::of_output(alloc, error.kind())),
    }
}

/// Writes the names of the columns if they are asked for, unless rows have to wait.
pub fn write_head<W: Write>(
    alloc: Global,
    sheet: &Sheet<'_>,
    out: &mut W,
) -> Result<(), SurveyError> {
    if sheet.has_to_wait() {
        return Ok(());
    }
    let grid = grid_of(alloc, &[], &sheet.layout)?;
    write_grid(alloc, sheet, sheet.survey.has_header, &grid, out)
}

/// One row.
fn one(alloc: Global, row: Row) -> Result<Vec<Row>, AllocError> {
    let mut rows = Vec::new(alloc);
    rows.push(row)?;
    Ok(rows)
}

/// Writes a row that need not wait.
pub fn write_row<W: Write>(
    alloc: Global,
    sheet: &Sheet<'_>,
    row: Row,
    out: &mut W,
) -> Result<(), SurveyError> {
    let rows = one(alloc, row)?;
    let grid = grid_of(alloc, rows.as_slice(), &sheet.layout)?;
    write_grid(alloc, sheet, false, &grid, out)
}

/// Returns why there is no comparison with the earlier survey in a file.
fn failure_of(alloc: Global, path: &str, error: EarlierError) -> Result<SurveyError, AllocError> {
    Ok(match error {
        EarlierError::Unread(kind) => SurveyError::of_read(alloc, path, kind),
        EarlierError::Memory => SurveyError::Memory,
        EarlierError::NoSurvey => {
            let path = shown(alloc, path)?;
            let line = format!(in alloc; "cannot compare with {path}: it is no survey as csv\n")?;
            SurveyError::File(line)
        }
    })
}

/// The differences from the earlier survey in a file.
fn compared<'a, R: Files>(
    rt: &R,
    alloc: Global,
    path: &str,
    rows: &'a [Row],
) -> Result<Changes<'a>, SurveyError> {
    let source = match fs::open(rt, path) {
        Ok(source) => source,
        Err(error) => return Err(SurveyError::of_read(alloc, path, error.kind())),
    };
    match changes_since(alloc, source, rows) {
        Ok(changes) => Ok(changes),
        Err(error) => Err(failure_of(alloc, path, error)?),
    }
}

/// In how many parts differences are written, of which the last one may be empty.
fn parts_of(changes: &Changes<'_>) -> usize {
    changes.len() / PART + 1
}

/// The rows of a part.
fn part_rows(
    alloc: Global,
    changes: &Changes<'_>,
    part: usize,
) -> Result<Vec<Vec<RowCell>>, AllocError> {
    let from = part.saturating_mul(PART);
    let to = from.saturating_add(PART).min(changes.len());
    changes.rows(alloc, from, to)
}

/// The heads of differences, as wide as text for people needs them if that is asked for.
fn heads_of(
    alloc: Global,
    sheet: &Sheet<'_>,
    changes: &Changes<'_>,
) -> Result<Vec<ColumnHead>, AllocError> {
    let mut heads = change_heads(alloc)?;
    if sheet.survey.format != Format::Table {
        return Ok(heads);
    }
    if !sheet.survey.has_header {
        for head in heads.iter_mut() {
            head.name = "";
        }
    }
    for part in 0..parts_of(changes) {
        let rows = part_rows(alloc, changes, part)?;
        widen_heads(alloc, heads.as_mut_slice(), rows.as_slice())?;
    }
    Ok(heads)
}

/// Writes the differences, a part of them at a time.
fn write_changes<W: Write>(
    alloc: Global,
    sheet: &Sheet<'_>,
    changes: &Changes<'_>,
    out: &mut W,
) -> Result<(), SurveyError> {
    let mut grid = Grid {
        heads: heads_of(alloc, sheet, changes)?,
        rows: Vec::new(alloc),
    };
    if sheet.survey.has_header {
        write_grid(alloc, sheet, true, &grid, out)?;
    }
    for part in 0..parts_of(changes) {
        grid.rows = part_rows(alloc, changes, part)?;
        write_grid(alloc, sheet, false, &grid, out)?;
    }
    Ok(())
}

/// Writes the differences of rows from the earlier survey in a file.
fn write_differences<R: Files, W: Write>(
    rt: &R,
    alloc: Global,
    sheet: &Sheet<'_>,
    path: &str,
    rows: &[Row],
    out: &mut W,
) -> Result<(), SurveyError> {
    let changes = compared(rt, alloc, path, rows)?;
    write_changes(alloc, sheet, &changes, out)
}

/// Writes rows.
fn write_rows<W: Write>(
    alloc: Global,
    sheet: &Sheet<'_>,
    rows: &[Row],
    out: &mut W,
) -> Result<(), SurveyError> {
    let grid = grid_of(alloc, rows, &sheet.layout)?;
    write_grid(alloc, sheet, sheet.survey.has_header, &grid, out)
}

/// Writes the rows that waited, in their order, or the differences from an earlier survey.
pub fn write_waiting<R: Files + AllocGlobal, W: Write>(
    rt: &R,
    sheet: &Sheet<'_>,
    rows: &mut Vec<Row>,
    out: &mut W,
) -> Result<(), SurveyError> {
    if !sheet.has_to_wait() {
        return Ok(());
    }
    let alloc = rt.alloc();
    if let Some(column) = sheet.survey.sort {
        sort(rows, column)?;
    }
    match sheet.survey.earlier {
        Some(path) => write_differences(rt, alloc, sheet, path, rows.as_slice(), out),
        None => write_rows(alloc, sheet, rows.as_slice(), out),
    }
}
