//! Surveys: the rows of all images.

ghost use Rattle.std.specs.Prelude.{IfOk};
ghost use Rattle.survey_commands.specs.Ends.{IsSurveyStatus};

use crate::failures::{SurveyError, empty_line, unnamed_line};
use crate::files::read_image;
use crate::folders::{FolderFailure, NamedPath, add_folder, add_images, images};
use crate::progress::SurveyProgress;
use crate::tables::{TablesWanted, put_table};
use crate::writing::{Sheet, sheet_of, write_head, write_row, write_waiting};
use exact_io::write_bytes;
use messages::say_unread;
use std::alloc::{AllocError, Global};
use std::io::{ErrorKind, Write};
use std::rt::{Clock, Files};
use survey_rows::{Counts, Judgement, Row, Summary};
use surveys::{Judged, judge};
use words::Survey;

/// Says on standard error why a file cannot be read, and returns how its image is judged.
fn judged_unread<W: Write>(path: &str, kind: ErrorKind, err: &mut W) -> Judgement {
    if let ErrorKind::OutOfMemory = kind {
        return Judgement::NoMemory;
    }
    let _ = say_unread(err, path, kind);
    Judgement::Unreadable
}

/// A row with a verdict and no counts.
fn row_uncounted(alloc: Global, path: &str, verdict: Judgement) -> Result<Row, AllocError> {
    let file = String::from_str(alloc, path)?;
    Ok(Row {
        file,
        is_in_folder: false,
        verdict,
        counts: Counts::default(),
    })
}

/// The row of a file or a folder that cannot be read.
fn row_unread<W: Write>(
    alloc: Global,
    path: &str,
    kind: ErrorKind,
    err: &mut W,
) -> Result<Row, AllocError> {
    let verdict = judged_unread(path, kind, err);
    row_uncounted(alloc, path, verdict)
}

/// The row of a folder that cannot be read, or only in part.
fn row_of_folder<W: Write>(
    alloc: Global,
    path: &str,
    failure: FolderFailure,
    err: &mut W,
) -> Result<Row, AllocError> {
    match failure {
        FolderFailure::Unread(kind) => row_unread(alloc, path, kind, err),
        FolderFailure::Unnamed => {
            let line = unnamed_line(alloc, path)?;
            let _ = write_bytes(err, line.as_bytes());
            row_uncounted(alloc, path, Judgement::Unreadable)
        }
    }
}

/// Returns how an image is judged. If it is accepted and lacks the table that is wanted, memory ran
/// out.
fn verdict_with(verdict: Judgement, lacks_table: bool) -> Judgement {
    match verdict {
        Judgement::Accepted if lacks_table => Judgement::NoMemory,
        verdict => verdict,
    }
}

/// The row of an image that was judged. Its table is made and stored where that is wanted.
fn row_judged<R: Files + Clock, W: Write>(
    rt: &R,
    alloc: Global,
    path: &str,
    judged: Judged,
    tables: Option<TablesWanted<'_>>,
    err: &mut W,
) -> Result<Row, SurveyError> {
    let Judged {
        verdict,
        mut counts,
        verified,
    } = judged;
    let lacks_table = match (tables, verified) {
        (Some(wanted), Some(verified)) => {
            !put_table(rt, alloc, wanted, path, verified, &mut counts, err)?
        }
        _ => false,
    };
    let file = String::from_str(alloc, path)?;
    Ok(Row {
        file,
        is_in_folder: false,
        verdict: verdict_with(verdict, lacks_table),
        counts,
    })
}

/// The row of a file.
fn row_of<R: Files + Clock + AllocGlobal, W: Write>(
    rt: &R,
    path: &str,
    tables: Option<TablesWanted<'_>>,
    err: &mut W,
) -> Result<Row, SurveyError> {
    let alloc = rt.alloc();
    let bytes = match read_image(rt, alloc, path) {
        Ok(bytes) => bytes,
        Err(error) => return Ok(row_unread(alloc, path, error.kind(), err)?),
    };
    let judged = judge(rt, alloc, bytes.as_slice());
    row_judged(rt, alloc, path, judged, tables, err)
}

/// The row of a path.
fn row_named<R: Files + Clock + AllocGlobal, W: Write>(
    rt: &R,
    one: &NamedPath,
    tables: Option<TablesWanted<'_>>,
    err: &mut W,
) -> Result<Row, SurveyError> {
    let mut row = match one.failure {
        Some(failure) => row_of_folder(rt.alloc(), one.path.as_str(), failure, err)?,
        None => row_of(rt, one.path.as_str(), tables, err)?,
    };
    row.is_in_folder = one.is_in_folder;
    Ok(row)
}

fn keep(rows: &mut Vec<Row>, row: Row) -> Result<(), AllocError> {
    rows.push(row)?;
    Ok(())
}

/// Adds all images that a path names, and the folder if it cannot be read, or only in part. Says on
/// standard error that a folder has no image.
fn add_named<R: Files + AllocGlobal + Clone + Drop, W: Write>(
    rt: &R,
    path: &str,
    all: &mut Vec<NamedPath>,
    err: &mut W,
) -> Result<(), AllocError> {
    let alloc = rt.alloc();
    let found = match images(rt, path) {
        Ok(found) => found,
        Err(error) => {
            return add_folder(alloc, path, FolderFailure::Unread(error.kind()), all);
        }
    };
    add_images(alloc, &found, all)?;
    if found.paths.is_empty() && !found.has_unnamed {
        let line = empty_line(alloc, path)?;
        let _ = write_bytes(err, line.as_bytes());
    }
    if found.has_unnamed {
        add_folder(alloc, path, FolderFailure::Unnamed, all)?;
    }
    Ok(())
}

/// All images that the paths name, and the folders that cannot be read, or only in part.
fn all_named<R: Files + AllocGlobal + Clone + Drop, W: Write>(
    rt: &R,
    survey: &Survey<'_>,
    err: &mut W,
) -> Result<Vec<NamedPath>, AllocError> {
    let mut all = Vec::new(rt.alloc());
    for path in survey.paths.as_slice() {
        add_named(rt, *path, &mut all, err)?;
    }
    Ok(all)
}

/// The line that is written to standard error at the end.
fn summary_line(alloc: Global, summary: &Summary) -> Result<String, AllocError> {
    let accepted = summary.accepted;
    let refused = summary.refused;
    let unread = summary.unreadable;
    let unjudged = summary.unjudged;
    format!(in alloc;
        "{accepted} accepted, {refused} refused, {unread} unreadable, {unjudged} out of memory\n"
    )
}

/// Says on standard error how many images got which verdict.
fn say_summary<W: Write>(alloc: Global, summary: &Summary, err: &mut W) -> Result<(), AllocError> {
    let line = summary_line(alloc, summary)?;
    let _ = write_bytes(err, line.as_bytes());
    Ok(())
}

/// Writes a row, or keeps it if it has to wait.
fn put_row<W: Write>(
    alloc: Global,
    sheet: &Sheet<'_>,
    row: Row,
    waiting: &mut Vec<Row>,
    out: &mut W,
) -> Result<(), SurveyError> {
    if sheet.has_to_wait() {
        Ok(keep(waiting, row)?)
    } else {
        write_row(alloc, sheet, row, out)
    }
}

/// The tables that a survey wants.
fn tables_of<'a>(survey: &Survey<'a>) -> Option<TablesWanted<'a>> {
    let folder = survey.tables?;
    Some(TablesWanted {
        folder,
        most: survey.most,
    })
}

/// Judges images, and writes the row of each one unless rows have to wait. Returns the rows that
/// wait, and how many images got which verdict.
fn judge_all<R: Files + Clock + AllocGlobal, W1: Write, W2: Write>(
    rt: &R,
    sheet: &Sheet<'_>,
    named: &[NamedPath],
    progress: &mut SurveyProgress,
    out: &mut W1,
    err: &mut W2,
) -> Result<(Vec<Row>, Summary), SurveyError> {
    let alloc = rt.alloc();
    let mut waiting = Vec::new(alloc);
    let mut summary = Summary::default();
    for one in named {
        progress.show(alloc, err)?;
        let row = row_named(rt, one, tables_of(sheet.survey), err)?;
        summary.count(row.verdict);
        progress.advance();
        if !sheet.has_to_wait() {
            progress.clear(err);
        }
        put_row(alloc, sheet, row, &mut waiting, out)?;
    }
    progress.clear(err);
    Ok((waiting, summary))
}

/// Judges images. Standard output gets a row for each image as it is judged, or at the end all rows
/// in their order, or the differences from an earlier survey. Standard error gets a line for each
/// file or folder that cannot be read, or only in part, and the progress if that is wanted. Returns
/// how many images got which verdict.
fn survey_named<R: Files + Clock + AllocGlobal, W1: Write, W2: Write>(
    rt: &R,
    survey: &Survey<'_>,
    named: &[NamedPath],
    has_progress: bool,
    out: &mut W1,
    err: &mut W2,
) -> Result<Summary, SurveyError> {
    let alloc = rt.alloc();
    let sheet = sheet_of(alloc, survey, named)?;
    write_head(alloc, &sheet, out)?;
    let mut progress = SurveyProgress::of(named.len(), has_progress);
    let (mut rows, summary) = judge_all(rt, &sheet, named, &mut progress, out, err)?;
    write_waiting(rt, &sheet, &mut rows, out)?;
    Ok(summary)
}

/// Surveys images. Standard output gets a row for each image as it is judged, or at the end all
/// rows in their order, or the differences from an earlier survey. Standard error gets a line for
/// each file or folder that cannot be read, or only in part, the progress if that is wanted, and at
/// the end how many images got which verdict. Returns the status that says so.
pub fn survey<R: Files + Clock + AllocGlobal + Clone + Drop, W1: Write, W2: Write>(
    rt: &R,
    survey: &Survey<'_>,
    has_progress: bool,
    out: &mut W1,
    err: &mut W2,
) -> Result<u8, SurveyError>
    ensures { IfOk result IsSurveyStatus }
{
    let named = all_named(rt, survey, err)?;
    let summary = survey_named(rt, survey, named.as_slice(), has_progress, out, err)?;
    say_summary(rt.alloc(), &summary, err)?;
    Ok(summary.status())
}
