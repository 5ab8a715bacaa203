//! Proof tables that a survey makes and writes.

ghost use Rattle.std.specs.Prelude.{◌≡◌, IfSome, None, Ok};
ghost use Rattle.proof_table.specs.declared.listing.ExploredInsn.{ExploredInsn};
ghost use Rattle.proof_table.specs.Writing.{IsForTable};
ghost use Rattle.surveys.specs.Tallies.{searched};
ghost use Rattle.survey_commands.specs.Tables.{HasTable, SaysTableSize};

use crate::failures::{SurveyError, large_line};
use bounds::Verified;
use exact_io::{PromptWriter, open_replaced, write_bytes};
use proof_table::{
    Explored, WriteTableError, explore_again, most_bytes, recheck, table_size, write_explored,
};
use std::alloc::{AllocError, Global};
use std::io::Write;
use std::path::Path;
use std::rt::Files;
use std::time::{Clock, Instant};
use survey_rows::Counts;
use surveys::microseconds_since;

/// A table of more bytes is written as it is made, and neither kept in memory nor tested.
const MOST_HELD: u64 = 64 << 20;

/// How many bytes of such a table are written at a time.
const BUFFER: usize = 64 * 1024;

/// Where the tables of accepted images go, and how many bytes one may have.
#[derive(Clone, Copy, Drop)]
pub struct TablesWanted<'a> {
    pub folder: &'a str,
    pub most: Option<u64>,
}

/// Makes the proof table of what was explored of a verified program since that instant, and tests
/// it, and adds its size and both times. They stay unknown for a table that is not made, or that is
/// refused.
pub fn tested_table<C: Clock>(
    clock: &C,
    alloc: Global,
    verified: Verified,
    explored: Explored,
    since: Option<Instant>,
    counts: &mut Counts,
) -> Option<Vec<u8>>
    requires { IsForTable verified.program explored }
    ensures bound { counts.new.bound ≡ counts.old.bound }
    ensures slot { counts.new.slot ≡ counts.old.slot }
    ensures table { IfSome result
        (λ table. HasTable verified.program table.items counts.new) }
    ensures none { result ≡ None → counts.new.table_bytes ≡ counts.old.table_bytes }
    ensures rest { searched counts.new ≡ searched counts.old }
{
    let mut table = Vec::new(alloc);
    if write_explored(alloc, &verified, &explored, &mut table).is_err() {
        return None;
    }
    let prove_microseconds = microseconds_since(clock, since);
    drop(explored);
    let since = Instant::now(clock).ok();
    if recheck(alloc, verified.into_image(), table.as_slice()).is_err() {
        return None;
    }
    counts.prove_microseconds = prove_microseconds;
    counts.recheck_microseconds = microseconds_since(clock, since);
    counts.table_bytes = Some(table.len() as u64);
    Some(table)
}

/// The path of an image's table in a folder: its name with another ending.
fn table_path(alloc: Global, folder: &str, image: &str) -> Result<String, AllocError> {
    let stem = Path::new(image).file_stem().unwrap_or(image);
    format!(in alloc; "{folder}/{stem}.table")
}

/// Writes an image's table to a file.
fn store_table<R: Files>(
    rt: &R,
    alloc: Global,
    path: &str,
    table: &[u8],
) -> Result<(), SurveyError> {
    let mut file = match open_replaced(rt, path, false) {
        Ok(file) => file,
        Err(error) => return Err(SurveyError::of_write(alloc, path, error.kind())),
    };
    match write_bytes(&mut file, table) {
        Ok(()) => Ok(()),
        Err(error) => Err(SurveyError::of_write(alloc, path, error.kind())),
    }
}

/// Writes a table of what was explored of a verified program through a buffer, as it is made.
fn write_through<W: Write + Drop>(
    alloc: Global,
    verified: &Verified,
    explored: &Explored,
    file: W,
) -> Result<(), WriteTableError>
    requires { IsForTable verified.now.program explored.now }
{
    let Ok(mut file) = PromptWriter::new(alloc, BUFFER, 0, file) else {
        return Err(WriteTableError::Memory);
    };
    write_explored(alloc, verified, explored, &mut file)?;
    match file.flush() {
        Ok(()) => Ok(()),
        Err(error) => Err(WriteTableError::Writer(error.kind())),
    }
}

/// Writes a table of what was explored of a verified program to a file, as it is made. False:
/// memory ran out, or there is no such table.
fn stream_table<R: Files>(
    rt: &R,
    alloc: Global,
    path: &str,
    verified: &Verified,
    explored: &Explored,
) -> Result<bool, SurveyError>
    requires { IsForTable verified.now.program explored.now }
{
    let file = match open_replaced(rt, path, false) {
        Ok(file) => file,
        Err(error) => return Err(SurveyError::of_write(alloc, path, error.kind())),
    };
    match write_through(alloc, verified, explored, file) {
        Ok(()) => Ok(true),
        Err(WriteTableError::Writer(kind)) => { Err(SurveyError::of_write(alloc, path, kind)) }
        Err(_) => Ok(false),
    }
}

/// Returns whether a table of so many bytes is larger than is wanted, and says so on standard
/// error.
fn is_too_large<W: Write>(
    alloc: Global,
    image: &str,
    size: u64,
    most: Option<u64>,
    err: &mut W,
) -> Result<bool, AllocError> {
    match most {
        Some(most) if size > most => {
            let line = large_line(alloc, image, size, most)?;
            let _ = write_bytes(err, line.as_bytes());
            Ok(true)
        }
        _ => Ok(false),
    }
}

/// What a table is made of, and since when, with the paths of its image and its file.
#[derive(Clone, Copy)]
struct TableParts<'a> {
    image: &'a str,
    path: &'a str,
    verified: &'a Verified,
    explored: &'a Explored,
    since: Option<Instant>,
}

/// Writes the table of an accepted program as it is made, if it has more bytes than are held at
/// once, and returns whether there is one. One that has more bytes than are wanted is not written:
/// standard error says so. None: it can be held, and is not written.
fn put_large_table<R: Files + Clock, W: Write>(
    rt: &R,
    alloc: Global,
    wanted: TablesWanted<'_>,
    parts: TableParts<'_>,
    counts: &mut Counts,
    err: &mut W,
) -> Result<Option<bool>, SurveyError>
    requires { IsForTable parts.verified.now.program parts.explored.now }
    ensures held { result ≡ Ok None → counts.new ≡ counts.old }
    ensures bound { counts.new.bound ≡ counts.old.bound }
    ensures slot { counts.new.slot ≡ counts.old.slot }
    ensures size { SaysTableSize parts.entry.verified.now.program counts.old counts.new }
    ensures rest { searched counts.new ≡ searched counts.old }
{
    if most_bytes(parts.explored) <= MOST_HELD.min(wanted.most.unwrap_or(u64::MAX)) {
        return Ok(None);
    }
    let Ok(size) = table_size(alloc, parts.verified, parts.explored) else {
        return Ok(Some(false));
    };
    let is_too_large = is_too_large(alloc, parts.image, size, wanted.most, err)?;
    if !is_too_large && size <= MOST_HELD {
        return Ok(None);
    }
    counts.table_bytes = Some(size);
    if is_too_large {
        return Ok(Some(true));
    }
    let is_written = stream_table(rt, alloc, parts.path, parts.verified, parts.explored)?;
    counts.prove_microseconds = microseconds_since(rt, parts.since);
    Ok(Some(is_written))
}

/// Makes the table of what was explored of a verified program, tests it and writes it to the file
/// at the path, and adds its size and the times to what was counted. False: memory ran out, or
/// there is no such table.
fn put_tested_table<R: Files + Clock>(
    rt: &R,
    alloc: Global,
    path: &str,
    verified: Verified,
    explored: Explored,
    since: Option<Instant>,
    counts: &mut Counts,
) -> Result<bool, SurveyError>
    requires { IsForTable verified.program explored }
    ensures bound { counts.new.bound ≡ counts.old.bound }
    ensures slot { counts.new.slot ≡ counts.old.slot }
    ensures size { SaysTableSize verified.program counts.old counts.new }
    ensures rest { searched counts.new ≡ searched counts.old }
{
    let Some(table) = tested_table(rt, alloc, verified, explored, since, counts) else {
        return Ok(false);
    };
    store_table(rt, alloc, path, table.as_slice())?;
    Ok(true)
}

/// Makes the table of an accepted program and writes it to a file, tested if it is not large, and
/// adds its size and the times to what was counted. One that has more bytes than are wanted is not
/// written: standard error says so, and only its size is added. False: memory ran out, or there is
/// no such table.
pub fn put_table<R: Files + Clock, W: Write>(
    rt: &R,
    alloc: Global,
    wanted: TablesWanted<'_>,
    image: &str,
    verified: Verified,
    counts: &mut Counts,
    err: &mut W,
) -> Result<bool, SurveyError>
    ensures bound { counts.new.bound ≡ counts.old.bound }
    ensures slot { counts.new.slot ≡ counts.old.slot }
    ensures size { SaysTableSize verified.program counts.old counts.new }
    ensures rest { searched counts.new ≡ searched counts.old }
{
    let since = Instant::now(rt).ok();
    let Ok(explored) = explore_again(alloc, &verified) else {
        return Ok(false);
    };
    let path = table_path(alloc, wanted.folder, image)?;
    let parts = TableParts {
        image,
        path: path.as_str(),
        verified: &verified,
        explored: &explored,
        since,
    };
    if let Some(is_there) = put_large_table(rt, alloc, wanted, parts, counts, err)? {
        return Ok(is_there);
    }
    put_tested_table(rt, alloc, path.as_str(), verified, explored, since, counts)
}
