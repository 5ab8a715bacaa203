//! The files that tasks write.

ghost use Rattle.std.specs.Prelude.{IfErr, codes};
ghost use Rattle.commands.specs.Statuses.{IsMakeFailure};

use super::outcomes::TaskOutcome;
use super::same::{is_output_pipe, is_same_file};
use exact_io::{PromptWriter, Replaced, open_appended, open_replaced};
use messages::{Conflict, STANDARD_OUTPUT};
use std::alloc::Global;
use std::io::Write;
use std::rt::Files;
use words::TablePaths;

// How many bytes of an output are written at a time.
const BUFFER: usize = 64 * 1024;

// The length of the magic that frames out begin with. It is written through the buffer immediately,
// so that a file that cannot be written is found before the report begins.
const MAGIC: usize = 4;

// Where standard output is open.
const OUTPUT: &str = "/dev/stdout";

// Puts a buffer in front of a file, whose first bytes are written immediately.
fn with_buffer<'a, W: Write + Drop>(
    alloc: Global,
    path: &'a str,
    prompt: usize,
    file: W,
) -> Result<PromptWriter<W>, TaskOutcome<'a>>
    ensures { IfErr result (IsMakeFailure path.now) }
{
    match PromptWriter::new(alloc, BUFFER, prompt, file) {
        Ok(file) => Ok(file),
        Err(_) => Err(TaskOutcome::NoMemory),
    }
}

// Makes a file to write to, or opens the one that is there, to be replaced.
fn create<'a, R: Files>(
    rt: &R,
    path: &'a str,
    may_be_empty: bool,
) -> Result<Replaced<R::File>, TaskOutcome<'a>>
    ensures { IfErr result (IsMakeFailure path.now) }
{
    match open_replaced(rt, path, may_be_empty) {
        Ok(file) => Ok(file),
        Err(error) => Err(TaskOutcome::of_write(path, &error)),
    }
}

/// Makes a file to write to, unless it is one of those that are read, or `-`, which other programs
/// take for standard output.
pub fn create_file<'a, R: Files>(
    rt: &R,
    path: &'a str,
    read: &[&str],
) -> Result<Replaced<R::File>, TaskOutcome<'a>>
    ensures { IfErr result (IsMakeFailure path.now) }
{
    if path == "-" {
        return Err(TaskOutcome::CannotReplace(path, Conflict::IsDash));
    }
    for other in read {
        if is_same_file(rt, path, *other) {
            return Err(TaskOutcome::CannotReplace(path, Conflict::IsRead));
        }
    }
    create(rt, path, false)
}

/// Makes the file of the frames out, with a buffer, unless it is one of those that are read, or the
/// pipe that the report is written to: there the two would be mixed.
pub fn create_sent<'a, R: Files>(
    rt: &R,
    alloc: Global,
    path: &'a str,
    read: &[&str],
) -> Result<PromptWriter<Replaced<R::File>>, TaskOutcome<'a>>
    ensures { IfErr result (IsMakeFailure path.now) }
{
    if is_output_pipe(rt, path) {
        return Err(TaskOutcome::CannotReplace(path, Conflict::IsStandardOutput));
    }
    let file = create_file(rt, path, read)?;
    with_buffer(alloc, path, MAGIC, file)
}

/// Makes the file of a table, with a buffer in front of it. It may not replace the image.
pub fn create_table<'a, R: Files>(
    rt: &R,
    alloc: Global,
    paths: TablePaths<'a>,
) -> Result<PromptWriter<Replaced<R::File>>, TaskOutcome<'a>>
    ensures { IfErr result (IsMakeFailure paths.entry.table.now) }
{
    let file = create_file(rt, paths.table, &[paths.image])?;
    with_buffer(alloc, paths.table, 0, file)
}

// Why a path must not be written to, if it is a file that is read, or one that is written already,
// or what standard output is.
fn conflict_at<R: Files>(rt: &R, path: &str, read: &[&str], written: &[&str]) -> Option<Conflict> {
    if path == "-" {
        return Some(Conflict::IsDash);
    }
    for other in read {
        if is_same_file(rt, path, *other) {
            return Some(Conflict::IsRead);
        }
    }
    for other in written {
        if is_same_file(rt, path, *other) {
            return Some(Conflict::IsWritten);
        }
    }
    if is_output_pipe(rt, path) || is_same_file(rt, path, OUTPUT) {
        return Some(Conflict::IsWritten);
    }
    None
}

/// Returns how a task ends that must not write to a path: it is a file that the task reads, or
/// another output of it, or what standard output is.
pub fn keep_apart<'a, R: Files>(
    rt: &R,
    path: &'a str,
    read: &[&str],
    written: &[&str],
) -> Result<(), TaskOutcome<'a>>
    ensures { IfErr result (IsMakeFailure path.now) }
{
    match conflict_at(rt, path, read, written) {
        Some(conflict) => Err(TaskOutcome::CannotReplace(path, conflict)),
        None => Ok(()),
    }
}

/// Makes an output of a task that has several, with a buffer, unless `keep_apart` refuses it. Its
/// first bytes are written immediately. What the file has stays until then, or until a flush, if
/// the output may be empty.
pub fn create_output<'a, R: Files>(
    rt: &R,
    alloc: Global,
    path: &'a str,
    may_be_empty: bool,
    read: &[&str],
    written: &[&str],
) -> Result<PromptWriter<Replaced<R::File>>, TaskOutcome<'a>>
    ensures { IfErr result (IsMakeFailure path.now) }
{
    keep_apart(rt, path, read, written)?;
    let file = create(rt, path, may_be_empty)?;
    with_buffer(alloc, path, MAGIC, file)
}

/// Opens standard output as a file, with a buffer, unless it is one of those that are read. What it
/// has already stays, and its first bytes are written immediately.
pub fn open_standard_output<R: Files>(
    rt: &R,
    alloc: Global,
    read: &[&str],
) -> Result<PromptWriter<Replaced<R::File>>, TaskOutcome<'static>>
    ensures { IfErr result (IsMakeFailure (codes "standard output")) }
{
    for other in read {
        if is_same_file(rt, OUTPUT, *other) {
            return Err(TaskOutcome::CannotReplace(STANDARD_OUTPUT, Conflict::IsRead));
        }
    }
    match open_appended(rt, OUTPUT) {
        Ok(file) => with_buffer(alloc, STANDARD_OUTPUT, MAGIC, file),
        Err(error) => Err(TaskOutcome::of_write(STANDARD_OUTPUT, &error)),
    }
}
