//! The command `prove`: a program is judged, a proof table of it is written, and how the task ends
//! then.

ghost use Rattle.std.specs.Prelude.{◌≡◌, OnErr, IfOk};
ghost use Rattle.words.specs.Requests.{table_files_of};
ghost use Rattle.exact_io.specs.Waiting.{behind, held};
ghost use Rattle.proof_table.specs.Writing.{IsForTable, IsTableSize, entries_for, table_length};
ghost use Rattle.std.specs.String.{string_bytes};
ghost use Rattle.xdpvm.specs.Proving.{EndsUnwritten, ProvesTold, SaysSize, SaysSizeOf, StoresTable, size_text};

use bounds::Verified;
use commands::{Ending, TaskOutcome, bound_line, create_table, judge, load_image, say_line};
use exact_io::{PromptWriter, write_bytes};
use messages::Rejection;
use proof_table::{Explored, explore_again, table_size, write_explored};
use std::alloc::{AllocError, Global};
use std::io::Write;
use std::rt::{Clock, Files};
use table_entries::WriteTableError;
use words::TablePaths;

/// A table of more bytes is large: how many it has is said before it is written.
const LARGE: u64 = 64 << 20;

// The line that says how many bytes a table has.
fn size_line(alloc: Global, size: u64) -> Result<String, AllocError>
    ensures { IfOk result (λ text. string_bytes text ≡ size_text size) }
{
    format!(in alloc; "the proof table has {size} bytes\n")
}

// Says how many bytes a table has, if it is large. A failure is not reported.
fn say_size<W: Write>(alloc: Global, size: u64, err: &mut W)
    ensures { SaysSize size (W.contents err.old) (W.contents err.new) }
{
    if size <= LARGE {
        return;
    }
    if let Ok(line) = size_line(alloc, size) {
        let _ = write_bytes(err, line.as_bytes());
    }
}

// Explores a verified program again, and says how many bytes the table of what was explored has, if
// it is large.
fn measured<W: Write>(
    alloc: Global,
    verified: &Verified,
    err: &mut W,
) -> Result<Explored, WriteTableError>
    ensures table { IfOk result (IsForTable verified.now.program) }
    ensures size { IfOk result (λ explored. IsTableSize verified.now.program
        (table_length (entries_for explored))) }
    ensures said { IfOk result (λ explored. SaysSizeOf (entries_for explored)
        (W.contents err.old) (W.contents err.new)) }
    ensures unsaid { OnErr result (W.contents err.new ≡ W.contents err.old) }
{
    let explored = explore_again(alloc, verified)?;
    let size = table_size(alloc, verified, &explored)?;
    say_size(alloc, size, err);
    Ok(explored)
}

// Returns how the task ends if a table was not written to the file at the path: if the program
// could not be explored again, writes so.
fn say_unwritten<'a, W: Write>(
    path: &'a str,
    error: WriteTableError,
    out: &mut W,
) -> TaskOutcome<'a>
    ensures { EndsUnwritten path.now error (W.contents out.old) (W.contents out.new) result }
{
    match error {
        WriteTableError::Memory => TaskOutcome::NoMemory,
        WriteTableError::Explored => {
            say_line(
                "refused P10\n",
                TaskOutcome::Refused(Rejection::Explored),
                out,
            )
        }
        WriteTableError::Writer(kind) => TaskOutcome::CannotWrite(path, Some(kind)),
    }
}

/// Writes a proof table through a buffer to a file that was opened by this path, and then a line to
/// standard output. Before a large table is written, standard error gets how many bytes it has.
pub fn store_table<'a, W1: Write, W2: Write, W3: Write + Drop>(
    alloc: Global,
    verified: &Verified,
    line: &str,
    path: &'a str,
    out: &mut W1,
    err: &mut W2,
    file: &mut PromptWriter<W3>,
) -> TaskOutcome<'a>
    ensures { StoresTable verified.now.program line.now path.now (held W3.contents file.old)
        (W3.contents (behind file.new)) (W1.contents out.old) (W1.contents out.new)
        (W2.contents err.old) (W2.contents err.new) result }
{
    verified.image().recall();
    let explored = match measured(alloc, verified, err) {
        Ok(explored) => explored,
        Err(error) => return say_unwritten(path, error, out),
    };
    match write_explored(alloc, verified, &explored, file) {
        Ok(()) => match file.flush() {
            Ok(()) => say_line(line, TaskOutcome::Done, out),
            Err(error) => TaskOutcome::of_write(path, &error),
        },
        Err(error) => say_unwritten(path, error, out),
    }
}

/// Proves a program: its image is read and judged, then the table is written, and then standard
/// output says the most steps of a run. If the program is refused, no file is made for the table.
/// Before a large table is written, standard error gets how many bytes it has.
pub fn prove_file<'a, R: Files + Clock, W1: Write, W2: Write>(
    rt: &R,
    alloc: Global,
    paths: TablePaths<'a>,
    out: &mut W1,
    err: &mut W2,
) -> Ending<'a>
    ensures { ProvesTold (table_files_of paths.entry) (W1.contents out.old) (W1.contents out.new)
        (W2.contents err.old) (W2.contents err.new) result }
{
    let image = match load_image(rt, alloc, paths.image, out) {
        Ok(image) => image,
        Err(outcome) => return Ending::plain(outcome),
    };
    let verified = match judge(rt, alloc, image, out) {
        Ok(verified) => verified,
        Err(ending) => return ending,
    };
    let Ok(line) = bound_line(alloc, &verified) else {
        return Ending::plain(TaskOutcome::NoMemory);
    };
    match create_table(rt, alloc, paths) {
        Ok(mut file) => {
            let outcome = store_table(
                alloc,
                &verified,
                line.as_str(),
                paths.table,
                out,
                err,
                &mut file,
            );
            Ending::plain(outcome)
        }
        Err(outcome) => Ending::plain(outcome),
    }
}
