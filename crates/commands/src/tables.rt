//! The proof tables that the commands read.

ghost use Rattle.std.specs.Prelude.{◌≡◌, IfOk, IfErr, OnOk};
ghost use Rattle.words.specs.Requests.{files_of, table_files_of};
ghost use Rattle.commands.specs.Commands.{ShowsNone, IsShown, RechecksFile, RunsShown};

use super::endings::Ending;
use super::files::run_on;
use super::images::load_image;
use super::outcomes::TaskOutcome;
use super::reading::read_table;
use super::rechecks::shown;
use super::verdicts::accepted;
use bounds::Verified;
use std::alloc::Global;
use std::io::Write;
use std::rt::{Clock, Files};
use words::{RunPaths, TablePaths};

/// The program of an image with the bound that a table shows, or how the task ends without one: the
/// image is read and parsed, then the table is read and tested.
pub fn load_shown<'a, R: Files, W: Write>(
    rt: &R,
    alloc: Global,
    paths: TablePaths<'a>,
    out: &mut W,
) -> Result<Verified, Ending<'a>>
    ensures ok { OnOk result (W.contents out.new ≡ W.contents out.old) }
    ensures shown { IfOk result IsShown }
    ensures none { IfErr result (λ ended. ShowsNone (table_files_of paths.entry)
        (W.contents out.old) (W.contents out.new) ended) }
{
    let image = match load_image(rt, alloc, paths.image, out) {
        Ok(image) => image,
        Err(outcome) => return Err(Ending::plain(outcome)),
    };
    match read_table(rt, alloc, &image, paths.table) {
        Ok(bytes) => shown(alloc, image, bytes.as_slice(), out),
        Err(error) => Err(Ending::plain(TaskOutcome::of_read(paths.table, &error))),
    }
}

/// Tests a proof table: the image is read and parsed, then the table is read and tested, and
/// standard output says the most steps of a run.
pub fn recheck_file<'a, R: Files, W: Write>(
    rt: &R,
    alloc: Global,
    paths: TablePaths<'a>,
    out: &mut W,
) -> Ending<'a>
    ensures { RechecksFile (table_files_of paths.entry)
        (W.contents out.old) (W.contents out.new) result }
{
    match load_shown(rt, alloc, paths, out) {
        Ok(verified) => Ending::plain(accepted(alloc, &verified, out)),
        Err(ending) => ending,
    }
}

/// Runs a program on a frame stream after testing a proof table, in place of verifying the program:
/// the image is read and parsed, then the table is read and tested, then the stream is opened, then
/// the frames out. The report is written to standard output as it is made.
pub fn run_shown<'a, R: Files + Clock, W: Write>(
    rt: &R,
    alloc: Global,
    paths: RunPaths<'a>,
    table: &'a str,
    out: &mut W,
) -> Ending<'a>
    ensures { RunsShown (files_of paths.entry) table.now
        (W.contents out.old) (W.contents out.new) result }
{
    let image = paths.image;
    match load_shown(rt, alloc, TablePaths { image, table }, out) {
        Ok(verified) => {
            let read = [image, paths.frames, table];
            run_on(rt, alloc, verified, paths, &read, out)
        }
        Err(ending) => ending,
    }
}
