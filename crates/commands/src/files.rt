//! The frame streams and frames out of tasks, and what is done with the files of `trace`, `run` and
//! `verify`. The parameter `out` is standard output; the field `out` of paths is the path of the
//! frames out.

ghost use Rattle.std.specs.Prelude.{◌⊎◌, IfErr};
ghost use Rattle.commands.specs.Statuses.{IsReadFailure, IsMakeFailure};
ghost use Rattle.words.specs.Requests.{files_of};
ghost use Rattle.commands.specs.Files.{RunsOn};
ghost use Rattle.commands.specs.Commands.{TracesFile, RunsFile, VerifiesFile};

use super::endings::Ending;
use super::fronts::{Watched, read_ahead};
use super::images::load_image;
use super::outcomes::TaskOutcome;
use super::outputs::create_sent;
use super::screens::Screen;
use super::streams::{run_stream, trace_stream};
use super::verdicts::{judge, say_verdict};
use super::watching::is_plain_file;
use bounds::Verified;
use exact_io::{PromptWriter, Replaced};
use frames::{Ahead, Buffered};
use messages::FileForm;
use std::alloc::Global;
use std::fs;
use std::io::Write;
use std::rt::{Clock, Files};
use words::{RunPaths, StepLimit};

// How many bytes of packet frames are read at a time.
const BUFFER: usize = 64 * 1024;

/// A source of frames, what it is by its first bytes, and where the frames out go.
pub type Streams<'b, R> = (
    Ahead<Watched<'b, R, <R as Files>::File>>,
    FileForm,
    PromptWriter<Replaced<<R as Files>::File>>,
);

/// Opens a frame stream, with a buffer. Nothing is read from it.
pub fn open_frames<'a, 'b, R: Files + Clock>(
    rt: &'b R,
    alloc: Global,
    path: &'a str,
) -> Result<Buffered<Watched<'b, R, <R as Files>::File>>, TaskOutcome<'a>>
    ensures { IfErr result (IsReadFailure path.now) }
{
    match fs::open(rt, path) {
        Ok(source) => {
            let source = Watched::new(source, Screen::shared(rt, alloc));
            match Buffered::new(alloc, BUFFER, source) {
                Ok(source) => Ok(source),
                Err(_) => Err(TaskOutcome::NoMemory),
            }
        }
        Err(error) => Err(TaskOutcome::of_read(path, &error)),
    }
}

/// Reads the first bytes of the frame stream at a path ahead, and what the file is by them.
pub fn begin_frames<'b, R: Files + Clock>(
    rt: &'b R,
    path: &str,
    source: Buffered<Watched<'b, R, <R as Files>::File>>,
) -> (Ahead<Watched<'b, R, <R as Files>::File>>, FileForm) {
    read_ahead(source, !is_plain_file(rt, path))
}

/// Opens the frame stream, and then makes the file of the frames out, which may not replace a file
/// that is read, nor be the pipe that standard output is. The buffer of each is made before any of
/// its bytes is read or written. At the end the first bytes of the frame stream are read ahead.
pub fn open_streams<'a, 'b, R: Files + Clock>(
    rt: &'b R,
    alloc: Global,
    paths: RunPaths<'a>,
    read: &[&str],
) -> Result<Streams<'b, R>, TaskOutcome<'a>>
    ensures { IfErr result
        (λ ended. IsReadFailure paths.entry.frames.now ended
        ⊎ IsMakeFailure paths.entry.out.now ended) }
{
    let source = open_frames(rt, alloc, paths.frames)?;
    let file = create_sent(rt, alloc, paths.out, read)?;
    let (source, form) = begin_frames(rt, paths.frames, source);
    Ok((source, form, file))
}

/// Runs a program with its bound on a frame stream: the stream is opened, then the frames out,
/// which may not replace a file that is read. The report is written to standard output as it is
/// made.
pub fn run_on<'a, R: Files + Clock, W: Write>(
    rt: &R,
    alloc: Global,
    verified: Verified,
    paths: RunPaths<'a>,
    read: &[&str],
    out: &mut W,
) -> Ending<'a>
    ensures { RunsOn (files_of paths.entry) verified (W.contents out.old) (W.contents out.new)
        result }
{
    match open_streams(rt, alloc, paths, read) {
        Ok((source, form, mut file)) => {
            run_stream(alloc, verified, source, form, paths.out, out, &mut file)
        }
        Err(outcome) => Ending::plain(outcome),
    }
}

/// Runs a program on a frame stream with checks: the image is read and parsed, then the stream is
/// opened, then the frames out. The checked report is written to standard output as it is made.
pub fn trace<'a, R: Files + Clock, W: Write>(
    rt: &R,
    alloc: Global,
    paths: RunPaths<'a>,
    limit: StepLimit,
    out: &mut W,
) -> Ending<'a>
    ensures { TracesFile (files_of paths.entry) limit.steps (W.contents out.old)
        (W.contents out.new) result }
{
    let image = match load_image(rt, alloc, paths.image, out) {
        Ok(image) => image,
        Err(outcome) => return Ending::plain(outcome),
    };
    match open_streams(rt, alloc, paths, &[paths.image, paths.frames]) {
        Ok((source, form, mut file)) => {
            trace_stream(alloc, image, limit, source, form, paths.out, out, &mut file)
        }
        Err(outcome) => Ending::plain(outcome),
    }
}

/// Verifies a program and runs it on a frame stream: the image is read and judged, then the stream
/// is opened, then the frames out. The report is written to standard output as it is made.
pub fn run_verified<'a, R: Files + Clock, W: Write>(
    rt: &R,
    alloc: Global,
    paths: RunPaths<'a>,
    out: &mut W,
) -> Ending<'a>
    ensures { RunsFile (files_of paths.entry) (W.contents out.old) (W.contents out.new) result }
{
    let image = match load_image(rt, alloc, paths.image, out) {
        Ok(image) => image,
        Err(outcome) => return Ending::plain(outcome),
    };
    match judge(rt, alloc, image, out) {
        Ok(verified) => {
            let read = [paths.image, paths.frames];
            run_on(rt, alloc, verified, paths, &read, out)
        }
        Err(ending) => ending,
    }
}

/// Verifies a program: its image is read and judged, and standard output says the most steps of a
/// run.
pub fn verify_file<'a, R: Files + Clock, W: Write>(
    rt: &R,
    alloc: Global,
    path: &'a str,
    out: &mut W,
) -> Ending<'a>
    ensures { VerifiesFile path.now (W.contents out.old) (W.contents out.new) result }
{
    let image = match load_image(rt, alloc, path, out) {
        Ok(image) => image,
        Err(outcome) => return Ending::plain(outcome),
    };
    say_verdict(rt, alloc, image, out)
}
