//! Programs that are run or traced on a frame stream, and how the task ends then.

ghost use Rattle.exact_io.specs.Waiting.{behind, failure_of, held};
ghost use Rattle.commands.specs.Streams.{EndsTask, RunsAccepted, Traces};

use super::endings::Ending;
use super::outcomes::TaskOutcome;
use bounds::Verified;
use exact_io::PromptWriter;
use frames::Source;
use host::{HostError, Ran, Tally, run_checked, run_noting_invalid, tally_in};
use image::Image;
use messages::{FileForm, STANDARD_OUTPUT, lines_of_invalid, lines_of_stops};
use std::alloc::Global;
use std::io::Write;
use words::StepLimit;

/// Returns how a task ended that ran a program on a frame stream, and wrote the frames out to the
/// file at the path. The rest of the buffer is written to the file, unless the file has failed
/// before. A failure of standard output is reported when it is flushed.
pub fn outcome_of<'a, W: Write + Drop>(
    path: &'a str,
    form: FileForm,
    ended: Result<Tally, HostError>,
    file: &mut PromptWriter<W>,
) -> TaskOutcome<'a>
    ensures { EndsTask path.now (failure_of file.new) form ended
        (held W.contents file.old) (W.contents (behind file.new)) result }
{
    match ended {
        Ok(tally) => match file.flush() {
            Ok(()) => match tally.fault {
                None => TaskOutcome::Done,
                Some((fault, _)) => TaskOutcome::Faulted(fault, form),
            },
            Err(error) => TaskOutcome::CannotWrite(path, Some(error.kind())),
        },
        Err(HostError::Memory) => TaskOutcome::NoMemory,
        Err(HostError::Report) => {
            let _ = file.flush();
            TaskOutcome::CannotWrite(STANDARD_OUTPUT, None)
        }
        Err(HostError::Frames) => TaskOutcome::CannotWrite(path, file.failure()),
    }
}

/// Runs an accepted program on a frame stream of this file form. The report is written to `out` as
/// it is made, and the frames out through a buffer to a file that was opened by this path. If the
/// report was completed, `why` says which packet frames' runs ended with INVALID.
pub fn run_stream<'a, R: Source + Drop, W1: Write, W2: Write + Drop>(
    alloc: Global,
    verified: Verified,
    source: R,
    form: FileForm,
    path: &'a str,
    out: &mut W1,
    file: &mut PromptWriter<W2>,
) -> Ending<'a>
    ensures { RunsAccepted verified
        record { bytes = R.remaining source; may_fail = R.may_fail } form path.now
        (failure_of file.new)
        record { report = W1.contents out.old; sent = held W2.contents file.old }
        record { report = W1.contents out.new; sent = W2.contents (behind file.new) } result }
{
    let ended = run_noting_invalid(alloc, verified, source, out, file);
    let invalid = lines_of_invalid(alloc, &ended);
    let outcome = outcome_of(path, form, Ran::tally_in(ended), file);
    Ending::after_stream(outcome, invalid)
}

/// Runs a program on a frame stream of this file form, with checks. The checked report is written
/// to `out` as it is made, and the frames out through a buffer to a file that was opened by this
/// path. If the report was completed, `why` says where the first runs stopped that ended without
/// an action.
pub fn trace_stream<'a, R: Source + Drop, W1: Write, W2: Write + Drop>(
    alloc: Global,
    image: Image,
    limit: StepLimit,
    source: R,
    form: FileForm,
    path: &'a str,
    out: &mut W1,
    file: &mut PromptWriter<W2>,
) -> Ending<'a>
    ensures { Traces image limit.steps
        record { bytes = R.remaining source; may_fail = R.may_fail } form path.now
        (failure_of file.new)
        record { report = W1.contents out.old; sent = held W2.contents file.old }
        record { report = W1.contents out.new; sent = W2.contents (behind file.new) } result }
{
    let ended = run_checked(alloc, image, limit.steps, source, out, file);
    let lines = lines_of_stops(alloc, &ended);
    let outcome = outcome_of(path, form, tally_in(ended), file);
    Ending::after_stream(outcome, lines)
}
