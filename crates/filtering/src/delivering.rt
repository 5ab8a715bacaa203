//! Runs whose report and frames out go to files, and what the maps hold, written to a file.

ghost use Rattle.std.specs.Prelude.{◌≡◌, None, OnOk};
ghost use Rattle.exact_io.specs.Waiting.{behind, failure_of, held};
ghost use Rattle.maps.specs.Maps.{contents_of, rows_of};
ghost use Rattle.filtering.specs.Running.{program_of};
ghost use Rattle.filtering.specs.Delivering.{Delivers, Filters, StoresMaps, names_of};

use super::ready::{Ready, run_ready};
use super::sending::SentOutput;
use commands::TaskOutcome;
use exact_io::PromptWriter;
use frames::Source;
use host::{Counted, HostError, NoReport};
use map_texts::write_maps;
use maps::Maps;
use messages::STANDARD_OUTPUT;
use std::alloc::Global;
use std::io::{ErrorKind, Write};

/// Says how messages name the outputs of a run.
#[derive(Clone, Copy)]
pub struct Names<'a> {
    pub report: &'a str,
    pub sent: &'a str,
}

// Flushes the frames out after a run. If the report's output failed, `why` is its cause. Returns
// what the run came to, or how the task ends.
fn delivered<'a, O: SentOutput>(
    names: Names<'a>,
    ended: Result<Counted, HostError>,
    why: Option<ErrorKind>,
    sent: &mut O,
) -> Result<Counted, TaskOutcome<'a>>
    ensures delivers { Delivers (names_of names.entry) why (O.cause sent.new) ended
        (O.contents sent.old) (O.got sent.new) result }
    ensures whole { OnOk result (O.IsDelivered sent.new) }
{
    match ended {
        Ok(counted) => match sent.deliver() {
            Ok(()) => match why {
                None => Ok(counted),
                Some(_) => Err(TaskOutcome::CannotWrite(names.report, why)),
            },
            Err(error) => Err(TaskOutcome::CannotWrite(names.sent, Some(error.kind()))),
        },
        Err(HostError::Memory) => {
            let _ = sent.deliver();
            Err(TaskOutcome::NoMemory)
        }
        Err(HostError::Report) => {
            let _ = sent.deliver();
            Err(TaskOutcome::CannotWrite(names.report, why))
        }
        Err(HostError::Frames) => {
            let _ = sent.deliver();
            Err(TaskOutcome::CannotWrite(names.sent, sent.cause()))
        }
    }
}

/// Runs a program on the frames of a stream, from these maps on. The report and the frames that are
/// sent on go through buffers to files that were opened by these names. Returns the counts and the
/// maps after the last frame, or how the task ends.
pub fn run_reported<'a, S: Source + Drop, W: Write + Drop, O: SentOutput>(
    alloc: Global,
    ready: Ready,
    maps: Maps,
    source: S,
    names: Names<'a>,
    report: &mut PromptWriter<W>,
    sent: &mut O,
) -> Result<Counted, TaskOutcome<'a>>
    requires { rows_of maps ≡ (program_of ready).maps }
    ensures whole { OnOk result (O.IsDelivered sent.new) }
    ensures filters { Filters ready (contents_of maps)
        record { bytes = S.remaining source; may_fail = S.may_fail } (names_of names.entry)
        (failure_of report.new) (O.cause sent.new)
        record { report = held W.contents report.old; sent = O.contents sent.old }
        record { report = W.contents (behind report.new); sent = O.got sent.new }
        result }
{
    let ended = run_ready(alloc, ready, maps, source, report, sent);
    let _ = report.flush();
    delivered(names, ended, report.failure(), sent)
}

/// Runs a program as `run_reported` does, without a report.
pub fn run_unreported<'a, S: Source + Drop, O: SentOutput>(
    alloc: Global,
    ready: Ready,
    maps: Maps,
    source: S,
    name: &'a str,
    sent: &mut O,
) -> Result<Counted, TaskOutcome<'a>>
    requires { rows_of maps ≡ (program_of ready).maps }
    ensures whole { OnOk result (O.IsDelivered sent.new) }
    ensures filters { Filters ready (contents_of maps)
        record { bytes = S.remaining source; may_fail = S.may_fail }
        record { report = STANDARD_OUTPUT.now; sent = name.now } None (O.cause sent.new)
        record { report = None; sent = O.contents sent.old }
        record { report = None; sent = O.got sent.new } result }
{
    let ended = run_ready(alloc, ready, maps, source, &mut NoReport, sent);
    // Without a report none fails.
    let names = Names {
        report: STANDARD_OUTPUT,
        sent: name,
    };
    delivered(names, ended, None, sent)
}

/// Writes what maps hold through a buffer to a file that was opened by this path. Returns how the
/// task ends, if that fails.
pub fn store_maps<'a, W: Write + Drop>(
    maps: &mut Maps,
    path: &'a str,
    file: &mut PromptWriter<W>,
) -> Result<(), TaskOutcome<'a>>
    ensures { StoresMaps (rows_of maps.old) (contents_of maps.old) path.now
        (held W.contents file.old) (W.contents (behind file.new)) result }
{
    match write_maps(maps, file) {
        Ok(()) => match file.flush() {
            Ok(()) => Ok(()),
            Err(error) => Err(TaskOutcome::CannotWrite(path, Some(error.kind()))),
        },
        Err(error) => Err(TaskOutcome::CannotWrite(path, Some(error.kind()))),
    }
}
