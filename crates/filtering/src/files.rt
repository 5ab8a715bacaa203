//! What is done with the files of a run.

ghost use Rattle.std.specs.Prelude.{◌≡◌, true, OnOk, option_map};
ghost use Rattle.exact_io.specs.Waiting.{behind};
ghost use Rattle.captures.specs.Choices.{frames_left};
ghost use Rattle.maps.specs.Maps.{contents_of, rows_of};
ghost use Rattle.words.specs.FilterRequests as judging;
ghost use Rattle.words.specs.FilterRequests.{filter_request_of};
ghost use Rattle.filtering.specs.Running.{program_of};
ghost use Rattle.filtering.specs.Capturing.{HasCaptured, passing_frames};
ghost use Rattle.filtering.specs.Files.{FiltersBy, FiltersFiles, FiltersOn, FiltersSome, RunsWanted};
ghost use Rattle.filtering.specs.Finishing.{WithUnsaid};

use super::delivering::{Names, run_reported, run_unreported};
use super::filling::maps_begun;
use super::finishing::{ending_with, finish};
use super::opening::{Named, Opened, open_all, output_name};
use super::ready::Ready;
use super::sending::SentOutput;
use captures::{
    CaptureForm, CaptureKind, CaptureWriter, Followed, FramesOf, Lent, Loss, Lost, Unfollowed,
    Unsaid,
};
use commands::{Ending, TaskOutcome, judge, load_image, load_shown};
use frames::Source;
use host::Counted;
use maps::Maps;
use std::alloc::Global;
use std::io::Write;
use std::rt::{Clock, Files};
use words::{FilterTask, Judging, StepLimit, TablePaths};

// Runs a program, with a report or without.
fn run_wanted<'a, S: Source + Drop, W: Write + Drop, O: SentOutput>(
    alloc: Global,
    ready: Ready,
    maps: Maps,
    source: S,
    report: Option<Named<'a, W>>,
    name: &'a str,
    sent: &mut O,
) -> Result<Counted, TaskOutcome<'a>>
    requires { rows_of maps ≡ (program_of ready).maps }
    ensures whole { OnOk result (O.IsDelivered sent.new) }
    ensures runs { RunsWanted ready (contents_of maps)
        record { bytes = S.remaining source; may_fail = S.may_fail }
        (option_map (λ output. output.path.now) report.entry) name.now result }
{
    match report {
        Some(Named { path, mut file }) => {
            let names = Names {
                report: path,
                sent: name,
            };
            run_reported(alloc, ready, maps, source, names, &mut file, sent)
        }
        None => run_unreported(alloc, ready, maps, source, name, sent),
    }
}

// Runs a program as `run_wanted` does. The frames out become a capture.
fn run_captured<'a, S: Source + Drop, W1: Write + Drop, W2: Write + Drop, T: Followed>(
    alloc: Global,
    ready: Ready,
    maps: Maps,
    source: S,
    report: Option<Named<'a, W1>>,
    name: &'a str,
    sent: &mut CaptureWriter<W2, T>,
) -> Result<Counted, TaskOutcome<'a>>
    requires { rows_of maps ≡ (program_of ready).maps }
    ensures runs { RunsWanted ready (contents_of maps)
        record { bytes = S.remaining source; may_fail = S.may_fail }
        (option_map (λ output. output.path.now) report.entry) name.now result }
    ensures captures { OnOk result (∥ HasCaptured T.form sent.new.written.lost T.origin
        (T.handed sent.new.trail) T.before (W2.contents (behind sent.new.output)) ∥₁) }
{
    run_wanted(alloc, ready, maps, source, report, name, sent)
}

// A capture of the frames that pass has none with a reason.
fn passing_form(kind: CaptureKind) -> CaptureForm
    ensures { result ≡ passing_frames kind }
{
    CaptureForm {
        kind,
        has_reasons: false,
    }
}

// Runs a program, with a capture of the frames that pass. `lost` gets what it does not say.
fn filter_to_capture<'a, S: Source + Drop, W1: Write + Drop, W2: Write>(
    alloc: Global,
    ready: Ready,
    maps: Maps,
    opened: Opened<'a, S, W1>,
    kind: CaptureKind,
    name: &'a str,
    lines: &mut W2,
    lost: &mut Lost,
) -> TaskOutcome<'a>
    requires { rows_of maps ≡ (program_of ready).maps }
    ensures { FiltersSome ready (contents_of maps)
        record { bytes = S.remaining opened.entry.source; may_fail = S.may_fail }
        opened.entry.form (option_map (λ output. output.path.now) opened.entry.report) name.now
        (option_map (λ output. output.path.now) opened.entry.maps_out)
        (W2.contents lines.old) (W2.contents lines.new) result }
{
    let Opened {
        source,
        form,
        sent,
        kind: _,
        report,
        maps_out,
    } = opened;
    let mut sent = CaptureWriter::new(sent, passing_form(kind), Unfollowed);
    let ended = run_captured(alloc, ready, maps, source, report, name, &mut sent);
    *lost = Lost::Capture(Loss {
        kind,
        counts: sent.lost(),
    });
    match ended {
        Ok(counted) => finish(alloc, counted, form, maps_out, lines),
        Err(outcome) => outcome,
    }
}

// Runs a program, with the frame stream of the frames out.
fn filter_to_stream<'a, S: Source + Drop, W1: Write + Drop, W2: Write>(
    alloc: Global,
    ready: Ready,
    maps: Maps,
    opened: Opened<'a, S, W1>,
    name: &'a str,
    lines: &mut W2,
) -> TaskOutcome<'a>
    requires { rows_of maps ≡ (program_of ready).maps }
    ensures { FiltersSome ready (contents_of maps)
        record { bytes = S.remaining opened.entry.source; may_fail = S.may_fail }
        opened.entry.form (option_map (λ output. output.path.now) opened.entry.report) name.now
        (option_map (λ output. output.path.now) opened.entry.maps_out)
        (W2.contents lines.old) (W2.contents lines.new) result }
{
    let Opened {
        source,
        form,
        mut sent,
        kind: _,
        report,
        maps_out,
    } = opened;
    match run_wanted(alloc, ready, maps, source, report, name, &mut sent) {
        Ok(counted) => finish(alloc, counted, form, maps_out, lines),
        Err(outcome) => outcome,
    }
}

/// Runs a program on the frames of a stream, from these maps on, and writes all that is wanted to
/// its outputs. The frames out go to an output of this name; `lost` gets what their capture does
/// not say.
pub fn filter_opened<'a, S: Source + Drop, W1: Write + Drop, W2: Write>(
    alloc: Global,
    ready: Ready,
    maps: Maps,
    opened: Opened<'a, S, W1>,
    name: &'a str,
    lines: &mut W2,
    lost: &mut Lost,
) -> TaskOutcome<'a>
    requires { rows_of maps ≡ (program_of ready).maps }
    ensures { FiltersSome ready (contents_of maps)
        record { bytes = S.remaining opened.entry.source; may_fail = S.may_fail }
        opened.entry.form (option_map (λ output. output.path.now) opened.entry.report) name.now
        (option_map (λ output. output.path.now) opened.entry.maps_out)
        (W2.contents lines.old) (W2.contents lines.new) result }
{
    match opened.kind {
        Some(kind) => filter_to_capture(alloc, ready, maps, opened, kind, name, lines, lost),
        None => filter_to_stream(alloc, ready, maps, opened, name, lines),
    }
}

// Runs a program as `filter_opened` does, and notes what is not kept of the frames.
fn filter_counted<'a, S: Source + Drop, W1: Write + Drop, W2: Write>(
    alloc: Global,
    ready: Ready,
    maps: Maps,
    opened: Opened<'a, FramesOf<S>, W1>,
    name: &'a str,
    lines: &mut W2,
    unsaid: &mut Unsaid,
) -> TaskOutcome<'a>
    requires { rows_of maps ≡ (program_of ready).maps }
    ensures { FiltersSome ready (contents_of maps)
        record { bytes = frames_left S.remaining opened.entry.source; may_fail = true }
        opened.entry.form (option_map (λ output. output.path.now) opened.entry.report) name.now
        (option_map (λ output. output.path.now) opened.entry.maps_out)
        (W2.contents lines.old) (W2.contents lines.new) result }
{
    let Opened {
        mut source,
        form,
        sent,
        kind,
        report,
        maps_out,
    } = opened;
    let lent = Opened {
        source: Lent {
            source: &mut source,
        },
        form,
        sent,
        kind,
        report,
        maps_out,
    };
    let outcome = filter_opened(alloc, ready, maps, lent, name, lines, &mut unsaid.lost);
    *unsaid = Unsaid::of(&source, unsaid.lost);
    outcome
}

// Runs a program that is ready: its maps are filled, then the frames are opened, and then the
// outputs are made.
fn filter_on<'a, R: Files + Clock, W: Write>(
    rt: &R,
    alloc: Global,
    ready: Ready,
    task: FilterTask<'a>,
    lines: &mut W,
    unsaid: &mut Unsaid,
) -> TaskOutcome<'a>
    ensures { FiltersOn ready (filter_request_of task.entry) (W.contents lines.old)
        (W.contents lines.new) result }
{
    let maps = match maps_begun(rt, alloc, ready.image(), task.maps, lines) {
        Ok(maps) => maps,
        Err(outcome) => return outcome,
    };
    match open_all(rt, alloc, task) {
        Ok(opened) => {
            let name = output_name(task.paths.out);
            filter_counted(alloc, ready, maps, opened, name, lines, unsaid)
        }
        Err(outcome) => outcome,
    }
}

// Runs a program that is ready, and says at the end what is not kept of the frames.
fn run_and_tell<'a, R: Files + Clock, W: Write>(
    rt: &R,
    alloc: Global,
    ready: Ready,
    task: FilterTask<'a>,
    lines: &mut W,
) -> Ending<'a>
    ensures { WithUnsaid (FiltersOn ready (filter_request_of task.entry) (W.contents lines.old)
        (W.contents lines.new)) result }
{
    let mut unsaid = Unsaid::nothing();
    let outcome = filter_on(rt, alloc, ready, task, lines, &mut unsaid);
    ending_with(alloc, outcome, unsaid)
}

// Verifies a program and runs it.
fn filter_verified<'a, R: Files + Clock, W: Write>(
    rt: &R,
    alloc: Global,
    task: FilterTask<'a>,
    lines: &mut W,
) -> Ending<'a>
    ensures { FiltersBy judging.Verified (filter_request_of task.entry) (W.contents lines.old)
        (W.contents lines.new) result }
{
    let image = match load_image(rt, alloc, task.paths.image, lines) {
        Ok(image) => image,
        Err(outcome) => return Ending::plain(outcome),
    };
    match judge(rt, alloc, image, lines) {
        Ok(verified) => {
            let ready = Ready::Bounded(verified);
            run_and_tell(rt, alloc, ready, task, lines)
        }
        Err(ending) => ending,
    }
}

// Tests a proof table and runs its program.
fn filter_shown<'a, R: Files + Clock, W: Write>(
    rt: &R,
    alloc: Global,
    task: FilterTask<'a>,
    table: &'a str,
    lines: &mut W,
) -> Ending<'a>
    ensures { FiltersBy (judging.Shown table.now) (filter_request_of task.entry)
        (W.contents lines.old) (W.contents lines.new) result }
{
    let image = task.paths.image;
    match load_shown(rt, alloc, TablePaths { image, table }, lines) {
        Ok(verified) => {
            let ready = Ready::Bounded(verified);
            run_and_tell(rt, alloc, ready, task, lines)
        }
        Err(ending) => ending,
    }
}

// Runs a program with every access tested.
fn filter_checked<'a, R: Files + Clock, W: Write>(
    rt: &R,
    alloc: Global,
    task: FilterTask<'a>,
    limit: StepLimit,
    lines: &mut W,
) -> Ending<'a>
    ensures { FiltersBy (judging.Checked limit.steps) (filter_request_of task.entry)
        (W.contents lines.old) (W.contents lines.new) result }
{
    match load_image(rt, alloc, task.paths.image, lines) {
        Ok(image) => {
            let ready = Ready::Tested(image, limit);
            run_and_tell(rt, alloc, ready, task, lines)
        }
        Err(outcome) => Ending::plain(outcome),
    }
}

/// Runs a program as the task says. Files are opened by their paths, and `lines` gets what is said:
/// a refusal, or the counts.
pub fn filter_files<'a, R: Files + Clock, W: Write>(
    rt: &R,
    alloc: Global,
    task: FilterTask<'a>,
    lines: &mut W,
) -> Ending<'a>
    ensures { FiltersFiles (filter_request_of task.entry) (W.contents lines.old)
        (W.contents lines.new) result }
{
    match task.judging {
        Judging::Verified => filter_verified(rt, alloc, task, lines),
        Judging::Shown(table) => filter_shown(rt, alloc, task, table, lines),
        Judging::Checked(limit) => filter_checked(rt, alloc, task, limit, lines),
    }
}
