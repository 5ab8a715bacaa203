//! The files of a run: the frames that are read, and the outputs.

ghost use Rattle.std.specs.Prelude.{◌≡◌, IfErr, IfOk, bytes_eq, codes, option_map};
ghost use Rattle.captures.specs.Choices.{IsFramesOf, frames_left};
ghost use Rattle.commands.specs.Statuses.{IsMakeFailure, IsReadFailure};
ghost use Rattle.words.specs.FilterRequests.{filter_request_of};
ghost use Rattle.filtering.specs.Opening.{IsOpenFailure, IsOutputConflict, IsToldForm, told_form, has_ending, is_capture, kind_by_form, kind_by_name, kind_of_out, MakesNot, frames_path, output_name};

use captures::{CaptureKind, FramesOf, OpenFailure, Reasons};
use commands::{
    TaskOutcome, Watched, begin_frames, create_output, keep_apart, open_frames,
    open_standard_output,
};
use exact_io::{PromptWriter, Replaced};
use frames::{Ahead, Source};
use messages::{FileForm, STANDARD_OUTPUT};
use std::alloc::Global;
use std::io::{ErrorKind, Write};
use std::rt::{Clock, Files};
use words::{FilterTask, Judging};

/// An output, and the path that it was opened by.
#[derive(Drop)]
pub struct Named<'a, W: Write + Drop> {
    pub path: &'a str,
    pub file: PromptWriter<W>,
}

/// The files of a run, opened.
#[derive(Drop)]
pub struct Opened<'a, S, W: Write + Drop> {
    pub source: S,
    /// The form of the frames' file by its first bytes.
    pub form: FileForm,
    pub sent: PromptWriter<W>,
    /// The format of the capture that the frames out become, if they become one.
    pub kind: Option<CaptureKind>,
    pub report: Option<Named<'a, W>>,
    pub maps_out: Option<Named<'a, W>>,
}

/// Returns whether a path stands for standard input or standard output.
pub fn is_dash(path: &str) -> bool
    ensures { result ≡ bytes_eq path.now (codes "-") }
{
    path == "-"
}

/// Where the frames are read.
pub fn frames_path(path: &str) -> &str
    ensures { result.now ≡ frames_path path.now }
{
    if is_dash(path) { "/dev/stdin" } else { path }
}

/// Returns how messages name the output of the frames out.
pub fn output_name<'a>(path: &'a str) -> &'a str
    ensures { result.now ≡ output_name path.now }
{
    if is_dash(path) { STANDARD_OUTPUT } else { path }
}

// The files that a task reads; where it has none of a kind, the image again.
fn files_read<'a>(task: &FilterTask<'a>) -> [&'a str; 4] {
    let image = task.paths.image;
    let table = match task.judging {
        Judging::Shown(table) => table,
        Judging::Verified | Judging::Checked(_) => image,
    };
    let maps = match task.maps {
        Some(maps) => maps,
        None => image,
    };
    [image, table, maps, frames_path(task.paths.frames)]
}

// Tests, before any file is made, that no output is a file that is read or another output.
fn keep_all_apart<'a, R: Files>(
    rt: &R,
    task: &FilterTask<'a>,
    read: &[&str],
) -> Result<(), TaskOutcome<'a>>
    ensures { IfErr result (IsOutputConflict (filter_request_of task.now)) }
{
    let out = task.paths.out;
    if !is_dash(out) {
        keep_apart(rt, out, read, &[])?;
    }
    let report = match task.report {
        Some(report) => {
            keep_apart(rt, report, read, &[out])?;
            report
        }
        None => out,
    };
    match task.maps_out {
        Some(maps_out) => keep_apart(rt, maps_out, read, &[out, report]),
        None => Ok(()),
    }
}

/// Makes the output of frames; `may_be_empty` as `create_output` takes it.
pub fn open_sent<'a, R: Files>(
    rt: &R,
    alloc: Global,
    path: &'a str,
    may_be_empty: bool,
    read: &[&str],
) -> Result<PromptWriter<Replaced<R::File>>, TaskOutcome<'a>>
    ensures { IfErr result (IsMakeFailure (output_name path.now)) }
{
    if is_dash(path) {
        open_standard_output(rt, alloc, read)
    } else {
        create_output(rt, alloc, path, may_be_empty, read, &[])
    }
}

// Makes an output, if it is wanted.
fn open_wanted<'a, R: Files>(
    rt: &R,
    alloc: Global,
    path: Option<&'a str>,
    may_be_empty: bool,
    read: &[&str],
    written: &[&str],
) -> Result<Option<Named<'a, Replaced<R::File>>>, TaskOutcome<'a>>
    ensures named { IfOk result (λ output. option_map (λ o. o.path.now) output
        ≡ option_map (λ p. p.now) path.entry) }
    ensures failed { IfErr result (MakesNot (option_map (λ p. p.now) path.entry)) }
{
    match path {
        Some(path) => match create_output(rt, alloc, path, may_be_empty, read, written) {
            Ok(file) => Ok(Some(Named { path, file })),
            Err(outcome) => Err(outcome),
        },
        None => Ok(None),
    }
}

/// Whether a name has this ending.
pub fn has_ending(name: &str, ending: &str) -> bool
    ensures { result ≡ has_ending name.now ending.now }
{
    name.as_bytes().ends_with(ending.as_bytes())
}

// The format that the end of a name says: of a capture, or else that of a frame stream.
fn kind_by_name(name: &str) -> Option<Option<CaptureKind>>
    ensures { result ≡ kind_by_name name.now }
{
    if has_ending(name, ".pcapng") {
        Some(Some(CaptureKind::Pcapng))
    } else if has_ending(name, ".pcap") || has_ending(name, ".cap") {
        Some(Some(CaptureKind::Pcap))
    } else if has_ending(name, ".frames") {
        Some(None)
    } else {
        None
    }
}

// The format of a capture in a file of this form.
fn kind_by_form(form: FileForm) -> Option<CaptureKind>
    ensures { result ≡ kind_by_form form }
{
    match form {
        FileForm::Pcap => Some(CaptureKind::Pcap),
        FileForm::Pcapng => Some(CaptureKind::Pcapng),
        _ => None,
    }
}

// The format of the capture that the frames out become, if they become one: by the end of the name,
// or else that in which the frames are read.
fn kind_of_out(name: &str, form: FileForm) -> Option<CaptureKind>
    ensures { result ≡ kind_of_out name.now form }
{
    match kind_by_name(name) {
        Some(kind) => kind,
        None => kind_by_form(form),
    }
}

/// The frame stream of a file with this path and this form: that which a capture becomes, of which
/// reasons are read or not, or the file itself.
pub fn frames_of<'a, S: Source + Drop>(
    alloc: Global,
    source: S,
    form: FileForm,
    reasons: Reasons,
    path: &'a str,
) -> Result<FramesOf<S>, TaskOutcome<'a>>
    ensures frames { IfOk result (λ frames. IsFramesOf reasons (S.remaining source)
        (is_capture form) (frames_left S.remaining frames)) }
    ensures failed { IfErr result (IsReadFailure path.now) }
{
    let is_capture = matches!(form, FileForm::Pcap | FileForm::Pcapng);
    match FramesOf::open(alloc, source, is_capture, reasons) {
        Ok(frames) => Ok(frames),
        Err(OpenFailure::NoMemory) => Err(TaskOutcome::NoMemory),
        Err(_) => Err(TaskOutcome::CannotRead(path, ErrorKind::Other)),
    }
}

/// The form of a file by what became of it: one of its own for a capture that is not read.
pub fn told_form<S>(frames: &FramesOf<S>, form: FileForm) -> FileForm
    ensures told { result ≡ told_form frames.now form }
    ensures is_told { IsToldForm form result }
{
    match frames {
        FramesOf::Refused => FileForm::UnreadCapture,
        FramesOf::Stream(_) | FramesOf::Capture(_) => form,
    }
}

// The outputs of a run, made.
#[derive(Drop)]
struct Outputs<'a, W: Write + Drop> {
    sent: PromptWriter<W>,
    report: Option<Named<'a, W>>,
    maps_out: Option<Named<'a, W>>,
}

// Makes the outputs: the frames out, the report, and what the maps hold at the end.
fn make_outputs<'a, R: Files>(
    rt: &R,
    alloc: Global,
    task: &FilterTask<'a>,
    read: &[&str],
) -> Result<Outputs<'a, Replaced<R::File>>, TaskOutcome<'a>>
    ensures report { IfOk result (λ made. option_map (λ o. o.path.now) made.report
        ≡ option_map (λ p. p.now) task.now.report) }
    ensures maps_out { IfOk result (λ made. option_map (λ o. o.path.now) made.maps_out
        ≡ option_map (λ p. p.now) task.now.maps_out) }
    ensures failed { IfErr result (IsOutputConflict (filter_request_of task.now)) }
{
    let out = task.paths.out;
    let sent = open_sent(rt, alloc, out, false, read)?;
    let report = open_wanted(rt, alloc, task.report, false, read, &[out])?;
    let written = [out, task.report.unwrap_or(out)];
    let maps_out = open_wanted(rt, alloc, task.maps_out, true, read, &written)?;
    Ok(Outputs {
        sent,
        report,
        maps_out,
    })
}

/// Opens the frames, and then makes the outputs: the frames out, the report, and what the maps hold
/// at the end. At the end the first bytes of the frames are read ahead, of a capture its head.
pub fn open_all<'a, 'b, R: Files + Clock>(
    rt: &'b R,
    alloc: Global,
    task: FilterTask<'a>,
) -> Result<
    Opened<'a, FramesOf<Ahead<Watched<'b, R, <R as Files>::File>>>, Replaced<<R as Files>::File>>,
    TaskOutcome<'a>,
>
    ensures report { IfOk result (λ opened. option_map (λ o. o.path.now) opened.report
        ≡ option_map (λ p. p.now) task.entry.report) }
    ensures maps_out { IfOk result (λ opened. option_map (λ o. o.path.now) opened.maps_out
        ≡ option_map (λ p. p.now) task.entry.maps_out) }
    ensures kind { IfOk result (λ opened. opened.kind
        ≡ kind_of_out task.entry.paths.out.now opened.form) }
    ensures failed { IfErr result (IsOpenFailure (filter_request_of task.entry)) }
{
    let read = files_read(&task);
    let frames = frames_path(task.paths.frames);
    let source = open_frames(rt, alloc, frames)?;
    keep_all_apart(rt, &task, &read)?;
    let outputs = make_outputs(rt, alloc, &task, &read)?;
    let (source, form) = begin_frames(rt, frames, source);
    let source = frames_of(alloc, source, form, Reasons::Ignored, frames)?;
    let form = told_form(&source, form);
    Ok(Opened {
        source,
        form,
        sent: outputs.sent,
        kind: kind_of_out(task.paths.out, form),
        report: outputs.report,
        maps_out: outputs.maps_out,
    })
}
