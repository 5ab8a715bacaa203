//! Frames that are written again: as a capture, a frame stream or a text.

ghost use Rattle.std.specs.Prelude.{◌≡◌, IfErr, bytes_eq, codes};
ghost use Rattle.words.specs.FilterRequests.{convert_request_of};
ghost use Rattle.exact_io.specs.Replacing.{written};
ghost use Rattle.commands.specs.Statuses.{IsMakeFailure};
ghost use Rattle.filtering.specs.FrameKinds.{written_as};
ghost use Rattle.filtering.specs.Conversions.{CapturesBegun, CapturesFrom, ConvertsBegun, ConvertsFiles, CopiesBegun, CopiesFrom, PrintsBegun, WritesBegun, copied_by, outcome_of, placing_of};

use super::copying::{copied, copied_to_capture};
use super::finishing::ending_with;
use super::frame_kinds::{WrittenForm, kind_of, written_as};
use super::opening::{frames_of, frames_path, is_dash, open_sent, output_name, told_form};
use captures::{
    CaptureKind, FrameForm, Lent, Lost, Placing, Reasons, StreamEnd, Unfollowed, Unsaid,
};
use commands::{Ending, TaskOutcome, begin_frames, keep_apart, open_frames};
use exact_io::PromptWriter;
use frames::Source;
use isa_model::Finish;
use messages::{FileForm, STANDARD_OUTPUT};
use std::alloc::Global;
use std::io::Write;
use std::rt::{Clock, Files};
use words::{ConvertTask, FramesKind};

// Where standard output is open.
const OUTPUT: &str = "/dev/stdout";

/// What came of a task that writes frames again.
#[derive(Drop)]
pub enum Conversion<'a> {
    /// It ended in this way.
    Ended(Ending<'a>),
    /// The name of the output does not say what the frames are to become, and nothing was made.
    Unnamed,
}

// Frames whose file was opened by this path, and has this form by its first bytes; and where all of
// them came in by, if that is said.
#[derive(Drop)]
struct Begun<'a, S> {
    path: &'a str,
    source: S,
    form: FileForm,
    placing: Placing,
}

// How the task ends after a stream of a file of this form.
fn outcome_of<'a>(ended: Result<StreamEnd, TaskOutcome<'a>>, form: FileForm) -> TaskOutcome<'a>
    ensures { result ≡ outcome_of ended.entry form }
{
    match ended {
        Ok(StreamEnd { finish, .. }) => match finish {
            Finish::End => TaskOutcome::Done,
            Finish::Fault(fault, _) => TaskOutcome::Faulted(fault, form),
        },
        Err(outcome) => outcome,
    }
}

// What a stream or a text does not say of the frames that were copied to it.
fn copied_by(ended: &Result<StreamEnd, TaskOutcome<'_>>) -> Lost
    ensures { result ≡ copied_by ended.now }
{
    match ended {
        Ok(end) => Lost::Stream(end.counts),
        Err(_) => Lost::Nothing,
    }
}

// Copies the frames of a file to an output of this name, written in this form. At the end of the
// message is where a capture is damaged, and what is not kept of the frames.
fn copy_from<'a, S: Source + Drop, W: Write + Drop>(
    alloc: Global,
    from: Begun<'a, S>,
    frame_form: FrameForm,
    name: &'a str,
    output: &mut PromptWriter<W>,
) -> Ending<'a>
    ensures { CopiesFrom W.contents from.entry.path.now (S.remaining from.entry.source)
        from.entry.form frame_form from.entry.placing name.now output.old output.new result }
{
    let form = from.form;
    match frames_of(alloc, from.source, form, Reasons::Read, from.path) {
        Ok(mut frames) => {
            let form = told_form(&frames, form);
            let lent = Lent {
                source: &mut frames,
            };
            let ended = copied(frame_form, from.placing, lent, name, output);
            let unsaid = Unsaid::of(&frames, copied_by(&ended));
            ending_with(alloc, outcome_of(ended, form), unsaid)
        }
        Err(outcome) => Ending::plain(outcome),
    }
}

// Copies the frames of a file to an output of this name, as a capture. At the end of the message is
// where a capture that is read is damaged, and what is not kept of the frames.
fn capture_from<'a, S: Source + Drop, W: Write + Drop>(
    alloc: Global,
    from: Begun<'a, S>,
    kind: CaptureKind,
    name: &'a str,
    output: PromptWriter<W>,
) -> Ending<'a>
    ensures { CapturesFrom from.entry.path.now (S.remaining from.entry.source) from.entry.form kind
        from.entry.placing name.now result }
{
    let form = from.form;
    match frames_of(alloc, from.source, form, Reasons::Read, from.path) {
        Ok(mut frames) => {
            let form = told_form(&frames, form);
            let lent = Lent {
                source: &mut frames,
            };
            let (ended, loss) = copied_to_capture(
                from.placing,
                lent,
                kind,
                name,
                output,
                Unfollowed,
            );
            let unsaid = Unsaid::of(&frames, Lost::Capture(loss));
            ending_with(alloc, outcome_of(ended, form), unsaid)
        }
        Err(outcome) => Ending::plain(outcome),
    }
}

// Tests that the frames are not read from what standard output is.
fn keep_printed<R: Files>(rt: &R, path: &str) -> Result<(), TaskOutcome<'static>>
    ensures { IfErr result (IsMakeFailure (codes "standard output")) }
{
    match keep_apart(rt, path, &[OUTPUT], &[]) {
        Ok(()) => Ok(()),
        Err(TaskOutcome::CannotReplace(_, conflict)) => {
            Err(TaskOutcome::CannotReplace(STANDARD_OUTPUT, conflict))
        }
        Err(_) => Err(TaskOutcome::CannotWrite(STANDARD_OUTPUT, None)),
    }
}

// Copies the frames of a file to standard output, which has this name, written in this form.
fn print_begun<'a, R: Files, S: Source + Drop, W: Write + Drop>(
    rt: &R,
    alloc: Global,
    from: Begun<'a, S>,
    frame_form: FrameForm,
    name: &'a str,
    out: &mut PromptWriter<W>,
) -> Ending<'a>
    ensures { PrintsBegun W.contents from.entry.path.now (S.remaining from.entry.source)
        from.entry.form frame_form from.entry.placing name.now out.old out.new result }
{
    match keep_printed(rt, from.path) {
        Ok(()) => copy_from(alloc, from, frame_form, name, out),
        Err(outcome) => Ending::plain(outcome),
    }
}

// Makes the output, and copies the frames of a file to it, written in this form.
fn copy_begun<'a, R: Files, S: Source + Drop>(
    rt: &R,
    alloc: Global,
    from: Begun<'a, S>,
    frame_form: FrameForm,
    output: &'a str,
) -> Ending<'a>
    ensures { CopiesBegun (written R.File.contents) from.entry.path.now
        (S.remaining from.entry.source) from.entry.form frame_form from.entry.placing output.now
        result }
{
    match open_sent(rt, alloc, output, true, &[from.path]) {
        Ok(mut file) => copy_from(alloc, from, frame_form, output_name(output), &mut file),
        Err(outcome) => Ending::plain(outcome),
    }
}

// Copies the frames of a file to standard output or to another file, written in this form.
fn write_begun<'a, R: Files, S: Source + Drop, W: Write + Drop>(
    rt: &R,
    alloc: Global,
    from: Begun<'a, S>,
    frame_form: FrameForm,
    output: &'a str,
    out: &mut PromptWriter<W>,
) -> Ending<'a>
    ensures { WritesBegun (bytes_eq output.now (codes "-")) W.contents (written R.File.contents)
        from.entry.path.now (S.remaining from.entry.source) from.entry.form frame_form
        from.entry.placing output.now out.old out.new result }
{
    if is_dash(output) {
        print_begun(rt, alloc, from, frame_form, output_name(output), out)
    } else {
        copy_begun(rt, alloc, from, frame_form, output)
    }
}

// Makes the output, and copies the frames of a file to it, as a capture.
fn capture_begun<'a, R: Files, S: Source + Drop>(
    rt: &R,
    alloc: Global,
    from: Begun<'a, S>,
    kind: CaptureKind,
    output: &'a str,
) -> Ending<'a>
    ensures { CapturesBegun from.entry.path.now (S.remaining from.entry.source) from.entry.form
        kind from.entry.placing output.now result }
{
    match open_sent(rt, alloc, output, true, &[from.path]) {
        Ok(file) => capture_from(alloc, from, kind, output_name(output), file),
        Err(outcome) => Ending::plain(outcome),
    }
}

// Makes the output, and writes the frames of a file to it again, as this kind.
fn convert_begun<'a, R: Files, S: Source + Drop, W: Write + Drop>(
    rt: &R,
    alloc: Global,
    from: Begun<'a, S>,
    kind: FramesKind,
    output: &'a str,
    out: &mut PromptWriter<W>,
) -> Ending<'a>
    ensures { ConvertsBegun W.contents (written R.File.contents) from.entry.path.now
        (S.remaining from.entry.source) from.entry.form (written_as kind) from.entry.placing
        output.now out.old out.new result }
{
    match written_as(kind) {
        WrittenForm::Plain(form) => write_begun(rt, alloc, from, form, output, out),
        WrittenForm::Capture(kind) => capture_begun(rt, alloc, from, kind, output),
    }
}

// Where all frames came in by, as the task says it.
fn placing_of(task: &ConvertTask<'_>) -> Placing
    ensures { result ≡ placing_of (convert_request_of task.now) }
{
    Placing {
        interface: task.interface,
        queue: task.queue,
    }
}

/// Writes frames again as the task says. Files are opened by their paths; the output is made once
/// the first bytes of the frames were read. `out` is standard output.
pub fn convert_files<'a, R: Files + Clock, W: Write + Drop>(
    rt: &R,
    alloc: Global,
    task: ConvertTask<'a>,
    out: &mut PromptWriter<W>,
) -> Conversion<'a>
    ensures { ConvertsFiles W.contents (written R.File.contents) (convert_request_of task.entry)
        out.old out.new result }
{
    let path = frames_path(task.frames);
    let source = match open_frames(rt, alloc, path) {
        Ok(source) => source,
        Err(outcome) => return Conversion::Ended(Ending::plain(outcome)),
    };
    let (source, form) = begin_frames(rt, path, source);
    match kind_of(&task, form) {
        Some(kind) => {
            let from = Begun {
                path,
                source,
                form,
                placing: placing_of(&task),
            };
            Conversion::Ended(convert_begun(rt, alloc, from, kind, task.out, out))
        }
        None => Conversion::Unnamed,
    }
}
