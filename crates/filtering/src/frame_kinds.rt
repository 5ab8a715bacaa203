//! What frames become that are written again.

ghost use Rattle.std.specs.Prelude.{◌≡◌};
ghost use Rattle.words.specs.FilterRequests.{convert_request_of};
ghost use Rattle.filtering.specs.FrameKinds.{first_kind, kind_by_end, kind_of, kind_unnamed, reasoned, written_as};

use super::opening::has_ending;
use captures::{CaptureKind, FrameForm};
use messages::FileForm;
use words::{ConvertTask, FramesKind};

/// Says how frames are written again.
#[derive(Clone, Copy)]
pub enum WrittenForm {
    /// As their records, or as a text.
    Plain(FrameForm),
    Capture(CaptureKind),
}

// What frames become by the end of their output's name.
fn kind_by_end(name: &str) -> Option<FramesKind>
    ensures { result ≡ kind_by_end name.now }
{
    if has_ending(name, ".pcapng") {
        Some(FramesKind::Pcapng)
    } else if has_ending(name, ".pcap") || has_ending(name, ".cap") {
        Some(FramesKind::Pcap)
    } else if has_ending(name, ".frames") {
        Some(FramesKind::Stream)
    } else if has_ending(name, ".txt") {
        Some(FramesKind::Text)
    } else {
        None
    }
}

// What frames become that are read from a file of this form, if no name says it.
fn kind_unnamed(form: FileForm) -> Option<FramesKind>
    ensures { result ≡ kind_unnamed form }
{
    match form {
        FileForm::Frames => None,
        _ => Some(FramesKind::Stream),
    }
}

// What is asked for, or else what the name of the output says, or else the form of the file.
fn first_kind(task: &ConvertTask<'_>, form: FileForm) -> Option<FramesKind>
    ensures { result ≡ first_kind (convert_request_of task.now) form }
{
    match task.kind {
        Some(kind) => Some(kind),
        None => match kind_by_end(task.out) {
            Some(kind) => Some(kind),
            None => kind_unnamed(form),
        },
    }
}

// A frame stream has reasons, if they are asked for.
fn reasoned(has_reasons: bool, kind: FramesKind) -> FramesKind
    ensures { result ≡ reasoned has_reasons kind }
{
    match kind {
        FramesKind::Stream => {
            if has_reasons {
                FramesKind::Reasoned
            } else {
                FramesKind::Stream
            }
        }
        other => other,
    }
}

/// What the frames of a task become: what is asked for, or else what the name of the output says,
/// or else the form of their file.
pub fn kind_of(task: &ConvertTask<'_>, form: FileForm) -> Option<FramesKind>
    ensures { result ≡ kind_of (convert_request_of task.now) form }
{
    match first_kind(task, form) {
        Some(kind) => Some(reasoned(task.has_reasons, kind)),
        None => None,
    }
}

/// How frames of a kind are written.
pub fn written_as(kind: FramesKind) -> WrittenForm
    ensures { result ≡ written_as kind }
{
    match kind {
        FramesKind::Pcap => WrittenForm::Capture(CaptureKind::Pcap),
        FramesKind::Pcapng => WrittenForm::Capture(CaptureKind::Pcapng),
        FramesKind::Stream => WrittenForm::Plain(FrameForm::Plain),
        FramesKind::Reasoned => WrittenForm::Plain(FrameForm::Reasoned),
        FramesKind::Text => WrittenForm::Plain(FrameForm::Text),
    }
}
