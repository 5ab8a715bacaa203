//! The run of one frame of a stream, step by step.

ghost use Rattle.std.specs.Prelude.{◌≡◌, IfOk};
ghost use Rattle.survey_commands.specs.Ends.{IsStepsStatus, found_status, missing_status};
ghost use Rattle.survey_commands.specs.Runs.{FindsOf};

use crate::begun::{Begun, NotBegun, begin, judged};
use crate::failures::SurveyError;
use crate::streams::say_faulted;
use coverage::{
    BoundVerdict, FrameFound, FrameShown, FrameSteps, skip_json, skip_text, skip_words, write_json,
    write_text,
};
use exact_io::write_bytes;
use image::Image;
use isa_model::{Finish, Version};
use std::alloc::{AllocError, Global};
use std::io;
use std::io::Write;
use std::rt::{Clock, Files};
use words::RunAsked;

/// What was found of a frame, and the version of the program.
#[derive(Drop)]
struct Found {
    frame: FrameFound,
    program: Version,
}

/// The line for a frame that the stream does not have.
fn no_frame_line(alloc: Global, frame: u32, count: u32) -> Result<String, AllocError> {
    format!(in alloc; "there is no frame {frame}: the stream has {count} frames, from 0 on\n")
}

/// The line for a frame that is not run.
fn skipped_line(alloc: Global, frame: u32, reason: u32) -> Result<String, AllocError> {
    format!(in alloc; "frame {frame} has reason {reason}: it is not run\n")
}

/// The version of the program.
fn version_of(image: &Image) -> Version
    ensures { result ≡ image.now.version }
{
    if image.version() == 1 {
        Version::One
    } else {
        Version::Two
    }
}

/// Runs the image on the stream, up to the frame.
fn find<R: Files + Clock + AllocGlobal, W1: Write, W2: Write>(
    rt: &R,
    asked: RunAsked<'_>,
    frame: u32,
    out: &mut W1,
    err: &mut W2,
) -> Result<Found, NotBegun>
    ensures { IfOk result (FindsOf asked.entry.limit.steps frame) }
{
    let alloc = rt.alloc();
    let Begun {
        bytes: _,
        image,
        again,
        maps,
        source,
    } = begin(rt, alloc, asked, out, err)?;
    let program = version_of(&image);
    if let BoundVerdict::Unknown = judged(alloc, again, err)? {
        return Err(NotBegun::Failed(SurveyError::Memory));
    }
    let frame = coverage::steps(alloc, image, maps, asked.limit.steps, source, frame)?;
    Ok(Found { frame, program })
}

/// Writes the steps of a frame's run.
fn write_steps<W: Write>(
    alloc: Global,
    about: FrameShown<'_>,
    steps: &FrameSteps,
    is_json: bool,
    out: &mut W,
) -> io::Result<()> {
    if is_json {
        write_json(alloc, about, steps, out)?;
    } else {
        write_text(alloc, about, steps, out)?;
    }
    out.flush()
}

/// What is written of a frame with a reason.
fn skipped_text(
    alloc: Global,
    about: FrameShown<'_>,
    len: usize,
    reason: u32,
    is_json: bool,
) -> Result<String, AllocError> {
    let end = skip_words(alloc, len, reason)?;
    if is_json {
        skip_json(alloc, about, end.as_str())
    } else {
        skip_text(alloc, about, end.as_str())
    }
}

/// Writes a frame with a reason, and says on standard error that it is not run.
fn write_skipped<W1: Write, W2: Write>(
    alloc: Global,
    about: FrameShown<'_>,
    len: usize,
    reason: u32,
    is_json: bool,
    out: &mut W1,
    err: &mut W2,
) -> Result<u8, SurveyError>
    ensures { IfOk result (λ status. status ≡ 0) }
{
    let text = skipped_text(alloc, about, len, reason, is_json)?;
    let line = skipped_line(alloc, about.frame, reason)?;
    match write_bytes(out, text.as_bytes()) {
        Ok(()) => {
            let _ = write_bytes(err, line.as_bytes());
            Ok(0)
        }
        Err(error) => Err(SurveyError::of_output(alloc, error.kind())),
    }
}

/// Says on standard error that the stream has no such frame, and which fault ended it.
fn say_missing<R: Files + AllocGlobal, W: Write>(
    rt: &R,
    path: &str,
    frame: u32,
    count: u32,
    finish: Finish,
    err: &mut W,
) -> Result<u8, SurveyError>
    ensures { IfOk result (λ status. status ≡ missing_status finish) }
{
    let line = no_frame_line(rt.alloc(), frame, count)?;
    let _ = write_bytes(err, line.as_bytes());
    match finish {
        Finish::End => Ok(1),
        Finish::Fault(fault, _) => Ok(say_faulted(rt, path, fault, err)),
    }
}

/// Writes what was found, or says on standard error why that are no steps.
fn write_found<R: Files + AllocGlobal, W1: Write, W2: Write>(
    rt: &R,
    asked: RunAsked<'_>,
    frame: u32,
    is_json: bool,
    found: &Found,
    out: &mut W1,
    err: &mut W2,
) -> Result<u8, SurveyError>
    ensures { IfOk result (λ status. status ≡ found_status found.now.frame) }
{
    let alloc = rt.alloc();
    let about = FrameShown {
        image: asked.image,
        frame,
        program: found.program,
        limit: asked.limit.steps,
    };
    match &found.frame {
        FrameFound::Ran(steps) => match write_steps(alloc, about, steps, is_json, out) {
            Ok(()) => Ok(0),
            Err(error) => Err(SurveyError::of_output(alloc, error.kind())),
        },
        FrameFound::Skipped(len, reason) => {
            write_skipped(alloc, about, *len, *reason, is_json, out, err)
        }
        FrameFound::Missing(count, finish) => {
            say_missing(rt, asked.frames, frame, *count, *finish, err)
        }
    }
}

/// Prints the steps of the run of the frame of this number, and returns the status: 1 where the
/// stream does not have that frame, 2 where the image or the text of the maps is refused, 3 where
/// a fault ended the stream before the frame.
pub fn print_steps<R: Files + Clock + AllocGlobal, W1: Write, W2: Write>(
    rt: &R,
    asked: RunAsked<'_>,
    frame: u32,
    is_json: bool,
    out: &mut W1,
    err: &mut W2,
) -> Result<u8, SurveyError>
    ensures { IfOk result IsStepsStatus }
{
    match find(rt, asked, frame, out, err) {
        Ok(found) => write_found(rt, asked, frame, is_json, &found, out, err),
        Err(ended) => ended.ended(),
    }
}
