//! The run of one packet frame, step by step.
ghost use Rattle.std.specs.Prelude.{◌≡◌, ◌≤◌, ◌⊎◌, IfOk, length, MatchResult};
ghost use Rattle.isa_model.specs.{max_packet};
ghost use Rattle.isa_model.specs.Code.Limits.{max_steps};
ghost use Rattle.isa_model.specs.Reporting.Reports.{checked_rule, turn_on, contents_left};
ghost use Rattle.maps.specs.Maps.{rows_of, contents_of};
ghost use Rattle.coverage.specs.Steps.{FindsFrame, HasNoFrame, ShowsFrame, ShowsRun};

use crate::clocks::SameTime;
use crate::recording::{Recorder, StepTaken};
use crate::versions::version_begun;
use checked_vm::{Checked, RunEnd};
use frames::{FrameReader, Next, Source};
use image::Image;
use isa_model::{Finish, FrameHead, MAX_PACKET, Version};
use maps::Maps;
use std::alloc::{AllocError, Global};

/// The run of a frame.
#[derive(Drop)]
pub struct FrameSteps {
    /// The steps, each as it begins.
    pub steps: Vec<StepTaken>,
    /// Says how the run ended, and what the registers held there.
    pub stop: RunEnd,
    /// Says how many bytes the frame has.
    pub len: usize,
    /// The version of the stream.
    pub stream: Version,
}

/// What a stream has at a frame's number.
#[derive(Drop)]
pub enum FrameFound {
    Ran(FrameSteps),
    /// A frame with a reason, which is not run: its length, and the reason.
    Skipped(usize, u32),
    /// So many frames, and its end before that number.
    Missing(u32, Finish),
}

/// Runs a frame, and keeps its steps.
fn run_recorded(
    alloc: Global,
    machine: &mut Checked,
    limit: u32,
    head: FrameHead,
    body: &mut [u8],
    stream: Version,
) -> Result<FrameSteps, AllocError>
    requires short { length body.old ≤ max_packet }
    requires some { 1 ≤ limit }
    requires most { limit ≤ max_steps }
    ensures shows { IfOk result (λ steps. ShowsRun machine.old.program limit machine.old.contents
        record { head = head; body = body.old; reason = 0 } steps) }
    ensures stream { IfOk result (λ steps. steps.stream ≡ stream) }
{
    let len = body.len();
    let mut recorder = Recorder::new(alloc);
    let mut clock = SameTime { time: head.time };
    let stop = machine.run_watched(head, body, &mut clock, limit, &mut recorder);
    if recorder.is_full {
        return Err(AllocError);
    }
    Ok(FrameSteps {
        steps: recorder.into_steps(),
        stop,
        len,
        stream,
    })
}

/// Runs a frame and keeps its steps, unless it has a reason already.
fn show_frame(
    alloc: Global,
    machine: &mut Checked,
    limit: u32,
    head: FrameHead,
    reason: u32,
    body: &mut [u8],
    stream: Version,
) -> Result<FrameFound, AllocError>
    requires short { length body.old ≤ max_packet }
    requires some { 1 ≤ limit }
    requires most { limit ≤ max_steps }
    ensures { IfOk result (λ answer. ShowsFrame machine.old.program limit machine.old.contents
        record { head = head; body = body.old; reason = reason } stream answer) }
{
    if reason != 0 {
        return Ok(FrameFound::Skipped(body.len(), reason));
    }
    let steps = run_recorded(alloc, machine, limit, head, body, stream)?;
    Ok(FrameFound::Ran(steps))
}

/// Runs a frame, unless it has a reason already.
fn pass_frame(machine: &mut Checked, limit: u32, head: FrameHead, reason: u32, body: &mut [u8])
    requires short { length body.old ≤ max_packet }
    requires some { 1 ≤ limit }
    requires most { limit ≤ max_steps }
    ensures program { machine.new.program ≡ machine.old.program }
    ensures contents { machine.new.contents ≡ contents_left machine.old.contents
        (turn_on (checked_rule machine.old.program limit) machine.old.contents
        record { head = head; body = body.old; reason = reason }) }
{
    if reason == 0 {
        let mut clock = SameTime { time: head.time };
        let _end = machine.run(head, body, &mut clock, limit);
    }
}

/// Runs the frames before the one of this number, and keeps the steps of that one.
fn find_frame<R: Source + Drop>(
    alloc: Global,
    machine: &mut Checked,
    limit: u32,
    source: R,
    number: u32,
) -> Result<FrameFound, AllocError>
    requires some { 1 ≤ limit }
    requires most { limit ≤ max_steps }
    ensures { IfOk result (λ answer.
        FindsFrame machine.old.program limit machine.old.contents
        record { bytes = R.remaining source; may_fail = R.may_fail } number answer
        ⊎ HasNoFrame record { bytes = R.remaining source; may_fail = R.may_fail } number answer) }
{
    let mut reader = FrameReader::new(source);
    let mut buffer = [0; MAX_PACKET];
    let stream = version_begun(reader.begin());
    for before in 0..number {
        match reader.next(&mut buffer) {
            Next::Frame(head, length, reason) => {
                let body = &mut buffer[..length];
                pass_frame(machine, limit, head, reason, body);
            }
            Next::End => return Ok(FrameFound::Missing(before, Finish::End)),
            Next::Fault(fault, offset) => {
                return Ok(FrameFound::Missing(before, Finish::Fault(fault, offset)));
            }
        }
    }
    match reader.next(&mut buffer) {
        Next::Frame(head, length, reason) => {
            let body = &mut buffer[..length];
            show_frame(alloc, machine, limit, head, reason, body, stream)
        }
        Next::End => Ok(FrameFound::Missing(number, Finish::End)),
        Next::Fault(fault, offset) => {
            Ok(FrameFound::Missing(number, Finish::Fault(fault, offset)))
        }
    }
}

/// Runs an image's program, with every access tested, on the frames of the stream that a source
/// returns, up to the one of this number, from these maps on, at most `limit` steps a frame. The
/// steps of that frame's run are kept. No frame after it is read.
pub fn steps<R: Source + Drop>(
    alloc: Global,
    image: Image,
    maps: Maps,
    limit: u32,
    source: R,
    number: u32,
) -> Result<FrameFound, AllocError>
    requires rows { rows_of maps ≡ image.maps }
    requires some { 1 ≤ limit }
    requires most { limit ≤ max_steps }
    ensures { IfOk result (λ answer.
        FindsFrame image limit (contents_of maps)
        record { bytes = R.remaining source; may_fail = R.may_fail } number answer
        ⊎ HasNoFrame record { bytes = R.remaining source; may_fail = R.may_fail } number answer) }
{
    let Ok(mut machine) = Checked::with_maps(alloc, image, maps) else {
        return Err(AllocError);
    };
    find_frame(alloc, &mut machine, limit, source, number)
}
