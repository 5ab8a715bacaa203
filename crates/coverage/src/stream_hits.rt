//! What is counted over the runs of a stream's packet frames.
ghost use Rattle.std.specs.Prelude.{◌≡◌, ◌<◌, ◌≤◌, ◌+◌, ◌%◌, ◌^◌, ◌==◌, ℕ, List, [], ◌∷◌, ◌++◌, length, replicate, slice_index, Option, IfOk, MatchOption, if◌then◌else◌};
ghost use Rattle.isa_model.specs.declared.instructions.Insn.{Insn};
ghost use Rattle.isa_model.specs.Code.Instructions.{Program};
ghost use Rattle.isa_model.specs.{max_packet};
ghost use Rattle.isa_model.specs.Code.Limits.{max_steps};
ghost use Rattle.isa_model.specs.Machine.States.{State, KeyValues};
ghost use Rattle.isa_model.specs.Reporting.Streams.{PacketFrame};
ghost use Rattle.isa_model.specs.Reporting.Reports.{checked_rule, turn_on, contents_left, contents_after};
ghost use Rattle.maps.specs.Maps.{rows_of, contents_of};
ghost use Rattle.checked_vm.specs.Watching.{begun_on};
ghost use Rattle.coverage.specs.Runs.{steps_by, steps_in, end_index};
ghost use Rattle.coverage.specs.Hits.{CountsFrames, HasCounted, HasCountedFrames};
ghost use Rattle.coverage.specs.Found.{CountsStream, HasCountedStream};
ghost use Rattle.coverage.specs.Ranks.{AreStepNumbers};

use crate::clocks::SameTime;
use crate::counting::{add_one, zeros};
use crate::ranks::{StepNumbers, step_numbers};
use crate::slot_hits::SlotHits;
use crate::versions::version_begun;
use checked_vm::Checked;
use frames::{FrameReader, Next, Source};
use image::Image;
use isa_model::{Action, End, Finish, FrameHead, MAX_PACKET};
use maps::Maps;
use std::alloc::{AllocError, Global};

/// What was counted over a stream.
#[derive(Drop)]
pub struct StreamHits {
    /// Counts by slot.
    pub slots: SlotHits,
    /// Says of each number of steps how many runs took so many.
    pub taken: Vec<u64>,
    /// Says how many frames were run.
    pub ran: u64,
    /// Says how many runs ended by each word of the report: `ABORTED`, `DROP`, `PASS`, `TX`,
    /// `REDIRECT`, `INVALID`, `TRAP` and `LIMIT`.
    pub ended: Vec<u64>,
    /// Says how many frames had a reason, and were not run.
    pub skipped: u64,
    /// Says how the stream ended.
    pub finish: Finish,
}

/// A frame of the stream without its body.
#[derive(Clone, Copy)]
struct Arrival {
    head: FrameHead,
    reason: u32,
}

/// Returns how many steps a run took that ended so.
fn steps_by(limit: u32, end: End) -> u32
    ensures { result ≡ steps_by limit end }
{
    match end {
        End::Exit(_, steps) | End::Trap(_, steps) => steps,
        End::Limit => limit,
    }
}

/// The index of the report's word for an end.
fn end_index(end: End) -> usize
    ensures { result ≡ end_index end }
{
    match end {
        End::Exit(answer, _) => match Action::of(answer) {
            Action::Aborted => 0,
            Action::Drop => 1,
            Action::Pass => 2,
            Action::Tx => 3,
            Action::Redirect => 4,
            Action::Invalid => 5,
        },
        End::Trap(_, _) => 6,
        End::Limit => 7,
    }
}

impl StreamHits {
    /// No counts yet, of a program of so many slots and runs within the limit.
    fn new(alloc: Global, slots: usize, limit: u32) -> Result<Self, AllocError>
        requires { limit ≤ max_steps }
        ensures slots { IfOk result (λ hits. (insns : List (Option Insn)) → length insns ≡ slots
            → HasCounted hits.slots insns []) }
        ensures taken { IfOk result (λ hits. hits.taken.items ≡ replicate (limit + 1) 0) }
        ensures ended { IfOk result (λ hits. hits.ended.items ≡ replicate 8 0) }
        ensures ran { IfOk result (λ hits. hits.ran ≡ 0) }
        ensures skipped { IfOk result (λ hits. hits.skipped ≡ 0) }
    {
        Ok(StreamHits {
            slots: SlotHits::new(alloc, slots)?,
            taken: zeros(alloc, limit as usize + 1)?,
            ran: 0,
            ended: zeros(alloc, 8)?,
            skipped: 0,
            finish: Finish::End,
        })
    }

    /// Counts a run that ended so.
    #[inline(always)]
    fn add_end(&mut self, limit: u32, end: End)
        ensures slots { self.new.slots ≡ self.old.slots }
        ensures taken_len { length self.new.taken.items ≡ length self.old.taken.items }
        ensures taken { (k : ℕ) → k < length self.old.taken.items
            → slice_index self.new.taken.items k ≡ (if steps_by limit end == k
            then (slice_index self.old.taken.items k + 1) % 2 ^ 64
            else slice_index self.old.taken.items k) }
        ensures ended_len { length self.new.ended.items ≡ length self.old.ended.items }
        ensures ended { (k : ℕ) → k < length self.old.ended.items
            → slice_index self.new.ended.items k ≡ (if end_index end == k
            then (slice_index self.old.ended.items k + 1) % 2 ^ 64
            else slice_index self.old.ended.items k) }
        ensures ran { self.new.ran ≡ (self.old.ran + 1) % 2 ^ 64 }
        ensures skipped { self.new.skipped ≡ self.old.skipped }
    {
        add_one(&mut self.taken, steps_by(limit, end) as usize);
        add_one(&mut self.ended, end_index(end));
        self.ran = self.ran.wrapping_add(1);
    }

    /// The least, the median and the greatest number of steps of the runs; `None` if no frame was
    /// run.
    pub fn step_numbers(&self) -> Option<StepNumbers>
        ensures { (p : Program) (limit : ℕ) (contents : List KeyValues) (frames : List PacketFrame)
            → CountsFrames p limit contents frames self.now
            → MatchOption result (steps_in p limit contents frames ≡ [])
            (λ found. AreStepNumbers (steps_in p limit contents frames) found) }
    {
        step_numbers(self.taken.as_slice(), self.ran)
    }
}

/// Runs a frame, and counts its run.
fn run_frame(
    machine: &mut Checked,
    limit: u32,
    head: FrameHead,
    body: &mut [u8],
    hits: &mut StreamHits,
)
    requires short { length body.old ≤ max_packet }
    requires some { 1 ≤ limit }
    requires most { limit ≤ max_steps }
    ensures program { machine.new.program ≡ machine.old.program }
    ensures contents { machine.new.contents
        ≡ (checked_rule machine.old.program limit head body.old machine.old.contents).contents }
    ensures counted { (start : List KeyValues) (frames : List PacketFrame)
        → machine.old.contents
        ≡ contents_after (checked_rule machine.old.program limit) start frames
        → HasCountedFrames machine.old.program limit start frames hits.old
        → HasCountedFrames machine.old.program limit start
        (frames ++ record { head = head; body = body.old; reason = 0 } ∷ []) hits.new }
{
    let mut clock = SameTime { time: head.time };
    let stop = machine.run_watched(head, body, &mut clock, limit, &mut hits.slots);
    hits.add_end(limit, stop.end);
}

/// Runs a frame and counts its run, unless it has a reason already.
fn take_frame(
    machine: &mut Checked,
    limit: u32,
    frame: Arrival,
    body: &mut [u8],
    hits: &mut StreamHits,
)
    requires short { length body.old ≤ max_packet }
    requires some { 1 ≤ limit }
    requires most { limit ≤ max_steps }
    ensures program { machine.new.program ≡ machine.old.program }
    ensures contents { machine.new.contents ≡ contents_left machine.old.contents
        (turn_on (checked_rule machine.old.program limit) machine.old.contents
        record { head = frame.head; body = body.old; reason = frame.reason }) }
    ensures counted { (start : List KeyValues) (frames : List PacketFrame)
        → machine.old.contents
        ≡ contents_after (checked_rule machine.old.program limit) start frames
        → HasCountedFrames machine.old.program limit start frames hits.old
        → HasCountedFrames machine.old.program limit start
        (frames ++ record { head = frame.head; body = body.old; reason = frame.reason } ∷ [])
        hits.new }
{
    if frame.reason == 0 {
        run_frame(machine, limit, frame.head, body, hits);
    } else {
        hits.skipped = hits.skipped.wrapping_add(1);
    }
}

/// Runs the frames of the stream that a source returns, and counts their runs.
fn count_frames<R: Source + Drop>(
    machine: &mut Checked,
    limit: u32,
    source: R,
    hits: &mut StreamHits,
) -> Finish
    requires some { 1 ≤ limit }
    requires most { limit ≤ max_steps }
    requires none { HasCountedFrames machine.old.program limit machine.old.contents [] hits.old }
    ensures { HasCountedStream machine.old.program limit machine.old.contents
        record { bytes = R.remaining source; may_fail = R.may_fail } hits.new result }
{
    let mut reader = FrameReader::new(source);
    let mut buffer = [0; MAX_PACKET];
    let _version = version_begun(reader.begin());
    let mut number = 0u32;
    'frames: loop {
        match reader.next(&mut buffer) {
            Next::Frame(head, length, reason) => {
                let frame = Arrival { head, reason };
                let body = &mut buffer[..length];
                take_frame(machine, limit, frame, body, hits);
                number += 1;
            }
            Next::End => return Finish::End,
            Next::Fault(fault, offset) => return Finish::Fault(fault, offset),
        }
    }
}

/// Runs an image's program, with every access tested, on the frames of the stream that a source
/// returns, from these maps on, at most `limit` steps a frame, and counts. A frame with a reason is
/// not run. Memory is taken before the first frame, and none after that.
pub fn hits<R: Source + Drop>(
    alloc: Global,
    image: Image,
    maps: Maps,
    limit: u32,
    source: R,
) -> Result<StreamHits, AllocError>
    requires rows { rows_of maps ≡ image.maps }
    requires some { 1 ≤ limit }
    requires most { limit ≤ max_steps }
    ensures { IfOk result (λ hits. CountsStream image limit (contents_of maps)
        record { bytes = R.remaining source; may_fail = R.may_fail } hits) }
{
    let mut hits = StreamHits::new(alloc, image.slots(), limit)?;
    let Ok(mut machine) = Checked::with_maps(alloc, image, maps) else {
        return Err(AllocError);
    };
    let finish = count_frames(&mut machine, limit, source, &mut hits);
    hits.finish = finish;
    Ok(hits)
}
