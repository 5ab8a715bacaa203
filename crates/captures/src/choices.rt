//! A source that is a frame stream, or a capture that becomes one.

ghost use Rattle.std.specs.Prelude.{◌≡◌, true, IfOk};
ghost use Rattle.std.specs.Io.{ReadsAtMost};
ghost use Rattle.std.specs.Io.KnownBytes.{ReadConsumes};
ghost use Rattle.captures.specs.Counts.{KeepsCounts, none_counted};
ghost use Rattle.captures.specs.Damage.{KeepsEnd};

use super::counts::CaptureCounts;
use super::forms::Reasons;
use super::packets::CaptureDamage;
use super::reader::OpenFailure;
use super::streams::CaptureStream;
use frames::Source;
use std::alloc::Global;
use std::io;

/// The frame stream that a file has, or that the capture in it becomes.
#[derive(Drop)]
pub enum FramesOf<R> {
    Stream(R),
    Capture(CaptureStream<R>),
    /// A capture that is not read, which becomes a stream without bytes.
    Refused,
}

impl<R: Source> FramesOf<R> {
    ghost use Rattle.captures.specs.Choices.{IsFramesEnd, OpensFrames, frames_counts};

    /// The frame stream of a source: of a capture that which it becomes, for which the head is read
    /// and memory is taken.
    pub fn open(
        alloc: Global,
        source: R,
        is_capture: bool,
        reasons: Reasons,
    ) -> Result<Self, OpenFailure>
    where
        R: Drop,
        ensures frames { OpensFrames reasons R.remaining (R.remaining source) is_capture result }
        ensures counts { IfOk result (λ f. frames_counts f ≡ none_counted) }
        ensures end { IfOk result (IsFramesEnd reasons R.remaining (R.remaining source)) }
    {
        if !is_capture {
            return Ok(FramesOf::Stream(source));
        }
        match CaptureStream::open(alloc, source, reasons) {
            Ok(stream) => Ok(FramesOf::Capture(stream)),
            Err(OpenFailure::Refused(_)) => Ok(FramesOf::Refused),
            Err(failure) => Err(failure),
        }
    }
}

impl<R> FramesOf<R> {
    ghost use Rattle.captures.specs.Choices.{frames_counts, frames_damage};

    /// Returns how many of the packets that were found so far the stream does not say whole.
    pub fn counts(&self) -> CaptureCounts
        ensures { result ≡ frames_counts self.now }
    {
        match self {
            FramesOf::Stream(_) | FramesOf::Refused => CaptureCounts::none(),
            FramesOf::Capture(stream) => stream.counts(),
        }
    }

    /// What is wrong with the capture, if that was met.
    pub fn damage(&self) -> Option<CaptureDamage>
        ensures { result ≡ frames_damage self.now }
    {
        match self {
            FramesOf::Stream(_) | FramesOf::Refused => None,
            FramesOf::Capture(stream) => stream.damage(),
        }
    }
}

impl<R: Source> Source for FramesOf<R> {
    ghost use Rattle.captures.specs.Choices.{frames_counts_left, frames_end_left, frames_left};

    ghost remaining = { frames_left R.remaining };

    ghost may_fail = { true };

    #[inline(always)]
    fn read_some(&mut self, buffer: &mut [u8]) -> io::Result<usize>
        ensures bound { ReadsAtMost result buffer.new }
        ensures bytes { ReadConsumes (frames_left R.remaining self.old)
            (frames_left R.remaining self.new) result buffer.new }
        ensures counts { KeepsCounts (frames_counts_left R.remaining self.old)
            (frames_counts_left R.remaining self.new) }
        ensures end { KeepsEnd (frames_end_left R.remaining self.old)
            (frames_end_left R.remaining self.new) }
    {
        match self {
            FramesOf::Stream(source) => source.read_some(buffer),
            FramesOf::Capture(stream) => stream.read_some(buffer),
            FramesOf::Refused => Ok(0),
        }
    }

    #[inline(always)]
    fn held(&self) -> Option<&[u8]> {
        match self {
            FramesOf::Stream(source) => source.held(),
            FramesOf::Capture(stream) => stream.held(),
            FramesOf::Refused => None,
        }
    }
}
