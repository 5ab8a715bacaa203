//! How frames are written, and what came of a stream.

ghost use Rattle.std.specs.Prelude.{◌≡◌, ◌<◌, ◌≤◌, ◌+◌, ℕ, cond};
ghost use Rattle.isa_model.specs.Reporting.Streams.{max_frames};
ghost use Rattle.captures.specs.CopyCounts.{counts_after, is_left_out, is_unreasoned, no_counts};

use isa_model::{Finish, MAX_SHORT_PACKET};

/// Says how frames are written.
#[derive(Clone, Copy)]
pub enum FrameForm {
    /// As a stream of their records, of the version of the stream that is read.
    Records,
    /// As a stream of version 1: without reasons, and without the frames that it does not take.
    Plain,
    /// As a stream of version 2, with reasons.
    Reasoned,
    /// As text.
    Text,
}

// The reason of the empty frame that takes the place of one that is too long for any stream.
const TOO_LONG: u32 = u32::MAX;

impl FrameForm {
    /// Returns whether a frame with this reason is left out.
    #[inline(always)]
    pub fn is_left_out(self, body: &[u8], reason: u32) -> bool
        ensures { result ≡ is_left_out self body.now reason }
    {
        match self {
            FrameForm::Plain => body.len() > MAX_SHORT_PACKET || reason == TOO_LONG,
            FrameForm::Records | FrameForm::Reasoned | FrameForm::Text => false,
        }
    }

    /// Returns whether a frame is written without the reason that it has.
    #[inline(always)]
    pub fn is_unreasoned(self, body: &[u8], reason: u32) -> bool
        ensures { result ≡ is_unreasoned self body.now reason }
    {
        match self {
            FrameForm::Plain => reason != 0 && !self.is_left_out(body, reason),
            FrameForm::Records | FrameForm::Reasoned | FrameForm::Text => false,
        }
    }
}

/// How many frames a stream had, and of how many not all was written.
#[derive(Clone, Copy)]
pub struct CopyCounts {
    pub frames: u32,
    /// Were left out.
    pub left_out: u32,
    /// Were written without the reason that they have.
    pub unreasoned: u32,
}

// One more, if it is counted.
#[inline(always)]
fn counted(count: u32, is_counted: bool) -> u32
    requires { count < max_frames }
    ensures { result ≡ count + cond is_counted 1 0 }
{
    if is_counted { count + 1 } else { count }
}

impl CopyCounts {
    /// No frame yet.
    pub fn none() -> CopyCounts
        ensures { result ≡ no_counts }
    {
        CopyCounts {
            frames: 0,
            left_out: 0,
            unreasoned: 0,
        }
    }

    /// The counts after one more frame with this reason was written.
    #[inline(always)]
    pub fn after(self, form: FrameForm, body: &[u8], reason: u32) -> CopyCounts
        requires frames { self.frames < max_frames }
        requires left_out { self.left_out ≤ self.frames }
        requires unreasoned { self.unreasoned ≤ self.frames }
        ensures { result ≡ counts_after form self body.now reason }
    {
        CopyCounts {
            frames: self.frames + 1,
            left_out: counted(self.left_out, form.is_left_out(body, reason)),
            unreasoned: counted(self.unreasoned, form.is_unreasoned(body, reason)),
        }
    }
}

/// Says what a stream had, and how it ended.
#[derive(Clone, Copy)]
pub struct StreamEnd {
    pub counts: CopyCounts,
    pub finish: Finish,
}
