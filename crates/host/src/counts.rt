//! How many packet frames of a stream ended in each way.
ghost use Rattle.std.specs.Prelude.{◌≡◌, ◌≤◌, length, Some, None};
ghost use Rattle.host.specs.Counts.{no_totals, totals_of, with_reason, with_reason_if, with_exit, with_end};
ghost use Rattle.host.specs.Places.{place_of};

use super::end_counts::{ActionCounts, TrapCounts};
use super::reasons::reason_of;
use arrayvec::ArrayVec;
use isa_model::{Action, End, Version};

/// Says how many reasons are counted by themselves at most: the first that are met.
pub const MOST_REASONS: usize = 64;

/// Says how many frames were not forwarded for a reason.
#[derive(Clone, Copy)]
pub struct ReasonCount {
    pub reason: u32,
    pub frames: u32,
}

impl Default for ReasonCount {
    fn default() -> Self {
        ReasonCount {
            reason: 0,
            frames: 0,
        }
    }
}

/// Says how many frames ended in each way. No memory is taken.
#[derive(Drop)]
pub struct FrameCounts {
    /// The frames whose runs exited, by the action of the answer.
    pub actions: ActionCounts,
    /// The frames whose runs trapped.
    pub traps: TrapCounts,
    /// The frames whose runs were stopped at the limit.
    pub limit: u32,
    /// The frames that had a reason already, and were not run.
    pub skipped: u32,
    /// Of a program of version 2: why frames were not forwarded, by rising reason.
    pub reasons: ArrayVec<ReasonCount, 64>,
    /// The frames of all other reasons.
    pub other_reasons: u32,
}

// The place of a reason among others that rise.
fn place_of(reasons: &[ReasonCount], reason: u32) -> usize
    ensures place { result ≡ place_of reasons.now reason }
    ensures within { result ≤ length reasons.now }
{
    for place in 0..reasons.len() {
        if reasons[place].reason >= reason {
            return place;
        }
    }
    reasons.len()
}

impl FrameCounts {
    /// No frames, as before the first.
    pub fn new() -> Self
        ensures { totals_of result ≡ no_totals }
    {
        FrameCounts {
            actions: ActionCounts::new(),
            traps: TrapCounts::new(),
            limit: 0,
            skipped: 0,
            reasons: ArrayVec::new(),
            other_reasons: 0,
        }
    }

    // Counts one more frame of a reason.
    fn add_reason(&mut self, reason: u32)
        ensures { totals_of self.new ≡ with_reason (totals_of self.old) reason }
    {
        let place = place_of(self.reasons.as_slice(), reason);
        if place < self.reasons.len() && self.reasons[place].reason == reason {
            let frames = self.reasons[place].frames.saturating_add(1);
            self.reasons[place] = ReasonCount { reason, frames };
        } else if self.reasons.len() < MOST_REASONS {
            self.reasons
                .insert(place, ReasonCount { reason, frames: 1 });
        } else {
            self.other_reasons = self.other_reasons.saturating_add(1);
        }
    }

    // Counts the reason of a frame, if it was not forwarded.
    #[inline(always)]
    fn add_reason_if(&mut self, reason: u32)
        ensures { totals_of self.new ≡ with_reason_if (totals_of self.old) reason }
    {
        if reason != 0 {
            self.add_reason(reason);
        }
    }

    // Counts one more frame whose run answered this number.
    #[inline(always)]
    fn add_exit(&mut self, program: Version, answer: u64)
        ensures { totals_of self.new ≡ with_exit program (totals_of self.old) answer }
    {
        self.actions.add(Action::of(answer));
        match program {
            Version::One => {}
            Version::Two => self.add_reason_if(reason_of(Version::Two, answer)),
        }
    }

    /// Counts one more frame, by how the run of the program of this version ended.
    #[inline(always)]
    pub fn add_end(&mut self, program: Version, end: End)
        ensures { totals_of self.new ≡ with_end program (totals_of self.old) (Some end) }
    {
        match end {
            End::Exit(answer, _) => self.add_exit(program, answer),
            End::Trap(reason, _) => self.traps.add(reason),
            End::Limit => self.limit = self.limit.saturating_add(1),
        }
    }

    /// Counts one more frame that was passed over.
    pub fn add_skip(&mut self, program: Version)
        ensures { totals_of self.new ≡ with_end program (totals_of self.old) None }
    {
        self.skipped = self.skipped.saturating_add(1);
    }
}
