//! Which capture is written, and what of its frames it does not keep.

ghost use Rattle.std.specs.Prelude.{◌≡◌, []};
ghost use Rattle.captures.specs.CaptureBytes.{counted, is_kept, lost_after, none_lost};

use isa_model::FrameHead;

/// Says in which format a capture is written.
#[derive(Clone, Copy)]
pub enum CaptureKind {
    Pcap,
    Pcapng,
}

/// Says which capture is written of a frame stream.
#[derive(Clone, Copy)]
pub struct CaptureForm {
    pub kind: CaptureKind,
    /// Whether frames with a reason are written too; else they are left out.
    pub has_reasons: bool,
}

impl CaptureForm {
    /// Returns whether a frame with this reason is written.
    #[inline(always)]
    pub fn is_kept(self, reason: u32) -> bool
        ensures { result ≡ is_kept self reason }
    {
        self.has_reasons || reason == 0
    }
}

/// How many frames have something that the capture does not say, up to 2^64 - 1 of each.
#[derive(Clone, Copy)]
pub struct LostCounts {
    /// Came in by another interface than the capture says.
    pub interfaces: u64,
    /// Came in by another queue than 0.
    pub queues: u64,
    /// Have a reason, in a pcap.
    pub reasons: u64,
    /// Have a time that a pcap does not hold.
    pub times: u64,
}

/// The most interfaces that a pcapng describes here, which is as many as are read.
pub const MAX_DESCRIBED: u32 = 4096;

// The first second that a pcap does not hold.
const LATE: u64 = 0x1_0000_0000;

const NANOSECONDS: u64 = 1_000_000_000;

// One more, up to the largest number.
#[inline(always)]
fn counted(is_lost: bool, count: u64) -> u64
    ensures { result ≡ counted is_lost count }
{
    if is_lost {
        count.saturating_add(1)
    } else {
        count
    }
}

impl LostCounts {
    /// Nothing is lost yet.
    pub fn none() -> LostCounts
        ensures { result ≡ none_lost }
    {
        LostCounts {
            interfaces: 0,
            queues: 0,
            reasons: 0,
            times: 0,
        }
    }

    /// The counts after one more frame, with this head and this reason, was written.
    #[inline(always)]
    pub fn after(self, kind: CaptureKind, head: &FrameHead, reason: u32) -> LostCounts
        ensures { result ≡ lost_after kind self
            (record { head = head.now; body = []; reason = reason }) }
    {
        let queues = counted(head.queue != 0, self.queues);
        match kind {
            CaptureKind::Pcap => LostCounts {
                interfaces: counted(head.interface != 0, self.interfaces),
                queues,
                reasons: counted(reason != 0, self.reasons),
                times: counted(head.time / NANOSECONDS >= LATE, self.times),
            },
            CaptureKind::Pcapng => LostCounts {
                interfaces: counted(head.interface >= MAX_DESCRIBED, self.interfaces),
                queues,
                reasons: self.reasons,
                times: self.times,
            },
        }
    }
}
