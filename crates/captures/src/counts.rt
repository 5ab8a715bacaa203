//! Counts the packets that a capture's frame stream does not say whole.

ghost use Rattle.std.specs.Prelude.{◌≡◌};
ghost use Rattle.captures.specs.Counts.{counted, counts_after, none_counted};
ghost use Rattle.captures.specs.Packets.{packet_with};

use super::packets::CapturedHead;
use isa_model::MAX_PACKET;

/// Says how many packets a capture's frame stream does not say whole.
#[derive(Clone, Copy)]
pub struct CaptureCounts {
    /// Were cut when they were captured: they had more bytes on the wire.
    pub cut: u64,
    /// Have a frame of more than 9,216 bytes, in whose place an empty one stands.
    pub long: u64,
}

// One more, up to the largest number.
#[inline(always)]
fn counted(is_one: bool, count: u64) -> u64
    ensures { result ≡ counted is_one count }
{
    if is_one {
        count.saturating_add(1)
    } else {
        count
    }
}

impl CaptureCounts {
    /// Nothing is counted yet.
    pub fn none() -> CaptureCounts
        ensures { result ≡ none_counted }
    {
        CaptureCounts { cut: 0, long: 0 }
    }

    /// The counts after one more packet, with this head and this frame.
    #[inline(always)]
    pub fn after(self, head: &CapturedHead, frame: &[u8]) -> CaptureCounts
        ensures { result ≡ counts_after self (packet_with head.now frame.now) }
    {
        CaptureCounts {
            cut: counted(head.captured < head.original, self.cut),
            long: counted(frame.len() > MAX_PACKET, self.long),
        }
    }
}
