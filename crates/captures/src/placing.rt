//! Where frames came in by, in place of what they say.

ghost use Rattle.std.specs.Prelude.{◌≡◌};
ghost use Rattle.captures.specs.Placing.{placed_head};

use isa_model::FrameHead;

/// Says by which interface and by which queue all frames came in, where that is known; else each
/// frame says it.
#[derive(Clone, Copy)]
pub struct Placing {
    pub interface: Option<u32>,
    pub queue: Option<u32>,
}

impl Placing {
    /// The head of a frame that had this one.
    #[inline(always)]
    pub fn placed(self, head: &FrameHead) -> FrameHead
        ensures { result ≡ placed_head self head.now }
    {
        FrameHead {
            time: head.time,
            interface: self.interface.unwrap_or(head.interface),
            queue: self.queue.unwrap_or(head.queue),
        }
    }
}
