//! The machines that run packet frames.
ghost use Rattle.std.specs.Prelude.{◌≡◌, ◌≤◌, length, List};
ghost use Rattle.isa_model.specs.{KeyValues, max_packet};
ghost use Rattle.bounds.specs.Bounds.{Bounded};
ghost use Rattle.host.specs.Stops.{Noting};
ghost use Rattle.host.specs.Turns.{rule_of};

use isa_model::{End, FrameHead};

/// A machine with a program and its maps.
pub trait Runner {
    /// The type of what is noted of frames.
    ghost Notes: { Type 0 };

    /// The program, and the most steps of a run.
    ghost bounded: { Self → Bounded };

    /// The maps' contents.
    ghost contents: { Self → List KeyValues };

    /// The notes of the frames so far.
    ghost noted: { Self → Notes };

    /// The notes with one more frame.
    ghost notes: { Self → Noting Notes };

    /// Runs a frame with this number, and leaves in `body` its bytes after the run.
    fn run_packet(&mut self, number: u32, head: FrameHead, body: &mut [u8]) -> End
        requires { length body.old ≤ max_packet }
        ensures ends { result
            ≡ (rule_of (bounded self.old) head body.old (contents self.old)).ends }
        ensures body { body.new
            ≡ (rule_of (bounded self.old) head body.old (contents self.old)).packet }
        ensures contents { contents self.new
            ≡ (rule_of (bounded self.old) head body.old (contents self.old)).contents }
        ensures noted { noted self.new
            ≡ (notes self.old).run (noted self.old) number head body.old (contents self.old) }
        ensures notes { notes self.new ≡ notes self.old }
        ensures bounded { bounded self.new ≡ bounded self.old };

    /// Passes over a frame.
    fn pass_over(&mut self)
        ensures contents { contents self.new ≡ contents self.old }
        ensures noted { noted self.new ≡ (notes self.old).skip (noted self.old) }
        ensures notes { notes self.new ≡ notes self.old }
        ensures bounded { bounded self.new ≡ bounded self.old };
}
