//! Blank call frames: nothing is known of them.

ghost use Rattle.std.specs.Prelude.{◌≡◌};
ghost use Rattle.state_index.specs.Parts.{unset_frame};

use reg_state::Kind;
use stack_state::AbstractFrame;

/// Forgets what is known of a call frame.
pub fn clear_frame(frame: &mut AbstractFrame)
    ensures { frame.new ≡ unset_frame frame.old.return_slot }
{
    frame.registers = [Kind::Unset; 10];
    frame.stack.clear();
}
