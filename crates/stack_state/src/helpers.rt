//! Effects of helper calls: an answer in r0, and pointers to a map's values that are forgotten.

ghost use Rattle.std.specs.Prelude.{◌≡◌, map};
ghost use Rattle.stack_state.specs.Effects.{forgotten_register, forgotten_frame, forgotten_in};
ghost use Rattle.stack_state.specs.HelperAnswers.{with_answer};

use crate::slots::{StackSlot, forgotten_slot};
use crate::states::{AbstractFrame, State};
use reg_state::Kind;

/// The kind, or Unset if it refers to values of the map.
fn forgotten_register(kind: Kind, index: u8) -> Kind
    ensures { result ≡ forgotten_register index kind }
{
    forgotten_slot(StackSlot::Spilled(kind), index).kind()
}

fn forget_in_registers(kinds: &mut [Kind], index: u8)
    ensures { kinds.new ≡ map (forgotten_register index) kinds.old }
{
    for i in 0..kinds.len() {
        kinds[i] = forgotten_register(kinds[i], index);
    }
}

fn forget_in_frame(frame: &mut AbstractFrame, index: u8)
    ensures { frame.new ≡ forgotten_frame index frame.old }
{
    forget_in_registers(&mut frame.registers, index);
    frame.stack.forget_map(index);
}

fn forget_in_frames(frames: &mut [AbstractFrame], index: u8)
    ensures { frames.new ≡ map (forgotten_frame index) frames.old }
{
    for i in 0..frames.len() {
        forget_in_frame(&mut frames[i], index);
    }
}

impl State {
    /// Forgets pointers to values of the map in all live call frames: in registers, also those that
    /// calls kept, and in slots.
    pub fn forget_map(&mut self, index: u8)
        ensures { self.new ≡ forgotten_in index self.old }
    {
        forget_in_frames(self.callers.as_mut_slice(), index);
        forget_in_frame(&mut self.innermost, index);
    }

    /// A helper has answered: r0 holds a value of the kind, and r1 to r5 are unset.
    pub fn answer(&mut self, kind: Kind)
        ensures { self.new ≡ with_answer self.old kind }
    {
        self.innermost.resume(kind);
    }
}
