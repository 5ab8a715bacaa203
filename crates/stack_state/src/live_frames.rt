//! Places in a call frame, and what is known of the bytes of any live frame of a state.

ghost use Rattle.std.specs.Prelude.{◌≡◌, ℤ, ◌+◌, ◌%◌, ◌<◌, ◌≤◌, ◌+ℤ◌, pos, MatchOption};
ghost use Rattle.stack_state.specs.Slots.{frame_slots};
ghost use Rattle.isa_model.specs.Code.Limits.{stack_size};
ghost use Rattle.isa_model.specs.Code.Sizes.{size_bytes};
ghost use Rattle.stack_state.specs.Meaning.{depth, abstract_frame_at};
ghost use Rattle.stack_state.specs.FramePlaces.{FindsBytes, FindsPlace, IsStoredIn, IsSpilledIn};

use crate::stacks::StackState;
use crate::states::State;
use isa_model::{STACK_SIZE, Size};
use reg_state::Kind;

/// The offset of a place from the frame's start.
fn from_start(offset: i32, by: i16) -> i64
    ensures { result ≡ (offset +ℤ by) +ℤ pos stack_size }
{
    i64::from(offset) + i64::from(by) + STACK_SIZE as i64
}

/// The byte at an offset from a frame's start, if the `count` bytes from there are in the frame.
pub fn frame_bytes(from_start: i64, count: u32) -> Option<usize>
    ensures { FindsBytes from_start count result }
{
    let Ok(at) = usize::try_from(from_start) else {
        return None;
    };
    if at > STACK_SIZE || count as usize > STACK_SIZE - at {
        return None;
    }
    Some(at)
}

/// The byte at an offset from a frame's start, if the bytes of the size are there and aligned.
fn aligned(from_start: i64, size: Size) -> Option<usize>
    ensures { (z : ℤ) → from_start ≡ z +ℤ pos stack_size → FindsPlace z size result }
{
    let at = frame_bytes(from_start, size.bytes() as u32)?;
    if at % size.bytes() != 0 {
        return None;
    }
    Some(at)
}

/// The byte of a frame at the sum of a pointer's offset from the frame's end and an instruction's
/// offset. `None`: the bytes of the size are not all in the frame, or not aligned.
pub fn stack_place(offset: i32, by: i16, size: Size) -> Option<usize>
    ensures { FindsPlace (offset +ℤ by) size result }
{
    aligned(from_start(offset, by), size)
}

impl State {
    /// Returns what is known of the bytes of a live frame, counted from the outermost, 0. `None`:
    /// there is no such frame.
    pub fn stack_of(&self, frame: u8) -> Option<&StackState>
        ensures { MatchOption result (depth self.now ≤ frame)
            (λ stack. (frame < depth self.now)
            × (stack.now ≡ (abstract_frame_at self.now frame).stack)) }
    {
        let index = usize::from(frame);
        if index == self.callers.len() {
            return Some(&self.innermost.stack);
        }
        match self.callers.as_slice().get(index) {
            Some(caller) => Some(&caller.stack),
            None => None,
        }
    }

    /// Bytes of a number are written in a live frame.
    pub fn store(&mut self, frame: u8, at: usize, size: Size)
        requires live { frame < depth self.old }
        requires inside { at < stack_size }
        requires in_slot { at % 8 + size_bytes size ≤ 8 }
        ensures { IsStoredIn self.old frame at size self.new }
    {
        match self.callers.get_mut(usize::from(frame)) {
            Some(caller) => caller.stack.store(at, size),
            None => self.innermost.stack.store(at, size),
        }
    }

    /// A value of the kind is written into a whole slot of a live frame.
    pub fn spill(&mut self, frame: u8, slot: usize, kind: Kind)
        requires live { frame < depth self.old }
        requires inside { slot < frame_slots }
        ensures { IsSpilledIn self.old frame slot kind self.new }
    {
        match self.callers.get_mut(usize::from(frame)) {
            Some(caller) => caller.stack.spill(slot, kind),
            None => self.innermost.stack.spill(slot, kind),
        }
    }
}
