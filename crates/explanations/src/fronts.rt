//! The front of an abstract state: what is known of its first registers and stack slots.

ghost use Rattle.std.specs.Prelude.{◌≡◌, ◌≤◌, ◌<◌};
ghost use Rattle.stack_state.specs.Slots.{frame_slots};
ghost use Rattle.explanations.specs.Fronts.{AreFirstKinds, AreFirstSlots, IsFront, IsFrontOf, count_in};

use reg_state::Kind;
use stack_state::{AbstractFrame, FRAME_SLOTS, StackState, State};

/// Forgets what is known of all registers but the first ones.
fn keep_registers(registers: &mut [Kind; 10], count: usize)
    requires { count ≤ 10 }
    ensures { AreFirstKinds count registers.old registers.new }
{
    for index in count..10 {
        registers[index] = Kind::Unset;
    }
}

/// Forgets what is known of all stack slots but the first ones.
fn keep_slots(stack: &mut StackState, count: usize)
    requires { count ≤ frame_slots }
    ensures { AreFirstSlots count stack.old.slots stack.new.slots }
{
    let begin = stack.known_from().max(count);
    for index in begin..FRAME_SLOTS {
        stack.mark(index, 0);
    }
}

/// Forgets what is known of all of a frame but its first registers and stack slots.
fn keep_front(frame: &mut AbstractFrame, register_count: usize, slot_count: usize)
    requires registers { register_count ≤ 10 }
    requires slots { slot_count ≤ frame_slots }
    ensures { IsFrontOf register_count slot_count frame.old frame.new }
{
    keep_registers(&mut frame.registers, register_count);
    keep_slots(&mut frame.stack, slot_count);
}

/// Returns how much of a frame is in a front that ends in the last one, with as much as this of it.
fn count_in(frame: usize, last: usize, count: usize, all: usize) -> usize
    requires { count ≤ all }
    ensures is { result ≡ count_in last count all frame }
    ensures inside { result ≤ all }
{
    if frame < last {
        all
    } else if frame == last {
        count
    } else {
        0
    }
}

/// All frames before the last one, and the front of that: as many registers and stack slots.
/// Nothing is known of all others.
pub fn front_of(entry: &State, last: usize, register_count: usize, slot_count: usize) -> State
    requires registers { register_count ≤ 10 }
    requires slots { slot_count ≤ frame_slots }
    ensures { IsFront entry.now last register_count slot_count result }
{
    let mut front = entry.copy();
    let count = front.callers.len();
    for index in 0..count {
        let registers = count_in(index, last, register_count, 10);
        let slots = count_in(index, last, slot_count, FRAME_SLOTS);
        keep_front(&mut front.callers[index], registers, slots);
    }
    let registers = count_in(count, last, register_count, 10);
    let slots = count_in(count, last, slot_count, FRAME_SLOTS);
    keep_front(&mut front.innermost, registers, slots);
    front
}
