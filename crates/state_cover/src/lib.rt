//! A test whether one abstract state covers another.
#![tactic(auto)]

ghost use Rattle.std.specs.Prelude.{◌≡◌, ℕ, ◌↔◌, IsTrue, length};
ghost use Rattle.isa_model.specs.Code.Instructions.{Program};
ghost use Rattle.reg_state.specs.KindCover.{KindCovers, KindEncloses};
ghost use Rattle.stack_state.specs.Meaning.{Covers};
ghost use Rattle.stack_state.specs.Slots.{marks_of};
ghost use Rattle.state_cover.specs.Names.{packet_name, null_name};
ghost use Rattle.state_cover.specs.FrameCover.{FrameCovers, KindsCover, KindsEnclose, StateEncloses, AreAmong, SlotCovers, SlotEncloses, SlotsCover, SlotsEnclose};

mod names;

use names::name_in;
use reg_state::Kind;
use stack_state::{AbstractFrame, FRAME_SLOTS, StackSlot, State};

/// True only if `a` means every machine state that `b` means.
pub fn covers(a: &State, b: &State) -> bool
    ensures yes { IsTrue result → (p : Program) → Covers p a.now b.now }
    ensures slot { IsTrue result → a.now.slot ≡ b.now.slot }

    // It is true wherever registers and stack slots show it, with numbers compared by bits and
    // limits, whatever b calls the identities of a.
    ensures encloses { (packet null : ℕ → ℕ) → StateEncloses packet null a.now b.now
        → IsTrue result }
    ensures equal { a.now ≡ b.now → IsTrue result }
{
    if a.slot != b.slot {
        return false;
    }
    let left = a.callers.as_slice();
    let right = b.callers.as_slice();
    if left.len() != right.len() {
        return false;
    }
    for index in 0..left.len() {
        if !frame_covers(&left[index], &right[index], a, b) {
            return false;
        }
    }
    frame_covers(&a.innermost, &b.innermost, a, b)
}

// Whether a call frame of a covers one of b, by the names that b has for the identities of a.
fn frame_covers(left: &AbstractFrame, right: &AbstractFrame, a: &State, b: &State) -> bool
    requires { length a.now.callers.items ≡ length b.now.callers.items }
    ensures yes { IsTrue result
        → FrameCovers (packet_name a.now b.now) (null_name a.now b.now) left.now right.now }
    ensures no { left.now.return_slot ≡ right.now.return_slot
        → KindsEnclose (packet_name a.now b.now)
        (null_name a.now b.now) left.now.registers right.now.registers
        → SlotsEnclose (packet_name a.now b.now)
        (null_name a.now b.now) left.now.stack.slots right.now.stack.slots
        → IsTrue result }
{
    if left.return_slot != right.return_slot {
        return false;
    }
    if !registers_cover(&left.registers, &right.registers, a, b) {
        return false;
    }
    slots_cover(left.stack.slots(), right.stack.slots(), a, b)
}

// All ten are compared in a caller's frame too: r0 to r5 are Unset there, which covers whatever b
// has.
fn registers_cover(left: &[Kind; 10], right: &[Kind; 10], a: &State, b: &State) -> bool
    requires { length a.now.callers.items ≡ length b.now.callers.items }
    ensures yes { IsTrue result
        → KindsCover (packet_name a.now b.now) (null_name a.now b.now) left.now right.now }
    ensures no { KindsEnclose (packet_name a.now b.now) (null_name a.now b.now) left.now right.now
        → IsTrue result }
{
    for index in 0..10 {
        if !kind_covers(&left[index], &right[index], a, b) {
            return false;
        }
    }
    true
}

fn slots_cover(
    left: &[StackSlot; FRAME_SLOTS],
    right: &[StackSlot; FRAME_SLOTS],
    a: &State,
    b: &State,
) -> bool
    requires { length a.now.callers.items ≡ length b.now.callers.items }
    ensures yes { IsTrue result
        → SlotsCover (packet_name a.now b.now) (null_name a.now b.now) left.now right.now }
    ensures no { SlotsEnclose (packet_name a.now b.now) (null_name a.now b.now) left.now right.now
        → IsTrue result }
{
    for index in 0..FRAME_SLOTS {
        if !slot_covers(&left[index], &right[index], a, b) {
            return false;
        }
    }
    true
}

#[inline(always)]
fn slot_covers(left: &StackSlot, right: &StackSlot, a: &State, b: &State) -> bool
    requires { length a.now.callers.items ≡ length b.now.callers.items }
    ensures yes { IsTrue result
        → SlotCovers (packet_name a.now b.now) (null_name a.now b.now) left.now right.now }
    ensures no { SlotEncloses (packet_name a.now b.now) (null_name a.now b.now) left.now right.now
        → IsTrue result }
{
    match left {
        StackSlot::Written(marks) => are_written(*marks, right),
        StackSlot::Spilled(kind) => match right {
            StackSlot::Spilled(other) => kind_covers(kind, other, a, b),
            StackSlot::Written(_) => false,
        },
    }
}

// Whether the bytes that are marked are written in the stack slot. Most slots have no marks.
#[inline(always)]
fn are_written(marks: u8, slot: &StackSlot) -> bool
    ensures { IsTrue result ↔ AreAmong marks (marks_of slot.now) }
{
    if marks == 0 {
        return true;
    }
    let others = slot.marks();
    others & marks == marks
}

#[inline(always)]
fn kind_covers(left: &Kind, right: &Kind, a: &State, b: &State) -> bool
    requires { length a.now.callers.items ≡ length b.now.callers.items }
    ensures yes { IsTrue result
        → KindCovers (packet_name a.now b.now) (null_name a.now b.now) left.now right.now }
    ensures no { KindEncloses (packet_name a.now b.now) (null_name a.now b.now) left.now right.now
        → IsTrue result }
{
    match left {
        Kind::Unset => true,
        _ => set_covers(*left, *right, a, b),
    }
}

// Whether a kind covers another, where the first is not unset. Few kinds reach this comparison.
#[inline(never)]
fn set_covers(left: Kind, right: Kind, a: &State, b: &State) -> bool
    requires { length a.now.callers.items ≡ length b.now.callers.items }
    ensures yes { IsTrue result
        → KindCovers (packet_name a.now b.now) (null_name a.now b.now) left right }
    ensures no { KindEncloses (packet_name a.now b.now) (null_name a.now b.now) left right
        → IsTrue result }
{
    left.covers(right, name_in(left, a, b))
}
