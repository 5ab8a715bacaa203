//! Why an entry of a table cannot be named for a successor.

ghost use Rattle.std.specs.Prelude.{◌≡◌, ◌<◌, ◌+◌, IfSome, None};
ghost use Rattle.stack_state.specs.Meaning.{depth, abstract_frame_at};
ghost use Rattle.stack_state.specs.Slots.{frame_slots};
ghost use Rattle.table_entries.specs.Tables.{entry_at};
ghost use Rattle.explanations.specs.Fronts.{FrontCovers};
ghost use Rattle.explanations.specs.Mismatches.{IsInBoth, Differs, IsMismatch};

use crate::fronts::front_of;
use image::Image;
use stack_state::{AbstractFrame, FRAME_SLOTS, State};
use state_cover::covers;
use table_entries::Table;

/// Says why an entry cannot be named for a state. Call frames are counted from the outermost, 0.
#[derive(Clone, Copy)]
pub enum Mismatch {
    /// There is no such entry.
    Missing,
    /// Its number is this one, which is not smaller.
    NotSmaller(u32),
    /// It is at another slot.
    Slot,
    /// It has another number of call frames.
    Frames,
    /// This frame returns to another slot.
    Returns(usize),
    /// It does not cover this register of this frame, and covers all before it.
    Register(usize, usize),
    /// It does not cover this stack slot of this frame, and covers all before it.
    Stack(usize, usize),
}

/// A frame, counted from the outermost.
pub fn frame_of(state: &State, frame: usize) -> &AbstractFrame
    requires { frame < depth state.now }
    ensures { result.now ≡ abstract_frame_at state.now frame }
{
    match state.callers.as_slice().get(frame) {
        Some(caller) => caller,
        None => &state.innermost,
    }
}

/// The first register of a frame that is not covered, where all before this frame are.
fn first_register(entry: &State, state: &State, frame: usize) -> Option<usize>
    requires { FrontCovers entry.now state.now frame 0 0 }
    ensures found { IfSome result (λ register. Differs entry.now state.now
        (Mismatch.Register frame register)) }
    ensures none { result ≡ None → FrontCovers entry.now state.now frame 10 0 }
{
    for register in 0..10usize {
        if !covers(&front_of(entry, frame, register + 1, 0), state) {
            return Some(register);
        }
    }
    None
}

/// The first stack slot of a frame that is not covered, where all before this frame and its
/// registers are.
fn first_slot(entry: &State, state: &State, frame: usize) -> Option<usize>
    requires { FrontCovers entry.now state.now frame 10 0 }
    ensures found { IfSome result (λ slot. Differs entry.now state.now
        (Mismatch.Stack frame slot)) }
    ensures inside { IfSome result (λ slot. slot < frame_slots) }
    ensures none { result ≡ None → FrontCovers entry.now state.now frame 10 frame_slots }
{
    for slot in 0..FRAME_SLOTS {
        if !covers(&front_of(entry, frame, 10, slot + 1), state) {
            return Some(slot);
        }
    }
    None
}

/// The first register or stack slot of a frame that is not covered, where all before this frame
/// are.
fn first_place(entry: &State, state: &State, frame: usize) -> Option<Mismatch>
    requires entry { frame < depth entry.now }
    requires state { frame < depth state.now }
    requires before { FrontCovers entry.now state.now frame 0 0 }
    ensures found { IfSome result
        (λ found. Differs entry.now state.now found × IsInBoth entry.now state.now found) }
    ensures none { result ≡ None → FrontCovers entry.now state.now (frame + 1) 0 0 }
{
    if let Some(register) = first_register(entry, state, frame) {
        return Some(Mismatch::Register(frame, register));
    }
    match first_slot(entry, state, frame) {
        Some(slot) => Some(Mismatch::Stack(frame, slot)),
        None => None,
    }
}

/// The first frame that returns to another slot.
fn first_return(entry: &State, state: &State) -> Option<usize>
    requires { depth entry.now ≡ depth state.now }
    ensures found { IfSome result (λ frame. Differs entry.now state.now (Mismatch.Returns frame)) }
    ensures inside { IfSome result (λ frame. frame < depth entry.now) }
{
    for frame in 0..entry.callers.len() + 1 {
        if frame_of(entry, frame).return_slot != frame_of(state, frame).return_slot {
            return Some(frame);
        }
    }
    None
}

/// In what the state of an entry differs from another one that it does not cover.
fn difference(entry: &State, state: &State) -> Option<Mismatch>
    ensures { IfSome result
        (λ found. Differs entry.now state.now found × IsInBoth entry.now state.now found) }
{
    if entry.slot != state.slot {
        return Some(Mismatch::Slot);
    }
    if entry.callers.len() != state.callers.len() {
        return Some(Mismatch::Frames);
    }
    if let Some(frame) = first_return(entry, state) {
        return Some(Mismatch::Returns(frame));
    }
    if !covers(&front_of(entry, 0, 0, 0), state) {
        return None;
    }
    for frame in 0..entry.callers.len() + 1 {
        if let Some(found) = first_place(entry, state, frame) {
            return Some(found);
        }
    }
    None
}

/// Returns why the entry of that index cannot be named for a state, by an entry of that number. The
/// state of the entry of that index is read into `room`.
pub fn mismatch_of(
    image: &Image,
    table: &Table,
    number: u32,
    index: u32,
    state: &State,
    room: &mut State,
) -> Option<Mismatch>
    ensures is { IfSome result (λ found. IsMismatch (entry_at image.now table.now) number index
        room.new state.now found) }
    ensures inside { IfSome result (λ found. IsInBoth room.new state.now found) }
{
    let Some(head) = table.read(image, index as usize, room) else {
        return Some(Mismatch::Missing);
    };
    if head.number >= number {
        return Some(Mismatch::NotSmaller(head.number));
    }
    difference(room, state)
}
