//! Entries compared with a state byte by byte: one that spells the state is not read as well.
//!
//! Each function returns the bytes after the spelling of its argument, if the bytes begin with
//! that spelling. Nothing follows from None.

ghost use Rattle.std.specs.Prelude.{◌≡◌, true, false, Some, Ok, IfSome, length};
ghost use Rattle.stack_state.specs.Slots.{frame_slots};
ghost use Rattle.table_entries.specs.Reading.{many};
ghost use Rattle.table_entries.specs.Kinds.{stack_slot_in};
ghost use Rattle.table_entries.specs.Frames.{frame_in, callers_in};
ghost use Rattle.table_entries.specs.Entries.{entry_in, entry_of, rest_in};
ghost use Rattle.table_entries.specs.KnownBytes.{SpellsAt, SpellFrames, SpellSlots, NotesFrame, AreSpelled, SpellState};

use crate::entries::{EntryHead, head_allowed, named_in};
use crate::frames::frame_allowed;
use crate::known_bytes::{FrameBytes, KnownBytes, after_known, note};
use crate::slices::{before, begins_with, skip, u16_at, u32_at};
use crate::spelling::{after_frame, after_registers, after_stack_slots};
use arrayvec::ArrayVec;
use image::Image;
use stack_state::{AbstractFrame, FRAME_SLOTS, MAX_CALLERS, StackSlot, State};

// An outer call frame, whose bytes are known afterwards if it is the first for which none were.
fn after_caller<'a>(
    rows: usize,
    holder: usize,
    bytes: &'a [u8],
    frame: &AbstractFrame,
    known: &mut ArrayVec<FrameBytes<'a>, MAX_CALLERS>,
) -> Option<&'a [u8]>
    requires { SpellsAt rows known.old.items holder frame.now }
    ensures notes { NotesFrame rows holder frame.now known.old.items known.new.items }
    ensures after { IfSome result (λ rest. frame_in rows holder true bytes.now
        ≡ Ok (Some frame.now, rest.now)) }
{
    if let Some(rest) = after_known(known.as_slice(), holder, bytes) {
        return Some(rest);
    }
    let rest = after_frame(rows, holder, true, bytes, frame)?;
    note(known, holder, before(bytes, rest));
    Some(rest)
}

fn after_callers<'a>(
    rows: usize,
    bytes: &'a [u8],
    callers: &[AbstractFrame],
    known: &mut ArrayVec<FrameBytes<'a>, MAX_CALLERS>,
) -> Option<&'a [u8]>
    requires { SpellFrames rows known.old.items callers.now }
    ensures spelled { SpellFrames rows known.new.items callers.now }
    ensures after { IfSome result (λ rest. callers_in rows (length callers.now) bytes.now
        ≡ Ok (Some callers.now, rest.now)) }
{
    let mut rest = bytes;
    for holder in 0..callers.len() {
        rest = after_caller(rows, holder, rest, &callers[holder], known)?;
    }
    Some(rest)
}

// The outer frames of a state.
fn after_outer<'a>(
    image: &Image,
    bytes: &'a [u8],
    state: &State,
    known: &mut ArrayVec<FrameBytes<'a>, MAX_CALLERS>,
) -> Option<&'a [u8]>
    requires { SpellFrames (length image.now.maps) known.old.items state.now.callers.items }
    ensures spelled { SpellFrames (length image.now.maps) known.new.items
        state.now.callers.items }
    ensures after { IfSome result (λ rest. callers_in (length image.now.maps)
        (length state.now.callers.items) bytes.now
        ≡ Ok (Some state.now.callers.items, rest.now)) }
{
    let rows = image.maps().len();
    after_callers(rows, bytes, state.callers.as_slice(), known)
}

// The stack slots of the innermost frame, whose bytes are known afterwards.
fn after_known_slots<'a>(
    rows: usize,
    holder: usize,
    bytes: &'a [u8],
    slots: &[StackSlot; FRAME_SLOTS],
    known: &mut Option<&'a [u8]>,
) -> Option<&'a [u8]>
    requires { SpellSlots rows holder known.old slots.now }
    ensures spelled { SpellSlots rows holder known.new slots.now }
    ensures after { IfSome result
        (λ rest. many (λ k. stack_slot_in rows holder) frame_slots 0 bytes.now
        ≡ Ok (Some slots.now, rest.now)) }
{
    if let Some(front) = *known {
        if begins_with(bytes, front) {
            return Some(skip(bytes, front.len()));
        }
    }
    let rest = after_stack_slots(rows, holder, bytes, slots)?;
    *known = Some(before(bytes, rest));
    Some(rest)
}

// The innermost frame.
fn after_innermost<'a>(
    rows: usize,
    holder: usize,
    bytes: &'a [u8],
    frame: &AbstractFrame,
    known: &mut Option<&'a [u8]>,
) -> Option<&'a [u8]>
    requires { SpellSlots rows holder known.old frame.now.stack.slots }
    ensures spelled { SpellSlots rows holder known.new frame.now.stack.slots }
    ensures after { IfSome result (λ rest. frame_in rows holder false bytes.now
        ≡ Ok (Some frame.now, rest.now)) }
{
    if bytes.len() < 2 || usize::from(u16_at(bytes, 0)) != frame.return_slot {
        return None;
    }
    let rest = after_registers(rows, holder, skip(bytes, 2), &frame.registers)?;
    let rest = after_known_slots(rows, holder, rest, frame.stack.slots(), known)?;
    if frame_allowed(holder, false, frame.return_slot, &frame.registers) {
        Some(rest)
    } else {
        None
    }
}

// All call frames of a state.
fn after_frames<'a>(
    image: &Image,
    bytes: &'a [u8],
    state: &State,
    known: &mut KnownBytes<'a>,
) -> Option<&'a [u8]>
    requires { AreSpelled (length image.now.maps) known.old state.now }
    ensures spelled { AreSpelled (length image.now.maps) known.new state.now }
    ensures after { IfSome result (λ rest. SpellState (length image.now.maps) bytes.now state.now
        rest.now) }
{
    let rest = after_outer(image, bytes, state, &mut known.frames)?;
    let rows = image.maps().len();
    let holder = state.callers.len();
    after_innermost(rows, holder, rest, &state.innermost, &mut known.slots)
}

// What the entry says besides its state, and the bytes after it, if the bytes spell the call frames
// of the state. They come after the number, the slot and the count of call frames.
fn after_rest<'a>(
    image: &Image,
    number: u32,
    bytes: &'a [u8],
    state: &State,
    known: &mut KnownBytes<'a>,
) -> Option<(EntryHead, &'a [u8])>
    requires { AreSpelled (length image.now.maps) known.old state.now }
    ensures spelled { AreSpelled (length image.now.maps) known.new state.now }
    ensures after { IfSome result (λ x. rest_in image.now number state.now.slot
        (length state.now.callers.items) bytes.now
        ≡ Ok (Some (entry_of x.0 state.now), x.1.now)) }
{
    let rest = after_frames(image, bytes, state, known)?;
    if !head_allowed(image, number, state.slot) {
        return None;
    }
    match named_in(rest) {
        Ok((named, after)) => Some((EntryHead { number, named }, after)),
        Err(_) => None,
    }
}

/// Returns what the entry that the bytes begin with says besides its state, if they spell this
/// state, and the bytes after it. More bytes may be known to spell the state afterwards.
#[tactic(auto, unfolding(crate::specs::Entries::entry_in))]
pub(crate) fn after_entry<'a>(
    image: &Image,
    bytes: &'a [u8],
    state: &State,
    known: &mut KnownBytes<'a>,
) -> Option<(EntryHead, &'a [u8])>
    requires { AreSpelled (length image.now.maps) known.old state.now }
    ensures spelled { AreSpelled (length image.now.maps) known.new state.now }
    ensures after { IfSome result (λ x. entry_in image.now bytes.now
        ≡ Ok (Some (entry_of x.0 state.now), x.1.now)) }
{
    if bytes.len() < 7 {
        return None;
    }
    let frame_count = usize::from(bytes[6]);
    if frame_count == 0 || frame_count - 1 != state.callers.len() {
        return None;
    }
    if usize::from(u16_at(bytes, 4)) != state.slot {
        return None;
    }
    after_rest(image, u32_at(bytes, 0), skip(bytes, 7), state, known)
}
