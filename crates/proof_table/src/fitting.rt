//! Whether a table can spell an entry.

ghost use Rattle.std.specs.Prelude.{◌≡◌, ◌↔◌, ℕ, ◌<◌, ◌≤◌, true, false, All, IsTrue, length, get_or};
ghost use Rattle.stack_state.specs.declared.states.AbstractFrame.{AbstractFrame};
ghost use Rattle.stack_state.specs.Slots.{frame_slots};
ghost use Rattle.table_entries.specs.Frames.{frame_allowed};
ghost use Rattle.proof_table.specs.Fitting.{ScalarFits, StackFits, PacketFits, MapFits, ValueFits, NullFits, KindFits, StackSlotFits, FrameFits, EntryFits, stack_slot_said, frame_said, entry_said};

use image::Image;
use known_bits::Bits;
use ranges::{Low, Range, Wide};
use reg_state::{Kind, Scalar};
use stack_state::{AbstractFrame, FRAME_SLOTS, StackSlot, State};
use table_entries::entries::head_allowed;
use table_entries::frames::frame_allowed;

// ---- kinds; `rows` is how many map rows there are, `holder` the call frame that holds them

// Recalls that the fields of a number are of their widths, for the proof. It does nothing.
fn number_fits(numbers: Scalar)
    ensures { ScalarFits numbers }
{
    let Scalar {
        bits: Bits { value: _, mask: _ },
        range: Range {
            wide: Wide {
                least: _,
                greatest: _,
                signed_least: _,
                signed_greatest: _,
            },
            low: Low {
                least: _,
                greatest: _,
                signed_least: _,
                signed_greatest: _,
            },
        },
    } = numbers;
}

fn stack_fits(holder: usize, frame: u8, offset: i32) -> bool
    ensures { IsTrue result ↔ StackFits holder frame offset }
{
    let _width = offset;
    usize::from(frame) <= holder
}

fn packet_fits(fixed: i32, identity: u32, least: i32, greatest: i32, proved: u32) -> bool
    ensures { IsTrue result ↔ PacketFits fixed identity least greatest proved }
{
    if least > greatest {
        return false;
    }
    identity != 0 || (least == 0 && greatest == 0)
}

fn map_fits(rows: usize, index: u8) -> bool
    ensures { IsTrue result ↔ MapFits rows index }
{
    usize::from(index) < rows
}

fn value_fits(rows: usize, index: u8, least: i32, greatest: i32) -> bool
    ensures { IsTrue result ↔ ValueFits rows index least greatest }
{
    map_fits(rows, index) && least <= greatest
}

fn null_fits(rows: usize, index: u8, identity: u32) -> bool
    ensures { IsTrue result ↔ NullFits rows index identity }
{
    map_fits(rows, index)
}

fn kind_fits(rows: usize, holder: usize, kind: &Kind) -> bool
    ensures { IsTrue result ↔ KindFits rows holder kind.now }
{
    match *kind {
        Kind::Unset | Kind::Context | Kind::PacketEnd => true,
        Kind::Number(numbers) => {
            number_fits(numbers);
            true
        }
        Kind::Stack { frame, offset } => stack_fits(holder, frame, offset),
        Kind::Packet {
            fixed,
            identity,
            least,
            greatest,
            proved,
        } => packet_fits(fixed, identity, least, greatest, proved),
        Kind::Map { index } => map_fits(rows, index),
        Kind::MapValue {
            index,
            least,
            greatest,
        } => value_fits(rows, index, least, greatest),
        Kind::MapValueOrNull { index, identity } => null_fits(rows, index, identity),
    }
}

fn stack_slot_fits(rows: usize, holder: usize, slot: &StackSlot) -> bool
    ensures { IsTrue result ↔ StackSlotFits rows holder (stack_slot_said slot.now) }
{
    match slot {
        StackSlot::Written(marks) => {
            let _width = *marks;
            true
        }
        StackSlot::Spilled(kind) => kind_fits(rows, holder, kind),
    }
}

// ---- frames and entries

fn kinds_fit(rows: usize, holder: usize, kinds: &[Kind; 10]) -> bool
    ensures fit { IsTrue result ↔ All (KindFits rows holder) kinds.now }
    ensures count { length kinds.now ≡ 10 }
{
    for kind in kinds {
        if !kind_fits(rows, holder, kind) {
            return false;
        }
    }
    true
}

fn stack_slots_fit(rows: usize, holder: usize, slots: &[StackSlot; FRAME_SLOTS]) -> bool
    ensures fit { IsTrue result
        ↔ All (λ slot. StackSlotFits rows holder (stack_slot_said slot)) slots.now }
    ensures count { length slots.now ≡ frame_slots }
{
    for slot in slots {
        if !stack_slot_fits(rows, holder, slot) {
            return false;
        }
    }
    true
}

fn frame_fits(rows: usize, holder: usize, outer: bool, frame: &AbstractFrame) -> bool
    ensures { IsTrue result ↔ FrameFits rows holder outer (frame_said frame.now) }
{
    if frame.return_slot > usize::from(u16::MAX) {
        return false;
    }
    if !frame_allowed(holder, outer, frame.return_slot, &frame.registers) {
        return false;
    }
    if !kinds_fit(rows, holder, &frame.registers) {
        return false;
    }
    stack_slots_fit(rows, holder, frame.stack.slots())
}

// Whether a table can spell outer call frames.
fn callers_fit(rows: usize, callers: &[AbstractFrame]) -> bool
    ensures { IsTrue result ↔ ((k : ℕ) (d : AbstractFrame) → k < length callers.now
        → FrameFits rows k true (frame_said (get_or callers.now k d))) }
{
    for (holder, frame) in callers.iter().enumerate() {
        if !frame_fits(rows, holder, true, frame) {
            return false;
        }
    }
    true
}

/// Returns whether a table can spell the entry.
pub fn entry_fits(image: &Image, number: u32, state: &State, successors: &[u32]) -> bool
    ensures { IsTrue result ↔ EntryFits image.now (entry_said (record {
      number = number;
      state = state.now;
      successors = successors.now;
    })) }
{
    let rows = image.maps().len();
    if successors.len() > 2 {
        return false;
    }
    if state.slot > usize::from(u16::MAX) {
        return false;
    }
    if !head_allowed(image, number, state.slot) {
        return false;
    }
    if !callers_fit(rows, &state.callers) {
        return false;
    }
    frame_fits(rows, state.callers.len(), false, &state.innermost)
}
