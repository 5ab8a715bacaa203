//! Stack slots about which nothing is known, as most of a table's are.

ghost use Rattle.std.specs.Prelude.{◌≡◌, ◌*◌, ◌≤◌, IsTrue, take, drop, replicate};
ghost use Rattle.stack_state.specs.Slots.{frame_slots};
ghost use Rattle.table_entries.specs.Blanks.{AreZeros};

use crate::slices::{skip, u16_at, u32_at, u64_at};
use stack_state::{FRAME_SLOTS, StackSlot};

// Whether the first 32 bytes are there, and are zeros.
#[inline(always)]
fn begins_blank(bytes: &[u8]) -> bool
    ensures { IsTrue result → AreZeros 32 bytes.now }
{
    if bytes.len() < 32 {
        return false;
    }
    if u64_at(bytes, 0) != 0 {
        return false;
    }
    if u64_at(bytes, 8) != 0 {
        return false;
    }
    if u64_at(bytes, 16) != 0 {
        return false;
    }
    if u64_at(bytes, 24) != 0 {
        return false;
    }
    true
}

// How many stack slots about which nothing is known the bytes begin with, by sixteens.
#[inline(always)]
fn blank_sixteens(bytes: &[u8]) -> usize
    ensures most { result ≤ frame_slots }
    ensures zeros { AreZeros (2 * result) bytes.now }
{
    let mut rest = bytes;
    for group in 0..4usize {
        if !begins_blank(rest) {
            return 16 * group;
        }
        rest = skip(rest, 32);
    }
    FRAME_SLOTS
}

// Whether the first 8 bytes are there, and are zeros.
#[inline(always)]
fn begins_with_four(bytes: &[u8]) -> bool
    ensures { IsTrue result → AreZeros 8 bytes.now }
{
    if bytes.len() < 8 {
        return false;
    }
    if u64_at(bytes, 0) != 0 {
        return false;
    }
    true
}

/// Returns how many stack slots about which nothing is known the bytes begin with, by fours: there
/// may be more.
#[inline(always)]
pub fn blank_stack_slots(bytes: &[u8]) -> usize
    ensures most { result ≤ frame_slots }
    ensures zeros { AreZeros (2 * result) bytes.now }
{
    let sixteens = blank_sixteens(bytes);
    if sixteens > 52 {
        return sixteens;
    }
    let mut rest = skip(bytes, 2 * sixteens);
    for group in 0..3usize {
        if !begins_with_four(rest) {
            return sixteens + 4 * group;
        }
        rest = skip(rest, 8);
    }
    sixteens + 12
}

/// Returns whether the bytes begin as an outer call frame's do, with a return slot and six kinds
/// that are unset.
#[inline(always)]
pub fn begins_unset(bytes: &[u8]) -> bool
    ensures { IsTrue result → AreZeros 6 (drop 2 bytes.now) }
{
    if bytes.len() < 8 {
        return false;
    }
    if u32_at(bytes, 2) != 0 {
        return false;
    }
    if u16_at(bytes, 6) != 0 {
        return false;
    }
    true
}

#[inline(always)]
fn is_blank(slot: &StackSlot) -> bool
    ensures { IsTrue result → slot.now ≡ StackSlot.Written 0 }
{
    match slot {
        StackSlot::Written(marks) => *marks == 0,
        StackSlot::Spilled(_) => false,
    }
}

/// Returns whether nothing is known of the first stack slots.
pub fn are_blank(slots: &[StackSlot; FRAME_SLOTS], count: usize) -> bool
    requires { count ≤ frame_slots }
    ensures { IsTrue result → take count slots.now ≡ replicate count (StackSlot.Written 0) }
{
    for index in 0..count {
        if !is_blank(&slots[index]) {
            return false;
        }
    }
    true
}
