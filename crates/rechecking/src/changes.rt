//! Kinds that a step changes wherever they are, and which parts of a state have none of them.

ghost use Rattle.std.specs.Prelude.{◌≡◌, IsTrue};
ghost use Rattle.rechecking.specs.Changes as change_defs;
ghost use Rattle.rechecking.specs.Changes.{AreKindsUnchanged, AreSlotsUnchanged, IsFrameUnchanged, FirstHave};

use reg_state::Kind;
use stack_state::{AbstractFrame, StackSlot};

/// Says what a step changes in all call frames.
#[derive(Clone, Copy)]
pub enum KindChange {
    /// This many bytes after the variable part of a packet identity are proved.
    Proves(u32, u32),
    /// It becomes known whether values of an identity are null.
    Tests(u32),
    /// Pointers to values of a map are forgotten.
    Forgets(u8),
}

fn is_packet_kept(kind: &Kind, name: u32, bytes: u32) -> bool
    ensures { result ≡ change_defs.is_kind_kept (KindChange.Proves name bytes) kind.now }
{
    match *kind {
        Kind::Packet {
            identity,
            proved,
            ..
        } => identity != name || bytes <= proved,
        _ => true,
    }
}

fn is_untested_kept(kind: &Kind, name: u32) -> bool
    ensures { result ≡ change_defs.is_kind_kept (KindChange.Tests name) kind.now }
{
    match *kind {
        Kind::MapValueOrNull { identity, .. } => identity != name,
        _ => true,
    }
}

fn is_value_kept(kind: &Kind, name: u8) -> bool
    ensures { result ≡ change_defs.is_kind_kept (KindChange.Forgets name) kind.now }
{
    match *kind {
        Kind::MapValue { index, .. } => index != name,
        Kind::MapValueOrNull { index, .. } => index != name,
        _ => true,
    }
}

/// Returns whether the kind stays as it is.
#[inline(always)]
fn is_kind_kept(change: KindChange, kind: &Kind) -> bool
    ensures { result ≡ change_defs.is_kind_kept change kind.now }
{
    match change {
        KindChange::Proves(name, bytes) => is_packet_kept(kind, name, bytes),
        KindChange::Tests(name) => is_untested_kept(kind, name),
        KindChange::Forgets(name) => is_value_kept(kind, name),
    }
}

#[inline(always)]
fn is_slot_kept(change: KindChange, slot: &StackSlot) -> bool
    ensures { result ≡ change_defs.is_slot_kept change slot.now }
{
    match slot {
        StackSlot::Written(_) => true,
        StackSlot::Spilled(kind) => is_kind_kept(change, kind),
    }
}

fn are_kinds_kept(change: KindChange, kinds: &[Kind]) -> bool
    ensures { IsTrue result → AreKindsUnchanged change kinds.now }
{
    for index in 0..kinds.len() {
        if !is_kind_kept(change, &kinds[index]) {
            return false;
        }
    }
    true
}

/// Returns whether all stack slots stay as they are.
pub fn are_slots_kept(change: KindChange, slots: &[StackSlot]) -> bool
    ensures { IsTrue result → AreSlotsUnchanged change slots.now }
{
    for index in 0..slots.len() {
        if !is_slot_kept(change, &slots[index]) {
            return false;
        }
    }
    true
}

fn is_frame_kept(change: KindChange, frame: &AbstractFrame) -> bool
    ensures { IsTrue result → IsFrameUnchanged change frame.now }
{
    are_kinds_kept(change, &frame.registers) && are_slots_kept(change, frame.stack.slots())
}

/// Returns how many frames come before the first one that does not stay as it is.
pub fn frames_kept(change: KindChange, frames: &[AbstractFrame]) -> usize
    ensures { FirstHave (IsFrameUnchanged change) result frames.now }
{
    for index in 0..frames.len() {
        if !is_frame_kept(change, &frames[index]) {
            return index;
        }
    }
    frames.len()
}
