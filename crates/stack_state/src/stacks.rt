//! What is known of the bytes of a call frame.

ghost use Rattle.std.specs.Prelude.{◌≡◌, List, length, ◌+◌, ◌/◌, ◌%◌, ◌<◌, ◌≤◌, ◌↔◌, ◌++◌, IsTrue, drop, replicate, slice_set};
ghost use Rattle.isa_model.specs.Code.Limits.{stack_size};
ghost use Rattle.isa_model.specs.declared.values.Cell.{Cell};
ghost use Rattle.isa_model.specs.Code.Sizes.{size_bytes};
ghost use Rattle.reg_state.specs.Kinds.{Assigned};
ghost use Rattle.stack_state.specs.Slots as slot_defs;
ghost use Rattle.stack_state.specs.Slots.{AreKnownFrom, slot_at, IsNumberByte, AreMarked, after_store, IsLoad, IsSpill, IsFill, frame_slots};
ghost use Rattle.stack_state.specs.StackMeaning.{StackMeans, StoresBytes, Spills, LoadsNumber, LoadsSlot, AreNumberBytes, ForgetsMap};

use crate::slots::{StackSlot, filled, forgotten_slot, mark, mask, numbers, spilled};
use isa_model::{STACK_SIZE, Size};
use reg_state::{Kind, Scalar};
use std::marker::Model;

/// Says how many slots of 8 bytes a call frame has.
pub const FRAME_SLOTS: usize = STACK_SIZE / 8;

/// Says what is known of the bytes of a call frame: slot 0 is its first, the farthest from the
/// frame's end. Programs use the last slots first, and most often nothing is known of the others,
/// which are neither copied nor cleared.
///
/// Contracts see the slots.
#[derive(Drop)]
pub struct StackState {
    slots: [StackSlot; FRAME_SLOTS],
    /// Nothing is known of the slots before this one.
    known_from: usize,
}

impl Model for StackState {
    ghost use Rattle.stack_state.specs.Slots.{StackSlots, AreKnownFrom};

    ghost Value = { StackSlots };

    ghost view = { λ stack. record { slots = stack.slots } };

    ghost invariant = { λ stack. AreKnownFrom stack.known_from stack.slots };
}

impl Default for StackState {
    fn default() -> Self
        ensures { result.slots ≡ replicate frame_slots (StackSlot.Written 0) }
    {
        StackState::new()
    }
}

impl StackState {
    /// A frame about which nothing is known.
    pub fn new() -> StackState
        ensures exact { result.slots ≡ replicate frame_slots (StackSlot.Written 0) }
        ensures meant { (e : Assigned) (cells : List Cell) → length cells ≡ stack_size
            → StackMeans e result.slots cells }
    {
        StackState {
            slots: [StackSlot::Written(0); FRAME_SLOTS],
            known_from: FRAME_SLOTS,
        }
    }

    /// A copy.
    pub fn copy(&self) -> Self
        ensures { result ≡ self.now }
    {
        let mut copy = StackState::new();
        copy.copy_from(self);
        copy
    }

    /// Becomes a copy of the other one.
    pub fn copy_from(&mut self, other: &StackState)
        ensures { self.new ≡ other.now }
    {
        let from = other.known_from;
        self.forget_before(from);
        self.slots[from..].copy_from_slice(&other.slots[from..]);
        self.known_from = from;
    }

    /// The slots.
    pub fn slots(&self) -> &[StackSlot; FRAME_SLOTS]
        ensures { result.now ≡ self.now.slots }
    {
        &self.slots
    }

    /// A slot before which nothing is known of any, at most `FRAME_SLOTS`.
    pub fn known_from(&self) -> usize
        ensures { AreKnownFrom result self.now.slots }
    {
        self.known_from
    }

    /// Sets what is known of a slot.
    pub fn set(&mut self, index: usize, slot: StackSlot)
        requires { index < frame_slots }
        ensures set { self.new.slots ≡ slice_set self.old.slots index slot }
        ensures wide { length self.new.slots ≡ frame_slots }
    {
        self.slots[index] = slot;
        self.known_from = self.known_from.min(index);
    }

    /// Of a slot no more is known than that these bytes are written number bytes.
    pub fn mark(&mut self, index: usize, marks: u8)
        requires { index < frame_slots }
        ensures set { self.new.slots
            ≡ slice_set self.old.slots index (StackSlot.Written marks) }
        ensures wide { length self.new.slots ≡ frame_slots }
    {
        mark(&mut self.slots[index], marks);
        self.known_from = self.known_from.min(index);
    }

    /// Forgets what is known of the slots before one.
    pub fn forget_before(&mut self, end: usize)
        requires { end ≤ frame_slots }
        ensures before { self.new.slots
            ≡ replicate end (StackSlot.Written 0) ++ drop end self.old.slots }
        ensures wide { length self.new.slots ≡ frame_slots }
    {
        if end <= self.known_from {
            return;
        }
        for index in self.known_from..end {
            mark(&mut self.slots[index], 0);
        }
        self.known_from = end;
    }

    /// Forgets all that is known of it.
    pub fn clear(&mut self)
        ensures { self.new.slots ≡ replicate frame_slots (StackSlot.Written 0) }
    {
        self.forget_before(FRAME_SLOTS);
    }

    /// Bytes of a number are written.
    pub fn store(&mut self, at: usize, size: Size)
        requires inside { at < stack_size }
        requires in_slot { at % 8 + size_bytes size ≤ 8 }
        ensures exact { self.new.slots ≡ after_store self.old.slots at (size_bytes size) }
        ensures meant { StoresBytes self.old.slots at size self.new.slots }
    {
        let slot = self.slots[at / 8];
        let written = slot.marks() | mask(at % 8, size.bytes());
        self.mark(at / 8, written);
    }

    /// The numbers that a load of the bytes may return. `None`: not all of them are written number
    /// bytes.
    pub fn load(&self, at: usize, size: Size) -> Option<Scalar>
        requires inside { at < stack_size }
        requires in_slot { at % 8 + size_bytes size ≤ 8 }
        ensures exact { IsLoad self.now.slots at size result }
        ensures meant { LoadsNumber self.now.slots at size result }
    {
        if self.is_bytes(at, size.bytes()) {
            Some(numbers(self.slots[at / 8], at % 8, size))
        } else {
            None
        }
    }

    /// A value of the kind is written into the whole slot.
    pub fn spill(&mut self, slot: usize, kind: Kind)
        requires { slot < frame_slots }
        ensures exact { IsSpill kind (slot_at self.new.slots slot) }
        ensures others { self.new.slots
            ≡ slice_set self.old.slots slot (slot_at self.new.slots slot) }
        ensures meant { Spills self.old.slots slot kind self.new.slots }
    {
        self.set(slot, spilled(kind));
    }

    /// The kind of the value that a load of the whole slot returns. `None`: some byte may be
    /// unwritten, or a pointer not whole.
    pub fn fill(&self, slot: usize) -> Option<Kind>
        requires { slot < frame_slots }
        ensures exact { IsFill (slot_at self.now.slots slot) result }
        ensures meant { LoadsSlot self.now.slots slot result }
    {
        filled(self.slots[slot])
    }

    /// Returns whether the byte is a written number byte.
    fn is_byte(&self, at: usize) -> bool
        requires { at < stack_size }
        ensures { IsTrue result ↔ IsNumberByte self.now.slots at }
    {
        (self.slots[at / 8].marks() >> (at % 8)) & 1 == 1
    }

    /// Returns whether the bytes are all written number bytes.
    pub fn is_bytes(&self, from: usize, count: usize) -> bool
        requires { from + count ≤ stack_size }
        ensures exact { IsTrue result ↔ AreMarked self.now.slots from (from + count) }
        ensures meant { IsTrue result → AreNumberBytes self.now.slots from count }
    {
        for at in from..from + count {
            if !self.is_byte(at) {
                return false;
            }
        }
        true
    }

    /// Pointers to values of the map are forgotten.
    pub fn forget_map(&mut self, map: u8)
        ensures exact { self.new.slots ≡ slot_defs.forgotten map self.old.slots }
        ensures meant { ForgetsMap map self.old.slots self.new.slots }
    {
        for slot in self.known_from..FRAME_SLOTS {
            self.slots[slot] = forgotten_slot(self.slots[slot], map);
        }
    }
}
