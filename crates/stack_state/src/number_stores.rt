//! Bytes of a number that are written into a stack slot.

ghost use Rattle.std.specs.Prelude.{◌≡◌, ◌+◌, ◌*◌, ◌/◌, ◌%◌, ◌<◌, ◌≤◌, IsTrue, slice_set};
ghost use Rattle.isa_model.specs.Code.Limits.{stack_size};
ghost use Rattle.isa_model.specs.Code.Sizes.{size_bytes};
ghost use Rattle.stack_state.specs.Meaning.{depth};
ghost use Rattle.stack_state.specs.Slots.{slot_at, IsAny};
ghost use Rattle.stack_state.specs.NumberStores.{AreKindWhole, AreWhole, HaveAll, IsBlank, IsSlotStored, StoresNumber, IsNumberStoredIn};

use crate::slots::{StackSlot, all, mask, spilled};
use crate::stacks::StackState;
use crate::states::State;
use isa_model::{Size, Width};
use reg_state::{Domain, Kind, Scalar};

/// Every number.
fn any() -> Scalar
    ensures { IsAny result }
{
    Scalar::any(Width::Full64)
}

/// The numbers that the eight bytes of a spilled value may spell.
fn kind_whole(kind: Kind) -> Scalar
    ensures { AreKindWhole kind result }
{
    match kind {
        Kind::Number(numbers) => numbers,
        _ => any(),
    }
}

/// The numbers that the eight bytes of a slot may spell.
fn whole(slot: StackSlot) -> Scalar
    ensures { AreWhole slot result }
{
    match slot {
        StackSlot::Written(_) => any(),
        StackSlot::Spilled(kind) => kind_whole(kind),
    }
}

/// Returns whether each number that the bytes may spell is one of the numbers.
fn have_all(size: Size, numbers: Scalar) -> bool
    ensures { IsTrue result → HaveAll size numbers }
{
    numbers.covers(all(size))
}

/// Returns whether nothing is known of a slot, nor of what is written into it.
fn is_blank(slot: StackSlot, size: Size, numbers: Scalar) -> bool
    ensures { IsTrue result → IsBlank slot size numbers }
{
    match slot {
        StackSlot::Written(_) => have_all(size, numbers),
        StackSlot::Spilled(_) => false,
    }
}

/// The slot after bytes from one on were written, those of one of the numbers.
fn stored(slot: StackSlot, from: usize, size: Size, numbers: Scalar) -> StackSlot
    requires { from + size_bytes size ≤ 8 }
    ensures { IsSlotStored slot from size numbers result }
{
    let marks = slot.marks() | mask(from, size.bytes());
    if marks != 255 {
        return StackSlot::Written(marks);
    }
    if is_blank(slot, size, numbers) {
        return StackSlot::Written(255);
    }
    let bits = 8 * size.bytes() as u32;
    spilled(Kind::Number(whole(slot).spliced(8 * from as u64, bits, numbers)))
}

impl StackState {
    /// Bytes of one of the numbers are written. Where all bytes of the slot are number bytes after
    /// it, what is known of their number is kept.
    pub fn store_number(&mut self, at: usize, size: Size, numbers: Scalar)
        requires inside { at < stack_size }
        requires in_slot { at % 8 + size_bytes size ≤ 8 }
        ensures exact { IsSlotStored (slot_at self.old.slots (at / 8)) (at % 8) size numbers
            (slot_at self.new.slots (at / 8)) }
        ensures others { self.new.slots
            ≡ slice_set self.old.slots (at / 8) (slot_at self.new.slots (at / 8)) }
        ensures meant { StoresNumber self.old.slots at size numbers self.new.slots }
    {
        self.set(at / 8, stored(self.slots()[at / 8], at % 8, size, numbers));
    }
}

impl State {
    /// Bytes of one of the numbers are written in a live call frame.
    pub fn store_number(&mut self, frame: u8, at: usize, size: Size, numbers: Scalar)
        requires live { frame < depth self.old }
        requires inside { at < stack_size }
        requires in_slot { at % 8 + size_bytes size ≤ 8 }
        ensures { IsNumberStoredIn self.old frame at size numbers self.new }
    {
        match self.callers.get_mut(usize::from(frame)) {
            Some(caller) => caller.stack.store_number(at, size, numbers),
            None => self.innermost.stack.store_number(at, size, numbers),
        }
    }
}
