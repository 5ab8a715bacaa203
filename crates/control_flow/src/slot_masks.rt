//! Sets of a call frame's stack slots.

ghost use Rattle.std.specs.Prelude.{◌≡◌, ℕ, ◌+◌, ◌*◌, ◌/◌, ◌^◌, ◌<◌, ◌≤◌, ◌↔◌, ◌⊎◌, IsTrue, Some, bit_and};
ghost use Rattle.isa_model.specs.Code.Limits.{stack_size};

/// A set of stack slots of 8 bytes, the one at offset -512 from the frame's end in the lowest bit.
#[derive(Clone, Copy, PartialEq, Eq)]
pub struct SlotMask {
    bits: u64,
}

impl SlotMask {
    ghost use Rattle.control_flow.specs.Masks.{HasSlot, no_slots, all_slots};

    /// No stack slot.
    pub(crate) fn none() -> Self
        ensures { result ≡ no_slots }
    {
        SlotMask { bits: 0 }
    }

    /// All 64.
    pub fn all() -> Self
        ensures { (j : ℕ) → HasSlot result j ↔ (j < 64) }
    {
        SlotMask { bits: u64::MAX }
    }

    /// The stack slot, if there is one.
    pub(crate) fn of(slot: Option<u8>) -> Self
        requires { (j : ℕ) → slot ≡ Some j → j < 64 }
        ensures { (j : ℕ) → HasSlot result j ↔ (slot ≡ Some j) }
    {
        match slot {
            Some(index) => SlotMask { bits: 1 << index },
            None => SlotMask::none(),
        }
    }

    /// Returns whether the set is empty.
    pub fn is_empty(self) -> bool
        ensures exact { IsTrue result ↔ (self ≡ no_slots) }
        ensures none { IsTrue result → (j : ℕ) → ¬ HasSlot self j }
    {
        self.bits == 0
    }

    /// Returns whether all 64 are.
    pub fn is_full(self) -> bool
        ensures exact { IsTrue result ↔ (self ≡ all_slots) }
        ensures all { IsTrue result → (j : ℕ) → j < 64 → HasSlot self j }
    {
        self.bits == u64::MAX
    }

    /// Returns whether none of eight stack slots, those of a byte of the mask, is one of them.
    pub fn is_empty_in(self, byte: u8) -> bool
        requires { byte < 8 }
        ensures exact { IsTrue result ↔ (bit_and (self.bits / 2 ^ (8 * byte)) 255 ≡ 0) }
        ensures none { IsTrue result
            → (j : ℕ) → 8 * byte ≤ j → j < 8 * byte + 8 → ¬ HasSlot self j }
    {
        (self.bits >> (8 * byte)) & 255 == 0
    }

    /// Returns whether a stack slot is one of them.
    pub fn has(self, slot: u8) -> bool
        requires { 8 * slot < stack_size }
        ensures { IsTrue result ↔ HasSlot self slot }
    {
        (self.bits >> slot) & 1 == 1
    }

    /// These and the others.
    pub(crate) fn or(self, other: Self) -> Self
        ensures all { (j : ℕ) → HasSlot result j ↔ (HasSlot self j ⊎ HasSlot other j) }
        ensures grown { self.bits ≤ result.bits }
    {
        SlotMask {
            bits: self.bits | other.bits,
        }
    }

    /// Returns whether one of these is one of the others.
    pub(crate) fn meets(self, other: Self) -> bool
        ensures { IsTrue result ↔ ((j : ℕ) × (j < 64) × HasSlot self j × HasSlot other j) }
    {
        self.bits & other.bits != 0
    }

    /// These without the others.
    pub fn without(self, other: Self) -> Self
        ensures { (j : ℕ) → HasSlot result j ↔ (HasSlot self j × (¬ HasSlot other j)) }
    {
        SlotMask {
            bits: self.bits & (self.bits ^ other.bits),
        }
    }
}
