//! Sets of homes: the registers and stack slots in which a call frame keeps values.

ghost use Rattle.std.specs.Prelude.{◌≡◌, ◌≤◌, ◌↔◌, ◌⊎◌, IsTrue};
ghost use Rattle.control_flow.specs.Liveness.{Home};
ghost use Rattle.control_flow.specs.Masks.{mask_at};

use crate::masks::RegisterMask;
use crate::slot_masks::SlotMask;

/// A set of registers and of stack slots.
#[derive(Clone, Copy, PartialEq, Eq)]
pub struct HomeMask {
    pub registers: RegisterMask,
    pub slots: SlotMask,
}

impl HomeMask {
    ghost use Rattle.control_flow.specs.Masks.{HasHome, no_homes};

    /// Nothing.
    pub fn none() -> Self
        ensures { result ≡ no_homes }
    {
        HomeMask {
            registers: RegisterMask::none(),
            slots: SlotMask::none(),
        }
    }

    /// These and the others.
    pub fn or(self, other: Self) -> Self
        ensures all { (h : Home) → HasHome result h ↔ (HasHome self h ⊎ HasHome other h) }
        ensures registers { self.registers.bits ≤ result.registers.bits }
        ensures slots { self.slots.bits ≤ result.slots.bits }
    {
        HomeMask {
            registers: self.registers.or(other.registers),
            slots: self.slots.or(other.slots),
        }
    }

    /// Returns whether one of these is one of the others.
    pub fn meets(self, other: Self) -> bool
        ensures { IsTrue result ↔ ((h : Home) × HasHome self h × HasHome other h) }
    {
        self.registers.meets(other.registers) || self.slots.meets(other.slots)
    }

    /// These without the others.
    pub fn without(self, other: Self) -> Self
        ensures { (h : Home) → HasHome result h ↔ (HasHome self h × (¬ HasHome other h)) }
    {
        HomeMask {
            registers: self.registers.without(other.registers),
            slots: self.slots.without(other.slots),
        }
    }
}

/// The mask of a slot of the code; empty outside the list.
pub fn mask_of(masks: &[HomeMask], slot: usize) -> HomeMask
    ensures { result ≡ mask_at masks.now slot }
{
    masks.get(slot).copied().unwrap_or(HomeMask::none())
}
