//! Sets of registers.

ghost use Rattle.std.specs.Prelude.{◌≡◌, ◌≤◌, ◌↔◌, ◌⊎◌, IsTrue};
ghost use Rattle.isa_model.specs.declared.registers.Reg.{Reg as TheReg};

use isa_model::Reg;

/// A set of registers, r0 in the lowest bit.
#[derive(Clone, Copy, PartialEq, Eq)]
pub struct RegisterMask {
    bits: u16,
}

impl RegisterMask {
    ghost use Rattle.control_flow.specs.Masks.{HasRegister, no_registers};

    /// No register.
    pub fn none() -> Self
        ensures { result ≡ no_registers }
    {
        RegisterMask { bits: 0 }
    }

    /// Returns whether a register is one of them.
    pub fn has(self, register: Reg) -> bool
        ensures { IsTrue result ↔ HasRegister self register }
    {
        (self.bits >> register.number()) & 1 == 1
    }

    /// These and one more.
    pub fn with(self, register: Reg) -> Self
        ensures { (r : TheReg) → HasRegister result r ↔ (HasRegister self r ⊎ (r ≡ register)) }
    {
        RegisterMask {
            bits: self.bits | (1 << register.number()),
        }
    }

    /// These and the others.
    pub(crate) fn or(self, other: Self) -> Self
        ensures all { (r : TheReg) → HasRegister result r
            ↔ (HasRegister self r ⊎ HasRegister other r) }
        ensures grown { self.bits ≤ result.bits }
    {
        RegisterMask {
            bits: self.bits | other.bits,
        }
    }

    /// Returns whether one of these is one of the others.
    pub(crate) fn meets(self, other: Self) -> bool
        ensures { IsTrue result ↔ ((r : TheReg) × HasRegister self r × HasRegister other r) }
    {
        // No register has one of the upper five bits.
        self.bits & other.bits & 0x7ff != 0
    }

    /// These without the others.
    pub(crate) fn without(self, other: Self) -> Self
        ensures { (r : TheReg) → HasRegister result r
            ↔ (HasRegister self r × (¬ HasRegister other r)) }
    {
        RegisterMask {
            bits: self.bits & (self.bits ^ other.bits),
        }
    }
}
