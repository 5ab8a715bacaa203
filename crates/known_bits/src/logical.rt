//! The logical operations, which work on each bit by itself.

ghost use Rattle.std.specs.Prelude.{◌≡◌, ℕ, ◌-◌, ◌^◌, bit_and, bit_or, bit_xor};

use crate::bits::Bits;

impl Bits {
    ghost use Rattle.known_bits.specs.Bits.{Has, IsSharp};

    pub(crate) fn and(self, other: Self) -> Self
        ensures contains { (x y : ℕ) → Has self x → Has other y → Has result (bit_and x y) }
        ensures sharp { IsSharp self other bit_and result.mask }
    {
        let value = self.value & other.value;
        let mask = (self.value | self.mask) & (other.value | other.mask) & !value;
        Bits { value, mask }
    }

    pub(crate) fn or(self, other: Self) -> Self
        ensures contains { (x y : ℕ) → Has self x → Has other y → Has result (bit_or x y) }
        ensures sharp { IsSharp self other bit_or result.mask }
    {
        let value = self.value | other.value;
        let mask = (self.mask | other.mask) & !value;
        Bits { value, mask }
    }

    pub(crate) fn xor(self, other: Self) -> Self
        ensures contains { (x y : ℕ) → Has self x → Has other y → Has result (bit_xor x y) }
        ensures sharp { IsSharp self other bit_xor result.mask }
    {
        let value = self.value ^ other.value;
        let mask = self.mask | other.mask;
        Bits {
            value: value & !mask,
            mask,
        }
    }

    pub(crate) fn not(self) -> Self
        ensures contains { (x : ℕ) → Has self x → Has result (2 ^ 64 - 1 - x) }
        ensures back { (x : ℕ) → Has result x → Has self (2 ^ 64 - 1 - x) }
        ensures mask { result.mask ≡ self.mask }
    {
        Bits {
            value: !(self.value | self.mask),
            mask: self.mask,
        }
    }
}
