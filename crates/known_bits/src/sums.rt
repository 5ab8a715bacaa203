//! Sums and differences, first at 64 bits and then at a width.

ghost use Rattle.std.specs.Prelude.{◌≡◌, ℕ, ◌+◌, ◌-◌, ◌*◌, ◌%◌, ◌^◌, ◌<◌, ◌≤◌};
ghost use Rattle.std.specs.Int.{bit_at};
ghost use Rattle.isa_model.specs.Code.Sizes.{width_bits};
ghost use Rattle.isa_model.specs.Code.Numbers.{result_of};

use crate::bits::Bits;
use isa_model::{AluOp, Width};

impl Bits {
    ghost use Rattle.known_bits.specs.Bits.{Has, IsSharp};

    // A bit is unknown where it is in an operand, or where the carries of the least and the
    // greatest sum differ. Linux: `tnum_add`.
    pub(crate) fn add(self, other: Self) -> Self
        ensures contains { (x y : ℕ) → Has self x → Has other y → Has result ((x + y) % 2 ^ 64) }
        ensures sharp { IsSharp self other (λ x y. (x + y) % 2 ^ 64) result.mask }
    {
        let least = self.value.wrapping_add(other.value);
        let greatest = (self.value | self.mask).wrapping_add(other.value | other.mask);
        let mask = (greatest ^ least) | self.mask | other.mask;
        Bits {
            value: least & !mask,
            mask,
        }
    }

    // The complement of a difference is the complement of the first number plus the second.
    pub(crate) fn sub(self, other: Self) -> Self
        ensures contains { (x y : ℕ) → Has self x → Has other y
            → Has result ((x + (2 ^ 64 - y)) % 2 ^ 64) }
        ensures sharp { IsSharp self other (λ x y. (x + (2 ^ 64 - y)) % 2 ^ 64) result.mask }
    {
        let flipped = self.not();
        let sum = flipped.add(other);
        sum.not()
    }

    pub(crate) fn add_at(self, width: Width, other: Self) -> Self
        ensures contains { (x y : ℕ) → Has self x → Has other y
            → Has result (result_of AluOp.Add width x y) }
        ensures sharp { IsSharp self other (result_of AluOp.Add width) result.mask }
        ensures fits { (x : ℕ) → Has result x → x < 2 ^ width_bits width }
    {
        self.add(other).truncate(width)
    }

    pub(crate) fn sub_at(self, width: Width, other: Self) -> Self
        ensures contains { (x y : ℕ) → y ≤ 2 ^ width_bits width → Has self x → Has other y
            → Has result (result_of AluOp.Sub width x y) }
        ensures sharp { ((y : ℕ) → Has other y → y ≤ 2 ^ width_bits width)
            → IsSharp self other (result_of AluOp.Sub width) result.mask }
        ensures fits { (x : ℕ) → Has result x → x < 2 ^ width_bits width }
    {
        self.sub(other).truncate(width)
    }
}
