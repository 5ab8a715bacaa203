//! Products, first at 64 bits and then at a width.

ghost use Rattle.std.specs.Prelude.{◌≡◌, ℕ, ◌+◌, ◌*◌, ◌%◌, ◌^◌, ◌<◌, ◌≤◌};
ghost use Rattle.std.specs.Int.{bit_at};
ghost use Rattle.isa_model.specs.Code.Sizes.{width_bits};
ghost use Rattle.isa_model.specs.Code.Numbers.{result_of};

use crate::bits::{Bits, ones};
use isa_model::{AluOp, Width};

impl Bits {
    ghost use Rattle.known_bits.specs.Bits.{Has, greatest_of, KnowsProduct};

    fn or_zero(self) -> Self
        ensures zero { Has result 0 }
        ensures contains { (x : ℕ) → Has self x → Has result x }
    {
        Bits {
            value: 0,
            mask: self.value | self.mask,
        }
    }

    // What bit `i` of the first factor adds to the product.
    fn term(self, other: Self, i: u64) -> Self
        requires { i < 64 }
        ensures { (x y : ℕ) → Has self x → Has other y
            → Has result ((bit_at x i * y * 2 ^ i) % 2 ^ 64) }
    {
        let moved = other.shift_left(i);
        if (self.value >> i) & 1 == 1 {
            moved
        } else if (self.mask >> i) & 1 == 1 {
            moved.or_zero()
        } else {
            Bits::constant(0)
        }
    }

    fn sum_of_terms(self, other: Self) -> Self
        ensures { (x y : ℕ) → Has self x → Has other y → Has result ((x * y) % 2 ^ 64) }
    {
        let mut sum = Bits::constant(0);
        for i in 0..64 {
            sum = sum.add(self.term(other, i));
        }
        sum
    }

    // The numbers with no more bits than the product of the greatest members, if that fits 64 bits.
    fn product_limit(self, other: Self) -> Self
        ensures contains { (x y : ℕ) → Has self x → Has other y → Has result ((x * y) % 2 ^ 64) }
        ensures limit { (l z : ℕ) → greatest_of self * greatest_of other < 2 ^ l → Has result z
            → z < 2 ^ l }
    {
        match self.greatest().checked_mul(other.greatest()) {
            Some(greatest) => Bits::between(0, greatest),
            None => Bits::any(Width::Full64),
        }
    }

    // The numbers with the trailing zeros of both factors.
    fn product_zeros(self, other: Self) -> Self
        ensures contains { (x y : ℕ) → Has self x → Has other y → Has result ((x * y) % 2 ^ 64) }
        ensures zeros { (j k z : ℕ) → j + k ≤ 64 → greatest_of self % 2 ^ j ≡ 0
            → greatest_of other % 2 ^ k ≡ 0 → Has result z → z % 2 ^ (j + k) ≡ 0 }
    {
        let zeros = self.greatest().trailing_zeros() + other.greatest().trailing_zeros();
        Bits::outside(ones(zeros.min(64)))
    }

    fn mul(self, other: Self) -> Self
        ensures contains { (x y : ℕ) → Has self x → Has other y → Has result ((x * y) % 2 ^ 64) }
        ensures product { KnowsProduct (greatest_of self) (greatest_of other) (Has result) }
    {
        let limited = self.sum_of_terms(other).with(self.product_limit(other));
        limited.with(self.product_zeros(other))
    }

    // The common members; if there are none, any set will do.
    fn with(self, other: Self) -> Self
        ensures common { (x : ℕ) → Has self x → Has other x → Has result x }
        ensures within { (x y : ℕ) → Has self x → Has other x → Has result y
            → Has self y × Has other y }
    {
        match self.meet(other) {
            Some(both) => both,
            None => self,
        }
    }

    pub(crate) fn mul_at(self, width: Width, other: Self) -> Self
        ensures contains { (x y : ℕ) → Has self x → Has other y
            → Has result (result_of AluOp.Mul width x y) }
        ensures product { KnowsProduct (greatest_of self) (greatest_of other) (Has result) }
        ensures fits { (x : ℕ) → Has result x → x < 2 ^ width_bits width }
    {
        self.mul(other).truncate(width)
    }
}
