//! Parts of numbers, and shifts by a known distance.

ghost use Rattle.std.specs.Prelude.{◌≡◌, ℕ, ◌+◌, ◌*◌, ◌/◌, ◌%◌, ◌^◌, ◌<◌, ◌≤◌};
ghost use Rattle.isa_model.specs.Code.Sizes.{width_bits};
ghost use Rattle.isa_model.specs.Code.Numbers.{result_of, shift};
ghost use Rattle.known_bits.specs.Bits.{spliced};

use crate::bits::{Bits, ones};
use isa_model::{AluOp, Width, numbers};

impl Bits {
    ghost use Rattle.isa_model.specs.Code.Numbers.{alu};
    ghost use Rattle.known_bits.specs.Bits.{Has, IsSharp};

    // The low `count` bits of the numbers.
    pub(crate) fn low(self, count: u32) -> Self
        requires { count ≤ 64 }
        ensures value { result.value ≡ self.value % 2 ^ count }
        ensures mask { result.mask ≡ self.mask % 2 ^ count }
        ensures contains { (x : ℕ) → Has self x → Has result (x % 2 ^ count) }
        ensures fits { (x : ℕ) → Has result x → x < 2 ^ count }
    {
        let ones = ones(count);
        Bits {
            value: self.value & ones,
            mask: self.mask & ones,
        }
    }

    /// The numbers that `count` bits of the members make, from bit `from` on.
    pub fn part(self, from: u64, count: u32) -> Self
        requires from { from < 64 }
        requires count { count ≤ 64 }
        ensures contains { (x : ℕ) → Has self x → Has result (x / 2 ^ from % 2 ^ count) }
        ensures value { result.value ≡ self.value / 2 ^ from % 2 ^ count }
        ensures mask { result.mask ≡ self.mask / 2 ^ from % 2 ^ count }
        ensures fits { (x : ℕ) → Has result x → x < 2 ^ count }
    {
        self.shift_right(from).low(count)
    }

    /// The members with `count` bits from bit `from` on replaced by the low bits of members of
    /// `other`.
    pub fn spliced(self, from: u64, count: u32, other: Self) -> Self
        requires from { from < 64 }
        requires inside { from + count ≤ 64 }
        ensures contains { (x y : ℕ) → Has self x → Has other y
            → Has result (spliced from count x y) }
        ensures value { result.value ≡ spliced from count self.value other.value }
        ensures mask { result.mask ≡ spliced from count self.mask other.mask }
    {
        Bits {
            value: spliced(from, count, self.value, other.value),
            mask: spliced(from, count, self.mask, other.mask),
        }
    }

    pub(crate) fn truncate(self, width: Width) -> Self
        ensures value { result.value ≡ self.value % 2 ^ width_bits width }
        ensures mask { result.mask ≡ self.mask % 2 ^ width_bits width }
        ensures contains { (x : ℕ) → Has self x → Has result (x % 2 ^ width_bits width) }
        ensures fits { (x : ℕ) → Has result x → x < 2 ^ width_bits width }
    {
        self.low(width.bits())
    }

    pub(crate) fn shift_left(self, by: u64) -> Self
        requires { by < 64 }
        ensures contains { (x : ℕ) → Has self x → Has result ((x * 2 ^ by) % 2 ^ 64) }
        ensures mask { result.mask ≡ (self.mask * 2 ^ by) % 2 ^ 64 }
    {
        Bits {
            value: self.value << by,
            mask: self.mask << by,
        }
    }

    fn shift_right(self, by: u64) -> Self
        requires { by < 64 }
        ensures contains { (x : ℕ) → Has self x → Has result (x / 2 ^ by) }
        ensures value { result.value ≡ self.value / 2 ^ by }
        ensures mask { result.mask ≡ self.mask / 2 ^ by }
    {
        Bits {
            value: self.value >> by,
            mask: self.mask >> by,
        }
    }

    pub(crate) fn shift_left_at(self, width: Width, other: Self) -> Self
        ensures contains { (x y : ℕ) → Has self x → Has other y
            → Has result (result_of AluOp.Lsh width x y) }
        ensures sharp { other.mask ≡ 0
            → IsSharp self other (result_of AluOp.Lsh width) result.mask }
        ensures fits { (x : ℕ) → Has result x → x < 2 ^ width_bits width }
    {
        if other.mask != 0 {
            return Bits::any(width);
        }
        self.shift_left(distance(width, other.value))
            .truncate(width)
    }

    pub(crate) fn shift_right_at(self, width: Width, other: Self) -> Self
        ensures contains { (x y : ℕ) → x < 2 ^ width_bits width → Has self x → Has other y
            → Has result (result_of AluOp.Rsh width x y) }
        ensures sharp { other.mask ≡ 0 → ((x : ℕ) → Has self x → x < 2 ^ width_bits width)
            → IsSharp self other (result_of AluOp.Rsh width) result.mask }
        ensures fits { (x : ℕ) → Has result x → x < 2 ^ width_bits width }
    {
        if other.mask != 0 {
            return Bits::any(width);
        }
        self.shift_right(distance(width, other.value))
            .truncate(width)
    }

    // The shift that keeps the sign moves the bits of the value and the mask alike.
    pub(crate) fn shift_signed_at(self, width: Width, other: Self) -> Self
        ensures contains { (x y : ℕ) → Has self x → Has other y
            → Has result (alu AluOp.Arsh width x y) }
        ensures sharp { other.mask ≡ 0 → IsSharp self other (alu AluOp.Arsh width) result.mask }
        ensures fits { (x : ℕ) → Has result x → x < 2 ^ width_bits width }
    {
        if other.mask != 0 {
            return Bits::any(width);
        }
        Bits {
            value: numbers::compute(AluOp::Arsh, width, self.value, other.value),
            mask: numbers::compute(AluOp::Arsh, width, self.mask, other.value),
        }
    }
}

/// The number with `count` bits from bit `from` on replaced by the low bits of another.
pub fn spliced(from: u64, count: u32, number: u64, other: u64) -> u64
    requires from { from < 64 }
    requires inside { from + count ≤ 64 }
    ensures { result ≡ spliced from count number other }
{
    let written = ones(count) << from;
    (number & !written) | ((other << from) & written)
}

// By how many bits a shift by a number moves.
fn distance(width: Width, number: u64) -> u64
    ensures is_shift { result ≡ shift width number }
    ensures below { result < width_bits width }
{
    number % u64::from(width.bits())
}
