//! Low parts of numbers, and shifts by a known distance.

ghost use Rattle.std.specs.Prelude.{◌≡◌, ℕ, ◌*◌, ◌/◌, ◌%◌, ◌^◌, ◌<◌, ◌≤◌};
ghost use Rattle.std.specs.Int.{w64, cast_signed, cast_unsigned, int_shr};
ghost use Rattle.isa_model.specs.Code.Sizes.{width_bits, span_bits};
ghost use Rattle.isa_model.specs.Code.Numbers.{result_of, shift};

use crate::wide::Wide;
use isa_model::{AluOp, SwapWidth, Width};

impl Wide {
    ghost use Rattle.ranges.specs.Wides.{Has, IsBetween, IsSignedBetween, KeepsLimits};
    ghost use Rattle.ranges.specs.Wides.{KeepsSignedLimits};

    pub(crate) fn truncate(self, width: Width) -> Self
        ensures contains { (x : ℕ) → Has self x → Has result (x % 2 ^ width_bits width) }
        ensures fits { result.greatest < 2 ^ width_bits width }
        ensures same { self.greatest < 2 ^ width_bits width → result ≡ self }
    {
        match width {
            Width::Low32 => self.low_32_bits(),
            Width::Full64 => self,
        }
    }

    // Numbers with the same upper half differ as their low halves do.
    fn low_32_bits(self) -> Self
        ensures contains { (x : ℕ) → Has self x → Has result (x % 2 ^ 32) }
        ensures fits { result.greatest < 2 ^ 32 }
        ensures same { self.greatest < 2 ^ 32 → result ≡ self }
    {
        if self.greatest <= 0xffff_ffff {
            self
        } else if self.least >> 32 == self.greatest >> 32 {
            Wide::between(self.least & 0xffff_ffff, self.greatest & 0xffff_ffff)
        } else {
            Wide::any(Width::Low32)
        }
    }

    fn low_16_bits(self) -> Self
        ensures contains { (x : ℕ) → Has self x → Has result (x % 2 ^ 16) }
        ensures fits { result.greatest < 2 ^ 16 }
        ensures same { self.greatest < 2 ^ 16 → result ≡ self }
    {
        if self.greatest <= 0xffff {
            self
        } else {
            Wide::between(0, 0xffff)
        }
    }

    // The low bytes.
    pub(crate) fn low_bytes(self, span: SwapWidth) -> Self
        ensures contains { (x : ℕ) → Has self x → Has result (x % 2 ^ span_bits span) }
        ensures fits { result.greatest < 2 ^ span_bits span }
        ensures same { self.greatest < 2 ^ span_bits span → result ≡ self }
    {
        match span {
            SwapWidth::B16 => self.low_16_bits(),
            SwapWidth::B32 => self.low_32_bits(),
            SwapWidth::B64 => self,
        }
    }

    pub(crate) fn shift_left(self, by: u64) -> Self
        requires { by < 64 }
        ensures contains { (x : ℕ) → Has self x → Has result ((x * 2 ^ by) % 2 ^ 64) }
        ensures limits { self.greatest * 2 ^ by < 2 ^ 64
            → (result.least ≡ self.least * 2 ^ by) × (result.greatest ≡ self.greatest * 2 ^ by) }
    {
        if self.greatest <= u64::MAX >> by {
            Wide::between(self.least << by, self.greatest << by)
        } else {
            Wide::any(Width::Full64)
        }
    }

    fn shift_right(self, by: u64) -> Self
        requires { by < 64 }
        ensures contains { (x : ℕ) → Has self x → Has result (x / 2 ^ by) }
        ensures limits { (result.least ≡ self.least / 2 ^ by)
            × (result.greatest ≡ self.greatest / 2 ^ by) }
    {
        Wide::between(self.least >> by, self.greatest >> by)
    }

    // The shift that keeps the sign, at 64 bits.
    pub(crate) fn shift_signed(self, by: u64) -> Self
        requires { by < 64 }
        ensures contains { (x : ℕ) → Has self x
            → Has result (cast_unsigned w64 (int_shr (cast_signed w64 x) by)) }
        ensures limits { (result.signed_least ≡ int_shr self.signed_least by)
            × (result.signed_greatest ≡ int_shr self.signed_greatest by) }
    {
        Wide::signed_between(self.signed_least >> by, self.signed_greatest >> by)
    }

    // At 32 bits numbers without the sign bit are shifted as unsigned ones.
    fn shift_signed_low(self, by: u64) -> Self
        requires { by < 32 }
        ensures contains { (x : ℕ) → x < 2 ^ 32 → Has self x
            → Has result (result_of AluOp.Arsh Width.Low32 x by) }
        ensures fits { result.greatest < 2 ^ 32 }
    {
        if self.greatest < 0x8000_0000 {
            self.shift_right(by)
        } else {
            Wide::any(Width::Low32)
        }
    }

    pub(crate) fn shift_left_at(self, width: Width, other: Self) -> Self
        ensures contains { (x y : ℕ) → Has self x → Has other y
            → Has result (result_of AluOp.Lsh width x y) }
        ensures fits { result.greatest < 2 ^ width_bits width }
        ensures limits { KeepsLimits AluOp.Lsh width self other (IsBetween result) }
    {
        if other.least != other.greatest {
            return Wide::any(width);
        }
        self.shift_left(distance(width, other.least))
            .truncate(width)
    }

    // A shift to the right, however far, makes no number greater.
    pub(crate) fn shift_right_at(self, width: Width, other: Self) -> Self
        ensures contains { (x y : ℕ) → Has self x → Has other y
            → Has result (result_of AluOp.Rsh width x y) }
        ensures limits { KeepsLimits AluOp.Rsh width self other (IsBetween result) }
    {
        if other.least != other.greatest {
            return Wide::between(0, self.greatest);
        }
        self.shift_right(distance(width, other.least))
    }

    pub(crate) fn shift_signed_at(self, width: Width, other: Self) -> Self
        ensures contains { (x y : ℕ) → x < 2 ^ width_bits width → Has self x → Has other y
            → Has result (result_of AluOp.Arsh width x y) }
        ensures fits { result.greatest < 2 ^ width_bits width }
        ensures signed { width ≡ Width.Full64
            → KeepsSignedLimits AluOp.Arsh self other (IsSignedBetween result) }
    {
        if other.least != other.greatest {
            return Wide::any(width);
        }
        let by = distance(width, other.least);
        match width {
            Width::Low32 => self.shift_signed_low(by),
            Width::Full64 => self.shift_signed(by),
        }
    }
}

// By how many bits a shift by a number moves.
pub(crate) fn distance(width: Width, number: u64) -> u64
    ensures value { result ≡ shift width number }
    ensures below { result < width_bits width }
{
    number % u64::from(width.bits())
}
