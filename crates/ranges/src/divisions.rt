//! Divisions, that is quotients and remainders, and the bits that numbers have in common.

ghost use Rattle.std.specs.Prelude.{◌≡◌, ℕ, pos, ◌-ℤ◌, ◌<ℤ◌, ◌≤ℤ◌, FitsSigned, ◌^◌, ◌<◌, ◌↔◌, IsTrue, bit_and, unsigned_abs, int_div, int_rem};
ghost use Rattle.std.specs.Int.{w64, cast_signed, cast_unsigned, int_min, int_max};
ghost use Rattle.isa_model.specs.Code.Numbers.{quotient, remainder, result_of};
ghost use Rattle.isa_model.specs.Code.Sizes.{width_bits};
ghost use Rattle.ranges.specs.Keeps.{HaveNoSign, KeepsSignedQuotient, KeepsSignedRemainder};

use crate::wide::Wide;
use isa_model::{AluOp, Width};

impl Wide {
    ghost use Rattle.ranges.specs.Wides.{Has, IsBetween, IsSignedBetween, KeepsLimits};
    ghost use Rattle.ranges.specs.Wides.{KeepsSignedLimits};

    pub(crate) fn divide(self, other: Self) -> Self
        ensures contains { (x y : ℕ) → Has self x → Has other y → Has result (quotient x y) }
        ensures limits { KeepsLimits AluOp.Div Width.Full64 self other (IsBetween result) }
    {
        if other.least == 0 {
            Wide::between(0, self.greatest)
        } else {
            Wide::between(self.least / other.greatest, self.greatest / other.least)
        }
    }

    pub(crate) fn remainder(self, other: Self) -> Self
        ensures contains { (x y : ℕ) → Has self x → Has other y → Has result (remainder x y) }
        ensures limits { KeepsLimits AluOp.Mod Width.Full64 self other (IsBetween result) }
    {
        if other.least == 0 {
            Wide::between(0, self.greatest)
        } else {
            Wide::between(0, self.greatest.min(other.greatest - 1))
        }
    }

    pub(crate) fn and(self, other: Self) -> Self
        ensures contains { (x y : ℕ) → Has self x → Has other y → Has result (bit_and x y) }
        ensures limits { KeepsLimits AluOp.And Width.Full64 self other (IsBetween result) }
    {
        Wide::between(0, self.greatest.min(other.greatest))
    }

    pub(crate) fn signed_divide_at(self, width: Width, other: Self) -> Self
        ensures contains { (x y : ℕ) → x < 2 ^ width_bits width → y < 2 ^ width_bits width
            → Has self x → Has other y → Has result (result_of AluOp.SignedDiv width x y) }
        ensures fits { result.greatest < 2 ^ width_bits width }
        ensures limits { KeepsLimits AluOp.SignedDiv width self other (IsBetween result) }
        ensures signed { (x y : ℕ) → Has self x → Has other y → width ≡ Width.Full64
            → KeepsSignedLimits AluOp.SignedDiv self other (IsSignedBetween result) }
    {
        let plain = self.plain_quotient(width, other);
        match width {
            Width::Low32 => plain,
            Width::Full64 => plain.with(self.full_quotient(other)),
        }
    }

    // Where no number has the sign bit set, the signed quotients are the unsigned ones.
    fn plain_quotient(self, width: Width, other: Self) -> Self
        ensures contains { (x y : ℕ) → x < 2 ^ width_bits width → y < 2 ^ width_bits width
            → Has self x → Has other y → Has result (result_of AluOp.SignedDiv width x y) }
        ensures fits { result.greatest < 2 ^ width_bits width }
        ensures limits { KeepsLimits AluOp.SignedDiv width self other (IsBetween result) }
    {
        if have_no_sign(width, self, other) {
            self.divide(other)
        } else {
            Wide::any(width)
        }
    }

    // The signed quotients at 64 bits, by a divisor that is known.
    fn full_quotient(self, other: Self) -> Self
        ensures contains { (x y : ℕ) → Has self x → Has other y
            → Has result (result_of AluOp.SignedDiv Width.Full64 x y) }
        ensures signed { (x y : ℕ) → Has self x → Has other y
            → KeepsSignedLimits AluOp.SignedDiv self other (IsSignedBetween result) }
    {
        if other.least == other.greatest {
            self.signed_quotient(other.least.cast_signed())
        } else {
            Wide::any(Width::Full64)
        }
    }

    pub(crate) fn signed_remainder_at(self, width: Width, other: Self) -> Self
        ensures contains { (x y : ℕ) → x < 2 ^ width_bits width → y < 2 ^ width_bits width
            → Has self x → Has other y → Has result (result_of AluOp.SignedMod width x y) }
        ensures fits { result.greatest < 2 ^ width_bits width }
        ensures limits { KeepsLimits AluOp.SignedMod width self other (IsBetween result) }
        ensures signed { (x y : ℕ) → Has self x → Has other y → width ≡ Width.Full64
            → KeepsSignedLimits AluOp.SignedMod self other (IsSignedBetween result) }
    {
        let plain = self.plain_remainder(width, other);
        match width {
            Width::Low32 => plain,
            Width::Full64 => plain.with(self.full_remainder(other)),
        }
    }

    // Where no number has the sign bit set, the signed remainders are the unsigned ones.
    fn plain_remainder(self, width: Width, other: Self) -> Self
        ensures contains { (x y : ℕ) → x < 2 ^ width_bits width → y < 2 ^ width_bits width
            → Has self x → Has other y → Has result (result_of AluOp.SignedMod width x y) }
        ensures fits { result.greatest < 2 ^ width_bits width }
        ensures limits { KeepsLimits AluOp.SignedMod width self other (IsBetween result) }
    {
        if have_no_sign(width, self, other) {
            self.remainder(other)
        } else {
            Wide::any(width)
        }
    }

    // The signed remainders at 64 bits, by a divisor that is known.
    fn full_remainder(self, other: Self) -> Self
        ensures contains { (x y : ℕ) → Has self x → Has other y
            → Has result (result_of AluOp.SignedMod Width.Full64 x y) }
        ensures signed { (x y : ℕ) → Has self x → Has other y
            → KeepsSignedLimits AluOp.SignedMod self other (IsSignedBetween result) }
    {
        if other.least == other.greatest {
            self.signed_remainder(other.least.cast_signed())
        } else {
            Wide::any(Width::Full64)
        }
    }

    // The signed quotients by one number, at 64 bits.
    pub(crate) fn signed_quotient(self, by: i64) -> Self
        ensures contains { (x : ℕ) → Has self x
            → Has result (cast_unsigned w64 (int_div (cast_signed w64 x) by)) }
        ensures limits { KeepsSignedQuotient w64 self.signed_least self.signed_greatest by
            (IsSignedBetween result) }
    {
        if by == 0 {
            Wide::between(0, 0)
        } else if by > 0 {
            self.quotient_by_positive(by)
        } else {
            self.quotient_by_negative(by)
        }
    }

    fn quotient_by_positive(self, by: i64) -> Self
        requires { pos 0 <ℤ by }
        ensures contains { (x : ℕ) → Has self x
            → Has result (cast_unsigned w64 (int_div (cast_signed w64 x) by)) }
        ensures limits { IsSignedBetween result
            (int_div self.signed_least by) (int_div self.signed_greatest by) }
    {
        Wide::signed_between(self.signed_least / by, self.signed_greatest / by)
    }

    // Only the quotient of the least number by -1 is not a signed number.
    fn quotient_by_negative(self, by: i64) -> Self
        requires { by <ℤ pos 0 }
        ensures contains { (x : ℕ) → Has self x
            → Has result (cast_unsigned w64 (int_div (cast_signed w64 x) by)) }
        ensures limits { FitsSigned w64 (int_div self.signed_least by)
            → IsSignedBetween result
            (int_div self.signed_greatest by) (int_div self.signed_least by) }
    {
        match self.signed_least.checked_div(by) {
            Some(greatest) => Wide::signed_between(self.signed_greatest / by, greatest),
            None => Wide::any(Width::Full64),
        }
    }

    // The signed remainders, nearer to 0 than the divisor, and with the dividend's sign.
    pub(crate) fn signed_remainder(self, by: i64) -> Self
        ensures contains { (x : ℕ) → Has self x
            → Has result (cast_unsigned w64 (int_rem (cast_signed w64 x) by)) }
        ensures limits { KeepsSignedRemainder self.signed_least self.signed_greatest
            (unsigned_abs by) (IsSignedBetween result) }
    {
        if by == 0 {
            self
        } else {
            self.remainder_below((by.unsigned_abs() - 1).cast_signed())
        }
    }

    // The numbers no further from 0 than `most`, and between the numbers of this and 0.
    fn remainder_below(self, most: i64) -> Self
        requires { pos 0 ≤ℤ most }
        ensures members { (x : ℕ) → x < 2 ^ 64 → (pos 0 -ℤ most) ≤ℤ cast_signed w64 x
            → cast_signed w64 x ≤ℤ most
            → int_min self.signed_least (pos 0) ≤ℤ cast_signed w64 x
            → cast_signed w64 x ≤ℤ int_max self.signed_greatest (pos 0) → Has result x }
        ensures near { IsSignedBetween result (pos 0 -ℤ most) most }
        ensures within { IsSignedBetween result
            (int_min self.signed_least (pos 0)) (int_max self.signed_greatest (pos 0)) }
    {
        let least = self.signed_least.min(0).max(-most);
        let greatest = self.signed_greatest.max(0).min(most);
        Wide::signed_between(least, greatest)
    }
}

// Whether no number of either has the sign bit of the width set.
fn have_no_sign(width: Width, a: Wide, b: Wide) -> bool
    ensures { IsTrue result ↔ HaveNoSign width a.greatest b.greatest }
{
    let sign = match width {
        Width::Low32 => 0x8000_0000,
        Width::Full64 => 0x8000_0000_0000_0000,
    };
    a.greatest < sign && b.greatest < sign
}
