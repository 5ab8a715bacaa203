//! Sums, differences and products, first at 64 bits and then at a width.

ghost use Rattle.std.specs.Prelude.{◌≡◌, ℕ, ◌+◌, ◌-◌, ◌*◌, ◌%◌, ◌^◌, ◌<◌, ◌≤◌};
ghost use Rattle.isa_model.specs.Code.Sizes.{width_bits};
ghost use Rattle.isa_model.specs.Code.Numbers.{result_of};

use crate::wide::Wide;
use isa_model::{AluOp, Width};

impl Wide {
    ghost use Rattle.ranges.specs.Wides.{Has, IsBetween, IsSignedBetween, KeepsLimits};
    ghost use Rattle.ranges.specs.Wides.{KeepsSignedLimits};

    fn add_unsigned(self, other: Self) -> Self
        ensures contains { (x y : ℕ) → Has self x → Has other y → Has result ((x + y) % 2 ^ 64) }
        ensures limits { KeepsLimits AluOp.Add Width.Full64 self other (IsBetween result) }
    {
        let never_wraps = self.greatest <= u64::MAX - other.greatest;
        let always_wraps = self.least > u64::MAX - other.least;
        if never_wraps || always_wraps {
            Wide::between(
                self.least.wrapping_add(other.least),
                self.greatest.wrapping_add(other.greatest),
            )
        } else {
            Wide::any(Width::Full64)
        }
    }

    fn add_signed(self, other: Self) -> Self
        ensures contains { (x y : ℕ) → Has self x → Has other y → Has result ((x + y) % 2 ^ 64) }
        ensures limits { KeepsSignedLimits AluOp.Add self other (IsSignedBetween result) }
    {
        let Some(least) = self.signed_least.checked_add(other.signed_least) else {
            return Wide::any(Width::Full64);
        };
        let Some(greatest) = self.signed_greatest.checked_add(other.signed_greatest) else {
            return Wide::any(Width::Full64);
        };
        Wide::signed_between(least, greatest)
    }

    fn sub_unsigned(self, other: Self) -> Self
        ensures contains { (x y : ℕ) → Has self x → Has other y
            → Has result ((x + (2 ^ 64 - y)) % 2 ^ 64) }
        ensures limits { KeepsLimits AluOp.Sub Width.Full64 self other (IsBetween result) }
    {
        if self.least >= other.greatest || self.greatest < other.least {
            Wide::between(
                self.least.wrapping_sub(other.greatest),
                self.greatest.wrapping_sub(other.least),
            )
        } else {
            Wide::any(Width::Full64)
        }
    }

    fn sub_signed(self, other: Self) -> Self
        ensures contains { (x y : ℕ) → Has self x → Has other y
            → Has result ((x + (2 ^ 64 - y)) % 2 ^ 64) }
        ensures limits { KeepsSignedLimits AluOp.Sub self other (IsSignedBetween result) }
    {
        let Some(least) = self.signed_least.checked_sub(other.signed_greatest) else {
            return Wide::any(Width::Full64);
        };
        let Some(greatest) = self.signed_greatest.checked_sub(other.signed_least) else {
            return Wide::any(Width::Full64);
        };
        Wide::signed_between(least, greatest)
    }

    fn mul(self, other: Self) -> Self
        ensures contains { (x y : ℕ) → Has self x → Has other y → Has result ((x * y) % 2 ^ 64) }
        ensures limits { KeepsLimits AluOp.Mul Width.Full64 self other (IsBetween result) }
    {
        match self.greatest.checked_mul(other.greatest) {
            Some(greatest) => Wide::between(self.least * other.least, greatest),
            None => Wide::any(Width::Full64),
        }
    }

    pub(crate) fn add_at(self, width: Width, other: Self) -> Self
        ensures contains { (x y : ℕ) → Has self x → Has other y
            → Has result (result_of AluOp.Add width x y) }
        ensures fits { result.greatest < 2 ^ width_bits width }
        ensures limits { KeepsLimits AluOp.Add width self other (IsBetween result) }
        ensures signed { (x y : ℕ) → Has self x → Has other y → width ≡ Width.Full64
            → KeepsSignedLimits AluOp.Add self other (IsSignedBetween result) }
    {
        let unsigned = self.add_unsigned(other);
        let signed = self.add_signed(other);
        unsigned.with(signed).truncate(width)
    }

    pub(crate) fn sub_at(self, width: Width, other: Self) -> Self
        ensures contains { (x y : ℕ) → y ≤ 2 ^ width_bits width → Has self x → Has other y
            → Has result (result_of AluOp.Sub width x y) }
        ensures fits { result.greatest < 2 ^ width_bits width }
        ensures limits { self.greatest < 2 ^ width_bits width
            → KeepsLimits AluOp.Sub width self other (IsBetween result) }
        ensures signed { (x y : ℕ) → Has self x → Has other y → width ≡ Width.Full64
            → KeepsSignedLimits AluOp.Sub self other (IsSignedBetween result) }
    {
        let unsigned = self.sub_unsigned(other);
        let signed = self.sub_signed(other);
        unsigned.with(signed).truncate(width)
    }

    pub(crate) fn mul_at(self, width: Width, other: Self) -> Self
        ensures contains { (x y : ℕ) → Has self x → Has other y
            → Has result (result_of AluOp.Mul width x y) }
        ensures fits { result.greatest < 2 ^ width_bits width }
        ensures limits { KeepsLimits AluOp.Mul width self other (IsBetween result) }
    {
        self.mul(other).truncate(width)
    }
}
