//! The results of arithmetic instructions on low halves, by way of numbers of 64 bits: the halves
//! extended with zeros and with their sign.

ghost use Rattle.std.specs.Prelude.{◌≡◌, ℕ, ℤ, pos, ◌*◌, ◌*ℤ◌, ◌%◌, ◌^◌, ◌<◌, ◌≤◌, ◌≤ℤ◌, ◌↔◌, FitsSigned};
ghost use Rattle.std.specs.Int.{w32, w64, cast_signed, cast_unsigned};
ghost use Rattle.isa_model.specs.Code.Numbers.{alu, sign_extended};
ghost use Rattle.isa_model.specs.Code.Sizes.{span_bits};
ghost use Rattle.ranges.specs.Keeps.{extension_signed};
ghost use Rattle.ranges.specs.Lows as L;
ghost use Rattle.ranges.specs.Wides as W;

use crate::low::Low;
use crate::shifts::distance;
use crate::wide::Wide;
use isa_model::{AluOp, Extension, SwapWidth, Width};

impl Low {
    ghost use Rattle.ranges.specs.Lows.{Has, IsBetween, IsSignedBetween, IsSignedOf};
    ghost use Rattle.ranges.specs.Lows.{KeepsLimits, KeepsSignedLimits};

    // The low halves as numbers.
    pub(crate) fn zero_extended(self) -> Wide
        ensures contains { (e : ℕ) → Has self e → W.Has result e }
        ensures limits { (result.least ≡ self.least) × (result.greatest ≡ self.greatest) }
    {
        Wide::between(u64::from(self.least), u64::from(self.greatest))
    }

    // The low halves, sign-extended.
    pub(crate) fn sign_extended(self) -> Wide
        ensures contains { (e : ℕ) → Has self e
            → W.Has result (cast_unsigned w64 (cast_signed w32 e)) }
        ensures limits { (result.signed_least ≡ self.signed_least)
            × (result.signed_greatest ≡ self.signed_greatest) }
    {
        Wide::signed_between(
            i64::from(self.signed_least),
            i64::from(self.signed_greatest),
        )
    }

    // The results of the operation at 32 bits on two low halves.
    pub(crate) fn alu(op: AluOp, a: Self, b: Self) -> Self
        ensures contains { (e f : ℕ) → Has a e → Has b f → Has result (alu op Width.Low32 e f) }
        ensures limits { (e f : ℕ) → Has a e → Has b f → KeepsLimits op a b (IsBetween result) }
        ensures signed { (e f : ℕ) → Has a e → Has b f
            → KeepsSignedLimits op a b (IsSignedBetween result) }
    {
        match op {
            AluOp::Mov => b,
            AluOp::Add => Low::unsigned_alu(op, a, b).with(a.signed_sum(b)),
            AluOp::Sub => Low::unsigned_alu(op, a, b).with(a.signed_difference(b)),
            AluOp::Arsh => Low::unsigned_alu(op, a, b).with(a.shift_signed(b)),
            AluOp::SignedDiv => Low::unsigned_alu(op, a, b).with(a.signed_quotient(b)),
            AluOp::SignedMod => Low::unsigned_alu(op, a, b).with(a.signed_remainder(b)),
            _ => Low::unsigned_alu(op, a, b),
        }
    }

    // The halves read without a sign.
    fn unsigned_alu(op: AluOp, a: Self, b: Self) -> Self
        ensures contains { (e f : ℕ) → Has a e → Has b f → Has result (alu op Width.Low32 e f) }
        ensures limits { (e f : ℕ) → Has a e → Has b f → KeepsLimits op a b (IsBetween result) }
    {
        Wide::alu(op, Width::Low32, a.zero_extended(), b.zero_extended()).low_limits()
    }

    // The halves read with a sign.
    fn signed_sum(self, other: Self) -> Self
        ensures contains { (e f : ℕ) → Has self e → Has other f
            → Has result (alu AluOp.Add Width.Low32 e f) }
        ensures signed { (e f : ℕ) → Has self e → Has other f
            → KeepsSignedLimits AluOp.Add self other (IsSignedBetween result) }
    {
        let x = self.sign_extended();
        let y = other.sign_extended();
        Wide::alu(AluOp::Add, Width::Full64, x, y).low_limits()
    }

    fn signed_difference(self, other: Self) -> Self
        ensures contains { (e f : ℕ) → Has self e → Has other f
            → Has result (alu AluOp.Sub Width.Low32 e f) }
        ensures signed { (e f : ℕ) → Has self e → Has other f
            → KeepsSignedLimits AluOp.Sub self other (IsSignedBetween result) }
    {
        let x = self.sign_extended();
        let y = other.sign_extended();
        Wide::alu(AluOp::Sub, Width::Full64, x, y).low_limits()
    }

    // The shift that keeps the sign, at 32 bits.
    fn shift_signed(self, other: Self) -> Self
        ensures contains { (e f : ℕ) → Has self e → Has other f
            → Has result (alu AluOp.Arsh Width.Low32 e f) }
        ensures signed { (e f : ℕ) → Has self e → Has other f
            → KeepsSignedLimits AluOp.Arsh self other (IsSignedBetween result) }
    {
        if other.least != other.greatest {
            return Low::any();
        }
        let by = distance(Width::Low32, u64::from(other.least));
        self.sign_extended().shift_signed(by).low_limits()
    }

    // Quotients and remainders of halves read with a sign, where the divisor is known.
    fn signed_quotient(self, other: Self) -> Self
        ensures contains { (e f : ℕ) → Has self e → Has other f
            → Has result (alu AluOp.SignedDiv Width.Low32 e f) }
        ensures signed { (e f : ℕ) → Has self e → Has other f
            → KeepsSignedLimits AluOp.SignedDiv self other (IsSignedBetween result) }
    {
        if other.least != other.greatest {
            return Low::any();
        }
        let divisor = i64::from(other.least.cast_signed());
        self.sign_extended().signed_quotient(divisor).low_limits()
    }

    fn signed_remainder(self, other: Self) -> Self
        ensures contains { (e f : ℕ) → Has self e → Has other f
            → Has result (alu AluOp.SignedMod Width.Low32 e f) }
        ensures signed { (e f : ℕ) → Has self e → Has other f
            → KeepsSignedLimits AluOp.SignedMod self other (IsSignedBetween result) }
    {
        if other.least != other.greatest {
            return Low::any();
        }
        let divisor = i64::from(other.least.cast_signed());
        self.sign_extended().signed_remainder(divisor).low_limits()
    }

    // The low halves shifted to the left by 32 bits or more: only they matter to such a shift.
    pub(crate) fn raised(self, by: u64) -> Wide
        requires from { 32 ≤ by }
        requires to { by < 64 }
        ensures contains { (e : ℕ) → Has self e → W.Has result ((e * 2 ^ by) % 2 ^ 64) }
        ensures limits { self.greatest * 2 ^ by < 2 ^ 64
            → W.IsBetween result (self.least * 2 ^ by) (self.greatest * 2 ^ by) }
        ensures signed { (e : ℕ) → Has self e → by ≡ 32
            → W.IsSignedBetween result (self.signed_least *ℤ pos (2 ^ 32))
            (self.signed_greatest *ℤ pos (2 ^ 32)) }
    {
        let plain = self.zero_extended().shift_left(by);
        if by == 32 {
            plain.with(self.raised_signed())
        } else {
            plain
        }
    }

    fn raised_signed(self) -> Wide
        ensures contains { (e : ℕ) → Has self e → W.Has result ((e * 2 ^ 32) % 2 ^ 64) }
        ensures limits { (result.signed_least ≡ self.signed_least *ℤ pos (2 ^ 32))
            × (result.signed_greatest ≡ self.signed_greatest *ℤ pos (2 ^ 32)) }
    {
        Wide::signed_between(
            i64::from(self.signed_least) * 0x1_0000_0000,
            i64::from(self.signed_greatest) * 0x1_0000_0000,
        )
    }

    // The low bytes.
    pub(crate) fn low_part(self, span: SwapWidth) -> Self
        ensures contains { (x : ℕ) → Has self (x % 2 ^ 32)
            → Has result ((x % 2 ^ span_bits span) % 2 ^ 32) }
        ensures same { self.greatest < 2 ^ span_bits span → result ≡ self }
    {
        match span {
            SwapWidth::B16 if self.greatest > 0xffff => Low::between(0, 0xffff),
            _ => self,
        }
    }

    // The low halves of the sign extensions.
    pub(crate) fn extended(self, extension: Extension) -> Self
        ensures contains { (x : ℕ) → Has self (x % 2 ^ 32)
            → Has result (sign_extended extension x % 2 ^ 32) }
        ensures kept { IsSignedOf (extension_signed extension) self → result ≡ self }
        ensures signed { (e : ℕ) → Has self e → IsSignedOf (extension_signed extension) result }
    {
        let all = all_halves(extension);
        if all.signed_least <= self.signed_least && self.signed_greatest <= all.signed_greatest {
            self
        } else {
            all
        }
    }
}

// All low halves that the extension may result in.
fn all_halves(extension: Extension) -> Low
    ensures contains { (x : ℕ) → L.Has result (sign_extended extension x % 2 ^ 32) }
    ensures signed { (z : ℤ) → ((result.signed_least ≤ℤ z) × (z ≤ℤ result.signed_greatest)
        ↔ FitsSigned (extension_signed extension) z) }
{
    match extension {
        Extension::Low8 => Low::signed_between(-0x80, 0x7f),
        Extension::Low16 => Low::signed_between(-0x8000, 0x7fff),
        Extension::Full8 => Low::signed_between(-0x80, 0x7f),
        Extension::Full16 => Low::signed_between(-0x8000, 0x7fff),
        Extension::Full32 => Low::any(),
    }
}
