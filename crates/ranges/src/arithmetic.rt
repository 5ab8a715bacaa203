//! The results of arithmetic instructions on ranges.

ghost use Rattle.std.specs.Prelude.{◌≡◌, ℕ, ◌+◌, ◌*◌, ◌*ℤ◌, ◌/◌, ◌%◌, ◌^◌, ◌<◌, ◌≤◌, ◌-ℤ◌, pos, FitsSigned, IsTrue, ◌↔◌};
ghost use Rattle.std.specs.Int.{w32, w64};
ghost use Rattle.isa_model.specs.Code.Sizes.{width_bits, span_bits};
ghost use Rattle.isa_model.specs.Code.Numbers.{alu, negated, reordered, shift};
ghost use Rattle.ranges.specs.Lows as L;
ghost use Rattle.ranges.specs.Ranges.{ReadsLow};
ghost use Rattle.ranges.specs.Wides as W;

use crate::low::Low;
use crate::range::Range;
use crate::shifts::distance;
use crate::wide::Wide;
use isa_model::{AluOp, ByteOrder, SwapWidth, Width, numbers};

impl Range {
    ghost use Rattle.ranges.specs.Ranges.{Has, IsConstant, IsTight};

    /// The results of the operation on numbers of both.
    pub fn alu(op: AluOp, width: Width, a: Self, b: Self) -> Self
        ensures contains { (x y : ℕ) → Has a x → Has b y → Has result (alu op width x y) }
        ensures exact { (u v : ℕ) → IsConstant a u → IsConstant b v
            → IsConstant result (alu op width u v) }
        ensures fits { result.wide.greatest < 2 ^ width_bits width }
        ensures limits { a.wide.greatest < 2 ^ width_bits width
            → b.wide.greatest < 2 ^ width_bits width
            → W.KeepsLimits op width a.wide b.wide (W.IsBetween result.wide) }
        ensures signed { (x y : ℕ) → Has a x → Has b y → width ≡ Width.Full64
            → W.KeepsSignedLimits op a.wide b.wide (W.IsSignedBetween result.wide) }
        ensures low_limits { (x y : ℕ) → Has a x → Has b y → ReadsLow op width b.wide
            → L.KeepsLimits op a.low b.low (L.IsBetween result.low) }
        ensures low_signed { (x y : ℕ) → Has a x → Has b y → ReadsLow op width b.wide
            → L.KeepsSignedLimits op a.low b.low (L.IsSignedBetween result.low) }
        ensures raised { (x y : ℕ) → Has a x → Has b y → op ≡ AluOp.Lsh → width ≡ Width.Full64
            → b.wide.least ≡ b.wide.greatest → 32 ≤ shift width b.wide.least
            → a.low.greatest * 2 ^ shift width b.wide.least < 2 ^ 64
            → W.IsBetween result.wide (a.low.least * 2 ^ shift width b.wide.least)
            (a.low.greatest * 2 ^ shift width b.wide.least) }
        ensures raised_signed { (x y : ℕ) → Has a x → Has b y → op ≡ AluOp.Lsh
            → width ≡ Width.Full64 → b.wide.least ≡ b.wide.greatest
            → shift width b.wide.least ≡ 32
            → W.IsSignedBetween result.wide (a.low.signed_least *ℤ pos (2 ^ 32))
            (a.low.signed_greatest *ℤ pos (2 ^ 32)) }
        ensures tight { (x y : ℕ) → Has a x → Has b y → IsTight result }
    {
        if a.wide.least == a.wide.greatest && b.wide.least == b.wide.greatest {
            return Range::constant(numbers::compute(op, width, a.wide.least, b.wide.least));
        }
        let wide = Range::wide_alu(op, width, a, b);
        let low = Range::low_alu(op, width, a, b);
        Range { wide, low }.settled()
    }

    // The limits of the results at 64 bits.
    fn wide_alu(op: AluOp, width: Width, a: Self, b: Self) -> Wide
        ensures contains { (x y : ℕ) → Has a x → Has b y → W.Has result (alu op width x y) }
        ensures fits { result.greatest < 2 ^ width_bits width }
        ensures limits { a.wide.greatest < 2 ^ width_bits width
            → b.wide.greatest < 2 ^ width_bits width
            → W.KeepsLimits op width a.wide b.wide (W.IsBetween result) }
        ensures signed { (x y : ℕ) → Has a x → Has b y → width ≡ Width.Full64
            → W.KeepsSignedLimits op a.wide b.wide (W.IsSignedBetween result) }
        ensures raised { (x y : ℕ) → Has a x → Has b y → op ≡ AluOp.Lsh → width ≡ Width.Full64
            → b.wide.least ≡ b.wide.greatest → 32 ≤ shift width b.wide.least
            → a.low.greatest * 2 ^ shift width b.wide.least < 2 ^ 64
            → W.IsBetween result (a.low.least * 2 ^ shift width b.wide.least)
            (a.low.greatest * 2 ^ shift width b.wide.least) }
        ensures raised_signed { (x y : ℕ) → Has a x → Has b y → op ≡ AluOp.Lsh
            → width ≡ Width.Full64 → b.wide.least ≡ b.wide.greatest
            → shift width b.wide.least ≡ 32
            → W.IsSignedBetween result (a.low.signed_least *ℤ pos (2 ^ 32))
            (a.low.signed_greatest *ℤ pos (2 ^ 32)) }
    {
        match op {
            AluOp::Lsh => Range::shifted_left(width, a, b),
            _ => Wide::alu(op, width, a.wide, b.wide),
        }
    }

    // A shift to the left by 32 or more depends on the low half only.
    fn shifted_left(width: Width, a: Self, b: Self) -> Wide
        ensures contains { (x y : ℕ) → Has a x → Has b y → W.Has result (alu AluOp.Lsh width x y) }
        ensures fits { result.greatest < 2 ^ width_bits width }
        ensures limits { a.wide.greatest < 2 ^ width_bits width
            → b.wide.greatest < 2 ^ width_bits width
            → W.KeepsLimits AluOp.Lsh width a.wide b.wide (W.IsBetween result) }
        ensures raised { (x y : ℕ) → Has a x → Has b y → width ≡ Width.Full64
            → b.wide.least ≡ b.wide.greatest → 32 ≤ shift width b.wide.least
            → a.low.greatest * 2 ^ shift width b.wide.least < 2 ^ 64
            → W.IsBetween result (a.low.least * 2 ^ shift width b.wide.least)
            (a.low.greatest * 2 ^ shift width b.wide.least) }
        ensures raised_signed { (x y : ℕ) → Has a x → Has b y → width ≡ Width.Full64
            → b.wide.least ≡ b.wide.greatest → shift width b.wide.least ≡ 32
            → W.IsSignedBetween result (a.low.signed_least *ℤ pos (2 ^ 32))
            (a.low.signed_greatest *ℤ pos (2 ^ 32)) }
    {
        let wide = Wide::alu(AluOp::Lsh, width, a.wide, b.wide);
        match width {
            Width::Low32 => wide,
            Width::Full64 => {
                let by = distance(width, b.wide.least);
                if b.wide.least == b.wide.greatest && by >= 32 {
                    wide.with(a.low.raised(by))
                } else {
                    wide
                }
            }
        }
    }

    // The low halves of the results, if the operation on low halves determines them; else all.
    fn low_alu(op: AluOp, width: Width, a: Self, b: Self) -> Low
        ensures contains { (x y : ℕ) → Has a x → Has b y
            → L.Has result (alu op width x y % 2 ^ 32) }
        ensures limits { (x y : ℕ) → Has a x → Has b y → ReadsLow op width b.wide
            → L.KeepsLimits op a.low b.low (L.IsBetween result) }
        ensures signed { (x y : ℕ) → Has a x → Has b y → ReadsLow op width b.wide
            → L.KeepsSignedLimits op a.low b.low (L.IsSignedBetween result) }
    {
        if reads_low(op, width, b.wide) {
            Low::alu(op, a.low, b.low)
        } else {
            Low::any()
        }
    }

    /// The numbers that `count` bits of these make, from bit `from` on.
    pub fn part(self, from: u64, count: u32) -> Self
        requires from { from < 64 }
        requires some { 0 < count }
        requires count { count ≤ 64 }
        ensures contains { (x : ℕ) → Has self x → Has result (x / 2 ^ from % 2 ^ count) }
        ensures fits { result.wide.greatest < 2 ^ count }
        ensures limits { self.wide.greatest / 2 ^ from < 2 ^ count
            → W.IsBetween result.wide (self.wide.least / 2 ^ from) (self.wide.greatest / 2 ^ from) }
        ensures low { from ≡ 0 → count ≡ 32 → 2 ^ 32 ≤ self.wide.greatest
            → W.IsBetween result.wide self.low.least self.low.greatest }
        ensures tight { IsTight result }
    {
        let most = u64::MAX >> (64 - count);
        let greatest = self.wide.greatest >> from;
        if greatest <= most {
            Range::between(self.wide.least >> from, greatest)
        } else if from == 0 && count == 32 {
            Range::between(u64::from(self.low.least), u64::from(self.low.greatest))
        } else {
            Range::between(0, most)
        }
    }

    /// The numbers with their signs changed.
    pub fn negate(width: Width, a: Self) -> Self
        ensures contains { (x : ℕ) → Has a x → Has result (negated width x) }
        ensures exact { (u : ℕ) → IsConstant a u → IsConstant result (negated width u) }
        ensures fits { result.wide.greatest < 2 ^ width_bits width }
        ensures signed { (x : ℕ) → Has a x → width ≡ Width.Full64
            → FitsSigned w64 (pos 0 -ℤ a.wide.signed_least)
            → W.IsSignedBetween result.wide (pos 0 -ℤ a.wide.signed_greatest)
            (pos 0 -ℤ a.wide.signed_least) }
        ensures low_signed { (x : ℕ) → Has a x → FitsSigned w32 (pos 0 -ℤ a.low.signed_least)
            → L.IsSignedBetween result.low (pos 0 -ℤ a.low.signed_greatest)
            (pos 0 -ℤ a.low.signed_least) }
        ensures tight { (x : ℕ) → Has a x → IsTight result }
    {
        Range::alu(AluOp::Sub, width, Range::constant(0), a)
    }

    /// The low bytes of the numbers, in a byte order. Of reversed bytes only their size is known.
    pub fn reorder(order: ByteOrder, span: SwapWidth, a: Self) -> Self
        ensures contains { (x : ℕ) → Has a x → Has result (reordered order span x) }
        ensures exact { (u : ℕ) → IsConstant a u → IsConstant result (reordered order span u) }
        ensures fits { result.wide.greatest < 2 ^ span_bits span }
        ensures little { order ≡ ByteOrder.Little → a.wide.greatest < 2 ^ span_bits span
            → W.IsBetween result.wide a.wide.least a.wide.greatest }
        ensures low_little { (x : ℕ) → Has a x → order ≡ ByteOrder.Little
            → a.low.greatest < 2 ^ span_bits span
            → L.IsBetween result.low a.low.least a.low.greatest }
        ensures tight { (x : ℕ) → Has a x → IsTight result }
    {
        if a.wide.least == a.wide.greatest {
            return Range::constant(numbers::reorder(order, span, a.wide.least));
        }
        match order {
            ByteOrder::Little => Range {
                wide: a.wide.low_bytes(span),
                low: a.low.low_part(span),
            }
            .settled(),
            _ => Range::between(0, greatest_read(span)),
        }
    }
}

// Whether the low half of the result is that of the operation on low halves.
fn reads_low(op: AluOp, width: Width, b: Wide) -> bool
    ensures { IsTrue result ↔ ReadsLow op width b }
{
    match width {
        Width::Low32 => true,
        Width::Full64 => match op {
            AluOp::Add | AluOp::Sub | AluOp::Mul => true,
            AluOp::And | AluOp::Or | AluOp::Xor | AluOp::Mov => true,
            AluOp::Lsh => b.least == b.greatest && distance(width, b.least) < 32,
            _ => false,
        },
    }
}

// The greatest number of as many bits.
fn greatest_read(span: SwapWidth) -> u64
    ensures { result + 1 ≡ 2 ^ span_bits span }
{
    match span {
        SwapWidth::B16 => 0xffff,
        SwapWidth::B32 => 0xffff_ffff,
        SwapWidth::B64 => u64::MAX,
    }
}
