//! Scalars: known bits and limits together.

ghost use Rattle.std.specs.Prelude.{◌≡◌, ℕ, ◌+◌, ◌*◌, ◌%◌, ◌^◌, ◌<◌, ◌≤◌, pos, ◌-ℤ◌, ◌*ℤ◌, FitsSigned, ◌↔◌, Some, IsSomeAnd, IfSome, IsTrue};
ghost use Rattle.std.specs.Int.{w32, w64, cast_signed, bit_at};
ghost use Rattle.isa_model.specs.Code.Sizes.{width_bits};
ghost use Rattle.known_bits.specs.Bits as B;
ghost use Rattle.ranges.specs.Ranges as R;
ghost use Rattle.ranges.specs.Wides as W;

use crate::domains::Domain;
use isa_model::{AluOp, ByteOrder, Extension, SwapWidth, Width};
use known_bits::Bits;
use ranges::{Low, Range, Wide};

/// The numbers that are members both of the known bits and of the range.
#[derive(Clone, Copy, PartialEq, Eq, Debug)]
pub struct Scalar {
    pub bits: Bits,
    pub range: Range,
}

impl Scalar {
    ghost use Rattle.reg_state.specs.Scalars.{Has, IsConstant};

    // Bits and limits narrow each other; if one number is left, it is known as a constant.
    fn tightened(self) -> Option<Scalar>
        ensures common { (x : ℕ) → Has self x → IsSomeAnd result (λ s. Has s x) }
        ensures narrower { IfSome result (λ s. (x : ℕ) → Has s x → Has self x) }
        ensures constant { (u : ℕ) → IsConstant self u → IsSomeAnd result (λ s. IsConstant s u) }
    {
        match self.bits.number() {
            Some(number) => self.alone(number),
            None => self.shared(),
        }
    }

    // The bits are narrowed by the limits, and then the limits by the bits.
    fn shared(self) -> Option<Scalar>
        ensures common { (x : ℕ) → Has self x → IsSomeAnd result (λ s. Has s x) }
        ensures narrower { IfSome result (λ s. (x : ℕ) → Has s x → Has self x) }
    {
        let bits = self.bits.meet(Bits::between(self.range.wide.least, self.range.wide.greatest))?;
        let range = self.range.limited(limits_of(bits))?;
        let both = Scalar { bits, range };
        match range.number() {
            Some(number) => both.alone(number),
            None => Some(both),
        }
    }

    // The set tightened; one without members is returned unchanged.
    fn settled(self) -> Scalar
        ensures contains { (x : ℕ) → Has self x → Has result x }
        ensures narrower { (x : ℕ) → Has result x → Has self x }
        ensures constant { (u : ℕ) → IsConstant self u → IsConstant result u }
    {
        match self.tightened() {
            Some(tightened) => tightened,
            None => self,
        }
    }

    // The set of this one member.
    pub(crate) fn alone(self, number: u64) -> Option<Scalar>
        ensures found { (x : ℕ) → Has self x → x ≡ number → IsSomeAnd result (λ s. Has s x) }
        ensures constant { Has self number → IsSomeAnd result (λ s. IsConstant s number) }
        ensures narrower { IfSome result (λ s. (x : ℕ) → Has s x → Has self x) }
    {
        if self.includes(number) {
            Some(Scalar::constant(number))
        } else {
            None
        }
    }

    // Whether the number is a member.
    fn includes(self, number: u64) -> bool
        ensures { IsTrue result ↔ Has self number }
    {
        self.bits.covers(Bits::constant(number)) && self.range.covers(Range::constant(number))
    }

    // Two sets, each from its bits and its range.
    fn paired(bits: (Bits, Bits), ranges: (Range, Range)) -> Option<(Scalar, Scalar)>
        ensures common { (x y : ℕ) → B.Has bits.0 x → R.Has ranges.0 x → B.Has bits.1 y
            → R.Has ranges.1 y
            → IsSomeAnd result (λ p. Has p.0 x × Has p.1 y) }
        ensures left { IfSome result (λ p. (x : ℕ) → Has p.0 x
            → B.Has bits.0 x × R.Has ranges.0 x) }
        ensures right { IfSome result (λ p. (y : ℕ) → Has p.1 y
            → B.Has bits.1 y × R.Has ranges.1 y) }
    {
        let left = Scalar {
            bits: bits.0,
            range: ranges.0,
        };
        let right = Scalar {
            bits: bits.1,
            range: ranges.1,
        };
        let first = left.tightened()?;
        let second = right.tightened()?;
        Some((first, second))
    }
}

// The least and the greatest number with these bits, read without and with a sign.
fn limits_of(bits: Bits) -> Wide
    ensures { (x : ℕ) → B.Has bits x → W.Has result x }
{
    Wide {
        least: bits.least(),
        greatest: bits.greatest(),
        signed_least: bits.signed_least(),
        signed_greatest: bits.signed_greatest(),
    }
}

// The numbers between two limits. Those of 32 bits are their own low halves, which makes it quick.
pub(crate) fn between(least: u64, greatest: u64) -> Range
    requires { least ≤ greatest }
    ensures members { (x : ℕ) → (R.Has result x ↔ ((least ≤ x) × (x ≤ greatest))) }
    ensures limits { (result.wide.least ≡ least) × (result.wide.greatest ≡ greatest) }
{
    if greatest > u64::from(u32::MAX) {
        return Range::between(least, greatest);
    }
    Range {
        wide: Wide::between(least, greatest),
        low: Low::between(least as u32, greatest as u32),
    }
}

impl Domain for Scalar {
    ghost use Rattle.isa_model.specs.Code.Numbers.{alu, shift};
    ghost use Rattle.ranges.specs.Lows as L;
    ghost use Rattle.reg_state.specs.Scalars.{Has, IsConstant, IsNumber, Encloses, allows};
    ghost use Rattle.reg_state.specs.Arithmetic.{IsFromTo, IsSignedFromTo, IsSharp};
    ghost use Rattle.reg_state.specs.Arithmetic.{IsLowFromTo, IsLowSignedFromTo};
    ghost use Rattle.known_bits.specs.Bits.{IsPrecise, KnowsProduct, greatest_of};
    ghost use Rattle.isa_model.specs.Code.Numbers.{negated, sign_extended, reordered};
    ghost use Rattle.isa_model.specs.Code.Sizes.{span_bits};
    ghost use Rattle.isa_model.specs.Code.Sizes.{extension_bits, extension_width};
    ghost use Rattle.ranges.specs.Ranges.{ReadsLow};
    ghost use Rattle.ranges.specs.Keeps.{extension_signed};
    ghost use Rattle.reg_state.specs.Limits.{range_limits};
    ghost use Rattle.reg_state.specs.Constants.{range_inside, bits_constant_has};
    ghost use Rattle.reg_state.specs.Constants.{bits_constant_only, range_constant_has};

    ghost has = { Has };

    ghost is_constant = { IsConstant };

    ghost encloses = { Encloses };

    ghost limits = { λ w s. range_limits w s.range };

    ghost allows = { allows };

    ghost ones = { λ s. s.bits.value };

    ghost possible = { λ s. greatest_of s.bits };

    fn any(width: Width) -> Scalar {
        Scalar {
            bits: Bits::any(width),
            range: Range::any(width),
        }
    }

    fn constant(number: u64) -> Scalar {
        Scalar {
            bits: Bits::constant(number),
            range: Range::constant(number),
        }
    }

    fn between(least: u64, greatest: u64) -> Scalar
        requires { least ≤ greatest }
        ensures contains { (x : ℕ) → least ≤ x → x ≤ greatest → Has result x }
        ensures only { (x : ℕ) → Has result x → (least ≤ x) × (x ≤ greatest) }
    {
        Scalar {
            bits: Bits::between(least, greatest),
            range: between(least, greatest),
        }
    }

    fn number(self) -> Option<u64>
        ensures constant { (u : ℕ) → IsConstant self u → result ≡ Some u }
        ensures only { IfSome result (λ n. (x : ℕ) → Has self x → x ≡ n) }
        ensures value { (x : ℕ) → ((result ≡ Some x) ↔ IsNumber self x) }
    {
        match self.bits.number() {
            Some(number) => Some(number),
            None => self.range.number(),
        }
    }

    fn greatest(self) -> u64 {
        self.bits.greatest().min(self.range.wide.greatest)
    }

    fn alu(op: AluOp, width: Width, a: Scalar, b: Scalar) -> Scalar
        ensures contains { (x y : ℕ) → Has a x → Has b y → Has result (alu op width x y) }
        ensures exact { (u v : ℕ) → IsConstant a u → IsConstant b v
            → IsConstant result (alu op width u v) }
        ensures fits { (x : ℕ) → Has result x → x < 2 ^ width_bits width }
        ensures limits { a.range.wide.greatest < 2 ^ width_bits width
            → b.range.wide.greatest < 2 ^ width_bits width
            → W.KeepsLimits op width a.range.wide b.range.wide (IsFromTo result) }
        ensures signed { (x y : ℕ) → Has a x → Has b y → width ≡ Width.Full64
            → W.KeepsSignedLimits op a.range.wide b.range.wide (IsSignedFromTo result) }
        ensures low_limits { (x y : ℕ) → Has a x → Has b y → ReadsLow op width b.range.wide
            → L.KeepsLimits op a.range.low b.range.low (IsLowFromTo result) }
        ensures low_signed { (x y : ℕ) → Has a x → Has b y → ReadsLow op width b.range.wide
            → L.KeepsSignedLimits op a.range.low b.range.low (IsLowSignedFromTo result) }
        ensures raised { (x y : ℕ) → Has a x → Has b y → op ≡ AluOp.Lsh → width ≡ Width.Full64
            → b.range.wide.least ≡ b.range.wide.greatest → 32 ≤ shift width b.range.wide.least
            → a.range.low.greatest * 2 ^ shift width b.range.wide.least < 2 ^ 64
            → IsFromTo result (a.range.low.least * 2 ^ shift width b.range.wide.least)
            (a.range.low.greatest * 2 ^ shift width b.range.wide.least) }
        ensures raised_signed { (x y : ℕ) → Has a x → Has b y → op ≡ AluOp.Lsh
            → width ≡ Width.Full64 → b.range.wide.least ≡ b.range.wide.greatest
            → shift width b.range.wide.least ≡ 32
            → IsSignedFromTo result (a.range.low.signed_least *ℤ pos (2 ^ 32))
            (a.range.low.signed_greatest *ℤ pos (2 ^ 32)) }
        ensures sharp { IsPrecise op b.bits → IsSharp a b (alu op width) result }
        ensures product { op ≡ AluOp.Mul → KnowsProduct (greatest_of a.bits % 2 ^ width_bits width)
            (greatest_of b.bits % 2 ^ width_bits width) (Has result) }
    {
        let both = Scalar {
            bits: Bits::alu(op, width, a.bits, b.bits),
            range: Range::alu(op, width, a.range, b.range),
        };
        both.settled()
    }

    fn negate(width: Width, a: Scalar) -> Scalar
        ensures contains { (x : ℕ) → Has a x → Has result (negated width x) }
        ensures exact { (u : ℕ) → IsConstant a u → IsConstant result (negated width u) }
        ensures fits { (x : ℕ) → Has result x → x < 2 ^ width_bits width }
        ensures signed { (x : ℕ) → Has a x → width ≡ Width.Full64
            → FitsSigned w64 (pos 0 -ℤ a.range.wide.signed_least)
            → IsSignedFromTo result
            (pos 0 -ℤ a.range.wide.signed_greatest) (pos 0 -ℤ a.range.wide.signed_least) }
        ensures low_signed { (x : ℕ) → Has a x
            → FitsSigned w32 (pos 0 -ℤ a.range.low.signed_least)
            → IsLowSignedFromTo result
            (pos 0 -ℤ a.range.low.signed_greatest) (pos 0 -ℤ a.range.low.signed_least) }
        ensures sharp { IsSharp a a (λ x y. negated width x) result }
    {
        let both = Scalar {
            bits: Bits::negate(width, a.bits),
            range: Range::negate(width, a.range),
        };
        both.settled()
    }

    fn sign_extend(extension: Extension, a: Scalar) -> Scalar
        ensures contains { (x : ℕ) → Has a x → Has result (sign_extended extension x) }
        ensures exact { (u : ℕ) → IsConstant a u → IsConstant result (sign_extended extension u) }
        ensures fits { (x : ℕ) → Has result x → x < 2 ^ width_bits (extension_width extension) }
        ensures small { a.range.wide.greatest + a.range.wide.greatest < 2 ^ extension_bits extension
            → IsFromTo result a.range.wide.least a.range.wide.greatest }
        ensures kept { (x : ℕ) → Has a x → extension_width extension ≡ Width.Full64
            → W.IsSignedOf (extension_signed extension) a.range.wide
            → (z : ℕ) → Has result z → R.Has a.range z }
        ensures low_signed { (x : ℕ) → Has a x → (z : ℕ) → Has result z
            → FitsSigned (extension_signed extension) (cast_signed w32 (z % 2 ^ 32)) }
        ensures low_kept { (x : ℕ) → Has a x
            → L.IsSignedOf (extension_signed extension) a.range.low
            → (z : ℕ) → Has result z → L.Has a.range.low (z % 2 ^ 32) }
        ensures sharp { IsSharp a a (λ x y. sign_extended extension x) result }
    {
        let both = Scalar {
            bits: Bits::sign_extend(extension, a.bits),
            range: Range::sign_extend(extension, a.range),
        };
        both.settled()
    }

    fn reorder(order: ByteOrder, span: SwapWidth, a: Scalar) -> Scalar
        ensures contains { (x : ℕ) → Has a x → Has result (reordered order span x) }
        ensures exact { (u : ℕ) → IsConstant a u → IsConstant result (reordered order span u) }
        ensures fits { (x : ℕ) → Has result x → x < 2 ^ span_bits span }
        ensures limits { order ≡ ByteOrder.Little → a.range.wide.greatest < 2 ^ span_bits span
            → IsFromTo result a.range.wide.least a.range.wide.greatest }
        ensures low_limits { (x : ℕ) → Has a x → order ≡ ByteOrder.Little
            → a.range.low.greatest < 2 ^ span_bits span
            → IsLowFromTo result a.range.low.least a.range.low.greatest }
        ensures bits { order ≡ ByteOrder.Little → (i x y : ℕ) → i < 64 → Has result x → Has result y
            → bit_at x i ≡ 0 → bit_at y i ≡ 1 → bit_at (a.bits.mask % 2 ^ span_bits span) i ≡ 1 }
        ensures sharp { IsSharp a a (λ x y. reordered order span x) result }
    {
        let both = Scalar {
            bits: Bits::reorder(order, span, a.bits),
            range: Range::reorder(order, span, a.range),
        };
        both.settled()
    }

    fn meet(self, other: Scalar) -> Option<Scalar> {
        let bits = self.bits.meet(other.bits)?;
        let range = self.range.meet(other.range)?;
        let both = Scalar { bits, range };
        both.tightened()
    }

    fn covers(self, other: Scalar) -> bool {
        self.bits.covers(other.bits) && self.range.covers(other.range)
    }

    fn equal(self, width: Width, other: Scalar) -> Option<(Scalar, Scalar)> {
        let bits = Domain::equal(self.bits, width, other.bits)?;
        let ranges = Domain::equal(self.range, width, other.range)?;
        Scalar::paired(bits, ranges)
    }

    fn below(self, width: Width, other: Scalar) -> Option<(Scalar, Scalar)> {
        let bits = Domain::below(self.bits, width, other.bits)?;
        let ranges = Domain::below(self.range, width, other.range)?;
        Scalar::paired(bits, ranges)
    }

    fn at_most(self, width: Width, other: Scalar) -> Option<(Scalar, Scalar)> {
        let bits = Domain::at_most(self.bits, width, other.bits)?;
        let ranges = Domain::at_most(self.range, width, other.range)?;
        Scalar::paired(bits, ranges)
    }

    fn signed_below(self, width: Width, other: Scalar) -> Option<(Scalar, Scalar)> {
        let bits = Domain::signed_below(self.bits, width, other.bits)?;
        let ranges = Domain::signed_below(self.range, width, other.range)?;
        Scalar::paired(bits, ranges)
    }

    fn signed_at_most(self, width: Width, other: Scalar) -> Option<(Scalar, Scalar)> {
        let bits = Domain::signed_at_most(self.bits, width, other.bits)?;
        let ranges = Domain::signed_at_most(self.range, width, other.range)?;
        Scalar::paired(bits, ranges)
    }

    fn unequal(self, width: Width, other: Scalar) -> Option<(Scalar, Scalar)> {
        let bits = Domain::unequal(self.bits, width, other.bits)?;
        let ranges = Domain::unequal(self.range, width, other.range)?;
        Scalar::paired(bits, ranges)
    }

    fn disjoint(self, width: Width, other: Scalar) -> Option<(Scalar, Scalar)> {
        let bits = Domain::disjoint(self.bits, width, other.bits)?;
        let ranges = Domain::disjoint(self.range, width, other.range)?;
        Scalar::paired(bits, ranges)
    }

    fn overlapping(self, width: Width, other: Scalar) -> Option<(Scalar, Scalar)> {
        let bits = Domain::overlapping(self.bits, width, other.bits)?;
        let ranges = Domain::overlapping(self.range, width, other.range)?;
        Scalar::paired(bits, ranges)
    }

    ghost in_register = { λ d x h. h.0.below };

    ghost inside = { λ d w x h. range_inside d.range w x h.1 };

    ghost whole = { λ d x h. h };

    ghost contains_constant = { λ d u h c. (
      bits_constant_has d.bits u h c.0,
      range_constant_has d.range u h c.1,
    ) };

    ghost only_constant = { λ d u x c h. bits_constant_only d.bits u x c.0 h.0 };
}
