//! Known bits as a domain.

ghost use Rattle.std.specs.Prelude.{◌≡◌, ◌≢◌, ℕ, ◌/◌, ◌^◌, ◌<◌, ◌≤◌};
ghost use Rattle.std.specs.Int.{bit_at};
ghost use Rattle.isa_model.specs.Code.Sizes.{width_bits};

use crate::domains::Domain;
use crate::low_bits::{plain_halves, plain_pair, same, signed_halves, signed_pair};
use isa_model::{AluOp, ByteOrder, Extension, SwapWidth, Width};
use known_bits::Bits;

impl Domain for Bits {
    ghost use Rattle.isa_model.specs.Code.Numbers.{alu};
    ghost use Rattle.known_bits.specs.Bits.{Has, IsConstant, IsSharp, IsPrecise, greatest_of};
    ghost use Rattle.reg_state.specs.Limits.{no_limits, bits_allows};
    ghost use Rattle.reg_state.specs.Constants.{any_inside, bits_constant_has, bits_constant_only};

    ghost has = { Has };

    ghost is_constant = { IsConstant };

    ghost encloses = { λ a b. (x : ℕ) → Has b x → Has a x };

    ghost limits = { λ w b. no_limits };

    ghost allows = { bits_allows };

    ghost ones = { λ b. b.value };

    ghost possible = { greatest_of };

    fn any(width: Width) -> Bits {
        Bits::any(width)
    }

    fn constant(number: u64) -> Bits {
        Bits::constant(number)
    }

    fn between(least: u64, greatest: u64) -> Bits
        requires { least ≤ greatest }
        ensures contains { (x : ℕ) → least ≤ x → x ≤ greatest → Has result x }
        ensures sharp { (i : ℕ) → bit_at result.mask i ≡ 1 → least / 2 ^ i ≢ greatest / 2 ^ i }
    {
        Bits::between(least, greatest)
    }

    fn number(self) -> Option<u64> {
        Bits::number(self)
    }

    fn greatest(self) -> u64 {
        Bits::greatest(self)
    }

    fn alu(op: AluOp, width: Width, a: Bits, b: Bits) -> Bits
        ensures contains { (x y : ℕ) → Has a x → Has b y → Has result (alu op width x y) }
        ensures exact { (u v : ℕ) → IsConstant a u → IsConstant b v
            → IsConstant result (alu op width u v) }
        ensures fits { (x : ℕ) → Has result x → x < 2 ^ width_bits width }
        ensures sharp { IsPrecise op b → IsSharp a b (alu op width) result.mask }
    {
        Bits::alu(op, width, a, b)
    }

    fn negate(width: Width, a: Bits) -> Bits {
        Bits::negate(width, a)
    }

    fn sign_extend(extension: Extension, a: Bits) -> Bits {
        Bits::sign_extend(extension, a)
    }

    fn reorder(order: ByteOrder, span: SwapWidth, a: Bits) -> Bits {
        Bits::reorder(order, span, a)
    }

    fn meet(self, other: Bits) -> Option<Bits> {
        Bits::meet(self, other)
    }

    fn covers(self, other: Bits) -> bool {
        Bits::covers(self, other)
    }

    fn equal(self, width: Width, other: Bits) -> Option<(Bits, Bits)> {
        match width {
            Width::Full64 => same(self, other),
            Width::Low32 => plain_pair(self, other, same(plain_halves(self), plain_halves(other))),
        }
    }

    fn below(self, width: Width, other: Bits) -> Option<(Bits, Bits)> {
        match width {
            Width::Full64 => Bits::below(self, other),
            Width::Low32 => plain_pair(
                self,
                other,
                Bits::below(plain_halves(self), plain_halves(other)),
            ),
        }
    }

    fn at_most(self, width: Width, other: Bits) -> Option<(Bits, Bits)> {
        match width {
            Width::Full64 => Bits::at_most(self, other),
            Width::Low32 => plain_pair(
                self,
                other,
                Bits::at_most(plain_halves(self), plain_halves(other)),
            ),
        }
    }

    fn signed_below(self, width: Width, other: Bits) -> Option<(Bits, Bits)> {
        match width {
            Width::Full64 => Bits::signed_below(self, other),
            Width::Low32 => signed_pair(
                self,
                other,
                Bits::signed_below(signed_halves(self), signed_halves(other)),
            ),
        }
    }

    fn signed_at_most(self, width: Width, other: Bits) -> Option<(Bits, Bits)> {
        match width {
            Width::Full64 => Bits::signed_at_most(self, other),
            Width::Low32 => signed_pair(
                self,
                other,
                Bits::signed_at_most(signed_halves(self), signed_halves(other)),
            ),
        }
    }

    fn unequal(self, width: Width, other: Bits) -> Option<(Bits, Bits)> {
        match width {
            Width::Full64 => Bits::unequal(self, other),
            Width::Low32 => plain_pair(
                self,
                other,
                Bits::unequal(plain_halves(self), plain_halves(other)),
            ),
        }
    }

    fn disjoint(self, width: Width, other: Bits) -> Option<(Bits, Bits)> {
        match width {
            Width::Full64 => Bits::disjoint(self, other),
            Width::Low32 => plain_pair(
                self,
                other,
                Bits::disjoint(plain_halves(self), plain_halves(other)),
            ),
        }
    }

    fn overlapping(self, width: Width, other: Bits) -> Option<(Bits, Bits)> {
        match width {
            Width::Full64 => Bits::overlapping(self, other),
            Width::Low32 => plain_pair(
                self,
                other,
                Bits::overlapping(plain_halves(self), plain_halves(other)),
            ),
        }
    }

    ghost in_register = { λ d x h. h.below };

    ghost inside = { λ d w x h. any_inside w x };

    ghost whole = { λ d x h. h };

    ghost contains_constant = { λ d u h c. bits_constant_has d u h c };

    ghost only_constant = { λ d u x c h. bits_constant_only d u x c h };
}
