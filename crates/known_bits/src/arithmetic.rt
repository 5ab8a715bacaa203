//! The results of arithmetic instructions on known bits.

ghost use Rattle.std.specs.Prelude.{◌≡◌, ℕ, ◌%◌, ◌^◌, ◌<◌};
ghost use Rattle.isa_model.specs.Code.Sizes.{width_bits, span_bits, extension_width};
ghost use Rattle.isa_model.specs.Code.Numbers.{negated, sign_extended, reordered};

use crate::bits::Bits;
use isa_model::{AluOp, ByteOrder, Extension, SwapWidth, Width, numbers};

impl Bits {
    ghost use Rattle.isa_model.specs.Code.Numbers.{alu};
    ghost use Rattle.known_bits.specs.Bits.{Has, IsConstant, IsSharp, IsPrecise, greatest_of};
    ghost use Rattle.known_bits.specs.Bits.{KnowsProduct};

    /// The results of the operation on members of both.
    #[tactic(auto, unfolding(isa_model::specs::Code::Numbers::alu))]
    pub fn alu(op: AluOp, width: Width, a: Self, b: Self) -> Self
        ensures contains { (x y : ℕ) → Has a x → Has b y → Has result (alu op width x y) }
        ensures sharp { IsPrecise op b → IsSharp a b (alu op width) result.mask }
        ensures product { op ≡ AluOp.Mul
            → KnowsProduct (greatest_of a % 2 ^ width_bits width)
            (greatest_of b % 2 ^ width_bits width) (Has result) }
        ensures exact { (u v : ℕ) → IsConstant a u → IsConstant b v
            → IsConstant result (alu op width u v) }
        ensures fits { (x : ℕ) → Has result x → x < 2 ^ width_bits width }
    {
        if a.mask == 0 && b.mask == 0 {
            return Bits::constant(numbers::compute(op, width, a.value, b.value));
        }
        let x = a.truncate(width);
        let y = b.truncate(width);
        match op {
            AluOp::Add => x.add_at(width, y),
            AluOp::Sub => x.sub_at(width, y),
            AluOp::Mul => x.mul_at(width, y),
            AluOp::Or => a.or(b).truncate(width),
            AluOp::And => a.and(b).truncate(width),
            AluOp::Xor => a.xor(b).truncate(width),
            AluOp::Lsh => x.shift_left_at(width, y),
            AluOp::Rsh => x.shift_right_at(width, y),
            AluOp::Arsh => a.shift_signed_at(width, b),
            AluOp::Mov => y,
            // Nothing is known of quotients and remainders.
            AluOp::Div | AluOp::SignedDiv | AluOp::Mod | AluOp::SignedMod => Bits::any(width),
        }
    }

    /// The members with their signs changed.
    pub fn negate(width: Width, a: Self) -> Self
        ensures contains { (x : ℕ) → Has a x → Has result (negated width x) }
        ensures sharp { IsSharp a a (λ x y. negated width x) result.mask }
        ensures exact { (u : ℕ) → IsConstant a u → IsConstant result (negated width u) }
        ensures fits { (x : ℕ) → Has result x → x < 2 ^ width_bits width }
    {
        Bits::alu(AluOp::Sub, width, Bits::constant(0), a)
    }

    /// The low bits of the members, sign-extended. The bits above them are known if the sign is.
    pub fn sign_extend(extension: Extension, a: Self) -> Self
        ensures contains { (x : ℕ) → Has a x → Has result (sign_extended extension x) }
        ensures sharp { IsSharp a a (λ x y. sign_extended extension x) result.mask }
        ensures exact { (u : ℕ) → IsConstant a u → IsConstant result (sign_extended extension u) }
        ensures fits { (x : ℕ) → Has result x → x < 2 ^ width_bits (extension_width extension) }
    {
        Bits {
            value: numbers::sign_extend(extension, a.value),
            mask: numbers::sign_extend(extension, a.mask),
        }
    }

    /// The low bytes of the members, in a byte order.
    pub fn reorder(order: ByteOrder, span: SwapWidth, a: Self) -> Self
        ensures contains { (x : ℕ) → Has a x → Has result (reordered order span x) }
        ensures sharp { IsSharp a a (λ x y. reordered order span x) result.mask }
        ensures exact { (u : ℕ) → IsConstant a u → IsConstant result (reordered order span u) }
        ensures fits { (x : ℕ) → Has result x → x < 2 ^ span_bits span }
        ensures little { order ≡ ByteOrder.Little → result.mask ≡ a.mask % 2 ^ span_bits span }
    {
        Bits {
            value: numbers::reorder(order, span, a.value),
            mask: numbers::reorder(order, span, a.mask),
        }
    }
}
