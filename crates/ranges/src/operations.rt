//! The results of arithmetic instructions, by limits at 64 bits.

ghost use Rattle.std.specs.Prelude.{◌≡◌, ℕ, ◌^◌, ◌<◌};
ghost use Rattle.isa_model.specs.Code.Sizes.{width_bits};

use crate::wide::Wide;
use isa_model::{AluOp, Width};

impl Wide {
    ghost use Rattle.isa_model.specs.Code.Numbers.{alu};
    ghost use Rattle.ranges.specs.Wides.{Has, IsBetween, IsSignedBetween, KeepsLimits};
    ghost use Rattle.ranges.specs.Wides.{KeepsSignedLimits};

    // The results of the operation on numbers of both.
    #[tactic(auto, unfolding(isa_model::specs::Code::Numbers::alu), using(isa_model::proofs::NumberLaws::low_below))]
    pub(crate) fn alu(op: AluOp, width: Width, a: Self, b: Self) -> Self
        ensures contains { (x y : ℕ) → Has a x → Has b y → Has result (alu op width x y) }
        ensures fits { result.greatest < 2 ^ width_bits width }
        ensures limits { a.greatest < 2 ^ width_bits width → b.greatest < 2 ^ width_bits width
            → KeepsLimits op width a b (IsBetween result) }
        ensures signed { (x y : ℕ) → Has a x → Has b y → width ≡ Width.Full64
            → KeepsSignedLimits op a b (IsSignedBetween result) }
    {
        let x = a.truncate(width);
        let y = b.truncate(width);
        match op {
            AluOp::Add => x.add_at(width, y),
            AluOp::Sub => x.sub_at(width, y),
            AluOp::Mul => x.mul_at(width, y),
            AluOp::Div => x.divide(y),
            AluOp::Mod => x.remainder(y),
            AluOp::And => x.and(y),
            AluOp::Lsh => x.shift_left_at(width, y),
            AluOp::Rsh => x.shift_right_at(width, y),
            AluOp::Arsh => x.shift_signed_at(width, y),
            AluOp::Mov => y,
            AluOp::SignedDiv => x.signed_divide_at(width, y),
            AluOp::SignedMod => x.signed_remainder_at(width, y),
            // Limits say nothing of single bits.
            AluOp::Or | AluOp::Xor => Wide::any(width),
        }
    }
}
