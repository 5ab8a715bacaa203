//! Results at the least and the greatest numbers, worked out from the rules of RFC 9669, sections
//! 4.1 to 4.3.

use super::operations::Unary;
use crate::tests::rows::{Holds, hold_all};
use isa_model::numbers::{compare, compute, negate, reorder, sign_extend};
use isa_model::{AluOp, ByteOrder, Comparison, Extension, SwapWidth, Width};
use std::alloc::Global;

const MINUS_ONE: u64 = 0xffff_ffff_ffff_ffff;

const LEAST: u64 = 0x8000_0000_0000_0000;

const TWO_31: u64 = 0x8000_0000;

const TWO_32: u64 = 0x1_0000_0000;

// Operation, operands, and the results at 64 and at 32 bits.
type Computed = (AluOp, u64, u64, u64, u64);

#[rattlefmt::skip]
const ARITHMETIC: &[Computed] = &[
    (AluOp::Add, 0, 0, 0, 0),
    (AluOp::Add, 1, MINUS_ONE, 0, 0),
    (AluOp::Add, LEAST, LEAST, 0, 0),
    (AluOp::Add, TWO_31, TWO_31, TWO_32, 0),
    (AluOp::Add, TWO_32, 1, 0x1_0000_0001, 1),
    (AluOp::Add, MINUS_ONE, MINUS_ONE, 0xffff_ffff_ffff_fffe, 0xffff_fffe),
    (AluOp::Sub, 0, 1, MINUS_ONE, 0xffff_ffff),
    (AluOp::Sub, 1, MINUS_ONE, 2, 2),
    (AluOp::Sub, LEAST, 1, 0x7fff_ffff_ffff_ffff, 0xffff_ffff),
    (AluOp::Sub, TWO_31, TWO_32, 0xffff_ffff_8000_0000, TWO_31),
    (AluOp::Sub, 0, 0, 0, 0),
    (AluOp::Sub, TWO_32, TWO_31, TWO_31, TWO_31),
    (AluOp::Mul, 0, MINUS_ONE, 0, 0),
    (AluOp::Mul, MINUS_ONE, MINUS_ONE, 1, 1),
    (AluOp::Mul, TWO_31, 2, TWO_32, 0),
    (AluOp::Mul, TWO_32, TWO_32, 0, 0),
    (AluOp::Mul, LEAST, 2, 0, 0),
    (AluOp::Mul, MINUS_ONE, TWO_31, 0xffff_ffff_8000_0000, TWO_31),
    (AluOp::Div, 1, 0, 0, 0),
    (AluOp::Div, MINUS_ONE, 1, MINUS_ONE, 0xffff_ffff),
    (AluOp::Div, LEAST, MINUS_ONE, 0, 0),
    (AluOp::Div, TWO_32, TWO_31, 2, 0),
    (AluOp::Div, MINUS_ONE, TWO_32, 0xffff_ffff, 0),
    (AluOp::Div, TWO_31, TWO_32, 0, 0),
    (AluOp::SignedDiv, 1, 0, 0, 0),
    (AluOp::SignedDiv, LEAST, MINUS_ONE, LEAST, 0),
    (AluOp::SignedDiv, TWO_31, MINUS_ONE, 0xffff_ffff_8000_0000, TWO_31),
    (AluOp::SignedDiv, MINUS_ONE, 2, 0, 0),
    (AluOp::SignedDiv, 0xffff_ffff_ffff_fff3, 3, 0xffff_ffff_ffff_fffc, 0xffff_fffc),
    (AluOp::SignedDiv, LEAST, 1, LEAST, 0),
    (AluOp::Mod, 1, 0, 1, 1),
    (AluOp::Mod, 0x1_0000_0002, 0, 0x1_0000_0002, 2),
    (AluOp::Mod, MINUS_ONE, TWO_32, 0xffff_ffff, 0xffff_ffff),
    (AluOp::Mod, TWO_32, TWO_31, 0, 0),
    (AluOp::Mod, LEAST, MINUS_ONE, LEAST, 0),
    (AluOp::Mod, MINUS_ONE, 10, 5, 5),
    (AluOp::SignedMod, MINUS_ONE, 0, MINUS_ONE, 0xffff_ffff),
    (AluOp::SignedMod, LEAST, MINUS_ONE, 0, 0),
    (AluOp::SignedMod, TWO_31, MINUS_ONE, 0, 0),
    (AluOp::SignedMod, 0xffff_ffff_ffff_fff3, 3, MINUS_ONE, 0xffff_ffff),
    (AluOp::SignedMod, 13, 0xffff_ffff_ffff_fffd, 1, 1),
    (AluOp::SignedMod, 0x1_0000_0007, 4, 3, 3),
    (AluOp::Or, 0, MINUS_ONE, MINUS_ONE, 0xffff_ffff),
    (AluOp::Or, LEAST, 1, 0x8000_0000_0000_0001, 1),
    (AluOp::Or, TWO_32, TWO_31, 0x1_8000_0000, TWO_31),
    (AluOp::Or, 0, 0, 0, 0),
    (AluOp::And, MINUS_ONE, TWO_32, TWO_32, 0),
    (AluOp::And, LEAST, MINUS_ONE, LEAST, 0),
    (AluOp::And, TWO_31, TWO_32, 0, 0),
    (AluOp::And, MINUS_ONE, MINUS_ONE, MINUS_ONE, 0xffff_ffff),
    (AluOp::Xor, MINUS_ONE, MINUS_ONE, 0, 0),
    (AluOp::Xor, LEAST, 1, 0x8000_0000_0000_0001, 1),
    (AluOp::Xor, TWO_32, MINUS_ONE, 0xffff_fffe_ffff_ffff, 0xffff_ffff),
    (AluOp::Xor, TWO_31, TWO_32, 0x1_8000_0000, TWO_31),
    (AluOp::Mov, MINUS_ONE, 0, 0, 0),
    (AluOp::Mov, 0, MINUS_ONE, MINUS_ONE, 0xffff_ffff),
    (AluOp::Mov, 1, TWO_32, TWO_32, 0),
    (AluOp::Mov, 0, LEAST, LEAST, 0),
    (AluOp::Mov, 7, TWO_31, TWO_31, TWO_31),
    (AluOp::Lsh, 1, 0, 1, 1),
    (AluOp::Lsh, 1, 31, TWO_31, TWO_31),
    (AluOp::Lsh, 1, 32, TWO_32, 1),
    (AluOp::Lsh, 1, 63, LEAST, TWO_31),
    (AluOp::Lsh, 1, 64, 1, 1),
    (AluOp::Lsh, MINUS_ONE, 1, 0xffff_ffff_ffff_fffe, 0xffff_fffe),
    (AluOp::Lsh, TWO_31, 1, TWO_32, 0),
    (AluOp::Lsh, TWO_32, 31, LEAST, 0),
    (AluOp::Lsh, 1, MINUS_ONE, LEAST, TWO_31),
    (AluOp::Rsh, MINUS_ONE, 0, MINUS_ONE, 0xffff_ffff),
    (AluOp::Rsh, MINUS_ONE, 31, 0x1_ffff_ffff, 1),
    (AluOp::Rsh, MINUS_ONE, 32, 0xffff_ffff, 0xffff_ffff),
    (AluOp::Rsh, LEAST, 63, 1, 0),
    (AluOp::Rsh, LEAST, 64, LEAST, 0),
    (AluOp::Rsh, TWO_31, 31, 1, 1),
    (AluOp::Rsh, TWO_32, 32, 1, 0),
    (AluOp::Rsh, TWO_32, 1, TWO_31, 0),
    (AluOp::Rsh, MINUS_ONE, MINUS_ONE, 1, 1),
    (AluOp::Arsh, LEAST, 0, LEAST, 0),
    (AluOp::Arsh, LEAST, 31, 0xffff_ffff_0000_0000, 0),
    (AluOp::Arsh, LEAST, 32, 0xffff_ffff_8000_0000, 0),
    (AluOp::Arsh, LEAST, 63, MINUS_ONE, 0),
    (AluOp::Arsh, LEAST, 64, LEAST, 0),
    (AluOp::Arsh, TWO_31, 31, 1, 0xffff_ffff),
    (AluOp::Arsh, TWO_31, 4, 0x800_0000, 0xf800_0000),
    (AluOp::Arsh, MINUS_ONE, 63, MINUS_ONE, 0xffff_ffff),
    (AluOp::Arsh, TWO_32, 1, TWO_31, 0),
    (AluOp::Arsh, TWO_31, MINUS_ONE, 0, 0xffff_ffff),
];

// Comparison, operands, and whether it holds at 64 and at 32 bits.
type Compared = (Comparison, u64, u64, bool, bool);

#[rattlefmt::skip]
const COMPARISONS: &[Compared] = &[
    (Comparison::Equal, 0, 0, true, true),
    (Comparison::Equal, TWO_32, 0, false, true),
    (Comparison::Equal, MINUS_ONE, 1, false, false),
    (Comparison::Equal, MINUS_ONE, 0xffff_ffff, false, true),
    (Comparison::NotEqual, 0, 0, false, false),
    (Comparison::NotEqual, TWO_32, 0, true, false),
    (Comparison::NotEqual, MINUS_ONE, 1, true, true),
    (Comparison::Greater, 1, 0, true, true),
    (Comparison::Greater, 0, 0, false, false),
    (Comparison::Greater, TWO_32, 1, true, false),
    (Comparison::Greater, MINUS_ONE, 1, true, true),
    (Comparison::Greater, TWO_31, 0x7fff_ffff, true, true),
    (Comparison::GreaterEqual, 0, 0, true, true),
    (Comparison::GreaterEqual, 0, 1, false, false),
    (Comparison::GreaterEqual, TWO_32, 1, true, false),
    (Comparison::GreaterEqual, 1, TWO_32, false, true),
    (Comparison::Less, 0, 1, true, true),
    (Comparison::Less, 1, 1, false, false),
    (Comparison::Less, 1, TWO_32, true, false),
    (Comparison::Less, MINUS_ONE, 0, false, false),
    (Comparison::Less, TWO_32, 1, false, true),
    (Comparison::LessEqual, 1, 1, true, true),
    (Comparison::LessEqual, 1, 0, false, false),
    (Comparison::LessEqual, TWO_32, 0, false, true),
    (Comparison::LessEqual, 0, MINUS_ONE, true, true),
    (Comparison::AnyBit, 1, 1, true, true),
    (Comparison::AnyBit, 2, 1, false, false),
    (Comparison::AnyBit, TWO_32, TWO_32, true, false),
    (Comparison::AnyBit, MINUS_ONE, TWO_32, true, false),
    (Comparison::AnyBit, TWO_31, MINUS_ONE, true, true),
    (Comparison::SignedGreater, 0, MINUS_ONE, true, true),
    (Comparison::SignedGreater, MINUS_ONE, 0, false, false),
    (Comparison::SignedGreater, 1, 1, false, false),
    (Comparison::SignedGreater, TWO_31, 0, true, false),
    (Comparison::SignedGreater, 0, LEAST, true, false),
    (Comparison::SignedGreaterEqual, 0, MINUS_ONE, true, true),
    (Comparison::SignedGreaterEqual, MINUS_ONE, MINUS_ONE, true, true),
    (Comparison::SignedGreaterEqual, TWO_31, 0, true, false),
    (Comparison::SignedGreaterEqual, LEAST, 0, false, true),
    (Comparison::SignedLess, MINUS_ONE, 0, true, true),
    (Comparison::SignedLess, 0, MINUS_ONE, false, false),
    (Comparison::SignedLess, 0, 0, false, false),
    (Comparison::SignedLess, TWO_31, 0, false, true),
    (Comparison::SignedLess, LEAST, 0, true, false),
    (Comparison::SignedLessEqual, MINUS_ONE, 0, true, true),
    (Comparison::SignedLessEqual, 0, 0, true, true),
    (Comparison::SignedLessEqual, 1, MINUS_ONE, false, false),
    (Comparison::SignedLessEqual, TWO_31, 0, false, true),
    (Comparison::SignedLessEqual, 0, LEAST, false, true),
];

const DIGITS: u64 = 0x0102_0304_0506_0708;

// Operation, operand and result.
type UnaryComputed = (Unary, u64, u64);

#[rattlefmt::skip]
const UNARY_OPERATIONS: &[UnaryComputed] = &[
    (Unary::Negate(Width::Full64), 1, MINUS_ONE),
    (Unary::Negate(Width::Full64), LEAST, LEAST),
    (Unary::Negate(Width::Low32), 1, 0xffff_ffff),
    (Unary::Negate(Width::Low32), TWO_32, 0),
    (Unary::SignExtend(Extension::Low8), 0x1_0000_007f, 0x7f),
    (Unary::SignExtend(Extension::Low8), 0x80, 0xffff_ff80),
    (Unary::SignExtend(Extension::Low8), MINUS_ONE, 0xffff_ffff),
    (Unary::SignExtend(Extension::Low16), 0x7fff, 0x7fff),
    (Unary::SignExtend(Extension::Low16), 0xabcd_8000, 0xffff_8000),
    (Unary::SignExtend(Extension::Full8), 0x17f, 0x7f),
    (Unary::SignExtend(Extension::Full8), 0x80, 0xffff_ffff_ffff_ff80),
    (Unary::SignExtend(Extension::Full16), 0x1_7fff, 0x7fff),
    (Unary::SignExtend(Extension::Full16), 0x8000, 0xffff_ffff_ffff_8000),
    (Unary::SignExtend(Extension::Full32), TWO_31, 0xffff_ffff_8000_0000),
    (Unary::SignExtend(Extension::Full32), 0x1_7fff_ffff, 0x7fff_ffff),
    (Unary::SignExtend(Extension::Full32), TWO_32, 0),
    (Unary::Reorder(ByteOrder::Little, SwapWidth::B16), DIGITS, 0x0708),
    (Unary::Reorder(ByteOrder::Little, SwapWidth::B32), DIGITS, 0x0506_0708),
    (Unary::Reorder(ByteOrder::Little, SwapWidth::B64), DIGITS, DIGITS),
    (Unary::Reorder(ByteOrder::Big, SwapWidth::B16), DIGITS, 0x0807),
    (Unary::Reorder(ByteOrder::Big, SwapWidth::B32), DIGITS, 0x0807_0605),
    (Unary::Reorder(ByteOrder::Big, SwapWidth::B64), DIGITS, 0x0807_0605_0403_0201),
    (Unary::Reorder(ByteOrder::Swap, SwapWidth::B16), DIGITS, 0x0807),
    (Unary::Reorder(ByteOrder::Swap, SwapWidth::B32), DIGITS, 0x0807_0605),
    (Unary::Reorder(ByteOrder::Swap, SwapWidth::B64), DIGITS, 0x0807_0605_0403_0201),
];

impl Holds for Computed {
    fn holds(&self, _: Global) -> bool {
        let (op, a, b, full, low) = self;
        compute(*op, Width::Full64, *a, *b) == *full && compute(*op, Width::Low32, *a, *b) == *low
    }
}

impl Holds for Compared {
    fn holds(&self, _: Global) -> bool {
        let (comparison, a, b, full, low) = self;
        compare(*comparison, Width::Full64, *a, *b) == *full
            && compare(*comparison, Width::Low32, *a, *b) == *low
    }
}

impl Holds for UnaryComputed {
    fn holds(&self, _: Global) -> bool {
        let (operation, a, wanted) = self;
        let found = match operation {
            Unary::Negate(width) => negate(*width, *a),
            Unary::SignExtend(extension) => sign_extend(*extension, *a),
            Unary::Reorder(order, span) => reorder(*order, *span, *a),
        };
        found == *wanted
    }
}

#[test]
fn numbers_at_the_ends(rt: HostRuntime) {
    hold_all(&rt, "arithmetic", ARITHMETIC);
    hold_all(&rt, "comparisons", COMPARISONS);
    hold_all(&rt, "unary operations", UNARY_OPERATIONS);
}
