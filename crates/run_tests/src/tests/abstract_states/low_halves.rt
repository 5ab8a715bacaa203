//! How tight limits of low halves are, for numbers with any upper half or a known one: examples
//! worked out by hand.

use super::changes::{Change, Look, Row, Set, refined, set_of};
use super::operations::Unary;
use crate::tests::rows::{Holds, hold_all};
use isa_model::{AluOp, ByteOrder, Comparison, Extension, SwapWidth, Width};
use reg_state::Scalar;
use std::alloc::Global;

const FULL: Width = Width::Full64;

const LOW: Width = Width::Low32;

/// Limits of low halves, unsigned and then signed.
type Limits = (u32, u32, i32, i32);

fn limits_of(scalar: Scalar) -> Limits {
    let low = scalar.range.low;
    (
        low.least,
        low.greatest,
        low.signed_least,
        low.signed_greatest,
    )
}

const ALL: Limits = (0, u32::MAX, i32::MIN, i32::MAX);

const BELOW: Limits = (0, 9, 0, 9);

const AT_MOST: Limits = (0, 10, 0, 10);

const SIGNED_BELOW: Limits = (0, u32::MAX, i32::MIN, 9);

const SIGNED_AT_MOST: Limits = (0, u32::MAX, i32::MIN, 10);

const ABOVE: Limits = (11, u32::MAX, i32::MIN, i32::MAX);

const AT_LEAST: Limits = (10, u32::MAX, i32::MIN, i32::MAX);

const SIGNED_ABOVE: Limits = (11, 0x7fff_ffff, 11, i32::MAX);

const SIGNED_AT_LEAST: Limits = (10, 0x7fff_ffff, 10, i32::MAX);

/// A comparison of the low half with 10, and the limits of the low half if it holds and if it does
/// not.
type Compared = (Comparison, Limits, Limits);

const COMPARISONS: &[Compared] = &[
    (Comparison::Equal, (10, 10, 10, 10), ALL),
    (Comparison::NotEqual, ALL, (10, 10, 10, 10)),
    (Comparison::Less, BELOW, AT_LEAST),
    (Comparison::LessEqual, AT_MOST, ABOVE),
    (Comparison::Greater, ABOVE, AT_MOST),
    (Comparison::GreaterEqual, AT_LEAST, BELOW),
    (Comparison::SignedLess, SIGNED_BELOW, SIGNED_AT_LEAST),
    (Comparison::SignedLessEqual, SIGNED_AT_MOST, SIGNED_ABOVE),
    (Comparison::SignedGreater, SIGNED_ABOVE, SIGNED_AT_MOST),
    (
        Comparison::SignedGreaterEqual,
        SIGNED_AT_LEAST,
        SIGNED_BELOW,
    ),
    (Comparison::AnyBit, (1, u32::MAX, i32::MIN, i32::MAX), ALL),
];

// Whether a comparison with 10 at 32 bits leaves these limits of all numbers, and nothing is known
// of the upper half.
fn leaves(comparison: Comparison, taken: bool, wanted: Limits) -> bool {
    match refined(comparison, LOW, taken, set_of(&EVERY), 10) {
        Some(set) => {
            let wide = set.range.wide;
            limits_of(set) == wanted && wide.least >> 32 == 0 && wide.greatest >> 32 == 0xffff_ffff
        }
        None => false,
    }
}

impl Holds for Compared {
    fn holds(&self, _: Global) -> bool {
        let (comparison, yes, no) = self;
        leaves(*comparison, true, *yes) && leaves(*comparison, false, *no)
    }
}

const EVERY: Set = Set::Any(FULL);

// This leaves the numbers with a low half below 10, and the next one those from 3 on.
const BELOW_TEN: Change = Change::Compare(Comparison::Less, LOW, true, 10);

const FROM_THREE: Change = Change::Compare(Comparison::GreaterEqual, LOW, true, 3);

const MINUS_FIVE: Change = Change::Alu(AluOp::Sub, FULL, 5);

const RAISED: Change = Change::Alu(AluOp::Lsh, FULL, 32);

#[rattlefmt::skip]
const OPERATIONS: &[Row] = &[
    (EVERY, &[BELOW_TEN, FROM_THREE], &[Look::Low(3, 9, 3, 9)]),
    (
        EVERY,
        &[BELOW_TEN, FROM_THREE, Change::Alu(AluOp::Add, FULL, 1)],
        &[Look::Low(4, 10, 4, 10)],
    ),
    (EVERY, &[BELOW_TEN, FROM_THREE, MINUS_FIVE], &[Look::Low(0, u32::MAX, -2, 4)]),
    (
        EVERY,
        &[BELOW_TEN, FROM_THREE, Change::Alu(AluOp::Mul, FULL, 3)],
        &[Look::Low(9, 27, 9, 27)],
    ),
    (
        EVERY,
        &[BELOW_TEN, FROM_THREE, Change::Alu(AluOp::Lsh, FULL, 4)],
        &[Look::Low(48, 144, 48, 144)],
    ),
    (
        EVERY,
        &[BELOW_TEN, FROM_THREE, Change::Alu(AluOp::And, FULL, u64::MAX)],
        &[Look::Low(0, 9, 0, 9)],
    ),
    // The bits that are shifted in from the upper half are not known.
    (
        EVERY,
        &[BELOW_TEN, FROM_THREE, Change::Alu(AluOp::Rsh, FULL, 4)],
        &[Look::Low(0, u32::MAX, i32::MIN, i32::MAX)],
    ),
    (EVERY, &[BELOW_TEN, FROM_THREE, Change::Itself(AluOp::Mov, LOW)], &[Look::Wide(3, 9)]),
    (
        EVERY,
        &[BELOW_TEN, FROM_THREE, RAISED, Change::Alu(AluOp::Rsh, FULL, 32)],
        &[Look::Wide(3, 9)],
    ),
    (
        EVERY,
        &[BELOW_TEN, FROM_THREE, MINUS_FIVE, Change::Unary(Unary::SignExtend(Extension::Full32))],
        &[Look::Signed(-2, 4)],
    ),
    (
        EVERY,
        &[BELOW_TEN, FROM_THREE, MINUS_FIVE, RAISED, Change::Alu(AluOp::Arsh, FULL, 32)],
        &[Look::Signed(-2, 4)],
    ),
    // The limits of the result narrow its known bits.
    (
        EVERY,
        &[BELOW_TEN, FROM_THREE, Change::Unary(Unary::SignExtend(Extension::Low16))],
        &[Look::Mask(15)],
    ),
    (
        EVERY,
        &[BELOW_TEN, FROM_THREE, Change::Unary(Unary::Reorder(ByteOrder::Little, SwapWidth::B32))],
        &[Look::Mask(15)],
    ),
];

/// Numbers with one upper half have limits by their low halves, and the other way round.
const ONE_UPPER_HALF: &[Row] = &[
    (
        Set::Between(0x5_0000_0000, 0x5_ffff_ffff),
        &[BELOW_TEN],
        &[Look::Wide(0x5_0000_0000, 0x5_0000_0009)],
    ),
    (
        Set::Between(0x5_0000_0003, 0x5_0000_0009),
        &[],
        &[Look::Low(3, 9, 3, 9)],
    ),
    (Set::One(0x5_0000_000a), &[BELOW_TEN], &[Look::Never]),
];

/// A comparison, the result that it never has for a low half of 5, and the number to compare with.
type Never = (Comparison, bool, u64);

const NEVER: &[Never] = &[
    (Comparison::Equal, true, 6),
    (Comparison::NotEqual, true, 5),
    (Comparison::Less, true, 5),
    (Comparison::LessEqual, true, 4),
    (Comparison::Greater, true, 5),
    (Comparison::GreaterEqual, true, 6),
    (Comparison::SignedLess, true, 0xffff_ffff),
    (Comparison::SignedLessEqual, true, 0x8000_0000),
    (Comparison::SignedGreater, false, 0xffff_ffff),
    (Comparison::SignedGreaterEqual, false, 0x8000_0000),
    (Comparison::AnyBit, false, 4),
];

// Whether there are numbers with a low half of 5 for which the comparison holds; where `taken` is
// false, for which it does not.
fn goes(comparison: Comparison, taken: bool, number: u64) -> bool {
    match refined(Comparison::Equal, LOW, true, set_of(&EVERY), 5) {
        Some(five) => refined(comparison, LOW, taken, five, number).is_some(),
        None => false,
    }
}

impl Holds for Never {
    fn holds(&self, _: Global) -> bool {
        let (comparison, never, number) = self;
        !goes(*comparison, *never, *number) && goes(*comparison, !*never, *number)
    }
}

#[test]
fn low_halves(rt: HostRuntime) {
    hold_all(&rt, "comparisons", COMPARISONS);
    hold_all(&rt, "operations", OPERATIONS);
    hold_all(&rt, "one upper half", ONE_UPPER_HALF);
    hold_all(&rt, "one result", NEVER);
}
