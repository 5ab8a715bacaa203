//! How sharp both domains together are: examples worked out by hand.

use super::changes::{Change, Look, Row, Set, refined, set_of};
use super::operations::Unary;
use crate::tests::rows::{Holds, hold_all};
use isa_model::{AluOp, ByteOrder, Comparison, Extension, SwapWidth, Width};
use reg_state::{Domain, Scalar};
use std::alloc::Global;

const FULL: Width = Width::Full64;

const LOW: Width = Width::Low32;

const BYTE: Set = Set::Between(0, 255);

const ALL: Set = Set::Any(FULL);

const UNSIGNED_32: Set = Set::Any(LOW);

const FIVE: Set = Set::One(5);

const EVEN: Change = Change::Alu(AluOp::Lsh, FULL, 1);

#[rattlefmt::skip]
const OPERATIONS: &[Row] = &[
    // A header length of 0 to 60 bytes after 14 others.
    (
        BYTE,
        &[Change::Alu(AluOp::And, FULL, 15), Change::Alu(AluOp::Lsh, FULL, 2)],
        &[Look::Wide(0, 60), Look::Mask(60)],
    ),
    (
        BYTE,
        &[
            Change::Alu(AluOp::And, FULL, 15),
            Change::Alu(AluOp::Lsh, FULL, 2),
            Change::Alu(AluOp::Add, FULL, 14),
        ],
        &[Look::Wide(14, 74)],
    ),
    (BYTE, &[Change::Alu(AluOp::Mul, FULL, 6)], &[Look::GreatestAtMost(1530), Look::Even]),
    (BYTE, &[Change::Alu(AluOp::Sub, FULL, 10)], &[Look::Signed(-10, 245)]),
    (BYTE, &[Change::Unary(Unary::Negate(FULL))], &[Look::Signed(-255, 0)]),
    (ALL, &[Change::Alu(AluOp::And, FULL, 15)], &[Look::Wide(0, 15)]),
    (ALL, &[Change::Itself(AluOp::Mov, LOW)], &[Look::Wide(0, 0xffff_ffff)]),
    (
        ALL,
        &[Change::Unary(Unary::Reorder(ByteOrder::Big, SwapWidth::B16))],
        &[Look::Wide(0, 0xffff)],
    ),
    (ALL, &[Change::Alu(AluOp::Rsh, FULL, 48)], &[Look::Wide(0, 0xffff)]),
    (BYTE, &[Change::Alu(AluOp::Xor, FULL, 0x30)], &[Look::Wide(0, 255)]),
    (ALL, &[Change::Unary(Unary::SignExtend(Extension::Full8))], &[Look::Signed(-128, 127)]),
    // An even number stays even. If the sign bit is not known, the least member has it and no other
    // bit.
    (ALL, &[EVEN, Change::Unary(Unary::SignExtend(Extension::Full8))], &[Look::Even]),
    (
        ALL,
        &[Change::Alu(AluOp::And, FULL, 0x8000_0000_0000_000f)],
        &[Look::Signed(i64::MIN, 15)],
    ),
];

#[rattlefmt::skip]
const COMMON_MEMBERS: &[Row] = &[
    // Limits narrow known bits, and one member that is left is a constant.
    (ALL, &[EVEN, Change::Meet(Set::Between(8, 9))], &[Look::Is(Set::One(8))]),
    (ALL, &[EVEN, Change::Meet(Set::One(7))], &[Look::Never]),
    // Known bits leave 0 and 2, and of these the limits leave 2.
    (
        ALL,
        &[
            Change::Alu(AluOp::And, FULL, 11),
            Change::Compare(Comparison::Less, FULL, false, 2),
            Change::MeetMasked(6),
        ],
        &[Look::Is(Set::One(2))],
    ),
];

#[rattlefmt::skip]
const JUMPS: &[Row] = &[
    (ALL, &[Change::Compare(Comparison::Less, FULL, true, 10)], &[Look::Wide(0, 9)]),
    (
        ALL,
        &[Change::Compare(Comparison::Less, FULL, true, 10), Change::Alu(AluOp::Add, FULL, 1)],
        &[Look::Wide(1, 10)],
    ),
    (ALL, &[Change::Compare(Comparison::Less, FULL, false, 10)], &[Look::Wide(10, u64::MAX)]),
    (
        ALL,
        &[Change::Compare(Comparison::SignedLess, FULL, false, 0)],
        &[Look::Signed(0, i64::MAX), Look::Wide(0, 0x7fff_ffff_ffff_ffff)],
    ),
    (
        ALL,
        &[Change::Compare(Comparison::AnyBit, FULL, false, 1)],
        &[Look::Ones(0), Look::Mask(u64::MAX - 1)],
    ),
    (ALL, &[Change::Compare(Comparison::Equal, FULL, true, 5)], &[Look::Is(Set::One(5))]),
    (FIVE, &[Change::Compare(Comparison::Less, FULL, true, 5)], &[Look::Never]),
    (FIVE, &[Change::Compare(Comparison::Less, FULL, false, 5)], &[Look::Is(FIVE)]),
    // The low half of 2^32 + 5 is 5.
    (FIVE, &[Change::Compare(Comparison::NotEqual, LOW, true, 0x1_0000_0005)], &[Look::Never]),
    (FIVE, &[Change::Compare(Comparison::NotEqual, FULL, true, 0x1_0000_0005)], &[Look::Is(FIVE)]),
    // For a number whose upper half is not known, a comparison of low halves narrows the low half.
    (
        ALL,
        &[Change::Compare(Comparison::Less, LOW, true, 10)],
        &[Look::Wide(0, 0xffff_ffff_0000_0009)],
    ),
    (
        ALL,
        &[Change::Compare(Comparison::Equal, LOW, true, 5)],
        &[Look::Wide(5, 0xffff_ffff_0000_0005)],
    ),
    (
        UNSIGNED_32,
        &[Change::Compare(Comparison::Less, LOW, true, 10)],
        &[Look::Is(Set::Between(0, 9))],
    ),
    // 0xffff_ffff is -1 as a signed number of 32 bits.
    (
        UNSIGNED_32,
        &[Change::Compare(Comparison::SignedLess, LOW, true, 0)],
        &[Look::Is(Set::Between(0x8000_0000, 0xffff_ffff))],
    ),
    (BYTE, &[Change::Compare(Comparison::SignedLess, LOW, true, 0xffff_ffff)], &[Look::Never]),
    (BYTE, &[Change::Compare(Comparison::SignedGreater, LOW, true, u64::MAX)], &[Look::Is(BYTE)]),
];

/// A set, its number, if it has only one, and its greatest member.
type Single = (Set, Option<u64>, u64);

const SINGLE: &[Single] = &[
    (Set::One(8), Some(8), 8),
    (Set::Between(8, 8), Some(8), 8),
    (BYTE, None, 255),
];

impl Holds for Single {
    fn holds(&self, _: Global) -> bool {
        let (set, number, greatest) = self;
        let set = set_of(set);
        set.number() == *number && set.greatest() == *greatest
    }
}

// A byte covers 7, and the even numbers do not cover a byte.
fn are_covered() -> bool {
    let byte = set_of(&BYTE);
    let even = Scalar::alu(AluOp::Lsh, FULL, Scalar::any(FULL), Scalar::constant(1));
    byte.covers(Scalar::constant(7)) && !even.covers(byte)
}

// What the comparison of a byte with a number leaves of the byte, by its limits.
fn left_of_byte(comparison: Comparison, taken: bool, number: u64) -> Option<Limits> {
    match refined(comparison, FULL, taken, set_of(&BYTE), number) {
        Some(set) => Some((set.range.wide.least, set.range.wide.greatest)),
        None => None,
    }
}

const BELOW: Option<Limits> = Some((0, 9));

const AT_MOST: Option<Limits> = Some((0, 10));

const AT_LEAST: Option<Limits> = Some((10, 255));

const ABOVE: Option<Limits> = Some((11, 255));

/// A comparison and a number, and what it leaves of a byte if it holds and if it does not.
type Compared = (Comparison, u64, Option<Limits>, Option<Limits>);

const COMPARISONS: &[Compared] = &[
    (Comparison::Equal, 10, Some((10, 10)), Some((0, 255))),
    (Comparison::NotEqual, 10, Some((0, 255)), Some((10, 10))),
    (Comparison::Greater, 10, ABOVE, AT_MOST),
    (Comparison::GreaterEqual, 10, AT_LEAST, BELOW),
    (Comparison::Less, 10, BELOW, AT_LEAST),
    (Comparison::LessEqual, 10, AT_MOST, ABOVE),
    (Comparison::SignedGreater, 10, ABOVE, AT_MOST),
    (Comparison::SignedGreaterEqual, 10, AT_LEAST, BELOW),
    (Comparison::SignedLess, 10, BELOW, AT_LEAST),
    (Comparison::SignedLessEqual, 10, AT_MOST, ABOVE),
    // Either 8 or 2 may be the common bit: only 0 is ruled out.
    (Comparison::AnyBit, 10, Some((1, 255)), Some((0, 245))),
    // A number at a limit that is ruled out narrows the limit.
    (Comparison::NotEqual, 0, Some((1, 255)), ZERO),
];

impl Holds for Compared {
    fn holds(&self, _: Global) -> bool {
        let (comparison, number, goes, stays) = self;
        left_of_byte(*comparison, true, *number) == *goes
            && left_of_byte(*comparison, false, *number) == *stays
    }
}

/// The least and the greatest number.
type Limits = (u64, u64);

/// A comparison and whether it holds, a set and the number that it is compared with, and what is
/// left of the set.
type Narrowing = (Comparison, bool, Limits, u64, Option<Limits>);

const BIT: Limits = (0, 1);

const ANY: Limits = (0, u64::MAX);

const ZERO: Option<Limits> = Some((0, 0));

const ONE: Option<Limits> = Some((1, 1));

/// The pairs that both domains narrow together; the tests of each domain have what it leaves by
/// itself.
const NARROWINGS: &[Narrowing] = &[
    (Comparison::Less, true, BIT, 1, ZERO),
    (Comparison::LessEqual, true, BIT, 0, ZERO),
    (Comparison::SignedLess, true, BIT, 1, ZERO),
    (Comparison::SignedLess, true, BIT, 0, None),
    (Comparison::SignedLessEqual, true, BIT, 0, ZERO),
    (Comparison::SignedLessEqual, false, BIT, 1, None),
    (Comparison::NotEqual, true, BIT, 0, ONE),
    (Comparison::AnyBit, true, BIT, 1, ONE),
    (Comparison::AnyBit, false, BIT, 1, ZERO),
    (Comparison::LessEqual, true, ANY, 9, Some((0, 9))),
];

fn between(limits: Limits) -> Scalar {
    set_of(&Set::Between(limits.0, limits.1))
}

impl Holds for Narrowing {
    fn holds(&self, _: Global) -> bool {
        let (comparison, taken, limits, number, wanted) = self;
        match refined(*comparison, FULL, *taken, between(*limits), *number) {
            Some(left) => match wanted {
                Some(wanted) => left == between(*wanted),
                None => false,
            },
            None => wanted.is_none(),
        }
    }
}

#[test]
fn scalars(rt: HostRuntime) {
    hold_all(&rt, "operations", OPERATIONS);
    hold_all(&rt, "common members", COMMON_MEMBERS);
    hold_all(&rt, "jumps", JUMPS);
    hold_all(&rt, "single numbers", SINGLE);
    hold_all(&rt, "comparisons", COMPARISONS);
    hold_all(&rt, "both domains", NARROWINGS);
    assert!(rt; are_covered());
}
