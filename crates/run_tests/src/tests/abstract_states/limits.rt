//! How tight limits are, on examples worked out by hand that are like what programs compute.

use super::operations::{Relation, Unary};
use crate::tests::rows::{Holds, hold_all};
use isa_model::{AluOp, ByteOrder, Extension, SwapWidth, Width};
use ranges::{Low, Range};
use reg_state::Domain;
use std::alloc::Global;

const FULL: Width = Width::Full64;

const LOW: Width = Width::Low32;

/// A set of numbers.
#[derive(Clone, Copy)]
enum Set {
    Any,
    One(u64),
    /// By its least and its greatest number.
    Between(u64, u64),
    /// By its least and its greatest number as signed ones.
    Signed(i64, i64),
    /// Numbers of 32 bits, by their least and greatest as signed ones of 32 bits.
    Signed32(i32, i32),
}

const BYTE: Set = Set::Between(0, 255);

const UNSIGNED_32: Set = Set::Between(0, 0xffff_ffff);

const MINUS_ONE: Set = Set::Signed(-1, -1);

fn range_of(set: Set) -> Range {
    match set {
        Set::One(number) => Range::constant(number),
        Set::Between(least, greatest) if least <= greatest => Range::between(least, greatest),
        Set::Signed(least, greatest) if least <= greatest => {
            Range::signed_between(least, greatest)
        }
        Set::Signed32(least, greatest) if least <= greatest => Range {
            wide: Range::any(LOW).wide,
            low: Low {
                least: 0,
                greatest: u32::MAX,
                signed_least: least,
                signed_greatest: greatest,
            },
        },
        _ => Range::any(FULL),
    }
}

/// Limits, unsigned and then signed, and the number if there is only one.
type Limits = (u64, u64, i64, i64, Option<u64>);

type Limited = (Set, Limits);

const LIMITS: &[Limited] = &[
    (Set::Any, (0, u64::MAX, i64::MIN, i64::MAX, None)),
    (UNSIGNED_32, (0, 0xffff_ffff, 0, 0xffff_ffff, None)),
    (Set::One(7), (7, 7, 7, 7, Some(7))),
    (
        Set::One(u64::MAX),
        (u64::MAX, u64::MAX, -1, -1, Some(u64::MAX)),
    ),
    (BYTE, (0, 255, 0, 255, None)),
    (
        Set::Between(5, 0x8000_0000_0000_0003),
        (5, 0x8000_0000_0000_0003, i64::MIN, i64::MAX, None),
    ),
    (Set::Signed(-10, 5), (0, u64::MAX, -10, 5, None)),
    (
        Set::Signed(i64::MAX - 1, i64::MAX),
        (
            0x7fff_ffff_ffff_fffe,
            0x7fff_ffff_ffff_ffff,
            i64::MAX - 1,
            i64::MAX,
            None,
        ),
    ),
];

fn limits_of(range: Range) -> Limits {
    (
        range.wide.least,
        range.wide.greatest,
        range.wide.signed_least,
        range.wide.signed_greatest,
        range.number(),
    )
}

impl Holds for Limited {
    fn holds(&self, _: Global) -> bool {
        let (set, wanted) = self;
        limits_of(range_of(*set)) == *wanted
    }
}

/// An operation, its width, both operands and the result.
type Operation = (AluOp, Width, Set, Set, Set);

const RESULTS: &[Operation] = &[
    // A header length of 0 to 60 bytes after 14 others.
    (AluOp::And, FULL, BYTE, Set::One(15), Set::Between(0, 15)),
    (
        AluOp::Lsh,
        FULL,
        Set::Between(0, 15),
        Set::One(2),
        Set::Between(0, 60),
    ),
    (
        AluOp::Add,
        FULL,
        Set::Between(0, 60),
        Set::One(14),
        Set::Between(14, 74),
    ),
    (AluOp::Mul, FULL, BYTE, Set::One(6), Set::Between(0, 1530)),
    // A result that may be below 0 has signed limits only.
    (AluOp::Sub, FULL, BYTE, Set::One(10), Set::Signed(-10, 245)),
    (AluOp::Sub, LOW, BYTE, Set::One(10), Set::Signed32(-10, 245)),
    (
        AluOp::Add,
        FULL,
        Set::Signed(-10, 5),
        Set::One(3),
        Set::Signed(-7, 8),
    ),
    // A sum that may wrap as a signed number has no signed limits.
    (
        AluOp::Add,
        FULL,
        Set::Between(0x7fff_ffff_ffff_fffe, 0x7fff_ffff_ffff_ffff),
        Set::Between(0, 2),
        Set::Between(0x7fff_ffff_ffff_fffe, 0x8000_0000_0000_0001),
    ),
    (
        AluOp::And,
        FULL,
        Set::Any,
        Set::One(15),
        Set::Between(0, 15),
    ),
    (
        AluOp::Rsh,
        FULL,
        Set::Any,
        Set::One(48),
        Set::Between(0, 0xffff),
    ),
    (AluOp::Mov, LOW, Set::Any, Set::Any, UNSIGNED_32),
    (AluOp::Lsh, FULL, BYTE, Set::One(64), BYTE),
    (AluOp::Rsh, FULL, BYTE, Set::Any, BYTE),
    (
        AluOp::Arsh,
        FULL,
        Set::Signed(-256, 255),
        Set::One(4),
        Set::Signed(-16, 15),
    ),
    (AluOp::Arsh, LOW, BYTE, Set::One(4), Set::Between(0, 15)),
    (
        AluOp::Div,
        FULL,
        BYTE,
        Set::Between(2, 3),
        Set::Between(0, 127),
    ),
    (
        AluOp::Mod,
        FULL,
        Set::Any,
        Set::One(100),
        Set::Between(0, 99),
    ),
    // Numbers with the same upper half keep their distances.
    (
        AluOp::Mov,
        LOW,
        Set::Between(0x5_0000_0003, 0x5_0000_0009),
        Set::Between(0x5_0000_0003, 0x5_0000_0009),
        Set::Between(3, 9),
    ),
    (AluOp::Mov, FULL, BYTE, Set::Any, Set::Any),
    (AluOp::Xor, FULL, Set::One(6), Set::One(5), Set::One(3)),
];

impl Holds for Operation {
    fn holds(&self, _: Global) -> bool {
        let (op, width, a, b, wanted) = self;
        Range::alu(*op, *width, range_of(*a), range_of(*b)) == range_of(*wanted)
    }
}

/// An operation, its operand and the result.
type UnaryOperation = (Unary, Set, Set);

const UNARY_OPERATIONS: &[UnaryOperation] = &[
    (Unary::Negate(FULL), BYTE, Set::Signed(-255, 0)),
    (
        Unary::Reorder(ByteOrder::Big, SwapWidth::B16),
        Set::Any,
        Set::Between(0, 0xffff),
    ),
    (
        Unary::Reorder(ByteOrder::Little, SwapWidth::B32),
        BYTE,
        BYTE,
    ),
    (
        Unary::SignExtend(Extension::Low8),
        Set::Between(3, 100),
        Set::Between(3, 100),
    ),
    (
        Unary::SignExtend(Extension::Full8),
        Set::Any,
        Set::Signed(-128, 127),
    ),
    (
        Unary::SignExtend(Extension::Full16),
        Set::Any,
        Set::Signed(-32768, 32767),
    ),
    (
        Unary::SignExtend(Extension::Full32),
        Set::Any,
        Set::Signed(-2147483648, 2147483647),
    ),
    (
        Unary::SignExtend(Extension::Full8),
        Set::Signed(-5, 3),
        Set::Signed(-5, 3),
    ),
];

fn unary_of(operation: &Unary, a: Range) -> Range {
    match operation {
        Unary::Negate(width) => Domain::negate(*width, a),
        Unary::SignExtend(extension) => Domain::sign_extend(*extension, a),
        Unary::Reorder(order, span) => Domain::reorder(*order, *span, a),
    }
}

impl Holds for UnaryOperation {
    fn holds(&self, _: Global) -> bool {
        let (operation, a, wanted) = self;
        unary_of(operation, range_of(*a)) == range_of(*wanted)
    }
}

/// Two sets, their common members, and whether the first covers the second.
type Common = (Set, Set, Option<Set>, bool);

const COMMON: &[Common] = &[
    (
        BYTE,
        Set::Between(200, 1000),
        Some(Set::Between(200, 255)),
        false,
    ),
    (BYTE, Set::One(256), None, false),
    // Each pair of limits is narrowed by the other.
    (BYTE, Set::Signed(-5, 10), Some(Set::Between(0, 10)), false),
    // No number with the sign bit is left, and then none below 5.
    (
        Set::Between(5, 0x8000_0000_0000_0003),
        Set::Signed(-0x7fff_ffff_ffff_0000, 10),
        Some(Set::Between(5, 10)),
        false,
    ),
    (UNSIGNED_32, BYTE, Some(BYTE), true),
    (BYTE, BYTE, Some(BYTE), true),
];

fn range_if(set: Option<Set>) -> Option<Range> {
    match set {
        Some(set) => Some(range_of(set)),
        None => None,
    }
}

impl Holds for Common {
    fn holds(&self, _: Global) -> bool {
        let (a, b, wanted, is_covered) = self;
        let (a, b) = (range_of(*a), range_of(*b));
        Domain::meet(a, b) == range_if(*wanted) && Domain::covers(a, b) == *is_covered
    }
}

const TEN: Set = Set::One(10);

const ZERO: Set = Set::One(0);

const ONE: Set = Set::One(1);

const BIT: Set = Set::Between(0, 1);

const MINUS_TWO: Set = Set::One(u64::MAX - 1);

/// A relation of two numbers (disjoint: no bit is 1 in both), two sets, and what it leaves of both.
type Related = (Relation, Set, Set, Option<(Set, Set)>);

#[rattlefmt::skip]
const RELATIONS: &[Related] = &[
    (Relation::Below, BYTE, TEN, Some((Set::Between(0, 9), TEN))),
    (Relation::Below, TEN, BYTE, Some((TEN, Set::Between(11, 255)))),
    (Relation::Below, TEN, TEN, None),
    (Relation::AtMost, TEN, TEN, Some((TEN, TEN))),
    (Relation::AtMost, BYTE, TEN, Some((Set::Between(0, 10), TEN))),
    (Relation::SignedBelow, MINUS_ONE, BYTE, Some((MINUS_ONE, BYTE))),
    (Relation::SignedBelow, BYTE, MINUS_ONE, None),
    (Relation::SignedAtMost, BYTE, MINUS_ONE, None),
    (Relation::SignedAtMost, TEN, TEN, Some((TEN, TEN))),
    (Relation::Unequal, BYTE, ZERO, Some((Set::Between(1, 255), ZERO))),
    (Relation::Unequal, Set::Signed(-2, 5), MINUS_TWO, Some((Set::Signed(-1, 5), MINUS_TWO))),
    (Relation::Unequal, TEN, TEN, None),
    (Relation::Overlapping, BYTE, TEN, Some((Set::Between(1, 255), TEN))),
    (Relation::Disjoint, TEN, TEN, None),
    (Relation::Disjoint, BYTE, TEN, Some((BYTE, TEN))),
    (Relation::Below, BIT, ONE, Some((ZERO, ONE))),
    (Relation::AtMost, BIT, ZERO, Some((ZERO, ZERO))),
    (Relation::SignedBelow, BIT, ONE, Some((ZERO, ONE))),
    (Relation::SignedAtMost, BIT, ZERO, Some((ZERO, ZERO))),
    (Relation::Unequal, BIT, ZERO, Some((ONE, ZERO))),
    (Relation::Overlapping, BIT, ONE, Some((ONE, ONE))),
    (Relation::AtMost, Set::Any, Set::One(9), Some((Set::Between(0, 9), Set::One(9)))),
];

fn ranges_if(sets: Option<(Set, Set)>) -> Option<(Range, Range)> {
    match sets {
        Some((a, b)) => Some((range_of(a), range_of(b))),
        None => None,
    }
}

/// Returns what a relation leaves of two sets.
fn related(relation: &Relation, a: Range, b: Range) -> Option<(Range, Range)> {
    match relation {
        Relation::Equal => Domain::equal(a, FULL, b),
        Relation::Below => Domain::below(a, FULL, b),
        Relation::AtMost => Domain::at_most(a, FULL, b),
        Relation::SignedBelow => Domain::signed_below(a, FULL, b),
        Relation::SignedAtMost => Domain::signed_at_most(a, FULL, b),
        Relation::Unequal => Domain::unequal(a, FULL, b),
        Relation::Disjoint => Domain::disjoint(a, FULL, b),
        Relation::Overlapping => Domain::overlapping(a, FULL, b),
    }
}

impl Holds for Related {
    fn holds(&self, _: Global) -> bool {
        let (relation, a, b, wanted) = self;
        related(relation, range_of(*a), range_of(*b)) == ranges_if(*wanted)
    }
}

fn are_widths() -> bool {
    Range::any(LOW) == range_of(UNSIGNED_32)
}

#[test]
fn limits(rt: HostRuntime) {
    hold_all(&rt, "sets", LIMITS);
    hold_all(&rt, "results", RESULTS);
    hold_all(&rt, "unary operations", UNARY_OPERATIONS);
    hold_all(&rt, "common numbers", COMMON);
    hold_all(&rt, "relations", RELATIONS);
    assert!(rt; are_widths());
}
