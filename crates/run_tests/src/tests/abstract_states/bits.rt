//! How sharp known bits are, on examples worked out by hand that are like what programs compute.

use super::operations::{Relation, Unary};
use crate::tests::rows::{Holds, hold_all};
use isa_model::{AluOp, ByteOrder, Extension, SwapWidth, Width};
use known_bits::Bits;
use reg_state::Domain;
use std::alloc::Global;

const FULL: Width = Width::Full64;

const LOW: Width = Width::Low32;

/// A value and a mask. An unknown bit has a 1 in the mask and a 0 in the value.
type Pair = (u64, u64);

const ANY: Pair = (0, u64::MAX);

const BYTE: Pair = (0, 0xff);

/// The numbers of 64 bits from 2^64 - 256 on.
const TOP: Pair = (0xffff_ffff_ffff_ff00, 0xff);

fn alu(op: AluOp, width: Width, a: Bits, b: Bits) -> Bits {
    Bits::alu(op, width, a, b)
}

/// The known bits with this value and this mask.
fn bits_of(pair: Pair) -> Bits {
    let unknown = alu(AluOp::And, FULL, Bits::any(FULL), Bits::constant(pair.1));
    alu(AluOp::Or, FULL, unknown, Bits::constant(pair.0))
}

fn pair_of(bits: Bits) -> Pair {
    (bits.value, bits.mask)
}

/// An operation, its width, both operands and the result.
type Operation = (AluOp, Width, Pair, Pair, Pair);

const RESULTS: &[Operation] = &[
    (AluOp::And, FULL, BYTE, (15, 0), (0, 15)),
    // A header length: 0, 4, .. 60, and 14 more: each is 2 above a multiple of 4, and at most 126.
    (AluOp::Lsh, FULL, (0, 15), (2, 0), (0, 60)),
    (AluOp::Add, FULL, (0, 60), (14, 0), (2, 0x7c)),
    // A byte times six is even and below 2,048.
    (AluOp::Mul, FULL, BYTE, (6, 0), (0, 0x7fe)),
    // A difference may borrow, and then any bit may be 1.
    (AluOp::Sub, FULL, BYTE, (10, 0), ANY),
    (AluOp::And, FULL, ANY, (15, 0), (0, 15)),
    (AluOp::Or, FULL, BYTE, (0x30, 0), (0x30, 0xcf)),
    (AluOp::Xor, FULL, BYTE, (0x30, 0), BYTE),
    (AluOp::Mov, LOW, ANY, ANY, (0, 0xffff_ffff)),
    (AluOp::Rsh, FULL, ANY, (48, 0), (0, 0xffff)),
    // A shift by 64 changes nothing.
    (AluOp::Lsh, FULL, BYTE, (64, 0), BYTE),
    (AluOp::Lsh, FULL, BYTE, ANY, ANY),
    // 0x8000_00?? is shifted by four bits, and keeps its sign.
    (
        AluOp::Arsh,
        LOW,
        (0x8000_0000, 0xff),
        (4, 0),
        (0xf800_0000, 0xf),
    ),
    (AluOp::Div, LOW, ANY, (3, 0), (0, 0xffff_ffff)),
    (AluOp::And, FULL, ANY, (u64::MAX - 1, 0), (0, u64::MAX - 1)),
];

impl Holds for Operation {
    fn holds(&self, _: Global) -> bool {
        let (op, width, a, b, wanted) = self;
        pair_of(alu(*op, *width, bits_of(*a), bits_of(*b))) == *wanted
    }
}

/// An operation, its operand and the result.
type UnaryOperation = (Unary, Pair, Pair);

const UNARY_OPERATIONS: &[UnaryOperation] = &[
    (
        Unary::SignExtend(Extension::Full8),
        (0x80, 0x7f),
        (0xffff_ffff_ffff_ff80, 0x7f),
    ),
    (Unary::SignExtend(Extension::Full8), (0, 0x7f), (0, 0x7f)),
    (
        Unary::SignExtend(Extension::Low16),
        (0x8000, 0),
        (0xffff_8000, 0),
    ),
    (
        Unary::Reorder(ByteOrder::Big, SwapWidth::B16),
        ANY,
        (0, 0xffff),
    ),
    (
        Unary::Reorder(ByteOrder::Little, SwapWidth::B32),
        ANY,
        (0, 0xffff_ffff),
    ),
    (
        Unary::Reorder(ByteOrder::Swap, SwapWidth::B16),
        (0x1234, 0),
        (0x3412, 0),
    ),
    (Unary::Negate(LOW), (1, 0), (0xffff_ffff, 0)),
];

fn unary_of(operation: &Unary, a: Bits) -> Bits {
    match operation {
        Unary::Negate(width) => Domain::negate(*width, a),
        Unary::SignExtend(extension) => Domain::sign_extend(*extension, a),
        Unary::Reorder(order, span) => Domain::reorder(*order, *span, a),
    }
}

impl Holds for UnaryOperation {
    fn holds(&self, _: Global) -> bool {
        let (operation, a, wanted) = self;
        pair_of(unary_of(operation, bits_of(*a))) == *wanted
    }
}

/// The four limits of a set, and its number if it has only one.
type Limits = (u64, u64, i64, i64, Option<u64>);

type Limited = (Pair, Limits);

const LIMITS: &[Limited] = &[
    (BYTE, (0, 255, 0, 255, None)),
    ((7, 0), (7, 7, 7, 7, Some(7))),
    (TOP, (0xffff_ffff_ffff_ff00, u64::MAX, -256, -1, None)),
    (ANY, (0, u64::MAX, i64::MIN, i64::MAX, None)),
];

fn limits_of(pair: Pair) -> Limits {
    let bits = bits_of(pair);
    (
        bits.least(),
        bits.greatest(),
        bits.signed_least(),
        bits.signed_greatest(),
        bits.number(),
    )
}

impl Holds for Limited {
    fn holds(&self, _: Global) -> bool {
        let (pair, wanted) = self;
        limits_of(*pair) == *wanted
    }
}

const EVEN: Pair = (0, u64::MAX - 1);

/// Two sets, their common members, and whether the first covers the second.
type Common = (Pair, Pair, Option<Pair>, bool);

const COMMON: &[Common] = &[
    (BYTE, EVEN, Some((0, 0xfe)), false),
    (EVEN, BYTE, Some((0, 0xfe)), false),
    ((1, 0), EVEN, None, false),
    (EVEN, (6, 0), Some((6, 0)), true),
    (BYTE, BYTE, Some(BYTE), true),
];

fn common_pair(a: Pair, b: Pair) -> Option<Pair> {
    match Domain::meet(bits_of(a), bits_of(b)) {
        Some(both) => Some(pair_of(both)),
        None => None,
    }
}

impl Holds for Common {
    fn holds(&self, _: Global) -> bool {
        let (a, b, wanted, is_covered) = self;
        common_pair(*a, *b) == *wanted && Domain::covers(bits_of(*a), bits_of(*b)) == *is_covered
    }
}

/// The numbers from one to another, as bits.
type Between = (u64, u64, Pair);

const BETWEEN: &[Between] = &[
    (0, 7, (0, 7)),
    (0, 0xff, BYTE),
    (0x80, 0xff, (0x80, 0x7f)),
    (0x8000_0000, 0x8000_00ff, (0x8000_0000, 0xff)),
    (0xffff_ffff_ffff_ff00, u64::MAX, TOP),
];

impl Holds for Between {
    fn holds(&self, _: Global) -> bool {
        let (least, greatest, wanted) = self;
        *least <= *greatest && pair_of(Bits::between(*least, *greatest)) == *wanted
    }
}

fn are_widths() -> bool {
    pair_of(Bits::any(FULL)) == ANY && pair_of(Bits::any(LOW)) == (0, 0xffff_ffff)
}

const TEN: Pair = (10, 0);

const MINUS_ONE: Pair = (u64::MAX, 0);

const ZERO: Pair = (0, 0);

const ONE: Pair = (1, 0);

/// One bit that is not known.
const BIT: Pair = (0, 1);

const GREAT: Pair = (0xffff_ffff_ffff_ff00, 0);

const UNSIGNED_32: Pair = (0, 0xffff_ffff);

/// A number whose low half is 7, and one whose low half is 8.
const SEVEN: Pair = (0x5_0000_0007, 0);

const EIGHT: Pair = (0x5_0000_0008, 0);

/// A relation, the width at which members are read, two sets, and what it leaves of both. A set
/// with a number of 2^32 or more stays as it is if only low halves are read.
type Related = (Relation, Width, Pair, Pair, Option<(Pair, Pair)>);

#[rattlefmt::skip]
const RELATIONS: &[Related] = &[
    (Relation::Below, FULL, BYTE, TEN, Some(((0, 15), TEN))),
    (Relation::Below, FULL, TEN, (0, 7), None),
    // The numbers above a number with leading ones have these too.
    (Relation::Below, FULL, GREAT, ANY, Some((GREAT, TOP))),
    (Relation::AtMost, FULL, GREAT, ANY, Some((GREAT, TOP))),
    (Relation::AtMost, FULL, BYTE, (7, 0), Some(((0, 7), (7, 0)))),
    (Relation::SignedBelow, FULL, MINUS_ONE, BYTE, Some((MINUS_ONE, BYTE))),
    (Relation::SignedBelow, FULL, BYTE, MINUS_ONE, None),
    (Relation::SignedAtMost, FULL, TEN, MINUS_ONE, None),
    (Relation::SignedAtMost, FULL, TEN, TEN, Some((TEN, TEN))),
    (Relation::Unequal, FULL, TEN, TEN, None),
    (Relation::Unequal, FULL, TEN, BYTE, Some((TEN, BYTE))),
    (Relation::Disjoint, FULL, BYTE, (16, 0), Some(((0, 0xef), (16, 0)))),
    (Relation::Overlapping, FULL, BYTE, (16, 0), Some(((16, 0xef), (16, 0)))),
    (Relation::Overlapping, FULL, TEN, (5, 0), None),
    (Relation::Disjoint, FULL, TEN, TEN, None),
    (Relation::Below, FULL, BIT, ONE, Some((ZERO, ONE))),
    (Relation::AtMost, FULL, BIT, ZERO, Some((ZERO, ZERO))),
    (Relation::Overlapping, FULL, BIT, ONE, Some((ONE, ONE))),
    (Relation::Disjoint, FULL, BIT, ONE, Some((ZERO, ONE))),
    (Relation::SignedBelow, FULL, BIT, ZERO, None),
    (Relation::SignedBelow, FULL, ONE, BIT, None),
    (Relation::AtMost, FULL, ANY, (9, 0), Some(((0, 15), (9, 0)))),
    (Relation::Equal, LOW, UNSIGNED_32, SEVEN, Some(((7, 0), SEVEN))),
    (Relation::Equal, LOW, SEVEN, UNSIGNED_32, Some((SEVEN, (7, 0)))),
    (Relation::Equal, LOW, SEVEN, EIGHT, None),
    (Relation::Equal, LOW, ANY, SEVEN, Some((ANY, SEVEN))),
    (Relation::Below, LOW, UNSIGNED_32, EIGHT, Some(((0, 7), EIGHT))),
    (Relation::AtMost, LOW, UNSIGNED_32, SEVEN, Some(((0, 7), SEVEN))),
    (Relation::Disjoint, LOW, SEVEN, UNSIGNED_32, Some((SEVEN, (0, 0xffff_fff8)))),
    (Relation::Overlapping, LOW, UNSIGNED_32, EIGHT, Some(((8, 0xffff_fff7), EIGHT))),
];

/// Returns what a relation leaves of two sets, where members are read at a width.
fn related(relation: &Relation, width: Width, a: Bits, b: Bits) -> Option<(Bits, Bits)> {
    match relation {
        Relation::Equal => Domain::equal(a, width, b),
        Relation::Below => Domain::below(a, width, b),
        Relation::AtMost => Domain::at_most(a, width, b),
        Relation::SignedBelow => Domain::signed_below(a, width, b),
        Relation::SignedAtMost => Domain::signed_at_most(a, width, b),
        Relation::Unequal => Domain::unequal(a, width, b),
        Relation::Disjoint => Domain::disjoint(a, width, b),
        Relation::Overlapping => Domain::overlapping(a, width, b),
    }
}

impl Holds for Related {
    fn holds(&self, _: Global) -> bool {
        let (relation, width, a, b, wanted) = self;
        match related(relation, *width, bits_of(*a), bits_of(*b)) {
            Some((a, b)) => *wanted == Some((pair_of(a), pair_of(b))),
            None => wanted.is_none(),
        }
    }
}

#[test]
fn known_bits(rt: HostRuntime) {
    hold_all(&rt, "results", RESULTS);
    hold_all(&rt, "unary operations", UNARY_OPERATIONS);
    hold_all(&rt, "limits", LIMITS);
    hold_all(&rt, "common numbers", COMMON);
    hold_all(&rt, "numbers between", BETWEEN);
    hold_all(&rt, "relations", RELATIONS);
    assert!(rt; are_widths());
}
