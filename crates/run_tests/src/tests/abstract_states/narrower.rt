//! How much narrower results become: reversed bytes, parts of numbers, and signed quotients and
//! remainders, worked out by hand at the ends, and from all members of small sets.

use crate::tests::rows::{Holds, hold_all};
use isa_model::{AluOp, ByteOrder, SwapWidth, Width, numbers};
use ranges::Range;
use reg_state::{Domain, Scalar};
use std::alloc::Global;

const FULL: Width = Width::Full64;

const LOW: Width = Width::Low32;

/// An operation on a number, and on a set of numbers.
#[derive(Clone, Copy)]
enum Operation {
    Reorder(ByteOrder, SwapWidth),
    /// The first bit of a part, and how many bits it has.
    Part(u64, u32),
}

fn of_number(operation: Operation, number: u64) -> u64 {
    match operation {
        Operation::Reorder(order, span) => numbers::reorder(order, span, number),
        Operation::Part(from, 8) => number >> (from % 64) & 0xff,
        Operation::Part(from, 16) => number >> (from % 64) & 0xffff,
        Operation::Part(from, 32) => number >> (from % 64) & 0xffff_ffff,
        Operation::Part(from, _) => number >> (from % 64),
    }
}

fn of_set(operation: Operation, set: Scalar) -> Scalar {
    match operation {
        Operation::Reorder(order, span) => Scalar::reorder(order, span, set),
        Operation::Part(from, count) => {
            if from < 64 && 0 < count && count <= 64 {
                set.part(from, count)
            } else {
                Scalar::any(FULL)
            }
        }
    }
}

const OPERATIONS: &[Operation] = &[
    Operation::Reorder(ByteOrder::Big, SwapWidth::B16),
    Operation::Reorder(ByteOrder::Big, SwapWidth::B32),
    Operation::Reorder(ByteOrder::Big, SwapWidth::B64),
    Operation::Reorder(ByteOrder::Swap, SwapWidth::B32),
    Operation::Reorder(ByteOrder::Swap, SwapWidth::B64),
    Operation::Reorder(ByteOrder::Little, SwapWidth::B16),
    Operation::Part(0, 8),
    Operation::Part(8, 8),
    Operation::Part(56, 8),
    Operation::Part(16, 16),
    Operation::Part(48, 16),
    Operation::Part(0, 32),
    Operation::Part(32, 32),
    Operation::Part(0, 64),
];

/// A value, and a mask of unknown bits.
const BITS: &[(u64, u64)] = &[
    (0, 0x1f00),
    (0, 0x8001_0000_0000_0180),
    (0x1200, 0x80),
    (0xff00_0000_0000_00f0, 0x0081_0000_8100_0001),
    (0x0102_0304_0506_0708, 0x8000_0000_0000_0000),
    (0xffff_ffff_ffff_ffff, 0),
    (0, 0xf0f0),
];

/// The numbers with these known bits.
fn with_bits(value: u64, mask: u64) -> Scalar {
    let any = Scalar::alu(AluOp::And, FULL, Scalar::any(FULL), Scalar::constant(mask));
    Scalar::alu(AluOp::Or, FULL, any, Scalar::constant(value))
}

/// The bits that are 1 in the results for all members, and those that are 1 in some.
fn bits_of_results(operation: Operation, value: u64, mask: u64) -> (u64, u64) {
    let mut choice = 0;
    let mut all = u64::MAX;
    let mut some = 0;
    for _ in 0..0x400 {
        let number = of_number(operation, value | choice);
        all &= number;
        some |= number;
        // The next smaller choice of unknown bits; after 0 comes the mask, which is all of them.
        choice = choice.wrapping_sub(1) & mask;
    }
    (all, some)
}

/// Returns the bits that all results have, and those that some have, by the result for the set.
fn bits_of_set(operation: Operation, value: u64, mask: u64) -> (u64, u64) {
    let bits = of_set(operation, with_bits(value, mask)).bits;
    (bits.value, bits.value | bits.mask)
}

impl Holds for Operation {
    /// Returns whether as many bits are known as in the results of all members together.
    fn holds(&self, _: Global) -> bool {
        for (value, mask) in BITS {
            let wanted = bits_of_results(*self, *value, *mask);
            if bits_of_set(*self, *value, *mask) != wanted {
                return false;
            }
        }
        true
    }
}

/// The limits of numbers; where a part of them begins, and how long it is; the limits of the part.
type Part = ((u64, u64), (u64, u32), (u64, u64));

const LIMITS: &[Part] = &[
    ((5, 20), (0, 8), (5, 20)),
    ((5, 255), (0, 8), (5, 255)),
    ((5, 256), (0, 8), (0, 255)),
    ((0x0500, 0x14ff), (8, 8), (5, 20)),
    ((0x0500, 0x0001_0000), (8, 8), (0, 255)),
    ((20, 1500), (0, 16), (20, 1500)),
    ((0x0014_0000_0000, 0x003c_ffff_ffff), (32, 8), (20, 60)),
    ((7, u64::MAX), (0, 64), (7, u64::MAX)),
];

fn between(limits: (u64, u64)) -> Scalar {
    if limits.0 <= limits.1 {
        Scalar::between(limits.0, limits.1)
    } else {
        Scalar::any(FULL)
    }
}

impl Holds for Part {
    fn holds(&self, _: Global) -> bool {
        let (limits, (from, count), wanted) = self;
        let part = of_set(Operation::Part(*from, *count), between(*limits));
        let wide = part.range.wide;
        wide.least == wanted.0 && wide.greatest == wanted.1
    }
}

const BOTH: &[Width] = &[FULL, LOW];

/// The widths, the dividend's signed limits, the divisor, and the signed limits of quotient and
/// remainder.
type Divided = (&'static [Width], i64, i64, i64, (i64, i64), (i64, i64));

#[rattlefmt::skip]
const DIVIDED: &[Divided] = &[
    (BOTH, -7, 7, 2, (-3, 3), (-1, 1)),
    (BOTH, -8, 7, -2, (-3, 4), (-1, 1)),
    (BOTH, -8, 7, 1, (-8, 7), (0, 0)),
    (BOTH, -8, 7, -1, (-7, 8), (0, 0)),
    (BOTH, -8, 7, 0, (0, 0), (-8, 7)),
    (BOTH, 3, 100, 8, (0, 12), (0, 7)),
    (BOTH, -100, -3, 8, (-12, 0), (-7, 0)),
    (BOTH, -3, 5, 8, (0, 0), (-3, 5)),
    (BOTH, -100, 5, -8, (0, 12), (-7, 5)),
    (BOTH, -16, -16, 8, (-2, -2), (0, 0)),
    (BOTH, -128, 127, 16, (-8, 7), (-15, 15)),
    (BOTH, -60000, 60000, 65536, (0, 0), (-60000, 60000)),
    (BOTH, 0, 0, -5, (0, 0), (0, 0)),
    (BOTH, -1, 0, 100, (0, 0), (-1, 0)),
    // At the ends of 64 bits. The least number divided by -1 is itself.
    (&[FULL], i64::MIN, i64::MAX, -1, (i64::MIN, i64::MAX), (0, 0)),
    (&[FULL], -i64::MAX, i64::MAX, -1, (-i64::MAX, i64::MAX), (0, 0)),
    (&[FULL], i64::MIN, i64::MAX, 2, (-0x4000_0000_0000_0000, 0x3fff_ffff_ffff_ffff), (-1, 1)),
    (&[FULL], i64::MIN, i64::MAX, i64::MIN, (0, 1), (-i64::MAX, i64::MAX)),
    (&[FULL], i64::MIN, i64::MAX, i64::MAX, (-1, 1), (1 - i64::MAX, i64::MAX - 1)),
    (&[FULL], i64::MIN, i64::MIN, 3, (-0x2aaa_aaaa_aaaa_aaaa, -0x2aaa_aaaa_aaaa_aaaa), (-2, -2)),
    // At the ends of 32 bits.
    (&[LOW], -0x8000_0000, 0x7fff_ffff, -1, (-0x8000_0000, 0x7fff_ffff), (0, 0)),
    (&[LOW], -0x7fff_ffff, 0x7fff_ffff, -1, (-0x7fff_ffff, 0x7fff_ffff), (0, 0)),
    (&[LOW], -0x8000_0000, 0x7fff_ffff, -0x8000_0000, (0, 1), (-0x7fff_ffff, 0x7fff_ffff)),
];

/// The numbers between signed limits.
fn signed_between(least: i64, greatest: i64) -> Scalar {
    let any = Scalar::any(FULL);
    if least <= greatest {
        let within = Scalar {
            bits: any.bits,
            range: Range::signed_between(least, greatest),
        };
        within.meet(any).unwrap_or(any)
    } else {
        any
    }
}

/// The signed limits of the result; at 32 bits those of its low half.
fn divided(op: AluOp, width: Width, limits: (i64, i64), by: i64) -> (i64, i64) {
    let divisor = Scalar::constant(by.cast_unsigned());
    let range = Scalar::alu(op, width, signed_between(limits.0, limits.1), divisor).range;
    match width {
        Width::Full64 => (range.wide.signed_least, range.wide.signed_greatest),
        Width::Low32 => (
            i64::from(range.low.signed_least),
            i64::from(range.low.signed_greatest),
        ),
    }
}

impl Holds for Divided {
    fn holds(&self, _: Global) -> bool {
        let (widths, least, greatest, by, quotients, remainders) = self;
        let limits = (*least, *greatest);
        for width in *widths {
            if divided(AluOp::SignedDiv, *width, limits, *by) != *quotients
                || divided(AluOp::SignedMod, *width, limits, *by) != *remainders
            {
                return false;
            }
        }
        true
    }
}

/// Returns whether the result for each member is a member of the result for the set.
fn contains_all(op: AluOp, width: Width, limits: (i64, i64), by: i64) -> bool {
    let divisor = Scalar::constant(by.cast_unsigned());
    let found = Scalar::alu(op, width, signed_between(limits.0, limits.1), divisor);
    for number in limits.0..=limits.1 {
        let exact = numbers::compute(op, width, number.cast_unsigned(), by.cast_unsigned());
        if !found.covers(Scalar::constant(exact)) {
            return false;
        }
    }
    true
}

/// Returns whether that is so for sets of small dividends, and each small divisor.
fn loses_none(op: AluOp, width: Width) -> bool {
    for least in -9..10 {
        for by in -5..6 {
            if !contains_all(op, width, (least, 9), by)
                || !contains_all(op, width, (-9, least), by)
            {
                return false;
            }
        }
    }
    true
}

/// Signed operations and widths, and the limits of the result for 40 to 100 by 4 to 20. For numbers
/// whose sign bit is 0 the limits are those of the unsigned operation, even if there are several
/// divisors.
type Signed = (AluOp, Width, (u64, u64));

const SIGNED: &[Signed] = &[
    (AluOp::SignedDiv, FULL, (2, 25)),
    (AluOp::SignedDiv, LOW, (2, 25)),
    (AluOp::SignedMod, FULL, (0, 19)),
    (AluOp::SignedMod, LOW, (0, 19)),
];

fn has_limits_of_unsigned(op: AluOp, width: Width, wanted: (u64, u64)) -> bool {
    let (numbers, divisors) = (Scalar::between(40, 100), Scalar::between(4, 20));
    let wide = Scalar::alu(op, width, numbers, divisors).range.wide;
    wide.least == wanted.0 && wide.greatest == wanted.1
}

impl Holds for Signed {
    fn holds(&self, _: Global) -> bool {
        let (op, width, wanted) = self;
        loses_none(*op, *width) && has_limits_of_unsigned(*op, *width, *wanted)
    }
}

#[test]
fn narrower_results(rt: HostRuntime) {
    hold_all(&rt, "bits of all members", OPERATIONS);
    hold_all(&rt, "limits of parts", LIMITS);
    hold_all(&rt, "quotients and remainders", DIVIDED);
    hold_all(&rt, "signed operations", SIGNED);
}
