//! Numbers some of whose bits were overwritten: worked out by hand at the ends, and from all
//! members of small sets.

use crate::tests::rows::{Holds, hold_all};
use isa_model::Width;
use known_bits::spliced;
use reg_state::{Domain, Scalar};
use std::alloc::Global;

/// The least and the greatest number.
type Limits = (u64, u64);

/// The first bit and the number of bits that are overwritten.
type Part = (u64, u32);

/// The old numbers, the part that is overwritten, the new numbers, and the result.
type Written = (Limits, Part, Limits, Limits);

const WRITTEN: &[Written] = &[
    ((0, 0), (0, 32), (20, 51), (20, 51)),
    ((0, 0), (32, 32), (1, 3), (0x1_0000_0000, 0x3_0000_0000)),
    ((0, 31), (32, 32), (0, 0), (0, 31)),
    (
        (0x5_0000_0000, 0x6_0000_0007),
        (0, 32),
        (7, 9),
        (0x5_0000_0007, 0x6_0000_0009),
    ),
    ((0xffff, 0xffff), (0, 8), (0, 1), (0xff00, 0xff01)),
    ((0xffff, 0xffff), (8, 8), (0, 1), (0xff, 0x1ff)),
    ((0, u64::MAX), (0, 8), (0, 255), (0, u64::MAX)),
    ((0, u64::MAX), (56, 8), (0, 0), (0, 0x00ff_ffff_ffff_ffff)),
    (
        (u64::MAX, u64::MAX),
        (48, 16),
        (0, 0),
        (0xffff_ffff_ffff, 0xffff_ffff_ffff),
    ),
    ((3, 9), (0, 64), (20, 51), (20, 51)),
];

fn between(limits: Limits) -> Scalar {
    if limits.0 <= limits.1 {
        Scalar::between(limits.0, limits.1)
    } else {
        Scalar::any(Width::Full64)
    }
}

fn written(old: Scalar, (from, count): Part, new: Scalar) -> Scalar {
    if from < 64 && 0 < count && count <= 64 && from + u64::from(count) <= 64 {
        old.spliced(from, count, new)
    } else {
        Scalar::any(Width::Full64)
    }
}

impl Holds for Written {
    fn holds(&self, _: Global) -> bool {
        let (old, part, new, wanted) = self;
        let wide = written(between(*old), *part, between(*new)).range.wide;
        wide.least == wanted.0 && wide.greatest == wanted.1
    }
}

/// Returns whether each old number with the bits of each new one is a member of the result.
fn contains_all(old: Limits, part: Part, new: Limits) -> bool {
    let found = written(between(old), part, between(new));
    for number in old.0..=old.1 {
        for other in new.0..=new.1 {
            if part.0 < 64
                && part.1 <= 64
                && part.0 + u64::from(part.1) <= 64
                && !found.covers(Scalar::constant(spliced(part.0, part.1, number, other)))
            {
                return false;
            }
        }
    }
    true
}

const PARTS: &[Part] = &[
    (0, 1),
    (0, 3),
    (1, 2),
    (2, 8),
    (3, 1),
    (30, 4),
    (32, 32),
    (56, 8),
];

const GREATEST: &[u64] = &[12, 15, 17];

impl Holds for Part {
    /// For some small sets, whether the new numbers fit into the part or not, no number is lost.
    fn holds(&self, _: Global) -> bool {
        for least in 0..12 {
            for greatest in GREATEST {
                if !contains_all((least, *greatest), *self, (12 - least, *greatest)) {
                    return false;
                }
            }
        }
        true
    }
}

#[test]
fn written_numbers(rt: HostRuntime) {
    hold_all(&rt, "limits", WRITTEN);
    hold_all(&rt, "parts", PARTS);
}
