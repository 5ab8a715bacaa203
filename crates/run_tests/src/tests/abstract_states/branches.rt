//! How sharp the sets are that a conditional jump leaves.

use crate::tests::rows::{Holds, hold_all};
use branch_refine::{Branch, refine};
use isa_model::{Comparison, Cond, Operand, Reg, Width};
use reg_state::{Domain, Kind, Scalar};
use stack_state::State;
use std::alloc::Global;

const FULL: Width = Width::Full64;

const LOW: Width = Width::Low32;

/// The least and the greatest of a set of numbers.
type Limits = (u64, u64);

const ANY: Limits = (0, u64::MAX);

const UNSIGNED_32: Limits = (0, 0xffff_ffff);

const SEVEN: Limits = (7, 7);

const TEN: Operand = Operand::Constant(10);

const R3: Operand = Operand::Register(Reg::R3);

/// The limits of a kind that is not a number.
const NONE: Limits = (1, 0);

/// r2 is compared with the operand, and the jump is taken or not: the limits of r2 and r3 before
/// it, and after it if any member gets there.
type Row = (
    Comparison,
    Width,
    Operand,
    bool,
    (Limits, Limits),
    Option<(Limits, Limits)>,
);

#[rattlefmt::skip]
const ROWS: &[Row] = &[
    (Comparison::Less, FULL, TEN, true, (ANY, ANY), Some(((0, 9), ANY))),
    (Comparison::Less, FULL, TEN, false, (ANY, ANY), Some(((10, u64::MAX), ANY))),
    (Comparison::Less, FULL, R3, true, (ANY, (5, 10)), Some(((0, 9), (5, 10)))),
    (Comparison::Less, FULL, R3, false, (ANY, (5, 10)), Some(((5, u64::MAX), (5, 10)))),
    // 7 to 100 below 5 to 10 leaves of the one what is below 10, and of the other what is above 7.
    (Comparison::Less, FULL, R3, true, ((7, 100), (5, 10)), Some(((7, 9), (8, 10)))),
    // For numbers of 32 bits the same holds at 32 bits.
    (Comparison::Less, LOW, R3, true, ((7, 100), (5, 10)), Some(((7, 9), (8, 10)))),
    // For a number whose upper half is not known, the comparison narrows the low half.
    (Comparison::Less, LOW, TEN, true, (ANY, ANY), Some(((0, 0xffff_ffff_0000_0009), ANY))),
    (Comparison::Less, LOW, TEN, true, (UNSIGNED_32, ANY), Some(((0, 9), ANY))),
    (Comparison::Equal, FULL, R3, true, (SEVEN, SEVEN), Some((SEVEN, SEVEN))),
    (Comparison::Equal, FULL, R3, false, (SEVEN, SEVEN), None),
    // Equal numbers are members of both sets.
    (Comparison::Equal, FULL, R3, true, ((7, 100), (5, 10)), Some(((7, 10), (7, 10)))),
    // A number that is not 7 is above 7 if 7 is the least member, and below 7 if 7 is the greatest;
    // at 32 bits too, for numbers of 32 bits.
    (Comparison::Equal, FULL, R3, false, (SEVEN, (7, 100)), Some((SEVEN, (8, 100)))),
    (Comparison::NotEqual, LOW, R3, true, ((5, 7), SEVEN), Some(((5, 6), SEVEN))),
];

fn numbers(limits: Limits) -> Kind {
    let (least, greatest) = limits;
    if least <= greatest {
        Kind::Number(Scalar::between(least, greatest))
    } else {
        Kind::Unset
    }
}

fn limits_of(kind: Kind) -> Limits {
    match kind {
        Kind::Number(numbers) => (numbers.range.wide.least, numbers.range.wide.greatest),
        _ => NONE,
    }
}

/// Returns what is left of a start state with these numbers in r2 and r3.
fn left_of(cond: Cond, taken: bool, before: &(Limits, Limits)) -> Branch {
    let mut state = State::start();
    state.set_register(Reg::R2, numbers(before.0));
    state.set_register(Reg::R3, numbers(before.1));
    refine(cond, taken, &state)
}

/// The limits of r2 and r3 in what is left.
fn narrowed(cond: Cond, taken: bool, before: &(Limits, Limits)) -> Option<(Limits, Limits)> {
    match left_of(cond, taken, before) {
        Branch::Never => None,
        Branch::Goes(state) => Some((
            limits_of(state.kind_of(Reg::R2)),
            limits_of(state.kind_of(Reg::R3)),
        )),
    }
}

impl Holds for Row {
    fn holds(&self, _: Global) -> bool {
        let (comparison, width, operand, taken, before, wanted) = self;
        let cond = Cond {
            width: *width,
            comparison: *comparison,
            register: Reg::R2,
            operand: *operand,
        };
        narrowed(cond, *taken, before) == *wanted
    }
}

/// `if r1 == 0`.
const IS_NULL: Cond = Cond {
    width: FULL,
    comparison: Comparison::Equal,
    register: Reg::R1,
    operand: Operand::Constant(0),
};

// Whether r1 is the context after the jump is taken at the start.
fn is_context_left() -> bool {
    match refine(IS_NULL, true, &State::start()) {
        Branch::Never => false,
        Branch::Goes(left) => left.kind_of(Reg::R1) == Kind::Context,
    }
}

#[test]
fn branches(rt: HostRuntime) {
    hold_all(&rt, "registers", ROWS);
    assert!(rt; is_context_left());
}
