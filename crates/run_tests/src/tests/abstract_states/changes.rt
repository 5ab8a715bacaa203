//! Rows of a test: a set, what is done to it, and what is then known. No function here has a
//! contract, so a row costs little; and none is over any domain, since a call of such a function
//! costs as much as the whole trait.

use super::operations::Unary;
use crate::tests::rows::Holds;
use isa_model::{AluOp, Comparison, Width};
use reg_state::{Domain, Scalar, refine};
use std::alloc::Global;

/// A set of numbers.
#[derive(Drop)]
pub enum Set {
    Any(Width),
    One(u64),
    /// By its least and its greatest number.
    Between(u64, u64),
}

pub fn set_of(set: &Set) -> Scalar {
    match set {
        Set::Any(width) => Scalar::any(*width),
        Set::One(number) => Scalar::constant(*number),
        Set::Between(least, greatest) => {
            if *least <= *greatest {
                Scalar::between(*least, *greatest)
            } else {
                Scalar::any(Width::Full64)
            }
        }
    }
}

/// Returns what a comparison with a number leaves of a set.
pub fn refined(
    comparison: Comparison,
    width: Width,
    taken: bool,
    a: Scalar,
    b: u64,
) -> Option<Scalar> {
    match refine(comparison, width, taken, a, Scalar::constant(b)) {
        Some((left, _)) => Some(left),
        None => None,
    }
}

/// Says what is done to a set.
pub enum Change {
    /// An operation with a number.
    Alu(AluOp, Width, u64),
    /// An operation with the set itself.
    Itself(AluOp, Width),
    Unary(Unary),
    /// The members for which the comparison with a number holds, or does not.
    Compare(Comparison, Width, bool, u64),
    /// The common members with a set.
    Meet(Set),
    /// The common members with the numbers whose ones are all in the mask.
    MeetMasked(u64),
}

fn unary_of(operation: &Unary, a: Scalar) -> Scalar {
    match operation {
        Unary::Negate(width) => Scalar::negate(*width, a),
        Unary::SignExtend(extension) => Scalar::sign_extend(*extension, a),
        Unary::Reorder(order, span) => Scalar::reorder(*order, *span, a),
    }
}

fn next(change: &Change, set: Scalar) -> Option<Scalar> {
    match change {
        Change::Alu(op, width, number) => {
            Some(Scalar::alu(*op, *width, set, Scalar::constant(*number)))
        }
        Change::Itself(op, width) => Some(Scalar::alu(*op, *width, set, set)),
        Change::Unary(operation) => Some(unary_of(operation, set)),
        Change::Compare(comparison, width, taken, number) => {
            refined(*comparison, *width, *taken, set, *number)
        }
        Change::Meet(other) => set.meet(set_of(other)),
        Change::MeetMasked(mask) => set.meet(masked(*mask)),
    }
}

/// The numbers whose ones are all in the mask.
fn masked(mask: u64) -> Scalar {
    let any = Scalar::any(Width::Full64);
    Scalar::alu(AluOp::And, Width::Full64, any, Scalar::constant(mask))
}

/// Returns what is left after all of the changes.
fn after(set: &Set, changes: &[Change]) -> Option<Scalar> {
    let mut left = set_of(set);
    for change in changes {
        match next(change, left) {
            Some(set) => left = set,
            None => return None,
        }
    }
    Some(left)
}

/// Says what is known of a set.
pub enum Look {
    /// The least and the greatest number.
    Wide(u64, u64),
    /// As signed numbers.
    Signed(i64, i64),
    /// The least and the greatest upper half.
    Upper(u64, u64),
    /// The limits of low halves, unsigned and then signed.
    Low(u32, u32, i32, i32),
    GreatestAtMost(u64),
    /// The bits that are not known.
    Mask(u64),
    /// The bits that are 1 in every member.
    Ones(u64),
    /// All members are even.
    Even,
    /// The set is this one, with nothing else known.
    Is(Set),
    /// There are no members.
    Never,
}

fn is_known(set: Scalar, look: &Look) -> bool {
    let Scalar { bits, range } = set;
    let (wide, low) = (range.wide, range.low);
    match look {
        Look::Wide(least, greatest) => wide.least == *least && wide.greatest == *greatest,
        Look::Signed(least, greatest) => {
            wide.signed_least == *least && wide.signed_greatest == *greatest
        }
        Look::Upper(least, greatest) => {
            wide.least >> 32 == *least && wide.greatest >> 32 == *greatest
        }
        Look::Low(least, greatest, signed_least, signed_greatest) => {
            low.least == *least
                && low.greatest == *greatest
                && low.signed_least == *signed_least
                && low.signed_greatest == *signed_greatest
        }
        Look::GreatestAtMost(limit) => wide.greatest <= *limit,
        Look::Mask(mask) => bits.mask == *mask,
        Look::Ones(value) => bits.value == *value,
        Look::Even => (bits.mask | bits.value) & 1 == 0,
        Look::Is(other) => set == set_of(other),
        Look::Never => false,
    }
}

fn is_seen(left: Option<Scalar>, look: &Look) -> bool {
    match left {
        Some(set) => is_known(set, look),
        None => matches!(look, Look::Never),
    }
}

/// A set, what is done to it, and what is known of what is left.
pub type Row = (Set, &'static [Change], &'static [Look]);

impl Holds for Row {
    fn holds(&self, _: Global) -> bool {
        let (set, changes, looks) = self;
        let left = after(set, *changes);
        for look in *looks {
            if !is_seen(left, look) {
                return false;
            }
        }
        true
    }
}
