//! Ranges as a domain.

ghost use Rattle.std.specs.Prelude.{ℕ, ◌≤◌, ◌-◌, ◌^◌, IsSomeAnd, IfSome};
ghost use Rattle.ranges.specs.Ranges as R;

use crate::domains::Domain;
use isa_model::{AluOp, ByteOrder, Extension, SwapWidth, Width};
use ranges::Range;

impl Domain for Range {
    ghost use Rattle.ranges.specs.Ranges.{Has, IsConstant, Encloses};
    ghost use Rattle.reg_state.specs.Limits.{range_limits, range_allows};
    ghost use Rattle.reg_state.specs.Constants.{range_inside, range_constant_has};
    ghost use Rattle.reg_state.specs.Constants.{range_constant_only};

    ghost has = { Has };

    ghost is_constant = { IsConstant };

    ghost encloses = { Encloses };

    ghost limits = { range_limits };

    ghost allows = { range_allows };

    ghost ones = { λ r. 0 };

    ghost possible = { λ r. 2 ^ 64 - 1 };

    fn any(width: Width) -> Range {
        Range::any(width)
    }

    fn constant(number: u64) -> Range {
        Range::constant(number)
    }

    fn between(least: u64, greatest: u64) -> Range
        requires { least ≤ greatest }
        ensures contains { (x : ℕ) → least ≤ x → x ≤ greatest → Has result x }
        ensures only { (x : ℕ) → Has result x → (least ≤ x) × (x ≤ greatest) }
    {
        Range::between(least, greatest)
    }

    fn number(self) -> Option<u64> {
        Range::number(self)
    }

    fn greatest(self) -> u64 {
        self.wide.greatest
    }

    fn alu(op: AluOp, width: Width, a: Range, b: Range) -> Range {
        Range::alu(op, width, a, b)
    }

    fn negate(width: Width, a: Range) -> Range {
        Range::negate(width, a)
    }

    fn sign_extend(extension: Extension, a: Range) -> Range {
        Range::sign_extend(extension, a)
    }

    fn reorder(order: ByteOrder, span: SwapWidth, a: Range) -> Range {
        Range::reorder(order, span, a)
    }

    fn meet(self, other: Range) -> Option<Range> {
        Range::meet(self, other)
    }

    fn covers(self, other: Range) -> bool {
        Range::covers(self, other)
    }

    fn equal(self, width: Width, other: Range) -> Option<(Range, Range)> {
        match width {
            Width::Full64 => same(self, other),
            Width::Low32 => Range::low_equal(self, other),
        }
    }

    fn below(self, width: Width, other: Range) -> Option<(Range, Range)> {
        match width {
            Width::Full64 => Range::below(self, other),
            Width::Low32 => Range::low_below(self, other),
        }
    }

    fn at_most(self, width: Width, other: Range) -> Option<(Range, Range)> {
        match width {
            Width::Full64 => Range::at_most(self, other),
            Width::Low32 => Range::low_at_most(self, other),
        }
    }

    fn signed_below(self, width: Width, other: Range) -> Option<(Range, Range)> {
        match width {
            Width::Full64 => Range::signed_below(self, other),
            Width::Low32 => Range::low_signed_below(self, other),
        }
    }

    fn signed_at_most(self, width: Width, other: Range) -> Option<(Range, Range)> {
        match width {
            Width::Full64 => Range::signed_at_most(self, other),
            Width::Low32 => Range::low_signed_at_most(self, other),
        }
    }

    fn unequal(self, width: Width, other: Range) -> Option<(Range, Range)> {
        match width {
            Width::Full64 => Range::unequal(self, other),
            Width::Low32 => Range::low_unequal(self, other),
        }
    }

    fn disjoint(self, width: Width, other: Range) -> Option<(Range, Range)> {
        match width {
            Width::Full64 => Range::disjoint(self, other),
            Width::Low32 => Range::low_disjoint(self, other),
        }
    }

    fn overlapping(self, width: Width, other: Range) -> Option<(Range, Range)> {
        match width {
            Width::Full64 => Range::overlapping(self, other),
            Width::Low32 => Range::low_overlapping(self, other),
        }
    }

    ghost in_register = { λ d x h. h.0.below };

    ghost inside = { λ d w x h. range_inside d w x h };

    ghost whole = { λ d x h. h };

    ghost contains_constant = { λ d u h c. range_constant_has d u h c };

    ghost only_constant = { λ d u x c h. range_constant_only d u x c h };
}

// The common members, once for each side.
fn same(a: Range, b: Range) -> Option<(Range, Range)>
    ensures common { (x : ℕ) → R.Has a x → R.Has b x
        → IsSomeAnd result (λ p. R.Has p.0 x × R.Has p.1 x) }
    ensures left { IfSome result (λ p. (x : ℕ) → R.Has p.0 x → R.Has a x × R.Has b x) }
    ensures right { IfSome result (λ p. (x : ℕ) → R.Has p.1 x → R.Has a x × R.Has b x) }
{
    let both = a.meet(b)?;
    Some((both, both))
}
