//! Numbers in which some bits were written.

ghost use Rattle.std.specs.Prelude.{◌≡◌, ℕ, ◌+◌, ◌-◌, ◌%◌, ◌^◌, ◌<◌, ◌≤◌, Some, IfSome};
ghost use Rattle.known_bits.specs.Bits.{spliced};
ghost use Rattle.ranges.specs.Lows as L;
ghost use Rattle.ranges.specs.Ranges as R;

use crate::scalars::{Scalar, between};
use known_bits::spliced;
use ranges::{Low, Range, Wide};

impl Scalar {
    ghost use Rattle.reg_state.specs.Scalars.{Has};
    ghost use Rattle.reg_state.specs.Splices.{IsSpliced};

    /// The numbers with `count` bits from bit `from` on replaced by the low bits of numbers of
    /// `other`.
    pub fn spliced(self, from: u64, count: u32, other: Scalar) -> Scalar
        requires from { from < 64 }
        requires some { 0 < count }
        requires inside { from + count ≤ 64 }
        ensures { IsSpliced from count self other result }
    {
        let old = (self.range.wide.least, self.range.wide.greatest);
        let (least, greatest) = limits(from, count, old, low_limits(count, other.range));
        let both = self.bits.spliced(from, count, other.bits);
        let (bits, least, greatest) = Scalar::shown(both, least, greatest);
        let low = given_low(from, count, self.range.low, other.range.low);
        let range = with_low(least, greatest, low);
        Scalar { bits, range }.single()
    }
}

// The least and the greatest of the low `count` bits of the numbers.
fn low_limits(count: u32, range: Range) -> (u64, u64)
    requires some { 0 < count }
    requires count { count ≤ 64 }
    ensures contains { (x : ℕ) → R.Has range x
        → (result.0 ≤ x % 2 ^ count) × (x % 2 ^ count ≤ result.1) }
    ensures ordered { result.0 ≤ result.1 }
    ensures fits { result.1 < 2 ^ count }
    ensures kept { range.wide.greatest < 2 ^ count
        → (range.wide.least ≤ result.0) × (result.1 ≤ range.wide.greatest) }
{
    let most = u64::MAX >> (64 - count);
    if range.wide.greatest <= most {
        (range.wide.least, range.wide.greatest)
    } else if count == 32 {
        (u64::from(range.low.least), u64::from(range.low.greatest))
    } else {
        (0, most)
    }
}

// The limits of numbers within `old` whose `count` bits from bit `from` on are replaced by numbers
// within `new`. The bits below may be any.
fn limits(from: u64, count: u32, old: (u64, u64), new: (u64, u64)) -> (u64, u64)
    requires from { from < 64 }
    requires inside { from + count ≤ 64 }
    requires fits { new.1 < 2 ^ count }
    ensures least { result.0 ≡ spliced 0 from (spliced from count old.0 new.0) 0 }
    ensures greatest { result.1 ≡ spliced 0 from (spliced from count old.1 new.1) (2 ^ from - 1) }
{
    let least = spliced(from, count, old.0, new.0);
    let greatest = spliced(from, count, old.1, new.1);
    let below = (1u64 << from) - 1;
    (
        spliced(0, from as u32, least, 0),
        spliced(0, from as u32, greatest, below),
    )
}

// The limits of the low halves, if they are wholly those of one of the two.
fn given_low(from: u64, count: u32, old: Low, new: Low) -> Option<Low>
    requires inside { from + count ≤ 64 }
    ensures new { from ≡ 0 → count ≡ 32 → result ≡ Some new }
    ensures old { 32 ≤ from → result ≡ Some old }
    ensures contains { IfSome result (λ low. (x y : ℕ) → L.Has old (x % 2 ^ 32)
        → L.Has new (y % 2 ^ 32) → L.Has low (spliced from count x y % 2 ^ 32)) }
{
    if from >= 32 {
        Some(old)
    } else if from == 0 && count == 32 {
        Some(new)
    } else {
        None
    }
}

// The numbers between two limits, with these low halves if they are known.
fn with_low(least: u64, greatest: u64, low: Option<Low>) -> Range
    requires { least ≤ greatest }
    ensures members { (x : ℕ) → least ≤ x → x ≤ greatest → IfSome low (λ l. L.Has l (x % 2 ^ 32))
        → R.Has result x }
    ensures limits { (result.wide.least ≡ least) × (result.wide.greatest ≡ greatest) }
    ensures low { IfSome low (λ l. result.low ≡ l) }
{
    match low {
        Some(low) => Range {
            wide: Wide::between(least, greatest),
            low,
        },
        None => between(least, greatest),
    }
}
