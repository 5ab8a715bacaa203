//! Ranges: the type, common numbers and inclusion.

ghost use Rattle.std.specs.Prelude.{◌≡◌, ℕ, ◌%◌, ◌^◌, ◌<◌, ◌≤◌, ◌≤ℤ◌, ◌⊎◌, ◌↔◌, Some, IsSomeAnd, IfSome, IsTrue};
ghost use Rattle.std.specs.Int.{w64, cast_signed, cast_unsigned};
ghost use Rattle.isa_model.specs.Code.Sizes.{width_bits};
ghost use Rattle.ranges.specs.Lows as L;
ghost use Rattle.ranges.specs.Wides as W;

use crate::low::Low;
use crate::wide::Wide;
use isa_model::{Width, numbers};

/// The numbers within the limits at 64 bits whose low halves are within theirs. The set may be
/// empty.
#[derive(Clone, Copy, PartialEq, Eq, Debug)]
pub struct Range {
    pub wide: Wide,
    pub low: Low,
}

impl Range {
    ghost use Rattle.ranges.specs.Ranges.{Has, IsConstant, IsTight, LeavesOnly, Encloses};

    /// All numbers of the width.
    pub fn any(width: Width) -> Self
        ensures members { (x : ℕ) → (Has result x ↔ (x < 2 ^ width_bits width)) }
        ensures fits { result.wide.greatest < 2 ^ width_bits width }
        ensures tight { IsTight result }
    {
        Range {
            wide: Wide::any(width),
            low: Low::any(),
        }
    }

    /// The set of one number.
    pub fn constant(number: u64) -> Self
        ensures contains { Has result number }
        ensures only { (x : ℕ) → Has result x → x ≡ number }
        ensures constant { IsConstant result number }
    {
        Range {
            wide: Wide::constant(number),
            low: Low::constant(numbers::low_32_bits(number)),
        }
    }

    /// The number, where the unsigned limits leave only one.
    pub fn number(self) -> Option<u64>
        ensures value { (x : ℕ) → ((result ≡ Some x) ↔ LeavesOnly self x) }
        ensures constant { (x : ℕ) → IsConstant self x → result ≡ Some x }
        ensures only { IfSome result (λ n. (x : ℕ) → Has self x → x ≡ n) }
    {
        if self.wide.least == self.wide.greatest {
            Some(self.wide.least)
        } else {
            None
        }
    }

    /// The numbers between two unsigned limits.
    pub fn between(least: u64, greatest: u64) -> Self
        requires { least ≤ greatest }
        ensures members { (x : ℕ) → (Has result x ↔ ((least ≤ x) × (x ≤ greatest))) }
        ensures limits { (result.wide.least ≡ least) × (result.wide.greatest ≡ greatest) }
        ensures signed { cast_signed w64 least ≤ℤ cast_signed w64 greatest
            → (result.wide.signed_least ≡ cast_signed w64 least)
            × (result.wide.signed_greatest ≡ cast_signed w64 greatest) }
        ensures tight { IsTight result }
    {
        Range::within_limits(Wide::between(least, greatest))
    }

    /// The numbers between two signed limits.
    pub fn signed_between(least: i64, greatest: i64) -> Self
        requires { least ≤ℤ greatest }
        ensures members { (x : ℕ) → (Has result x
            ↔ ((x < 2 ^ 64) × (least ≤ℤ cast_signed w64 x) × (cast_signed w64 x ≤ℤ greatest))) }
        ensures limits { (result.wide.signed_least ≡ least)
            × (result.wide.signed_greatest ≡ greatest) }
        ensures unsigned { cast_unsigned w64 least ≤ cast_unsigned w64 greatest
            → (result.wide.least ≡ cast_unsigned w64 least)
            × (result.wide.greatest ≡ cast_unsigned w64 greatest) }
        ensures tight { IsTight result }
    {
        Range::within_limits(Wide::signed_between(least, greatest))
    }

    // The numbers within limits at 64 bits.
    fn within_limits(wide: Wide) -> Self
        ensures members { (x : ℕ) → (Has result x ↔ W.Has wide x) }
        ensures limits { result.wide ≡ wide }
        ensures tight { W.IsTight wide → IsTight result }
    {
        Range {
            wide,
            low: wide.low_limits(),
        }
    }

    /// The common members. Each limit is one of them, or the low half of one.
    pub fn meet(self, other: Self) -> Option<Self>
        ensures common { (x : ℕ) → Has self x → Has other x → IsSomeAnd result (λ m. Has m x) }
        ensures left { IfSome result (λ m. (x : ℕ) → Has m x → Has self x) }
        ensures right { IfSome result (λ m. (x : ℕ) → Has m x → Has other x) }
        ensures enclosed { IfSome result (λ m. Encloses self m × Encloses other m) }
        ensures tight { IfSome result IsTight }
    {
        let wide = self.wide.within(other.wide)?;
        let low = self.low.within(other.low)?;
        let both = Range { wide, low };
        both.tightened()
    }

    /// The numbers of this within limits at 64 bits. Each limit is one of them, or the low half of
    /// one.
    pub fn limited(self, wide: Wide) -> Option<Self>
        ensures common { (x : ℕ) → Has self x → W.Has wide x → IsSomeAnd result (λ m. Has m x) }
        ensures left { IfSome result (λ m. (x : ℕ) → Has m x → Has self x) }
        ensures right { IfSome result (λ m. (x : ℕ) → Has m x → W.Has wide x) }
        ensures enclosed { IfSome result (Encloses self) }
        ensures tight { IfSome result IsTight }
    {
        let common = self.wide.within(wide)?;
        let both = Range {
            wide: common,
            low: self.low,
        };
        both.tightened()
    }

    // The numbers whose low halves are within these limits.
    pub(crate) fn low_limited(self, low: Low) -> Option<Self>
        ensures common { (x : ℕ) → Has self x → L.Has low (x % 2 ^ 32)
            → IsSomeAnd result (λ m. Has m x) }
        ensures left { IfSome result (λ m. (x : ℕ) → Has m x → Has self x) }
        ensures right { IfSome result (λ m. (x : ℕ) → Has m x → L.Has low (x % 2 ^ 32)) }
        ensures enclosed { IfSome result (Encloses self) }
        ensures tight { IfSome result IsTight }
    {
        let common = self.low.within(low)?;
        let both = Range {
            wide: self.wide,
            low: common,
        };
        both.tightened()
    }

    // The same numbers, by the narrowest limits.
    fn tightened(self) -> Option<Self>
        ensures common { (x : ℕ) → Has self x → IsSomeAnd result (λ m. Has m x) }
        ensures enclosed { IfSome result (Encloses self) }
        ensures tight { IfSome result IsTight }
    {
        if let Some(number) = self.number() {
            let alone = Range::constant(number);
            return if self.covers(alone) {
                Some(alone)
            } else {
                None
            };
        }
        if self.wide.greatest <= u64::from(u32::MAX) {
            self.tightened_small()
        } else {
            self.tightened_parts()
        }
    }

    // The same where all numbers are their own low halves.
    fn tightened_small(self) -> Option<Self>
        requires { self.wide.greatest < 2 ^ 32 }
        ensures common { (x : ℕ) → Has self x → IsSomeAnd result (λ m. Has m x) }
        ensures enclosed { IfSome result (Encloses self) }
        ensures tight { IfSome result IsTight }
    {
        let part = self.wide.plain_part()?;
        let least = self.low.least.max(part.least as u32);
        let greatest = self.low.greatest.min(part.greatest as u32);
        if least > greatest {
            return None;
        }
        let both = Low {
            least,
            greatest,
            signed_least: self.low.signed_least,
            signed_greatest: self.low.signed_greatest,
        };
        let low = both.tightened()?;
        Some(Range {
            wide: Wide::between(u64::from(low.least), u64::from(low.greatest)),
            low,
        })
    }

    // The same, of the numbers without a sign bit and of those with it.
    fn tightened_parts(self) -> Option<Self>
        ensures common { (x : ℕ) → Has self x → IsSomeAnd result (λ m. Has m x) }
        ensures enclosed { IfSome result (Encloses self) }
        ensures tight { IfSome result IsTight }
    {
        let all = Range::any(Width::Full64);
        if self.covers(all) {
            return Some(all);
        }
        let low = self.low.tightened()?;
        let Some(signed) = self.signed_part(low) else {
            return self.plain_part(low);
        };
        match self.plain_part(low) {
            Some(plain) => Some(plain.followed_by(signed)),
            None => Some(signed),
        }
    }

    // The numbers without a sign bit whose low halves are within `low`.
    fn plain_part(self, low: Low) -> Option<Self>
        requires { L.IsTight low }
        ensures common { (x : ℕ) → W.Has self.wide x → L.Has low (x % 2 ^ 32) → x < 2 ^ 63
            → IsSomeAnd result (λ p. Has p x) }
        ensures enclosed { IfSome result (λ p. W.Encloses self.wide p.wide × L.Encloses low p.low) }
        ensures side { IfSome result (λ p. p.wide.greatest < 2 ^ 63) }
        ensures alike { IfSome result (λ p. W.ReadsAlike p.wide) }
        ensures tight { IfSome result IsTight }
    {
        let part = self.wide.plain_part()?;
        Range::narrowed(part, low)
    }

    // The numbers with the sign bit whose low halves are within `low`.
    fn signed_part(self, low: Low) -> Option<Self>
        requires { L.IsTight low }
        ensures common { (x : ℕ) → W.Has self.wide x → L.Has low (x % 2 ^ 32) → 2 ^ 63 ≤ x
            → IsSomeAnd result (λ p. Has p x) }
        ensures enclosed { IfSome result (λ p. W.Encloses self.wide p.wide × L.Encloses low p.low) }
        ensures side { IfSome result (λ p. 2 ^ 63 ≤ p.wide.least) }
        ensures alike { IfSome result (λ p. W.ReadsAlike p.wide) }
        ensures tight { IfSome result IsTight }
    {
        let part = self.wide.signed_part()?;
        Range::narrowed(part, low)
    }

    // The numbers of one part, all without a sign bit or all with it, whose low halves are within
    // `low`.
    fn narrowed(part: Wide, low: Low) -> Option<Self>
        requires tight { L.IsTight low }
        requires side { (part.greatest < 2 ^ 63) ⊎ (2 ^ 63 ≤ part.least) }
        requires alike { W.ReadsAlike part }
        ensures common { (x : ℕ) → W.Has part x → L.Has low (x % 2 ^ 32)
            → IsSomeAnd result (λ p. Has p x) }
        ensures enclosed { IfSome result (λ p. W.Encloses part p.wide × L.Encloses low p.low) }
        ensures alike { IfSome result (λ p. W.ReadsAlike p.wide) }
        ensures tight { IfSome result IsTight }
    {
        let least = low.first_number(part.least)?;
        let greatest = low.last_number(part.greatest)?;
        if least > greatest {
            return None;
        }
        Some(Range {
            wide: Wide::between(least, greatest),
            low: low.among(least, greatest),
        })
    }

    // The numbers of both, these without a sign bit and the others with it, and what lies between.
    fn followed_by(self, other: Self) -> Self
        requires plain { self.wide.greatest < 2 ^ 63 }
        requires signed { 2 ^ 63 ≤ other.wide.least }
        requires alike { W.ReadsAlike self.wide × W.ReadsAlike other.wide }
        ensures left { Encloses result self }
        ensures right { Encloses result other }
        ensures enclosed { (r : Range) → Encloses r self → Encloses r other → Encloses r result }
        ensures wide { (result.wide.least ≡ self.wide.least)
            × (result.wide.greatest ≡ other.wide.greatest)
            × (result.wide.signed_least ≡ other.wide.signed_least)
            × (result.wide.signed_greatest ≡ self.wide.signed_greatest) }
        ensures either { L.IsOfEither result.low self.low other.low }
    {
        Range {
            wide: Wide {
                least: self.wide.least,
                greatest: other.wide.greatest,
                signed_least: other.wide.signed_least,
                signed_greatest: self.wide.signed_greatest,
            },
            low: self.low.hull(other.low),
        }
    }

    // The common members by the narrowest limits; if there are none, any range will do.
    pub(crate) fn settled(self) -> Self
        ensures contains { (x : ℕ) → Has self x → Has result x }
        ensures enclosed { Encloses self result }
        ensures tight { (x : ℕ) → Has self x → IsTight result }
    {
        match self.tightened() {
            Some(narrow) => narrow,
            None => self,
        }
    }

    /// Returns whether the limits show that each member of `other` is one of this.
    pub fn covers(self, other: Self) -> bool
        ensures limits { IsTrue result ↔ Encloses self other }
        ensures yes { IsTrue result → (x : ℕ) → Has other x → Has self x }
        ensures equal { self ≡ other → IsTrue result }
    {
        self.wide.covers(other.wide) && self.low.covers(other.low)
    }
}
