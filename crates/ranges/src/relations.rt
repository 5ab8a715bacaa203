//! What is left of two ranges where a number of the one has a relation to a number of the other: of
//! each at least the numbers that have it to some number of the other range.

ghost use Rattle.std.specs.Prelude.{◌≡◌, ◌≢◌, ◌⊎◌, ℕ, ◌<◌, ◌≤◌, ◌<ℤ◌, ◌≤ℤ◌, None, IsSomeAnd, IfSome, bit_and};
ghost use Rattle.std.specs.Int.{w64, cast_signed};
ghost use Rattle.ranges.specs.Wides as W;

use crate::range::Range;
use crate::wide::Wide;

impl Range {
    ghost use Rattle.ranges.specs.Ranges.{Has, IsConstant, IsLimit, IsTight, LeavesOnly, Encloses};

    /// Returns what is left of both where a number of this is below one of the other. `None`: there
    /// are no such numbers.
    pub fn below(self, other: Self) -> Option<(Self, Self)>
        ensures common { (x y : ℕ) → Has self x → Has other y → x < y
            → IsSomeAnd result (λ p. Has p.0 x × Has p.1 y) }
        ensures left { IfSome result (λ p. (x : ℕ) → Has p.0 x → Has self x) }
        ensures right { IfSome result (λ p. (y : ℕ) → Has p.1 y → Has other y) }
        ensures left_limit { IfSome result (λ p. (x : ℕ) → Has p.0 x → x < other.wide.greatest) }
        ensures right_limit { IfSome result (λ p. (y : ℕ) → Has p.1 y → self.wide.least < y) }
        ensures tight { IfSome result (λ p. IsTight p.0 × IsTight p.1) }
    {
        if other.wide.greatest == 0 || self.wide.least == u64::MAX {
            return None;
        }
        let left = Wide::between(0, other.wide.greatest - 1);
        let right = Wide::between(self.wide.least + 1, u64::MAX);
        self.both_limited(other, left, right)
    }

    /// Returns what is left of both where a number of this is at most one of the other.
    pub fn at_most(self, other: Self) -> Option<(Self, Self)>
        ensures common { (x y : ℕ) → Has self x → Has other y → x ≤ y
            → IsSomeAnd result (λ p. Has p.0 x × Has p.1 y) }
        ensures left { IfSome result (λ p. (x : ℕ) → Has p.0 x → Has self x) }
        ensures right { IfSome result (λ p. (y : ℕ) → Has p.1 y → Has other y) }
        ensures left_limit { IfSome result (λ p. (x : ℕ) → Has p.0 x → x ≤ other.wide.greatest) }
        ensures right_limit { IfSome result (λ p. (y : ℕ) → Has p.1 y → self.wide.least ≤ y) }
        ensures tight { IfSome result (λ p. IsTight p.0 × IsTight p.1) }
    {
        let left = Wide::between(0, other.wide.greatest);
        let right = Wide::between(self.wide.least, u64::MAX);
        self.both_limited(other, left, right)
    }

    /// Does what `below` does, for signed numbers.
    pub fn signed_below(self, other: Self) -> Option<(Self, Self)>
        ensures common { (x y : ℕ) → Has self x → Has other y
            → cast_signed w64 x <ℤ cast_signed w64 y
            → IsSomeAnd result (λ p. Has p.0 x × Has p.1 y) }
        ensures left { IfSome result (λ p. (x : ℕ) → Has p.0 x → Has self x) }
        ensures right { IfSome result (λ p. (y : ℕ) → Has p.1 y → Has other y) }
        ensures left_limit { IfSome result (λ p. (x : ℕ) → Has p.0 x
            → cast_signed w64 x <ℤ other.wide.signed_greatest) }
        ensures right_limit { IfSome result (λ p. (y : ℕ) → Has p.1 y
            → self.wide.signed_least <ℤ cast_signed w64 y) }
        ensures tight { IfSome result (λ p. IsTight p.0 × IsTight p.1) }
    {
        if other.wide.signed_greatest == i64::MIN || self.wide.signed_least == i64::MAX {
            return None;
        }
        let left = Wide::signed_between(i64::MIN, other.wide.signed_greatest - 1);
        let right = Wide::signed_between(self.wide.signed_least + 1, i64::MAX);
        self.both_limited(other, left, right)
    }

    /// Does what `at_most` does, for signed numbers.
    pub fn signed_at_most(self, other: Self) -> Option<(Self, Self)>
        ensures common { (x y : ℕ) → Has self x → Has other y
            → cast_signed w64 x ≤ℤ cast_signed w64 y
            → IsSomeAnd result (λ p. Has p.0 x × Has p.1 y) }
        ensures left { IfSome result (λ p. (x : ℕ) → Has p.0 x → Has self x) }
        ensures right { IfSome result (λ p. (y : ℕ) → Has p.1 y → Has other y) }
        ensures left_limit { IfSome result (λ p. (x : ℕ) → Has p.0 x
            → cast_signed w64 x ≤ℤ other.wide.signed_greatest) }
        ensures right_limit { IfSome result (λ p. (y : ℕ) → Has p.1 y
            → self.wide.signed_least ≤ℤ cast_signed w64 y) }
        ensures tight { IfSome result (λ p. IsTight p.0 × IsTight p.1) }
    {
        let left = Wide::signed_between(i64::MIN, other.wide.signed_greatest);
        let right = Wide::signed_between(self.wide.signed_least, i64::MAX);
        self.both_limited(other, left, right)
    }

    /// Returns what is left of both where a number of this differs from one of the other.
    pub fn unequal(self, other: Self) -> Option<(Self, Self)>
        ensures common { (x y : ℕ) → Has self x → Has other y → x ≢ y
            → IsSomeAnd result (λ p. Has p.0 x × Has p.1 y) }
        ensures left { IfSome result (λ p. (x : ℕ) → Has p.0 x → Has self x) }
        ensures right { IfSome result (λ p. (y : ℕ) → Has p.1 y → Has other y) }
        ensures left_limit { IfSome result (λ p. (v : ℕ) → LeavesOnly other v → IsLimit self v
            → Has p.0 v → ⊥) }
        ensures right_limit { IfSome result (λ p. (u : ℕ) → LeavesOnly self u → IsLimit other u
            → Has p.1 u → ⊥) }
        ensures tight { IsTight self → IsTight other
            → IfSome result (λ p. IsTight p.0 × IsTight p.1) }
    {
        let left = self.unequal_to(other)?;
        let right = other.unequal_to(self)?;
        Some((left, right))
    }

    /// Returns what is left of both where a number of this has no bit in common with one of the
    /// other. Limits show something only of two constants.
    pub fn disjoint(self, other: Self) -> Option<(Self, Self)>
        ensures common { (x y : ℕ) → Has self x → Has other y → bit_and x y ≡ 0
            → IsSomeAnd result (λ p. Has p.0 x × Has p.1 y) }
        ensures left { IfSome result (λ p. (x : ℕ) → Has p.0 x → Has self x) }
        ensures right { IfSome result (λ p. (y : ℕ) → Has p.1 y → Has other y) }
        ensures constants { (u v : ℕ) → IsConstant self u → IsConstant other v → bit_and u v ≢ 0
            → result ≡ None }
    {
        match (self.number(), other.number()) {
            (Some(a), Some(b)) if a & b != 0 => None,
            _ => Some((self, other)),
        }
    }

    /// Returns what is left of both where a number of this has a bit in common with one of the
    /// other: neither is 0.
    pub fn overlapping(self, other: Self) -> Option<(Self, Self)>
        ensures common { (x y : ℕ) → Has self x → Has other y → bit_and x y ≢ 0
            → IsSomeAnd result (λ p. Has p.0 x × Has p.1 y) }
        ensures left { IfSome result (λ p. (x : ℕ) → Has p.0 x → Has self x) }
        ensures right { IfSome result (λ p. (y : ℕ) → Has p.1 y → Has other y) }
        ensures left_limit { IfSome result (λ p. (x : ℕ) → Has p.0 x → 0 < x) }
        ensures right_limit { IfSome result (λ p. (y : ℕ) → Has p.1 y → 0 < y) }
        ensures tight { IfSome result (λ p. IsTight p.0 × IsTight p.1) }
    {
        let not_zero = Wide::between(1, u64::MAX);
        self.both_limited(other, not_zero, not_zero)
    }

    // The numbers of this within `left`, and those of the other within `right`. `None`: there are
    // none of one or the other.
    fn both_limited(self, other: Self, left: Wide, right: Wide) -> Option<(Self, Self)>
        ensures common { (x y : ℕ) → Has self x → Has other y → W.Has left x → W.Has right y
            → IsSomeAnd result (λ p. Has p.0 x × Has p.1 y) }
        ensures left { IfSome result (λ p. (x : ℕ) → Has p.0 x → Has self x) }
        ensures right { IfSome result (λ p. (y : ℕ) → Has p.1 y → Has other y) }
        ensures left_limits { IfSome result (λ p. (x : ℕ) → Has p.0 x → W.Has left x) }
        ensures right_limits { IfSome result (λ p. (y : ℕ) → Has p.1 y → W.Has right y) }
        ensures tight { IfSome result (λ p. IsTight p.0 × IsTight p.1) }
    {
        let first = self.limited(left)?;
        let second = other.limited(right)?;
        Some((first, second))
    }

    // The numbers of this from one number to another.
    fn from_to(self, least: u64, greatest: u64) -> Option<Self>
        requires { least ≤ greatest }
        ensures common { (x : ℕ) → Has self x → least ≤ x → x ≤ greatest
            → IsSomeAnd result (λ m. Has m x) }
        ensures left { IfSome result (λ m. (x : ℕ) → Has m x → Has self x) }
        ensures right { IfSome result (λ m. (x : ℕ) → Has m x → (least ≤ x) × (x ≤ greatest)) }
        ensures enclosed { IfSome result (Encloses self) }
        ensures tight { IfSome result IsTight }
    {
        self.limited(Wide::between(least, greatest))
    }

    // The same, read as signed numbers.
    fn signed_from_to(self, least: i64, greatest: i64) -> Option<Self>
        requires { least ≤ℤ greatest }
        ensures common { (x : ℕ) → Has self x → least ≤ℤ cast_signed w64 x
            → cast_signed w64 x ≤ℤ greatest
            → IsSomeAnd result (λ m. Has m x) }
        ensures left { IfSome result (λ m. (x : ℕ) → Has m x → Has self x) }
        ensures right { IfSome result (λ m. (x : ℕ) → Has m x
            → (least ≤ℤ cast_signed w64 x) × (cast_signed w64 x ≤ℤ greatest)) }
        ensures tight { IfSome result IsTight }
    {
        self.limited(Wide::signed_between(least, greatest))
    }

    // The numbers of this that differ from some number of the other.
    fn unequal_to(self, other: Self) -> Option<Self>
        ensures common { (x y : ℕ) → Has self x → Has other y → x ≢ y
            → IsSomeAnd result (λ r. Has r x) }
        ensures left { IfSome result (λ r. (x : ℕ) → Has r x → Has self x) }
        ensures limit { IfSome result (λ r. (v : ℕ) → LeavesOnly other v → IsLimit self v
            → Has r v → ⊥) }
        ensures tight { IsTight self → IfSome result IsTight }
    {
        match other.number() {
            Some(number) => self.without(number),
            None => Some(self),
        }
    }

    // The numbers of this without one number, where it is one of the limits.
    fn without(self, number: u64) -> Option<Self>
        ensures common { (x : ℕ) → Has self x → x ≢ number → IsSomeAnd result (λ r. Has r x) }
        ensures left { IfSome result (λ r. (x : ℕ) → Has r x → Has self x) }
        ensures limit { IfSome result (λ r. IsLimit self number → Has r number → ⊥) }
        ensures tight { IsTight self → IfSome result IsTight }
    {
        let unsigned = self.without_unsigned(number)?;
        let rest = unsigned.without_signed(number)?;
        Some(rest)
    }

    // The numbers of this without one number, where it is an unsigned limit.
    fn without_unsigned(self, number: u64) -> Option<Self>
        ensures common { (x : ℕ) → Has self x → x ≢ number → IsSomeAnd result (λ r. Has r x) }
        ensures left { IfSome result (λ r. (x : ℕ) → Has r x → Has self x) }
        ensures enclosed { IfSome result (Encloses self) }
        ensures limit { IfSome result (λ r. (self.wide.least ≡ number)
            ⊎ (self.wide.greatest ≡ number) → Has r number → ⊥) }
        ensures tight { IsTight self → IfSome result IsTight }
    {
        if self.wide.least == number {
            if number == u64::MAX {
                return None;
            }
            self.from_to(number + 1, u64::MAX)
        } else if self.wide.greatest == number {
            if number == 0 {
                return None;
            }
            self.from_to(0, number - 1)
        } else {
            Some(self)
        }
    }

    // The numbers of this without one number, where it is a signed limit.
    fn without_signed(self, number: u64) -> Option<Self>
        ensures common { (x : ℕ) → Has self x → x ≢ number → IsSomeAnd result (λ r. Has r x) }
        ensures left { IfSome result (λ r. (x : ℕ) → Has r x → Has self x) }
        ensures limit { IfSome result (λ r. (self.wide.signed_least ≡ cast_signed w64 number)
            ⊎ (self.wide.signed_greatest ≡ cast_signed w64 number)
            → Has r number → ⊥) }
        ensures tight { IsTight self → IfSome result IsTight }
    {
        let signed = number.cast_signed();
        if self.wide.signed_least == signed {
            if signed == i64::MAX {
                return None;
            }
            self.signed_from_to(signed + 1, i64::MAX)
        } else if self.wide.signed_greatest == signed {
            if signed == i64::MIN {
                return None;
            }
            self.signed_from_to(i64::MIN, signed - 1)
        } else {
            Some(self)
        }
    }
}
