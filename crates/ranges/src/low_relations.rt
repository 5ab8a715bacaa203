//! What is left of two ranges where the low half of a number of the one has a relation to that of a
//! number of the other. Nothing is shown of the upper halves.

ghost use Rattle.std.specs.Prelude.{◌≡◌, ◌≢◌, ◌⊎◌, ℕ, ◌%◌, ◌^◌, ◌<◌, ◌≤◌, ◌<ℤ◌, ◌≤ℤ◌, None, IsSomeAnd, IfSome, bit_and};
ghost use Rattle.std.specs.Int.{w32, cast_signed};
ghost use Rattle.ranges.specs.Lows as L;

use crate::low::Low;
use crate::range::Range;

impl Range {
    ghost use Rattle.ranges.specs.Ranges.{Has, IsTight, Encloses};

    /// Returns what is left of both where a low half of this is one of the other.
    pub fn low_equal(self, other: Self) -> Option<(Self, Self)>
        ensures common { (x y : ℕ) → Has self x → Has other y → x % 2 ^ 32 ≡ y % 2 ^ 32
            → IsSomeAnd result (λ p. Has p.0 x × Has p.1 y) }
        ensures left { IfSome result (λ p. (x : ℕ) → Has p.0 x → Has self x) }
        ensures right { IfSome result (λ p. (y : ℕ) → Has p.1 y → Has other y) }
        ensures left_limit { IfSome result (λ p. (x : ℕ) → Has p.0 x
            → L.Has other.low (x % 2 ^ 32)) }
        ensures right_limit { IfSome result (λ p. (y : ℕ) → Has p.1 y
            → L.Has self.low (y % 2 ^ 32)) }
        ensures tight { IfSome result (λ p. IsTight p.0 × IsTight p.1) }
    {
        self.both_low_limited(other, other.low, self.low)
    }

    /// Returns what is left of both where a low half of this is below one of the other.
    pub fn low_below(self, other: Self) -> Option<(Self, Self)>
        ensures common { (x y : ℕ) → Has self x → Has other y → x % 2 ^ 32 < y % 2 ^ 32
            → IsSomeAnd result (λ p. Has p.0 x × Has p.1 y) }
        ensures left { IfSome result (λ p. (x : ℕ) → Has p.0 x → Has self x) }
        ensures right { IfSome result (λ p. (y : ℕ) → Has p.1 y → Has other y) }
        ensures left_limit { IfSome result (λ p. (x : ℕ) → Has p.0 x
            → x % 2 ^ 32 < other.low.greatest) }
        ensures right_limit { IfSome result (λ p. (y : ℕ) → Has p.1 y
            → self.low.least < y % 2 ^ 32) }
        ensures tight { IfSome result (λ p. IsTight p.0 × IsTight p.1) }
    {
        if other.low.greatest == 0 || self.low.least == u32::MAX {
            return None;
        }
        let left = Low::between(0, other.low.greatest - 1);
        let right = Low::between(self.low.least + 1, u32::MAX);
        self.both_low_limited(other, left, right)
    }

    /// Returns what is left of both where a low half of this is at most one of the other.
    pub fn low_at_most(self, other: Self) -> Option<(Self, Self)>
        ensures common { (x y : ℕ) → Has self x → Has other y → x % 2 ^ 32 ≤ y % 2 ^ 32
            → IsSomeAnd result (λ p. Has p.0 x × Has p.1 y) }
        ensures left { IfSome result (λ p. (x : ℕ) → Has p.0 x → Has self x) }
        ensures right { IfSome result (λ p. (y : ℕ) → Has p.1 y → Has other y) }
        ensures left_limit { IfSome result (λ p. (x : ℕ) → Has p.0 x
            → x % 2 ^ 32 ≤ other.low.greatest) }
        ensures right_limit { IfSome result (λ p. (y : ℕ) → Has p.1 y
            → self.low.least ≤ y % 2 ^ 32) }
        ensures tight { IfSome result (λ p. IsTight p.0 × IsTight p.1) }
    {
        let left = Low::between(0, other.low.greatest);
        let right = Low::between(self.low.least, u32::MAX);
        self.both_low_limited(other, left, right)
    }

    /// Does what `low_below` does, for low halves read as signed numbers.
    pub fn low_signed_below(self, other: Self) -> Option<(Self, Self)>
        ensures common { (x y : ℕ) → Has self x → Has other y
            → cast_signed w32 (x % 2 ^ 32) <ℤ cast_signed w32 (y % 2 ^ 32)
            → IsSomeAnd result (λ p. Has p.0 x × Has p.1 y) }
        ensures left { IfSome result (λ p. (x : ℕ) → Has p.0 x → Has self x) }
        ensures right { IfSome result (λ p. (y : ℕ) → Has p.1 y → Has other y) }
        ensures left_limit { IfSome result (λ p. (x : ℕ) → Has p.0 x
            → cast_signed w32 (x % 2 ^ 32) <ℤ other.low.signed_greatest) }
        ensures right_limit { IfSome result (λ p. (y : ℕ) → Has p.1 y
            → self.low.signed_least <ℤ cast_signed w32 (y % 2 ^ 32)) }
        ensures tight { IfSome result (λ p. IsTight p.0 × IsTight p.1) }
    {
        if other.low.signed_greatest == i32::MIN || self.low.signed_least == i32::MAX {
            return None;
        }
        let left = Low::signed_between(i32::MIN, other.low.signed_greatest - 1);
        let right = Low::signed_between(self.low.signed_least + 1, i32::MAX);
        self.both_low_limited(other, left, right)
    }

    /// Does what `low_at_most` does, for low halves read as signed numbers.
    pub fn low_signed_at_most(self, other: Self) -> Option<(Self, Self)>
        ensures common { (x y : ℕ) → Has self x → Has other y
            → cast_signed w32 (x % 2 ^ 32) ≤ℤ cast_signed w32 (y % 2 ^ 32)
            → IsSomeAnd result (λ p. Has p.0 x × Has p.1 y) }
        ensures left { IfSome result (λ p. (x : ℕ) → Has p.0 x → Has self x) }
        ensures right { IfSome result (λ p. (y : ℕ) → Has p.1 y → Has other y) }
        ensures left_limit { IfSome result (λ p. (x : ℕ) → Has p.0 x
            → cast_signed w32 (x % 2 ^ 32) ≤ℤ other.low.signed_greatest) }
        ensures right_limit { IfSome result (λ p. (y : ℕ) → Has p.1 y
            → self.low.signed_least ≤ℤ cast_signed w32 (y % 2 ^ 32)) }
        ensures tight { IfSome result (λ p. IsTight p.0 × IsTight p.1) }
    {
        let left = Low::signed_between(i32::MIN, other.low.signed_greatest);
        let right = Low::signed_between(self.low.signed_least, i32::MAX);
        self.both_low_limited(other, left, right)
    }

    /// Returns what is left of both where a low half of this differs from one of the other.
    pub fn low_unequal(self, other: Self) -> Option<(Self, Self)>
        ensures common { (x y : ℕ) → Has self x → Has other y → x % 2 ^ 32 ≢ y % 2 ^ 32
            → IsSomeAnd result (λ p. Has p.0 x × Has p.1 y) }
        ensures left { IfSome result (λ p. (x : ℕ) → Has p.0 x → Has self x) }
        ensures right { IfSome result (λ p. (y : ℕ) → Has p.1 y → Has other y) }
        ensures left_limit { IfSome result (λ p. (v : ℕ) → L.LeavesOnly other.low v
            → L.IsLimit self.low v → (x : ℕ) → Has p.0 x → x % 2 ^ 32 ≢ v) }
        ensures right_limit { IfSome result (λ p. (u : ℕ) → L.LeavesOnly self.low u
            → L.IsLimit other.low u → (y : ℕ) → Has p.1 y → y % 2 ^ 32 ≢ u) }
        ensures tight { IsTight self → IsTight other
            → IfSome result (λ p. IsTight p.0 × IsTight p.1) }
    {
        let left = self.low_unequal_to(other)?;
        let right = other.low_unequal_to(self)?;
        Some((left, right))
    }

    /// Returns what is left of both where a low half of this has no bit in common with one of the
    /// other. Limits show something only where each range has one low half.
    pub fn low_disjoint(self, other: Self) -> Option<(Self, Self)>
        ensures common { (x y : ℕ) → Has self x → Has other y
            → bit_and (x % 2 ^ 32) (y % 2 ^ 32) ≡ 0
            → IsSomeAnd result (λ p. Has p.0 x × Has p.1 y) }
        ensures left { IfSome result (λ p. (x : ℕ) → Has p.0 x → Has self x) }
        ensures right { IfSome result (λ p. (y : ℕ) → Has p.1 y → Has other y) }
        ensures constants { (u v : ℕ) → L.LeavesOnly self.low u → L.LeavesOnly other.low v
            → bit_and u v ≢ 0
            → result ≡ None }
    {
        match (self.low.number(), other.low.number()) {
            (Some(a), Some(b)) if a & b != 0 => None,
            _ => Some((self, other)),
        }
    }

    /// Returns what is left of both where a low half of this has a bit in common with one of the
    /// other: neither is 0.
    pub fn low_overlapping(self, other: Self) -> Option<(Self, Self)>
        ensures common { (x y : ℕ) → Has self x → Has other y
            → bit_and (x % 2 ^ 32) (y % 2 ^ 32) ≢ 0
            → IsSomeAnd result (λ p. Has p.0 x × Has p.1 y) }
        ensures left { IfSome result (λ p. (x : ℕ) → Has p.0 x → Has self x) }
        ensures right { IfSome result (λ p. (y : ℕ) → Has p.1 y → Has other y) }
        ensures left_limit { IfSome result (λ p. (x : ℕ) → Has p.0 x → 0 < x % 2 ^ 32) }
        ensures right_limit { IfSome result (λ p. (y : ℕ) → Has p.1 y → 0 < y % 2 ^ 32) }
        ensures tight { IfSome result (λ p. IsTight p.0 × IsTight p.1) }
    {
        let not_zero = Low::between(1, u32::MAX);
        self.both_low_limited(other, not_zero, not_zero)
    }

    // The numbers of this with low halves within `left`, and those of the other with low halves
    // within `right`. `None`: there are none of one or the other.
    fn both_low_limited(self, other: Self, left: Low, right: Low) -> Option<(Self, Self)>
        ensures common { (x y : ℕ) → Has self x → Has other y → L.Has left (x % 2 ^ 32)
            → L.Has right (y % 2 ^ 32)
            → IsSomeAnd result (λ p. Has p.0 x × Has p.1 y) }
        ensures left { IfSome result (λ p. (x : ℕ) → Has p.0 x → Has self x) }
        ensures right { IfSome result (λ p. (y : ℕ) → Has p.1 y → Has other y) }
        ensures left_limits { IfSome result (λ p. (x : ℕ) → Has p.0 x → L.Has left (x % 2 ^ 32)) }
        ensures right_limits { IfSome result (λ p. (y : ℕ) → Has p.1 y
            → L.Has right (y % 2 ^ 32)) }
        ensures tight { IfSome result (λ p. IsTight p.0 × IsTight p.1) }
    {
        let first = self.low_limited(left)?;
        let second = other.low_limited(right)?;
        Some((first, second))
    }

    // The numbers of this whose low half is from one number to another.
    fn low_from_to(self, least: u32, greatest: u32) -> Option<Self>
        requires { least ≤ greatest }
        ensures common { (x : ℕ) → Has self x → least ≤ x % 2 ^ 32 → x % 2 ^ 32 ≤ greatest
            → IsSomeAnd result (λ m. Has m x) }
        ensures left { IfSome result (λ m. (x : ℕ) → Has m x → Has self x) }
        ensures right { IfSome result (λ m. (x : ℕ) → Has m x
            → (least ≤ x % 2 ^ 32) × (x % 2 ^ 32 ≤ greatest)) }
        ensures enclosed { IfSome result (Encloses self) }
        ensures tight { IfSome result IsTight }
    {
        self.low_limited(Low::between(least, greatest))
    }

    // The same, read as signed numbers.
    fn low_signed_from_to(self, least: i32, greatest: i32) -> Option<Self>
        requires { least ≤ℤ greatest }
        ensures common { (x : ℕ) → Has self x → least ≤ℤ cast_signed w32 (x % 2 ^ 32)
            → cast_signed w32 (x % 2 ^ 32) ≤ℤ greatest
            → IsSomeAnd result (λ m. Has m x) }
        ensures left { IfSome result (λ m. (x : ℕ) → Has m x → Has self x) }
        ensures right { IfSome result (λ m. (x : ℕ) → Has m x
            → (least ≤ℤ cast_signed w32 (x % 2 ^ 32))
            × (cast_signed w32 (x % 2 ^ 32) ≤ℤ greatest)) }
        ensures tight { IfSome result IsTight }
    {
        self.low_limited(Low::signed_between(least, greatest))
    }

    // The numbers of this whose low half differs from that of some number of the other.
    fn low_unequal_to(self, other: Self) -> Option<Self>
        ensures common { (x y : ℕ) → Has self x → Has other y → x % 2 ^ 32 ≢ y % 2 ^ 32
            → IsSomeAnd result (λ r. Has r x) }
        ensures left { IfSome result (λ r. (x : ℕ) → Has r x → Has self x) }
        ensures limit { IfSome result (λ r. (v : ℕ) → L.LeavesOnly other.low v
            → L.IsLimit self.low v → (x : ℕ) → Has r x → x % 2 ^ 32 ≢ v) }
        ensures tight { IsTight self → IfSome result IsTight }
    {
        match other.low.number() {
            Some(half) => self.low_without(half),
            None => Some(self),
        }
    }

    // The numbers of this without one low half, where it is one of the limits.
    fn low_without(self, half: u32) -> Option<Self>
        ensures common { (x : ℕ) → Has self x → x % 2 ^ 32 ≢ half
            → IsSomeAnd result (λ r. Has r x) }
        ensures left { IfSome result (λ r. (x : ℕ) → Has r x → Has self x) }
        ensures limit { IfSome result (λ r. L.IsLimit self.low half → (x : ℕ) → Has r x
            → x % 2 ^ 32 ≢ half) }
        ensures tight { IsTight self → IfSome result IsTight }
    {
        let unsigned = self.low_without_unsigned(half)?;
        let rest = unsigned.low_without_signed(half)?;
        Some(rest)
    }

    // The numbers of this without one low half, where it is an unsigned limit.
    fn low_without_unsigned(self, half: u32) -> Option<Self>
        ensures common { (x : ℕ) → Has self x → x % 2 ^ 32 ≢ half
            → IsSomeAnd result (λ r. Has r x) }
        ensures left { IfSome result (λ r. (x : ℕ) → Has r x → Has self x) }
        ensures enclosed { IfSome result (Encloses self) }
        ensures limit { IfSome result (λ r. (self.low.least ≡ half) ⊎ (self.low.greatest ≡ half)
            → (x : ℕ) → Has r x → x % 2 ^ 32 ≢ half) }
        ensures tight { IsTight self → IfSome result IsTight }
    {
        if self.low.least == half {
            if half == u32::MAX {
                return None;
            }
            self.low_from_to(half + 1, u32::MAX)
        } else if self.low.greatest == half {
            if half == 0 {
                return None;
            }
            self.low_from_to(0, half - 1)
        } else {
            Some(self)
        }
    }

    // The numbers of this without one low half, where it is a signed limit.
    fn low_without_signed(self, half: u32) -> Option<Self>
        ensures common { (x : ℕ) → Has self x → x % 2 ^ 32 ≢ half
            → IsSomeAnd result (λ r. Has r x) }
        ensures left { IfSome result (λ r. (x : ℕ) → Has r x → Has self x) }
        ensures limit { IfSome result (λ r. (self.low.signed_least ≡ cast_signed w32 half)
            ⊎ (self.low.signed_greatest ≡ cast_signed w32 half)
            → (x : ℕ) → Has r x → x % 2 ^ 32 ≢ half) }
        ensures tight { IsTight self → IfSome result IsTight }
    {
        let signed = half.cast_signed();
        if self.low.signed_least == signed {
            if signed == i32::MAX {
                return None;
            }
            self.low_signed_from_to(signed + 1, i32::MAX)
        } else if self.low.signed_greatest == signed {
            if signed == i32::MIN {
                return None;
            }
            self.low_signed_from_to(i32::MIN, signed - 1)
        } else {
            Some(self)
        }
    }
}
