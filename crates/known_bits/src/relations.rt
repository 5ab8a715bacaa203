//! What is left of two sets where a number of the one has a relation to a number of the other: of
//! each at least the numbers that have it to some number of the other set.

ghost use Rattle.std.specs.Prelude.{◌≡◌, ◌≢◌, ℕ, ◌<◌, ◌≤◌, ◌<ℤ◌, ◌≤ℤ◌, ◌^◌, IsSomeAnd, IfSome, bit_and, bit_or};
ghost use Rattle.std.specs.Int.{w64, cast_signed, bit_at};

use crate::bits::Bits;

impl Bits {
    ghost use Rattle.known_bits.specs.Bits.{Has, SomePair};

    /// Returns what is left of both where a number of this is below one of the other. `None`: there
    /// are no such numbers.
    pub fn below(self, other: Self) -> Option<(Self, Self)>
        ensures common { (x y : ℕ) → Has self x → Has other y → x < y
            → IsSomeAnd result (λ p. Has p.0 x × Has p.1 y) }
        ensures left { IfSome result (λ p. (x : ℕ) → Has p.0 x → Has self x) }
        ensures right { IfSome result (λ p. (y : ℕ) → Has p.1 y → Has other y) }
        ensures found { IfSome result (λ p. SomePair self other (λ x y. x < y)) }
    {
        let least = self.least();
        let greatest = other.greatest();
        if least >= greatest {
            return None;
        }
        let left = self.meet(Bits::between(0, greatest - 1))?;
        let right = other.meet(Bits::between(least + 1, u64::MAX))?;
        Some((left, right))
    }

    /// Returns what is left of both where a number of this is at most one of the other.
    pub fn at_most(self, other: Self) -> Option<(Self, Self)>
        ensures common { (x y : ℕ) → Has self x → Has other y → x ≤ y
            → IsSomeAnd result (λ p. Has p.0 x × Has p.1 y) }
        ensures left { IfSome result (λ p. (x : ℕ) → Has p.0 x → Has self x) }
        ensures right { IfSome result (λ p. (y : ℕ) → Has p.1 y → Has other y) }
        ensures found { IfSome result (λ p. SomePair self other (λ x y. x ≤ y)) }
    {
        let least = self.least();
        let greatest = other.greatest();
        if least > greatest {
            return None;
        }
        let left = self.meet(Bits::between(0, greatest))?;
        let right = other.meet(Bits::between(least, u64::MAX))?;
        Some((left, right))
    }

    /// Does what `below` does, for signed numbers.
    pub fn signed_below(self, other: Self) -> Option<(Self, Self)>
        ensures common { (x y : ℕ) → Has self x → Has other y
            → cast_signed w64 x <ℤ cast_signed w64 y
            → IsSomeAnd result (λ p. Has p.0 x × Has p.1 y) }
        ensures left { IfSome result (λ p. (x : ℕ) → Has p.0 x → Has self x) }
        ensures right { IfSome result (λ p. (y : ℕ) → Has p.1 y → Has other y) }
        ensures found { IfSome result
            (λ p. SomePair self other (λ x y. cast_signed w64 x <ℤ cast_signed w64 y)) }
    {
        if self.signed_least() < other.signed_greatest() {
            Some((self, other))
        } else {
            None
        }
    }

    /// Does what `at_most` does, for signed numbers.
    pub fn signed_at_most(self, other: Self) -> Option<(Self, Self)>
        ensures common { (x y : ℕ) → Has self x → Has other y
            → cast_signed w64 x ≤ℤ cast_signed w64 y
            → IsSomeAnd result (λ p. Has p.0 x × Has p.1 y) }
        ensures left { IfSome result (λ p. (x : ℕ) → Has p.0 x → Has self x) }
        ensures right { IfSome result (λ p. (y : ℕ) → Has p.1 y → Has other y) }
        ensures found { IfSome result
            (λ p. SomePair self other (λ x y. cast_signed w64 x ≤ℤ cast_signed w64 y)) }
    {
        if self.signed_least() <= other.signed_greatest() {
            Some((self, other))
        } else {
            None
        }
    }

    /// Returns what is left of both where a number of this differs from one of the other.
    pub fn unequal(self, other: Self) -> Option<(Self, Self)>
        ensures common { (x y : ℕ) → Has self x → Has other y → x ≢ y
            → IsSomeAnd result (λ p. Has p.0 x × Has p.1 y) }
        ensures left { IfSome result (λ p. (x : ℕ) → Has p.0 x → Has self x) }
        ensures right { IfSome result (λ p. (y : ℕ) → Has p.1 y → Has other y) }
        ensures found { IfSome result (λ p. SomePair self other (λ x y. x ≢ y)) }
    {
        if self.mask == 0 && other.mask == 0 && self.value == other.value {
            None
        } else {
            Some((self, other))
        }
    }

    /// Returns what is left of both where a number of this has no bit in common with one of the
    /// other.
    pub fn disjoint(self, other: Self) -> Option<(Self, Self)>
        ensures common { (x y : ℕ) → Has self x → Has other y → bit_and x y ≡ 0
            → IsSomeAnd result (λ p. Has p.0 x × Has p.1 y) }
        ensures left { IfSome result (λ p. (x : ℕ) → Has p.0 x → Has self x) }
        ensures right { IfSome result (λ p. (y : ℕ) → Has p.1 y → Has other y) }
        ensures found { IfSome result (λ p. SomePair self other (λ x y. bit_and x y ≡ 0)) }
        ensures left_only { IfSome result (λ p. (x : ℕ) → Has p.0 x → bit_and x other.value ≡ 0) }
        ensures right_only { IfSome result (λ p. (y : ℕ) → Has p.1 y → bit_and y self.value ≡ 0) }
    {
        let left = self.meet(Bits::outside(other.value))?;
        let right = other.meet(Bits::outside(self.value))?;
        Some((left, right))
    }

    /// Returns what is left of both where a number of this has a bit in common with one of the
    /// other.
    pub fn overlapping(self, other: Self) -> Option<(Self, Self)>
        ensures common { (x y : ℕ) → Has self x → Has other y → bit_and x y ≢ 0
            → IsSomeAnd result (λ p. Has p.0 x × Has p.1 y) }
        ensures left { IfSome result (λ p. (x : ℕ) → Has p.0 x → Has self x) }
        ensures right { IfSome result (λ p. (y : ℕ) → Has p.1 y → Has other y) }
        ensures found { IfSome result (λ p. SomePair self other (λ x y. bit_and x y ≢ 0)) }
        ensures left_only { IfSome result (λ p. (x i : ℕ)
            → bit_and (bit_or self.value self.mask) (bit_or other.value other.mask) ≡ 2 ^ i
            → Has p.0 x → bit_at x i ≡ 1) }
        ensures right_only { IfSome result (λ p. (y i : ℕ)
            → bit_and (bit_or self.value self.mask) (bit_or other.value other.mask) ≡ 2 ^ i
            → Has p.1 y → bit_at y i ≡ 1) }
    {
        let shared = (self.value | self.mask) & (other.value | other.mask);
        if shared == 0 {
            return None;
        }
        let lowest = shared.trailing_zeros();
        if shared != 1u64 << lowest {
            return Some((self, other));
        }
        let left = self.meet(Bits::having(lowest))?;
        let right = other.meet(Bits::having(lowest))?;
        Some((left, right))
    }

    // The numbers that have none of these bits.
    pub(crate) fn outside(bits: u64) -> Self
        ensures contains { (x : ℕ) → x < 2 ^ 64 → bit_and x bits ≡ 0 → Has result x }
        ensures only { (x : ℕ) → Has result x → bit_and x bits ≡ 0 }
    {
        Bits {
            value: 0,
            mask: !bits,
        }
    }

    // The numbers whose bit at this position is 1.
    fn having(position: u32) -> Self
        requires { position < 64 }
        ensures contains { (x : ℕ) → x < 2 ^ 64 → bit_at x position ≡ 1 → Has result x }
        ensures only { (x : ℕ) → Has result x → bit_at x position ≡ 1 }
    {
        let bit = 1u64 << position;
        Bits {
            value: bit,
            mask: !bit,
        }
    }
}
