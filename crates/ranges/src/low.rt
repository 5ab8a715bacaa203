//! Limits of low halves: the type, common numbers and inclusion.

ghost use Rattle.std.specs.Prelude.{◌≡◌, ℕ, ℤ, ◌+◌, ◌^◌, ◌<◌, ◌≤◌, ◌≤ℤ◌, ◌↔◌, IsSomeAnd, IfSome, Some, IsTrue, FitsSigned};
ghost use Rattle.std.specs.Int.{w32, cast_signed, cast_unsigned};

/// The low halves of numbers, within both pairs of limits: as unsigned and as signed numbers of 32
/// bits. Linux calls these limits u32_min, u32_max, s32_min and s32_max. The set may be empty.
#[derive(Clone, Copy, PartialEq, Eq, Debug)]
pub struct Low {
    pub least: u32,
    pub greatest: u32,
    pub signed_least: i32,
    pub signed_greatest: i32,
    pub ghost ordered: { least ≤ greatest },
    pub ghost signed_ordered: { signed_least ≤ℤ signed_greatest },
}

impl Low {
    ghost use Rattle.ranges.specs.Lows.{Has, IsConstant, IsTight, IsOfEither, ReadsAlike, Encloses};
    ghost use Rattle.ranges.specs.Lows.{LeavesOnly};

    /// All low halves.
    pub fn any() -> Self
        ensures members { (e : ℕ) → (Has result e ↔ (e < 2 ^ 32)) }
        ensures signed { (z : ℤ) → ((result.signed_least ≤ℤ z) × (z ≤ℤ result.signed_greatest)
            ↔ FitsSigned w32 z) }
        ensures tight { IsTight result }
    {
        Low {
            least: 0,
            greatest: u32::MAX,
            signed_least: i32::MIN,
            signed_greatest: i32::MAX,
        }
    }

    /// The set of one low half.
    pub fn constant(half: u32) -> Self
        ensures { IsConstant result half }
    {
        let signed = half.cast_signed();
        Low {
            least: half,
            greatest: half,
            signed_least: signed,
            signed_greatest: signed,
        }
    }

    /// The low half, where the unsigned limits leave only one.
    pub fn number(self) -> Option<u32>
        ensures alone { IfSome result (LeavesOnly self) }
        ensures found { (e : ℕ) → LeavesOnly self e → result ≡ Some e }
        ensures only { IfSome result (λ n. (e : ℕ) → Has self e → e ≡ n) }
    {
        if self.least == self.greatest {
            Some(self.least)
        } else {
            None
        }
    }

    /// The low halves between two unsigned limits.
    pub fn between(least: u32, greatest: u32) -> Self
        requires { least ≤ greatest }
        ensures members { (e : ℕ) → (Has result e ↔ ((least ≤ e) × (e ≤ greatest))) }
        ensures limits { (result.least ≡ least) × (result.greatest ≡ greatest) }
        ensures signed { cast_signed w32 least ≤ℤ cast_signed w32 greatest
            → (result.signed_least ≡ cast_signed w32 least)
            × (result.signed_greatest ≡ cast_signed w32 greatest) }
    {
        if greatest < SIGN || least >= SIGN {
            Low {
                least,
                greatest,
                signed_least: least.cast_signed(),
                signed_greatest: greatest.cast_signed(),
            }
        } else {
            Low {
                least,
                greatest,
                signed_least: i32::MIN,
                signed_greatest: i32::MAX,
            }
        }
    }

    // The low halves between two signed limits, some of them with the sign bit and some without.
    pub(crate) fn signed_between(least: i32, greatest: i32) -> Self
        requires { least ≤ℤ greatest }
        ensures members { (e : ℕ) → e < 2 ^ 32 → least ≤ℤ cast_signed w32 e
            → cast_signed w32 e ≤ℤ greatest → Has result e }
        ensures limits { (result.signed_least ≡ least) × (result.signed_greatest ≡ greatest) }
    {
        Low {
            least: 0,
            greatest: u32::MAX,
            signed_least: least,
            signed_greatest: greatest,
        }
    }

    /// The common low halves. Each limit is one of them.
    pub fn meet(self, other: Self) -> Option<Self>
        ensures common { (e : ℕ) → Has self e → Has other e → IsSomeAnd result (λ m. Has m e) }
        ensures enclosed { IfSome result (λ m. Encloses self m × Encloses other m) }
        ensures tight { IfSome result IsTight }
    {
        let both = self.within(other)?;
        both.tightened()
    }

    // The same low halves, by the narrowest limits: those of the two parts in which the signed and
    // the unsigned order agree.
    pub(crate) fn tightened(self) -> Option<Self>
        ensures common { (e : ℕ) → Has self e → IsSomeAnd result (λ m. Has m e) }
        ensures enclosed { IfSome result (Encloses self) }
        ensures tight { IfSome result IsTight }
    {
        match (self.plain_part(), self.signed_part()) {
            (Some(plain), Some(signed)) => Some(Low {
                least: plain.least,
                greatest: signed.greatest,
                signed_least: signed.signed_least,
                signed_greatest: plain.signed_greatest,
            }),
            (Some(plain), None) => Some(plain),
            (None, signed) => signed,
        }
    }

    // The low halves below 2^31, without a sign bit.
    fn plain_part(self) -> Option<Self>
        ensures common { (e : ℕ) → Has self e → e < 2 ^ 31 → IsSomeAnd result (λ h. Has h e) }
        ensures left { IfSome result (λ h. (e : ℕ) → Has h e → Has self e) }
        ensures side { IfSome result (λ h. h.greatest < 2 ^ 31) }
        ensures alike { IfSome result ReadsAlike }
    {
        if self.signed_greatest < 0 {
            return None;
        }
        let least = self.least.max(self.signed_least.max(0).cast_unsigned());
        let greatest = self.greatest.min(self.signed_greatest.cast_unsigned());
        if least > greatest {
            return None;
        }
        Some(Low::between(least, greatest))
    }

    // The low halves from 2^31 on, with the sign bit.
    fn signed_part(self) -> Option<Self>
        ensures common { (e : ℕ) → Has self e → 2 ^ 31 ≤ e → IsSomeAnd result (λ h. Has h e) }
        ensures left { IfSome result (λ h. (e : ℕ) → Has h e → Has self e) }
        ensures side { IfSome result (λ h. 2 ^ 31 ≤ h.least) }
        ensures alike { IfSome result ReadsAlike }
    {
        if self.signed_least >= 0 {
            return None;
        }
        let least = self.least.max(self.signed_least.cast_unsigned());
        let greatest = self
            .greatest
            .min(self.signed_greatest.min(-1).cast_unsigned());
        if least > greatest {
            return None;
        }
        Some(Low::between(least, greatest))
    }

    // Of each two limits the narrower one.
    pub(crate) fn within(self, other: Self) -> Option<Self>
        ensures common { (e : ℕ) → Has self e → Has other e → IsSomeAnd result (λ m. Has m e) }
        ensures enclosed { IfSome result (λ m. Encloses self m × Encloses other m) }
    {
        let least = self.least.max(other.least);
        let greatest = self.greatest.min(other.greatest);
        let signed_least = self.signed_least.max(other.signed_least);
        let signed_greatest = self.signed_greatest.min(other.signed_greatest);
        if least > greatest || signed_least > signed_greatest {
            return None;
        }
        Some(Low {
            least,
            greatest,
            signed_least,
            signed_greatest,
        })
    }

    // The common low halves; if there are none, any limits will do.
    pub(crate) fn with(self, other: Self) -> Self
        ensures common { (e : ℕ) → Has self e → Has other e → Has result e }
        ensures enclosed { Encloses self result }
        ensures other { (e : ℕ) → Has self e → Has other e → Encloses other result }
        ensures tight { (e : ℕ) → Has self e → Has other e → IsTight result }
    {
        match self.meet(other) {
            Some(both) => both,
            None => self,
        }
    }

    // The narrowest limits that enclose both.
    pub(crate) fn hull(self, other: Self) -> Self
        ensures left { Encloses result self }
        ensures right { Encloses result other }
        ensures within { (l : Low) → Encloses l self → Encloses l other → Encloses l result }
        ensures either { IsOfEither result self other }
    {
        Low {
            least: self.least.min(other.least),
            greatest: self.greatest.max(other.greatest),
            signed_least: self.signed_least.min(other.signed_least),
            signed_greatest: self.signed_greatest.max(other.signed_greatest),
        }
    }

    /// Returns whether the limits show that each low half of `other` is one of this.
    pub fn covers(self, other: Self) -> bool
        ensures { IsTrue result ↔ Encloses self other }
    {
        self.least <= other.least
            && other.greatest <= self.greatest
            && self.signed_least <= other.signed_least
            && other.signed_greatest <= self.signed_greatest
    }

    // The first low half from a number on. Between the two parts there may be a gap.
    pub(crate) fn first_from(self, from: u32) -> Option<u32>
        requires { IsTight self }
        ensures some { IfSome result (λ f. (from ≤ f) × Has self f) }
        ensures first { (e : ℕ) → from ≤ e → Has self e → IsSomeAnd result (λ f. f ≤ e) }
    {
        if from > self.greatest {
            return None;
        }
        let plain = self.signed_greatest.cast_unsigned();
        let signed = self.signed_least.cast_unsigned();
        if from <= self.least {
            Some(self.least)
        } else if plain < from && from < signed {
            Some(signed)
        } else {
            Some(from)
        }
    }

    // The last low half up to a number.
    pub(crate) fn last_to(self, to: u32) -> Option<u32>
        requires { IsTight self }
        ensures some { IfSome result (λ l. (l ≤ to) × Has self l) }
        ensures last { (e : ℕ) → e ≤ to → Has self e → IsSomeAnd result (λ l. e ≤ l) }
    {
        if to < self.least {
            return None;
        }
        let plain = self.signed_greatest.cast_unsigned();
        let signed = self.signed_least.cast_unsigned();
        if to >= self.greatest {
            Some(self.greatest)
        } else if plain < to && to < signed {
            Some(plain)
        } else {
            Some(to)
        }
    }
}

const SIGN: u32 = 0x8000_0000;
