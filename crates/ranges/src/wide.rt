//! Limits at 64 bits: the type, common numbers and inclusion.

ghost use Rattle.std.specs.Prelude.{◌≡◌, ℕ, ◌+◌, ◌^◌, ◌<◌, ◌≤◌, ◌≤ℤ◌, ◌↔◌, IsSomeAnd, IfSome, IsTrue};
ghost use Rattle.std.specs.Int.{w64, cast_signed, cast_unsigned};
ghost use Rattle.isa_model.specs.Code.Sizes.{width_bits};

use isa_model::Width;

/// The numbers within both pairs of limits: as unsigned and as signed numbers of 64 bits. Linux
/// calls them umin, umax, smin and smax. The set may be empty.
#[derive(Clone, Copy, PartialEq, Eq, Debug)]
pub struct Wide {
    pub least: u64,
    pub greatest: u64,
    pub signed_least: i64,
    pub signed_greatest: i64,
    pub ghost ordered: { least ≤ greatest },
    pub ghost signed_ordered: { signed_least ≤ℤ signed_greatest },
}

impl Wide {
    ghost use Rattle.ranges.specs.Wides.{Has, IsConstant, IsTight, ReadsAlike, Encloses};

    /// All numbers of the width.
    pub fn any(width: Width) -> Self
        ensures members { (x : ℕ) → (Has result x ↔ (x < 2 ^ width_bits width)) }
        ensures fits { result.greatest < 2 ^ width_bits width }
        ensures tight { IsTight result }
    {
        Wide::between(0, greatest_of(width))
    }

    /// The set of one number.
    pub fn constant(number: u64) -> Self
        ensures contains { Has result number }
        ensures only { (x : ℕ) → Has result x → x ≡ number }
        ensures constant { IsConstant result number }
    {
        let signed = number.cast_signed();
        Wide {
            least: number,
            greatest: number,
            signed_least: signed,
            signed_greatest: signed,
        }
    }

    /// The numbers between two unsigned limits.
    pub fn between(least: u64, greatest: u64) -> Self
        requires { least ≤ greatest }
        ensures members { (x : ℕ) → (Has result x ↔ ((least ≤ x) × (x ≤ greatest))) }
        ensures limits { (result.least ≡ least) × (result.greatest ≡ greatest) }
        ensures signed { cast_signed w64 least ≤ℤ cast_signed w64 greatest
            → (result.signed_least ≡ cast_signed w64 least)
            × (result.signed_greatest ≡ cast_signed w64 greatest) }
    {
        if greatest < SIGN || least >= SIGN {
            Wide {
                least,
                greatest,
                signed_least: least.cast_signed(),
                signed_greatest: greatest.cast_signed(),
            }
        } else {
            Wide {
                least,
                greatest,
                signed_least: i64::MIN,
                signed_greatest: i64::MAX,
            }
        }
    }

    /// The numbers between two signed limits.
    pub fn signed_between(least: i64, greatest: i64) -> Self
        requires { least ≤ℤ greatest }
        ensures members { (x : ℕ) → (Has result x
            ↔ ((x < 2 ^ 64) × (least ≤ℤ cast_signed w64 x) × (cast_signed w64 x ≤ℤ greatest))) }
        ensures limits { (result.signed_least ≡ least) × (result.signed_greatest ≡ greatest) }
        ensures unsigned { cast_unsigned w64 least ≤ cast_unsigned w64 greatest
            → (result.least ≡ cast_unsigned w64 least)
            × (result.greatest ≡ cast_unsigned w64 greatest) }
    {
        if least >= 0 || greatest < 0 {
            Wide {
                least: least.cast_unsigned(),
                greatest: greatest.cast_unsigned(),
                signed_least: least,
                signed_greatest: greatest,
            }
        } else {
            Wide {
                least: 0,
                greatest: u64::MAX,
                signed_least: least,
                signed_greatest: greatest,
            }
        }
    }

    // The numbers below 2^63, without a sign bit.
    pub(crate) fn plain_part(self) -> Option<Self>
        ensures common { (x : ℕ) → Has self x → x < 2 ^ 63 → IsSomeAnd result (λ h. Has h x) }
        ensures left { IfSome result (λ h. (x : ℕ) → Has h x → Has self x) }
        ensures enclosed { IfSome result (Encloses self) }
        ensures side { IfSome result (λ h. h.greatest < 2 ^ 63) }
        ensures alike { IfSome result ReadsAlike }
    {
        if self.signed_greatest < 0 {
            return None;
        }
        let least = self.least.max(self.signed_least.max(0).cast_unsigned());
        let greatest = self.greatest.min(self.signed_greatest.cast_unsigned());
        if least > greatest {
            return None;
        }
        Some(Wide::between(least, greatest))
    }

    // The numbers from 2^63 on, with the sign bit.
    pub(crate) fn signed_part(self) -> Option<Self>
        ensures common { (x : ℕ) → Has self x → 2 ^ 63 ≤ x → IsSomeAnd result (λ h. Has h x) }
        ensures left { IfSome result (λ h. (x : ℕ) → Has h x → Has self x) }
        ensures enclosed { IfSome result (Encloses self) }
        ensures side { IfSome result (λ h. 2 ^ 63 ≤ h.least) }
        ensures alike { IfSome result ReadsAlike }
    {
        if self.signed_least >= 0 {
            return None;
        }
        let least = self.least.max(self.signed_least.cast_unsigned());
        let greatest = self
            .greatest
            .min(self.signed_greatest.min(-1).cast_unsigned());
        if least > greatest {
            return None;
        }
        Some(Wide::between(least, greatest))
    }

    // Of each two limits the narrower one.
    pub(crate) fn within(self, other: Self) -> Option<Self>
        ensures common { (x : ℕ) → Has self x → Has other x → IsSomeAnd result (λ m. Has m x) }
        ensures left { IfSome result (λ m. (x : ℕ) → Has m x → Has self x) }
        ensures right { IfSome result (λ m. (x : ℕ) → Has m x → Has other x) }
        ensures enclosed { IfSome result (λ m. Encloses self m × Encloses other m) }
    {
        let least = self.least.max(other.least);
        let greatest = self.greatest.min(other.greatest);
        let signed_least = self.signed_least.max(other.signed_least);
        let signed_greatest = self.signed_greatest.min(other.signed_greatest);
        if least > greatest || signed_least > signed_greatest {
            return None;
        }
        Some(Wide {
            least,
            greatest,
            signed_least,
            signed_greatest,
        })
    }

    // The common members; if there are none, any limits will do.
    pub(crate) fn with(self, other: Self) -> Self
        ensures common { (x : ℕ) → Has self x → Has other x → Has result x }
        ensures enclosed { Encloses self result }
        ensures other { (x : ℕ) → Has self x → Has other x → Encloses other result }
    {
        match self.within(other) {
            Some(both) => both,
            None => self,
        }
    }

    /// Returns whether the limits show that each member of `other` is one of this.
    pub fn covers(self, other: Self) -> bool
        ensures limits { IsTrue result ↔ Encloses self other }
        ensures yes { IsTrue result → (x : ℕ) → Has other x → Has self x }
        ensures equal { self ≡ other → IsTrue result }
    {
        self.least <= other.least
            && other.greatest <= self.greatest
            && self.signed_least <= other.signed_least
            && other.signed_greatest <= self.signed_greatest
    }
}

const SIGN: u64 = 0x8000_0000_0000_0000;

// The greatest number of the width.
fn greatest_of(width: Width) -> u64
    ensures { result + 1 ≡ 2 ^ width_bits width }
{
    match width {
        Width::Low32 => 0xffff_ffff,
        Width::Full64 => u64::MAX,
    }
}
