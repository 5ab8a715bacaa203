//! Known bits: the type, common members and inclusion.

ghost use Rattle.std.specs.Prelude.{◌≡◌, ◌≢◌, ℕ, ◌+◌, ◌/◌, ◌^◌, ◌<◌, ◌≤◌, ◌↔◌, IsSomeAnd, IfSome, IsTrue, bit_and};
ghost use Rattle.std.specs.Int.{bit_at};
ghost use Rattle.isa_model.specs.Code.Sizes.{width_bits};

use isa_model::Width;

/// The numbers x with `x & !mask == value`: the mask has the unknown bits. Linux calls it a tnum.
#[derive(Clone, Copy, PartialEq, Eq, Debug)]
pub struct Bits {
    pub value: u64,
    pub mask: u64,
    pub ghost apart: { bit_and value mask ≡ 0 },
    // A law reads the mask as a natural number, and so needs to know that it has 64 bits.
    pub ghost fits: { mask < 2 ^ 64 },
}

impl Bits {
    ghost use Rattle.known_bits.specs.Bits.{Has, IsConstant};

    /// All numbers of the width.
    pub fn any(width: Width) -> Self
        ensures { (x : ℕ) → (Has result x ↔ (x < 2 ^ width_bits width)) }
    {
        Bits {
            value: 0,
            mask: ones(width.bits()),
        }
    }

    /// The set of one number.
    pub fn constant(number: u64) -> Self
        ensures contains { Has result number }
        ensures only { (x : ℕ) → Has result x → x ≡ number }
        ensures constant { IsConstant result number }
    {
        Bits {
            value: number,
            mask: 0,
        }
    }

    /// The bits that all numbers from `least` to `greatest` share.
    pub fn between(least: u64, greatest: u64) -> Self
        requires { least ≤ greatest }
        ensures contains { (x : ℕ) → least ≤ x → x ≤ greatest → Has result x }
        ensures sharp { (i : ℕ) → bit_at result.mask i ≡ 1 → least / 2 ^ i ≢ greatest / 2 ^ i }
    {
        let count = 64 - (least ^ greatest).leading_zeros();
        let mask = ones(count);
        Bits {
            value: least & !mask,
            mask,
        }
    }

    /// The common members.
    pub fn meet(self, other: Self) -> Option<Self>
        ensures common { (x : ℕ) → Has self x → Has other x → IsSomeAnd result (λ m. Has m x) }
        ensures left { IfSome result (λ m. (x : ℕ) → Has m x → Has self x) }
        ensures right { IfSome result (λ m. (x : ℕ) → Has m x → Has other x) }
    {
        let clash = (self.value ^ other.value) & !(self.mask | other.mask);
        if clash != 0 {
            return None;
        }
        Some(Bits {
            value: self.value | other.value,
            mask: self.mask & other.mask,
        })
    }

    /// Returns whether each member of `other` is a member of this.
    pub fn covers(self, other: Self) -> bool
        ensures inclusion { IsTrue result ↔ ((x : ℕ) → Has other x → Has self x) }
        ensures equal { self ≡ other → IsTrue result }
    {
        other.mask & !self.mask == 0 && (self.value ^ other.value) & !self.mask == 0
    }
}

// The number whose low `count` bits are 1, and no others.
pub(crate) fn ones(count: u32) -> u64
    requires { count ≤ 64 }
    ensures { result + 1 ≡ 2 ^ count }
{
    if count == 64 {
        u64::MAX
    } else {
        (1u64 << count) - 1
    }
}
