//! What every domain of numbers offers.

ghost use Rattle.std.specs.Prelude.{◌≡◌, ◌≢◌, ℕ, ◌^◌, ◌<◌, ◌≤◌, ◌<ℤ◌, ◌≤ℤ◌, ◌↔◌, Some, IsSomeAnd, IfSome, IsTrue, bit_and, pos};
ghost use Rattle.std.specs.Int.{w64, cast_signed, bit_at};
ghost use Rattle.isa_model.specs.Code.Sizes.{width_bits, span_bits, extension_width};
ghost use Rattle.isa_model.specs.Code.Numbers.{alu, negated, sign_extended, reordered, low, signed};
ghost use Rattle.reg_state.specs.Limits.{Limits};
ghost use Rattle.isa_model.specs.declared.sizes.Width.{Width};
ghost use Rattle.isa_model.specs.declared.sizes.Width.TheVariants.{Full64};
ghost use Rattle.reg_state.specs.Going.{IsWithinLimits, IsLimit, IsAlone};

use isa_model::{AluOp, ByteOrder, Extension, SwapWidth, Width};

/// Sets of numbers below 2^64, each of which a register may hold. `has` says which numbers are
/// members; `is_constant` that a set is represented as a single number, `encloses` that the
/// representation of one set shows that it contains the other, `limits` between which limits the
/// members are known to be, `allows` as which numbers of a width they may be read, `ones` which
/// bits each of them is known to have, and `possible` which bits any of them may have.
pub trait Domain: Copy {
    ghost has: { Self → ℕ → Type 0 };

    ghost is_constant: { Self → ℕ → Type 0 };

    ghost encloses: { Self → Self → Type 0 };

    ghost limits: { Width → Self → Limits };

    ghost allows: { Width → Self → ℕ → Type 0 };

    ghost ones: { Self → ℕ };

    ghost possible: { Self → ℕ };

    /// All numbers of the width.
    fn any(width: Width) -> Self
        ensures { (x : ℕ) → (has result x ↔ (x < 2 ^ width_bits width)) };

    fn constant(number: u64) -> Self
        ensures { is_constant result number };

    /// At least the numbers from `least` to `greatest`.
    fn between(least: u64, greatest: u64) -> Self
        requires { least ≤ greatest }
        ensures contains { (x : ℕ) → least ≤ x → x ≤ greatest → has result x };

    /// The number, where only one is known to be left.
    fn number(self) -> Option<u64>
        ensures constant { (u : ℕ) → is_constant self u → result ≡ Some u }
        ensures only { IfSome result (λ n. (x : ℕ) → has self x → x ≡ n) };

    /// A number that no member exceeds.
    fn greatest(self) -> u64
        ensures members { (x : ℕ) → has self x → x ≤ result }
        ensures exact { (u : ℕ) → is_constant self u → result ≡ u }
        ensures limit { pos result ≤ℤ (limits Full64 self).greatest }
        ensures possible { result ≤ possible self };

    /// The results of the operation on members of both.
    fn alu(op: AluOp, width: Width, a: Self, b: Self) -> Self
        ensures contains { (x y : ℕ) → has a x → has b y → has result (alu op width x y) }
        ensures exact { (u v : ℕ) → is_constant a u → is_constant b v
            → is_constant result (alu op width u v) }
        ensures fits { (x : ℕ) → has result x → x < 2 ^ width_bits width };

    /// The members with their signs changed.
    fn negate(width: Width, a: Self) -> Self
        ensures contains { (x : ℕ) → has a x → has result (negated width x) }
        ensures exact { (u : ℕ) → is_constant a u → is_constant result (negated width u) }
        ensures fits { (x : ℕ) → has result x → x < 2 ^ width_bits width };

    /// The low bits of the members, sign-extended.
    fn sign_extend(extension: Extension, a: Self) -> Self
        ensures contains { (x : ℕ) → has a x → has result (sign_extended extension x) }
        ensures exact { (u : ℕ) → is_constant a u → is_constant result (sign_extended extension u) }
        ensures fits { (x : ℕ) → has result x → x < 2 ^ width_bits (extension_width extension) };

    /// The low bytes of the members, in a byte order.
    fn reorder(order: ByteOrder, span: SwapWidth, a: Self) -> Self
        ensures contains { (x : ℕ) → has a x → has result (reordered order span x) }
        ensures exact { (u : ℕ) → is_constant a u → is_constant result (reordered order span u) }
        ensures fits { (x : ℕ) → has result x → x < 2 ^ span_bits span };

    /// The common members. `None`: there are none.
    fn meet(self, other: Self) -> Option<Self>
        ensures common { (x : ℕ) → has self x → has other x → IsSomeAnd result (λ m. has m x) }
        ensures left { IfSome result (λ m. (x : ℕ) → has m x → has self x) }
        ensures right { IfSome result (λ m. (x : ℕ) → has m x → has other x) };

    /// Returns whether each member of `other` is seen to be a member of this.
    fn covers(self, other: Self) -> bool
        ensures exact { IsTrue result ↔ encloses self other }
        ensures yes { IsTrue result → (x : ℕ) → has other x → has self x }
        ensures equal { self ≡ other → IsTrue result };

    /// Returns what is left of both where a member of this is one of the other, as the width reads
    /// them.
    /// `None`: there are no such members.
    fn equal(self, width: Width, other: Self) -> Option<(Self, Self)>
        ensures common { (x y : ℕ) → has self x → has other y → low width x ≡ low width y
            → IsSomeAnd result (λ p. has p.0 x × has p.1 y) }
        ensures left { IfSome result (λ p. (x : ℕ) → has p.0 x → has self x) }
        ensures right { IfSome result (λ p. (y : ℕ) → has p.1 y → has other y) }
        ensures left_allowed { IfSome result (λ p. (x : ℕ) → has p.0 x
            → allows width other (low width x)) }
        ensures right_allowed { IfSome result (λ p. (y : ℕ) → has p.1 y
            → allows width self (low width y)) };

    /// Returns what is left of both where a member of this is below one of the other, as the width
    /// reads them.
    fn below(self, width: Width, other: Self) -> Option<(Self, Self)>
        ensures common { (x y : ℕ) → has self x → has other y → low width x < low width y
            → IsSomeAnd result (λ p. has p.0 x × has p.1 y) }
        ensures left { IfSome result (λ p. (x : ℕ) → has p.0 x → has self x) }
        ensures right { IfSome result (λ p. (y : ℕ) → has p.1 y → has other y) }
        ensures left_limit { IfSome result (λ p. (x : ℕ) → has p.0 x
            → pos (low width x) <ℤ (limits width other).greatest) }
        ensures right_limit { IfSome result (λ p. (y : ℕ) → has p.1 y
            → (limits width self).least <ℤ pos (low width y)) };

    /// Returns what is left of both where a member of this is at most one of the other.
    fn at_most(self, width: Width, other: Self) -> Option<(Self, Self)>
        ensures common { (x y : ℕ) → has self x → has other y → low width x ≤ low width y
            → IsSomeAnd result (λ p. has p.0 x × has p.1 y) }
        ensures left { IfSome result (λ p. (x : ℕ) → has p.0 x → has self x) }
        ensures right { IfSome result (λ p. (y : ℕ) → has p.1 y → has other y) }
        ensures left_limit { IfSome result (λ p. (x : ℕ) → has p.0 x
            → pos (low width x) ≤ℤ (limits width other).greatest) }
        ensures right_limit { IfSome result (λ p. (y : ℕ) → has p.1 y
            → (limits width self).least ≤ℤ pos (low width y)) };

    /// Does what `below` does, for signed numbers.
    fn signed_below(self, width: Width, other: Self) -> Option<(Self, Self)>
        ensures common { (x y : ℕ) → has self x → has other y
            → signed width (low width x) <ℤ signed width (low width y)
            → IsSomeAnd result (λ p. has p.0 x × has p.1 y) }
        ensures left { IfSome result (λ p. (x : ℕ) → has p.0 x → has self x) }
        ensures right { IfSome result (λ p. (y : ℕ) → has p.1 y → has other y) }
        ensures left_limit { IfSome result (λ p. (x : ℕ) → has p.0 x
            → signed width (low width x) <ℤ (limits width other).signed_greatest) }
        ensures right_limit { IfSome result (λ p. (y : ℕ) → has p.1 y
            → (limits width self).signed_least <ℤ signed width (low width y)) };

    /// Does what `at_most` does, for signed numbers.
    fn signed_at_most(self, width: Width, other: Self) -> Option<(Self, Self)>
        ensures common { (x y : ℕ) → has self x → has other y
            → signed width (low width x) ≤ℤ signed width (low width y)
            → IsSomeAnd result (λ p. has p.0 x × has p.1 y) }
        ensures left { IfSome result (λ p. (x : ℕ) → has p.0 x → has self x) }
        ensures right { IfSome result (λ p. (y : ℕ) → has p.1 y → has other y) }
        ensures left_limit { IfSome result (λ p. (x : ℕ) → has p.0 x
            → signed width (low width x) ≤ℤ (limits width other).signed_greatest) }
        ensures right_limit { IfSome result (λ p. (y : ℕ) → has p.1 y
            → (limits width self).signed_least ≤ℤ signed width (low width y)) };

    /// Returns what is left of both where a member of this differs from one of the other.
    fn unequal(self, width: Width, other: Self) -> Option<(Self, Self)>
        ensures common { (x y : ℕ) → has self x → has other y → low width x ≢ low width y
            → IsSomeAnd result (λ p. has p.0 x × has p.1 y) }
        ensures left { IfSome result (λ p. (x : ℕ) → has p.0 x → has self x) }
        ensures right { IfSome result (λ p. (y : ℕ) → has p.1 y → has other y) }
        ensures left_limit { IfSome result (λ p. (x : ℕ) → has p.0 x → (n : ℕ)
            → IsAlone (limits width other) n → IsLimit width (limits width self) n
            → low width x ≢ n) }
        ensures right_limit { IfSome result (λ p. (y : ℕ) → has p.1 y → (n : ℕ)
            → IsAlone (limits width self) n → IsLimit width (limits width other) n
            → low width y ≢ n) };

    /// Returns what is left of both where a member of this has no bit in common with one of the
    /// other.
    fn disjoint(self, width: Width, other: Self) -> Option<(Self, Self)>
        ensures common { (x y : ℕ) → has self x → has other y
            → bit_and (low width x) (low width y) ≡ 0
            → IsSomeAnd result (λ p. has p.0 x × has p.1 y) }
        ensures left { IfSome result (λ p. (x : ℕ) → has p.0 x → has self x) }
        ensures right { IfSome result (λ p. (y : ℕ) → has p.1 y → has other y) }
        ensures left_only { width ≡ Full64 → IfSome result (λ p. (x : ℕ) → has p.0 x
            → bit_and x (ones other) ≡ 0) }
        ensures right_only { width ≡ Full64 → IfSome result (λ p. (y : ℕ) → has p.1 y
            → bit_and y (ones self) ≡ 0) };

    /// Returns what is left of both where a member of this has a bit in common with one of the
    /// other.
    fn overlapping(self, width: Width, other: Self) -> Option<(Self, Self)>
        ensures common { (x y : ℕ) → has self x → has other y
            → bit_and (low width x) (low width y) ≢ 0
            → IsSomeAnd result (λ p. has p.0 x × has p.1 y) }
        ensures left { IfSome result (λ p. (x : ℕ) → has p.0 x → has self x) }
        ensures right { IfSome result (λ p. (y : ℕ) → has p.1 y → has other y) }
        ensures left_only { width ≡ Full64 → IfSome result (λ p. (x i : ℕ)
            → bit_and (possible self) (possible other) ≡ 2 ^ i
            → has p.0 x → bit_at x i ≡ 1) }
        ensures right_only { width ≡ Full64 → IfSome result (λ p. (y i : ℕ)
            → bit_and (possible self) (possible other) ≡ 2 ^ i
            → has p.1 y → bit_at y i ≡ 1) };

    // every member is a number of a register
    ghost in_register: { (d : Self) (x : ℕ) → has d x → x < 2 ^ 64 };

    // and is between the limits, as each width reads it
    ghost inside: { (d : Self) (w : Width) (x : ℕ) → has d x
        → IsWithinLimits w (limits w d) (low w x) };

    // what it allows of whole numbers are its members
    ghost whole: { (d : Self) (x : ℕ) → allows Full64 d x → has d x };

    // a constant has its number, and no other
    ghost contains_constant: { (d : Self) (u : ℕ) → u < 2 ^ 64 → is_constant d u → has d u };

    ghost only_constant: { (d : Self) (u x : ℕ) → is_constant d u → has d x → x ≡ u };
}
