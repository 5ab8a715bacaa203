//! What a conditional jump shows of the numbers that it compares.

ghost use Rattle.std.specs.Prelude.{◌≡◌, ◌≢◌, ℕ, ◌^◌, ◌<◌, None, Some, IsSome, IsSomeAnd, IfSome, IsTrue, Bool, false, bit_and};
ghost use Rattle.isa_model.specs.Code.Numbers.{holds, low};
ghost use Rattle.isa_model.specs.declared.sizes.Width.TheVariants.{Low32, Full64};
ghost use Rattle.reg_state.specs.Relations.{ComparesTo, reads_signed, low_half, low_half_limit};
ghost use Rattle.reg_state.specs.Going.{MayGo, MayShare, ReadsWhole, exchanged};
ghost use Rattle.reg_state.specs.Shown.{DomainShows, ShowsAt, ShowsWhole, AreReadWhole};

use crate::domains::Domain;
use isa_model::{Comparison, Width, numbers};

/// Returns what is left of two sets where the comparison of a member of each has this outcome.
/// `None`: it never has.
pub fn refine<D: Domain>(
    comparison: Comparison,
    width: Width,
    taken: bool,
    a: D,
    b: D,
) -> Option<(D, D)>
    ensures shows { IfSome result (λ p. DomainShows D.has D.is_constant D.limits D.allows D.ones
        D.possible comparison width taken a b p.0 p.1) }
    ensures some { (x y : ℕ) → D.has a x → D.has b y → holds comparison width x y ≡ taken
        → IsSome result }
    ensures stays { (u v : ℕ) → u < 2 ^ 64 → v < 2 ^ 64 → D.is_constant a u → D.is_constant b v
        → holds comparison width u v ≡ taken
        → IsSome result }
    ensures never { (u v : ℕ) → D.is_constant a u → D.is_constant b v
        → holds comparison width u v ≢ taken
        → result ≡ None }
{
    if let Some(outcome) = decided(comparison, width, a, b) {
        if outcome == taken {
            return Some((a, b));
        }
        return None;
    }
    let (left, right) = narrowed(comparison, width, taken, a, b)?;
    Some((kept(a, left), kept(b, right)))
}

// The outcome of the comparison, where each set is seen to have only one number.
fn decided<D: Domain>(comparison: Comparison, width: Width, a: D, b: D) -> Option<bool>
    ensures outcome { IfSome result (λ outcome. (x y : ℕ) → D.has a x → D.has b y
        → holds comparison width x y ≡ outcome) }
    ensures left { IfSome result (λ _. (x y : ℕ) → D.has a x → D.has a y → x ≡ y) }
    ensures right { IfSome result (λ _. (x y : ℕ) → D.has b x → D.has b y → x ≡ y) }
    ensures exact { (u v : ℕ) → D.is_constant a u → D.is_constant b v
        → result ≡ Some (holds comparison width u v) }
{
    let x = a.number()?;
    let y = b.number()?;
    Some(numbers::compare(comparison, width, x, y))
}

// The new set, or the old one if that is a constant.
fn kept<D: Domain>(old: D, new: D) -> D
    ensures contains { (x : ℕ) → D.has old x → D.has new x → D.has result x }
    ensures narrower { ((x : ℕ) → D.has new x → D.has old x) → (x : ℕ) → D.has result x
        → D.has old x }
    ensures constant { (u : ℕ) → D.is_constant old u → D.is_constant result u }
    ensures changed { (u v : ℕ) → D.has old u → D.has old v → u ≢ v → result ≡ new }
{
    match old.number() {
        Some(_) => old,
        None => new,
    }
}

fn narrowed<D: Domain>(
    comparison: Comparison,
    width: Width,
    taken: bool,
    a: D,
    b: D,
) -> Option<(D, D)>
    ensures common { (x y : ℕ) → D.has a x → D.has b y → holds comparison width x y ≡ taken
        → IsSomeAnd result (λ p. D.has p.0 x × D.has p.1 y) }
    ensures left { IfSome result (λ p. (x : ℕ) → D.has p.0 x → D.has a x) }
    ensures right { IfSome result (λ p. (y : ℕ) → D.has p.1 y → D.has b y) }
    ensures whole { AreReadWhole D.limits D.possible comparison width a b
        → IfSome result (λ p. ShowsWhole D.has D.limits D.ones D.possible comparison taken
        a b p.0 p.1) }
    ensures low { width ≡ Low32 → IfSome result (λ p. ShowsAt D.has D.limits D.allows Low32
        comparison taken a b p.0 p.1) }
{
    match width {
        Width::Full64 => related_whole(comparison, taken, a, b),
        Width::Low32 => related_low(comparison, taken, a, b),
    }
}

// What a comparison of whole numbers shows.
fn related_whole<D: Domain>(comparison: Comparison, taken: bool, a: D, b: D) -> Option<(D, D)>
    ensures common { (x y : ℕ) → D.has a x → D.has b y → ComparesTo Full64 comparison taken x y
        → IsSomeAnd result (λ p. D.has p.0 x × D.has p.1 y) }
    ensures left { IfSome result (λ p. (x : ℕ) → D.has p.0 x → D.has a x) }
    ensures right { IfSome result (λ p. (y : ℕ) → D.has p.1 y → D.has b y) }
    ensures whole { IfSome result (λ p. ShowsWhole D.has D.limits D.ones D.possible comparison taken
        a b p.0 p.1) }
{
    related(comparison, Width::Full64, taken, a, b)
}

// What a comparison of low halves shows. Of members that are their own low halves it shows what one
// of whole numbers does, too.
fn related_low<D: Domain>(comparison: Comparison, taken: bool, a: D, b: D) -> Option<(D, D)>
    ensures common { (x y : ℕ) → D.has a x → D.has b y → holds comparison Low32 x y ≡ taken
        → IsSomeAnd result (λ p. D.has p.0 x × D.has p.1 y) }
    ensures left { IfSome result (λ p. (x : ℕ) → D.has p.0 x → D.has a x) }
    ensures right { IfSome result (λ p. (y : ℕ) → D.has p.1 y → D.has b y) }
    ensures whole { AreReadWhole D.limits D.possible comparison Low32 a b
        → IfSome result (λ p. ShowsWhole D.has D.limits D.ones D.possible comparison taken
        a b p.0 p.1) }
    ensures low { IfSome result (λ p. ShowsAt D.has D.limits D.allows Low32 comparison taken
        a b p.0 p.1) }
{
    let (left, right) = related(comparison, Width::Low32, taken, a, b)?;
    if !reads_whole(comparison, a, b) {
        return Some((left, right));
    }
    let (whole_left, whole_right) = related_whole(comparison, taken, a, b)?;
    let first = left.meet(whole_left)?;
    let second = right.meet(whole_right)?;
    Some((first, second))
}

// Of numbers as the width reads them: each outcome of a comparison is a relation, perhaps of the
// operands exchanged.
fn related<D: Domain>(
    comparison: Comparison,
    width: Width,
    taken: bool,
    a: D,
    b: D,
) -> Option<(D, D)>
    ensures common { (x y : ℕ) → D.has a x → D.has b y → ComparesTo width comparison taken x y
        → IsSomeAnd result (λ p. D.has p.0 x × D.has p.1 y) }
    ensures left { IfSome result (λ p. (x : ℕ) → D.has p.0 x → D.has a x) }
    ensures right { IfSome result (λ p. (y : ℕ) → D.has p.1 y → D.has b y) }
    ensures left_limits { IfSome result (λ p. (x : ℕ) → D.has p.0 x
        → MayGo width comparison taken (D.allows width b) (D.limits width b) (D.limits width a)
        (low width x)) }
    ensures right_limits { IfSome result (λ p. (y : ℕ) → D.has p.1 y
        → MayGo width (exchanged comparison) taken (D.allows width a) (D.limits width a)
        (D.limits width b) (low width y)) }
    ensures left_bits { width ≡ Full64 → IfSome result (λ p. (x : ℕ) → D.has p.0 x
        → MayShare comparison taken (D.ones b) (bit_and (D.possible a) (D.possible b)) x) }
    ensures right_bits { width ≡ Full64 → IfSome result (λ p. (y : ℕ) → D.has p.1 y
        → MayShare comparison taken (D.ones a) (bit_and (D.possible a) (D.possible b)) y) }
{
    match (comparison, taken) {
        (Comparison::Equal, true) | (Comparison::NotEqual, false) => a.equal(width, b),
        (Comparison::Equal, false) => a.unequal(width, b),
        (Comparison::NotEqual, true) => a.unequal(width, b),
        (Comparison::Less, true) | (Comparison::GreaterEqual, false) => a.below(width, b),
        (Comparison::LessEqual, true) | (Comparison::Greater, false) => a.at_most(width, b),
        (Comparison::Greater, true) | (Comparison::LessEqual, false) => {
            let (right, left) = b.below(width, a)?;
            Some((left, right))
        }
        (Comparison::GreaterEqual, true) | (Comparison::Less, false) => {
            let (right, left) = b.at_most(width, a)?;
            Some((left, right))
        }
        (Comparison::AnyBit, true) => a.overlapping(width, b),
        (Comparison::AnyBit, false) => a.disjoint(width, b),
        (Comparison::SignedLess, true) | (Comparison::SignedGreaterEqual, false) => {
            a.signed_below(width, b)
        }
        (Comparison::SignedLessEqual, true) | (Comparison::SignedGreater, false) => {
            a.signed_at_most(width, b)
        }
        (Comparison::SignedGreater, true) | (Comparison::SignedLessEqual, false) => {
            let (right, left) = b.signed_below(width, a)?;
            Some((left, right))
        }
        (Comparison::SignedGreaterEqual, true) | (Comparison::SignedLess, false) => {
            let (right, left) = b.signed_at_most(width, a)?;
            Some((left, right))
        }
    }
}

// Whether a comparison of low halves is known to read the members whole.
fn reads_whole<D: Domain>(comparison: Comparison, a: D, b: D) -> bool
    ensures sound { IsTrue result → (x y : ℕ) → D.has a x → D.has b y → (taken : Bool)
        → holds comparison Low32 x y ≡ taken → ComparesTo Full64 comparison taken x y }
    ensures found { AreReadWhole D.limits D.possible comparison Low32 a b → IsTrue result }
{
    are_low_halves(comparison, a) && are_low_halves(comparison, b)
}

// Whether the members are known to be their own low halves.
fn are_low_halves<D: Domain>(comparison: Comparison, a: D) -> bool
    ensures sound { IsTrue result → (x : ℕ) → D.has a x → low_half comparison x ≡ x }
    ensures found { ReadsWhole comparison Low32 (D.limits Full64 a) (D.possible a) → IsTrue result }
{
    a.greatest() < low_half_limit(comparison)
}

fn low_half_limit(comparison: Comparison) -> u64
    ensures { result ≡ low_half_limit comparison }
{
    if is_signed(comparison) {
        0x8000_0000
    } else {
        0x1_0000_0000
    }
}

fn is_signed(comparison: Comparison) -> bool
    ensures { result ≡ reads_signed comparison }
{
    matches!(
        comparison,
        Comparison::SignedGreater
            | Comparison::SignedGreaterEqual
            | Comparison::SignedLess
            | Comparison::SignedLessEqual
    )
}
