//! What known bits of low halves show of whole numbers.

ghost use Rattle.std.specs.Prelude.{◌≡◌, ℕ, IsSomeAnd, IfSome};
ghost use Rattle.isa_model.specs.Code.Numbers.{low, sign_extended};
ghost use Rattle.isa_model.specs.declared.sizes.Width.TheVariants.{Low32};
ghost use Rattle.isa_model.specs.declared.sizes.Extension.TheVariants.{Full32};
ghost use Rattle.known_bits.specs.Bits.{Has};

use isa_model::{AluOp, Extension, Width};
use known_bits::Bits;

// The low halves of the numbers.
pub(crate) fn plain_halves(a: Bits) -> Bits
    ensures { (x : ℕ) → Has a x → Has result (low Low32 x) }
{
    Bits::alu(AluOp::Mov, Width::Low32, a, a)
}

// The low halves of the numbers, extended by their signs.
pub(crate) fn signed_halves(a: Bits) -> Bits
    ensures { (x : ℕ) → Has a x → Has result (sign_extended Full32 x) }
{
    Bits::sign_extend(Extension::Full32, a)
}

// The common members, once for each side.
pub(crate) fn same(a: Bits, b: Bits) -> Option<(Bits, Bits)>
    ensures common { (x : ℕ) → Has a x → Has b x → IsSomeAnd result (λ p. Has p.0 x × Has p.1 x) }
    ensures left { IfSome result (λ p. (x : ℕ) → Has p.0 x → Has a x × Has b x) }
    ensures right { IfSome result (λ p. (x : ℕ) → Has p.1 x → Has a x × Has b x) }
{
    let both = a.meet(b)?;
    Some((both, both))
}

// The two sets, narrowed by what is left of their low halves, `halves`.
pub(crate) fn plain_pair(a: Bits, b: Bits, halves: Option<(Bits, Bits)>) -> Option<(Bits, Bits)>
    ensures common { (x y : ℕ) → Has a x → Has b y
        → IsSomeAnd halves (λ p. Has p.0 (low Low32 x) × Has p.1 (low Low32 y))
        → IsSomeAnd result (λ p. Has p.0 x × Has p.1 y) }
    ensures left { IfSome result (λ p. (x : ℕ) → Has p.0 x → Has a x) }
    ensures right { IfSome result (λ p. (y : ℕ) → Has p.1 y → Has b y) }
{
    let (left, right) = halves?;
    let first = with_plain(a, left)?;
    let second = with_plain(b, right)?;
    Some((first, second))
}

// The same, with low halves extended by their signs.
pub(crate) fn signed_pair(a: Bits, b: Bits, halves: Option<(Bits, Bits)>) -> Option<(Bits, Bits)>
    ensures common { (x y : ℕ) → Has a x → Has b y
        → IsSomeAnd halves
        (λ p. Has p.0 (sign_extended Full32 x) × Has p.1 (sign_extended Full32 y))
        → IsSomeAnd result (λ p. Has p.0 x × Has p.1 y) }
    ensures left { IfSome result (λ p. (x : ℕ) → Has p.0 x → Has a x) }
    ensures right { IfSome result (λ p. (y : ℕ) → Has p.1 y → Has b y) }
{
    let (left, right) = halves?;
    let first = with_signed(a, left)?;
    let second = with_signed(b, right)?;
    Some((first, second))
}

// The members whose low halves are in `halves`. It narrows only sets of numbers that are their own
// low halves.
fn with_plain(a: Bits, halves: Bits) -> Option<Bits>
    ensures common { (x : ℕ) → Has a x → Has halves (low Low32 x)
        → IsSomeAnd result (λ m. Has m x) }
    ensures left { IfSome result (λ m. (x : ℕ) → Has m x → Has a x) }
{
    if a.greatest() < 0x1_0000_0000 {
        a.meet(halves)
    } else {
        Some(a)
    }
}

// The same, with low halves extended by their signs.
fn with_signed(a: Bits, halves: Bits) -> Option<Bits>
    ensures common { (x : ℕ) → Has a x → Has halves (sign_extended Full32 x)
        → IsSomeAnd result (λ m. Has m x) }
    ensures left { IfSome result (λ m. (x : ℕ) → Has m x → Has a x) }
{
    if a.greatest() < 0x8000_0000 {
        a.meet(halves)
    } else {
        Some(a)
    }
}
