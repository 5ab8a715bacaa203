//! Parts that are a constant in a register.

ghost use Rattle.std.specs.Prelude.{◌≡◌, ◌∷◌, IfSome, IsTrue};
ghost use Rattle.ranges.specs.Ranges as R;
ghost use Rattle.reg_state.specs.declared.kinds.Kind.TheVariants.{Number};
ghost use Rattle.kept_states.specs.Constants.{constant_numbers, constant_part};

use isa_model::numbers::low_32_bits;
use reg_state::{Domain, Kind, Scalar};
use state_index::Part;

/// The part that says that a register has this number and no other one.
#[inline(always)]
pub fn constant_part(number: u8, value: u64) -> Part
    ensures { result ≡ constant_part number value }
{
    Part::InRegister(number, Kind::Number(Scalar::constant(value)))
}

/// Returns whether each limit is the number, or its low half.
#[inline(always)]
fn has_limits(numbers: &Scalar, value: u64) -> bool
    ensures { IsTrue result → R.IsConstant numbers.now.range value }
{
    let wide = &numbers.range.wide;
    let low = &numbers.range.low;
    let half = low_32_bits(value);
    if wide.least != value || wide.greatest != value || low.least != half || low.greatest != half {
        return false;
    }
    if wide.signed_least != value.cast_signed() || wide.signed_greatest != value.cast_signed() {
        return false;
    }
    low.signed_least == half.cast_signed() && low.signed_greatest == half.cast_signed()
}

/// The number, if a kind says that there is no other one.
#[inline(always)]
fn constant_of(kind: Kind) -> Option<u64>
    ensures { IfSome result (λ v. kind ≡ Number (constant_numbers v)) }
{
    let Kind::Number(numbers) = kind else {
        return None;
    };
    let value = numbers.bits.value;
    if numbers.bits.mask != 0 || !has_limits(&numbers, value) {
        return None;
    }
    Some(value)
}

/// The register and the number, if a part says just that.
#[inline(always)]
pub fn constant_in(part: &Part) -> Option<(u8, u64)>
    ensures { IfSome result (λ c. part.now ≡ constant_part c.0 c.1) }
{
    let Part::InRegister(number, kind) = *part else {
        return None;
    };
    let value = constant_of(kind)?;
    Some((number, value))
}

/// The register and the number of the first part, if it says just that, and the parts after it.
#[inline(always)]
pub fn first_constant(parts: &[Part]) -> Option<(u8, u64, &[Part])>
    ensures { IfSome result (λ c. parts.now ≡ constant_part c.0 c.1 ∷ c.2.now) }
{
    let [first, others @ ..] = parts else {
        return None;
    };
    let (number, value) = constant_in(first)?;
    Some((number, value, others))
}
