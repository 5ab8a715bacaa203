//! Numbers about which something is known, as text.

ghost use Rattle.std.specs.Prelude.{◌≡◌, IfOk};
ghost use Rattle.std.specs.String.{string_bytes};
ghost use Rattle.explanations.specs.Numbers.{says_more, limits_words, number_words, low_least, low_greatest, half_words, is_half_known, low_part};

use isa_model::numbers::low_32_bits;
use ranges::Wide;
use reg_state::Scalar;
use std::alloc::{AllocError, Global};

/// Returns whether the signed limits say more than the unsigned ones.
fn says_more(limits: Wide) -> bool
    ensures { result ≡ says_more limits }
{
    limits.greatest >= 1 << 63
        && (i64::MIN < limits.signed_least || limits.signed_greatest < i64::MAX)
}

/// The limits at 64 bits.
fn limits_words(alloc: Global, numbers: Scalar) -> Result<String, AllocError>
    ensures { IfOk result (λ text. string_bytes text ≡ limits_words numbers) }
{
    let limits = numbers.range.wide;
    let least = limits.least;
    let greatest = limits.greatest;
    if says_more(limits) {
        let least = limits.signed_least;
        let greatest = limits.signed_greatest;
        return format!(in alloc; "number {least} to {greatest}");
    }
    if least == 0 && greatest == u64::MAX {
        return String::from_str(alloc, "any number");
    }
    format!(in alloc; "number {least} to {greatest}")
}

// ---- low halves

/// The least that bits and limits show of the low half.
fn low_least(numbers: Scalar) -> u32
    ensures { result ≡ low_least numbers }
{
    low_32_bits(numbers.bits.value).max(numbers.range.low.least)
}

/// The greatest that bits and limits show of the low half.
fn low_greatest(numbers: Scalar) -> u64
    ensures { result ≡ low_greatest numbers }
{
    let half = numbers.bits.low_greatest().min(numbers.range.low.greatest);
    u64::from(half).min(numbers.range.wide.greatest)
}

/// The low half, or its limits.
pub fn half_words(alloc: Global, numbers: Scalar) -> Result<String, AllocError>
    ensures { IfOk result (λ text. string_bytes text ≡ half_words numbers) }
{
    let least = low_least(numbers);
    let greatest = low_greatest(numbers);
    if u64::from(least) == greatest {
        return format!(in alloc; "{least}");
    }
    format!(in alloc; "{least} to {greatest}")
}

/// Returns whether bits and limits show more of the low half than that it has 32 bits.
fn is_half_known(numbers: Scalar) -> bool
    ensures { result ≡ is_half_known numbers }
{
    let least = low_least(numbers);
    let greatest = low_greatest(numbers);
    !(least == 0 && greatest == u64::from(u32::MAX))
}

/// The low half, where that is known and the limits at 64 bits do not show it.
fn low_part(alloc: Global, numbers: Scalar) -> Result<String, AllocError>
    ensures { IfOk result (λ text. string_bytes text ≡ low_part numbers) }
{
    if numbers.range.wide.greatest >= 1 << 32 && is_half_known(numbers) {
        let half = half_words(alloc, numbers)?;
        return format!(in alloc; ", low half {half}");
    }
    Ok(String::new(alloc))
}

// ---- numbers

/// The number, or its limits, with those of the low half where they say more.
pub fn number_words(alloc: Global, numbers: Scalar) -> Result<String, AllocError>
    ensures { IfOk result (λ text. string_bytes text ≡ number_words numbers) }
{
    let least = numbers.range.wide.least;
    if least == numbers.range.wide.greatest {
        let number = least.cast_signed();
        return format!(in alloc; "number {number}");
    }
    let limits = limits_words(alloc, numbers)?;
    let low = low_part(alloc, numbers)?;
    format!(in alloc; "{limits}{low}")
}
