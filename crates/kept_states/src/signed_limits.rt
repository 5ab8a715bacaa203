//! Signed limits of numbers that changed, on a stack.

ghost use Rattle.std.specs.Prelude.{◌≡◌, IfOk, reverse};
ghost use Rattle.std.specs.Int.{w32, w64};
ghost use Rattle.kept_states.specs.SignedLimits.{IsSignedPut, signed_first, signed_second, signed_left};

use crate::of_two::OfTwo;
use ranges::{Low, Wide};
use std::alloc::AllocError;

/// Puts the signed limits that differ from those that are there now after others, unless they are
/// the unsigned ones.
#[inline(always)]
pub fn put_signed(
    values: &mut Vec<i64>,
    was: Wide,
    there: Wide,
) -> Result<Option<OfTwo>, AllocError>
    ensures { IfOk result (λ d. IsSignedPut w64 d (was.least, was.greatest)
        (was.signed_least, was.signed_greatest) (there.signed_least, there.signed_greatest)
        (reverse values.old.items) (reverse values.new.items)) }
{
    let (least, greatest) = (was.signed_least, was.signed_greatest);
    if least == was.least.cast_signed() && greatest == was.greatest.cast_signed() {
        return Ok(None);
    }
    let which = OfTwo::put(
        values,
        (least, greatest),
        (there.signed_least, there.signed_greatest),
        (
            least != there.signed_least,
            greatest != there.signed_greatest,
        ),
    )?;
    Ok(Some(which))
}

/// Takes signed limits that were put last, of which these are the unsigned ones.
#[inline(always)]
pub fn take_signed(
    values: &mut Vec<i64>,
    differ: Option<OfTwo>,
    limits: (u64, u64),
    there: (i64, i64),
) -> (i64, i64)
    ensures first { result.0
        ≡ signed_first w64 differ limits.0 there.0 (reverse values.old.items) }
    ensures second { result.1
        ≡ signed_second w64 differ limits.1 there.1 (reverse values.old.items) }
    ensures left { reverse values.new.items ≡ signed_left differ (reverse values.old.items) }
{
    match differ {
        None => (limits.0.cast_signed(), limits.1.cast_signed()),
        Some(which) => which.take(values, there),
    }
}

/// Does what `put_signed` does for low halves.
#[inline(always)]
pub fn put_low_signed(
    values: &mut Vec<i32>,
    was: Low,
    there: Low,
) -> Result<Option<OfTwo>, AllocError>
    ensures { IfOk result (λ d. IsSignedPut w32 d (was.least, was.greatest)
        (was.signed_least, was.signed_greatest) (there.signed_least, there.signed_greatest)
        (reverse values.old.items) (reverse values.new.items)) }
{
    let (least, greatest) = (was.signed_least, was.signed_greatest);
    if least == was.least.cast_signed() && greatest == was.greatest.cast_signed() {
        return Ok(None);
    }
    let which = OfTwo::put(
        values,
        (least, greatest),
        (there.signed_least, there.signed_greatest),
        (
            least != there.signed_least,
            greatest != there.signed_greatest,
        ),
    )?;
    Ok(Some(which))
}

/// Does what `take_signed` does for low halves.
#[inline(always)]
pub fn take_low_signed(
    values: &mut Vec<i32>,
    differ: Option<OfTwo>,
    limits: (u32, u32),
    there: (i32, i32),
) -> (i32, i32)
    ensures first { result.0
        ≡ signed_first w32 differ limits.0 there.0 (reverse values.old.items) }
    ensures second { result.1
        ≡ signed_second w32 differ limits.1 there.1 (reverse values.old.items) }
    ensures left { reverse values.new.items ≡ signed_left differ (reverse values.old.items) }
{
    match differ {
        None => (limits.0.cast_signed(), limits.1.cast_signed()),
        Some(which) => which.take(values, there),
    }
}
