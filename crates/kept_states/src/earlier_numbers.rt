//! What numbers were before they changed, by what differs.

ghost use Rattle.std.specs.Prelude.{◌≡◌, IfOk, reverse};
ghost use Rattle.kept_states.specs.EarlierNumbers.{earlier_bits, bits_left, earlier_number, numbers_left};

use crate::differences::Differences;
use crate::of_two::OfTwo;
use crate::signed_limits::{put_low_signed, put_signed, take_low_signed, take_signed};
use known_bits::Bits;
use ranges::{Low, Range, Wide};
use reg_state::Scalar;
use std::alloc::{AllocError, Global};
use std::marker::Model;

/// Of each number that changed the known bits and the limits that became other ones, on stacks.
///
/// Contracts see the stacks, the top first.
#[derive(Drop)]
pub struct EarlierNumbers {
    bits: Vec<Bits>,
    unsigned: Vec<u64>,
    signed: Vec<i64>,
    low_unsigned: Vec<u32>,
    low_signed: Vec<i32>,
}

impl Model for EarlierNumbers {
    ghost use Rattle.std.specs.Prelude.{reverse};
    ghost use Rattle.kept_states.specs.EarlierNumbers.{NumberStacks};

    ghost Value = { NumberStacks };

    ghost view = { λ earlier. record {
      bits = reverse earlier.bits.items;
      unsigned = reverse earlier.unsigned.items;
      signed = reverse earlier.signed.items;
      low_unsigned = reverse earlier.low_unsigned.items;
      low_signed = reverse earlier.low_signed.items;
    } };
}

/// Puts bits after others, if they differ from those that are there now.
#[inline(always)]
fn put_bits(values: &mut Vec<Bits>, was: Bits, there: Bits) -> Result<bool, AllocError>
    ensures was { IfOk result (λ d. earlier_bits d there (reverse values.new.items) ≡ was) }
    ensures left { IfOk result (λ d. bits_left d (reverse values.new.items)
        ≡ reverse values.old.items) }
{
    if was.value == there.value && was.mask == there.mask {
        return Ok(false);
    }
    values.push(was)?;
    Ok(true)
}

/// Takes the bits that were put last, if they differed; else they are as given.
#[inline(always)]
fn take_bits(values: &mut Vec<Bits>, differ: bool, there: Bits) -> Bits
    ensures bits { result ≡ earlier_bits differ there (reverse values.old.items) }
    ensures left { reverse values.new.items ≡ bits_left differ (reverse values.old.items) }
{
    if !differ {
        return there;
    }
    match values.pop() {
        Some(bits) => bits,
        None => there,
    }
}

impl EarlierNumbers {
    /// None.
    pub fn new(alloc: Global) -> Self {
        EarlierNumbers {
            bits: Vec::new(alloc),
            unsigned: Vec::new(alloc),
            signed: Vec::new(alloc),
            low_unsigned: Vec::new(alloc),
            low_signed: Vec::new(alloc),
        }
    }

    /// Keeps of a number what differs from the one that is there now.
    #[inline(always)]
    pub fn put(&mut self, was: &Scalar, there: &Scalar) -> Result<Differences, AllocError>
        ensures was { IfOk result (λ d. earlier_number d self.new there.now ≡ was.now) }
        ensures left { IfOk result (λ d. numbers_left d self.new ≡ self.old) }
    {
        let (wide, now) = (was.range.wide, there.range.wide);
        let (low, low_now) = (was.range.low, there.range.low);
        Ok(Differences {
            bits: put_bits(&mut self.bits, was.bits, there.bits)?,
            unsigned: OfTwo::put(
                &mut self.unsigned,
                (wide.least, wide.greatest),
                (now.least, now.greatest),
                (wide.least != now.least, wide.greatest != now.greatest),
            )?,
            signed: put_signed(&mut self.signed, wide, now)?,
            low_unsigned: OfTwo::put(
                &mut self.low_unsigned,
                (low.least, low.greatest),
                (low_now.least, low_now.greatest),
                (low.least != low_now.least, low.greatest != low_now.greatest),
            )?,
            low_signed: put_low_signed(&mut self.low_signed, low, low_now)?,
        })
    }

    /// Takes back the number that was put last: what was kept of it, and else what is there now.
    #[inline(always)]
    pub fn take(&mut self, differ: Differences, there: &Scalar) -> Scalar
        ensures number { result ≡ earlier_number differ self.old there.now }
        ensures left { self.new ≡ numbers_left differ self.old }
    {
        let bits = take_bits(&mut self.bits, differ.bits, there.bits);
        let (wide, low) = (there.range.wide, there.range.low);
        let unsigned = differ
            .unsigned
            .take(&mut self.unsigned, (wide.least, wide.greatest));
        let signed = take_signed(
            &mut self.signed,
            differ.signed,
            unsigned,
            (wide.signed_least, wide.signed_greatest),
        );
        let low_unsigned = differ
            .low_unsigned
            .take(&mut self.low_unsigned, (low.least, low.greatest));
        let low_signed = take_low_signed(
            &mut self.low_signed,
            differ.low_signed,
            low_unsigned,
            (low.signed_least, low.signed_greatest),
        );
        Scalar {
            bits,
            range: Range {
                wide: Wide {
                    least: unsigned.0,
                    greatest: unsigned.0.max(unsigned.1),
                    signed_least: signed.0,
                    signed_greatest: signed.0.max(signed.1),
                },
                low: Low {
                    least: low_unsigned.0,
                    greatest: low_unsigned.0.max(low_unsigned.1),
                    signed_least: low_signed.0,
                    signed_greatest: low_signed.0.max(low_signed.1),
                },
            },
        }
    }
}
