//! Whether parts are the same.

ghost use Rattle.std.specs.Prelude.{◌≡◌, IsTrue};

use crate::parts::Part;
use known_bits::Bits;
use ranges::{Low, Wide};
use reg_state::{Kind, Scalar};
use stack_state::StackSlot;

#[inline(always)]
fn are_same_bits(bits: &Bits, other: &Bits) -> bool
    ensures { IsTrue result → bits.now ≡ other.now }
{
    bits.value == other.value && bits.mask == other.mask
}

#[inline(always)]
fn are_same_limits(wide: &Wide, other: &Wide) -> bool
    ensures { IsTrue result → wide.now ≡ other.now }
{
    if wide.least != other.least || wide.greatest != other.greatest {
        return false;
    }
    wide.signed_least == other.signed_least && wide.signed_greatest == other.signed_greatest
}

#[inline(always)]
fn are_same_halves(low: &Low, other: &Low) -> bool
    ensures { IsTrue result → low.now ≡ other.now }
{
    if low.least != other.least || low.greatest != other.greatest {
        return false;
    }
    low.signed_least == other.signed_least && low.signed_greatest == other.signed_greatest
}

#[inline(always)]
fn are_same_numbers(numbers: &Scalar, other: &Scalar) -> bool
    ensures { IsTrue result → numbers.now ≡ other.now }
{
    if !are_same_bits(&numbers.bits, &other.bits) {
        return false;
    }
    if !are_same_limits(&numbers.range.wide, &other.range.wide) {
        return false;
    }
    are_same_halves(&numbers.range.low, &other.range.low)
}

#[inline(always)]
fn is_same_pointer(kind: &Kind, other: &Kind) -> bool
    ensures { IsTrue result → kind.now ≡ other.now }
{
    match (kind, other) {
        (Kind::Context, Kind::Context) | (Kind::PacketEnd, Kind::PacketEnd) => true,
        (
            Kind::Stack { frame, offset },
            Kind::Stack {
                frame: a,
                offset: b,
            },
        ) => *frame == *a && *offset == *b,
        (
            Kind::Packet {
                fixed,
                identity,
                least,
                greatest,
                proved,
            },
            Kind::Packet {
                fixed: a,
                identity: b,
                least: c,
                greatest: d,
                proved: e,
            },
        ) => { *fixed == *a && *identity == *b && *least == *c && *greatest == *d && *proved == *e }
        _ => false,
    }
}

#[inline(always)]
fn is_same_map(kind: &Kind, other: &Kind) -> bool
    ensures { IsTrue result → kind.now ≡ other.now }
{
    match (kind, other) {
        (Kind::Map { index }, Kind::Map { index: a }) => *index == *a,
        (
            Kind::MapValue {
                index,
                least,
                greatest,
            },
            Kind::MapValue {
                index: a,
                least: b,
                greatest: c,
            },
        ) => *index == *a && *least == *b && *greatest == *c,
        (
            Kind::MapValueOrNull { index, identity },
            Kind::MapValueOrNull {
                index: a,
                identity: b,
            },
        ) => *index == *a && *identity == *b,
        _ => false,
    }
}

#[inline(always)]
fn is_same_kind(kind: &Kind, other: &Kind) -> bool
    ensures { IsTrue result → kind.now ≡ other.now }
{
    if let Kind::Number(numbers) = kind {
        return match other {
            Kind::Number(others) => are_same_numbers(numbers, others),
            _ => false,
        };
    }
    is_same_pointer(kind, other) || is_same_map(kind, other)
}

#[inline(always)]
fn is_same_slot(slot: &StackSlot, other: &StackSlot) -> bool
    ensures { IsTrue result → slot.now ≡ other.now }
{
    match (slot, other) {
        (StackSlot::Written(marks), StackSlot::Written(others)) => *marks == *others,
        (StackSlot::Spilled(kind), StackSlot::Spilled(others)) => is_same_kind(kind, others),
        _ => false,
    }
}

#[inline(always)]
fn is_same(part: &Part, other: &Part) -> bool
    ensures { IsTrue result → part.now ≡ other.now }
{
    match other {
        Part::InRegister(number, kind) => is_register_part(part, *number, kind),
        Part::InSlot(index, slot) => is_slot_part(part, *index, slot),
    }
}

/// Returns whether a part says just this of a register.
#[inline(always)]
pub fn is_register_part(part: &Part, number: u8, kind: &Kind) -> bool
    ensures { IsTrue result → part.now ≡ Part.InRegister number kind.now }
{
    match part {
        Part::InRegister(own, known) => *own == number && is_same_kind(known, kind),
        Part::InSlot(..) => false,
    }
}

/// Returns whether a part says just this of a stack slot.
#[inline(always)]
pub fn is_slot_part(part: &Part, index: u8, slot: &StackSlot) -> bool
    ensures { IsTrue result → part.now ≡ Part.InSlot index slot.now }
{
    match part {
        Part::InRegister(..) => false,
        Part::InSlot(own, known) => *own == index && is_same_slot(known, slot),
    }
}

/// Returns whether parts are the same as others, one by one.
pub fn are_same(parts: &[Part], others: &[Part]) -> bool
    ensures { IsTrue result → parts.now ≡ others.now }
{
    if parts.len() != others.len() {
        return false;
    }
    for index in 0..parts.len() {
        if !is_same(&parts[index], &others[index]) {
            return false;
        }
    }
    true
}
