//! Call frames compared with bytes: those that spell a frame are not read as well.
//!
//! Each function returns the bytes after the spelling of its argument, if the bytes begin with
//! that spelling. Nothing follows from None.

ghost use Rattle.std.specs.Prelude.{◌≡◌, ◌≤◌, Some, Ok, IfSome, IsTrue, length, drop};
ghost use Rattle.stack_state.specs.Slots.{frame_slots};
ghost use Rattle.table_entries.specs.Kinds.{bits_in, wide_in, low_in, scalar_in, kind_in, packet_in, stack_slot_in, stack_in};
ghost use Rattle.table_entries.specs.Frames.{frame_in};
ghost use Rattle.table_entries.specs.Reading.{many};

use crate::blanks::{are_blank, blank_stack_slots};
use crate::frames::frame_allowed;
use crate::kinds::{kind_in, packet_in, stack_in};
use crate::slices::{skip, u16_at, u32_at, u64_at};
use known_bits::Bits;
use ranges::{Low, Wide};
use reg_state::{Kind, Scalar};
use stack_state::{AbstractFrame, FRAME_SLOTS, StackSlot};

#[inline(always)]
fn are_bits(bytes: &[u8], bits: &Bits) -> bool
    requires { 16 ≤ length bytes.now }
    ensures { IsTrue result → bits_in bytes.now ≡ Some bits.now }
{
    if u64_at(bytes, 0) != bits.value {
        return false;
    }
    if u64_at(bytes, 8) != bits.mask {
        return false;
    }
    true
}

#[inline(always)]
fn are_wide(bytes: &[u8], wide: &Wide) -> bool
    requires { 32 ≤ length bytes.now }
    ensures { IsTrue result → wide_in bytes.now ≡ Some wide.now }
{
    if u64_at(bytes, 0) != wide.least {
        return false;
    }
    if u64_at(bytes, 8) != wide.greatest {
        return false;
    }
    if u64_at(bytes, 16).cast_signed() != wide.signed_least {
        return false;
    }
    if u64_at(bytes, 24).cast_signed() != wide.signed_greatest {
        return false;
    }
    true
}

#[inline(always)]
fn are_low(bytes: &[u8], low: &Low) -> bool
    requires { 16 ≤ length bytes.now }
    ensures { IsTrue result → low_in bytes.now ≡ Some low.now }
{
    if u32_at(bytes, 0) != low.least {
        return false;
    }
    if u32_at(bytes, 4) != low.greatest {
        return false;
    }
    if u32_at(bytes, 8).cast_signed() != low.signed_least {
        return false;
    }
    if u32_at(bytes, 12).cast_signed() != low.signed_greatest {
        return false;
    }
    true
}

#[inline(always)]
fn after_number<'a>(bytes: &'a [u8], numbers: &Scalar) -> Option<&'a [u8]>
    ensures { IfSome result
        (λ rest. (64 ≤ length bytes.now) × (scalar_in bytes.now ≡ Some numbers.now)
        × (rest.now ≡ drop 64 bytes.now)) }
{
    if bytes.len() < 64 {
        return None;
    }
    if !are_bits(bytes, &numbers.bits) {
        return None;
    }
    if !are_wide(skip(bytes, 16), &numbers.range.wide) {
        return None;
    }
    if !are_low(skip(bytes, 48), &numbers.range.low) {
        return None;
    }
    Some(skip(bytes, 64))
}

// Whether both are the same kind of pointer, one whose offset has limits, with the same fields.
fn are_same_within(found: Kind, kind: &Kind) -> bool
    ensures { IsTrue result → found ≡ kind.now }
{
    match (found, kind) {
        (
            Kind::Packet {
                fixed,
                identity,
                least,
                greatest,
                proved,
            },
            Kind::Packet {
                fixed: a,
                identity: b,
                least: c,
                greatest: d,
                proved: e,
            },
        ) => fixed == *a && identity == *b && least == *c && greatest == *d && proved == *e,
        (
            Kind::MapValue {
                index,
                least,
                greatest,
            },
            Kind::MapValue {
                index: a,
                least: b,
                greatest: c,
            },
        ) => index == *a && least == *b && greatest == *c,
        _ => false,
    }
}

// Whether both are the same kind with the same fields; numbers are not compared here.
fn are_same(found: Kind, kind: &Kind) -> bool
    ensures { IsTrue result → found ≡ kind.now }
{
    match (found, kind) {
        (Kind::Context, Kind::Context) => true,
        (
            Kind::Stack { frame, offset },
            Kind::Stack {
                frame: a,
                offset: b,
            },
        ) => { frame == *a && offset == *b }
        (Kind::PacketEnd, Kind::PacketEnd) => true,
        (Kind::Map { index }, Kind::Map { index: a }) => index == *a,
        (
            Kind::MapValueOrNull { index, identity },
            Kind::MapValueOrNull {
                index: a,
                identity: b,
            },
        ) => index == *a && identity == *b,
        _ => are_same_within(found, kind),
    }
}

// The kind of a packet pointer.
#[inline(always)]
fn after_packet<'a>(bytes: &'a [u8], kind: &Kind) -> Option<&'a [u8]>
    ensures { IfSome result
        (λ rest. (20 ≤ length bytes.now) × (packet_in bytes.now ≡ Some kind.now)
        × (rest.now ≡ drop 20 bytes.now)) }
{
    if bytes.len() < 20 {
        return None;
    }
    match packet_in(bytes) {
        Some(found) => {
            if are_same_within(found, kind) {
                Some(skip(bytes, 20))
            } else {
                None
            }
        }
        None => None,
    }
}

// The kind of a frame pointer.
#[inline(always)]
fn after_stack<'a>(holder: usize, bytes: &'a [u8], kind: &Kind) -> Option<&'a [u8]>
    ensures { IfSome result
        (λ rest. (5 ≤ length bytes.now) × (stack_in holder bytes.now ≡ Some kind.now)
        × (rest.now ≡ drop 5 bytes.now)) }
{
    if bytes.len() < 5 {
        return None;
    }
    match (stack_in(holder, bytes), kind) {
        (
            Some(Kind::Stack { frame, offset }),
            Kind::Stack {
                frame: a,
                offset: b,
            },
        ) => {
            if frame == *a && offset == *b {
                Some(skip(bytes, 5))
            } else {
                None
            }
        }
        _ => None,
    }
}

// One of the other kinds, which are rare.
#[inline(never)]
fn after_other<'a>(rows: usize, holder: usize, bytes: &'a [u8], kind: &Kind) -> Option<&'a [u8]>
    ensures { IfSome result
        (λ rest. kind_in rows holder bytes.now ≡ Ok (Some kind.now, rest.now)) }
{
    match kind_in(rows, holder, bytes) {
        Ok((Some(found), rest)) => {
            if are_same(found, kind) {
                Some(rest)
            } else {
                None
            }
        }
        _ => None,
    }
}

#[inline(always)]
#[tactic(auto, unfolding(crate::specs::Kinds::kind_in, crate::specs::Kinds::fields_in))]
fn after_kind<'a>(rows: usize, holder: usize, bytes: &'a [u8], kind: &Kind) -> Option<&'a [u8]>
    ensures { IfSome result
        (λ rest. kind_in rows holder bytes.now ≡ Ok (Some kind.now, rest.now)) }
{
    match (kind, bytes) {
        (Kind::Unset, [0, rest @ ..]) => Some(rest),
        (Kind::Number(numbers), [1, rest @ ..]) => after_number(rest, numbers),
        (Kind::Context, [2, rest @ ..]) => Some(rest),
        (Kind::Stack { .. }, [3, rest @ ..]) => after_stack(holder, rest, kind),
        (Kind::Packet { .. }, [4, rest @ ..]) => after_packet(rest, kind),
        (Kind::PacketEnd, [5, rest @ ..]) => Some(rest),
        _ => after_other(rows, holder, bytes, kind),
    }
}

#[inline(always)]
#[tactic(auto, unfolding(crate::specs::Kinds::stack_slot_in))]
fn after_stack_slot<'a>(
    rows: usize,
    holder: usize,
    bytes: &'a [u8],
    slot: &StackSlot,
) -> Option<&'a [u8]>
    ensures { IfSome result
        (λ rest. stack_slot_in rows holder bytes.now ≡ Ok (Some slot.now, rest.now)) }
{
    match (slot, bytes) {
        (StackSlot::Written(marks), [0, there, rest @ ..]) => {
            if *there == *marks { Some(rest) } else { None }
        }
        (StackSlot::Spilled(Kind::Unset), _) => None,
        (StackSlot::Spilled(kind), [1, rest @ ..]) => after_kind(rows, holder, rest, kind),
        _ => None,
    }
}

pub fn after_registers<'a>(
    rows: usize,
    holder: usize,
    bytes: &'a [u8],
    registers: &[Kind; 10],
) -> Option<&'a [u8]>
    ensures { IfSome result (λ rest. many (λ k. kind_in rows holder) 10 0 bytes.now
        ≡ Ok (Some registers.now, rest.now)) }
{
    let mut rest = bytes;
    for index in 0..10 {
        rest = after_kind(rows, holder, rest, &registers[index])?;
    }
    Some(rest)
}

pub fn after_stack_slots<'a>(
    rows: usize,
    holder: usize,
    bytes: &'a [u8],
    slots: &[StackSlot; FRAME_SLOTS],
) -> Option<&'a [u8]>
    ensures { IfSome result (λ rest. many (λ k. stack_slot_in rows holder) frame_slots 0 bytes.now
        ≡ Ok (Some slots.now, rest.now)) }
{
    let blank = blank_stack_slots(bytes);
    if !are_blank(slots, blank) {
        return None;
    }
    let mut rest = skip(bytes, 2 * blank);
    for index in blank..FRAME_SLOTS {
        rest = after_stack_slot(rows, holder, rest, &slots[index])?;
    }
    Some(rest)
}

pub fn after_frame<'a>(
    rows: usize,
    holder: usize,
    outer: bool,
    bytes: &'a [u8],
    frame: &AbstractFrame,
) -> Option<&'a [u8]>
    ensures { IfSome result (λ rest. frame_in rows holder outer bytes.now
        ≡ Ok (Some frame.now, rest.now)) }
{
    if bytes.len() < 2 || usize::from(u16_at(bytes, 0)) != frame.return_slot {
        return None;
    }
    let rest = after_registers(rows, holder, skip(bytes, 2), &frame.registers)?;
    let rest = after_stack_slots(rows, holder, rest, frame.stack.slots())?;
    if frame_allowed(holder, outer, frame.return_slot, &frame.registers) {
        Some(rest)
    } else {
        None
    }
}
