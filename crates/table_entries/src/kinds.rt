//! The kinds of registers and stack slots in the bytes of a table.

ghost use Rattle.std.specs.Prelude.{◌≡◌, ◌≤◌, length, MatchResult, Ok, Err};
ghost use Rattle.table_entries.specs.Kinds.{bits_of, wide_of, low_of, scalar_in, packet_in, stack_in, map_in, value_in, null_in, fields_in, kind_in, stack_slot_in, marks_in, spilled, has_no_part, limits_of, limits_in, range_of, scalar_of, packet_of, lacks_identity, bits_in, wide_in, low_in};
ghost use Rattle.std.specs.Option.{option_map};
ghost use Rattle.table_entries.specs.Reading.{ReturnsRead};

use crate::slices::{skip, u32_at, u64_at};
use crate::stops::StopReason;
use known_bits::Bits;
use ranges::{Low, Range, Wide};
use reg_state::{Kind, Scalar};
use stack_state::StackSlot;

#[tactic(auto, unfolding(crate::specs::Kinds::bits_of))]
#[inline(always)]
fn bits_of(value: u64, mask: u64) -> Option<Bits>
    ensures { result ≡ bits_of value mask }
{
    if value & mask == 0 {
        Some(Bits { value, mask })
    } else {
        None
    }
}

#[inline(always)]
fn wide_of(least: u64, greatest: u64, signed_least: i64, signed_greatest: i64) -> Option<Wide>
    ensures { result ≡ wide_of least greatest signed_least signed_greatest }
{
    if least > greatest {
        return None;
    }
    if signed_least > signed_greatest {
        return None;
    }
    Some(Wide {
        least,
        greatest,
        signed_least,
        signed_greatest,
    })
}

#[inline(always)]
fn low_of(least: u32, greatest: u32, signed_least: i32, signed_greatest: i32) -> Option<Low>
    ensures { result ≡ low_of least greatest signed_least signed_greatest }
{
    if greatest < least {
        return None;
    }
    if signed_greatest < signed_least {
        return None;
    }
    Some(Low {
        least,
        greatest,
        signed_least,
        signed_greatest,
    })
}

#[inline(always)]
fn range_of(wide: Option<Wide>, low: Option<Low>) -> Option<Range>
    ensures { result ≡ range_of wide low }
{
    match (wide, low) {
        (Some(wide), Some(low)) => Some(Range { wide, low }),
        _ => None,
    }
}

#[inline(always)]
fn scalar_of(bits: Option<Bits>, range: Option<Range>) -> Option<Scalar>
    ensures { result ≡ scalar_of bits range }
{
    match (bits, range) {
        (Some(bits), Some(range)) => Some(Scalar { bits, range }),
        _ => None,
    }
}

#[inline(always)]
fn bits_in(bytes: &[u8]) -> Option<Bits>
    requires { 16 ≤ length bytes.now }
    ensures { result ≡ bits_in bytes.now }
{
    bits_of(u64_at(bytes, 0), u64_at(bytes, 8))
}

#[inline(always)]
fn wide_in(bytes: &[u8]) -> Option<Wide>
    requires { 32 ≤ length bytes.now }
    ensures { result ≡ wide_in bytes.now }
{
    wide_of(
        u64_at(bytes, 0),
        u64_at(bytes, 8),
        u64_at(bytes, 16).cast_signed(),
        u64_at(bytes, 24).cast_signed(),
    )
}

#[inline(always)]
fn low_in(bytes: &[u8]) -> Option<Low>
    requires { 16 ≤ length bytes.now }
    ensures { result ≡ low_in bytes.now }
{
    low_of(
        u32_at(bytes, 0),
        u32_at(bytes, 4),
        u32_at(bytes, 8).cast_signed(),
        u32_at(bytes, 12).cast_signed(),
    )
}

#[tactic(auto, unfolding(crate::specs::Kinds::scalar_in))]
#[inline(always)]
/// Returns what is known of a number: 64 bytes. None: a field is not allowed.
pub fn scalar_in(bytes: &[u8]) -> Option<Scalar>
    requires { 64 ≤ length bytes.now }
    ensures { result ≡ scalar_in bytes.now }
{
    scalar_of(
        bits_in(bytes),
        range_of(wide_in(skip(bytes, 16)), low_in(skip(bytes, 48))),
    )
}

#[tactic(auto, unfolding(crate::specs::Kinds::limits_of))]
fn limits_of(least: i32, greatest: i32) -> Option<(i32, i32)>
    ensures { result ≡ limits_of least greatest }
{
    if least <= greatest {
        Some((least, greatest))
    } else {
        None
    }
}

fn limits_in(bytes: &[u8]) -> Option<(i32, i32)>
    requires { 8 ≤ length bytes.now }
    ensures { result ≡ limits_in bytes.now }
{
    limits_of(
        u32_at(bytes, 0).cast_signed(),
        u32_at(bytes, 4).cast_signed(),
    )
}

fn has_no_part(bytes: &[u8]) -> bool
    requires { 8 ≤ length bytes.now }
    ensures { result ≡ has_no_part bytes.now }
{
    u32_at(bytes, 0) == 0 && u32_at(bytes, 4) == 0
}

// Whether there is a variable part, and no identity.
fn lacks_identity(bytes: &[u8]) -> bool
    requires { 20 ≤ length bytes.now }
    ensures { result ≡ lacks_identity bytes.now }
{
    u32_at(bytes, 4) == 0 && !has_no_part(skip(bytes, 8))
}

fn packet_of(fixed: i32, identity: u32, limits: Option<(i32, i32)>, proved: u32) -> Option<Kind>
    ensures { result ≡ packet_of fixed identity limits proved }
{
    match limits {
        Some((least, greatest)) => Some(Kind::Packet {
            fixed,
            identity,
            least,
            greatest,
            proved,
        }),
        None => None,
    }
}

#[tactic(auto, unfolding(crate::specs::Kinds::packet_in))]
/// The kind of a packet pointer: 20 bytes. None: a field is not allowed.
pub fn packet_in(bytes: &[u8]) -> Option<Kind>
    requires { 20 ≤ length bytes.now }
    ensures { result ≡ packet_in bytes.now }
{
    if lacks_identity(bytes) {
        return None;
    }
    packet_of(
        u32_at(bytes, 0).cast_signed(),
        u32_at(bytes, 4),
        limits_in(skip(bytes, 8)),
        u32_at(bytes, 16),
    )
}

#[tactic(auto, unfolding(crate::specs::Kinds::stack_in))]
#[inline(always)]
/// The kind of a frame pointer: 5 bytes. None: a field is not allowed.
pub fn stack_in(holder: usize, bytes: &[u8]) -> Option<Kind>
    requires { 5 ≤ length bytes.now }
    ensures { result ≡ stack_in holder bytes.now }
{
    let frame = bytes[0];
    if usize::from(frame) > holder {
        return None;
    }
    Some(Kind::Stack {
        frame,
        offset: u32_at(bytes, 1).cast_signed(),
    })
}

#[tactic(auto, unfolding(crate::specs::Kinds::map_in))]
fn map_in(rows: usize, bytes: &[u8]) -> Option<Kind>
    requires { 1 ≤ length bytes.now }
    ensures { result ≡ map_in rows bytes.now }
{
    let index = bytes[0];
    if usize::from(index) < rows {
        Some(Kind::Map { index })
    } else {
        None
    }
}

#[tactic(auto, unfolding(crate::specs::Kinds::value_in))]
fn value_in(rows: usize, bytes: &[u8]) -> Option<Kind>
    requires { 9 ≤ length bytes.now }
    ensures { result ≡ value_in rows bytes.now }
{
    let index = bytes[0];
    if usize::from(index) >= rows {
        return None;
    }
    match limits_in(skip(bytes, 1)) {
        Some((least, greatest)) => Some(Kind::MapValue {
            index,
            least,
            greatest,
        }),
        None => None,
    }
}

#[tactic(auto, unfolding(crate::specs::Kinds::null_in))]
fn null_in(rows: usize, bytes: &[u8]) -> Option<Kind>
    requires { 5 ≤ length bytes.now }
    ensures { result ≡ null_in rows bytes.now }
{
    let index = bytes[0];
    let identity = u32_at(bytes, 1);
    if rows > usize::from(index) {
        Some(Kind::MapValueOrNull { index, identity })
    } else {
        None
    }
}

#[inline(always)]
/// The kind of a number: 64 bytes. None: a field is not allowed.
pub fn number_in(bytes: &[u8]) -> Option<Kind>
    requires { 64 ≤ length bytes.now }
    ensures { result ≡ option_map Kind.Number (scalar_in bytes.now) }
{
    match scalar_in(bytes) {
        Some(numbers) => Some(Kind::Number(numbers)),
        None => None,
    }
}

/// The kind that a byte says, with the fields that the bytes begin with.
#[tactic(auto, unfolding(crate::specs::Kinds::fields_in))]
fn fields_in(
    rows: usize,
    holder: usize,
    kind: u8,
    bytes: &[u8],
) -> Result<(Option<Kind>, &[u8]), StopReason>
    ensures { ReturnsRead (λ x. (x.0, x.1.now)) result (fields_in rows holder kind bytes.now) }
{
    match kind {
        0 => Ok((Some(Kind::Unset), bytes)),
        1 => {
            if bytes.len() < 64 {
                return Err(StopReason::Short);
            }
            Ok((number_in(bytes), skip(bytes, 64)))
        }
        2 => Ok((Some(Kind::Context), bytes)),
        3 => {
            if bytes.len() < 5 {
                return Err(StopReason::Short);
            }
            Ok((stack_in(holder, bytes), skip(bytes, 5)))
        }
        4 => {
            if bytes.len() < 20 {
                return Err(StopReason::Short);
            }
            Ok((packet_in(bytes), skip(bytes, 20)))
        }
        5 => Ok((Some(Kind::PacketEnd), bytes)),
        6 => {
            if bytes.is_empty() {
                return Err(StopReason::Short);
            }
            Ok((map_in(rows, bytes), skip(bytes, 1)))
        }
        7 => {
            if bytes.len() < 9 {
                return Err(StopReason::Short);
            }
            Ok((value_in(rows, bytes), skip(bytes, 9)))
        }
        8 => {
            if bytes.len() < 5 {
                return Err(StopReason::Short);
            }
            Ok((null_in(rows, bytes), skip(bytes, 5)))
        }
        _ => Err(StopReason::Meaningless),
    }
}

/// A kind: the byte that says which one it is, and its fields.
#[tactic(auto, unfolding(crate::specs::Kinds::kind_in))]
pub fn kind_in(
    rows: usize,
    holder: usize,
    bytes: &[u8],
) -> Result<(Option<Kind>, &[u8]), StopReason>
    ensures { ReturnsRead (λ x. (x.0, x.1.now)) result (kind_in rows holder bytes.now) }
{
    match bytes {
        [] => Err(StopReason::Short),
        [kind, rest @ ..] => fields_in(rows, holder, *kind, rest),
    }
}

/// The marks of written bytes.
fn marks_in(bytes: &[u8]) -> Result<(Option<StackSlot>, &[u8]), StopReason>
    ensures { ReturnsRead (λ x. (x.0, x.1.now)) result (marks_in bytes.now) }
{
    match bytes {
        [] => Err(StopReason::Short),
        [marks, rest @ ..] => Ok((Some(StackSlot::Written(*marks)), rest)),
    }
}

/// A stack slot with a spilled value, of which something is known: its kind is not unset.
fn spilled(kind: Option<Kind>) -> Option<StackSlot>
    ensures { result ≡ spilled kind }
{
    match kind {
        None | Some(Kind::Unset) => None,
        Some(kind) => Some(StackSlot::Spilled(kind)),
    }
}

/// A stack slot: what is known of its bytes.
#[tactic(auto, unfolding(crate::specs::Kinds::stack_slot_in))]
pub fn stack_slot_in(
    rows: usize,
    holder: usize,
    bytes: &[u8],
) -> Result<(Option<StackSlot>, &[u8]), StopReason>
    ensures { ReturnsRead (λ x. (x.0, x.1.now)) result (stack_slot_in rows holder bytes.now) }
{
    match bytes {
        [] => Err(StopReason::Short),
        [0, rest @ ..] => marks_in(rest),
        [1, rest @ ..] => {
            let (kind, rest) = kind_in(rows, holder, rest)?;
            Ok((spilled(kind), rest))
        }
        [_, ..] => Err(StopReason::Meaningless),
    }
}
