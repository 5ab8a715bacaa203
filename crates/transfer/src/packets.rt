//! Loads and stores through packet pointers, and moves of them.

ghost use Rattle.std.specs.Prelude.{◌≡◌, ◌+◌, ◌*◌, ◌^◌, ◌↔◌, ℤ, pos, ◌+ℤ◌, ◌-ℤ◌, ◌≤ℤ◌, FitsSigned, IsTrue};
ghost use Rattle.isa_model.specs.Code.Sizes.{size_bytes, unsigned_size, size_extension};
ghost use Rattle.ranges.specs.Keeps.{extension_signed};
ghost use Rattle.transfer.specs.Packets.{IsOfSize, IsOfSignedSize, PacketLoads, PacketLoadsSigned, IsStoredNumber, PacketStores, lowest, highest, AreLimited, IsOffsetPart, AreOffsetParts, StaysProved, IsFreshPointer, MovesBetween, MovesBy, PacketMoves};

use crate::bytes::are_in_packet;
use crate::offsets::{both_limited, moved_by, sum};
use crate::refusals::Refusal;
use crate::stacks::unsigned_size;
use isa_model::{SignedSize, Size, Width};
use known_bits::Bits;
use ranges::Range;
use reg_state::{Domain, Kind, Scalar};
use stack_state::State;

/// A packet pointer, by the fields of its kind.
#[derive(Clone, Copy)]
pub struct PacketPointer {
    pub fixed: i32,
    pub identity: u32,
    pub least: i32,
    pub greatest: i32,
    pub proved: u32,
}

/// The greatest number of this size.
fn greatest_number(size: Size) -> u64
    ensures { result + 1 ≡ 2 ^ (8 * size_bytes size) }
{
    match size {
        Size::U8 => 0xff,
        Size::U16 => 0xffff,
        Size::U32 => 0xffff_ffff,
        Size::U64 => u64::MAX,
    }
}

/// Any number of this size.
pub fn of_size(size: Size) -> Scalar
    ensures { IsOfSize size result }
{
    let greatest = greatest_number(size);
    Scalar {
        bits: Bits::between(0, greatest),
        range: Range::between(0, greatest),
    }
}

/// The least and the greatest number of this size with a sign.
fn signed_limits(size: SignedSize) -> (i64, i64)
    ensures fits { (z : ℤ) → (((result.0 ≤ℤ z) × (z ≤ℤ result.1))
        ↔ FitsSigned (extension_signed (size_extension size)) z) }
    ensures ordered { result.0 ≤ℤ result.1 }
{
    match size {
        SignedSize::S8 => (-0x80, 0x7f),
        SignedSize::S16 => (-0x8000, 0x7fff),
        SignedSize::S32 => (-0x8000_0000, 0x7fff_ffff),
    }
}

/// Any number of this size with a sign.
pub fn of_signed_size(size: SignedSize) -> Scalar
    ensures { IsOfSignedSize size result }
{
    let (least, greatest) = signed_limits(size);
    Scalar {
        bits: Bits::any(Width::Full64),
        range: Range::signed_between(least, greatest),
    }
}

/// The result of a load that extends no sign.
pub fn packet_load(
    size: Size,
    fixed: i32,
    least: i32,
    proved: u32,
    offset: i16,
) -> Result<Kind, Refusal>
    ensures { PacketLoads size fixed least proved offset result }
{
    if are_in_packet(fixed, least, proved, offset, size.bytes() as u32) {
        Ok(Kind::Number(of_size(size)))
    } else {
        Err(Refusal::PacketBytes)
    }
}

/// The result of a sign-extending load.
pub fn packet_load_signed(
    size: SignedSize,
    fixed: i32,
    least: i32,
    proved: u32,
    offset: i16,
) -> Result<Kind, Refusal>
    ensures { PacketLoadsSigned size fixed least proved offset result }
{
    if are_in_packet(
        fixed,
        least,
        proved,
        offset,
        unsigned_size(size).bytes() as u32,
    ) {
        Ok(Kind::Number(of_signed_size(size)))
    } else {
        Err(Refusal::PacketBytes)
    }
}

/// Numbers may be stored anywhere, pointers on the stack only.
pub fn stored(source: Kind) -> Result<(), Refusal>
    ensures { IsStoredNumber source result }
{
    match source {
        Kind::Number(_) => Ok(()),
        Kind::MapValueOrNull { .. } => Err(Refusal::NullNotTested),
        _ => Err(Refusal::PointerStored),
    }
}

/// Returns whether a value of the kind may be stored.
pub fn packet_store(
    size: Size,
    fixed: i32,
    least: i32,
    proved: u32,
    offset: i16,
    source: Kind,
) -> Result<(), Refusal>
    ensures { PacketStores size fixed least proved offset source result }
{
    if are_in_packet(fixed, least, proved, offset, size.bytes() as u32) {
        stored(source)
    } else {
        Err(Refusal::PacketBytes)
    }
}

/// The least offset after a move by a distance between two limits.
fn lowest(back: bool, pointer: PacketPointer, near: i64, far: i64) -> i128
    ensures { result ≡ lowest back pointer near far }
{
    let offset = sum(pointer.fixed, pointer.least);
    if back {
        moved_by(true, offset, far)
    } else {
        moved_by(false, offset, near)
    }
}

/// The greatest offset after such a move.
fn highest(back: bool, pointer: PacketPointer, near: i64, far: i64) -> i128
    ensures { result ≡ highest back pointer near far }
{
    let offset = sum(pointer.fixed, pointer.greatest);
    if back {
        moved_by(true, offset, near)
    } else {
        moved_by(false, offset, far)
    }
}

/// The least and the greatest offset, if a pointer may have both.
fn both(back: bool, pointer: PacketPointer, near: i64, far: i64) -> Result<(i32, i32), Refusal>
    ensures { AreLimited (lowest back pointer near far) (highest back pointer near far) result }
{
    both_limited(
        lowest(back, pointer, near, far),
        highest(back, pointer, near, far),
    )
}

/// A part of an offset, if it has room for the number.
fn part(offset: i128) -> Option<i32>
    ensures { IsOffsetPart offset result }
{
    if i128::from(i32::MIN) <= offset && offset <= i128::from(i32::MAX) {
        Some(offset as i32)
    } else {
        None
    }
}

/// The limits of the variable part, where the whole offset is from one to another.
fn variable_part(fixed: i32, from: i32, to: i32) -> Option<(i32, i32)>
    ensures { AreOffsetParts (from -ℤ fixed) (to -ℤ fixed) result }
{
    let least = part(moved_by(true, i64::from(from), i64::from(fixed)))?;
    let greatest = part(moved_by(true, i64::from(to), i64::from(fixed)))?;
    Some((least, greatest))
}

/// Returns how many bytes after the variable part are still proved, once its greatest is another
/// one.
fn still_proved(proved: u32, greatest: i32, new_greatest: i32) -> u32
    ensures { StaysProved proved (new_greatest -ℤ greatest) result }
{
    let left = i64::from(proved) + i64::from(greatest) - i64::from(new_greatest);
    if proved == 0 || left < 0 || left > i64::from(u32::MAX) {
        return 0;
    }
    left as u32
}

/// A pointer with a new identity.
fn fresh_pointer(state: &State, fixed: i32, least: i32, greatest: i32, proved: u32) -> Kind
    ensures { IsFreshPointer state.now fixed least greatest proved result }
{
    Kind::Packet {
        fixed,
        identity: state.fresh_packet_identity(),
        least,
        greatest,
        proved,
    }
}

/// A move by a distance between two limits. The fixed part stays, if the variable one has room for
/// the move; else the variable part becomes the whole offset, and nothing is proved.
fn moved_between(
    state: &State,
    back: bool,
    pointer: PacketPointer,
    near: i64,
    far: i64,
) -> Result<Kind, Refusal>
    ensures { MovesBetween state.now back pointer near far result }
{
    let Ok((from, to)) = both(back, pointer, near, far) else {
        return Err(Refusal::PointerOffset);
    };
    match variable_part(pointer.fixed, from, to) {
        Some((least, greatest)) => {
            let proved = still_proved(pointer.proved, pointer.greatest, greatest);
            Ok(fresh_pointer(state, pointer.fixed, least, greatest, proved))
        }
        None => Ok(fresh_pointer(state, 0, from, to, 0)),
    }
}

/// A move by one distance. The fixed part moves, if it has room for that; else the variable part
/// becomes the whole offset, and nothing is proved.
fn moved(state: &State, back: bool, pointer: PacketPointer, distance: i64) -> Result<Kind, Refusal>
    ensures { MovesBy state.now back pointer distance result }
{
    let Ok((from, to)) = both(back, pointer, distance, distance) else {
        return Err(Refusal::PointerOffset);
    };
    match part(moved_by(back, i64::from(pointer.fixed), distance)) {
        Some(fixed) => Ok(Kind::Packet {
            fixed,
            identity: pointer.identity,
            least: pointer.least,
            greatest: pointer.greatest,
            proved: pointer.proved,
        }),
        None => Ok(fresh_pointer(state, 0, from, to, 0)),
    }
}

/// The pointer after the addition, or where `back` is set the subtraction, of a number.
pub fn packet_moved(
    state: &State,
    back: bool,
    pointer: PacketPointer,
    by: Scalar,
) -> Result<Kind, Refusal>
    ensures { PacketMoves state.now back pointer by result }
{
    match by.number() {
        Some(number) => moved(state, back, pointer, number.cast_signed()),
        None => moved_between(
            state,
            back,
            pointer,
            by.range.wide.signed_least,
            by.range.wide.signed_greatest,
        ),
    }
}
