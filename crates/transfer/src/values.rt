//! Wide loads of maps; loads and stores through pointers to map values, and moves of them.

ghost use Rattle.std.specs.Prelude.{◌≡◌, ◌^◌, ◌<◌, ◌↔◌, pos, slice_get, IsTrue, Ok};
ghost use Rattle.isa_model.specs.Code.Sizes.{size_bytes};
ghost use Rattle.transfer.specs.Values.{ValueLoads, ValueLoadsSigned, ValueStores, nearest, farthest, moved_least, moved_greatest, ValueMoves};

use crate::bytes::are_in_value;
use crate::offsets::{both_limited, moved_by};
use crate::packets::{of_signed_size, of_size, stored};
use crate::refusals::Refusal;
use crate::stacks::unsigned_size;
use isa_model::{MapDef, SignedSize, Size};
use reg_state::{Kind, Scalar};

// ---- wide loads

/// A pointer to a map.
pub fn map_pointer(index: u32) -> Kind
    requires { index < 2 ^ 8 }
    ensures { result ≡ Kind.Map index }
{
    Kind::Map { index: index as u8 }
}

/// A pointer into the value of a map's only key.
pub fn value_pointer(index: u32, offset: u32) -> Kind
    requires index { index < 2 ^ 8 }
    requires offset { offset < 2 ^ 31 }
    ensures { result ≡ Kind.MapValue index (pos offset) (pos offset) }
{
    Kind::MapValue {
        index: index as u8,
        least: offset as i32,
        greatest: offset as i32,
    }
}

// ---- loads and stores

/// The result of a load that extends no sign.
pub fn value_load(
    size: Size,
    value_bytes: u32,
    least: i32,
    greatest: i32,
    by: i16,
) -> Result<Kind, Refusal>
    ensures { ValueLoads size value_bytes least greatest by result }
{
    if are_in_value(value_bytes, least, greatest, by, size.bytes() as u32) {
        Ok(Kind::Number(of_size(size)))
    } else {
        Err(Refusal::MapValueBytes)
    }
}

/// The result of a sign-extending load.
pub fn value_load_signed(
    size: SignedSize,
    value_bytes: u32,
    least: i32,
    greatest: i32,
    by: i16,
) -> Result<Kind, Refusal>
    ensures { ValueLoadsSigned size value_bytes least greatest by result }
{
    if are_in_value(
        value_bytes,
        least,
        greatest,
        by,
        unsigned_size(size).bytes() as u32,
    ) {
        Ok(Kind::Number(of_signed_size(size)))
    } else {
        Err(Refusal::MapValueBytes)
    }
}

/// Returns whether a value of the kind may be stored.
pub fn value_store(
    size: Size,
    value_bytes: u32,
    least: i32,
    greatest: i32,
    by: i16,
    source: Kind,
) -> Result<(), Refusal>
    ensures { ValueStores size value_bytes least greatest by source result }
{
    if are_in_value(value_bytes, least, greatest, by, size.bytes() as u32) {
        stored(source)
    } else {
        Err(Refusal::MapValueBytes)
    }
}

// ---- moves

/// The least distance by which a number moves a pointer; `number` is the number, if it is known.
pub fn nearest(by: Scalar, number: Option<u64>) -> i64
    ensures { result ≡ nearest by number }
{
    match number {
        Some(number) => number.cast_signed(),
        None => by.range.wide.signed_least,
    }
}

/// The greatest distance by which it does.
pub fn farthest(by: Scalar, number: Option<u64>) -> i64
    ensures { result ≡ farthest by number }
{
    match number {
        Some(number) => number.cast_signed(),
        None => by.range.wide.signed_greatest,
    }
}

/// The least offset after a move by a distance between two limits.
fn moved_least(back: bool, least: i32, near: i64, far: i64) -> i128
    ensures { result ≡ moved_least back least near far }
{
    if back {
        moved_by(true, i64::from(least), far)
    } else {
        moved_by(false, i64::from(least), near)
    }
}

/// The greatest offset after a move by a distance between two limits.
fn moved_greatest(back: bool, greatest: i32, near: i64, far: i64) -> i128
    ensures { result ≡ moved_greatest back greatest near far }
{
    if back {
        moved_by(true, i64::from(greatest), near)
    } else {
        moved_by(false, i64::from(greatest), far)
    }
}

/// The pointer after a move by a distance between two limits, back or forward.
pub fn value_moved(
    back: bool,
    index: u8,
    least: i32,
    greatest: i32,
    near: i64,
    far: i64,
) -> Result<Kind, Refusal>
    ensures { ValueMoves back index least greatest near far result }
{
    let from = moved_least(back, least, near, far);
    let to = moved_greatest(back, greatest, near, far);
    let Ok((least, greatest)) = both_limited(from, to) else {
        return Err(Refusal::PointerOffset);
    };
    Ok(Kind::MapValue {
        index,
        least,
        greatest,
    })
}
