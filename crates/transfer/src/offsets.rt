//! Offsets of pointers: moves, and the limit.

ghost use Rattle.std.specs.Prelude.{◌≡◌, ◌+ℤ◌};
ghost use Rattle.transfer.specs.Packets.{moved_by, IsLimited, AreLimited};

use crate::refusals::Refusal;
use isa_model::OFFSET_LIMIT;

/// The sum of two offsets.
pub fn sum(left: i32, right: i32) -> i64
    ensures { result ≡ left +ℤ right }
{
    i64::from(left) + i64::from(right)
}

/// The offset after a move, back or forward.
pub fn moved_by(back: bool, offset: i64, distance: i64) -> i128
    ensures { result ≡ moved_by back offset distance }
{
    if back {
        i128::from(offset) - i128::from(distance)
    } else {
        i128::from(offset) + i128::from(distance)
    }
}

/// An offset that a pointer may have.
fn limited(offset: i128) -> Result<i32, Refusal>
    ensures { IsLimited offset result }
{
    if -OFFSET_LIMIT <= offset && offset <= OFFSET_LIMIT {
        Ok(offset as i32)
    } else {
        Err(Refusal::PointerOffset)
    }
}

/// Two offsets that a pointer may have.
pub fn both_limited(from: i128, to: i128) -> Result<(i32, i32), Refusal>
    ensures { AreLimited from to result }
{
    let Ok(from) = limited(from) else {
        return Err(Refusal::PointerOffset);
    };
    let Ok(to) = limited(to) else {
        return Err(Refusal::PointerOffset);
    };
    Ok((from, to))
}
