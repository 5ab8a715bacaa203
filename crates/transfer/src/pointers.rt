//! Arithmetic on pointers.

ghost use Rattle.std.specs.Prelude.{◌≡◌};
ghost use Rattle.transfer.specs.Results.{moved_offset, frame_pointer, moved_frame, MovesPointer, PointerAndNumber, NumberAndPointer};

use crate::packets::{PacketPointer, packet_moved};
use crate::refusals::Refusal;
use crate::values::{farthest, nearest, value_moved};
use isa_model::{AluOp, OFFSET_LIMIT, Width};
use reg_state::{Domain, Kind, Scalar};
use stack_state::State;

/// The offset after a move, back or forward; the number counts as a signed one.
fn moved_offset(back: bool, offset: i32, number: u64) -> i128
    ensures { result ≡ moved_offset back offset number }
{
    let distance = i128::from(number.cast_signed());
    if back {
        i128::from(offset) - distance
    } else {
        i128::from(offset) + distance
    }
}

/// The frame pointer at an offset.
fn frame_pointer(frame: u8, offset: i128) -> Result<Kind, Refusal>
    ensures { result ≡ frame_pointer frame offset }
{
    if -OFFSET_LIMIT <= offset && offset <= OFFSET_LIMIT {
        Ok(Kind::Stack {
            frame,
            offset: offset as i32,
        })
    } else {
        Err(Refusal::PointerOffset)
    }
}

/// The frame pointer after a move by a number, back or forward; `None` is a number that is not
/// known.
fn moved_frame(back: bool, frame: u8, offset: i32, number: Option<u64>) -> Result<Kind, Refusal>
    ensures { result ≡ moved_frame back frame offset number }
{
    match number {
        Some(number) => frame_pointer(frame, moved_offset(back, offset, number)),
        None => Err(Refusal::PointerOffset),
    }
}

/// The pointer after a move by a number, back or forward.
fn moved(state: &State, back: bool, pointer: Kind, by: Scalar) -> Result<Kind, Refusal>
    ensures { MovesPointer state.now back pointer by result }
{
    match pointer {
        Kind::Stack { frame, offset } => moved_frame(back, frame, offset, by.number()),
        Kind::Packet {
            fixed,
            identity,
            least,
            greatest,
            proved,
        } => {
            let pointer = PacketPointer {
                fixed,
                identity,
                least,
                greatest,
                proved,
            };
            packet_moved(state, back, pointer, by)
        }
        Kind::MapValue {
            index,
            least,
            greatest,
        } => {
            let number = by.number();
            let near = nearest(by, number);
            let far = farthest(by, number);
            value_moved(back, index, least, greatest, near, far)
        }
        Kind::MapValueOrNull { .. } => Err(Refusal::NullNotTested),
        _ => Err(Refusal::PointerOperand),
    }
}

/// A pointer on the left and a number on the right.
pub fn pointer_and_number(
    state: &State,
    op: AluOp,
    width: Width,
    pointer: Kind,
    by: Scalar,
) -> Result<Kind, Refusal>
    ensures { PointerAndNumber state.now op width pointer by result }
{
    match (op, width) {
        (AluOp::Add, Width::Full64) => moved(state, false, pointer, by),
        (AluOp::Sub, Width::Full64) => moved(state, true, pointer, by),
        _ => Err(Refusal::PointerOperand),
    }
}

/// A number on the left and a pointer on the right.
pub fn number_and_pointer(
    state: &State,
    op: AluOp,
    width: Width,
    by: Scalar,
    pointer: Kind,
) -> Result<Kind, Refusal>
    ensures { NumberAndPointer state.now op width by pointer result }
{
    match (op, width) {
        (AluOp::Add, Width::Full64) => moved(state, false, pointer, by),
        _ => Err(Refusal::PointerOperand),
    }
}
