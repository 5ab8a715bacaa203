//! Loops that read ten kinds, and the stack slots of a call frame, from the bytes of a table into a
//! frame.

ghost use Rattle.std.specs.Prelude.{◌≡◌, ◌<◌, ◌&&◌, slice_set};
ghost use Rattle.stack_state.specs.Slots.{frame_slots, slot_at};
ghost use Rattle.table_entries.specs.Kinds.{kind_in, stack_slot_in};
ghost use Rattle.table_entries.specs.Reading.{ReturnsRead, kept, many};

use crate::blanks::blank_stack_slots;
use crate::kinds::{kind_in, stack_slot_in};
use crate::slices::skip;
use crate::stops::StopReason;
use reg_state::Kind;
use stack_state::{FRAME_SLOTS, StackState};

/// Returns whether both are true.
pub fn both(first: bool, second: bool) -> bool
    ensures { result ≡ (first && second) }
{
    first && second
}

/// A kind, read into `kind`: whether it is allowed, and the bytes after it.
#[inline(always)]
#[tactic(auto, unfolding(crate::specs::Kinds::kind_in, crate::specs::Kinds::fields_in))]
fn read_kind<'a>(
    rows: usize,
    holder: usize,
    bytes: &'a [u8],
    kind: &mut Kind,
) -> Result<(bool, &'a [u8]), StopReason>
    ensures { ReturnsRead (λ x. (kept x.0 kind.new, x.1.now)) result
        (kind_in rows holder bytes.now) }
{
    match bytes {
        [0, rest @ ..] => {
            *kind = Kind::Unset;
            Ok((true, rest))
        }
        _ => {
            let (found, rest) = kind_in(rows, holder, bytes)?;
            match found {
                Some(found) => {
                    *kind = found;
                    Ok((true, rest))
                }
                None => Ok((false, rest)),
            }
        }
    }
}

/// A stack slot, read into the one with that index: whether it is allowed, and the bytes after it.
///
/// Most have no spilled value: only the marks of their bytes are written.
#[inline(always)]
#[tactic(auto, unfolding(crate::specs::Kinds::stack_slot_in))]
fn read_stack_slot<'a>(
    rows: usize,
    holder: usize,
    bytes: &'a [u8],
    index: usize,
    stack: &mut StackState,
) -> Result<(bool, &'a [u8]), StopReason>
    requires { index < frame_slots }
    ensures read { ReturnsRead (λ x. (kept x.0 (slot_at stack.new.slots index), x.1.now)) result
        (stack_slot_in rows holder bytes.now) }
    ensures others { stack.new.slots
        ≡ slice_set stack.old.slots index (slot_at stack.new.slots index) }
{
    match bytes {
        [0, marks, rest @ ..] => {
            stack.mark(index, *marks);
            Ok((true, rest))
        }
        _ => {
            let (found, rest) = stack_slot_in(rows, holder, bytes)?;
            match found {
                Some(found) => {
                    stack.set(index, found);
                    Ok((true, rest))
                }
                None => Ok((false, rest)),
            }
        }
    }
}

/// Ten kinds, read into the registers of a frame: whether all are allowed, and the bytes after
/// them.
pub fn read_registers<'a>(
    rows: usize,
    holder: usize,
    bytes: &'a [u8],
    registers: &mut [Kind; 10],
) -> Result<(bool, &'a [u8]), StopReason>
    ensures { ReturnsRead (λ x. (kept x.0 registers.new, x.1.now)) result
        (many (λ k. kind_in rows holder) 10 0 bytes.now) }
{
    let mut rest = bytes;
    let mut allowed = true;
    for index in 0..10 {
        let (fits, after) = read_kind(rows, holder, rest, &mut registers[index])?;
        allowed = both(allowed, fits);
        rest = after;
    }
    Ok((allowed, rest))
}

/// The stack slots of a frame: whether all are allowed, and the bytes after them. Nothing is known
/// of most, and those that come first are read many at a time.
pub fn read_stack_slots<'a>(
    rows: usize,
    holder: usize,
    bytes: &'a [u8],
    stack: &mut StackState,
) -> Result<(bool, &'a [u8]), StopReason>
    ensures { ReturnsRead (λ x. (kept x.0 stack.new.slots, x.1.now)) result
        (many (λ k. stack_slot_in rows holder) frame_slots 0 bytes.now) }
{
    let blank = blank_stack_slots(bytes);
    stack.forget_before(blank);
    let mut rest = skip(bytes, 2 * blank);
    let mut allowed = true;
    for index in blank..FRAME_SLOTS {
        let (fits, after) = read_stack_slot(rows, holder, rest, index, stack)?;
        allowed = both(allowed, fits);
        rest = after;
    }
    Ok((allowed, rest))
}
