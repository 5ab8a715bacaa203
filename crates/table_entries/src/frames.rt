//! Call frames in the bytes of a table.

ghost use Rattle.std.specs.Prelude.{◌≡◌, ◌<◌};
ghost use Rattle.isa_model.specs.Code.Limits.{max_call_frames};
ghost use Rattle.table_entries.specs.Frames.{is_unset, are_unset, frame_allowed, frame_in, callers_in};
ghost use Rattle.table_entries.specs.Reading.{ReturnsRead, kept};

use crate::loops::{both, read_registers, read_stack_slots};
use crate::slices::{skip, u16_at};
use crate::stops::StopReason;
use arrayvec::ArrayVec;
use reg_state::Kind;
use stack_state::{AbstractFrame, MAX_CALLERS};

fn is_unset(kind: &Kind) -> bool
    ensures { result ≡ is_unset kind.now }
{
    matches!(kind, Kind::Unset)
}

// Whether r0 to r5 are unset.
fn are_unset(registers: &[Kind; 10]) -> bool
    ensures { result ≡ are_unset registers.now }
{
    is_unset(&registers[0])
        && is_unset(&registers[1])
        && is_unset(&registers[2])
        && is_unset(&registers[3])
        && is_unset(&registers[4])
        && is_unset(&registers[5])
}

/// Returns whether a call frame may have this return slot and these registers.
pub fn frame_allowed(holder: usize, outer: bool, return_slot: usize, registers: &[Kind; 10]) -> bool
    ensures { result ≡ frame_allowed holder outer return_slot registers.now }
{
    (holder != 0 || return_slot == 0) && (!outer || are_unset(registers))
}

/// A call frame, read into `frame`: whether it is allowed, and the bytes after it.
#[tactic(auto, unfolding(crate::specs::Frames::frame_in))]
pub fn read_frame<'a>(
    rows: usize,
    holder: usize,
    outer: bool,
    bytes: &'a [u8],
    frame: &mut AbstractFrame,
) -> Result<(bool, &'a [u8]), StopReason>
    ensures { ReturnsRead (λ x. (kept x.0 frame.new, x.1.now)) result
        (frame_in rows holder outer bytes.now) }
{
    if bytes.len() < 2 {
        return Err(StopReason::Short);
    }
    frame.return_slot = usize::from(u16_at(bytes, 0));
    let (kinds, rest) = read_registers(rows, holder, skip(bytes, 2), &mut frame.registers)?;
    let (stack_slots, rest) = read_stack_slots(rows, holder, rest, &mut frame.stack)?;
    let fits = frame_allowed(holder, outer, frame.return_slot, &frame.registers);
    Ok((both(both(kinds, stack_slots), fits), rest))
}

/// The outer frames, each read into `free` and added to `callers`: whether all are allowed, and the
/// bytes after them.
pub fn read_callers<'a>(
    rows: usize,
    count: usize,
    bytes: &'a [u8],
    callers: &mut ArrayVec<AbstractFrame, MAX_CALLERS>,
    free: &mut AbstractFrame,
) -> Result<(bool, &'a [u8]), StopReason>
    requires { count < max_call_frames }
    ensures { ReturnsRead (λ x. (kept x.0 callers.new.items, x.1.now)) result
        (callers_in rows count bytes.now) }
{
    callers.clear();
    let mut rest = bytes;
    let mut allowed = true;
    for holder in 0..count {
        let (fits, after) = read_frame(rows, holder, true, rest, free)?;
        callers.push(free.copy());
        allowed = both(allowed, fits);
        rest = after;
    }
    Ok((allowed, rest))
}
