//! Whether bytes at a pointer are known to be there.

ghost use Rattle.std.specs.Prelude.{◌≡◌, ◌↔◌, ◌+ℤ◌, pos, slice_get, IsTrue};
ghost use Rattle.transfer.specs.Packets.{AreInPacket};
ghost use Rattle.transfer.specs.Values.{value_size, AreInValue};
ghost use Rattle.transfer.specs.HelperCalls.{AreInFrame, AreKnown};

use crate::offsets::{moved_by, sum};
use isa_model::{MapDef, STACK_SIZE};
use reg_state::Kind;
use stack_state::{State, frame_bytes};

/// Returns whether the bytes of a live call frame are written number bytes.
fn are_in_frame(state: &State, frame: u8, offset: i32, count: u32) -> bool
    ensures { IsTrue result ↔ AreInFrame state.now frame offset count }
{
    let Some(stack) = state.stack_of(frame) else {
        return false;
    };
    let Some(at) = frame_bytes(i64::from(offset) + STACK_SIZE as i64, count) else {
        return false;
    };
    stack.is_bytes(at, count as usize)
}

/// Returns whether the bytes are in the packet, wherever the variable part is.
pub fn are_in_packet(fixed: i32, least: i32, proved: u32, by: i16, count: u32) -> bool
    ensures { IsTrue result ↔ AreInPacket fixed least proved by count }
{
    if proved == 0 {
        return false;
    }
    let offset = sum(fixed, i32::from(by));
    if moved_by(false, offset, i64::from(least)) < 0 {
        return false;
    }
    if moved_by(false, offset, i64::from(count)) > i128::from(proved) {
        return false;
    }
    true
}

/// Returns how many bytes each value of the map has: 0, if no map has the index.
pub fn value_size(maps: &[MapDef], index: u8) -> u32
    ensures { result ≡ value_size (slice_get maps.now index) }
{
    match maps.get(usize::from(index)) {
        Some(row) => row.value_size,
        None => 0,
    }
}

/// Returns whether the bytes are in the map value, wherever between its limits the pointer points.
pub fn are_in_value(value_bytes: u32, least: i32, greatest: i32, by: i16, count: u32) -> bool
    ensures { IsTrue result ↔ AreInValue value_bytes least greatest by count }
{
    if sum(least, i32::from(by)) < 0 {
        return false;
    }
    let offset = sum(greatest, i32::from(by));
    if moved_by(false, offset, i64::from(count)) > i128::from(value_bytes) {
        return false;
    }
    true
}

/// Returns whether the bytes at a pointer are known to be there, and to be number bytes.
pub fn are_known(maps: &[MapDef], state: &State, kind: Kind, count: u32) -> bool
    ensures { IsTrue result ↔ AreKnown maps.now state.now kind count }
{
    match kind {
        Kind::Stack { frame, offset } => are_in_frame(state, frame, offset, count),
        Kind::Packet {
            fixed,
            least,
            proved,
            ..
        } => are_in_packet(fixed, least, proved, 0, count),
        Kind::MapValue {
            index,
            least,
            greatest,
        } => are_in_value(value_size(maps, index), least, greatest, 0, count),
        _ => false,
    }
}
