//! Reads of cells and bytes in call frames, the packet and map values.

ghost use Rattle.std.specs.Prelude.{◌≡◌, ◌+◌, ◌<◌, ◌≤◌, ℕ, List, length, map, slice_index, Some, Ok, Err, IfOk, MatchResult, vec_len};
ghost use Rattle.isa_model.specs.Code.Limits.{max_value_size};
ghost use Rattle.isa_model.specs.Code.Numbers.{number_from};
ghost use Rattle.isa_model.specs.Machine.States.{call_frame_at};
ghost use Rattle.isa_model.specs.Machine.Memory.{call_frame_index, place_of, read};
ghost use Rattle.checked_vm.specs.Machine.{state_of};
ghost use Rattle.checked_vm.specs.Reads.{read_cells};

use crate::core_state::Core;
use crate::places::place_in;
use isa_model::{Cell, Region, TrapReason};

fn byte_at(bytes: &[u8], k: usize) -> u8
    ensures { result ≡ slice_index bytes.now k }
{
    match bytes.get(k) {
        Some(byte) => *byte,
        None => 0,
    }
}

/// The number that at most eight bytes spell.
pub fn number_from(bytes: &[u8]) -> u64
    ensures { result ≡ number_from bytes.now }
{
    u64::from_le_bytes([
        byte_at(bytes, 0),
        byte_at(bytes, 1),
        byte_at(bytes, 2),
        byte_at(bytes, 3),
        byte_at(bytes, 4),
        byte_at(bytes, 5),
        byte_at(bytes, 6),
        byte_at(bytes, 7),
    ])
}

/// The bytes at a place.
fn read_bytes(bytes: &[u8], at: Option<usize>, n: usize) -> Result<&[u8], TrapReason>
    requires { n ≤ max_value_size }
    ensures read { MatchResult result
        (λ found. read_cells (Some (map Cell.Byte bytes.now)) at n ≡ Ok (map Cell.Byte found.now))
        (λ e. read_cells (Some (map Cell.Byte bytes.now)) at n ≡ Err e) }
    ensures len { IfOk result (λ found. length found.now ≡ n) }
{
    match at {
        Some(i) if i <= bytes.len() && i + n <= bytes.len() => Ok(&bytes[i..i + n]),
        _ => Err(TrapReason::BadAccess),
    }
}

impl Core {
    /// Returns where n cells of a live call frame are: the call frame's index and the first cell's.
    pub fn place_in_frame(
        &self,
        serial: u64,
        at: Option<usize>,
        n: usize,
    ) -> Result<(usize, usize), TrapReason>
        requires { n ≤ max_value_size }
        ensures { MatchResult result
            (λ p. (call_frame_index self.now.frames.items serial ≡ Some p.0)
            × (p.0 < vec_len self.now.frames)
            × (p.1 + n ≤ length (call_frame_at self.now.frames.items p.0).cells)
            × ((packet : List ℕ)
            → place_of (state_of self.now packet) (Region.CallFrame serial) at n ≡ Ok p.1))
            (λ e. (packet : List ℕ)
            → place_of (state_of self.now packet) (Region.CallFrame serial) at n ≡ Err e) }
    {
        match self.call_frame_index(serial) {
            Some(frame_index) => {
                let cells: &[Cell] = &self.frames[frame_index].cells;
                let i = place_in(cells, at, n)?;
                Ok((frame_index, i))
            }
            None => Err(TrapReason::BadAccess),
        }
    }

    /// The cells of a call frame at a place.
    pub fn read_frame(
        &self,
        serial: u64,
        at: Option<usize>,
        n: usize,
    ) -> Result<&[Cell], TrapReason>
        requires { n ≤ max_value_size }
        ensures read { MatchResult result
            (λ cs. (packet : List ℕ)
            → read (state_of self.now packet) (Region.CallFrame serial) at n ≡ Ok cs.now)
            (λ e. (packet : List ℕ)
            → read (state_of self.now packet) (Region.CallFrame serial) at n ≡ Err e) }
        ensures len { IfOk result (λ cs. length cs.now ≡ n) }
    {
        let (frame_index, i) = self.place_in_frame(serial, at, n)?;
        let cells: &[Cell] = &self.frames[frame_index].cells;
        Ok(&cells[i..i + n])
    }

    /// The bytes of the packet at a place.
    pub fn read_packet<'a>(
        &self,
        packet: &'a [u8],
        at: Option<usize>,
        n: usize,
    ) -> Result<&'a [u8], TrapReason>
        requires { n ≤ max_value_size }
        ensures read { MatchResult result
            (λ bs. read (state_of self.now packet.now) Region.Packet at n
            ≡ Ok (map Cell.Byte bs.now))
            (λ e. read (state_of self.now packet.now) Region.Packet at n ≡ Err e) }
        ensures len { IfOk result (λ bs. length bs.now ≡ n) }
    {
        read_bytes(packet, at, n)
    }

    /// The bytes of a map value at a place.
    pub fn read_map_value(
        &self,
        index: u32,
        serial: u64,
        at: Option<usize>,
        n: usize,
    ) -> Result<&[u8], TrapReason>
        requires { n ≤ max_value_size }
        ensures read { MatchResult result
            (λ bs. (packet : List ℕ)
            → read (state_of self.now packet) (Region.MapValue index serial) at n
            ≡ Ok (map Cell.Byte bs.now))
            (λ e. (packet : List ℕ)
            → read (state_of self.now packet) (Region.MapValue index serial) at n ≡ Err e) }
        ensures len { IfOk result (λ bs. length bs.now ≡ n) }
    {
        match self.maps.value(index as usize, serial) {
            Some(map_value) => read_bytes(map_value, at, n),
            None => Err(TrapReason::BadAccess),
        }
    }
}
