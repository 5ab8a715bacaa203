//! Places in memory: where an access begins, and whether all its bytes are there.

ghost use Rattle.std.specs.Prelude.{◌≡◌, ◌+◌, ◌-◌, ◌<◌, ◌≤◌, ◌^◌, List, pos, negsuc, ◌+ℤ◌, ◌<ℤ◌, length, Some, IfOk};
ghost use Rattle.isa_model.specs.Code.Limits.{stack_size, max_value_size};
ghost use Rattle.isa_model.specs.declared.values.Cell.{Cell};
ghost use Rattle.isa_model.specs.Machine.Memory.{index_from, index_at, place_in};

use isa_model::{Cell, Place, Region, STACK_SIZE, TrapReason};

/// The index of the cell at an offset of a region, if it is not before the first.
fn index_of(region: Region, offset: i128) -> Option<usize>
    requires least { negsuc (2 ^ 64) <ℤ offset }
    requires most { offset <ℤ pos (2 ^ 64 - stack_size) }
    ensures { result ≡ index_at region offset }
{
    match region {
        Region::CallFrame(_) => index_from(offset + STACK_SIZE as i128),
        _ => index_from(offset),
    }
}

/// The index of the cell at a pointer's offset plus the instruction's, if it is not before the
/// first.
pub fn index_at(region: Region, offset: i64, place: Place) -> Option<usize>
    ensures { result ≡ index_at region (offset +ℤ place.offset) }
{
    index_of(region, i128::from(offset) + i128::from(place.offset))
}

/// The index of the cell at a pointer's offset, if it is not before the first.
pub fn index_of_pointer(region: Region, offset: i64) -> Option<usize>
    ensures { result ≡ index_at region offset }
{
    index_of(region, i128::from(offset))
}

fn index_from(z: i128) -> Option<usize>
    requires { z <ℤ pos (2 ^ 64) }
    ensures { result ≡ index_from z }
{
    if z < 0 { None } else { Some(z as usize) }
}

/// Returns where n cells begin, if all of them are there.
pub fn place_in(cells: &[Cell], index: Option<usize>, n: usize) -> Result<usize, TrapReason>
    requires { n ≤ max_value_size }
    ensures place { result ≡ place_in (Some cells.now) index n }
    ensures within { IfOk result (λ i. i + n ≤ length cells.now) }
{
    place_within(cells.len(), index, n)
}

/// Returns where n of the cells begin, if all of them are there.
pub fn place_within(len: usize, index: Option<usize>, n: usize) -> Result<usize, TrapReason>
    requires room { len < 2 ^ 63 }
    requires few { n ≤ max_value_size }
    ensures place { (cells : List Cell) → length cells ≡ len
        → result ≡ place_in (Some cells) index n }
    ensures within { IfOk result (λ i. i + n ≤ len) }
{
    match index {
        Some(i) if i <= len && i + n <= len => Ok(i),
        _ => Err(TrapReason::BadAccess),
    }
}
