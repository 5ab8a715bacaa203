//! Cells of call frames: the numbers and pointers that they spell, and the cells that spell them.

ghost use Rattle.std.specs.Prelude.{◌≡◌, ◌+◌, ◌<◌, ◌≤◌, length, map, take, slice_index, Ok, Err, MatchResult};
ghost use Rattle.isa_model.specs.Machine.HelperCalls.{bytes_in};
ghost use Rattle.std.specs.List.{splice, list_any, list_all, enumerate_from};
ghost use Rattle.isa_model.specs.Code.Numbers.{bytes_of};
ghost use Rattle.isa_model.specs.Code.Sizes.{size_bytes};
ghost use Rattle.isa_model.specs.declared.sizes.Size.{Size};
ghost use Rattle.isa_model.specs.Machine.Memory.{is_unwritten, is_byte, byte_in, number_of, number_in, value_in, pointer_in, is_piece, are_pieces, pieces, same_region};

use isa_model::{Cell, Region, Size, TrapReason, Value};

/// The byte of the cell at an index, or 0 if there is no cell or it holds no byte.
fn byte_or_zero(cells: &[Cell], k: usize) -> u8
    ensures { result ≡ slice_index (map byte_in cells.now) k }
{
    match cells.get(k) {
        Some(Cell::Byte(b)) => *b,
        _ => 0,
    }
}

/// The number that at most eight byte cells spell.
fn number_of(cells: &[Cell]) -> u64
    ensures { result ≡ number_of cells.now }
{
    u64::from_le_bytes([
        byte_or_zero(cells, 0),
        byte_or_zero(cells, 1),
        byte_or_zero(cells, 2),
        byte_or_zero(cells, 3),
        byte_or_zero(cells, 4),
        byte_or_zero(cells, 5),
        byte_or_zero(cells, 6),
        byte_or_zero(cells, 7),
    ])
}

fn has_unwritten(cells: &[Cell]) -> bool
    ensures { result ≡ list_any is_unwritten cells.now }
{
    cells.iter().any(|cell| matches!(cell, Cell::Unwritten))
}

fn has_only_bytes(cells: &[Cell]) -> bool
    ensures { result ≡ list_all is_byte cells.now }
{
    cells.iter().all(|cell| matches!(cell, Cell::Byte(_)))
}

// Writes the bytes of byte cells; there is a cell for each byte of the buffer.
fn put_number_bytes(cells: &[Cell], bytes: &mut [u8])
    requires { length bytes.old ≡ length cells.now }
    ensures { bytes.new ≡ map byte_in cells.now }
{
    for k in 0..bytes.len() {
        bytes[k] = byte_or_zero(cells, k);
    }
}

/// Copies the bytes of cells; there is a cell for each byte of the buffer.
pub fn copy_bytes(cells: &[Cell], bytes: &mut [u8]) -> Result<(), TrapReason>
    requires { length bytes.old ≡ length cells.now }
    ensures copied { MatchResult result (λ _. bytes_in cells.now ≡ Ok bytes.new)
        (λ e. bytes_in cells.now ≡ Err e) }
    ensures len { length bytes.new ≡ length bytes.old }
{
    if has_unwritten(cells) {
        Err(TrapReason::UnsetRead)
    } else if has_only_bytes(cells) {
        put_number_bytes(cells, bytes);
        Ok(())
    } else {
        Err(TrapReason::BadAccess)
    }
}

/// The number in at most eight cells.
pub fn number_in(cells: &[Cell]) -> Result<u64, TrapReason>
    ensures { result ≡ number_in cells.now }
{
    if has_unwritten(cells) {
        Err(TrapReason::UnsetRead)
    } else if has_only_bytes(cells) {
        Ok(number_of(cells))
    } else {
        Err(TrapReason::BadAccess)
    }
}

/// The number or the whole pointer in eight cells.
pub fn value_in(cells: &[Cell]) -> Result<Value, TrapReason>
    ensures { result ≡ value_in cells.now }
{
    if has_unwritten(cells) {
        Err(TrapReason::UnsetRead)
    } else if has_only_bytes(cells) {
        Ok(Value::Num(number_of(cells)))
    } else {
        pointer_in(cells)
    }
}

/// The pointer whose eight pieces the cells are, in order.
fn pointer_in(cells: &[Cell]) -> Result<Value, TrapReason>
    ensures { result ≡ pointer_in cells.now }
{
    match cells {
        [Cell::Piece(region, offset, _), ..] if are_pieces(*region, *offset, cells) => {
            Ok(Value::Ptr(*region, *offset))
        }
        _ => Err(TrapReason::BadAccess),
    }
}

fn are_pieces(region: Region, offset: i64, cells: &[Cell]) -> bool
    ensures { result ≡ are_pieces region offset cells.now }
{
    cells.len() == 8 && has_only_pieces(region, offset, cells)
}

fn has_only_pieces(region: Region, offset: i64, cells: &[Cell]) -> bool
    ensures { result ≡ list_all (λ e. is_piece region offset e.0 e.1) (enumerate_from 0 cells.now) }
{
    for (k, cell) in cells.iter().enumerate() {
        if !is_piece(region, offset, k, *cell) {
            return false;
        }
    }
    true
}

fn is_piece(region: Region, offset: i64, k: usize, cell: Cell) -> bool
    ensures { result ≡ is_piece region offset k cell }
{
    match cell {
        Cell::Piece(other, at, j) => same_region(region, other)
            && offset == at
            && k == usize::from(j),
        Cell::Unwritten | Cell::Byte(_) => false,
    }
}

fn same_region(a: Region, b: Region) -> bool
    ensures { result ≡ same_region a b }
{
    match (a, b) {
        (Region::Context, Region::Context) => true,
        (Region::Packet, Region::Packet) => true,
        (Region::PacketEnd, Region::PacketEnd) => true,
        (Region::Map(m), Region::Map(n)) => m == n,
        (Region::CallFrame(m), Region::CallFrame(n)) => m == n,
        (Region::MapValue(m, i), Region::MapValue(n, j)) => m == n && i == j,
        _ => false,
    }
}

/// The eight pieces of a pointer.
pub fn pieces(region: Region, offset: i64) -> [Cell; 8]
    ensures { result ≡ pieces region offset }
{
    [
        Cell::Piece(region, offset, 0),
        Cell::Piece(region, offset, 1),
        Cell::Piece(region, offset, 2),
        Cell::Piece(region, offset, 3),
        Cell::Piece(region, offset, 4),
        Cell::Piece(region, offset, 5),
        Cell::Piece(region, offset, 6),
        Cell::Piece(region, offset, 7),
    ]
}

/// The eight bytes of a number, as cells.
pub fn byte_cells(n: u64) -> [Cell; 8]
    ensures { (size : Size) → map Cell.Byte (bytes_of size n) ≡ take (size_bytes size) result }
{
    let bytes = n.to_le_bytes();
    [
        Cell::Byte(bytes[0]),
        Cell::Byte(bytes[1]),
        Cell::Byte(bytes[2]),
        Cell::Byte(bytes[3]),
        Cell::Byte(bytes[4]),
        Cell::Byte(bytes[5]),
        Cell::Byte(bytes[6]),
        Cell::Byte(bytes[7]),
    ]
}

/// Writes new cells from an index on.
pub fn put_cells(cells: &mut [Cell], at: usize, new: &[Cell])
    requires { at + length new.now ≤ length cells.old }
    ensures { cells.new ≡ splice cells.old at (at + length new.now) new.now }
{
    cells[at..at + new.len()].copy_from_slice(new);
}
