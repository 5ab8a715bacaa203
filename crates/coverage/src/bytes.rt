//! Bytes of memory as words.

use crate::words::value_words;
use isa_model::{Cell, Region, Value};
use std::alloc::{AllocError, Global};

/// Returns whether two regions are one.
pub fn is_same_region(one: Region, other: Region) -> bool {
    match (one, other) {
        (Region::Context, Region::Context)
        | (Region::Packet, Region::Packet)
        | (Region::PacketEnd, Region::PacketEnd) => true,
        (Region::Map(map), Region::Map(other)) => map == other,
        (Region::CallFrame(serial), Region::CallFrame(other)) => serial == other,
        (Region::MapValue(map, serial), Region::MapValue(other, other_serial)) => {
            map == other && serial == other_serial
        }
        _ => false,
    }
}

/// Returns whether two registers hold one value.
pub fn is_same_value(one: Value, other: Value) -> bool {
    match (one, other) {
        (Value::Unset, Value::Unset) => true,
        (Value::Num(number), Value::Num(other)) => number == other,
        (Value::Ptr(region, offset), Value::Ptr(other, other_offset)) => {
            is_same_region(region, other) && offset == other_offset
        }
        _ => false,
    }
}

/// Returns whether a cell is the piece of this number of a pointer.
fn is_piece(cell: Cell, region: Region, offset: i64, number: usize) -> bool {
    match cell {
        Cell::Piece(other, other_offset, piece) => {
            is_same_region(region, other) && offset == other_offset && usize::from(piece) == number
        }
        _ => false,
    }
}

/// The pointer whose eight pieces the cells are, if they are.
fn whole_pointer(cells: &[Cell]) -> Option<Value> {
    let Some(Cell::Piece(region, offset, _)) = cells.first().copied() else {
        return None;
    };
    if cells.len() != 8 {
        return None;
    }
    for number in 0..cells.len() {
        if !is_piece(cells[number], region, offset, number) {
            return None;
        }
    }
    Some(Value::Ptr(region, offset))
}

/// A byte: two hexadecimal digits, `--` where nothing was written, `**` for a piece of a pointer.
fn push_cell(alloc: Global, text: &mut String, cell: Cell) -> Result<(), AllocError> {
    match cell {
        Cell::Unwritten => text.push_str("--"),
        Cell::Piece(_, _, _) => text.push_str("**"),
        Cell::Byte(byte) => {
            let digits = format!(in alloc; "{byte:02x}")?;
            text.push_str(digits.as_str())
        }
    }
}

/// Bytes in the order of memory, or the words of the pointer that they are, where r10 holds this.
pub fn cell_words(alloc: Global, own: Value, cells: &[Cell]) -> Result<String, AllocError> {
    if let Some(pointer) = whole_pointer(cells) {
        return value_words(alloc, own, pointer);
    }
    let mut text = String::new(alloc);
    for cell in cells {
        push_cell(alloc, &mut text, *cell)?;
    }
    Ok(text)
}

/// The low bytes of a number, in the order of memory.
pub fn number_words(alloc: Global, number: u64, count: usize) -> Result<String, AllocError> {
    let mut text = String::new(alloc);
    for byte in number.to_le_bytes().iter().take(count) {
        push_cell(alloc, &mut text, Cell::Byte(*byte))?;
    }
    Ok(text)
}

/// The number that byte cells spell, if all of them are bytes.
pub fn number_in(cells: &[Cell]) -> Option<u64> {
    let mut bytes = [0; 8];
    for index in 0..cells.len().min(8) {
        match cells[index] {
            Cell::Byte(byte) => bytes[index] = byte,
            _ => return None,
        }
    }
    Some(u64::from_le_bytes(bytes))
}
