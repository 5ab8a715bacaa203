//! Map rows: their limits, and their bytes.

ghost use Rattle.std.specs.Prelude.{◌≡◌, ◌≤◌, ◌*◌, true, length, sum_by, All, IfOk, OnOk, OnErr};
ghost use Rattle.std.specs.List.{flat_map};
ghost use Rattle.std.specs.Io.KnownBytes.{Appends};
ghost use Rattle.isa_model.specs.Code.MapRows.{IsRow};
ghost use Rattle.exact_io.specs.Transfers.{AppendsBeginning};
ghost use Rattle.image.specs.Images.{map_type_code, row_bytes, room_of};
ghost use Rattle.image.specs.Refusals.{ReturnsParsed, key_fits, row_fits, map_type_numbered, row_at, rows_from, rows_refusal, room_refusal};

use crate::errors::ImageError;
use byteorder::{ByteOrder, LittleEndian};
use exact_io::write_bytes;
use isa_model::{MAX_KEY_SIZE, MAX_MAP_ENTRIES, MAX_MAP_ROOM, MAX_VALUE_SIZE, MapDef, MapType};
use std::alloc::Global;
use std::io;
use std::io::Write;

// ---- limits

fn key_fits(kind: MapType, size: u16) -> bool
    ensures { result ≡ key_fits kind size }
{
    match kind {
        MapType::Hash => 1 <= size && size <= MAX_KEY_SIZE,
        MapType::Array => size == 4,
    }
}

/// Returns whether a map row is within its limits: key sizes from 1 to 64 and for arrays 4, value
/// sizes from 1 to 4,096, and 1 to 65,536 keys.
pub fn row_fits(row: &MapDef) -> bool
    ensures { result ≡ row_fits row.now }
{
    key_fits(row.kind, row.key_size)
        && (1 <= row.value_size && row.value_size <= MAX_VALUE_SIZE)
        && (1 <= row.entries && row.entries <= MAX_MAP_ENTRIES)
}

/// Returns how many bytes of keys and values a map has room for.
pub fn room_of(row: &MapDef) -> u64
    requires { row_fits row.now ≡ true }
    ensures { result ≡ room_of row.now }
{
    u64::from(row.entries) * (u64::from(row.key_size) + u64::from(row.value_size))
}

/// The refusal of the first row that is out of its limits.
pub fn rows_refusal(rows: &[MapDef]) -> Option<ImageError>
    ensures { result ≡ rows_refusal 0 rows.now }
{
    for (index, row) in rows.iter().enumerate() {
        if !row_fits(row) {
            return Some(ImageError::MapRow(index));
        }
    }
    None
}

/// The refusal of maps that together have more bytes than they may.
pub fn room_refusal(rows: &[MapDef]) -> Option<ImageError>
    requires fit { All IsRow rows.now }
    requires few { length rows.now ≤ 65535 }
    ensures { result ≡ room_refusal rows.now }
{
    let mut room = 0;
    for row in rows {
        room += room_of(row);
    }
    if room > MAX_MAP_ROOM {
        return Some(ImageError::MapRoom);
    }
    None
}

// ---- reading

fn map_type_numbered(number: u16) -> Option<MapType>
    ensures { result ≡ map_type_numbered number }
{
    match number {
        1 => Some(MapType::Hash),
        2 => Some(MapType::Array),
        _ => None,
    }
}

// The row of that index, which the bytes begin with.
fn row_at(index: usize, bytes: &[u8]) -> Result<MapDef, ImageError>
    requires { 12 ≤ length bytes.now }
    ensures { result ≡ row_at index bytes.now }
{
    let Some(kind) = map_type_numbered(LittleEndian::read_u16(bytes)) else {
        return Err(ImageError::MapRow(index));
    };
    let row = MapDef {
        kind,
        key_size: LittleEndian::read_u16(&bytes[2..]),
        value_size: LittleEndian::read_u32(&bytes[4..]),
        entries: LittleEndian::read_u32(&bytes[8..]),
    };
    if row_fits(&row) {
        Ok(row)
    } else {
        Err(ImageError::MapRow(index))
    }
}

/// The `count` rows that the bytes begin with.
pub fn rows_of(alloc: Global, count: usize, bytes: &[u8]) -> Result<Vec<MapDef>, ImageError>
    requires { 12 * count ≤ length bytes.now }
    ensures { ReturnsParsed (λ v. v.items) result (rows_from count 0 bytes.now) }
{
    let mut rows = Vec::new(alloc);
    for index in 0..count {
        let row = row_at(index, &bytes[12 * index..])?;
        rows.push(row)?;
    }
    Ok(rows)
}

// ---- writing

fn map_type_code(kind: MapType) -> u16
    ensures { result ≡ map_type_code kind }
{
    match kind {
        MapType::Hash => 1,
        MapType::Array => 2,
    }
}

fn bytes_of(row: &MapDef) -> [u8; 12]
    ensures { result ≡ row_bytes row.now }
{
    let mut bytes = [0; 12];
    LittleEndian::write_u16(&mut bytes, map_type_code(row.kind));
    LittleEndian::write_u16(&mut bytes[2..], row.key_size);
    LittleEndian::write_u32(&mut bytes[4..], row.value_size);
    LittleEndian::write_u32(&mut bytes[8..], row.entries);
    bytes
}

/// Writes the rows one after the other.
pub fn write_rows<W: Write>(writer: &mut W, rows: &[MapDef]) -> io::Result<()>
    ensures ok { OnOk result
        (Appends (W.contents writer.old) (W.contents writer.new) (flat_map row_bytes rows.now)) }
    ensures err { OnErr result
        (AppendsBeginning (W.contents writer.old) (W.contents writer.new)
        (flat_map row_bytes rows.now)) }
{
    for row in rows {
        write_bytes(writer, &bytes_of(row))?;
    }
    Ok(())
}
