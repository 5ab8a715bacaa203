//! What a line does to the maps.

ghost use Rattle.std.specs.Prelude.{◌≡◌, ◌+◌, ◌≤◌, true, length};
ghost use Rattle.std.specs.List.{slice_get, starts_with};
ghost use Rattle.std.specs.Prelude.{nat_eq, codes};
ghost use Rattle.maps.specs.Maps.{rows_of, contents_of};
ghost use Rattle.map_texts.specs.Lines.{is_passed, is_digit, longest_line, most_line_size, row_meaning, map_line_meaning};
ghost use Rattle.map_texts.specs.Fillings.{after_meaning, after_line};
ghost use Rattle.map_texts.specs.Reading.{filled_of};

use super::errors::{MapTextError, MapTextErrorKind};
use super::fields::{FIELD_ROOM, digits_len, field_bytes, field_number, fields_of, hex_digits_len};
use maps::Maps;

// The column of the field after `map` and a space.
const INDEX_COLUMN: usize = 5;

/// Room for the bytes that the fields of a line spell.
#[derive(Drop)]
pub struct LineRoom {
    pub key: [u8; FIELD_ROOM],
    pub value: [u8; FIELD_ROOM],
}

impl LineRoom {
    /// Room that holds zeros.
    pub fn new() -> LineRoom {
        LineRoom {
            key: [0; FIELD_ROOM],
            value: [0; FIELD_ROOM],
        }
    }
}

/// Says where a line stands, and its fields in it.
#[derive(Clone, Copy)]
pub struct LinePlace {
    pub number: usize,
    pub key_column: usize,
    pub value_column: usize,
}

/// Returns whether a line is passed over, as empty lines, comments and the other lines of a report
/// are.
pub fn is_passed(line: &[u8]) -> bool
    ensures { result ≡ is_passed line.now }
{
    match line {
        [] => true,
        [first, ..] => {
            *first == b'#'
                || (b'0' <= *first && *first <= b'9')
                || line.starts_with(b"end")
                || line.starts_with(b"fault")
        }
    }
}

// Gives a key of a map its value.
fn put_value(
    maps: &mut Maps,
    place: LinePlace,
    index: usize,
    key: &[u8],
    value: &[u8],
) -> Result<(), MapTextError>
    ensures rows { rows_of maps.new ≡ rows_of maps.old }
    ensures filled { filled_of maps.new result
        ≡ after_meaning place.number (contents_of maps.old)
        (row_meaning place.key_column place.value_column index
        (slice_get (rows_of maps.old) index) key.now value.now) }
{
    let line = place.number;
    let column = place.key_column;
    if index >= maps.count() {
        return Err(MapTextError::at(MapTextErrorKind::NoMap, line, INDEX_COLUMN));
    }
    let row = maps.row(index);
    if key.len() != row.key_size as usize {
        return Err(MapTextError::at(MapTextErrorKind::KeySize, line, column));
    }
    if value.len() != row.value_size as usize {
        return Err(MapTextError::at(MapTextErrorKind::ValueSize, line, place.value_column));
    }
    if maps.update(index, key, value, 0) != 0 {
        return Err(MapTextError::at(MapTextErrorKind::NoRoom, line, column));
    }
    Ok(())
}

fn no_form(number: usize, column: usize) -> Result<(), MapTextError>
    ensures { result
        ≡ Err record { kind = MapTextErrorKind.NoForm; line = number; column = column } }
{
    Err(MapTextError::at(MapTextErrorKind::NoForm, number, column))
}

// Reads the fields of a line that is not passed over.
fn take_map_line(
    maps: &mut Maps,
    line: &[u8],
    number: usize,
    room: &mut LineRoom,
) -> Result<(), MapTextError>
    requires { length line.now ≤ most_line_size }
    ensures rows { rows_of maps.new ≡ rows_of maps.old }
    ensures filled { filled_of maps.new result
        ≡ after_meaning number (contents_of maps.old)
        (map_line_meaning (rows_of maps.old) line.now) }
{
    if !line.starts_with(b"map ") {
        return no_form(number, 1);
    }
    let _count = maps.count();
    let fields = fields_of(line);
    let Some(index) = field_number(fields.index) else {
        return no_form(number, INDEX_COLUMN + digits_len(fields.index));
    };
    let key_column = INDEX_COLUMN + fields.index.len() + 1;
    let Some(key_size) = field_bytes(fields.key, &mut room.key) else {
        return no_form(number, key_column + hex_digits_len(fields.key));
    };
    let value_column = key_column + fields.key.len() + 1;
    let Some(value_size) = field_bytes(fields.value, &mut room.value) else {
        return no_form(number, value_column + hex_digits_len(fields.value));
    };
    let place = LinePlace {
        number,
        key_column,
        value_column,
    };
    put_value(
        maps,
        place,
        index,
        &room.key[..key_size],
        &room.value[..value_size],
    )
}

/// Does what a line says, of which no byte is a line feed. `longest` is the longest line that the
/// maps need. If the line is refused, the maps stay as they are.
pub fn take_line(
    maps: &mut Maps,
    longest: usize,
    line: &[u8],
    number: usize,
    room: &mut LineRoom,
) -> Result<(), MapTextError>
    requires longest { longest ≡ longest_line (rows_of maps.old) }
    requires most { longest ≤ most_line_size }
    ensures rows { rows_of maps.new ≡ rows_of maps.old }
    ensures filled { filled_of maps.new result
        ≡ after_line (rows_of maps.old) number (contents_of maps.old) line.now }
{
    if is_passed(line) {
        return Ok(());
    }
    if line.len() > longest {
        return Err(MapTextError::at(MapTextErrorKind::LongLine, number, longest + 1));
    }
    take_map_line(maps, line, number, room)
}
