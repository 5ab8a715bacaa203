//! The longest line that an image's maps need.

ghost use Rattle.std.specs.Prelude.{◌≡◌, ◌≤◌, max};
ghost use Rattle.isa_model.specs.Code.MapRows.{IsRow};
ghost use Rattle.maps.specs.Maps.{rows_of};
ghost use Rattle.map_texts.specs.Lines.{line_size, longest_line, most_line_size};

use isa_model::{MAX_KEY_SIZE, MAX_VALUE_SIZE, MapDef};
use itoa::Buffer;
use maps::Maps;

/// As many bytes as the line of any map's key and value has at most.
pub const MOST_LINE_SIZE: usize = 4
    + 20
    + (1 + 2 * MAX_KEY_SIZE as usize)
    + (1 + 2 * MAX_VALUE_SIZE as usize);

// How many bytes the line of a key and its value has.
fn line_size(index: usize, row: MapDef) -> usize
    requires { IsRow row }
    ensures size { result ≡ line_size index row }
    ensures most { result ≤ most_line_size }
{
    let mut buffer = Buffer::new();
    let digits = buffer.format(index as u64).len();
    4 + digits + (1 + 2 * row.key_size as usize) + (1 + 2 * row.value_size as usize)
}

fn greater(a: usize, b: usize) -> usize
    ensures { result ≡ max a b }
{
    if a < b { b } else { a }
}

/// The longest line of these maps; without maps, the longest of any.
pub fn longest_line(maps: &Maps) -> usize
    ensures longest { result ≡ longest_line (rows_of maps.now) }
    ensures most { result ≤ most_line_size }
{
    let count = maps.count();
    if count == 0 {
        return MOST_LINE_SIZE;
    }
    let mut longest = 0;
    for i in 0..count {
        longest = greater(longest, line_size(i, maps.row(i)));
    }
    longest
}
