//! The lines of maps' keys and values, made in a buffer of fixed size.
ghost use Rattle.std.specs.Prelude.{◌≡◌, ◌+◌, ◌*◌, ◌≤◌, ◌++◌, length, decimal};
ghost use Rattle.arrayvec.specs.ArrayVec.{array_vec_len};
ghost use Rattle.hex.specs.Hex.{encode_lower};
ghost use Rattle.isa_model.specs.Code.Limits.{max_key_size, max_value_size};
ghost use Rattle.isa_model.specs.Reporting.Reports.{map_line};

use arrayvec::ArrayVec;
use itoa::Buffer;

/// A line of a key and its value; none has more than 8,347 bytes.
pub type MapLine = ArrayVec<u8, 8448>;

// Appends bytes.
fn push_bytes(line: &mut MapLine, bytes: &[u8])
    requires { array_vec_len line.old + length bytes.now ≤ 8448 }
    ensures items { line.new.items ≡ line.old.items ++ bytes.now }
    ensures len { array_vec_len line.new ≡ array_vec_len line.old + length bytes.now }
{
    line.try_extend_from_slice(bytes).unwrap();
}

// Appends a number in decimal.
fn push_number(line: &mut MapLine, number: u64)
    requires { array_vec_len line.old + 20 ≤ 8448 }
    ensures items { line.new.items ≡ line.old.items ++ decimal number }
    ensures len { array_vec_len line.new ≤ array_vec_len line.old + 20 }
{
    let mut buffer = Buffer::new();
    push_bytes(line, buffer.format(number).as_bytes());
}

// Appends bytes in hexadecimal.
fn push_hex(line: &mut MapLine, bytes: &[u8])
    requires { array_vec_len line.old + 2 * length bytes.now ≤ 8448 }
    ensures items { line.new.items ≡ line.old.items ++ encode_lower bytes.now }
    ensures len { array_vec_len line.new ≡ array_vec_len line.old + 2 * length bytes.now }
{
    for byte in bytes {
        let mut digits = [0u8; 2];
        hex::encode_to_slice([*byte], &mut digits).unwrap();
        push_bytes(line, &digits);
    }
}

/// Makes the line of a key and its value, by the map's index.
#[tactic(auto, unfolding(isa_model::specs::Reporting::Reports::map_line))]
pub fn put_key_value(line: &mut MapLine, map: usize, key: &[u8], value: &[u8])
    requires key { length key.now ≤ max_key_size }
    requires value { length value.now ≤ max_value_size }
    ensures { line.new.items ≡ map_line map (key.now, value.now) }
{
    line.clear();
    push_bytes(line, b"map ");
    push_number(line, map as u64);
    push_bytes(line, b" ");
    push_hex(line, key);
    push_bytes(line, b" ");
    push_hex(line, value);
    push_bytes(line, b"\n");
}
