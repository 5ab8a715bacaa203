//! Numbers, appended to a line.

ghost use Rattle.std.specs.Prelude.{◌≡◌, ◌+◌, ◌<◌, ◌≤◌, ◌++◌, false, length, decimal};
ghost use Rattle.std.specs.Fmt.{digits, signed_decimal};
ghost use Rattle.arrayvec.specs.ArrayString.{array_string_len};
ghost use Rattle.isa_model.specs.Text.CanonicalText.{offset_text, distance_text};
ghost use Rattle.disassembler.specs.Hexadecimal.{hex_glyph, hex_digits};

use arrayvec::ArrayString;
use itoa::Buffer;

/// A line of text; none has more than 51 bytes.
pub type TextLine = ArrayString<96>;

/// Appends a number in decimal.
pub fn push_number(line: &mut TextLine, number: u64)
    requires { array_string_len line.old + 20 ≤ 96 }
    ensures bytes { line.new.bytes ≡ line.old.bytes ++ decimal number }
    ensures len { array_string_len line.new ≤ array_string_len line.old + 20 }
{
    let mut buffer = Buffer::new();
    line.push_str(buffer.format(number));
}

/// Appends a number in decimal, with a minus if it is negative.
pub fn push_signed(line: &mut TextLine, number: i32)
    requires { array_string_len line.old + 20 ≤ 96 }
    ensures bytes { line.new.bytes ≡ line.old.bytes ++ signed_decimal number }
    ensures len { array_string_len line.new ≤ array_string_len line.old + 20 }
{
    let mut buffer = Buffer::new();
    line.push_str(buffer.format(number));
}

/// Appends an offset in bytes: `+ 0`, `+ 8`, `- 8`.
pub fn push_offset(line: &mut TextLine, offset: i16)
    requires { array_string_len line.old + 22 ≤ 96 }
    ensures bytes { line.new.bytes ≡ line.old.bytes ++ offset_text offset }
    ensures len { array_string_len line.new ≤ array_string_len line.old + 22 }
{
    if offset < 0 {
        line.push_str("- ");
    } else {
        line.push_str("+ ");
    }
    push_number(line, u64::from(offset.unsigned_abs()));
}

/// Appends a distance in slots: `+0`, `+3`, `-2`.
pub fn push_distance(line: &mut TextLine, distance: i32)
    requires { array_string_len line.old + 21 ≤ 96 }
    ensures bytes { line.new.bytes ≡ line.old.bytes ++ distance_text distance }
    ensures len { array_string_len line.new ≤ array_string_len line.old + 21 }
{
    if distance < 0 {
        line.push_str("-");
    } else {
        line.push_str("+");
    }
    push_number(line, u64::from(distance.unsigned_abs()));
}

// A hexadecimal digit.
fn hex_digit(digit: u64) -> &'static str
    requires { digit < 16 }
    ensures text { result.now ≡ hex_glyph digit }
    ensures short { length result.now ≤ 1 }
{
    match digit {
        0 => "0",
        1 => "1",
        2 => "2",
        3 => "3",
        4 => "4",
        5 => "5",
        6 => "6",
        7 => "7",
        8 => "8",
        9 => "9",
        10 => "a",
        11 => "b",
        12 => "c",
        13 => "d",
        14 => "e",
        _ => "f",
    }
}

// Appends at most `count` hexadecimal digits.
fn push_digits(line: &mut TextLine, number: u64, count: u32)
    requires { array_string_len line.old + count ≤ 96 }
    ensures bytes { line.new.bytes ≡ line.old.bytes ++ hex_digits count number }
    ensures len { array_string_len line.new ≤ array_string_len line.old + count }
{
    if count == 0 {
        return;
    }
    let before = number / 16;
    if before != 0 {
        push_digits(line, before, count - 1);
    }
    line.push_str(hex_digit(number % 16));
}

/// Appends a number in lower-case hexadecimal, without leading zeros.
#[tactic(auto, using(crate::proofs::HexadecimalLaws::digits_in_hex))]
pub fn push_hex(line: &mut TextLine, number: u64)
    requires { array_string_len line.old + 16 ≤ 96 }
    ensures bytes { line.new.bytes ≡ line.old.bytes ++ digits 16 false number }
    ensures len { array_string_len line.new ≤ array_string_len line.old + 16 }
{
    push_digits(line, number, 16);
}
