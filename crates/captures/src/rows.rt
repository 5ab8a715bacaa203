//! Spells the lines of a frame's bytes.

ghost use Rattle.std.specs.Prelude.{◌≡◌, ◌+◌, ◌*◌, ◌++◌, ◌≤◌, ◌<◌, [], ◌∷◌, length, take};
ghost use Rattle.std.specs.List.{flat_map};
ghost use Rattle.captures.specs.Texts.{byte_column, byte_digits, hex_digit, row_line, shown_byte};

use crate::put;

/// The most bytes of a line.
pub const LINE: usize = 96;

const BLANKS: [u8; 48] = [b' '; 48];

// A hexadecimal digit.
#[inline(always)]
fn hex_digit(value: u8) -> u8
    requires { value < 16 }
    ensures { result ≡ hex_digit value }
{
    if value < 10 { 48 + value } else { 87 + value }
}

fn byte_digits(byte: u8) -> [u8; 2]
    ensures { result ≡ byte_digits byte }
{
    [hex_digit(byte / 16), hex_digit(byte % 16)]
}

// The digits of a byte, and a space after them.
#[inline(always)]
fn byte_column(byte: u8) -> [u8; 3]
    ensures { result ≡ byte_column byte }
{
    [hex_digit(byte / 16), hex_digit(byte % 16), b' ']
}

// A byte as a character, if it is one that is printed.
#[inline(always)]
fn shown_byte(byte: u8) -> u8
    ensures { result ≡ shown_byte byte }
{
    if byte < 32 {
        b'.'
    } else if byte < 127 {
        byte
    } else {
        b'.'
    }
}

// Puts the digits of bytes after the first `start` bytes.
fn put_columns(buffer: &mut [u8; LINE], start: usize, row: &[u8]) -> usize
    requires few { length row.now ≤ 16 }
    requires room { start + 3 * length row.now ≤ 96 }
    ensures front { take result buffer.new
        ≡ take start buffer.old ++ flat_map byte_column row.now }
    ensures size { result ≡ start + 3 * length row.now }
{
    let mut end = start;
    for byte in row {
        end = put(buffer, end, &byte_column(*byte));
    }
    end
}

// Puts bytes as characters after the first `start` bytes.
fn put_shown(buffer: &mut [u8; LINE], start: usize, row: &[u8]) -> usize
    requires few { length row.now ≤ 16 }
    requires room { start + length row.now ≤ 96 }
    ensures front { take result buffer.new
        ≡ take start buffer.old ++ flat_map (λ byte. shown_byte byte ∷ []) row.now }
    ensures size { result ≡ start + length row.now }
{
    let mut end = start;
    for byte in row {
        end = put(buffer, end, &[shown_byte(*byte)]);
    }
    end
}

/// Spells the line of some bytes at an offset, and returns how many bytes it has.
pub fn spell_row(buffer: &mut [u8; LINE], offset: u16, row: &[u8]) -> usize
    requires { length row.now ≤ 16 }
    ensures front { take result buffer.new ≡ row_line offset row.now }
    ensures inside { result ≤ 96 }
{
    let blanks = &BLANKS[..48 - 3 * row.len()];
    let at = put(buffer, 0, b"  ");
    let at = put(buffer, at, &byte_digits((offset / 256) as u8));
    let at = put(buffer, at, &byte_digits((offset % 256) as u8));
    let at = put(buffer, at, b": ");
    let at = put_columns(buffer, at, row);
    let at = put(buffer, at, blanks);
    let at = put(buffer, at, b"|");
    let at = put_shown(buffer, at, row);
    put(buffer, at, b"|\n")
}
