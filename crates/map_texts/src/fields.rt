//! The fields of a line: where they are, and what they spell.

ghost use Rattle.std.specs.Prelude.{◌≡◌, ◌+◌, ◌-◌, ◌*◌, ◌^◌, ◌≤◌, length, take, min, Some, IfSome, MatchOption};
ghost use Rattle.std.specs.List.{prefix_len};
ghost use Rattle.std.specs.Option.{option_map};
ghost use Rattle.hex.specs.Hex.{is_hex_digit};
ghost use Rattle.map_texts.specs.Lines.{is_digit, is_field_byte, after_field, index_field, key_field, value_field, number_from, field_number, field_bytes};

/// Bytes of room for those that a field of the longest line spells.
pub const FIELD_ROOM: usize = 4200;

fn is_digit(byte: u8) -> bool
    ensures { result ≡ is_digit byte }
{
    b'0' <= byte && byte <= b'9'
}

fn is_hex_digit(byte: u8) -> bool
    ensures { result ≡ is_hex_digit byte }
{
    matches!(byte, b'0'..=b'9' | b'a'..=b'f' | b'A'..=b'F')
}

/// Returns how many decimal digits a text begins with.
pub fn digits_len(text: &[u8]) -> usize
    ensures value { result ≡ prefix_len is_digit text.now }
    ensures most { result ≤ length text.now }
{
    for (i, byte) in text.iter().enumerate() {
        if !is_digit(*byte) {
            return i;
        }
    }
    text.len()
}

/// Returns how many hexadecimal digits a text begins with.
pub fn hex_digits_len(text: &[u8]) -> usize
    ensures value { result ≡ prefix_len is_hex_digit text.now }
    ensures most { result ≤ length text.now }
{
    for (i, byte) in text.iter().enumerate() {
        if !is_hex_digit(*byte) {
            return i;
        }
    }
    text.len()
}

// How many bytes come before the first space.
fn field_len(text: &[u8]) -> usize
    ensures value { result ≡ prefix_len is_field_byte text.now }
    ensures most { result ≤ length text.now }
{
    for (i, byte) in text.iter().enumerate() {
        if *byte == b' ' {
            return i;
        }
    }
    text.len()
}

// What follows a field of this length and the space after it.
fn after_field(text: &[u8], len: usize) -> &[u8]
    requires value { len ≡ prefix_len is_field_byte text.now }
    requires most { len ≤ length text.now }
    ensures { result.now ≡ after_field text.now }
{
    if len < text.len() {
        &text[len + 1..]
    } else {
        &text[len..]
    }
}

/// The fields of a line after `map` and a space.
#[derive(Clone, Copy)]
pub struct LineFields<'a> {
    pub index: &'a [u8],
    pub key: &'a [u8],
    pub value: &'a [u8],
}

/// The fields of a line that begins with `map` and a space.
pub fn fields_of(line: &[u8]) -> LineFields<'_>
    requires { 4 ≤ length line.now }
    ensures index { result.index.now ≡ index_field line.now }
    ensures key { result.key.now ≡ key_field line.now }
    ensures value { result.value.now ≡ value_field line.now }
{
    let text = &line[4..];
    let index_len = field_len(text);
    let rest = after_field(text, index_len);
    let key_len = field_len(rest);
    LineFields {
        index: &text[..index_len],
        key: &rest[..key_len],
        value: after_field(rest, key_len),
    }
}

// The number that digits spell, or the greatest one of 64 bits if it is greater.
fn number_of(digits: &[u8]) -> usize
    ensures { result ≡ min (number_from 0 digits.now) (2 ^ 64 - 1) }
{
    let mut number = 0usize;
    for byte in digits {
        let digit = usize::from(byte.saturating_sub(b'0'));
        number = number.saturating_mul(10).saturating_add(digit);
    }
    number
}

/// The number that a field spells in decimal, or the greatest one of 64 bits if it is greater.
pub fn field_number(text: &[u8]) -> Option<usize>
    ensures { result ≡ option_map (λ n. min n (2 ^ 64 - 1)) (field_number text.now) }
{
    if text.is_empty() || digits_len(text) != text.len() {
        return None;
    }
    Some(number_of(text))
}

/// Puts the bytes that a field spells in hexadecimal into the front of `room`, and returns how many
/// they are. If it spells none, `room` may hold any bytes.
pub fn field_bytes(text: &[u8], room: &mut [u8; FIELD_ROOM]) -> Option<usize>
    requires { length text.now ≤ 2 * FIELD_ROOM }
    ensures value { option_map (λ n. take n room.new) result ≡ field_bytes text.now }
    ensures most { IfSome result (λ n. n ≤ FIELD_ROOM) }
{
    if text.is_empty() {
        return None;
    }
    let count = text.len() / 2;
    match hex::decode_to_slice(text, &mut room[..count]) {
        Ok(()) => Some(count),
        Err(_) => None,
    }
}
