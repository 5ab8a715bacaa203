//! Numbers, and how long words and lines are.

ghost use Rattle.std.specs.Prelude.{ℕ, ◌≡◌, ◌+◌, ◌<◌, ◌≤◌, ◌^◌, length, slice_index, IfErr};
ghost use Rattle.std.specs.List.{prefix_len};
ghost use Rattle.std.specs.Char.{digit_value, is_digit};
ghost use Rattle.std.specs.Result.{result_ok};
ghost use Rattle.assembler.specs.Lexing.{is_word_byte, is_line_byte, add_digit, digits_number, number_after, number_at, number_from, number_end, number_end_at, number_end_from, token_length};

use super::tokens::{Lexeme, Token};

fn digit_value(c: u8) -> u8
    ensures value { result ≡ digit_value c }
    ensures low { result ≤ 36 }
{
    match c {
        b'0'..=b'9' => c - b'0',
        b'A'..=b'Z' => c - b'A' + 10,
        b'a'..=b'z' => c - b'a' + 10,
        _ => 36,
    }
}

/// Returns whether the byte is a digit of that base.
pub fn is_digit(c: u8, base: u8) -> bool
    ensures { result ≡ is_digit c base }
{
    digit_value(c) < base
}

/// Returns whether the byte can be part of a word: a letter, a digit or `_`.
pub fn is_word_byte(c: u8) -> bool
    ensures { result ≡ is_word_byte c }
{
    is_digit(c, 36) || c == b'_'
}

/// The byte at the index; 0 past the end.
pub fn byte_at(text: &[u8], index: usize) -> u8
    ensures { result ≡ slice_index text.now index }
{
    text.get(index).copied().unwrap_or(0)
}

fn digits_len(text: &[u8], base: u8) -> usize
    ensures value { result ≡ prefix_len (λ c. is_digit c base) text.now }
    ensures most { result ≤ length text.now }
{
    for (i, c) in text.iter().enumerate() {
        if !is_digit(*c, base) {
            return i;
        }
    }
    text.len()
}

/// Returns how many bytes the text's first word has.
pub fn word_len(text: &[u8]) -> usize
    ensures value { result ≡ prefix_len is_word_byte text.now }
    ensures most { result ≤ length text.now }
{
    for (i, c) in text.iter().enumerate() {
        if !is_word_byte(*c) {
            return i;
        }
    }
    text.len()
}

/// Returns how many bytes come before the first line feed.
pub fn line_len(text: &[u8]) -> usize
    ensures value { result ≡ prefix_len is_line_byte text.now }
    ensures most { result ≤ length text.now }
{
    for (i, c) in text.iter().enumerate() {
        if *c == b'\n' {
            return i;
        }
    }
    text.len()
}

// A number with one more digit; it stops growing past 64 bits.
fn add_digit(base: u8, n: u128, c: u8) -> u128
    requires base { base ≤ 16 }
    requires low { n < 2 ^ 70 }
    ensures value { result ≡ add_digit base n c }
    ensures low { result < 2 ^ 70 }
{
    if n < 1 << 64 {
        n * u128::from(base) + u128::from(digit_value(c))
    } else {
        n
    }
}

fn digits_number(digits: &[u8], base: u8) -> u128
    requires { base ≤ 16 }
    ensures { result ≡ digits_number base 0 digits.now }
{
    let mut n: u128 = 0;
    for c in digits {
        n = add_digit(base, n, *c);
    }
    n
}

// The number whose `n` digits follow the skipped bytes, and its length; or the offset of a byte
// that cannot follow a number.
fn number_after(base: u8, skip: usize, text: &[u8], n: usize) -> Result<(Lexeme, usize), usize>
    requires within { skip + n ≤ length text.now }
    requires base { base ≤ 16 }
    ensures found { result_ok result ≡ number_after base skip text.now n }
    ensures unknown { IfErr result (λ at. at ≡ number_end skip n) }
{
    if n == 0 {
        // `0x` without a digit is the number 0 with an `x` after it
        return Err(1);
    }
    if is_word_byte(byte_at(text, skip + n)) {
        return Err(skip + n);
    }
    let digits = &text[skip..];
    let number = digits_number(&digits[..n], base);
    Ok((Lexeme::Solid(Token::Number(number)), skip + n))
}

fn number_at(text: &[u8], skip: usize, base: u8) -> Result<(Lexeme, usize), usize>
    requires within { skip ≤ length text.now }
    requires base { base ≤ 16 }
    ensures found { result_ok result ≡ number_at base skip text.now }
    ensures unknown { IfErr result (λ at. at ≡ number_end_at base skip text.now) }
{
    number_after(base, skip, text, digits_len(&text[skip..], base))
}

/// The number at the text's front, which begins with a digit.
pub fn number_from(text: &[u8]) -> Result<(Lexeme, usize), usize>
    ensures found { result_ok result ≡ number_from text.now }
    ensures unknown { IfErr result (λ at. at ≡ number_end_from text.now) }
{
    if byte_at(text, 0) == b'0' && byte_at(text, 1) == b'x' {
        number_at(text, 2, 16)
    } else {
        number_at(text, 0, 10)
    }
}

// How long the number is whose `n` digits follow the skipped bytes.
fn number_len_after(skip: usize, text: &[u8], n: usize) -> Option<usize>
    requires within { skip + n ≤ length text.now }
    ensures { (base : ℕ) → result ≡ token_length (number_after base skip text.now n) }
{
    if n == 0 {
        return None;
    }
    let next = byte_at(text, skip + n);
    if is_word_byte(next) {
        return None;
    }
    Some(skip + n)
}

fn number_len_at(text: &[u8], skip: usize, base: u8) -> Option<usize>
    requires within { skip ≤ length text.now }
    ensures { result ≡ token_length (number_at base skip text.now) }
{
    number_len_after(skip, text, digits_len(&text[skip..], base))
}

/// Returns how long the number at the text's front is, which begins with a digit.
pub fn number_len(text: &[u8]) -> Option<usize>
    ensures { result ≡ token_length (number_from text.now) }
{
    if byte_at(text, 0) == b'0' && byte_at(text, 1) == b'x' {
        number_len_at(text, 2, 16)
    } else {
        number_len_at(text, 0, 10)
    }
}
