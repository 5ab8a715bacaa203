//! The lexeme at the front of a text: a token, a blank, a comment or the end of a statement.

ghost use Rattle.std.specs.Prelude.{◌≡◌, IfErr};
ghost use Rattle.std.specs.Result.{result_ok};
ghost use Rattle.assembler.specs.Lexing.{word_at, blank_or_sign, word_or_sign, lexeme_at, unknown_at, token_length};

use super::numbers::{
    byte_at, is_digit, is_word_byte, line_len, number_from, number_len, word_len,
};
use super::signs::{sign_len, sign_of, signed_sign};
use super::tokens::{Lexeme, Token};
use super::words::word_of;

fn word_at(text: &[u8]) -> Option<(Lexeme, usize)>
    ensures { result ≡ word_at text.now }
{
    let n = word_len(text);
    Some((Lexeme::Solid(Token::Named(word_of(&text[..n]))), n))
}

fn blank_or_sign(text: &[u8], b: u8) -> Option<(Lexeme, usize)>
    ensures { result ≡ blank_or_sign text.now b }
{
    if b == b' ' || b == b'\t' {
        Some((Lexeme::Blank, 1))
    } else if b == b'\n' || b == b';' {
        Some((Lexeme::End, 1))
    } else if b == b'#' {
        Some((Lexeme::Blank, line_len(text)))
    } else {
        sign_of(b, byte_at(text, 1), byte_at(text, 2))
    }
}

// What begins with a byte other than a digit.
fn word_or_sign(text: &[u8], b: u8) -> Option<(Lexeme, usize)>
    ensures { result ≡ word_or_sign text.now b }
{
    if !is_word_byte(b) {
        return blank_or_sign(text, b);
    }
    if b == b's' {
        let sign = signed_sign(byte_at(text, 1), byte_at(text, 2), byte_at(text, 3));
        if sign.is_some() {
            return sign;
        }
    }
    word_at(text)
}

/// Returns what the text begins with, and its length: the longest token that fits, and a sign that
/// begins with `s` rather than a word. Otherwise the offset of the first byte that begins no token.
pub fn lexeme_at(text: &[u8]) -> Result<(Lexeme, usize), usize>
    ensures found { result_ok result ≡ lexeme_at text.now }
    ensures unknown { IfErr result (λ at. at ≡ unknown_at text.now) }
{
    let b = byte_at(text, 0);
    if is_digit(b, 10) {
        return number_from(text);
    }
    match word_or_sign(text, b) {
        Some(found) => Ok(found),
        None => Err(0),
    }
}

// How long the token that was found is.
fn token_length(found: Option<(Lexeme, usize)>) -> Option<usize>
    ensures { result ≡ token_length found }
{
    match found {
        Some((Lexeme::Solid(_), len)) => Some(len),
        _ => None,
    }
}

// How long the token is that begins with a byte other than a digit.
fn word_or_sign_len(text: &[u8], b: u8) -> Option<usize>
    ensures { result ≡ token_length (word_or_sign text.now b) }
{
    if !is_word_byte(b) {
        return sign_len(b, byte_at(text, 1), byte_at(text, 2));
    }
    if b == b's' {
        let signed = signed_sign(byte_at(text, 1), byte_at(text, 2), byte_at(text, 3));
        if signed.is_some() {
            return token_length(signed);
        }
    }
    Some(word_len(text))
}

/// Returns how long the token is that the text begins with, if it begins with one. This is faster
/// than to make the token.
pub fn token_len(text: &[u8]) -> Option<usize>
    ensures { result ≡ token_length (lexeme_at text.now) }
{
    let b = byte_at(text, 0);
    if is_digit(b, 10) {
        number_len(text)
    } else {
        word_or_sign_len(text, b)
    }
}
