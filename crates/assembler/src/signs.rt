//! The longest sign that some bytes begin with.

ghost use Rattle.std.specs.Prelude.{◌≡◌, ◌+◌, ◌<◌, ◌==◌, if◌then◌else◌, Some};
ghost use Rattle.assembler.specs.declared.tokens.Lexeme.TheVariants as Lexeme;
ghost use Rattle.assembler.specs.declared.tokens.Token.TheVariants as Token;
ghost use Rattle.assembler.specs.Signs.{sign_of, signed_sign, with_equals, only_equals};
ghost use Rattle.assembler.specs.Lexing.{token_length};

use super::tokens::{Lexeme, Sign, Token};

fn found(sign: Sign, length: usize) -> Option<(Lexeme, usize)>
    ensures { result ≡ Some (Lexeme.Solid (Token.Signed sign), length) }
{
    Some((Lexeme::Solid(Token::Signed(sign)), length))
}

// A sign with or without an `=` after its first bytes.
fn with_equals(next: u8, length: usize, long: Sign, short: Sign) -> Option<(Lexeme, usize)>
    requires { length < 4 }
    ensures { result ≡ with_equals next length long short }
{
    if next == b'=' {
        found(long, length + 1)
    } else {
        found(short, length)
    }
}

// A sign that needs the `=` after its first bytes.
fn only_equals(next: u8, length: usize, long: Sign) -> Option<(Lexeme, usize)>
    requires { length < 4 }
    ensures { result ≡ only_equals next length long }
{
    if next == b'=' {
        found(long, length + 1)
    } else {
        None
    }
}

/// The longest sign that these three bytes begin with, and its length, but for the signs that begin
/// with `s`.
pub fn sign_of(a: u8, b: u8, c: u8) -> Option<(Lexeme, usize)>
    ensures { result ≡ sign_of a b c }
{
    match a {
        b'(' => found(Sign::Open, 1),
        b')' => found(Sign::Close, 1),
        b',' => found(Sign::Comma, 1),
        b':' => found(Sign::Colon, 1),
        b'*' => with_equals(b, 1, Sign::MulAssign, Sign::Star),
        b'+' => with_equals(b, 1, Sign::AddAssign, Sign::Plus),
        b'-' => with_equals(b, 1, Sign::SubAssign, Sign::Minus),
        b'&' => with_equals(b, 1, Sign::AndAssign, Sign::Ampersand),
        b'=' => with_equals(b, 1, Sign::Equal, Sign::Assign),
        b'/' => only_equals(b, 1, Sign::DivAssign),
        b'%' => only_equals(b, 1, Sign::ModAssign),
        b'|' => only_equals(b, 1, Sign::OrAssign),
        b'^' => only_equals(b, 1, Sign::XorAssign),
        b'!' => only_equals(b, 1, Sign::NotEqual),
        b'<' => {
            if b == b'<' && c == b'=' {
                found(Sign::LshAssign, 3)
            } else {
                with_equals(b, 1, Sign::LessEqual, Sign::Less)
            }
        }
        b'>' => {
            if b == b'>' && c == b'=' {
                found(Sign::RshAssign, 3)
            } else {
                with_equals(b, 1, Sign::GreaterEqual, Sign::Greater)
            }
        }
        _ => None,
    }
}

/// Returns how long the sign is that `sign_of` finds.
pub fn sign_len(a: u8, b: u8, c: u8) -> Option<usize>
    ensures { result ≡ token_length (sign_of a b c) }
{
    match a {
        b'(' | b')' | b',' | b':' => Some(1),
        b'*' | b'+' | b'-' | b'&' | b'=' => len_with_equals(b),
        b'/' | b'%' | b'|' | b'^' | b'!' => { if b == b'=' { Some(2) } else { None } }
        b'<' | b'>' => {
            if b == a && c == b'=' {
                Some(3)
            } else {
                len_with_equals(b)
            }
        }
        _ => None,
    }
}

// How long a sign is that may have an `=` after its one byte.
fn len_with_equals(next: u8) -> Option<usize>
    ensures { result ≡ if next == 61 then Some 2 else Some 1 }
{
    if next == b'=' { Some(2) } else { Some(1) }
}

/// The longest sign that begins with `s` and goes on with these bytes, and its length.
pub fn signed_sign(b: u8, c: u8, d: u8) -> Option<(Lexeme, usize)>
    ensures { result ≡ signed_sign b c d }
{
    match b {
        b'>' => {
            if c == b'>' && d == b'=' {
                found(Sign::ArshAssign, 4)
            } else {
                with_equals(c, 2, Sign::SignedGreaterEqual, Sign::SignedGreater)
            }
        }
        b'<' => with_equals(c, 2, Sign::SignedLessEqual, Sign::SignedLess),
        b'/' => only_equals(c, 2, Sign::SignedDivAssign),
        b'%' => only_equals(c, 2, Sign::SignedModAssign),
        _ => None,
    }
}
