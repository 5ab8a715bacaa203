//! The lexeme at the front of a text, and the byte at which no token begins.

use super::rows::holds_at;
use assembler::{Lexeme, Sign, Token, Word, lexeme_at};

/// Returns what the text begins with, and how long that is; or "none", and the offset of the byte
/// at which no token begins.
fn front_of(text: &[u8]) -> (&'static str, usize) {
    match lexeme_at(text) {
        Ok((Lexeme::Blank, length)) => ("blank", length),
        Ok((Lexeme::End, length)) => ("end", length),
        Ok((Lexeme::Solid(Token::Signed(Sign::ArshAssign)), length)) => ("s>>=", length),
        Ok((Lexeme::Solid(Token::Named(Word::GotoLong)), length)) => ("gotol", length),
        Ok((Lexeme::Solid(Token::Number(31)), length)) => ("31", length),
        Ok((Lexeme::Solid(_), length)) => ("another token", length),
        Err(at) => ("none", at),
    }
}

type Front = (&'static [u8], &'static str, usize);

const FRONTS: &[Front] = &[
    // the longest that fits
    (b"# ; ?\nexit", "blank", 5),
    (b";;", "end", 1),
    (b"s>>=1", "s>>=", 4),
    (b"gotol 1", "gotol", 5),
    (b"0x1F ", "31", 4),
    // no token
    (b"", "none", 0),
    (b"?", "none", 0),
    (b"/ 2", "none", 0),
    (b"0x", "none", 1),
    (b"0x1g", "none", 3),
    (b"12_", "none", 2),
];

fn begins_so((text, wanted, at): &Front) -> bool {
    front_of(*text) == (*wanted, *at)
}

#[test]
fn finds_the_longest_or_no_token(rt: HostRuntime) {
    for (index, row) in FRONTS.iter().enumerate() {
        holds_at(&rt, begins_so(row), index, 0);
    }
}
