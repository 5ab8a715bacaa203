//! The parts of a statement: its single tokens, and what each of them spells.

ghost use Rattle.std.specs.Prelude.{◌≡◌, slice_get};
ghost use Rattle.assembler.specs.Operands.{token_at, sign_at, number_at, word_at, is_sign, expect_at, is_minus, op_of, atomic_op_of, comparison_of, width_of, extension_of, as_size, as_signed_size, as_map_type, is_by_index};
ghost use Rattle.assembler.specs.Statements.{is_full};
ghost use Rattle.assembler.specs.Labelled.{zeroed};

use super::wrong::Wrong;
use crate::{Sign, Token, Word};
use isa_model::{AluOp, AtomicOp, Comparison, Extension, MapType, SignedSize, Size, Width};

/// The token at the index, if there is one.
pub fn token_in(tokens: &[Token], i: usize) -> Option<Token>
    ensures { result ≡ slice_get tokens.now i }
{
    tokens.get(i).copied()
}

/// The token at the index.
pub fn token_at(tokens: &[Token], i: usize) -> Result<Token, Wrong>
    ensures { result ≡ token_at tokens.now i }
{
    match token_in(tokens, i) {
        Some(token) => Ok(token),
        None => Err(Wrong::Form),
    }
}

/// The sign at the index.
pub fn sign_at(tokens: &[Token], i: usize) -> Result<Sign, Wrong>
    ensures { result ≡ sign_at tokens.now i }
{
    match token_in(tokens, i) {
        Some(Token::Signed(sign)) => Ok(sign),
        Some(Token::Named(_)) => Err(Wrong::Form),
        Some(Token::Number(_)) => Err(Wrong::Form),
        None => Err(Wrong::Form),
    }
}

/// The number at the index.
pub fn number_at(tokens: &[Token], i: usize) -> Result<u128, Wrong>
    ensures { result ≡ number_at tokens.now i }
{
    match token_in(tokens, i) {
        Some(Token::Number(n)) => Ok(n),
        Some(Token::Named(_)) => Err(Wrong::Form),
        Some(Token::Signed(_)) => Err(Wrong::Form),
        None => Err(Wrong::Form),
    }
}

/// The word at the index.
pub fn word_at(tokens: &[Token], i: usize) -> Result<Word, Wrong>
    ensures { result ≡ word_at tokens.now i }
{
    match token_in(tokens, i) {
        Some(Token::Named(word)) => Ok(word),
        Some(Token::Number(_)) => Err(Wrong::Form),
        Some(Token::Signed(_)) => Err(Wrong::Form),
        None => Err(Wrong::Form),
    }
}

fn is_sign(sign: Sign, wanted: Sign) -> bool
    ensures { result ≡ is_sign sign wanted }
{
    match (sign, wanted) {
        (Sign::Open, Sign::Open) => true,
        (Sign::Close, Sign::Close) => true,
        (Sign::Star, Sign::Star) => true,
        (Sign::Comma, Sign::Comma) => true,
        (Sign::Assign, Sign::Assign) => true,
        (Sign::Plus, Sign::Plus) => true,
        _ => false,
    }
}

/// The wanted sign is at the index: one of `(`, `)`, `*`, `,`, `=` and `+`.
pub fn expect_at(tokens: &[Token], i: usize, wanted: Sign) -> Result<(), Wrong>
    ensures { result ≡ expect_at tokens.now i wanted }
{
    if is_sign(sign_at(tokens, i)?, wanted) {
        Ok(())
    } else {
        Err(Wrong::Form)
    }
}

/// Returns whether the sign of a number is a minus; it has to be `+` or `-`.
pub fn is_minus(sign: Sign) -> Result<bool, Wrong>
    ensures { result ≡ is_minus sign }
{
    match sign {
        Sign::Minus => Ok(true),
        Sign::Plus => Ok(false),
        _ => Err(Wrong::Form),
    }
}

/// The operation of an assigning sign.
pub fn op_of(sign: Sign) -> Result<AluOp, Wrong>
    ensures { result ≡ op_of sign }
{
    match sign {
        Sign::Assign => Ok(AluOp::Mov),
        Sign::AddAssign => Ok(AluOp::Add),
        Sign::SubAssign => Ok(AluOp::Sub),
        Sign::MulAssign => Ok(AluOp::Mul),
        Sign::DivAssign => Ok(AluOp::Div),
        Sign::SignedDivAssign => Ok(AluOp::SignedDiv),
        Sign::ModAssign => Ok(AluOp::Mod),
        Sign::SignedModAssign => Ok(AluOp::SignedMod),
        Sign::OrAssign => Ok(AluOp::Or),
        Sign::AndAssign => Ok(AluOp::And),
        Sign::XorAssign => Ok(AluOp::Xor),
        Sign::LshAssign => Ok(AluOp::Lsh),
        Sign::RshAssign => Ok(AluOp::Rsh),
        Sign::ArshAssign => Ok(AluOp::Arsh),
        _ => Err(Wrong::Form),
    }
}

/// The operation of an atomic instruction without fetch.
pub fn atomic_op_of(sign: Sign) -> Result<AtomicOp, Wrong>
    ensures { result ≡ atomic_op_of sign }
{
    match sign {
        Sign::AddAssign => Ok(AtomicOp::Add),
        Sign::OrAssign => Ok(AtomicOp::Or),
        Sign::AndAssign => Ok(AtomicOp::And),
        Sign::XorAssign => Ok(AtomicOp::Xor),
        _ => Err(Wrong::Form),
    }
}

/// The comparison of a conditional jump.
pub fn comparison_of(sign: Sign) -> Result<Comparison, Wrong>
    ensures { result ≡ comparison_of sign }
{
    match sign {
        Sign::Equal => Ok(Comparison::Equal),
        Sign::NotEqual => Ok(Comparison::NotEqual),
        Sign::Greater => Ok(Comparison::Greater),
        Sign::GreaterEqual => Ok(Comparison::GreaterEqual),
        Sign::Less => Ok(Comparison::Less),
        Sign::LessEqual => Ok(Comparison::LessEqual),
        Sign::Ampersand => Ok(Comparison::AnyBit),
        Sign::SignedGreater => Ok(Comparison::SignedGreater),
        Sign::SignedGreaterEqual => Ok(Comparison::SignedGreaterEqual),
        Sign::SignedLess => Ok(Comparison::SignedLess),
        Sign::SignedLessEqual => Ok(Comparison::SignedLessEqual),
        _ => Err(Wrong::Form),
    }
}

/// The width of an atomic instruction on memory of the size.
pub fn width_of(size: Size) -> Result<Width, Wrong>
    ensures { result ≡ width_of size }
{
    match size {
        Size::U32 => Ok(Width::Low32),
        Size::U64 => Ok(Width::Full64),
        Size::U8 | Size::U16 => Err(Wrong::Form),
    }
}

/// The extension from a size to a width.
pub fn extension_of(width: Width, size: SignedSize) -> Result<Extension, Wrong>
    ensures { result ≡ extension_of width size }
{
    match (width, size) {
        (Width::Low32, SignedSize::S8) => Ok(Extension::Low8),
        (Width::Low32, SignedSize::S16) => Ok(Extension::Low16),
        (Width::Low32, SignedSize::S32) => Err(Wrong::Form),
        (Width::Full64, SignedSize::S8) => Ok(Extension::Full8),
        (Width::Full64, SignedSize::S16) => Ok(Extension::Full16),
        (Width::Full64, SignedSize::S32) => Ok(Extension::Full32),
    }
}

/// The size that the word names, as `u32` does.
pub fn as_size(word: Word) -> Result<Size, Wrong>
    ensures { result ≡ as_size word }
{
    match word {
        Word::Unsigned(size) => Ok(size),
        _ => Err(Wrong::Form),
    }
}

/// The size that the word names, as `s32` does.
pub fn as_signed_size(word: Word) -> Result<SignedSize, Wrong>
    ensures { result ≡ as_signed_size word }
{
    match word {
        Word::SignExtended(size) => Ok(size),
        _ => Err(Wrong::Form),
    }
}

/// The map type that the word names.
pub fn as_map_type(word: Word) -> Result<MapType, Wrong>
    ensures { result ≡ as_map_type word }
{
    match word {
        Word::MapType(kind) => Ok(kind),
        _ => Err(Wrong::Form),
    }
}

/// Returns whether the word is `map_by_idx`.
pub fn is_by_index(word: Word) -> bool
    ensures { result ≡ is_by_index word }
{
    match word {
        Word::MapByIndex => true,
        _ => false,
    }
}

/// Returns whether the width is that of a whole register.
pub fn is_full(width: Width) -> bool
    ensures { result ≡ is_full width }
{
    match width {
        Width::Full64 => true,
        Width::Low32 => false,
    }
}

/// The token with 0 for its number, if it is one: 0 is in all ranges.
pub fn zeroed(token: Token) -> Token
    ensures { result ≡ zeroed token }
{
    match token {
        Token::Number(_) => Token::Number(0),
        Token::Named(_) | Token::Signed(_) => token,
    }
}
