//! Numbers in their ranges, registers, operands, places and targets.

ghost use Rattle.std.specs.Prelude.{◌≡◌, ◌+◌, ◌-◌, ◌<◌, ◌≤◌, ◌^◌, ◌==◌, if◌then◌else◌, IfOk, pos, neg_ℤ, ◌≤ℤ◌, ◌<ℤ◌};
ghost use Rattle.assembler.specs.Operands.{signed_within, wide_within, signed_at, number_index, constant_at, same_width, same_register, as_register, register_at, again_at, operand_token, operand_at, place_at, memory_at, argument_at, is_name, target_token, target_at};

use super::parts::{expect_at, is_minus, number_at, sign_at, token_at, word_at};
use super::wrong::Wrong;
use crate::{Sign, Token, Word};
use isa_model::{Operand, Place, Reg, Width};

// A number below the limit, or a negative one down to minus the limit. It begins at token `at`.
fn signed_within(limit: u32, minus: bool, n: u128, at: usize) -> Result<i64, Wrong>
    requires { 0 < limit }
    ensures value { result ≡ signed_within limit at minus n }
    ensures fits { IfOk result (λ k. (neg_ℤ (pos limit) ≤ℤ k) × (k <ℤ pos limit)) }
{
    if minus {
        if n <= u128::from(limit) {
            Ok(-(n as i64))
        } else {
            Err(Wrong::Range(at))
        }
    } else {
        if n < u128::from(limit) {
            Ok(n as i64)
        } else {
            Err(Wrong::Range(at))
        }
    }
}

// The number of a wide load that has a minus, by two's complement.
fn negative_wide(n: u128) -> u64
    requires { n ≤ 2 ^ 63 }
    ensures { result ≡ if n == 0 then 0 else 2 ^ 64 - n }
{
    if n == 0 { 0 } else { ((1 << 64) - n) as u64 }
}

/// The number of a wide load.
pub fn wide_within(minus: bool, n: u128, at: usize) -> Result<u64, Wrong>
    ensures { result ≡ wide_within at minus n }
{
    if minus {
        if n <= 1 << 63 {
            Ok(negative_wide(n))
        } else {
            Err(Wrong::Range(at))
        }
    } else {
        if n < 1 << 64 {
            Ok(n as u64)
        } else {
            Err(Wrong::Range(at))
        }
    }
}

// A sign and a number.
fn signed_at(limit: u32, tokens: &[Token], i: usize) -> Result<i64, Wrong>
    requires some { 0 < limit }
    requires near { i < 16 }
    ensures value { result ≡ signed_at limit tokens.now i }
    ensures fits { IfOk result (λ k. (neg_ℤ (pos limit) ≤ℤ k) × (k <ℤ pos limit)) }
{
    let minus = is_minus(sign_at(tokens, i)?)?;
    signed_within(limit, minus, number_at(tokens, i + 1)?, i)
}

/// A sign and a number for `imm`.
pub fn signed_imm(tokens: &[Token], i: usize) -> Result<i32, Wrong>
    requires { i < 16 }
    ensures { result ≡ signed_at (2 ^ 31) tokens.now i }
{
    Ok(signed_at(1 << 31, tokens, i)? as i32)
}

// Whether this token is a minus, and the index of the number.
fn number_index(i: usize, token: Token) -> Result<(bool, usize), Wrong>
    requires { i < 16 }
    ensures index { result ≡ number_index i token }
    ensures near { IfOk result (λ at. at.1 ≤ i + 1) }
{
    match token {
        Token::Number(_) => Ok((false, i)),
        Token::Signed(Sign::Minus) => Ok((true, i + 1)),
        _ => Err(Wrong::Form),
    }
}

/// A number for `imm` with a minus or without one, and the index after it.
pub fn constant_at(tokens: &[Token], i: usize) -> Result<(i32, usize), Wrong>
    requires { i < 16 }
    ensures value { result ≡ constant_at tokens.now i }
    ensures near { IfOk result (λ k. k.1 ≤ i + 2) }
{
    let (minus, index) = number_index(i, token_at(tokens, i)?)?;
    let number = signed_within(1 << 31, minus, number_at(tokens, index)?, i)?;
    Ok((number as i32, index + 1))
}

fn same_width(a: Width, b: Width) -> bool
    ensures { result ≡ same_width a b }
{
    a.bits() == b.bits()
}

/// Returns whether both are the same register.
pub fn same_register(a: Reg, b: Reg) -> bool
    ensures { result ≡ same_register a b }
{
    a.number() == b.number()
}

/// The register that the word names at the width.
pub fn as_register(width: Width, word: Word) -> Result<Reg, Wrong>
    ensures { result ≡ as_register width word }
{
    match word {
        Word::Register(other, register) => {
            if same_width(other, width) {
                Ok(register)
            } else {
                Err(Wrong::Form)
            }
        }
        _ => Err(Wrong::Form),
    }
}

/// A register of the width.
pub fn register_at(width: Width, tokens: &[Token], i: usize) -> Result<Reg, Wrong>
    ensures { result ≡ register_at width tokens.now i }
{
    as_register(width, word_at(tokens, i)?)
}

/// Tests that the token is this register at the width.
pub fn again_at(width: Width, register: Reg, tokens: &[Token], i: usize) -> Result<(), Wrong>
    ensures { result ≡ again_at width register tokens.now i }
{
    if same_register(register_at(width, tokens, i)?, register) {
        Ok(())
    } else {
        Err(Wrong::Form)
    }
}

fn operand_token(
    width: Width,
    tokens: &[Token],
    i: usize,
    token: Token,
) -> Result<(Operand, usize), Wrong>
    requires { i < 8 }
    ensures value { result ≡ operand_token width tokens.now i token }
    ensures near { IfOk result (λ x. x.1 ≤ i + 2) }
{
    match token {
        Token::Named(word) => Ok((Operand::Register(as_register(width, word)?), i + 1)),
        _ => {
            let (constant, end) = constant_at(tokens, i)?;
            Ok((Operand::Constant(constant), end))
        }
    }
}

/// A register of the width or a number, and the index after it.
pub fn operand_at(width: Width, tokens: &[Token], i: usize) -> Result<(Operand, usize), Wrong>
    requires { i < 8 }
    ensures value { result ≡ operand_at width tokens.now i }
    ensures near { IfOk result (λ x. x.1 ≤ i + 2) }
{
    operand_token(width, tokens, i, token_at(tokens, i)?)
}

// A base, and an offset after its sign.
fn place_at(tokens: &[Token], i: usize) -> Result<Place, Wrong>
    requires { i < 12 }
    ensures { result ≡ place_at tokens.now i }
{
    let base = register_at(Width::Full64, tokens, i)?;
    let offset = signed_at(1 << 15, tokens, i + 1)? as i16;
    Ok(Place { base, offset })
}

/// `*(size *)(place)`: the ten tokens from the index on.
pub fn memory_at(tokens: &[Token], i: usize) -> Result<(Word, Place), Wrong>
    requires { i < 3 }
    ensures { result ≡ memory_at tokens.now i }
{
    expect_at(tokens, i, Sign::Star)?;
    expect_at(tokens, i + 1, Sign::Open)?;
    let size = word_at(tokens, i + 2)?;
    expect_at(tokens, i + 3, Sign::Star)?;
    expect_at(tokens, i + 4, Sign::Close)?;
    expect_at(tokens, i + 5, Sign::Open)?;
    let place = place_at(tokens, i + 6)?;
    expect_at(tokens, i + 9, Sign::Close)?;
    Ok((size, place))
}

/// `(place,`, the first argument of a form that is written as a function is: the five tokens from
/// the index on.
pub fn argument_at(tokens: &[Token], i: usize) -> Result<Place, Wrong>
    requires { i < 4 }
    ensures { result ≡ argument_at tokens.now i }
{
    expect_at(tokens, i, Sign::Open)?;
    let place = place_at(tokens, i + 1)?;
    expect_at(tokens, i + 4, Sign::Comma)?;
    Ok(place)
}

/// Returns whether the word may name a slot: all words but `pc` may.
pub fn is_name(word: Word) -> bool
    ensures { result ≡ is_name word }
{
    match word {
        Word::Pc => false,
        _ => true,
    }
}

fn target_token(
    limit: u32,
    tokens: &[Token],
    i: usize,
    token: Token,
) -> Result<(i64, Option<usize>), Wrong>
    requires some { 0 < limit }
    requires near { i < 8 }
    ensures value { result ≡ target_token limit tokens.now i token }
    ensures fits { IfOk result (λ t. (neg_ℤ (pos limit) ≤ℤ t.0) × (t.0 <ℤ pos limit)) }
{
    match token {
        Token::Signed(_) => {
            let by = signed_at(limit, tokens, i)?;
            if tokens.len() == i + 2 {
                Ok((by, None))
            } else {
                Err(Wrong::Form)
            }
        }
        Token::Named(word) => {
            if is_name(word) && tokens.len() == i + 1 {
                Ok((0, Some(i)))
            } else {
                Err(Wrong::Form)
            }
        }
        Token::Number(_) => Err(Wrong::Form),
    }
}

/// The target of `goto` and `if`, up to the end: a distance, or 0 and the index of a name.
pub fn near_target_at(tokens: &[Token], i: usize) -> Result<(i16, Option<usize>), Wrong>
    requires { i < 8 }
    ensures { result ≡ target_at (2 ^ 15) tokens.now i }
{
    let (by, name) = target_token(1 << 15, tokens, i, token_at(tokens, i)?)?;
    Ok((by as i16, name))
}

/// The target of `gotol`, up to the end: a distance, or 0 and the index of a name.
pub fn far_target_at(tokens: &[Token], i: usize) -> Result<(i32, Option<usize>), Wrong>
    requires { i < 8 }
    ensures { result ≡ target_at (2 ^ 31) tokens.now i }
{
    let (by, name) = target_token(1 << 31, tokens, i, token_at(tokens, i)?)?;
    Ok((by as i32, name))
}
