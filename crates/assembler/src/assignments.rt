//! Assignments: statements that begin with a register.

ghost use Rattle.std.specs.Prelude.{◌≡◌, ◌+◌, ◌<◌};
ghost use Rattle.assembler.specs.Statements.{plain, arithmetic, wide, number_or_wide, negated, extended, load_of, loaded, swapped, exchanged_place, fetched, exchanged, compared, map_loaded, map_value_loaded, moved_word, moved, assigned_by, assigned, wide_at};

use super::map_lines::{by_index_at, field_at, index_at};
use super::operands::{
    again_at, argument_at, memory_at, operand_at, register_at, same_register, wide_within,
};
use super::parts::{
    as_signed_size, expect_at, extension_of, is_full, number_at, op_of, sign_at, token_at,
    token_in, word_at,
};
use super::readings::Reading;
use super::wrong::Wrong;
use crate::{Sign, Token, Word};
use isa_model::{AluOp, AtomicOp, ByteOrder, Insn, Place, Reg, SwapWidth, Width};

/// The instruction of a statement without a name that ends before the index.
pub fn plain(insn: Insn, tokens: &[Token], end: usize) -> Result<Reading, Wrong>
    ensures { result ≡ plain insn tokens.now end }
{
    if tokens.len() == end {
        Ok(Reading { insn, name: None })
    } else {
        Err(Wrong::Form)
    }
}

fn arithmetic(op: AluOp, width: Width, register: Reg, tokens: &[Token]) -> Result<Reading, Wrong>
    ensures { result ≡ arithmetic op width register tokens.now }
{
    let (operand, end) = operand_at(width, tokens, 2)?;
    plain(Insn::Alu(width, op, register, operand), tokens, end)
}

// Whether the token at the index is `ll`.
fn wide_at(tokens: &[Token], i: usize) -> bool
    ensures { result ≡ wide_at tokens.now i }
{
    match token_in(tokens, i) {
        Some(Token::Named(Word::Wide)) => true,
        _ => false,
    }
}

// The number at index i, and after it `ll`.
fn wide(
    width: Width,
    register: Reg,
    tokens: &[Token],
    minus: bool,
    i: usize,
) -> Result<Reading, Wrong>
    requires { i < 8 }
    ensures { result ≡ wide width register tokens.now minus i }
{
    if is_full(width) {
        let number = wide_within(minus, number_at(tokens, i)?, 2)?;
        plain(Insn::LoadNumber(register, number), tokens, i + 2)
    } else {
        Err(Wrong::Form)
    }
}

fn number_or_wide(
    width: Width,
    register: Reg,
    tokens: &[Token],
    minus: bool,
    i: usize,
) -> Result<Reading, Wrong>
    requires { i < 8 }
    ensures { result ≡ number_or_wide width register tokens.now minus i }
{
    if wide_at(tokens, i + 1) {
        wide(width, register, tokens, minus, i)
    } else {
        arithmetic(AluOp::Mov, width, register, tokens)
    }
}

// What follows `R = -`.
fn negated(width: Width, register: Reg, tokens: &[Token], token: Token) -> Result<Reading, Wrong>
    ensures { result ≡ negated width register tokens.now token }
{
    match token {
        Token::Named(_) => {
            again_at(width, register, tokens, 3)?;
            plain(Insn::Neg(width, register), tokens, 4)
        }
        _ => number_or_wide(width, register, tokens, true, 3),
    }
}

// `(size)R` after `R =`.
fn extended(width: Width, register: Reg, tokens: &[Token]) -> Result<Reading, Wrong>
    ensures { result ≡ extended width register tokens.now }
{
    let extension = extension_of(width, as_signed_size(word_at(tokens, 3)?)?)?;
    expect_at(tokens, 4, Sign::Close)?;
    let source = register_at(width, tokens, 5)?;
    plain(Insn::MovSx(extension, register, source), tokens, 6)
}

fn load_of(register: Reg, place: Place, word: Word) -> Result<Insn, Wrong>
    ensures { result ≡ load_of register place word }
{
    match word {
        Word::Unsigned(size) => Ok(Insn::Load(size, register, place)),
        Word::SignExtended(size) => Ok(Insn::LoadSx(size, register, place)),
        _ => Err(Wrong::Form),
    }
}

// `*(size *)(place)` after `R =`.
fn loaded(width: Width, register: Reg, tokens: &[Token]) -> Result<Reading, Wrong>
    ensures { result ≡ loaded width register tokens.now }
{
    if is_full(width) {
        let (size, place) = memory_at(tokens, 2)?;
        let insn = load_of(register, place, size)?;
        plain(insn, tokens, 12)
    } else {
        Err(Wrong::Form)
    }
}

fn swapped(
    order: ByteOrder,
    bits: SwapWidth,
    register: Reg,
    tokens: &[Token],
) -> Result<Reading, Wrong>
    ensures { result ≡ swapped order bits register tokens.now }
{
    again_at(Width::Full64, register, tokens, 3)?;
    plain(Insn::ByteSwap(order, bits, register), tokens, 4)
}

// `(place, R)` after a word, where R is the destination again.
fn exchanged_place(register: Reg, tokens: &[Token]) -> Result<Place, Wrong>
    ensures { result ≡ exchanged_place register tokens.now }
{
    let place = argument_at(tokens, 3)?;
    again_at(Width::Full64, register, tokens, 8)?;
    expect_at(tokens, 9, Sign::Close)?;
    Ok(place)
}

fn fetched(op: AtomicOp, width: Width, register: Reg, tokens: &[Token]) -> Result<Reading, Wrong>
    ensures { result ≡ fetched op width register tokens.now }
{
    let place = exchanged_place(register, tokens)?;
    plain(Insn::Atomic(width, op, true, place, register), tokens, 10)
}

fn exchanged(width: Width, register: Reg, tokens: &[Token]) -> Result<Reading, Wrong>
    ensures { result ≡ exchanged width register tokens.now }
{
    let place = exchanged_place(register, tokens)?;
    plain(Insn::Exchange(width, place, register), tokens, 10)
}

// `(place, r0, R)` after a word, where the destination is r0.
fn compared(width: Width, register: Reg, tokens: &[Token]) -> Result<Reading, Wrong>
    ensures { result ≡ compared width register tokens.now }
{
    if same_register(register, Reg::R0) {
        let place = argument_at(tokens, 3)?;
        again_at(Width::Full64, Reg::R0, tokens, 8)?;
        expect_at(tokens, 9, Sign::Comma)?;
        let source = register_at(Width::Full64, tokens, 10)?;
        expect_at(tokens, 11, Sign::Close)?;
        plain(Insn::CompareExchange(width, place, source), tokens, 12)
    } else {
        Err(Wrong::Form)
    }
}

// `(n)` after `R = map_by_idx`.
fn map_loaded(register: Reg, tokens: &[Token]) -> Result<Reading, Wrong>
    ensures { result ≡ map_loaded register tokens.now }
{
    let map = index_at(tokens, 3)?;
    plain(Insn::LoadMap(register, map), tokens, 6)
}

// `(map_by_idx(n)) + n` after `R = map_val`.
fn map_value_loaded(register: Reg, tokens: &[Token]) -> Result<Reading, Wrong>
    ensures { result ≡ map_value_loaded register tokens.now }
{
    expect_at(tokens, 3, Sign::Open)?;
    let map = by_index_at(tokens, 4)?;
    expect_at(tokens, 8, Sign::Close)?;
    expect_at(tokens, 9, Sign::Plus)?;
    let offset = field_at(u32::MAX, tokens, 10)?;
    plain(Insn::LoadMapValue(register, map, offset), tokens, 11)
}

// What begins with a word after `R =`.
fn moved_word(width: Width, register: Reg, tokens: &[Token], word: Word) -> Result<Reading, Wrong>
    ensures { result ≡ moved_word width register tokens.now word }
{
    match (width, word) {
        (Width::Full64, Word::Swapped(order, bits)) => swapped(order, bits, register, tokens),
        (Width::Full64, Word::Fetch(op, bits)) => fetched(op, bits, register, tokens),
        (Width::Full64, Word::Exchange(bits)) => exchanged(bits, register, tokens),
        (Width::Full64, Word::CompareExchange(bits)) => compared(bits, register, tokens),
        (Width::Full64, Word::MapByIndex) => map_loaded(register, tokens),
        (Width::Full64, Word::MapValue) => map_value_loaded(register, tokens),
        _ => arithmetic(AluOp::Mov, width, register, tokens),
    }
}

// What follows `R =`.
fn moved(width: Width, register: Reg, tokens: &[Token], token: Token) -> Result<Reading, Wrong>
    ensures { result ≡ moved width register tokens.now token }
{
    match token {
        Token::Number(_) => number_or_wide(width, register, tokens, false, 2),
        Token::Named(word) => moved_word(width, register, tokens, word),
        Token::Signed(Sign::Minus) => negated(width, register, tokens, token_at(tokens, 3)?),
        Token::Signed(Sign::Open) => extended(width, register, tokens),
        Token::Signed(Sign::Star) => loaded(width, register, tokens),
        Token::Signed(_) => Err(Wrong::Form),
    }
}

fn assigned_by(op: AluOp, width: Width, register: Reg, tokens: &[Token]) -> Result<Reading, Wrong>
    ensures { result ≡ assigned_by op width register tokens.now }
{
    match op {
        AluOp::Mov => moved(width, register, tokens, token_at(tokens, 2)?),
        _ => arithmetic(op, width, register, tokens),
    }
}

/// The instruction of a statement that begins with this register.
pub fn assigned(width: Width, register: Reg, tokens: &[Token]) -> Result<Reading, Wrong>
    ensures { result ≡ assigned width register tokens.now }
{
    let op = op_of(sign_at(tokens, 1)?)?;
    assigned_by(op, width, register, tokens)
}
