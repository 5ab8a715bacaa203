//! What a statement's tokens spell: an instruction, a map row or the version.

ghost use Rattle.std.specs.Prelude.{◌≡◌, ◌+◌, ◌<◌};
ghost use Rattle.assembler.specs.Statements.{stored_token, stored, locked, jump, long_jump, is_goto, goto_at, condition, tested, called_word, called, by_word, by_token, reading_of};
ghost use Rattle.assembler.specs.Labelled.{begins_map_line, spelled, begins_version_line, version_number, version_line, fits_form, spelled_behind};

use super::assignments::{assigned, plain};
use super::map_lines::map_line;
use super::operands::{
    as_register, constant_at, far_target_at, memory_at, near_target_at, operand_at, register_at,
    signed_imm,
};
use super::parts::{
    as_size, atomic_op_of, comparison_of, expect_at, number_at, sign_at, token_at, token_in,
    width_of, word_at,
};
use super::readings::{Reading, Statement};
use super::wrong::Wrong;
use crate::{Sign, Token, Word};
use isa_model::{Cond, Insn, Place, Reg, Size, Width};

// What is stored after `*(size *)(place) =`.
fn stored_token(size: Size, place: Place, tokens: &[Token], token: Token) -> Result<Reading, Wrong>
    ensures { result ≡ stored_token size place tokens.now token }
{
    match token {
        Token::Named(word) => {
            let source = as_register(Width::Full64, word)?;
            plain(Insn::Store(size, place, source), tokens, 12)
        }
        _ => {
            let (constant, end) = constant_at(tokens, 11)?;
            plain(Insn::StoreConstant(size, place, constant), tokens, end)
        }
    }
}

fn stored(tokens: &[Token]) -> Result<Reading, Wrong>
    ensures { result ≡ stored tokens.now }
{
    let (word, place) = memory_at(tokens, 0)?;
    let size = as_size(word)?;
    expect_at(tokens, 10, Sign::Assign)?;
    stored_token(size, place, tokens, token_at(tokens, 11)?)
}

fn locked(tokens: &[Token]) -> Result<Reading, Wrong>
    ensures { result ≡ locked tokens.now }
{
    let (word, place) = memory_at(tokens, 1)?;
    let width = width_of(as_size(word)?)?;
    let op = atomic_op_of(sign_at(tokens, 11)?)?;
    let source = register_at(Width::Full64, tokens, 12)?;
    plain(Insn::Atomic(width, op, false, place, source), tokens, 13)
}

fn jump(tokens: &[Token]) -> Result<Reading, Wrong>
    ensures { result ≡ jump tokens.now }
{
    let (by, name) = near_target_at(tokens, 1)?;
    Ok(Reading {
        insn: Insn::Jump(by),
        name,
    })
}

fn long_jump(tokens: &[Token]) -> Result<Reading, Wrong>
    ensures { result ≡ long_jump tokens.now }
{
    let (by, name) = far_target_at(tokens, 1)?;
    Ok(Reading {
        insn: Insn::JumpLong(by),
        name,
    })
}

fn is_goto(word: Word) -> bool
    ensures { result ≡ is_goto word }
{
    match word {
        Word::Goto => true,
        _ => false,
    }
}

fn goto_at(tokens: &[Token], i: usize) -> Result<(i16, Option<usize>), Wrong>
    requires { i < 7 }
    ensures { result ≡ goto_at tokens.now i }
{
    if is_goto(word_at(tokens, i)?) {
        near_target_at(tokens, i + 1)
    } else {
        Err(Wrong::Form)
    }
}

// What follows `if R`.
fn condition(width: Width, register: Reg, tokens: &[Token]) -> Result<Reading, Wrong>
    ensures { result ≡ condition width register tokens.now }
{
    let comparison = comparison_of(sign_at(tokens, 2)?)?;
    let (operand, end) = operand_at(width, tokens, 3)?;
    let (by, name) = goto_at(tokens, end)?;
    let cond = Cond {
        width,
        comparison,
        register,
        operand,
    };
    Ok(Reading {
        insn: Insn::JumpIf(cond, by),
        name,
    })
}

fn tested(tokens: &[Token], word: Word) -> Result<Reading, Wrong>
    ensures { result ≡ tested tokens.now word }
{
    match word {
        Word::Register(width, register) => condition(width, register, tokens),
        _ => Err(Wrong::Form),
    }
}

// A word after `call`: `pc` and a distance, or a name.
fn called_word(tokens: &[Token], word: Word) -> Result<Reading, Wrong>
    ensures { result ≡ called_word tokens.now word }
{
    match word {
        Word::Pc => {
            let by = signed_imm(tokens, 2)?;
            plain(Insn::CallLocal(by), tokens, 4)
        }
        _ => {
            if tokens.len() == 2 {
                Ok(Reading {
                    insn: Insn::CallLocal(0),
                    name: Some(1),
                })
            } else {
                Err(Wrong::Form)
            }
        }
    }
}

// What follows `call`: a word, or the number of a helper.
fn called(tokens: &[Token], token: Token) -> Result<Reading, Wrong>
    ensures { result ≡ called tokens.now token }
{
    match token {
        Token::Named(word) => called_word(tokens, word),
        _ => {
            let (number, end) = constant_at(tokens, 1)?;
            plain(Insn::CallHelper(number), tokens, end)
        }
    }
}

fn by_word(tokens: &[Token], word: Word) -> Result<Reading, Wrong>
    ensures { result ≡ by_word tokens.now word }
{
    match word {
        Word::Register(width, register) => assigned(width, register, tokens),
        Word::If => tested(tokens, word_at(tokens, 1)?),
        Word::Goto => jump(tokens),
        Word::GotoLong => long_jump(tokens),
        Word::Call => called(tokens, token_at(tokens, 1)?),
        Word::Exit => plain(Insn::Exit, tokens, 1),
        Word::Lock => locked(tokens),
        _ => Err(Wrong::Form),
    }
}

fn by_token(tokens: &[Token], token: Token) -> Result<Reading, Wrong>
    ensures { result ≡ by_token tokens.now token }
{
    match token {
        Token::Named(word) => by_word(tokens, word),
        Token::Signed(Sign::Star) => stored(tokens),
        Token::Signed(_) => Err(Wrong::Form),
        Token::Number(_) => Err(Wrong::Form),
    }
}

/// The instruction that the tokens of a statement without a label spell.
///
/// Forms are tried from left to right. `Wrong::Range` is also possible for tokens that fit no form,
/// whatever their numbers are.
#[tactic(auto, unfolding(crate::specs::Statements::reading_of))]
pub fn reading_of(tokens: &[Token]) -> Result<Reading, Wrong>
    ensures { result ≡ reading_of tokens.now }
{
    by_token(tokens, token_at(tokens, 0)?)
}

// Whether a map line begins with that token.
fn begins_map_line(token: Option<Token>) -> bool
    ensures { result ≡ begins_map_line token }
{
    match token {
        Some(Token::Named(Word::Map)) => true,
        _ => false,
    }
}

// Whether a version line begins with that token.
fn begins_version_line(token: Option<Token>) -> bool
    ensures { result ≡ begins_version_line token }
{
    match token {
        Some(Token::Named(Word::Version)) => true,
        _ => false,
    }
}

// The number of a version line.
fn version_number(tokens: &[Token]) -> Result<u128, Wrong>
    ensures { result ≡ version_number tokens.now }
{
    let number = number_at(tokens, 1)?;
    if tokens.len() == 2 {
        Ok(number)
    } else {
        Err(Wrong::Form)
    }
}

// `version 2`.
fn version_line(tokens: &[Token]) -> Result<Statement, Wrong>
    ensures { result ≡ version_line tokens.now }
{
    if version_number(tokens)? == 2 {
        Ok(Statement::Version)
    } else {
        Err(Wrong::Range(1))
    }
}

/// Returns whether a form fits the tokens of a statement without a label: a version line, whatever
/// its number is, or an instruction.
pub fn fits_form(tokens: &[Token]) -> bool
    ensures { result ≡ fits_form tokens.now }
{
    (begins_version_line(token_in(tokens, 0)) && version_number(tokens).is_ok())
        || reading_of(tokens).is_ok()
}

/// Returns what the tokens of a statement spell that follow its label of `label_tokens` tokens.
pub fn spelled_behind(label_tokens: usize, tokens: &[Token]) -> Result<Statement, Wrong>
    ensures { result ≡ spelled_behind label_tokens tokens.now }
{
    if begins_version_line(token_in(tokens, 0)) {
        if label_tokens == 0 {
            version_line(tokens)
        } else {
            Err(Wrong::Form)
        }
    } else {
        spelled(tokens)
    }
}

/// Returns what the tokens of a statement without a label spell.
pub fn spelled(tokens: &[Token]) -> Result<Statement, Wrong>
    ensures { result ≡ spelled tokens.now }
{
    if tokens.is_empty() {
        return Ok(Statement::Empty);
    }
    if begins_map_line(token_in(tokens, 0)) {
        Ok(Statement::Row(map_line(tokens)?))
    } else {
        Ok(Statement::Instruction(reading_of(tokens)?))
    }
}
