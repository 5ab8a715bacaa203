//! Map lines, and indexes of maps.

ghost use Rattle.std.specs.Prelude.{◌≡◌, ◌+◌, ◌<◌, ◌≤◌, IfOk};
ghost use Rattle.assembler.specs.Operands.{field_at, index_at, by_index_at};
ghost use Rattle.assembler.specs.Statements.{map_line};

use super::parts::{as_map_type, expect_at, is_by_index, number_at, word_at};
use super::wrong::Wrong;
use crate::{Sign, Token};
use isa_model::MapDef;

/// A number without a sign; one over `most` counts as `most`.
pub fn field_at(most: u32, tokens: &[Token], i: usize) -> Result<u32, Wrong>
    ensures value { result ≡ field_at most tokens.now i }
    ensures fits { IfOk result (λ n. n ≤ most) }
{
    let n = number_at(tokens, i)?;
    if n <= u128::from(most) {
        Ok(n as u32)
    } else {
        Ok(most)
    }
}

/// `(n)`, an index: three tokens.
pub fn index_at(tokens: &[Token], i: usize) -> Result<u32, Wrong>
    requires { i < 8 }
    ensures { result ≡ index_at tokens.now i }
{
    expect_at(tokens, i, Sign::Open)?;
    let index = field_at(u32::MAX, tokens, i + 1)?;
    expect_at(tokens, i + 2, Sign::Close)?;
    Ok(index)
}

/// `map_by_idx(n)`: four tokens.
pub fn by_index_at(tokens: &[Token], i: usize) -> Result<u32, Wrong>
    requires { i < 7 }
    ensures { result ≡ by_index_at tokens.now i }
{
    if is_by_index(word_at(tokens, i)?) {
        index_at(tokens, i + 1)
    } else {
        Err(Wrong::Form)
    }
}

/// The row of a statement that begins with `map`.
pub fn map_line(tokens: &[Token]) -> Result<MapDef, Wrong>
    ensures { result ≡ map_line tokens.now }
{
    let kind = as_map_type(word_at(tokens, 1)?)?;
    let key_size = field_at(u32::from(u16::MAX), tokens, 2)? as u16;
    let value_size = field_at(u32::MAX, tokens, 3)?;
    let entries = field_at(u32::MAX, tokens, 4)?;
    if tokens.len() == 5 {
        Ok(MapDef {
            kind,
            key_size,
            value_size,
            entries,
        })
    } else {
        Err(Wrong::Form)
    }
}
