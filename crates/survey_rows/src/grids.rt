//! A grid as text for people: each column has one width, and numbers are aligned at the right.

use crate::cells::{ColumnHead, Grid, RowCell, head_texts, row_texts};
use std::alloc::{AllocError, Global};

/// Adds a character as it is shown: a control character, which a terminal would obey, as an escape.
fn show(alloc: Global, shown: &mut String, character: char) -> Result<(), AllocError> {
    if !character.is_control() {
        return shown.push(character);
    }
    let code = u32::from(character);
    let escape = format!(in alloc; "\\x{code:02x}")?;
    shown.push_str(escape.as_str())
}

/// A text as it is shown to people and in messages: an escape such as `\x1b` for each control
/// character, the others unchanged.
pub fn shown(alloc: Global, text: &str) -> Result<String, AllocError> {
    let mut shown = String::new(alloc);
    for character in text.chars() {
        show(alloc, &mut shown, character)?;
    }
    Ok(shown)
}

/// Returns how many characters a text has.
fn width_of(text: &str) -> usize {
    text.chars().count()
}

/// Returns how many characters a text has as it is shown.
pub fn shown_width(text: &str) -> usize {
    text.chars().fold(0, |width: usize, character| {
        width.saturating_add(if character.is_control() { 4 } else { 1 })
    })
}

/// Makes each width at least that of the text in its column.
fn widen(widths: &mut [usize], texts: &[String]) {
    for index in 0..widths.len() {
        if let Some(text) = texts.get(index) {
            widths[index] = widths[index].max(width_of(text.as_str()));
        }
    }
}

/// Adds spaces up to a width.
fn pad(line: &mut String, from: usize, to: usize) -> Result<(), AllocError> {
    for _ in from..to {
        line.push(' ')?;
    }
    Ok(())
}

/// Adds one text of a row.
fn put(line: &mut String, text: &str, is_left: bool, width: usize) -> Result<(), AllocError> {
    if is_left {
        line.push_str(text)?;
        return pad(line, width_of(text), width);
    }
    pad(line, width_of(text), width)?;
    line.push_str(text)
}

/// A row, with two spaces between its texts.
fn row_line(
    alloc: Global,
    heads: &[ColumnHead],
    texts: &[String],
    widths: &[usize],
) -> Result<String, AllocError> {
    let mut line = String::new(alloc);
    for index in 0..heads.len() {
        if index > 0 {
            line.push_str("  ")?;
        }
        let width = widths.get(index).copied().unwrap_or(0);
        if let Some(text) = texts.get(index) {
            put(&mut line, text.as_str(), heads[index].is_left, width)?;
        }
    }
    Ok(line)
}

/// Adds a row, without spaces at its end.
fn put_row(
    alloc: Global,
    lines: &mut String,
    heads: &[ColumnHead],
    texts: &[String],
    widths: &[usize],
) -> Result<(), AllocError> {
    let line = row_line(alloc, heads, texts, widths)?;
    lines.push_str(line.as_str().trim_end())?;
    lines.push('\n')
}

/// The texts of a row, as they are shown.
fn shown_texts(alloc: Global, row: &[RowCell]) -> Result<Vec<String>, AllocError> {
    let mut texts = Vec::new(alloc);
    for text in &row_texts(alloc, row)? {
        texts.push(shown(alloc, text.as_str())?)?;
    }
    Ok(texts)
}

/// The least widths of the columns, by their heads.
fn least_widths(alloc: Global, heads: &[ColumnHead]) -> Result<Vec<usize>, AllocError> {
    let mut widths = Vec::new(alloc);
    for head in heads {
        widths.push(head.width)?;
    }
    Ok(widths)
}

/// Makes the least widths of the columns at least those of their names and of the cells in rows.
pub fn widen_heads(
    alloc: Global,
    heads: &mut [ColumnHead],
    rows: &[Vec<RowCell>],
) -> Result<(), AllocError> {
    let mut widths = least_widths(alloc, heads)?;
    let names = head_texts(alloc, heads)?;
    widen(widths.as_mut_slice(), names.as_slice());
    for row in rows {
        let texts = shown_texts(alloc, row.as_slice())?;
        widen(widths.as_mut_slice(), texts.as_slice());
    }
    for index in 0..heads.len() {
        if let Some(width) = widths.get(index) {
            heads[index].width = *width;
        }
    }
    Ok(())
}

/// A grid as text, with the names of its columns above it if they are asked for.
pub fn grid_text(alloc: Global, grid: &Grid, has_header: bool) -> Result<String, AllocError> {
    let heads = grid.heads.as_slice();
    let names = head_texts(alloc, heads)?;
    let mut widths = least_widths(alloc, heads)?;
    if has_header {
        widen(widths.as_mut_slice(), names.as_slice());
    }
    for row in &grid.rows {
        let texts = shown_texts(alloc, row.as_slice())?;
        widen(widths.as_mut_slice(), texts.as_slice());
    }
    let mut lines = String::new(alloc);
    if has_header {
        put_row(
            alloc,
            &mut lines,
            heads,
            names.as_slice(),
            widths.as_slice(),
        )?;
    }
    for row in &grid.rows {
        let texts = shown_texts(alloc, row.as_slice())?;
        put_row(
            alloc,
            &mut lines,
            heads,
            texts.as_slice(),
            widths.as_slice(),
        )?;
    }
    Ok(lines)
}
