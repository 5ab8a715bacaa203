//! A grid: rows of cells under the heads of their columns.

use std::alloc::{AllocError, Global};

/// Says what a row has in a column.
#[derive(Drop)]
pub enum RowCell {
    Text(String),
    Number(u64),
    /// A number of thousandths.
    Thousandths(u64),
    Nothing,
}

/// The head of a column.
#[derive(Clone, Copy, Drop)]
pub struct ColumnHead {
    pub name: &'static str,
    /// Says whether its cells are aligned at the left in the text for people, as texts are.
    pub is_left: bool,
    /// The least width of its cells in the text for people, in characters.
    pub width: usize,
}

/// Rows of cells under heads, each row with as many cells as there are heads.
#[derive(Drop)]
pub struct Grid {
    pub heads: Vec<ColumnHead>,
    pub rows: Vec<Vec<RowCell>>,
}

/// A cell as text.
pub fn cell_text(alloc: Global, cell: &RowCell) -> Result<String, AllocError> {
    match cell {
        RowCell::Text(text) => String::from_str(alloc, text.as_str()),
        RowCell::Number(number) => {
            let number = *number;
            format!(in alloc; "{number}")
        }
        RowCell::Thousandths(number) => {
            let (integer, rest) = (*number / 1000, *number % 1000);
            format!(in alloc; "{integer}.{rest:03}")
        }
        RowCell::Nothing => Ok(String::new(alloc)),
    }
}

/// The cells of a row as texts.
pub fn row_texts(alloc: Global, row: &[RowCell]) -> Result<Vec<String>, AllocError> {
    let mut texts = Vec::new(alloc);
    for cell in row {
        texts.push(cell_text(alloc, cell)?)?;
    }
    Ok(texts)
}

/// The names in the heads.
pub fn head_texts(alloc: Global, heads: &[ColumnHead]) -> Result<Vec<String>, AllocError> {
    let mut texts = Vec::new(alloc);
    for head in heads {
        texts.push(String::from_str(alloc, head.name)?)?;
    }
    Ok(texts)
}
