//! An order of rows of words that puts similar rows next to one another.

use crate::trees::FAN;
use std::alloc::{AllocError, Global};

/// Says how many rows are looked at to see whether they differ in a column.
const SAMPLE: usize = 16;

/// Says how often a size is halved at most: once for each bit of a number of 64 bits.
const BITS: usize = 64;

/// A row by its index, and its word by which it is put into order.
#[derive(Clone, Copy, Drop)]
pub struct OrderedRow {
    pub index: usize,
    word: u64,
}

/// Rows in an order, by their indexes.
#[derive(Drop)]
pub struct RowOrder {
    order: Vec<OrderedRow>,
}

/// The word of a row in a column.
fn word_at(rows: &[u64], width: usize, row_index: usize, column: usize) -> u64 {
    let index = row_index.saturating_mul(width).saturating_add(column);
    rows.get(index).copied().unwrap_or(0)
}

/// Returns whether a sample of the rows differs in a column.
fn differ(order: &[OrderedRow], rows: &[u64], width: usize, column: usize) -> bool {
    let Some(first) = order.first() else {
        return false;
    };
    let word = word_at(rows, width, first.index, column);
    for row in order.iter().step_by(order.len() / SAMPLE + 1) {
        if word_at(rows, width, row.index, column) != word {
            return true;
        }
    }
    false
}

/// Returns how many columns there are in which the rows differ, up to the one after this many of
/// them, and that one.
fn differing(
    order: &[OrderedRow],
    rows: &[u64],
    width: usize,
    skipped: usize,
) -> (usize, Option<usize>) {
    let mut count: usize = 0;
    for column in 1..width {
        if differ(order, rows, width, column) {
            if count == skipped {
                return (count, Some(column));
            }
            count = count.saturating_add(1);
        }
    }
    (count, None)
}

/// Puts half of the rows before the others, by a column in which they differ: by the next one each
/// time.
fn split(order: &mut [OrderedRow], half: usize, halvings: usize, rows: &[u64], width: usize) {
    if order.len() <= half {
        return;
    }
    let (count, _) = differing(order, rows, width, width);
    if count == 0 {
        return;
    }
    let (_, Some(column)) = differing(order, rows, width, halvings % count) else {
        return;
    };
    for row in order.iter_mut() {
        row.word = word_at(rows, width, row.index, column);
    }
    let _split = order.select_nth_unstable_by_key(half, |row| row.word);
}

impl RowOrder {
    /// This many rows, in the order that they have.
    pub fn of(alloc: Global, count: usize) -> Result<Self, AllocError> {
        let mut order = Vec::with_capacity(alloc, count)?;
        for index in 0..count {
            order.push(OrderedRow { index, word: 0 })?;
        }
        Ok(RowOrder { order })
    }

    /// Puts rows of this width into order.
    pub fn arrange(&mut self, rows: &[u64], width: usize) {
        let count = self.order.len();
        let mut size = FAN.max(count.checked_next_power_of_two().unwrap_or(usize::MAX));
        for halvings in 0..BITS {
            if size <= FAN {
                return;
            }
            for chunk in self.order.chunks_mut(size) {
                split(chunk, size / 2, halvings, rows, width);
            }
            size /= 2;
        }
    }

    /// The rows in their order.
    pub fn rows(&self) -> &[OrderedRow] {
        &self.order
    }
}
