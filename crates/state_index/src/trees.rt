//! Trees of stored states by their limits: which of them may cover a state.
//!
//! No contract rests on them: they propose states, and `covers` decides.

use crate::efforts::Effort;
use crate::limits::{Measure, PartLimits, PartSpan, may_enclose};
use crate::orders::RowOrder;
use crate::rows::{Rows, WIDTH, put_measured};
use std::alloc::{AllocError, Global};

/// Says how many rows of a level one row of the next level summarizes: 2 to the power `FAN_BITS`.
pub const FAN: usize = 4;

const FAN_BITS: u32 = 2;

/// Says what is sought for a state: for each word of a row, the least that a stored state has there
/// if it may cover the state.
pub type Sought = [u64; WIDTH];

/// Stored states, those with like limits beside one another.
///
/// A row has a word for the index of a stored state, which is greater where it was stored
/// earlier, and one for each measure in which states differ. It may cover a state only where each
/// of its words is at least as great as the state's.
#[derive(Drop)]
pub struct Tree {
    /// Says what is known of each part in all states together.
    common: Vec<PartSpan>,
    measures: Vec<Measure>,
    indexes: Vec<u32>,
    /// The lowest level has a row for each stored state. A row of a higher level has the greatest
    /// words of the rows that it summarizes.
    levels: Vec<Vec<u64>>,
}

/// Returns how many words a row has.
fn width(measures: &[Measure]) -> usize {
    measures.len().saturating_add(1)
}

/// A row of a level, or no words if it has no such row.
fn row(level: &[u64], width: usize, index: usize) -> &[u64] {
    let rest = level.get(index.saturating_mul(width)..).unwrap_or(&[]);
    rest.get(..width).unwrap_or(&[])
}

/// The greatest words of up to `FAN` rows each.
fn level_above(alloc: Global, level: &[u64], width: usize) -> Result<Vec<u64>, AllocError> {
    let mut above = Vec::new(alloc);
    let row_count = level.len().checked_div(width).unwrap_or(0);
    for row_index in 0..row_count.saturating_add(FAN - 1) / FAN {
        let first = row_index.saturating_mul(FAN);
        for column in 0..width {
            let mut greatest: u64 = 0;
            for index in first..first.saturating_add(FAN) {
                if let Some(word) = level.get(index.saturating_mul(width).saturating_add(column)) {
                    greatest = greatest.max(*word);
                }
            }
            above.push(greatest)?;
        }
    }
    Ok(above)
}

/// The lowest level, and those above it.
fn levels_over(alloc: Global, lowest: Vec<u64>, width: usize) -> Result<Vec<Vec<u64>>, AllocError> {
    let mut highest = lowest;
    let mut levels = Vec::new(alloc);
    for _level in 0..32 {
        let above = level_above(alloc, &highest, width)?;
        levels.push(highest)?;
        highest = above;
        if highest.len() <= FAN.saturating_mul(width) {
            break;
        }
    }
    levels.push(highest)?;
    Ok(levels)
}

/// The indexes of stored states and the words of their rows, those with like words beside one
/// another.
fn arranged(alloc: Global, rows: &Rows, width: usize) -> Result<(Vec<u32>, Vec<u64>), AllocError> {
    let count = rows.stored.len();
    let mut order = RowOrder::of(alloc, count)?;
    order.arrange(&rows.words, width);
    let mut indexes = Vec::with_capacity(alloc, count)?;
    let mut words = Vec::with_capacity(alloc, rows.words.len())?;
    for ordered in order.rows() {
        indexes.push(rows.stored.get(ordered.index).copied().unwrap_or(0))?;
        words.extend_from_slice(row(&rows.words, width, ordered.index))?;
    }
    Ok((indexes, words))
}

impl Tree {
    /// A tree of the states that have these rows.
    pub fn of(alloc: Global, rows: Rows) -> Result<Self, AllocError> {
        let width = width(&rows.measures);
        let (indexes, words) = arranged(alloc, &rows, width)?;
        let levels = levels_over(alloc, words, width)?;
        Ok(Tree {
            common: rows.common,
            measures: rows.measures,
            indexes,
            levels,
        })
    }

    /// The indexes of its states.
    pub fn indexes(&self) -> &[u32] {
        &self.indexes
    }

    /// The words that are sought for a state with these limits, if a stored state may cover it.
    pub fn sought(&self, limits: &[PartLimits]) -> Option<Sought> {
        if !may_enclose(&self.common, limits) {
            return None;
        }
        let mut sought = [0; WIDTH];
        put_measured(&mut sought, &self.measures, limits);
        Some(sought)
    }

    /// The index of the stored state whose row this is, in the lowest level.
    pub fn index_at(&self, row_index: usize) -> Option<usize> {
        let index = *self.indexes.get(row_index)?;
        Some(index as usize)
    }

    /// The first row of the lowest level, from this one on, whose stored state may cover a state by
    /// the words of the row.
    pub fn next_from(
        &self,
        row_index: usize,
        sought: &Sought,
        effort: &mut Effort,
    ) -> Option<usize> {
        let mut row_index = row_index;
        for _tried in 0..self.indexes.len() {
            if row_index >= self.indexes.len() {
                return None;
            }
            match self.barred_from(row_index, sought, effort) {
                Some(next) => row_index = next,
                None => return Some(row_index),
            }
        }
        None
    }

    /// The row of the lowest level after those to pass over: all that are summarized by the highest
    /// row that begins at this one and does not reach the words. None: each row that begins at this
    /// one reaches them.
    fn barred_from(&self, row_index: usize, sought: &Sought, effort: &mut Effort) -> Option<usize> {
        for level in (0..self.levels.len()).rev() {
            let shift = FAN_BITS.wrapping_mul(u32::try_from(level).unwrap_or(0));
            let above_index = row_index.wrapping_shr(shift);
            if above_index.wrapping_shl(shift) == row_index {
                effort.spend_test();
                if !self.reaches(level, above_index, sought) {
                    return Some(above_index.wrapping_add(1).wrapping_shl(shift));
                }
            }
        }
        None
    }

    /// Returns whether each word of a row of a level is at least as great as the one that is
    /// sought.
    fn reaches(&self, level: usize, row_index: usize, sought: &Sought) -> bool {
        let Some(level) = self.levels.get(level) else {
            return true;
        };
        let row = row(level, width(&self.measures), row_index);
        for (word, least) in row.iter().zip(sought) {
            if word < least {
                return false;
            }
        }
        true
    }
}
