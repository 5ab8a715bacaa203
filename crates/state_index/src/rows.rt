//! Rows of words in which stored states differ: what a tree is made of.

use crate::limits::{MEASURES, Measure, PartLimits, PartSpan, from_part, measured, widen};
use std::alloc::{AllocError, Global};

/// Says how many words a row has at most.
pub const WIDTH: usize = 32;

/// Says what is known of each part in the states that are put into a tree, all states together.
#[derive(Drop)]
pub struct Spread {
    spans: Vec<PartSpan>,
    /// Says how many states there are.
    count: usize,
}

/// A row for each stored state that is put into a tree: a word for its index, which is greater
/// where it was stored earlier, and one for each measure in which states differ.
#[derive(Drop)]
pub struct Rows {
    /// Says what is known of each part in all states together.
    pub common: Vec<PartSpan>,
    /// The measures in which states differ, in the order of their parts.
    pub measures: Vec<Measure>,
    pub stored: Vec<u32>,
    pub words: Vec<u64>,
}

impl Spread {
    /// Of no states yet.
    pub fn new(alloc: Global) -> Self {
        Spread {
            spans: Vec::new(alloc),
            count: 0,
        }
    }

    /// Takes in a stored state with these limits.
    pub fn add(&mut self, limits: &[PartLimits]) -> Result<(), AllocError> {
        if self.count == 0 {
            for own in limits {
                self.spans.push(PartSpan::of(own))?;
            }
        } else {
            widen(&mut self.spans, limits);
        }
        self.count = self.count.saturating_add(1);
        Ok(())
    }

    /// In how many measures the states differ, of the first `most` ones of each part.
    fn differing(&self, most: usize) -> usize {
        let mut count: usize = 0;
        for span in &self.spans {
            for index in 0..most {
                if span.differs(index) {
                    count = count.saturating_add(1);
                }
            }
        }
        count
    }

    /// Returns how many measures of each part have room in rows.
    fn most_measures(&self) -> usize {
        for most in 1..MEASURES {
            if self.differing(most.saturating_add(1)) >= WIDTH {
                return most;
            }
        }
        MEASURES
    }

    /// The measures in which the states differ, as many as a row has room for.
    fn measures(&self, alloc: Global) -> Result<Vec<Measure>, AllocError> {
        let mut measures = Vec::new(alloc);
        let most = self.most_measures();
        for span in &self.spans {
            let part_index = span.limits.part_index;
            for index in 0..most {
                if span.differs(index) && measures.len() < WIDTH - 1 {
                    measures.push(Measure { part_index, index })?;
                }
            }
        }
        Ok(measures)
    }
}

impl Rows {
    /// No rows yet.
    pub fn of(alloc: Global, spread: &Spread) -> Result<Self, AllocError> {
        let measures = spread.measures(alloc)?;
        let width = measures.len().saturating_add(1);
        let word_count = spread.count.saturating_mul(width);
        Ok(Rows {
            common: Vec::from_slice(alloc, &spread.spans)?,
            measures,
            stored: Vec::with_capacity(alloc, spread.count)?,
            words: Vec::with_capacity(alloc, word_count)?,
        })
    }

    /// Adds the row of a stored state with these limits.
    pub fn add(&mut self, index: u32, limits: &[PartLimits]) -> Result<(), AllocError> {
        let mut row = [0; WIDTH];
        row[0] = !u64::from(index);
        put_measured(&mut row, &self.measures, limits);
        let width = self.measures.len().saturating_add(1);
        self.words
            .extend_from_slice(row.get(..width).unwrap_or(&[]))?;
        self.stored.push(index)?;
        Ok(())
    }
}

/// Puts the measures of limits into a row, after its first word.
pub fn put_measured(row: &mut [u64; WIDTH], measures: &[Measure], limits: &[PartLimits]) {
    let mut rest = limits;
    let mut column: usize = 1;
    for measure in measures {
        rest = from_part(rest, measure.part_index);
        if let Some(word) = row.get_mut(column) {
            *word = measured(rest, *measure);
        }
        column = column.saturating_add(1);
    }
}
