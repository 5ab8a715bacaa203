//! Iterators over shapes, and over the stored states that are proposed.

ghost use Rattle.std.specs.Iterator.{at_most};

use crate::buckets::StateLink;
use crate::efforts::Effort;
use crate::limits::PartLimits;
use crate::shapes::ShapeLink;
use crate::trees::{Sought, Tree};

/// The shapes of a slot.
#[derive(Drop)]
pub struct ShapesAt<'a> {
    pub shapes: &'a [ShapeLink],
    pub next: u32,
    pub left: usize,
}

impl<'a> Iterator for ShapesAt<'a> {
    type Item = usize;

    ghost remaining = { λ shapes. at_most shapes.left };

    fn next(&mut self) -> Option<usize> {
        if self.left == 0 {
            return None;
        }
        let index = self.next as usize;
        self.next = self.shapes.get(index)?.next;
        self.left -= 1;
        Some(index)
    }
}

/// Unfinished states of a bucket that may be equal to a state: all that are equal to it are among
/// them.
#[derive(Drop)]
pub struct UnfinishedCandidates<'a> {
    pub links: &'a [StateLink],
    pub next: u32,
    pub left: usize,
}

impl<'a> Iterator for UnfinishedCandidates<'a> {
    type Item = usize;

    ghost remaining = { λ candidates. at_most candidates.left };

    fn next(&mut self) -> Option<usize> {
        if self.left == 0 {
            return None;
        }
        let index = self.next as usize;
        self.next = self.links.get(index)?.next;
        self.left -= 1;
        Some(index)
    }
}

/// Finished states that may cover a state: all that do are among them.
#[derive(Drop)]
pub struct FinishedCandidates<'a> {
    pub links: &'a [StateLink],
    /// Says what is known of the state, as `StateLink::known` says it.
    pub known: u64,
    pub limits: &'a [PartLimits],
    pub trees: &'a [Tree],
    /// A row of the first tree's lowest level, and what is sought there once it is known.
    pub row_index: usize,
    pub sought: Option<Sought>,
    /// The stored state to look at after the trees: of a bucket, or of those that are in no tree.
    pub next: u32,
    /// Says whether the states of the bucket are in the order in which they were stored.
    pub is_ordered: bool,
}

impl<'a> FinishedCandidates<'a> {
    /// The next stored state that was stored before the one with this index.
    pub fn next_before(&mut self, before: usize, effort: &mut Effort) -> Option<usize> {
        for _tree in 0..self.trees.len() {
            let [tree, others @ ..] = self.trees else {
                break;
            };
            match self.next_in(tree, before, effort) {
                Some(index) => return Some(index),
                None => {
                    self.trees = others;
                    self.row_index = 0;
                    self.sought = None;
                }
            }
        }
        self.next_in_bucket(before, effort)
    }

    /// The next stored state of the first tree.
    fn next_in(&mut self, tree: &Tree, before: usize, effort: &mut Effort) -> Option<usize> {
        if self.sought.is_none() {
            self.sought = tree.sought(self.limits);
        }
        let Some(sought) = &mut self.sought else {
            return None;
        };
        let Some(last) = before.checked_sub(1) else {
            return None;
        };
        sought[0] = !(last as u64);
        let Some(row_index) = tree.next_from(self.row_index, sought, effort) else {
            return None;
        };
        self.row_index = row_index.saturating_add(1);
        tree.index_at(row_index)
    }

    /// The next stored state of the bucket.
    pub(crate) fn next_in_bucket(&mut self, before: usize, effort: &mut Effort) -> Option<usize> {
        for _tried in 0..self.links.len() {
            let index = self.next as usize;
            if self.is_ordered && index >= before {
                break;
            }
            effort.spend_test();
            let link = self.links.get(index)?;
            self.next = link.next;
            if index < before && link.known == self.known {
                return Some(index);
            }
        }
        None
    }
}
