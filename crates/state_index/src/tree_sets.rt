//! Sets of trees: each has the trees of the finished states of one shape in which the same is
//! known.
//!
//! A set is made where many states were scanned in vain.

use crate::buckets::{NO_LINK, bucket_of, link_to};
use crate::trees::Tree;
use std::alloc::{AllocError, Global};

/// Stored states scanned one by one before they are put into a tree.
pub const LONG_SCAN: usize = 32;

/// Says how often the states without a tree are scanned before they are put into one.
const SCANS: usize = 16;

/// Says how many buckets of sets there are at first.
const BUCKETS: usize = 16;

/// The trees of the finished states of a shape in which the same is known.
#[derive(Drop)]
struct TreeSet {
    known: u64,
    /// The next one of its bucket.
    next: u32,
    /// The larger trees first. While there are no trees, the states are in a bucket of the index.
    trees: Vec<Tree>,
    /// The states that are in no tree yet, once there is one, and how many they are.
    unplaced: u32,
    unplaced_count: usize,
    /// Says how many states were scanned since the last tree was made.
    scanned: usize,
}

impl TreeSet {
    /// Puts a tree after the first `left` of the others: no stored state is without one then.
    fn add(&mut self, left: usize, tree: Tree) -> Result<(), AllocError> {
        self.unplaced = NO_LINK;
        self.unplaced_count = 0;
        self.scanned = 0;
        self.trees.truncate(left);
        self.trees.push(tree)?;
        Ok(())
    }
}

/// All sets of trees.
#[derive(Drop)]
pub struct TreeSets {
    sets: Vec<TreeSet>,
    /// By what is known; their number is a power of two.
    buckets: Vec<u32>,
}

impl TreeSets {
    /// No sets yet.
    pub fn new(alloc: Global) -> Self {
        TreeSets {
            sets: Vec::new(alloc),
            buckets: Vec::new(alloc),
        }
    }

    /// Returns whether there are no sets.
    pub fn is_empty(&self) -> bool {
        self.sets.is_empty()
    }

    /// The index of the set in which this is known.
    fn find(&self, known: u64) -> Option<usize> {
        let Some(first) = self.buckets.get(bucket_of(known, self.buckets.len())) else {
            return None;
        };
        let mut next = *first;
        for _tried in 0..self.sets.len() {
            let index = next as usize;
            let Some(set) = self.sets.get(index) else {
                return None;
            };
            if set.known == known {
                return Some(index);
            }
            next = set.next;
        }
        None
    }

    fn set_mut(&mut self, known: u64) -> Option<&mut TreeSet> {
        let index = self.find(known)?;
        self.sets.get_mut(index)
    }

    /// The trees of what is known, and the states that are in none of them.
    pub fn trees(&self, known: u64) -> (&[Tree], u32) {
        let set = match self.find(known) {
            Some(index) => self.sets.get(index),
            None => None,
        };
        match set {
            Some(set) => (&set.trees, set.unplaced),
            None => (&[], NO_LINK),
        }
    }

    /// Adds a finished stored state in which this is known to its set, if that has trees; returns
    /// the unplaced stored state after it.
    pub fn add_unplaced(&mut self, known: u64, index: usize) -> Option<u32> {
        let set = self.set_mut(known)?;
        if set.trees.is_empty() {
            return None;
        }
        let next = set.unplaced;
        set.unplaced = link_to(index);
        set.unplaced_count = set.unplaced_count.saturating_add(1);
        Some(next)
    }

    /// Notes that states were scanned, and returns whether a tree is to be made.
    pub fn note_scan(
        &mut self,
        alloc: Global,
        known: u64,
        count: usize,
    ) -> Result<bool, AllocError> {
        if self.find(known).is_none() {
            self.add(alloc, known)?;
        }
        let Some(set) = self.set_mut(known) else {
            return Ok(false);
        };
        set.scanned = set.scanned.saturating_add(count);
        let unplaced_count = match set.trees.is_empty() {
            true => count,
            false => set.unplaced_count,
        };
        Ok(unplaced_count >= LONG_SCAN && set.scanned / SCANS >= unplaced_count)
    }

    fn add(&mut self, alloc: Global, known: u64) -> Result<(), AllocError> {
        self.add_buckets(alloc)?;
        let set_index = self.sets.len();
        self.sets.push(TreeSet {
            known,
            next: NO_LINK,
            trees: Vec::new(alloc),
            unplaced: NO_LINK,
            unplaced_count: 0,
            scanned: 0,
        })?;
        self.file(set_index);
        Ok(())
    }

    /// Puts a set into its bucket.
    fn file(&mut self, set_index: usize) {
        if let Some(set) = self.sets.get_mut(set_index) {
            let bucket = bucket_of(set.known, self.buckets.len());
            if let Some(first) = self.buckets.get_mut(bucket) {
                set.next = *first;
                *first = link_to(set_index);
            }
        }
    }

    /// Puts the sets into more buckets, if there are too many for these.
    fn add_buckets(&mut self, alloc: Global) -> Result<(), AllocError> {
        if self.sets.len() < self.buckets.len() {
            return Ok(());
        }
        let bucket_count = self.buckets.len().saturating_mul(2).max(BUCKETS);
        self.buckets = vec![in alloc; NO_LINK; bucket_count]?;
        for set_index in 0..self.sets.len() {
            self.file(set_index);
        }
        Ok(())
    }

    /// Merges states in which this is known with those of the smallest trees, three trees at a
    /// time, while these are not much larger; returns how many trees are left.
    pub fn gather(&self, known: u64, indexes: &mut Vec<u32>) -> Result<usize, AllocError> {
        let (trees, _) = self.trees(known);
        let mut left = trees.len();
        for three in trees.rchunks_exact(3) {
            match three.first() {
                Some(tree) if tree.indexes().len() / 2 <= indexes.len() => {}
                _ => break,
            }
            for tree in three {
                indexes.extend_from_slice(tree.indexes())?;
            }
            left = left.saturating_sub(3);
        }
        Ok(left)
    }

    /// Puts a tree after the first `left` of the others: no stored state is without one then.
    pub fn add_tree(&mut self, known: u64, left: usize, tree: Tree) -> Result<(), AllocError> {
        match self.set_mut(known) {
            Some(set) => set.add(left, tree),
            None => Ok(()),
        }
    }
}
