//! The index of the stored states.

ghost use Rattle.std.specs.Prelude.{IfOk};
ghost use Rattle.state_index.specs.Rooms.{HasShapeRoom};

use crate::buckets::{
    FinishedBucket, NO_FINISHED, NO_LINK, NO_UNFINISHED, Stage, StateLink, UnfinishedBucket,
    bucket_of, bucket_with, link_to, mark_of, replace_next,
};
use crate::candidates::{FinishedCandidates, ShapesAt, UnfinishedCandidates};
use crate::efforts::Effort;
use crate::keys::Key;
use crate::limits::PartLimits;
use crate::parts::Part;
use crate::shapes::{KnownIn, OwnShape, Shape, ShapeLink};
use crate::tree_sets::TreeSets;
use crate::trees::Tree;
use std::alloc::{AllocError, Global};

/// Says how many buckets there are at first, for the finished states and for the unfinished ones:
/// always a power of two, and at least half as many as the states in them.
const BUCKETS: usize = 64;

/// Says how many shapes a slot has at most, but for the last one, which knows nothing.
const SHAPES: usize = 256;

/// An index of stored states, which are known by their indexes: 0, 1, .. in the order in which they
/// were added.
#[derive(Drop)]
pub struct StateIndex {
    links: Vec<StateLink>,
    shapes: Vec<ShapeLink>,
    /// By slot, the first of its shapes.
    first_shapes: Vec<u32>,
    /// By shape and what is known in it.
    finished: Vec<FinishedBucket>,
    finished_count: usize,
    /// By fingerprint.
    unfinished: Vec<UnfinishedBucket>,
    unfinished_count: usize,
    tree_sets: TreeSets,
}

impl StateIndex {
    /// An empty index, for code of this number of slots.
    pub fn new(alloc: Global, slots: usize) -> Result<Self, AllocError>
        ensures room { IfOk result (λ index. HasShapeRoom index slots) }
    {
        let first_shapes = vec![in alloc; NO_LINK; slots]?;
        let finished = vec![in alloc; NO_FINISHED; BUCKETS]?;
        let unfinished = vec![in alloc; NO_UNFINISHED; BUCKETS]?;
        Ok(StateIndex {
            links: Vec::new(alloc),
            shapes: Vec::new(alloc),
            first_shapes,
            finished,
            finished_count: 0,
            unfinished,
            unfinished_count: 0,
            tree_sets: TreeSets::new(alloc),
        })
    }

    /// The shapes that the stored states of a slot have.
    pub fn shapes_at(&self, slot: usize) -> ShapesAt<'_> {
        ShapesAt {
            shapes: &self.shapes,
            next: self.first_shape(slot),
            left: self.shapes.len(),
        }
    }

    /// Returns what is known of a state in a shape, if that is all that the shape knows.
    pub fn known_in(&self, shape: usize, key: &Key, effort: &mut Effort) -> Option<KnownIn> {
        effort.spend_look_up(key.parts.len());
        let link = self.shapes.get(shape)?;
        link.shape.known_of(shape, key)
    }

    /// The finished states in which this is known that may cover a state with these limits.
    pub fn finished_candidates<'a>(
        &'a self,
        known: u64,
        limits: &'a [PartLimits],
    ) -> FinishedCandidates<'a> {
        let (trees, unplaced) = self.tree_sets.trees(known);
        let is_ordered = trees.is_empty();
        let next = match is_ordered {
            true => bucket_with(&self.finished, known).first,
            false => unplaced,
        };
        FinishedCandidates {
            links: &self.links,
            known,
            limits,
            trees,
            row_index: 0,
            sought: None,
            next,
            is_ordered,
        }
    }

    /// Returns whether there are states that are found by their limits.
    pub fn has_trees(&self) -> bool {
        !self.tree_sets.is_empty()
    }

    /// Notes that states in which this is known were scanned, and returns whether to make a tree of
    /// them.
    pub fn note_scan(
        &mut self,
        alloc: Global,
        known: u64,
        count: usize,
    ) -> Result<bool, AllocError> {
        self.tree_sets.note_scan(alloc, known, count)
    }

    /// The states that are to be put into a tree, and how many trees of the same set stay.
    pub fn tree_candidates(
        &self,
        alloc: Global,
        known: u64,
        effort: &mut Effort,
    ) -> Result<(Vec<u32>, usize), AllocError> {
        let mut indexes = Vec::new(alloc);
        self.add_unplaced(known, &mut indexes, effort)?;
        let left = self.tree_sets.gather(known, &mut indexes)?;
        Ok((indexes, left))
    }

    /// Appends the finished states in which this is known that are in no tree.
    fn add_unplaced(
        &self,
        known: u64,
        indexes: &mut Vec<u32>,
        effort: &mut Effort,
    ) -> Result<(), AllocError> {
        let mut candidates = self.finished_candidates(known, &[]);
        for _state in 0..self.links.len() {
            let Some(index) = candidates.next_in_bucket(usize::MAX, effort) else {
                break;
            };
            indexes.push(link_to(index))?;
        }
        Ok(())
    }

    /// Adds a tree to a set after the first `left` others: its stored states are found there now.
    pub fn add_tree(&mut self, known: u64, left: usize, tree: Tree) -> Result<(), AllocError> {
        self.note_in_tree(tree.indexes());
        self.tree_sets.add_tree(known, left, tree)
    }

    fn note_in_tree(&mut self, indexes: &[u32]) {
        for index in indexes {
            if let Some(link) = self.links.get_mut(*index as usize) {
                link.stage = Stage::InTree;
            }
        }
    }

    /// Unfinished states, all of the fingerprint among them.
    pub fn unfinished_candidates(&self, fingerprint: u64) -> UnfinishedCandidates<'_> {
        let bucket = bucket_of(fingerprint, self.unfinished.len());
        let next = match self.unfinished.get(bucket) {
            Some(bucket) if bucket.marks & mark_of(fingerprint) != 0 => bucket.first,
            _ => NO_LINK,
        };
        UnfinishedCandidates {
            links: &self.links,
            next,
            left: self.links.len(),
        }
    }

    /// Returns whether a stored state has the fingerprint.
    pub fn has_fingerprint(&self, index: usize, fingerprint: u64) -> bool {
        match self.links.get(index) {
            Some(link) => link.fingerprint == fingerprint,
            None => false,
        }
    }

    /// The index of a state's shape, which is a new one where no stored state of its slot has it.
    fn shape_of(
        &mut self,
        alloc: Global,
        slot: usize,
        key: &Key,
        effort: &mut Effort,
    ) -> Result<usize, AllocError> {
        let mut shape_count = 0usize;
        for index in self.shapes_at(slot) {
            effort.spend_look_up(key.parts.len());
            match self.shapes.get(index) {
                Some(link) if link.shape.is_of(key) => return Ok(index),
                _ => shape_count = shape_count.wrapping_add(1),
            }
        }
        if shape_count < SHAPES {
            self.add_shape(alloc, slot, &key.parts)
        } else if shape_count == SHAPES {
            self.add_shape(alloc, slot, &[])
        } else {
            // the newest one, which knows nothing
            Ok(self.first_shape(slot) as usize)
        }
    }

    fn first_shape(&self, slot: usize) -> u32 {
        self.first_shapes.get(slot).copied().unwrap_or(NO_LINK)
    }

    /// Adds the shape of these parts, and returns its index.
    fn add_shape(
        &mut self,
        alloc: Global,
        slot: usize,
        parts: &[Part],
    ) -> Result<usize, AllocError> {
        let index = self.shapes.len();
        let mut next = NO_LINK;
        if let Some(first) = self.first_shapes.get_mut(slot) {
            next = *first;
            *first = link_to(index);
        }
        let shape = Shape::of(alloc, parts)?;
        self.shapes.push(ShapeLink { shape, next })?;
        Ok(index)
    }

    /// A fingerprint of what a state knows in its own shape, which was met or is sought.
    fn own_known(
        &mut self,
        alloc: Global,
        slot: usize,
        key: &Key,
        own: Option<OwnShape>,
        effort: &mut Effort,
    ) -> Result<u64, AllocError> {
        if let Some(own) = own {
            effort.spend_look_ups(own.tried, key.parts.len());
            return Ok(own.known);
        }
        let shape = self.shape_of(alloc, slot, key, effort)?;
        match self.known_in(shape, key, effort) {
            Some(known) => Ok(known.print),
            None => Ok(0),
        }
    }

    /// Adds a stored state that is unfinished. Its own shape may have been met where it was looked
    /// up.
    pub fn add(
        &mut self,
        alloc: Global,
        slot: usize,
        key: &Key,
        own: Option<OwnShape>,
        effort: &mut Effort,
    ) -> Result<(), AllocError> {
        self.add_buckets(alloc)?;
        let known = self.own_known(alloc, slot, key, own, effort)?;
        let index = self.links.len();
        self.links.push(StateLink {
            fingerprint: key.fingerprints.whole,
            known,
            next: NO_LINK,
            before: NO_LINK,
            stage: Stage::Unfinished,
        })?;
        self.unfinished_count = self.unfinished_count.wrapping_add(1);
        self.file_by_known(index);
        self.file_by_fingerprint(index);
        Ok(())
    }

    /// Puts the finished states into more buckets, if there are too many for these, and so the
    /// unfinished ones.
    fn add_buckets(&mut self, alloc: Global) -> Result<(), AllocError> {
        let buckets = self.finished.len().saturating_mul(2);
        if self.finished_count >= buckets {
            let buckets = buckets.max(self.unfinished.len());
            self.finished = vec![in alloc; NO_FINISHED; buckets]?;
            for index in 0..self.links.len() {
                self.file_by_known(index);
            }
        }
        let buckets = self.unfinished.len().saturating_mul(2);
        if self.unfinished_count >= buckets {
            self.unfinished = vec![in alloc; NO_UNFINISHED; buckets]?;
            for index in 0..self.links.len() {
                self.file_by_fingerprint(index);
            }
        }
        Ok(())
    }

    /// Puts a stored state into its bucket of finished ones, if it belongs there, and else notes
    /// where it would be; all that were stored before it were put there, and those after it were
    /// not.
    fn file_by_known(&mut self, index: usize) {
        let Some(link) = self.links.get_mut(index) else {
            return;
        };
        let known = link.known;
        let before = bucket_with(&self.finished, known).last;
        link.before = before;
        if matches!(link.stage, Stage::Finished) {
            self.put_after(known, before, link_to(index));
        }
    }

    /// Puts a stored state into its bucket of unfinished ones, if it is unfinished; all unfinished
    /// ones that were stored before it were put there, and those after it were not.
    fn file_by_fingerprint(&mut self, index: usize) {
        let Some(link) = self.links.get_mut(index) else {
            return;
        };
        if !matches!(link.stage, Stage::Unfinished) {
            return;
        }
        let bucket = bucket_of(link.fingerprint, self.unfinished.len());
        if let Some(bucket) = self.unfinished.get_mut(bucket) {
            link.next = bucket.first;
            bucket.first = link_to(index);
            bucket.marks |= mark_of(link.fingerprint);
        }
    }

    /// Moves a stored state to the finished ones; all that were stored after it are finished.
    pub fn finish(&mut self, index: usize) {
        let Some(link) = self.links.get_mut(index) else {
            return;
        };
        let bucket = bucket_of(link.fingerprint, self.unfinished.len());
        if let Some(bucket) = self.unfinished.get_mut(bucket) {
            bucket.first = link.next;
            if bucket.first == NO_LINK {
                bucket.marks = 0;
            }
        }
        self.unfinished_count = self.unfinished_count.wrapping_sub(1);
        self.finished_count = self.finished_count.wrapping_add(1);
        let (known, before) = (link.known, link.before);
        match self.tree_sets.add_unplaced(known, index) {
            Some(next) => {
                link.stage = Stage::InTree;
                link.next = next;
            }
            None => {
                link.stage = Stage::Finished;
                self.put_after(known, before, link_to(index));
            }
        }
    }

    /// Makes the stored state the one after another finished one of its bucket, or the first.
    fn put_after(&mut self, known: u64, before: u32, index: u32) {
        let bucket = bucket_of(known, self.finished.len());
        let Some(bucket) = self.finished.get_mut(bucket) else {
            return;
        };
        bucket.marks |= mark_of(known);
        if bucket.last == before {
            bucket.last = index;
        }
        let mut next = bucket.first;
        if before == NO_LINK {
            bucket.first = index;
        } else {
            next = replace_next(&mut self.links, before, index);
        }
        replace_next(&mut self.links, index, next);
    }
}
