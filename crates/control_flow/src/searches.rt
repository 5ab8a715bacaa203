//! Searches through slots.

ghost use Rattle.std.specs.Prelude.{◌≡◌, ◌<◌, ℕ, Some, length, OnOk, IfOk, replicate, false, []};

use std::alloc::{AllocError, Global};

/// A search as far as it has come: the slots that were found, and those of them from which it has
/// not gone on yet.
#[derive(Drop)]
pub struct SlotSearch {
    pub found: Vec<bool>,
    pub frontier: Vec<usize>,
}

impl SlotSearch {
    ghost use Rattle.control_flow.specs.Searches.{Extends, HasAll};

    /// A search in code of this number of slots, which has found nothing.
    pub fn new(alloc: Global, slots: usize) -> Result<Self, AllocError>
        ensures found { IfOk result (λ search. search.found.items ≡ replicate slots false) }
        ensures frontier { IfOk result (λ search. search.frontier.items ≡ []) }
    {
        Ok(SlotSearch {
            found: vec![in alloc; false; slots]?,
            frontier: Vec::with_capacity(alloc, slots)?,
        })
    }

    /// A search in code of this number of slots, which has found all of them, the last one on top.
    pub fn of_all(alloc: Global, slots: usize) -> Result<Self, AllocError>
        ensures { IfOk result (λ search. HasAll slots search.found.items search.frontier.items) }
    {
        let mut frontier = Vec::with_capacity(alloc, slots)?;
        for slot in 0..slots {
            frontier.push(slot)?;
        }
        Ok(SlotSearch {
            found: vec![in alloc; true; slots]?,
            frontier,
        })
    }

    /// Finds a slot, if there is one.
    pub fn find(&mut self, slot: Option<usize>) -> Result<(), AllocError>
        requires { (k : ℕ) → slot ≡ Some k → k < length self.old.found.items }
        ensures { OnOk result (Extends (λ k. slot ≡ Some k)
            self.old.found.items self.old.frontier.items
            self.new.found.items self.new.frontier.items) }
    {
        if let Some(slot) = slot {
            if !self.found[slot] {
                self.found[slot] = true;
                self.frontier.push(slot)?;
            }
        }
        Ok(())
    }
}
