//! Which pending state of a slot of the code is the last one.

use std::alloc::{AllocError, Global};

/// For each slot of the code the last pending state that is there. What is forgotten of a state
/// depends on its slot, so that it has the most in common with that one.
#[derive(Drop)]
pub struct LatestPending {
    /// Of each slot the index of that state, and 1 more; 0 if none is pending there.
    at: Vec<u32>,
    /// Of each pending state the entry that its slot had in `at` before.
    before: Vec<u32>,
}

impl LatestPending {
    /// Nothing is pending.
    pub fn new(alloc: Global) -> Self {
        LatestPending {
            at: Vec::new(alloc),
            before: Vec::new(alloc),
        }
    }

    /// The index of the last pending state at the slot, if there is one.
    #[inline(always)]
    pub fn index_at(&self, slot: usize) -> Option<usize> {
        let index = *self.at.get(slot)?;
        match index.checked_sub(1) {
            Some(index) => Some(index as usize),
            None => None,
        }
    }

    /// A state at the slot becomes pending, after this many others.
    pub fn push(&mut self, slot: usize, count: usize) -> Result<(), AllocError> {
        for _slot in self.at.len()..slot.saturating_add(1) {
            self.at.push(0)?;
        }
        let Ok(count) = u32::try_from(count) else {
            return Err(AllocError);
        };
        let Some(index) = self.at.get_mut(slot) else {
            return Ok(());
        };
        self.before.push(*index)?;
        *index = count.saturating_add(1);
        Ok(())
    }

    /// The state that became pending last, which is at the slot, is taken.
    #[inline(always)]
    pub fn pop(&mut self, slot: usize) {
        let Some(before) = self.before.pop() else {
            return;
        };
        if let Some(index) = self.at.get_mut(slot) {
            *index = before;
        }
    }
}
