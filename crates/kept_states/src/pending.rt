//! The pending states.

ghost use Rattle.std.specs.Prelude.{◌≡◌, ◌++◌, ◌+◌, ◌∷◌, [], None, length, option_to_list, IfOk, OnOk, OnErr};

use crate::changing::{Changing, PendingState};
use crate::groups::FEW;
use crate::kept::{Kept, PLACES};
use crate::latest::LatestPending;
use crate::others::{Other, Others};
use std::alloc::{AllocError, Global};
use std::marker::Model;

/// Says how many states are pending at least where more are kept by what they change.
const MANY: usize = 1000;

/// Pending states. The first ones are kept whole. Of the innermost call frames of others the last
/// one is there in full, and of each one before it what the next one changed.
///
/// Contracts see the states.
#[derive(Drop)]
pub struct PendingStates {
    states: Vec<PendingState>,
    changing: Changing,
    latest: LatestPending,
}

impl Model for PendingStates {
    ghost use Rattle.kept_states.specs.Pending.{States, pending_states};

    ghost Value = { States };

    ghost view = { λ pending. record {
      items = pending_states pending.changing pending.states.items;
    } };
}

/// A pending state as another one, with which a state may share.
fn other_of(state: Option<&PendingState>) -> Other<'_> {
    match state {
        Some(PendingState::Whole(state)) => Other::of(Some(state)),
        Some(PendingState::Changed(state)) => Other::around(&state.around),
        None => Other::of(None),
    }
}

/// The slot of the code at which a state is pending.
fn slot_of(state: &PendingState) -> usize {
    match state {
        PendingState::Whole(state) => state.slot(),
        PendingState::Changed(state) => state.around.slot as usize,
    }
}

impl PendingStates {
    /// Nothing is pending.
    pub fn new(alloc: Global) -> Self
        ensures { result.items ≡ [] }
    {
        PendingStates {
            states: Vec::new(alloc),
            changing: Changing::new(alloc),
            latest: LatestPending::new(alloc),
        }
    }

    /// The state that became pending last, if it is kept whole.
    #[inline(always)]
    pub fn last(&self) -> Option<&Kept> {
        match self.states.last() {
            Some(PendingState::Whole(state)) => Some(state),
            _ => None,
        }
    }

    /// Returns the states with which a state that becomes pending at the slot may share: the last
    /// pending one; and the last one of that slot, or the stored one where that is the same or
    /// there is none.
    #[inline(always)]
    pub fn others_at<'a>(&'a self, slot: usize, stored: Option<&'a Kept>) -> Others<'a> {
        let second = match self.latest.index_at(slot) {
            Some(index) if index.saturating_add(1) < self.states.len() => {
                other_of(self.states.get(index))
            }
            _ => Other::of(stored),
        };
        let most = match self.states.len() < MANY {
            true => FEW,
            false => PLACES,
        };
        Others {
            first: other_of(self.states.last()),
            second,
            most,
        }
    }

    /// Puts a state after the others.
    #[inline(always)]
    pub fn push(&mut self, alloc: Global, state: Kept) -> Result<(), AllocError>
        ensures items { OnOk result (self.new.items ≡ self.old.items ++ state ∷ []) }
        ensures err { OnErr result (length self.new.items ≡ length self.old.items) }
    {
        let count = self.states.len();
        let Ok(()) = self.latest.push(state.slot(), count) else {
            return Err(AllocError);
        };
        let Ok(state) = self.changing.take_in(alloc, state, count < MANY) else {
            return Err(AllocError);
        };
        let Ok(()) = self.states.push(state) else {
            return Err(AllocError);
        };
        Ok(())
    }

    /// Takes the last state.
    #[inline(always)]
    pub fn pop(&mut self, alloc: Global) -> Result<Option<Kept>, AllocError>
        ensures items { IfOk result (λ o. self.old.items ≡ self.new.items ++ option_to_list o) }
        ensures none { IfOk result (λ o. o ≡ None → self.old.items ≡ []) }
        ensures err { OnErr result (length self.old.items ≡ length self.new.items + 1) }
    {
        let Some(state) = self.states.pop() else {
            return Ok(None);
        };
        self.latest.pop(slot_of(&state));
        let Ok(state) = self.changing.take_back(alloc, state) else {
            return Err(AllocError);
        };
        Ok(Some(state))
    }
}
