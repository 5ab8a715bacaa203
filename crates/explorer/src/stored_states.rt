//! The states that were met at joins.

ghost use Rattle.std.specs.Prelude.{◌≡◌, ℕ, ◌<◌, ◌++◌, ◌∷◌, [], Some, None, length, IsTrue, IfSome, IfOk, OnOk, OnErr};
ghost use Rattle.stack_state.specs.declared.states.State.{State as TheState};
ghost use Rattle.state_index.specs.Parts.{AreBlankBeside, AreParts};
ghost use Rattle.state_index.specs.Rooms.{HasShapeRoom};
ghost use Rattle.explorer.specs.StoredStates.{IsStored, IsCovered, IsRepeated, StoredAt, GetsNumber};

use crate::look_ups::{Found, Scan};
use crate::state_trees::tree_of;
use crate::stored_forms::stored_form;
use control_flow::SlotMask;
use kept_states::{FEW, Kept, Other, Others, PLACES};
use stack_state::State;
use state_cover::covers;
use state_index::{Effort, Key, LONG_SCAN, OwnShape, StateIndex};
use std::alloc::{AllocError, Global};
use walks::SearchLimit;

/// A state that was met at a join, with its number: 0 until it is finished.
#[derive(Drop)]
pub struct StoredState {
    pub state: Kept,
    pub number: u32,
}

/// Says how many words of 8 bytes the stored states may take, shared ones not counted.
const MOST_WORDS: u64 = 15_000_000;

/// Says how many words a state takes in a tree.
const TREE_WORDS: u32 = 43;

/// After how many finished states of a slot more are likely to come.
const SETTLED: u8 = 2;

/// Says how often the parts of callers are read where a path arrives at a state: they are looked
/// up, compared with those that were kept last, twice if a jump leads there, and restored.
const CALLER_READINGS: usize = 4;

/// The stored states, in the order in which they were met.
#[derive(Drop)]
pub struct StoredStates {
    pub states: Vec<StoredState>,
    index: StateIndex,
    /// The key of the state that is looked up.
    key: Key,
    /// The longest scan when a state was looked for last.
    longest: Scan,
    /// The shape of the state that was looked for last, if it was met.
    own: Option<OwnShape>,
    /// Says what looking up has cost.
    effort: Effort,
    /// Says whether the limit of that cost is reached: then no state is looked up or stored any
    /// more.
    pub is_over: bool,
    /// Says how many words the states take.
    words: u64,
    /// Says whether the limit of these words is reached: then no other state is stored.
    pub is_full: bool,
    /// Says how many states of each slot are finished, up to `SETTLED`.
    finished_at: Vec<u8>,
}

/// The state that was stored last.
fn last_of(states: &[StoredState]) -> Option<&Kept> {
    match states.last() {
        Some(last) => Some(&last.state),
        None => None,
    }
}

impl StoredStates {
    /// No states yet, for code of this number of slots.
    pub fn new(alloc: Global, slots: usize) -> Result<Self, AllocError>
        ensures empty { IfOk result (λ stored. stored.states.items ≡ []) }
        ensures room { IfOk result (λ stored. HasShapeRoom stored.index slots) }
    {
        let index = StateIndex::new(alloc, slots)?;
        let key = Key::new(alloc)?;
        Ok(StoredStates {
            states: Vec::new(alloc),
            index,
            key,
            longest: Scan { known: 0, count: 0 },
            own: None,
            effort: Effort::new(),
            is_over: false,
            words: 0,
            is_full: false,
            finished_at: vec![in alloc; 0u8; slots]?,
        })
    }

    /// Drops the states. What these took and what looking them up has cost counts.
    pub fn begin_anew(&mut self, alloc: Global, slots: usize) -> Result<(), AllocError>
        ensures empty { OnOk result (self.new.states.items ≡ []) }
    {
        let (effort, words) = (self.effort, self.words);
        *self = StoredStates::new(alloc, slots)?;
        self.effort = effort;
        self.words = words;
        Ok(())
    }

    /// Returns whether so many states of a slot are finished that others are likely to come.
    pub fn is_settled(&self, slot: usize) -> bool {
        match self.finished_at.get(slot) {
            Some(count) => *count == SETTLED,
            None => false,
        }
    }

    /// The limit that is reached, if one is.
    pub fn limit(&self) -> Option<SearchLimit> {
        if self.is_over {
            Some(SearchLimit::Comparisons)
        } else if self.is_full {
            Some(SearchLimit::StoredWords)
        } else {
            None
        }
    }

    /// The state that was stored last.
    pub fn last(&self) -> Option<&Kept> {
        last_of(self.states.as_slice())
    }

    /// Makes a tree of the finished states in which this is known.
    fn add_tree(&mut self, alloc: Global, known: u64) -> Result<(), AllocError>
        ensures { self.new.states.items ≡ self.old.states.items }
    {
        let (indexes, left) = self.index.tree_candidates(alloc, known, &mut self.effort)?;
        self.effort.spend_tree(indexes.len(), self.key.limits.len());
        if self.effort.is_over() {
            return Ok(());
        }
        let tree = tree_of(alloc, &self.states, &indexes)?;
        self.index.add_tree(known, left, tree)
    }

    /// Takes a state to be looked up and stored next. It may have been kept already; if not,
    /// something may be known only of these stack slots of its innermost call frame.
    pub fn take_up(
        &mut self,
        alloc: Global,
        state: &State,
        kept: &Option<Kept>,
        stack_slots: SlotMask,
    ) -> Result<(), AllocError>
        requires { kept.now ≡ None
            → AreBlankBeside stack_slots state.now.innermost.stack.slots }
        ensures same { self.new.states.items ≡ self.old.states.items }
        ensures drawn { OnOk result (kept.now ≡ None
            → AreParts self.new.key.parts.items state.now.innermost) }
    {
        let longest = self.longest;
        if longest.count >= LONG_SCAN
            && self.index.note_scan(alloc, longest.known, longest.count)?
        {
            self.add_tree(alloc, longest.known)?;
        }
        self.own = None;
        self.is_over = self.effort.is_over();
        self.key.is_sought = !self.is_over;
        let caller_parts = state.callers.as_slice().len().saturating_mul(PLACES);
        self.effort
            .spend(caller_parts.saturating_mul(CALLER_READINGS));
        self.key.has_limits = self.index.has_trees();
        match kept {
            None => self.key.take(state, stack_slots),
            Some(kept) => kept.put_key(state, &mut self.key),
        }
    }

    /// The number of a stored state, if it is finished and covers the state.
    fn covering(
        &self,
        index: usize,
        state: &State,
        scratch: &mut State,
        effort: &mut Effort,
    ) -> Option<u32>
        ensures covered { IfSome result (λ n. IsCovered self.now.states.items index state.now n) }
        ensures equal { (n : ℕ) → IsStored self.now.states.items index state.now n → 0 < n
            → result ≡ Some n }
    {
        let stored = self.states.get(index)?;
        if stored.number == 0 || !stored.state.may_cover(state) {
            return None;
        }
        effort.spend(stored.state.part_count());
        stored.state.restore(scratch);
        if !covers(scratch, state) {
            return None;
        }
        Some(stored.number)
    }

    /// The first finished state that covers this one, of those in which this is known, if it was
    /// stored before another one: its index and its number. And how many were scanned.
    fn first_known(
        &self,
        known: u64,
        other: Option<(usize, u32)>,
        state: &State,
        scratch: &mut State,
        effort: &mut Effort,
    ) -> (Option<(usize, u32)>, usize)
        ensures { IfSome result.0 (λ r. IsCovered self.now.states.items r.0 state.now r.1) }
    {
        let mut found = None;
        let mut before = match other {
            Some((index, _)) => index,
            None => usize::MAX,
        };
        effort.spend_test();
        let mut candidates = self.index.finished_candidates(known, &self.key.limits);
        for scanned in 0..self.states.len() {
            let next = match effort.is_over() {
                true => None,
                false => candidates.next_before(before, effort),
            };
            let Some(index) = next else {
                return (found, scanned);
            };
            if let Some(number) = self.covering(index, state, scratch, effort) {
                found = Some((index, number));
                before = index;
            }
        }
        (found, self.states.len())
    }

    /// Looks for the first finished state that covers this one.
    fn first_covering(&self, state: &State, scratch: &mut State, effort: &mut Effort) -> Found
        ensures { IfSome result.first
            (λ r. IsCovered self.now.states.items r.0 state.now r.1) }
    {
        let mut first = None;
        let mut longest = Scan { known: 0, count: 0 };
        let mut own = None;
        let mut tried: usize = 1;
        for shape in self.index.shapes_at(state.slot) {
            tried = tried.saturating_add(1);
            if let Some(known) = self.index.known_in(shape, &self.key, effort) {
                let (found, count) = self.first_known(known.print, first, state, scratch, effort);
                if let Some(found) = found {
                    first = Some(found);
                }
                if count > longest.count {
                    longest = Scan {
                        known: known.print,
                        count,
                    };
                }
                own = known.own_after(own, tried);
            }
        }
        Found {
            first,
            longest,
            own,
        }
    }

    /// The first finished state that covers this one: its index and its number.
    pub fn cover_of(&mut self, state: &State, scratch: &mut State) -> Option<(usize, u32)>
        ensures covered { IfSome result
            (λ r. IsCovered self.old.states.items r.0 state.now r.1) }
        ensures same { self.new.states.items ≡ self.old.states.items }
        ensures drawn { self.new.key ≡ self.old.key }
    {
        let mut effort = self.effort;
        if effort.is_over() {
            return None;
        }
        let found = self.first_covering(state, scratch, &mut effort);
        self.longest = found.longest;
        self.own = found.own;
        self.effort = effort;
        found.first
    }

    /// Returns whether a stored state is unfinished and equal to the state.
    fn is_equal(
        &self,
        index: usize,
        state: &State,
        scratch: &mut State,
        effort: &mut Effort,
    ) -> bool
        ensures repeated { IsTrue result → IsRepeated self.now.states.items state.now }
        ensures equal { IsStored self.now.states.items index state.now 0 → IsTrue result }
    {
        let Some(stored) = self.states.get(index) else {
            return false;
        };
        if stored.number != 0 {
            return false;
        }
        effort.spend(stored.state.part_count());
        stored.state.restore(scratch);
        if !covers(scratch, state) {
            return false;
        }
        covers(state, scratch)
    }

    /// Returns whether an unfinished state is equal to this one: each covers the other.
    pub fn repeats(&mut self, state: &State, scratch: &mut State) -> bool
        ensures repeated { IsTrue result → IsRepeated self.old.states.items state.now }
        ensures same { self.new.states.items ≡ self.old.states.items }
        ensures drawn { self.new.key ≡ self.old.key }
    {
        let mut effort = self.effort;
        let repeats = self.is_repeated(state, scratch, &mut effort);
        self.effort = effort;
        repeats
    }

    /// Returns whether an unfinished state is equal to this one, as long as looking up may cost
    /// more.
    fn is_repeated(&self, state: &State, scratch: &mut State, effort: &mut Effort) -> bool
        ensures { IsTrue result → IsRepeated self.now.states.items state.now }
    {
        let fingerprint = self.key.fingerprints.whole;
        for index in self.index.unfinished_candidates(fingerprint) {
            if effort.is_over() {
                return false;
            }
            effort.spend_test();
            if self.index.has_fingerprint(index, fingerprint)
                && self.is_equal(index, state, scratch, effort)
            {
                return true;
            }
        }
        false
    }

    /// Stores the state that was taken, and returns its index. If the state was kept before, the
    /// kept one is stored; if not, it may share with the state that became pending last.
    pub fn store(
        &mut self,
        alloc: Global,
        state: &State,
        kept: &mut Option<Kept>,
        pending: Option<&Kept>,
    ) -> Result<usize, AllocError>
        requires drawn { kept.old ≡ None
            → AreParts self.old.key.parts.items state.now.innermost }
        requires kept { IfSome kept.old (λ s. s ≡ state.now) }
        ensures index { IfOk result (λ k. k ≡ length self.old.states.items) }
        ensures stored { IfOk result (λ _. self.new.states.items
            ≡ self.old.states.items ++ record { state = state.now; number = 0 } ∷ []) }
        ensures err { OnErr result (self.new.states.items ≡ self.old.states.items) }
    {
        let index = self.states.len();
        if self.key.is_sought {
            self.index
                .add(alloc, state.slot, &self.key, self.own, &mut self.effort)?;
        }
        let others = Others {
            first: Other::of(last_of(&self.states)),
            second: Other::of(pending),
            most: FEW,
        };
        let state = stored_form(alloc, state, kept.take(), &mut self.key.parts, others)?;
        let words = match self.index.has_trees() {
            true => state.words().saturating_add(TREE_WORDS),
            false => state.words(),
        };
        self.words = self.words.saturating_add(u64::from(words));
        self.is_full = self.words >= MOST_WORDS;
        self.states.push(StoredState { state, number: 0 })?;
        Ok(index)
    }

    /// Gives a state that was stored its number.
    pub fn finish(&mut self, stored: Option<usize>, number: u32)
        requires { (s : TheState) × StoredAt self.old.states.items stored s }
        ensures { GetsNumber self.old.states.items stored number self.new.states.items }
    {
        if let Some(index) = stored {
            let state = &mut self.states[index];
            state.number = number;
            self.index.finish(index);
            if let Some(count) = self.finished_at.get_mut(state.state.slot()) {
                *count = SETTLED.min(count.saturating_add(1));
            }
        }
    }
}
