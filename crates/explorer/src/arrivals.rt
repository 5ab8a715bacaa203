//! A path arrives at a state: what is forgotten of it, and whether a stored state covers it.

ghost use Rattle.std.specs.Prelude.{◌≡◌, ◌⊎◌, None, false, IsTrue, IfOk, IfErr, IfSome, OnOk};
ghost use Rattle.control_flow.specs.Flows.{IsJoin};
ghost use Rattle.walks.specs.Forgetting.{IsForgotten, Forgets};
ghost use Rattle.explorer.specs.Search.{Arrives, RefusesArrival, precision_in};

use crate::long_searches::forget_by;
use crate::moves::{Move, NO_MEMORY, Refused};
use crate::stored_states::StoredStates;
use control_flow::{Flow, KeptNumbers};
use kept_states::Kept;
use stack_state::State;
use std::alloc::{AllocError, Global};
use walks::{Refusal, forget_all, kept_slots, may_forget_all};

/// Forgets what does not matter of a state at which a path arrives next. If several states of its
/// slot are finished, and none covers it, that may be all numbers: what arrives later is then
/// likely to be covered. Returns whether it was.
pub fn forget_at(
    alloc: Global,
    flow: &Flow<'_>,
    states: &mut StoredStates,
    kept: &Option<KeptNumbers>,
    has_called: bool,
    state: &mut State,
    scratch: &mut State,
) -> Result<bool, AllocError>
    ensures forgets { OnOk result
        (Forgets (precision_in kept.now) flow.now state.old state.new) }
    ensures same { states.new.states.items ≡ states.old.states.items }
    ensures callers { has_called ≡ false → state.new.callers ≡ state.old.callers }
{
    forget_by(flow, kept, has_called, state);
    if !states.is_settled(state.slot) || !may_forget_all(flow, state) {
        return Ok(false);
    }
    states.take_up(alloc, state, &None, kept_slots(flow, state.slot))?;
    let is_plain = states.cover_of(state, scratch).is_none();
    if is_plain {
        forget_all(flow, state);
    }
    Ok(is_plain)
}

/// A path arrives at a state. If the state was kept already and is to be stored, the kept one is
/// taken; if not, it may share with the state that became pending last.
pub fn arrive(
    alloc: Global,
    flow: &Flow<'_>,
    states: &mut StoredStates,
    state: &State,
    kept: &mut Option<Kept>,
    pending: Option<&Kept>,
    scratch: &mut State,
) -> Result<Move, Refused>
    requires kept { IfSome kept.old (λ s. s ≡ state.now) }
    requires forgotten { kept.old ≡ None → IsForgotten flow.now state.now }
    ensures arrives { IfOk result (λ made. Arrives flow.now states.old.states.items
        state.now made states.new.states.items) }
    ensures limits { IfOk result (λ made. made ≡ Move.New None → IsJoin flow.now state.now.slot
        → IsTrue states.new.is_over ⊎ IsTrue states.new.is_full) }
    ensures refused { IfErr result (λ r. RefusesArrival flow.now states.old.states.items
        state.now r.0 r.1) }
{
    if !flow.is_join(state.slot) || states.is_over {
        return Ok(Move::New(None));
    }
    let mask = kept_slots(flow, state.slot);
    let Ok(()) = states.take_up(alloc, state, kept, mask) else {
        return Err(NO_MEMORY);
    };
    if let Some((index, number)) = states.cover_of(state, scratch) {
        return Ok(Move::Covered(index, number));
    }
    if states.repeats(state, scratch) {
        return Err((Refusal::Repeats, state.slot));
    }
    if states.is_full {
        return Ok(Move::New(None));
    }
    match states.store(alloc, state, kept, pending) {
        Ok(index) => Ok(Move::New(Some(index))),
        Err(_) => Err(NO_MEMORY),
    }
}
