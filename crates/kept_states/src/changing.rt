//! A pending state by what it changes.

ghost use Rattle.std.specs.Prelude.{◌≡◌, ◌∷◌, List, IfOk, IfSome};
ghost use Rattle.reg_state.specs.declared.kinds.Kind.{Kind as TheKind};
ghost use Rattle.stack_state.specs.declared.states.AbstractFrame.{AbstractFrame as TheFrame};
ghost use Rattle.state_index.specs.declared.parts.Part.{Part as ThePart};
ghost use Rattle.kept_states.specs.declared.changing.PendingState.{PendingState as ThePending};
ghost use Rattle.kept_states.specs.Pending.{states_below, states_from};

use crate::around::Around;
use crate::changes::ChangedFrame;
use crate::held_places::HeldPlaces;
use crate::kept::Kept;
use isa_model::Width;
use reg_state::{Domain, Kind, Scalar};
use stack_state::AbstractFrame;
use state_index::Part;
use std::alloc::{AllocError, Global};

/// A pending state by what it changed: its innermost call frame is the changed one, of which it
/// knows these places.
#[derive(Drop)]
pub struct ChangedState {
    pub around: Around,
    return_slot: u16,
    /// Says how many changes it made.
    count: u16,
    places: HeldPlaces,
}

/// A pending state.
#[derive(Drop)]
pub enum PendingState {
    Whole(Box<Kept>),
    Changed(ChangedState),
}

/// The call frame that pending states change.
#[derive(Drop)]
pub struct Changing {
    changed: ChangedFrame,
    /// Any number.
    any: Kind,
    /// Scratch space for a frame, and for parts.
    scratch: AbstractFrame,
    parts: Vec<Part>,
}

/// Two numbers in 2 bytes each, if they fit.
#[inline(always)]
fn in_two_bytes(first: usize, second: usize) -> Option<(u16, u16)>
    ensures first { IfSome result (λ r. r.0 ≡ first) }
    ensures second { IfSome result (λ r. r.1 ≡ second) }
{
    match (u16::try_from(first), u16::try_from(second)) {
        (Ok(first), Ok(second)) => Some((first, second)),
        _ => None,
    }
}

/// A pending state that is kept whole.
fn kept_whole(alloc: Global, state: Kept) -> Result<PendingState, AllocError>
    ensures { IfOk result (λ p. (any : TheKind) (states : List ThePending)
        (parts : List ThePart) (frame : TheFrame)
        → states_from any (p ∷ states) parts frame
        ≡ state ∷ states_from any states parts frame) }
{
    let state = Box::new(alloc, state)?;
    Ok(PendingState::Whole(state))
}

impl Changing {
    /// A blank frame.
    pub fn new(alloc: Global) -> Self {
        Changing {
            changed: ChangedFrame::new(alloc),
            any: Kind::Number(Scalar::any(Width::Full64)),
            scratch: AbstractFrame::default(),
            parts: Vec::new(alloc),
        }
    }

    /// A state that becomes pending: by what it changes, or whole if that would not give it back.
    #[inline(never)]
    fn keep(&mut self, alloc: Global, state: Kept) -> Result<PendingState, AllocError>
        ensures { IfOk result (λ p. (states : List ThePending)
            → states_below self.new (p ∷ states) ≡ state ∷ states_below self.old states) }
    {
        let return_slot = state.return_slot();
        let mut places = HeldPlaces::none();
        let any = &self.any;
        let (count, is_done) = self.changed.change_all(state.parts(), any, &mut places);
        if !is_done {
            return Err(AllocError);
        }
        places.see(return_slot, any, &self.changed.frame, &mut self.scratch);
        let Some((return_slot, made)) = in_two_bytes(return_slot, count) else {
            self.changed.undo(count);
            let whole = kept_whole(alloc, state)?;
            return Ok(whole);
        };
        match state.into_around(&self.scratch) {
            Ok(around) => Ok(PendingState::Changed(ChangedState {
                around,
                return_slot,
                count: made,
                places,
            })),
            Err(state) => {
                self.changed.undo(count);
                let whole = kept_whole(alloc, state)?;
                Ok(whole)
            }
        }
    }

    /// A state that becomes pending: whole, or by what it changes.
    #[inline(always)]
    pub fn take_in(
        &mut self,
        alloc: Global,
        state: Kept,
        is_whole: bool,
    ) -> Result<PendingState, AllocError>
        ensures { IfOk result (λ p. (states : List ThePending)
            → states_below self.new (p ∷ states) ≡ state ∷ states_below self.old states) }
    {
        match is_whole {
            true => {
                let whole = kept_whole(alloc, state)?;
                Ok(whole)
            }
            false => self.keep(alloc, state),
        }
    }

    /// The state that became pending last.
    #[inline(never)]
    fn taken(&mut self, alloc: Global, state: ChangedState) -> Result<Kept, AllocError>
        ensures { IfOk result (λ kept. (states : List ThePending)
            → states_below self.old (PendingState.Changed state ∷ states)
            ≡ kept ∷ states_below self.new states) }
    {
        let ChangedState {
            around,
            return_slot,
            count,
            places,
        } = state;
        places.see(
            usize::from(return_slot),
            &self.any,
            &self.changed.frame,
            &mut self.scratch,
        );
        self.changed.undo(usize::from(count));
        let kept = Kept::joined(alloc, around, &self.scratch, &mut self.parts)?;
        Ok(kept)
    }

    /// Takes back the state that became pending last.
    #[inline(always)]
    pub fn take_back(&mut self, alloc: Global, state: PendingState) -> Result<Kept, AllocError>
        ensures { IfOk result (λ kept. (states : List ThePending)
            → states_below self.old (state ∷ states) ≡ kept ∷ states_below self.new states) }
    {
        match state {
            PendingState::Whole(state) => Ok(Box::into_inner(state)),
            PendingState::Changed(state) => self.taken(alloc, state),
        }
    }
}
