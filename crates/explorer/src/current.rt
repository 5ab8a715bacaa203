//! The state at the end of a path.

ghost use Rattle.std.specs.Prelude.{◌≡◌, false, IfOk, IfSome, IsTrue, IsSome, OnOk, Some};
ghost use Rattle.isa_model.specs.declared.instructions.Insn.{Insn};
ghost use Rattle.isa_model.specs.Code.Instructions.{fetch};
ghost use Rattle.stack_state.specs.Starts.{start};
ghost use Rattle.state_index.specs.Parts.{AreBlankBeside};
ghost use Rattle.transfer.specs.Following.{GoesOnTo};
ghost use Rattle.transfer.specs.Leading.{LeadsTo, EachWay};
ghost use Rattle.transfer.specs.Exact.{Steps};
ghost use Rattle.transfer.specs.Beside.{beside, ways_in, beside_in};
ghost use Rattle.walks.specs.Forgetting.{Forgets};
ghost use Rattle.explorer.specs.Search.{precision_in};

use crate::arrivals::forget_at;
use crate::long_searches::forget_by;
use crate::stored_states::StoredStates;
use control_flow::{Flow, KeptNumbers, SlotMask};
use image::Image;
use kept_states::{Callers, Kept, Others, has_proved, keep_callers};
use stack_state::State;
use state_index::{Part, take_parts_in};
use std::alloc::{AllocError, Global};
use std::marker::Model;
use transfer::{Refusal, Ways, step_beside};

/// The state at the end of a path. Its callers may be kept already: then other states that have the
/// same ones share them, and they are not compared.
///
/// Contracts see the state.
#[derive(Drop)]
pub struct Current {
    state: State,
    callers: Option<Callers>,
}

impl Model for Current {
    ghost use Rattle.std.specs.Prelude.{◌≡◌, IfSome};
    ghost use Rattle.stack_state.specs.declared.states.State.{State};

    ghost Value = { State };

    ghost view = { λ current. current.state };

    ghost invariant = { λ current.
        IfSome current.callers (λ kept. kept.value.items ≡ current.state.callers.items) };
}

impl Current {
    /// The state in which every run begins.
    pub fn start() -> Self
        ensures { result ≡ start }
    {
        Current {
            state: State::start(),
            callers: None,
        }
    }

    /// The state.
    #[inline(always)]
    pub fn state(&self) -> &State
        ensures { result.now ≡ self.now }
    {
        &self.state
    }

    /// The slot of the code.
    #[inline(always)]
    pub fn slot(&self) -> usize
        ensures { result ≡ self.now.slot }
    {
        self.state.slot
    }

    /// How many callers it has.
    #[inline(always)]
    pub fn caller_count(&self) -> usize {
        self.state.callers.len()
    }

    /// Forgets what does not matter of the state, with which a path begins.
    pub fn forget(&mut self, flow: &Flow<'_>)
        ensures { Forgets (precision_in None) flow.now self.old self.new }
    {
        forget_by(flow, &None, false, &mut self.state);
    }

    /// Becomes its first successor, and `other` the second one, as `transfer::step_beside` says.
    #[inline(always)]
    pub fn step(&mut self, image: &Image, other: &mut State) -> Result<(Ways, bool), Refusal>
        requires { IsSome (fetch image.now self.old.slot) }
        ensures leads { IfOk result (λ left. LeadsTo image.now self.old left.0 self.new
            (beside left.1 self.new other.new)) }
        ensures follows { IfOk result (λ left. EachWay left.0 self.new
            (beside left.1 self.new other.new) (GoesOnTo image.now self.old)) }
        ensures steps { (i : Insn) → fetch image.now self.old.slot ≡ Some i
            → Steps image.now self.old i (ways_in result) self.new
            (beside_in result self.new other.new) }
    {
        let left = step_beside(image, &mut self.state, other);
        match left {
            Ok((_, true)) => {}
            _ => self.callers = None,
        }
        left
    }

    /// Forgets what does not matter of the state, to which a path comes next, as `forget_at` says.
    #[inline(always)]
    pub fn forget_at(
        &mut self,
        alloc: Global,
        flow: &Flow<'_>,
        states: &mut StoredStates,
        kept: &Option<KeptNumbers>,
        has_called: bool,
        scratch: &mut State,
    ) -> Result<bool, AllocError>
        ensures forgets { OnOk result (Forgets (precision_in kept.now) flow.now self.old self.new) }
        ensures same { states.new.states.items ≡ states.old.states.items }
    {
        if has_called {
            self.callers = None;
        }
        let state = &mut self.state;
        forget_at(alloc, flow, states, kept, has_called, state, scratch)
    }

    /// Becomes a state that was kept.
    #[inline(always)]
    pub fn restore(&mut self, kept: &Kept)
        ensures { self.new ≡ kept.now }
    {
        kept.restore(&mut self.state);
        self.callers = None;
    }

    /// Its callers, kept.
    fn keep_callers(
        &mut self,
        alloc: Global,
        parts: &mut Vec<Part>,
        others: Others<'_>,
    ) -> Result<Callers, AllocError>
        ensures kept { IfOk result (λ kept. kept.value.items ≡ self.old.callers.items) }
        ensures same { self.new ≡ self.old }
    {
        if let Some(callers) = &self.callers {
            let callers = callers.clone()?;
            return Ok(callers);
        }
        let callers = keep_callers(
            alloc,
            self.state.callers.as_slice(),
            parts,
            others.callers(),
        )?;
        if !self.state.callers.is_empty() {
            self.callers = Some(callers.clone()?);
        }
        Ok(callers)
    }

    /// Keeps a state that has the callers of this one, though others may be in it. Its innermost
    /// call frame has only these stack slots about which something may be known. It is scratch
    /// space afterwards.
    pub fn keep_beside(
        &mut self,
        alloc: Global,
        other: &mut State,
        stack_slots: SlotMask,
        parts: &mut Vec<Part>,
        others: Others<'_>,
    ) -> Result<Kept, AllocError>
        requires { AreBlankBeside stack_slots other.old.innermost.stack.slots }
        ensures kept { IfOk result
            (λ kept. kept ≡ record other.old { callers = self.old.callers }) }
        ensures same { self.new ≡ self.old }
    {
        if has_proved(self.state.callers.as_slice(), &other.innermost) {
            other.copy_callers(&self.state);
            return Kept::of_forgotten(alloc, other, stack_slots, parts, others);
        }
        let callers = self.keep_callers(alloc, parts, others)?;
        let held = usize::from(self.callers.is_some());
        take_parts_in(parts, &other.innermost, stack_slots)?;
        Kept::with_callers(alloc, other, callers, held, parts.as_slice(), others)
    }
}
