//! A step of a search: the instruction at the current state is explored.

ghost use Rattle.std.specs.Prelude.{◌≡◌, ◌+◌, ◌<◌, length, IfOk, IfErr, OnOk};
ghost use Rattle.control_flow.specs.Flows.{IsFlow};
ghost use Rattle.transfer.specs.Beside.{beside};
ghost use Rattle.walks.specs.Forgetting.{Forgets};
ghost use Rattle.walks.specs.Refused.{StopsAt};
ghost use Rattle.explorer.specs.Search.{AfterMove, IsNext, precision_in};
ghost use Rattle.explorer.specs.Listening.{ShowsStep, StepFails};

use crate::long_searches::forget_by;
use crate::moves::{Move, NO_MEMORY, NextMove, Refused};
use crate::search::Search;
use crate::trail::{Course, Visit};
use control_flow::Flow;
use image::Image;
use isa_model::MAX_EXPLORED;
use kept_states::Kept;
use state_index::Part;
use std::alloc::{AllocError, Global};
use transfer::Ways;
use walks::{Refusal, kept_slots};

impl Search {
    /// Keeps the other successor of a branch compactly, in which what does not matter is forgotten.
    /// `shares`: it has the callers of the current state, whatever is in the scratch space.
    #[inline(always)]
    fn keep_other(
        &mut self,
        alloc: Global,
        flow: &Flow<'_>,
        shares: bool,
        parts: &mut Vec<Part>,
    ) -> Result<Kept, AllocError>
        ensures forgets { IfOk result (Forgets (precision_in self.old.kept) flow.now
            (beside shares self.old.current self.old.scratch)) }
        ensures rest { self.new ≡ record self.old { scratch = self.new.scratch } }
    {
        forget_by(flow, &self.kept, false, &mut self.scratch);
        let slot = self.scratch.slot;
        let mask = kept_slots(flow, slot);
        let others = self.path.others_at(slot, self.states.last());
        let other = &mut self.scratch;
        match shares {
            true => self.current.keep_beside(alloc, other, mask, parts, others),
            false => Kept::of_forgotten(alloc, other, mask, parts, others),
        }
    }

    /// Explores the instruction at the current state, which is stored with that index, if there is
    /// one. What is dead at its successors is forgotten, and the pending state is kept compactly;
    /// `parts` is scratch space.
    #[inline(always)]
    pub fn step(
        &mut self,
        alloc: Global,
        image: &Image,
        flow: &Flow<'_>,
        stored: Option<usize>,
        parts: &mut Vec<Part>,
    ) -> Result<(Ways, Move), Refused>
        requires image { flow.now ≡ image.now }
        requires good { IsFlow flow.now }
        requires at { IsNext flow.now self.old (NextMove.Explore stored) }
        requires room { self.old.finished + length self.old.path.items < MAX_EXPLORED }
        ensures moves { IfOk result (λ made. AfterMove flow.now self.new made.1) }
        ensures steps { IfOk result (λ made. ShowsStep (precision_in self.old.kept) flow.now
            self.old.current self.old.path.items made.1 self.new.path.items self.new.current) }
        ensures stops { IfErr result (λ r. StopsAt (precision_in self.new.kept) flow.now r.0 r.1) }
        ensures fails { IfErr result (λ r. StepFails (precision_in self.old.kept) flow.now
            self.old.current self.new.current r.0 r.1) }
        ensures explored { OnOk result (self.new.finished + length self.new.path.items
            ≡ self.old.finished + length self.old.path.items + 1) }
        ensures kept { self.new.kept ≡ self.old.kept }
    {
        let slot = self.current.slot();
        let caller_count = self.current.caller_count();
        let (ways, shares) = match self.current.step(image, &mut self.scratch) {
            Ok(left) => left,
            Err(refusal) => return Err((Refusal::Step(refusal), slot)),
        };
        let pending = match ways {
            Ways::None => {
                self.finished += 1;
                self.states.finish(stored, 1);
                return Ok((ways, Move::Finished(1)));
            }
            Ways::One => None,
            Ways::Two => match self.keep_other(alloc, flow, shares, parts) {
                Ok(other) => Some(other),
                Err(_) => return Err(NO_MEMORY),
            },
        };
        let has_called = self.current.caller_count() > caller_count;
        let Ok(is_plain) = self.current.forget_at(
            alloc,
            flow,
            &mut self.states,
            &self.kept,
            has_called,
            &mut self.scratch,
        )
        else {
            return Err(NO_MEMORY);
        };
        let visit = Visit {
            pending,
            best: 0,
            stored,
        };
        let course = Course {
            is_aside: false,
            is_coarse: self.kept.is_some(),
            is_plain,
        };
        let Ok(()) = self.path.push(alloc, visit, course) else {
            return Err(NO_MEMORY);
        };
        let made = self.come(alloc, flow, None)?;
        Ok((ways, made))
    }
}
