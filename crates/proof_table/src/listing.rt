//! All instructions that a search explores.

ghost use Rattle.std.specs.Prelude.{◌≡◌, IfOk, IfErr, length, slice_get};
ghost use Rattle.std.specs.Option.{option_copied};
ghost use Rattle.isa_model.specs.Code.Instructions.{Program};
ghost use Rattle.bounds.specs.Bounds.{IsVerified};
ghost use Rattle.stack_state.specs.Starts.{start};
ghost use Rattle.control_flow.specs.Flows.{IsFlow};
ghost use Rattle.walks.specs.Refused.{IsRefused};
ghost use Rattle.walks.specs.Accepting.{AcceptsAll, BoundsAll};
ghost use Rattle.walks.specs.Counts.{HasNumber};
ghost use Rattle.explorer.specs.Listening.{IfRefused, IfStopped};
ghost use Rattle.proof_table.specs.Listed.{OfStart};

use arrayvec::ArrayVec;
use explorer::{Halt, Kept, Listener, Searched, StoredState, search_with};
use image::Image;
use stack_state::{AbstractFrame, State};
use state_index::Part;
use std::alloc::{AllocError, Global};
use std::marker::Model;
use std::mem;
use walks::Refusal;

/// One explored instruction.
#[derive(Drop)]
pub struct ExploredInsn {
    /// The number of its state: 1 more than the greatest of its successors.
    pub number: u32,
    /// The state in which it is explored.
    pub state: Kept,
    /// The indexes in the list of the successors of that state, the fall-through's first. If a
    /// stored state covers a successor, the index is that of the stored state.
    pub successors: ArrayVec<u32, 2>,
}

/// The explored instructions of a program, in the order in which they were explored. The start's
/// is the first.
///
/// Contracts see the explored instructions.
#[derive(Drop)]
pub struct Explored {
    insns: Vec<ExploredInsn>,
}

impl Model for Explored {
    ghost use Rattle.std.specs.Prelude.{List};
    ghost use Rattle.proof_table.specs.declared.listing.ExploredInsn.{ExploredInsn};

    ghost Value = { List ExploredInsn };

    ghost view = { λ explored. explored.insns.items };
}

impl Explored {
    /// Returns how many there are.
    pub fn len(&self) -> usize
        ensures { result ≡ length self.now }
    {
        self.insns.len()
    }

    /// The one with this index.
    pub fn insn(&self, index: usize) -> Option<&ExploredInsn>
        ensures { option_copied result ≡ slice_get self.now index }
    {
        self.insns.get(index)
    }
}

/// Gives the first instruction, which is the start's, the number that a search ended with.
fn number_start(insns: &mut Vec<ExploredInsn>, number: u32)
    ensures { OfStart insns.new.items (λ n. n ≡ number) }
{
    if !insns.is_empty() {
        insns[0].number = number;
    }
}

/// Lists each explored instruction.
#[derive(Drop)]
struct Lister {
    alloc: Global,
    insns: Vec<ExploredInsn>,
    /// The indexes in the list of the stored states' instructions.
    stored_insns: Vec<u32>,
    /// Those of the instructions of the path's states.
    path: Vec<u32>,
    /// For the parts of a call frame.
    parts: Vec<Part>,
    /// A state about which nothing is known: a placeholder in the list for stored states until
    /// these are moved there.
    blank: State,
    kept_blank: Option<Kept>,
}

impl Lister {
    fn new(alloc: Global) -> Self {
        let blank = State {
            slot: 0,
            callers: ArrayVec::new(),
            innermost: AbstractFrame::default(),
        };
        Lister {
            alloc,
            insns: Vec::new(alloc),
            stored_insns: Vec::new(alloc),
            path: Vec::new(alloc),
            parts: Vec::new(alloc),
            blank,
            kept_blank: None,
        }
    }

    /// The state of the instruction at this index is a successor of the path's last state.
    fn lead_to(&mut self, index: u32) {
        let Some(last) = self.path.last() else {
            return;
        };
        let last = *last as usize;
        if last >= self.insns.len() {
            return;
        }
        let successors = &mut self.insns[last].successors;
        if !successors.is_full() {
            successors.push(index);
        }
    }

    /// A state about which nothing is known; these states share what they can.
    fn keep_blank(&mut self) -> Result<Kept, AllocError> {
        let like = self.kept_blank.as_ref();
        let blank = Kept::of(self.alloc, &self.blank, &mut self.parts, like)?;
        if self.kept_blank.is_some() {
            return Ok(blank);
        }
        self.kept_blank = Some(blank);
        Kept::of(
            self.alloc,
            &self.blank,
            &mut self.parts,
            self.kept_blank.as_ref(),
        )
    }

    /// Moves the stored states into the list, each to its instruction: the search needs them no
    /// longer.
    fn take_stored(&mut self, states: &mut [StoredState]) {
        for index in 0..states.len() {
            let Some(at) = self.stored_insns.get(index).copied() else {
                return;
            };
            if let Some(insn) = self.insns.get_mut(at as usize) {
                mem::swap(&mut insn.state, &mut states[index].state);
            }
        }
    }

    /// A state is to be explored. One that is stored is kept there, and another one shares what it
    /// can with the state that was stored last.
    fn add(
        &mut self,
        state: &State,
        stored: Option<usize>,
        kept: Option<&Kept>,
    ) -> Result<(), AllocError> {
        let Ok(index) = u32::try_from(self.insns.len()) else {
            return Err(AllocError);
        };
        self.lead_to(index);
        let state = match stored {
            Some(_) => self.keep_blank()?,
            None => Kept::of(self.alloc, state, &mut self.parts, kept)?,
        };
        self.insns.push(ExploredInsn {
            number: 0,
            state,
            successors: ArrayVec::new(),
        })?;
        if stored.is_some() {
            self.stored_insns.push(index)?;
        }
        self.path.push(index)?;
        Ok(())
    }
}

impl Listener for Lister {
    type Stop = AllocError;

    ghost follows = { λ _ _ _ _ _. Unit {0} };

    fn arrives(&mut self, _state: &State) -> Result<(), AllocError> {
        Ok(())
    }

    fn covered(&mut self, index: usize, _number: u32) -> Result<(), AllocError> {
        if let Some(at) = self.stored_insns.get(index).copied() {
            self.lead_to(at);
        }
        Ok(())
    }

    fn explores(
        &mut self,
        state: &State,
        stored: Option<usize>,
        kept: Option<&Kept>,
    ) -> Result<(), AllocError> {
        self.add(state, stored, kept)
    }

    fn finished(&mut self, number: u32) -> Result<(), AllocError> {
        if let Some(last) = self.path.pop() {
            let last = last as usize;
            if last < self.insns.len() {
                self.insns[last].number = number;
            }
        }
        Ok(())
    }

    fn begins_anew(&mut self) -> Result<(), AllocError> {
        self.insns.clear();
        self.stored_insns.clear();
        self.path.clear();
        Ok(())
    }
}

/// The refusal for which there is no list, and its slot: memory ran out, if the lister stopped the
/// search.
fn refusal_of(halt: Halt<AllocError>) -> (Refusal, usize)
    ensures { (p : Program) → IfRefused halt (IsRefused p) → IfStopped halt (IsFlow p)
        → IsRefused p result.0 result.1 }
{
    match halt {
        Halt::Refused(refusal, slot) => (refusal, slot),
        Halt::Stopped(_) => (Refusal::Memory, 0),
    }
}

/// Explores a program as `verify` does. Returns all that was explored by the search that accepted
/// it, or why and at which slot the program is refused. The number of the first instruction is the
/// bound.
pub fn explore(alloc: Global, image: &Image) -> Result<Explored, (Refusal, usize)>
    ensures verified { IfOk result (λ insns. OfStart insns (λ n. IsVerified (record {
      program = image.now;
      bound = n;
    }))) }
    ensures refused { IfErr result (λ r. IsRefused image.now r.0 r.1) }
    ensures number { IfOk result (λ insns. OfStart insns (HasNumber image.now start)) }
    ensures accepts { IfErr result (λ r. AcceptsAll image.now r.0) }
    ensures bounds { IfOk result (λ insns. OfStart insns (BoundsAll image.now)) }
{
    image.recall();
    let mut lister = Lister::new(alloc);
    let Searched {
        result,
        mut stored,
        limit: _,
        courses: _,
    } = search_with(alloc, image, &mut lister);
    match result {
        Ok(number) => {
            lister.take_stored(stored.as_mut_slice());
            number_start(&mut lister.insns, number);
            Ok(Explored {
                insns: lister.insns,
            })
        }
        Err(halt) => Err(refusal_of(halt)),
    }
}
