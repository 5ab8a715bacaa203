//! What a search came to at each slot: how often it was there, what all states know together, and
//! how many paths ended there, since a finished state covered them.

use crate::errors::LookError;
use crate::joins::{CommonKind, joined, joined_slot};
use crate::tallies::SearchTally;
use explorer::{Halt, Kept, Listener, Refusal, verify_with};
use image::Image;
use isa_model::MAX_CALL_FRAMES;
use reg_state::Kind;
use stack_state::{StackSlot, State};
use std::alloc::{AllocError, Global};
use transfer::Ways;

/// A stack slot: of the call frame that is this many calls up from the innermost, at this index,
/// with what all states know of it.
#[derive(Clone, Copy, Drop)]
pub struct KnownSlot {
    pub calls_up: usize,
    pub index: usize,
    pub known: StackSlot,
}

/// What the states at a slot of the code know together.
#[derive(Drop)]
pub struct Together {
    /// The call frames below the innermost one, in the last of them.
    pub callers: usize,
    /// r0 to r9.
    pub registers: [CommonKind; 10],
    /// The stack slots of which all of them may know something.
    pub stack: Vec<KnownSlot>,
}

/// What a search came to at a slot.
#[derive(Drop)]
pub struct Seen {
    /// Says how often it was explored.
    pub explored: u64,
    /// Says how many paths ended there, since a finished state covered the one that arrived.
    pub covered: u64,
    pub together: Option<Box<Together>>,
}

/// What a search came to.
#[derive(Drop)]
pub struct Overview {
    /// What it came to at each slot of the code.
    pub slots: Vec<Seen>,
    pub tally: SearchTally,
    /// Says how many instructions were explored before the program was searched again, exactly.
    pub before: Option<u64>,
    /// The bound, or why the program is refused and where.
    pub ended: Result<u32, (Refusal, usize)>,
}

/// A stack slot of a state; one about which nothing is known where there is none.
fn slot_at(state: &State, calls_up: usize, index: usize) -> StackSlot {
    let innermost = state.callers.len();
    if calls_up > innermost {
        return StackSlot::Written(0);
    }
    match state.stack_of((innermost - calls_up) as u8) {
        Some(stack) => stack
            .slots()
            .get(index)
            .copied()
            .unwrap_or(StackSlot::Written(0)),
        None => StackSlot::Written(0),
    }
}

/// What a state knows of a register.
fn register_at(state: &State, index: usize) -> Kind {
    state
        .innermost
        .registers
        .get(index)
        .copied()
        .unwrap_or(Kind::Unset)
}

/// Adds the stack slots of a call frame of a state about which something is known.
fn put_known(state: &State, calls_up: usize, stack: &mut Vec<KnownSlot>) -> Result<(), AllocError> {
    for index in 0..isa_model::STACK_SIZE / 8 {
        let known = slot_at(state, calls_up, index);
        if known != StackSlot::Written(0) {
            stack.push(KnownSlot {
                calls_up,
                index,
                known,
            })?;
        }
    }
    Ok(())
}

impl Together {
    /// What one state knows.
    fn of(alloc: Global, state: &State) -> Result<Together, AllocError> {
        let mut stack = Vec::new(alloc);
        for calls_up in 0..MAX_CALL_FRAMES {
            put_known(state, calls_up, &mut stack)?;
        }
        let mut registers = [CommonKind::Kind(Kind::Unset); 10];
        for (index, register) in registers.iter_mut().enumerate() {
            *register = CommonKind::Kind(register_at(state, index));
        }
        Ok(Together {
            callers: state.callers.len(),
            registers,
            stack,
        })
    }

    /// What they and one more state know.
    fn join(&mut self, state: &State) {
        self.callers = state.callers.len();
        for (index, register) in self.registers.iter_mut().enumerate() {
            *register = joined(*register, register_at(state, index));
        }
        for slot in self.stack.iter_mut() {
            slot.known = joined_slot(slot.known, slot_at(state, slot.calls_up, slot.index));
        }
    }
}

impl Seen {
    /// A slot that no path has come to.
    const fn nothing() -> Seen {
        Seen {
            explored: 0,
            covered: 0,
            together: None,
        }
    }

    /// A state is explored there.
    fn explore(&mut self, alloc: Global, state: &State) -> Result<(), AllocError> {
        self.explored = self.explored.saturating_add(1);
        match &mut self.together {
            Some(together) => together.join(state),
            None => {
                let together = Together::of(alloc, state)?;
                self.together = Some(Box::new(alloc, together)?);
            }
        }
        Ok(())
    }
}

/// The slots of a program that no path has come to.
fn unseen(alloc: Global, image: &Image) -> Result<Vec<Seen>, AllocError> {
    let mut slots = Vec::new(alloc);
    for _ in 0..image.slots() {
        slots.push(Seen::nothing())?;
    }
    Ok(slots)
}

/// A listener that keeps what a search comes to.
#[derive(Drop)]
struct Watch {
    alloc: Global,
    slots: Vec<Seen>,
    tally: SearchTally,
    before: Option<u64>,
    /// The slot of the state that arrived last.
    arrived: usize,
}

impl Listener for Watch {
    type Stop = AllocError;

    ghost follows = { λ _ _ _ _ _. Unit {0} };

    fn arrives(&mut self, state: &State) -> Result<(), AllocError> {
        self.arrived = state.slot;
        Ok(())
    }

    fn covered(&mut self, _index: usize, _number: u32) -> Result<(), AllocError> {
        if let Some(seen) = self.slots.get_mut(self.arrived) {
            seen.covered = seen.covered.saturating_add(1);
        }
        Ok(())
    }

    fn explores(
        &mut self,
        state: &State,
        stored: Option<usize>,
        kept: Option<&Kept>,
    ) -> Result<(), AllocError> {
        self.tally.explore(stored, kept);
        match self.slots.get_mut(state.slot) {
            Some(seen) => seen.explore(self.alloc, state),
            None => Ok(()),
        }
    }

    fn stepped(&mut self, _ways: Ways) -> Result<(), AllocError> {
        Ok(())
    }

    fn finished(&mut self, _number: u32) -> Result<(), AllocError> {
        self.tally.finish();
        Ok(())
    }

    fn begins_anew(&mut self) -> Result<(), AllocError> {
        self.before = Some(self.tally.explored);
        self.tally = SearchTally::default();
        for seen in self.slots.iter_mut() {
            *seen = Seen::nothing();
        }
        Ok(())
    }

    fn refused(&mut self, _refusal: Refusal, _slot: usize) {}
}

/// Searches a program, and returns what the search came to; of a program that is searched again,
/// what the second search did.
pub fn overview_of(alloc: Global, image: &Image) -> Result<Overview, AllocError> {
    let mut watch = Watch {
        alloc,
        slots: unseen(alloc, image)?,
        tally: SearchTally::default(),
        before: None,
        arrived: 0,
    };
    let copy = image.copy(alloc)?;
    let ended = match verify_with(alloc, copy, &mut watch) {
        Ok(verified) => Ok(verified.bound()),
        Err(Halt::Refused(refusal, slot)) => Err((refusal, slot)),
        Err(Halt::Stopped(stop)) => return Err(stop),
    };
    Ok(Overview {
        slots: watch.slots,
        tally: watch.tally,
        before: watch.before,
        ended,
    })
}
