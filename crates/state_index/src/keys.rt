//! What a state is looked up by.

ghost use Rattle.std.specs.Prelude.{◌≡◌, OnOk};
ghost use Rattle.state_index.specs.Parts.{AreBlankBeside, AreParts};

use crate::fingerprints::Fingerprints;
use crate::limits::{PartLimits, add_limits};
use crate::parts::{Part, take_parts, take_parts_in};
use control_flow::SlotMask;
use stack_state::{FRAME_SLOTS, State};
use std::alloc::{AllocError, Global};

/// Says how many parts a call frame has at most: one for each register and each stack slot.
const PARTS: usize = 10 + FRAME_SLOTS;

/// The parts of a state's innermost frame, fingerprints of all its frames, and their limits if
/// these are wanted.
#[derive(Drop)]
pub struct Key {
    pub parts: Vec<Part>,
    pub fingerprints: Fingerprints,
    pub limits: Vec<PartLimits>,
    /// Says whether the limits are wanted.
    pub has_limits: bool,
    /// Says whether states are looked up by the key; else only the parts are wanted.
    pub is_sought: bool,
}

impl Key {
    /// A key of nothing, with room for all parts of a frame.
    pub fn new(alloc: Global) -> Result<Self, AllocError> {
        Ok(Key {
            parts: Vec::with_capacity(alloc, PARTS)?,
            fingerprints: Fingerprints::of(0),
            limits: Vec::new(alloc),
            has_limits: false,
            is_sought: true,
        })
    }

    /// Becomes the key of the state. Of the stack slots of its innermost frame, something may be
    /// known only of those that are in `kept`.
    pub fn take(&mut self, state: &State, kept: SlotMask) -> Result<(), AllocError>
        requires { AreBlankBeside kept state.now.innermost.stack.slots }
        ensures { OnOk result (AreParts self.new.parts.items state.now.innermost) }
    {
        if self.is_sought {
            self.take_callers(state)?;
        }
        take_parts_in(&mut self.parts, &state.innermost, kept)?;
        if self.is_sought {
            self.add_innermost(state)?;
        }
        Ok(())
    }

    /// Takes fingerprints, and limits if these are wanted, of all frames but the innermost.
    fn take_callers(&mut self, state: &State) -> Result<(), AllocError> {
        let mut fingerprints = Fingerprints::of(state.slot);
        let mut frame_index = 0;
        self.limits.clear();
        for frame in state.callers.as_slice() {
            fingerprints = fingerprints
                .with_frame(frame.return_slot)
                .with_parts_of(frame);
            if self.has_limits {
                take_parts(&mut self.parts, frame)?;
                add_limits(&mut self.limits, frame_index, &self.parts)?;
            }
            frame_index = u32::wrapping_add(frame_index, 1);
        }
        self.fingerprints = fingerprints;
        Ok(())
    }

    /// Adds those of the innermost frame, whose parts were taken.
    fn add_innermost(&mut self, state: &State) -> Result<(), AllocError>
        ensures { self.new.parts.items ≡ self.old.parts.items }
    {
        if self.has_limits {
            let frame_index = u32::try_from(state.callers.as_slice().len()).unwrap_or(0);
            add_limits(&mut self.limits, frame_index, &self.parts)?;
        }
        let return_slot = state.innermost.return_slot;
        self.fingerprints = self
            .fingerprints
            .with_frame(return_slot)
            .with_parts(&self.parts);
        Ok(())
    }
}
