//! Abstract states, kept compactly.

ghost use Rattle.std.specs.Prelude.{◌≡◌, ◌≤◌, length, IfOk, IfErr, IsTrue};
ghost use Rattle.state_index.specs.Parts.{AreBlankBeside, AreParts};
ghost use Rattle.kept_states.specs.ProvedBytes.{with_proved};
ghost use Rattle.kept_states.specs.Around.{state_around};

use crate::around::Around;
use crate::callers::{Callers, keep_callers};
use crate::groups::FEW;
use crate::kept_frames::{KeptFrame, restore_all};
use crate::others::Others;
use crate::proved_bytes::{NOTHING, ProvedBytes, give_proved, may_have_many, take_proved};
use control_flow::SlotMask;
use isa_model::STACK_SIZE;
use stack_state::{AbstractFrame, State};
use state_index::{Fingerprints, Key, Part, PartLimits, take_parts, take_parts_in};
use std::alloc::{AllocError, Global};
use std::marker::Model;
use std::rc::Rc;

/// Says how many places a call frame has: its registers and its stack slots.
pub const PLACES: usize = 10 + STACK_SIZE / 8;

/// Says how many words a state takes besides its call frames.
const STATE_WORDS: u32 = 16;

/// Returns how many words a state takes that no other one shares: its callers are had so often by
/// it and by whoever does not count.
fn own_words(innermost: &KeptFrame, callers: &Callers, held: usize) -> u32 {
    let mut words = innermost.own_words().saturating_add(STATE_WORDS);
    if Rc::strong_count(callers) == held {
        for frame in callers.as_ref().as_slice() {
            words = words.saturating_add(frame.own_words());
        }
    }
    words
}

/// A state that is kept for later: its live call frames only. What a packet test shows of many
/// pointers at once may be kept apart from them, so that they are the same in other states.
///
/// Contracts see the state.
#[derive(Drop)]
pub struct Kept {
    slot: u32,
    /// Says how many words it took that it did not share when it was kept.
    words: u32,
    /// Says what is proved besides, of two identities.
    proved: ProvedBytes,
    also_proved: ProvedBytes,
    callers: Callers,
    innermost: KeptFrame,
}

impl Model for Kept {
    ghost use Rattle.std.specs.Prelude.{◌≤◌, length};
    ghost use Rattle.stack_state.specs.declared.states.State.{State};
    ghost use Rattle.kept_states.specs.ProvedBytes.{with_proved};

    ghost Value = { State };

    ghost view = { λ kept. with_proved kept.proved (with_proved kept.also_proved (record {
      slot = kept.slot;
      callers = record { items = kept.callers.value.items };
      innermost = kept.innermost;
    })) };

    ghost invariant = { λ kept. length kept.callers.value.items ≤ 7 };
}

impl Kept {
    /// The slot of the code.
    pub fn slot(&self) -> usize
        ensures { result ≡ self.now.slot }
    {
        self.slot as usize
    }

    /// Keeps a state. The parts of its frames are computed in scratch space, and it shares what it
    /// can with another state.
    pub fn of(
        alloc: Global,
        state: &State,
        parts: &mut Vec<Part>,
        other: Option<&Kept>,
    ) -> Result<Self, AllocError>
        ensures { IfOk result (λ kept. kept ≡ state.now) }
    {
        Kept::of_others(alloc, state, parts, Others::one(other))
    }

    /// Keeps a state, which shares what it can with two other ones.
    pub fn of_others(
        alloc: Global,
        state: &State,
        parts: &mut Vec<Part>,
        others: Others<'_>,
    ) -> Result<Self, AllocError>
        ensures { IfOk result (λ kept. kept ≡ state.now) }
    {
        take_parts(parts, &state.innermost)?;
        Kept::of_parts(alloc, state, parts, others)
    }

    /// Its innermost call frame.
    pub(crate) fn innermost(&self) -> &KeptFrame {
        &self.innermost
    }

    /// Its other call frames.
    pub fn callers(&self) -> &Callers {
        &self.callers
    }

    /// Keeps a state whose innermost call frame has only these stack slots about which something
    /// may be known. The state is scratch space afterwards.
    pub fn of_forgotten(
        alloc: Global,
        state: &mut State,
        stack_slots: SlotMask,
        parts: &mut Vec<Part>,
        others: Others<'_>,
    ) -> Result<Self, AllocError>
        requires { AreBlankBeside stack_slots state.old.innermost.stack.slots }
        ensures { IfOk result (λ kept. kept ≡ state.old) }
    {
        let proved = match may_have_many(state) {
            true => take_proved(state, NOTHING),
            false => NOTHING,
        };
        if proved.bytes != 0 {
            return Kept::beside(alloc, state, parts, others, proved);
        }
        take_parts_in(parts, &state.innermost, stack_slots)?;
        Kept::of_parts(alloc, state, parts, others)
    }

    /// Keeps a state of whose pointers this is proved besides.
    #[inline(never)]
    fn beside(
        alloc: Global,
        state: &mut State,
        parts: &mut Vec<Part>,
        others: Others<'_>,
        proved: ProvedBytes,
    ) -> Result<Self, AllocError>
        ensures { IfOk result (λ kept. kept ≡ with_proved proved state.old) }
    {
        let also_proved = take_proved(state, proved);
        take_parts(parts, &state.innermost)?;
        Kept::of_rest(alloc, state, parts, others, (proved, also_proved))
    }

    /// Keeps a state whose innermost frame has these parts. The parts of its other frames are
    /// computed in the same scratch space.
    pub fn of_parts(
        alloc: Global,
        state: &State,
        parts: &mut Vec<Part>,
        others: Others<'_>,
    ) -> Result<Self, AllocError>
        requires { AreParts parts.old.items state.now.innermost }
        ensures { IfOk result (λ kept. kept ≡ state.now) }
    {
        Kept::of_rest(alloc, state, parts, others, (NOTHING, NOTHING))
    }

    /// Keeps a state whose innermost frame has these parts, and of whose pointers this is proved
    /// besides, of two identities.
    fn of_rest(
        alloc: Global,
        state: &State,
        parts: &mut Vec<Part>,
        others: Others<'_>,
        proved: (ProvedBytes, ProvedBytes),
    ) -> Result<Self, AllocError>
        requires { AreParts parts.old.items state.now.innermost }
        ensures { IfOk result (λ kept.
            kept ≡ with_proved proved.0 (with_proved proved.1 state.now)) }
    {
        let Ok(slot) = u32::try_from(state.slot) else {
            return Err(AllocError);
        };
        let innermost = KeptFrame::beside(alloc, &state.innermost, parts.as_slice(), others)?;
        let callers = keep_callers(alloc, state.callers.as_slice(), parts, others.callers())?;
        let words = own_words(&innermost, &callers, 1);
        Ok(Kept {
            slot,
            words,
            proved: proved.0,
            also_proved: proved.1,
            callers,
            innermost,
        })
    }

    /// Keeps a state beside another one, of which these are the callers, which it has too, though
    /// others may be in it. Its innermost frame has these parts. `held`: who has the callers
    /// already and does not count.
    pub fn with_callers(
        alloc: Global,
        state: &State,
        callers: Callers,
        held: usize,
        parts: &[Part],
        others: Others<'_>,
    ) -> Result<Self, AllocError>
        requires parts { AreParts parts.now state.now.innermost }
        requires few { length callers.value.items ≤ 7 }
        ensures { IfOk result (λ kept. kept ≡ record state.now {
          callers = record { items = callers.value.items };
        }) }
    {
        let Ok(slot) = u32::try_from(state.slot) else {
            return Err(AllocError);
        };
        let innermost = KeptFrame::beside(alloc, &state.innermost, parts, others)?;
        let words = own_words(&innermost, &callers, held.saturating_add(1));
        Ok(Kept {
            slot,
            words,
            proved: NOTHING,
            also_proved: NOTHING,
            callers,
            innermost,
        })
    }

    /// The slot of the code to which the exit of its innermost call frame leads.
    pub(crate) fn return_slot(&self) -> usize {
        self.innermost.return_slot()
    }

    /// The parts of its innermost call frame that are in no group.
    pub(crate) fn parts(&self) -> &[Part] {
        self.innermost.listed_parts()
    }

    /// Returns what is kept besides its innermost call frame, if that is this one; else the state.
    /// A wrong Err is possible.
    pub(crate) fn into_around(self, frame: &AbstractFrame) -> Result<Around, Kept>
        ensures around { IfOk result (λ a. state_around a frame.now ≡ self) }
        ensures same { IfErr result (λ k. k ≡ self) }
    {
        if !self.innermost.is_frame(frame) {
            return Err(self);
        }
        let Kept {
            slot,
            proved,
            also_proved,
            callers,
            ..
        } = self;
        Ok(Around {
            slot,
            proved,
            also_proved,
            callers,
        })
    }

    /// Keeps a state of which all is kept already but its innermost call frame. The parts of that
    /// are in no groups then.
    pub(crate) fn joined(
        alloc: Global,
        around: Around,
        frame: &AbstractFrame,
        parts: &mut Vec<Part>,
    ) -> Result<Self, AllocError>
        ensures { IfOk result (λ kept. kept ≡ state_around around frame.now) }
    {
        take_parts(parts, frame)?;
        let none = (None, None);
        let innermost = KeptFrame::with_parts(alloc, frame, parts.as_slice(), none, PLACES, false)?;
        let words = own_words(&innermost, &around.callers, 1);
        let Around {
            slot,
            proved,
            also_proved,
            callers,
        } = around;
        Ok(Kept {
            slot,
            words,
            proved,
            also_proved,
            callers,
            innermost,
        })
    }

    /// Returns whether many parts of its innermost call frame are in no groups.
    pub fn is_listed(&self) -> bool {
        self.parts().len() > FEW
    }

    /// Returns how many words it took that it did not share when it was kept.
    pub fn words(&self) -> u32 {
        self.words
    }

    /// Returns whether its parts say all that is known.
    fn has_all_parts(&self) -> bool {
        self.proved.bytes == 0 && self.also_proved.bytes == 0
    }

    /// Makes the key that of the state, which this is.
    pub fn put_key(&self, state: &State, key: &mut Key) -> Result<(), AllocError> {
        if !key.is_sought {
            return Ok(());
        }
        if !self.has_all_parts() {
            return key.take(state, SlotMask::all());
        }
        key.parts.clear();
        self.innermost.put_parts(&mut key.parts)?;
        let mut fingerprints = Fingerprints::of(self.slot as usize);
        for frame in self.callers.as_ref().as_slice() {
            fingerprints = frame.with_fingerprints(fingerprints);
        }
        key.fingerprints = self.innermost.with_fingerprints(fingerprints);
        match key.has_limits {
            true => self.take_limits(&mut key.limits),
            false => Ok(()),
        }
    }

    /// Makes the list the limits of all frames.
    pub fn take_limits(&self, limits: &mut Vec<PartLimits>) -> Result<(), AllocError> {
        limits.clear();
        let mut frame_index = 0;
        for frame in self.callers.as_ref().as_slice() {
            frame.put_limits(limits, frame_index)?;
            frame_index = u32::wrapping_add(frame_index, 1);
        }
        self.innermost.put_limits(limits, frame_index)
    }

    /// Returns how many parts are compared at most when the state is compared with another one:
    /// those of all frames, and once more for each identity that it uses.
    pub fn part_count(&self) -> usize {
        let mut named = self.innermost.named();
        for frame in self.callers.as_ref().as_slice() {
            named = named.saturating_add(frame.named());
        }
        let frame_count = self.callers.as_ref().as_slice().len().saturating_add(1);
        frame_count
            .saturating_mul(PLACES)
            .saturating_mul(named.saturating_add(1))
    }

    /// A quick test whether this may cover the state: false means that it does not.
    pub fn may_cover(&self, state: &State) -> bool
        ensures { self.now ≡ state.now → IsTrue result }
    {
        if self.proved.bytes != 0 || self.also_proved.bytes != 0 {
            return true;
        }
        self.innermost.may_cover(&state.innermost)
    }

    /// Makes the state like the one that was kept.
    pub fn restore(&self, state: &mut State)
        ensures { state.new ≡ self.now }
    {
        state.slot = self.slot as usize;
        restore_all(self.callers.as_ref().as_slice(), &mut state.callers);
        self.innermost.restore(&mut state.innermost);
        give_proved(state, self.also_proved);
        give_proved(state, self.proved);
    }
}
