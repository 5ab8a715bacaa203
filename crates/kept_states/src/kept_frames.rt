//! Call frames, kept compactly.

ghost use Rattle.std.specs.Prelude.{◌≡◌, ◌≤◌, ◌++◌, IfOk, IsTrue, length};
ghost use Rattle.stack_state.specs.Slots.{frame_slots};
ghost use Rattle.state_index.specs.Parts.{AreParts, register_parts, slot_parts};

use crate::blanks::clear_frame;
use crate::groups::{FEW, KeptParts, Rest, may_cover_all, write_all};
use crate::others::Others;
use crate::shared_parts::{OtherGroups, SharedParts};
use arrayvec::ArrayVec;
use reg_state::Kind;
use stack_state::{AbstractFrame, FRAME_SLOTS, MAX_CALLERS, StackSlot};
use state_index::{Fingerprints, Part, PartLimits, add_limits, take_parts};
use std::alloc::{AllocError, Global};
use std::marker::Model;

/// A frame that is kept for later: what is known of it, and nothing else.
///
/// Contracts see the frame.
#[derive(Drop)]
pub struct KeptFrame {
    return_slot: usize,
    /// Says how many of its parts name an identity.
    named: u16,
    parts: KeptParts,
}

impl Model for KeptFrame {
    ghost use Rattle.std.specs.Prelude.{◌≡◌, ◌++◌};
    ghost use Rattle.stack_state.specs.declared.states.AbstractFrame.{AbstractFrame};
    ghost use Rattle.state_index.specs.Parts.{unset_frame, all_written, parts_of};
    ghost use Rattle.kept_states.specs.Groups.{whole, few_of, groups_of};

    ghost Value = { AbstractFrame };

    ghost view = { λ k. all_written (unset_frame k.return_slot)
        (few_of k.parts ++ whole (groups_of k.parts)) };

    ghost invariant = { λ k. parts_of (all_written (unset_frame k.return_slot)
        (few_of k.parts ++ whole (groups_of k.parts)))
        ≡ few_of k.parts ++ whole (groups_of k.parts) };
}

/// The groups of a frame, if there is one.
fn groups_in(frame: Option<&KeptFrame>) -> &[SharedParts] {
    match frame {
        Some(frame) => frame.parts.groups(),
        None => &[],
    }
}

impl KeptFrame {
    /// Keeps a frame with these parts: in groups if they are more than `most`, some of which it may
    /// share with other frames.
    pub fn with_parts(
        alloc: Global,
        frame: &AbstractFrame,
        parts: &[Part],
        others: (Option<&KeptFrame>, Option<&KeptFrame>),
        most: usize,
        is_innermost: bool,
    ) -> Result<Self, AllocError>
        requires { AreParts parts.now frame.now }
        ensures { IfOk result (λ kept. kept ≡ frame.now) }
    {
        let others = OtherGroups {
            first: groups_in(others.0),
            second: groups_in(others.1),
        };
        let named = u16::try_from(named_in(parts)).unwrap_or(u16::MAX);
        let parts = KeptParts::of(alloc, parts, others, most, is_innermost)?;
        Ok(KeptFrame {
            return_slot: frame.return_slot,
            named,
            parts,
        })
    }

    /// Keeps an innermost frame with these parts, some of which it may share with those of others.
    pub fn beside(
        alloc: Global,
        frame: &AbstractFrame,
        parts: &[Part],
        others: Others<'_>,
    ) -> Result<Self, AllocError>
        requires { AreParts parts.now frame.now }
        ensures { IfOk result (λ kept. kept ≡ frame.now) }
    {
        let like = (others.first.innermost, others.second.innermost);
        let most = others.most;
        KeptFrame::with_parts(alloc, frame, parts, like, most, most == FEW)
    }

    /// Returns whether this is the frame; a wrong false is possible, and certain where a constant
    /// is kept by itself.
    pub fn is_frame(&self, frame: &AbstractFrame) -> bool
        ensures { IsTrue result → self.now ≡ frame.now }
    {
        if self.return_slot != frame.return_slot {
            return false;
        }
        let None = self.parts.constant() else {
            return false;
        };
        let mut rest = Rest::of(&self.parts);
        if !are_registers(&mut rest, &frame.registers) {
            return false;
        }
        if !are_slots(&mut rest, frame.stack.slots()) {
            return false;
        }
        rest.is_empty()
    }

    /// A quick test whether this may cover the frame: false means that it does not.
    pub fn may_cover(&self, frame: &AbstractFrame) -> bool
        ensures { self.now ≡ frame.now → IsTrue result }
    {
        if !self.parts.may_cover_few(frame) {
            return false;
        }
        let groups = self.parts.groups();
        for index in 0..groups.len() {
            if !may_cover_all(groups[index].parts(), frame) {
                return false;
            }
        }
        true
    }

    /// Makes the frame like the one that was kept.
    pub fn restore(&self, frame: &mut AbstractFrame)
        ensures { frame.new ≡ self.now }
    {
        let groups = self.parts.groups();
        frame.return_slot = self.return_slot;
        clear_frame(frame);
        self.parts.write_few(frame);
        for index in 0..groups.len() {
            write_all(frame, groups[index].parts());
        }
    }

    /// The slot of the code to which its exit leads.
    pub fn return_slot(&self) -> usize {
        self.return_slot
    }

    /// Its parts that are in no group.
    pub fn listed_parts(&self) -> &[Part] {
        self.parts.others()
    }

    /// Puts its parts after others.
    pub fn put_parts(&self, parts: &mut Vec<Part>) -> Result<(), AllocError> {
        let constant = self.parts.constant();
        parts.extend_from_slice(constant.as_slice())?;
        parts.extend_from_slice(self.parts.others())?;
        for group in self.parts.groups() {
            parts.extend_from_slice(group.parts())?;
        }
        Ok(())
    }

    /// The fingerprints of frames, and of this one after them.
    pub fn with_fingerprints(&self, fingerprints: Fingerprints) -> Fingerprints {
        let constant = self.parts.constant();
        let mut fingerprints = fingerprints
            .with_frame(self.return_slot)
            .with_parts(constant.as_slice())
            .with_parts(self.parts.others());
        for group in self.parts.groups() {
            fingerprints = fingerprints.with_parts(group.parts());
        }
        fingerprints
    }

    /// Puts its limits after those of the frames around it.
    pub fn put_limits(
        &self,
        limits: &mut Vec<PartLimits>,
        frame_index: u32,
    ) -> Result<(), AllocError> {
        let constant = self.parts.constant();
        add_limits(limits, frame_index, constant.as_slice())?;
        add_limits(limits, frame_index, self.parts.others())?;
        for group in self.parts.groups() {
            add_limits(limits, frame_index, group.parts())?;
        }
        Ok(())
    }

    /// Returns how many words it takes that no other state shares.
    pub fn own_words(&self) -> u32 {
        let mut words = self.parts.few_words();
        for group in self.parts.groups() {
            words = words.saturating_add(group.own_words());
        }
        u32::try_from(words).unwrap_or(u32::MAX)
    }

    /// Returns how many of its parts name an identity.
    pub fn named(&self) -> usize {
        usize::from(self.named)
    }
}

/// Takes what is known of registers, if the next parts say just that.
fn are_registers(rest: &mut Rest<'_>, registers: &[Kind; 10]) -> bool
    ensures same { IsTrue result → rest.old ≡ register_parts 0 registers.now ++ rest.new }
    ensures ten { length registers.now ≡ 10 }
{
    for index in 0..10 {
        if !rest.is_register(index as u8, &registers[index]) {
            return false;
        }
    }
    true
}

/// Takes what is known of stack slots, if the next parts say just that.
fn are_slots(rest: &mut Rest<'_>, slots: &[StackSlot; FRAME_SLOTS]) -> bool
    ensures same { IsTrue result → rest.old ≡ slot_parts 0 slots.now ++ rest.new }
    ensures wide { length slots.now ≡ frame_slots }
{
    for index in 0..FRAME_SLOTS {
        if !rest.is_slot(index as u8, &slots[index]) {
            return false;
        }
    }
    true
}

/// Returns whether the frames are the kept ones; a wrong false is possible.
pub fn are_frames(kept: &[KeptFrame], frames: &[AbstractFrame]) -> bool
    ensures { IsTrue result → kept.now ≡ frames.now }
{
    if kept.len() != frames.len() {
        return false;
    }
    for index in 0..frames.len() {
        if !kept[index].is_frame(&frames[index]) {
            return false;
        }
    }
    true
}

/// Keeps each frame.
pub fn keep_all(
    alloc: Global,
    frames: &[AbstractFrame],
    scratch: &mut Vec<Part>,
    others: (&[KeptFrame], &[KeptFrame]),
) -> Result<Vec<KeptFrame>, AllocError>
    ensures { IfOk result (λ kept. kept.items ≡ frames.now) }
{
    let mut kept = Vec::new(alloc);
    for index in 0..frames.len() {
        take_parts(scratch, &frames[index])?;
        let parts = scratch.as_slice();
        let others = (others.0.get(index), others.1.get(index));
        let frame = KeptFrame::with_parts(alloc, &frames[index], parts, others, FEW, false)?;
        kept.push(frame)?;
    }
    Ok(kept)
}

/// Makes the list this long.
fn resize(frames: &mut ArrayVec<AbstractFrame, MAX_CALLERS>, count: usize)
    requires { count ≤ 7 }
    ensures { length frames.new.items ≡ count }
{
    frames.truncate(count);
    for _more in frames.len()..count {
        frames.push(AbstractFrame::default());
    }
}

/// Makes each frame like the one of its index that was kept.
pub fn restore_all(kept: &[KeptFrame], frames: &mut ArrayVec<AbstractFrame, MAX_CALLERS>)
    requires { length kept.now ≤ 7 }
    ensures { frames.new.items ≡ kept.now }
{
    resize(frames, kept.len());
    for index in 0..kept.len() {
        kept[index].restore(&mut frames[index]);
    }
}

/// Returns how many of the parts name an identity.
fn named_in(parts: &[Part]) -> usize {
    let mut count: usize = 0;
    for part in parts {
        let kind = match part {
            Part::InRegister(_, kind) => *kind,
            Part::InSlot(_, slot) => slot.kind(),
        };
        if kind.packet_identity().is_some() || kind.null_identity().is_some() {
            count = count.saturating_add(1);
        }
    }
    count
}
