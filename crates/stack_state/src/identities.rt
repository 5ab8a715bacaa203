//! Identities that no kind of a state names.

ghost use Rattle.std.specs.Prelude.{◌≡◌, ◌≢◌, ℕ, ◌*◌, ◌<◌, ◌≤◌, Some, true, false, length};
ghost use Rattle.stack_state.specs.Slots.{frame_slots};
ghost use Rattle.stack_state.specs.Identities.{named_by, IsLeastFresh, IsLeastFreshPacket, IsLeastFreshNull};
ghost use Rattle.stack_state.specs.Marks.{AreFree, NamesOther, HoldsOther, IsFreshIn, IsFreshAt, Marks, is_marked, marked};

use crate::slots::StackSlot;
use crate::stacks::FRAME_SLOTS;
use crate::states::{AbstractFrame, State};
use reg_state::Kind;

/// The sorts of identities.
#[derive(Clone, Copy)]
pub enum IdentitySort {
    /// Those of packet pointers.
    Packets,
    /// Those of what was looked up.
    Nulls,
}

impl IdentitySort {
    /// The identity of the sort that a kind names.
    fn named_by(self, kind: Kind) -> Option<u32>
        ensures { result ≡ named_by self kind }
    {
        match self {
            IdentitySort::Packets => kind.packet_identity(),
            IdentitySort::Nulls => kind.null_identity(),
        }
    }
}

// Which of the lowest identities are named. The ten registers and 64 slots of eight call frames
// name 592 of them at most, so that one from 1 to 593 is free.
type NamedIdentities = [bool; 594];

fn mark(sort: IdentitySort, named: &mut NamedIdentities, kind: Kind)
    ensures { Marks (λ i. named_by sort kind ≢ Some i) 1 named.old named.new }
{
    if let Some(identity) = sort.named_by(kind) {
        if identity < 594 {
            named[identity as usize] = true;
        }
    }
}

fn mark_registers(sort: IdentitySort, named: &mut NamedIdentities, registers: &[Kind; 10])
    ensures { Marks (λ i. (k : ℕ) → NamesOther sort registers.now k i) 10 named.old named.new }
{
    for index in 0..10 {
        mark(sort, named, registers[index]);
    }
}

fn mark_slots(sort: IdentitySort, named: &mut NamedIdentities, slots: &[StackSlot; FRAME_SLOTS])
    ensures { Marks (λ i. (k : ℕ) → HoldsOther sort slots.now k i) frame_slots
        named.old named.new }
{
    for index in 0..FRAME_SLOTS {
        mark(sort, named, slots[index].kind());
    }
}

fn mark_frame(sort: IdentitySort, named: &mut NamedIdentities, frame: &AbstractFrame)
    ensures { Marks (IsFreshIn sort frame.now) 74 named.old named.new }
{
    mark_registers(sort, named, &frame.registers);
    mark_slots(sort, named, frame.stack.slots());
}

fn mark_frames(sort: IdentitySort, named: &mut NamedIdentities, frames: &[AbstractFrame])
    ensures { Marks (AreFree (IsFreshAt sort frames.now) (length frames.now))
        (74 * length frames.now) named.old named.new }
{
    for index in 0..frames.len() {
        mark_frame(sort, named, &frames[index]);
    }
}

// The first identity from 1 up that is not named.
fn first_free(named: &NamedIdentities) -> u32
    requires { marked named.now ≤ 592 }
    ensures some { 0 < result }
    ensures inside { result < 594 }
    ensures free { is_marked named.now result ≡ false }
    ensures least { (i : ℕ) → 0 < i → i < result → is_marked named.now i ≡ true }
{
    for identity in 1..594 {
        if !named[identity as usize] {
            return identity;
        }
    }
    unreachable!()
}

impl State {
    // The smallest identity from 1 up that no kind names.
    fn fresh_identity(&self, sort: IdentitySort) -> u32
        ensures { IsLeastFresh sort self.now result }
    {
        let mut named = [false; 594];
        mark_frames(sort, &mut named, self.callers.as_slice());
        mark_frame(sort, &mut named, &self.innermost);
        first_free(&named)
    }

    /// The smallest packet identity from 1 up that no kind names, in any register or slot.
    pub fn fresh_packet_identity(&self) -> u32
        ensures { IsLeastFreshPacket self.now result }
    {
        self.fresh_identity(IdentitySort::Packets)
    }

    /// The smallest null identity from 1 up that no kind names, in any register or slot.
    pub fn fresh_null_identity(&self) -> u32
        ensures { IsLeastFreshNull self.now result }
    {
        self.fresh_identity(IdentitySort::Nulls)
    }
}
