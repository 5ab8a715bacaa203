//! How many bytes of a packet are proved, kept once for all pointers of an identity.

ghost use Rattle.std.specs.Prelude.{◌≡◌, ◌<◌, IsTrue, map, slice_set};
ghost use Rattle.stack_state.specs.Effects.{proved_kind, with_spilled, with_kinds, map_kinds};
ghost use Rattle.stack_state.specs.Slots.{frame_slots, slot_at};
ghost use Rattle.kept_states.specs.ProvedBytes.{with_proved};

use reg_state::Kind;
use stack_state::{AbstractFrame, FRAME_SLOTS, Fact, StackSlot, StackState, State};

/// Says how many pointers of an identity there are at least where what is proved is kept once.
const MANY: usize = 8;

/// A number of bytes after the variable part of an identity that are in the packet; 0 says nothing.
#[derive(Clone, Copy, Drop)]
pub struct ProvedBytes {
    pub identity: u16,
    pub bytes: u16,
}

/// Nothing is proved.
pub const NOTHING: ProvedBytes = ProvedBytes {
    identity: 0,
    bytes: 0,
};

// ---- whether it is known already

/// Returns whether it is known of a value.
#[inline(always)]
fn is_known_of(proved: ProvedBytes, kind: &Kind) -> bool
    ensures { IsTrue result → proved_kind proved.identity proved.bytes kind.now ≡ kind.now }
{
    match *kind {
        Kind::Packet {
            identity,
            proved: bytes,
            ..
        } => identity != u32::from(proved.identity) || u32::from(proved.bytes) <= bytes,
        _ => true,
    }
}

fn is_known_of_all(proved: ProvedBytes, kinds: &[Kind]) -> bool
    ensures { IsTrue result → map (proved_kind proved.identity proved.bytes) kinds.now ≡ kinds.now }
{
    for index in 0..kinds.len() {
        if !is_known_of(proved, &kinds[index]) {
            return false;
        }
    }
    true
}

#[inline(always)]
fn is_known_of_slot(proved: ProvedBytes, slot: &StackSlot) -> bool
    ensures { IsTrue result
        → with_spilled (proved_kind proved.identity proved.bytes) slot.now ≡ slot.now }
{
    match slot {
        StackSlot::Written(_) => true,
        StackSlot::Spilled(kind) => is_known_of(proved, kind),
    }
}

fn is_known_of_slots(proved: ProvedBytes, slots: &[StackSlot]) -> bool
    ensures { IsTrue result
        → map (with_spilled (proved_kind proved.identity proved.bytes)) slots.now ≡ slots.now }
{
    for index in 0..slots.len() {
        if !is_known_of_slot(proved, &slots[index]) {
            return false;
        }
    }
    true
}

fn is_known_of_frame(proved: ProvedBytes, frame: &AbstractFrame) -> bool
    ensures { IsTrue result
        → with_kinds (proved_kind proved.identity proved.bytes) frame.now ≡ frame.now }
{
    is_known_of_all(proved, &frame.registers) && is_known_of_slots(proved, frame.stack.slots())
}

fn is_known_of_frames(proved: ProvedBytes, frames: &[AbstractFrame]) -> bool
    ensures { IsTrue result
        → map (with_kinds (proved_kind proved.identity proved.bytes)) frames.now ≡ frames.now }
{
    for index in 0..frames.len() {
        if !is_known_of_frame(proved, &frames[index]) {
            return false;
        }
    }
    true
}

/// Returns whether it is known of all values of a state.
fn is_known_in(proved: ProvedBytes, state: &State) -> bool
    ensures { IsTrue result
        → map_kinds (proved_kind proved.identity proved.bytes) state.now ≡ state.now }
{
    is_known_of_frame(proved, &state.innermost)
        && is_known_of_frames(proved, state.callers.as_slice())
}

// ---- what stays without it

/// Leaves out that it is known of a value.
#[inline(always)]
fn leave_out(proved: ProvedBytes, kind: &mut Kind)
    ensures { proved_kind proved.identity proved.bytes kind.new
        ≡ proved_kind proved.identity proved.bytes kind.old }
{
    if let Kind::Packet {
        fixed,
        identity,
        least,
        greatest,
        proved: bytes,
    } = *kind
    {
        if identity == u32::from(proved.identity) && bytes <= u32::from(proved.bytes) {
            *kind = Kind::Packet {
                fixed,
                identity,
                least,
                greatest,
                proved: 0,
            };
        }
    }
}

fn leave_out_of_all(proved: ProvedBytes, kinds: &mut [Kind])
    ensures { map (proved_kind proved.identity proved.bytes) kinds.new
        ≡ map (proved_kind proved.identity proved.bytes) kinds.old }
{
    for index in 0..kinds.len() {
        leave_out(proved, &mut kinds[index]);
    }
}

fn leave_out_of_slot(proved: ProvedBytes, index: usize, stack: &mut StackState)
    requires { index < frame_slots }
    ensures same { with_spilled (proved_kind proved.identity proved.bytes)
        (slot_at stack.new.slots index)
        ≡ with_spilled (proved_kind proved.identity proved.bytes)
        (slot_at stack.old.slots index) }
    ensures others { stack.new.slots
        ≡ slice_set stack.old.slots index (slot_at stack.new.slots index) }
{
    let StackSlot::Spilled(kind) = &stack.slots()[index] else {
        return;
    };
    let Kind::Packet { .. } = kind else {
        return;
    };
    let mut kind = *kind;
    leave_out(proved, &mut kind);
    stack.set(index, StackSlot::Spilled(kind));
}

fn leave_out_of_slots(proved: ProvedBytes, stack: &mut StackState)
    ensures { map (with_spilled (proved_kind proved.identity proved.bytes)) stack.new.slots
        ≡ map (with_spilled (proved_kind proved.identity proved.bytes)) stack.old.slots }
{
    for index in 0..FRAME_SLOTS {
        leave_out_of_slot(proved, index, stack);
    }
}

fn leave_out_of_frame(proved: ProvedBytes, frame: &mut AbstractFrame)
    ensures { with_kinds (proved_kind proved.identity proved.bytes) frame.new
        ≡ with_kinds (proved_kind proved.identity proved.bytes) frame.old }
{
    leave_out_of_all(proved, &mut frame.registers);
    leave_out_of_slots(proved, &mut frame.stack);
}

fn leave_out_of_frames(proved: ProvedBytes, frames: &mut [AbstractFrame])
    ensures { map (with_kinds (proved_kind proved.identity proved.bytes)) frames.new
        ≡ map (with_kinds (proved_kind proved.identity proved.bytes)) frames.old }
{
    for index in 0..frames.len() {
        leave_out_of_frame(proved, &mut frames[index]);
    }
}

// ---- what is proved of many pointers

/// The identity of the pointers of which something is proved, if more than half of them have it;
/// else that of some of them.
#[derive(Drop)]
struct Vote {
    identity: u32,
    votes: u32,
}

/// A pointer of which something is proved votes for its identity, if that is not the other one.
#[inline(always)]
fn cast_vote(poll: &mut Vote, other: ProvedBytes, kind: &Kind) {
    let Kind::Packet {
        identity,
        proved,
        ..
    } = *kind
    else {
        return;
    };
    if proved == 0 || other.bytes != 0 && identity == u32::from(other.identity) {
        return;
    }
    if poll.votes == 0 {
        poll.identity = identity;
    }
    poll.votes = match poll.identity == identity {
        true => poll.votes.saturating_add(1),
        false => poll.votes.saturating_sub(1),
    };
}

fn cast_votes(found: &mut Vote, other: ProvedBytes, frame: &AbstractFrame) {
    for kind in &frame.registers {
        cast_vote(found, other, kind);
    }
    let slots = frame.stack.slots();
    for index in frame.stack.known_from()..FRAME_SLOTS {
        if let Some(StackSlot::Spilled(kind)) = slots.get(index) {
            cast_vote(found, other, kind);
        }
    }
}

/// Says how many pointers an identity has, and the least that is proved of one.
#[derive(Drop)]
struct Pointers {
    identity: u32,
    count: usize,
    least: u32,
}

#[inline(always)]
fn count(found: &mut Pointers, kind: &Kind) {
    if let Kind::Packet {
        identity,
        proved,
        ..
    } = *kind
    {
        if identity == found.identity {
            found.count = found.count.saturating_add(1);
            found.least = found.least.min(proved);
        }
    }
}

fn count_in(found: &mut Pointers, frame: &AbstractFrame) {
    for kind in &frame.registers {
        count(found, kind);
    }
    let slots = frame.stack.slots();
    for index in frame.stack.known_from()..FRAME_SLOTS {
        if let Some(StackSlot::Spilled(kind)) = slots.get(index) {
            count(found, kind);
        }
    }
}

/// Returns what is proved of all pointers of an identity that has many in these call frames, and is
/// not the other one; nothing if there is none.
fn proved_of_many(
    callers: &[AbstractFrame],
    innermost: &AbstractFrame,
    other: ProvedBytes,
) -> ProvedBytes {
    let mut voted = Vote {
        identity: 0,
        votes: 0,
    };
    for frame in callers {
        cast_votes(&mut voted, other, frame);
    }
    cast_votes(&mut voted, other, innermost);
    if voted.votes == 0 {
        return NOTHING;
    }
    let mut found = Pointers {
        identity: voted.identity,
        count: 0,
        least: u32::MAX,
    };
    for frame in callers {
        count_in(&mut found, frame);
    }
    count_in(&mut found, innermost);
    let (Ok(identity), Ok(bytes)) = (u16::try_from(found.identity), u16::try_from(found.least))
    else {
        return NOTHING;
    };
    match found.count < MANY {
        true => NOTHING,
        false => ProvedBytes { identity, bytes },
    }
}

/// Returns whether call frames may have many pointers.
fn may_have_many_in(callers: &[AbstractFrame], innermost: &AbstractFrame) -> bool {
    !callers.is_empty() || innermost.stack.known_from() <= FRAME_SLOTS - MANY
}

/// Returns whether a state may have many pointers.
pub fn may_have_many(state: &State) -> bool {
    may_have_many_in(state.callers.as_slice(), &state.innermost)
}

/// Returns whether something is proved of many pointers of these call frames.
pub fn has_proved(callers: &[AbstractFrame], innermost: &AbstractFrame) -> bool {
    may_have_many_in(callers, innermost) && proved_of_many(callers, innermost, NOTHING).bytes != 0
}

/// Leaves out of a state what is proved of all pointers of an identity that has many, and is not
/// the other one, and returns it.
#[inline(never)]
pub fn take_proved(state: &mut State, other: ProvedBytes) -> ProvedBytes
    ensures taken { with_proved result state.new ≡ state.old }
    ensures none { result.bytes ≡ 0 → state.new ≡ state.old }
{
    let proved = proved_of_many(state.callers.as_slice(), &state.innermost, other);
    if proved.bytes == 0 || !is_known_in(proved, state) {
        return NOTHING;
    }
    leave_out_of_frames(proved, state.callers.as_mut_slice());
    leave_out_of_frame(proved, &mut state.innermost);
    proved
}

#[inline(never)]
fn learn(state: &mut State, proved: ProvedBytes)
    ensures { state.new ≡ with_proved proved state.old }
{
    state.learn(Fact::Proved {
        identity: u32::from(proved.identity),
        bytes: u32::from(proved.bytes),
    });
}

/// It becomes known in a state.
#[inline(always)]
pub fn give_proved(state: &mut State, proved: ProvedBytes)
    ensures { state.new ≡ with_proved proved state.old }
{
    if proved.bytes != 0 {
        learn(state, proved);
    }
}
