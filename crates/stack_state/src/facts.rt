//! What becomes known of values wherever they are: in registers and slots of all live call frames.

ghost use Rattle.std.specs.Prelude.{◌≡◌, ◌<◌, map, slice_set};
ghost use Rattle.stack_state.specs.Slots.{frame_slots, slot_at};
ghost use Rattle.stack_state.specs.Effects.{proved_kind, tested_kind, with_spilled, with_kinds, map_kinds};
ghost use Rattle.stack_state.specs.Calls.{without_frame};
ghost use Rattle.stack_state.specs.Facts.{learned, is_plain};

use crate::slots::StackSlot;
use crate::stacks::{FRAME_SLOTS, StackState};
use crate::states::{AbstractFrame, State};
use reg_state::{Kind, Scalar};

/// Says what a test shows of an identity, or what an exit leaves of the frame that ends.
#[derive(Clone, Copy)]
pub enum Fact {
    /// `bytes` bytes after its variable part are in the packet.
    Proved {
        identity: u32,
        bytes: u32,
    },
    /// The answer of a look-up is null, or a pointer to a live map value; `zero` is what null is
    /// then known as: the number 0.
    Tested {
        identity: u32,
        null: bool,
        zero: Scalar,
    },
    /// The frame has ended, counted from the outermost, 0: what points into it is forgotten.
    Ended {
        frame: u8,
    },
}

/// Returns what is known of a value once the bytes are proved.
fn proved_kind(kind: Kind, identity: u32, bytes: u32) -> Kind
    ensures { result ≡ proved_kind identity bytes kind }
{
    match kind {
        Kind::Packet {
            fixed,
            identity: name,
            least,
            greatest,
            proved,
        } => {
            if name == identity && proved < bytes {
                Kind::Packet {
                    fixed,
                    identity: name,
                    least,
                    greatest,
                    proved: bytes,
                }
            } else {
                kind
            }
        }
        kind => kind,
    }
}

/// Returns what is known of a value once it is known whether values of its identity are null.
fn tested_kind(kind: Kind, identity: u32, null: bool, zero: Scalar) -> Kind
    ensures { result ≡ tested_kind identity null zero kind }
{
    match kind {
        Kind::MapValueOrNull {
            index,
            identity: name,
        } => {
            if name != identity {
                kind
            } else if null {
                Kind::Number(zero)
            } else {
                Kind::MapValue {
                    index,
                    least: 0,
                    greatest: 0,
                }
            }
        }
        kind => kind,
    }
}

/// Returns what is known of a value once the frame has ended.
fn without_frame(kind: Kind, frame: u8) -> Kind
    ensures { result ≡ without_frame frame kind }
{
    match kind {
        Kind::Stack { frame: into, .. } => { if into == frame { Kind::Unset } else { kind } }
        kind => kind,
    }
}

fn learned_kind(fact: Fact, kind: Kind) -> Kind
    ensures { result ≡ learned fact kind }
{
    match fact {
        Fact::Proved { identity, bytes } => proved_kind(kind, identity, bytes),
        Fact::Tested {
            identity,
            null,
            zero,
        } => tested_kind(kind, identity, null, zero),
        Fact::Ended { frame } => without_frame(kind, frame),
    }
}

/// Returns whether no fact is about a value. Most values are like that, and are not written again.
#[inline(always)]
fn is_plain(kind: &Kind) -> bool
    ensures { result ≡ is_plain kind.now }
{
    match kind {
        Kind::Packet { .. } | Kind::MapValueOrNull { .. } | Kind::Stack { .. } => false,
        _ => true,
    }
}

#[inline(always)]
fn learn_kind(fact: Fact, kind: &mut Kind)
    ensures { kind.new ≡ learned fact kind.old }
{
    if is_plain(kind) {
        return;
    }
    *kind = learned_kind(fact, *kind);
}

fn learn_kinds(fact: Fact, kinds: &mut [Kind])
    ensures { kinds.new ≡ map (learned fact) kinds.old }
{
    for index in 0..kinds.len() {
        learn_kind(fact, &mut kinds[index]);
    }
}

fn learn_slot(fact: Fact, index: usize, stack: &mut StackState)
    requires { index < frame_slots }
    ensures { stack.new.slots ≡ slice_set stack.old.slots index
        (with_spilled (learned fact) (slot_at stack.old.slots index)) }
{
    let StackSlot::Spilled(kind) = &stack.slots()[index] else {
        return;
    };
    if is_plain(kind) {
        return;
    }
    let kind = learned_kind(fact, *kind);
    stack.set(index, StackSlot::Spilled(kind));
}

fn learn_slots(fact: Fact, stack: &mut StackState)
    ensures { stack.new.slots ≡ map (with_spilled (learned fact)) stack.old.slots }
{
    for index in stack.known_from()..FRAME_SLOTS {
        learn_slot(fact, index, stack);
    }
}

fn learn_frame(fact: Fact, frame: &mut AbstractFrame)
    ensures { frame.new ≡ with_kinds (learned fact) frame.old }
{
    learn_kinds(fact, &mut frame.registers);
    learn_slots(fact, &mut frame.stack);
}

fn learn_frames(fact: Fact, frames: &mut [AbstractFrame])
    ensures { frames.new ≡ map (with_kinds (learned fact)) frames.old }
{
    for index in 0..frames.len() {
        learn_frame(fact, &mut frames[index]);
    }
}

impl State {
    /// Applies a fact to all values that it is about: in registers, in those that calls saved, and
    /// in spilled slots of all live frames.
    pub fn learn(&mut self, fact: Fact)
        ensures { self.new ≡ map_kinds (learned fact) self.old }
    {
        learn_frames(fact, self.callers.as_mut_slice());
        learn_frame(fact, &mut self.innermost);
    }
}
