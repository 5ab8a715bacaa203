//! The abstract states of tests, by what is in them.

use arrayvec::ArrayVec;
use isa_model::Width;
use reg_state::{Domain, Kind, Scalar};
use stack_state::{AbstractFrame, MAX_CALLERS, StackSlot, State};

/// Says what a register or a stack slot holds.
pub enum Held {
    AnyNumber,
    Number(u64),
    Context,
    /// A packet pointer at up to 60 bytes, by its identity and how many bytes are proved.
    Packet(u32, u32),
}

fn kind_of(held: &Held) -> Kind {
    match held {
        Held::AnyNumber => Kind::Number(Scalar::any(Width::Full64)),
        Held::Number(number) => Kind::Number(Scalar::constant(*number)),
        Held::Context => Kind::Context,
        Held::Packet(identity, proved) => Kind::Packet {
            fixed: 0,
            identity: *identity,
            least: 0,
            greatest: 60,
            proved: *proved,
        },
    }
}

/// Says what is put into a call frame.
pub enum Put {
    Register(usize, Held),
    Spill(usize, Held),
    /// The bytes of a stack slot that are written.
    Written(usize, u8),
}

fn frame_with(frame: AbstractFrame, put: &Put) -> AbstractFrame {
    let mut frame = frame;
    match put {
        Put::Register(index, held) => {
            if *index < 10 {
                frame.registers[*index] = kind_of(held);
            }
        }
        Put::Spill(index, held) => {
            if *index < 64 {
                frame.stack.set(*index, StackSlot::Spilled(kind_of(held)));
            }
        }
        Put::Written(index, marks) => {
            if *index < 64 {
                frame.stack.set(*index, StackSlot::Written(*marks));
            }
        }
    }
    frame
}

/// A frame into which only this was put.
fn frame_of(return_slot: usize, puts: &[Put]) -> AbstractFrame {
    let mut frame = AbstractFrame::default();
    frame.return_slot = return_slot;
    for put in puts {
        frame = frame_with(frame, put);
    }
    frame
}

/// An abstract state.
pub enum Sample {
    /// With one call frame, at a slot.
    Outer(usize, &'static [Put]),
    /// In a function that was called, at slot 3: where its exit leads, the caller's frame, and its
    /// own.
    InCall(usize, &'static [Put], &'static [Put]),
}

fn state_with(
    slot: usize,
    callers: ArrayVec<AbstractFrame, MAX_CALLERS>,
    innermost: AbstractFrame,
) -> State {
    State {
        slot,
        callers,
        innermost,
    }
}

pub fn state_of(sample: &Sample) -> State {
    match sample {
        Sample::Outer(slot, own) => state_with(*slot, ArrayVec::new(), frame_of(0, *own)),
        Sample::InCall(return_slot, outer, own) => {
            let mut callers = ArrayVec::new();
            callers.push(frame_of(0, *outer));
            state_with(3, callers, frame_of(*return_slot, *own))
        }
    }
}
