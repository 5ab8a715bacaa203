//! What a BPF program of type XDP means: the types, the plain functions that compute on
//! numbers, and in `specs/` the definitions that every other crate's contracts cite.
//!
//! `docs/MEANING.md` says the same in prose, with the sections of RFC 9669.
#![tactic(auto)]

pub mod clocks;
pub mod ends;
pub mod frames;
pub mod helpers;
pub mod instructions;
pub mod jumps;
pub mod limits;
pub mod map_defs;
pub mod numbers;
pub mod registers;
pub mod sizes;
pub mod slots;
pub mod streams;
pub mod values;
pub mod versions;

pub use clocks::Clock;
pub use ends::{End, TrapReason};
pub use frames::{Action, FrameHead};
pub use helpers::Helper;
pub use instructions::{AluOp, AtomicOp, Comparison, Cond, Insn, Operand, Place};
pub use jumps::destination;
pub use limits::{
    MAX_CALL_FRAMES, MAX_EXPLORED, MAX_KEY_SIZE, MAX_MAP_ENTRIES, MAX_MAP_ROOM, MAX_MAPS,
    MAX_PACKET, MAX_SHORT_PACKET, MAX_SLOTS, MAX_STEPS, MAX_VALUE_SIZE, OFFSET_LIMIT, STACK_SIZE,
};
pub use map_defs::{MapDef, MapType};
pub use registers::Reg;
pub use sizes::{ByteOrder, Extension, SignedSize, Size, SwapWidth, Width};
pub use slots::Slot;
pub use streams::{Fault, Finish};
pub use values::{CallFrame, Cell, Region, Value};
pub use versions::Version;
