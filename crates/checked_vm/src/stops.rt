//! Where a run stopped.

use isa_model::{End, Insn, Value};

/// Says where a run stopped: at the instruction that trapped or was the last exit, or before the
/// first one that the limit excludes.
#[derive(Clone, Copy)]
pub struct RunEnd {
    pub end: End,
    pub slot: usize,
    /// The instruction that begins there.
    pub insn: Option<Insn>,
    /// Says what r0 to r10 held there.
    pub registers: [Value; 11],
}
