//! How often each instruction was run, and how often each conditional jump went each way.
ghost use Rattle.std.specs.Prelude.{◌≡◌, [], IfOk, Option, Some, List, length};
ghost use Rattle.isa_model.specs.declared.instructions.Insn.{Insn};
ghost use Rattle.checked_vm.specs.Machine.{state_of};
ghost use Rattle.coverage.specs.Hits.{HasCounted, way_by, way_of};

use crate::counting::{add_one, zeros};
use checked_vm::{Core, Watcher};
use isa_model::Insn;
use std::alloc::{AllocError, Global};

/// Counts by slot. At a slot where no conditional jump begins, none of them went any way.
#[derive(Drop)]
pub struct SlotHits {
    /// Says how often a step began at the slot.
    pub runs: Vec<u64>,
    /// Says how often the test of the conditional jump there held.
    pub jumped: Vec<u64>,
    /// Says how often it did not hold.
    pub fell: Vec<u64>,
}

/// Returns whether the test of a conditional jump holds in a state; `None` where there is no test,
/// or no answer.
#[inline(always)]
fn way_by(core: &Core, packet: &[u8], insn: &Insn) -> Option<bool>
    ensures { result ≡ way_by (state_of core.now packet.now) (Some insn.now) }
{
    match insn {
        Insn::JumpIf(cond, _) => core.test(*cond, packet.len()).ok(),
        _ => None,
    }
}

/// The same of the instruction that begins at the state's slot.
#[inline(always)]
fn way_of(insns: &[Option<Insn>], core: &Core, packet: &[u8]) -> Option<bool>
    ensures { result ≡ way_of insns.now (state_of core.now packet.now) }
{
    match insns.get(core.slot) {
        Some(Some(insn)) => way_by(core, packet, insn),
        _ => None,
    }
}

impl SlotHits {
    /// No counts yet, of code of so many slots.
    pub fn new(alloc: Global, slots: usize) -> Result<Self, AllocError>
        ensures { IfOk result (λ hits. (insns : List (Option Insn)) → length insns ≡ slots
            → HasCounted hits insns []) }
    {
        Ok(SlotHits {
            runs: zeros(alloc, slots)?,
            jumped: zeros(alloc, slots)?,
            fell: zeros(alloc, slots)?,
        })
    }
}

impl Watcher for SlotHits {
    ghost use Rattle.coverage.specs.Hits.{HasCounted};

    ghost has_seen = { λ hits insns states. HasCounted hits insns states };

    #[inline(always)]
    fn see(&mut self, insns: &[Option<Insn>], core: &Core, packet: &[u8]) {
        add_one(&mut self.runs, core.slot);
        match way_of(insns, core, packet) {
            Some(true) => add_one(&mut self.jumped, core.slot),
            Some(false) => add_one(&mut self.fell, core.slot),
            None => {}
        }
    }
}
