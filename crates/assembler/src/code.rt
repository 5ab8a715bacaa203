//! The instructions of a text, in their order, and the slots that they fill.

ghost use Rattle.std.specs.Prelude.{◌≡◌, ◌≤◌, ◌+◌, [], length};
ghost use Rattle.isa_model.specs.Code.Instructions.{slots};
ghost use Rattle.isa_model.specs.Code.Limits.{max_slots};

use super::errors::AsmErrorKind;
use isa_model::{Insn, MAX_SLOTS};
use std::alloc::Global;

/// The instructions so far, and how many slots they fill.
#[derive(Drop)]
pub struct AssembledCode {
    pub insns: Vec<Insn>,
    count: u16,
    ghost counted: { count ≡ length (slots insns.items) },
    ghost few: { count ≤ max_slots },
}

impl AssembledCode {
    ghost use Rattle.assembler.specs.Assembling.{with_insn};
    ghost use Rattle.assembler.specs.Labels.{Makes};

    /// No instructions.
    pub fn new(alloc: Global) -> Self
        ensures { result.insns.items ≡ [] }
    {
        AssembledCode {
            insns: Vec::new(alloc),
            count: 0,
        }
    }

    /// The slot of the next instruction.
    pub fn next_slot(&self) -> u16
        ensures { result ≡ length (slots self.now.insns.items) }
    {
        self.count
    }

    /// Adds an instruction, unless its slots are too many.
    pub fn push(&mut self, insn: Insn) -> Result<(), AsmErrorKind>
        ensures { Makes (λ _. self.new.insns.items) result (with_insn self.old.insns.items insn) }
    {
        let count = self.count + insn.slots() as u16;
        if count > MAX_SLOTS {
            return Err(AsmErrorKind::SlotCount);
        }
        match self.insns.push(insn) {
            Ok(()) => {
                self.count = count;
                Ok(())
            }
            Err(_) => Err(AsmErrorKind::Memory),
        }
    }

    /// The instructions.
    pub fn into_insns(self) -> Vec<Insn>
        ensures { result.items ≡ self.insns.items }
    {
        let AssembledCode { insns, count: _ } = self;
        insns
    }
}
