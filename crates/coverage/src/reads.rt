//! What a step reads: registers, and bytes of memory.

use crate::bytes::cell_words;
use crate::words::{place_words, register_words};
use crate::{StepTaken, operand_of};
use isa_model::{Insn, Reg, Value};
use std::alloc::{AllocError, Global};

/// A register or a place in memory, and what it holds.
#[derive(Drop)]
pub struct Held {
    pub name: String,
    pub words: String,
}

/// Adds what a register holds.
pub fn push_register(
    alloc: Global,
    held: &mut Vec<Held>,
    registers: &[Value; 11],
    register: Reg,
) -> Result<(), AllocError> {
    let number = register.number();
    let name = format!(in alloc; "r{number}")?;
    let words = register_words(alloc, registers, register)?;
    held.push(Held { name, words })?;
    Ok(())
}

/// Adds what the registers hold that an instruction reads, each once; an exit reads r0.
fn push_read(
    alloc: Global,
    held: &mut Vec<Held>,
    step: &StepTaken,
    insn: &Insn,
) -> Result<(), AllocError> {
    let (first, second, third, fourth) = match insn {
        Insn::Exit => (Some(Reg::R0), None, None, None),
        insn => insn.read(),
    };
    let mut seen = [false; 11];
    for register in [first, second, third, fourth] {
        if let Some(register) = register {
            if !seen[register.number()] {
                seen[register.number()] = true;
                push_register(alloc, held, &step.registers, register)?;
            }
        }
    }
    Ok(())
}

/// Returns whether an instruction reads its operand in memory: each does but a store.
fn is_reading_memory(insn: &Insn) -> bool {
    !matches!(insn, Insn::Store(_, _, _) | Insn::StoreConstant(_, _, _))
}

/// What a step reads.
pub fn read_by(alloc: Global, step: &StepTaken) -> Result<Vec<Held>, AllocError> {
    let mut held = Vec::new(alloc);
    let Some(insn) = step.insn else {
        return Ok(held);
    };
    push_read(alloc, &mut held, step, &insn)?;
    if step.cells.is_empty() || !is_reading_memory(&insn) {
        return Ok(held);
    }
    if let Some((place, _)) = operand_of(&insn) {
        let own = step.registers[Reg::R10.number()];
        let base = step.registers[place.base.number()];
        let name = place_words(alloc, own, base, place)?;
        let words = cell_words(alloc, own, step.cells.as_slice())?;
        held.push(Held { name, words })?;
    }
    Ok(held)
}
