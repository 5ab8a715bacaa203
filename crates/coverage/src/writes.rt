//! What a step writes: registers, and bytes of memory.

use crate::bytes::{is_same_value, number_in, number_words};
use crate::reads::{Held, push_register};
use crate::words::{place_words, value_words};
use crate::{StepTaken, operand_of};
use isa_model::numbers::{compute, truncate, unsigned};
use isa_model::{AluOp, AtomicOp, Insn, Reg, Value, Width};
use std::alloc::{AllocError, Global};

/// The registers r0 to r10.
const REGISTERS: [Reg; 11] = [
    Reg::R0,
    Reg::R1,
    Reg::R2,
    Reg::R3,
    Reg::R4,
    Reg::R5,
    Reg::R6,
    Reg::R7,
    Reg::R8,
    Reg::R9,
    Reg::R10,
];

/// Adds the registers that hold another value after a call or an exit, those aside that are unset
/// then.
fn push_changed(
    alloc: Global,
    held: &mut Vec<Held>,
    before: &[Value; 11],
    after: &[Value; 11],
) -> Result<(), AllocError> {
    for register in REGISTERS {
        let value = after[register.number()];
        let is_kept = is_same_value(before[register.number()], value);
        if !is_kept && !matches!(value, Value::Unset) {
            push_register(alloc, held, after, register)?;
        }
    }
    Ok(())
}

/// The number in a register, if it is one.
fn number_of(registers: &[Value; 11], register: Reg) -> Option<u64> {
    match registers[register.number()] {
        Value::Num(number) => Some(number),
        _ => None,
    }
}

/// The operation of an atomic instruction.
fn atomic_alu(op: AtomicOp) -> AluOp {
    match op {
        AtomicOp::Add => AluOp::Add,
        AtomicOp::Or => AluOp::Or,
        AtomicOp::And => AluOp::And,
        AtomicOp::Xor => AluOp::Xor,
    }
}

/// The number that an atomic instruction writes over the old one.
fn exchanged(step: &StepTaken, insn: &Insn, old: u64) -> Option<u64> {
    let registers = &step.registers;
    match insn {
        Insn::Atomic(width, op, _, _, source) => {
            let operand = number_of(registers, *source)?;
            Some(compute(atomic_alu(*op), *width, old, operand))
        }
        Insn::Exchange(_, _, source) => number_of(registers, *source),
        Insn::CompareExchange(width, _, source) => {
            let expected = number_of(registers, Reg::R0)?;
            let is_equal = old == truncate(*width, expected);
            if is_equal {
                number_of(registers, *source)
            } else {
                Some(old)
            }
        }
        _ => None,
    }
}

/// The value that an instruction writes to memory, if it writes one.
fn stored(step: &StepTaken, insn: &Insn) -> Option<Value> {
    match insn {
        Insn::StoreConstant(_, _, k) => Some(Value::Num(unsigned(Width::Full64, *k))),
        Insn::Store(_, _, source) => Some(step.registers[source.number()]),
        _ => {
            let old = number_in(step.cells.as_slice())?;
            Some(Value::Num(exchanged(step, insn, old)?))
        }
    }
}

/// Adds the bytes of memory that a step wrote.
fn push_stored(
    alloc: Global,
    held: &mut Vec<Held>,
    step: &StepTaken,
    insn: &Insn,
) -> Result<(), AllocError> {
    let Some((place, count)) = operand_of(insn) else {
        return Ok(());
    };
    let Some(value) = stored(step, insn) else {
        return Ok(());
    };
    let own = step.registers[Reg::R10.number()];
    let base = step.registers[place.base.number()];
    let name = place_words(alloc, own, base, place)?;
    let words = match value {
        Value::Num(number) => number_words(alloc, number, count)?,
        pointer => value_words(alloc, own, pointer)?,
    };
    held.push(Held { name, words })?;
    Ok(())
}

/// What a step wrote that did not end the run, where the registers hold this after it.
pub fn written_by(
    alloc: Global,
    step: &StepTaken,
    after: &[Value; 11],
) -> Result<Vec<Held>, AllocError> {
    let mut held = Vec::new(alloc);
    let Some(insn) = step.insn else {
        return Ok(held);
    };
    match insn {
        Insn::CallHelper(_) => push_register(alloc, &mut held, after, Reg::R0)?,
        Insn::CallLocal(_) | Insn::Exit => {
            push_changed(alloc, &mut held, &step.registers, after)?;
        }
        _ => {
            if let Some(register) = insn.written() {
                push_register(alloc, &mut held, after, register)?;
            }
            push_stored(alloc, &mut held, step, &insn)?;
        }
    }
    Ok(held)
}
