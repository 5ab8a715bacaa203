//! The lines that show an abstract state.

use explanations::{kind_words, slot_line};
use isa_model::{MAX_CALL_FRAMES, Reg, STACK_SIZE};
use reg_state::Kind;
use stack_state::{StackSlot, State};
use std::alloc::{AllocError, Global};

const REGISTERS: [Reg; 10] = [
    Reg::R0,
    Reg::R1,
    Reg::R2,
    Reg::R3,
    Reg::R4,
    Reg::R5,
    Reg::R6,
    Reg::R7,
    Reg::R8,
    Reg::R9,
];

/// Adds a line for each of r0 to r9 that is set.
fn put_registers(alloc: Global, state: &State, text: &mut String) -> Result<(), AllocError> {
    let innermost = state.callers.len();
    for register in REGISTERS {
        let kind = state.kind_of(register);
        if kind != Kind::Unset {
            let number = register.number();
            let kind_text = kind_words(alloc, innermost, kind)?;
            let line = format!(in alloc; "    r{number}: {kind_text}\n")?;
            text.push_str(line.as_str())?;
        }
    }
    Ok(())
}

/// Returns whether something is known about a stack slot.
fn is_known(state: &State, frame: u8, stack_slot: usize) -> bool {
    match state.stack_of(frame) {
        Some(stack) => match stack.slots().get(stack_slot) {
            Some(known) => *known != StackSlot::Written(0),
            None => false,
        },
        None => false,
    }
}

/// Adds a line for each stack slot of a call frame about which something is known.
fn put_frame(alloc: Global, state: &State, frame: u8, text: &mut String) -> Result<(), AllocError> {
    for stack_slot in 0..STACK_SIZE / 8 {
        if is_known(state, frame, stack_slot) {
            let line = slot_line(alloc, state, frame, stack_slot)?;
            text.push_str("    ")?;
            text.push_str(line.as_str())?;
        }
    }
    Ok(())
}

/// Adds the lines of a state: the registers of its innermost call frame, and the stacks of all of
/// them, innermost first.
pub fn put_state(alloc: Global, state: &State, text: &mut String) -> Result<(), AllocError> {
    put_registers(alloc, state, text)?;
    let innermost = state.callers.len();
    for up in 0..MAX_CALL_FRAMES {
        if up <= innermost {
            put_frame(alloc, state, (innermost - up) as u8, text)?;
        }
    }
    Ok(())
}
