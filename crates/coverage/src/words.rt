//! Instructions, values and places in memory as words.

use disassembler::write_insn;
use explanations::value_lines;
use isa_model::{AluOp, Insn, Operand, Place, Reg, Region, Value, Width};
use std::alloc::{AllocError, Global};

/// Says what r0 to r10 hold.
pub type RegisterValues = [Value; 11];

/// The canonical text of an instruction, without the end of its line.
pub fn insn_words(alloc: Global, insn: &Insn) -> Result<String, AllocError> {
    let mut bytes = Vec::new(alloc);
    if write_insn(&mut bytes, insn).is_err() {
        return Err(AllocError);
    }
    match String::from_utf8(bytes) {
        Ok(text) => String::from_str(alloc, text.as_str().trim_end()),
        Err(_) => Err(AllocError),
    }
}

/// Returns what a register holds, in the words of `trace`.
pub fn register_words(
    alloc: Global,
    registers: &RegisterValues,
    register: Reg,
) -> Result<String, AllocError> {
    let moved = Insn::Alu(
        Width::Full64,
        AluOp::Mov,
        register,
        Operand::Register(register),
    );
    let line = value_lines(alloc, registers, &moved)?;
    match line.as_str().trim_end().split_once(": ") {
        Some((_, words)) => String::from_str(alloc, words),
        None => Ok(String::new(alloc)),
    }
}

/// The words of a value, where r10 holds this.
pub fn value_words(alloc: Global, own: Value, value: Value) -> Result<String, AllocError> {
    let mut registers = [value; 11];
    registers[Reg::R10.number()] = own;
    register_words(alloc, &registers, Reg::R0)
}

/// The words of a place in memory to which a pointer leads, where r10 holds this.
pub fn place_words(
    alloc: Global,
    own: Value,
    value: Value,
    place: Place,
) -> Result<String, AllocError> {
    let Value::Ptr(region, offset) = value else {
        return String::from_str(alloc, "memory");
    };
    let offset = offset.saturating_add(i64::from(place.offset));
    match (region, own) {
        (Region::Packet, _) => format!(in alloc; "packet {offset}"),
        (Region::Context, _) => format!(in alloc; "context {offset}"),
        (Region::PacketEnd, _) => format!(in alloc; "packet end {offset}"),
        (Region::Map(map), _) => format!(in alloc; "map {map}"),
        (Region::MapValue(map, _), _) => format!(in alloc; "value of map {map} at {offset}"),
        (Region::CallFrame(serial), Value::Ptr(Region::CallFrame(running), _)) => {
            if serial == running {
                format!(in alloc; "stack {offset}")
            } else {
                format!(in alloc; "stack {offset} of another call")
            }
        }
        (Region::CallFrame(_), _) => format!(in alloc; "stack {offset} of another call"),
    }
}
