//! The parts of an instruction, appended to a line.

ghost use Rattle.std.specs.Prelude.{◌≡◌, ◌+◌, ◌≤◌, ◌++◌, length};
ghost use Rattle.arrayvec.specs.ArrayString.{array_string_len};
ghost use Rattle.isa_model.specs.Text.CanonicalText.{reg_text, operand_text, place_text};
ghost use Rattle.disassembler.specs.Parts.{memory_text};

use super::numbers::{TextLine, push_offset, push_signed};
use super::words::reg_digits;
use isa_model::{Operand, Place, Reg, Width};

/// Appends a register: `w3` for its low half, `r3` for all of it.
pub fn push_reg(line: &mut TextLine, width: Width, register: Reg)
    requires { array_string_len line.old + 3 ≤ 96 }
    ensures bytes { line.new.bytes ≡ line.old.bytes ++ reg_text width register }
    ensures len { array_string_len line.new ≤ array_string_len line.old + 3 }
{
    match width {
        Width::Low32 => line.push_str("w"),
        Width::Full64 => line.push_str("r"),
    }
    line.push_str(reg_digits(register));
}

/// Appends a right operand.
pub fn push_operand(line: &mut TextLine, width: Width, operand: Operand)
    requires { array_string_len line.old + 20 ≤ 96 }
    ensures bytes { line.new.bytes ≡ line.old.bytes ++ operand_text width operand }
    ensures len { array_string_len line.new ≤ array_string_len line.old + 20 }
{
    match operand {
        Operand::Constant(number) => push_signed(line, number),
        Operand::Register(register) => push_reg(line, width, register),
    }
}

/// Appends a place in memory: `r10 - 8`.
pub fn push_place(line: &mut TextLine, place: Place)
    requires { array_string_len line.old + 26 ≤ 96 }
    ensures bytes { line.new.bytes ≡ line.old.bytes ++ place_text place }
    ensures len { array_string_len line.new ≤ array_string_len line.old + 26 }
{
    push_reg(line, Width::Full64, place.base);
    line.push_str(" ");
    push_offset(line, place.offset);
}

/// Appends memory of a size, whose word is `size`: `*(u32 *)(r10 - 8)`.
pub fn push_memory(line: &mut TextLine, size: &str, place: Place)
    requires short { length size.now ≤ 3 }
    requires room { array_string_len line.old + 36 ≤ 96 }
    ensures bytes { line.new.bytes ≡ line.old.bytes ++ memory_text size.now place }
    ensures len { array_string_len line.new ≤ array_string_len line.old + 36 }
{
    line.push_str("*(");
    line.push_str(size);
    line.push_str(" *)(");
    push_place(line, place);
    line.push_str(")");
}
