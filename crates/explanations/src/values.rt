//! What registers held where a run stopped, as text.

ghost use Rattle.std.specs.Prelude.{◌≡◌, ◌++◌, IfOk, option_to_list};
ghost use Rattle.std.specs.List.{flat_map};
ghost use Rattle.std.specs.String.{string_bytes};
ghost use Rattle.isa_model.specs.Code.Registers.{reg_number};
ghost use Rattle.isa_model.specs.Machine.States.{value_at};
ghost use Rattle.explanations.specs.Values as spec;
ghost use Rattle.explanations.specs.Values.{owner_of, region_words, value_words, value_lines};

use crate::lines::concerned;
use isa_model::{Insn, Reg, Region, Value};
use std::alloc::{AllocError, Global};

/// Says what r0 to r10 hold.
type RegisterValues = [Value; 11];

/// Whose frame pointer it is, where r10 holds this.
fn owner_of(serial: u64, own: Value) -> &'static str
    ensures { result.now ≡ owner_of serial own }
{
    match own {
        Value::Ptr(Region::CallFrame(running), _) => {
            if serial == running {
                ""
            } else {
                " of another call"
            }
        }
        _ => " of another call",
    }
}

/// A pointer, where r10 holds this.
fn region_words(
    alloc: Global,
    own: Value,
    region: Region,
    offset: &str,
) -> Result<String, AllocError>
    ensures { IfOk result (λ text. string_bytes text ≡ region_words own region offset.now) }
{
    match region {
        Region::Context => format!(in alloc; "context pointer at {offset}"),
        Region::Packet => format!(in alloc; "packet pointer at {offset}"),
        Region::PacketEnd => format!(in alloc; "packet end at {offset}"),
        Region::Map(map) => format!(in alloc; "map {map}"),
        Region::CallFrame(serial) => {
            let owner = owner_of(serial, own);
            format!(in alloc; "frame pointer at {offset}{owner}")
        }
        Region::MapValue(map, _) => format!(in alloc; "value of map {map} at {offset}"),
    }
}

/// Returns what a register held, where r10 held this.
fn value_words(alloc: Global, own: Value, value: Value) -> Result<String, AllocError>
    ensures { IfOk result (λ text. string_bytes text ≡ value_words own value) }
{
    match value {
        Value::Unset => String::from_str(alloc, "unset"),
        Value::Num(number) => {
            let number = number.cast_signed();
            format!(in alloc; "number {number}")
        }
        Value::Ptr(region, offset) => {
            let offset = format!(in alloc; "{offset}")?;
            region_words(alloc, own, region, offset.as_str())
        }
    }
}

/// Returns what a register held.
fn value_of(registers: &RegisterValues, register: Reg) -> Value
    ensures { result ≡ value_at registers.now (reg_number register) }
{
    registers[register.number()]
}

/// The line of a register, if there is one.
#[tactic(auto, using(crate::proofs::Texts::flat_map_one))]
fn value_line(
    alloc: Global,
    registers: &RegisterValues,
    register: Option<Reg>,
) -> Result<String, AllocError>
    ensures { IfOk result (λ text. string_bytes text
        ≡ flat_map (spec.value_line registers.now) (option_to_list register)) }
{
    let Some(register) = register else {
        return Ok(String::new(alloc));
    };
    let number = register.number();
    let own = value_of(registers, Reg::R10);
    let words = value_words(alloc, own, value_of(registers, register))?;
    format!(in alloc; "r{number}: {words}\n")
}

/// Returns what the registers that concern an instruction held, a line each.
#[tactic(auto, using(crate::proofs::Texts::flat_map_four), unfolding(crate::specs::Values::value_lines))]
pub fn value_lines(
    alloc: Global,
    registers: &RegisterValues,
    insn: &Insn,
) -> Result<String, AllocError>
    ensures { IfOk result (λ text. string_bytes text ≡ value_lines registers.now insn.now) }
{
    let (first, second, third, fourth) = concerned(insn);
    let first = value_line(alloc, registers, first)?;
    let second = value_line(alloc, registers, second)?;
    let third = value_line(alloc, registers, third)?;
    let fourth = value_line(alloc, registers, fourth)?;
    format!(in alloc; "{first}{second}{third}{fourth}")
}
