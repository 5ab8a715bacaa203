//! The registers and stack slots that concern a refused instruction, a line each, and the line of
//! the last jumps on the path to it.

ghost use Rattle.std.specs.Prelude.{◌≡◌, ◌++◌, ◌+◌, ◌<◌, ◌^◌, IfOk, MatchOption, None, Some, length, option_to_list};
ghost use Rattle.std.specs.List.{flat_map};
ghost use Rattle.std.specs.Option.{option_copied};
ghost use Rattle.std.specs.String.{string_bytes};
ghost use Rattle.isa_model.specs.Code.Helpers.{helper_numbered};
ghost use Rattle.explanations.specs.Lines as spec;
ghost use Rattle.explanations.specs.Lines.{concerned, register_lines, called_row, stack_lines, is_same, jump_words, taken_words, way_words};

use crate::kinds::kind_words;
use crate::numbers::half_words;
use crate::slots::{byte_at, first_open, slot_line};
use isa_model::{Helper, Insn, MapDef, Place, Reg};
use reg_state::Kind;
use stack_state::{FRAME_SLOTS, State};
use std::alloc::{AllocError, Global};
use transfer::Refusal as StepRefusal;
use walks::{Jump, Refusal};

// ---- registers

/// At most four registers.
pub type Registers = (Option<Reg>, Option<Reg>, Option<Reg>, Option<Reg>);

/// The registers that concern an instruction.
pub fn concerned(insn: &Insn) -> Registers
    ensures { option_to_list result.0 ++ option_to_list result.1 ++ option_to_list result.2
        ++ option_to_list result.3 ≡ concerned insn.now }
{
    match insn {
        Insn::Exit => (Some(Reg::R0), None, None, None),
        insn => insn.read(),
    }
}

/// The line of a register, if there is one.
#[tactic(auto, using(crate::proofs::Texts::flat_map_one))]
fn register_line(alloc: Global, state: &State, register: Option<Reg>) -> Result<String, AllocError>
    ensures { IfOk result (λ text. string_bytes text
        ≡ flat_map (spec.register_line state.now) (option_to_list register)) }
{
    let Some(register) = register else {
        return Ok(String::new(alloc));
    };
    let number = register.number();
    let words = kind_words(alloc, state.callers.len(), state.kind_of(register))?;
    format!(in alloc; "r{number}: {words}\n")
}

/// The lines of the registers that concern an instruction.
#[tactic(auto, using(crate::proofs::Texts::flat_map_four))]
pub fn register_lines(alloc: Global, state: &State, insn: &Insn) -> Result<String, AllocError>
    ensures { IfOk result (λ text. string_bytes text ≡ register_lines state.now insn.now) }
{
    let (first, second, third, fourth) = concerned(insn);
    let first = register_line(alloc, state, first)?;
    let second = register_line(alloc, state, second)?;
    let third = register_line(alloc, state, third)?;
    let fourth = register_line(alloc, state, fourth)?;
    format!(in alloc; "{first}{second}{third}{fourth}")
}

// ---- answers

/// The line of the low half of r0, where an exit is not shown to answer with an action.
pub fn answer_line(alloc: Global, state: &State, refusal: Refusal) -> Result<String, AllocError>
    ensures { IfOk result (λ text. string_bytes text ≡ spec.answer_line state.now refusal) }
{
    let Refusal::Step(StepRefusal::NoAction) = refusal else {
        return Ok(String::new(alloc));
    };
    let Kind::Number(numbers) = state.kind_of(Reg::R0) else {
        return Ok(String::new(alloc));
    };
    let words = half_words(alloc, numbers)?;
    format!(in alloc; "low half of r0: {words}; actions are 0 to 4: mask it (r0 &= 3) or test it\n")
}

// ---- stack slots

/// The line of the stack slot that is read through a place.
fn read_slot_line(alloc: Global, state: &State, place: Place) -> Result<String, AllocError>
    ensures { IfOk result (λ text. string_bytes text ≡ spec.read_slot_line state.now place) }
{
    match state.kind_of(place.base) {
        Kind::Stack { frame, offset } => {
            match byte_at(i64::from(offset) + i64::from(place.offset)) {
                Some(at) => slot_line(alloc, state, frame, at / 8),
                None => Ok(String::new(alloc)),
            }
        }
        _ => Ok(String::new(alloc)),
    }
}

/// The line of the first stack slot of a helper's bytes that is not all written.
fn bytes_line(alloc: Global, state: &State, kind: Kind, count: u32) -> Result<String, AllocError>
    ensures { IfOk result (λ text. string_bytes text ≡ spec.bytes_line state.now kind count) }
{
    let Kind::Stack { frame, offset } = kind else {
        return Ok(String::new(alloc));
    };
    let Some(at) = byte_at(i64::from(offset)) else {
        return Ok(String::new(alloc));
    };
    let slot = at / 8;
    let touched = (at % 8 + count as usize + 7) / 8;
    match first_open(state, frame, slot, touched.min(FRAME_SLOTS - slot)) {
        Some(slot) => slot_line(alloc, state, frame, slot),
        None => Ok(String::new(alloc)),
    }
}

/// The row of the map that a helper is given.
fn called_row(maps: &[MapDef], kind: Kind) -> Option<MapDef>
    ensures { result ≡ called_row maps.now kind }
{
    match kind {
        Kind::Map { index } => maps.get(usize::from(index)).copied(),
        _ => None,
    }
}

/// The lines of the bytes of a helper's key and value.
fn helper_lines(
    alloc: Global,
    maps: &[MapDef],
    state: &State,
    helper: Option<Helper>,
) -> Result<String, AllocError>
    ensures { IfOk result (λ text. string_bytes text
        ≡ spec.helper_lines maps.now state.now helper) }
{
    let Some(row) = called_row(maps, state.kind_of(Reg::R1)) else {
        return Ok(String::new(alloc));
    };
    let key = state.kind_of(Reg::R2);
    let value = state.kind_of(Reg::R3);
    match helper {
        Some(Helper::MapLookupElem | Helper::MapDeleteElem) => {
            bytes_line(alloc, state, key, u32::from(row.key_size))
        }
        Some(Helper::MapUpdateElem) => {
            let key_line = bytes_line(alloc, state, key, u32::from(row.key_size))?;
            let value_line = bytes_line(alloc, state, value, row.value_size)?;
            format!(in alloc; "{key_line}{value_line}")
        }
        Some(Helper::KtimeGetNs) | None => Ok(String::new(alloc)),
    }
}

/// The lines of the stack slots that an instruction reads.
pub fn stack_lines(
    alloc: Global,
    maps: &[MapDef],
    state: &State,
    insn: &Insn,
) -> Result<String, AllocError>
    ensures { IfOk result (λ text. string_bytes text
        ≡ stack_lines maps.now state.now insn.now) }
{
    match *insn {
        Insn::Load(_, _, place) => read_slot_line(alloc, state, place),
        Insn::LoadSx(_, _, place) => read_slot_line(alloc, state, place),
        Insn::Atomic(_, _, _, place, _) => read_slot_line(alloc, state, place),
        Insn::Exchange(_, place, _) => read_slot_line(alloc, state, place),
        Insn::CompareExchange(_, place, _) => read_slot_line(alloc, state, place),
        Insn::CallHelper(number) => helper_lines(alloc, maps, state, Helper::numbered(number)),
        _ => Ok(String::new(alloc)),
    }
}

// ---- the last jumps

fn is_same(one: Jump, other: Jump) -> bool
    ensures { result ≡ is_same one other }
{
    one.from == other.from && one.to == other.to
}

fn jump_words(alloc: Global, jump: Jump) -> Result<String, AllocError>
    ensures { IfOk result (λ text. string_bytes text ≡ jump_words jump) }
{
    let from = jump.from;
    let to = jump.to;
    format!(in alloc; "{from} -> {to}")
}

/// A jump, with how often it follows itself, where it does.
fn taken_words(alloc: Global, jump: Jump, times: usize) -> Result<String, AllocError>
    ensures { IfOk result (λ text. string_bytes text ≡ taken_words jump times) }
{
    let words = jump_words(alloc, jump)?;
    if times <= 1 {
        return Ok(words);
    }
    format!(in alloc; "{words}, {times} times")
}

/// A jump that was taken so often, and the jumps after it.
fn way_words(alloc: Global, jump: Jump, times: usize, way: &[Jump]) -> Result<String, AllocError>
    requires { times + length way.now < 2 ^ 64 }
    ensures { IfOk result (λ text. string_bytes text ≡ way_words jump times way.now) }
{
    let Some((next, rest)) = way.split_first() else {
        return taken_words(alloc, jump, times);
    };
    if is_same(jump, *next) {
        return way_words(alloc, jump, times + 1, rest);
    }
    let first = taken_words(alloc, jump, times)?;
    let others = way_words(alloc, *next, 1, rest)?;
    format!(in alloc; "{first}, {others}")
}

/// The line of the last jumps, if there are any.
pub fn way_line(alloc: Global, way: &[Jump]) -> Result<String, AllocError>
    ensures { IfOk result (λ text. string_bytes text ≡ spec.way_line way.now) }
{
    let Some((first, rest)) = way.split_first() else {
        return Ok(String::new(alloc));
    };
    let words = way_words(alloc, *first, 1, rest)?;
    format!(in alloc; "way: {words}\n")
}
