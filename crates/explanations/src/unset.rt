//! What left a register unset, by the path to where it is read.

ghost use Rattle.std.specs.Prelude.{◌≡◌, ◌++◌, ◌-◌, IfOk, length};
ghost use Rattle.std.specs.Option.{option_to_list};
ghost use Rattle.std.specs.List.{flat_map};
ghost use Rattle.std.specs.String.{string_bytes};
ghost use Rattle.isa_model.specs.Code.Registers.{reg_number};
ghost use Rattle.isa_model.specs.Code.Instructions.{fetch};
ghost use Rattle.explanations.specs.Unset as spec;
ghost use Rattle.explanations.specs.Unset.{is_argument, is_written, after_step, cause_of, cause_line, line_by, unset_lines};

use crate::lines::concerned;
use image::Image;
use isa_model::{Insn, Reg};
use reg_state::Kind;
use stack_state::State;
use std::alloc::{AllocError, Global};
use transfer::Refusal as StepRefusal;
use walks::Refusal;

/// The last step that set a register or left it unset, by its slot.
#[derive(Clone, Copy)]
pub enum Cause {
    /// An instruction of the same call frame set it: a pointer to a map's value is unset after a
    /// delete.
    Set(usize),
    /// This call left it unset.
    Called(usize),
    /// This call began the function, which does not get it.
    Began(usize),
}

// Whether a call leaves the register unset, and a function gets it.
fn is_argument(register: Reg) -> bool
    ensures { result ≡ is_argument register }
{
    matches!(register, Reg::R1 | Reg::R2 | Reg::R3 | Reg::R4 | Reg::R5)
}

fn is_written(written: Option<Reg>, register: Reg) -> bool
    ensures { result ≡ is_written written register }
{
    match written {
        None => false,
        Some(found) => found.number() == register.number(),
    }
}

// What is known of a register after a step.
fn after_step(
    register: Reg,
    insn: Option<Insn>,
    from: usize,
    to: usize,
    before: Option<Cause>,
) -> Option<Cause>
    ensures { result ≡ after_step register insn from to before }
{
    match insn {
        None => before,
        Some(Insn::CallHelper(_)) => {
            if is_argument(register) {
                Some(Cause::Called(from))
            } else {
                before
            }
        }
        Some(Insn::CallLocal(_)) => {
            if is_argument(register) {
                before
            } else {
                Some(Cause::Began(from))
            }
        }
        Some(Insn::Exit) => {
            if is_argument(register) {
                Some(Cause::Called(to.saturating_sub(1)))
            } else {
                None
            }
        }
        Some(insn) => {
            if is_written(insn.written(), register) {
                Some(Cause::Set(from))
            } else {
                before
            }
        }
    }
}

// The last step of a path with these slots that set the register or left it unset.
fn cause_of(image: &Image, register: Reg, slots: &[usize]) -> Option<Cause>
    ensures { result ≡ cause_of image.now register slots.now (length slots.now - 1) }
{
    let mut found = None;
    for index in 0..slots.len().saturating_sub(1) {
        let insn = image.at(slots[index]);
        found = after_step(
            register,
            insn.copied(),
            slots[index],
            slots[index + 1],
            found,
        );
    }
    found
}

// What left a register unset, and what helps.
fn cause_line(alloc: Global, register: usize, found: Option<Cause>) -> Result<String, AllocError>
    ensures { IfOk result (λ text. string_bytes text ≡ cause_line register found) }
{
    match found {
        Some(Cause::Called(slot)) => format!(in alloc;
            "r{register} is unset since the call at slot {slot}: \
             every call leaves r1 to r5 unset; set it again, or keep its value in r6 to r9\n"
        ),
        Some(Cause::Began(slot)) => format!(in alloc;
            "r{register} is unset since the call at slot {slot}: \
             a function gets only r1 to r5; pass its value in one of them\n"
        ),
        Some(Cause::Set(slot)) => format!(in alloc;
            "r{register} was set at slot {slot}, and a later delete (call 3) \
             unset all pointers to values of its map: look the key up again\n"
        ),
        None => format!(in alloc; "set r{register} on every path that leads here\n"),
    }
}

// The line of a register, if it is unset.
#[tactic(auto, using(crate::proofs::Texts::flat_map_one))]
fn unset_line(
    alloc: Global,
    image: &Image,
    slots: &[usize],
    state: &State,
    register: Option<Reg>,
) -> Result<String, AllocError>
    ensures { IfOk result (λ text. string_bytes text
        ≡ flat_map (spec.unset_line image.now slots.now state.now) (option_to_list register)) }
{
    let Some(register) = register else {
        return Ok(String::new(alloc));
    };
    match state.kind_of(register) {
        Kind::Unset => { cause_line(alloc, register.number(), cause_of(image, register, slots)) }
        _ => Ok(String::new(alloc)),
    }
}

/// The lines of the unset registers that a refused instruction reads, each with what left it so.
#[tactic(auto, using(crate::proofs::Texts::flat_map_four))]
pub fn unset_lines(
    alloc: Global,
    image: &Image,
    slots: &[usize],
    state: &State,
    insn: &Insn,
    refusal: Refusal,
) -> Result<String, AllocError>
    ensures { IfOk result (λ text. string_bytes text
        ≡ unset_lines image.now slots.now state.now insn.now refusal) }
{
    let Refusal::Step(StepRefusal::UnsetRegister) = refusal else {
        return Ok(String::new(alloc));
    };
    let (first, second, third, fourth) = concerned(insn);
    let first = unset_line(alloc, image, slots, state, first)?;
    let second = unset_line(alloc, image, slots, state, second)?;
    let third = unset_line(alloc, image, slots, state, third)?;
    let fourth = unset_line(alloc, image, slots, state, fourth)?;
    format!(in alloc; "{first}{second}{third}{fourth}")
}
