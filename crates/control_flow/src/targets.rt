//! The targets of jumps and calls, and their tests.

ghost use Rattle.std.specs.Prelude.{◌≡◌, ◌<◌, ◌^◌, ◌↔◌, ℕ, IsTrue, length, IfOk};
ghost use Rattle.isa_model.specs.Machine.Steps.{destination};
ghost use Rattle.isa_model.specs.Machine.Successors.{jump_distance, falls_through};
ghost use Rattle.control_flow.specs.Graph.{BeginsInsn, call_distance, jump_to, call_to, fall_to};
ghost use Rattle.control_flow.specs.Flows.{HasTarget, Fails, IsLowest, MarksJoins};

use crate::errors::FlowError;
use image::Image;
use isa_model::{Insn, destination};
use std::alloc::{AllocError, Global};

/// The distance of a jump.
fn jump_distance(insn: &Insn) -> Option<i32>
    ensures { result ≡ jump_distance insn.now }
{
    match insn {
        Insn::Jump(by) => Some(i32::from(*by)),
        Insn::JumpLong(by) => Some(*by),
        Insn::JumpIf(_, by) => Some(i32::from(*by)),
        _ => None,
    }
}

/// The distance of a local call.
fn call_distance(insn: &Insn) -> Option<i32>
    ensures { result ≡ call_distance insn.now }
{
    match insn {
        Insn::CallLocal(by) => Some(*by),
        _ => None,
    }
}

/// Returns whether control may go to the next instruction.
fn falls_through(insn: &Insn) -> bool
    ensures { result ≡ falls_through insn.now }
{
    match insn {
        Insn::Jump(_) => false,
        Insn::JumpLong(_) => false,
        Insn::Exit => false,
        _ => true,
    }
}

/// Returns where the jump at a slot leads.
#[tactic(auto, unfolding(crate::specs::Graph::jump_to))]
pub fn jump_target(image: &Image, slot: usize) -> Option<usize>
    requires { slot < 2 ^ 63 }
    ensures { result ≡ jump_to image.now slot }
{
    let insn = image.at(slot)?;
    let by = jump_distance(insn)?;
    Some(destination(slot, by, image.slots()))
}

/// The function that the call at a slot calls.
#[tactic(auto, unfolding(crate::specs::Graph::call_to))]
pub fn call_target(image: &Image, slot: usize) -> Option<usize>
    requires { slot < 2 ^ 63 }
    ensures { result ≡ call_to image.now slot }
{
    let insn = image.at(slot)?;
    let by = call_distance(insn)?;
    Some(destination(slot, by, image.slots()))
}

/// The slot after the instruction at a slot, if it falls through.
#[tactic(auto, unfolding(crate::specs::Graph::fall_to))]
pub fn fall_target(image: &Image, slot: usize) -> Option<usize>
    requires { slot < 2 ^ 63 }
    ensures { result ≡ fall_to image.now slot }
{
    let insn = image.at(slot)?;
    if falls_through(insn) {
        Some(slot + insn.slots())
    } else {
        None
    }
}

/// The target of the jump or of the call at a slot.
fn target(image: &Image, slot: usize) -> Option<usize>
    requires { slot < 2 ^ 63 }
    ensures { (to : ℕ) → (result ≡ Some to) ↔ HasTarget image.now slot to }
{
    match jump_target(image, slot) {
        Some(to) => Some(to),
        None => call_target(image, slot),
    }
}

/// Returns whether an instruction begins at a slot.
pub fn begins_insn(image: &Image, slot: usize) -> bool
    ensures { IsTrue result ↔ BeginsInsn image.now slot }
{
    image.at(slot).is_some()
}

fn leads_outside(image: &Image, slot: usize) -> bool
    requires { slot < 2 ^ 63 }
    ensures { IsTrue result ↔ Fails image.now FlowError.TargetOutside slot }
{
    match target(image, slot) {
        Some(to) => to >= image.slots(),
        None => false,
    }
}

fn leads_into_half(image: &Image, slot: usize) -> bool
    requires { slot < 2 ^ 63 }
    ensures { IsTrue result ↔ Fails image.now FlowError.SecondHalf slot }
{
    match target(image, slot) {
        Some(to) => to < image.slots() && !begins_insn(image, to),
        None => false,
    }
}

/// The lowest slot with a jump or a call to outside the code.
pub fn first_outside(image: &Image) -> Option<usize>
    ensures { IsLowest (Fails image.now FlowError.TargetOutside) result }
{
    for slot in 0..image.slots() {
        if leads_outside(image, slot) {
            return Some(slot);
        }
    }
    None
}

/// The lowest slot with a jump or a call into the second half of a wide load.
pub fn first_into_half(image: &Image) -> Option<usize>
    ensures { IsLowest (Fails image.now FlowError.SecondHalf) result }
{
    for slot in 0..image.slots() {
        if leads_into_half(image, slot) {
            return Some(slot);
        }
    }
    None
}

/// Marks the targets of jumps.
pub fn joins_of(alloc: Global, image: &Image) -> Result<Vec<bool>, AllocError>
    requires { (slot : ℕ) → ¬ Fails image.now FlowError.TargetOutside slot }
    ensures { IfOk result (λ marks. MarksJoins image.now marks.items) }
{
    let mut marks = vec![in alloc; false; image.slots()]?;
    for slot in 0..image.slots() {
        if let Some(to) = jump_target(image, slot) {
            marks[to] = true;
        }
    }
    Ok(marks)
}
