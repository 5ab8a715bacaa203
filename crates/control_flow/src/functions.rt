//! The functions of a program, and the tests that control stays in them.

ghost use Rattle.std.specs.Prelude.{◌≡◌, ◌<◌, ◌↔◌, ℕ, IsTrue, length, IfOk};
ghost use Rattle.control_flow.specs.Functions.{MarksFunctions, HasFunctions};
ghost use Rattle.control_flow.specs.Flows.{Fails, IsLowest};

use crate::errors::FlowError;
use crate::targets::{call_target, fall_target, jump_target};
use image::Image;
use std::alloc::{AllocError, Global};

/// Marks the slots at which functions begin.
fn beginnings(alloc: Global, image: &Image) -> Result<Vec<bool>, AllocError>
    requires { (slot : ℕ) → ¬ Fails image.now FlowError.TargetOutside slot }
    ensures { IfOk result (λ marks. MarksFunctions image.now marks.items) }
{
    let mut marks = vec![in alloc; false; image.slots()]?;
    marks[0] = true;
    for slot in 0..image.slots() {
        if let Some(to) = call_target(image, slot) {
            marks[to] = true;
        }
    }
    Ok(marks)
}

/// For each slot the one at which its function begins.
pub fn functions_of(alloc: Global, image: &Image) -> Result<Vec<usize>, AllocError>
    requires { (slot : ℕ) → ¬ Fails image.now FlowError.TargetOutside slot }
    ensures { IfOk result (λ functions. HasFunctions image.now functions.items) }
{
    let marks = beginnings(alloc, image)?;
    let mut functions = Vec::new(alloc);
    let mut function = 0;
    for slot in 0..marks.len() {
        if marks[slot] {
            function = slot;
        }
        functions.push(function)?;
    }
    Ok(functions)
}

fn leaves_function(image: &Image, functions: &[usize], slot: usize) -> bool
    requires inside { slot < length image.now.insns }
    requires targets { (k : ℕ) → ¬ Fails image.now FlowError.TargetOutside k }
    requires functions { HasFunctions image.now functions.now }
    ensures { IsTrue result ↔ Fails image.now FlowError.OtherFunction slot }
{
    image.recall();
    match jump_target(image, slot) {
        Some(to) => functions[slot] != functions[to],
        None => false,
    }
}

fn falls_off(image: &Image, functions: &[usize], slot: usize) -> bool
    requires inside { slot < length image.now.insns }
    requires functions { HasFunctions image.now functions.now }
    ensures { IsTrue result ↔ Fails image.now FlowError.FallsOff slot }
{
    let slots = image.slots();
    match fall_target(image, slot) {
        Some(to) => to >= slots || functions[to] == to,
        None => false,
    }
}

/// The lowest slot with a jump into another function.
pub fn first_leaving(image: &Image, functions: &[usize]) -> Option<usize>
    requires targets { (k : ℕ) → ¬ Fails image.now FlowError.TargetOutside k }
    requires functions { HasFunctions image.now functions.now }
    ensures { IsLowest (Fails image.now FlowError.OtherFunction) result }
{
    for slot in 0..image.slots() {
        if leaves_function(image, functions, slot) {
            return Some(slot);
        }
    }
    None
}

/// The lowest slot from which control falls off a function's end.
pub fn first_falling_off(image: &Image, functions: &[usize]) -> Option<usize>
    requires { HasFunctions image.now functions.now }
    ensures { IsLowest (Fails image.now FlowError.FallsOff) result }
{
    for slot in 0..image.slots() {
        if falls_off(image, functions, slot) {
            return Some(slot);
        }
    }
    None
}
