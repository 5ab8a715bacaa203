//! The targets of jumps and calls, and the labels that they give to slots.

ghost use Rattle.std.specs.Prelude.{◌≡◌, IfOk, length};

use image::Image;
use isa_model::{Insn, MAX_SLOTS, destination};
use std::alloc::{AllocError, Global};

/// The distance over which an instruction jumps or calls.
fn distance_of(insn: &Insn) -> Option<i32> {
    match insn {
        Insn::Jump(by) => Some(i32::from(*by)),
        Insn::JumpLong(by) => Some(*by),
        Insn::JumpIf(_, by) => Some(i32::from(*by)),
        Insn::CallLocal(by) => Some(*by),
        _ => None,
    }
}

/// The slot to which the instruction at a slot jumps or calls.
pub fn target_of(image: &Image, slot: usize) -> Option<usize> {
    if slot >= usize::from(MAX_SLOTS) {
        return None;
    }
    let by = distance_of(image.at(slot)?)?;
    Some(destination(slot, by, image.slots()))
}

/// The label of a slot, by what leads to it.
#[derive(Clone, Copy, PartialEq, Eq, Drop)]
pub enum SlotLabel {
    /// It has none: no jump and no call leads to it.
    Nothing,
    /// The label of a jump's target.
    Target,
    /// The label of a function.
    Function,
}

/// The label of each slot of the code.
pub fn labels(alloc: Global, image: &Image) -> Result<Vec<SlotLabel>, AllocError> {
    let mut labels = vec![in alloc; SlotLabel::Nothing; image.slots()]?;
    for slot in 0..image.slots() {
        let is_call = matches!(image.at(slot), Some(Insn::CallLocal(_)));
        if let Some(target) = target_of(image, slot) {
            if target < labels.len() && is_call {
                labels[target] = SlotLabel::Function;
            } else if target < labels.len() && labels[target] == SlotLabel::Nothing {
                labels[target] = SlotLabel::Target;
            }
        }
    }
    Ok(labels)
}
