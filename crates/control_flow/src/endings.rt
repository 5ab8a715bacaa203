//! The slots from which only plain code follows.

ghost use Rattle.std.specs.Prelude.{◌≡◌, ◌≢◌, ◌<◌, ◌^◌, ◌↔◌, ℕ, IsTrue, IfOk, Some};
ghost use Rattle.isa_model.specs.declared.versions.Version.TheVariants.{One};
ghost use Rattle.isa_model.specs.declared.registers.Reg.TheVariants.{R10};
ghost use Rattle.isa_model.specs.Code.Instructions.{writes};
ghost use Rattle.isa_model.specs.MustAccept.Paths.{IsPlainForm};
ghost use Rattle.control_flow.specs.Liveness.{GoesTo};
ghost use Rattle.control_flow.specs.Endings.{EndsPlainly};
ghost use Rattle.control_flow.specs.Flows.{IsMarked, MarksEndings};

use crate::marks::is_marked;
use crate::targets::{fall_target, jump_target};
use image::Image;
use isa_model::Insn;
use std::alloc::{AllocError, Global};

/// Returns whether an instruction is arithmetic, a wide load of a number, a jump or an exit.
fn is_plain(insn: &Insn) -> bool
    ensures { IsTrue result ↔ IsPlainForm insn.now }
{
    match insn {
        Insn::Alu(_, _, _, _)
        | Insn::Neg(_, _)
        | Insn::MovSx(_, _, _)
        | Insn::ByteSwap(_, _, _)
        | Insn::LoadNumber(_, _)
        | Insn::Jump(_)
        | Insn::JumpLong(_)
        | Insn::JumpIf(_, _)
        | Insn::Exit => true,
        _ => false,
    }
}

/// Returns whether an instruction is one of these, and does not write r10.
fn is_plain_step(insn: &Insn) -> bool
    ensures { IsTrue result ↔ (IsPlainForm insn.now × (writes insn.now ≢ Some R10)) }
{
    is_plain(insn) && !insn.writes_frame_pointer()
}

/// Returns whether a successor, if there is one, comes later and is marked.
fn goes_on_plainly(marks: &[bool], slot: usize, to: Option<usize>) -> bool
    ensures { IsTrue result
        ↔ ((next : ℕ) → to ≡ Some next → (slot < next) × IsMarked marks.now next) }
{
    match to {
        Some(to) => is_marked(marks, to) && slot < to,
        None => true,
    }
}

/// Returns whether the successors of a slot come later and are marked.
fn leads_on_plainly(image: &Image, marks: &[bool], slot: usize) -> bool
    requires { slot < 2 ^ 63 }
    ensures { IsTrue result
        ↔ ((next : ℕ) → GoesTo image.now slot next → (slot < next) × IsMarked marks.now next) }
{
    goes_on_plainly(marks, slot, fall_target(image, slot))
        && goes_on_plainly(marks, slot, jump_target(image, slot))
}

/// Returns whether only plain code follows a slot, where the marks of the later slots are right.
fn ends_plainly(image: &Image, marks: &[bool], slot: usize) -> bool
    requires inside { slot < 2 ^ 63 }
    requires version { image.now.version ≡ One }
    requires later { (k : ℕ) → slot < k → IsMarked marks.now k ↔ EndsPlainly image.now k }
    ensures { IsTrue result ↔ EndsPlainly image.now slot }
{
    match image.at(slot) {
        Some(insn) => is_plain_step(insn) && leads_on_plainly(image, marks, slot),
        None => false,
    }
}

/// Marks the slots from which only plain code follows.
pub fn endings_of(alloc: Global, image: &Image) -> Result<Vec<bool>, AllocError>
    ensures { IfOk result (λ marks. MarksEndings image.now marks.items) }
{
    let mut marks = vec![in alloc; false; image.slots()]?;
    if image.version() != 1 {
        return Ok(marks);
    }
    for before in 0..image.slots() {
        let slot = image.slots() - 1 - before;
        marks[slot] = ends_plainly(image, marks.as_slice(), slot);
    }
    Ok(marks)
}
