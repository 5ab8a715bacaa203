//! What is said of a refusal besides its sentence and its slot.

ghost use Rattle.std.specs.Prelude.{IfSome};
ghost use Rattle.std.specs.String.{string_bytes};
ghost use Rattle.walks.specs.Explained.{Explains};
ghost use Rattle.messages.specs.Reasons.{IsReason};

use explanations::{flow_line, lines_of};
use image::Image;
use isa_model::MAX_SLOTS;
use std::alloc::Global;
use walks::{Explanation, Refusal};

/// Returns what is known where a program gets this refusal, at this slot: the registers and the
/// stack slots that concern its instruction, what it needs, the loop that is not explored to its
/// end, with how often it was taken and what differs from turn to turn, the low half of an answer
/// that has to name an action, the last jumps on the path there, and whether states were no longer
/// compared. If control flow is refused: where a jump leads, and what helps. None: nothing was
/// found, or memory ran out.
///
/// `found` is what a search found there (`listeners::explain`).
pub fn reason(
    alloc: Global,
    image: &Image,
    refusal: Refusal,
    slot: usize,
    found: Option<Box<Explanation>>,
) -> Option<String>
    requires found { IfSome found (λ x. Explains image.now refusal slot x.value) }
    ensures { IfSome result (λ text. IsReason image.now refusal slot (string_bytes text)) }
{
    if slot >= usize::from(MAX_SLOTS) {
        return None;
    }
    let insn = image.at(slot)?;
    if let Refusal::Flow(error) = refusal {
        return flow_line(alloc, image, error, slot, insn).ok();
    }
    let Some(found) = found else {
        return None;
    };
    lines_of(alloc, image, insn, refusal, &found).ok()
}
