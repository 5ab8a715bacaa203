//! What is said of the state in which a program is refused.

ghost use Rattle.std.specs.Prelude.{◌≡◌, IfOk};
ghost use Rattle.std.specs.String.{string_bytes};
ghost use Rattle.explanations.specs.States.{limit_line, lines_of};

use crate::cases::case_line;
use crate::lines::{answer_line, register_lines, stack_lines, way_line};
use crate::loops::loop_line;
use crate::turns::turn_lines;
use crate::unset::unset_lines;
use image::Image;
use isa_model::Insn;
use std::alloc::{AllocError, Global};
use walks::{Explanation, Refusal, SearchLimit};

/// If the search had reached a limit, the line that says so.
fn limit_line(limit: Option<SearchLimit>) -> &'static str
    ensures { result.now ≡ limit_line limit }
{
    match limit {
        Some(SearchLimit::Comparisons) => {
            "states were no longer looked up: that had taken 250000000 comparisons\n"
        }
        Some(SearchLimit::StoredWords) => {
            "states were no longer stored: those before had taken 15000000 words of 8 bytes\n"
        }
        None => "",
    }
}

/// The lines of an explanation.
pub fn lines_of(
    alloc: Global,
    image: &Image,
    insn: &Insn,
    refusal: Refusal,
    found: &Explanation,
) -> Result<String, AllocError>
    ensures { IfOk result (λ text. string_bytes text
        ≡ lines_of image.now insn.now refusal found.now) }
{
    let registers = register_lines(alloc, &found.state, insn)?;
    let slots = found.slots.as_slice();
    let unset = unset_lines(alloc, image, slots, &found.state, insn, refusal)?;
    let case = case_line(alloc, image.maps(), &found.state, insn, refusal)?;
    let taken = loop_line(alloc, image, slots, refusal)?;
    let turns = turn_lines(alloc, &found.earlier, &found.state, refusal)?;
    let answer = answer_line(alloc, &found.state, refusal)?;
    let stack = stack_lines(alloc, image.maps(), &found.state, insn)?;
    let way = way_line(alloc, found.way.as_slice())?;
    let limit = limit_line(found.limit);
    format!(in alloc; "{registers}{unset}{case}{taken}{turns}{answer}{stack}{way}{limit}")
}
