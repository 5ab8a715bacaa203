//! The message about packet frames whose runs ended with INVALID.

ghost use Rattle.std.specs.Prelude.{◌≡◌, ◌++◌, codes, decimal, IfOk};
ghost use Rattle.std.specs.String.{string_bytes};
ghost use Rattle.messages.specs.InvalidRuns.{answer_line, invalid_lines, TellsInvalidOf};

use super::stopped::{NO_ACTION, others_words};
use host::{HostError, InvalidFrame, Ran};
use std::alloc::{AllocError, Global};

/// What Linux does, and who says more.
const LINUX: &str = "Linux takes INVALID as ABORTED; xdpvm trace names the slot\n";

// What the first of these frames answered.
fn answer_line(alloc: Global, answer: u64) -> Result<String, AllocError>
    ensures { IfOk result (λ text. string_bytes text ≡ answer_line answer) }
{
    let number = answer.cast_signed();
    format!(in alloc; "r0: number {number}\n")
}

// The lines for a frame with this number, of these parts.
fn lines_of_parts(
    alloc: Global,
    frame: u32,
    others: String,
    answer: String,
    hint: &str,
    linux: &str,
) -> Result<String, AllocError>
    ensures { IfOk result (λ text. string_bytes text
        ≡ codes "frame " ++ (decimal frame ++ (string_bytes others
        ++ (codes ": INVALID\n" ++ (string_bytes answer ++ (hint.now ++ linux.now)))))) }
{
    format!(in alloc; "frame {frame}{others}: INVALID\n{answer}{hint}{linux}")
}

// The lines for the first of these frames, by how many there are.
fn invalid_lines(alloc: Global, first: InvalidFrame, count: u32) -> Result<String, AllocError>
    ensures { IfOk result (λ text. string_bytes text ≡ invalid_lines first count) }
{
    let others = others_words(alloc, count)?;
    let answer = answer_line(alloc, first.answer)?;
    lines_of_parts(alloc, first.frame, others, answer, NO_ACTION, LINUX)
}

/// The message about the packet frames of a run that ended with INVALID, if its report was
/// completed. `None` also where memory ran out.
pub fn lines_of_invalid(alloc: Global, ended: &Result<Ran, HostError>) -> Option<String>
    ensures { TellsInvalidOf ended.now result }
{
    let Ok(ran) = ended else {
        return None;
    };
    let Some(first) = ran.invalid.first else {
        return None;
    };
    invalid_lines(alloc, first, ran.invalid.count).ok()
}
