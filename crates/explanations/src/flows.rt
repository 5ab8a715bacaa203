//! What is said of a program whose control flow is refused.

ghost use Rattle.std.specs.Prelude.{◌≡◌, ◌<◌, ◌^◌, ◌+◌, IfOk, length};
ghost use Rattle.std.specs.String.{string_bytes};
ghost use Rattle.control_flow.specs.Graph.{call_distance};
ghost use Rattle.explanations.specs.Flows as spec;
ghost use Rattle.explanations.specs.Flows.{distance_of, distance_by, target_at, found_at, or_later, first_leading, later_of, function_at, outside_words, outside_line, second_half_words, second_half_line, called_words, function_words, other_words, other_line, next_line, end_line, unreached_line};

use control_flow::FlowError;
use image::Image;
use isa_model::{Insn, destination};
use std::alloc::{AllocError, Global};

// Over which distance an instruction calls.
fn call_distance(insn: &Insn) -> Option<i32>
    ensures { result ≡ call_distance insn.now }
{
    match insn {
        Insn::CallLocal(by) => Some(*by),
        _ => None,
    }
}

// Over which distance an instruction jumps or calls.
fn distance_of(insn: &Insn) -> Option<i32>
    ensures { result ≡ distance_of insn.now }
{
    match insn {
        Insn::CallLocal(by) => Some(*by),
        Insn::Jump(by) => Some(i32::from(*by)),
        Insn::JumpLong(by) => Some(*by),
        Insn::JumpIf(_, by) => Some(i32::from(*by)),
        _ => None,
    }
}

// Over which distance an instruction jumps or calls; or only over which it calls.
fn distance_by(insn: &Insn, only_calls: bool) -> Option<i32>
    ensures { result ≡ distance_by only_calls insn.now }
{
    if only_calls {
        call_distance(insn)
    } else {
        distance_of(insn)
    }
}

// Where the instruction at a slot jumps or calls; or only where it calls.
#[tactic(auto, unfolding(crate::specs::Flows::target_at))]
fn target_at(image: &Image, slot: usize, only_calls: bool) -> Option<usize>
    requires { slot < 2 ^ 63 }
    ensures { result ≡ target_at image.now only_calls slot }
{
    let insn = image.at(slot)?;
    let by = distance_by(insn, only_calls)?;
    Some(destination(slot, by, image.slots()))
}

// The slot, if it leads to the one that is looked for.
fn found_at(slot: usize, to: usize, target: Option<usize>) -> Option<usize>
    ensures { result ≡ found_at slot to target }
{
    match target {
        Some(found) => { if found == to { Some(slot) } else { None } }
        None => None,
    }
}

fn or_later(earlier: Option<usize>, later: Option<usize>) -> Option<usize>
    ensures { result ≡ or_later earlier later }
{
    match earlier {
        Some(slot) => Some(slot),
        None => later,
    }
}

// The first slot that jumps or calls to a slot; or only that calls it.
fn first_leading(image: &Image, to: usize, only_calls: bool) -> Option<usize>
    ensures { result ≡ first_leading image.now only_calls to (length image.now.insns) }
{
    let mut found = None;
    for slot in 0..image.slots() {
        found = or_later(
            found,
            found_at(slot, to, target_at(image, slot, only_calls)),
        );
    }
    found
}

// The later of two slots at which functions begin; `called` counts only up to `slot`.
fn later_of(slot: usize, called: Option<usize>, found: usize) -> usize
    ensures { result ≡ later_of slot called found }
{
    match called {
        Some(begin) => {
            if begin <= slot {
                begin.max(found)
            } else {
                found
            }
        }
        None => found,
    }
}

// Where the function of a slot begins.
fn function_at(image: &Image, slot: usize) -> usize
    ensures { result ≡ function_at image.now slot (length image.now.insns) }
{
    let mut found = 0;
    for from in 0..image.slots() {
        found = later_of(slot, target_at(image, from, true), found);
    }
    found
}

// Where a jump or a call leads whose target is outside.
fn outside_words(alloc: Global, to: i64, last: usize) -> Result<String, AllocError>
    ensures { IfOk result (λ text. string_bytes text ≡ outside_words to last) }
{
    format!(in alloc;
        "it leads to slot {to}, and the code has slots 0 to {last}: \
         count from the slot after it, or use a name\n"
    )
}

// The target of a jump or a call is outside.
fn outside_line(
    alloc: Global,
    slot: usize,
    slots: usize,
    by: Option<i32>,
) -> Result<String, AllocError>
    requires { slot < 2 ^ 62 }
    ensures { IfOk result (λ text. string_bytes text ≡ outside_line slot slots by) }
{
    match by {
        Some(by) => {
            let to = slot as i64 + 1 + i64::from(by);
            outside_words(alloc, to, slots.saturating_sub(1))
        }
        None => Ok(String::new(alloc)),
    }
}

// Where a jump or a call leads whose target is the second half of a wide load.
fn second_half_words(alloc: Global, to: usize, first: usize) -> Result<String, AllocError>
    ensures { IfOk result (λ text. string_bytes text ≡ second_half_words to first) }
{
    format!(in alloc;
        "it leads to slot {to}, the second half of what begins at slot {first}: \
         count that twice, or use a name\n"
    )
}

// The target of a jump or a call is the second half of a wide load.
fn second_half_line(alloc: Global, to: Option<usize>) -> Result<String, AllocError>
    ensures { IfOk result (λ text. string_bytes text ≡ second_half_line to) }
{
    match to {
        Some(to) => second_half_words(alloc, to, to.saturating_sub(1)),
        None => Ok(String::new(alloc)),
    }
}

fn called_words(alloc: Global, from: Option<usize>) -> Result<String, AllocError>
    ensures { IfOk result (λ text. string_bytes text ≡ called_words from) }
{
    match from {
        Some(from) => format!(in alloc; " (called at slot {from})"),
        None => Ok(String::new(alloc)),
    }
}

// The function that begins at a slot.
fn function_words(alloc: Global, image: &Image, begin: usize) -> Result<String, AllocError>
    ensures { IfOk result (λ text. string_bytes text ≡ function_words image.now begin) }
{
    let words = called_words(alloc, first_leading(image, begin, true))?;
    format!(in alloc; "from slot {begin} on{words}")
}

// Where a jump leads, which function that is in, and which one the jump is in.
fn other_words(alloc: Global, to: usize, there: &str, here: &str) -> Result<String, AllocError>
    ensures { IfOk result (λ text. string_bytes text ≡ other_words to there.now here.now) }
{
    format!(in alloc;
        "it leads to slot {to}, in the function {there}, and is in that {here}: \
         jump within one, or call\n"
    )
}

// The target of a jump is in another function.
fn other_line(
    alloc: Global,
    image: &Image,
    slot: usize,
    to: Option<usize>,
) -> Result<String, AllocError>
    ensures { IfOk result (λ text. string_bytes text ≡ other_line image.now slot to) }
{
    match to {
        Some(to) => {
            let there = function_words(alloc, image, function_at(image, to))?;
            let here = function_words(alloc, image, function_at(image, slot))?;
            other_words(alloc, to, there.as_str(), here.as_str())
        }
        None => Ok(String::new(alloc)),
    }
}

// Another function begins after the end of one.
fn next_line(alloc: Global, next: usize, from: Option<usize>) -> Result<String, AllocError>
    ensures { IfOk result (λ text. string_bytes text ≡ next_line next from) }
{
    match from {
        Some(from) => format!(in alloc;
            "after it, at slot {next}, the function begins that slot {from} calls: \
             end this one by exit or a jump\n"
        ),
        None => Ok(String::new(alloc)),
    }
}

// What is after the end of a function.
fn end_line(alloc: Global, image: &Image, next: usize) -> Result<String, AllocError>
    ensures { IfOk result (λ text. string_bytes text ≡ end_line image.now next) }
{
    if image.slots() <= next {
        return String::from_str(
            alloc,
            "the code ends after it: end the function by exit or a jump\n",
        );
    }
    next_line(alloc, next, first_leading(image, next, true))
}

// Whether an instruction, which is not reached itself, leads to a slot.
fn unreached_line(alloc: Global, from: Option<usize>) -> Result<String, AllocError>
    ensures { IfOk result (λ text. string_bytes text ≡ unreached_line from) }
{
    match from {
        Some(from) => format!(in alloc;
            "slot {from} leads here, and is not reached either: remove both, or jump here\n"
        ),
        None => String::from_str(
            alloc,
            "neither what is before it nor a jump or call leads here: remove it, or jump to it\n",
        ),
    }
}

/// Returns what is said where control flow is refused, besides the sentence and the slot, of the
/// instruction at the slot.
pub fn flow_line(
    alloc: Global,
    image: &Image,
    error: FlowError,
    slot: usize,
    insn: &Insn,
) -> Result<String, AllocError>
    requires { slot < 2 ^ 62 }
    ensures { IfOk result (λ text. string_bytes text
        ≡ spec.flow_line image.now error slot insn.now) }
{
    let slots = image.slots();
    match error {
        FlowError::TargetOutside => outside_line(alloc, slot, slots, distance_of(insn)),
        FlowError::SecondHalf => second_half_line(alloc, target_at(image, slot, false)),
        FlowError::OtherFunction => other_line(alloc, image, slot, target_at(image, slot, false)),
        FlowError::FallsOff => end_line(alloc, image, slot + insn.slots()),
        FlowError::Unreachable => unreached_line(alloc, first_leading(image, slot, false)),
        FlowError::Memory => Ok(String::new(alloc)),
    }
}
