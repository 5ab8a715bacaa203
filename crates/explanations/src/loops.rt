//! The loop that a path takes last.

ghost use Rattle.std.specs.Prelude.{◌≡◌, ◌-◌, IfOk, length};
ghost use Rattle.std.specs.String.{string_bytes};
ghost use Rattle.isa_model.specs.Code.Instructions.{fetch};
ghost use Rattle.explanations.specs.Loops as spec;
ghost use Rattle.explanations.specs.Loops.{is_jump, back_jump, or_earlier, last_back, times, again_line, no_loop_line, taken_line};

use image::Image;
use isa_model::Insn;
use std::alloc::{AllocError, Global};
use walks::{Jump, Refusal};

// Whether a jump begins at a slot.
fn is_jump(image: &Image, slot: usize) -> bool
    ensures { result ≡ is_jump (fetch image.now slot) }
{
    match image.at(slot) {
        Some(Insn::Jump(_) | Insn::JumpLong(_) | Insn::JumpIf(_, _)) => true,
        _ => false,
    }
}

// The jump of a step, if it goes back in the code.
fn back_jump(image: &Image, from: usize, to: usize) -> Option<Jump>
    ensures { result ≡ back_jump image.now from to }
{
    if is_jump(image, from) && to <= from {
        Some(Jump { from, to })
    } else {
        None
    }
}

fn or_earlier(earlier: Option<Jump>, later: Option<Jump>) -> Option<Jump>
    ensures { result ≡ or_earlier earlier later }
{
    match later {
        Some(jump) => Some(jump),
        None => earlier,
    }
}

// The last jump back of a path with these slots.
fn last_back(image: &Image, slots: &[usize]) -> Option<Jump>
    ensures { result ≡ last_back image.now slots.now (length slots.now - 1) }
{
    let mut found = None;
    for index in 0..slots.len().saturating_sub(1) {
        found = or_earlier(found, back_jump(image, slots[index], slots[index + 1]));
    }
    found
}

// How often a path with these slots comes to a slot.
fn times(slot: usize, slots: &[usize]) -> usize
    ensures { result ≡ times slot slots.now }
{
    slots.iter().filter(|found| **found == slot).count()
}

fn again_line(alloc: Global, jump: Jump, turns: usize) -> Result<String, AllocError>
    ensures { IfOk result (λ text. string_bytes text ≡ again_line jump turns) }
{
    let from = jump.from;
    let to = jump.to;
    format!(in alloc;
        "slots {to} to {from} are taken again and again, {turns} times on this path: \
         limit what ends that (r2 &= 15)\n"
    )
}

fn no_loop_line(alloc: Global) -> Result<String, AllocError>
    ensures { IfOk result (λ text. string_bytes text ≡ no_loop_line) }
{
    String::from_str(
        alloc,
        "this path ends in no loop, there are too many paths: \
         let them meet with the same knowledge\n",
    )
}

// The loop of a jump back, and how often the path comes to its first slot.
fn taken_line(alloc: Global, jump: Option<Jump>, slots: &[usize]) -> Result<String, AllocError>
    ensures { IfOk result (λ text. string_bytes text ≡ taken_line jump slots.now) }
{
    let Some(jump) = jump else {
        return no_loop_line(alloc);
    };
    let turns = times(jump.to, slots);
    if turns < 2 {
        return no_loop_line(alloc);
    }
    again_line(alloc, jump, turns)
}

/// The loop that is not explored to its end, and how often a path with these slots took it.
pub fn loop_line(
    alloc: Global,
    image: &Image,
    slots: &[usize],
    refusal: Refusal,
) -> Result<String, AllocError>
    ensures { IfOk result (λ text. string_bytes text
        ≡ spec.loop_line image.now slots.now refusal) }
{
    match refusal {
        Refusal::TooLong => taken_line(alloc, last_back(image, slots), slots),
        _ => Ok(String::new(alloc)),
    }
}
