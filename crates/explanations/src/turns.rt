//! In what the state of a turn of a loop differs from that of the turn before, a line each.

ghost use Rattle.std.specs.Prelude.{◌≡◌, ◌<◌, IfOk, bytes_eq};
ghost use Rattle.std.specs.String.{string_bytes};
ghost use Rattle.stack_state.specs.Slots.{frame_slots};
ghost use Rattle.explanations.specs.Turns as spec;
ghost use Rattle.explanations.specs.Turns.{turn_line, register_turn, stack_turn, place_turn, place_turns};

use crate::differences::{register_words, stack_words};
use crate::slots::offset_of;
use stack_state::State;
use std::alloc::{AllocError, Global};
use walks::Refusal;

fn is_same(before: &str, now: &str) -> bool
    ensures { result ≡ bytes_eq before.now now.now }
{
    before.as_bytes() == now.as_bytes()
}

/// Returns what the message says of a register or a stack slot before and now, where that differs.
fn turn_line(alloc: Global, place: &str, before: &str, now: &str) -> Result<String, AllocError>
    ensures { IfOk result (λ text. string_bytes text ≡ turn_line place.now before.now now.now) }
{
    if is_same(before, now) {
        return Ok(String::new(alloc));
    }
    format!(in alloc; "{place} from turn to turn: {before}, then {now}\n")
}

/// The line of a register of the innermost call frame.
fn register_turn(
    alloc: Global,
    earlier: &State,
    state: &State,
    register: usize,
) -> Result<String, AllocError>
    ensures { IfOk result (λ text. string_bytes text
        ≡ register_turn earlier.now state.now register) }
{
    let place = format!(in alloc; "r{register}")?;
    let before = register_words(alloc, earlier, earlier.callers.len(), register)?;
    let now = register_words(alloc, state, state.callers.len(), register)?;
    turn_line(alloc, place.as_str(), before.as_str(), now.as_str())
}

/// The line of a stack slot of the innermost frame.
fn stack_turn(
    alloc: Global,
    earlier: &State,
    state: &State,
    slot: usize,
) -> Result<String, AllocError>
    requires { slot < frame_slots }
    ensures { IfOk result (λ text. string_bytes text ≡ stack_turn earlier.now state.now slot) }
{
    let start = offset_of(slot, 0);
    let place = format!(in alloc; "stack {start}")?;
    let before = stack_words(alloc, earlier, earlier.callers.len(), slot)?;
    let now = stack_words(alloc, state, state.callers.len(), slot)?;
    turn_line(alloc, place.as_str(), before.as_str(), now.as_str())
}

/// The line of a register; or, counted on behind these ten, of a stack slot.
fn place_turn(
    alloc: Global,
    earlier: &State,
    state: &State,
    place: usize,
) -> Result<String, AllocError>
    requires { place < 74 }
    ensures { IfOk result (λ text. string_bytes text ≡ place_turn earlier.now state.now place) }
{
    if place < 10 {
        register_turn(alloc, earlier, state, place)
    } else {
        stack_turn(alloc, earlier, state, place - 10)
    }
}

/// The lines of the registers and the stack slots of the innermost frame.
fn place_turns(alloc: Global, earlier: &State, state: &State) -> Result<String, AllocError>
    ensures { IfOk result (λ text. string_bytes text ≡ place_turns earlier.now state.now 74) }
{
    let mut text = String::new(alloc);
    for count in 0..74usize {
        let line = place_turn(alloc, earlier, state, 73 - count)?;
        text = format!(in alloc; "{line}{text}")?;
    }
    Ok(text)
}

/// The lines of the registers and stack slots of the innermost frame that differ from turn to turn,
/// where a loop is not explored to its end.
pub fn turn_lines(
    alloc: Global,
    earlier: &Option<State>,
    state: &State,
    refusal: Refusal,
) -> Result<String, AllocError>
    ensures { IfOk result (λ text. string_bytes text
        ≡ spec.turn_lines refusal earlier.now state.now) }
{
    match (refusal, earlier) {
        (Refusal::TooLong, Some(earlier)) => place_turns(alloc, earlier, state),
        _ => Ok(String::new(alloc)),
    }
}
