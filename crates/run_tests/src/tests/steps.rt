//! Abstract states after some steps.

use super::programs::image_of;
use super::rows::holds_at;
use image::Image;
use isa_model::Reg;
use reg_state::{Domain, Kind};
use stack_state::State;
use std::alloc::Global;
use transfer::{Refusal, Successors, step};

/// The step from a state, if an instruction begins at its slot.
fn stepped(image: &Image, state: &State) -> Option<Result<Successors, Refusal>> {
    match image.at(state.slot) {
        None => None,
        Some(_) => Some(step(image, state)),
    }
}

/// The first successor, or the second.
fn successor(image: &Image, state: &State, is_second: bool) -> Option<State> {
    match stepped(image, state) {
        Some(Ok(Successors::One(next))) if !is_second => Some(next),
        Some(Ok(Successors::Two(stay, go))) => Some(if is_second { go } else { stay }),
        _ => None,
    }
}

/// The state after steps, each to the first successor or to the second.
fn walked(image: &Image, choices: &[bool]) -> Option<State> {
    let mut state = State::start();
    for is_second in choices {
        state = successor(image, &state, *is_second)?;
    }
    Some(state)
}

/// The slot that is reached, and the number in r0 if it is known.
type Reached = Option<(usize, Option<u64>)>;

fn reached(image: &Image, choices: &[bool]) -> Reached {
    let Some(state) = walked(image, choices) else {
        return None;
    };
    match state.kind_of(Reg::R0) {
        Kind::Number(numbers) => Some((state.slot, numbers.number())),
        _ => Some((state.slot, None)),
    }
}

/// A 32-bit result has an upper half of zeros.
const REMAINDER: &str = "r0 = -1; r1 = 0; w0 %= w1; r0 >>= 31; exit";

/// Where the jump is taken, r0 is 7.
const JUMP: &str = "r0 = *(u32 *)(r1 + 12); if r0 == 7 goto +1; r0 = 0; exit";

/// A text, whether each step goes to the second successor, the slot, and what is known of r0.
type Walk = (&'static str, &'static [bool], Reached);

const STATES: &[Walk] = &[
    (REMAINDER, &[false; 4], Some((4, Some(1)))),
    (REMAINDER, &[true], None),
    (JUMP, &[false], Some((1, None))),
    (JUMP, &[false, false], Some((2, None))),
    (JUMP, &[false, true], Some((3, Some(7)))),
];

fn is_reached(alloc: Global, (text, choices, wanted): &Walk) -> bool {
    match image_of(alloc, *text) {
        Some(image) => reached(&image, *choices) == *wanted,
        None => false,
    }
}

#[test]
fn states_after_steps(rt: HostRuntime) {
    for (index, row) in STATES.iter().enumerate() {
        holds_at(&rt, is_reached(rt.alloc(), row), index, 0);
    }
}
