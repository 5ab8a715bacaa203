//! Which slots of small programs are joins, and which registers are live at a slot.

use super::programs::image_of;
use super::rows::holds_at;
use control_flow::{Flow, RegisterMask};
use image::Image;
use isa_model::Reg;
use std::alloc::Global;

/// A slot, and whether it is a join.
const JOINS: &[(usize, bool)] = &[
    (0, true),
    (1, false),
    (2, false),
    (3, true),
    (4, true),
    (5, false),
    (usize::MAX, false),
];

/// The function at slot 4 never returns.
const WITH_JOINS: &str = "call pc+3; if r0 == 0 goto -2; goto +0; exit; gotol -1";

/// Returns whether this is so of a slot, if control flow is not refused.
fn is_join(alloc: Global, image: &Image, slot: usize, wanted: bool) -> bool {
    match Flow::of(alloc, image) {
        Ok(flow) => flow.is_join(slot) == wanted,
        Err(_) => false,
    }
}

fn is_join_so(alloc: Global, slot: usize, wanted: bool) -> bool {
    match image_of(alloc, WITH_JOINS) {
        Some(image) => is_join(alloc, &image, slot, wanted),
        None => false,
    }
}

#[test]
fn finds_joins(rt: HostRuntime) {
    for (index, (slot, wanted)) in JOINS.iter().enumerate() {
        holds_at(&rt, is_join_so(rt.alloc(), *slot, *wanted), index, 0);
    }
}

fn is_live(live: RegisterMask, number: u8) -> bool {
    match Reg::numbered(number) {
        Some(register) => live.has(register),
        None => false,
    }
}

/// Returns whether the registers of a mask are these and no others.
fn are_live(live: RegisterMask, numbers: &[u8]) -> bool {
    for number in 0..Reg::COUNT as u8 {
        if is_live(live, number) != numbers.contains(&number) {
            return false;
        }
    }
    true
}

/// Adds the numbers from r1 down to 1, and copies r3 into r2, which is not used.
const COUNTS: &str = "r0 = 0; r3 = 7; r2 = r3; r0 += r1; r1 -= 1; if r1 != 0 goto -3; exit";

/// A function that is called with r1, and r6 over the call.
const CALLS: &str = "r6 = 1; r1 = 2; call pc+2; r0 += r6; exit; r0 = r1; exit";

/// A helper without arguments, and r6 over its call; a wide load that writes r6.
const ASKS: &str = "r6 = 0x1 ll; r1 = 5; call 5; r0 += r6; exit";

/// A program, a slot, and the numbers of the registers that are live there.
type Live = (&'static str, usize, &'static [u8]);

const LIVE: &[Live] = &[
    // until its last use, and not before it is written
    (COUNTS, 0, &[1]),
    (COUNTS, 1, &[0, 1]),
    (COUNTS, 2, &[0, 1, 3]),
    // over the jump back, and r0 until the exit
    (COUNTS, 3, &[0, 1]),
    (COUNTS, 5, &[0, 1]),
    (COUNTS, 6, &[0]),
    // a local call passes r1 to r5, and keeps r6
    (CALLS, 0, &[2, 3, 4, 5]),
    (CALLS, 2, &[1, 2, 3, 4, 5, 6]),
    (CALLS, 3, &[0, 6]),
    (CALLS, 5, &[1]),
    // a helper reads its arguments, and leaves r1 to r5 unset
    (ASKS, 0, &[]),
    (ASKS, 3, &[6]),
    (ASKS, 4, &[0, 6]),
    // outside the code
    (ASKS, usize::MAX, &[]),
];

/// Returns whether these registers are live at a slot, and no others, if control flow is not
/// refused.
fn are_live_at(alloc: Global, image: &Image, slot: usize, numbers: &[u8]) -> bool {
    match Flow::of(alloc, image) {
        Ok(flow) => are_live(flow.live(slot), numbers),
        Err(_) => false,
    }
}

fn is_live_so(alloc: Global, (text, slot, wanted): &Live) -> bool {
    match image_of(alloc, *text) {
        Some(image) => are_live_at(alloc, &image, *slot, *wanted),
        None => false,
    }
}

#[test]
fn tells_live_registers(rt: HostRuntime) {
    for (index, row) in LIVE.iter().enumerate() {
        holds_at(&rt, is_live_so(rt.alloc(), row), index, 0);
    }
}
