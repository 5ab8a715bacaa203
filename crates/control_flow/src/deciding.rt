//! The jumps that decide which numbers get into what a long search keeps. They are advice, of which
//! no clause speaks.

use crate::homes::HomeMask;
use crate::marks::{is_marked, mark};
use crate::nodes::Node;
use crate::wanted::mask_behind;
use std::alloc::{AllocError, Global};

/// For each slot how many slots there are up to the last one, this one or before it, whose
/// instruction writes something that is kept after it.
pub fn last_writes(
    alloc: Global,
    nodes: &[Node],
    kept: &[HomeMask],
) -> Result<Vec<usize>, AllocError> {
    let mut writes = Vec::with_capacity(alloc, nodes.len())?;
    let mut last = 0;
    for slot in 0..nodes.len() {
        let node = &nodes[slot];
        let behind = mask_behind(kept, node.falls_to);
        if behind.meets(node.writes) || behind.meets(node.into) {
            last = slot + 1;
        }
        writes.push(last)?;
    }
    Ok(writes)
}

/// Where the two ways from a conditional jump meet that goes forward to a slot, as far as their
/// order shows it: there, or where the first way goes on that ends before it.
fn meeting(nodes: &[Node], to: usize) -> usize {
    let Some(before) = to.checked_sub(1) else {
        return to;
    };
    match nodes.get(before) {
        Some(node) => match (node.falls_to, node.jumps_to) {
            (None, Some(further)) => further.max(to),
            _ => to,
        },
        None => to,
    }
}

/// Returns whether the instruction at a slot is a conditional jump forward, and something that is
/// kept is written on a way from there to where its ways meet.
fn decides(nodes: &[Node], writes: &[usize], slot: usize) -> bool {
    let Some(node) = nodes.get(slot) else {
        return false;
    };
    let (Some(next), Some(to)) = (node.falls_to, node.jumps_to) else {
        return false;
    };
    let Some(last) = meeting(nodes, to).checked_sub(1) else {
        return false;
    };
    match writes.get(last) {
        Some(count) => slot < to && next < *count,
        None => false,
    }
}

/// Marks the conditional jumps inside loops and called functions that decide what is kept, and
/// returns whether one of them was not marked before.
pub fn mark_deciding(
    nodes: &[Node],
    writes: &[usize],
    inside: &[bool],
    marks: &mut Vec<bool>,
) -> bool {
    let mut is_new = false;
    for slot in 0..nodes.len() {
        if is_marked(inside, slot) && !is_marked(marks, slot) && decides(nodes, writes, slot) {
            mark(marks, Some(slot));
            is_new = true;
        }
    }
    is_new
}
