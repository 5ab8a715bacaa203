//! Which registers and stack slots are wanted at which slots of the code: backwards along the edges
//! of a graph, to its least fixed point.

ghost use Rattle.std.specs.Prelude.{◌≡◌, ◌+◌, ◌<◌, ◌↔◌, ℕ, Some, length, IfOk, OnOk};
ghost use Rattle.control_flow.specs.Liveness.{Home};
ghost use Rattle.control_flow.specs.Masks.{HasHome};
ghost use Rattle.control_flow.specs.Nodes.{HasBehind, IsWantedBefore, AreWantedMasks, AddsAt, jump_from, fall_from, FallsNear, ComesFrom};
ghost use Rattle.control_flow.specs.Searches.{Extends};
ghost use Rattle.control_flow.specs.Sources.{AreSources};

use crate::homes::{HomeMask, mask_of};
use crate::nodes::Node;
use crate::searches::SlotSearch;
use crate::sources::{Sources, sources_of};
use std::alloc::{AllocError, Global};

/// Returns what is wanted at a successor, if there is one.
pub fn mask_behind(masks: &[HomeMask], to: Option<usize>) -> HomeMask
    ensures { (h : Home) → HasHome result h ↔ HasBehind masks.now to h }
{
    match to {
        Some(slot) => mask_of(masks, slot),
        None => HomeMask::none(),
    }
}

/// Returns what is wanted before an instruction, by what is wanted after it.
fn wanted_before(node: &Node, masks: &[HomeMask]) -> HomeMask
    ensures { (h : Home) → HasHome result h ↔ IsWantedBefore masks.now node.now h }
{
    let fallen = mask_behind(masks, node.falls_to);
    let jumped = mask_behind(masks, node.jumps_to);
    let behind = fallen.or(jumped);
    let left = node.wants.or(behind.without(node.writes));
    if behind.meets(node.into) {
        left.or(node.from)
    } else {
        left
    }
}

/// Adds what is wanted before the instruction at a slot, and returns whether the mask grew.
fn add_wanted(nodes: &[Node], masks: &mut [HomeMask], slot: usize) -> bool
    requires inside { slot < length nodes.now }
    requires same { length masks.old ≡ length nodes.now }
    ensures { AddsAt nodes.now slot masks.old masks.new result }
{
    let old = masks[slot];
    let new = old.or(wanted_before(&nodes[slot], masks));
    if new == old {
        return false;
    }
    masks[slot] = new;
    true
}

/// The slot `back` slots before, if the instruction there falls through to this one.
fn falling(nodes: &[Node], slot: usize, back: usize) -> Option<usize>
    requires { slot < length nodes.now }
    ensures { (k : ℕ) → (result ≡ Some k)
        ↔ ((k + back ≡ slot) × (fall_from nodes.now k ≡ Some slot)) }
{
    if slot < back {
        return None;
    }
    let from = slot - back;
    let to = nodes[from].falls_to?;
    if to == slot { Some(from) } else { None }
}

/// Finds the predecessors of a slot.
pub fn go_back(
    work: &mut SlotSearch,
    nodes: &[Node],
    sources: &Sources,
    slot: usize,
) -> Result<(), AllocError>
    requires inside { slot < length nodes.now }
    requires near { FallsNear nodes.now }
    requires sources { AreSources nodes.now sources.now.last.items sources.now.before.items }
    requires same { length work.old.found.items ≡ length nodes.now }
    ensures { OnOk result (Extends (ComesFrom nodes.now slot)
        work.old.found.items work.old.frontier.items
        work.new.found.items work.new.frontier.items) }
{
    work.find(falling(nodes, slot, 1))?;
    work.find(falling(nodes, slot, 2))?;
    let mut from = sources.last[slot];
    while let Some(source) = from {
        work.find(Some(source))?;
        from = sources.before[source];
    }
    Ok(())
}

/// For each slot the registers and stack slots that are wanted there.
///
/// The work that is left is a list of slots, at first all of them, the last one on top. When a mask
/// grows, the predecessors of its slot are put on the list again. A mask grows at most once for
/// each register and each stack slot, so the time is linear in slots times these.
pub fn wanted_homes(alloc: Global, nodes: &[Node]) -> Result<Vec<HomeMask>, AllocError>
    requires near { FallsNear nodes.now }
    requires inside { (slot to : ℕ) → jump_from nodes.now slot ≡ Some to → to < length nodes.now }
    ensures { IfOk result (λ masks. AreWantedMasks nodes.now masks.items) }
{
    let sources = sources_of(alloc, nodes)?;
    let mut masks = vec![in alloc; HomeMask::none(); nodes.len()]?;
    let mut work = SlotSearch::of_all(alloc, nodes.len())?;
    while let Some(slot) = work.frontier.pop() {
        work.found[slot] = false;
        if add_wanted(nodes, masks.as_mut_slice(), slot) {
            go_back(&mut work, nodes, &sources, slot)?;
        }
    }
    Ok(masks)
}
