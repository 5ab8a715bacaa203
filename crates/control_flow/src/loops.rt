//! The loops of a graph of slots, by the edges that lead back in a depth-first walk. They are
//! advice for a search, of which no clause speaks.

ghost use Rattle.std.specs.Prelude.{◌≡◌, ◌<◌, ◌^◌, ℕ, Some, length, IfOk};
ghost use Rattle.control_flow.specs.Nodes.{jump_from, FallsNear};
ghost use Rattle.control_flow.specs.Sources.{AreSources};

use crate::marks::{is_marked, mark};
use crate::nodes::Node;
use crate::searches::SlotSearch;
use crate::sources::{Sources, sources_of};
use crate::wanted::go_back;
use std::alloc::{AllocError, Global};

/// The slots of the loops of a graph, each a list of marks by slots.
#[derive(Drop)]
pub struct Loops {
    /// The slots at which a loop is entered.
    pub heads: Vec<bool>,
    /// The slots from which control may come back to them.
    pub bodies: Vec<bool>,
    /// The slots from which control may leave a loop that they are in.
    pub exits: Vec<bool>,
}

/// A slot to which control goes, if the walk has not found it yet.
fn unfound(found: &[bool], to: Option<usize>) -> Option<usize>
    ensures { (k : ℕ) → result ≡ Some k → k < length found.now }
{
    let slot = to?;
    let is_found = *found.get(slot)?;
    if is_found { None } else { Some(slot) }
}

/// A successor of a slot that the walk has not found yet.
fn unfound_successor(nodes: &[Node], found: &[bool], slot: usize) -> Option<usize>
    ensures { (k : ℕ) → result ≡ Some k → k < length found.now }
{
    let node = nodes.get(slot)?;
    match unfound(found, node.falls_to) {
        Some(to) => Some(to),
        None => unfound(found, node.jumps_to),
    }
}

/// A walk that has found where each function of a program begins.
fn walk_from(alloc: Global, functions: &[usize]) -> Result<SlotSearch, AllocError> {
    let mut walk = SlotSearch::new(alloc, functions.len())?;
    for slot in 0..functions.len() {
        if functions[slot] == slot {
            let beginning = unfound(&walk.found, Some(slot));
            walk.find(beginning)?;
        }
    }
    Ok(walk)
}

/// For each slot the turn in which a depth-first walk through each function leaves it. The walk
/// takes a turn to find a slot, and one to leave it.
fn turns_of(alloc: Global, nodes: &[Node], functions: &[usize]) -> Result<Vec<usize>, AllocError> {
    let mut turns = vec![in alloc; 0; nodes.len()]?;
    let mut walk = walk_from(alloc, functions)?;
    for turn in 0..2 * nodes.len() {
        let Some(slot) = walk.frontier.last().copied() else {
            break;
        };
        match unfound_successor(nodes, &walk.found, slot) {
            Some(to) => walk.find(Some(to))?,
            None => {
                walk.frontier.pop();
                if let Some(left) = turns.get_mut(slot) {
                    *left = turn;
                }
            }
        }
    }
    Ok(turns)
}

/// Returns whether an edge leads back: to a slot that the walk leaves no earlier.
fn leads_back(turns: &[usize], slot: usize, to: Option<usize>) -> bool {
    match to {
        Some(to) => turns.get(slot) <= turns.get(to),
        None => false,
    }
}

/// Marks the slots to which an edge leads back.
fn heads_of(alloc: Global, nodes: &[Node], turns: &[usize]) -> Result<Vec<bool>, AllocError> {
    let mut heads = vec![in alloc; false; nodes.len()]?;
    for slot in 0..nodes.len() {
        let node = &nodes[slot];
        if leads_back(turns, slot, node.falls_to) {
            mark(&mut heads, node.falls_to);
        }
        if leads_back(turns, slot, node.jumps_to) {
            mark(&mut heads, node.jumps_to);
        }
    }
    Ok(heads)
}

/// Returns whether an edge leads back from a slot to a head.
fn leads_back_to(nodes: &[Node], turns: &[usize], slot: usize, head: usize) -> bool
    requires { slot < length nodes.now }
{
    let node = &nodes[slot];
    (node.falls_to == Some(head) || node.jumps_to == Some(head))
        && leads_back(turns, slot, Some(head))
}

/// Marks the slots of the loop that is entered at a head: those from which control gets to an edge
/// that leads back there, and not by the head.
fn body_of(
    alloc: Global,
    nodes: &[Node],
    sources: &Sources,
    turns: &[usize],
    head: usize,
) -> Result<Vec<bool>, AllocError>
    requires head { head < length nodes.now }
    requires near { FallsNear nodes.now }
    requires sources { AreSources nodes.now sources.now.last.items sources.now.before.items }
{
    let mut work = SlotSearch::new(alloc, nodes.len())?;
    work.find(Some(head))?;
    work.frontier.clear();
    for from in 0..nodes.len() {
        if leads_back_to(nodes, turns, from, head) {
            work.find(Some(from))?;
        }
    }
    while let Some(slot) = work.frontier.pop() {
        go_back(&mut work, nodes, sources, slot)?;
    }
    let SlotSearch { found, .. } = work;
    Ok(found)
}

/// Returns whether control may go from a slot to one that is not marked.
fn leads_out(body: &[bool], to: Option<usize>) -> bool {
    match to {
        Some(to) => !is_marked(body, to),
        None => false,
    }
}

impl Loops {
    /// Adds the slots of a loop.
    fn add(&mut self, nodes: &[Node], body: &[bool]) {
        for slot in 0..nodes.len() {
            if is_marked(body, slot) {
                mark(&mut self.bodies, Some(slot));
                let node = &nodes[slot];
                if leads_out(body, node.falls_to) || leads_out(body, node.jumps_to) {
                    mark(&mut self.exits, Some(slot));
                }
            }
        }
    }

    /// The loops of a graph, where these are the functions that its slots belong to.
    pub fn of(alloc: Global, nodes: &[Node], functions: &[usize]) -> Result<Self, AllocError>
        requires near { FallsNear nodes.now }
        requires inside { (slot to : ℕ) → jump_from nodes.now slot ≡ Some to
            → to < length nodes.now }
    {
        let sources = sources_of(alloc, nodes)?;
        let turns = turns_of(alloc, nodes, functions)?;
        let mut loops = Loops {
            heads: heads_of(alloc, nodes, &turns)?,
            bodies: vec![in alloc; false; nodes.len()]?,
            exits: vec![in alloc; false; nodes.len()]?,
        };
        for head in 0..nodes.len() {
            if is_marked(&loops.heads, head) {
                let body = body_of(alloc, nodes, &sources, &turns, head)?;
                loops.add(nodes, &body);
            }
        }
        Ok(loops)
    }
}
