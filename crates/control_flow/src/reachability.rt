//! Which slots can be reached from slot 0.

ghost use Rattle.std.specs.Prelude.{◌≡◌, ◌<◌, ◌≤◌, ◌↔◌, ℕ, length, IfOk, OnOk};
ghost use Rattle.control_flow.specs.Graph.{HasEdge, Reached};
ghost use Rattle.control_flow.specs.Flows.{IsMarked, Fails, IsLowest};
ghost use Rattle.control_flow.specs.Searches.{Extends};

use crate::errors::FlowError;
use crate::marks::is_marked;
use crate::searches::SlotSearch;
use crate::targets::{begins_insn, call_target, fall_target, jump_target};
use image::Image;
use std::alloc::{AllocError, Global};

/// Finds the successors of a slot.
fn go_on(search: &mut SlotSearch, image: &Image, slot: usize) -> Result<(), AllocError>
    requires inside { slot < length image.now.insns }
    requires leads { (to : ℕ) → HasEdge image.now slot to → to < length search.old.found.items }
    ensures { OnOk result (Extends (HasEdge image.now slot)
        search.old.found.items search.old.frontier.items
        search.new.found.items search.new.frontier.items) }
{
    image.recall();
    search.find(fall_target(image, slot))?;
    search.find(jump_target(image, slot))?;
    search.find(call_target(image, slot))?;
    Ok(())
}

/// Marks the slots that can be reached from slot 0.
pub fn reached(alloc: Global, image: &Image) -> Result<Vec<bool>, AllocError>
    requires { (slot to : ℕ) → HasEdge image.now slot to → to < length image.now.insns }
    ensures { IfOk result (λ marks. (slot : ℕ) → IsMarked marks.items slot
        ↔ Reached image.now slot) }
{
    let mut search = SlotSearch::new(alloc, image.slots())?;
    search.find(Some(0))?;
    while let Some(slot) = search.frontier.pop() {
        go_on(&mut search, image, slot)?;
    }
    let SlotSearch { found, .. } = search;
    Ok(found)
}

/// The lowest slot at which an instruction begins that is not marked.
pub fn first_unreached(image: &Image, marks: &[bool]) -> Option<usize>
    requires { (slot : ℕ) → IsMarked marks.now slot ↔ Reached image.now slot }
    ensures { IsLowest (Fails image.now FlowError.Unreachable) result }
{
    for slot in 0..image.slots() {
        if begins_insn(image, slot) && !is_marked(marks, slot) {
            return Some(slot);
        }
    }
    None
}
