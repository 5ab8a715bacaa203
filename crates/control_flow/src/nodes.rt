//! The code as a graph of slots: what each wants, writes and passes on, and its successors.

ghost use Rattle.std.specs.Prelude.{◌<◌, ◌^◌, ◌↔◌, IsTrue, IfOk};
ghost use Rattle.control_flow.specs.Nodes.{IsBlankNode, ShowsReads, ShowsTests, AreNodes};
ghost use Rattle.control_flow.specs.StackUse.{FrameAddressIsTaken};

use crate::homes::HomeMask;
use crate::number_passes::{may_read, may_write, registers_tested};
use crate::slot_masks::SlotMask;
use crate::stack_accesses::{homes_read, homes_written};
use crate::targets::{fall_target, jump_target};
use image::Image;
use std::alloc::{AllocError, Global};

/// A slot of the code. What is in a register or a stack slot of `from` before the instruction there
/// may be in each of `into` after it; it stays in those that the instruction does not write.
#[derive(Clone, Copy)]
pub struct Node {
    /// The registers and stack slots that the instruction wants itself.
    pub wants: HomeMask,
    /// Those that it writes.
    pub writes: HomeMask,
    pub from: HomeMask,
    pub into: HomeMask,
    pub falls_to: Option<usize>,
    pub jumps_to: Option<usize>,
}

/// A slot that wants and writes nothing, with its successors.
pub fn blank_node(image: &Image, slot: usize) -> Node
    requires { slot < 2 ^ 63 }
    ensures { IsBlankNode image.now slot result }
{
    Node {
        wants: HomeMask::none(),
        writes: HomeMask::none(),
        from: HomeMask::none(),
        into: HomeMask::none(),
        falls_to: fall_target(image, slot),
        jumps_to: jump_target(image, slot),
    }
}

/// The node of a slot that wants what the instruction reads; `taken` says whether the program takes
/// a call frame's address.
fn reading_node(image: &Image, slot: usize, taken: bool) -> Node
    requires inside { slot < 2 ^ 63 }
    requires taken { IsTrue taken ↔ FrameAddressIsTaken image.now }
    ensures { ShowsReads image.now slot result }
{
    let node = blank_node(image, slot);
    match image.at(slot) {
        Some(insn) => Node {
            wants: homes_read(insn, taken),
            writes: homes_written(insn),
            ..node
        },
        None => node,
    }
}

/// The node of a slot that wants the numbers that the instruction tests.
fn testing_node(image: &Image, slot: usize, taken: bool) -> Node
    requires inside { slot < 2 ^ 63 }
    requires taken { IsTrue taken ↔ FrameAddressIsTaken image.now }
    ensures { ShowsTests image.now slot result }
{
    let node = blank_node(image, slot);
    match image.at(slot) {
        Some(insn) => Node {
            wants: HomeMask {
                registers: registers_tested(image, insn),
                slots: SlotMask::none(),
            },
            writes: homes_written(insn),
            from: may_read(insn, taken),
            into: may_write(insn, taken),
            ..node
        },
        None => node,
    }
}

/// Returns the nodes of all slots, for what is read.
pub fn reading_nodes(alloc: Global, image: &Image, taken: bool) -> Result<Vec<Node>, AllocError>
    requires { IsTrue taken ↔ FrameAddressIsTaken image.now }
    ensures { IfOk result (λ nodes. AreNodes (ShowsReads image.now) image.now nodes.items) }
{
    let mut nodes = Vec::with_capacity(alloc, image.slots())?;
    for slot in 0..image.slots() {
        nodes.push(reading_node(image, slot, taken))?;
    }
    Ok(nodes)
}

/// Returns the nodes of all slots, for what is tested.
pub fn testing_nodes(alloc: Global, image: &Image, taken: bool) -> Result<Vec<Node>, AllocError>
    requires { IsTrue taken ↔ FrameAddressIsTaken image.now }
    ensures { IfOk result (λ nodes. AreNodes (ShowsTests image.now) image.now nodes.items) }
{
    let mut nodes = Vec::with_capacity(alloc, image.slots())?;
    for slot in 0..image.slots() {
        nodes.push(testing_node(image, slot, taken))?;
    }
    Ok(nodes)
}
