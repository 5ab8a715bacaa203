//! The basic blocks of a program as a graph, in the language of Graphviz.

use crate::errors::LookError;
use crate::targets::{SlotLabel, labels, target_of};
use crate::texts::insn_text;
use exact_io::write_bytes;
use image::Image;
use isa_model::Insn;
use std::alloc::{AllocError, Global};
use std::io::Write;

/// Returns whether a basic block ends with the instruction at a slot.
fn is_end(image: &Image, slot: usize) -> bool {
    matches!(
        image.at(slot),
        Some(Insn::Jump(_) | Insn::JumpLong(_) | Insn::JumpIf(_, _) | Insn::Exit)
    )
}

/// Returns whether control may go to the next instruction.
fn falls_through(image: &Image, slot: usize) -> bool {
    !matches!(
        image.at(slot),
        Some(Insn::Jump(_) | Insn::JumpLong(_) | Insn::Exit)
    )
}

/// Returns whether a jump or a call goes to a slot.
fn is_target(labels: &[SlotLabel], slot: usize) -> bool {
    labels.get(slot).copied().unwrap_or(SlotLabel::Nothing) != SlotLabel::Nothing
}

/// Adds a text to a quoted one.
fn put_quoted(text: &str, out: &mut String) -> Result<(), AllocError> {
    for letter in text.chars() {
        match letter {
            '"' | '\\' => {
                out.push('\\')?;
                out.push(letter)?;
            }
            '\n' => out.push_str("\\l")?,
            _ => out.push(letter)?,
        }
    }
    Ok(())
}

/// Adds an edge between two blocks.
fn put_edge(
    alloc: Global,
    from: usize,
    to: usize,
    style: &str,
    edges: &mut String,
) -> Result<(), AllocError> {
    let edge = format!(in alloc; "  b{from} -> b{to}{style};\n")?;
    edges.push_str(edge.as_str())
}

/// Adds the edges out of the last instruction of a block, which is at a slot; the next instruction
/// is at `next`.
fn put_edges(
    alloc: Global,
    image: &Image,
    block: usize,
    slot: usize,
    next: usize,
    edges: &mut String,
) -> Result<(), AllocError> {
    if falls_through(image, slot) && next < image.slots() {
        put_edge(alloc, block, next, "", edges)?;
    }
    if is_end(image, slot) {
        if let Some(target) = target_of(image, slot) {
            put_edge(alloc, block, target, " [style=dashed]", edges)?;
        }
    }
    Ok(())
}

/// Adds the edge of a call from a block.
fn put_call(
    alloc: Global,
    image: &Image,
    block: usize,
    slot: usize,
    edges: &mut String,
) -> Result<(), AllocError> {
    if let Some(Insn::CallLocal(_)) = image.at(slot) {
        if let Some(target) = target_of(image, slot) {
            put_edge(alloc, block, target, " [style=dotted]", edges)?;
        }
    }
    Ok(())
}

/// The slot after an instruction.
fn after(image: &Image, slot: usize) -> usize {
    match image.at(slot) {
        Some(insn) => slot.saturating_add(insn.slots()),
        None => slot.saturating_add(1),
    }
}

/// A graph as it is written: the current block, and the edges, which are written after all blocks.
#[derive(Drop)]
struct Graph {
    block: usize,
    edges: String,
}

/// Returns how an instruction's text begins: as its block, if it is the first one.
fn block_opening(alloc: Global, block: usize, slot: usize) -> Result<String, AllocError> {
    if block != slot {
        return Ok(String::new(alloc));
    }
    format!(in alloc; "  b{slot} [label=\"")
}

/// Adds an instruction with its slot inside a quoted text.
fn put_insn(alloc: Global, image: &Image, slot: usize, out: &mut String) -> Result<(), AllocError> {
    let insn = insn_text(alloc, image, slot)?;
    let line = format!(in alloc; "{slot}: {insn}")?;
    put_quoted(line.as_str(), out)
}

/// Adds an instruction to its block, and ends the block if it is the last one.
fn insn_node(
    alloc: Global,
    image: &Image,
    labels: &[SlotLabel],
    slot: usize,
    graph: &mut Graph,
) -> Result<String, AllocError> {
    let next = after(image, slot);
    let mut text = block_opening(alloc, graph.block, slot)?;
    put_insn(alloc, image, slot, &mut text)?;
    put_call(alloc, image, graph.block, slot, &mut graph.edges)?;
    if is_end(image, slot) || is_target(labels, next) || next >= image.slots() {
        text.push_str("\"];\n")?;
        put_edges(alloc, image, graph.block, slot, next, &mut graph.edges)?;
        graph.block = next;
    }
    Ok(text)
}

/// Writes the basic blocks of a program, and collects their edges.
fn write_blocks<W: Write>(
    alloc: Global,
    image: &Image,
    labels: &[SlotLabel],
    graph: &mut Graph,
    out: &mut W,
) -> Result<(), LookError> {
    for slot in 0..image.slots() {
        if image.at(slot).is_some() {
            let text = insn_node(alloc, image, labels, slot, graph)?;
            write_bytes(out, text.as_bytes())?;
        }
    }
    Ok(())
}

/// Writes the basic blocks of a program as a graph for `dot`: a plain edge where control falls
/// through, a dashed one for each jump, and a dotted one for each call.
pub fn write_graph<W: Write>(alloc: Global, image: &Image, out: &mut W) -> Result<(), LookError> {
    let labels = labels(alloc, image)?;
    let mut graph = Graph {
        block: 0,
        edges: String::new(alloc),
    };
    write_bytes(
        out,
        b"digraph program {\n  node [shape=box, fontname=monospace];\n",
    )?;
    write_blocks(alloc, image, labels.as_slice(), &mut graph, out)?;
    write_bytes(out, graph.edges.as_bytes())?;
    write_bytes(out, b"}\n")?;
    Ok(())
}
