//! A program as a listing: slots, bytes, labels and canonical text.

use crate::errors::LookError;
use crate::targets::{SlotLabel, labels, target_of};
use crate::texts::insn_text;
use exact_io::write_bytes;
use image::Image;
use std::alloc::{AllocError, Global};
use std::io::Write;

/// The bytes of an image's code.
fn code_bytes(alloc: Global, image: &Image) -> Result<Vec<u8>, AllocError> {
    let mut bytes = Vec::new(alloc);
    match image.write(&mut bytes) {
        Ok(()) => {}
        Err(_) => return Err(AllocError),
    }
    let from = 12usize.saturating_mul(image.maps().len()).saturating_add(8);
    match bytes.get(from..) {
        Some(code) => Vec::from_slice(alloc, code),
        None => Ok(Vec::new(alloc)),
    }
}

/// The 8 bytes of a slot, in hexadecimal.
fn slot_bytes(alloc: Global, code: &[u8], slot: usize) -> Result<String, AllocError> {
    let mut text = String::new(alloc);
    let from = slot.saturating_mul(8);
    for offset in 0..8usize {
        if let Some(byte) = code.get(from.saturating_add(offset)).copied() {
            let part = format!(in alloc; " {byte:02x}")?;
            text.push_str(part.as_str())?;
        }
    }
    Ok(text)
}

/// The label above a slot, with an empty line before the label of a function.
fn label_above(alloc: Global, label: SlotLabel, slot: usize) -> Result<String, AllocError> {
    let prefix = match label {
        SlotLabel::Nothing => return Ok(String::new(alloc)),
        SlotLabel::Target => "L",
        SlotLabel::Function => "\nF",
    };
    format!(in alloc; "{prefix}{slot}:\n")
}

/// The comment after an instruction's text: the label of the slot to which the instruction jumps
/// or which it calls.
fn label_behind(
    alloc: Global,
    image: &Image,
    labels: &[SlotLabel],
    slot: usize,
) -> Result<String, AllocError> {
    let Some(target) = target_of(image, slot) else {
        return Ok(String::new(alloc));
    };
    let letter = match labels.get(target) {
        Some(SlotLabel::Function) => "F",
        Some(_) => "L",
        None => return String::from_str(alloc, "  # outside the code"),
    };
    format!(in alloc; "  # {letter}{target}")
}

/// The index of a slot, and its bytes.
fn slot_front(alloc: Global, code: &[u8], slot: usize) -> Result<String, AllocError> {
    let bytes = slot_bytes(alloc, code, slot)?;
    format!(in alloc; "{slot:5}: {bytes}")
}

/// The lines of a slot where an instruction begins.
fn insn_lines(
    alloc: Global,
    image: &Image,
    labels: &[SlotLabel],
    slot: usize,
    front: &str,
    insn: &str,
) -> Result<String, AllocError> {
    let label = labels.get(slot).copied().unwrap_or(SlotLabel::Nothing);
    let above = label_above(alloc, label, slot)?;
    let behind = label_behind(alloc, image, labels, slot)?;
    format!(in alloc; "{above}{front}  {insn}{behind}\n")
}

/// The lines of a slot.
fn slot_text(
    alloc: Global,
    image: &Image,
    code: &[u8],
    labels: &[SlotLabel],
    slot: usize,
) -> Result<String, AllocError> {
    let mut front = slot_front(alloc, code, slot)?;
    let line = insn_text(alloc, image, slot)?;
    let insn = line.as_str().trim_end();
    if insn.is_empty() {
        front.push('\n')?;
        return Ok(front);
    }
    insn_lines(alloc, image, labels, slot, front.as_str(), insn)
}

/// Writes a program: a line for each slot with its index, its bytes and the canonical text of its
/// instruction, labels at the targets of jumps and calls, and an empty line before each function.
pub fn write_listing<W: Write>(alloc: Global, image: &Image, out: &mut W) -> Result<(), LookError> {
    let code = code_bytes(alloc, image)?;
    let labels = labels(alloc, image)?;
    for slot in 0..image.slots() {
        let text = slot_text(alloc, image, code.as_slice(), labels.as_slice(), slot)?;
        write_bytes(out, text.as_bytes())?;
    }
    Ok(())
}
