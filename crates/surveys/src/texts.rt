//! Instructions as text.

use disassembler::write_insn;
use image::Image;
use std::alloc::{AllocError, Global};

/// An instruction's canonical text, with the end of its line; empty where none begins.
pub fn insn_text(alloc: Global, image: &Image, slot: usize) -> Result<String, AllocError> {
    let mut bytes = Vec::new(alloc);
    if let Some(insn) = image.at(slot) {
        if write_insn(&mut bytes, insn).is_err() {
            return Err(AllocError);
        }
    }
    match String::from_utf8(bytes) {
        Ok(text) => Ok(text),
        Err(_) => Err(AllocError),
    }
}
