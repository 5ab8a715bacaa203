//! The messages about refused images, program texts and programs, each as a whole.

ghost use Rattle.std.specs.Prelude.{◌≡◌, ◌++◌, None, IfSome};
ghost use Rattle.std.specs.String.{string_bytes};
ghost use Rattle.messages.specs.Messages.{rejection_text};
ghost use Rattle.messages.specs.Reasons.{IsReason};
ghost use Rattle.messages.specs.Texts.{image_text, source_text, program_front, IsProgramText};

use crate::lines::{image_line, text_line, verdict_line};
use crate::rejections::Rejection;
use assembler::AsmError;
use image::{Image, ImageError};
use std::alloc::Global;
use walks::Refusal;

// A line, and then the sentence and the position. None: memory ran out.
fn whole_text(line: String, rejection: Rejection) -> Option<Vec<u8>>
    ensures { IfSome result
        (λ text. text.items ≡ string_bytes line ++ rejection_text rejection) }
{
    let mut text = line.into_bytes();
    match rejection.say(&mut text) {
        Ok(()) => Some(text),
        Err(_) => None,
    }
}

/// Returns why bytes are no image, where, and the hint; another magic and memory have none. None:
/// memory ran out.
pub fn image_text(alloc: Global, error: ImageError) -> Option<Vec<u8>>
    ensures { IfSome result (λ text. text.items ≡ image_text error) }
{
    match image_line(alloc, error) {
        Ok(line) => whole_text(line, Rejection::Image(error, None)),
        Err(_) => None,
    }
}

/// The message why a program text is no program, and where. None: memory ran out.
pub fn source_text(alloc: Global, error: AsmError) -> Option<Vec<u8>>
    ensures { IfSome result (λ text. text.items ≡ source_text error) }
{
    match text_line(alloc, error) {
        Ok(line) => whole_text(line, Rejection::Text(error)),
        Err(_) => None,
    }
}

/// Returns why a program is refused, and at which slot and instruction. None: memory ran out.
pub fn program_front(alloc: Global, image: &Image, refusal: Refusal, slot: usize) -> Option<Vec<u8>>
    ensures { IfSome result (λ text. text.items ≡ program_front image.now refusal slot) }
{
    let insn = image.at(slot).copied();
    match verdict_line(alloc, refusal, slot) {
        Ok(line) => whole_text(line, Rejection::Program(refusal, slot, insn)),
        Err(_) => None,
    }
}

/// The message why a program is refused, at which slot and instruction, and what is known there
/// (`reason`), if that is given. None: memory ran out.
pub fn program_text(
    alloc: Global,
    image: &Image,
    refusal: Refusal,
    slot: usize,
    known: Option<String>,
) -> Option<Vec<u8>>
    requires known { IfSome known
        (λ text. IsReason image.now refusal slot (string_bytes text)) }
    ensures text { IfSome result (λ text. IsProgramText image.now refusal slot text.items) }
    ensures unknown { known ≡ None → IfSome result
        (λ text. text.items ≡ program_front image.now refusal slot) }
{
    let mut text = program_front(alloc, image, refusal, slot)?;
    let Some(known) = known else {
        return Some(text);
    };
    match text.extend_from_slice(known.as_bytes()) {
        Ok(()) => Some(text),
        Err(_) => None,
    }
}
