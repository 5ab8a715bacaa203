//! Images from texts.

ghost use Rattle.std.specs.Prelude.{◌≡◌, ◌⊎◌, ◌-◌, ◌<◌, length, drop, Ok, Err, MatchResult};
ghost use Rattle.isa_model.specs.Code.Instructions.{Program};
ghost use Rattle.isa_model.specs.Text.CanonicalText.{canonical_text};
ghost use Rattle.image.specs.Images.{IsImage};
ghost use Rattle.assembler.specs.declared.errors.AsmErrorKind.TheVariants as AsmErrorKind;
ghost use Rattle.assembler.specs.Assembling.{start, read_on, program_of, finished, program_in, assembled, IsAsWanted};
ghost use Rattle.assembler.specs.Drafts.{progress_of};

use super::draft::{Draft, Span};
use super::errors::{AsmError, AsmErrorKind};
use super::names::resolve;
use super::refusals::{Refusal, located};
use crate::lexeme_at;
use image::Image;
use isa_model::{Insn, MapDef, Version};
use std::alloc::Global;

/// The bytes without the first `count`, or without the first one if `count` is 0.
pub fn after(bytes: &[u8], count: usize) -> &[u8]
    requires { 0 < length bytes.now }
    ensures value { result.now ≡ drop (count - 1) (drop 1 bytes.now) }
    ensures less { length result.now < length bytes.now }
{
    let tail = &bytes[1..];
    let more = count.saturating_sub(1);
    if more <= tail.len() {
        &tail[more..]
    } else {
        &[]
    }
}

// Reads the whole text into the draft.
fn read_into<'a>(draft: &mut Draft<'a>, text: &'a [u8]) -> Result<(), Refusal>
    ensures { IsAsWanted (λ _. progress_of draft.new) result
        (read_on text.now 0 0 (progress_of draft.old)) }
{
    let mut rest = text;
    while !rest.is_empty() {
        if let Some(len) = draft.passes(rest) {
            rest = after(rest, len);
            continue;
        }
        let offset = text.len().saturating_sub(rest.len());
        let (lexeme, len) = match lexeme_at(rest) {
            Ok(found) => found,
            Err(at) => {
                return Err(Refusal {
                    kind: AsmErrorKind::UnknownByte,
                    offset: offset.saturating_add(at),
                });
            }
        };
        let bytes = &rest[..len.min(rest.len())];
        match draft.accept(lexeme, Span { offset, bytes }) {
            Ok(()) => {}
            Err(refusal) => return Err(refusal),
        }
        rest = after(rest, len);
    }
    draft.close()
}

// Reads the whole text.
fn read<'a>(alloc: Global, text: &'a [u8]) -> Result<Draft<'a>, Refusal>
    ensures { IsAsWanted (λ draft. progress_of draft) result (read_on text.now 0 0 start) }
{
    let mut draft = Draft::new(alloc);
    match read_into(&mut draft, text) {
        Ok(()) => Ok(draft),
        Err(refusal) => Err(refusal),
    }
}

// The image of this version, these map rows and instructions. All other refusals were made
// statement by statement.
fn image_with(
    alloc: Global,
    version: Version,
    maps: &[MapDef],
    insns: &[Insn],
) -> Result<Image, Refusal>
    ensures { IsAsWanted (λ image. image) result (program_of version maps.now insns.now) }
{
    if insns.is_empty() {
        return Err(Refusal {
            kind: AsmErrorKind::SlotCount,
            offset: 0,
        });
    }
    match Image::of(alloc, version, maps, insns) {
        Ok(image) => Ok(image),
        Err(_) => Err(Refusal {
            kind: AsmErrorKind::Memory,
            offset: 0,
        }),
    }
}

// The image of a text that was read.
fn finish(alloc: Global, draft: Draft<'_>) -> Result<Image, Refusal>
    ensures { IsAsWanted (λ image. image) result (finished (progress_of draft.entry)) }
{
    let Draft {
        tokens: _,
        spans: _,
        version,
        maps,
        code,
        labels,
        uses,
    } = draft;
    let mut insns = code.into_insns();
    resolve(&mut insns, &labels, &uses)?;
    image_with(alloc, version, &maps, &insns)
}

fn image_of(alloc: Global, text: &[u8]) -> Result<Image, Refusal>
    ensures { IsAsWanted (λ image. image) result (program_in text.now) }
{
    match read(alloc, text) {
        Ok(draft) => finish(alloc, draft),
        Err(refusal) => Err(refusal),
    }
}

/// The program that the text spells. docs/TEXT.md describes the language.
///
/// Targets of jumps and calls are not tested, except those that are names.
pub fn assemble(alloc: Global, text: &[u8]) -> Result<Image, AsmError>
    // The image is the program that the text spells, and the error says why it spells none, or
    // memory runs out.
    ensures exact { MatchResult result (λ image. assembled text.now ≡ Ok image)
        (λ e. (e.kind ≡ AsmErrorKind.Memory) ⊎ (assembled text.now ≡ Err e)) }

    // The canonical text of an image is assembled to that image, or memory runs out.
    ensures round_trip { (p : Program) → IsImage p → text.now ≡ canonical_text p
        → MatchResult result (λ image. image ≡ p) (λ e. e.kind ≡ AsmErrorKind.Memory) }
{
    match image_of(alloc, text) {
        Ok(image) => Ok(image),
        Err(refusal) => Err(located(text, refusal)),
    }
}
