//! The call that writes the text of an image.

ghost use Rattle.std.specs.Prelude.{◌≡◌, ◌≢◌, IfSome};
ghost use Rattle.isa_model.specs.Text.CanonicalText.{canonical_text};
ghost use Rattle.calls.specs.Crossing.{IsVerdictStatus};
ghost use Rattle.calls.specs.Verdicts.{IsNoImage};
ghost use Rattle.calls.specs.Listings.{FillsImageText};

use crate::buffers::{TextSize, fill};
use crate::statuses::{MEMORY, OK, REFUSED};
use disassembler::disassemble;
use image::{Image, ImageError};
use std::alloc::Global;

// The canonical text of a program. None: memory ran out.
fn text_of(alloc: Global, image: &Image) -> Option<Vec<u8>>
    ensures { IfSome result (λ text. text.items ≡ canonical_text image.now) }
{
    let mut text = Vec::new(alloc);
    match disassemble(image, &mut text) {
        Ok(()) => Some(text),
        Err(_) => None,
    }
}

/// Writes the canonical text of an image's program, as far as there is room. The program is not
/// verified.
pub fn disassemble_image(alloc: Global, image: &[u8], text: &mut [u8], out: &mut TextSize) -> u32
    ensures written { result ≡ OK → FillsImageText image.now text.old text.new out.new.size }
    ensures refused { result ≡ REFUSED → IsNoImage image.now }
    ensures text_kept { result ≢ OK → text.new ≡ text.old }
    ensures out_kept { result ≢ OK → out.new ≡ out.old }
    ensures status { IsVerdictStatus result }
{
    let image = match Image::parse(alloc, image) {
        Ok(image) => image,
        Err(ImageError::Memory) => return MEMORY,
        Err(_) => return REFUSED,
    };
    let Some(canonical) = text_of(alloc, &image) else {
        return MEMORY;
    };
    *out = TextSize {
        size: fill(text, canonical.as_slice()),
    };
    OK
}
