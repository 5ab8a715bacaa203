//! The call that assembles a program text.

ghost use Rattle.std.specs.Prelude.{◌≡◌, ◌≢◌, ◌⊎◌};
ghost use Rattle.assembler.specs.declared.errors.AsmErrorKind.TheVariants as Kind;
ghost use Rattle.image.specs.Images.{image_bytes};
ghost use Rattle.messages.specs.Texts.{source_text};
ghost use Rattle.calls.specs.Crossing.{FillsBuffer, IsVerdictStatus};
ghost use Rattle.calls.specs.Texts.{FillsAssembledImage, FillsTextRefusal, only_size};

use crate::buffers::fill;
use crate::statuses::{MEMORY, OK, REFUSED};
use assembler::{AsmError, AsmErrorKind, assemble};
use image::Image;
use messages::source_text;
use std::alloc::Global;

/// Says how many bytes an image or the message about a refusal has, and for a refusal the line and
/// the column, which count from 1; both are 0 for an image.
#[repr(C)]
#[derive(Clone, Copy, Drop)]
pub struct Assembled {
    pub size: usize,
    pub line: usize,
    pub column: usize,
}

// Writes the image of a program.
fn write_image(alloc: Global, made: &Image, image: &mut [u8], out: &mut Assembled) -> u32
    ensures given { result ≡ OK
        → FillsBuffer image.old image.new out.new.size (image_bytes made.now) }
    ensures alone { result ≡ OK → out.new ≡ only_size out.new.size }
    ensures image_kept { result ≢ OK → image.new ≡ image.old }
    ensures memory { result ≡ MEMORY → out.new ≡ out.old }
    ensures status { (result ≡ OK) ⊎ (result ≡ MEMORY) }
{
    let mut bytes = Vec::new(alloc);
    let Ok(()) = made.write(&mut bytes) else {
        return MEMORY;
    };
    *out = Assembled {
        size: fill(image, bytes.as_slice()),
        line: 0,
        column: 0,
    };
    OK
}

// Writes why a program text is refused.
fn write_refusal(alloc: Global, error: AsmError, why: &mut [u8], out: &mut Assembled) -> u32
    ensures refused { result ≡ REFUSED → (error.kind ≢ Kind.Memory) × (out.new.line ≡ error.line)
        × (out.new.column ≡ error.column)
        × FillsBuffer why.old why.new out.new.size (source_text error) }
    ensures why_kept { result ≢ REFUSED → why.new ≡ why.old }
    ensures memory { result ≡ MEMORY → out.new ≡ out.old }
    ensures status { (result ≡ REFUSED) ⊎ (result ≡ MEMORY) }
{
    if error.kind == AsmErrorKind::Memory {
        return MEMORY;
    }
    let Some(message) = source_text(alloc, error) else {
        return MEMORY;
    };
    *out = Assembled {
        size: fill(why, message.as_slice()),
        line: error.line,
        column: error.column,
    };
    REFUSED
}

/// Assembles a text. The image is written to `image`, and why the text is refused to `why`, as far
/// as there is room.
pub fn assemble_text(
    alloc: Global,
    text: &[u8],
    image: &mut [u8],
    why: &mut [u8],
    out: &mut Assembled,
) -> u32
    ensures assembled { result ≡ OK
        → FillsAssembledImage text.now image.old image.new out.new.size }
    ensures alone { result ≡ OK → out.new ≡ only_size out.new.size }
    ensures refused { result ≡ REFUSED → FillsTextRefusal text.now why.old why.new out.new.size
        out.new.line out.new.column }
    ensures image_kept { result ≢ OK → image.new ≡ image.old }
    ensures why_kept { result ≢ REFUSED → why.new ≡ why.old }
    ensures memory { result ≡ MEMORY → out.new ≡ out.old }
    ensures status { IsVerdictStatus result }
{
    match assemble(alloc, text) {
        Ok(made) => write_image(alloc, &made, image, out),
        Err(error) => write_refusal(alloc, error, why, out),
    }
}
