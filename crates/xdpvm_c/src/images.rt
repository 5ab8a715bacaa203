//! Exports that say what an image has, and write its text.

ghost use Rattle.std.specs.Prelude.{◌≡◌, ◌≢◌};
ghost use Rattle.calls.specs.Crossing.{IsVerdictStatus};
ghost use Rattle.calls.specs.Verdicts.{IsNoImage};
ghost use Rattle.calls.specs.Listings.{DescribesImage, FillsImageText};

use calls::buffers::TextSize;
use calls::describing::{Described, MapRow, describe_image};
use calls::disassembling::disassemble_image;
use calls::statuses::{OK, REFUSED};
use std::alloc::Global;

/// Says what an image has; its map rows are written as far as there is room. Its program is not
/// verified.
#[unsafe(no_mangle)]
pub extern "C" fn xdpvm_describe(
    alloc: Global,
    image: &[u8],
    rows: &mut [MapRow],
    out: &mut Described,
) -> u32
    ensures described { result ≡ OK → DescribesImage image.now rows.old rows.new out.new }
    ensures refused { result ≡ REFUSED → IsNoImage image.now }
    ensures rows_kept { result ≢ OK → rows.new ≡ rows.old }
    ensures out_kept { result ≢ OK → out.new ≡ out.old }
    ensures status { IsVerdictStatus result }
{
    describe_image(alloc, image, rows, out)
}

/// Writes the canonical text of an image's program, as far as there is room. The program is not
/// verified.
#[unsafe(no_mangle)]
pub extern "C" fn xdpvm_disassemble(
    alloc: Global,
    image: &[u8],
    text: &mut [u8],
    out: &mut TextSize,
) -> u32
    ensures written { result ≡ OK → FillsImageText image.now text.old text.new out.new.size }
    ensures refused { result ≡ REFUSED → IsNoImage image.now }
    ensures text_kept { result ≢ OK → text.new ≡ text.old }
    ensures out_kept { result ≢ OK → out.new ≡ out.old }
    ensures status { IsVerdictStatus result }
{
    disassemble_image(alloc, image, text, out)
}
