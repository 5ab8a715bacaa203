//! Exports that assemble a text, verify an image, and test a proof table.

ghost use Rattle.std.specs.Prelude.{◌≡◌, ◌≢◌, ◌<◌, ◌↔◌, ◌⊎◌};
ghost use Rattle.isa_model.specs.Code.Limits.{max_explored};
ghost use Rattle.calls.specs.Crossing.{IsVerdictStatus, IsDecision};
ghost use Rattle.calls.specs.Verdicts.{ReturnsBound, FillsImageRefusal, IsUndecided};
ghost use Rattle.calls.specs.Tables.{ReturnsShownBound, FillsTableRefusal};
ghost use Rattle.calls.specs.Texts.{FillsAssembledImage, only_size, FillsTextRefusal};

use calls::assembling::{Assembled, assemble_text};
use calls::judging::{Verdict, verify_image};
use calls::rechecks::{Rechecked, recheck_table};
use calls::statuses::{MEMORY, OK, REFUSED, UNDECIDED, WRONG};
use std::alloc::Global;

/// Assembles a text. The image is written to `image`, and why the text is refused to `why`, as far
/// as there is room.
#[unsafe(no_mangle)]
pub extern "C" fn xdpvm_assemble(
    alloc: Global,
    text: &[u8],
    image: &mut [u8],
    why: &mut [u8],
    out: &mut Assembled,
) -> u32
    ensures assembled { result ≡ OK
        → FillsAssembledImage text.now image.old image.new out.new.size }
    ensures alone { result ≡ OK → out.new ≡ only_size out.new.size }
    ensures refused { result ≡ REFUSED → FillsTextRefusal text.now why.old why.new out.new.size
        out.new.line out.new.column }
    ensures image_kept { result ≢ OK → image.new ≡ image.old }
    ensures why_kept { result ≢ REFUSED → why.new ≡ why.old }
    ensures memory { result ≡ MEMORY → out.new ≡ out.old }
    ensures status { IsVerdictStatus result }
{
    assemble_text(alloc, text, image, why, out)
}

/// Verifies an image, exploring at most `limit` instructions (1 to 1,000,000). Why it is refused is
/// written to `why`, as far as there is room; what is known at the refused instruction is looked
/// for only if there is room.
#[unsafe(no_mangle)]
pub extern "C" fn xdpvm_verify(
    alloc: Global,
    image: &[u8],
    limit: u32,
    why: &mut [u8],
    out: &mut Verdict,
) -> u32
    ensures accepted { result ≡ OK → ReturnsBound image.now out.new }
    ensures wrong { (result ≡ WRONG) ↔ ((limit ≡ 0) ⊎ (max_explored < limit)) }
    ensures refused { result ≡ REFUSED → FillsImageRefusal image.now why.old why.new out.new }
    ensures undecided { result ≡ UNDECIDED → IsUndecided image.now limit }
    ensures why_kept { result ≢ REFUSED → why.new ≡ why.old }
    ensures out_kept { result ≢ OK → result ≢ REFUSED → out.new ≡ out.old }
    ensures status { (result ≡ WRONG) ⊎ IsDecision result }
{
    verify_image(alloc, image, limit, why, out)
}

/// Tests a proof table of an image's program, whoever made it: where it passes, the program is
/// accepted as by `xdpvm_verify`, within the bound that the table shows. Why it is refused is
/// written to `why`, as far as there is room; what is known of the entry is looked for only where
/// there is some.
#[unsafe(no_mangle)]
pub extern "C" fn xdpvm_recheck(
    alloc: Global,
    image: &[u8],
    table: &[u8],
    why: &mut [u8],
    out: &mut Rechecked,
) -> u32
    ensures accepted { result ≡ OK → ReturnsShownBound image.now table.now out.new }
    ensures refused { result ≡ REFUSED
        → FillsTableRefusal image.now table.now why.old why.new out.new }
    ensures why_kept { result ≢ REFUSED → why.new ≡ why.old }
    ensures memory { result ≡ MEMORY → out.new ≡ out.old }
    ensures status { IsVerdictStatus result }
{
    recheck_table(alloc, image, table, why, out)
}
