//! The call that verifies an image.

ghost use Rattle.std.specs.Prelude.{◌≡◌, ◌≢◌, ◌<◌, ◌↔◌, ◌⊎◌, [], false, None, Err, IfOk, IfSome, length};
ghost use Rattle.std.specs.String.{string_bytes};
ghost use Rattle.isa_model.specs.Code.Limits.{max_explored};
ghost use Rattle.image.specs.Images.{image_bytes};
ghost use Rattle.bounds.specs.Bounds.{IsVerified};
ghost use Rattle.stack_state.specs.Starts.{start};
ghost use Rattle.walks.specs.Refused.{IsRefused};
ghost use Rattle.walks.specs.Accepting.{BoundsAll};
ghost use Rattle.walks.specs.Counts.{HasNumber};
ghost use Rattle.messages.specs.Lines.{is_memory};
ghost use Rattle.messages.specs.Reasons.{IsReason};
ghost use Rattle.messages.specs.Texts.{program_front};
ghost use Rattle.calls.specs.Crossing.{IsDecision};
ghost use Rattle.calls.specs.Verdicts.{ReturnsBound, only_bound, IsRefusedImage, FillsImageRefusal, FillsProgramRefusal, IsUndecided};
ghost use Rattle.calls.specs.declared.statuses.NotAccepted.TheVariants as NotAccepted;

use crate::buffers::fill;
use crate::numbers::{number_of_image_error, number_of_refusal};
use crate::statuses::{MEMORY, NotAccepted, OK, REFUSED, UNDECIDED, WRONG};
use control_flow::FlowError;
use explorer::{Refusal, Verified, verify};
use image::{Image, ImageError};
use isa_model::MAX_EXPLORED;
use listeners::{NoBound, Rejected, SearchPath, explain, verify_within};
use messages::{image_text, program_text, reason};
use std::alloc::Global;

/// The verdict on an image: the most steps of a run if it is accepted, and otherwise the slot at
/// which its program is refused; for bytes that are no image the slot is 0. `said` is how many
/// bytes the text of a refusal has, and `code` is the number of its code: 9 for V9, 103 for G3, 205
/// for I5. What a verdict does not have is 0.
#[repr(C)]
#[derive(Clone, Copy, Drop)]
pub struct Verdict {
    pub said: usize,
    pub slot: usize,
    pub bound: u32,
    pub code: u32,
}

// Whether a refusal says only that memory ran out.
fn is_memory(refusal: Refusal) -> bool
    ensures { result ≡ is_memory refusal }
{
    matches!(refusal, Refusal::Memory | Refusal::Flow(FlowError::Memory))
}

/// The program of an image, if it is accepted, with the bound that `verify_image` gives.
pub fn verified_of(alloc: Global, image: &[u8]) -> Result<Verified, NotAccepted>
    ensures spelled { IfOk result (λ verified. image.now ≡ image_bytes verified.program) }
    ensures verified { IfOk result IsVerified }
    ensures number { IfOk result
        (λ verified. HasNumber verified.program start verified.bound) }
    ensures bounds { IfOk result (λ verified. BoundsAll verified.program verified.bound) }
    ensures refused { result ≡ Err NotAccepted.Refused → IsRefusedImage image.now }
{
    let program = match Image::parse(alloc, image) {
        Ok(program) => program,
        Err(ImageError::Memory) => return Err(NotAccepted::Memory),
        Err(_) => return Err(NotAccepted::Refused),
    };
    match verify(alloc, program) {
        Ok(verified) => Ok(verified),
        Err((refusal, _)) => {
            if is_memory(refusal) {
                Err(NotAccepted::Memory)
            } else {
                Err(NotAccepted::Refused)
            }
        }
    }
}

// What is known where a program is refused, if that is asked for: by the path of the search that
// refused it, or by a second search.
fn known_of(
    alloc: Global,
    image: &Image,
    refusal: Refusal,
    slot: usize,
    path: Option<SearchPath>,
    asked: bool,
) -> Option<String>
    requires refused { IfSome path (λ _. IsRefused image.now refusal slot) }
    ensures known { IfSome result (λ text. IsReason image.now refusal slot (string_bytes text)) }
    ensures unasked { asked ≡ false → result ≡ None }
{
    if asked {
        let found = explain(alloc, image, refusal, slot, path);
        reason(alloc, image, refusal, slot, found)
    } else {
        None
    }
}

// Writes why a program is refused.
fn write_refusal(
    alloc: Global,
    program: &Image,
    rejected: Rejected,
    why: &mut [u8],
    out: &mut Verdict,
) -> u32
    requires { IsRefused program.now rejected.refusal rejected.slot }
    ensures refused { result ≡ REFUSED
        → FillsProgramRefusal program.now why.old why.new out.new }
    ensures no_room { result ≡ REFUSED → why.old ≡ [] → out.new.said
        ≡ length (program_front program.now rejected.refusal rejected.slot) }
    ensures why_kept { result ≢ REFUSED → why.new ≡ why.old }
    ensures memory { result ≡ MEMORY → out.new ≡ out.old }
    ensures status { (result ≡ REFUSED) ⊎ (result ≡ MEMORY) }
{
    let Rejected {
        refusal,
        slot,
        path,
    } = rejected;
    if is_memory(refusal) {
        return MEMORY;
    }
    let known = known_of(alloc, program, refusal, slot, path, !why.is_empty());
    let Some(text) = program_text(alloc, program, refusal, slot, known) else {
        return MEMORY;
    };
    *out = Verdict {
        bound: 0,
        slot,
        said: fill(why, text.as_slice()),
        code: number_of_refusal(refusal),
    };
    REFUSED
}

// Judges a program, and writes why it is refused.
fn judge(alloc: Global, program: Image, limit: u32, why: &mut [u8], out: &mut Verdict) -> u32
    ensures accepted { result ≡ OK → IsVerified (record {
      program = program;
      bound = out.new.bound;
    }) }
    ensures number { result ≡ OK → HasNumber program start out.new.bound }
    ensures bounds { result ≡ OK → BoundsAll program out.new.bound }
    ensures alone { result ≡ OK → out.new ≡ only_bound out.new.bound }
    ensures refused { result ≡ REFUSED → FillsProgramRefusal program why.old why.new out.new }
    ensures why_kept { result ≢ REFUSED → why.new ≡ why.old }
    ensures memory { result ≡ MEMORY → out.new ≡ out.old }
    ensures undecided { result ≡ UNDECIDED → (limit < max_explored) × (out.new ≡ out.old) }
    ensures status { IsDecision result }
{
    let Ok(copy) = program.copy(alloc) else {
        return MEMORY;
    };
    match verify_within(alloc, program, limit) {
        Ok(verified) => {
            *out = Verdict {
                bound: verified.bound(),
                slot: 0,
                said: 0,
                code: 0,
            };
            OK
        }
        Err(NoBound::Limit) => UNDECIDED,
        Err(NoBound::Refused(rejected)) => write_refusal(alloc, &copy, rejected, why, out),
    }
}

/// Verifies an image, exploring at most `limit` instructions (1 to 1,000,000). Why it is refused is
/// written to `why`, as far as there is room; what is known at the refused instruction is looked
/// for only if there is room.
pub fn verify_image(
    alloc: Global,
    image: &[u8],
    limit: u32,
    why: &mut [u8],
    out: &mut Verdict,
) -> u32
    ensures accepted { result ≡ OK → ReturnsBound image.now out.new }
    ensures wrong { (result ≡ WRONG) ↔ ((limit ≡ 0) ⊎ (max_explored < limit)) }
    ensures refused { result ≡ REFUSED → FillsImageRefusal image.now why.old why.new out.new }
    ensures undecided { result ≡ UNDECIDED → IsUndecided image.now limit }
    ensures why_kept { result ≢ REFUSED → why.new ≡ why.old }
    ensures out_kept { result ≢ OK → result ≢ REFUSED → out.new ≡ out.old }
    ensures status { (result ≡ WRONG) ⊎ IsDecision result }
{
    if limit == 0 || limit > MAX_EXPLORED {
        return WRONG;
    }
    match Image::parse(alloc, image) {
        Ok(program) => judge(alloc, program, limit, why, out),
        Err(ImageError::Memory) => MEMORY,
        Err(error) => {
            let Some(text) = image_text(alloc, error) else {
                return MEMORY;
            };
            *out = Verdict {
                bound: 0,
                slot: 0,
                said: fill(why, text.as_slice()),
                code: number_of_image_error(error),
            };
            REFUSED
        }
    }
}
