//! Judges an image: its verdict, what was counted, and how long it took.

ghost use Rattle.std.specs.Prelude.{◌≡◌, IfSome, None, Some};
ghost use Rattle.isa_model.specs.{Program};
ghost use Rattle.isa_model.specs.Running.Outcomes.{StartsEnd};
ghost use Rattle.image.specs.Images.{IsImage, image_bytes};
ghost use Rattle.stack_state.specs.Starts.{start};
ghost use Rattle.walks.specs.Counts.{HasNumber};
ghost use Rattle.walks.specs.Refused.{IsRefused};
ghost use Rattle.image.specs.Refusals.{refusal_of};
ghost use Rattle.image.specs.declared.errors.ImageError.{ImageError};
ghost use Rattle.surveys.specs.Judging.{SaysVerdict, SaysMalformed, LacksOther, slot_of};
ghost use Rattle.surveys.specs.Tallies.{HasSizes, SaysSizes, searched, with_bound, with_tally};

use crate::tallies::SearchTally;
use bounds::Verified;
use control_flow::FlowError;
use explorer::{Halt, Refusal, verify_with};
use image::{Image, ImageError};
use std::alloc::Global;
use std::time::{Clock, Instant};
use survey_rows::{Counts, Judgement};

/// Says how an image was judged, and what was counted and measured.
#[derive(Drop)]
pub struct Judged {
    pub verdict: Judgement,
    pub counts: Counts,
    /// The program, if it is accepted.
    pub verified: Option<Verified>,
}

/// The microseconds since an instant, if the clock could be read.
pub fn microseconds_since<C: Clock>(clock: &C, since: Option<Instant>) -> Option<u64> {
    let elapsed = since?.elapsed(clock).ok()?;
    u64::try_from(elapsed.as_micros()).ok()
}

/// The result if memory ran out.
fn unjudged(counts: Counts) -> Judged
    ensures verdict { result.verdict ≡ Judgement.NoMemory }
    ensures counts { result.counts ≡ counts }
    ensures unverified { result.verified ≡ None }
{
    Judged {
        verdict: Judgement::NoMemory,
        counts,
        verified: None,
    }
}

/// The slot at which an image is refused, if there is one.
fn slot_of(error: ImageError) -> Option<u64>
    ensures { result ≡ slot_of error }
{
    match error {
        ImageError::Code(slot, _) | ImageError::UnknownMap(slot) | ImageError::ValuePointer(slot) =>
            { Some(slot as u64) }
        _ => None,
    }
}

/// The result for bytes that are not an image, or if memory ran out before that was known.
fn malformed(error: ImageError) -> Judged
    ensures memory { error ≡ ImageError.Memory → result.verdict ≡ Judgement.NoMemory }
    ensures says { SaysMalformed error result.verdict result.counts }
    ensures other { LacksOther result.verdict result.counts }
    ensures unverified { result.verified ≡ None }
{
    match error {
        ImageError::Memory => unjudged(Counts::default()),
        _ => Judged {
            verdict: Judgement::Refused(error.code()),
            counts: Counts {
                slot: slot_of(error),
                ..Counts::default()
            },
            verified: None,
        },
    }
}

/// Returns how many slots and map rows an image has.
fn sizes_of(image: &Image) -> Counts
    ensures sizes { HasSizes image.now result }
    ensures no_slot { result.slot ≡ None }
    ensures no_bound { result.bound ≡ None }
{
    Counts {
        slots: Some(image.slots() as u64),
        maps: Some(image.maps().len() as u64),
        ..Counts::default()
    }
}

/// Counts with what was counted in a search.
fn counted(tally: SearchTally, counts: Counts) -> Counts
    ensures { result ≡ with_tally counts tally }
{
    Counts {
        explored: Some(tally.explored),
        stored: Some(tally.stored),
        deepest: Some(tally.deepest),
        stored_bytes: Some(tally.stored_bytes),
        ..counts
    }
}

/// The result for a program that is refused.
fn refused(refusal: Refusal, slot: usize, counts: Counts) -> Judged
    ensures says { (p : Program) → IsRefused p refusal slot
        → SaysVerdict p result.verdict result.counts }
    ensures other { counts.bound ≡ None → LacksOther result.verdict result.counts }
    ensures rest { searched result.counts ≡ searched counts }
    ensures unverified { result.verified ≡ None }
{
    match refusal {
        Refusal::Memory | Refusal::Flow(FlowError::Memory) => unjudged(counts),
        _ => Judged {
            verdict: Judgement::Refused(refusal.code()),
            counts: Counts {
                slot: Some(slot as u64),
                ..counts
            },
            verified: None,
        },
    }
}

/// The counts of an accepted program, with its bound.
fn bounded(verified: &Verified, counts: Counts) -> Counts
    ensures bound { result ≡ with_bound counts verified.now.bound }
    ensures ends { StartsEnd verified.now.program verified.now.bound }
{
    Counts {
        bound: Some(u64::from(verified.bound())),
        ..counts
    }
}

/// The result for a program that is accepted.
fn accepted(verified: Verified, counts: Counts) -> Judged
    ensures says { HasNumber verified.program start verified.bound
        → SaysVerdict verified.program result.verdict result.counts }
    ensures other { counts.slot ≡ None → LacksOther result.verdict result.counts }
    ensures counts { result.counts ≡ with_bound counts verified.bound }
    ensures handed { result.verified ≡ Some verified }
{
    let counts = bounded(&verified, counts);
    Judged {
        verdict: Judgement::Accepted,
        counts,
        verified: Some(verified),
    }
}

/// Judges a program by `verify`.
fn judge_image<C: Clock>(clock: &C, alloc: Global, image: Image) -> Judged
    ensures says { SaysVerdict image result.verdict result.counts }
    ensures other { LacksOther result.verdict result.counts }
    ensures sizes { HasSizes image result.counts }
    ensures program { IfSome result.verified (λ verified. verified.program ≡ image) }
{
    let sizes = sizes_of(&image);
    let mut tally = SearchTally::default();
    let since = Instant::now(clock).ok();
    let found = verify_with(alloc, image, &mut tally);
    let counts = counted(
        tally,
        Counts {
            microseconds: microseconds_since(clock, since),
            ..sizes
        },
    );
    match found {
        Ok(verified) => accepted(verified, counts),
        Err(Halt::Refused(refusal, slot)) => refused(refusal, slot, counts),
        Err(Halt::Stopped(never)) => match never {},
    }
}

/// Judges the bytes of an image: accepted by `verify` with its bound, or refused with the code and
/// the slot; and what was counted in the search.
pub fn judge<C: Clock>(clock: &C, alloc: Global, bytes: &[u8]) -> Judged
    ensures says { (p : Program) → IsImage p → bytes.now ≡ image_bytes p
        → SaysVerdict p result.verdict result.counts }
    ensures malformed { (wrong : ImageError) → refusal_of bytes.now ≡ Some wrong
        → SaysMalformed wrong result.verdict result.counts }
    ensures other { LacksOther result.verdict result.counts }
    ensures sizes { (p : Program) → IsImage p → bytes.now ≡ image_bytes p
        → SaysSizes p result.verdict result.counts }
    ensures spelled { IfSome result.verified
        (λ verified. bytes.now ≡ image_bytes verified.program) }
{
    match Image::parse(alloc, bytes) {
        Ok(image) => judge_image(clock, alloc, image),
        Err(error) => malformed(error),
    }
}
