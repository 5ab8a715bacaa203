//! The search for a bound on the steps of every run.

ghost use Rattle.std.specs.Prelude.{◌≡◌, IfOk, IfErr};
ghost use Rattle.bounds.specs.Bounds.{IsVerified};
ghost use Rattle.walks.specs.Refused.{IsRefused};
ghost use Rattle.walks.specs.Accepting.{AcceptsAll, BoundsAll};
ghost use Rattle.walks.specs.Counts.{HasNumber};
ghost use Rattle.stack_state.specs.Starts.{start};

use crate::listened::verify_with;
use crate::listening::Nobody;
use crate::moves::Halt;
use bounds::Verified;
use image::Image;
use std::alloc::Global;
use walks::Refusal;

/// Looks for a bound on the steps of each run, or refuses the program at a slot.
///
/// Control flow is tested first. Then states are explored from the start; a state's number is 1
/// more than the greatest of its successors', and the bound is the number of the start. No more
/// than `MAX_EXPLORED` instructions are explored.
pub fn verify(alloc: Global, image: Image) -> Result<Verified, (Refusal, usize)>
    ensures program { IfOk result (λ verified. verified.program ≡ image) }
    ensures verified { IfOk result IsVerified }
    ensures refused { IfErr result (λ r. IsRefused image r.0 r.1) }
    ensures number { IfOk result (λ verified. HasNumber image start verified.bound) }

    // Programs of the classes that must be accepted are refused only when memory runs out, plain
    // and guarded ones of version 2 also where an exit is not shown to answer with an action, and
    // have the bounds that are known of them.
    ensures accepts { IfErr result (λ r. AcceptsAll image r.0) }
    ensures bounds { IfOk result (λ verified. BoundsAll image verified.bound) }
{
    match verify_with(alloc, image, &mut Nobody) {
        Ok(verified) => Ok(verified),
        Err(Halt::Refused(refusal, slot)) => Err((refusal, slot)),
        Err(Halt::Stopped(never)) => match never {},
    }
}
