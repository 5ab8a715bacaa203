//! The callers of a state, which states share.

ghost use Rattle.std.specs.Prelude.{◌≡◌, IfOk, IfSome};

use crate::kept_frames::{KeptFrame, are_frames, keep_all};
use stack_state::AbstractFrame;
use state_index::Part;
use std::alloc::{AllocError, Global};
use std::rc::Rc;

/// The call frames beside the innermost one, which states share.
pub type Callers = Rc<Vec<KeptFrame>>;

/// The callers of a state, if there is one.
fn callers_in(other: Option<&Callers>) -> &[KeptFrame] {
    match other {
        Some(callers) => callers.as_ref().as_slice(),
        None => &[],
    }
}

/// The callers of another state once more, if they are the same.
fn shared_callers(
    frames: &[AbstractFrame],
    other: Option<&Callers>,
) -> Result<Option<Callers>, AllocError>
    ensures { IfOk result (λ found. IfSome found (λ kept. kept.value.items ≡ frames.now)) }
{
    if let Some(other) = other {
        if are_frames(other.as_ref().as_slice(), frames) {
            let callers = other.clone()?;
            return Ok(Some(callers));
        }
    }
    Ok(None)
}

/// Keeps the callers of a state: those of another state, where they are the same.
pub fn keep_callers(
    alloc: Global,
    frames: &[AbstractFrame],
    parts: &mut Vec<Part>,
    others: (Option<&Callers>, Option<&Callers>),
) -> Result<Callers, AllocError>
    ensures { IfOk result (λ kept. kept.value.items ≡ frames.now) }
{
    if let Some(callers) = shared_callers(frames, others.0)? {
        return Ok(callers);
    }
    if let Some(callers) = shared_callers(frames, others.1)? {
        return Ok(callers);
    }
    let others = (callers_in(others.0), callers_in(others.1));
    let kept = keep_all(alloc, frames, parts, others)?;
    match Rc::new(alloc, kept) {
        Ok(kept) => Ok(kept),
        Err(_) => Err(AllocError),
    }
}
