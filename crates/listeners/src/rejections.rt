//! The verdict on a program, with the path on which a search came to its limit.

ghost use Rattle.std.specs.Prelude.{◌≡◌, [], IfOk, IfErr};
ghost use Rattle.isa_model.specs.Code.Instructions.{Program};
ghost use Rattle.bounds.specs.Bounds.{IsVerified};
ghost use Rattle.stack_state.specs.declared.states.State.{State as TheState};
ghost use Rattle.stack_state.specs.Starts.{start};
ghost use Rattle.walks.specs.Forgetting.{Precision};
ghost use Rattle.walks.specs.Refused.{IsRefused};
ghost use Rattle.walks.specs.Accepting.{AcceptsAll, BoundsAll};
ghost use Rattle.walks.specs.Counts.{HasNumber};
ghost use Rattle.explorer.specs.Listening.{IfRefused};
ghost use Rattle.listeners.specs.Rejections.{IfRejected};

use bounds::Verified;
use explorer::{Courses, Halt, Listener, Searched, search_with};
use image::Image;
use std::alloc::Global;
use walks::{Refusal, SearchLimit};

/// The path on which a search came to its limit. [`explain`](crate::explain) follows it once more.
/// It is advice.
#[derive(Drop)]
pub struct SearchPath {
    pub courses: Courses,
    /// The limit that the search had reached before, if it had reached one.
    pub limit: Option<SearchLimit>,
}

/// The refusal of a program, and its slot.
#[derive(Drop)]
pub struct Rejected {
    pub refusal: Refusal,
    pub slot: usize,
    /// The path there, if the search came to its limit of explored instructions: to search for it
    /// again takes as long as the search.
    pub path: Option<SearchPath>,
}

/// Says why a search has not verified a program.
#[derive(Drop)]
pub enum Unverified<S> {
    /// The program is refused.
    Rejected(Rejected),
    /// The listener stopped the search.
    Stopped(S),
}

/// The path on which a search came to a refusal, if that is its limit.
fn path_to(refusal: Refusal, courses: Courses, limit: Option<SearchLimit>) -> Option<SearchPath> {
    match refusal {
        Refusal::TooLong => Some(SearchPath { courses, limit }),
        _ => None,
    }
}

/// Why a search ended without a number, with its path.
fn why_unverified<S>(halt: Halt<S>, courses: Courses, limit: Option<SearchLimit>) -> Unverified<S>
    ensures { (p : Program) → IfRefused halt (IsRefused p) → IfRejected result (IsRefused p) }
{
    match halt {
        Halt::Refused(refusal, slot) => Unverified::Rejected(Rejected {
            refusal,
            slot,
            path: path_to(refusal, courses, limit),
        }),
        Halt::Stopped(stop) => Unverified::Stopped(stop),
    }
}

/// Verifies a program as `verify_with` of `explorer` does. If it is refused since the search came
/// to its limit, its path there comes with the refusal.
pub fn verify_followed<L: Listener>(
    alloc: Global,
    image: Image,
    listener: &mut L,
) -> Result<Verified, Unverified<L::Stop>>
    requires untold { (how : Precision) → (last : TheState)
        × L.follows listener.old how image [] last }
    ensures program { IfOk result (λ verified. verified.program ≡ image) }
    ensures verified { IfOk result IsVerified }
    ensures refused { IfErr result (λ stop. IfRejected stop (IsRefused image)) }
    ensures number { IfOk result (λ verified. HasNumber image start verified.bound) }
    ensures accepts { IfErr result (λ stop. IfRejected stop (λ e _. AcceptsAll image e)) }
    ensures bounds { IfOk result (λ verified. BoundsAll image verified.bound) }
{
    image.recall();
    let Searched {
        result,
        stored: _,
        limit,
        courses,
    } = search_with(alloc, &image, listener);
    match result {
        Ok(bound) => Ok(Verified::from_within(image, bound)),
        Err(halt) => Err(why_unverified(halt, courses, limit)),
    }
}
