//! The search for a bound, which calls a listener for each move.

ghost use Rattle.std.specs.Prelude.{◌≡◌, ◌≤◌, ◌↔◌, [], Err, IfOk, IfErr, IsTrue};
ghost use Rattle.isa_model.specs.Running.Outcomes.{StartsEnd};
ghost use Rattle.bounds.specs.Bounds.{IsVerified};
ghost use Rattle.walks.specs.Forgetting.{Precision, Exact};
ghost use Rattle.walks.specs.Refused.{IsRefused, StopsAt};
ghost use Rattle.walks.specs.Accepting.{AcceptsAll, BoundsAll};
ghost use Rattle.walks.specs.Counts.{HasNumber};
ghost use Rattle.stack_state.specs.declared.states.State.{State as TheState};
ghost use Rattle.stack_state.specs.Starts.{start};
ghost use Rattle.stack_state.specs.Meaning.{Within};
ghost use Rattle.image.specs.Images.{IsImage};
ghost use Rattle.control_flow.specs.Flows.{IsFlow};
ghost use Rattle.explorer.specs.Search.{IsNew};
ghost use Rattle.explorer.specs.Listening.{IfRefused, IfStopped, IsSearchedAgain, IsOutsideSearch, EndsAsPrecise};

use crate::listening::Listener;
use crate::moves::{Halt, NO_MEMORY, Refused};
use crate::search::Search;
use crate::stored_states::StoredState;
use crate::trail::{Courses, Trail};
use bounds::Verified;
use control_flow::{Flow, KeptNumbers};
use image::Image;
use isa_model::MAX_EXPLORED;
use kept_states::Kept;
use std::alloc::Global;
use std::mem;
use walks::{Refusal, SearchLimit};

/// The control flow of a program, and a search that is at its start; or why there is no search, and
/// the slot.
fn prepared(alloc: Global, image: &Image) -> Result<(Flow<'_>, Box<Search>), Refused>
    ensures whole { IfOk result (λ _. IsImage image.now) }
    ensures good { IfOk result (λ _. IsFlow image.now) }
    ensures image { IfOk result (λ made. made.0 ≡ image.now) }
    ensures new { IfOk result (λ made. IsNew made.1.value) }
    ensures refused { IfErr result (λ r. IsRefused image.now r.0 r.1) }
    ensures early { IfErr result (λ r. IsOutsideSearch r.0) }
{
    let slots = image.slots();
    let flow = match Flow::of(alloc, image) {
        Ok(flow) => flow,
        Err((error, slot)) => return Err((Refusal::Flow(error), slot)),
    };
    match Search::new(alloc, slots) {
        Ok(search) => Ok((flow, search)),
        Err(_) => Err(NO_MEMORY),
    }
}

/// A search that has ended.
#[derive(Drop)]
pub struct Searched<S> {
    /// The number of the start, which bounds all runs, or why there is none.
    pub result: Result<u32, Halt<S>>,
    /// The states that were stored, by the indexes that the listener was given.
    pub stored: Vec<StoredState>,
    /// The limit of the search that was reached, if one was.
    pub limit: Option<SearchLimit>,
    /// How its last path went on from each visit, for [`retrace`](crate::retrace).
    pub courses: Courses,
}

impl<S: Drop> Searched<S> {
    /// A search that ended so.
    fn of(alloc: Global, ended: Result<u32, Halt<S>>, search: &mut Search) -> Self
        ensures { result.result ≡ ended }
    {
        Searched {
            result: ended,
            stored: mem::replace(&mut search.states.states, Vec::new(alloc)),
            limit: search.states.limit(),
            courses: mem::replace(&mut search.path, Trail::new(alloc)).into_courses(),
        }
    }

    /// What ended before any state was stored.
    fn early(alloc: Global, halt: Halt<S>) -> Self
        ensures { result.result ≡ Err halt }
    {
        Searched {
            result: Err(halt),
            stored: Vec::new(alloc),
            limit: None,
            courses: Courses::none(alloc),
        }
    }
}

/// Returns whether a search is to be made again, exactly: it has come to keep certain numbers only,
/// and ended with a refusal that may be due to those that it forgot.
fn is_open<S>(ended: &Result<u32, Halt<S>>, kept: &Option<KeptNumbers>) -> bool
    ensures { IsTrue result ↔ IsSearchedAgain ended.now kept.now }
{
    match (ended, kept) {
        (Err(Halt::Refused(Refusal::Step(_) | Refusal::Repeats, _)), Some(_)) => true,
        _ => false,
    }
}

/// Explores a program, and once more exactly where a refusal may be due to what a long search
/// forgets.
fn find_bound<L: Listener>(
    alloc: Global,
    image: &Image,
    flow: &Flow<'_>,
    search: &mut Search,
    listener: &mut L,
) -> Searched<L::Stop>
    requires image { flow.now ≡ image.now }
    requires whole { IsImage image.now }
    requires good { IsFlow flow.now }
    requires new { IsNew search.old }
    requires untold { (how : Precision) → (last : TheState)
        × L.follows listener.old how flow.now [] last }
    ensures within { IfOk result.result (λ n. Within flow.now start n) }
    ensures number { IfOk result.result (λ n. HasNumber flow.now start n) }
    ensures some { IfOk result.result (λ n. 1 ≤ n) }
    ensures most { IfOk result.result (λ n. n ≤ MAX_EXPLORED) }
    ensures stops { IfErr result.result (λ h. IfRefused h (StopsAt Exact flow.now)) }
    ensures follows { IfErr result.result (λ h. IfRefused h
        (EndsAsPrecise flow.now (λ how. L.follows listener.new how flow.now))) }
{
    let result = search.explore(alloc, image, flow, false, listener);
    if !is_open(&result, &search.kept) {
        return Searched::of(alloc, result, search);
    }
    if let Err(stop) = listener.begins_anew() {
        return Searched::early(alloc, Halt::Stopped(stop));
    }
    let Ok(()) = search.begin_anew(alloc, image.slots()) else {
        return Searched::early(alloc, Halt::Refused(Refusal::Memory, 0));
    };
    let result = search.explore(alloc, image, flow, true, listener);
    Searched::of(alloc, result, search)
}

/// Searches for a bound on a program's runs, and calls a listener for each move. A long search
/// keeps fewer numbers; a refusal that may be due to that is searched for again, exactly. There is
/// no search if the program is refused for its control flow, or if memory runs out before it.
pub fn search_with<L: Listener>(alloc: Global, image: &Image, listener: &mut L) -> Searched<L::Stop>
    requires untold { (how : Precision) → (last : TheState)
        × L.follows listener.old how image.now [] last }
    ensures ends { IfOk result.result (StartsEnd image.now) }
    ensures number { IfOk result.result (λ n. HasNumber image.now start n) }
    ensures some { IfOk result.result (λ n. 1 ≤ n) }
    ensures most { IfOk result.result (λ n. n ≤ MAX_EXPLORED) }
    ensures refused { IfErr result.result (λ h. IfRefused h (IsRefused image.now)) }
    ensures stopped { IfErr result.result (λ h. IfStopped h (IsFlow image.now)) }

    // A listener has followed the path to the state in which the program is refused.
    ensures follows { IfErr result.result (λ h. IfRefused h
        (EndsAsPrecise image.now (λ how. L.follows listener.new how image.now))) }
{
    match prepared(alloc, image) {
        Ok((flow, mut search)) => find_bound(alloc, image, &flow, &mut search, listener),
        Err((refusal, slot)) => Searched::early(alloc, Halt::Refused(refusal, slot)),
    }
}

/// Verifies a program as `verify` does, and calls a listener during the search. There is no search
/// if the program is refused for its control flow, or if memory runs out before it. Unless the
/// listener stops the search, the result has each clause of `verify`'s.
pub fn verify_with<L: Listener>(
    alloc: Global,
    image: Image,
    listener: &mut L,
) -> Result<Verified, Halt<L::Stop>>
    requires untold { (how : Precision) → (last : TheState)
        × L.follows listener.old how image [] last }
    ensures program { IfOk result (λ verified. verified.program ≡ image) }
    ensures verified { IfOk result IsVerified }
    ensures refused { IfErr result (λ h. IfRefused h (IsRefused image)) }
    ensures number { IfOk result (λ verified. HasNumber image start verified.bound) }
    ensures accepts { IfErr result (λ h. IfRefused h (λ e _. AcceptsAll image e)) }
    ensures bounds { IfOk result (λ verified. BoundsAll image verified.bound) }
{
    image.recall();
    let result = search_with(alloc, &image, listener).result;
    match result {
        Ok(bound) => Ok(Verified::from_within(image, bound)),
        Err(halt) => Err(halt),
    }
}

/// Returns how many words of 8 bytes a stored state took that it did not share with another one
/// when it was kept.
pub fn own_words(kept: &Kept) -> u32 {
    kept.words()
}
