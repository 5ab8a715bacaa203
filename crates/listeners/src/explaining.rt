//! What is known where a program is refused, and the path there.

ghost use Rattle.std.specs.Prelude.{◌≡◌, ◌<◌, [], ◌∷◌, ◌++◌, drop, length, List, Err, IfOk, IfSome, IsTrue};
ghost use Rattle.isa_model.specs.Code.Instructions.{Program};
ghost use Rattle.stack_state.specs.declared.states.State.{State as TheState};
ghost use Rattle.walks.specs.Forgetting.{Precision};
ghost use Rattle.walks.specs.Walks.{StepsTo};
ghost use Rattle.walks.specs.Explained.{IsLed, IsTurnBefore, ComesThrough, Explains};
ghost use Rattle.walks.specs.Refused.{IsRefused};
ghost use Rattle.walks.specs.Accepting.{AcceptsAll};
ghost use Rattle.explorer.specs.declared.moves.Halt.TheVariants.{Refused};
ghost use Rattle.explorer.specs.Listening.{IsOutsideSearch};
ghost use Rattle.listeners.specs.Followed.{HasFollowed};

use crate::rejections::SearchPath;
use crate::turns::Turns;
use arrayvec::ArrayVec;
use explorer::{Halt, Listener, retrace, search_with};
use image::Image;
use stack_state::State;
use std::alloc::{AllocError, Global};
use std::mem;
use walks::{Explanation, Jump, MOST_JUMPS, Refusal, SearchLimit};

/// Adds a jump at the end; a full list loses its first one.
fn note(way: &mut ArrayVec<Jump, 8>, jump: Jump)
    ensures room { length way.old.items < MOST_JUMPS
        → way.new.items ≡ way.old.items ++ jump ∷ [] }
    ensures full { length way.old.items ≡ MOST_JUMPS
        → way.new.items ≡ drop 1 way.old.items ++ jump ∷ [] }
{
    if way.is_full() {
        way.remove(0);
    }
    way.push(jump);
}

/// Extends the last jumps of a path by a step between states at these slots, if that is a jump.
/// None: no instruction begins at `from`.
fn go_on(image: &Image, way: &mut ArrayVec<Jump, 8>, from: usize, to: usize) -> Option<()>
    ensures { IfSome result (λ _. (how : Precision) (a s : TheState) → a.slot ≡ from → s.slot ≡ to
        → StepsTo how image.now a s → IsLed how image.now a way.old.items
        → IsLed how image.now s way.new.items) }
{
    let insn = image.at(from)?;
    let next = from.checked_add(insn.slots())?;
    if to != next {
        note(way, Jump { from, to });
    }
    Some(())
}

/// Follows the path of a search to a slot.
#[derive(Drop)]
struct Follower<'a> {
    image: &'a Image,
    /// The slots of the path's states.
    slots: Vec<usize>,
    /// The slot that is asked for.
    slot: usize,
    /// The last states that arrived there.
    turns: Turns,
}

impl<'a> Follower<'a> {
    /// A follower before the search. It has two states, so it is on the heap, and it is made out of
    /// line.
    #[inline(never)]
    fn new(alloc: Global, image: &'a Image, slot: usize) -> Result<Box<Self>, AllocError>
        ensures slot { IfOk result (λ f. f.value.slot ≡ slot) }
        ensures image { IfOk result (λ f. f.value.image.now ≡ image.now) }
        ensures nothing { IfOk result (λ f. (how : Precision) → (s : TheState)
            × HasFollowed how f.value.image.now f.value.slots.items f.value.slot f.value.turns
            image.now [] s) }
    {
        let follower = Follower {
            image,
            slots: Vec::new(alloc),
            slot,
            turns: Turns::new(),
        };
        // No `?`, which would move the follower on the machine's stack.
        match Box::new(alloc, follower) {
            Ok(follower) => Ok(follower),
            Err(_) => Err(AllocError),
        }
    }

    /// Leaves the last state of the path: then all that is kept is of the path before it.
    fn go_back(&mut self)
        ensures { (how : Precision) (p : Program) (s : TheState) (path : List TheState)
            (last : TheState)
            → HasFollowed how self.old.image.now self.old.slots.items self.old.slot self.old.turns
            p (s ∷ path) last
            → HasFollowed how self.new.image.now self.new.slots.items self.new.slot self.new.turns
            p path last }
    {
        let _slot = self.slots.pop();
        self.turns.leave(self.slots.len());
    }

    /// Returns the last jumps of the path. None: no instruction begins at one of its slots.
    fn way(&self) -> Option<ArrayVec<Jump, 8>>
        ensures { IfSome result (λ way. (how : Precision) (p : Program)
            (before : List TheState) (s : TheState)
            → HasFollowed how self.now.image.now self.now.slots.items self.now.slot self.now.turns
            p (s ∷ before) s → IsLed how p s way.items) }
    {
        let mut way = ArrayVec::new();
        for index in 1..self.slots.len() {
            go_on(
                self.image,
                &mut way,
                self.slots[index - 1],
                self.slots[index],
            )?;
        }
        Some(way)
    }

    /// Returns what is known at the end of the path, which is at this slot, and the limit that was
    /// reached. It is on the heap and made out of line, as the follower is. None:
    /// another path was asked for, or memory ran out.
    #[inline(never)]
    fn explanation(
        &mut self,
        alloc: Global,
        slot: usize,
        limit: Option<SearchLimit>,
    ) -> Option<Box<Explanation>>
        ensures { IfSome result (λ x. (how : Precision) (p : Program)
            (before : List TheState) (s : TheState)
            → HasFollowed how self.old.image.now self.old.slots.items self.old.slot
            self.old.turns p (s ∷ before) s
            → s.slot ≡ slot → (x.value.state ≡ s) × IsLed how p s x.value.way.items
            × IsTurnBefore how p s x.value.earlier × ComesThrough how p s x.value.slots.items) }
    {
        if slot != self.slot {
            return None;
        }
        let way = self.way()?;
        let count = self.slots.len();
        let explanation = Explanation {
            state: self.turns.last.copy(),
            earlier: self.turns.earlier_before(count, slot),
            way,
            slots: mem::replace(&mut self.slots, Vec::new(alloc)),
            limit,
        };
        match Box::new(alloc, explanation) {
            Ok(explanation) => Some(explanation),
            Err(_) => None,
        }
    }
}

impl Listener for Follower<'_> {
    type Stop = AllocError;

    ghost follows = { λ f how p path last. HasFollowed how f.image.now f.slots.items f.slot f.turns
        p path last };

    fn arrives(&mut self, state: &State) -> Result<(), AllocError> {
        self.turns.arrive(self.slot, self.slots.len(), state);
        self.slots.push(state.slot)?;
        Ok(())
    }

    fn covered(&mut self, _index: usize, _number: u32) -> Result<(), AllocError> {
        self.go_back();
        Ok(())
    }

    fn finished(&mut self, _number: u32) -> Result<(), AllocError> {
        self.go_back();
        Ok(())
    }

    fn begins_anew(&mut self) -> Result<(), AllocError> {
        self.slots.clear();
        self.turns = Turns::new();
        Ok(())
    }
}

/// Returns whether two refusals are the same. The derived `==` has no clause that says so.
fn are_one(one: Refusal, other: Refusal) -> bool
    ensures { IsTrue result → one ≡ other }
{
    match (one, other) {
        (Refusal::Flow(one), Refusal::Flow(other)) => one == other,
        (Refusal::Step(one), Refusal::Step(other)) => one == other,
        (Refusal::Repeats, Refusal::Repeats) => true,
        (Refusal::TooLong, Refusal::TooLong) => true,
        (Refusal::Memory, Refusal::Memory) => true,
        _ => false,
    }
}

/// Returns whether a search may stop with the refusal: it is none of control flow, and memory did
/// not run out.
fn is_found_by_search(refusal: Refusal) -> bool
    ensures { IsTrue result → ¬ IsOutsideSearch refusal }
{
    !matches!(refusal, Refusal::Flow(_) | Refusal::Memory)
}

/// The refusal that a search ended with, and its slot.
fn refusal_in(ended: Result<u32, Halt<AllocError>>) -> Option<(Refusal, usize)>
    ensures { IfSome result (λ r. ended ≡ Err (Refused r.0 r.1)) }
{
    match ended {
        Err(Halt::Refused(refusal, slot)) => Some((refusal, slot)),
        _ => None,
    }
}

/// Returns what is known where a program gets this refusal, at this slot, by a search for it.
#[inline(never)]
fn searched_for(
    alloc: Global,
    image: &Image,
    refusal: Refusal,
    slot: usize,
) -> Option<Box<Explanation>>
    ensures explains { IfSome result (λ x. Explains image.now refusal slot x.value) }
    ensures refused { IfSome result (λ _. IsRefused image.now refusal slot) }
    ensures accepts { IfSome result (λ _. AcceptsAll image.now refusal) }
{
    if !is_found_by_search(refusal) {
        return None;
    }
    image.recall();
    let Ok(mut kept) = Follower::new(alloc, image, slot) else {
        return None;
    };
    let follower = &mut *kept;
    let searched = search_with(alloc, image, follower);
    let limit = searched.limit;
    match refusal_in(searched.result) {
        Some((found, at)) if are_one(found, refusal) && at == slot => {
            follower.explanation(alloc, slot, limit)
        }
        _ => None,
    }
}

/// Returns whether the refusal is that of a search that came to its limit.
fn is_too_long(refusal: Refusal) -> bool
    ensures { IsTrue result → refusal ≡ Refusal.TooLong }
{
    matches!(refusal, Refusal::TooLong)
}

/// Returns what is known where a search came to its limit, at this slot, by the path of that
/// search. None: memory ran out, or it is not the path there.
#[inline(never)]
fn followed_again(
    alloc: Global,
    image: &Image,
    refusal: Refusal,
    slot: usize,
    path: SearchPath,
) -> Option<Box<Explanation>>
    requires refused { IsRefused image.now refusal slot }
    ensures explains { IfSome result (λ x. Explains image.now refusal slot x.value) }
{
    if !is_too_long(refusal) {
        return None;
    }
    let Ok(mut kept) = Follower::new(alloc, image, slot) else {
        return None;
    };
    let follower = &mut *kept;
    match retrace(alloc, image, &path.courses, follower) {
        Some(end) if end == slot => follower.explanation(alloc, slot, path.limit),
        _ => None,
    }
}

/// Returns what is known where a program gets this refusal, at this slot: the path of the search
/// that refused it is followed once more, or a second search looks for it.
///
/// None: the refusal is one of control flow, memory ran out, or this is not what the program is
/// refused for.
pub fn explain(
    alloc: Global,
    image: &Image,
    refusal: Refusal,
    slot: usize,
    path: Option<SearchPath>,
) -> Option<Box<Explanation>>
    requires refused { IfSome path (λ _. IsRefused image.now refusal slot) }
    ensures explains { IfSome result (λ x. Explains image.now refusal slot x.value) }
    ensures refused { IfSome result (λ _. IsRefused image.now refusal slot) }
    ensures accepts { IfSome result (λ _. AcceptsAll image.now refusal) }
{
    image.recall();
    let Some(path) = path else {
        return searched_for(alloc, image, refusal, slot);
    };
    match followed_again(alloc, image, refusal, slot, path) {
        Some(found) => Some(found),
        None => searched_for(alloc, image, refusal, slot),
    }
}
