//! The search through abstract states, depth first.

ghost use Rattle.std.specs.Prelude.{◌≡◌, ◌≢◌, ◌≤◌, ◌+◌, ◌<◌, ◌⊎◌, [], None, length, IsTrue, IfOk, IfErr, IfSome, OnOk, OnErr};
ghost use Rattle.stack_state.specs.Starts.{start};
ghost use Rattle.stack_state.specs.Meaning.{Within};
ghost use Rattle.stack_state.specs.declared.states.State.{State as TheState};
ghost use Rattle.state_index.specs.Rooms.{HasShapeRoom};
ghost use Rattle.walks.specs.Counts.{HasNumber};
ghost use Rattle.image.specs.Images.{IsImage};
ghost use Rattle.control_flow.specs.Flows.{IsFlow, IsJoin};
ghost use Rattle.walks.specs.Forgetting.{Precision, Exact, IsForgotten};
ghost use Rattle.walks.specs.Refused.{StopsAt};
ghost use Rattle.explorer.specs.Search.{Arrives, IsArrival, RefusesArrival, IsNew, Comes, HasEnded, AfterMove, AfterMoveOrEnd, InEach, IsNext, IsTooLong, precision_in};
ghost use Rattle.explorer.specs.Listening.{BeginsPath, BeginFails, ComesBackAt, IfReturns, ReturnFails, IfRefused, IsToTell, FollowsTo, FollowsNext, EndsIn};

use crate::arrivals::arrive;
use crate::current::Current;
use crate::listening::{Listener, halt, tell};
use crate::long_searches::lengthen;
use crate::moves::{Halt, Move, NO_MEMORY, NextMove, Refused};
use crate::stored_states::StoredStates;
use crate::trail::Trail;
use control_flow::{Flow, KeptNumbers};
use image::Image;
use isa_model::MAX_EXPLORED;
use kept_states::Kept;
use stack_state::State;
use state_index::Part;
use std::alloc::{AllocError, Global};
use transfer::Ways;
use walks::Refusal;

/// A search: the path from the start to the current state, and the states that were stored.
#[derive(Drop)]
pub struct Search {
    pub states: StoredStates,
    pub path: Trail,
    /// Says how many instructions are finished: their states have their numbers.
    pub finished: u32,
    pub current: Current,
    /// Scratch space for a state.
    pub scratch: State,
    /// Which numbers are kept at joins, once the search is long.
    pub kept: Option<KeptNumbers>,
}

impl Search {
    /// A search at the start of code of this number of slots. It is large, so it is on the heap,
    /// and it is made out of line: its place on the machine's stack is free again when a search
    /// begins.
    #[inline(never)]
    pub fn new(alloc: Global, slots: usize) -> Result<Box<Self>, AllocError>
        ensures new { IfOk result (λ search. IsNew search.value) }
        ensures room { IfOk result (λ search. HasShapeRoom search.value.states.index slots) }
    {
        let states = StoredStates::new(alloc, slots)?;
        let search = Search {
            states,
            path: Trail::new(alloc),
            finished: 0,
            current: Current::start(),
            scratch: State::start(),
            kept: None,
        };
        // No `?`, which would move the search on the machine's stack.
        match Box::new(alloc, search) {
            Ok(search) => Ok(search),
            Err(_) => Err(AllocError),
        }
    }

    /// Goes back to the start, without stored states. What these took and what looking them up has
    /// cost counts.
    #[inline(never)]
    pub fn begin_anew(&mut self, alloc: Global, slots: usize) -> Result<(), AllocError>
        ensures { OnOk result (IsNew self.new) }
    {
        self.states.begin_anew(alloc, slots)?;
        self.path = Trail::new(alloc);
        self.finished = 0;
        self.current = Current::start();
        self.kept = None;
        Ok(())
    }

    /// The path arrives at the current state, which may have been kept before.
    #[inline(always)]
    pub fn come(
        &mut self,
        alloc: Global,
        flow: &Flow<'_>,
        mut kept: Option<Kept>,
    ) -> Result<Move, Refused>
        requires comes { Comes flow.now self.old }
        requires kept { IfSome kept (λ s. s ≡ self.old.current) }
        requires forgotten { kept ≡ None → IsForgotten flow.now self.old.current }
        ensures moves { IfOk result (λ made. AfterMove flow.now self.new made) }
        ensures arrival { IfOk result IsArrival }
        ensures stops { IfErr result (λ r. StopsAt (precision_in self.new.kept) flow.now r.0 r.1) }
        ensures fails { IfErr result (λ r. ComesBackAt self.old.current r.0 r.1) }
        ensures path { self.new.path ≡ self.old.path }
        ensures current { self.new.current ≡ self.old.current }
        ensures finished { self.new.finished ≡ self.old.finished }
        ensures kept { self.new.kept ≡ self.old.kept }
    {
        arrive(
            alloc,
            flow,
            &mut self.states,
            self.current.state(),
            &mut kept,
            self.path.last_pending(),
            &mut self.scratch,
        )
    }

    /// The path arrives at the start.
    fn begin(&mut self, alloc: Global, flow: &Flow<'_>) -> Result<Move, Refused>
        requires whole { IsImage flow.now }
        requires new { IsNew self.old }
        ensures moves { IfOk result (λ made. AfterMove flow.now self.new made) }
        ensures begins { IfOk result (λ made. BeginsPath Exact flow.now made self.new.path.items
            self.new.current) }
        ensures stops { IfErr result (λ r. StopsAt (precision_in self.new.kept) flow.now r.0 r.1) }
        ensures fails { IfErr result (λ r. BeginFails Exact flow.now self.new.current r.0 r.1) }
        ensures explored { self.new.finished + length self.new.path.items ≡ 0 }
        ensures kept { self.new.kept ≡ None }
    {
        self.current.forget(flow);
        self.come(alloc, flow, None)
    }

    /// The path has arrived at a state with this number: its last visit ends, or continues with
    /// what was pending. None: there is no visit, and this is the number of the start.
    #[inline(always)]
    fn back(&mut self, alloc: Global, flow: &Flow<'_>, ended: u32) -> Result<Option<Move>, Refused>
        requires at { HasEnded flow.now self.old ended }
        requires room { self.old.finished + length self.old.path.items ≤ MAX_EXPLORED }
        ensures moves { IfOk result (λ made. AfterMoveOrEnd flow.now self.new ended made) }
        ensures returns { IfOk result (λ made. IfReturns self.old.path.items made
            self.new.path.items self.new.current) }
        ensures stops { IfErr result (λ r. StopsAt (precision_in self.new.kept) flow.now r.0 r.1) }
        ensures fails { IfErr result (λ r. ReturnFails self.old.path.items
            self.new.current r.0 r.1) }
        ensures explored { OnOk result (self.new.finished + length self.new.path.items
            ≡ self.old.finished + length self.old.path.items) }
        ensures kept { self.new.kept ≡ self.old.kept }
    {
        let Ok(taken) = self.path.take_last_pending(alloc, ended) else {
            return Err(NO_MEMORY);
        };
        if let Some(other) = taken {
            self.current.restore(&other);
            let made = self.come(alloc, flow, Some(other))?;
            return Ok(Some(made));
        }
        let Some(visit) = self.path.pop() else {
            return Ok(None);
        };
        let number = visit.best.max(ended) + 1;
        self.finished += 1;
        self.states.finish(visit.stored, number);
        Ok(Some(Move::Finished(number)))
    }

    /// Calls the listener for a move, and goes back along the path to what is next.
    #[inline(always)]
    fn settle<L: Listener>(
        &mut self,
        alloc: Global,
        flow: &Flow<'_>,
        first: Move,
        listener: &mut L,
    ) -> Result<NextMove, Halt<L::Stop>>
        requires moves { AfterMove flow.now self.old first }
        requires room { self.old.finished + length self.old.path.items ≤ MAX_EXPLORED }
        requires untold { InEach self.old.kept (λ how. IsToTell how flow.now
            (L.follows listener.old how flow.now) self.old.path.items self.old.current first) }
        ensures goes { IfOk result (λ next. IsNext flow.now self.new next) }
        ensures told { InEach self.old.kept (λ how. IfOk result (λ next. FollowsNext how flow.now
            (L.follows listener.new how flow.now) self.new.path.items self.new.current next)) }
        ensures stops { IfErr result (λ h. IfRefused h
            (StopsAt (precision_in self.new.kept) flow.now)) }
        ensures not_long { IfErr result (λ h. IfRefused h (λ e _. e ≢ Refusal.TooLong)) }
        ensures ends { InEach self.old.kept (λ how. IfErr result (λ h. IfRefused h
            (EndsIn flow.now (L.follows listener.new how flow.now)))) }
        ensures explored { OnOk result (self.new.finished + length self.new.path.items
            ≡ self.old.finished + length self.old.path.items) }
        ensures kept { self.new.kept ≡ self.old.kept }
    {
        let mut made = first;
        'moves: loop {
            if let Err(stop) = tell(listener, &self.current, made, self.states.last()) {
                return Err(Halt::Stopped(stop));
            }
            let ended = match made {
                Move::New(stored) => return Ok(NextMove::Explore(stored)),
                Move::Covered(_, number) | Move::Finished(number) => number,
            };
            match self.back(alloc, flow, ended) {
                Ok(Some(next)) => made = next,
                Ok(None) => return Ok(NextMove::Done(ended)),
                Err(refused) => return Err(halt(listener, &self.current, refused)),
            }
        }
    }

    /// Explores the instruction at the current state, and moves to what is next.
    #[inline(always)]
    fn advance<L: Listener>(
        &mut self,
        alloc: Global,
        image: &Image,
        flow: &Flow<'_>,
        stored: Option<usize>,
        parts: &mut Vec<Part>,
        listener: &mut L,
    ) -> Result<NextMove, Halt<L::Stop>>
        requires image { flow.now ≡ image.now }
        requires good { IsFlow flow.now }
        requires at { IsNext flow.now self.old (NextMove.Explore stored) }
        requires room { self.old.finished + length self.old.path.items < MAX_EXPLORED }
        requires told { InEach self.old.kept (λ how. FollowsTo how flow.now
            (L.follows listener.old how flow.now) self.old.path.items self.old.current) }
        ensures goes { IfOk result (λ next. IsNext flow.now self.new next) }
        ensures told { InEach self.old.kept (λ how. IfOk result (λ next. FollowsNext how flow.now
            (L.follows listener.new how flow.now) self.new.path.items self.new.current next)) }
        ensures stops { IfErr result (λ h. IfRefused h
            (StopsAt (precision_in self.new.kept) flow.now)) }
        ensures not_long { IfErr result (λ h. IfRefused h (λ e _. e ≢ Refusal.TooLong)) }
        ensures ends { InEach self.old.kept (λ how. IfErr result (λ h. IfRefused h
            (EndsIn flow.now (L.follows listener.new how flow.now)))) }
        ensures explored { OnOk result (self.new.finished + length self.new.path.items
            ≡ self.old.finished + length self.old.path.items + 1) }
        ensures kept { self.new.kept ≡ self.old.kept }
    {
        let (ways, made) = match self.step(alloc, image, flow, stored, parts) {
            Ok(stepped) => stepped,
            Err(refused) => return Err(halt(listener, &self.current, refused)),
        };
        if let Err(stop) = listener.stepped(ways) {
            return Err(Halt::Stopped(stop));
        }
        self.settle(alloc, flow, made, listener)
    }

    /// Explores all that can be reached from the start.
    fn explore_all<L: Listener>(
        &mut self,
        alloc: Global,
        image: &Image,
        flow: &Flow<'_>,
        is_exact: bool,
        parts: &mut Vec<Part>,
        listener: &mut L,
    ) -> Result<u32, Halt<L::Stop>>
        requires image { flow.now ≡ image.now }
        requires whole { IsImage image.now }
        requires good { IsFlow flow.now }
        requires new { IsNew self.old }
        requires untold { (how : Precision) → (last : TheState)
            × L.follows listener.old how flow.now [] last }
        ensures settles { IfOk result (λ n. IsNext flow.now self.new (NextMove.Done n)) }
        ensures most { IfOk result (λ n. n ≤ MAX_EXPLORED) }
        ensures stops { IfErr result (λ h. IfRefused h
            (StopsAt (precision_in self.new.kept) flow.now)) }
        ensures too_long { IfErr result (λ h. IfRefused h
            (λ e slot. e ≡ Refusal.TooLong → IsTooLong self.new slot)) }
        ensures ends { InEach self.new.kept (λ how. IfErr result (λ h. IfRefused h
            (EndsIn flow.now (L.follows listener.new how flow.now)))) }
        ensures exact { IsTrue is_exact → self.new.kept ≡ None }
    {
        let made = match self.begin(alloc, flow) {
            Ok(made) => made,
            Err(refused) => return Err(halt(listener, &self.current, refused)),
        };
        let mut next_move = self.settle(alloc, flow, made, listener)?;
        for explored in 0..MAX_EXPLORED {
            match next_move {
                NextMove::Done(number) => return Ok(number),
                NextMove::Explore(stored) => {
                    let Ok(()) = lengthen(alloc, flow, explored, is_exact, &mut self.kept) else {
                        return Err(Halt::Refused(Refusal::Memory, 0));
                    };
                    next_move = self.advance(alloc, image, flow, stored, parts, listener)?;
                }
            }
        }
        match next_move {
            NextMove::Done(number) => Ok(number),
            NextMove::Explore(_) => Err(Halt::Refused(Refusal::TooLong, self.current.slot())),
        }
    }

    /// Explores all that can be reached from the start, and returns the number of the start. A
    /// search that is exact keeps all tested numbers, however long it gets.
    pub fn explore<L: Listener>(
        &mut self,
        alloc: Global,
        image: &Image,
        flow: &Flow<'_>,
        is_exact: bool,
        listener: &mut L,
    ) -> Result<u32, Halt<L::Stop>>
        requires image { flow.now ≡ image.now }
        requires whole { IsImage image.now }
        requires good { IsFlow flow.now }
        requires new { IsNew self.old }
        requires untold { (how : Precision) → (last : TheState)
            × L.follows listener.old how flow.now [] last }
        ensures within { IfOk result (λ n. Within flow.now start n) }
        ensures number { IfOk result (λ n. HasNumber flow.now start n) }
        ensures some { IfOk result (λ n. 0 < n) }
        ensures most { IfOk result (λ n. n ≤ MAX_EXPLORED) }
        ensures stops { IfErr result (λ h. IfRefused h
            (StopsAt (precision_in self.new.kept) flow.now)) }
        ensures too_long { IfErr result (λ h. IfRefused h
            (λ e slot. e ≡ Refusal.TooLong → IsTooLong self.new slot)) }

        // A listener has followed the path to the state in which the program is refused.
        ensures ends { InEach self.new.kept (λ how. IfErr result (λ h. IfRefused h
            (EndsIn flow.now (L.follows listener.new how flow.now)))) }
        ensures exact { IsTrue is_exact → self.new.kept ≡ None }
    {
        let mut parts = Vec::new(alloc);
        match self.explore_all(alloc, image, flow, is_exact, &mut parts, listener) {
            Ok(number) => Ok(number),
            Err(Halt::Refused(refusal, slot)) => {
                listener.refused(refusal, slot);
                Err(Halt::Refused(refusal, slot))
            }
            Err(stopped) => Err(stopped),
        }
    }
}
