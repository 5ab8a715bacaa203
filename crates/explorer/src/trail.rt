//! The path from the start to the current state.

ghost use Rattle.std.specs.Prelude.{◌≡◌, ◌≤◌, ◌+◌, ◌++◌, ◌∷◌, [], length, List, None, MatchOption, OnOk, OnErr, IfOk, option_to_list};
ghost use Rattle.explorer.specs.declared.trail.Visit.{Visit as TheVisit};
ghost use Rattle.explorer.specs.Trail.{TakesLastPending};

use kept_states::{Kept, Others, PendingStates};
use std::alloc::{AllocError, Global};
use std::marker::Model;

/// An instruction on the path, and what is still to be explored after it.
#[derive(Drop)]
pub struct Visit {
    /// The state after the taken jump, until it is explored.
    pub pending: Option<Kept>,
    /// The greatest number so far of the states after it, 0 if there is none yet.
    pub best: u32,
    /// The index of its own state among the stored ones, if it is stored.
    pub stored: Option<usize>,
}

/// Says how a path went on from a visit, for whoever follows it again. It is advice.
#[derive(Clone, Copy, Drop)]
pub struct Course {
    /// The jump was taken, after what comes if it is not.
    pub is_aside: bool,
    /// Only certain numbers were kept of the state that came next.
    pub is_coarse: bool,
    /// All numbers of it were forgotten.
    pub is_plain: bool,
}

/// A visit without its pending state.
#[derive(Clone, Copy, Drop)]
struct KeptVisit {
    best: u32,
    stored: Option<u32>,
    /// Says whether there is a pending state.
    waits: bool,
    course: Course,
}

impl Course {
    /// The way to the state after the taken jump.
    #[inline(always)]
    fn aside(self) -> Self {
        Course {
            is_aside: true,
            is_coarse: self.is_coarse,
            is_plain: false,
        }
    }
}

/// How a path went on from each of its visits.
#[derive(Drop)]
pub struct Courses {
    visits: Vec<KeptVisit>,
}

impl Courses {
    /// Of no visits.
    pub fn none(alloc: Global) -> Self {
        Courses {
            visits: Vec::new(alloc),
        }
    }

    /// How many visits there are.
    pub fn len(&self) -> usize {
        self.visits.len()
    }

    /// How the path went on from a visit.
    pub fn at(&self, index: usize) -> Option<Course> {
        match self.visits.get(index) {
            Some(visit) => Some(visit.course),
            None => None,
        }
    }
}

/// The visits of a path, the first instruction's first. Most visits of a long path have nothing
/// pending, so pending states are in a list of their own.
///
/// Contracts see the visits.
#[derive(Drop)]
pub struct Trail {
    visits: Vec<KeptVisit>,
    pending: PendingStates,
}

impl Model for Trail {
    ghost use Rattle.std.specs.Prelude.{◌≡◌, length};
    ghost use Rattle.explorer.specs.Trail.{Visits, visits_of, waiting_count};

    ghost Value = { Visits };

    ghost view = { λ trail. record { items = visits_of trail.visits.items trail.pending.items } };

    ghost invariant = { λ trail. waiting_count trail.visits.items ≡ length trail.pending.items };
}

/// The index of a stored state in 4 bytes, if it fits.
#[inline(always)]
fn as_u32(stored: Option<usize>) -> Result<Option<u32>, AllocError>
    ensures { IfOk result (λ index. index ≡ stored) }
{
    let Some(index) = stored else {
        return Ok(None);
    };
    match u32::try_from(index) {
        Ok(index) => Ok(Some(index)),
        Err(_) => Err(AllocError),
    }
}

#[inline(always)]
fn as_usize(stored: Option<u32>) -> Option<usize>
    ensures { result ≡ stored }
{
    match stored {
        Some(index) => Some(index as usize),
        None => None,
    }
}

#[inline(always)]
fn put_pending(
    pending: &mut PendingStates,
    alloc: Global,
    state: Option<Kept>,
) -> Result<(), AllocError>
    ensures items { OnOk result (pending.new.items ≡ pending.old.items ++ option_to_list state) }
    ensures err { OnErr result (length pending.new.items ≡ length pending.old.items) }
{
    match state {
        Some(state) => pending.push(alloc, state),
        None => Ok(()),
    }
}

impl Trail {
    /// A path of no instructions.
    #[tactic(auto, unfolding(crate::specs::Trail::visits_of))]
    pub fn new(alloc: Global) -> Self
        ensures { result.items ≡ [] }
    {
        Trail {
            visits: Vec::new(alloc),
            pending: PendingStates::new(alloc),
        }
    }

    /// How the path goes on from its visits. Nothing is pending any more.
    pub fn into_courses(self) -> Courses {
        Courses {
            visits: self.visits,
        }
    }

    /// The state that became pending last, and still is.
    #[inline(always)]
    pub fn last_pending(&self) -> Option<&Kept> {
        self.pending.last()
    }

    /// Returns the states with which a state that becomes pending at the slot may share, a stored
    /// one among them.
    #[inline(always)]
    pub fn others_at<'a>(&'a self, slot: usize, stored: Option<&'a Kept>) -> Others<'a> {
        self.pending.others_at(slot, stored)
    }

    /// Puts a visit after the others, from which the path goes on so.
    #[inline(always)]
    pub fn push(&mut self, alloc: Global, visit: Visit, course: Course) -> Result<(), AllocError>
        ensures items { OnOk result (self.new.items ≡ self.old.items ++ visit ∷ []) }
        ensures len { OnOk result (length self.new.items ≡ length self.old.items + 1) }
    {
        let Visit {
            pending,
            best,
            stored,
        } = visit;
        let stored = as_u32(stored)?;
        let waits = pending.is_some();
        let kept = KeptVisit {
            best,
            stored,
            waits,
            course,
        };
        self.visits.push(kept)?;
        let Ok(()) = put_pending(&mut self.pending, alloc, pending) else {
            let _visit = self.visits.pop();
            return Err(AllocError);
        };
        Ok(())
    }

    /// Takes what is pending at the last visit, if anything is. The visit stays: a state after it
    /// has this number.
    #[inline(always)]
    pub fn take_last_pending(
        &mut self,
        alloc: Global,
        number: u32,
    ) -> Result<Option<Kept>, AllocError>
        ensures { IfOk result (λ o. TakesLastPending number self.old.items o self.new.items) }
    {
        let Some(last) = self.visits.len().checked_sub(1) else {
            return Ok(None);
        };
        let kept = self.visits[last];
        if !kept.waits {
            return Ok(None);
        }
        self.visits[last] = KeptVisit {
            best: kept.best.max(number),
            stored: kept.stored,
            waits: false,
            course: kept.course.aside(),
        };
        let Ok(state) = self.pending.pop(alloc) else {
            return Err(AllocError);
        };
        Ok(state)
    }

    /// Takes the last visit.
    #[inline(always)]
    pub fn pop(&mut self) -> Option<Visit>
        requires { (path : List TheVisit) (visit : TheVisit)
            → self.old.items ≡ path ++ visit ∷ [] → visit.pending ≡ None }
        ensures items { self.old.items ≡ self.new.items ++ option_to_list result }
        ensures cases { MatchOption result
            (length self.old.items ≡ 0 × length self.new.items ≡ 0)
            (λ _. length self.new.items + 1 ≡ length self.old.items) }
    {
        let Some(kept) = self.visits.pop() else {
            return None;
        };
        Some(Visit {
            pending: None,
            best: kept.best,
            stored: as_usize(kept.stored),
        })
    }
}
