//! The path of a search, followed once more.

ghost use Rattle.std.specs.Prelude.{◌≡◌, ◌∷◌, [], List, IfSome, IsTrue, OnOk};
ghost use Rattle.stack_state.specs.declared.states.State.{State as TheState};
ghost use Rattle.stack_state.specs.Starts.{start};
ghost use Rattle.image.specs.Images.{IsImage};
ghost use Rattle.transfer.specs.Beside.{beside};
ghost use Rattle.walks.specs.Walks.{StepsTo};
ghost use Rattle.walks.specs.Forgetting.{Coarse, Forgets};
ghost use Rattle.explorer.specs.Listening.{HasRetraced};

use crate::listening::Listener;
use crate::long_searches::forget_by;
use crate::trail::{Course, Courses};
use control_flow::{Flow, KeptNumbers};
use image::Image;
use stack_state::State;
use std::alloc::Global;
use transfer::{Ways, step_beside};
use walks::{forget, forget_all, may_forget_all};

/// The state at the end of a path, and scratch space for one.
#[derive(Drop)]
struct Walker {
    state: State,
    scratch: State,
}

/// Forgets what a search forgot of a state, but for numbers that it may have forgotten besides.
fn forget_once(
    flow: &Flow<'_>,
    kept: &Option<KeptNumbers>,
    is_coarse: bool,
    has_called: bool,
    state: &mut State,
)
    ensures { Forgets Coarse flow.now state.old state.new }
{
    if is_coarse {
        forget_by(flow, kept, has_called, state);
    } else {
        forget(flow, has_called, state);
    }
}

/// Forgets what a search forgot of a state. False: it did not forget that.
fn forget_again(
    flow: &Flow<'_>,
    kept: &Option<KeptNumbers>,
    course: Course,
    has_called: bool,
    state: &mut State,
) -> bool
    ensures { IsTrue result → Forgets Coarse flow.now state.old state.new }
{
    forget_once(flow, kept, course.is_coarse, has_called, state);
    if !course.is_plain {
        return true;
    }
    if !may_forget_all(flow, state) {
        return false;
    }
    forget_all(flow, state);
    true
}

/// Becomes the other successor of a branch, which may have the callers of the state.
fn go_aside(shares: bool, state: &mut State, other: &State)
    ensures { state.new ≡ beside shares state.old other.now }
{
    if !shares {
        state.copy_from(other);
        return;
    }
    state.slot = other.slot;
    state.innermost.copy_from(&other.innermost);
}

impl Walker {
    /// A walker at the start. It is large, so it is on the heap, and it is made out of line.
    #[inline(never)]
    fn new(alloc: Global) -> Option<Box<Self>>
        ensures { IfSome result (λ walker. walker.value.state ≡ start) }
    {
        let walker = Walker {
            state: State::start(),
            scratch: State::start(),
        };
        match Box::new(alloc, walker) {
            Ok(walker) => Some(walker),
            Err(_) => None,
        }
    }

    /// Takes the step that a path took. False: it took another one.
    fn go_on(
        &mut self,
        image: &Image,
        flow: &Flow<'_>,
        kept: &Option<KeptNumbers>,
        course: Course,
    ) -> bool
        requires { flow.now ≡ image.now }
        ensures { IsTrue result → StepsTo Coarse image.now self.old.state self.new.state }
    {
        if image.at(self.state.slot).is_none() {
            return false;
        }
        let caller_count = self.state.callers.len();
        let Ok((ways, shares)) = step_beside(image, &mut self.state, &mut self.scratch) else {
            return false;
        };
        let has_called = self.state.callers.len() > caller_count;
        match ways {
            Ways::None => false,
            Ways::One => forget_again(flow, kept, course, has_called, &mut self.state),
            Ways::Two => {
                if !course.is_aside {
                    return forget_again(flow, kept, course, has_called, &mut self.state);
                }
                go_aside(shares, &mut self.state, &self.scratch);
                forget_again(flow, kept, course, has_called, &mut self.state)
            }
        }
    }
}

/// Follows the path of a search that ended, and calls a listener for each arrival, as the search
/// did. Returns the slot at which the path ends. None: memory ran out, the listener stopped, or
/// this is the path of another search.
pub fn retrace<L: Listener>(
    alloc: Global,
    image: &Image,
    courses: &Courses,
    listener: &mut L,
) -> Option<usize>
    requires untold { (last : TheState) × L.follows listener.old Coarse image.now [] last }
    ensures { IfSome result (λ slot.
        HasRetraced (L.follows listener.new Coarse image.now) slot) }
{
    let Ok(flow) = Flow::of(alloc, image) else {
        return None;
    };
    let kept = match flow.kept_numbers(alloc) {
        Ok(kept) => Some(kept),
        Err(_) => return None,
    };
    let mut walker = Walker::new(alloc)?;
    let walker = &mut *walker;
    forget(&flow, false, &mut walker.state);
    let Ok(()) = listener.arrives(&walker.state) else {
        return None;
    };
    for index in 0..courses.len() {
        let course = courses.at(index)?;
        if !walker.go_on(image, &flow, &kept, course) {
            return None;
        }
        let Ok(()) = listener.arrives(&walker.state) else {
            return None;
        };
    }
    Some(walker.state.slot)
}
