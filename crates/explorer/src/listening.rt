//! Listeners, which a search calls for each move.

ghost use Rattle.std.specs.Prelude.{◌≡◌, [], ◌∷◌, List, OnOk};
ghost use Rattle.isa_model.specs.Code.Instructions.{Program};
ghost use Rattle.stack_state.specs.declared.states.State.{State as TheState};
ghost use Rattle.explorer.specs.declared.trail.Visit.{Visit as TheVisit};
ghost use Rattle.walks.specs.Forgetting.{Precision};
ghost use Rattle.explorer.specs.Listening.{ComesTo, IfRefused, IsToTell, HearsMove, IsToRefuse, EndsIn};

use crate::current::Current;
use crate::moves::{Halt, Move, Refused};
use kept_states::Kept;
use stack_state::State;
use std::convert::Infallible;
use transfer::Ways;
use walks::Refusal;

/// A listener. A search calls it for all that it does, in order.
///
/// The states of the path are those that arrived, but for those that are covered or have a number.
pub trait Listener {
    /// Says why it stopped a search.
    type Stop: Drop;

    // The calls so far describe a path of a walk of this precision with these states, the last one
    // first, and this state arrived last.
    ghost follows: { Self → Precision → Program → List TheState → TheState → Type 0 };

    /// The path arrives at a state.
    fn arrives(&mut self, state: &State) -> Result<(), Self::Stop>
        ensures { (how : Precision) (p : Program) (path : List TheState) (last : TheState)
            → ComesTo how p path state.now
            → follows self.old how p path last
            → OnOk result (follows self.new how p (state.now ∷ path) state.now) };

    /// The last state of the path is covered by the stored state with this index, and so has its
    /// number.
    fn covered(&mut self, index: usize, number: u32) -> Result<(), Self::Stop>
        ensures { (how : Precision) (p : Program) (s : TheState) (path : List TheState)
            (last : TheState) → follows self.old how p (s ∷ path) last
            → OnOk result (follows self.new how p path last) };

    /// The last state of the path, which is this one, is to be explored. At a join it was stored
    /// as the last of the stored states: its index and that stored state come with it.
    #[inline(always)]
    fn explores(
        &mut self,
        _state: &State,
        _stored: Option<usize>,
        _kept: Option<&Kept>,
    ) -> Result<(), Self::Stop>
        ensures { (how : Precision) (p : Program) (path : List TheState) (last : TheState)
            → follows self.old how p path last → OnOk result (follows self.new how p path last) }
    {
        Ok(())
    }

    /// The step of the path's last state has this many successors.
    #[inline(always)]
    fn stepped(&mut self, _ways: Ways) -> Result<(), Self::Stop>
        ensures { (how : Precision) (p : Program) (path : List TheState) (last : TheState)
            → follows self.old how p path last → OnOk result (follows self.new how p path last) }
    {
        Ok(())
    }

    /// The last state of the path is explored, and this is its number.
    fn finished(&mut self, number: u32) -> Result<(), Self::Stop>
        ensures { (how : Precision) (p : Program) (s : TheState) (path : List TheState)
            (last : TheState) → follows self.old how p (s ∷ path) last
            → OnOk result (follows self.new how p path last) };

    /// The search ended with a refusal after it had begun to forget more numbers, and the program
    /// is searched again, exactly: a new path begins, and stored states get new indexes.
    fn begins_anew(&mut self) -> Result<(), Self::Stop>
        ensures { (how next : Precision) (p : Program) (path : List TheState) (last : TheState)
            → follows self.old how p path last
            → OnOk result ((first : TheState) × follows self.new next p [] first) };

    /// The program gets this refusal, in the last state of the path; or memory ran out.
    #[inline(always)]
    fn refused(&mut self, _refusal: Refusal, _slot: usize)
        ensures { (how : Precision) (p : Program) (path : List TheState) (last : TheState)
            → follows self.old how p path last → follows self.new how p path last }
    {}
}

/// Calls the listener for a move to this state, with the state that was stored last.
#[inline(always)]
pub fn tell<L: Listener>(
    listener: &mut L,
    current: &Current,
    made: Move,
    kept: Option<&Kept>,
) -> Result<(), L::Stop>
    ensures { (how : Precision) (p : Program) (path : List TheVisit)
        → IsToTell how p (L.follows listener.old how p) path current.now made
        → OnOk result (HearsMove how p (L.follows listener.new how p) path current.now made) }
{
    match made {
        Move::New(stored) => {
            listener.arrives(current.state())?;
            listener.explores(current.state(), stored, kept)
        }
        Move::Covered(index, number) => {
            listener.arrives(current.state())?;
            listener.covered(index, number)
        }
        Move::Finished(number) => listener.finished(number),
    }
}

/// Returns why a search stops with a refusal at this state; the listener is called first for a
/// state to which the path comes back.
#[inline(always)]
pub fn halt<L: Listener>(listener: &mut L, current: &Current, refused: Refused) -> Halt<L::Stop>
    ensures same { IfRefused result (λ e slot. (e ≡ refused.0) × (slot ≡ refused.1)) }
    ensures ends { (how : Precision) (p : Program)
        → IsToRefuse how p (L.follows listener.old how p) current.now refused.0 refused.1
        → IfRefused result (EndsIn p (L.follows listener.new how p)) }
{
    let (refusal, slot) = refused;
    if let Refusal::Repeats = refusal {
        if let Err(stop) = listener.arrives(current.state()) {
            return Halt::Stopped(stop);
        }
    }
    Halt::Refused(refusal, slot)
}

/// Nobody listens.
#[derive(Clone, Copy, Drop)]
pub struct Nobody;

impl Listener for Nobody {
    type Stop = Infallible;

    ghost follows = { λ _ _ _ _ _. Unit {0} };

    #[inline(always)]
    fn arrives(&mut self, _state: &State) -> Result<(), Infallible> {
        Ok(())
    }

    #[inline(always)]
    fn covered(&mut self, _index: usize, _number: u32) -> Result<(), Infallible> {
        Ok(())
    }

    #[inline(always)]
    fn finished(&mut self, _number: u32) -> Result<(), Infallible> {
        Ok(())
    }

    #[inline(always)]
    fn begins_anew(&mut self) -> Result<(), Infallible> {
        Ok(())
    }
}
