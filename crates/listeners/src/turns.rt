//! The last two states of a path at one slot.

ghost use Rattle.std.specs.Prelude.{◌≡◌, ◌≢◌, ◌∷◌, [], length, ℕ, List, Some, IfSome};
ghost use Rattle.stack_state.specs.declared.states.State.{State as TheState};
ghost use Rattle.listeners.specs.Turns.{AreOn, IsAtIndex, IsFurtherBack};

use stack_state::State;

/// The last two states of a path that came to one slot. Each has its index on the path, while it is
/// there.
#[derive(Drop)]
pub struct Turns {
    /// The state that came last, also where the path has left it.
    pub last: State,
    pub index: Option<usize>,
    /// The one before it.
    pub earlier: State,
    pub earlier_index: Option<usize>,
}

impl Turns {
    /// No state came yet.
    pub fn new() -> Self
        ensures { AreOn [] result }
    {
        Turns {
            last: State::start(),
            index: None,
            earlier: State::start(),
            earlier_index: None,
        }
    }

    /// The state that came last is the earlier one now, if it is on the path.
    #[tactic(auto, using(crate::proofs::Turning::earlier_last, crate::proofs::Turning::earlier_kept))]
    fn set_aside(&mut self)
        ensures earlier { (path : List TheState) → AreOn path self.old
            → IfSome self.new.earlier_index (IsAtIndex path self.new.earlier) }
    {
        if self.index.is_some() {
            self.earlier.copy_from(&self.last);
            self.earlier_index = self.index;
        }
    }

    /// A path of this many states comes to one more, at the slot.
    fn come(&mut self, count: usize, state: &State)
        ensures last { self.new.last ≡ state.now }
        ensures on { (path : List TheState) → length path ≡ count → AreOn path self.old
            → AreOn (state.now ∷ path) self.new }
    {
        self.set_aside();
        self.last.copy_from(state);
        self.index = Some(count);
    }

    /// A path of this many states comes to one more, which may be at the slot.
    pub fn arrive(&mut self, slot: usize, count: usize, state: &State)
        ensures last { state.now.slot ≡ slot → self.new.last ≡ state.now }
        ensures on { (path : List TheState) → length path ≡ count → AreOn path self.old
            → AreOn (state.now ∷ path) self.new }
    {
        if state.slot == slot {
            self.come(count, state);
        }
    }

    /// A path leaves its last state, and has this many left.
    pub fn leave(&mut self, count: usize)
        ensures last { self.new.last ≡ self.old.last }
        ensures on { (s : TheState) (path : List TheState) → length path ≡ count
            → AreOn (s ∷ path) self.old → AreOn path self.new }
    {
        self.index = without(self.index, count);
        self.earlier_index = without(self.earlier_index, count);
    }

    /// A copy of the earlier one, if it is at the slot, and on a path of this many states before
    /// the last.
    #[tactic(auto, using(crate::proofs::Turning::further_back))]
    pub fn earlier_before(&self, count: usize, slot: usize) -> Option<State>
        ensures { IfSome result (λ e. (e.slot ≡ slot) × ((path : List TheState)
            → length path ≡ count → AreOn path self.now → IsFurtherBack path e)) }
    {
        let next = self.earlier_index?.checked_add(1)?;
        if next < count && self.earlier.slot == slot {
            Some(self.earlier.copy())
        } else {
            None
        }
    }
}

/// The index, unless it is this one.
fn without(index: Option<usize>, other: usize) -> Option<usize>
    ensures kept { (n : ℕ) → result ≡ Some n → (index ≡ Some n) × (n ≢ other) }
{
    match index {
        Some(found) if found != other => Some(found),
        _ => None,
    }
}
