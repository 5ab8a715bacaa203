//! What is counted in a search.

ghost use Rattle.std.specs.Prelude.{◌≡◌, ◌+◌, ◌-◌, ◌&&◌, max, is_some, if◌then◌else◌};
ghost use Rattle.surveys.specs.Tallies.{AreWords, CountsBytes, saturated};

use explorer::{Kept, Listener, Refusal, own_words};
use stack_state::State;
use std::convert::Infallible;
use transfer::Ways;

/// Says how many bytes a word of a stored state takes.
const WORD: u64 = 8;

/// Says what is counted in a search; in the last one, where a program is searched twice. A count
/// that would overflow stays at the greatest number.
#[derive(Clone, Copy, Default, Drop)]
pub struct SearchTally {
    /// Says how many instructions were explored.
    pub explored: u64,
    /// Says how many of their states were stored, at joins.
    pub stored: u64,
    /// Says how many bytes the stored states take, without those that they share. No stored state
    /// is dropped, so this is their peak, too.
    pub stored_bytes: u64,
    /// Says how many instructions the path has.
    pub depth: u64,
    /// Says how many it had at most.
    pub deepest: u64,
}

/// Returns how many bytes a stored state takes, without those that it shares.
fn own_bytes(kept: &Kept) -> u64
    ensures { AreWords result }
{
    u64::from(own_words(kept)).saturating_mul(WORD)
}

impl SearchTally {
    /// An instruction is explored. If its state is stored, this is its index, and it was kept last.
    pub fn explore(&mut self, index: Option<usize>, kept: Option<&Kept>)
        ensures explored { self.new.explored ≡ saturated (self.old.explored + 1) }
        ensures depth { self.new.depth ≡ saturated (self.old.depth + 1) }
        ensures deepest { self.new.deepest ≡ max self.old.deepest self.new.depth }
        ensures stored { self.new.stored
            ≡ if is_some index then saturated (self.old.stored + 1) else self.old.stored }
        ensures stored_bytes { CountsBytes self.old.stored_bytes
            (is_some index && is_some kept.entry) self.new.stored_bytes }
    {
        self.explored = self.explored.saturating_add(1);
        self.depth = self.depth.saturating_add(1);
        self.deepest = self.deepest.max(self.depth);
        if index.is_none() {
            return;
        }
        self.stored = self.stored.saturating_add(1);
        if let Some(kept) = kept {
            self.stored_bytes = self.stored_bytes.saturating_add(own_bytes(kept));
        }
    }

    /// The last state of the path has got its number, and its instruction leaves the path.
    pub fn finish(&mut self)
        ensures { self.new ≡ record self.old { depth = self.old.depth - 1 } }
    {
        self.depth = self.depth.saturating_sub(1);
    }
}

impl Listener for SearchTally {
    type Stop = Infallible;

    ghost follows = { λ _ _ _ _ _. Unit {0} };

    fn arrives(&mut self, _state: &State) -> Result<(), Infallible> {
        Ok(())
    }

    fn covered(&mut self, _index: usize, _number: u32) -> Result<(), Infallible> {
        Ok(())
    }

    fn explores(
        &mut self,
        _state: &State,
        stored: Option<usize>,
        kept: Option<&Kept>,
    ) -> Result<(), Infallible> {
        self.explore(stored, kept);
        Ok(())
    }

    fn stepped(&mut self, _ways: Ways) -> Result<(), Infallible> {
        Ok(())
    }

    fn finished(&mut self, _number: u32) -> Result<(), Infallible> {
        self.finish();
        Ok(())
    }

    fn begins_anew(&mut self) -> Result<(), Infallible> {
        *self = SearchTally::default();
        Ok(())
    }

    fn refused(&mut self, _refusal: Refusal, _slot: usize) {}
}
