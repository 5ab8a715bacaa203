//! What is known where a program is refused.

use arrayvec::ArrayVec;
use stack_state::State;

/// Says how many jumps of a path are kept at most: the last ones.
pub const MOST_JUMPS: usize = 8;

/// A step that does not go to the next instruction: its slot and its target.
#[derive(Clone, Copy, Default, Drop)]
pub struct Jump {
    pub from: usize,
    pub to: usize,
}

/// Says which limit of a search was reached.
#[derive(Clone, Copy)]
pub enum SearchLimit {
    /// That of comparisons: from then on states were neither looked up nor stored, and each was
    /// explored as a new one.
    Comparisons,
    /// That of words that stored states take: from then on no state was stored.
    StoredWords,
}

/// Says what is known where a program is refused.
#[derive(Drop)]
pub struct Explanation {
    /// The abstract state in which it is.
    pub state: State,
    /// The state of the previous turn of the loop: the last one on the path there that came to the
    /// same slot.
    pub earlier: Option<State>,
    /// The last jumps on the path there.
    pub way: ArrayVec<Jump, 8>,
    /// The slots of all states on the path there, the first one first.
    pub slots: Vec<usize>,
    /// The limit that the search had reached, if it had reached one.
    pub limit: Option<SearchLimit>,
}
