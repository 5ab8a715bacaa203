//! The moves of a search, and why it stops.

use walks::Refusal;

/// A refusal and its slot.
pub type Refused = (Refusal, usize);

/// The refusal where memory runs out.
pub const NO_MEMORY: Refused = (Refusal::Memory, 0);

/// A move of a search.
#[derive(Clone, Copy, Drop)]
pub enum Move {
    /// The path arrives at the current state, which is to be explored. At a join it is stored, with
    /// this index.
    New(Option<usize>),
    /// The path arrives at the current state, which the stored state with this index covers: it has
    /// the same number.
    Covered(usize, u32),
    /// The last state of the path is explored, and this is its number.
    Finished(u32),
}

/// Says what comes next: the current state is to be explored, or the start has its number.
#[derive(Clone, Copy, Drop)]
pub enum NextMove {
    Explore(Option<usize>),
    Done(u32),
}

/// Says why a search finds no number.
#[derive(Drop)]
pub enum Halt<S> {
    /// The program gets this refusal, at this slot.
    Refused(Refusal, usize),
    /// The listener stopped it.
    Stopped(S),
}
