//! What looking for a stored state that covers another one finds.

use state_index::OwnShape;

/// Says how many finished states in which this is known were scanned.
#[derive(Clone, Copy, Drop)]
pub struct Scan {
    pub known: u64,
    pub count: usize,
}

/// Says what a look-up found.
#[derive(Clone, Copy, Drop)]
pub struct Found {
    /// The first finished state that covers the one that is looked up: its index and its number.
    pub first: Option<(usize, u32)>,
    /// The longest scan before it was found.
    pub longest: Scan,
    /// The shape of the state that is looked up, if another one of its slot has it.
    pub own: Option<OwnShape>,
}
