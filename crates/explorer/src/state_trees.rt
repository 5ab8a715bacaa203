//! Trees of stored states, by the limits of what is known in them. No contract rests on them.

use crate::stored_states::StoredState;
use state_index::{PartLimits, Rows, Spread, Tree};
use std::alloc::{AllocError, Global};

/// Returns how far the limits of these states lie apart.
fn spread_of(
    alloc: Global,
    states: &[StoredState],
    indexes: &[u32],
    limits: &mut Vec<PartLimits>,
) -> Result<Spread, AllocError> {
    let mut spread = Spread::new(alloc);
    for index in indexes {
        if let Some(stored) = states.get(*index as usize) {
            stored.state.take_limits(limits)?;
            spread.add(limits.as_slice())?;
        }
    }
    Ok(spread)
}

/// Adds the rows of these states.
fn add_rows(
    states: &[StoredState],
    indexes: &[u32],
    limits: &mut Vec<PartLimits>,
    rows: &mut Rows,
) -> Result<(), AllocError> {
    for index in indexes {
        if let Some(stored) = states.get(*index as usize) {
            stored.state.take_limits(limits)?;
            rows.add(*index, limits.as_slice())?;
        }
    }
    Ok(())
}

/// A tree of the stored states with these indexes.
pub fn tree_of(alloc: Global, states: &[StoredState], indexes: &[u32]) -> Result<Tree, AllocError> {
    let mut limits = Vec::new(alloc);
    let spread = spread_of(alloc, states, indexes, &mut limits)?;
    let mut rows = Rows::of(alloc, &spread)?;
    add_rows(states, indexes, &mut limits, &mut rows)?;
    Tree::of(alloc, rows)
}
