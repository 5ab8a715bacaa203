//! An index of abstract states: which stored ones to look at on arrival at a state.
//!
//! It is advice: its contracts say nothing of what it proposes, and the search tests each state
//! that it proposes. A state is looked up by its `Key`: by the bits of its numbers that are known,
//! by a fingerprint of all that is known, and by the limits of what is known.
#![tactic(auto)]

mod buckets;
mod candidates;
mod efforts;
mod equality;
mod fingerprints;
mod index;
mod keys;
mod limits;
mod orders;
mod parts;
mod rows;
mod shapes;
mod tree_sets;
mod trees;

pub use candidates::{FinishedCandidates, ShapesAt, UnfinishedCandidates};
pub use efforts::Effort;
pub use equality::{are_same, is_register_part, is_slot_part};
pub use fingerprints::Fingerprints;
pub use index::StateIndex;
pub use keys::Key;
pub use limits::{PartLimits, add_limits};
pub use parts::{Part, may_cover_part, take_parts, take_parts_in, write};
pub use rows::{Rows, Spread};
pub use shapes::{KnownIn, OwnShape};
pub use tree_sets::LONG_SCAN;
pub use trees::Tree;
