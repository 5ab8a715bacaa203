//! Maps whose values have serials: a value is live from the update that adds its key to the delete
//! that removes it, and its serial is not given again in a run.
#![tactic(auto)]

mod asked;
mod chunks;
mod hints;
pub mod live;
mod numbering;
mod place_serials;
mod ranks;
mod reordering;
mod serials;

pub use live::LiveMaps;
