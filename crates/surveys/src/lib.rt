//! Judges images, with counts and times, and shows one: its listing, its graph, and a log of the
//! search.
#![tactic(auto)]

mod errors;
mod graphs;
mod joins;
mod judging;
mod listings;
mod logs;
mod overviews;
mod pages;
mod states;
mod tallies;
mod targets;
mod texts;

pub use errors::LookError;
pub use graphs::write_graph;
pub use joins::CommonKind;
pub use judging::{Judged, judge, microseconds_since};
pub use listings::write_listing;
pub use logs::write_log;
pub use overviews::{KnownSlot, Overview, Seen, Together, overview_of};
pub use pages::write_page;
pub use tallies::SearchTally;
