//! Indexes: which place each key of a map has.
//!
//! A key has a place, which it keeps until it is removed. There are three indexes: one for arrays,
//! and two for hash maps, by chains and by a scan of all places. An index takes all its memory when
//! it is made.
#![tactic(auto)]

pub mod arrays;
pub mod chained;
mod chains;
mod hashing;
pub mod index;
pub mod keys;
mod numbers;
mod overflow;
pub mod rooms;
pub mod scan;

pub use arrays::ArrayIndex;
pub use chained::ChainIndex;
pub use index::Index;
pub use keys::put_bytes;
pub use scan::ScanIndex;
