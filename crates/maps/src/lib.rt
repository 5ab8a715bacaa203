//! Maps: finite maps from keys of one size to values of one size.
//!
//! A key has a place, which it keeps until it is removed, and the value is the row of a block at
//! that place. All room is reserved when a map is made; no later call takes memory.
#![tactic(auto)]

pub mod all;
pub mod calls;
pub mod commands;
pub mod either;
pub mod errors;
mod helpers;
mod inserting;
pub mod ordered;
pub mod rooms;
pub mod store;
mod stores;

pub use all::Maps;
pub use calls::{Answer, Request, call};
pub use commands::{MapCommand, Reply, replies};
pub use either::EitherIndex;
pub use errors::MapError;
pub use helpers::{delete, lookup, update};
pub use map_indexes::{ArrayIndex, ChainIndex, Index, ScanIndex, arrays, chained, index, scan};
pub use ordered::Ordered;
pub use rooms::{KEY_ROOM, VALUE_ROOM};
pub use store::{ArrayMap, HashMapChain, HashMapScan, MapStore, Store};
