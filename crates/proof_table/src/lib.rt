//! All instructions that a search explores of a program, and the proof table that is written of
//! them. `recheck`, which tests tables, is passed on from `rechecking`.
//!
//! A table says of each abstract state that the verifier reached how many more steps a run makes
//! from it at most, and which entries cover its successors. `recheck` tests a table, with no trust
//! in who made it. `write_table` makes one, which is read as the entries that it spells; that
//! `recheck` accepts it is only tested. `table_size` says how large it will be.
#![tactic(auto)]

pub mod entries;
pub mod fitting;
pub mod frames;
pub mod kinds;
pub mod listing;
pub mod tables;

pub use listing::Explored;
pub use rechecking::{TableError, recheck};
pub use table_entries::WriteTableError;
pub use tables::{explore_again, most_bytes, table_size, write_explored, write_table};
