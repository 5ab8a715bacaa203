//! Proof tables as bytes, read entry by entry; and why a table was not written.
//!
//! A table says of each abstract state that the verifier reached how many more steps a run makes
//! from it at most, and which entries cover its successors. Whether that is true is not judged
//! here, only whether the bytes have the format and the fields are allowed.
#![tactic(auto)]

pub mod blanks;
pub mod entries;
pub mod errors;
pub mod forgetting;
pub mod frames;
pub mod growing;
pub mod kinds;
pub mod known_bytes;
pub mod loops;
pub mod passing;
pub mod refusals;
pub mod settling;
pub mod slices;
pub mod spelled_entries;
pub mod spelling;
pub mod stops;
pub mod tables;

pub use entries::{EntryHead, NamedEntries};
pub use errors::WriteTableError;
pub use growing::Growing;
pub use known_bytes::KnownBytes;
pub use refusals::TableRefusal;
pub use settling::is_settled;
pub use tables::Table;
