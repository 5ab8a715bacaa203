//! Texts of what maps hold: a line `map <index> <key> <value>` for each key, as in a report.
//!
//! `specs/Lines.antt` defines what a line says, and `specs/Fillings.antt` what the maps hold after
//! the lines of a text. Reading one takes no memory: a line is read into a buffer of fixed size.
#![tactic(auto)]

mod errors;
mod fields;
mod filling;
mod key_values;
mod lines;
mod listings;
mod longest;

pub use errors::{MapTextError, MapTextErrorKind};
pub use filling::{fill_maps, fill_maps_by};
pub use listings::write_maps;
