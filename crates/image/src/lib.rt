//! Images: the bytes that programs are stored in.
//!
//! An image is the magic `XBP1` or `XBP2`, a u16 map count, a u16 slot count, a row of 12 bytes for
//! each map and 8 bytes for each slot, the lowest byte of a number first. `specs/Images.antt`
//! defines it.
#![tactic(auto)]

mod code;
pub mod errors;
mod head;
pub mod images;
pub mod named;
pub mod rows;

pub use errors::ImageError;
pub use images::Image;
pub use named::map_refusal;
pub use rows::{room_of, row_fits};
