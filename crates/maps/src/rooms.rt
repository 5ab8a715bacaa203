//! Room for the longest key and for the longest value, as lengths of arrays.

use isa_model::{MAX_KEY_SIZE, MAX_VALUE_SIZE};

/// Bytes of room for any key.
pub const KEY_ROOM: usize = MAX_KEY_SIZE as usize;

/// Bytes of room for any value.
pub const VALUE_ROOM: usize = MAX_VALUE_SIZE as usize;
