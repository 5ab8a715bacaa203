//! The statuses that calls return.

/// Done.
pub const OK: u32 = 0;

/// Nothing was done: an argument is outside its limits, or the session is closed (for an opening:
/// is open), or it has no such map.
pub const WRONG: u32 = 1;

/// The text, the image, the program or the table is refused.
pub const REFUSED: u32 = 2;

/// Out of memory.
pub const MEMORY: u32 = 5;

/// Neither accepted nor refused: the caller's limit on explored instructions came first.
pub const UNDECIDED: u32 = 6;

/// The map has no such key.
pub const ABSENT: u32 = 7;

/// Says why there is no accepted program.
#[derive(Clone, Copy)]
pub enum NotAccepted {
    /// The bytes are no image, or its program is refused.
    Refused,
    /// Out of memory.
    Memory,
}
