//! What is kept of a state besides its innermost call frame.

ghost use Rattle.std.specs.Prelude.{◌≤◌, length};

use crate::callers::Callers;
use crate::proved_bytes::ProvedBytes;

/// Says what is kept of a state besides its innermost call frame.
#[derive(Drop)]
pub struct Around {
    pub slot: u32,
    /// Says what is proved besides, of two identities.
    pub proved: ProvedBytes,
    pub also_proved: ProvedBytes,
    pub callers: Callers,
    pub ghost few: { length callers.value.items ≤ 7 },
}
