//! How the loop over a stream ended.

use isa_model::Finish;

/// Says how many packet frames were found in a stream, and how it ended.
#[derive(Clone, Copy)]
pub struct StreamEnded {
    pub frames: u32,
    pub finish: Finish,
}
