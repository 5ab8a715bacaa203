//! What `verify` says of the image that is run.

/// The bound that `verify` proves, the line of its refusal, or nothing where memory ran out.
#[derive(Drop)]
pub enum BoundVerdict {
    Bound(u32),
    Refused(String),
    Unknown,
}
