//! Operations and relations that tests apply to numbers and to sets of them.

use isa_model::{ByteOrder, Extension, SwapWidth, Width};

/// An operation on one number.
pub enum Unary {
    Negate(Width),
    SignExtend(Extension),
    Reorder(ByteOrder, SwapWidth),
}

/// A relation of two numbers.
pub enum Relation {
    Equal,
    Below,
    AtMost,
    SignedBelow,
    SignedAtMost,
    Unequal,
    Disjoint,
    Overlapping,
}
