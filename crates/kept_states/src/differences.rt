//! What of a number differs from another one.

ghost use Rattle.std.specs.Prelude.{ℕ, ℤ, ◌≤◌, ◌≤ℤ◌, max};
ghost use Rattle.std.specs.Int.{int_max};

use crate::of_two::OfTwo;

/// Says what of a number is kept, since it differed from what is known of another number.
#[derive(Clone, Copy, Drop)]
pub struct Differences {
    pub bits: bool,
    pub unsigned: OfTwo,
    /// None: the signed limits are the unsigned ones.
    pub signed: Option<OfTwo>,
    pub low_unsigned: OfTwo,
    pub low_signed: Option<OfTwo>,
    pub ghost ordered: { (least greatest : ℕ) → least ≤ max least greatest },
    pub ghost signed_ordered: { (least greatest : ℤ) → least ≤ℤ int_max least greatest },
}
