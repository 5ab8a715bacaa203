//! Numbers that some bits of others make, and numbers with known bits between two limits.

ghost use Rattle.std.specs.Prelude.{ℕ, ◌<◌, ◌≤◌};

use crate::scalars::{Scalar, between};
use known_bits::Bits;

impl Scalar {
    ghost use Rattle.known_bits.specs.Bits as B;
    ghost use Rattle.reg_state.specs.Scalars.{Has};
    ghost use Rattle.reg_state.specs.Arithmetic.{IsPart};

    /// The numbers that `count` bits of these make, from bit `from` on.
    pub fn part(self, from: u64, count: u32) -> Scalar
        requires from { from < 64 }
        requires some { 0 < count }
        requires count { count ≤ 64 }
        ensures { IsPart from count self result }
    {
        let limits = self.range.part(from, count).wide;
        Scalar::limited(self.bits.part(from, count), limits.least, limits.greatest)
    }

    // The numbers with known bits between two limits: bits and limits narrow each other.
    fn limited(bits: Bits, least: u64, greatest: u64) -> Scalar
        requires { least ≤ greatest }
        ensures contains { (x : ℕ) → B.Has bits x → least ≤ x → x ≤ greatest → Has result x }
        ensures narrower { (x : ℕ) → Has result x → B.Has bits x × (least ≤ x) × (x ≤ greatest) }
    {
        let (bits, least, greatest) = Scalar::shown(bits, least, greatest);
        let range = between(least, greatest);
        let both = Scalar { bits, range };
        both.single()
    }

    // What known bits and two limits show of each other.
    pub(crate) fn shown(bits: Bits, least: u64, greatest: u64) -> (Bits, u64, u64)
        requires { least ≤ greatest }
        ensures contains { (x : ℕ) → B.Has bits x → least ≤ x → x ≤ greatest
            → B.Has result.0 x × (result.1 ≤ x) × (x ≤ result.2) }
        ensures bits { (x : ℕ) → B.Has result.0 x → B.Has bits x }
        ensures limits { (least ≤ result.1) × (result.1 ≤ result.2) × (result.2 ≤ greatest) }
    {
        let Some(known) = bits.meet(Bits::between(least, greatest)) else {
            return (bits, least, greatest);
        };
        let smallest = least.max(known.least());
        let largest = greatest.min(known.greatest());
        if smallest > largest {
            return (bits, least, greatest);
        }
        (known, smallest, largest)
    }

    // The same numbers. If the limits leave only one number, it is known as a constant.
    pub(crate) fn single(self) -> Scalar
        ensures contains { (x : ℕ) → Has self x → Has result x }
        ensures narrower { (x : ℕ) → Has result x → Has self x }
    {
        let Some(number) = self.range.number() else {
            return self;
        };
        match self.alone(number) {
            Some(constant) => constant,
            None => self,
        }
    }
}
