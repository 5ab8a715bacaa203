//! Joint limits, at 64 bits and of low halves: what they show of each other.

ghost use Rattle.std.specs.Prelude.{◌≡◌, ℕ, ◌%◌, ◌^◌, ◌<◌, ◌≤◌, ◌⊎◌, IsSomeAnd, IfSome};
ghost use Rattle.std.specs.Int.{w32};
ghost use Rattle.ranges.specs.Joint.{IsHalfBetween};
ghost use Rattle.ranges.specs.Wides as W;

use crate::low::Low;
use crate::wide::Wide;
use isa_model::numbers;

impl Low {
    ghost use Rattle.ranges.specs.Lows.{Has, Encloses, IsTight, AreReached};

    // The least number from `from` up whose low half is one of these.
    pub(crate) fn first_number(self, from: u64) -> Option<u64>
        requires { IsTight self }
        ensures some { IfSome result (λ f. (from ≤ f) × Has self (f % 2 ^ 32)) }
        ensures first { (x : ℕ) → x < 2 ^ 64 → from ≤ x → Has self (x % 2 ^ 32)
            → IsSomeAnd result (λ f. f ≤ x) }
    {
        let upper = from / HALVES;
        if let Some(half) = self.first_from(numbers::low_32_bits(from)) {
            return Some(upper * HALVES + u64::from(half));
        }
        if upper == HALVES - 1 {
            return None;
        }
        Some((upper + 1) * HALVES + u64::from(self.least))
    }

    // The greatest number up to `to` whose low half is one of these.
    pub(crate) fn last_number(self, to: u64) -> Option<u64>
        requires { IsTight self }
        ensures some { IfSome result (λ l. (l ≤ to) × Has self (l % 2 ^ 32)) }
        ensures last { (x : ℕ) → x ≤ to → Has self (x % 2 ^ 32) → IsSomeAnd result (λ l. x ≤ l) }
    {
        let upper = to / HALVES;
        if let Some(half) = self.last_to(numbers::low_32_bits(to)) {
            return Some(upper * HALVES + u64::from(half));
        }
        if upper == 0 {
            return None;
        }
        Some((upper - 1) * HALVES + u64::from(self.greatest))
    }

    // Of these low halves, those of the numbers between two limits. The low halves of the limits
    // themselves are among these.
    pub(crate) fn among(self, least: u64, greatest: u64) -> Low
        requires tight { IsTight self }
        requires ordered { least ≤ greatest }
        requires least { Has self (least % 2 ^ 32) }
        requires greatest { Has self (greatest % 2 ^ 32) }
        ensures contains { (x : ℕ) → least ≤ x → x ≤ greatest → Has self (x % 2 ^ 32)
            → Has result (x % 2 ^ 32) }
        ensures enclosed { Encloses self result }
        ensures reached { AreReached result (λ half. Has self half
            × IsHalfBetween least greatest half) }
    {
        // the upper halves of the first and of the last number
        let first = least / HALVES;
        let last = greatest / HALVES;
        let from = numbers::low_32_bits(least);
        let to = numbers::low_32_bits(greatest);
        if first == last {
            self.with(Low::between(from, to))
        } else if first + 1 == last {
            let start = self.with(Low::between(from, u32::MAX));
            let end = self.with(Low::between(0, to));
            start.hull(end)
        } else {
            self
        }
    }
}

impl Wide {
    ghost use Rattle.ranges.specs.Lows as L;

    // The low halves of the numbers.
    pub(crate) fn low_limits(self) -> Low
        ensures contains { (x : ℕ) → W.Has self x → L.Has result (x % 2 ^ 32) }
        ensures small { (x : ℕ) → W.Has self x → self.greatest < 2 ^ 32
            → L.IsBetween result self.least self.greatest }
        ensures signed { (x : ℕ) → W.Has self x → W.IsSignedOf w32 self
            → L.IsSignedBetween result self.signed_least self.signed_greatest }
        ensures reached { (x : ℕ) → W.Has self x → L.AreReached result (W.HasHalf self) }
    {
        let Some(signed) = self.signed_part() else {
            return match self.plain_part() {
                Some(plain) => plain.unsigned_halves(),
                None => Low::any(),
            };
        };
        match self.plain_part() {
            Some(plain) => plain.unsigned_halves().hull(signed.unsigned_halves()),
            None => signed.unsigned_halves(),
        }
    }

    // The low halves of all numbers between the unsigned limits.
    fn unsigned_halves(self) -> Low
        ensures contains { (x : ℕ) → W.Has self x → L.Has result (x % 2 ^ 32) }
        ensures small { self.greatest < 2 ^ 32 → L.IsBetween result self.least self.greatest }
        ensures signed { W.ReadsAlike self → W.IsSignedOf w32 self
            → L.IsSignedBetween result self.signed_least self.signed_greatest }
        ensures reached { L.AreReached result (IsHalfBetween self.least self.greatest) }
    {
        if self.greatest <= u64::from(u32::MAX) {
            return Low::between(self.least as u32, self.greatest as u32);
        }
        Low::any().among(self.least, self.greatest)
    }
}

// How many low halves there are.
const HALVES: u64 = 0x1_0000_0000;
