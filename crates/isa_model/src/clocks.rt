//! The clock that helpers ask.

ghost use Rattle.std.specs.Prelude.{◌≡◌, ℕ, ◌+◌, ◌<◌, ◌^◌};

/// A source of times in nanoseconds. Contracts see the answers that are still to come, by index:
/// `at c k` is the answer to the call that follows the next `k` calls.
pub trait Clock {
    ghost at: { Self → ℕ → ℕ };

    fn now(&mut self) -> u64
        ensures first { result ≡ at self.old 0 }
        ensures rest { (k : ℕ) → at self.new k ≡ at self.old (k + 1) };

    // Each answer has 64 bits.
    ghost within: { (c : Self) (k : ℕ) → at c k < 2 ^ 64 };
}
