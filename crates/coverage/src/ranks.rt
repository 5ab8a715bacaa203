//! The least, the median and the greatest of numbers that were counted.
ghost use Rattle.std.specs.Prelude.{◌≡◌, ◌<◌, ℕ, List, [], length, All, MatchOption};
ghost use Rattle.coverage.specs.Counted.{CountsExactly};
ghost use Rattle.coverage.specs.Ranks.{HasRank, AreStepNumbers, is_number};

/// The least, the median and the greatest number of steps of some runs; of two in the middle the
/// lesser one.
#[derive(Clone, Copy)]
pub struct StepNumbers {
    pub least: usize,
    pub median: usize,
    pub greatest: usize,
}

/// Returns the number of a rank, from 0 on, among numbers of which it is counted how many each is.
fn ranked(taken: &[u64], rank: u64) -> usize
    ensures { (numbers : List ℕ) → CountsExactly is_number numbers taken.now
        → All (λ n. n < length taken.now) numbers → rank < length numbers
        → HasRank numbers rank result }
{
    let mut left = rank;
    for number in 0..taken.len() {
        let count = taken[number];
        if left < count {
            return number;
        }
        left -= count;
    }
    taken.len()
}

/// The least, the median and the greatest of so many numbers; `None` if there are none.
pub fn step_numbers(taken: &[u64], count: u64) -> Option<StepNumbers>
    ensures { (numbers : List ℕ) → CountsExactly is_number numbers taken.now
        → All (λ n. n < length taken.now) numbers → count ≡ length numbers
        → MatchOption result (numbers ≡ []) (λ found. AreStepNumbers numbers found) }
{
    if count == 0 {
        return None;
    }
    let least = ranked(taken, 0);
    let median = ranked(taken, (count - 1) / 2);
    let greatest = ranked(taken, count - 1);
    Some(StepNumbers {
        least,
        median,
        greatest,
    })
}
