//! Counts by index.
ghost use Rattle.std.specs.Prelude.{◌≡◌, ℕ, ◌+◌, ◌%◌, ◌^◌, ◌<◌, ◌==◌, if◌then◌else◌, length, slice_index, replicate, IfOk};

use std::alloc::{AllocError, Global};

/// Counts one more at an index, if it is there, in 64 bits.
#[inline(always)]
pub fn add_one(counts: &mut [u64], index: usize)
    ensures { (k : ℕ) → k < length counts.old → slice_index counts.new k
        ≡ (if index == k then (slice_index counts.old k + 1) % 2 ^ 64
        else slice_index counts.old k) }
{
    if index < counts.len() {
        counts[index] = counts[index].wrapping_add(1);
    }
}

/// So many counts, which are 0.
pub fn zeros(alloc: Global, count: usize) -> Result<Vec<u64>, AllocError>
    ensures { IfOk result (λ counts. counts.items ≡ replicate count 0) }
{
    vec![in alloc; 0; count]
}
