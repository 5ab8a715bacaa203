//! Fills the front of a buffer to a length, and keeps what is there.

ghost use Rattle.std.specs.Prelude.{◌≡◌, ◌<◌, ◌≤◌, length, take};
ghost use Rattle.std.specs.Io.KnownBytes.{prepend_known};
ghost use Rattle.captures.specs.Collecting.{Collects, IsCollected};

use exact_io::Filled;
use frames::{Source, fill};

/// Says how filling the front of a buffer ended.
#[derive(Clone, Copy)]
pub enum Collected {
    /// It has as many bytes as were wanted.
    Whole,
    /// The source ended before.
    Ended,
    /// The source failed before.
    Failed,
}

/// Takes bytes from a source to the front of the buffer, which has `count` already, until it has as
/// many as are wanted. A call after a failure goes on where that one stopped.
#[inline(always)]
pub fn collect<R: Source>(
    source: &mut R,
    buffer: &mut [u8],
    count: usize,
    wanted: usize,
) -> (Collected, usize)
    requires room { wanted ≤ length buffer.old }
    requires less { count ≤ length buffer.old }
    ensures bytes { Collects (R.remaining source.old) (R.remaining source.new)
        (take count buffer.old) (take result.1 buffer.new) }
    ensures count { IsCollected (R.remaining source.new) count wanted result.0 result.1 }
    ensures inside { result.1 ≤ length buffer.new }
{
    if wanted <= count {
        return (Collected::Whole, count);
    }
    match fill(source, &mut buffer[count..wanted]) {
        Filled::Whole => (Collected::Whole, wanted),
        Filled::Ended(more) => (Collected::Ended, count + more),
        Filled::Failed(more) => (Collected::Failed, count + more),
    }
}
