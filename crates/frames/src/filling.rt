//! Fills a buffer, in most cases by one read.
ghost use Rattle.std.specs.Prelude.{◌≡◌, ◌<◌, length, take, true, Option, List, ℕ};
ghost use Rattle.std.specs.Io.KnownBytes.{Consumes, IsAtEnd};
ghost use Rattle.exact_io.specs.Transfers.{Fills};
ghost use Rattle.frames.specs.Sources.{HasFailed};

use super::sources::Source;
use exact_io::Filled;

/// Fills the buffer from its front, as exact_io's `fill` does, which takes readers only. The first
/// read, which is inlined, is nearly always enough.
#[inline(always)]
pub fn fill_at_once<R: Source>(source: &mut R, buffer: &mut [u8]) -> Filled
    ensures fills { Fills (R.remaining source.old) (R.remaining source.new) result buffer.new }
    ensures fails { HasFailed result → R.may_fail ≡ true }
{
    if buffer.is_empty() {
        return Filled::Whole;
    }
    match source.read_some(buffer) {
        Ok(count) => {
            if count == buffer.len() {
                Filled::Whole
            } else {
                fill_rest(source, buffer, count)
            }
        }
        Err(_) => Filled::Failed(0),
    }
}

// Fills what is left of a buffer, after a read returned its first `count` bytes, or none at the
// end.
#[cold]
#[inline(never)]
fn fill_rest<R: Source>(source: &mut R, buffer: &mut [u8], count: usize) -> Filled
    requires less { count < length buffer.old }
    requires end { count ≡ 0 → IsAtEnd (R.remaining source.old) }
    ensures fills { (before : Option (List ℕ))
        → Consumes before (R.remaining source.old) (take count buffer.old)
        → Fills before (R.remaining source.new) result buffer.new }
    ensures fails { HasFailed result → R.may_fail ≡ true }
{
    if count == 0 {
        return Filled::Ended(0);
    }
    match fill(source, &mut buffer[count..]) {
        Filled::Whole => Filled::Whole,
        Filled::Ended(more) => Filled::Ended(count + more),
        Filled::Failed(more) => Filled::Failed(count + more),
    }
}

/// Fills a buffer from its front, read by read.
pub fn fill<R: Source>(source: &mut R, buffer: &mut [u8]) -> Filled
    ensures fills { Fills (R.remaining source.old) (R.remaining source.new) result buffer.new }
    ensures fails { HasFailed result → R.may_fail ≡ true }
{
    let mut at = 0;
    while at < buffer.len() {
        match source.read_some(&mut buffer[at..]) {
            Ok(0) => return Filled::Ended(at),
            Ok(n) => at += n,
            Err(_) => return Filled::Failed(at),
        }
    }
    Filled::Whole
}
