//! Fills a buffer from a reader.
ghost use Rattle.exact_io.specs.Transfers.{Fills};

use std::io::Read;

/// Says how filling a buffer ended.
#[derive(Clone, Copy, PartialEq, Eq, Debug)]
pub enum Filled {
    /// All of the buffer.
    Whole,
    /// This many bytes, fewer than the buffer has, and then the reader's end.
    Ended(usize),
    /// This many bytes, fewer than the buffer has, and then the reader's error.
    Failed(usize),
}

/// Fills the buffer from its front.
///
/// The reader's first error, of any kind, is the failure, and nothing is tried again. After the
/// bytes that were counted the buffer may hold any bytes.
pub fn fill<R: Read>(source: &mut R, buffer: &mut [u8]) -> Filled
    ensures { Fills (R.remaining source.old) (R.remaining source.new) result buffer.new }
{
    let mut at = 0;
    while at < buffer.len() {
        match source.read(&mut buffer[at..]) {
            Ok(0) => return Filled::Ended(at),
            Ok(n) => at += n,
            Err(_) => return Filled::Failed(at),
        }
    }
    Filled::Whole
}
