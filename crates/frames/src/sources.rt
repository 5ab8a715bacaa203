//! Where a stream's bytes come from: a reader, which may fail, or bytes in memory, which never do.
ghost use Rattle.std.specs.Prelude.{◌≡◌, Option, Some, List, ℕ, Bool, true, false, OnErr};
ghost use Rattle.std.specs.Io.{ReadsAtMost};
ghost use Rattle.std.specs.Io.KnownBytes.{ReadConsumes};

use std::io;
use std::io::Read;

/// A source of bytes. Each reader is one; `InMemory` is one that never fails.
pub trait Source {
    /// The bytes that reads will return from here on, where they are known.
    ghost remaining: { Self → Option (List ℕ) };

    /// Says whether a read may fail.
    ghost may_fail: { Bool };

    /// Reads bytes to the front of the buffer, and returns how many; none only at the end, or if
    /// the buffer is empty.
    fn read_some(&mut self, buffer: &mut [u8]) -> io::Result<usize>
        ensures bound { ReadsAtMost result buffer.new }
        ensures bytes { ReadConsumes (remaining self.old) (remaining self.new) result buffer.new }
        ensures fails { OnErr result (may_fail ≡ true) };

    /// The next bytes that can be read without waiting; `None` if no read waits. This is advice:
    /// no proof relies on it.
    #[inline(always)]
    fn held(&self) -> Option<&[u8]> {
        None
    }
}

impl<R: Read> Source for R {
    ghost remaining = { λ reader. R.remaining reader };

    ghost may_fail = { true };

    #[inline(always)]
    fn read_some(&mut self, buffer: &mut [u8]) -> io::Result<usize> {
        self.read(buffer)
    }
}

/// Bytes in memory, from the first one that was not read on.
#[derive(Clone, Copy)]
pub struct InMemory<'a> {
    pub bytes: &'a [u8],
}

impl Source for InMemory<'_> {
    ghost remaining = { λ memory. Some memory.bytes.now };

    ghost may_fail = { false };

    #[inline(always)]
    fn read_some(&mut self, buffer: &mut [u8]) -> io::Result<usize> {
        self.bytes.read(buffer)
    }
}
