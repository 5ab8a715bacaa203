//! A buffered reader as a source: its first bytes can be read ahead, and it tells what a read would
//! wait for.
ghost use Rattle.std.specs.Prelude.{◌≡◌, ◌≤◌, true, IfOk, IfErr};
ghost use Rattle.std.specs.IoError.{error_kind};
ghost use Rattle.std.specs.Io.Buffered.{reader_inner};

use super::sources::Source;
use std::alloc::Global;
use std::io;
use std::io::{BufRead, BufReader, ErrorKind, Read};

/// Says how many bytes can be read ahead.
pub const FRONT: usize = 4;

/// A buffer in front of a reader. A read that the buffer can serve takes few instructions.
#[derive(Drop)]
pub struct Buffered<R> {
    reader: BufReader<R>,
}

impl<R: Read + Drop> Buffered<R> {
    /// Puts an empty buffer in front of a reader.
    pub fn new(alloc: Global, capacity: usize, reader: R) -> io::Result<Self>
        ensures inner { IfOk result (λ b. reader_inner b.reader ≡ reader) }
        ensures err { IfErr result (λ e. error_kind e ≡ ErrorKind.OutOfMemory) }
    {
        let reader = BufReader::with_capacity(alloc, capacity, reader)?;
        Ok(Buffered { reader })
    }
}

impl<R: Read> Read for Buffered<R> {
    ghost use Rattle.frames.specs.Buffers.{buffered_remaining};

    ghost remaining = { buffered_remaining R.remaining };

    #[inline(always)]
    fn read(&mut self, buffer: &mut [u8]) -> io::Result<usize> {
        let held = self.reader.buffer();
        let size = buffer.len();
        if held.len() < size {
            return self.reader.read(buffer);
        }
        buffer.copy_from_slice(&held[..size]);
        self.reader.consume(size);
        Ok(size)
    }
}

/// A buffered reader whose first bytes were read ahead.
#[derive(Drop)]
pub struct Ahead<R> {
    front: [u8; FRONT],
    // Which of these are to be read again.
    given: usize,
    count: usize,
    source: Buffered<R>,
    waits: bool,
    ghost ordered: { given ≤ count },
    ghost inside: { count ≤ 4 },
}

impl<R: Read> Ahead<R> {
    /// Puts the first `count` bytes of the front before those that a reader has left. `waits` says
    /// whether a read of the reader may wait for bytes to come.
    pub fn new(front: [u8; FRONT], count: usize, source: Buffered<R>, waits: bool) -> Self
        requires { count ≤ 4 }
    {
        Ahead {
            front,
            given: 0,
            count,
            source,
            waits,
        }
    }
}

impl<R: Read> Source for Ahead<R> {
    ghost use Rattle.frames.specs.Buffers.{ahead_remaining};

    ghost remaining = { ahead_remaining R.remaining };

    ghost may_fail = { true };

    #[inline(always)]
    fn read_some(&mut self, buffer: &mut [u8]) -> io::Result<usize> {
        if self.given == self.count {
            return self.source.read(buffer);
        }
        let mut front: &[u8] = &self.front[self.given..self.count];
        let size = front.read(buffer)?;
        self.given += size;
        Ok(size)
    }

    #[inline(always)]
    fn held(&self) -> Option<&[u8]> {
        if self.waits {
            Some(self.source.reader.buffer())
        } else {
            None
        }
    }
}
