//! Readers and writers for tests, which move a few bytes at a time and fail once. Their callers
//! have to take short reads and writes, and must not try again after a failure.

ghost use Rattle.std.specs.Prelude.{◌≡◌, ◌≤◌, [], ◌++◌, length, take, drop, min, None, Some, IfOk, IsErr, OnErr, IfErr, MatchResult};
ghost use Rattle.std.specs.IoError.{error_kind};
ghost use Rattle.std.specs.Io.{ReadsAtMost, WritesAtMost};
ghost use Rattle.std.specs.Io.KnownBytes.{ReadConsumes, WriteAppends};
ghost use Rattle.exact_io.specs.Failures.{count_of, room_after};

use std::alloc::Global;
use std::io;
use std::io::{ErrorKind, Read, Write};

/// The failure: an error, or a result that says that no byte was moved.
#[derive(Clone, Copy)]
pub enum Failure {
    Error(ErrorKind),
    Nothing,
}

/// The failures to test with. Some callers try again after one of them, `Interrupted`, and must
/// not.
pub const FAILURES: [Failure; 3] = [
    Failure::Error(ErrorKind::BrokenPipe),
    Failure::Error(ErrorKind::Interrupted),
    Failure::Nothing,
];

fn result_of(failing: Failure) -> io::Result<usize>
    ensures { MatchResult result (λ count. (failing ≡ Failure.Nothing) × (count ≡ 0))
        (λ e. failing ≡ Failure.Error (error_kind e)) }
{
    match failing {
        Failure::Error(kind) => Err(io::Error::from(kind)),
        Failure::Nothing => Ok(0),
    }
}

/// Takes at most `chunk` bytes a call. If it is to fail, it fails once, after `room` bytes, and
/// takes more after that.
#[derive(Drop)]
pub struct Writer {
    pub taken: Vec<u8>,
    pub chunk: usize,
    pub room: usize,
    pub failing: Option<Failure>,
}

impl Writer {
    /// A writer that has taken nothing yet.
    pub fn new(alloc: Global, chunk: usize, room: usize, failing: Option<Failure>) -> Writer
        ensures nothing { result.taken.items ≡ [] }
        ensures chunks { result.chunk ≡ chunk }
        ensures rooms { result.room ≡ room }
        ensures fails { result.failing ≡ failing }
    {
        Writer {
            taken: Vec::new(alloc),
            chunk,
            room,
            failing,
        }
    }
}

impl Write for Writer {
    ghost contents = { λ w. Some w.taken.items };

    fn write(&mut self, buf: &[u8]) -> io::Result<usize>
        ensures bound { WritesAtMost result buf.now }
        ensures bytes { WriteAppends (Some self.old.taken.items)
            (Some self.new.taken.items) result buf.now }
        ensures count { IfOk result
            (λ n. n ≡ count_of (length buf.now) self.old.chunk self.old.room self.old.failing) }
        ensures due { (kind : ErrorKind) → self.old.failing ≡ Some (Failure.Error kind)
            → self.old.room ≡ 0 → IsErr result }
        ensures room { IfOk result
            (λ n. self.new.room ≡ room_after n self.old.room self.old.failing) }
        ensures waits { 1 ≤ self.old.room → self.new.failing ≡ self.old.failing }
        ensures once { (failing : Failure) → self.old.failing ≡ Some failing → self.old.room ≡ 0
            → self.new.failing ≡ None }
        ensures chunk { self.new.chunk ≡ self.old.chunk }
    {
        let mut count = buf.len().min(self.chunk);
        if let Some(failing) = self.failing {
            if self.room == 0 {
                self.failing = None;
                return result_of(failing);
            }
            count = count.min(self.room);
            self.room -= count;
        }
        self.taken.extend_from_slice(&buf[..count])?;
        Ok(count)
    }

    fn flush(&mut self) -> io::Result<()> {
        Ok(())
    }
}

/// Returns at most `chunk` bytes a call. If it is to fail, it fails once, after `room` bytes, and
/// returns more after that.
#[derive(Drop)]
pub struct Reader<'a> {
    pub left: &'a [u8],
    pub chunk: usize,
    pub room: usize,
    pub failing: Option<Failure>,
}

impl Read for Reader<'_> {
    fn read(&mut self, buf: &mut [u8]) -> io::Result<usize>
        ensures bound { ReadsAtMost result buf.new }
        ensures bytes { ReadConsumes None None result buf.new }

        // The bytes are taken from the front of what is left.
        ensures given { IfOk result (λ n. buf.new ≡ take n self.old.left.now ++ drop n buf.old) }
        ensures left { IfOk result (λ n. self.new.left.now ≡ drop n self.old.left.now) }
        ensures count { IfOk result
            (λ n. n ≡ count_of
            (min (length buf.old)
            (length self.old.left.now)) self.old.chunk self.old.room self.old.failing) }

        // The failure is returned, and no byte is lost.
        ensures error { IfErr result
            (λ e. (self.old.failing ≡ Some (Failure.Error (error_kind e))) × (self.old.room ≡ 0)) }
        ensures kept { OnErr result (self.new.left.now ≡ self.old.left.now) }
        ensures due { (kind : ErrorKind) → self.old.failing ≡ Some (Failure.Error kind)
            → self.old.room ≡ 0 → IsErr result }
        ensures room { IfOk result
            (λ n. self.new.room ≡ room_after n self.old.room self.old.failing) }
        ensures waits { 1 ≤ self.old.room → self.new.failing ≡ self.old.failing }
        ensures once { (failing : Failure) → self.old.failing ≡ Some failing → self.old.room ≡ 0
            → self.new.failing ≡ None }
        ensures chunk { self.new.chunk ≡ self.old.chunk }
    {
        let mut count = buf.len().min(self.left.len()).min(self.chunk);
        if let Some(failing) = self.failing {
            if self.room == 0 {
                self.failing = None;
                return result_of(failing);
            }
            count = count.min(self.room);
            self.room -= count;
        }
        let (front, rest) = self.left.split_at(count);
        buf[..count].copy_from_slice(front);
        self.left = rest;
        Ok(count)
    }
}
