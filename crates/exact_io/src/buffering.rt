//! A buffered writer that writes its first bytes through at once, and remembers why it failed.
//!
//! std's `BufWriter` keeps all bytes until it is full. A file that cannot be written is then found
//! only when much else has been done.
ghost use Rattle.std.specs.Prelude.{◌≡◌, ◌<◌, ◌-◌, [], length, true, None, Some, IfOk, OnOk, IfErr, MatchResult};
ghost use Rattle.std.specs.IoError.{error_kind};
ghost use Rattle.std.specs.Io.{WritesAtMost};
ghost use Rattle.std.specs.Io.KnownBytes.{Keeps, WriteAppends};

use std::alloc::Global;
use std::io;
use std::io::{BufWriter, ErrorKind, Write};

/// A buffered writer. Bytes that are in the buffer when it is dropped are not written.
///
/// A write or a flush that fails is the last one: each later one fails with an error of the
/// same kind, and nothing is tried again. If the inner writer takes no byte, the write fails with
/// `ErrorKind::WriteZero`.
pub struct PromptWriter<W: Write + Drop> {
    buffered: BufWriter<W>,
    // How many bytes are still to go through at once.
    prompt: usize,
    // Why a write or a flush failed.
    failure: Option<ErrorKind>,
}

impl<W: Write + Drop> PromptWriter<W> {
    ghost use Rattle.exact_io.specs.Waiting.{FailsWith, behind, failure_of, held, prompt_left, waiting};

    /// Puts a buffer in front of a writer. The first `prompt` bytes are written through at once.
    pub fn new(alloc: Global, capacity: usize, prompt: usize, writer: W) -> io::Result<Self>
        ensures behind { IfOk result (λ w. behind w ≡ writer) }
        ensures empty { IfOk result (λ w. waiting w ≡ []) }
        ensures prompt { IfOk result (λ w. prompt_left w ≡ prompt) }
        ensures unfailed { IfOk result (λ w. failure_of w ≡ None) }
        ensures err { IfErr result (λ e. error_kind e ≡ ErrorKind.OutOfMemory) }
    {
        let buffered = BufWriter::with_capacity(alloc, capacity, writer)?;
        Ok(PromptWriter {
            buffered,
            prompt,
            failure: None,
        })
    }

    /// Returns why a write or a flush failed, if one did.
    pub fn failure(&self) -> Option<ErrorKind>
        ensures { result ≡ failure_of self.now }
    {
        self.failure
    }

    // Writes, where nothing has failed before.
    #[inline(always)]
    fn pass(&mut self, bytes: &[u8]) -> io::Result<usize>
        ensures bound { WritesAtMost result bytes.now }
        ensures bytes { WriteAppends (held W.contents self.old) (held W.contents self.new)
            result bytes.now }
        ensures at_once { 0 < prompt_left self.old → OnOk result (waiting self.new ≡ []) }
        ensures left { IfOk result (λ n. prompt_left self.new ≡ prompt_left self.old - n) }
        ensures failure { failure_of self.new ≡ failure_of self.old }
    {
        if self.prompt == 0 {
            return self.buffered.write(bytes);
        }
        self.pass_at_once(bytes)
    }

    // Writes through, where some bytes are still to go through at once.
    #[cold]
    #[inline(never)]
    fn pass_at_once(&mut self, bytes: &[u8]) -> io::Result<usize>
        ensures bound { WritesAtMost result bytes.now }
        ensures bytes { WriteAppends (held W.contents self.old) (held W.contents self.new)
            result bytes.now }
        ensures at_once { OnOk result (waiting self.new ≡ []) }
        ensures left { IfOk result (λ n. prompt_left self.new ≡ prompt_left self.old - n) }
        ensures failure { failure_of self.new ≡ failure_of self.old }
    {
        self.buffered.flush()?;
        let front = &bytes[..bytes.len().min(self.prompt)];
        let count = self.buffered.get_mut().write(front)?;
        self.prompt -= count;
        Ok(count)
    }

    // Whether nothing has failed, and the buffer has room for `count` bytes more.
    #[inline(always)]
    fn takes_at_once(&self, count: usize) -> bool
        ensures { result ≡ true → failure_of self.now ≡ None }
    {
        let room = self
            .buffered
            .capacity()
            .saturating_sub(self.buffered.buffer().len());
        self.prompt == 0 && self.failure.is_none() && count < room
    }

    // Writes, where nothing has failed before, and remembers a failure.
    #[inline(always)]
    fn write_on(&mut self, bytes: &[u8]) -> io::Result<usize>
        requires { failure_of self.old ≡ None }
        ensures bound { WritesAtMost result bytes.now }
        ensures bytes { WriteAppends (held W.contents self.old) (held W.contents self.new)
            result bytes.now }
        ensures at_once { 0 < prompt_left self.old → OnOk result (waiting self.new ≡ []) }
        ensures left { IfOk result (λ n. prompt_left self.new ≡ prompt_left self.old - n) }
        ensures some { IfOk result (λ n. 0 < length bytes.now → 0 < n) }
        ensures remembered { MatchResult result (λ _. failure_of self.new ≡ None)
            (λ e. failure_of self.new ≡ Some (error_kind e)) }
    {
        match self.pass(bytes) {
            Ok(0) if !bytes.is_empty() => {
                self.failure = Some(ErrorKind::WriteZero);
                Err(io::Error::from(ErrorKind::WriteZero))
            }
            Ok(count) => Ok(count),
            Err(error) => {
                self.failure = Some(error.kind());
                Err(error)
            }
        }
    }

    // Writes, out of line, where something may have failed before or the buffer may have to be
    // emptied first.
    #[cold]
    #[inline(never)]
    fn write_with_care(&mut self, bytes: &[u8]) -> io::Result<usize>
        ensures bound { WritesAtMost result bytes.now }
        ensures bytes { WriteAppends (held W.contents self.old) (held W.contents self.new)
            result bytes.now }
        ensures at_once { 0 < prompt_left self.old → OnOk result (waiting self.new ≡ []) }
        ensures left { IfOk result (λ n. prompt_left self.new ≡ prompt_left self.old - n) }
        ensures some { IfOk result (λ n. 0 < length bytes.now → 0 < n) }
        ensures remembered { MatchResult result (λ _. failure_of self.new ≡ None)
            (λ e. failure_of self.new ≡ Some (error_kind e)) }
        ensures last { (kind : ErrorKind) → failure_of self.old ≡ Some kind
            → FailsWith kind result × (self.new ≡ self.old) }
    {
        if let Some(kind) = self.failure {
            return Err(io::Error::from(kind));
        }
        self.write_on(bytes)
    }
}

impl<W: Write + Drop> Write for PromptWriter<W> {
    ghost use Rattle.exact_io.specs.Waiting.{FailsWith, failure_of, held, prompt_left, waiting};

    ghost contents = { held W.contents };

    #[inline(always)]
    fn write(&mut self, bytes: &[u8]) -> io::Result<usize>
        ensures bound { WritesAtMost result bytes.now }
        ensures bytes { WriteAppends (held W.contents self.old) (held W.contents self.new)
            result bytes.now }
        ensures at_once { 0 < prompt_left self.old → OnOk result (waiting self.new ≡ []) }
        ensures left { IfOk result (λ n. prompt_left self.new ≡ prompt_left self.old - n) }
        ensures some { IfOk result (λ n. 0 < length bytes.now → 0 < n) }
        ensures remembered { MatchResult result (λ _. failure_of self.new ≡ None)
            (λ e. failure_of self.new ≡ Some (error_kind e)) }
        ensures last { (kind : ErrorKind) → failure_of self.old ≡ Some kind
            → FailsWith kind result × (self.new ≡ self.old) }
    {
        if self.takes_at_once(bytes.len()) {
            self.write_on(bytes)
        } else {
            self.write_with_care(bytes)
        }
    }

    fn flush(&mut self) -> io::Result<()>
        ensures bytes { Keeps (held W.contents self.old) (held W.contents self.new) }
        ensures ok { OnOk result (waiting self.new ≡ []) }
        ensures remembered { MatchResult result (λ _. failure_of self.new ≡ None)
            (λ e. failure_of self.new ≡ Some (error_kind e)) }
        ensures last { (kind : ErrorKind) → failure_of self.old ≡ Some kind
            → FailsWith kind result × (self.new ≡ self.old) }
    {
        if let Some(kind) = self.failure {
            return Err(io::Error::from(kind));
        }
        match self.buffered.flush() {
            Ok(()) => Ok(()),
            Err(error) => {
                self.failure = Some(error.kind());
                Err(error)
            }
        }
    }
}

impl<W: Write + Drop> Drop for PromptWriter<W> {
    fn drop(self) {
        let PromptWriter {
            buffered,
            prompt: _,
            failure: _,
        } = self;
        let _ = buffered.into_parts();
    }
}
