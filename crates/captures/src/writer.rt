//! Writes a capture of the frames of a stream that is handed on.

ghost use Rattle.std.specs.Prelude.{◌≡◌, ◌≤◌, ◌+◌, [], length, take, None, unwrap_or};
ghost use Rattle.std.specs.Io.KnownBytes.{Appends, Keeps};
ghost use Rattle.exact_io.specs.Waiting.{held};
ghost use Rattle.isa_model.specs.Code.Limits.{max_packet};
ghost use Rattle.captures.specs.Writing.{IsWrittenSoFar, least_part};

use super::following::Followed;
use super::kinds::{CaptureForm, LostCounts};
use super::packet_bytes::SPELLED;
use super::taking::{CaptureProgress, PartTaken, least_part, take_part};
use exact_io::PromptWriter;
use isa_model::{MAX_PACKET, Version};
use std::io;
use std::io::{ErrorKind, Write};

// The most bytes of a part of a stream: those of a record.
const RECORD: usize = 24 + MAX_PACKET;

/// Writes a capture of the frames of a stream, whose bytes are written to it.
///
/// A write or a flush that fails is the last one: each later one fails with an error of the same
/// kind.
#[derive(Drop)]
pub struct CaptureWriter<W: Write + Drop, T: Followed> {
    output: PromptWriter<W>,
    trail: T,
    written: CaptureProgress,
    // What has come of the magic or of the next record, and how much of it has to come.
    part: [u8; RECORD],
    count: usize,
    wanted: usize,
    spelled: [u8; SPELLED],
    failure: Option<ErrorKind>,
    ghost ordered: { count ≤ wanted },
    ghost inside: { wanted ≤ 24 + max_packet },
    ghost headed: { least_part written.version ≤ wanted },
    pub ghost formed: { unwrap_or T.form written.form ≡ written.form },
    pub ghost so_far: { ∥ IsWrittenSoFar written.form failure written.version (take count part)
        written.described written.lost T.origin (T.handed trail) T.before
        (held W.contents output) ∥₁ },
}

impl<W: Write + Drop, T: Followed> CaptureWriter<W, T> {
    ghost use Rattle.captures.specs.WriterStates.{failure_by};

    /// Writes to an output, which has nothing of the capture yet.
    pub fn new(output: PromptWriter<W>, form: CaptureForm, trail: T) -> Self
        requires form { unwrap_or T.form form ≡ form }
        requires before { Keeps T.before (held W.contents output) }
        requires origin { Keeps T.origin (T.handed trail) }
        ensures output { result.output ≡ output }
        ensures trail { result.trail ≡ trail }
    {
        CaptureWriter {
            output,
            trail,
            written: CaptureProgress {
                form,
                version: None,
                described: 1,
                lost: LostCounts::none(),
            },
            part: [0; RECORD],
            count: 0,
            wanted: least_part(None),
            spelled: [0; SPELLED],
            failure: None,
        }
    }

    /// Returns why a write or a flush failed, if one did.
    pub fn failure(&self) -> Option<ErrorKind>
        ensures { result ≡ self.now.failure }
    {
        self.failure
    }

    /// Returns what the capture does not say of the frames that were written.
    pub fn lost(&self) -> LostCounts
        ensures { result ≡ self.now.written.lost }
    {
        self.written.lost
    }

    // Takes what has come, if it is whole.
    #[inline(always)]
    fn settle(&mut self) -> Result<(), ErrorKind>
        requires { self.old.failure ≡ None }
        ensures trail { self.new.trail ≡ self.old.trail }
        ensures failure { self.new.failure ≡ failure_by result }
    {
        if self.count < self.wanted {
            return Ok(());
        }
        let part = &self.part[..self.count];
        match take_part(&mut self.output, self.written, part, &mut self.spelled) {
            Ok(PartTaken::Begun(version)) => {
                self.written.version = Some(version);
                self.wanted = least_part(self.written.version);
                self.count = 0;
                Ok(())
            }
            Ok(PartTaken::Longer(size)) => {
                self.wanted = size;
                Ok(())
            }
            Ok(PartTaken::Written(described, lost)) => {
                self.written.described = described;
                self.written.lost = lost;
                self.wanted = least_part(self.written.version);
                self.count = 0;
                Ok(())
            }
            Err(kind) => {
                self.failure = Some(kind);
                Err(kind)
            }
        }
    }

    // Keeps the next bytes of what has to come, and returns how many these are.
    #[inline(always)]
    fn keep(&mut self, bytes: &[u8]) -> usize
        requires { self.old.failure ≡ None }
        ensures bound { result ≤ length bytes.now }
        ensures failure { self.new.failure ≡ None }
        ensures handed { Appends (T.handed self.old.trail) (T.handed self.new.trail)
            (take result bytes.now) }
    {
        let size = bytes.len().min(self.wanted - self.count);
        let end = self.count + size;
        self.part[self.count..end].copy_from_slice(&bytes[..size]);
        self.count = end;
        self.trail.note(&bytes[..size]);
        size
    }
}

impl<W: Write + Drop, T: Followed> Write for CaptureWriter<W, T> {
    ghost use Rattle.std.specs.Prelude.{MatchResult, OnOk};
    ghost use Rattle.std.specs.IoError.{error_kind};
    ghost use Rattle.exact_io.specs.Waiting.{waiting};

    ghost contents = { λ w. T.handed w.trail };

    #[inline(always)]
    fn write(&mut self, bytes: &[u8]) -> io::Result<usize> {
        if let Some(kind) = self.failure {
            return Err(io::Error::from(kind));
        }
        match self.settle() {
            Ok(()) => Ok(self.keep(bytes)),
            Err(kind) => Err(io::Error::from(kind)),
        }
    }

    fn flush(&mut self) -> io::Result<()>
        ensures bytes { Keeps (T.handed self.old.trail) (T.handed self.new.trail) }
        ensures ok { OnOk result (waiting self.new.output ≡ []) }
        ensures remembered { MatchResult result (λ _. self.new.failure ≡ None)
            (λ e. self.new.failure ≡ Some (error_kind e)) }
    {
        if let Some(kind) = self.failure {
            return Err(io::Error::from(kind));
        }
        match self.settle() {
            Ok(()) => {}
            Err(kind) => return Err(io::Error::from(kind)),
        }
        match self.output.flush() {
            Ok(()) => Ok(()),
            Err(error) => {
                self.failure = Some(error.kind());
                Err(error)
            }
        }
    }
}
