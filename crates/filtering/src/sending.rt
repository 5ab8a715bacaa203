//! Where the frames out go: to a file that gets their stream, or a capture of them.

ghost use Rattle.std.specs.Prelude.{◌≡◌, ℕ, List, Option, None, Some, MatchResult, OnOk};
ghost use Rattle.std.specs.IoError.{error_kind};
ghost use Rattle.std.specs.Io.KnownBytes.{Keeps};
ghost use Rattle.commands.specs.Streams.{IsBeginningOf};

use captures::{CaptureWriter, Followed};
use exact_io::PromptWriter;
use std::io;
use std::io::{ErrorKind, Write};

/// An output of the frames out, with a buffer.
pub trait SentOutput: Write {
    ghost use Rattle.std.specs.declared.io.ErrorKind.{ErrorKind};

    /// Why a write or a delivery failed, if one did.
    ghost cause: { Self → Option ErrorKind };

    /// The stream that the file has, or of which it has the capture, where that is known.
    ghost got: { Self → Option (List ℕ) };

    /// The file has all that was written.
    ghost IsDelivered: { Self → Type 0 };

    /// Returns why a write or a delivery failed, if one did.
    fn cause(&self) -> Option<ErrorKind>
        ensures { result ≡ cause self.now };

    /// Hands all that was written on to the file.
    fn deliver(&mut self) -> io::Result<()>
        ensures whole { OnOk result (Keeps (Self.contents self.old) (got self.new)) }
        ensures delivered { OnOk result (IsDelivered self.new) }
        ensures begins { IsBeginningOf (got self.new) (Self.contents self.old) }
        ensures remembered { MatchResult result (λ _. cause self.new ≡ None)
            (λ e. cause self.new ≡ Some (error_kind e)) };
}

impl<W: Write + Drop> SentOutput for PromptWriter<W> {
    ghost use Rattle.exact_io.specs.Waiting.{behind, failure_of, waiting};
    ghost use Rattle.std.specs.Prelude.{[]};

    ghost cause = { failure_of };

    ghost got = { λ w. W.contents (behind w) };

    ghost IsDelivered = { λ w. waiting w ≡ [] };

    fn cause(&self) -> Option<ErrorKind> {
        self.failure()
    }

    fn deliver(&mut self) -> io::Result<()> {
        self.flush()
    }
}

impl<W: Write + Drop, T: Followed> SentOutput for CaptureWriter<W, T> {
    ghost use Rattle.std.specs.Prelude.{[]};
    ghost use Rattle.exact_io.specs.Waiting.{waiting};
    ghost use Rattle.captures.specs.Reached.{reached_by};

    ghost cause = { λ w. w.failure };

    ghost got = { λ w. reached_by w.failure (waiting w.output) (T.handed w.trail) };

    ghost IsDelivered = { λ w. (w.failure ≡ None) × (waiting w.output ≡ []) };

    fn cause(&self) -> Option<ErrorKind> {
        self.failure()
    }

    fn deliver(&mut self) -> io::Result<()> {
        self.flush()
    }
}
