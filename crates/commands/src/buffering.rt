//! The buffer in front of standard output.

ghost use Rattle.std.specs.Prelude.{◌≡◌, [], None, IfOk, if◌then◌else◌};
ghost use Rattle.exact_io.specs.Waiting.{behind, failure_of, prompt_left, waiting};

use exact_io::PromptWriter;
use std::alloc::Global;
use std::io;
use std::io::Write;

// How many bytes of standard output are written at a time, if nobody sees when they come.
const BUFFER: usize = 64 * 1024;

// Standard output without a buffer: each write goes through immediately, and no memory is taken.
fn unbuffered<W: Write + Drop>(alloc: Global, out: W) -> io::Result<PromptWriter<W>>
    ensures behind { IfOk result (λ w. behind w ≡ out) }
    ensures empty { IfOk result (λ w. waiting w ≡ []) }
    ensures prompt { IfOk result (λ w. prompt_left w ≡ usize.MAX) }
    ensures sound { IfOk result (λ w. failure_of w ≡ None) }
{
    PromptWriter::new(alloc, 0, usize::MAX, out)
}

/// Puts the buffer in front of standard output. If nobody sees when bytes come, as with a file on a
/// disk, they are written in parts of 64 KiB; otherwise each write goes through immediately.
pub fn buffered<W: Write + Drop>(
    alloc: Global,
    is_unwatched: bool,
    out: W,
) -> io::Result<PromptWriter<W>>
    ensures behind { IfOk result (λ w. behind w ≡ out) }
    ensures empty { IfOk result (λ w. waiting w ≡ []) }
    ensures prompt { IfOk result
        (λ w. prompt_left w ≡ (if is_unwatched then 0 else usize.MAX)) }
    ensures sound { IfOk result (λ w. failure_of w ≡ None) }
{
    if is_unwatched {
        PromptWriter::new(alloc, BUFFER, 0, out)
    } else {
        unbuffered(alloc, out)
    }
}

/// Puts the buffer in front of standard output that is a pipe. The first byte goes through
/// immediately, so that a pipe without a reader is found before frames are written out; the others
/// are written in parts of 64 KiB, or when they are flushed.
pub fn piped<W: Write + Drop>(alloc: Global, out: W) -> io::Result<PromptWriter<W>>
    ensures behind { IfOk result (λ w. behind w ≡ out) }
    ensures empty { IfOk result (λ w. waiting w ≡ []) }
    ensures prompt { IfOk result (λ w. prompt_left w ≡ 1) }
    ensures sound { IfOk result (λ w. failure_of w ≡ None) }
{
    PromptWriter::new(alloc, BUFFER, 1, out)
}
