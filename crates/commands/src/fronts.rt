//! The source of packet frames, whose first bytes are read ahead.

ghost use Rattle.std.specs.Prelude.{◌≤◌, IfSome};
ghost use Rattle.frames.specs.Buffers.{buffered_remaining};
ghost use Rattle.messages.specs.Forms.{IsFileFormOf};

use super::screens::Screen;
use exact_io::Filled;
use frames::{Ahead, Buffered, FRONT, Source, fill};
use messages::{FileForm, file_form_of};
use std::io;
use std::io::{ErrorKind, Read};
use std::rt::{Clock, Files};

/// A source of packet frames. Once a read has failed, each later one fails too. A terminal shows
/// how much was read.
#[derive(Drop)]
pub struct Watched<'a, R: Files + Clock, S> {
    source: S,
    has_failed: bool,
    /// Says how many bytes were read so far.
    total: u64,
    screen: Screen<'a, R>,
}

impl<'a, R: Files + Clock, S> Watched<'a, R, S> {
    /// A source, before anything is read from it.
    pub fn new(source: S, screen: Screen<'a, R>) -> Self {
        Watched {
            source,
            has_failed: false,
            total: 0,
            screen,
        }
    }
}

impl<R: Files + Clock, S: Read> Read for Watched<'_, R, S> {
    ghost remaining = { λ r. S.remaining r.source };

    fn read(&mut self, buffer: &mut [u8]) -> io::Result<usize> {
        if self.has_failed {
            return Err(io::Error::from(ErrorKind::Other));
        }
        let count = match self.source.read(buffer) {
            Ok(count) => count,
            Err(error) => {
                self.has_failed = true;
                return Err(error);
            }
        };
        self.total = self.total.saturating_add(count as u64);
        if self.screen.is_due() {
            self.screen.show(self.total >> 10, "KiB of frames read");
        }
        Ok(count)
    }
}

// Reads the first bytes: how many there are, and what the file is by them.
fn read_front<S: Source>(source: &mut S, front: &mut [u8; FRONT]) -> (usize, FileForm)
    ensures form { IfSome (S.remaining source.old) (λ bytes. IsFileFormOf bytes result.1) }
    ensures count { result.0 ≤ 4 }
{
    match fill(source, front) {
        Filled::Whole => (FRONT, file_form_of(&front[..])),
        Filled::Ended(count) => (count, file_form_of(&front[..count])),
        Filled::Failed(count) => (count, FileForm::Unknown),
    }
}

/// A source with the bytes of the given one, and what the given one is by its first bytes. If
/// reading them failed, each later read of the given one has to fail too. `waits` says whether a
/// read of it may wait for bytes to come.
pub fn read_ahead<S: Read>(mut source: Buffered<S>, waits: bool) -> (Ahead<S>, FileForm)
    ensures { IfSome (buffered_remaining S.remaining source)
        (λ bytes. IsFileFormOf bytes result.1) }
{
    let mut front = [0; FRONT];
    let (count, form) = read_front(&mut source, &mut front);
    (Ahead::new(front, count, source, waits), form)
}
