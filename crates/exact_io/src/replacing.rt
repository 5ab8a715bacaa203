//! An output that keeps what it had until something is written to it.

ghost use Rattle.std.specs.Prelude.{◌≡◌};

use std::fs::{OpenFile, OpenOptions};
use std::io;
use std::io::Write;
use std::rt::Files;

/// A file that is written anew. A file on a disk keeps what it had until it is emptied by the first
/// write, so that a task that ends before has lost nothing.
#[derive(Drop)]
pub struct Replaced<F> {
    file: F,
    /// Whether it still has what it had when it was opened.
    has_old: bool,
    /// Whether nothing may be all that it gets: then a flush empties it too.
    may_be_empty: bool,
}

impl<F: OpenFile> Replaced<F> {
    // Empties the file, unless that was done before.
    fn empty(&mut self) -> io::Result<()>
        ensures { self.new.file ≡ self.old.file }
    {
        if self.has_old {
            self.file.set_len(0)?;
            self.has_old = false;
        }
        Ok(())
    }
}

impl<F: OpenFile + Write> Write for Replaced<F> {
    ghost use Rattle.exact_io.specs.Replacing.{written};

    ghost contents = { written F.contents };

    fn write(&mut self, bytes: &[u8]) -> io::Result<usize> {
        self.empty()?;
        self.file.write(bytes)
    }

    fn flush(&mut self) -> io::Result<()> {
        if self.may_be_empty {
            self.empty()?;
        }
        self.file.flush()
    }
}

/// Opens a file to be written anew, which is made where there is none.
pub fn open_replaced<R: Files>(
    rt: &R,
    path: &str,
    may_be_empty: bool,
) -> io::Result<Replaced<R::File>> {
    let file = OpenOptions::new().write(true).create(true).open(rt, path)?;
    let has_old = file.metadata()?.is_file();
    Ok(Replaced {
        file,
        has_old,
        may_be_empty,
    })
}

/// Opens a file to be written behind what it has.
pub fn open_appended<R: Files>(rt: &R, path: &str) -> io::Result<Replaced<R::File>> {
    let file = OpenOptions::new().append(true).open(rt, path)?;
    Ok(Replaced {
        file,
        has_old: false,
        may_be_empty: false,
    })
}
