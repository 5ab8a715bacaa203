//! How a task ended, and the message about it.

ghost use Rattle.std.specs.Prelude.{◌≡◌, ◌≢◌, true, OnOk, OnErr};
ghost use Rattle.std.specs.Io.KnownBytes.{Appends};
ghost use Rattle.std.specs.IoError.{error_kind};
ghost use Rattle.exact_io.specs.Transfers.{AppendsBeginning};
ghost use Rattle.commands.specs.Statuses.{status_of, is_silent, is_unsaid, message_of, IsWordsEnd, IsReadFailure, IsMakeFailure};
ghost use Rattle.commands.specs.Saying.{AppendsPart};
ghost use Rattle.commands.specs.Judging.{IsStoreFailure};

use exact_io::write_bytes;
use isa_model::Fault;
use messages::{
    Conflict, FileForm, Rejection, say_conflict, say_failed_write, say_fault, say_unread,
};
use std::io;
use std::io::{ErrorKind, Write};
use words::{NOT_UNICODE, WordsError};

const USAGE: &str = "usage: xdpvm asm|dis|verify|run|trace|prove|recheck\n";

/// Says how a task ended. A file or output that failed is named.
#[derive(Clone, Copy)]
pub enum TaskOutcome<'a> {
    Done,
    /// No command was given in full. The message says what is wrong, or is the help or the version.
    WrongWords(&'a str),
    /// The image, program, proof table or program text was refused, as standard output says.
    Refused(Rejection),
    /// The frame stream has this fault, as the report's last line says; its first bytes have this
    /// file form.
    Faulted(Fault, FileForm),
    /// The file at the path cannot be read.
    CannotRead(&'a str, ErrorKind),
    /// The file or output of this name cannot be written. If standard output failed while a report
    /// was written, the cause is known when it is flushed.
    CannotWrite(&'a str, Option<ErrorKind>),
    /// The file that was to be written must not be written over. It was left unchanged.
    CannotReplace(&'a str, Conflict),
    NoMemory,
}

impl<'a> TaskOutcome<'a> {
    /// No command was given in full, or memory ran out before that was known.
    pub fn of_words(error: &'a WordsError) -> Self
        ensures { IsWordsEnd error.now result }
    {
        match error {
            WordsError::Wrong(text) => TaskOutcome::WrongWords(text.as_str()),
            WordsError::NotUnicode => TaskOutcome::WrongWords(NOT_UNICODE),
            WordsError::Memory => TaskOutcome::NoMemory,
        }
    }

    /// A read of the file failed.
    pub fn of_read(path: &'a str, error: &io::Error) -> Self
        ensures memory { error_kind error.now ≡ ErrorKind.OutOfMemory
            → result ≡ TaskOutcome.NoMemory }
        ensures file { error_kind error.now ≢ ErrorKind.OutOfMemory
            → result ≡ TaskOutcome.CannotRead path.entry (error_kind error.now) }
        ensures failed { IsReadFailure path.now result }
    {
        match error.kind() {
            ErrorKind::OutOfMemory => TaskOutcome::NoMemory,
            kind => TaskOutcome::CannotRead(path, kind),
        }
    }

    /// A write to the file failed, or it could not be made.
    pub fn of_write(path: &'a str, error: &io::Error) -> Self
        ensures memory { error_kind error.now ≡ ErrorKind.OutOfMemory
            → result ≡ TaskOutcome.NoMemory }
        ensures file { error_kind error.now ≢ ErrorKind.OutOfMemory
            → result ≡ TaskOutcome.CannotWrite path.entry (Some (error_kind error.now)) }
        ensures unmade { IsMakeFailure path.now result }
        ensures unstored { IsStoreFailure path.now result }
    {
        match error.kind() {
            ErrorKind::OutOfMemory => TaskOutcome::NoMemory,
            kind => TaskOutcome::CannotWrite(path, Some(kind)),
        }
    }

    /// Returns whether it is known that nothing was written to standard output.
    pub(crate) fn is_silent(&self) -> bool
        ensures { result ≡ is_silent self.now }
    {
        match self {
            TaskOutcome::Done
            | TaskOutcome::Refused(_)
            | TaskOutcome::Faulted(_, _)
            | TaskOutcome::CannotWrite(_, _) => false,
            TaskOutcome::WrongWords(_)
            | TaskOutcome::CannotRead(_, _)
            | TaskOutcome::CannotReplace(_, _)
            | TaskOutcome::NoMemory => true,
        }
    }

    /// The program's status.
    pub(crate) fn status(self) -> u8
        ensures { result ≡ status_of self.entry }
    {
        match self {
            TaskOutcome::Done => 0,
            TaskOutcome::WrongWords(_) => 1,
            TaskOutcome::Refused(_) => 2,
            TaskOutcome::Faulted(_, _) => 3,
            TaskOutcome::CannotRead(_, _)
            | TaskOutcome::CannotWrite(_, _)
            | TaskOutcome::CannotReplace(_, _) => 4,
            TaskOutcome::NoMemory => 5,
        }
    }

    /// Says what went wrong.
    pub(crate) fn say<W: Write>(self, err: &mut W) -> io::Result<()>
        ensures ok { OnOk result
            (Appends (W.contents err.old) (W.contents err.new) (message_of self.entry)) }
        ensures err { OnErr result
            (AppendsBeginning (W.contents err.old) (W.contents err.new) (message_of self.entry)) }
        ensures unsaid { is_unsaid self.entry ≡ true → W.contents err.new ≡ W.contents err.old }
    {
        match self {
            TaskOutcome::Done => Ok(()),
            TaskOutcome::Faulted(fault, form) => say_fault(err, fault, form),
            TaskOutcome::Refused(rejection) => rejection.say(err),
            TaskOutcome::WrongWords(text) => {
                write_bytes(err, text.as_bytes())?;
                write_bytes(err, USAGE.as_bytes())
            }
            TaskOutcome::CannotRead(path, kind) => say_unread(err, path, kind),
            TaskOutcome::CannotWrite(name, cause) => say_failed_write(err, name, cause),
            TaskOutcome::CannotReplace(path, conflict) => say_conflict(err, path, conflict),
            TaskOutcome::NoMemory => write_bytes(err, b"out of memory\n"),
        }
    }

    /// Says on standard error what went wrong, and returns the program's status. A failure of
    /// standard error is not reported.
    pub fn tell<W: Write>(self, err: &mut W) -> u8
        ensures status { result ≡ status_of self.entry }
        ensures said { AppendsPart (W.contents err.old) (W.contents err.new)
            (message_of self.entry) }
        ensures unsaid { is_unsaid self.entry ≡ true → W.contents err.new ≡ W.contents err.old }
    {
        let _ = self.say(err);
        self.status()
    }
}
