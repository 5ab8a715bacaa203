//! Why a file or an output failed: what is said of it on standard error.

ghost use Rattle.std.specs.Prelude.{◌≡◌, OnOk, OnErr};
ghost use Rattle.std.specs.Io.KnownBytes.{Appends};
ghost use Rattle.exact_io.specs.Transfers.{AppendsBeginning};
ghost use Rattle.messages.specs.Causes.{cause_line, line_after, conflict_line, unread_text, unwritten_text, conflict_text};

use crate::names::{dash_line, write_named};
use exact_io::write_bytes;
use std::io;
use std::io::{ErrorKind, Write};

/// Names standard output in messages.
pub const STANDARD_OUTPUT: &str = "standard output";

/// The end of a line that names a file, and then a line with the cause.
pub fn cause_line(kind: ErrorKind) -> &'static str
    ensures { result.now ≡ cause_line kind }
{
    match kind {
        ErrorKind::NotFound => "\nno such file or folder\n",
        ErrorKind::PermissionDenied => "\npermission denied\n",
        ErrorKind::IsADirectory => "\nit is a folder\n",
        ErrorKind::NotADirectory => "\na part of the path is not a folder\n",
        ErrorKind::AlreadyExists => "\nit already exists\n",
        ErrorKind::ReadOnlyFilesystem => "\nthe file system is read-only\n",
        ErrorKind::FilesystemLoop => "\nthe path has a loop of links\n",
        ErrorKind::InvalidFilename => "\nthe name is not valid\n",
        ErrorKind::InvalidInput => "\nthe path or the request is not valid\n",
        ErrorKind::StorageFull => "\nno space is left\n",
        ErrorKind::QuotaExceeded => "\nthe quota is used up\n",
        ErrorKind::FileTooLarge => "\nthe file is too large\n",
        ErrorKind::ResourceBusy => "\nit is in use\n",
        ErrorKind::ExecutableFileBusy => "\nit is a running program\n",
        ErrorKind::BrokenPipe => "\nits reader has closed it\n",
        ErrorKind::WriteZero => "\nno byte was written\n",
        ErrorKind::Interrupted => "\nthe call was interrupted\n",
        ErrorKind::WouldBlock => "\nthe call would block\n",
        ErrorKind::TimedOut => "\nit timed out\n",
        ErrorKind::Unsupported => "\nthe operation is not supported\n",
        ErrorKind::OutOfMemory => "\nout of memory\n",
        ErrorKind::ConnectionRefused
        | ErrorKind::ConnectionReset
        | ErrorKind::HostUnreachable
        | ErrorKind::NetworkUnreachable
        | ErrorKind::ConnectionAborted
        | ErrorKind::NotConnected
        | ErrorKind::AddrInUse
        | ErrorKind::AddrNotAvailable
        | ErrorKind::NetworkDown
        | ErrorKind::DirectoryNotEmpty
        | ErrorKind::StaleNetworkFileHandle
        | ErrorKind::InvalidData
        | ErrorKind::NotSeekable
        | ErrorKind::Deadlock
        | ErrorKind::CrossesDevices
        | ErrorKind::TooManyLinks
        | ErrorKind::ArgumentListTooLong
        | ErrorKind::UnexpectedEof
        | ErrorKind::InProgress
        | ErrorKind::Other
        | ErrorKind::Uncategorized => "\nthe system gave another error\n",
    }
}

/// The end of the line, and the line with the cause if it is known.
pub fn line_after(cause: Option<ErrorKind>) -> &'static str
    ensures { result.now ≡ line_after cause }
{
    match cause {
        None => "\n",
        Some(kind) => cause_line(kind),
    }
}

/// Says why a file must not be written over.
#[derive(Clone, Copy)]
pub enum Conflict {
    /// It is one of the files that are read.
    IsRead,
    /// It is the pipe that standard output is.
    IsStandardOutput,
    /// It is another output of the same run.
    IsWritten,
    /// It is the name that other programs take for standard output.
    IsDash,
}

/// The end of a line that names such a file, and a line that says why.
pub fn conflict_line(conflict: Conflict) -> &'static str
    ensures { result.now ≡ conflict_line conflict }
{
    match conflict {
        Conflict::IsRead => "\nit is one of the files that are read\n",
        Conflict::IsStandardOutput => "\nit is the pipe that the report is written to\n",
        Conflict::IsWritten => "\nit is another output of this run\n",
        Conflict::IsDash => "\nstandard output is /dev/stdout\n",
    }
}

/// Says that a file cannot be read.
pub fn say_unread<W: Write>(err: &mut W, path: &str, kind: ErrorKind) -> io::Result<()>
    ensures ok { OnOk result
        (Appends (W.contents err.old) (W.contents err.new) (unread_text path.now kind)) }
    ensures err { OnErr result
        (AppendsBeginning (W.contents err.old) (W.contents err.new) (unread_text path.now kind)) }
{
    write_named(err, "cannot read ", path, cause_line(kind))?;
    write_bytes(err, dash_line(path).as_bytes())
}

/// Says that a file or an output cannot be written, and why, if the cause is known.
pub fn say_failed_write<W: Write>(
    err: &mut W,
    name: &str,
    cause: Option<ErrorKind>,
) -> io::Result<()>
    ensures ok { OnOk result
        (Appends (W.contents err.old) (W.contents err.new) (unwritten_text name.now cause)) }
    ensures err { OnErr result (AppendsBeginning (W.contents err.old) (W.contents err.new)
        (unwritten_text name.now cause)) }
{
    write_named(err, "cannot write ", name, line_after(cause))
}

/// Says that a file must not be written over, and why.
pub fn say_conflict<W: Write>(err: &mut W, path: &str, conflict: Conflict) -> io::Result<()>
    ensures ok { OnOk result
        (Appends (W.contents err.old) (W.contents err.new) (conflict_text path.now conflict)) }
    ensures err { OnErr result (AppendsBeginning (W.contents err.old) (W.contents err.new)
        (conflict_text path.now conflict)) }
{
    write_named(err, "cannot write ", path, conflict_line(conflict))
}
