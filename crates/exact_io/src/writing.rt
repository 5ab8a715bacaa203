//! Writes bytes up to the first failure.
ghost use Rattle.std.specs.Prelude.{OnOk, OnErr};
ghost use Rattle.std.specs.Io.KnownBytes.{Appends};
ghost use Rattle.exact_io.specs.Transfers.{AppendsBeginning};

use std::io;
use std::io::{ErrorKind, Write};

/// Writes all the bytes.
///
/// The writer's first error, of any kind, is the failure and is returned; a write of no byte is the
/// failure `ErrorKind::WriteZero`. Nothing is tried again.
pub fn write_bytes<W: Write>(writer: &mut W, bytes: &[u8]) -> io::Result<()>
    ensures ok { OnOk result (Appends (W.contents writer.old) (W.contents writer.new) bytes.now) }
    ensures err { OnErr result
        (AppendsBeginning (W.contents writer.old) (W.contents writer.new) bytes.now) }
{
    let mut at = 0;
    while at < bytes.len() {
        match writer.write(&bytes[at..]) {
            Ok(0) => return Err(io::Error::from(ErrorKind::WriteZero)),
            Ok(n) => at += n,
            Err(error) => return Err(error),
        }
    }
    Ok(())
}
