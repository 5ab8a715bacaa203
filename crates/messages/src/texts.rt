//! Texts that are written one after another.

ghost use Rattle.std.specs.Prelude.{◌++◌, OnOk, OnErr};
ghost use Rattle.std.specs.Io.KnownBytes.{Appends};
ghost use Rattle.exact_io.specs.Transfers.{AppendsBeginning};

use exact_io::write_bytes;
use std::io;
use std::io::Write;

/// Writes three texts, one after another.
pub fn write_texts<W: Write>(out: &mut W, front: &str, middle: &str, back: &str) -> io::Result<()>
    ensures ok { OnOk result
        (Appends (W.contents out.old) (W.contents out.new)
        (front.now ++ (middle.now ++ back.now))) }
    ensures err { OnErr result
        (AppendsBeginning (W.contents out.old) (W.contents out.new)
        (front.now ++ (middle.now ++ back.now))) }
{
    write_bytes(out, front.as_bytes())?;
    write_bytes(out, middle.as_bytes())?;
    write_bytes(out, back.as_bytes())
}
