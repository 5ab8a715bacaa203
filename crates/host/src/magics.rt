//! The magic of the frames out.
ghost use Rattle.std.specs.Prelude.{OnOk, OnErr};
ghost use Rattle.std.specs.Io.KnownBytes.{Appends};
ghost use Rattle.isa_model.specs.Code.Versions.{stream_magic};
ghost use Rattle.exact_io.specs.Transfers.{AppendsBeginning};

use exact_io::write_bytes;
use isa_model::Version;
use std::io;
use std::io::Write;

/// Writes the magic of a stream of this version.
pub fn write_magic<W: Write>(out: &mut W, stream: Version) -> io::Result<()>
    ensures ok { OnOk result (Appends (W.contents out.old) (W.contents out.new)
        (stream_magic stream)) }
    ensures err { OnErr result (AppendsBeginning (W.contents out.old) (W.contents out.new)
        (stream_magic stream)) }
{
    match stream {
        Version::One => write_bytes(out, b"XPF1"),
        Version::Two => write_bytes(out, b"XPF2"),
    }
}
