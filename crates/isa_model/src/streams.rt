//! How streams of packet frames end.

ghost use Rattle.std.specs.Prelude.{◌≡◌, ◌≤◌, Some, length};
ghost use Rattle.isa_model.specs.Reporting.Messages.{code_of, sentence_of};

use std::error::Error;
use std::fmt;

/// Says what is wrong with a frame stream.
#[derive(Clone, Copy, PartialEq, Eq, Debug)]
pub enum Fault {
    /// Fewer than 4 bytes, or another magic than `XPF1` and `XPF2`.
    BadMagic,
    /// 1 to 19 bytes of a record's head, or to 23 in `XPF2`.
    TruncatedHead,
    /// A length over 4,096, or over 9,216 in `XPF2`.
    TooLong,
    /// Fewer bytes of the body than the length.
    TruncatedBody,
    /// The reader returned an error.
    ReadFailed,
    /// A record begins after 4,294,967,295 records.
    TooManyRecords,
}

impl Fault {
    /// Its code in docs/REFUSALS.md and in reports, such as `F1`.
    pub fn code(self) -> &'static str
        ensures code { result.now ≡ code_of self }
        ensures short { length result.now ≤ 8 }
    {
        match self {
            Fault::BadMagic => "F1",
            Fault::TruncatedHead => "F2",
            Fault::TooLong => "F3",
            Fault::TruncatedBody => "F4",
            Fault::ReadFailed => "F5",
            Fault::TooManyRecords => "F6",
        }
    }

    /// Returns what is wrong, in a sentence.
    pub fn sentence(self) -> &'static str
        ensures { result.now ≡ sentence_of self }
    {
        match self {
            Fault::BadMagic => "the stream does not begin with XPF1 or XPF2",
            Fault::TruncatedHead => "the stream ends within the head of a record",
            Fault::TooLong => "the frame is longer than 4096 bytes, or than 9216 in XPF2",
            Fault::TruncatedBody => "the stream ends within the bytes of a frame",
            Fault::ReadFailed => "the stream cannot be read",
            Fault::TooManyRecords => "the stream has more than 4294967295 records",
        }
    }
}

/// Writes the sentence.
impl fmt::Display for Fault {
    ghost output = { λ fault. Some (sentence_of fault) };

    fn fmt<W: fmt::Write>(&self, f: &mut fmt::Formatter<W>) -> fmt::Result {
        f.write_str(self.sentence())
    }
}

impl Error for Fault {}

/// Says how a stream ends: at its end, or by a fault in the record that begins at an offset in
/// bytes (0 while the magic is read).
#[derive(Clone, Copy)]
pub enum Finish {
    End,
    Fault(Fault, u64),
}
