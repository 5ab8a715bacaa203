//! The versions of the formats.

ghost use Rattle.std.specs.Prelude.{◌≡◌, ◌≤◌};
ghost use Rattle.isa_model.specs.Code.Versions.{version_number, head_size};
ghost use Rattle.isa_model.specs.Code.Limits.{max_body};

use crate::limits::{MAX_PACKET, MAX_SHORT_PACKET};

/// The version of an image or of a frame stream, which its magic says: `XBP1` and `XPF1`, or `XBP2`
/// and `XPF2`.
#[derive(Clone, Copy, PartialEq, Eq)]
pub enum Version {
    One,
    Two,
}

impl Version {
    /// 1 or 2.
    pub fn number(self) -> u8
        ensures { result ≡ version_number self }
    {
        match self {
            Version::One => 1,
            Version::Two => 2,
        }
    }

    /// Returns how many bytes come before a record's body in a stream of this version.
    pub fn head_size(self) -> usize
        ensures size { result ≡ head_size self }
        ensures short { result ≤ 24 }
    {
        match self {
            Version::One => 20,
            Version::Two => 24,
        }
    }

    /// The most bytes that a packet frame's body has in a stream of this version.
    pub fn max_body(self) -> usize
        ensures most { result ≡ max_body self }
        ensures short { result ≤ MAX_PACKET }
    {
        match self {
            Version::One => MAX_SHORT_PACKET,
            Version::Two => MAX_PACKET,
        }
    }
}
