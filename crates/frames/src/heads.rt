//! The bytes before a record's body: u64 time, u32 interface, u32 queue, u32 length of the body,
//! and in `XPF2` u32 reason.
ghost use Rattle.std.specs.Prelude.{◌≡◌, ◌+◌, ◌≤◌, true, length};
ghost use Rattle.isa_model.specs.declared.versions.Version.TheVariants.{One, Two};
ghost use Rattle.isa_model.specs.Code.Versions.{head_size};
ghost use Rattle.isa_model.specs.Reporting.Streams.{head_bytes, length_field, ReasonFits};

use byteorder::{ByteOrder, LittleEndian};
use isa_model::{FrameHead, Version};

/// The head that these bytes spell, the length of the body after it, and the packet frame's reason,
/// which is 0 in `XPF1`.
pub fn decode_head(version: Version, bytes: &[u8]) -> (FrameHead, u32, u32)
    requires { length bytes.now ≡ head_size version }
    ensures spelled { head_bytes version result.0 result.1 result.2 ≡ bytes.now }
    ensures field { length_field bytes.now ≡ result.1 }
    ensures reason { ReasonFits version result.2 }
{
    let head = FrameHead {
        time: LittleEndian::read_u64(bytes),
        interface: LittleEndian::read_u32(&bytes[8..]),
        queue: LittleEndian::read_u32(&bytes[12..]),
    };
    let length = LittleEndian::read_u32(&bytes[16..]);
    match version {
        Version::One => (head, length, 0),
        Version::Two => (head, length, LittleEndian::read_u32(&bytes[20..])),
    }
}

/// Returns whether these bytes begin with all bytes of a record, by the length in its head.
pub fn holds_record(version: Version, bytes: &[u8]) -> bool
    ensures { result ≡ true → head_size version + length_field bytes.now ≤ length bytes.now }
{
    let head = version.head_size();
    if bytes.len() < head {
        return false;
    }
    let length = LittleEndian::read_u32(&bytes[16..]) as usize;
    length <= bytes.len() - head
}

/// The 20 bytes before a body of `length` bytes, without a reason.
pub fn encode_head(head: &FrameHead, length: u32) -> [u8; 20]
    ensures { result ≡ head_bytes One head.now length 0 }
{
    let mut bytes = [0; 20];
    LittleEndian::write_u64(&mut bytes, head.time);
    LittleEndian::write_u32(&mut bytes[8..], head.interface);
    LittleEndian::write_u32(&mut bytes[12..], head.queue);
    LittleEndian::write_u32(&mut bytes[16..], length);
    bytes
}

/// The 24 bytes before a body of `length` bytes, with a reason.
pub fn encode_head2(head: &FrameHead, length: u32, reason: u32) -> [u8; 24]
    ensures { result ≡ head_bytes Two head.now length reason }
{
    let mut bytes = [0; 24];
    LittleEndian::write_u64(&mut bytes, head.time);
    LittleEndian::write_u32(&mut bytes[8..], head.interface);
    LittleEndian::write_u32(&mut bytes[12..], head.queue);
    LittleEndian::write_u32(&mut bytes[16..], length);
    LittleEndian::write_u32(&mut bytes[20..], reason);
    bytes
}
