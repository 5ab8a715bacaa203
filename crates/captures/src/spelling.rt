//! Spells the records of a frame stream at the front of a buffer.

ghost use Rattle.std.specs.Prelude.{◌≡◌, ◌+◌, ◌++◌, ◌≤◌, ◌<◌, length, take};
ghost use Rattle.isa_model.specs.declared.versions.Version.TheVariants.{Two};
ghost use Rattle.isa_model.specs.Code.Versions.{stream_magic};
ghost use Rattle.isa_model.specs.Code.Limits.{max_packet};
ghost use Rattle.isa_model.specs.Reporting.Streams.{head_bytes, record_bytes};
ghost use Rattle.captures.specs.FrameBytes.{end_bytes, frame_of};
ghost use Rattle.captures.specs.Packets.{packet_with};

use super::packets::{CapturedHead, PacketEnd, PacketFault};
use byteorder::{ByteOrder, LittleEndian};
use isa_model::{FrameHead, MAX_PACKET};

/// The most bytes of a record.
pub const RECORD: usize = 24 + MAX_PACKET;

const NO_HEAD: FrameHead = FrameHead {
    time: 0,
    interface: 0,
    queue: 0,
};

// The bytes before a frame of this length.
#[inline(always)]
fn record_head(head: &FrameHead, length: u32, reason: u32) -> [u8; 24]
    ensures { result ≡ head_bytes Two head.now length reason }
{
    let mut bytes = [0; 24];
    LittleEndian::write_u64(&mut bytes, head.time);
    LittleEndian::write_u32(&mut bytes[8..], head.interface);
    LittleEndian::write_u32(&mut bytes[12..], head.queue);
    LittleEndian::write_u32(&mut bytes[16..], length);
    LittleEndian::write_u32(&mut bytes[20..], reason);
    bytes
}

// Puts a head to the front, and a frame after it.
#[inline(always)]
fn put_parts(held: &mut [u8], head: &[u8; 24], frame: &[u8])
    requires { 24 + length frame.now ≤ length held.old }
    ensures { take (24 + length frame.now) held.new ≡ head.now ++ frame.now }
{
    held[..24].copy_from_slice(head);
    held[24..24 + frame.len()].copy_from_slice(frame);
}

/// Spells the record of a packet with this frame, and returns how many bytes it has.
#[inline(always)]
pub fn put_record(held: &mut [u8; RECORD], head: &CapturedHead, frame: &[u8]) -> usize
    ensures inside { result ≤ 24 + max_packet }
    ensures some { 0 < result }
    ensures bytes { take result held.new
        ≡ record_bytes Two (frame_of (packet_with head.now frame.now)) }
{
    if frame.len() > MAX_PACKET {
        put_parts(held, &record_head(&head.head, 0, u32::MAX), &[]);
        return 24;
    }
    let own = record_head(&head.head, frame.len() as u32, head.reason);
    put_parts(held, &own, frame);
    24 + frame.len()
}

/// Spells the magic of a stream, and returns how many bytes it has.
pub fn put_magic(held: &mut [u8; RECORD]) -> usize
    ensures inside { result ≤ 24 + max_packet }
    ensures bytes { take result held.new ≡ stream_magic Two }
{
    held[..4].copy_from_slice(b"XPF2");
    4
}

/// Spells what stands where the packets end, and returns how many bytes it has.
#[cold]
#[inline(never)]
pub fn put_end(held: &mut [u8; RECORD], end: PacketEnd) -> usize
    ensures inside { result ≤ 24 + max_packet }
    ensures bytes { take result held.new ≡ end_bytes end }
{
    match end {
        PacketEnd::End => 0,
        PacketEnd::Fault(PacketFault::TruncatedRecord, _) => {
            held[..1].copy_from_slice(&[0]);
            1
        }
        PacketEnd::Fault(PacketFault::TruncatedPacket, _) => {
            put_parts(held, &record_head(&NO_HEAD, 1, 0), &[]);
            24
        }
        PacketEnd::Fault(
            PacketFault::TooLong
            | PacketFault::BadBlock
            | PacketFault::UnknownInterface
            | PacketFault::UnknownInterfaceLink
            | PacketFault::TooManyInterfaces,
            _,
        ) => {
            put_parts(held, &record_head(&NO_HEAD, u32::MAX, 0), &[]);
            24
        }
    }
}
