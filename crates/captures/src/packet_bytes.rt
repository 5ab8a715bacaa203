//! Spells the packets of a capture that is written, and what stands before them.

ghost use Rattle.std.specs.Prelude.{◌≡◌, ◌-◌, ◌++◌, ◌≤◌, ◌<◌, ◌^◌, length, take};
ghost use Rattle.byteorder.specs.Endian.{little_bytes};
ghost use Rattle.isa_model.specs.Code.Limits.{max_packet};
ghost use Rattle.captures.specs.Pcapng.{max_interfaces, padded};
ghost use Rattle.captures.specs.CaptureBytes.{block_head, named_interface, packet_block, packet_head, packet_options, pcap_packet, reason_options};

use super::kinds::MAX_DESCRIBED;
use super::pieces::put;
use byteorder::{ByteOrder, LittleEndian};
use isa_model::{FrameHead, MAX_PACKET};
use itoa::Buffer;

/// The most bytes of the options of a packet.
const MAX_OPTIONS: usize = 28;

/// The most bytes of a packet with all that stands around it.
pub const SPELLED: usize = 28 + MAX_PACKET + MAX_OPTIONS + 4;

const NANOSECONDS: u64 = 1_000_000_000;

/// The head of a pcap file.
pub const PCAP_HEAD: [u8; 24] = [
    0x4d, 0x3c, 0xb2, 0xa1, 2, 0, 4, 0, 0, 0, 0, 0, 0, 0, 0, 0, 0, 0, 4, 0, 1, 0, 0, 0,
];

/// What a pcapng file begins with: a section, and an interface.
pub const PCAPNG_START: [u8; 60] = [
    0x0a, 0x0d, 0x0d, 0x0a, 28, 0, 0, 0, 0x4d, 0x3c, 0x2b, 0x1a, 1, 0, 0, 0, 255, 255, 255, 255,
    255, 255, 255, 255, 28, 0, 0, 0, 1, 0, 0, 0, 32, 0, 0, 0, 1, 0, 0, 0, 0, 0, 0, 0, 9, 0, 1, 0,
    9, 0, 0, 0, 0, 0, 0, 0, 32, 0, 0, 0,
];

/// The block that describes an interface.
pub const INTERFACE_BLOCK: [u8; 32] = [
    1, 0, 0, 0, 32, 0, 0, 0, 1, 0, 0, 0, 0, 0, 0, 0, 9, 0, 1, 0, 9, 0, 0, 0, 0, 0, 0, 0, 32, 0, 0,
    0,
];

const ZEROS: [u8; 4] = [0; 4];

// The bytes before a packet of this length in a pcap file.
#[inline(always)]
fn packet_head(time: u64, size: u32) -> [u8; 16]
    ensures { result ≡ packet_head time size }
{
    let second = (time / NANOSECONDS % 0x1_0000_0000) as u32;
    let nanosecond = (time % NANOSECONDS) as u32;
    let mut bytes = [0; 16];
    LittleEndian::write_u32(&mut bytes, second);
    LittleEndian::write_u32(&mut bytes[4..], nanosecond);
    LittleEndian::write_u32(&mut bytes[8..], size);
    LittleEndian::write_u32(&mut bytes[12..], size);
    bytes
}

// The bytes before a packet of this length in a block of `total` bytes.
#[inline(always)]
fn block_head(total: u32, time: u64, interface: u32, size: u32) -> [u8; 28]
    ensures { result ≡ block_head total time interface size }
{
    let high = (time / 0x1_0000_0000) as u32;
    let low = (time % 0x1_0000_0000) as u32;
    let mut bytes = [0; 28];
    LittleEndian::write_u32(&mut bytes, 6);
    LittleEndian::write_u32(&mut bytes[4..], total);
    LittleEndian::write_u32(&mut bytes[8..], interface);
    LittleEndian::write_u32(&mut bytes[12..], high);
    LittleEndian::write_u32(&mut bytes[16..], low);
    LittleEndian::write_u32(&mut bytes[20..], size);
    LittleEndian::write_u32(&mut bytes[24..], size);
    bytes
}

// The bytes of a number.
#[inline(always)]
fn number_bytes(number: u32) -> [u8; 4]
    ensures { result ≡ little_bytes 4 number }
{
    let mut bytes = [0; 4];
    LittleEndian::write_u32(&mut bytes, number);
    bytes
}

// The code and the length of an option.
fn option_head(code: u16, size: u16) -> [u8; 4]
    ensures { result ≡ little_bytes 2 code ++ little_bytes 2 size }
{
    let mut bytes = [0; 4];
    LittleEndian::write_u16(&mut bytes, code);
    LittleEndian::write_u16(&mut bytes[2..], size);
    bytes
}

// How many bytes pad a value of this length to 32 bits.
#[inline(always)]
fn padding_of(size: usize) -> usize
    requires { size < 2 ^ 32 }
    ensures size { result ≡ padded size - size }
    ensures few { result ≤ 3 }
{
    (4 - size % 4) % 4
}

// Puts the options of a packet with a reason to the front.
#[cold]
#[inline(never)]
fn put_reason(buffer: &mut [u8; MAX_OPTIONS], reason: u32) -> usize
    ensures front { take result buffer.new ≡ reason_options reason }
    ensures size { result ≡ length (reason_options reason) }
    ensures few { result ≤ 28 }
{
    let mut digits = Buffer::new();
    let text = digits.format(reason);
    let size = 7 + text.len();
    let at = put(buffer, 0, &option_head(1, size as u16));
    let at = put(buffer, at, b"reason ");
    let at = put(buffer, at, text.as_bytes());
    let at = put(buffer, at, &ZEROS[..padding_of(size)]);
    put(buffer, at, &ZEROS)
}

// Puts the options of a packet to the front.
#[inline(always)]
#[tactic(auto, unfolding(crate::specs::CaptureBytes::packet_options))]
fn put_options(buffer: &mut [u8; MAX_OPTIONS], reason: u32) -> usize
    ensures front { take result buffer.new ≡ packet_options reason }
    ensures size { result ≡ length (packet_options reason) }
    ensures few { result ≤ 28 }
{
    if reason == 0 {
        return 0;
    }
    put_reason(buffer, reason)
}

/// Spells a packet of a pcap file at the front of a buffer, and returns how many bytes it has.
#[inline(always)]
pub fn spell_packet(buffer: &mut [u8; SPELLED], head: &FrameHead, body: &[u8]) -> usize
    requires { length body.now ≤ max_packet }
    ensures bytes { take result buffer.new
        ≡ pcap_packet (record { head = head.now; body = body.now; reason = 0 }) }
    ensures inside { result ≤ length buffer.new }
{
    let at = put(buffer, 0, &packet_head(head.time, body.len() as u32));
    put(buffer, at, body)
}

/// Spells the block of a packet of a pcapng file at the front of a buffer, and returns how many
/// bytes it has.
#[inline(always)]
pub fn spell_block(buffer: &mut [u8; SPELLED], head: &FrameHead, body: &[u8], reason: u32) -> usize
    requires { length body.now ≤ max_packet }
    ensures bytes { take result buffer.new
        ≡ packet_block (record { head = head.now; body = body.now; reason = reason }) }
    ensures inside { result ≤ length buffer.new }
{
    let mut options = [0; MAX_OPTIONS];
    let count = put_options(&mut options, reason);
    let size = body.len();
    let pads = padding_of(size);
    let total = (32 + size + pads + count) as u32;
    let interface = named_interface(head.interface);
    let at = put(
        buffer,
        0,
        &block_head(total, head.time, interface, size as u32),
    );
    let at = put(buffer, at, body);
    let at = put(buffer, at, &ZEROS[..pads]);
    let at = put(buffer, at, &options[..count]);
    put(buffer, at, &number_bytes(total))
}

/// Returns the interface that a packet's block names.
#[inline(always)]
pub fn named_interface(interface: u32) -> u32
    ensures number { result ≡ named_interface interface }
    ensures few { result < max_interfaces }
{
    if interface < MAX_DESCRIBED {
        interface
    } else {
        0
    }
}
