//! Takes what a whole record at the front of a block says.

ghost use Rattle.std.specs.Prelude.{◌≡◌, ◌≤◌, length, take, Ok};
ghost use Rattle.captures.specs.Captured.{head_size, record_said, record_size};
ghost use Rattle.captures.specs.Packets.{IsFrameIn, said_with};

use super::blocks::{block_size, take_block};
use super::forms::{CaptureFormat, MAX_CAPTURED, number_at};
use super::interfaces::Interfaces;
use super::packets::{FramedPacket, PacketFault, take_packet};

/// Says what a record has.
#[derive(Clone, Copy)]
pub enum TakenRecord {
    /// A packet, with its Ethernet frame in the block.
    Packet(FramedPacket),
    /// No packet. The next record has this format.
    Passed(CaptureFormat),
}

/// Returns how many bytes a record has that begins with these, or why it is none.
#[inline(always)]
pub fn record_size(format: CaptureFormat, head: &[u8]) -> Result<usize, PacketFault>
    requires { head_size format ≤ length head.now }
    ensures { result ≡ record_size format head.now }
{
    match format {
        CaptureFormat::Pcap(form) => {
            let length = number_at(form.order, head, 8) as usize;
            if length > MAX_CAPTURED {
                Err(PacketFault::TooLong)
            } else {
                Ok(16 + length)
            }
        }
        CaptureFormat::Pcapng(form) => block_size(form.order, head),
    }
}

/// Takes what the record of this size at the front of a block says. The Ethernet frame of a packet
/// is made in the block.
#[inline(always)]
pub fn take_record(
    format: CaptureFormat,
    interfaces: &mut Interfaces,
    block: &mut [u8],
    size: usize,
) -> Result<TakenRecord, PacketFault>
    requires room { size ≤ length block.old }
    requires size { record_size format (take size block.old) ≡ Ok size }
    ensures said { said_with format interfaces.new block.new result
        ≡ record_said format interfaces.old (take size block.old) }
    ensures inside { IsFrameIn (length block.new) result }
{
    match format {
        CaptureFormat::Pcap(form) => {
            Ok(TakenRecord::Packet(take_packet(form, &mut block[..size])))
        }
        CaptureFormat::Pcapng(form) => take_block(form, interfaces, &mut block[..size]),
    }
}
