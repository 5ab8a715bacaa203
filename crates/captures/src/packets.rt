//! The head of a packet record, and how a capture's packets end.

ghost use Rattle.std.specs.Prelude.{◌≡◌, ◌≤◌, length};
ghost use Rattle.captures.specs.Pcap.{packet_of, packet_size};
ghost use Rattle.captures.specs.Packets.{framed_packet};
ghost use Rattle.captures.specs.Damage.{damage_of};

use super::forms::{PcapForm, number_at};
use super::links::{interface_of, settle};
use isa_model::FrameHead;

/// Says what a packet record says of its packet beside the bytes.
#[derive(Clone, Copy)]
pub struct CapturedHead {
    /// Its time and interface.
    pub head: FrameHead,
    /// How many bytes of the packet were captured.
    pub captured: u32,
    /// How many bytes it had on the wire.
    pub original: u32,
    /// Why it is not run, or 0.
    pub reason: u32,
}

/// Says what a record says of its packet, and where in a block its Ethernet frame begins and ends.
#[derive(Clone, Copy)]
pub struct FramedPacket {
    pub head: CapturedHead,
    pub from: usize,
    pub to: usize,
}

/// Says what is wrong with the records of a capture.
#[derive(Clone, Copy)]
pub enum PacketFault {
    /// Fewer bytes than the head of a record has.
    TruncatedRecord,
    /// A packet of over 262,144 bytes in a pcap file, or a block of over 4,194,304.
    TooLong,
    /// Fewer bytes than the record has by its head.
    TruncatedPacket,
    /// A block that is not one by its lengths or its byte-order magic.
    BadBlock,
    /// A packet of an interface that its section has not described.
    UnknownInterface,
    /// A packet of an interface with a link type that is not read.
    UnknownInterfaceLink,
    /// A section with more than 4,096 interfaces.
    TooManyInterfaces,
}

/// Says how a capture's packets end: at its end, or by a fault in the record that begins at an
/// offset in bytes.
#[derive(Clone, Copy)]
pub enum PacketEnd {
    End,
    Fault(PacketFault, u64),
}

/// Says what is wrong with a capture, and where: its record that begins at an offset in bytes.
#[derive(Clone, Copy)]
pub struct CaptureDamage {
    pub fault: PacketFault,
    pub offset: u64,
}

impl PacketEnd {
    /// Returns what is wrong with the capture, if its packets end by a fault.
    pub fn damage(self) -> Option<CaptureDamage>
        ensures { result ≡ damage_of self }
    {
        match self {
            PacketEnd::End => None,
            PacketEnd::Fault(fault, offset) => Some(CaptureDamage { fault, offset }),
        }
    }
}

/// Returns what a record of a pcap file says of its packet, and where the Ethernet frame is that is
/// made of the bytes.
#[inline(always)]
pub fn take_packet(form: PcapForm, bytes: &mut [u8]) -> FramedPacket
    requires head { 16 ≤ length bytes.old }
    requires size { length bytes.old ≡ packet_size form bytes.old }
    ensures ordered { result.from ≤ result.to }
    ensures inside { result.to ≤ length bytes.new }
    ensures packet { framed_packet bytes.new result ≡ packet_of form bytes.old }
{
    let seconds = number_at(form.order, bytes, 0) as u64;
    let fraction = number_at(form.order, bytes, 4) as u64;
    let captured = number_at(form.order, bytes, 8);
    let original = number_at(form.order, bytes, 12);
    let end = bytes.len();
    let interface = interface_of(form.link, 0, &bytes[16..end]);
    let time = seconds * 1_000_000_000 + fraction * form.unit.nanoseconds();
    let head = FrameHead {
        time,
        interface,
        queue: 0,
    };
    let (from, to) = settle(form.link, bytes, 16, end);
    FramedPacket {
        head: CapturedHead {
            head,
            captured,
            original,
            reason: 0,
        },
        from,
        to,
    }
}
