//! The blocks of a pcapng file: how long one is, and what it says.

ghost use Rattle.std.specs.Prelude.{◌≡◌, ◌≤◌, ◌<◌, ◌^◌, Ok, length, slice_get};
ghost use Rattle.captures.specs.Links.{link_of};
ghost use Rattle.captures.specs.Pcapng.{block_order, block_said, block_size, least_size, packet_by, packet_reason, reason_by, said_in, section_order, simple_length, simple_packet, timed_packet};
ghost use Rattle.captures.specs.Captured.{said_of_block};
ghost use Rattle.captures.specs.Packets.{IsFrameIn, IsFramed, block_with, packet_framed, taken_by};

use super::forms::{
    CaptureFormat, LinkType, MAX_BLOCK, NumberOrder, PcapngForm, Reasons, is_section, number_at,
    short_at,
};
use super::interfaces::{Interface, Interfaces, interface_in};
use super::links::{interface_of, settle};
use super::packets::{CapturedHead, FramedPacket, PacketFault};
use super::reasons::reason_in;
use super::records::TakenRecord;
use byteorder::{BigEndian, ByteOrder, LittleEndian};
use isa_model::FrameHead;

const BYTE_ORDER_MAGIC: u32 = 0x1a2b_3c4d;

// The types of blocks.
const SECTION: u32 = 0x0a0d_0d0a;

const INTERFACE: u32 = 1;

const OLD_PACKET: u32 = 2;

const SIMPLE_PACKET: u32 = 3;

const ENHANCED_PACKET: u32 = 6;

// The order that the byte-order magic of a section says.
fn section_order(block: &[u8]) -> Option<NumberOrder>
    requires { 12 ≤ length block.now }
    ensures { result ≡ section_order block.now }
{
    if BigEndian::read_u32(&block[8..]) == BYTE_ORDER_MAGIC {
        Some(NumberOrder::HighFirst)
    } else if LittleEndian::read_u32(&block[8..]) == BYTE_ORDER_MAGIC {
        Some(NumberOrder::LowFirst)
    } else {
        None
    }
}

// The order of the numbers of a block in a section of this order.
#[inline(always)]
fn block_order(order: NumberOrder, block: &[u8]) -> Option<NumberOrder>
    requires { 12 ≤ length block.now }
    ensures { result ≡ block_order order block.now }
{
    if is_section(block) {
        section_order(block)
    } else {
        Some(order)
    }
}

// The fewest bytes that a block of this type has.
#[inline(always)]
fn least_size(kind: u32) -> u32
    ensures { result ≡ least_size kind }
{
    if kind == SECTION {
        28
    } else if kind == INTERFACE {
        20
    } else if kind == OLD_PACKET {
        32
    } else if kind == SIMPLE_PACKET {
        16
    } else if kind == ENHANCED_PACKET {
        32
    } else {
        12
    }
}

/// Returns how many bytes a block has whose first bytes these are, or why it is none.
#[inline(always)]
pub fn block_size(order: NumberOrder, block: &[u8]) -> Result<usize, PacketFault>
    requires { 12 ≤ length block.now }
    ensures { result ≡ block_size order block.now }
{
    let Some(order) = block_order(order, block) else {
        return Err(PacketFault::BadBlock);
    };
    let size = number_at(order, block, 4);
    if size < least_size(number_at(order, block, 0)) {
        return Err(PacketFault::BadBlock);
    }
    if size % 4 != 0 {
        return Err(PacketFault::BadBlock);
    }
    let size = size as usize;
    if size > MAX_BLOCK {
        return Err(PacketFault::TooLong);
    }
    Ok(size)
}

// Where the bytes of a packet begin in a block, how many these are, how many there were on the
// wire, and the packet's reason.
#[derive(Clone, Copy)]
struct PacketPlace {
    start: usize,
    captured: usize,
    original: u32,
    reason: u32,
}

// A packet whose bytes are at a place of the block.
#[inline(always)]
fn packet_by(
    interface: &Interface,
    number: u32,
    time: u64,
    place: PacketPlace,
    block: &mut [u8],
) -> Result<FramedPacket, PacketFault>
    requires start { place.start ≤ 28 }
    requires room { 12 ≤ place.start }
    requires captured { place.captured < 2 ^ 32 }
    ensures packet { packet_framed block.new result
        ≡ packet_by interface.now number time place.start place.captured place.original
        place.reason block.old (link_of interface.now.link) }
    ensures inside { IsFramed (length block.new) result }
{
    let Some(link) = LinkType::of(u32::from(interface.link)) else {
        return Err(PacketFault::UnknownInterfaceLink);
    };
    let end = place.start + place.captured;
    if block.len() < end + 4 {
        return Err(PacketFault::BadBlock);
    }
    let head = FrameHead {
        time,
        interface: interface_of(link, number, &block[place.start..end]),
        queue: 0,
    };
    let (from, to) = settle(link, block, place.start, end);
    Ok(FramedPacket {
        head: CapturedHead {
            head,
            captured: place.captured as u32,
            original: place.original,
            reason: place.reason,
        },
        from,
        to,
    })
}

// The reason that the options say of an enhanced or an old block with a packet of this length.
#[cold]
#[inline(never)]
fn packet_reason(order: NumberOrder, captured: usize, block: &[u8]) -> u32
    requires block { 32 ≤ length block.now }
    requires captured { captured < 2 ^ 32 }
    ensures { result ≡ packet_reason order captured block.now }
{
    let end = block.len() - 4;
    let start = end.min(28 + (captured + 3) / 4 * 4);
    reason_in(order, &block[start..end])
}

// The same, if reasons are read.
#[inline(always)]
fn reason_by(form: PcapngForm, captured: usize, block: &[u8]) -> u32
    requires block { 32 ≤ length block.now }
    requires captured { captured < 2 ^ 32 }
    ensures { result ≡ reason_by form.reasons form.order captured block.now }
{
    match form.reasons {
        Reasons::Ignored => 0,
        Reasons::Read => packet_reason(form.order, captured, block),
    }
}

// The packet of an enhanced or an old block, which came in by the interface of this number.
#[inline(always)]
fn timed_packet(
    form: PcapngForm,
    interfaces: &Interfaces,
    number: u32,
    block: &mut [u8],
) -> Result<FramedPacket, PacketFault>
    requires { 32 ≤ length block.old }
    ensures packet { packet_framed block.new result
        ≡ timed_packet form number (slice_get interfaces.now number) block.old }
    ensures inside { IsFramed (length block.new) result }
{
    let order = form.order;
    let Some(interface) = interfaces.get(number as usize) else {
        return Err(PacketFault::UnknownInterface);
    };
    let high = u64::from(number_at(order, block, 12));
    let low = u64::from(number_at(order, block, 16));
    let captured = number_at(order, block, 20) as usize;
    let place = PacketPlace {
        start: 28,
        captured,
        original: number_at(order, block, 24),
        reason: reason_by(form, captured, block),
    };
    let time = interface.time_at(high * 0x1_0000_0000 + low);
    packet_by(&interface, number, time, place, block)
}

// How many bytes of a packet a simple block has.
fn simple_length(interface: &Interface, original: u32, block: &[u8]) -> usize
    requires { 16 ≤ length block.now }
    ensures { result ≡ simple_length interface.now original block.now }
{
    let least = (original as usize).min(block.len() - 16);
    if interface.snap == 0 {
        least
    } else {
        least.min(interface.snap as usize)
    }
}

// The packet of a simple block, which came in by the first interface.
fn simple_packet(
    order: NumberOrder,
    interfaces: &Interfaces,
    block: &mut [u8],
) -> Result<FramedPacket, PacketFault>
    requires { 16 ≤ length block.old }
    ensures packet { packet_framed block.new result
        ≡ simple_packet order (slice_get interfaces.now 0) block.old }
    ensures inside { IsFramed (length block.new) result }
{
    let Some(interface) = interfaces.get(0) else {
        return Err(PacketFault::UnknownInterface);
    };
    let original = number_at(order, block, 8);
    let place = PacketPlace {
        start: 12,
        captured: simple_length(&interface, original, block),
        original,
        reason: 0,
    };
    packet_by(&interface, 0, 0, place, block)
}

// Where the packet of a block is, or why there is none.
#[inline(always)]
fn framed(packet: Result<FramedPacket, PacketFault>) -> Result<TakenRecord, PacketFault>
    ensures { result ≡ taken_by packet }
{
    match packet {
        Ok(packet) => Ok(TakenRecord::Packet(packet)),
        Err(fault) => Err(fault),
    }
}

// Takes what a block of this type says that begins no section.
#[inline(always)]
fn take_in(
    form: PcapngForm,
    interfaces: &mut Interfaces,
    block: &mut [u8],
    kind: u32,
) -> Result<TakenRecord, PacketFault>
    requires { least_size kind ≤ length block.old }
    ensures said { block_with form interfaces.new block.new result
        ≡ said_of_block
        (said_in (record { form = form; interfaces = interfaces.old }) block.old kind) }
    ensures inside { IsFrameIn (length block.new) result }
{
    let order = form.order;
    match kind {
        INTERFACE => {
            if interfaces.push(interface_in(order, block)) {
                Ok(TakenRecord::Passed(CaptureFormat::Pcapng(form)))
            } else {
                Err(PacketFault::TooManyInterfaces)
            }
        }
        OLD_PACKET => {
            let number = u32::from(short_at(order, block, 8));
            framed(timed_packet(form, interfaces, number, block))
        }
        SIMPLE_PACKET => framed(simple_packet(order, interfaces, block)),
        ENHANCED_PACKET => {
            let number = number_at(order, block, 8);
            framed(timed_packet(form, interfaces, number, block))
        }
        _ => Ok(TakenRecord::Passed(CaptureFormat::Pcapng(form))),
    }
}

/// Takes what a whole block says. The Ethernet frame of a packet is made in the block.
#[inline(always)]
pub fn take_block(
    form: PcapngForm,
    interfaces: &mut Interfaces,
    block: &mut [u8],
) -> Result<TakenRecord, PacketFault>
    requires { block_size form.order block.old ≡ Ok (length block.old) }
    ensures said { block_with form interfaces.new block.new result
        ≡ said_of_block (block_said (record { form = form; interfaces = interfaces.old })
        block.old) }
    ensures inside { IsFrameIn (length block.new) result }
{
    let Some(own) = block_order(form.order, block) else {
        return Err(PacketFault::BadBlock);
    };
    let size = block.len();
    if number_at(own, block, size - 4) as usize != size {
        return Err(PacketFault::BadBlock);
    }
    if is_section(block) {
        interfaces.clear();
        return Ok(TakenRecord::Passed(CaptureFormat::Pcapng(PcapngForm {
            order: own,
            reasons: form.reasons,
        })));
    }
    take_in(form, interfaces, block, number_at(own, block, 0))
}
