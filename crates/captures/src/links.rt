//! Makes an Ethernet frame of the bytes of a packet.

ghost use Rattle.std.specs.Prelude.{◌≡◌, ◌≤◌, ◌<◌, ◌^◌, ◌+◌, ◌-◌, ◌++◌, drop, length, slice_range};
ghost use Rattle.captures.specs.Links.{ethernet_frame, ethernet_head, family_type, interface_of, loop_type, machine_family, null_type, version_type};

use super::forms::{LinkType, NumberOrder, number_at};
use byteorder::{BigEndian, ByteOrder, LittleEndian};

// EtherTypes.
const IPV4: u16 = 0x0800;

const IPV6: u16 = 0x86dd;

/// Returns the interface that a packet with these bytes came in by, or another one where its link
/// type does not say it.
#[inline(always)]
pub fn interface_of(link: LinkType, other: u32, packet: &[u8]) -> u32
    ensures { result ≡ interface_of link other packet.now }
{
    match link {
        LinkType::Ethernet | LinkType::Cooked | LinkType::Raw | LinkType::Null | LinkType::Loop =>
            other,
        LinkType::Cooked2 => {
            if packet.len() < 20 {
                other
            } else {
                number_at(NumberOrder::HighFirst, packet, 4)
            }
        }
    }
}

// The 16 bytes are: u16 packet type, u16 ARPHRD type, u16 length and 8 bytes of the sender's
// address, u16 protocol.
#[cold]
#[inline(never)]
fn settle_cooked(packet: &mut [u8]) -> usize
    ensures inside { result ≤ length packet.new }
    ensures frame { drop result packet.new ≡ ethernet_frame LinkType.Cooked packet.old }
{
    if packet.len() < 16 {
        return 0;
    }
    let mut address = [0; 6];
    address.copy_from_slice(&packet[6..12]);
    packet[8..14].copy_from_slice(&address);
    packet[2..8].copy_from_slice(&[0; 6]);
    2
}

// The 20 bytes are: u16 protocol, u16 reserved, u32 interface, u16 ARPHRD type, u8 packet type, u8
// length and 8 bytes of the sender's address.
#[cold]
#[inline(never)]
fn settle_cooked2(packet: &mut [u8]) -> usize
    ensures inside { result ≤ length packet.new }
    ensures frame { drop result packet.new ≡ ethernet_frame LinkType.Cooked2 packet.old }
{
    if packet.len() < 20 {
        return 0;
    }
    let mut protocol = [0; 2];
    protocol.copy_from_slice(&packet[..2]);
    packet[18..20].copy_from_slice(&protocol);
    packet[6..12].copy_from_slice(&[0; 6]);
    6
}

// The EtherType of an IP packet.
fn version_type(packet: &[u8]) -> u16
    ensures { result ≡ version_type packet.now }
{
    match packet {
        [] => 0,
        [byte, ..] => match *byte / 16 {
            4 => IPV4,
            6 => IPV6,
            _ => 0,
        },
    }
}

// The EtherType of an address family.
fn family_type(family: u32) -> u16
    ensures { result ≡ family_type family }
{
    match family {
        2 => IPV4,
        24 | 28 | 30 | 10 => IPV6,
        _ => 0,
    }
}

// The address family in the order in which it is below 65,536.
fn machine_family(packet: &[u8]) -> u32
    requires { 4 ≤ length packet.now }
    ensures { result ≡ machine_family packet.now }
{
    let high = BigEndian::read_u32(packet);
    if high < 65_536 {
        high
    } else {
        LittleEndian::read_u32(packet)
    }
}

fn null_type(packet: &[u8]) -> u16
    ensures { result ≡ null_type packet.now }
{
    if packet.len() < 4 {
        0
    } else {
        family_type(machine_family(packet))
    }
}

fn loop_type(packet: &[u8]) -> u16
    ensures { result ≡ loop_type packet.now }
{
    if packet.len() < 4 {
        0
    } else {
        family_type(BigEndian::read_u32(packet))
    }
}

// Puts an Ethernet head of this EtherType right before a place.
fn put_head(block: &mut [u8], place: usize, kind: u16)
    requires before { 14 ≤ place }
    requires inside { place ≤ length block.old }
    ensures { drop (place - 14) block.new ≡ ethernet_head kind ++ drop place block.old }
{
    let mut head = [0; 14];
    BigEndian::write_u16(&mut head[12..], kind);
    block[place - 14..place].copy_from_slice(&head);
}

// Puts an Ethernet head before the bytes between two places, which it moves where there is no room
// before them, and returns where the frame is.
#[inline(never)]
fn headed(block: &mut [u8], start: usize, end: usize, kind: u16) -> (usize, usize)
    requires ordered { start ≤ end }
    requires inside { end ≤ length block.old }
    requires room { 14 + (end - start) ≤ length block.old }
    ensures ordered { result.0 ≤ result.1 }
    ensures inside { result.1 ≤ length block.new }
    ensures frame { slice_range block.new result.0 result.1
        ≡ ethernet_head kind ++ slice_range block.old start end }
{
    if start >= 14 {
        put_head(block, start, kind);
        return (start - 14, end);
    }
    block.copy_within(start..end, 14);
    put_head(block, 14, kind);
    (0, 14 + (end - start))
}

/// Makes an Ethernet frame of the packet between two places of a block, and returns where the frame
/// is.
#[inline(always)]
pub fn settle(link: LinkType, block: &mut [u8], start: usize, end: usize) -> (usize, usize)
    requires ordered { start ≤ end }
    requires inside { end ≤ length block.old }
    requires room { 14 + (end - start) ≤ length block.old }
    ensures ordered { result.0 ≤ result.1 }
    ensures inside { result.1 ≤ length block.new }
    ensures frame { slice_range block.new result.0 result.1
        ≡ ethernet_frame link (slice_range block.old start end) }
{
    match link {
        LinkType::Ethernet => (start, end),
        LinkType::Cooked => (start + settle_cooked(&mut block[start..end]), end),
        LinkType::Cooked2 => (start + settle_cooked2(&mut block[start..end]), end),
        LinkType::Raw => {
            let kind = version_type(&block[start..end]);
            headed(block, start, end, kind)
        }
        LinkType::Null => {
            let kind = null_type(&block[start..end]);
            headed(block, end.min(start + 4), end, kind)
        }
        LinkType::Loop => {
            let kind = loop_type(&block[start..end]);
            headed(block, end.min(start + 4), end, kind)
        }
    }
}
