//! How a capture begins: the format, and of a pcap file the order of the bytes of its numbers, the
//! unit of its times and its link type.

ghost use Rattle.std.specs.Prelude.{◌≡◌, ◌+◌, ◌≤◌, length};
ghost use Rattle.captures.specs.Captured.{begun, head_size, max_record};
ghost use Rattle.captures.specs.Links.{link_of};
ghost use Rattle.captures.specs.Pcap.{field, nanoseconds, opened, pcap_start};
ghost use Rattle.captures.specs.Pcapng.{is_section, long_field, short_field};

use byteorder::{BigEndian, ByteOrder, LittleEndian};

/// Says which byte of a number comes first.
#[derive(Clone, Copy)]
pub enum NumberOrder {
    HighFirst,
    LowFirst,
}

/// Says what the second number of a time counts.
#[derive(Clone, Copy)]
pub enum TimeUnit {
    Microseconds,
    Nanoseconds,
}

impl TimeUnit {
    /// Returns how many nanoseconds the unit has.
    pub fn nanoseconds(self) -> u64
        ensures count { result ≡ nanoseconds self }
        ensures few { result ≤ 1000 }
    {
        match self {
            TimeUnit::Microseconds => 1000,
            TimeUnit::Nanoseconds => 1,
        }
    }
}

/// Says what the bytes of a packet begin with.
#[derive(Clone, Copy)]
pub enum LinkType {
    /// An Ethernet head. LINKTYPE_ETHERNET.
    Ethernet,
    /// The 16 bytes of Linux's `any` interface. LINKTYPE_LINUX_SLL.
    Cooked,
    /// Its 20 bytes, with the interface. LINKTYPE_LINUX_SLL2.
    Cooked2,
    /// An IP packet. LINKTYPE_RAW, LINKTYPE_IPV4 or LINKTYPE_IPV6.
    Raw,
    /// The address family, in the byte order of the machine that captured. LINKTYPE_NULL.
    Null,
    /// The address family, the high byte first. LINKTYPE_LOOP.
    Loop,
}

/// Says how the packets of a pcap file are written, by its head.
#[derive(Clone, Copy)]
pub struct PcapForm {
    pub order: NumberOrder,
    pub unit: TimeUnit,
    pub link: LinkType,
}

/// Says whether the reasons are read that the comments of packets say.
#[derive(Clone, Copy)]
pub enum Reasons {
    /// Each packet has the reason 0.
    Ignored,
    /// A packet with a comment `reason 7` has the reason 7.
    Read,
}

/// Says how the blocks of a section of a pcapng file are read.
#[derive(Clone, Copy)]
pub struct PcapngForm {
    pub order: NumberOrder,
    pub reasons: Reasons,
}

/// Says how the records of a capture are written.
#[derive(Clone, Copy)]
pub enum CaptureFormat {
    /// A pcap file.
    Pcap(PcapForm),
    /// A pcapng file, in a section of this form.
    Pcapng(PcapngForm),
}

impl CaptureFormat {
    /// Returns how many bytes say how long a record is.
    #[inline(always)]
    pub fn head_size(self) -> usize
        ensures size { result ≡ head_size self }
        ensures few { result ≤ 16 }
    {
        match self {
            CaptureFormat::Pcap(_) => 16,
            CaptureFormat::Pcapng(_) => 12,
        }
    }

    /// Returns how many bytes the longest record has.
    pub fn max_record(self) -> usize
        ensures { result ≡ max_record self }
    {
        match self {
            CaptureFormat::Pcap(_) => 16 + MAX_CAPTURED,
            CaptureFormat::Pcapng(_) => MAX_BLOCK,
        }
    }
}

/// Says why a file is not read as a capture.
#[derive(Clone, Copy)]
pub enum CaptureRefusal {
    /// Fewer than 24 bytes.
    TruncatedFileHead,
    /// Another magic than those of captures.
    NoCapture,
    /// A pcap file with packets of a link type that is not read.
    UnknownLink(u32),
}

/// The most bytes of a packet in a pcap file. libpcap, `MAXIMUM_SNAPLEN`.
pub const MAX_CAPTURED: usize = 262_144;

/// The most bytes of a block in a pcapng file.
pub const MAX_BLOCK: usize = 4_194_304;

/// The number in the four bytes at an offset.
#[inline(always)]
pub fn number_at(order: NumberOrder, bytes: &[u8], at: usize) -> u32
    requires { at + 4 ≤ length bytes.now }
    ensures { result ≡ field order at bytes.now }
{
    match order {
        NumberOrder::HighFirst => BigEndian::read_u32(&bytes[at..]),
        NumberOrder::LowFirst => LittleEndian::read_u32(&bytes[at..]),
    }
}

/// The number in the two bytes at an offset.
#[inline(always)]
pub fn short_at(order: NumberOrder, bytes: &[u8], at: usize) -> u16
    requires { at + 2 ≤ length bytes.now }
    ensures { result ≡ short_field order at bytes.now }
{
    match order {
        NumberOrder::HighFirst => BigEndian::read_u16(&bytes[at..]),
        NumberOrder::LowFirst => LittleEndian::read_u16(&bytes[at..]),
    }
}

/// The number in the eight bytes at an offset.
pub fn long_at(order: NumberOrder, bytes: &[u8], at: usize) -> u64
    requires { at + 8 ≤ length bytes.now }
    ensures { result ≡ long_field order at bytes.now }
{
    match order {
        NumberOrder::HighFirst => BigEndian::read_u64(&bytes[at..]),
        NumberOrder::LowFirst => LittleEndian::read_u64(&bytes[at..]),
    }
}

/// Returns whether a block begins a section of a pcapng file.
#[inline(always)]
pub fn is_section(block: &[u8]) -> bool
    requires { 4 ≤ length block.now }
    ensures { result ≡ is_section block.now }
{
    BigEndian::read_u32(block) == 0x0a0d_0d0a
}

impl LinkType {
    /// The link type that a number names, if it is one that is read.
    pub fn of(number: u32) -> Option<LinkType>
        ensures { result ≡ link_of number }
    {
        match number {
            1 => Some(LinkType::Ethernet),
            113 => Some(LinkType::Cooked),
            276 => Some(LinkType::Cooked2),
            101 | 12 | 228 | 229 => Some(LinkType::Raw),
            0 => Some(LinkType::Null),
            108 => Some(LinkType::Loop),
            _ => None,
        }
    }
}

// The order and the unit that the magic says.
fn pcap_start(head: &[u8]) -> Option<(NumberOrder, TimeUnit)>
    requires { 4 ≤ length head.now }
    ensures { result ≡ pcap_start head.now }
{
    let high = BigEndian::read_u32(head);
    let low = LittleEndian::read_u32(head);
    if high == 0xa1b2_c3d4 {
        Some((NumberOrder::HighFirst, TimeUnit::Microseconds))
    } else if low == 0xa1b2_c3d4 {
        Some((NumberOrder::LowFirst, TimeUnit::Microseconds))
    } else if high == 0xa1b2_3c4d {
        Some((NumberOrder::HighFirst, TimeUnit::Nanoseconds))
    } else if low == 0xa1b2_3c4d {
        Some((NumberOrder::LowFirst, TimeUnit::Nanoseconds))
    } else {
        None
    }
}

// The form of a pcap file whose first bytes these are, or why it is not read.
fn pcap_form(head: &[u8]) -> Result<PcapForm, CaptureRefusal>
    ensures { result ≡ opened head.now }
{
    if head.len() < 24 {
        return Err(CaptureRefusal::TruncatedFileHead);
    }
    match pcap_start(head) {
        Some((order, unit)) => {
            let number = number_at(order, head, 20) % 65_536;
            match LinkType::of(number) {
                Some(link) => Ok(PcapForm { order, unit, link }),
                None => Err(CaptureRefusal::UnknownLink(number)),
            }
        }
        None => Err(CaptureRefusal::NoCapture),
    }
}

/// The format of a capture whose first bytes these are, or why it is not read.
pub fn capture_format(reasons: Reasons, head: &[u8]) -> Result<CaptureFormat, CaptureRefusal>
    ensures { result ≡ begun reasons head.now }
{
    if head.len() < 24 {
        return Err(CaptureRefusal::TruncatedFileHead);
    }
    if is_section(head) {
        return Ok(CaptureFormat::Pcapng(PcapngForm {
            order: NumberOrder::HighFirst,
            reasons,
        }));
    }
    match pcap_form(head) {
        Ok(form) => Ok(CaptureFormat::Pcap(form)),
        Err(refusal) => Err(refusal),
    }
}
