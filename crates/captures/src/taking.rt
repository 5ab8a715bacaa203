//! Takes a part of a frame stream that is whole, and writes what the capture gets for it.

ghost use Rattle.std.specs.Prelude.{◌≡◌, ◌≤◌, length, take, None, Some, IfOk, IfSome, OnErr, OnOk};
ghost use Rattle.std.specs.Io.KnownBytes.{Appends};
ghost use Rattle.exact_io.specs.Transfers.{AppendsBeginning};
ghost use Rattle.isa_model.specs.Code.Versions.{head_size, stream_magic};
ghost use Rattle.isa_model.specs.Code.Limits.{max_packet};
ghost use Rattle.isa_model.specs.Reporting.Streams.{head_bytes};
ghost use Rattle.captures.specs.CaptureBytes.{described_after, file_start, interface_blocks, packet_spelled};
ghost use Rattle.captures.specs.Writing.{TakesFrame, TakesPart, least_part};

use super::kinds::{CaptureForm, CaptureKind, LostCounts};
use super::packet_bytes::{
    INTERFACE_BLOCK, PCAP_HEAD, PCAPNG_START, SPELLED, named_interface, spell_block, spell_packet,
};
use byteorder::{ByteOrder, LittleEndian};
use exact_io::write_bytes;
use isa_model::{FrameHead, Version};
use std::io;
use std::io::{ErrorKind, Write};

/// Says what was taken of a stream.
#[derive(Clone, Copy)]
pub enum PartTaken {
    /// Its magic.
    Begun(Version),
    /// The head of a record, and how many bytes the record has.
    Longer(usize),
    /// A record: how many interfaces the capture describes after it, and what it has lost.
    Written(u32, LostCounts),
}

/// What is known of a capture that is written.
#[derive(Clone, Copy)]
pub struct CaptureProgress {
    pub form: CaptureForm,
    /// Of the stream, once its magic was taken.
    pub version: Option<Version>,
    pub described: u32,
    pub lost: LostCounts,
}

/// The fewest bytes of a part: those of the magic, or of a record's head.
#[inline(always)]
pub fn least_part(version: Option<Version>) -> usize
    ensures least { result ≡ least_part version }
    ensures few { result ≤ 24 }
{
    match version {
        Some(version) => version.head_size(),
        None => 4,
    }
}

// The version that the magic of a stream says.
fn version_of(magic: &[u8]) -> Option<Version>
    ensures { IfSome result (λ v. magic.now ≡ stream_magic v) }
{
    if magic == b"XPF1".as_slice() {
        Some(Version::One)
    } else if magic == b"XPF2".as_slice() {
        Some(Version::Two)
    } else {
        None
    }
}

// Writes what a capture begins with.
fn write_start<W: Write>(output: &mut W, kind: CaptureKind) -> io::Result<()>
    ensures ok { OnOk result (Appends (W.contents output.old) (W.contents output.new)
        (file_start kind)) }
    ensures err { OnErr result (AppendsBeginning (W.contents output.old) (W.contents output.new)
        (file_start kind)) }
{
    match kind {
        CaptureKind::Pcap => write_bytes(output, &PCAP_HEAD),
        CaptureKind::Pcapng => write_bytes(output, &PCAPNG_START),
    }
}

// Writes `count` blocks that describe an interface.
#[inline(always)]
fn write_interfaces<W: Write>(output: &mut W, count: u32) -> io::Result<()>
    ensures ok { OnOk result (Appends (W.contents output.old) (W.contents output.new)
        (interface_blocks count)) }
    ensures err { OnErr result (AppendsBeginning (W.contents output.old) (W.contents output.new)
        (interface_blocks count)) }
{
    for _ in 0..count {
        write_bytes(output, &INTERFACE_BLOCK)?;
    }
    Ok(())
}

// Writes the block of a packet, and those of the interfaces that are not described before.
#[inline(always)]
fn write_block<W: Write>(
    output: &mut W,
    described: u32,
    spelled: &mut [u8; SPELLED],
    head: &FrameHead,
    body: &[u8],
    reason: u32,
) -> io::Result<u32>
    requires { length body.now ≤ max_packet }
    ensures ok { IfOk result (λ after. (after ≡ described_after CaptureKind.Pcapng described
        (record { head = head.now; body = body.now; reason = reason }))
        × Appends (W.contents output.old) (W.contents output.new)
        (packet_spelled CaptureKind.Pcapng described
        (record { head = head.now; body = body.now; reason = reason }))) }
    ensures err { OnErr result (AppendsBeginning (W.contents output.old) (W.contents output.new)
        (packet_spelled CaptureKind.Pcapng described
        (record { head = head.now; body = body.now; reason = reason }))) }
{
    let after = described.max(named_interface(head.interface) + 1);
    write_interfaces(output, after - described)?;
    let size = spell_block(spelled, head, body, reason);
    write_bytes(output, &spelled[..size])?;
    Ok(after)
}

// Writes a packet. Returns how many interfaces are described after it.
#[inline(always)]
fn write_packet<W: Write>(
    output: &mut W,
    kind: CaptureKind,
    described: u32,
    spelled: &mut [u8; SPELLED],
    head: &FrameHead,
    body: &[u8],
    reason: u32,
) -> io::Result<u32>
    requires { length body.now ≤ max_packet }
    ensures ok { IfOk result (λ after. (after ≡ described_after kind described
        (record { head = head.now; body = body.now; reason = reason }))
        × Appends (W.contents output.old) (W.contents output.new)
        (packet_spelled kind described
        (record { head = head.now; body = body.now; reason = reason }))) }
    ensures err { OnErr result (AppendsBeginning (W.contents output.old) (W.contents output.new)
        (packet_spelled kind described
        (record { head = head.now; body = body.now; reason = reason }))) }
{
    match kind {
        CaptureKind::Pcap => {
            let size = spell_packet(spelled, head, body);
            write_bytes(output, &spelled[..size])?;
            Ok(described)
        }
        CaptureKind::Pcapng => write_block(output, described, spelled, head, body, reason),
    }
}

// The head that these bytes spell, the length of the body after it, and its reason.
#[inline(always)]
fn head_of(version: Version, part: &[u8]) -> (FrameHead, u32, u32)
    requires { length part.now ≡ head_size version }
    ensures { head_bytes version result.0 result.1 result.2 ≡ part.now }
{
    let head = FrameHead {
        time: LittleEndian::read_u64(part),
        interface: LittleEndian::read_u32(&part[8..]),
        queue: LittleEndian::read_u32(&part[12..]),
    };
    let size = LittleEndian::read_u32(&part[16..]);
    match version {
        Version::One => (head, size, 0),
        Version::Two => (head, size, LittleEndian::read_u32(&part[20..])),
    }
}

// Takes the magic of a stream.
fn take_magic<W: Write>(
    output: &mut W,
    written: CaptureProgress,
    part: &[u8],
) -> Result<PartTaken, ErrorKind>
    requires { written.version ≡ None }
    ensures { TakesPart written.form written.version written.described written.lost part.now
        (W.contents output.old) (W.contents output.new) result }
{
    let Some(version) = version_of(part) else {
        return Err(ErrorKind::InvalidData);
    };
    match write_start(output, written.form.kind) {
        Ok(()) => Ok(PartTaken::Begun(version)),
        Err(error) => Err(error.kind()),
    }
}

// Takes a record that is whole: its frame is written, or left out for its reason.
#[inline(always)]
fn take_frame<W: Write>(
    output: &mut W,
    written: CaptureProgress,
    spelled: &mut [u8; SPELLED],
    head: &FrameHead,
    body: &[u8],
    reason: u32,
) -> Result<PartTaken, ErrorKind>
    requires { length body.now ≤ max_packet }
    ensures { TakesFrame written.form written.described written.lost
        (record { head = head.now; body = body.now; reason = reason })
        (W.contents output.old) (W.contents output.new) result }
{
    if !written.form.is_kept(reason) {
        return Ok(PartTaken::Written(written.described, written.lost));
    }
    let kind = written.form.kind;
    match write_packet(output, kind, written.described, spelled, head, body, reason) {
        Ok(described) => {
            let lost = written.lost.after(kind, head, reason);
            Ok(PartTaken::Written(described, lost))
        }
        Err(error) => Err(error.kind()),
    }
}

// Takes a record, or its head if its body has not come yet.
#[inline(always)]
fn take_record<W: Write>(
    output: &mut W,
    written: CaptureProgress,
    version: Version,
    part: &[u8],
    spelled: &mut [u8; SPELLED],
) -> Result<PartTaken, ErrorKind>
    requires version { written.version ≡ Some version }
    requires head { head_size version ≤ length part.now }
    ensures { TakesPart written.form written.version written.described written.lost part.now
        (W.contents output.old) (W.contents output.new) result }
{
    let start = version.head_size();
    let (head, length, reason) = head_of(version, &part[..start]);
    let length = length as usize;
    let whole = start + length;
    if length > version.max_body() || whole < part.len() {
        return Err(ErrorKind::InvalidData);
    }
    if part.len() < whole {
        return Ok(PartTaken::Longer(whole));
    }
    take_frame(output, written, spelled, &head, &part[start..], reason)
}

/// Takes a part that is whole as far as is known: the magic of a stream, a record, or the head of
/// one.
#[inline(always)]
pub fn take_part<W: Write>(
    output: &mut W,
    written: CaptureProgress,
    part: &[u8],
    spelled: &mut [u8; SPELLED],
) -> Result<PartTaken, ErrorKind>
    requires { least_part written.version ≤ length part.now }
    ensures { TakesPart written.form written.version written.described written.lost part.now
        (W.contents output.old) (W.contents output.new) result }
{
    match written.version {
        None => take_magic(output, written, part),
        Some(version) => take_record(output, written, version, part, spelled),
    }
}
