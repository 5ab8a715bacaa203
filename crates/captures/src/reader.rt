//! Reads the packets of a capture one by one.

ghost use Rattle.std.specs.Prelude.{◌≡◌, ◌+◌, ◌≤◌, length, drop, take, vec_len, IfOk, IfSome};
ghost use Rattle.std.specs.Io.KnownBytes.{prepend_known};
ghost use Rattle.captures.specs.Captured.{IsFormatOf, first_offset, max_record};
ghost use Rattle.captures.specs.Damage.{damage_met};
ghost use Rattle.captures.specs.Reading.{Before, FindsPacket, IsRecordPart, IsPartOfRecord, OpensCapture, bytes_left};
ghost use Rattle.captures.specs.Steps.{BeginsAfter, IsInBlock, StaysPast, StopsPast, finding_at, finding_if, finding_of, position_after};

use super::forms::{CaptureFormat, CaptureRefusal, Reasons, capture_format};
use super::gathering::{Gathered, gather, holds_record};
use super::interfaces::Interfaces;
use super::packets::{CaptureDamage, CapturedHead, FramedPacket, PacketEnd};
use super::records::{TakenRecord, take_record};
use exact_io::Filled;
use frames::{Source, fill};
use std::alloc::{AllocError, Global};
use std::marker::Model;

/// Says why a capture cannot be opened.
#[derive(Clone, Copy)]
pub enum OpenFailure {
    /// It is not read.
    Refused(CaptureRefusal),
    /// The source failed.
    Unread,
    /// There is no memory for a record.
    NoMemory,
}

/// Says what a call of `CaptureReader::next` found.
#[derive(Clone, Copy)]
pub enum Captured {
    /// A packet. `CaptureReader::frame` has its Ethernet frame.
    Packet(CapturedHead),
    /// How the packets end.
    Stopped(PacketEnd),
    /// The source failed. Nothing is lost, and the next call goes on where this one stopped.
    Failed,
}

// Where a reader is: before a record of this format at this offset, or after all that it will find.
#[derive(Clone, Copy)]
enum CaptureStage {
    Before(CaptureFormat, u64),
    Past(PacketEnd),
}

// What one record is: a packet, or none and the format of the next record, with the record's size;
// or why there is no record.
#[derive(Clone, Copy)]
enum CaptureStep {
    Packet(FramedPacket, usize),
    Passed(CaptureFormat, usize),
    Stopped(PacketEnd),
    Failed,
}

// Takes the next record.
#[inline(always)]
fn find_record<R: Source>(
    source: &mut R,
    block: &mut [u8],
    count: usize,
    interfaces: &mut Interfaces,
    format: CaptureFormat,
    offset: u64,
) -> (CaptureStep, usize)
    requires room { max_record format ≤ length block.old }
    requires inside { count ≤ length block.old }
    requires part { IsRecordPart format (take count block.old) }
    ensures finds { FindsPacket (Before format interfaces.old offset)
        (prepend_known (take count block.old) (R.remaining source.old))
        (position_after format interfaces.new offset result.0)
        (prepend_known (take result.1 block.new) (R.remaining source.new))
        (finding_at block.new result.0) }
    ensures part { IsPartOfRecord (position_after format interfaces.new offset result.0)
        (take result.1 block.new) }
    ensures inside { result.1 ≤ length block.new }
    ensures frame { IsInBlock (length block.new) result.0 }
{
    let (gathered, count) = gather(source, block, count, format, offset);
    match gathered {
        Gathered::Record(size) => match take_record(format, interfaces, block, size) {
            Ok(TakenRecord::Packet(packet)) => (CaptureStep::Packet(packet, size), 0),
            Ok(TakenRecord::Passed(after)) => (CaptureStep::Passed(after, size), 0),
            Err(fault) => (CaptureStep::Stopped(PacketEnd::Fault(fault, offset)), count),
        },
        Gathered::Stopped(end) => (CaptureStep::Stopped(end), count),
        Gathered::Failed => (CaptureStep::Failed, count),
    }
}

// Takes the next record in a block that is owned.
#[inline(always)]
fn find_in<R: Source>(
    source: &mut R,
    block: &mut Vec<u8>,
    count: usize,
    interfaces: &mut Interfaces,
    format: CaptureFormat,
    offset: u64,
) -> (CaptureStep, usize)
    requires room { max_record format ≤ vec_len block.old }
    requires inside { count ≤ vec_len block.old }
    requires part { IsRecordPart format (take count block.old.items) }
    ensures finds { FindsPacket (Before format interfaces.old offset)
        (prepend_known (take count block.old.items) (R.remaining source.old))
        (position_after format interfaces.new offset result.0)
        (prepend_known (take result.1 block.new.items) (R.remaining source.new))
        (finding_at block.new.items result.0) }
    ensures part { IsPartOfRecord (position_after format interfaces.new offset result.0)
        (take result.1 block.new.items) }
    ensures room { vec_len block.new ≡ vec_len block.old }
    ensures inside { result.1 ≤ vec_len block.new }
    ensures frame { IsInBlock (vec_len block.new) result.0 }
{
    find_record(
        source,
        block.as_mut_slice(),
        count,
        interfaces,
        format,
        offset,
    )
}

// Takes what a head has of the first record to the front of the block.
fn take_first(format: CaptureFormat, head: &[u8; 24], block: &mut [u8]) -> usize
    requires room { 24 ≤ length block.old }
    requires head { IsFormatOf head.now format }
    ensures front { take result block.new ≡ drop (first_offset format) head.now }
    ensures count { first_offset format + result ≡ 24 }
    ensures part { IsRecordPart format (take result block.new) }
{
    match format {
        CaptureFormat::Pcap(_) => 0,
        CaptureFormat::Pcapng(_) => {
            block[..24].copy_from_slice(head);
            24
        }
    }
}

// Takes what a head has of the first record to the front of a block that is owned.
fn take_first_in(format: CaptureFormat, head: &[u8; 24], block: &mut Vec<u8>) -> usize
    requires room { 24 ≤ vec_len block.old }
    requires head { IsFormatOf head.now format }
    ensures front { take result block.new.items ≡ drop (first_offset format) head.now }
    ensures count { first_offset format + result ≡ 24 }
    ensures part { IsRecordPart format (take result block.new.items) }
    ensures room { vec_len block.new ≡ vec_len block.old }
{
    take_first(format, head, block.as_mut_slice())
}

/// Reads the packets of a capture one by one.
///
/// Contracts see its source, the bytes that it took from it for the next record, its position, and
/// the frame of the packet that it found last.
#[derive(Drop)]
pub struct CaptureReader<R> {
    source: R,
    block: Vec<u8>,
    interfaces: Interfaces,
    count: usize,
    from: usize,
    to: usize,
    stage: CaptureStage,
}

impl<R> Model for CaptureReader<R> {
    ghost use Rattle.std.specs.Prelude.{slice_range, take};
    ghost use Rattle.captures.specs.Reading.{CaptureState};
    ghost use Rattle.captures.specs.Steps.{HoldsPart, position_of};

    ghost Value = { CaptureState R };

    ghost view = { λ r. record {
      source = r.source;
      front = take r.count r.block.items;
      position = position_of r.interfaces r.stage;
      frame = slice_range r.block.items r.from r.to;
    } };

    ghost invariant = { λ r. HoldsPart r.block r.interfaces r.count r.from r.to r.stage };
}

impl<R: Source> CaptureReader<R> {
    /// Reads the head of a capture, and takes memory for the longest packet.
    pub fn open(alloc: Global, mut source: R, reasons: Reasons) -> Result<Self, OpenFailure>
    where
        R: Drop,
        ensures { OpensCapture reasons R.remaining (R.remaining source) result }
    {
        let mut head = [0; 24];
        match fill(&mut source, &mut head) {
            Filled::Whole => {}
            Filled::Ended(_) => {
                return Err(OpenFailure::Refused(CaptureRefusal::TruncatedFileHead));
            }
            Filled::Failed(_) => return Err(OpenFailure::Unread),
        }
        let format = match capture_format(reasons, &head) {
            Ok(format) => format,
            Err(refusal) => return Err(OpenFailure::Refused(refusal)),
        };
        match CaptureReader::begun(alloc, source, &head, format) {
            Ok(reader) => Ok(reader),
            Err(_) => Err(OpenFailure::NoMemory),
        }
    }

    // A reader of this format after the head was read: a part of it may be of the first record.
    fn begun(
        alloc: Global,
        source: R,
        head: &[u8; 24],
        format: CaptureFormat,
    ) -> Result<Self, AllocError>
    where
        R: Drop,
        requires { IsFormatOf head.now format }
        ensures { IfOk result (BeginsAfter head.now format source) }
    {
        let mut block = Vec::from_elem(alloc, 0, format.max_record())?;
        let interfaces = Interfaces::new(alloc)?;
        let count = take_first_in(format, head, &mut block);
        Ok(CaptureReader {
            source,
            block,
            interfaces,
            count,
            from: 0,
            to: 0,
            stage: CaptureStage::Before(format, 24 - count as u64),
        })
    }

    // Takes one record: nothing is found yet where it has no packet.
    #[inline(always)]
    fn step(&mut self) -> Option<Captured>
        ensures finds { FindsPacket self.old.position (bytes_left R.remaining self.old)
            self.new.position (bytes_left R.remaining self.new)
            (finding_if self.new.frame result) }
        ensures past { IfSome result (StopsPast self.new) }
    {
        let (format, offset) = match self.stage {
            CaptureStage::Past(end) => return Some(Captured::Stopped(end)),
            CaptureStage::Before(format, offset) => (format, offset),
        };
        let (step, count) = find_in(
            &mut self.source,
            &mut self.block,
            self.count,
            &mut self.interfaces,
            format,
            offset,
        );
        self.count = count;
        match step {
            CaptureStep::Packet(packet, size) => {
                self.from = packet.from;
                self.to = packet.to;
                self.stage = CaptureStage::Before(format, offset.saturating_add(size as u64));
                Some(Captured::Packet(packet.head))
            }
            CaptureStep::Passed(after, size) => {
                self.stage = CaptureStage::Before(after, offset.saturating_add(size as u64));
                None
            }
            CaptureStep::Stopped(end) => {
                self.stage = CaptureStage::Past(end);
                Some(Captured::Stopped(end))
            }
            CaptureStep::Failed => Some(Captured::Failed),
        }
    }

    /// Finds the next packet. After the end of the packets each further call returns the same end
    /// and reads nothing.
    #[inline(always)]
    pub fn next(&mut self) -> Captured
        ensures finds { FindsPacket self.old.position (bytes_left R.remaining self.old)
            self.new.position (bytes_left R.remaining self.new)
            (finding_of self.new.frame result) }
        ensures done { StaysPast self.old self.new result }
        ensures past { StopsPast self.new result }
    {
        if let CaptureStage::Past(end) = self.stage {
            return Captured::Stopped(end);
        }
        for _ in 0..u64::MAX {
            if let Some(found) = self.step() {
                return found;
            }
        }
        Captured::Failed
    }

    /// Returns whether the next packet may have to be waited for, since the bytes that its source
    /// holds do not have all of it. This is advice: no proof relies on it.
    #[inline(always)]
    pub fn may_wait(&self) -> bool {
        match (self.stage, self.source.held()) {
            (CaptureStage::Before(format, _), Some(bytes)) => !holds_record(format, bytes),
            _ => false,
        }
    }

    /// The Ethernet frame of the packet that was found last.
    #[inline(always)]
    pub fn frame(&self) -> &[u8]
        ensures { result.now ≡ self.now.frame }
    {
        let (from, to) = (self.from, self.to);
        let all = self.block.as_slice();
        &all[from..to]
    }
}

impl<R> CaptureReader<R> {
    /// What is wrong with the capture, if that was met.
    pub fn damage(&self) -> Option<CaptureDamage>
        ensures { result ≡ damage_met self.now.position }
    {
        match self.stage {
            CaptureStage::Before(_, _) => None,
            CaptureStage::Past(end) => end.damage(),
        }
    }
}
