//! Takes the next record of a capture to the front of a block.

ghost use Rattle.std.specs.Prelude.{◌≡◌, ◌≤◌, IfOk, List, length, take, true};
ghost use Rattle.captures.specs.Collecting.{Collects};
ghost use Rattle.captures.specs.Captured.{max_record, record_size};
ghost use Rattle.captures.specs.Reading.{IsRecordPart};
ghost use Rattle.captures.specs.Steps.{IsGathered};
ghost use Rattle.captures.specs.declared.interfaces.Interface.{Interface as AnInterface};

use super::collecting::{Collected, collect};
use super::forms::CaptureFormat;
use super::packets::{PacketEnd, PacketFault};
use super::records::record_size;
use frames::Source;

/// Says what was taken to the front of a block: a record of this size, or why there is none.
#[derive(Clone, Copy)]
pub enum Gathered {
    Record(usize),
    Stopped(PacketEnd),
    Failed,
}

/// Takes the next record to the front of the block, which has the first `count` bytes of it.
#[inline(always)]
pub fn gather<R: Source>(
    source: &mut R,
    block: &mut [u8],
    count: usize,
    format: CaptureFormat,
    offset: u64,
) -> (Gathered, usize)
    requires room { max_record format ≤ length block.old }
    requires inside { count ≤ length block.old }
    requires part { IsRecordPart format (take count block.old) }
    ensures bytes { Collects (R.remaining source.old) (R.remaining source.new)
        (take count block.old) (take result.1 block.new) }
    ensures gathered { (interfaces : List AnInterface)
        → IsGathered format interfaces offset (R.remaining source.new) (take result.1 block.new)
        result.0 }
    ensures inside { result.1 ≤ length block.new }
{
    let (collected, count) = collect(source, block, count, format.head_size());
    match collected {
        Collected::Whole => {}
        Collected::Ended => {
            let end = if count == 0 {
                PacketEnd::End
            } else {
                PacketEnd::Fault(PacketFault::TruncatedRecord, offset)
            };
            return (Gathered::Stopped(end), count);
        }
        Collected::Failed => return (Gathered::Failed, count),
    }
    let size = match record_size(format, block) {
        Ok(size) => size,
        Err(fault) => {
            return (Gathered::Stopped(PacketEnd::Fault(fault, offset)), count);
        }
    };
    let (collected, count) = collect(source, block, count, size);
    match collected {
        Collected::Whole => (Gathered::Record(size), count),
        Collected::Ended => {
            let end = PacketEnd::Fault(PacketFault::TruncatedPacket, offset);
            (Gathered::Stopped(end), count)
        }
        Collected::Failed => (Gathered::Failed, count),
    }
}

/// Returns whether these bytes begin with all bytes of a record, by its head, or with what is none.
pub fn holds_record(format: CaptureFormat, bytes: &[u8]) -> bool
    ensures { result ≡ true
        → IfOk (record_size format bytes.now) (λ size. size ≤ length bytes.now) }
{
    if bytes.len() < format.head_size() {
        return false;
    }
    match record_size(format, bytes) {
        Ok(size) => size <= bytes.len(),
        Err(_) => true,
    }
}
