//! Reads the records of a stream one by one.
ghost use Rattle.std.specs.Prelude.{◌≡◌, ◌≢◌, ◌+◌, ◌*◌, ◌≤◌, length, true, Option};
ghost use Rattle.isa_model.specs.Code.Versions.{head_size};
ghost use Rattle.isa_model.specs.Machine.MachineStates.{AreBytes};
ghost use Rattle.exact_io.specs.Transfers.{Fills};
ghost use Rattle.frames.specs.Sources.{HasFailed};
ghost use Rattle.frames.specs.Readers.{Position, Fresh, At};
ghost use Rattle.frames.specs.Reading.{ReadsMagic, MayOpen, OpensStream, begun_at, Finds, finding_of, FindsNext, HasRoom, FitsBuffer, StaysDone};
ghost use Rattle.frames.specs.Stages.{position_of, OffsetFits, max_record, HasRoomForRecord, IsStageAfter};

use super::filling::{fill, fill_at_once};
use super::heads::{decode_head, holds_record};
use super::sources::Source;
use exact_io::Filled;
use isa_model::{Fault, Finish, FrameHead, MAX_PACKET, Version};
use std::marker::Model;

/// Says what a call of `FrameReader::next` found.
#[derive(Clone, Copy)]
pub enum Next {
    /// A record: its head, the length of its body, which is at the front of the buffer, and its
    /// reason, which is 0 in an `XPF1` stream.
    Frame(FrameHead, usize, u32),
    /// The end of the stream.
    End,
    /// The fault, and the offset in bytes of the record in which it was found (0 while the
    /// magic is read).
    Fault(Fault, u64),
}

// A reader's position: before the magic, before a record with this number and offset, or after all
// that it will read.
#[derive(Clone, Copy)]
enum Stage {
    Fresh,
    At(Version, u32, u64),
    Done(Version, Finish),
}

/// Reads the records of a stream one by one.
///
/// Contracts see its source and its position.
#[derive(Drop)]
pub struct FrameReader<R> {
    source: R,
    stage: Stage,
}

impl<R> Model for FrameReader<R> {
    ghost use Rattle.frames.specs.Readers.{ReaderState};
    ghost use Rattle.frames.specs.Stages.{position_of, OffsetFits};

    ghost Value = { ReaderState R };

    ghost view = { λ r. record { source = r.source; position = position_of r.stage } };

    ghost invariant = { λ r. OffsetFits r.stage };
}

impl<R: Source> FrameReader<R> {
    /// A reader of the stream that begins at the source's next byte. It reads nothing yet.
    pub fn new(source: R) -> Self
        ensures { result ≡ record { source = source; position = Fresh } }
    {
        FrameReader {
            source,
            stage: Stage::Fresh,
        }
    }

    /// Reads the magic, and returns the stream's version, 1 or 2, or else the fault. If the
    /// magic was read before, it reads nothing, and returns the same again.
    pub fn begin(&mut self) -> Result<u8, (Fault, u64)>
        ensures opens { OpensStream R.may_fail self.old.position (R.remaining self.old.source)
            (R.remaining self.new.source) self.new.position }
        ensures begun { result ≡ begun_at self.new.position }
        ensures again { self.old.position ≢ Fresh → self.new ≡ self.old }
    {
        self.stage = stage_begun(&mut self.source, self.stage);
        match self.stage {
            Stage::Fresh => Err((Fault::BadMagic, 0)),
            Stage::At(version, _, _) => Ok(version.number()),
            Stage::Done(version, Finish::End) => Ok(version.number()),
            Stage::Done(_, Finish::Fault(fault, offset)) => Err((fault, offset)),
        }
    }

    /// Finds the next record, and puts its body at the front of the buffer. The rest of the buffer,
    /// and all of it where no record was found, may then hold any bytes. The magic is read first,
    /// if it was not read before.
    ///
    /// The source's first error, whichever it is, is the fault `ReadFailed`, and nothing is tried
    /// again. After the end or a fault each further call returns the same and reads nothing.
    #[inline(always)]
    pub fn next(&mut self, buffer: &mut [u8; MAX_PACKET]) -> Next
        ensures finds { Finds R.may_fail self.old.position (R.remaining self.old.source)
            (R.remaining self.new.source) self.new.position (finding_of result buffer.new) }
        ensures fits { FitsBuffer result }
        ensures done { StaysDone self.old self.new (finding_of result buffer.new) }
    {
        self.stage = stage_begun(&mut self.source, self.stage);
        match self.stage {
            Stage::Fresh => Next::End,
            Stage::At(version, number, offset) => {
                let next = read_record(&mut self.source, version, number, offset, buffer);
                self.stage = stage_after(version, number, offset, &next);
                next
            }
            Stage::Done(_, Finish::End) => Next::End,
            Stage::Done(_, Finish::Fault(fault, offset)) => Next::Fault(fault, offset),
        }
    }

    /// Returns whether the next record may have to be waited for, since the bytes that its source
    /// holds do not have all of it. This is advice: no proof relies on it.
    #[inline(always)]
    pub fn may_wait(&self) -> bool {
        match (self.stage, self.source.held()) {
            (Stage::At(version, _, _), Some(bytes)) => !holds_record(version, bytes),
            _ => false,
        }
    }
}

// The stage after the magic is read, if it was not read before.
#[inline(always)]
fn stage_begun<R: Source>(source: &mut R, stage: Stage) -> Stage
    requires within { OffsetFits stage }
    ensures opens { OpensStream R.may_fail (position_of stage)
        (R.remaining source.old) (R.remaining source.new)
        (position_of result) }
    ensures within { OffsetFits result }
    ensures begun { position_of result ≢ Fresh }
    ensures again { position_of stage ≢ Fresh → source.new ≡ source.old }
{
    match stage {
        Stage::Fresh => match read_magic(source) {
            Ok(version) => Stage::At(version, 0, 4),
            Err(fault) => Stage::Done(Version::One, Finish::Fault(fault, 0)),
        },
        begun => begun,
    }
}

// The stage of a reader that was where a record may begin, after it found this.
#[inline(always)]
fn stage_after(version: Version, number: u32, offset: u64, next: &Next) -> Stage
    requires room { HasRoomForRecord number next.now }
    requires offset { offset ≤ 4 + max_record * number }
    ensures { IsStageAfter version number offset next.now result }
{
    match next {
        Next::Frame(_, length, _) => {
            let size = version.head_size() as u64 + *length as u64;
            Stage::At(version, number + 1, offset + size)
        }
        Next::End => Stage::Done(version, Finish::End),
        Next::Fault(fault, at) => Stage::Done(version, Finish::Fault(*fault, *at)),
    }
}

// Reads the magic, or returns the fault that was found instead.
#[cold]
#[inline(never)]
fn read_magic<R: Source>(source: &mut R) -> Result<Version, Fault>
    ensures bytes { ReadsMagic (R.remaining source.old) (R.remaining source.new) result }
    ensures room { MayOpen R.may_fail result }
{
    let mut magic = [0; 4];
    match fill(source, &mut magic) {
        Filled::Whole => {
            if magic == *b"XPF1" {
                Ok(Version::One)
            } else if magic == *b"XPF2" {
                Ok(Version::Two)
            } else {
                Err(Fault::BadMagic)
            }
        }
        Filled::Ended(_) => Err(Fault::BadMagic),
        Filled::Failed(_) => Err(Fault::ReadFailed),
    }
}

// Fills a buffer of the size of a head. The sizes are written out, so that each copy is of a number
// of bytes that is known.
#[inline(always)]
fn fill_head<R: Source>(source: &mut R, version: Version, head: &mut [u8]) -> Filled
    requires { length head.old ≡ head_size version }
    ensures fills { Fills (R.remaining source.old) (R.remaining source.new) result head.new }
    ensures fails { HasFailed result → R.may_fail ≡ true }
{
    match version {
        Version::One => fill_at_once(source, &mut head[..20]),
        Version::Two => fill_at_once(source, &mut head[..24]),
    }
}

// Makes known to proofs what the type of a body says.
fn in_range(body: &[u8])
    ensures { AreBytes body.now }
{
    let _size = body.len();
}

// Reads the record with this number, which begins at this offset.
#[inline(always)]
fn read_record<R: Source>(
    source: &mut R,
    version: Version,
    number: u32,
    offset: u64,
    buffer: &mut [u8; MAX_PACKET],
) -> Next
    ensures bytes { FindsNext (At version number offset) (R.remaining source.old)
        (R.remaining source.new) (finding_of result buffer.new) }
    ensures room { HasRoom R.may_fail (At version number offset) (finding_of result buffer.new) }
    ensures fits { FitsBuffer result }
{
    let mut head_buffer = [0; 24];
    if number == u32::MAX {
        return match fill(source, &mut head_buffer[..1]) {
            Filled::Whole => Next::Fault(Fault::TooManyRecords, offset),
            Filled::Ended(_) => Next::End,
            Filled::Failed(_) => Next::Fault(Fault::ReadFailed, offset),
        };
    }
    let head = &mut head_buffer[..version.head_size()];
    match fill_head(source, version, head) {
        Filled::Whole => {}
        Filled::Ended(0) => return Next::End,
        Filled::Ended(_) => return Next::Fault(Fault::TruncatedHead, offset),
        Filled::Failed(_) => return Next::Fault(Fault::ReadFailed, offset),
    }
    let (frame_head, length, reason) = decode_head(version, head);
    let length = length as usize;
    if length > version.max_body() {
        return Next::Fault(Fault::TooLong, offset);
    }
    let body = &mut buffer[..length];
    match fill_at_once(source, body) {
        Filled::Whole => {
            in_range(body);
            Next::Frame(frame_head, length, reason)
        }
        Filled::Ended(_) => Next::Fault(Fault::TruncatedBody, offset),
        Filled::Failed(_) => Next::Fault(Fault::ReadFailed, offset),
    }
}
