//! The frame stream that a capture becomes, as a source.

ghost use Rattle.std.specs.Prelude.{◌≡◌, ◌≤◌, ◌+◌, true, false, OnOk};
ghost use Rattle.std.specs.Io.{ReadsAtMost};
ghost use Rattle.std.specs.Io.KnownBytes.{Keeps, ReadConsumes};
ghost use Rattle.isa_model.specs.Code.Limits.{max_packet};
ghost use Rattle.captures.specs.Counts.{KeepsCounts};
ghost use Rattle.captures.specs.Damage.{KeepsEnd, damage_met};

use super::counts::CaptureCounts;
use super::forms::Reasons;
use super::packets::CaptureDamage;
use super::reader::{CaptureReader, Captured, OpenFailure};
use super::spelling::{RECORD, put_end, put_magic, put_record};
use frames::Source;
use std::alloc::Global;
use std::io;
use std::io::{ErrorKind, Read};

/// The frame stream of a capture: a source whose bytes are those of the stream.
#[derive(Drop)]
pub struct CaptureStream<R> {
    reader: CaptureReader<R>,
    held: [u8; RECORD],
    given: usize,
    count: usize,
    // Whether what stands where the packets end was spelled.
    ended: bool,
    counts: CaptureCounts,
    ghost ordered: { given ≤ count },
    ghost inside: { count ≤ 24 + max_packet },
}

impl<R: Source> CaptureStream<R> {
    ghost use Rattle.captures.specs.Streams.{BeginsCounts, BeginsEnd, OpensStreamOf, counts_left, end_left, stream_left};

    /// Reads the head of a capture, and takes memory for the longest packet.
    pub fn open(alloc: Global, source: R, reasons: Reasons) -> Result<Self, OpenFailure>
    where
        R: Drop,
        ensures opens { OpensStreamOf reasons R.remaining (R.remaining source) result }
        ensures counts { BeginsCounts result }
        ensures end { BeginsEnd reasons R.remaining (R.remaining source) result }
    {
        match CaptureReader::open(alloc, source, reasons) {
            Ok(reader) => {
                let mut held = [0; RECORD];
                let count = put_magic(&mut held);
                Ok(CaptureStream {
                    reader,
                    held,
                    given: 0,
                    count,
                    ended: false,
                    counts: CaptureCounts::none(),
                })
            }
            Err(failure) => Err(failure),
        }
    }

    // Spells the next record, where all that was spelled was given.
    #[inline(always)]
    fn advance(&mut self) -> io::Result<()>
        requires spent { self.old.given ≡ self.old.count }
        requires going { self.old.ended ≡ false }
        ensures bytes { Keeps (stream_left R.remaining self.old)
            (stream_left R.remaining self.new) }
        ensures counts { KeepsCounts (counts_left R.remaining self.old)
            (counts_left R.remaining self.new) }
        ensures end { KeepsEnd (end_left R.remaining self.old) (end_left R.remaining self.new) }
        ensures some { OnOk result (self.new.given ≡ self.new.count → self.new.ended ≡ true) }
    {
        match self.reader.next() {
            Captured::Packet(head) => {
                self.counts = self.counts.after(&head, self.reader.frame());
                let count = put_record(&mut self.held, &head, self.reader.frame());
                self.given = 0;
                self.count = count;
                Ok(())
            }
            Captured::Stopped(end) => {
                let count = put_end(&mut self.held, end);
                self.given = 0;
                self.count = count;
                self.ended = true;
                Ok(())
            }
            Captured::Failed => Err(io::Error::from(ErrorKind::Other)),
        }
    }

    // Gives what was spelled.
    #[inline(always)]
    fn give(&mut self, buffer: &mut [u8]) -> io::Result<usize>
        requires { self.old.given ≡ self.old.count → self.old.ended ≡ true }
        ensures counts { counts_left R.remaining self.new ≡ counts_left R.remaining self.old }
        ensures end { end_left R.remaining self.new ≡ end_left R.remaining self.old }
        ensures bound { ReadsAtMost result buffer.new }
        ensures bytes { ReadConsumes (stream_left R.remaining self.old)
            (stream_left R.remaining self.new) result buffer.new }
    {
        let mut front: &[u8] = &self.held[self.given..self.count];
        let size = front.read(buffer)?;
        self.given += size;
        Ok(size)
    }
}

impl<R> CaptureStream<R> {
    /// Returns how many of the packets that were found so far the stream does not say whole.
    pub fn counts(&self) -> CaptureCounts
        ensures { result ≡ self.now.counts }
    {
        self.counts
    }

    /// What is wrong with the capture, if that was met.
    pub fn damage(&self) -> Option<CaptureDamage>
        ensures { result ≡ damage_met self.now.reader.position }
    {
        self.reader.damage()
    }
}

impl<R: Source> Source for CaptureStream<R> {
    ghost use Rattle.captures.specs.Streams.{counts_left, end_left, stream_left};

    ghost remaining = { stream_left R.remaining };

    ghost may_fail = { true };

    #[inline(always)]
    fn read_some(&mut self, buffer: &mut [u8]) -> io::Result<usize>
        ensures bound { ReadsAtMost result buffer.new }
        ensures bytes { ReadConsumes (stream_left R.remaining self.old)
            (stream_left R.remaining self.new) result buffer.new }
        ensures counts { KeepsCounts (counts_left R.remaining self.old)
            (counts_left R.remaining self.new) }
        ensures end { KeepsEnd (end_left R.remaining self.old) (end_left R.remaining self.new) }
    {
        if self.given == self.count && !self.ended {
            self.advance()?;
        }
        self.give(buffer)
    }

    #[inline(always)]
    fn held(&self) -> Option<&[u8]> {
        if self.reader.may_wait() {
            Some(&self.held[self.given..self.count])
        } else {
            None
        }
    }
}
