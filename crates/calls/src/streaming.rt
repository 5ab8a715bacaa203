//! The call that runs an accepted program over a frame stream.

ghost use Rattle.std.specs.Prelude.{◌≡◌, ◌≢◌, length, Err, IfOk, IfSome};
ghost use Rattle.host.specs.Promise.{Promised, stream_in};
ghost use Rattle.host.specs.Tallies.{ShowsTally};
ghost use Rattle.calls.specs.Crossing.{IsVerdictStatus, filled};
ghost use Rattle.calls.specs.Verdicts.{IsRefusedImage};
ghost use Rattle.calls.specs.declared.statuses.NotAccepted.TheVariants as NotAccepted;
ghost use Rattle.calls.specs.Streams.{WritesStream, RunsStream, fault_number, streamed_of};

use crate::buffers::fill;
use crate::judging::verified_of;
use crate::statuses::{MEMORY, NotAccepted, OK, REFUSED};
use bounds::Verified;
use frames::InMemory;
use host::{Tally, run};
use isa_model::Fault;
use std::alloc::Global;

/// The result of a run over a stream: how many bytes the report and the frames out have, how many
/// packet frames were found, and the number of the fault that ended the stream, with the offset of
/// its record, which is 0 for a fault in the magic; both are 0 at the stream's end.
#[repr(C)]
#[derive(Clone, Copy, Drop)]
pub struct Streamed {
    pub report: usize,
    pub sent: usize,
    pub offset: u64,
    pub frames: u32,
    pub fault: u32,
}

// The number of a fault: 1 for F1.
fn number_of(fault: Fault) -> u32
    ensures { result ≡ fault_number fault }
{
    match fault {
        Fault::BadMagic => 1,
        Fault::TruncatedHead => 2,
        Fault::TooLong => 3,
        Fault::TruncatedBody => 4,
        Fault::ReadFailed => 5,
        Fault::TooManyRecords => 6,
    }
}

// The result of a run over a stream with this tally, and with a report and frames out of these
// sizes.
fn streamed_of(tally: Tally, report_size: usize, sent_size: usize) -> Streamed
    ensures { result ≡ streamed_of tally report_size sent_size }
{
    let (fault, offset) = match tally.fault {
        Some((fault, offset)) => (number_of(fault), offset),
        None => (0, 0),
    };
    Streamed {
        report: report_size,
        sent: sent_size,
        offset,
        frames: tally.frames,
        fault,
    }
}

/// Says what a run over a stream in memory writes: the report and the frames out, with its tally.
#[derive(Drop)]
pub struct Written {
    pub report: Vec<u8>,
    pub sent: Vec<u8>,
    pub tally: Tally,
}

/// Writes the report and the frames out to buffers, as far as there is room.
pub fn fill_streamed(written: &Written, report: &mut [u8], sent: &mut [u8]) -> Streamed
    ensures report { report.new ≡ filled report.old written.now.report.items }
    ensures sent { sent.new ≡ filled sent.old written.now.sent.items }
    ensures out { result ≡ streamed_of written.now.tally (length written.now.report.items)
        (length written.now.sent.items) }
{
    let reported = fill(report, written.report.as_slice());
    let sent_out = fill(sent, written.sent.as_slice());
    streamed_of(written.tally, reported, sent_out)
}

// The report and the frames out of a run over a stream. None: memory ran out.
fn stream_written(alloc: Global, verified: Verified, stream: &[u8]) -> Option<Written>
    ensures { IfSome result (λ w. WritesStream verified stream.now
        w.report.items w.sent.items w.tally) }
{
    let mut report = Vec::new(alloc);
    let mut sent = Vec::new(alloc);
    let source = InMemory { bytes: stream };
    match run(alloc, verified, source, &mut report, &mut sent) {
        Ok(tally) => Some(Written {
            report,
            sent,
            tally,
        }),
        Err(_) => None,
    }
}

/// Verifies an image, and runs its program on the packet frames of a stream. Returns the report and
/// the frames out.
pub fn run_image(alloc: Global, image: &[u8], stream: &[u8]) -> Result<Written, NotAccepted>
    ensures promised { IfOk result
        (λ w. Promised image.now stream.now w.report.items w.sent.items) }
    ensures tally { IfOk result (λ w. ShowsTally (stream_in stream.now) w.tally) }
    ensures refused { result ≡ Err NotAccepted.Refused → IsRefusedImage image.now }
{
    let verified = match verified_of(alloc, image) {
        Ok(verified) => verified,
        Err(reason) => return Err(reason),
    };
    match stream_written(alloc, verified, stream) {
        Some(written) => Ok(written),
        None => Err(NotAccepted::Memory),
    }
}

/// Verifies an image, and runs its program on the packet frames of a stream. The report is written
/// to `report` and the frames out to `sent`, as far as there is room; the maps keep their contents
/// from frame to frame.
pub fn run_stream(
    alloc: Global,
    image: &[u8],
    stream: &[u8],
    report: &mut [u8],
    sent: &mut [u8],
    out: &mut Streamed,
) -> u32
    ensures ran { result ≡ OK → RunsStream image.now stream.now
        report.old sent.old report.new sent.new out.new }
    ensures read { result ≡ OK → out.new.fault ≢ 5 }
    ensures refused { result ≡ REFUSED → IsRefusedImage image.now }
    ensures report_kept { result ≢ OK → report.new ≡ report.old }
    ensures sent_kept { result ≢ OK → sent.new ≡ sent.old }
    ensures out_kept { result ≢ OK → out.new ≡ out.old }
    ensures status { IsVerdictStatus result }
{
    let written = match run_image(alloc, image, stream) {
        Ok(written) => written,
        Err(NotAccepted::Refused) => return REFUSED,
        Err(NotAccepted::Memory) => return MEMORY,
    };
    *out = fill_streamed(&written, report, sent);
    OK
}
