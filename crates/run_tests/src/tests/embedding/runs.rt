//! Programs that are run on one packet, and over a stream.

use super::buffers::holds;
use super::images::{ENDLESS, HEAD, INTERFACE, ONE_FRAME, OTHER, PASS, UNGUARDED};
use crate::tests::rows::{Holds, hold_all};
use calls::running::{Ended, run_once};
use calls::streaming::{Streamed, run_stream};
use calls::tracing::{TracedEnd, trace_once};
use std::alloc::Global;

/// The status, and r0 and the steps of a run on a packet of that many bytes.
fn ran(alloc: Global, image: &[u8], length: usize) -> (u32, u64, u32) {
    let mut packet = [0; 9217];
    let mut out = Ended { r0: 9, steps: 9 };
    let body = &mut packet[..length.min(9217)];
    let status = run_once(alloc, image, &HEAD, body, &mut out);
    (status, out.r0, out.steps)
}

/// An image, the packet's length, and what is returned.
type Run = (&'static [u8], usize, (u32, u64, u32));

const RUNS: &[Run] = &[
    (&PASS, 0, (0, 2, 2)),
    (&INTERFACE, 9216, (0, 7, 2)),
    (&PASS, 9217, (1, 9, 9)),
    (&UNGUARDED, 64, (2, 9, 9)),
    (&OTHER, 64, (2, 9, 9)),
    (&[], 0, (2, 9, 9)),
];

impl Holds for Run {
    fn holds(&self, alloc: Global) -> bool {
        let (image, length, wanted) = self;
        ran(alloc, *image, *length) == *wanted
    }
}

/// The status, how the run ended, r0, the trap reason, and the steps.
type Traced = (u32, u32, u64, u32, u32);

fn traced(alloc: Global, image: &[u8], length: usize, limit: u32) -> Traced {
    let mut packet = [0; 9217];
    let mut out = TracedEnd {
        r0: 9,
        steps: 9,
        kind: 9,
        reason: 9,
    };
    let body = &mut packet[..length.min(9217)];
    let status = trace_once(alloc, image, &HEAD, body, limit, &mut out);
    (status, out.kind, out.r0, out.reason, out.steps)
}

/// An image, the packet's length and the limit, and what is returned.
type Trace = (&'static [u8], usize, u32, Traced);

const TRACES: &[Trace] = &[
    (&PASS, 64, 2, (0, 0, 2, 0, 2)),
    (&PASS, 64, 1, (0, 2, 0, 0, 1)),
    (&UNGUARDED, 13, 1_000_000, (0, 1, 0, 6, 1)),
    (&UNGUARDED, 14, 1_000_000, (0, 0, 2, 0, 4)),
    (&PASS, 64, 0, (1, 9, 9, 9, 9)),
    (&PASS, 64, 1_000_001, (1, 9, 9, 9, 9)),
    (&PASS, 9217, 1, (1, 9, 9, 9, 9)),
    (&OTHER, 64, 1, (2, 9, 9, 9, 9)),
];

impl Holds for Trace {
    fn holds(&self, alloc: Global) -> bool {
        let (image, length, limit, wanted) = self;
        traced(alloc, *image, *length, *limit) == *wanted
    }
}

/// The stream of one packet frame, and the first byte of another record.
const CUT: &[u8] = b"XPF1\xe8\x03\0\0\0\0\0\0\x01\0\0\0\0\0\0\0\x02\0\0\0\xca\xfe\x01";

/// The status, the sizes of the report and of the frames out, how many frames there were, and the
/// fault with its offset.
type Returned = (u32, usize, usize, u32, u32, u64);

fn streamed(
    alloc: Global,
    image: &[u8],
    stream: &[u8],
    report_buffer: &mut [u8],
    sent_buffer: &mut [u8],
) -> Returned {
    let mut out = Streamed {
        report: 9,
        sent: 9,
        offset: 9,
        frames: 9,
        fault: 9,
    };
    let status = run_stream(alloc, image, stream, report_buffer, sent_buffer, &mut out);
    (
        status, out.report, out.sent, out.frames, out.fault, out.offset,
    )
}

/// Says what is returned, and what is written of the report and of the frames out.
type Written = (Returned, &'static [u8], &'static [u8]);

/// An image, a stream, the room for each output, and what is returned, with what is written of the
/// report and of the frames out.
type StreamRun = (&'static [u8], &'static [u8], usize, Written);

const STREAMS: &[StreamRun] = &[
    (
        &PASS,
        ONE_FRAME,
        40,
        ((0, 17, 26, 1, 0, 0), b"0 PASS 2 2\nend 1\n", ONE_FRAME),
    ),
    (
        &PASS,
        CUT,
        12,
        (
            (0, 26, 26, 1, 2, 26),
            b"0 PASS 2 2\nf",
            b"XPF1\xe8\x03\0\0\0\0\0\0",
        ),
    ),
    (&ENDLESS, ONE_FRAME, 12, ((2, 9, 9, 9, 9, 9), b"", b"")),
];

impl Holds for StreamRun {
    fn holds(&self, alloc: Global) -> bool {
        let (image, stream, room, (wanted, report, sent)) = self;
        let mut report_buffer = [7; 40];
        let mut sent_buffer = [7; 40];
        let room = (*room).min(40);
        let found = streamed(
            alloc,
            *image,
            *stream,
            &mut report_buffer[..room],
            &mut sent_buffer[..room],
        );
        found == *wanted && holds(&report_buffer, *report) && holds(&sent_buffer, *sent)
    }
}

#[test]
fn runs(rt: HostRuntime) {
    hold_all(&rt, "runs", RUNS);
    hold_all(&rt, "traced runs", TRACES);
    hold_all(&rt, "streams", STREAMS);
}
