//! Programs on streams whose reads fail after some bytes, and frames out that fail within the
//! magic.

use super::cases::{Case, MAGIC, ONE, Output, PASSES, TAKES_ALL, TWO, TWO_WITH_REASONS, ends_so};
use crate::tests::rows::holds_at;
use exact_io::failing::FAILURES;
use host::{HostError, Tally};
use isa_model::Fault;
use std::alloc::Global;

// A stream, whether a read fails after its last byte, and the output for the frames out; then the
// result, and what both outputs get.
fn ends_with(
    alloc: Global,
    (given, is_broken, out): (&[u8], bool, Output),
    ended: Result<Tally, HostError>,
    lines: &[u8],
    sent: &[u8],
) -> bool {
    let case = Case {
        text: PASSES,
        is_checked: true,
        given,
        is_broken,
        report: TAKES_ALL,
        out,
        ended,
        lines,
        sent,
    };
    ends_so(alloc, &case)
}

// For streams from this length on, up to two records: on how many packet frames the program is run,
// the offset of the fault, the report and the frames out.
type Stop = (usize, u32, u64, &'static [u8], &'static [u8]);

#[rattlefmt::skip]
const BROKEN: &[Stop] = &[
    (0, 0, 0, b"fault F5 at 0\n", MAGIC),
    (4, 0, 4, b"fault F5 at 4\n", MAGIC),
    (24, 1, 24, b"0 PASS 0 2\nfault F5 at 24\n", ONE),
    (44, 2, 44, b"0 PASS 0 2\n1 PASS 0 2\nfault F5 at 44\n", TWO),
];

// The magic and the record of one packet frame of 0 bytes in an `XPF2` stream, with reason 0.
const ONE_WITH_REASON: &[u8] = b"XPF2\0\0\0\0\0\0\0\0\0\0\0\0\0\0\0\0\0\0\0\0\0\0\0\0";

#[rattlefmt::skip]
const BROKEN_WITH_REASONS: &[Stop] = &[
    (0, 0, 0, b"fault F5 at 0\n", MAGIC),
    (4, 0, 4, b"fault F5 at 4\n", b"XPF2"),
    (28, 1, 28, b"0 PASS 0 2 0\nfault F5 at 28\n", ONE_WITH_REASON),
    (52, 2, 52, b"0 PASS 0 2 0\n1 PASS 0 2 0\nfault F5 at 52\n", TWO_WITH_REASONS),
];

const STREAMS: &[(&[u8], &[Stop])] = &[(TWO, BROKEN), (TWO_WITH_REASONS, BROKEN_WITH_REASONS)];

// The last stop that is not past the length.
fn stop_at(stops: &[Stop], length: usize) -> Option<Stop> {
    let mut found = None;
    for stop in stops {
        if stop.0 <= length {
            found = Some(*stop);
        }
    }
    found
}

// Whether the stream's first bytes break so after the last of them.
fn breaks_at(alloc: Global, stream: &[u8], stops: &[Stop], length: usize) -> bool {
    let given = stream.get(..length).unwrap_or(stream);
    match stop_at(stops, length) {
        Some((_, frames, offset, lines, sent)) => {
            let fault = Some((Fault::ReadFailed, offset));
            let ended = Ok(Tally { frames, fault });
            ends_with(alloc, (given, true, TAKES_ALL), ended, lines, sent)
        }
        None => false,
    }
}

#[test]
fn broken_streams(rt: HostRuntime) {
    for (index, (stream, stops)) in STREAMS.iter().enumerate() {
        for length in 0..=stream.len() {
            let is_so = breaks_at(rt.alloc(), *stream, *stops, length);
            holds_at(&rt, is_so, index, length);
        }
    }
}

// A stream without records, and the magic of the frames out, which is there even if the stream's is
// wrong.
const MAGICS: &[(&[u8], &[u8])] = &[
    (b"XPF1", b"XPF1"),
    (b"XPF2", b"XPF2"),
    (b"", b"XPF1"),
    (b"xPF2", b"XPF1"),
];

fn magic_fails(alloc: Global, given: &[u8], magic: &[u8], room: usize) -> bool {
    let out = (room, Some(FAILURES[0]));
    let sent = magic.get(..room).unwrap_or(b"");
    ends_with(
        alloc,
        (given, false, out),
        Err(HostError::Frames),
        b"",
        sent,
    )
}

#[test]
fn magics_fail(rt: HostRuntime) {
    for (index, (given, magic)) in MAGICS.iter().enumerate() {
        for room in 0..4usize {
            holds_at(
                &rt,
                magic_fails(rt.alloc(), *given, *magic, room),
                index,
                room,
            );
        }
    }
}
