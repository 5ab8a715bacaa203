//! Programs that are run on streams, tried with a failure of one output after each count of its
//! bytes.

use super::cases::{Case, MAGIC, ONE, PASSES, TAKES_ALL, TWO, TWO_WITH_REASONS, ends_so};
use crate::tests::rows::holds_at;
use exact_io::failing::{FAILURES, Failure};
use host::{HostError, Tally};
use std::alloc::Global;

// A program on a stream, and what both outputs get if none fails.
struct Whole {
    text: &'static str,
    is_checked: bool,
    given: &'static [u8],
    frames: u32,
    lines: &'static [u8],
    sent: &'static [u8],
    // rows of two numbers: if the report fails after the first number of bytes or more, and less
    // than the next row has, the second number of bytes of the frames out is written
    sent_before: &'static [(usize, usize)],
    // the same with the two outputs exchanged
    lines_before: &'static [(usize, usize)],
}

// Counts packet frames, adds the keys 254 and 16, and traps.
const COUNTS: &str = "
    map hash 1 2 3; map array 4 8 1
    r1 = map_val(map_by_idx(1)) + 0; r2 = 1; lock *(u64 *)(r1 + 0) += r2
    *(u16 *)(r10 - 4) = 513
    *(u8 *)(r10 - 1) = 254; r2 = r10; r2 += -1; r3 = r10; r3 += -4; call put
    *(u8 *)(r10 - 1) = 16; r2 = r10; r2 += -1; r3 = r10; r3 += -4; call put
    r0 = *(u8 *)(r10 + 0); exit
    put: r1 = map_by_idx(0); r4 = 0; call 2; exit";

// The report on two packet frames: a trap undoes nothing, and the second run finds what the first
// one left. The key-value pairs come after the lines of the frames, in the order of their keys.
const COUNTED: &[u8] = b"0 TRAP access 0 24\n1 TRAP access 0 24\nmap 0 10 0102\nmap 0 fe 0102\n\
map 1 00000000 0200000000000000\nend 2\n";

const ONE_LINE: &[u8] = b"0 PASS 0 2\nend 1\n";

const SENT_BEFORE_ONE: &[(usize, usize)] = &[(0, 4), (11, 24)];

const LINES_BEFORE_ONE: &[(usize, usize)] = &[(0, 0), (4, 11), (24, 17)];

const WHOLES: &[Whole] = &[
    Whole {
        text: PASSES,
        is_checked: true,
        given: ONE,
        frames: 1,
        lines: ONE_LINE,
        sent: ONE,
        sent_before: SENT_BEFORE_ONE,
        lines_before: LINES_BEFORE_ONE,
    },
    Whole {
        text: PASSES,
        is_checked: false,
        given: ONE,
        frames: 1,
        lines: ONE_LINE,
        sent: ONE,
        sent_before: SENT_BEFORE_ONE,
        lines_before: LINES_BEFORE_ONE,
    },
    Whole {
        text: PASSES,
        is_checked: false,
        given: TWO,
        frames: 2,
        lines: b"0 PASS 0 2\n1 PASS 0 2\nend 2\n",
        sent: TWO,
        sent_before: &[(0, 4), (11, 24), (22, 44)],
        lines_before: &[(0, 0), (4, 11), (24, 22), (44, 28)],
    },
    Whole {
        text: PASSES,
        is_checked: true,
        given: TWO_WITH_REASONS,
        frames: 2,
        lines: b"0 PASS 0 2 0\n1 PASS 0 2 0\nend 2\n",
        sent: TWO_WITH_REASONS,
        sent_before: &[(0, 4), (13, 28), (26, 52)],
        lines_before: &[(0, 0), (4, 13), (28, 26), (52, 32)],
    },
    // a report that fails among the key-value pairs ends there
    Whole {
        text: COUNTS,
        is_checked: true,
        given: TWO,
        frames: 2,
        lines: COUNTED,
        sent: MAGIC,
        sent_before: &[(0, 4)],
        lines_before: &[(0, 0), (4, 104)],
    },
];

// The second number of the last row whose first number is not past what was reached.
fn count_at(rows: &[(usize, usize)], reached: usize) -> usize {
    let mut count = 0;
    for (from, second) in rows {
        if *from <= reached {
            count = *second;
        }
    }
    count
}

fn front(bytes: &'static [u8], count: usize) -> &'static [u8] {
    bytes.get(..count).unwrap_or(bytes)
}

// The result if an output of this size fails after `room` bytes.
fn end_of(whole: &Whole, room: usize, size: usize, error: HostError) -> Result<Tally, HostError> {
    if room < size {
        return Err(error);
    }
    Ok(Tally {
        frames: whole.frames,
        fault: None,
    })
}

fn report_fails(alloc: Global, whole: &Whole, failing: Failure, room: usize) -> bool {
    let case = Case {
        text: whole.text,
        is_checked: whole.is_checked,
        given: whole.given,
        is_broken: false,
        report: (room, Some(failing)),
        out: TAKES_ALL,
        ended: end_of(whole, room, whole.lines.len(), HostError::Report),
        lines: front(whole.lines, room),
        sent: front(whole.sent, count_at(whole.sent_before, room)),
    };
    ends_so(alloc, &case)
}

fn frames_out_fail(alloc: Global, whole: &Whole, failing: Failure, room: usize) -> bool {
    let case = Case {
        text: whole.text,
        is_checked: whole.is_checked,
        given: whole.given,
        is_broken: false,
        report: TAKES_ALL,
        out: (room, Some(failing)),
        ended: end_of(whole, room, whole.sent.len(), HostError::Frames),
        lines: front(whole.lines, count_at(whole.lines_before, room)),
        sent: front(whole.sent, room),
    };
    ends_so(alloc, &case)
}

// Whether both outputs fail so, each after that many bytes. An output that has room for all bytes
// does not fail.
fn each_fails(alloc: Global, whole: &Whole, room: usize) -> bool {
    for failing in FAILURES.iter() {
        if room <= whole.lines.len() && !report_fails(alloc, whole, *failing, room) {
            return false;
        }
        if room <= whole.sent.len() && !frames_out_fail(alloc, whole, *failing, room) {
            return false;
        }
    }
    true
}

#[test]
fn outputs_that_fail(rt: HostRuntime) {
    for (index, whole) in WHOLES.iter().enumerate() {
        for room in 0..=whole.lines.len().max(whole.sent.len()) {
            holds_at(&rt, each_fails(rt.alloc(), whole, room), index, room);
        }
    }
}
