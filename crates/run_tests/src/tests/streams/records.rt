//! Records from a reader and to a writer that fail after each byte, and the magic.

use crate::tests::rows::holds_at;
use exact_io::failing::{FAILURES, Failure, Reader, Writer};
use frames::{FrameReader, Next, write_frame};
use isa_model::{Fault, FrameHead};
use std::alloc::Global;
use std::io::ErrorKind;

// The magic and the records of two packet frames of 0 bytes.
const TWO: &[u8] = &[
    88, 80, 70, 49, 0, 0, 0, 0, 0, 0, 0, 0, 0, 0, 0, 0, 0, 0, 0, 0, 0, 0, 0, 0, 0, 0, 0, 0, 0, 0,
    0, 0, 0, 0, 0, 0, 0, 0, 0, 0, 0, 0, 0, 0,
];

const HEAD: FrameHead = FrameHead {
    time: 0x0807_0605_0403_0201,
    interface: 0x0c0b_0a09,
    queue: 0x100f_0e0d,
};

// The magic, and a record whose body has five bytes.
const RECORD: &[u8] =
    b"XPF1\x01\x02\x03\x04\x05\x06\x07\x08\x09\x0a\x0b\x0c\x0d\x0e\x0f\x10\x05\0\0\0hello";

// Whether two calls of `next` found the same.
fn are_same(one: Next, other: Next) -> bool {
    match (one, other) {
        (Next::Frame(head, length, reason), Next::Frame(wanted, long, why)) => {
            head.time == wanted.time
                && head.interface == wanted.interface
                && head.queue == wanted.queue
                && length == long
                && reason == why
        }
        (Next::End, Next::End) => true,
        (Next::Fault(fault, offset), Next::Fault(wanted, at)) => fault == wanted && offset == at,
        _ => false,
    }
}

// How many records come before the stop, the stop, and the result of the call after it.
fn stop_of(source: Reader<'_>) -> (u32, Next, Next) {
    let mut reader = FrameReader::new(source);
    let mut buffer = [0; 9216];
    for count in 0..3u32 {
        match reader.next(&mut buffer) {
            Next::Frame(_, _, _) => {}
            stop => return (count, stop, reader.next(&mut buffer)),
        }
    }
    (3, Next::End, Next::End)
}

// How many bytes move at a call.
const CHUNKS: &[usize] = &[1, 2, 3, 7];

// If a read fails after this many bytes or more: how many records are read, and how it ends.
type Stop = (usize, u32, Next);

// The last stop that is not past what was reached.
fn stop_at(stops: &[Stop], reached: usize) -> (u32, Next) {
    let mut found = (3, Next::End);
    for (from, count, stop) in stops {
        if *from <= reached {
            found = (*count, *stop);
        }
    }
    found
}

// Whether the stream stops so, however many bytes move at a call.
fn stops_so(left: &[u8], room: usize, failing: Failure, (count, stop): (u32, Next)) -> bool {
    for chunk in CHUNKS {
        let source = Reader {
            left,
            chunk: *chunk,
            room,
            failing: Some(failing),
        };
        let (found, first, after) = stop_of(source);
        if found != count || !are_same(first, stop) || !are_same(after, stop) {
            return false;
        }
    }
    true
}

#[rattlefmt::skip]
const BROKEN: &[Stop] = &[
    (0, 0, Next::Fault(Fault::ReadFailed, 0)),
    (4, 0, Next::Fault(Fault::ReadFailed, 4)),
    (24, 1, Next::Fault(Fault::ReadFailed, 24)),
    (44, 2, Next::Fault(Fault::ReadFailed, 44)),
];

const BROKEN_BODY: &[Stop] = &[(24, 0, Next::Fault(Fault::ReadFailed, 4))];

// Streams, after which bytes a read fails, and how they stop.
const FAILING: &[(&[u8], usize, usize, &[Stop])] = &[
    (TWO, 0, 45, BROKEN),
    (RECORD, 24, 29, BROKEN_BODY),
];

// The failures that are errors.
const ERRORS: &[Failure] = &[
    Failure::Error(ErrorKind::BrokenPipe),
    Failure::Error(ErrorKind::Interrupted),
];

// Whether the stream stops so for each error.
fn breaks_so(stream: &[u8], room: usize, stops: &[Stop]) -> bool {
    for error in ERRORS {
        if !stops_so(stream, room, *error, stop_at(stops, room)) {
            return false;
        }
    }
    true
}

#[test]
fn broken(rt: HostRuntime) {
    for (index, (stream, from, to, stops)) in FAILING.iter().enumerate() {
        for room in *from..*to {
            holds_at(&rt, breaks_so(*stream, room, *stops), index, room);
        }
    }
}

// Why writing the record fails, if it does.
fn failure_of_writing(writer: &mut Writer) -> Option<ErrorKind> {
    match write_frame(writer, &HEAD, b"hello") {
        Ok(()) => None,
        Err(error) => Some(error.kind()),
    }
}

// How a failure is reported, if the record is longer than that many bytes.
fn reported(room: usize, failing: Failure) -> Option<ErrorKind> {
    match failing {
        _ if room >= 25 => None,
        Failure::Error(kind) => Some(kind),
        Failure::Nothing => Some(ErrorKind::WriteZero),
    }
}

// Whether writing fails so, and the bytes before the failure are written.
fn fails_in_writing(alloc: Global, chunk: usize, room: usize, failing: Failure) -> bool {
    let mut writer = Writer::new(alloc, chunk, room, Some(failing));
    let failure = failure_of_writing(&mut writer);
    failure == reported(room, failing) && Some(writer.taken.as_slice()) == RECORD[4..].get(..room)
}

// How many bytes move at a call of the writer.
const WRITTEN_CHUNKS: &[usize] = &[1, 7, 25];

fn fail_in_writing(alloc: Global, room: usize, failing: Failure) -> bool {
    for chunk in WRITTEN_CHUNKS {
        if !fails_in_writing(alloc, *chunk, room, failing) {
            return false;
        }
    }
    true
}

#[test]
fn failing_writes(rt: HostRuntime) {
    for (index, failing) in FAILURES.iter().enumerate() {
        for room in 0..26usize {
            holds_at(
                &rt,
                fail_in_writing(rt.alloc(), room, *failing),
                index,
                room,
            );
        }
    }
}

const REASONED: &[u8] =
    b"XPF2\x09\0\0\0\0\0\0\0\x02\0\0\0\x07\0\0\0\x05\0\0\0\x01\x02\x03\x04hello";

const FRAME: Next = Next::Frame(
    FrameHead {
        time: 9,
        interface: 2,
        queue: 7,
    },
    5,
    0x0403_0201,
);

type Begun = Result<u8, (Fault, u64)>;

// A stream, the result for its magic, what follows it, and the results after that.
type Beginning = (&'static [u8], Begun, Next, Begun);

const BEGUN: &[Beginning] = &[
    (b"XPF1", Ok(1), Next::End, Ok(1)),
    (b"XPF2", Ok(2), Next::End, Ok(2)),
    (REASONED, Ok(2), FRAME, Ok(2)),
    (
        b"XPF2\0",
        Ok(2),
        Next::Fault(Fault::TruncatedHead, 4),
        Err((Fault::TruncatedHead, 4)),
    ),
    (
        b"XPF1\0",
        Ok(1),
        Next::Fault(Fault::TruncatedHead, 4),
        Err((Fault::TruncatedHead, 4)),
    ),
    (
        b"XPF3",
        Err((Fault::BadMagic, 0)),
        Next::Fault(Fault::BadMagic, 0),
        Err((Fault::BadMagic, 0)),
    ),
    (
        b"XPF",
        Err((Fault::BadMagic, 0)),
        Next::Fault(Fault::BadMagic, 0),
        Err((Fault::BadMagic, 0)),
    ),
];

// The result of the last of that many calls of `begin`, or 0; then those of `next`, and of `begin`
// twice more.
fn calls_of(given: &[u8], times: u32) -> (Begun, Next, Begun, Begun) {
    let mut reader = FrameReader::new(given);
    let mut buffer = [0; 9216];
    let mut begun = Ok(0);
    for _ in 0..times {
        begun = reader.begin();
    }
    let next = reader.next(&mut buffer);
    (begun, next, reader.begin(), reader.begin())
}

fn begins_so((given, first, next, after): &Beginning) -> bool {
    for times in 0..3u32 {
        let first = if times == 0 { Ok(0) } else { *first };
        let (begun, found, second, third) = calls_of(*given, times);
        let are_begun = begun == first && second == *after && third == *after;
        if !are_begun || !are_same(found, *next) {
            return false;
        }
    }
    true
}

// The magic is read once, whether `begin` or `next` comes first.
#[test]
fn magic_is_read_once(rt: HostRuntime) {
    for (index, row) in BEGUN.iter().enumerate() {
        holds_at(&rt, begins_so(row), index, 0);
    }
}
