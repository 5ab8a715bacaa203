//! Reads and writes of a few bytes at a call, tried with a failure after each count of bytes.

use crate::tests::rows::holds_at;
use exact_io::failing::{FAILURES, Failure, Reader, Writer};
use exact_io::{Filled, fill, write_bytes};
use std::alloc::Global;
use std::io::ErrorKind;

const TEXT: &[u8; 7] = b"letters";

/// Says how many bytes move at a call.
const CHUNKS: &[usize] = &[1, 2, 3, 7];

/// Returns why writing fails, if it does.
fn failure_of_writing(writer: &mut Writer, bytes: &[u8]) -> Option<ErrorKind> {
    match write_bytes(writer, bytes) {
        Ok(()) => None,
        Err(error) => Some(error.kind()),
    }
}

/// Returns how a failure after that many bytes is reported, if there are more.
fn reported(room: usize, failing: Failure) -> Option<ErrorKind> {
    match failing {
        _ if room >= 7 => None,
        Failure::Error(kind) => Some(kind),
        Failure::Nothing => Some(ErrorKind::WriteZero),
    }
}

/// Returns whether writing fails so, and the bytes before the failure are written.
fn fails_in_writing(alloc: Global, chunk: usize, room: usize, failing: Failure) -> bool {
    let mut writer = Writer::new(alloc, chunk, room, Some(failing));
    let failure = failure_of_writing(&mut writer, TEXT);
    failure == reported(room, failing) && Some(writer.taken.as_slice()) == TEXT.get(..room)
}

fn fail_in_writing(alloc: Global, room: usize, failing: Failure) -> bool {
    for chunk in CHUNKS {
        if !fails_in_writing(alloc, *chunk, room, failing) {
            return false;
        }
    }
    true
}

#[test]
fn writes(rt: HostRuntime) {
    for (index, failing) in FAILURES.iter().enumerate() {
        for room in 0..8usize {
            holds_at(
                &rt,
                fail_in_writing(rt.alloc(), room, *failing),
                index,
                room,
            );
        }
    }
}

fn filled(reader: &mut Reader<'_>, buffer: &mut [u8]) -> Filled {
    fill(reader, buffer)
}

fn fails_in_filling(chunk: usize, room: usize, failing: Failure) -> bool {
    let mut reader = Reader {
        left: TEXT.as_slice(),
        chunk,
        room,
        failing: Some(failing),
    };
    let mut buffer = [0; 5];
    let wanted = match (room, failing) {
        (5, _) => Filled::Whole,
        (_, Failure::Error(_)) => Filled::Failed(room),
        (_, Failure::Nothing) => Filled::Ended(room),
    };
    filled(&mut reader, &mut buffer) == wanted
        && buffer.get(..room) == TEXT.get(..room)
        && Some(reader.left) == TEXT.get(room..)
}

fn fail_in_filling(room: usize, failing: Failure) -> bool {
    for chunk in CHUNKS {
        if !fails_in_filling(*chunk, room, failing) {
            return false;
        }
    }
    true
}

#[test]
fn fills(rt: HostRuntime) {
    for (index, failing) in FAILURES.iter().enumerate() {
        for room in 0..6usize {
            holds_at(&rt, fail_in_filling(room, *failing), index, room);
        }
    }
}

fn filled_of_slice(left: &mut &[u8], buffer: &mut [u8]) -> Filled {
    fill(left, buffer)
}

fn is_written_to_none(bytes: &[u8]) -> bool {
    let mut full: [u8; 0] = [];
    let mut writer = full.as_mut_slice();
    write_bytes(&mut writer, bytes).is_ok()
}

/// The result of filling a buffer from a slice, and how many bytes are left.
fn filled_from(bytes: &[u8], buffer: &mut [u8]) -> (Filled, usize) {
    let mut left = bytes;
    let found = filled_of_slice(&mut left, buffer);
    (found, left.len())
}

fn are_empty_so() -> bool {
    filled_from(TEXT, &mut []) == (Filled::Whole, 7)
        && filled_from(b"", &mut [0; 5]) == (Filled::Ended(0), 0)
        && is_written_to_none(b"")
        && !is_written_to_none(b"x")
}

#[test]
fn empty(rt: HostRuntime) {
    assert!(rt; are_empty_so());
}
