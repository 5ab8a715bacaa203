//! The proof table of `r0 = 2; exit`, written to outputs that fail.

use super::rows::holds_at;
use exact_io::failing::{Failure, Writer};
use explorer::{Verified, verify};
use image::Image;
use proof_table::{WriteTableError, write_table};
use std::alloc::Global;
use std::io::ErrorKind;

/// `r0 = 2; exit`.
const IMAGE: [u8; 24] = *b"XBP1\0\0\x02\0\xb7\0\0\0\x02\0\0\0\x95\0\0\0\0\0\0\0";

fn image(alloc: Global) -> Option<Image> {
    match Image::parse(alloc, &IMAGE) {
        Ok(image) => Some(image),
        Err(_) => None,
    }
}

fn verified(alloc: Global) -> Option<Verified> {
    let Some(image) = image(alloc) else {
        return None;
    };
    match verify(alloc, image) {
        Ok(verified) => Some(verified),
        Err(_) => None,
    }
}

/// The whole table.
fn written(alloc: Global, verified: &Verified) -> Option<Vec<u8>> {
    let mut bytes = Vec::new(alloc);
    match write_table(alloc, verified, &mut bytes) {
        Ok(()) => Some(bytes),
        Err(_) => None,
    }
}

/// The ways in which a writer fails, each with the cause that is reported.
const FAILURES: &[(Failure, ErrorKind)] = &[
    (Failure::Error(ErrorKind::BrokenPipe), ErrorKind::BrokenPipe),
    (
        Failure::Error(ErrorKind::Interrupted),
        ErrorKind::Interrupted,
    ),
    (Failure::Nothing, ErrorKind::WriteZero),
];

/// Says how many bytes are written before the failure: none, a part of the head, the head, a part
/// of entry 0, and all but the last byte.
const ROOMS: &[usize] = &[0, 5, 8, 100, 371];

/// A writer that fails after `room` bytes.
type Failing = (usize, Failure, ErrorKind);

/// Returns whether the cause is reported, and the writer takes the bytes of the table before its
/// failure.
fn is_cut(alloc: Global, verified: &Verified, table: &[u8], how: Failing) -> bool {
    let (room, failing, kind) = how;
    let mut writer = Writer::new(alloc, 7, room, Some(failing));
    let ended = write_table(alloc, verified, &mut writer);
    ended == Err(WriteTableError::Writer(kind))
        && Some(writer.taken.as_slice()) == table.get(..room)
}

fn stops_so(alloc: Global, how: Failing) -> bool {
    let Some(verified) = verified(alloc) else {
        return false;
    };
    match written(alloc, &verified) {
        Some(table) => is_cut(alloc, &verified, table.as_slice(), how),
        None => false,
    }
}

#[test]
fn stops_where_the_writer_fails(rt: HostRuntime) {
    for (index, (failing, kind)) in FAILURES.iter().enumerate() {
        for room in ROOMS.iter() {
            let is_so = stops_so(rt.alloc(), (*room, *failing, *kind));
            holds_at(&rt, is_so, index, *room);
        }
    }
}
