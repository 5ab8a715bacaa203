//! Writers with a buffer whose first bytes are written at once.

use crate::tests::rows::holds_at;
use exact_io::failing::{FAILURES, Writer};
use exact_io::{PromptWriter, write_bytes};
use std::alloc::Global;
use std::io::Write;

const TEXT: &[u8; 7] = b"letters";

/// Returns whether writing the text succeeds, with a flush after it or without one, or `None` if
/// memory is out.
fn written_to(alloc: Global, writer: &mut Writer, is_flushed: bool) -> Option<bool> {
    match PromptWriter::new(alloc, 16, 3, writer) {
        Ok(mut prompt) => {
            let is_written = write_bytes(&mut prompt, TEXT).is_ok();
            Some(is_written && (!is_flushed || prompt.flush().is_ok()))
        }
        Err(_) => None,
    }
}

/// Says how many bytes move at a call, whether a flush follows, and how many bytes are written.
const WAITS: &[(usize, bool, usize)] = &[
    (1, false, 3),
    (1, true, 7),
    (2, false, 3),
    (2, true, 7),
    (3, false, 3),
    (3, true, 7),
    (7, false, 3),
    (7, true, 7),
];

/// Returns whether that many bytes are written to a writer, and writing succeeds or not.
fn is_written(alloc: Global, writer: Writer, is_flushed: bool, wanted: (bool, usize)) -> bool {
    let mut writer = writer;
    written_to(alloc, &mut writer, is_flushed) == Some(wanted.0)
        && Some(writer.taken.as_slice()) == TEXT.get(..wanted.1)
}

/// Three bytes are written at once, even in parts; the others wait for a flush, and are not written
/// without one.
#[test]
fn waits(rt: HostRuntime) {
    for (index, (chunk, is_flushed, count)) in WAITS.iter().enumerate() {
        let writer = Writer::new(rt.alloc(), *chunk, 0, None);
        let is_so = is_written(rt.alloc(), writer, *is_flushed, (true, *count));
        holds_at(&rt, is_so, index, *count);
    }
}

/// The first write finds a writer that fails within three bytes; one that fails later would be
/// found by a flush, which is not called here. The writer keeps what it took.
#[test]
fn fails(rt: HostRuntime) {
    for (index, failing) in FAILURES.iter().enumerate() {
        for room in 0..7usize {
            let writer = Writer::new(rt.alloc(), 7, room, Some(*failing));
            let wanted = (room >= 3, room.min(3));
            holds_at(
                &rt,
                is_written(rt.alloc(), writer, false, wanted),
                index,
                room,
            );
        }
    }
}
