//! Small programs that are run on streams: the result, the report and the frames out.

use crate::tests::programs::image_of;
use exact_io::failing::{Failure, Reader, Writer};
use explorer::{Verified, verify};
use host::{HostError, Tally, run, run_checked, tally_in};
use image::Image;
use std::alloc::Global;
use std::io::ErrorKind;

/// Passes each packet frame.
pub const PASSES: &str = "r0 = 2; exit";

/// The magic and the records of two packet frames of 0 bytes.
pub const TWO: &[u8] = b"XPF1\
    \0\0\0\0\0\0\0\0\0\0\0\0\0\0\0\0\0\0\0\0\
    \0\0\0\0\0\0\0\0\0\0\0\0\0\0\0\0\0\0\0\0";

/// The magic and the record of one packet frame of 0 bytes.
pub const ONE: &[u8] = b"XPF1\0\0\0\0\0\0\0\0\0\0\0\0\0\0\0\0\0\0\0\0";

/// The magic and the records of two packet frames of 0 bytes in an `XPF2` stream, with reason 0.
pub const TWO_WITH_REASONS: &[u8] = b"XPF2\
    \0\0\0\0\0\0\0\0\0\0\0\0\0\0\0\0\0\0\0\0\0\0\0\0\
    \0\0\0\0\0\0\0\0\0\0\0\0\0\0\0\0\0\0\0\0\0\0\0\0";

pub const MAGIC: &[u8] = b"XPF1";

/// An output: after how many bytes it fails, and how, if it does.
pub type Output = (usize, Option<Failure>);

/// An output that takes all.
pub const TAKES_ALL: Output = (0, None);

/// A program that is run on a stream, with the result, the report and the frames out.
#[derive(Drop)]
pub struct Case<'a> {
    pub text: &'a str,
    /// Says whether the program is run with checks, and at most 100 steps; or else it is verified.
    pub is_checked: bool,
    pub given: &'a [u8],
    /// Says whether a read fails after the last byte.
    pub is_broken: bool,
    /// The outputs for the report and the frames out, and how they fail.
    pub report: Output,
    pub out: Output,
    pub ended: Result<Tally, HostError>,
    pub lines: &'a [u8],
    pub sent: &'a [u8],
}

// A writer that takes at most 5 bytes at a call.
fn writer_of(alloc: Global, output: Output) -> Writer {
    Writer::new(alloc, 5, output.0, output.1)
}

// A reader of at most 3 bytes at a call, which fails after the last; or of all bytes at once.
fn reader_of<'a>(case: &Case<'a>) -> Reader<'a> {
    Reader {
        left: case.given,
        chunk: if case.is_broken { 3 } else { usize::MAX },
        room: case.given.len(),
        failing: if case.is_broken {
            Some(Failure::Error(ErrorKind::BrokenPipe))
        } else {
            None
        },
    }
}

// Whether the result, the report and the frames out are those of the case.
fn are_of(case: &Case<'_>, ended: Result<Tally, HostError>, report: &Writer, out: &Writer) -> bool {
    ended == case.ended
        && report.taken.as_slice() == case.lines
        && out.taken.as_slice() == case.sent
}

fn checks_so(alloc: Global, image: Image, case: &Case<'_>) -> bool {
    let mut report = writer_of(alloc, case.report);
    let mut out = writer_of(alloc, case.out);
    let ended = run_checked(alloc, image, 100, reader_of(case), &mut report, &mut out);
    are_of(case, tally_in(ended), &report, &out)
}

fn runs_so(alloc: Global, program: Verified, case: &Case<'_>) -> bool {
    let mut report = writer_of(alloc, case.report);
    let mut out = writer_of(alloc, case.out);
    let ended = run(alloc, program, reader_of(case), &mut report, &mut out);
    are_of(case, ended, &report, &out)
}

fn verifies_so(alloc: Global, image: Image, case: &Case<'_>) -> bool {
    match verify(alloc, image) {
        Ok(program) => runs_so(alloc, program, case),
        Err(_) => false,
    }
}

/// Returns whether the result, the report and the frames out of a case's program are those of the
/// case.
pub fn ends_so(alloc: Global, case: &Case<'_>) -> bool {
    match image_of(alloc, case.text) {
        Some(image) if case.is_checked => checks_so(alloc, image, case),
        Some(image) => verifies_so(alloc, image, case),
        None => false,
    }
}
