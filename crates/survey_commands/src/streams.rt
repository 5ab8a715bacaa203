//! The frame stream that an image is run on.

ghost use Rattle.std.specs.Prelude.{◌≡◌};
ghost use Rattle.survey_commands.specs.Ends.{finish_status};

use crate::begun::NotBegun;
use crate::failures::SurveyError;
use frames::Buffered;
use isa_model::{Fault, Finish};
use messages::{FileForm, file_form_of, say_fault, write_texts};
use std::alloc::Global;
use std::fs;
use std::io::{Read, Write};
use std::rt::Files;

/// How many bytes of packet frames are read at a time.
const BUFFER: usize = 64 * 1024;

/// Opens a frame stream, with a buffer.
pub fn open_stream<R: Files>(
    rt: &R,
    alloc: Global,
    path: &str,
) -> Result<Buffered<<R as Files>::File>, NotBegun> {
    match fs::open(rt, path) {
        Ok(source) => match Buffered::new(alloc, BUFFER, source) {
            Ok(source) => Ok(source),
            Err(_) => Err(NotBegun::Failed(SurveyError::Memory)),
        },
        Err(error) => Err(NotBegun::Failed(SurveyError::of_read(alloc, path, error.kind()))),
    }
}

/// What the bytes are that a source begins with.
fn form_by<S: Read + Drop>(mut source: S) -> FileForm {
    let mut front = [0; 4];
    match source.read(&mut front) {
        Ok(count) => file_form_of(&front[..count.min(4)]),
        Err(_) => FileForm::Unknown,
    }
}

/// What a file is that has no magic of a frame stream; a pipe is not read again.
fn form_of<R: Files>(rt: &R, path: &str) -> FileForm {
    let is_file = match fs::metadata(rt, path) {
        Ok(found) => found.is_file(),
        Err(_) => false,
    };
    if !is_file {
        return FileForm::Unknown;
    }
    match fs::open(rt, path) {
        Ok(source) => form_by(source),
        Err(_) => FileForm::Unknown,
    }
}

/// Says on standard error which fault ended the stream of a file, and returns the status.
pub fn say_faulted<R: Files, W: Write>(rt: &R, path: &str, fault: Fault, err: &mut W) -> u8
    ensures { result ≡ 3 }
{
    let _ = match fault {
        Fault::BadMagic => {
            write_texts(err, fault.sentence(), form_of(rt, path).stream_line(), "")
        }
        _ => say_fault(err, fault, FileForm::Unknown),
    };
    3
}

/// Says on standard error which fault ended the stream of a file, if one did, and returns the
/// status.
pub fn say_finish<R: Files, W: Write>(rt: &R, path: &str, finish: Finish, err: &mut W) -> u8
    ensures { result ≡ finish_status finish }
{
    match finish {
        Finish::End => 0,
        Finish::Fault(fault, _) => say_faulted(rt, path, fault, err),
    }
}
