//! Reading a file: its first bytes, or as far as they decide what is said of it.

ghost use Rattle.std.specs.Prelude.{◌≡◌, IfOk, IfSome, IsTrue, length, take};
ghost use Rattle.assembler.specs.Assembling.{assembled};
ghost use Rattle.assembler.specs.Settled.{IsTextSettled};
ghost use Rattle.table_entries.specs.Tables.{table_read};
ghost use Rattle.commands.specs.Texts.{spelled};

use super::texts::KeptText;
use assembler::is_text_settled;
use image::Image;
use std::alloc::Global;
use std::io::{ErrorKind, Read};
use std::rt::Files;
use std::{fs, io};
use table_entries::is_settled;

// How many bytes of a table or a text are read at a time, at most.
const PART: usize = 64 * 1024;

// As many bytes of a text are read at least before it is shortened.
const SHORTENED: usize = 4 * PART;

// How many bytes of a table are looked at first: the magic and the count of entries.
const HEAD: usize = 8;

/// All bytes of a source. If they cannot be read to the end, or memory runs out, this returns an
/// error.
fn read_all<S: Read + Drop>(alloc: Global, mut source: S) -> io::Result<Vec<u8>>
    ensures { IfOk result (λ bytes. IfSome (S.remaining source) (λ held. bytes.items ≡ held)) }
{
    let mut bytes = Vec::new(alloc);
    source.read_to_end(&mut bytes)?;
    Ok(bytes)
}

/// The first bytes of a source, at most this many.
fn read_first<S: Read + Drop>(alloc: Global, source: S, most: u64) -> io::Result<Vec<u8>>
    ensures { IfOk result (λ bytes. IfSome (S.remaining source)
        (λ held. bytes.items ≡ take most held)) }
{
    read_all(alloc, source.take(most))
}

/// The bytes of a source, which may spell a table of the image. Once those that were read settle
/// that it is refused, and for what, no more are read. They are looked at when there are four times
/// as many as before.
fn read_settled<S: Read + Drop>(alloc: Global, image: &Image, mut source: S) -> io::Result<Vec<u8>>
    ensures { IfOk result (λ bytes. IfSome (S.remaining source)
        (λ held. table_read image.now held ≡ table_read image.now bytes.items)) }
{
    let mut bytes = Vec::new(alloc);
    let mut buffer = [0; PART];
    let mut enough = HEAD;
    'parts: loop {
        let count = source.read(&mut buffer)?;
        if count == 0 {
            return Ok(bytes);
        }
        if bytes.extend_from_slice(&buffer[..count]).is_err() {
            return Err(io::Error::from(ErrorKind::OutOfMemory));
        }
        if bytes.len() >= enough {
            if is_settled(image, bytes.as_slice()) {
                return Ok(bytes);
            }
            enough = bytes.len().saturating_mul(4);
        }
    }
}

// The lines that are whole, and of a longer one all but a part of it. So what is refused in a text
// is followed by the rest of its line, or by so much of it that the line is not shown.
fn whole_lines(bytes: &[u8]) -> &[u8]
    ensures { result.now ≡ take (length result.now) bytes.now }
{
    let lines = match bytes.iter().rposition(|byte| *byte == b'\n') {
        Some(at) => at + 1,
        None => 0,
    };
    &bytes[..lines.max(bytes.len().saturating_sub(PART))]
}

// Whether a text that begins with these bytes is refused, and for what. If memory runs out, that is
// not known.
fn is_refused(alloc: Global, bytes: &[u8]) -> bool
    ensures { IsTrue result → IsTextSettled bytes.now }
{
    match is_text_settled(alloc, whole_lines(bytes)) {
        Ok(is_settled) => is_settled,
        Err(_) => false,
    }
}

/// The bytes of a source, which may be a program text. Once those that were read settle that it is
/// refused, and for what, no more are read. They are looked at when there are four times as many as
/// before, and what is found that changes nothing is dropped.
fn read_accepted<S: Read + Drop>(alloc: Global, mut source: S) -> io::Result<KeptText>
    ensures { IfOk result (λ text. IfSome (S.remaining source)
        (λ held. assembled held ≡ spelled text)) }
{
    let mut text = KeptText::new(alloc);
    let mut buffer = [0; PART];
    let mut enough = SHORTENED;
    for part in 0..u64::MAX {
        let count = source.read(&mut buffer)?;
        if count == 0 {
            return Ok(text);
        }
        if text.bytes.extend_from_slice(&buffer[..count]).is_err() {
            return Err(io::Error::from(ErrorKind::OutOfMemory));
        }
        if text.bytes.len() >= enough {
            if text.shorten(alloc).is_err() {
                return Err(io::Error::from(ErrorKind::OutOfMemory));
            }
            if is_refused(alloc, text.bytes.as_slice()) {
                return Ok(text);
            }
            enough = text.bytes.len().saturating_mul(4).max(SHORTENED);
        }
    }
    Err(io::Error::from(ErrorKind::FileTooLarge))
}

/// What is kept of a file, which may be a program text, as far as it decides what is said of it.
pub fn read_text<R: Files>(rt: &R, alloc: Global, path: &str) -> io::Result<KeptText> {
    read_accepted(alloc, fs::open(rt, path)?)
}

/// The first bytes of a file, at most this many.
pub fn read_start<R: Files>(rt: &R, alloc: Global, path: &str, most: u64) -> io::Result<Vec<u8>> {
    read_first(alloc, fs::open(rt, path)?, most)
}

/// The bytes of a file, which may be a table of the image, as far as they decide what is said of
/// it.
pub fn read_table<R: Files>(
    rt: &R,
    alloc: Global,
    image: &Image,
    path: &str,
) -> io::Result<Vec<u8>> {
    read_settled(alloc, image, fs::open(rt, path)?)
}
